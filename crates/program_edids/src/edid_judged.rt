//! What is wrong with the EDID of some bytes, whose base block may count its extensions otherwise.
ghost use Rattle.std.specs.Prelude.{◌≡◌, ◌≤◌, IfOk, OnOk, false, length, take};
ghost use Rattle.edid_base.specs.Base.{base_bytes};
ghost use Rattle.edid_as_source.specs.Count.{with_count};
ghost use Rattle.program_edids.specs.Edids.{ShowsFound, ShowsJudged, ShowsOwn};

use crate::edid_fault::EdidFault;
use arrayvec::ArrayVec;
use edid_as_source::with_count;
use edid_base::{Base, part, read_base};
use edid_core::{EdidError, read_parts};
use edid_cta::Ext;
use record_core::Form;
use rules_check::{Origin, check, has_failure};
use rules_records::write_findings;
use text_core::Sink;

/// The fewest and the most bytes of an EDID.
const LEAST: usize = 128;

const MOST: usize = 512;

// Nothing, unless a rule fails.
fn unless_failed(fails: bool) -> Result<(), EdidFault>
    ensures { OnOk result (fails ≡ false) }
{
    if fails {
        return Err(EdidFault::RuleFails);
    }
    Ok(())
}

// Writes the rules that an EDID of these parts breaks.
fn write_found<W: Sink>(
    origin: Origin,
    form: Form,
    base: &Base,
    extensions: &[Ext],
    out: &mut W,
) -> Result<(), EdidFault>
    requires { length extensions.now ≤ 3 }
    ensures { OnOk result (ShowsFound origin form base.now extensions.now (W.contents out.old) (W.contents out.new)) }
{
    let found = check(origin, base, extensions);
    write_findings(out, form, found.as_slice())?;
    unless_failed(has_failure(found.as_slice()))
}

/// Writes the rules that the EDID of some bytes breaks.
#[inline(never)]
pub fn write_own_rules<W: Sink>(
    origin: Origin,
    form: Form,
    bytes: &[u8],
    out: &mut W,
) -> Result<(), EdidFault>
    ensures { OnOk result (ShowsOwn origin form bytes.now (W.contents out.old) (W.contents out.new)) }
{
    let mut extensions = ArrayVec::new();
    match &read_parts(bytes, &mut extensions) {
        Err(cause) => Err(EdidFault::Edid(*cause)),
        Ok(base) => write_found(origin, form, base, extensions.as_slice(), out),
    }
}

// The base block of some bytes, with another count of extensions.
fn counted_base(count: u8, bytes: &[u8]) -> Result<Base, EdidFault>
    ensures { IfOk result (λ base. base_bytes base ≡ take 128 (with_count bytes.now count)) }
{
    if bytes.len() < LEAST || bytes.len() > MOST {
        return Err(EdidFault::Edid(EdidError::Length));
    }
    match read_base(&part(with_count(bytes, count).as_slice(), 0)) {
        Ok(base) => Ok(base),
        Err(cause) => Err(EdidFault::Edid(EdidError::Base(cause))),
    }
}

/// Writes the rules that the EDID of some bytes breaks, for which the base block is that of others with this count of extensions.
#[inline(never)]
pub fn write_counted_rules<W: Sink>(
    origin: Origin,
    form: Form,
    count: u8,
    front: &[u8],
    bytes: &[u8],
    out: &mut W,
) -> Result<(), EdidFault>
    ensures { OnOk result (ShowsJudged origin form count front.now bytes.now (W.contents out.old) (W.contents out.new)) }
{
    let base = counted_base(count, front)?;
    let mut extensions = ArrayVec::new();
    match read_parts(bytes, &mut extensions) {
        Err(cause) => Err(EdidFault::Edid(cause)),
        Ok(_shown) => write_found(origin, form, &base, extensions.as_slice(), out),
    }
}
