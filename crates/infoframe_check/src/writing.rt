//! Writing the records of an InfoFrame.
ghost use Rattle.std.specs.Prelude.{◌≡◌, ◌≤◌, length};
ghost use Rattle.infoframe_check.specs.Found.{is_right};
ghost use Rattle.infoframe_check.specs.Records.{infoframe_text, unoffered_text};
ghost use Rattle.infoframe_claims.specs.Claims.{claims_of};
ghost use Rattle.infoframe_check.specs.Verdict.{WritesVerdict};
ghost use Rattle.infoframe_tables.specs.Bytes.{frame_bytes};
ghost use Rattle.text_core.specs.Adds.{Adds};
ghost use Rattle.text_core.specs.Cut.{WrittenText};

use crate::fields::add_fields;
use crate::header::{add_header, is_well_formed};
use crate::unoffered::{add_claims, are_offered};
use edid_base::Base;
use edid_cta::Ext;
use infoframe_claims::claims_of;
use infoframe_tables::InfoFrame;
use record_core::Form;
use text_core::{Counted, Sink, WriteFault};

fn add_unoffered<S: Sink>(
    out: &mut Counted<'_, S>,
    form: Form,
    base: &Base,
    extensions: &[Ext],
    frame: &[u8],
)
    requires extensions { length extensions.now ≤ 3 }
    ensures { Adds out.old out.new (unoffered_text form base.now extensions.now (claims_of frame.now)) }
{
    let claims = claims_of(frame);
    add_claims(out, form, base, extensions, &claims);
}

#[tactic(auto, using(text_core::proofs::Adding::then))]
fn add_infoframe<S: Sink>(
    out: &mut Counted<'_, S>,
    form: Form,
    base: &Base,
    extensions: &[Ext],
    frame: &[u8],
)
    requires extensions { length extensions.now ≤ 3 }
    requires few { length frame.now ≤ 31 }
    ensures { Adds out.old out.new (infoframe_text form base.now extensions.now frame.now) }
{
    add_header(out, form, frame);
    add_fields(out, form, frame);
    add_unoffered(out, form, base, extensions, frame);
}

fn write_records<S: Sink>(
    base: &Base,
    extensions: &[Ext],
    frame: &[u8],
    form: Form,
    out: &mut S,
) -> Result<u128, WriteFault>
    requires extensions { length extensions.now ≤ 3 }
    requires few { length frame.now ≤ 31 }
    ensures { WrittenText (S.contents out.old) (S.contents out.new) (S.is_stuck out.old) (S.is_stuck out.new) (infoframe_text form base.now extensions.now frame.now) result }
{
    let mut text = Counted::new(out);
    add_infoframe(&mut text, form, base, extensions, frame);
    let written = text.written();
    // No effect at run time. The proof reads what `out` holds from the sink that comes back.
    let _below = text.into_sink();
    written
}

fn is_right(base: &Base, extensions: &[Ext], frame: &[u8]) -> bool
    requires extensions { length extensions.now ≤ 3 }
    requires few { length frame.now ≤ 31 }
    ensures { result ≡ is_right base.now extensions.now frame.now }
{
    is_well_formed(frame) && are_offered(base, extensions, &claims_of(frame))
}

// The same of the bytes of an InfoFrame.
fn write_verdict<S: Sink>(
    base: &Base,
    extensions: &[Ext],
    frame: &[u8],
    form: Form,
    out: &mut S,
) -> Result<bool, WriteFault>
    requires extensions { length extensions.now ≤ 3 }
    requires few { length frame.now ≤ 31 }
    ensures { WritesVerdict (S.contents out.old) (S.contents out.new) (S.is_stuck out.old) (S.is_stuck out.new) (infoframe_text form base.now extensions.now frame.now) (is_right base.now extensions.now frame.now) result }
{
    let right = is_right(base, extensions, frame);
    match write_records(base, extensions, frame, form, out) {
        Ok(_) => Ok(right),
        Err(fault) => Err(fault),
    }
}

/// Writes a record of an InfoFrame, one for each of its fields, and one for each thing that it says and the display does not offer.
/// Returns whether the InfoFrame is well-formed and the display offers all that it says.
///
/// # Errors
///
/// Where the sink takes no more: then the front of the records was written, as long as it says.
pub fn write_infoframe<S: Sink>(
    base: &Base,
    extensions: &[Ext],
    frame: &InfoFrame,
    form: Form,
    out: &mut S,
) -> Result<bool, WriteFault>
    requires few { length extensions.now ≤ 3 }
    ensures { WritesVerdict (S.contents out.old) (S.contents out.new) (S.is_stuck out.old) (S.is_stuck out.new)
        (infoframe_text form base.now extensions.now (frame_bytes frame.now)) (is_right base.now extensions.now (frame_bytes frame.now)) result }
{
    write_verdict(base, extensions, frame.bytes(), form, out)
}
