//! Where two EDIDs differ.
ghost use Rattle.std.specs.Prelude.{◌≡◌, ◌≤◌, OnOk, false, true, length};
ghost use Rattle.program_edids.specs.Compared.{AreAlike, AreSame, ShowsAlike, TellsSame};

use crate::edid_fault::EdidFault;
use crate::edid_given::halves;
use arrayvec::ArrayVec;
use edid_base::Base;
use edid_core::read_parts;
use edid_cta::Ext;
use edid_difference::write_difference;
use edid_dump::nth_dump_bytes;
use record_core::Form;
use text_core::Sink;

// Nothing, unless there is a text of where two EDIDs differ.
fn unless_told(count: u128) -> Result<(), EdidFault>
    ensures { OnOk result (count ≡ 0) }
{
    if count > 0 {
        return Err(EdidFault::Differ);
    }
    Ok(())
}

// Writes where two EDIDs of these parts differ. Where they do, that is a fault.
fn tell<W: Sink>(
    form: Form,
    first: &Base,
    first_extensions: &[Ext],
    second: &Base,
    second_extensions: &[Ext],
    out: &mut W,
) -> Result<(), EdidFault>
    requires first { length first_extensions.now ≤ 3 }
    requires second { length second_extensions.now ≤ 3 }
    ensures { OnOk result (TellsSame form first.now first_extensions.now second.now second_extensions.now (W.contents out.old) (W.contents out.new)) }
{
    let count = write_difference(
        out,
        form,
        first,
        first_extensions,
        second,
        second_extensions,
    )?;
    unless_told(count)
}

// The same of the second of two EDIDs, of which the first has these parts.
fn compare_second<W: Sink>(
    form: Form,
    first: &Base,
    first_extensions: &[Ext],
    second: &[u8],
    out: &mut W,
) -> Result<(), EdidFault>
    requires { length first_extensions.now ≤ 3 }
    ensures { OnOk result (AreSame form first.now first_extensions.now second.now (W.contents out.old) (W.contents out.new)) }
{
    let mut extensions = ArrayVec::new();
    match read_parts(second, &mut extensions) {
        Ok(base) => tell(
            form,
            first,
            first_extensions,
            &base,
            extensions.as_slice(),
            out,
        ),
        Err(cause) => Err(EdidFault::Second(cause)),
    }
}

// Writes where the EDIDs of some bytes and of others differ. Where they do, that is a fault.
#[inline(never)]
fn compare<W: Sink>(form: Form, first: &[u8], second: &[u8], out: &mut W) -> Result<(), EdidFault>
    ensures { OnOk result (AreAlike form first.now second.now (W.contents out.old) (W.contents out.new)) }
{
    let mut extensions = ArrayVec::new();
    match read_parts(first, &mut extensions) {
        Ok(base) => compare_second(form, &base, extensions.as_slice(), second, out),
        Err(cause) => Err(EdidFault::First(cause)),
    }
}

// The same of the first dump of a text and of the second.
#[inline(never)]
fn compare_dumps<W: Sink>(form: Form, text: &[u8], out: &mut W) -> Result<(), EdidFault>
    ensures { OnOk result (ShowsAlike true form text.now (W.contents out.old) (W.contents out.new)) }
{
    match nth_dump_bytes(text, 1) {
        Err(error) => Err(EdidFault::Dump(error)),
        Ok(first) => match nth_dump_bytes(text, 2) {
            Err(error) => Err(EdidFault::Dump(error)),
            Ok(second) => compare(form, first.as_slice(), second.as_slice(), out),
        },
    }
}

// The same of two EDIDs one after the other.
fn compare_halves<W: Sink>(form: Form, input: &[u8], out: &mut W) -> Result<(), EdidFault>
    ensures { OnOk result (ShowsAlike false form input.now (W.contents out.old) (W.contents out.new)) }
{
    let (first, second) = halves(input);
    compare(form, first, second, out)
}

/// Writes where two EDIDs differ: of the first dump of a text and of the second, or of bytes one after the other. Where they do, that is
/// a fault, and all of it was written.
pub fn diff<W: Sink>(dumps: bool, form: Form, input: &[u8], out: &mut W) -> Result<(), EdidFault>
    ensures { OnOk result (ShowsAlike dumps form input.now (W.contents out.old) (W.contents out.new)) }
{
    if dumps {
        compare_dumps(form, input, out)
    } else {
        compare_halves(form, input, out)
    }
}
