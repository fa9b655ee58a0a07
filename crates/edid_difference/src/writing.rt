//! Writing how two EDIDs differ.
ghost use Rattle.std.specs.Prelude.{◌≤◌, length};
ghost use Rattle.text_core.specs.Cut.{WrittenText};
ghost use Rattle.edid_difference.specs.Records.{difference_text};

use crate::aligning::add_difference;
use edid_base::Base;
use edid_cta::Ext;
use record_core::Form;
use text_core::{Counted, Sink, WriteFault};

/// Writes a record for each line of two EDIDs' texts that stands in one alone, and for each value that differs in lines of one kind:
/// none exactly where they have the same bytes. Answers how many bytes that is.
///
/// # Errors
///
/// A `put` took none. The front of the records was written, as long as the fault's count says.
pub fn write_difference<S: Sink>(
    out: &mut S,
    form: Form,
    first: &Base,
    first_extensions: &[Ext],
    second: &Base,
    second_extensions: &[Ext],
) -> Result<u128, WriteFault>
    requires first { length first_extensions.now ≤ 3 }
    requires second { length second_extensions.now ≤ 3 }
    ensures { WrittenText (S.contents out.old) (S.contents out.new) (S.is_stuck out.old) (S.is_stuck out.new) (difference_text form first.now first_extensions.now second.now second_extensions.now) result }
{
    let mut text = Counted::new(out);
    add_difference(
        &mut text,
        form,
        first,
        first_extensions,
        second,
        second_extensions,
    );
    let written = text.written();
    // No effect at run time. The proof reads what `out` holds from the sink that comes back.
    let _below = text.into_sink();
    written
}
