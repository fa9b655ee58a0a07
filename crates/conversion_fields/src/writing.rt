//! Writing the objects of an EDID.
ghost use Rattle.std.specs.Prelude.{◌≤◌, length};
ghost use Rattle.text_core.specs.Cut.{WrittenText};
ghost use Rattle.conversion_fields.specs.Whole.{edid_text};

use crate::whole::add_edid;
use edid_base::Base;
use edid_cta::Ext;
use text_core::{Counted, Sink, WriteFault};

/// Writes an object for each part of an EDID, in the order of its bytes, and after it one for each of its fields.
///
/// # Errors
///
/// A `put` took none. The front of the objects was written, as long as the fault's count says.
pub fn write_fields<S: Sink>(
    base: &Base,
    extensions: &[Ext],
    out: &mut S,
) -> Result<u128, WriteFault>
    requires few { length extensions.now ≤ 3 }
    ensures { WrittenText (S.contents out.old) (S.contents out.new) (S.is_stuck out.old) (S.is_stuck out.new) (edid_text base.now extensions.now) result }
{
    let mut text = Counted::new(out);
    add_edid(&mut text, base, extensions);
    let written = text.written();
    // No effect at run time. The proof reads what `out` holds from the sink that comes back.
    let _below = text.into_sink();
    written
}
