//! What an InfoFrame says, and whether the EDID of a display offers that.
ghost use Rattle.std.specs.Prelude.{◌≡◌, ◌≤◌, OnOk, length, true};
ghost use Rattle.infoframe_tables.specs.Bytes.{frame_bytes};
ghost use Rattle.program_edids.specs.Framed.{ShowsOffered, ShowsOfferedBy, TellsOffered};
ghost use Rattle.program_edids.specs.Told.{told};

use crate::edid_fault::EdidFault;
use crate::edid_read::bytes_for;
use crate::edid_told::told;
use arrayvec::ArrayVec;
use cli_choice::{EdidReading, Recipient, Source};
use edid_base::Base;
use edid_core::read_parts;
use edid_cta::Ext;
use infoframe_check::write_infoframe;
use infoframe_tables::InfoFrame;
use record_core::Form;
use std::alloc::Global;
use text_core::Sink;

// Nothing, unless something of an InfoFrame is not as it has to be, or is not offered.
fn if_right(right: bool) -> Result<(), EdidFault>
    ensures { OnOk result (right ≡ true) }
{
    if right {
        Ok(())
    } else {
        Err(EdidFault::NotOffered)
    }
}

// Writes what an InfoFrame says, and what of it the EDID of these parts does not offer. Where there is such, that is a fault.
fn tell<W: Sink>(
    form: Form,
    frame: &InfoFrame,
    base: &Base,
    extensions: &[Ext],
    out: &mut W,
) -> Result<(), EdidFault>
    requires { length extensions.now ≤ 3 }
    ensures { OnOk result (TellsOffered form (frame_bytes frame.now) base.now extensions.now (W.contents out.old) (W.contents out.new)) }
{
    let right = write_infoframe(base, extensions, frame, form, out)?;
    if_right(right)
}

// The same of the EDID of some bytes.
#[inline(never)]
fn tell_of<W: Sink>(
    form: Form,
    frame: &InfoFrame,
    bytes: &[u8],
    out: &mut W,
) -> Result<(), EdidFault>
    ensures { OnOk result (ShowsOfferedBy form (frame_bytes frame.now) bytes.now (W.contents out.old) (W.contents out.new)) }
{
    let mut extensions = ArrayVec::new();
    match read_parts(bytes, &mut extensions) {
        Ok(base) => tell(form, frame, &base, extensions.as_slice(), out),
        Err(cause) => Err(EdidFault::Edid(cause)),
    }
}

/// Writes what an InfoFrame in hex says, and what of it the EDID of an input for a device does not offer. Where there is such, that is
/// a fault, and all of it was written.
pub fn frame<W: Sink>(
    alloc: Global,
    source: Option<Source>,
    reading: EdidReading,
    place: Recipient,
    form: Form,
    hex: &[u8],
    input: &[u8],
    out: &mut W,
) -> Result<(), EdidFault>
    ensures { OnOk result (ShowsOffered (told source input.now) reading place form hex.now input.now (W.contents out.old) (W.contents out.new)) }
{
    let frame = InfoFrame::read(hex)?;
    let own = bytes_for(alloc, told(source, input), reading, place, input)?;
    tell_of(form, &frame, own.as_slice(), out)
}
