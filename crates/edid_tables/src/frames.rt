//! The tables by their names.
ghost use Rattle.std.specs.Prelude.{◌≡◌, IsTrue};
ghost use Rattle.edid_fields.specs.Fields.{is_table};
ghost use Rattle.edid_fields.specs.Forms.{table_in_code};
ghost use Rattle.edid_tables.specs.Frames.{frame_parts};

use crate::heads::{extended_parts, head_parts, identifier_parts, no_parts, payload_parts};
use edid_fields::Part;

/// What bytes are that are no data block's own.
#[derive(Clone, Copy, Debug, PartialEq, Eq)]
pub enum Frame {
    /// The tag and the length of a data block.
    Head,
    /// The identifier of a vendor.
    Identifier,
    /// An extended tag, and the identifier of a vendor of video or audio.
    Extended,
    /// Bytes that have no table.
    Payload,
    /// No bytes.
    Nothing,
}

/// The parts of a table.
pub fn frame_parts(frame: Frame) -> &'static [Part]
    ensures value { table_in_code result.now ≡ frame_parts frame }
    ensures table { IsTrue (is_table (table_in_code result.now)) }
{
    match frame {
        Frame::Head => head_parts(),
        Frame::Identifier => identifier_parts(),
        Frame::Extended => extended_parts(),
        Frame::Payload => payload_parts(),
        Frame::Nothing => no_parts(),
    }
}
