//! What an InfoFrame is by its bytes.
ghost use Rattle.std.specs.Prelude.{◌≡◌, ◌≤◌, IsTrue, length};
ghost use Rattle.edid_fields.specs.Fields.{is_table};
ghost use Rattle.edid_fields.specs.Forms.{table_in_code};
ghost use Rattle.infoframe_tables.specs.Kinds.{beyond_of, checksum_due, is_summed, kind_by, kind_of, kind_word, length_of, missing_of, own_bytes, packet_byte, vendor_kind, vendor_of, version_of};
ghost use Rattle.infoframe_tables.specs.Tables.{frame_parts};

use crate::avi::avi_parts;
use crate::hdr::hdr_parts;
use crate::sound::audio_parts;
use crate::vendors::{forum_parts, hdmi_parts, other_parts, vendor_parts};
use edid_base::checksum_of;
use edid_fields::Part;
use text_core::{before, byte_at};

/// The type of a Vendor-Specific InfoFrame (CTA-861-H, section 6, InfoFrame types).
const VENDOR_TYPE: u8 = 0x81;
/// The type of an AVI InfoFrame.
const AVI_TYPE: u8 = 0x82;
/// The type of an Audio InfoFrame.
const AUDIO_TYPE: u8 = 0x84;
/// The type of a Dynamic Range and Mastering InfoFrame.
const HDR_TYPE: u8 = 0x87;
/// The identifier of HDMI.
const HDMI_VENDOR: u32 = 0x00_0c03;
/// The identifier of the HDMI Forum.
const FORUM_VENDOR: u32 = 0xc4_5dd8;
/// The bytes before the data bytes.
const FRONT: usize = 4;

/// Which InfoFrame it is.
#[derive(Clone, Copy, Debug, PartialEq, Eq)]
pub enum FrameKind {
    /// Auxiliary Video Information.
    Avi,
    /// Audio.
    Audio,
    /// Dynamic Range and Mastering.
    Hdr,
    /// HDMI's own Vendor-Specific InfoFrame.
    Hdmi,
    /// The HDMI Forum's.
    Forum,
    /// Another vendor's.
    Vendor,
    /// Of another type.
    Other,
}

/// A byte PB0, PB1 and so on of a packet; 0 past its end.
pub fn packet_byte(frame: &[u8], place: u8) -> u8
    ensures { result ≡ packet_byte frame.now place }
{
    byte_at(frame, 3 + usize::from(place))
}

/// The version of an InfoFrame.
pub fn version_of(frame: &[u8]) -> u8
    ensures { result ≡ version_of frame.now }
{
    byte_at(frame, 1)
}

/// How many data bytes an InfoFrame says that it has.
pub fn length_of(frame: &[u8]) -> u8
    ensures value { result ≡ length_of frame.now }
    ensures small { result ≤ 31 }
{
    byte_at(frame, 2) % 32
}

fn vendor_of(frame: &[u8]) -> u32
    ensures { result ≡ vendor_of frame.now }
{
    u32::from(packet_byte(frame, 1))
        + u32::from(packet_byte(frame, 2)) * 256
        + u32::from(packet_byte(frame, 3)) * 65536
}

fn vendor_kind(vendor: u32) -> FrameKind
    ensures { result ≡ vendor_kind vendor }
{
    match vendor {
        HDMI_VENDOR => FrameKind::Hdmi,
        FORUM_VENDOR => FrameKind::Forum,
        _ => FrameKind::Vendor,
    }
}

fn kind_by(kind: u8, vendor: u32) -> FrameKind
    ensures { result ≡ kind_by kind vendor }
{
    match kind {
        VENDOR_TYPE => vendor_kind(vendor),
        AVI_TYPE => FrameKind::Avi,
        AUDIO_TYPE => FrameKind::Audio,
        HDR_TYPE => FrameKind::Hdr,
        _ => FrameKind::Other,
    }
}

/// Which InfoFrame some bytes are.
pub fn kind_of(frame: &[u8]) -> FrameKind
    ensures { result ≡ kind_of frame.now }
{
    kind_by(byte_at(frame, 0), vendor_of(frame))
}

/// The word of a kind.
pub fn kind_word(kind: FrameKind) -> &'static str
    ensures { result.now ≡ kind_word kind }
{
    match kind {
        FrameKind::Avi => "avi",
        FrameKind::Audio => "audio",
        FrameKind::Hdr => "hdr",
        FrameKind::Hdmi => "hdmi",
        FrameKind::Forum => "hdmi-forum",
        FrameKind::Vendor => "vendor",
        FrameKind::Other => "other",
    }
}

/// The table of a kind: the header, the checksum and the data bytes.
pub fn frame_parts(kind: FrameKind) -> &'static [Part]
    ensures value { table_in_code result.now ≡ frame_parts kind }
    ensures table { IsTrue (is_table (table_in_code result.now)) }
{
    match kind {
        FrameKind::Avi => avi_parts(),
        FrameKind::Audio => audio_parts(),
        FrameKind::Hdr => hdr_parts(),
        FrameKind::Hdmi => hdmi_parts(),
        FrameKind::Forum => forum_parts(),
        FrameKind::Vendor => vendor_parts(),
        FrameKind::Other => other_parts(),
    }
}

/// The bytes that the length of an InfoFrame counts, and those before them, as far as they are there.
pub fn own_bytes(frame: &[u8]) -> &[u8]
    ensures { result.now ≡ own_bytes frame.now }
{
    before(frame, FRONT + usize::from(length_of(frame)))
}

/// How many of these are missing.
pub fn missing_of(frame: &[u8]) -> usize
    ensures { result ≡ missing_of frame.now }
{
    (FRONT + usize::from(length_of(frame))).saturating_sub(frame.len())
}

/// How many bytes follow them.
pub fn beyond_of(frame: &[u8]) -> usize
    ensures { result ≡ beyond_of frame.now }
{
    frame
        .len()
        .saturating_sub(FRONT + usize::from(length_of(frame)))
}

/// The checksum that an InfoFrame is to have.
pub fn checksum_due(frame: &[u8]) -> u8
    ensures { result ≡ checksum_due frame.now }
{
    let sum = u16::from(byte_at(frame, 3)) + u16::from(checksum_of(own_bytes(frame)));
    (sum % 256) as u8
}

/// Whether it has that.
pub fn is_summed(frame: &[u8]) -> bool
    ensures { result ≡ is_summed frame.now }
{
    byte_at(frame, 3) == checksum_due(frame)
}
