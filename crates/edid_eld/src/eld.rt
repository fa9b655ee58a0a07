//! An ELD.
ghost use Rattle.std.specs.Prelude.{◌≡◌, ◌<◌, ◌≤◌, ◌%◌, length};

use crate::codes::{Connection, EldVersion};
use arrayvec::ArrayVec;

/// What an ELD says.
#[derive(Drop)]
pub struct Eld {
    pub version: EldVersion,
    /// CEA_EDID_Ver: the version of the EDID's extension of CTA-861, 0 for none.
    pub cta_version: u8,
    pub connection: Connection,
    /// Support_AI: whether the display takes ACP, ISRC1 and ISRC2 packets.
    pub ai: bool,
    pub hdcp: bool,
    /// Aud_Synch_Delay: by how much the audio is to be delayed, in units of 2 ms.
    pub delay: u8,
    /// The first byte of the speaker allocation.
    pub speakers: u8,
    /// Port_ID: the graphics driver's number of the port.
    pub port: [u8; 8],
    /// The manufacturer's name, as it is sent.
    pub maker: [u8; 2],
    /// The manufacturer's code of the product.
    pub product: u16,
    /// Monitor_Name_String.
    pub name: ArrayVec<u8, 16>,
    /// The short audio descriptors, of three bytes each.
    pub audio: ArrayVec<u8, 45>,
    ghost version_fits: { cta_version < 8 },
    ghost eight: { length port ≡ 8 },
    ghost two: { length maker ≡ 2 },
    ghost name_fits: { length name.items ≤ 16 },
    ghost audio_fits: { length audio.items ≤ 45 },
    ghost whole: { length audio.items % 3 ≡ 0 },
}
