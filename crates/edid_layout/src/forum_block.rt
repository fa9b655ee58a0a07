//! The block of the HDMI Forum (HDMI 2.1, section 10.3.2).
ghost use Rattle.std.specs.Prelude.{◌≡◌};
ghost use Rattle.edid_layout.specs.ForumBlock.{forum_block, identifier};

use crate::bits::has_bit;
use text_core::byte_at;

/// The identifier of the HDMI Forum.
pub const HDMI_FORUM: u32 = 0xc45dd8;
/// SCDC_Present
const SCDC: u8 = 128;

/// What a block of the HDMI Forum says. A byte past its end is 0.
#[derive(Clone, Copy, Debug, PartialEq, Eq)]
pub struct ForumBlock {
    pub version: u8,
    /// Max_TMDS_Character_Rate, in units of 5 MHz; 0 where it is not told.
    pub max_rate: u8,
    /// SCDC_Present
    pub has_scdc: bool,
    /// RR_Capable to 3D_OSD_Disparity: bits 6 to 0 of byte 6, as they stand there.
    pub link: u8,
    /// Max_FRL_Rate; 0 where there is no fixed rate link.
    pub fixed_rate: u8,
    /// UHD_VIC and the deep colours in 4:2:0: bits 3 to 0 of byte 7.
    pub depths: u8,
    /// FAPA_End_Extended to FAPA_start_location: byte 8.
    pub pictures: u8,
    /// VRR_min, in Hz; 0 where there is none.
    pub least_refresh: u8,
    /// VRR_max, in Hz; 0 where there is none.
    pub greatest_refresh: u16,
    /// DSC_1p2 to DSC_10bpc: byte 11.
    pub streams: u8,
}

/// The identifier of a maker, whose lowest byte stands first.
pub fn identifier(bytes: &[u8]) -> u32
    ensures { result ≡ identifier bytes.now }
{
    u32::from(byte_at(bytes, 0))
        + u32::from(byte_at(bytes, 1)) * 256
        + u32::from(byte_at(bytes, 2)) * 65536
}

impl ForumBlock {
    /// What a block of the HDMI Forum says, of its bytes from the version on.
    #[tactic(auto, unfolding(crate::specs::ForumBlock::forum_block))]
    pub fn of(bytes: &[u8]) -> ForumBlock
        ensures { result ≡ forum_block bytes.now }
    {
        let link = byte_at(bytes, 2);
        let rates = byte_at(bytes, 3);
        let refresh = byte_at(bytes, 5);
        ForumBlock {
            version: byte_at(bytes, 0),
            max_rate: byte_at(bytes, 1),
            has_scdc: has_bit(link, SCDC),
            link: link % 128,
            fixed_rate: rates / 16,
            depths: rates % 16,
            pictures: byte_at(bytes, 4),
            least_refresh: refresh % 64,
            greatest_refresh: u16::from(refresh / 64) * 256 + u16::from(byte_at(bytes, 6)),
            streams: byte_at(bytes, 7),
        }
    }
}
