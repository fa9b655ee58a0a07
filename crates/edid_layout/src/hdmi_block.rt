//! The HDMI block: the vendor specific data block of HDMI (HDMI VSDB: HDMI 1.4, section 8.3.2), of its bytes after the physical
//! address.
ghost use Rattle.std.specs.Prelude.{◌≡◌, ◌≤◌, ◌<◌, length};
ghost use Rattle.std.specs.Option.{ForSome};
ghost use Rattle.edid_layout.specs.HdmiBlock.{after_codes, code_of_hdmi, delay_of, hdmi_block, listed_codes, interlaced_place, latencies_in, left_bytes, stereo_bytes, video_bytes, video_of, video_place};

use crate::bits::has_bit;
use text_core::{after, before, byte_at};

/// Supports_AI
const AI: u8 = 128;
/// DC_Y444
const DEEP_444: u8 = 8;
/// DVI_Dual
const DUAL_LINK: u8 = 1;
/// Latency_Fields_Present
const LATENCIES: u8 = 128;
/// I_Latency_Fields_Present
const INTERLACED_LATENCIES: u8 = 64;
/// HDMI_Video_present
const VIDEO: u8 = 32;
/// 3D_present
const STEREO: u8 = 128;

/// How long video or sound takes to come out.
#[derive(Clone, Copy, Debug, PartialEq, Eq)]
pub enum Delay {
    /// Not known.
    Unknown,
    /// Milliseconds.
    Time(u16),
    /// A reserved value.
    Reserved,
    /// There is no video, or no sound.
    Absent,
}

/// The delays of video and of its sound.
#[derive(Clone, Copy, Debug, PartialEq, Eq)]
pub struct Latencies {
    pub video: Delay,
    pub audio: Delay,
}

/// What an HDMI block says of video formats: what stands before HDMI's own codes and 3D.
#[derive(Clone, Copy, Debug, PartialEq, Eq)]
pub struct HdmiVideo {
    /// 3D_present
    pub has_stereo: bool,
    /// 3D_Multi_present: 1, structures of all of the first 16 video codes; 2, of some of them.
    pub multi: u8,
    /// Image_Size: what the sizes of the base block are.
    pub image_size: u8,
    /// Bits 2 to 0.
    pub reserved: u8,
    /// HDMI_VIC_LEN: how many codes of HDMI's own are counted.
    pub codes: u8,
    /// HDMI_3D_LEN: how many bytes of 3D are counted.
    pub stereo: u8,
}

/// What an HDMI block says. A byte past its end is 0.
#[derive(Clone, Copy, Debug, PartialEq, Eq)]
pub struct HdmiBlock {
    /// Supports_AI
    pub supports_ai: bool,
    /// DC_48bit, DC_36bit and DC_30bit: 4, 2 and 1.
    pub deep_colours: u8,
    /// DC_Y444
    pub has_deep_444: bool,
    /// Bits 2 and 1 of byte 6, as they stand there.
    pub reserved: u8,
    /// DVI_Dual
    pub has_dual_link: bool,
    /// Max_TMDS_Clock, in units of 5 MHz; 0 where it is not told.
    pub max_clock: u8,
    /// CNC3 to CNC0 and a reserved bit 4, as they stand in byte 8.
    pub contents: u8,
    pub latencies: Option<Latencies>,
    pub interlaced_latencies: Option<Latencies>,
    pub video: Option<HdmiVideo>,
}

#[tactic(auto, unfolding(crate::specs::HdmiBlock::delay_of))]
fn delay_of(byte: u8) -> Delay
    ensures { result ≡ delay_of byte }
{
    match byte {
        0 => Delay::Unknown,
        1..=251 => Delay::Time(2 * (u16::from(byte) - 1)),
        255 => Delay::Absent,
        _ => Delay::Reserved,
    }
}

#[tactic(auto, unfolding(crate::specs::HdmiBlock::latencies_in))]
fn latencies_in(reported: bool, bytes: &[u8]) -> Option<Latencies>
    ensures { result ≡ latencies_in reported bytes.now }
{
    if reported && 2 <= bytes.len() {
        Some(Latencies {
            video: delay_of(bytes[0]),
            audio: delay_of(bytes[1]),
        })
    } else {
        None
    }
}

fn interlaced_place(presence: u8) -> usize
    ensures value { result ≡ interlaced_place presence }
    ensures small { result ≤ 5 }
{
    3 + 2 * usize::from(presence / 128 % 2)
}

fn video_place(presence: u8) -> usize
    ensures { result ≡ video_place presence }
{
    interlaced_place(presence) + 2 * usize::from(presence / 64 % 2)
}

/// The bytes of an HDMI block from its video formats on.
#[tactic(auto, unfolding(crate::specs::HdmiBlock::video_bytes))]
pub fn video_bytes(bytes: &[u8]) -> &[u8]
    ensures value { result.now ≡ video_bytes bytes.now }
    ensures fewer { length result.now ≤ length bytes.now }
{
    after(bytes, video_place(byte_at(bytes, 2)))
}

#[tactic(auto, unfolding(crate::specs::HdmiBlock::video_of))]
fn video_of(reported: bool, bytes: &[u8]) -> Option<HdmiVideo>
    ensures value { result ≡ video_of reported bytes.now }
    ensures few { ForSome result (λ v. (v.codes < 8) × (v.stereo < 32)) }
{
    if reported && 2 <= bytes.len() {
        let flags = bytes[0];
        let counts = bytes[1];
        Some(HdmiVideo {
            has_stereo: has_bit(flags, STEREO),
            multi: flags / 32 % 4,
            image_size: flags / 8 % 4,
            reserved: flags % 8,
            codes: counts / 32,
            stereo: counts % 32,
        })
    } else {
        None
    }
}

impl HdmiVideo {
    /// HDMI's own codes, of the bytes from the video formats on: so many of them as there are.
    #[tactic(auto, unfolding(crate::specs::HdmiBlock::listed_codes))]
    pub fn codes_in(self, bytes: &[u8]) -> &[u8]
        ensures value { result.now ≡ listed_codes self bytes.now }
        ensures few { length result.now ≤ self.codes }
    {
        before(after(bytes, 2), usize::from(self.codes))
    }

    #[tactic(auto, unfolding(crate::specs::HdmiBlock::after_codes))]
    fn after_codes(self, bytes: &[u8]) -> &[u8]
        ensures value { result.now ≡ after_codes self bytes.now }
        ensures fewer { length result.now ≤ length bytes.now }
    {
        after(bytes, 2 + usize::from(self.codes))
    }

    /// What is told of 3D, of the bytes from the video formats on.
    #[tactic(auto, unfolding(crate::specs::HdmiBlock::stereo_bytes))]
    pub fn stereo_in(self, bytes: &[u8]) -> &[u8]
        ensures value { result.now ≡ stereo_bytes self bytes.now }
        ensures few { length result.now ≤ self.stereo }
    {
        before(self.after_codes(bytes), usize::from(self.stereo))
    }

    /// What stands after that.
    #[tactic(auto, unfolding(crate::specs::HdmiBlock::left_bytes))]
    pub fn left_in(self, bytes: &[u8]) -> &[u8]
        ensures value { result.now ≡ left_bytes self bytes.now }
        ensures fewer { length result.now ≤ length bytes.now }
    {
        after(self.after_codes(bytes), usize::from(self.stereo))
    }
}

/// The video identification code of the format that a code of HDMI's own stands for, or 0 (HDMI 1.4, section 8.2.3).
pub fn code_of_hdmi(hdmi: u8) -> u8
    ensures { result ≡ code_of_hdmi hdmi }
{
    match hdmi {
        1 => 95,
        2 => 94,
        3 => 93,
        4 => 98,
        _ => 0,
    }
}

impl HdmiBlock {
    /// What an HDMI block says, of its bytes after the physical address.
    #[tactic(auto, unfolding(crate::specs::HdmiBlock::hdmi_block))]
    pub fn of(bytes: &[u8]) -> HdmiBlock
        ensures value { result ≡ hdmi_block bytes.now }
        ensures few { ForSome result.video (λ v. (v.codes < 8) × (v.stereo < 32)) }
    {
        let flags = byte_at(bytes, 0);
        let presence = byte_at(bytes, 2);
        HdmiBlock {
            supports_ai: has_bit(flags, AI),
            deep_colours: flags / 16 % 8,
            has_deep_444: has_bit(flags, DEEP_444),
            reserved: flags / 2 % 4 * 2,
            has_dual_link: has_bit(flags, DUAL_LINK),
            max_clock: byte_at(bytes, 1),
            contents: presence % 32,
            latencies: latencies_in(has_bit(presence, LATENCIES), after(bytes, 3)),
            interlaced_latencies: latencies_in(
                has_bit(presence, INTERLACED_LATENCIES),
                after(bytes, interlaced_place(presence)),
            ),
            video: video_of(has_bit(presence, VIDEO), video_bytes(bytes)),
        }
    }
}
