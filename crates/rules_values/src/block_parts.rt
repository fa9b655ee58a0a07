//! What the rules ask of data blocks.
ghost use Rattle.std.specs.Prelude.{◌≡◌};
ghost use Rattle.std.specs.List.{list_any};
ghost use Rattle.rules_values.specs.BlockParts.{is_vga_code, lists_vga, is_video_capability, fixes_rgb_range, is_speakers, is_ill_speakers, is_extended_audio, is_sound, is_multichannel_pcm, lists_multichannel_pcm, has_multichannel_pcm, hdmi_of, has_fast_clock, is_hole, is_off_tree, has_wrong_address, has_root_address, is_forum, begins_with_forum, codes_from, hdmi_codes, is_sought};

use edid_cta::{BlockKind, DataBlock};
use edid_layout::{HDMI_FORUM, HdmiBlock, HdmiVideo, identifier, video_bytes};
use text_core::after;

/// The identifier and the physical address of an HDMI block, in bytes.
const ADDRESS_END: usize = 5;
/// The greatest clock of HDMI 1.4: 340 MHz, in units of 5 MHz.
const MAX_TMDS_CLOCK: u8 = 68;
/// The least extended tag of a block that indicates audio: a vendor's.
const VENDOR_AUDIO: u8 = 17;
/// The greatest: the places of speakers.
const SPEAKER_PLACES: u8 = 20;

/// What a rule looks for among data blocks.
#[derive(Clone, Copy, Debug, PartialEq, Eq)]
pub enum Sought {
    /// An HDMI block.
    Hdmi,
    /// The code of 640x480 at 60 Hz.
    Vga,
    VideoCapability,
    /// A video capability block after which the range of RGB values can't be chosen.
    FixedRgbRange,
    /// An HDMI block with a clock above that of HDMI 1.4.
    FastClock,
    /// An HDMI block with an address of no place in a tree.
    WrongAddress,
    /// An HDMI block with the address of the root of a tree.
    RootAddress,
    /// Audio or speakers, also of an extended tag.
    Sound,
    Speakers,
    /// A speaker block of another length than it has.
    IllSpeakers,
    /// Linear PCM of more than two channels.
    MultichannelPcm,
}

fn has_vga_code(codes: &[u8]) -> bool
    ensures { result ≡ list_any is_vga_code codes.now }
{
    codes.iter().any(|code| *code == 1 || *code == 129)
}

fn lists_vga(block: &DataBlock) -> bool
    ensures { result ≡ lists_vga block.now }
{
    matches!(block.kind, BlockKind::Video) && has_vga_code(block.payload.as_slice())
}

fn is_video_capability(block: &DataBlock) -> bool
    ensures { result ≡ is_video_capability block.now }
{
    let payload = block.payload.as_slice();
    matches!(block.kind, BlockKind::Extended) && 0 < payload.len() && payload[0] == 0
}

fn fixes_rgb_range(block: &DataBlock) -> bool
    ensures { result ≡ fixes_rgb_range block.now }
{
    let payload = block.payload.as_slice();
    is_video_capability(block) && 1 < payload.len() && payload[1] / 64 % 2 == 0
}

pub fn is_speakers(block: &DataBlock) -> bool
    ensures { result ≡ is_speakers block.now }
{
    matches!(block.kind, BlockKind::Speakers)
}

fn is_ill_speakers(block: &DataBlock) -> bool
    ensures { result ≡ is_ill_speakers block.now }
{
    is_speakers(block) && block.payload.len() != 3
}

/// Whether its extended tag is that of a vendor's audio, of HDMI's audio, of a room or of the places of speakers.
fn is_extended_audio(block: &DataBlock) -> bool
    ensures { result ≡ is_extended_audio block.now }
{
    let payload = block.payload.as_slice();
    matches!(block.kind, BlockKind::Extended)
        && 0 < payload.len()
        && VENDOR_AUDIO <= payload[0]
        && payload[0] <= SPEAKER_PLACES
}

fn is_sound(block: &DataBlock) -> bool
    ensures { result ≡ is_sound block.now }
{
    block.is_audio() || is_speakers(block) || is_extended_audio(block)
}

/// Whether the first byte of an audio format indicates linear PCM with more than two channels.
fn is_multichannel_pcm(first: u8) -> bool
    ensures { result ≡ is_multichannel_pcm first }
{
    first / 8 % 16 == 1 && 1 < first % 8
}

fn lists_multichannel_pcm(formats: &[u8]) -> bool
    ensures { result ≡ lists_multichannel_pcm formats.now }
{
    match formats {
        [first, _, _, more @ ..] => is_multichannel_pcm(*first) || lists_multichannel_pcm(more),
        _ => false,
    }
}

fn has_multichannel_pcm(block: &DataBlock) -> bool
    ensures { result ≡ has_multichannel_pcm block.now }
{
    block.is_audio() && lists_multichannel_pcm(block.payload.as_slice())
}

/// What an HDMI block says after its physical address.
pub fn hdmi_of(block: &DataBlock) -> HdmiBlock
    ensures { result ≡ hdmi_of block.now }
{
    HdmiBlock::of(after(block.payload.as_slice(), ADDRESS_END))
}

fn has_fast_clock(block: &DataBlock) -> bool
    ensures { result ≡ has_fast_clock block.now }
{
    block.is_hdmi() && MAX_TMDS_CLOCK < hdmi_of(block).max_clock
}

fn is_hole(first: u8, second: u8) -> bool
    ensures { result ≡ is_hole first second }
{
    first == 0 && 0 < second
}

fn is_off_tree(high: u8, low: u8) -> bool
    ensures { result ≡ is_off_tree high low }
{
    high == 255 && low == 255
        || is_hole(high / 16, high % 16)
        || is_hole(high % 16, low / 16)
        || is_hole(low / 16, low % 16)
}

fn has_wrong_address(block: &DataBlock) -> bool
    ensures { result ≡ has_wrong_address block.now }
{
    let payload = block.payload.as_slice();
    block.is_hdmi() && is_off_tree(payload[3], payload[4])
}

fn has_root_address(block: &DataBlock) -> bool
    ensures { result ≡ has_root_address block.now }
{
    let payload = block.payload.as_slice();
    block.is_hdmi() && payload[3] == 0 && payload[4] == 0
}

/// Whether it is a vendor block of the HDMI Forum.
pub fn is_forum(block: &DataBlock) -> bool
    ensures { result ≡ is_forum block.now }
{
    matches!(block.kind, BlockKind::Vendor) && identifier(block.payload.as_slice()) == HDMI_FORUM
}

/// Whether a block of the HDMI Forum has no HDMI block before it.
pub fn begins_with_forum(blocks: &[DataBlock]) -> bool
    ensures { result ≡ begins_with_forum blocks.now }
{
    match blocks {
        [] => false,
        [block, rest @ ..] => !block.is_hdmi() && (is_forum(block) || begins_with_forum(rest)),
    }
}

/// The codes of HDMI's own, of the bytes from the video formats on.
fn codes_from(video: Option<HdmiVideo>, bytes: &[u8]) -> &[u8]
    ensures { result.now ≡ codes_from video bytes.now }
{
    match video {
        None => &[],
        Some(video) => video.codes_in(bytes),
    }
}

/// The codes of HDMI's own in the payload of an HDMI block.
pub fn hdmi_codes(payload: &[u8]) -> &[u8]
    ensures { result.now ≡ hdmi_codes payload.now }
{
    let bytes = after(payload, ADDRESS_END);
    codes_from(HdmiBlock::of(bytes).video, video_bytes(bytes))
}

/// Whether a data block is what a rule looks for.
pub fn is_sought(sought: Sought, block: &DataBlock) -> bool
    ensures { result ≡ is_sought sought block.now }
{
    match sought {
        Sought::Hdmi => block.is_hdmi(),
        Sought::Vga => lists_vga(block),
        Sought::VideoCapability => is_video_capability(block),
        Sought::FixedRgbRange => fixes_rgb_range(block),
        Sought::FastClock => has_fast_clock(block),
        Sought::WrongAddress => has_wrong_address(block),
        Sought::RootAddress => has_root_address(block),
        Sought::Sound => is_sound(block),
        Sought::Speakers => is_speakers(block),
        Sought::IllSpeakers => is_ill_speakers(block),
        Sought::MultichannelPcm => has_multichannel_pcm(block),
    }
}
