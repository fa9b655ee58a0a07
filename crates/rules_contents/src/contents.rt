//! What the rules ask of what stands in a data block.
ghost use Rattle.std.specs.Prelude.{◌≡◌, slice_index};
ghost use Rattle.std.specs.List.{list_any};
ghost use Rattle.rules_contents.specs.Contents.{has_extended_tag, is_forum_block, is_of_sort, least_length, has_ill_length, lists_format_zero, has_format_zero, has_reserved_hdr, is_reserved_code, has_reserved_code, is_reserved_hdmi, has_reserved_hdmi, forum_of, is_ill_clock, has_ill_clock, lacks_scdc, are_ill_rates, has_ill_rates, comes_after, is_late, has_late, are_late, has_late_sound, is_named_reserved, has_other_reserved, has_other_length, has_slip};

use edid_cta::{BlockKind, DataBlock};
use edid_layout::{Delay, ForumBlock, Latencies};
use edid_tables::{cut_of, has_reserved, left_of};
use rules_values::{hdmi_codes, hdmi_of, is_forum, is_speakers};
use text_core::after;

/// The extended tag of a video capability block.
const VIDEO_CAPABILITY: u8 = 0x00;
/// That of a colorimetry block.
const COLORIMETRY: u8 = 0x05;
/// That of a block of static HDR metadata.
const HDR_STATIC: u8 = 0x06;
/// That of a block of formats in 4:2:0 alone.
const VIDEO_420: u8 = 0x0e;
/// That of a map of the formats that are there in 4:2:0 too.
const MAP_420: u8 = 0x0f;
/// That of the HDMI Forum's override of the count of extensions.
const OVERRIDE: u8 = 0x78;
/// That of the HDMI Forum's sink capabilities.
const SINK_CAPABILITY: u8 = 0x79;
/// Where the version of the HDMI Forum's capabilities stands.
const VERSION: usize = 3;
/// The greatest code of a video format.
const LAST_CODE: u8 = 219;
/// The greatest code of HDMI's own.
const LAST_HDMI_CODE: u8 = 4;
/// The greatest clock that the HDMI Forum's block leaves to the HDMI block: 340 MHz, in units of 5 MHz.
const LEAST_FORUM_CLOCK: u8 = 68;
/// The greatest clock of TMDS: 600 MHz, in units of 5 MHz.
const MOST_FORUM_CLOCK: u8 = 120;
/// What the least rate of variable refresh is at most, in Hz.
const MOST_LEAST_RATE: u16 = 48;
/// What the greatest rate of variable refresh is at least, in Hz.
const LEAST_MOST_RATE: u16 = 100;

/// The bytes of a speaker block.
const SPEAKER_BYTES: usize = 3;
/// How late sound may be, in milliseconds.
const MOST_LATE: u32 = 20;

/// A sort of data blocks of which an extension has one at most.
#[derive(Clone, Copy, Debug, PartialEq, Eq)]
pub enum Sort {
    VideoCapability,
    Colorimetry,
    HdrStatic,
    /// The formats that are there in 4:2:0 too.
    Map,
    Speakers,
    /// The HDMI Forum's capabilities, in a vendor block or in an extended one.
    Forum,
}

/// What is wrong in a data block.
#[derive(Clone, Copy, Debug, PartialEq, Eq)]
pub enum Slip {
    /// A length that its kind has not.
    Length,
    /// The reserved tag 0.
    Tag,
    /// The reserved audio format 0.
    AudioFormat,
    /// Reserved transfer functions, or types of metadata.
    HdrBits,
    /// A video code of no format.
    VideoCode,
    /// A code of HDMI's own that stands for no format.
    HdmiCode,
    /// A clock that the HDMI Forum's block does not report.
    ForumClock,
    /// A fixed rate link without SCDC.
    ForumScdc,
    /// Rates of variable refresh that do not go together.
    ForumRates,
    /// Sound that is late.
    Latency,
    /// A reserved value of a field, which none of the others names.
    Reserved,
    /// Bytes that its table lacks, or that are left over, which no other rule names.
    Bytes,
}

/// Whether it is an extended block with this tag.
pub fn has_extended_tag(tag: u8, block: &DataBlock) -> bool
    ensures { result ≡ has_extended_tag tag block.now }
{
    let payload = block.payload.as_slice();
    matches!(block.kind, BlockKind::Extended) && 0 < payload.len() && payload[0] == tag
}

/// Whether it is a vendor block of the HDMI Forum, or its block of sink capabilities.
pub fn is_forum_block(block: &DataBlock) -> bool
    ensures { result ≡ is_forum_block block.now }
{
    is_forum(block) || has_extended_tag(SINK_CAPABILITY, block)
}

/// Whether it is the HDMI Forum's override of the count of extensions.
pub fn is_override(block: &DataBlock) -> bool
    ensures { result ≡ has_extended_tag 0x78 block.now }
{
    has_extended_tag(OVERRIDE, block)
}

pub fn is_of_sort(sort: Sort, block: &DataBlock) -> bool
    ensures { result ≡ is_of_sort sort block.now }
{
    match sort {
        Sort::VideoCapability => has_extended_tag(VIDEO_CAPABILITY, block),
        Sort::Colorimetry => has_extended_tag(COLORIMETRY, block),
        Sort::HdrStatic => has_extended_tag(HDR_STATIC, block),
        Sort::Map => has_extended_tag(MAP_420, block),
        Sort::Speakers => is_speakers(block),
        Sort::Forum => is_forum_block(block),
    }
}

/// A byte of the payload, or 0 past its end.
pub fn byte_at(block: &DataBlock, place: usize) -> u8
    ensures { result ≡ slice_index block.now.payload.items place }
{
    let payload = block.payload.as_slice();
    if place < payload.len() {
        payload[place]
    } else {
        0
    }
}

/// The least bytes of an extended block with this tag, the tag among them.
fn least_length(tag: u8) -> usize
    ensures { result ≡ least_length tag }
{
    match tag {
        VIDEO_CAPABILITY => 2,
        COLORIMETRY | HDR_STATIC => 3,
        _ => 1,
    }
}

fn has_ill_length(block: &DataBlock) -> bool
    ensures { result ≡ has_ill_length block.now }
{
    let count = block.payload.len();
    block.is_audio() && count % 3 != 0
        || matches!(block.kind, BlockKind::Extended) && count < least_length(byte_at(block, 0))
}

/// Whether one of some formats, of three bytes each, has the code 0.
fn lists_format_zero(formats: &[u8]) -> bool
    ensures { result ≡ lists_format_zero formats.now }
{
    match formats {
        [first, _, _, more @ ..] => first / 8 % 16 == 0 || lists_format_zero(more),
        _ => false,
    }
}

fn has_format_zero(block: &DataBlock) -> bool
    ensures { result ≡ has_format_zero block.now }
{
    block.is_audio() && lists_format_zero(block.payload.as_slice())
}

fn has_reserved_hdr(block: &DataBlock) -> bool
    ensures { result ≡ has_reserved_hdr block.now }
{
    has_extended_tag(HDR_STATIC, block) && (15 < byte_at(block, 1) || 1 < byte_at(block, 2))
}

fn some_reserved_code(codes: &[u8]) -> bool
    ensures { result ≡ list_any is_reserved_code codes.now }
{
    codes.iter().any(|code| LAST_CODE < *code)
}

fn has_reserved_code(block: &DataBlock) -> bool
    ensures { result ≡ has_reserved_code block.now }
{
    let payload = block.payload.as_slice();
    matches!(block.kind, BlockKind::Video) && some_reserved_code(payload)
        || has_extended_tag(VIDEO_420, block) && some_reserved_code(&payload[1..])
}

fn some_reserved_hdmi(codes: &[u8]) -> bool
    ensures { result ≡ list_any is_reserved_hdmi codes.now }
{
    codes
        .iter()
        .any(|code| *code == 0 || LAST_HDMI_CODE < *code)
}

fn has_reserved_hdmi(block: &DataBlock) -> bool
    ensures { result ≡ has_reserved_hdmi block.now }
{
    block.is_hdmi() && some_reserved_hdmi(hdmi_codes(block.payload.as_slice()))
}

/// What the HDMI Forum's capabilities say, from the version on.
pub fn forum_of(block: &DataBlock) -> ForumBlock
    ensures { result ≡ forum_of block.now }
{
    ForumBlock::of(after(block.payload.as_slice(), VERSION))
}

fn is_ill_clock(clock: u8) -> bool
    ensures { result ≡ is_ill_clock clock }
{
    0 < clock && clock <= LEAST_FORUM_CLOCK || MOST_FORUM_CLOCK < clock
}

fn has_ill_clock(block: &DataBlock) -> bool
    ensures { result ≡ has_ill_clock block.now }
{
    is_forum_block(block) && is_ill_clock(forum_of(block).max_rate)
}

/// Whether there is a fixed rate link without SCDC.
fn lacks_scdc(block: &DataBlock) -> bool
    ensures { result ≡ lacks_scdc block.now }
{
    let forum = forum_of(block);
    is_forum_block(block) && 0 < forum.fixed_rate && !forum.has_scdc
}

fn are_ill_rates(least: u16, most: u16) -> bool
    ensures { result ≡ are_ill_rates least most }
{
    MOST_LEAST_RATE < least || 0 < most && (most < LEAST_MOST_RATE || least == 0)
}

fn has_ill_rates(block: &DataBlock) -> bool
    ensures { result ≡ has_ill_rates block.now }
{
    let forum = forum_of(block);
    is_forum_block(block) && are_ill_rates(u16::from(forum.least_refresh), forum.greatest_refresh)
}

/// Whether sound is late by more than 20 ms, after so many milliseconds of video.
fn comes_after(video: u16, audio: Delay) -> bool
    ensures { result ≡ comes_after video audio }
{
    match audio {
        Delay::Time(audio) => u32::from(video) + MOST_LATE < u32::from(audio),
        Delay::Unknown | Delay::Reserved | Delay::Absent => false,
    }
}

fn is_late(video: Delay, audio: Delay) -> bool
    ensures { result ≡ is_late video audio }
{
    match video {
        Delay::Time(video) => comes_after(video, audio),
        Delay::Unknown | Delay::Reserved | Delay::Absent => false,
    }
}

fn has_late(latencies: Option<Latencies>) -> bool
    ensures { result ≡ has_late latencies }
{
    match latencies {
        None => false,
        Some(latencies) => is_late(latencies.video, latencies.audio),
    }
}

fn are_late(latencies: Option<Latencies>, interlaced: Option<Latencies>) -> bool
    ensures { result ≡ are_late latencies interlaced }
{
    match latencies {
        None => false,
        Some(latencies) => is_late(latencies.video, latencies.audio) || has_late(interlaced),
    }
}

/// Whether the sound of an HDMI block is late, for plain or for interlaced video.
fn has_late_sound(block: &DataBlock) -> bool
    ensures { result ≡ has_late_sound block.now }
{
    let hdmi = hdmi_of(block);
    block.is_hdmi() && are_late(hdmi.latencies, hdmi.interlaced_latencies)
}

/// Whether a slip of its own names a reserved value of a data block.
fn is_named_reserved(block: &DataBlock) -> bool
    ensures { result ≡ is_named_reserved block.now }
{
    has_format_zero(block)
        || has_reserved_hdr(block)
        || has_reserved_code(block)
        || has_reserved_hdmi(block)
}

fn has_other_reserved(block: &DataBlock) -> bool
    ensures { result ≡ has_other_reserved block.now }
{
    has_reserved(block) && !is_named_reserved(block)
}

fn has_other_length(block: &DataBlock) -> bool
    ensures { result ≡ has_other_length block.now }
{
    (0 < cut_of(block) || 0 < left_of(block))
        && !(has_ill_length(block) || is_speakers(block) && block.payload.len() != SPEAKER_BYTES)
}

/// Whether this is wrong in a data block.
pub fn has_slip(slip: Slip, block: &DataBlock) -> bool
    ensures { result ≡ has_slip slip block.now }
{
    match slip {
        Slip::Length => has_ill_length(block),
        Slip::Tag => matches!(block.kind, BlockKind::Tag0),
        Slip::AudioFormat => has_format_zero(block),
        Slip::HdrBits => has_reserved_hdr(block),
        Slip::VideoCode => has_reserved_code(block),
        Slip::HdmiCode => has_reserved_hdmi(block),
        Slip::ForumClock => has_ill_clock(block),
        Slip::ForumScdc => lacks_scdc(block),
        Slip::ForumRates => has_ill_rates(block),
        Slip::Latency => has_late_sound(block),
        Slip::Reserved => has_other_reserved(block),
        Slip::Bytes => has_other_length(block),
    }
}
