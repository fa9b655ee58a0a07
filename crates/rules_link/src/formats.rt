//! The formats of an EDID that its link does not carry.
ghost use Rattle.std.specs.Prelude.{◌≡◌, ◌≤◌, true, false, length};
ghost use Rattle.std.specs.List.{list_any};
ghost use Rattle.edid_layout.specs.HdmiBlock.{code_of_hdmi};
ghost use Rattle.rules_values.specs.ExtParts.{some_block};
ghost use Rattle.rules_values.specs.VideoCodes.{code_of};
ghost use Rattle.rules_link.specs.Offers.{is_of_hdmi, width_of, load_by, load_of, is_some_beyond, is_code_beyond, offers_beyond, has_code_beyond, timing_load, is_timing_beyond, has_known_width, typed_timing_load, typed_load, is_typed_beyond, has_typed_beyond, has_format_beyond};

use crate::link::is_beyond;
use crate::load::Load;
use edid_base::{Base, Timing};
use edid_cta::{DataBlock, Ext};
use edid_displayid::{TypedFormat, TypedTiming, typed_formats};
use edid_layout::code_of_hdmi;
use meaning_words::{VideoFormat, format_of};
use rules_contents::has_extended_tag;
use rules_rates::{Pace, pace_of};
use rules_values::{blocks_of, code_of, hdmi_codes, is_three, video_codes};

/// The extended tag of a block of formats in 4:2:0 alone.
const VIDEO_420: u8 = 0x0e;
/// An input from here on is digital.
const DIGITAL: u8 = 128;
/// The fastest clock in kHz, and the most pixels of a line, that a link is asked for.
const MOST_CLOCK: u64 = 4_294_967_295;

const MOST_PIXELS: u64 = 65_535;
/// The unit of a detailed timing's clock in kHz.
const TIMING_CLOCK: u32 = 10;

/// Whether it is a digital input whose interface may be HDMI's.
pub fn is_of_hdmi(base: &Base) -> bool
    ensures { result ≡ is_of_hdmi base.now }
{
    let interface = base.input % 16;
    DIGITAL <= base.input
        && (is_three(base.revision) || interface == 0 || interface == 2 || interface == 3)
}

fn width_of(format: Option<VideoFormat>) -> u16
    ensures { result ≡ width_of format }
{
    match format {
        None => 0,
        Some(format) => format.width,
    }
}

fn load_by(is_halved: bool, pace: Option<Pace>, width: u16) -> Option<Load>
    ensures { result ≡ load_by is_halved pace width }
{
    match pace {
        None => None,
        Some(pace) => Some(Load {
            clock: pace.clock,
            width,
            pixels: pace.pixels,
            is_halved,
        }),
    }
}

/// The format of a video code as a link carries it, in 4:2:0 alone or not.
pub fn load_of(is_halved: bool, code: u8) -> Option<Load>
    ensures { result ≡ load_of is_halved code }
{
    load_by(is_halved, pace_of(code), width_of(format_of(code)))
}

fn is_some_beyond(extensions: &[Ext], load: Option<Load>) -> bool
    ensures { result ≡ is_some_beyond extensions.now load }
{
    match load {
        None => false,
        Some(load) => is_beyond(extensions, load),
    }
}

/// Whether the link does not carry the format of a video code, in 4:2:0 alone or not.
pub fn is_code_beyond(extensions: &[Ext], is_halved: bool, code: u8) -> bool
    ensures { result ≡ is_code_beyond extensions.now is_halved code }
{
    is_some_beyond(extensions, load_of(is_halved, code))
}

fn codes_beyond(extensions: &[Ext], codes: &[u8]) -> bool
    ensures { result ≡ list_any (is_code_beyond extensions.now false) codes.now }
{
    codes
        .iter()
        .any(|code| is_code_beyond(extensions, false, *code))
}

/// Whether the link does not carry the format of one of these bytes of video codes, in 4:2:0 alone or not.
pub fn svds_beyond(extensions: &[Ext], is_halved: bool, svds: &[u8]) -> bool
    ensures { result ≡ list_any (λ svd. is_code_beyond extensions.now is_halved (code_of svd)) svds.now }
{
    svds.iter()
        .any(|svd| is_code_beyond(extensions, is_halved, code_of(*svd)))
}

/// Whether the link does not carry the format of one of these codes of HDMI's own.
pub fn own_beyond(extensions: &[Ext], codes: &[u8]) -> bool
    ensures { result ≡ list_any (λ code. is_code_beyond extensions.now false (code_of_hdmi code)) codes.now }
{
    codes.iter().any(|code| is_code_beyond(extensions, false, code_of_hdmi(*code)))
}

/// Whether a data block offers formats in 4:2:0 alone, or of HDMI's own, that the link does not carry.
fn offers_beyond(extensions: &[Ext], block: &DataBlock) -> bool
    ensures { result ≡ offers_beyond extensions.now block.now }
{
    let payload = block.payload.as_slice();
    has_extended_tag(VIDEO_420, block) && svds_beyond(extensions, true, &payload[1..])
        || block.is_hdmi() && own_beyond(extensions, hdmi_codes(payload))
}

fn some_offers_beyond(extensions: &[Ext], blocks: &[DataBlock]) -> bool
    ensures { result ≡ list_any (offers_beyond extensions.now) blocks.now }
{
    blocks.iter().any(|block| offers_beyond(extensions, block))
}

fn some_block_beyond(extensions: &[Ext]) -> bool
    ensures { result ≡ some_block (offers_beyond extensions.now) extensions.now }
{
    extensions
        .iter()
        .any(|ext| some_offers_beyond(extensions, blocks_of(ext)))
}

/// Whether the link does not carry a format that has a code: of a video block, in 4:2:0 alone, or of HDMI's own.
fn has_code_beyond(extensions: &[Ext]) -> bool
    requires { length extensions.now ≤ 3 }
    ensures { result ≡ has_code_beyond extensions.now }
{
    codes_beyond(extensions, video_codes(extensions).as_slice()) || some_block_beyond(extensions)
}

/// A detailed timing as a link carries it.
pub fn timing_load(timing: &Timing) -> Load
    ensures { result ≡ timing_load timing.now }
{
    Load {
        clock: u32::from(timing.clock) * TIMING_CLOCK,
        width: timing.horizontal_active,
        pixels: timing.horizontal_active + timing.horizontal_blanking,
        is_halved: false,
    }
}

/// Whether the link does not carry a detailed timing.
pub fn is_timing_beyond(extensions: &[Ext], timing: &Timing) -> bool
    ensures { result ≡ is_timing_beyond extensions.now timing.now }
{
    is_beyond(extensions, timing_load(timing))
}

fn has_known_width(timing: TypedTiming) -> bool
    ensures { result ≡ has_known_width timing }
{
    timing.clock <= MOST_CLOCK && timing.width <= MOST_PIXELS && timing.pixels <= MOST_PIXELS
}

fn typed_timing_load(timing: TypedTiming) -> Option<Load>
    ensures { result ≡ typed_timing_load timing }
{
    if has_known_width(timing) {
        Some(Load {
            clock: timing.clock as u32,
            width: timing.width as u16,
            pixels: timing.pixels as u16,
            is_halved: false,
        })
    } else {
        None
    }
}

/// A format of DisplayID as a link carries it.
pub fn typed_load(format: TypedFormat) -> Option<Load>
    ensures { result ≡ typed_load format }
{
    match format {
        TypedFormat::Timing(timing) => typed_timing_load(timing),
        TypedFormat::Code(code) => load_of(false, code),
    }
}

/// Whether the link does not carry a format of DisplayID.
pub fn is_typed_beyond(extensions: &[Ext], format: TypedFormat) -> bool
    ensures { result ≡ is_typed_beyond extensions.now format }
{
    is_some_beyond(extensions, typed_load(format))
}

/// Whether the link does not carry one of some formats of DisplayID.
pub fn some_typed_beyond(extensions: &[Ext], formats: &[TypedFormat]) -> bool
    ensures { result ≡ list_any (is_typed_beyond extensions.now) formats.now }
{
    formats
        .iter()
        .any(|format| is_typed_beyond(extensions, *format))
}

fn has_typed_beyond(extensions: &[Ext]) -> bool
    requires { length extensions.now ≤ 3 }
    ensures { result ≡ has_typed_beyond extensions.now }
{
    some_typed_beyond(extensions, typed_formats(extensions).as_slice())
}

/// Whether the link does not carry a format that has a code, or one of DisplayID.
pub fn has_format_beyond(extensions: &[Ext]) -> bool
    requires { length extensions.now ≤ 3 }
    ensures { result ≡ has_format_beyond extensions.now }
{
    has_code_beyond(extensions) || has_typed_beyond(extensions)
}
