//! The formats of an EDID beside its detailed timings, and whether one is outside the range limits.
ghost use Rattle.std.specs.Prelude.{◌≡◌, ◌≤◌, ◌<◌, length};
ghost use Rattle.std.specs.List.{list_any};
ghost use Rattle.rules_rates.specs.Formats.{is_known_outside, is_code_outside, established_paces, established_bits, is_established_outside, some_bit_outside, some_established_outside, standard_height, picture_lines, has_too_many_lines, excludes_standard, is_standard_outside, is_paced, timing_pace_of, typed_pace, is_typed_outside, has_format_outside};

use crate::limits::{field_span, is_out_of_range, is_outside, is_over, limits_rates, line_span};
use crate::pace::Pace;
use crate::paces::pace_of;
use crate::span::RateSpan;
use edid_base::{Base, Descriptor, Revision, StandardTiming};
use edid_cta::Ext;
use edid_displayid::{TypedFormat, TypedTiming, typed_formats};
use rules_values::video_codes;

/// A standard timing of this width and less stands for none.
const UNUSED_WIDTH: u16 = 256;
/// The fastest clock in kHz, the most pixels of a line, and the most lines of a picture, that have a pace.
const MOST_CLOCK: u64 = 4_294_967_295;

const MOST_PIXELS: u64 = 65_535;

const MOST_LINES: u64 = 32_767;
/// The lines of a kHz.
pub const LINES: u64 = 1000;

/// The pace of an established timing.
#[derive(Clone, Copy, Debug, PartialEq, Eq)]
pub struct BitPace {
    /// Its bit in the three bytes, the highest first.
    pub bit: u32,
    pub pace: Pace,
}

macro_rules! paces {
    ($($bit:literal $clock:literal $pixels:literal $half_lines:literal;)*) => {
        &[$(BitPace {
            bit: $bit,
            pace: Pace {
                clock: $clock,
                pixels: $pixels,
                half_lines: $half_lines,
            },
        },)*]
    };
}

/// The established timings: bit, clock in kHz, pixels of a line and half lines of a field.
pub const ESTABLISHED: &[BitPace] = paces! {
    8388608 28320 900 898;
    4194304 35500 900 898;
    2097152 25175 800 1050;
    1048576 30240 864 1050;
    524288 31500 832 1040;
    262144 31500 840 1000;
    131072 36000 1024 1250;
    65536 40000 1056 1256;
    32768 50000 1040 1332;
    16384 49500 1056 1250;
    8192 57284 1152 1334;
    4096 44900 1264 817;
    2048 65000 1344 1612;
    1024 75000 1328 1612;
    512 78750 1312 1600;
    256 135000 1688 2132;
    128 100000 1456 1830;
};

fn is_known_outside(base: &Base, pace: Option<Pace>) -> bool
    ensures { result ≡ is_known_outside base.now pace }
{
    match pace {
        None => false,
        Some(pace) => is_out_of_range(base, pace),
    }
}

/// Whether the format of a video code is outside the range limits.
pub fn is_code_outside(base: &Base, code: u8) -> bool
    ensures { result ≡ is_code_outside base.now code }
{
    is_known_outside(base, pace_of(code))
}

fn some_code_outside(base: &Base, codes: &[u8]) -> bool
    ensures { result ≡ list_any (is_code_outside base.now) codes.now }
{
    codes.iter().any(|code| is_code_outside(base, *code))
}

/// The bits of the three bytes of established timings, the highest first.
pub fn established_bits(bytes: &[u8; 3]) -> u32
    ensures { result ≡ established_bits bytes.now }
{
    u32::from(bytes[0]) * 65536 + u32::from(bytes[1]) * 256 + u32::from(bytes[2])
}

/// Whether the established timing of a row is there and outside the range limits.
pub fn is_established_outside(base: &Base, bits: u32, row: BitPace) -> bool
    ensures { result ≡ is_established_outside base.now bits row }
{
    0 < row.bit && bits / row.bit % 2 == 1 && is_out_of_range(base, row.pace)
}

fn some_row_outside(base: &Base, bits: u32, rows: &[BitPace]) -> bool
    ensures { result ≡ list_any (is_established_outside base.now bits) rows.now }
{
    rows.iter()
        .any(|row| is_established_outside(base, bits, *row))
}

fn some_bit_outside(base: &Base, bits: u32) -> bool
    ensures { result ≡ some_bit_outside base.now bits }
{
    some_row_outside(base, bits, ESTABLISHED)
}

fn some_established_outside(base: &Base) -> bool
    ensures { result ≡ some_established_outside base.now }
{
    some_bit_outside(base, established_bits(&base.established))
}

/// The lines of the picture of a standard timing.
fn standard_height(timing: StandardTiming) -> u16
    ensures value { result ≡ standard_height timing }
    ensures small { result < 2289 }
{
    match timing.aspect {
        0 => timing.width * 10 / 16,
        1 => timing.width * 3 / 4,
        2 => timing.width * 4 / 5,
        _ => timing.width * 9 / 16,
    }
}

/// How many lines the pictures of a standard timing have in a second, blanking apart.
pub fn picture_lines(timing: StandardTiming) -> u64
    ensures { result ≡ picture_lines timing }
{
    u64::from(standard_height(timing)) * u64::from(timing.rate)
}

/// Whether the lines of the pictures of a standard timing alone are more than the greatest line rate.
pub fn has_too_many_lines(span: RateSpan, timing: StandardTiming) -> bool
    requires { span.greatest < 512 }
    ensures { result ≡ has_too_many_lines span timing }
{
    limits_rates(span) && is_over(span, picture_lines(timing), LINES)
}

/// Whether a descriptor has limits that a standard timing is outside of.
fn excludes_standard(revision: Revision, timing: StandardTiming, descriptor: &Descriptor) -> bool
    ensures { result ≡ excludes_standard revision timing descriptor.now }
{
    match descriptor {
        Descriptor::Range(limits) => {
            is_outside(field_span(revision, limits), u64::from(timing.rate), 1)
                || has_too_many_lines(line_span(revision, limits), timing)
        }
        _ => false,
    }
}

fn some_excludes(base: &Base, timing: StandardTiming) -> bool
    ensures { result ≡ list_any (excludes_standard base.now.revision timing) base.now.descriptors }
{
    base.descriptors.iter().any(|descriptor| excludes_standard(base.revision, timing, descriptor))
}

/// Whether a standard timing is outside the range limits; one of at most 256 pixels stands for none.
pub fn is_standard_outside(base: &Base, standard: Option<StandardTiming>) -> bool
    ensures { result ≡ is_standard_outside base.now standard }
{
    match standard {
        None => false,
        Some(timing) => UNUSED_WIDTH < timing.width && some_excludes(base, timing),
    }
}

fn some_standard_outside(base: &Base) -> bool
    ensures { result ≡ list_any (is_standard_outside base.now) base.now.standard }
{
    base.standard
        .iter()
        .any(|standard| is_standard_outside(base, *standard))
}

fn is_paced(timing: TypedTiming) -> bool
    ensures { result ≡ is_paced timing }
{
    !timing.is_interlaced
        && timing.clock <= MOST_CLOCK
        && timing.pixels <= MOST_PIXELS
        && timing.lines <= MOST_LINES
}

fn timing_pace_of(timing: TypedTiming) -> Option<Pace>
    ensures { result ≡ timing_pace_of timing }
{
    if is_paced(timing) {
        Some(Pace {
            clock: timing.clock as u32,
            pixels: timing.pixels as u16,
            half_lines: 2 * timing.lines as u16,
        })
    } else {
        None
    }
}

/// How fast a format of DisplayID is, where that is known.
pub fn typed_pace(format: TypedFormat) -> Option<Pace>
    ensures { result ≡ typed_pace format }
{
    match format {
        TypedFormat::Timing(timing) => timing_pace_of(timing),
        TypedFormat::Code(code) => pace_of(code),
    }
}

fn is_typed_outside(base: &Base, format: TypedFormat) -> bool
    ensures { result ≡ is_typed_outside base.now format }
{
    is_known_outside(base, typed_pace(format))
}

fn some_typed_outside(base: &Base, formats: &[TypedFormat]) -> bool
    ensures { result ≡ list_any (is_typed_outside base.now) formats.now }
{
    formats.iter().any(|format| is_typed_outside(base, *format))
}

/// Whether a video code, an established timing, a standard timing or a format of DisplayID is outside the range limits.
pub fn has_format_outside(base: &Base, extensions: &[Ext]) -> bool
    requires { length extensions.now ≤ 3 }
    ensures { result ≡ has_format_outside base.now extensions.now }
{
    some_code_outside(base, video_codes(extensions).as_slice())
        || some_established_outside(base)
        || some_standard_outside(base)
        || some_typed_outside(base, typed_formats(extensions).as_slice())
}
