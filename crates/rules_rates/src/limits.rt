//! How fast a format is, and the limits that a display has for that.
ghost use Rattle.std.specs.Prelude.{◌≡◌, ◌<◌, ◌^◌};
ghost use Rattle.rules_rates.specs.Limits.{timing_pace, is_reversed, limits_rates, is_over, is_outside, raised_span, field_span, line_span, has_reversed, has_reversed_limits, is_field_rate_outside, is_line_rate_outside, is_clock_above, excludes, is_out_of_range};

use crate::pace::Pace;
use crate::span::RateSpan;
use edid_base::{Base, Descriptor, RangeLimits, Revision, Timing};

/// The greatest byte, which in 1.3 limits nothing, and what bits of 1.4 add to a rate.
const OFFSET: u64 = 255;
/// The half lines of a second's fields to the clock's units: 1,000 pixels, twice.
pub const HALF_LINE_CLOCK: u64 = 2000;
/// The unit of a detailed timing's clock in kHz.
const TIMING_CLOCK: u32 = 10;
/// The unit of the greatest clock in kHz.
pub const CLOCK_UNIT: u32 = 10_000;
/// Flags from here on say that a picture is two fields.
const INTERLACED: u8 = 128;

/// How fast a detailed timing is.
pub fn timing_pace(timing: &Timing) -> Pace
    ensures { result ≡ timing_pace timing.now }
{
    let lines = timing.vertical_active + timing.vertical_blanking;
    Pace {
        clock: u32::from(timing.clock) * TIMING_CLOCK,
        pixels: timing.horizontal_active + timing.horizontal_blanking,
        half_lines: if timing.flags < INTERLACED {
            2 * lines
        } else {
            2 * lines + 1
        },
    }
}

/// Whether the greatest rate is below the least.
fn is_reversed(span: RateSpan) -> bool
    ensures { result ≡ is_reversed span }
{
    span.greatest < span.least
}

/// Whether a span limits rates: a greatest rate of 0 limits none, nor do limits that are reversed.
pub fn limits_rates(span: RateSpan) -> bool
    ensures { result ≡ limits_rates span }
{
    0 < span.greatest && !is_reversed(span)
}

/// Whether a rate of `count` by `per` is one unit and more above a span.
pub fn is_over(span: RateSpan, count: u64, per: u64) -> bool
    requires greatest { span.greatest < 512 }
    requires per_fits { per < 2 ^ 32 }
    ensures { result ≡ is_over span count per }
{
    !span.is_open && (span.greatest + 1) * per <= count
}

/// Whether a rate of `count` by `per` is one unit and more outside a span.
pub fn is_outside(span: RateSpan, count: u64, per: u64) -> bool
    requires least { span.least < 512 }
    requires greatest { span.greatest < 512 }
    requires count_fits { count < 2 ^ 48 }
    requires per_fits { per < 2 ^ 32 }
    ensures { result ≡ is_outside span count per }
{
    limits_rates(span) && 0 < per && (count + per <= span.least * per || is_over(span, count, per))
}

/// The span of two bytes, which two bits raise in 1.4; in 1.3 the greatest byte limits nothing.
fn raised_span(revision: Revision, bits: u8, least: u8, greatest: u8) -> RateSpan
    ensures value { result ≡ raised_span revision bits least greatest }
    ensures least { result.least < 512 }
    ensures greatest { result.greatest < 512 }
{
    let (least, greatest) = (u64::from(least), u64::from(greatest));
    match revision {
        Revision::Three => RateSpan {
            least,
            greatest,
            is_open: greatest == OFFSET,
        },
        Revision::Four => RateSpan {
            least: if bits == 3 { least + OFFSET } else { least },
            greatest: if 2 <= bits {
                greatest + OFFSET
            } else {
                greatest
            },
            is_open: false,
        },
    }
}

/// The limits of the field rate, in fields a second.
pub fn field_span(revision: Revision, limits: &RangeLimits) -> RateSpan
    ensures value { result ≡ field_span revision limits.now.bytes }
    ensures least { result.least < 512 }
    ensures greatest { result.greatest < 512 }
{
    let bytes = limits.bytes;
    raised_span(revision, bytes[0] % 4, bytes[1], bytes[2])
}

/// The limits of the line rate, in thousands of lines a second.
pub fn line_span(revision: Revision, limits: &RangeLimits) -> RateSpan
    ensures value { result ≡ line_span revision limits.now.bytes }
    ensures least { result.least < 512 }
    ensures greatest { result.greatest < 512 }
{
    let bytes = limits.bytes;
    raised_span(revision, bytes[0] / 4 % 4, bytes[3], bytes[4])
}

fn has_reversed(revision: Revision, descriptor: &Descriptor) -> bool
    ensures { result ≡ has_reversed revision descriptor.now }
{
    match descriptor {
        Descriptor::Range(limits) => {
            is_reversed(field_span(revision, limits)) || is_reversed(line_span(revision, limits))
        }
        _ => false,
    }
}

/// Whether some range limits of a base block have a greatest rate below the least.
pub fn has_reversed_limits(base: &Base) -> bool
    ensures { result ≡ has_reversed_limits base.now }
{
    base.descriptors
        .iter()
        .any(|descriptor| has_reversed(base.revision, descriptor))
}

fn is_field_rate_outside(revision: Revision, limits: &RangeLimits, pace: Pace) -> bool
    ensures { result ≡ is_field_rate_outside revision limits.now.bytes pace }
{
    is_outside(
        field_span(revision, limits),
        u64::from(pace.clock) * HALF_LINE_CLOCK,
        u64::from(pace.pixels) * u64::from(pace.half_lines),
    )
}

fn is_line_rate_outside(revision: Revision, limits: &RangeLimits, pace: Pace) -> bool
    ensures { result ≡ is_line_rate_outside revision limits.now.bytes pace }
{
    is_outside(
        line_span(revision, limits),
        u64::from(pace.clock),
        u64::from(pace.pixels),
    )
}

/// Whether a clock is a unit and more above the greatest, where there is one.
pub fn is_clock_above(most: u8, pace: Pace) -> bool
    ensures { result ≡ is_clock_above most pace }
{
    0 < most && most < 255 && (u32::from(most) + 1) * CLOCK_UNIT <= pace.clock
}

/// Whether a descriptor has limits that a format is outside of.
fn excludes(revision: Revision, pace: Pace, descriptor: &Descriptor) -> bool
    ensures { result ≡ excludes revision pace descriptor.now }
{
    match descriptor {
        Descriptor::Range(limits) => {
            is_field_rate_outside(revision, limits, pace)
                || is_line_rate_outside(revision, limits, pace)
                || is_clock_above(limits.bytes[5], pace)
        }
        _ => false,
    }
}

/// Whether a format is outside the range limits of a base block by a unit or more.
pub fn is_out_of_range(base: &Base, pace: Pace) -> bool
    ensures { result ≡ is_out_of_range base.now pace }
{
    base.descriptors
        .iter()
        .any(|descriptor| excludes(base.revision, pace, descriptor))
}
