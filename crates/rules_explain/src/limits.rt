//! Which limit a format is outside of, with its rate, and by how much.
ghost use Rattle.std.specs.Prelude.{◌<◌, ◌^◌};

use edid_base::{Base, Descriptor, RangeLimits, Revision, StandardTiming};
use rules_rates::{
    CLOCK_UNIT, HALF_LINE_CLOCK, LINES, Pace, RateSpan, field_span, has_too_many_lines,
    is_clock_above, is_outside, is_over, line_span, picture_lines,
};
use std::alloc::{AllocError, Global};

/// A MHz in kHz.
const MEGAHERTZ: u64 = 1000;

/// The whole part of a quotient, and its thousandths, to the nearest one.
fn parts_of(count: u64, per: u64) -> (u64, u64) {
    if per == 0 {
        return (0, 0);
    }
    let thousandths = count.saturating_mul(1000).saturating_add(per / 2) / per;
    (thousandths / 1000, thousandths % 1000)
}

/// Appends the text of a limit, after `; ` where others stand before it.
fn add(text: &mut String, more: &str) -> Result<(), AllocError> {
    if !text.as_str().is_empty() {
        text.push_str("; ")?;
    }
    text.push_str(more)
}

/// A rate of `count` by `per` that is above or below a limit.
fn beyond(
    alloc: Global,
    name: &str,
    unit: &str,
    limit: u64,
    count: u64,
    per: u64,
) -> Result<String, AllocError> {
    let edge = limit.saturating_mul(per);
    let (side, distance) = if edge < count {
        ("above", count.saturating_sub(edge))
    } else {
        ("below", edge.saturating_sub(count))
    };
    let (whole, part) = parts_of(count, per);
    let (more, rest) = parts_of(distance, per);
    format!(in alloc;
        "{name} {whole}.{part:03} {unit}, {more}.{rest:03} {unit} {side} {limit} {unit}"
    )
}

/// Adds a rate of `count` by `per` that is outside a span.
fn add_rate(
    alloc: Global,
    text: &mut String,
    name: &str,
    unit: &str,
    span: RateSpan,
    count: u64,
    per: u64,
) -> Result<(), AllocError>
    requires least { span.least < 512 }
    requires greatest { span.greatest < 512 }
    requires count_fits { count < 2 ^ 48 }
    requires per_fits { per < 2 ^ 32 }
{
    if !is_outside(span, count, per) {
        return Ok(());
    }
    let limit = if is_over(span, count, per) {
        span.greatest
    } else {
        span.least
    };
    let more = beyond(alloc, name, unit, limit, count, per)?;
    add(text, more.as_str())
}

/// Adds what of a pace is outside some limits.
fn add_pace(
    alloc: Global,
    text: &mut String,
    revision: Revision,
    limits: &RangeLimits,
    pace: Pace,
) -> Result<(), AllocError> {
    add_rate(
        alloc,
        text,
        "field rate",
        "Hz",
        field_span(revision, limits),
        u64::from(pace.clock) * HALF_LINE_CLOCK,
        u64::from(pace.pixels) * u64::from(pace.half_lines),
    )?;
    add_rate(
        alloc,
        text,
        "line rate",
        "kHz",
        line_span(revision, limits),
        u64::from(pace.clock),
        u64::from(pace.pixels),
    )?;
    if is_clock_above(limits.bytes[5], pace) {
        let limit = u64::from(limits.bytes[5]) * u64::from(CLOCK_UNIT) / MEGAHERTZ;
        let clock = u64::from(pace.clock);
        let more = beyond(alloc, "pixel clock", "MHz", limit, clock, MEGAHERTZ)?;
        add(text, more.as_str())?;
    }
    Ok(())
}

/// What of a pace is outside the range limits of a base block.
pub fn pace_reported(alloc: Global, base: &Base, pace: Pace) -> Result<String, AllocError> {
    let mut text = String::new(alloc);
    for descriptor in &base.descriptors {
        if let Descriptor::Range(limits) = descriptor {
            add_pace(alloc, &mut text, base.revision, limits, pace)?;
        }
    }
    Ok(text)
}

/// Adds what of a standard timing is outside some limits.
fn add_standard(
    alloc: Global,
    text: &mut String,
    revision: Revision,
    limits: &RangeLimits,
    timing: StandardTiming,
) -> Result<(), AllocError> {
    let rate = u64::from(timing.rate);
    add_rate(
        alloc,
        text,
        "field rate",
        "Hz",
        field_span(revision, limits),
        rate,
        1,
    )?;
    let span = line_span(revision, limits);
    if has_too_many_lines(span, timing) {
        let lines = picture_lines(timing);
        let more = beyond(
            alloc,
            "lines of pictures",
            "kHz",
            span.greatest,
            lines,
            LINES,
        )?;
        add(text, more.as_str())?;
    }
    Ok(())
}

/// What of a standard timing is outside the range limits of a base block.
pub fn standard_reported(
    alloc: Global,
    base: &Base,
    timing: StandardTiming,
) -> Result<String, AllocError> {
    let mut text = String::new(alloc);
    for descriptor in &base.descriptors {
        if let Descriptor::Range(limits) = descriptor {
            add_standard(alloc, &mut text, base.revision, limits, timing)?;
        }
    }
    Ok(text)
}
