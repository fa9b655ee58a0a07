//! The values at fault.
ghost use Rattle.std.specs.Prelude.{◌≤◌, length};

use crate::blocks::{
    extension_reported, override_count_reported, override_reported, repeated_block_reported,
    slip_reported,
};
use crate::formats::{format_reported, map_reported, range_reported, slow_reported};
use crate::limits::pace_reported;
use crate::links::{beyond_format_reported, load_reported};
use crate::places::{
    capability_reported, empty_reported, ill_text_reported, padding_reported,
    reserved_descriptor_reported, speakers_reported, tmds_reported, unused_reported,
};
use edid_base::{Base, Descriptor, Timing};
use edid_cta::{Ext, hdmi_address};
use rules_check::{Finding, Rule, TimingRule};
use rules_link::timing_load;
use rules_native::{Picture, differs, native_pictures};
use rules_rates::{field_span, line_span, timing_pace};
use rules_values::{hdmi_count, native_count, timings_of, video_codes};
use std::alloc::{AllocError, Global};
use text_core::Phys;

/// The clock's units, 10 kHz, that are a MHz.
const UNITS_A_MHZ: u16 = 100;

/// The physical address in the first HDMI block.
fn address_of(extensions: &[Ext]) -> Option<Phys> {
    for ext in extensions {
        if let Some(address) = hdmi_address(ext) {
            return Some(address);
        }
    }
    None
}

fn address_reported(alloc: Global, extensions: &[Ext]) -> Result<Option<String>, AllocError> {
    match address_of(extensions) {
        None => Ok(None),
        Some(phys) => {
            let (a, b, c, d) = (phys.high / 16, phys.high % 16, phys.low / 16, phys.low % 16);
            Ok(Some(format!(in alloc; "address {a:x}.{b:x}.{c:x}.{d:x}")?))
        }
    }
}

/// The flags of each CTA block with data blocks.
fn flags_reported(alloc: Global, extensions: &[Ext]) -> Result<Option<String>, AllocError> {
    let mut text = String::from_str(alloc, "flags")?;
    for ext in extensions {
        if let Ext::Cta(cta) = ext {
            let flags = cta.flags;
            let word = format!(in alloc; " {flags:02x}")?;
            text.push_str(word.as_str())?;
        }
    }
    Ok(Some(text))
}

/// The greatest count of native timings, and how many timings there are.
fn counts_reported(
    alloc: Global,
    base: &Base,
    extensions: &[Ext],
) -> Result<Option<String>, AllocError>
    requires { length extensions.now ≤ 3 }
{
    let mut native = 0;
    for ext in extensions {
        native = native.max(native_count(ext));
    }
    let timings = timings_of(base, extensions).len();
    Ok(Some(format!(in alloc; "{native} native, {timings} timings")?))
}

/// The first picture after one that differs from it.
fn other_than(picture: Picture, others: &[Picture]) -> Option<Picture> {
    for other in others {
        if differs(picture, *other) {
            return Some(*other);
        }
    }
    None
}

/// Two pictures of two sizes.
fn sizes_reported(
    alloc: Global,
    base: &Base,
    extensions: &[Ext],
) -> Result<Option<String>, AllocError>
    requires { length extensions.now ≤ 3 }
{
    let timings = timings_of(base, extensions);
    for ext in extensions {
        let pictures = native_pictures(native_count(ext), timings.as_slice(), extensions);
        for picture in pictures.as_slice() {
            if let Some(other) = other_than(*picture, pictures.as_slice()) {
                let (width, height) = (picture.width, picture.height);
                let (across, up) = (other.width, other.height);
                return Ok(Some(format!(in alloc; "{width}x{height} and {across}x{up}")?));
            }
        }
    }
    Ok(None)
}

/// How often a code stands.
fn count_of(codes: &[u8], code: u8) -> usize {
    codes.iter().filter(|other| **other == code).count()
}

/// The first code that stands more than once.
fn repeated_reported(alloc: Global, extensions: &[Ext]) -> Result<Option<String>, AllocError>
    requires { length extensions.now ≤ 3 }
{
    let codes = video_codes(extensions);
    for code in codes.as_slice() {
        if 0 < *code && 1 < count_of(codes.as_slice(), *code) {
            return Ok(Some(format!(in alloc; "video code {code}")?));
        }
    }
    Ok(None)
}

/// The first range limits whose greatest rate is below the least.
fn limits_reported(alloc: Global, base: &Base) -> Result<Option<String>, AllocError> {
    for descriptor in &base.descriptors {
        if let Descriptor::Range(limits) = descriptor {
            let fields = field_span(base.revision, limits);
            let lines = line_span(base.revision, limits);
            if fields.greatest < fields.least || lines.greatest < lines.least {
                let (slow, fast) = (fields.least, fields.greatest);
                let (low, high) = (lines.least, lines.greatest);
                return Ok(Some(format!(in alloc; "{slow} to {fast} Hz, {low} to {high} kHz")?));
            }
        }
    }
    Ok(None)
}

/// The values that break a rule for an EDID, where they are few.
fn reported_of_edid(
    alloc: Global,
    rule: Rule,
    base: &Base,
    extensions: &[Ext],
) -> Result<Option<String>, AllocError>
    requires { length extensions.now ≤ 3 }
{
    match rule {
        Rule::FirstTimingPreferred | Rule::RangeLimits | Rule::LimitsAlone | Rule::Srgb => {
            let features = base.features;
            Ok(Some(format!(in alloc; "features {features:02x}")?))
        }
        Rule::LimitsOrder => limits_reported(alloc, base),
        Rule::Week | Rule::WeekKnown => {
            let week = base.week;
            Ok(Some(format!(in alloc; "week {week}")?))
        }
        Rule::OneSerial => {
            let serial = base.serial;
            Ok(Some(format!(in alloc; "serial number {serial}")?))
        }
        Rule::BlockMap => {
            let count = extensions.len();
            Ok(Some(format!(in alloc; "{count} extensions")?))
        }
        Rule::VideoCodeOnce => repeated_reported(alloc, extensions),
        Rule::NativeCount => counts_reported(alloc, base, extensions),
        Rule::NativeSize => sizes_reported(alloc, base, extensions),
        Rule::Underscan | Rule::BasicAudio => flags_reported(alloc, extensions),
        Rule::NoEmptyDescriptor => empty_reported(alloc, base),
        Rule::UnusedStandard => unused_reported(alloc, base),
        Rule::Speakers => speakers_reported(alloc, extensions),
        Rule::Padding => padding_reported(alloc, extensions),
        Rule::RgbRange => capability_reported(alloc, extensions),
        Rule::TmdsClock => tmds_reported(alloc, extensions),
        Rule::MapWithinCodes => map_reported(alloc, extensions),
        Rule::FastYcc420 => slow_reported(alloc, extensions),
        Rule::YccRange => range_reported(alloc, extensions),
        Rule::FormatsWithinLimits | Rule::FormatsNearLimits => {
            format_reported(alloc, base, extensions)
        }
        Rule::FormatsCarried => beyond_format_reported(alloc, extensions),
        Rule::TextForm => ill_text_reported(alloc, base),
        Rule::DescriptorKnown => reserved_descriptor_reported(alloc, base),
        Rule::YearKnown => {
            let year = base.year;
            Ok(Some(format!(in alloc; "year {year}")?))
        }
        Rule::SrgbGamma => {
            let gamma = base.gamma;
            Ok(Some(format!(in alloc; "gamma {gamma}")?))
        }
        Rule::InputKnown => {
            let input = base.input;
            Ok(Some(format!(in alloc; "input {input:02x}")?))
        }
        Rule::BlockOnce => repeated_block_reported(alloc, extensions),
        Rule::OverrideFirst => override_reported(alloc, extensions),
        Rule::OverrideCount => override_count_reported(alloc, base.extensions, extensions),
        Rule::CtaForm | Rule::CtaRevision | Rule::ExtensionTag | Rule::SectionSum => {
            extension_reported(alloc, rule, extensions)
        }
        Rule::Address => address_reported(alloc, extensions),
        Rule::OneHdmi => {
            let count = hdmi_count(extensions);
            Ok(Some(format!(in alloc; "{count} HDMI blocks")?))
        }
        Rule::Block(slip) => slip_reported(alloc, slip, extensions),
        _ => Ok(None),
    }
}

/// The clock in MHz to two places.
fn clock_text(alloc: Global, timing: &Timing) -> Result<String, AllocError> {
    let (whole, part) = (timing.clock / UNITS_A_MHZ, timing.clock % UNITS_A_MHZ);
    format!(in alloc; "{whole}.{part:02} MHz")
}

fn clock_reported(alloc: Global, timing: &Timing) -> Result<String, AllocError> {
    let clock = clock_text(alloc, timing)?;
    format!(in alloc; "clock {clock}")
}

/// The first field that is 0 and that a picture needs.
fn zero_reported(alloc: Global, timing: &Timing) -> Result<String, AllocError> {
    let name = if timing.horizontal_active == 0 {
        "horizontal picture"
    } else if timing.horizontal_blanking == 0 {
        "horizontal blanking"
    } else if timing.horizontal_sync_offset == 0 {
        "horizontal sync offset"
    } else if timing.horizontal_sync_width == 0 {
        "horizontal sync width"
    } else if timing.vertical_active == 0 {
        "vertical picture"
    } else if timing.vertical_blanking == 0 {
        "vertical blanking"
    } else if timing.vertical_sync_width == 0 {
        "vertical sync width"
    } else {
        "vertical sync offset"
    };
    format!(in alloc; "{name} 0")
}

/// What is taken from the blanking, and the blanking.
fn blanking_reported(
    alloc: Global,
    blanking: u16,
    offset: u16,
    width: u16,
    border: u8,
) -> Result<String, AllocError> {
    format!(in alloc;
        "blanking {blanking}, sync offset {offset}, sync width {width}, borders 2 times {border}"
    )
}

fn size_reported(alloc: Global, base: &Base, timing: &Timing) -> Result<String, AllocError> {
    let (width, height) = (timing.width, timing.height);
    let (across, up) = (base.width, base.height);
    format!(in alloc; "image {width} x {height} mm, display {across} x {up} cm")
}

/// The values by which a timing breaks a rule.
fn reported_of_timing(
    alloc: Global,
    rule: TimingRule,
    base: &Base,
    extensions: &[Ext],
    timing: &Timing,
) -> Result<Option<String>, AllocError> {
    match rule {
        TimingRule::Clock => Ok(Some(clock_reported(alloc, timing)?)),
        TimingRule::Fields => Ok(Some(zero_reported(alloc, timing)?)),
        TimingRule::HorizontalBackPorch => Ok(Some(blanking_reported(
            alloc,
            timing.horizontal_blanking,
            timing.horizontal_sync_offset,
            timing.horizontal_sync_width,
            timing.horizontal_border,
        )?)),
        TimingRule::VerticalBackPorch => Ok(Some(blanking_reported(
            alloc,
            timing.vertical_blanking,
            u16::from(timing.vertical_sync_offset),
            u16::from(timing.vertical_sync_width),
            timing.vertical_border,
        )?)),
        TimingRule::SizeThere | TimingRule::SizeFits => Ok(Some(size_reported(
            alloc, base, timing,
        )?)),
        TimingRule::WithinLimits | TimingRule::NearLimits => {
            Ok(Some(pace_reported(alloc, base, timing_pace(timing))?))
        }
        TimingRule::Carried => Ok(Some(load_reported(alloc, extensions, timing_load(timing))?)),
    }
}

/// The values that break the rule of a finding in an EDID of these parts, where they are few.
pub fn values(
    alloc: Global,
    finding: Finding,
    base: &Base,
    extensions: &[Ext],
) -> Result<Option<String>, AllocError>
    requires { length extensions.now ≤ 3 }
{
    match finding {
        Finding::Edid(rule) => reported_of_edid(alloc, rule, base, extensions),
        Finding::Timing(number, rule) => {
            let timings = timings_of(base, extensions);
            match timings.get(usize::from(number.saturating_sub(1))) {
                None => Ok(None),
                Some(timing) => reported_of_timing(alloc, rule, base, extensions, timing),
            }
        }
    }
}
