//! The rules, one by one.
ghost use Rattle.std.specs.Prelude.{◌≡◌, ◌≤◌, ◌<◌, ◌+◌, ◌*◌, ◌++◌, length};
ghost use Rattle.arrayvec.specs.ArrayVec.{array_vec_len};
ghost use Rattle.rules_check.specs.Rules.{begins_overriding, begins_with_override, has_ill_address, is_broken};
ghost use Rattle.rules_check.specs.TimingRules.{has_zero, has_size, differs, breaks};
ghost use Rattle.rules_check.specs.Findings.{rule_findings, timing_findings, edid_findings, one_timing_findings, numbered_findings, findings};

use crate::rule::{Finding, Origin, Rule, TimingRule};
use arrayvec::ArrayVec;
use edid_base::{Base, Timing};
use edid_cta::{DataBlock, Ext};
use rules_contents::{
    Slip, has_low_override, has_misplaced_override, has_other_gamma, has_reserved_input,
    is_late_year, is_override, is_reserved_week, some_fixed_ycc, some_ill_text,
    some_other_revision, some_overrun, some_repeated, some_reserved_descriptor, some_slip,
    some_unknown, some_wrong_section,
};
use rules_link::{has_format_beyond, is_of_hdmi, is_timing_beyond};
use rules_native::has_mixed_natives;
use rules_rates::{
    has_format_outside, has_reversed_limits, is_out_of_range, some_past, some_slow, timing_pace,
};
use rules_values::{
    NAME_TAG, RANGE_TAG, SERIAL_TAG, Sought, begins_with_map, begins_with_timing, blocks_of,
    claims_srgb, has_established_vga, hdmi_count, is_continuous, is_srgb, is_three, prefers_first,
    repeats, some_block, some_cta, some_empty, some_formula, some_forum_first, some_hidden_sound,
    some_ill_padding, some_ill_unused, some_lone_code, some_native, some_overscan, some_tagged,
    timings_of, video_codes,
};

/// The most findings of an EDID: 59 rules, and nine for each of 22 timings.
pub const MAX_FINDINGS: usize = 257;
/// The least pixel clock of a timing: 10 MHz, in units of 10 kHz.
const MIN_CLOCK: u16 = 1000;
/// How much larger or smaller than the display an image may be, in millimetres.
const SIZE_TOLERANCE: u16 = 9;

/// All rules, in the order in which they are looked at.
const RULES: [Rule; 59] = [
    Rule::FirstTimingPreferred,
    Rule::PreferredTiming,
    Rule::ProductName,
    Rule::RangeLimits,
    Rule::LimitsAlone,
    Rule::LimitsOrder,
    Rule::Week,
    Rule::Srgb,
    Rule::NoEmptyDescriptor,
    Rule::UnusedStandard,
    Rule::BlockMap,
    Rule::HdmiRevision,
    Rule::OneSerial,
    Rule::Vga,
    Rule::VideoCodeOnce,
    Rule::NativeCount,
    Rule::NativeSize,
    Rule::Underscan,
    Rule::BasicAudio,
    Rule::Speakers,
    Rule::Padding,
    Rule::VideoCapability,
    Rule::RgbRange,
    Rule::TmdsClock,
    Rule::Address,
    Rule::OneHdmi,
    Rule::HdmiVideoCode,
    Rule::ForumAfterHdmi,
    Rule::CtaForm,
    Rule::CtaRevision,
    Rule::ExtensionTag,
    Rule::Block(Slip::Length),
    Rule::BlockOnce,
    Rule::OverrideFirst,
    Rule::OverrideCount,
    Rule::Block(Slip::Tag),
    Rule::Block(Slip::AudioFormat),
    Rule::Block(Slip::HdrBits),
    Rule::Block(Slip::VideoCode),
    Rule::Block(Slip::HdmiCode),
    Rule::Block(Slip::ForumClock),
    Rule::Block(Slip::ForumScdc),
    Rule::Block(Slip::ForumRates),
    Rule::MapWithinCodes,
    Rule::FastYcc420,
    Rule::YccRange,
    Rule::Block(Slip::Latency),
    Rule::FormatsWithinLimits,
    Rule::FormatsNearLimits,
    Rule::FormatsCarried,
    Rule::TextForm,
    Rule::WeekKnown,
    Rule::YearKnown,
    Rule::SrgbGamma,
    Rule::InputKnown,
    Rule::Block(Slip::Reserved),
    Rule::Block(Slip::Bytes),
    Rule::SectionSum,
    Rule::DescriptorKnown,
];

const TIMING_RULES: [TimingRule; 9] = [
    TimingRule::Clock,
    TimingRule::Fields,
    TimingRule::HorizontalBackPorch,
    TimingRule::VerticalBackPorch,
    TimingRule::SizeThere,
    TimingRule::SizeFits,
    TimingRule::WithinLimits,
    TimingRule::NearLimits,
    TimingRule::Carried,
];

/// Whether an HDMI block has an address that no EDID of this origin has.
fn has_ill_address(origin: Origin, extensions: &[Ext]) -> bool
    ensures { result ≡ has_ill_address origin extensions.now }
{
    some_block(Sought::WrongAddress, extensions)
        || match origin {
            Origin::Display => false,
            Origin::Port => some_block(Sought::RootAddress, extensions),
        }
}

fn begins_overriding(blocks: &[DataBlock]) -> bool
    ensures { result ≡ begins_overriding blocks.now }
{
    match blocks {
        [] => false,
        [block, ..] => is_override(block),
    }
}

/// Whether the first extension begins with the HDMI Forum's override of the count of extensions.
fn begins_with_override(extensions: &[Ext]) -> bool
    ensures { result ≡ begins_with_override extensions.now }
{
    match extensions {
        [] => false,
        [ext, ..] => begins_overriding(blocks_of(ext)),
    }
}

/// Whether an EDID of these parts breaks a rule.
fn is_broken(origin: Origin, rule: Rule, base: &Base, extensions: &[Ext]) -> bool
    requires { length extensions.now ≤ 3 }
    ensures { result ≡ is_broken origin rule base.now extensions.now }
{
    match rule {
        Rule::FirstTimingPreferred => is_three(base.revision) && !prefers_first(base),
        Rule::PreferredTiming => {
            (!is_three(base.revision) || prefers_first(base)) && !begins_with_timing(base)
        }
        Rule::ProductName => !some_tagged(NAME_TAG, base),
        Rule::RangeLimits => {
            (is_three(base.revision) || is_continuous(base)) && !some_tagged(RANGE_TAG, base)
        }
        Rule::LimitsAlone => {
            !is_three(base.revision) && !is_continuous(base) && some_formula(base)
        }
        Rule::LimitsOrder => has_reversed_limits(base),
        Rule::Week => is_three(base.revision) && (base.week == 54 || base.week == 255),
        Rule::Srgb => {
            claims_srgb(base) && !is_srgb(base.chroma) || !claims_srgb(base) && is_srgb(base.chroma)
        }
        Rule::NoEmptyDescriptor => some_empty(base),
        Rule::UnusedStandard => some_ill_unused(base),
        Rule::BlockMap => {
            is_three(base.revision)
                && 1 < extensions.len()
                && !begins_with_map(extensions)
                && !begins_with_override(extensions)
        }
        Rule::HdmiRevision => !is_three(base.revision) && some_block(Sought::Hdmi, extensions),
        Rule::OneSerial => {
            0 < base.serial && some_cta(extensions) && some_tagged(SERIAL_TAG, base)
        }
        Rule::Vga => {
            some_cta(extensions)
                && !has_established_vga(base)
                && !some_block(Sought::Vga, extensions)
        }
        Rule::VideoCodeOnce => repeats(video_codes(extensions).as_slice()),
        Rule::NativeCount => some_native(timings_of(base, extensions).len(), extensions),
        Rule::NativeSize => has_mixed_natives(base, extensions),
        Rule::Underscan => some_overscan(extensions),
        Rule::BasicAudio => some_hidden_sound(extensions),
        Rule::Speakers => {
            some_block(Sought::MultichannelPcm, extensions)
                && !some_block(Sought::Speakers, extensions)
                || some_block(Sought::IllSpeakers, extensions)
        }
        Rule::Padding => some_ill_padding(extensions),
        Rule::VideoCapability => {
            some_cta(extensions) && !some_block(Sought::VideoCapability, extensions)
        }
        Rule::RgbRange => some_block(Sought::FixedRgbRange, extensions),
        Rule::TmdsClock => some_block(Sought::FastClock, extensions),
        Rule::Address => has_ill_address(origin, extensions),
        Rule::OneHdmi => 1 < hdmi_count(extensions),
        Rule::HdmiVideoCode => some_lone_code(video_codes(extensions).as_slice(), extensions),
        Rule::ForumAfterHdmi => some_forum_first(extensions),
        Rule::CtaForm => some_overrun(extensions),
        Rule::CtaRevision => some_other_revision(extensions),
        Rule::ExtensionTag => some_unknown(extensions),
        Rule::Block(slip) => some_slip(slip, extensions),
        Rule::BlockOnce => some_repeated(extensions),
        Rule::OverrideFirst => has_misplaced_override(extensions),
        Rule::OverrideCount => has_low_override(base, extensions),
        Rule::MapWithinCodes => some_past(video_codes(extensions).len(), extensions),
        Rule::FastYcc420 => some_slow(video_codes(extensions).as_slice(), extensions),
        Rule::YccRange => some_fixed_ycc(extensions),
        Rule::FormatsWithinLimits => is_three(base.revision)
            && has_format_outside(base, extensions),
        Rule::FormatsNearLimits => !is_three(base.revision) && has_format_outside(base, extensions),
        Rule::FormatsCarried => is_of_hdmi(base) && has_format_beyond(extensions),
        Rule::TextForm => some_ill_text(base),
        Rule::WeekKnown => is_reserved_week(base),
        Rule::YearKnown => is_late_year(base),
        Rule::SrgbGamma => has_other_gamma(base),
        Rule::InputKnown => has_reserved_input(base),
        Rule::SectionSum => some_wrong_section(extensions),
        Rule::DescriptorKnown => some_reserved_descriptor(base),
    }
}

fn has_zero(timing: &Timing) -> bool
    ensures { result ≡ has_zero timing.now }
{
    timing.horizontal_active == 0
        || timing.horizontal_blanking == 0
        || timing.horizontal_sync_offset == 0
        || timing.horizontal_sync_width == 0
        || timing.vertical_active == 0
        || timing.vertical_blanking == 0
        || timing.vertical_sync_width == 0
        || timing.vertical_sync_offset == 0 && timing.flags < 128
}

fn has_size(base: &Base) -> bool
    ensures { result ≡ has_size base.now }
{
    0 < base.width && 0 < base.height
}

fn differs(base: &Base, timing: &Timing) -> bool
    ensures { result ≡ differs base.now timing.now }
{
    let (width, height) = (u16::from(base.width) * 10, u16::from(base.height) * 10);
    width + SIZE_TOLERANCE < timing.width
        || height + SIZE_TOLERANCE < timing.height
        || timing.width + SIZE_TOLERANCE < width && timing.height + SIZE_TOLERANCE < height
}

/// Whether a detailed timing breaks a rule.
fn breaks(rule: TimingRule, base: &Base, extensions: &[Ext], timing: &Timing) -> bool
    ensures { result ≡ breaks rule base.now extensions.now timing.now }
{
    match rule {
        TimingRule::Clock => timing.clock < MIN_CLOCK,
        TimingRule::Fields => has_zero(timing),
        TimingRule::HorizontalBackPorch => {
            timing.horizontal_blanking
                <= timing.horizontal_sync_offset
                    + timing.horizontal_sync_width
                    + 2 * u16::from(timing.horizontal_border)
        }
        TimingRule::VerticalBackPorch => {
            timing.vertical_blanking
                <= u16::from(timing.vertical_sync_offset)
                    + u16::from(timing.vertical_sync_width)
                    + 2 * u16::from(timing.vertical_border)
        }
        TimingRule::SizeThere => has_size(base) && (timing.width == 0 || timing.height == 0),
        TimingRule::SizeFits => {
            has_size(base) && (0 < timing.width || 0 < timing.height) && differs(base, timing)
        }
        TimingRule::WithinLimits => is_three(base.revision)
            && is_out_of_range(base, timing_pace(timing)),
        TimingRule::NearLimits => !is_three(base.revision)
            && is_out_of_range(base, timing_pace(timing)),
        TimingRule::Carried => is_of_hdmi(base) && is_timing_beyond(extensions, timing),
    }
}

/// Adds those of some rules that an EDID breaks.
fn add_rules(
    found: &mut ArrayVec<Finding, MAX_FINDINGS>,
    rules: &[Rule],
    origin: Origin,
    base: &Base,
    extensions: &[Ext],
)
    requires few { length extensions.now ≤ 3 }
    requires room { array_vec_len found.old + length rules.now ≤ MAX_FINDINGS }
    ensures items { found.new.items ≡ found.old.items ++ rule_findings origin base.now extensions.now rules.now }
    ensures len { array_vec_len found.new ≤ array_vec_len found.old + length rules.now }
{
    if let [rule, rest @ ..] = rules {
        if is_broken(origin, *rule, base, extensions) {
            found.push(Finding::Edid(*rule));
        }
        add_rules(found, rest, origin, base, extensions);
    }
}

/// Adds those of some rules that a timing breaks.
fn add_timing_rules(
    found: &mut ArrayVec<Finding, MAX_FINDINGS>,
    rules: &[TimingRule],
    base: &Base,
    extensions: &[Ext],
    number: u8,
    timing: &Timing,
)
    requires { array_vec_len found.old + length rules.now ≤ MAX_FINDINGS }
    ensures items { found.new.items ≡ found.old.items ++ timing_findings base.now extensions.now number timing.now rules.now }
    ensures len { array_vec_len found.new ≤ array_vec_len found.old + length rules.now }
{
    if let [rule, rest @ ..] = rules {
        if breaks(*rule, base, extensions, timing) {
            found.push(Finding::Timing(number, *rule));
        }
        add_timing_rules(found, rest, base, extensions, number, timing);
    }
}

/// Adds the rules that an EDID breaks.
#[tactic(auto, unfolding(crate::specs::Findings::edid_findings))]
fn add_edid(
    found: &mut ArrayVec<Finding, MAX_FINDINGS>,
    origin: Origin,
    base: &Base,
    extensions: &[Ext],
)
    requires few { length extensions.now ≤ 3 }
    requires room { array_vec_len found.old + 59 ≤ MAX_FINDINGS }
    ensures items { found.new.items ≡ found.old.items ++ edid_findings origin base.now extensions.now }
    ensures len { array_vec_len found.new ≤ array_vec_len found.old + 59 }
{
    add_rules(found, &RULES, origin, base, extensions);
}

/// Adds the rules that a timing breaks.
#[tactic(auto, unfolding(crate::specs::Findings::one_timing_findings))]
fn add_timing(
    found: &mut ArrayVec<Finding, MAX_FINDINGS>,
    base: &Base,
    extensions: &[Ext],
    number: u8,
    timing: &Timing,
)
    requires { array_vec_len found.old + 9 ≤ MAX_FINDINGS }
    ensures items { found.new.items ≡ found.old.items ++ one_timing_findings base.now extensions.now number timing.now }
    ensures len { array_vec_len found.new ≤ array_vec_len found.old + 9 }
{
    add_timing_rules(found, &TIMING_RULES, base, extensions, number, timing);
}

/// Adds the rules that timings break, which are numbered from a number on.
fn add_timings(
    found: &mut ArrayVec<Finding, MAX_FINDINGS>,
    base: &Base,
    extensions: &[Ext],
    number: u8,
    timings: &[Timing],
)
    requires room { array_vec_len found.old + 9 * length timings.now ≤ MAX_FINDINGS }
    requires small { number + length timings.now < 256 }
    ensures items { found.new.items ≡ found.old.items ++ numbered_findings base.now extensions.now number timings.now }
{
    if let [timing, rest @ ..] = timings {
        add_timing(found, base, extensions, number, timing);
        add_timings(found, base, extensions, number + 1, rest);
    }
}

/// The rules that an EDID of these parts breaks, in the order of the rules, and then for each of its detailed timings, in
/// the order of the bytes, those that it breaks.
pub fn check(origin: Origin, base: &Base, extensions: &[Ext]) -> ArrayVec<Finding, MAX_FINDINGS>
    requires { length extensions.now ≤ 3 }
    ensures { result.items ≡ findings origin base.now extensions.now }
{
    let mut found = ArrayVec::new();
    let timings = timings_of(base, extensions);
    add_edid(&mut found, origin, base, extensions);
    add_timings(&mut found, base, extensions, 1, timings.as_slice());
    found
}
