//! The lines that report findings.
ghost use Rattle.std.specs.Prelude.{◌≡◌, ◌≤◌, ◌+◌, ◌*◌, ◌++◌, length};
ghost use Rattle.arrayvec.specs.ArrayVec.{array_vec_len};
ghost use Rattle.text_core.specs.Written.{WrittenAll};
ghost use Rattle.rules_check.specs.Text.{rule_severity, timing_severity, severity_of, is_failure, severity_word, rule_name, timing_rule_name, finding_name, finding_text, findings_text, some_failure};

use crate::checking::MAX_FINDINGS;
use crate::rule::{Finding, Rule, Severity, TimingRule};
use arrayvec::ArrayVec;
use edid_base::append;
use rules_contents::Slip;
use text_core::{Sink, WriteFault, put_all};

/// The bytes that the longest line has room in.
const LINE: usize = 40;
/// The bytes that the lines of all findings have room in: a `LINE` for each.
const TEXT: usize = 10_280;

fn rule_severity(rule: Rule) -> Severity
    ensures { result ≡ rule_severity rule }
{
    match rule {
        Rule::HdmiRevision
        | Rule::OneSerial
        | Rule::Underscan
        | Rule::VideoCapability
        | Rule::RgbRange
        | Rule::OneHdmi
        | Rule::CtaRevision
        | Rule::ExtensionTag
        | Rule::Block(Slip::Tag)
        | Rule::Block(Slip::HdrBits)
        | Rule::Block(Slip::VideoCode)
        | Rule::FastYcc420
        | Rule::YccRange
        | Rule::Block(Slip::Latency)
        | Rule::FormatsNearLimits
        | Rule::YearKnown
        | Rule::SrgbGamma
        | Rule::Block(Slip::Reserved)
        | Rule::Block(Slip::Bytes)
        | Rule::DescriptorKnown => Severity::Warn,
        _ => Severity::Fail,
    }
}

fn timing_severity(rule: TimingRule) -> Severity
    ensures { result ≡ timing_severity rule }
{
    match rule {
        TimingRule::NearLimits => Severity::Warn,
        _ => Severity::Fail,
    }
}

impl Finding {
    /// How much it matters.
    pub fn severity(self) -> Severity
        ensures { result ≡ severity_of self }
    {
        match self {
            Finding::Edid(rule) => rule_severity(rule),
            Finding::Timing(_, rule) => timing_severity(rule),
        }
    }
}

fn severity_word(severity: Severity) -> &'static str
    ensures value { result.now ≡ severity_word severity }
    ensures short { length result.now ≤ 5 }
{
    match severity {
        Severity::Fail => "fail ",
        Severity::Warn => "warn ",
    }
}

/// The name of a rule.
pub fn rule_name(rule: Rule) -> &'static str
    ensures value { result.now ≡ rule_name rule }
    ensures short { length result.now ≤ 32 }
{
    match rule {
        Rule::FirstTimingPreferred => "first-timing-not-preferred",
        Rule::PreferredTiming => "no-preferred-timing",
        Rule::ProductName => "no-name",
        Rule::RangeLimits => "no-range-limits",
        Rule::LimitsAlone => "gtf-fixed",
        Rule::LimitsOrder => "limits-reversed",
        Rule::Week => "week-of-1.4",
        Rule::Srgb => "srgb",
        Rule::NoEmptyDescriptor => "empty-descriptor",
        Rule::UnusedStandard => "standard-unused-form",
        Rule::BlockMap => "block-map",
        Rule::HdmiRevision => "hdmi-of-1.3",
        Rule::OneSerial => "two-serials",
        Rule::Vga => "no-640x480",
        Rule::VideoCodeOnce => "vic-twice",
        Rule::NativeCount => "native-count",
        Rule::NativeSize => "native-mixed",
        Rule::Underscan => "overscan",
        Rule::BasicAudio => "no-basic-audio",
        Rule::Speakers => "speakers",
        Rule::Padding => "padding",
        Rule::VideoCapability => "no-video-capability",
        Rule::RgbRange => "rgb-quantization",
        Rule::TmdsClock => "tmds-clock",
        Rule::Address => "address",
        Rule::OneHdmi => "hdmi-twice",
        Rule::HdmiVideoCode => "hdmi-vic-without-vic",
        Rule::ForumAfterHdmi => "hdmi-forum-first",
        Rule::CtaForm => "cta-overrun",
        Rule::CtaRevision => "cta-revision",
        Rule::ExtensionTag => "unknown-extension",
        Rule::Block(Slip::Length) => "block-length",
        Rule::BlockOnce => "block-twice",
        Rule::OverrideFirst => "eeodb-place",
        Rule::OverrideCount => "eeodb-count",
        Rule::Block(Slip::Tag) => "tag-reserved",
        Rule::Block(Slip::AudioFormat) => "audio-reserved",
        Rule::Block(Slip::HdrBits) => "hdr-reserved",
        Rule::Block(Slip::VideoCode) => "vic-reserved",
        Rule::Block(Slip::HdmiCode) => "hdmi-vic-reserved",
        Rule::Block(Slip::ForumClock) => "forum-clock",
        Rule::Block(Slip::ForumScdc) => "forum-scdc",
        Rule::Block(Slip::ForumRates) => "forum-vrr",
        Rule::MapWithinCodes => "map-past-codes",
        Rule::FastYcc420 => "ycc420-slow",
        Rule::YccRange => "ycc-quantization",
        Rule::Block(Slip::Latency) => "latency-order",
        Rule::FormatsWithinLimits => "out-of-range",
        Rule::FormatsNearLimits => "out-of-range",
        Rule::FormatsCarried => "link-clock",
        Rule::TextForm => "text-form",
        Rule::WeekKnown => "week-reserved",
        Rule::YearKnown => "year-late",
        Rule::SrgbGamma => "srgb-gamma",
        Rule::InputKnown => "input-reserved",
        Rule::Block(Slip::Reserved) => "reserved",
        Rule::Block(Slip::Bytes) => "length",
        Rule::SectionSum => "displayid-checksum",
        Rule::DescriptorKnown => "descriptor-reserved",
    }
}

/// The name of a rule for a detailed timing.
pub fn timing_rule_name(rule: TimingRule) -> &'static str
    ensures value { result.now ≡ timing_rule_name rule }
    ensures short { length result.now ≤ 16 }
{
    match rule {
        TimingRule::Clock => "clock",
        TimingRule::Fields => "timing-zero",
        TimingRule::HorizontalBackPorch => "h-back-porch",
        TimingRule::VerticalBackPorch => "v-back-porch",
        TimingRule::SizeThere => "size-missing",
        TimingRule::SizeFits => "size-differs",
        TimingRule::WithinLimits | TimingRule::NearLimits => "out-of-range",
        TimingRule::Carried => "link-clock",
    }
}

/// Appends what is broken by the timing with a number.
fn append_timing(text: &mut ArrayVec<u8, TEXT>, number: u8, rule: TimingRule)
    requires { array_vec_len text.old + 32 ≤ TEXT }
    ensures items { text.new.items ≡ text.old.items ++ finding_name (Finding.Timing number rule) }
    ensures len { array_vec_len text.new ≤ array_vec_len text.old + 32 }
{
    let mut digits = itoa::Buffer::new();
    append(text, b"timing ");
    append(text, digits.format(u32::from(number)).as_bytes());
    append(text, b" ");
    append(text, timing_rule_name(rule).as_bytes());
}

/// Appends what is broken.
fn append_name(text: &mut ArrayVec<u8, TEXT>, finding: Finding)
    requires { array_vec_len text.old + 32 ≤ TEXT }
    ensures items { text.new.items ≡ text.old.items ++ finding_name finding }
    ensures len { array_vec_len text.new ≤ array_vec_len text.old + 32 }
{
    match finding {
        Finding::Edid(rule) => append(text, rule_name(rule).as_bytes()),
        Finding::Timing(number, rule) => append_timing(text, number, rule),
    }
}

/// Appends the line of a finding.
fn append_finding(text: &mut ArrayVec<u8, TEXT>, finding: Finding)
    requires { array_vec_len text.old + LINE ≤ TEXT }
    ensures items { text.new.items ≡ text.old.items ++ finding_text finding }
    ensures len { array_vec_len text.new ≤ array_vec_len text.old + LINE }
{
    append(text, severity_word(finding.severity()).as_bytes());
    append_name(text, finding);
    append(text, b"\n");
}

/// A line for each finding.
fn text_of(found: &[Finding]) -> ArrayVec<u8, TEXT>
    requires { length found.now ≤ MAX_FINDINGS }
    ensures { result.items ≡ findings_text found.now }
{
    let mut text = ArrayVec::new();
    for finding in found {
        append_finding(&mut text, *finding);
    }
    text
}

fn is_failure(finding: Finding) -> bool
    ensures { result ≡ is_failure finding }
{
    finding.severity() == Severity::Fail
}

/// Whether some finding is more than a warning.
pub fn has_failure(found: &[Finding]) -> bool
    ensures { result ≡ some_failure found.now }
{
    found.iter().any(|finding| is_failure(*finding))
}

/// Writes a line for each finding. After a fault the front of the lines is written, as long as the fault's count says, and
/// the sink is stuck.
pub fn write_findings<S: Sink>(out: &mut S, found: &[Finding]) -> Result<(), WriteFault>
    requires { length found.now ≤ MAX_FINDINGS }
    ensures { WrittenAll (S.contents out.old) (S.contents out.new) (S.is_stuck out.old) (S.is_stuck out.new) (findings_text found.now) result }
{
    put_all(out, text_of(found).as_slice())
}
