//! The flags of `mon`.
ghost use Rattle.std.specs.Prelude.{◌≡◌, map, string_bytes, option_and_then};
ghost use Rattle.cli_words.specs.MonFlags.{address_of, asks_of_lines, asks_of_readings, follow_choice, pair_choice, one_choice, form_of, follow_report, has_names, line_choice, line_form, margin_of, is_misfit, mon_asked, mon_choice, mon_flags, mon_report, goes_with, readings_choice, summary_choice, waited_mon, with_mon_flag, with_mon_value, with_mon_word, with_reading_flag, with_whole_flag};

use capture_forms::CaptureForm;
use capture_scale::{AS_IT_IS, scale_of};
use cli_choice::{
    Asked, CapturePair, CaptureReport, CaptureSummary, CommandChoice, FollowChoice, FollowReport,
    MonChoice, SummaryChoice, form_by, joined, micros_of,
};
use follow_core::LineForm;
use text_core::{digit_value, is_hex_digit, number_in};

/// The most by which windows are made wider, in microseconds.
const MOST_MARGIN: u64 = 300;

/// A flag of a capture that a value follows.
#[derive(Clone, Copy, Debug)]
pub enum MonValue {
    From,
    Signal,
    Scale,
    Glitch,
    Margin,
    Replay,
}

/// The flags that `mon` was given.
#[derive(Clone, Copy)]
pub struct MonFlags {
    pub form: Option<CaptureForm>,
    /// Whether `--signal` names a wire, which `named_in` returns.
    pub named: bool,
    /// The factor of its times, in ten-thousandths.
    pub scale: Option<u64>,
    pub glitch: Option<u64>,
    pub margin: Option<u64>,
    pub inverted: bool,
    /// The readings that `--from-start` or `--from-idle` asks for.
    pub start: Option<CaptureReport>,
    pub audit: bool,
    pub timing: bool,
    pub strict: bool,
    pub folded: bool,
    pub json: bool,
    /// Whether the line itself is written, as an edge file.
    pub edges: bool,
    /// What is said of the whole in place of its readings.
    pub summary: Option<CaptureSummary>,
    /// Whether two captures are compared.
    pub compares: bool,
    /// Whether readings are written as they come.
    pub follows: bool,
    pub explains: bool,
    /// The flag whose value comes next.
    pub waits: Option<MonValue>,
}

impl MonFlags {
    /// No flag.
    pub const NONE: MonFlags = MonFlags {
        form: None,
        named: false,
        scale: None,
        glitch: None,
        margin: None,
        inverted: false,
        start: None,
        audit: false,
        timing: false,
        strict: false,
        folded: false,
        json: false,
        edges: false,
        summary: None,
        compares: false,
        follows: false,
        explains: false,
        waits: None,
    };
}

/// The form of a capture that a word names.
pub fn form_of(word: &str) -> Option<CaptureForm>
    ensures { result ≡ form_of word.now }
{
    match word {
        "edges" => Some(CaptureForm::Edges),
        "vcd" => Some(CaptureForm::Vcd),
        "pin" => Some(CaptureForm::Pin),
        "csv" => Some(CaptureForm::Csv),
        _ => None,
    }
}

// By how many microseconds windows are wider: 300 at most.
fn margin_of(word: &[u8]) -> Option<u64>
    ensures { result ≡ margin_of word.now }
{
    match number_in(word) {
        Some(margin) if margin <= MOST_MARGIN => Some(margin),
        _ => None,
    }
}

// The logical address of a device: 0 to e.
fn address_of(word: &[u8]) -> Option<u8>
    ensures { result ≡ address_of word.now }
{
    if word.len() != 1 || !is_hex_digit(word[0]) || word[0] == b'f' {
        return None;
    }
    Some(digit_value(word[0]))
}

// The flags with the value of the last.
fn with_mon_value(flags: MonFlags, value: MonValue, word: &str) -> Option<MonFlags>
    ensures { result ≡ with_mon_value flags value word.now }
{
    match value {
        MonValue::From => {
            let form = form_of(word)?;
            Some(MonFlags {
                form: Some(form),
                waits: None,
                ..flags
            })
        }
        MonValue::Signal => Some(MonFlags {
            named: true,
            waits: None,
            ..flags
        }),
        MonValue::Scale => {
            let scale = scale_of(word)?;
            Some(MonFlags {
                scale: Some(scale),
                waits: None,
                ..flags
            })
        }
        MonValue::Glitch => {
            let glitch = micros_of(word.as_bytes())?;
            Some(MonFlags {
                glitch: Some(glitch),
                waits: None,
                ..flags
            })
        }
        MonValue::Margin => {
            let margin = margin_of(word.as_bytes())?;
            Some(MonFlags {
                margin: Some(margin),
                waits: None,
                ..flags
            })
        }
        MonValue::Replay => {
            let address = address_of(word.as_bytes())?;
            Some(MonFlags {
                summary: Some(CaptureSummary::Replay(address)),
                waits: None,
                ..flags
            })
        }
    }
}

// The flags with one that says what is made of a capture as a whole, or how it comes.
fn with_whole_flag(flags: MonFlags, word: &str) -> Option<MonFlags>
    ensures { result ≡ with_whole_flag flags word.now }
{
    match word {
        "--edges" if !flags.edges => Some(MonFlags {
            edges: true,
            ..flags
        }),
        "--report" if flags.summary.is_none() => Some(MonFlags {
            summary: Some(CaptureSummary::Devices),
            ..flags
        }),
        "--verdict" if flags.summary.is_none() => Some(MonFlags {
            summary: Some(CaptureSummary::Verdict),
            ..flags
        }),
        "--as-test" if flags.summary.is_none() => Some(MonFlags {
            summary: Some(CaptureSummary::Test),
            ..flags
        }),
        "--replay" if flags.summary.is_none() => Some(MonFlags {
            waits: Some(MonValue::Replay),
            ..flags
        }),
        "--diff" if !flags.compares => Some(MonFlags {
            compares: true,
            ..flags
        }),
        "--follow" if !flags.follows => Some(MonFlags {
            follows: true,
            ..flags
        }),
        "--explain" if !flags.explains => Some(MonFlags {
            explains: true,
            ..flags
        }),
        _ => None,
    }
}

// The flags with one that says how a capture is read, and which readings are written.
fn with_reading_flag(flags: MonFlags, word: &str) -> Option<MonFlags>
    ensures { result ≡ with_reading_flag flags word.now }
{
    match word {
        "--from" if flags.form.is_none() => Some(MonFlags {
            waits: Some(MonValue::From),
            ..flags
        }),
        "--signal" if !flags.named => Some(MonFlags {
            waits: Some(MonValue::Signal),
            ..flags
        }),
        "--scale" if flags.scale.is_none() => Some(MonFlags {
            waits: Some(MonValue::Scale),
            ..flags
        }),
        "--glitch" if flags.glitch.is_none() => Some(MonFlags {
            waits: Some(MonValue::Glitch),
            ..flags
        }),
        "--margin" if flags.margin.is_none() => Some(MonFlags {
            waits: Some(MonValue::Margin),
            ..flags
        }),
        "--invert" if !flags.inverted => Some(MonFlags {
            inverted: true,
            ..flags
        }),
        "--from-start" if flags.start.is_none() => Some(MonFlags {
            start: Some(CaptureReport::Readings),
            ..flags
        }),
        "--from-idle" if flags.start.is_none() => Some(MonFlags {
            start: Some(CaptureReport::FromIdle),
            ..flags
        }),
        "--audit" if !flags.audit => Some(MonFlags {
            audit: true,
            ..flags
        }),
        "--timing" if !flags.timing => Some(MonFlags {
            timing: true,
            ..flags
        }),
        "--strict" if !flags.strict => Some(MonFlags {
            strict: true,
            ..flags
        }),
        "--fold" if !flags.folded => Some(MonFlags {
            folded: true,
            ..flags
        }),
        "--json" if !flags.json => Some(MonFlags {
            json: true,
            ..flags
        }),
        _ => None,
    }
}

/// The flags with one more. Each stands once at most, and those that exclude one another not together.
pub(crate) fn with_mon_flag(flags: MonFlags, word: &str) -> Option<MonFlags>
    ensures { result ≡ with_mon_flag flags word.now }
{
    with_reading_flag(flags, word).or(with_whole_flag(flags, word))
}

// The flags with a flag that waits for this value.
fn with_mon_pair(flags: MonFlags, flag: &str, word: &str) -> Option<MonFlags>
    ensures { result ≡ option_and_then (waited_mon word.now) (with_mon_flag flags flag.now) }
{
    let flags = with_mon_flag(flags, flag)?;
    with_mon_value(flags, flags.waits?, word)
}

/// The flags with one word more: a value where a flag waits for one, else a flag, or a flag and its value.
pub(crate) fn with_mon_word(flags: MonFlags, word: &str) -> Option<MonFlags>
    ensures { result ≡ with_mon_word flags flags.waits word.now }
{
    match flags.waits {
        Some(value) => with_mon_value(flags, value, word),
        None => match joined(word) {
            Some((flag, value)) => with_mon_pair(flags, flag, value),
            None => with_mon_flag(flags, word),
        },
    }
}

/// The flags with those that these words are, and their values.
pub fn mon_flags(flags: MonFlags, words: &[String]) -> Option<MonFlags>
    ensures { result ≡ mon_flags flags (map string_bytes words.now) }
{
    match words {
        [] => Some(flags),
        [word, rest @ ..] => mon_flags(with_mon_word(flags, word.as_str())?, rest),
    }
}

/// Whether the wires of a capture may have names: those of edge files and of pin events have none.
pub fn has_names(form: Option<CaptureForm>) -> bool
    ensures { result ≡ has_names form }
{
    match form {
        None | Some(CaptureForm::Vcd | CaptureForm::Csv) => true,
        Some(CaptureForm::Edges | CaptureForm::Pin) => false,
    }
}

// What is written of the capture, where a flag says it. An audit is of the whole capture, and an audit alone is strict.
fn mon_report(
    start: Option<CaptureReport>,
    audited: bool,
    timing: bool,
    strict: bool,
) -> Option<Option<CaptureReport>>
    ensures { result ≡ mon_report start audited timing strict }
{
    match start {
        Some(_) if audited || strict => None,
        Some(start) => Some(Some(start)),
        None if audited => Some(Some(CaptureReport::Audit { timing, strict })),
        None if strict => None,
        None => Some(None),
    }
}

// The form of a capture that is read line by line. It is not guessed.
fn line_form(form: Option<CaptureForm>) -> Option<LineForm>
    ensures { result ≡ line_form form }
{
    match form {
        Some(CaptureForm::Edges) => Some(LineForm::Edges),
        Some(CaptureForm::Pin) => Some(LineForm::Pin),
        Some(CaptureForm::Csv) => Some(LineForm::Csv),
        Some(CaptureForm::Vcd) | None => None,
    }
}

// What is written of a capture as it comes: its readings where no flag says it.
fn follow_report(report: Option<CaptureReport>, folded: bool) -> FollowReport
    ensures { result ≡ follow_report report folded }
{
    let Some(report) = report else {
        return FollowReport::Readings {
            from_idle: false,
            folded,
        };
    };
    match report {
        CaptureReport::Readings => FollowReport::Readings {
            from_idle: false,
            folded,
        },
        CaptureReport::FromIdle => FollowReport::Readings {
            from_idle: true,
            folded,
        },
        CaptureReport::Audit { timing, strict } => FollowReport::Audit { timing, strict },
    }
}

// What a capture reports as it comes, with its times as they stand.
fn follow_choice(flags: &MonFlags) -> Option<CommandChoice>
    ensures { result ≡ follow_choice flags.now }
{
    let audited = flags.audit || flags.timing;
    if (flags.folded && audited) || flags.scale.is_some() {
        return None;
    }
    let form = line_form(flags.form)?;
    let report = mon_report(flags.start, audited, flags.timing, flags.strict)?;
    let report = follow_report(report, flags.folded);
    Some(CommandChoice::Follow(FollowChoice {
        form,
        glitch: flags.glitch.unwrap_or(0),
        inverted: flags.inverted,
        margin: flags.margin.unwrap_or(0),
        report,
        written: form_by(flags.json),
    }))
}

// Whether a flag says which lines there are of readings, or that they come one by one.
fn asks_of_lines(flags: &MonFlags) -> bool
    ensures { result ≡ asks_of_lines flags.now }
{
    flags.start.is_some() || flags.audit || flags.timing || flags.folded || flags.follows
}

// Whether a flag asks for something of readings.
fn asks_of_readings(flags: &MonFlags) -> bool
    ensures { result ≡ asks_of_readings flags.now }
{
    asks_of_lines(flags)
        || flags.margin.is_some()
        || flags.strict
        || flags.summary.is_some()
        || flags.json
}

// The line of a capture, of which nothing is read.
fn line_choice(flags: &MonFlags) -> Option<CommandChoice>
    ensures { result ≡ line_choice flags.now }
{
    if asks_of_readings(flags) {
        return None;
    }
    Some(CommandChoice::CapturedLine {
        form: flags.form,
        inverted: flags.inverted,
        scale: flags.scale.unwrap_or(AS_IT_IS),
        glitch: flags.glitch.unwrap_or(0),
    })
}

// Whether the flags go with what is said of a whole capture. A verdict, a test and a replay go by no margin and have no remarks; a test
// and a replay are no records.
fn goes_with(flags: &MonFlags, summary: CaptureSummary) -> bool
    ensures { result ≡ goes_with flags.now summary }
{
    match summary {
        CaptureSummary::Devices => true,
        CaptureSummary::Verdict => flags.margin.is_none() && !flags.strict,
        CaptureSummary::Test | CaptureSummary::Replay(_) => flags.margin.is_none()
            && !flags.strict
            && !flags.json,
    }
}

// What is said of a whole capture.
fn summary_choice(flags: &MonFlags, summary: CaptureSummary) -> Option<CommandChoice>
    ensures { result ≡ summary_choice flags.now summary }
{
    if asks_of_lines(flags) || !goes_with(flags, summary) {
        return None;
    }
    Some(CommandChoice::Summary(SummaryChoice {
        form: flags.form,
        scale: flags.scale.unwrap_or(AS_IT_IS),
        glitch: flags.glitch.unwrap_or(0),
        margin: flags.margin.unwrap_or(0),
        inverted: flags.inverted,
        summary,
        strict: flags.strict,
        written: form_by(flags.json),
    }))
}

// Where two captures differ, of which each is read as the other.
fn pair_choice(flags: &MonFlags) -> Option<CommandChoice>
    ensures { result ≡ pair_choice flags.now }
{
    if asks_of_lines(flags) || flags.strict || flags.summary.is_some() || flags.edges {
        return None;
    }
    Some(CommandChoice::CaptureDiff(CapturePair {
        form: flags.form,
        scale: flags.scale.unwrap_or(AS_IT_IS),
        glitch: flags.glitch.unwrap_or(0),
        margin: flags.margin.unwrap_or(0),
        inverted: flags.inverted,
        written: form_by(flags.json),
    }))
}

// The readings of a capture, or its audit.
fn readings_choice(flags: &MonFlags) -> Option<CommandChoice>
    ensures { result ≡ readings_choice flags.now }
{
    let audited = flags.audit || flags.timing;
    let report = mon_report(flags.start, audited, flags.timing, flags.strict)?;
    Some(CommandChoice::Mon(MonChoice {
        form: flags.form,
        scale: flags.scale.unwrap_or(AS_IT_IS),
        glitch: flags.glitch.unwrap_or(0),
        margin: flags.margin.unwrap_or(0),
        inverted: flags.inverted,
        folded: flags.folded,
        report,
        written: form_by(flags.json),
    }))
}

// What is written of one capture.
fn one_choice(flags: &MonFlags) -> Option<CommandChoice>
    ensures { result ≡ one_choice flags.now }
{
    if flags.edges {
        return line_choice(flags);
    }
    if let Some(summary) = flags.summary {
        return summary_choice(flags, summary);
    }
    if flags.follows {
        return follow_choice(flags);
    }
    readings_choice(flags)
}

// What is written of a capture, or of two.
fn mon_choice(flags: &MonFlags) -> Option<CommandChoice>
    ensures { result ≡ mon_choice flags.now }
{
    if flags.compares {
        pair_choice(flags)
    } else {
        one_choice(flags)
    }
}

// Whether a value is missing, or a wire has no name.
fn is_misfit(flags: &MonFlags) -> bool
    ensures { result ≡ is_misfit flags.now }
{
    flags.waits.is_some() || (flags.named && !has_names(flags.form))
}

/// What `mon` with these flags asks for.
pub fn mon_asked(flags: &MonFlags) -> Option<Asked>
    ensures { result ≡ mon_asked flags.now }
{
    if is_misfit(flags) {
        return None;
    }
    let choice = mon_choice(flags)?;
    Some(Asked {
        choice,
        explains: flags.explains,
    })
}
