//! The flags of `check`.
ghost use Rattle.std.specs.Prelude.{◌≡◌, map, string_bytes, option_and_then};
ghost use Rattle.cli_words.specs.CheckFlags.{capture_choice, check_asked, check_choice, check_flags, has_capture_flag, of_capture, of_run, run_choice, test_view, waited_check, with_check_flag, with_check_value, with_check_word, with_progress};

use crate::mon_flags::{MonValue, form_of, has_names};
use capture_forms::CaptureForm;
use cli_choice::{Asked, CommandChoice, Objects, TestView, joined, micros_of};

/// The flags that `check` was given.
#[derive(Clone, Copy)]
pub struct CheckFlags {
    pub plain: bool,
    pub trace: bool,
    pub json: bool,
    pub progress: bool,
    pub capture: bool,
    pub form: Option<CaptureForm>,
    /// Whether `--signal` names a wire, which `named_in` returns.
    pub named: bool,
    pub glitch: Option<u64>,
    pub explains: bool,
    /// The flag whose value comes next.
    pub waits: Option<MonValue>,
}

impl CheckFlags {
    /// No flag.
    pub const NONE: CheckFlags = CheckFlags {
        plain: false,
        trace: false,
        json: false,
        progress: false,
        capture: false,
        form: None,
        named: false,
        glitch: None,
        explains: false,
        waits: None,
    };
}

// The flags with the value of the last.
fn with_check_value(flags: CheckFlags, value: MonValue, word: &str) -> Option<CheckFlags>
    ensures { result ≡ with_check_value flags value word.now }
{
    match value {
        MonValue::From => {
            let form = form_of(word)?;
            Some(CheckFlags {
                form: Some(form),
                waits: None,
                ..flags
            })
        }
        MonValue::Signal => Some(CheckFlags {
            named: true,
            waits: None,
            ..flags
        }),
        MonValue::Glitch => {
            let glitch = micros_of(word.as_bytes())?;
            Some(CheckFlags {
                glitch: Some(glitch),
                waits: None,
                ..flags
            })
        }
        MonValue::Scale | MonValue::Margin | MonValue::Replay => None,
    }
}

/// The flags with one more. Each stands once at most.
pub(crate) fn with_check_flag(flags: CheckFlags, word: &str) -> Option<CheckFlags>
    ensures { result ≡ with_check_flag flags word.now }
{
    match word {
        "--plain" if !flags.plain => Some(CheckFlags {
            plain: true,
            ..flags
        }),
        "--trace" if !flags.trace => Some(CheckFlags {
            trace: true,
            ..flags
        }),
        "--json" if !flags.json => Some(CheckFlags {
            json: true,
            ..flags
        }),
        "--progress" if !flags.progress => Some(CheckFlags {
            progress: true,
            ..flags
        }),
        "--capture" if !flags.capture => Some(CheckFlags {
            capture: true,
            ..flags
        }),
        "--from" if flags.form.is_none() => Some(CheckFlags {
            waits: Some(MonValue::From),
            ..flags
        }),
        "--signal" if !flags.named => Some(CheckFlags {
            waits: Some(MonValue::Signal),
            ..flags
        }),
        "--glitch" if flags.glitch.is_none() => Some(CheckFlags {
            waits: Some(MonValue::Glitch),
            ..flags
        }),
        "--explain" if !flags.explains => Some(CheckFlags {
            explains: true,
            ..flags
        }),
        _ => None,
    }
}

// The flags with a flag that waits for this value.
fn with_check_pair(flags: CheckFlags, flag: &str, word: &str) -> Option<CheckFlags>
    ensures { result ≡ option_and_then (waited_check word.now) (with_check_flag flags flag.now) }
{
    let flags = with_check_flag(flags, flag)?;
    with_check_value(flags, flags.waits?, word)
}

/// The flags with one word more: a value where a flag waits for one, else a flag, or a flag and its value.
pub(crate) fn with_check_word(flags: CheckFlags, word: &str) -> Option<CheckFlags>
    ensures { result ≡ with_check_word flags flags.waits word.now }
{
    match flags.waits {
        Some(value) => with_check_value(flags, value, word),
        None => match joined(word) {
            Some((flag, value)) => with_check_pair(flags, flag, value),
            None => with_check_flag(flags, word),
        },
    }
}

/// The flags with those that these words are, and their values.
pub fn check_flags(flags: CheckFlags, words: &[String]) -> Option<CheckFlags>
    ensures { result ≡ check_flags flags (map string_bytes words.now) }
{
    match words {
        [] => Some(flags),
        [word, rest @ ..] => check_flags(with_check_word(flags, word.as_str())?, rest),
    }
}

// What is written of a run. The plain script has no trace after it.
fn test_view(plain: bool, trace: bool) -> Option<TestView>
    ensures { result ≡ test_view plain trace }
{
    match (plain, trace) {
        (false, false) => Some(TestView::Report),
        (false, true) => Some(TestView::Traced),
        (true, false) => Some(TestView::Plain),
        (true, true) => None,
    }
}

// The same, and how far a sweep is. What is no report has no sweep.
fn with_progress(progress: bool, view: TestView) -> Option<TestView>
    ensures { result ≡ with_progress progress view }
{
    match view {
        TestView::Report if progress => Some(TestView::Progress),
        _ if progress => None,
        view => Some(view),
    }
}

// Whether a flag speaks of a capture.
fn has_capture_flag(flags: &CheckFlags) -> bool
    ensures { result ≡ has_capture_flag flags.now }
{
    flags.form.is_some() || flags.named || flags.glitch.is_some()
}

// The report of a test of a capture, or its objects.
fn capture_choice(json: bool, form: Option<CaptureForm>, glitch: u64) -> CommandChoice
    ensures { result ≡ capture_choice json form glitch }
{
    if json {
        CommandChoice::Json(Objects::CaptureTest { form, glitch })
    } else {
        CommandChoice::CheckCapture { form, glitch }
    }
}

// A report of a capture alone is written.
fn of_capture(flags: &CheckFlags) -> Option<CommandChoice>
    ensures { result ≡ of_capture flags.now }
{
    if flags.plain || flags.trace || flags.progress || (flags.named && !has_names(flags.form)) {
        return None;
    }
    Some(capture_choice(flags.json, flags.form, flags.glitch.unwrap_or(0)))
}

// What is written of a test of a run. Objects are those of its report, with its trace or without.
fn run_choice(json: bool, view: TestView) -> Option<CommandChoice>
    ensures { result ≡ run_choice json view }
{
    match view {
        TestView::Report if json => Some(CommandChoice::Json(Objects::Test { traced: false })),
        TestView::Traced if json => Some(CommandChoice::Json(Objects::Test { traced: true })),
        _ if json => None,
        view => Some(CommandChoice::Check(view)),
    }
}

fn of_run(flags: &CheckFlags) -> Option<CommandChoice>
    ensures { result ≡ of_run flags.now }
{
    if has_capture_flag(flags) {
        return None;
    }
    let view = test_view(flags.plain, flags.trace)?;
    let view = with_progress(flags.progress, view)?;
    run_choice(flags.json, view)
}

fn check_choice(flags: &CheckFlags) -> Option<CommandChoice>
    ensures { result ≡ check_choice flags.now }
{
    if flags.capture {
        of_capture(flags)
    } else {
        of_run(flags)
    }
}

/// What `check` with these flags asks for.
pub fn check_asked(flags: &CheckFlags) -> Option<Asked>
    ensures { result ≡ check_asked flags.now }
{
    if flags.waits.is_some() {
        return None;
    }
    let choice = check_choice(flags)?;
    Some(Asked {
        choice,
        explains: flags.explains,
    })
}
