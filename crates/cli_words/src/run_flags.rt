//! The flags of `run`.
ghost use Rattle.std.specs.Prelude.{◌≡◌, map, option_and_then, string_bytes};
ghost use Rattle.cli_words.specs.RunFlags.{format_named, one_run_flag, run_asked, run_choice, run_flags, waited_run, with_run_value, with_run_word};

use capture_forms::CaptureForm;
use cli_choice::{Asked, CommandChoice, Listing, Objects, joined};

/// The flags that `run` was given.
#[derive(Clone, Copy)]
pub struct RunFlags {
    pub edges: bool,
    /// The format that `--as` names.
    pub format: Option<CaptureForm>,
    /// Whether a dump has who drives the line too.
    pub drives: bool,
    /// Whether that dump has its frames and bits as strings too.
    pub named: bool,
    pub strict: bool,
    pub json: bool,
    /// Whether the objects have the room and the script too.
    pub room: bool,
    pub explains: bool,
    /// Whether the word of a format comes next.
    pub waits: bool,
}

impl RunFlags {
    /// No flag.
    pub const NONE: RunFlags = RunFlags {
        edges: false,
        format: None,
        drives: false,
        named: false,
        strict: false,
        json: false,
        room: false,
        explains: false,
        waits: false,
    };
}

// The format of a line that a word names.
fn format_named(word: &str) -> Option<CaptureForm>
    ensures { result ≡ format_named word.now }
{
    match word {
        "vcd" => Some(CaptureForm::Vcd),
        "pin" => Some(CaptureForm::Pin),
        "csv" => Some(CaptureForm::Csv),
        _ => None,
    }
}

// The flags with the value of the last.
fn with_run_value(flags: RunFlags, word: &str) -> Option<RunFlags>
    ensures { result ≡ with_run_value flags word.now }
{
    let format = format_named(word)?;
    Some(RunFlags {
        format: Some(format),
        waits: false,
        ..flags
    })
}

/// The flags with one more. Each stands once at most.
pub(crate) fn with_run_flag(flags: RunFlags, word: &str) -> Option<RunFlags>
    ensures { result ≡ one_run_flag flags word.now }
{
    match word {
        "--edges" if !flags.edges => Some(RunFlags {
            edges: true,
            ..flags
        }),
        "--as" if flags.format.is_none() => Some(RunFlags {
            waits: true,
            ..flags
        }),
        "--drives" if !flags.drives => Some(RunFlags {
            drives: true,
            ..flags
        }),
        "--named" if !flags.named => Some(RunFlags {
            named: true,
            ..flags
        }),
        "--strict" if !flags.strict => Some(RunFlags {
            strict: true,
            ..flags
        }),
        "--json" if !flags.json => Some(RunFlags {
            json: true,
            ..flags
        }),
        "--room" if !flags.room => Some(RunFlags {
            room: true,
            ..flags
        }),
        "--explain" if !flags.explains => Some(RunFlags {
            explains: true,
            ..flags
        }),
        _ => None,
    }
}

// The flags with a flag that waits for this value.
fn with_run_pair(flags: RunFlags, flag: &str, word: &str) -> Option<RunFlags>
    ensures { result ≡ option_and_then (waited_run word.now) (one_run_flag flags flag.now) }
{
    let flags = with_run_flag(flags, flag)?;
    if flags.waits {
        with_run_value(flags, word)
    } else {
        None
    }
}

/// The flags with one word more: a value where a flag waits for one, else a flag, or a flag and its value.
pub(crate) fn with_run_word(flags: RunFlags, word: &str) -> Option<RunFlags>
    ensures { result ≡ with_run_word flags word.now }
{
    if flags.waits {
        return with_run_value(flags, word);
    }
    match joined(word) {
        Some((flag, value)) => with_run_pair(flags, flag, value),
        None => with_run_flag(flags, word),
    }
}

/// The flags with those that these words are.
pub fn run_flags(flags: RunFlags, words: &[String]) -> Option<RunFlags>
    ensures { result ≡ run_flags flags (map string_bytes words.now) }
{
    match words {
        [] => Some(flags),
        [word, rest @ ..] => run_flags(with_run_word(flags, word.as_str())?, rest),
    }
}

// What is done with a run.
fn run_choice(json: bool, room: bool, listing: Listing, strict: bool) -> CommandChoice
    ensures { result ≡ run_choice json room listing strict }
{
    if json && room {
        CommandChoice::Json(Objects::Room { strict })
    } else if json {
        CommandChoice::Json(Objects::Trace { strict })
    } else {
        CommandChoice::Run { listing, strict }
    }
}

/// What `run` with these flags asks for: `--as` goes with `--edges` alone, `--drives` with `--edges --as vcd`, `--named` with
/// `--drives`, and `--json` without `--edges`, `--room` with `--json`.
pub fn run_asked(flags: &RunFlags) -> Option<Asked>
    ensures { result ≡ run_asked flags.now }
{
    let listing = match flags.format {
        _ if flags.waits || (flags.edges && flags.json) || (flags.room && !flags.json) =>
            return None,
        Some(CaptureForm::Vcd) if flags.edges && flags.drives && flags.named => Listing::Named,
        Some(CaptureForm::Vcd) if flags.edges && flags.drives => Listing::Drives,
        _ if flags.drives || flags.named => return None,
        Some(format) if flags.edges => Listing::Line(format),
        Some(_) => return None,
        None if flags.edges => Listing::Line(CaptureForm::Edges),
        None => Listing::Trace,
    };
    Some(Asked {
        choice: run_choice(flags.json, flags.room, listing, flags.strict),
        explains: flags.explains,
    })
}
