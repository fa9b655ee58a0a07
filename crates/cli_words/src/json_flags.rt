//! The flags of subcommands that have `--json` and `--explain` alone.
ghost use Rattle.std.specs.Prelude.{◌≡◌, map, string_bytes};
ghost use Rattle.cli_words.specs.JsonFlags.{json_flags, lay_asked, live_asked, one_json_flag, step_asked};

use cli_choice::{Asked, CommandChoice, form_by};

/// The flags that such a subcommand was given.
#[derive(Clone, Copy)]
pub struct JsonFlags {
    pub json: bool,
    pub explains: bool,
}

impl JsonFlags {
    /// No flag.
    pub const NONE: JsonFlags = JsonFlags {
        json: false,
        explains: false,
    };
}

// The flags with one more. Each stands once at most.
fn with_json_flag(flags: JsonFlags, word: &str) -> Option<JsonFlags>
    ensures { result ≡ one_json_flag flags word.now }
{
    match word {
        "--json" if !flags.json => Some(JsonFlags {
            json: true,
            ..flags
        }),
        "--explain" if !flags.explains => Some(JsonFlags {
            explains: true,
            ..flags
        }),
        _ => None,
    }
}

/// The flags with those that these words are.
pub fn json_flags(flags: JsonFlags, words: &[String]) -> Option<JsonFlags>
    ensures { result ≡ json_flags flags (map string_bytes words.now) }
{
    match words {
        [] => Some(flags),
        [word, rest @ ..] => json_flags(with_json_flag(flags, word.as_str())?, rest),
    }
}

/// What `step` with these flags asks for.
pub fn step_asked(flags: JsonFlags) -> Asked
    ensures { result ≡ step_asked flags }
{
    Asked {
        choice: CommandChoice::Step {
            form: form_by(flags.json),
        },
        explains: flags.explains,
    }
}

/// What `live` with these flags asks for.
pub fn live_asked(flags: JsonFlags) -> Asked
    ensures { result ≡ live_asked flags }
{
    Asked {
        choice: CommandChoice::Live { json: flags.json },
        explains: flags.explains,
    }
}

/// What `lay` with these flags asks for.
pub fn lay_asked(flags: JsonFlags) -> Asked
    ensures { result ≡ lay_asked flags }
{
    Asked {
        choice: CommandChoice::Lay {
            form: form_by(flags.json),
        },
        explains: flags.explains,
    }
}
