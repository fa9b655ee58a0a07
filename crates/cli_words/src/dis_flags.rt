//! The flags of `dis`.
ghost use Rattle.std.specs.Prelude.{◌≡◌, map, string_bytes};
ghost use Rattle.cli_words.specs.DisFlags.{dis_asked, dis_flags, one_dis_flag};

use cli_choice::{Asked, CommandChoice, form_by};

/// The flags that `dis` was given.
#[derive(Clone, Copy)]
pub struct DisFlags {
    pub meaning: bool,
    pub json: bool,
    pub explains: bool,
}

impl DisFlags {
    /// No flag.
    pub const NONE: DisFlags = DisFlags {
        meaning: false,
        json: false,
        explains: false,
    };
}

// The flags with one more. Each stands once at most.
fn with_dis_flag(flags: DisFlags, word: &str) -> Option<DisFlags>
    ensures { result ≡ one_dis_flag flags word.now }
{
    match word {
        "--meaning" if !flags.meaning => Some(DisFlags {
            meaning: true,
            ..flags
        }),
        "--json" if !flags.json => Some(DisFlags {
            json: true,
            ..flags
        }),
        "--explain" if !flags.explains => Some(DisFlags {
            explains: true,
            ..flags
        }),
        _ => None,
    }
}

/// The flags with those that these words are.
pub fn dis_flags(flags: DisFlags, words: &[String]) -> Option<DisFlags>
    ensures { result ≡ dis_flags flags (map string_bytes words.now) }
{
    match words {
        [] => Some(flags),
        [word, rest @ ..] => dis_flags(with_dis_flag(flags, word.as_str())?, rest),
    }
}

/// What `dis` with these flags asks for.
pub fn dis_asked(flags: DisFlags) -> Asked
    ensures { result ≡ dis_asked flags }
{
    Asked {
        choice: CommandChoice::Dis {
            meaning: flags.meaning,
            form: form_by(flags.json),
        },
        explains: flags.explains,
    }
}
