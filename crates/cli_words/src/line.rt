//! Whole command lines.
ghost use Rattle.std.specs.Prelude.{◌≡◌, map, string_bytes};
ghost use Rattle.cli_words.specs.Line.{asked_as, asked_by, asked_of, asked_with, only_explained};

use crate::check_flags::{CheckFlags, check_asked, check_flags};
use crate::dis_flags::{DisFlags, dis_asked, dis_flags};
use crate::json_flags::{JsonFlags, json_flags, lay_asked, live_asked, step_asked};
use crate::mon_flags::{MonFlags, mon_asked, mon_flags};
use crate::run_flags::{RunFlags, run_asked, run_flags};
use crate::subcommand::{Subcommand, subcommand_of};
use cli_choice::{Asked, CommandChoice};
use cli_edid::{EdidFlags, edid_asked, edid_flags};

// What a subcommand asks for that has no flag but `--explain`.
fn only_explained(choice: CommandChoice, words: &[String]) -> Option<Asked>
    ensures { result ≡ only_explained choice (map string_bytes words.now) }
{
    match words {
        [] => Some(Asked {
            choice,
            explains: false,
        }),
        [word] if word.as_str() == "--explain" => Some(Asked {
            choice,
            explains: true,
        }),
        _ => None,
    }
}

// What a subcommand with these flags asks for.
fn asked_of(subcommand: Subcommand, words: &[String]) -> Option<Asked>
    ensures { result ≡ asked_of subcommand (map string_bytes words.now) }
{
    match subcommand {
        Subcommand::Run => run_asked(&run_flags(RunFlags::NONE, words)?),
        Subcommand::Check => check_asked(&check_flags(CheckFlags::NONE, words)?),
        Subcommand::Step => Some(step_asked(json_flags(JsonFlags::NONE, words)?)),
        Subcommand::Live => Some(live_asked(json_flags(JsonFlags::NONE, words)?)),
        Subcommand::Asm => only_explained(CommandChoice::Asm, words),
        Subcommand::Dis => Some(dis_asked(dis_flags(DisFlags::NONE, words)?)),
        Subcommand::Lay => Some(lay_asked(json_flags(JsonFlags::NONE, words)?)),
        Subcommand::Mon => mon_asked(&mon_flags(MonFlags::NONE, words)?),
        Subcommand::Edid => edid_asked(&edid_flags(EdidFlags::NONE, words)?),
    }
}

// What a subcommand and its flags ask for. No word at all asks for the trace of a run.
fn asked_as(words: &[String]) -> Option<Asked>
    ensures { result ≡ asked_as (map string_bytes words.now) }
{
    match words {
        [] => asked_of(Subcommand::Run, &[]),
        [command, flags @ ..] => asked_of(subcommand_of(command.as_str())?, flags),
    }
}

// The same, with `--explain` before it or not.
fn asked_with(words: &[String]) -> Option<Asked>
    ensures { result ≡ asked_with (map string_bytes words.now) }
{
    match words {
        [word, rest @ ..] if word.as_str() == "--explain" => {
            let asked = asked_as(rest)?;
            Some(Asked {
                explains: true,
                ..asked
            })
        }
        words => asked_as(words),
    }
}

/// What the words of a command line ask for, without its operands: the program's name, a subcommand, its flags. The name alone asks
/// for the trace of a run. A value stands after its flag, or in its word as `--port=1`; `--explain` may stand before the subcommand.
/// `None` where a word is another one, a flag stands twice, or flags do not go together.
pub fn asked_by(words: &[String]) -> Option<Asked>
    ensures { result ≡ asked_by (map string_bytes words.now) }
{
    match words {
        [] => None,
        [_, rest @ ..] => asked_with(rest),
    }
}
