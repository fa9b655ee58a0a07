//! The subcommands by their words.
ghost use Rattle.std.specs.Prelude.{◌≡◌};
ghost use Rattle.cli_words.specs.Line.{subcommand_of};

/// A subcommand. Each `match` over it names all of them, so that none is forgotten.
#[derive(Clone, Copy, Debug)]
pub enum Subcommand {
    Run,
    Check,
    Step,
    Live,
    Asm,
    Dis,
    Lay,
    Mon,
    Edid,
}

/// The subcommand of a word.
pub fn subcommand_of(word: &str) -> Option<Subcommand>
    ensures { result ≡ subcommand_of word.now }
{
    match word {
        "run" => Some(Subcommand::Run),
        "check" => Some(Subcommand::Check),
        "step" => Some(Subcommand::Step),
        "live" => Some(Subcommand::Live),
        "asm" => Some(Subcommand::Asm),
        "dis" => Some(Subcommand::Dis),
        "lay" => Some(Subcommand::Lay),
        "mon" => Some(Subcommand::Mon),
        "edid" => Some(Subcommand::Edid),
        _ => None,
    }
}
