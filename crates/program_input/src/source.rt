//! A reader of what an operand names.
ghost use Rattle.std.specs.Prelude.{◌≡◌, IfOk};
ghost use Rattle.std.specs.Option.{option_copied};
ghost use Rattle.program_input.specs.Source.{are_texts, between, is_pair_of_dumps, known_bytes};
ghost use Rattle.program_input.specs.declared.source.Source.TheVariants as sources;

use crate::opens::{OpenFault, Opens};
use cli_choice::{CommandChoice, Source as EdidSource};
use std::io;
use std::io::Read;

/// Standard input, or a file.
#[derive(Drop)]
pub enum Source<'a, R, F> {
    Input(&'a mut R),
    Opened(F),
}

impl<R: Read, F: Read> Read for Source<'_, R, F> {
    ghost use Rattle.std.specs.Prelude.{ℕ, List, Option};

    ghost remaining = { λ source. elim source as (λ s. Option (List ℕ)) [ sources.Input input ↦ R.remaining input.now | sources.Opened file ↦ F.remaining file ] };

    fn read(&mut self, buf: &mut [u8]) -> io::Result<usize> {
        match self {
            Source::Input(input) => input.read(buf),
            Source::Opened(file) => file.read(buf),
        }
    }
}

// Whether an EDID is read from two hex dumps.
fn is_pair_of_dumps(source: EdidSource) -> bool
    ensures { result ≡ is_pair_of_dumps source }
{
    match source {
        EdidSource::Pair { dumps, .. } => dumps,
        EdidSource::Bytes | EdidSource::Dump { .. } | EdidSource::Text | EdidSource::Words => false,
    }
}

/// Whether the files of a choice that are read one after the other are texts.
pub fn are_texts(choice: CommandChoice) -> bool
    ensures { result ≡ are_texts choice }
{
    match choice {
        CommandChoice::EdidDiff { dumps, .. } => dumps,
        CommandChoice::Edid { source, .. } => match source {
            Some(source) => is_pair_of_dumps(source),
            None => false,
        },
        _ => false,
    }
}

/// What stands between two files that are read one after the other: after a text an empty line.
pub fn between(are_texts: bool) -> &'static [u8]
    ensures { result.now ≡ between are_texts }
{
    if are_texts { b"\n\n" } else { b"" }
}

/// What an operand names: standard input where there is none or it is `-`, else the file of that name.
pub fn source_of<'a, F: Opens, R: Read>(
    files: &F,
    operand: Option<&str>,
    input: &'a mut R,
) -> Result<Source<'a, R, F::Opened>, OpenFault>
    ensures { IfOk result (λ source. ⟦<Source<'a, R, F::Opened> as Read>⟧.remaining source ≡ known_bytes (option_copied operand.entry) (R.remaining input.old) (F.held files.now)) }
{
    match operand {
        Some(name) if name != "-" => match files.open(name) {
            Ok(file) => Ok(Source::Opened(file)),
            Err(fault) => Err(fault),
        },
        _ => Ok(Source::Input(input)),
    }
}
