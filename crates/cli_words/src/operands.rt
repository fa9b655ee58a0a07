//! The words of a command line that name its input.
ghost use Rattle.std.specs.Prelude.{◌≡◌, ◌++◌, ◌∷◌, [], true, IfOk, IfSome, OnOk, length, map, string_bytes};
ghost use Rattle.cli_words.specs.Operands.{asked_on, goes_with, has_standard_input, is_file, is_flag, is_pair, is_report, is_session, kind_of, of_file, of_operands, operands_from, operands_in, place_after, takes, takes_value, words_from, words_in};

use crate::line::asked_by;
use cli_choice::{Asked, CommandChoice, Source, TestView};
use std::alloc::{AllocError, Global};

/// The operand that is standard input.
const STANDARD_INPUT: &str = "-";

/// The word after which each is an operand.
const END_OF_FLAGS: &str = "--";

/// Where a word of a command line stands.
#[derive(Clone, Copy, Debug)]
pub enum Place {
    /// It is the first.
    Name,
    /// No subcommand has come.
    Command,
    /// After the subcommand.
    Flags,
    /// After a flag that waits for a value.
    Value,
    /// After `--`.
    Operands,
}

/// What a word of a command line is.
#[derive(Clone, Copy, Debug)]
pub enum WordKind {
    /// The program's name, the subcommand, a flag or its value.
    Asking,
    /// `--`.
    End,
    /// What names an input.
    Operand,
}

/// A command line: what its words ask for, and of what.
#[derive(Debug, Drop)]
pub struct CommandLine {
    /// The program's name, the subcommand, flags and their values.
    pub words: Vec<String>,
    /// Files, and `-` for standard input.
    pub operands: Vec<String>,
}

// Whether a word is a flag that a value follows, as a word of its own.
fn takes_value(word: &str) -> bool
    ensures { result ≡ takes_value word.now }
{
    match word {
        "--as"
        | "--from"
        | "--signal"
        | "--scale"
        | "--glitch"
        | "--margin"
        | "--replay"
        | "--address"
        | "--port"
        | "--below"
        | "--speakers"
        | "--rows"
        | "--infoframe"
        | "--nth" => true,
        _ => false,
    }
}

// Whether a word is a flag, as far as its form goes.
fn is_flag(word: &str) -> bool
    ensures { result ≡ is_flag word.now }
{
    word.starts_with("-") && word != STANDARD_INPUT
}

fn kind_of(place: Place, word: &str) -> WordKind
    ensures { result ≡ kind_of place word.now }
{
    match place {
        Place::Name | Place::Value => WordKind::Asking,
        Place::Operands => WordKind::Operand,
        Place::Command if word == END_OF_FLAGS => WordKind::End,
        Place::Command => WordKind::Asking,
        Place::Flags if word == END_OF_FLAGS => WordKind::End,
        Place::Flags if is_flag(word) => WordKind::Asking,
        Place::Flags => WordKind::Operand,
    }
}

// Where the word after a word stands.
fn place_after(place: Place, word: &str) -> Place
    ensures { result ≡ place_after place word.now }
{
    match place {
        Place::Name => Place::Command,
        Place::Value => Place::Flags,
        Place::Operands => Place::Operands,
        Place::Command if word == END_OF_FLAGS => Place::Operands,
        Place::Command if is_flag(word) => Place::Command,
        Place::Command => Place::Flags,
        Place::Flags if word == END_OF_FLAGS => Place::Operands,
        Place::Flags if takes_value(word) => Place::Value,
        Place::Flags => Place::Flags,
    }
}

// Adds a copy of a word.
fn add_word(alloc: Global, words: &mut Vec<String>, word: &str) -> Result<(), AllocError>
    ensures { OnOk result (map string_bytes words.new.items ≡ map string_bytes words.old.items ++ (word.now ∷ [])) }
{
    words.push(String::from_str(alloc, word)?)?;
    Ok(())
}

// Adds each word to those that it is of.
fn sort(
    alloc: Global,
    place: Place,
    words: &[String],
    line: &mut CommandLine,
) -> Result<(), AllocError>
    ensures words { OnOk result (map string_bytes line.new.words.items ≡ map string_bytes line.old.words.items ++ words_from place (map string_bytes words.now)) }
    ensures operands { OnOk result (map string_bytes line.new.operands.items ≡ map string_bytes line.old.operands.items ++ operands_from place (map string_bytes words.now)) }
{
    match words {
        [] => Ok(()),
        [word, rest @ ..] => {
            let word = word.as_str();
            match kind_of(place, word) {
                WordKind::Asking => add_word(alloc, &mut line.words, word)?,
                WordKind::End => {}
                WordKind::Operand => add_word(alloc, &mut line.operands, word)?,
            }
            sort(alloc, place_after(place, word), rest, line)
        }
    }
}

/// A command line by its words, the program's name first. A word after the subcommand is an operand where it is `-` or does not begin
/// with `-`, and is no flag's value; after `--` each word is.
///
/// # Errors
///
/// Memory ran out.
pub fn line_of(alloc: Global, words: &[String]) -> Result<CommandLine, AllocError>
    ensures words { IfOk result (λ line. map string_bytes line.words.items ≡ words_in (map string_bytes words.now)) }
    ensures operands { IfOk result (λ line. map string_bytes line.operands.items ≡ operands_in (map string_bytes words.now)) }
{
    let mut line = CommandLine {
        words: Vec::new(alloc),
        operands: Vec::new(alloc),
    };
    sort(alloc, Place::Name, words, &mut line)?;
    Ok(line)
}

// Whether standard input is one of some operands.
fn has_standard_input(operands: &[String]) -> bool
    ensures { result ≡ has_standard_input (map string_bytes operands.now) }
{
    match operands {
        [] => false,
        [operand, ..] if operand.as_str() == STANDARD_INPUT => true,
        [_, others @ ..] => has_standard_input(others),
    }
}

/// Whether what is written is a report, of which that of several operands is made.
pub fn is_report(choice: CommandChoice) -> bool
    ensures { result ≡ is_report choice }
{
    match choice {
        CommandChoice::Check(view) => match view {
            TestView::Report | TestView::Progress | TestView::Traced => true,
            TestView::Plain => false,
        },
        CommandChoice::CheckCapture { .. } => true,
        _ => false,
    }
}

// Whether a choice takes two EDIDs, or two captures.
fn is_pair(choice: CommandChoice) -> bool
    ensures { result ≡ is_pair choice }
{
    match choice {
        CommandChoice::CaptureDiff(_) | CommandChoice::EdidDiff { .. } => true,
        CommandChoice::Edid { source, .. } | CommandChoice::InfoFrame { source, .. } => {
            matches!(source, Some(Source::Pair { .. }))
        }
        _ => false,
    }
}

// Whether a choice is a session.
fn is_session(choice: CommandChoice) -> bool
    ensures { result ≡ is_session choice }
{
    matches!(choice, CommandChoice::Live { .. })
}

// Whether a choice takes so many operands.
fn takes(choice: CommandChoice, count: usize) -> bool
    ensures { result ≡ takes choice count }
{
    count == 0
        || (count == 1 && !is_session(choice))
        || (count == 2 && is_pair(choice))
        || is_report(choice)
}

// Whether a choice takes these operands. Standard input is one alone.
fn goes_with(choice: CommandChoice, operands: &[String]) -> bool
    ensures { result ≡ goes_with choice (map string_bytes operands.now) }
{
    takes(choice, operands.len()) && (operands.len() <= 1 || !has_standard_input(operands))
}

// A choice of what a file is read for: of an EDID's file of which no flag says what it holds, its first bytes do.
fn of_file(choice: CommandChoice) -> CommandChoice
    ensures { result ≡ of_file choice }
{
    match choice {
        CommandChoice::Edid {
            source: Some(Source::Bytes),
            reading,
            view,
        } => CommandChoice::Edid {
            source: None,
            reading,
            view,
        },
        CommandChoice::InfoFrame {
            source: Some(Source::Bytes),
            reading,
            place,
            form,
        } => CommandChoice::InfoFrame {
            source: None,
            reading,
            place,
            form,
        },
        _ => choice,
    }
}

// Whether the first operand is a file, and not standard input.
fn is_file(operands: &[String]) -> bool
    ensures { result ≡ is_file (map string_bytes operands.now) }
{
    match operands {
        [] => false,
        [operand, ..] => operand.as_str() != STANDARD_INPUT,
    }
}

// What is asked for of these operands.
fn of_operands(operands: &[String], asked: Asked) -> Asked
    ensures { result ≡ of_operands (map string_bytes operands.now) asked }
{
    if is_file(operands) {
        Asked {
            choice: of_file(asked.choice),
            ..asked
        }
    } else {
        asked
    }
}

/// What a command line asks for. `None` where its words ask for nothing, where there are more operands than that takes, or where
/// standard input is one of several.
pub fn asked_on(line: &CommandLine) -> Option<Asked>
    ensures asked { result ≡ asked_on (map string_bytes line.now.words.items) (map string_bytes line.now.operands.items) }
    ensures taken { IfSome result (λ asked. takes asked.choice (length (map string_bytes line.now.operands.items)) ≡ true) }
{
    let asked = of_operands(&line.operands, asked_by(&line.words)?);
    if goes_with(asked.choice, &line.operands) {
        Some(asked)
    } else {
        None
    }
}
