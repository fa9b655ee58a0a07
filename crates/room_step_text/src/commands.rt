//! Texts of steps.
ghost use Rattle.std.specs.Prelude.{◌≡◌, IfOk, IfErr, Ok};
ghost use Rattle.edid_tree.specs.Tree.{device_named};
ghost use Rattle.text_core.specs.Words.{words_of};
ghost use Rattle.text_forms.specs.Forms.{said, values_of};
ghost use Rattle.room_step_text.specs.Commands.{IsFault, command_of, command_said, commands_of, device_by, show_by, step_said, until_by};

use crate::break_at::Break;
use edid_tree::Tree;
use room_lines::{STEPS, StepVerb};
use std::alloc::{AllocFailed, Global};
use text_core::{AtWord, first_line, is_skipped};
use text_forms::{FormLine, LineCause, read_line};

/// A step that is asked for.
#[derive(Clone, Copy, Debug, PartialEq, Eq)]
pub enum StepCommand {
    /// The next edge.
    Edge,
    /// The next round.
    Round,
    /// On to a round that is looked for.
    Until(Break),
    /// The state of the device of this number.
    Show(usize),
}

/// Why a text of steps is refused.
#[derive(Debug, Drop)]
pub enum CommandsError {
    /// The first line at fault, counted from 1, and the word at fault, counted from 0; where a word is missing, the number that
    /// it would have.
    At { line: u64, word: usize },
    Memory,
}

impl<T: Drop> From<AllocFailed<T>> for CommandsError {
    ghost use Rattle.std.specs.Prelude.{◌≡◌};
    ghost use Rattle.room_step_text.specs.declared.commands.CommandsError.TheVariants.{Memory};

    ghost from_gives = { λ _ error. error ≡ Memory };

    fn from(_error: AllocFailed<T>) -> CommandsError {
        CommandsError::Memory
    }
}

// The form of a line, and its values.
#[tactic(auto, unfolding(crate::specs::Commands::step_said))]
fn step_said(line: &[u8]) -> Result<FormLine<'_, StepVerb>, AtWord<LineCause>>
    ensures { said result ≡ step_said (words_of line.now) }
{
    read_line(STEPS, line)
}

// The device that the word of this number names.
fn device_in(tree: &Tree<15>, word: usize, name: &[u8]) -> Result<usize, usize>
    ensures { result ≡ device_by word (device_named tree.now name.now) }
{
    match tree.device_named(name) {
        None => Err(word),
        Some(device) => Ok(device),
    }
}

fn until_device(tree: &Tree<15>, name: &[u8]) -> Result<StepCommand, usize>
    ensures { result ≡ until_by (device_by 2 (device_named tree.now name.now)) }
{
    match device_in(tree, 2, name) {
        Ok(device) => Ok(StepCommand::Until(Break::Device(device))),
        Err(word) => Err(word),
    }
}

fn shown(tree: &Tree<15>, name: &[u8]) -> Result<StepCommand, usize>
    ensures { result ≡ show_by (device_by 1 (device_named tree.now name.now)) }
{
    match device_in(tree, 1, name) {
        Ok(device) => Ok(StepCommand::Show(device)),
        Err(word) => Err(word),
    }
}

// What the values of a form ask for, or the number of the word that names no device.
fn command_said(tree: &Tree<15>, line: &FormLine<'_, StepVerb>) -> Result<StepCommand, usize>
    ensures { result ≡ command_said tree.now line.now.verb (values_of line.now) }
{
    match line.verb {
        StepVerb::Edge => Ok(StepCommand::Edge),
        StepVerb::Round => Ok(StepCommand::Round),
        StepVerb::UntilOpcode => Ok(StepCommand::Until(Break::Opcode(line.byte(2)))),
        StepVerb::UntilDevice => until_device(tree, line.text(2)),
        StepVerb::UntilBreak => Ok(StepCommand::Until(Break::AnyBreak)),
        StepVerb::Show => shown(tree, line.text(1)),
    }
}

// The step of a line, or the number of its word at fault.
fn command_of(tree: &Tree<15>, line: &[u8]) -> Result<StepCommand, usize>
    ensures { result ≡ command_of tree.now line.now }
{
    match step_said(line) {
        Ok(line) => command_said(tree, &line),
        Err(fault) => Err(fault.word),
    }
}

/// The commands of a text, for the devices of a tree.
pub fn parse_commands(
    alloc: Global,
    tree: &Tree<15>,
    text: &[u8],
) -> Result<Vec<StepCommand>, CommandsError>
    ensures ok { IfOk result (λ commands. commands_of tree.now text.now ≡ Ok commands.items) }
    ensures reported { IfErr result (IsFault tree.now text.now) }
{
    let mut commands = Vec::new(alloc);
    let mut rest = text;
    let mut number = 1;
    while let Some((line, after)) = first_line(rest) {
        if !is_skipped(line) {
            match command_of(tree, line) {
                Err(word) => return Err(CommandsError::At { line: number, word }),
                Ok(command) => commands.push(command)?,
            }
        }
        rest = after;
        number += 1;
    }
    Ok(commands)
}
