//! The lines of a session that are no lines of a script.
ghost use Rattle.std.specs.Prelude.{◌≡◌};
ghost use Rattle.std.specs.Option.{option_copied};
ghost use Rattle.text_core.specs.Words.{two_of, words_after, words_of};
ghost use Rattle.text_forms.specs.Forms.{said, values_of};
ghost use Rattle.live_session.specs.Command.{command_of, command_said, pin_time, pin_words_time, session_said};

use edid_tree::Tree;
use room_lines::{SESSION, SessionVerb};
use room_script::time_in;
use text_core::{AtWord, first_word, two_words};
use text_forms::{FormLine, LineCause, read_line};

/// What a line of a session is.
#[derive(Clone, Copy, Debug, PartialEq, Eq)]
pub enum SessionCommand {
    /// A line of the script.
    Script,
    /// `wait`
    Wait,
    /// `wait T`, with the time, where it is one.
    WaitUntil(Option<u64>),
    /// `run to T`, with the time, where it is one.
    RunTo(Option<u64>),
    /// `show NAME`, with the device's number, where it has that name.
    Show(Option<usize>),
    /// `edge T`, with the time, where it is one.
    Edge(Option<u64>),
    /// `edges on` or `edges off`: whether edges are reported.
    Edges(bool),
    /// `seats on` or `seats off`: whether notes of devices from outside are reported.
    Seats(bool),
}

// The time in the words after `pin`.
fn pin_time_in(rest: Option<&[u8]>) -> Option<u64>
    ensures { result ≡ pin_words_time (two_of (words_after (option_copied rest.entry))) }
{
    let Some((time, _level)) = two_words(rest) else {
        return None;
    };
    time_in(time)
}

/// The instant of a line `pin T LEVEL`, also of one that changes nothing.
pub(crate) fn pin_time(line: &[u8]) -> Option<u64>
    ensures { result ≡ pin_time line.now }
{
    let (verb, rest) = first_word(line);
    if verb == b"pin".as_slice() {
        pin_time_in(rest)
    } else {
        None
    }
}

// The form of a line, and its values.
#[tactic(auto, unfolding(crate::specs::Command::session_said))]
fn session_said(line: &[u8]) -> Result<FormLine<'_, SessionVerb>, AtWord<LineCause>>
    ensures { said result ≡ session_said (words_of line.now) }
{
    read_line(SESSION, line)
}

// What the values of a form ask for.
fn command_said(tree: &Tree<15>, line: &FormLine<'_, SessionVerb>) -> SessionCommand
    ensures { result ≡ command_said tree.now line.now.verb (values_of line.now) }
{
    match line.verb {
        SessionVerb::RunTo => SessionCommand::RunTo(line.late_time(2)),
        SessionVerb::Wait => SessionCommand::Wait,
        SessionVerb::WaitUntil => SessionCommand::WaitUntil(line.late_time(1)),
        SessionVerb::Show => SessionCommand::Show(tree.device_named(line.text(1))),
        SessionVerb::Edge => SessionCommand::Edge(line.late_time(1)),
        SessionVerb::Edges => SessionCommand::Edges(line.level(1)),
        SessionVerb::Seats => SessionCommand::Seats(line.level(1)),
    }
}

/// What a line asks for.
pub(crate) fn command_in(tree: &Tree<15>, line: &[u8]) -> SessionCommand
    ensures { result ≡ command_of tree.now line.now }
{
    match session_said(line) {
        Ok(line) => command_said(tree, &line),
        Err(_) => SessionCommand::Script,
    }
}
