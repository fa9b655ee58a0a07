//! Frames that a script hands in.
ghost use Rattle.std.specs.Prelude.{◌≡◌, ◌+◌, ◌≤◌, IfOk, OnErr};
ghost use Rattle.std.specs.Option.{option_copied};
ghost use Rattle.text_core.specs.Words.{text_of, words_of, words_after};
ghost use Rattle.message_hex.specs.Bytes.{frame_in};
ghost use Rattle.text_forms.specs.Forms.{values_of};
ghost use Rattle.room_script.specs.Header.{digits_text, header_names};
ghost use Rattle.room_script.specs.Script.{notes_of, send_read, frame_event, GivesNotes, Gives, IsSendSaid};
ghost use Rattle.room_script.specs.Sending.{attempts_of, frame_read, handed_as, handed_in, hex_read, with_attempts, IsFrameOf, IsFrameRead};

use crate::header::{has_names, header_names, text_with_digits};
use crate::script::{ScriptCause, ScriptDraft, ScriptLineError, schedule};
use device_core::Ticket;
use edid_tree::Tree;
use line_frames::Frame;
use message_text::{AssembleError, assemble, frame_word, frames_are_whole};
use room_event::{Event, HeaderNames};
use room_lines::ScriptVerb;
use std::alloc::{AllocError, Global};
use text_core::{AtWord, at_word, first_word, number_in};
use text_forms::FormLine;

/// What a line hands in after the name: the words of the frame, the first of which has this number in the line, and how many
/// attempts the frame has in all, where the line says so. None is a number that is none.
#[derive(Clone, Copy)]
struct HandedIn<'t> {
    at: usize,
    attempts: Option<Option<u8>>,
    frame: Option<&'t [u8]>,
}

/// How many attempts a word gives a frame: 1 to 6.
fn attempts_in(word: &[u8]) -> Option<u8>
    ensures { result ≡ attempts_of word.now }
{
    let attempts = number_in(word)?;
    if 1 <= attempts && attempts <= 6 {
        Some(attempts as u8)
    } else {
        None
    }
}

/// The number of attempts, and the frame after it.
fn with_attempts(rest: Option<&[u8]>) -> HandedIn<'_>
    ensures said { handed_as result ≡ with_attempts (words_after (option_copied rest.entry)) }
    ensures few { result.at ≤ 6 }
{
    let Some(text) = rest else {
        return HandedIn {
            at: 5,
            attempts: Some(None),
            frame: None,
        };
    };
    let (number, others) = first_word(text);
    let attempts = match attempts_in(number) {
        None => None,
        Some(attempts) => Some(Some(attempts)),
    };
    HandedIn {
        at: 6,
        attempts,
        frame: others,
    }
}

/// What stands after the name.
fn handed_in(rest: Option<&[u8]>) -> HandedIn<'_>
    ensures said { handed_as result ≡ handed_in (words_after (option_copied rest.entry)) }
    ensures few { result.at ≤ 6 }
{
    let Some(text) = rest else {
        return HandedIn {
            at: 4,
            attempts: Some(None),
            frame: None,
        };
    };
    let (word, others) = first_word(text);
    if word == b"attempts".as_slice() {
        return with_attempts(others);
    }
    HandedIn {
        at: 4,
        attempts: Some(None),
        frame: rest,
    }
}

/// The frame of a text, or why it is none's.
fn read_frame(text: &[u8]) -> Result<Frame, AssembleError>
    ensures { IsFrameOf text.now result }
{
    match assemble(text) {
        Ok(frame) => {
            frames_are_whole(&frame);
            Ok(frame)
        }
        Err(cause) => Err(cause),
    }
}

/// The frame of a text in whose header names may stand, with 0 in the place of each, or why it is none's.
fn text_frame(alloc: Global, text: &[u8]) -> Result<Result<Frame, AssembleError>, AllocError>
    ensures { IfOk result (λ frame. IsFrameOf (digits_text (words_of text.now)) frame) }
{
    let (word, others) = first_word(text);
    if !has_names(word) {
        return Ok(read_frame(text));
    }
    let text = text_with_digits(alloc, word, others)?;
    Ok(read_frame(&text))
}

/// What is read of a frame's text, whose first word has this number.
fn frame_read(at: usize, read: Result<Frame, AssembleError>) -> Result<Frame, AtWord<ScriptCause>>
    requires few { at ≤ 6 }
    ensures { result ≡ frame_read at read }
{
    match read {
        Ok(frame) => Ok(frame),
        Err(cause) => Err(at_word(at + frame_word(cause), ScriptCause::Frame(cause))),
    }
}

/// The digits that stand after `hex`, where some do.
fn digits_in(rest: Option<&[u8]>) -> &[u8]
    ensures { result.now ≡ text_of (words_after (option_copied rest.entry)) }
{
    match rest {
        None => b"".as_slice(),
        Some(digits) => digits,
    }
}

/// The frame whose bytes stand after `hex`, the first word of them with this number.
fn hex_frame(at: usize, rest: Option<&[u8]>) -> Result<Frame, AtWord<ScriptCause>>
    ensures { result ≡ hex_read at (frame_in (text_of (words_after (option_copied rest.entry)))) }
{
    match message_hex::frame_in(digits_in(rest)) {
        Ok(frame) => Ok(frame),
        Err(_) => Err(at_word(at, ScriptCause::Hex)),
    }
}

/// The frame that these words say, the first of which has this number: as its text, or in hex.
fn frame_said(
    alloc: Global,
    at: usize,
    text: &[u8],
) -> Result<Result<Frame, AtWord<ScriptCause>>, AllocError>
    requires few { at ≤ 6 }
    ensures { IfOk result (λ frame. IsFrameRead at (words_of text.now) frame) }
{
    let (word, others) = first_word(text);
    if word == b"hex".as_slice() {
        return Ok(hex_frame(at + 1, others));
    }
    let read = text_frame(alloc, text)?;
    Ok(frame_read(at, read))
}

/// The event of a frame that is handed in.
fn frame_event(device: usize, ticket: Ticket, names: Option<HeaderNames>, frame: Frame) -> Event
    ensures { result ≡ frame_event device ticket names frame }
{
    match names {
        None => Event::Send {
            device,
            frame,
            ticket,
        },
        Some(names) => Event::SendNamed {
            device,
            names,
            frame,
            ticket,
        },
    }
}

/// What a line says beside the frame.
#[derive(Clone, Copy)]
struct Said {
    /// The number of the frame's first word.
    at: usize,
    time: Option<u64>,
    attempts: Option<Option<u8>>,
    device: Option<usize>,
    names: Option<Option<HeaderNames>>,
}

fn schedule_frame(
    draft: &mut ScriptDraft,
    line: u64,
    said: Said,
    frame: Result<Frame, AtWord<ScriptCause>>,
) -> Result<(), ScriptLineError>
    ensures gives { GivesNotes (notes_of draft.new) result (send_read (notes_of draft.old) line said.at said.time said.attempts said.device said.names frame) }
    ensures kept { OnErr result (notes_of draft.new ≡ notes_of draft.old) }
{
    let Some(time) = said.time else {
        return Err(ScriptLineError::Fault(at_word(1, ScriptCause::Number)));
    };
    let Some(attempts) = said.attempts else {
        return Err(ScriptLineError::Fault(at_word(5, ScriptCause::Number)));
    };
    let Some(device) = said.device else {
        return Err(ScriptLineError::Fault(at_word(3, ScriptCause::Name)));
    };
    let Some(names) = said.names else {
        return Err(ScriptLineError::Fault(at_word(said.at, ScriptCause::Name)));
    };
    let ticket = Ticket { line, attempts };
    match frame {
        Ok(frame) => schedule(draft, line, time, frame_event(device, ticket, names, frame)),
        Err(fault) => Err(ScriptLineError::Fault(fault)),
    }
}

/// Takes a frame that is handed in after a name, perhaps with how many attempts it has in all: as a text, spaces and all, in whose
/// header names may stand, or in hex.
pub(crate) fn take_send(
    tree: &Tree<15>,
    draft: &mut ScriptDraft,
    number: u64,
    line: &FormLine<'_, ScriptVerb>,
) -> Result<(), ScriptLineError>
    ensures gives { Gives (notes_of draft.new) result (IsSendSaid tree.now (notes_of draft.old) number (values_of line.now)) }
    ensures kept { OnErr result (notes_of draft.new ≡ notes_of draft.old) }
{
    let handed = handed_in(line.rest(4));
    let Some(frame) = handed.frame else {
        return Err(ScriptLineError::Fault(at_word(handed.at, ScriptCause::Word)));
    };
    let (header, _others) = first_word(frame);
    let read = frame_said(draft.alloc, handed.at, frame)?;
    let said = Said {
        at: handed.at,
        time: line.late_time(1),
        attempts: handed.attempts,
        device: tree.device_named(line.text(3)),
        names: header_names(tree, header),
    };
    schedule_frame(draft, number, said, read)
}
