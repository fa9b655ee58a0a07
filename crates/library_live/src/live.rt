//! The calls of a session.
ghost use Rattle.std.specs.Prelude.{◌≡◌, None, Option, Some, is_some};
ghost use Rattle.std.specs.Option.{option_map};
ghost use Rattle.library_live.specs.declared.talk.Talk.{Talk as TalkValue};
ghost use Rattle.library_answers.specs.Room.{refusal};
ghost use Rattle.library_live.specs.Live.{AnswersAgain, AnswersLine, AnswersOpen, edge_line, fault_code, pin_line};

use crate::kept::Kept;
use crate::lines::{edge_line, pin_line};
use crate::talk::{LineFault, Talk, open_refused};
use library_answers::{Answer, Code, put, refused};
use loose_box::Loose;
use std::alloc::Global;
use std::mem::replace;

/// A session that its caller keeps between two calls, or none.
#[repr(C)]
#[derive(Drop)]
pub struct LiveRoom {
    /// Whether there is one.
    is_open: bool,
    kept: Kept,
    ghost known: { is_open ≡ is_some kept.value },
}

// The answer where a line is not answered.
fn line_refused(fault: LineFault) -> Answer
    ensures { result ≡ refusal (fault_code fault) 0 }
{
    refused(fault.code(), 0)
}

impl LiveRoom {
    /// None.
    pub fn closed() -> LiveRoom
        ensures { result.kept.value ≡ None }
    {
        LiveRoom {
            is_open: false,
            kept: Kept::nothing(),
        }
    }

    // This one.
    fn holding(talk: Box<Talk>) -> LiveRoom
        ensures { result.kept.value ≡ Some talk.value }
    {
        LiveRoom {
            is_open: true,
            kept: Kept::of(Loose::of(talk)),
        }
    }

    // Takes the one that there is; then there is none.
    fn take(&mut self, alloc: Global) -> Option<Box<Talk>>
        ensures taken { option_map (λ b. b.value) result ≡ self.old.kept.value }
        ensures left { self.new.kept.value ≡ None }
    {
        let LiveRoom { is_open, kept } = replace(self, LiveRoom::closed());
        if is_open {
            Some(kept.into_loose(alloc).into_box())
        } else {
            None
        }
    }

    /// Opens a session of this topology, in the place of the one that is open, and puts into the room what stands before its first
    /// answer.
    ///
    /// Refused as `put_trace` of library_run refuses the topology and its EDID, or where memory ran out: then nothing has changed.
    pub fn open(&mut self, alloc: Global, topology: &[u8], room: &mut [u8]) -> Answer
        ensures { AnswersOpen topology.now self.old.kept.value self.new.kept.value room.old room.new result }
    {
        let talk = match Talk::begin(alloc, topology) {
            Ok(talk) => talk,
            Err(error) => return open_refused(error),
        };
        let talk = match Box::new(alloc, talk) {
            Ok(talk) => talk,
            Err(_) => return refused(Code::Memory, 0),
        };
        let answer = put(talk.said.bytes(), room);
        let _before = self.take(alloc);
        *self = LiveRoom::holding(talk);
        answer
    }

    /// Answers a line, and puts into the room what `hdminet live` writes up to its answer.
    ///
    /// Refused where no session is open, or its script has ended; where the line has an end in it or more than 4,096 bytes: then
    /// nothing has changed; or where memory ran out: then it is closed.
    pub fn line(&mut self, alloc: Global, line: &[u8], room: &mut [u8]) -> Answer
        ensures { AnswersLine line.now self.old.kept.value self.new.kept.value room.old room.new result }
    {
        let Some(mut talk) = self.take(alloc) else {
            return line_refused(LineFault::Closed);
        };
        match talk.answer(alloc, line) {
            Ok(()) => {
                let answer = put(talk.said.bytes(), room);
                *self = LiveRoom::holding(talk);
                answer
            }
            Err(LineFault::Memory) => line_refused(LineFault::Memory),
            Err(fault) => {
                *self = LiveRoom::holding(talk);
                line_refused(fault)
            }
        }
    }

    /// Answers a line `pin T 0`, or `pin T 1`.
    ///
    /// Refused as [`line`](LiveRoom::line).
    pub fn pin(&mut self, alloc: Global, t: u64, is_low: bool, room: &mut [u8]) -> Answer
        ensures { AnswersLine (pin_line t is_low) self.old.kept.value self.new.kept.value room.old room.new result }
    {
        let line = pin_line(t, is_low);
        self.line(alloc, line.as_slice(), room)
    }

    /// Answers a line `edge T`.
    ///
    /// Refused as [`line`](LiveRoom::line).
    pub fn edge(&mut self, alloc: Global, t: u64, room: &mut [u8]) -> Answer
        ensures { AnswersLine (edge_line t) self.old.kept.value self.new.kept.value room.old room.new result }
    {
        let line = edge_line(t);
        self.line(alloc, line.as_slice(), room)
    }

    /// Puts once more into the room what the last call put.
    ///
    /// Refused where no session is open.
    pub fn again(&mut self, alloc: Global, room: &mut [u8]) -> Answer
        ensures again { AnswersAgain self.old.kept.value room.old room.new result }
        ensures same { self.new.kept.value ≡ self.old.kept.value }
    {
        let Some(talk) = self.take(alloc) else {
            return line_refused(LineFault::Closed);
        };
        let answer = put(talk.said.bytes(), room);
        *self = LiveRoom::holding(talk);
        answer
    }

    /// Closes the session that is open.
    pub fn close(&mut self, alloc: Global)
        ensures { self.new.kept.value ≡ None }
    {
        let _before = self.take(alloc);
    }
}
