//! The exit statuses of the program.
ghost use Rattle.std.specs.Prelude.{◌<◌};

use crate::fault::ProgramFault;
use arrayvec::ArrayString;
use expect_run::CheckError;
use live_dialogue::SessionError;
use message_hex::DisError;
use message_lay::LayError;
use message_text::FrameLinesError;
use program_captures::MonitorFault;
use program_edids::EdidFault;
use program_input::InputError;
use room_run::emulate::EmulateError;
use std::fmt::Write;
use text_core::{Piece, Sink, put_all, write_pieces};

/// The input is refused, or what was done is not as it was wanted: an event of a strict run was refused, a strict audit has a
/// remark, a test failed, two EDIDs or captures differ, a display does not offer an InfoFrame.
const REFUSED: u8 = 1;

/// The command line is refused.
pub(crate) const USAGE: u8 = 2;

/// A read or a write failed, or the input is past its limit.
const READ_OR_WRITE: u8 = 3;

/// There is no memory.
const NO_MEMORY: u8 = 4;

/// An EDID fails a rule.
const RULE_FAILS: u8 = 5;

impl ProgramFault {
    /// The exit status.
    pub fn status(&self) -> u8
        ensures { 0 < result }
    {
        match self {
            ProgramFault::NotUtf8 => USAGE,
            ProgramFault::Open(_)
            | ProgramFault::Input(InputError::Read | InputError::TooLong)
            | ProgramFault::Capture(
                MonitorFault::Read | MonitorFault::TooLong | MonitorFault::Write(_),
            )
            | ProgramFault::Edid(EdidFault::Write(_))
            | ProgramFault::Emulate(EmulateError::Write(_))
            | ProgramFault::Session(
                SessionError::Read | SessionError::TooLong | SessionError::Write(_),
            )
            | ProgramFault::Frames(FrameLinesError::Write(_))
            | ProgramFault::Dis(DisError::Write(_))
            | ProgramFault::Lay(LayError::Write(_))
            | ProgramFault::Write(_) => READ_OR_WRITE,
            ProgramFault::Input(InputError::Memory(_))
            | ProgramFault::Capture(MonitorFault::Memory(_))
            | ProgramFault::Edid(EdidFault::Memory(_))
            | ProgramFault::Emulate(EmulateError::Memory)
            | ProgramFault::Session(SessionError::Memory)
            | ProgramFault::AtInstant {
                error: CheckError::Emulate(EmulateError::Memory),
                ..
            }
            | ProgramFault::Memory(_) => NO_MEMORY,
            ProgramFault::Edid(EdidFault::RuleFails) => RULE_FAILS,
            ProgramFault::Input(InputError::NoParting(_))
            | ProgramFault::Capture(
                MonitorFault::Line(_)
                | MonitorFault::OtherLine(_)
                | MonitorFault::Scaled
                | MonitorFault::Differ
                | MonitorFault::Remarked,
            )
            | ProgramFault::Edid(_)
            | ProgramFault::Emulate(_)
            | ProgramFault::EventsRefused(_)
            | ProgramFault::Expect(_)
            | ProgramFault::CaptureExpect(_)
            | ProgramFault::NoRange
            | ProgramFault::Range(_)
            | ProgramFault::AtInstant { .. }
            | ProgramFault::TestsFailed(_)
            | ProgramFault::SweepFailed
            | ProgramFault::Steps { .. }
            | ProgramFault::Session(_)
            | ProgramFault::Frames(FrameLinesError::Line(_))
            | ProgramFault::Dis(DisError::Line(_))
            | ProgramFault::Lay(LayError::Line(_)) => REFUSED,
        }
    }
}

/// Writes the line of a fault, and returns its exit status.
pub fn write_fault<E: Sink>(fault: &ProgramFault, err: &mut E) -> u8
    ensures { 0 < result }
{
    let mut text = ArrayString::<256>::new();
    let _ = writeln!(text, "hdminet: {fault}");
    let _ = put_all(err, text.as_bytes());
    fault.status()
}

/// The same of the file of this name.
pub(crate) fn write_fault_of<E: Sink>(name: &str, fault: &ProgramFault, err: &mut E) -> u8
    ensures { 0 < result }
{
    let mut text = ArrayString::<256>::new();
    let _ = writeln!(text, ": {fault}");
    let _ = write_pieces(
        err,
        &[
            Piece::Text("hdminet: "),
            Piece::Text(name),
            Piece::Bytes(text.as_bytes()),
        ],
    );
    fault.status()
}
