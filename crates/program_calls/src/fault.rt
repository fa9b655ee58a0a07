//! Why the program did not do what it was asked.
use audit_expect::CaptureCheckError;
use capture_core::CaptureError;
use expect_run::{CheckError, Tally};
use expect_sweep::SweepError;
use expect_text::{ExpectCause, RangeCause};
use live_dialogue::SessionError;
use message_hex::DisError;
use message_lay::LayError;
use message_text::FrameLinesError;
use program_captures::MonitorFault;
use program_edids::EdidFault;
use program_input::{InputError, OpenFault};
use room_run::Totals;
use room_run::emulate::EmulateError;
use room_steps::step_run::StepRunError;
use std::alloc::AllocError;
use std::io::{self, ErrorKind};
use text_core::{At, WriteFault};
use thiserror::Error;

/// Why the program did not do what it was asked.
#[derive(Debug, Drop, Error)]
pub enum ProgramFault {
    #[error("an argument is not UTF-8")]
    NotUtf8,
    #[error(transparent)]
    Input(#[from] InputError),
    /// A file that the command line names is not opened.
    #[error(transparent)]
    Open(#[from] OpenFault),
    /// A strict run refused events of its script. All of its output was written.
    #[error("refused events {}", .0.refused)]
    EventsRefused(Totals),
    #[error(transparent)]
    Emulate(#[from] EmulateError),
    #[error("script {0}")]
    Expect(At<ExpectCause>),
    #[error("expectations {0}")]
    CaptureExpect(At<ExpectCause>),
    /// A script was to be swept, and no time of it is a range.
    #[error("no range")]
    NoRange,
    #[error("script {0}")]
    Range(At<RangeCause>),
    /// The first instant of a range with which the script is refused, and why.
    #[error("{error} at {instant}")]
    AtInstant { instant: u64, error: CheckError },
    /// Tests of a report failed. All of it was written.
    #[error("failed tests {}", .0.failed)]
    TestsFailed(Tally),
    /// Tests failed at instants of a range. All stretches were written.
    #[error("failed tests in the range")]
    SweepFailed,
    #[error(transparent)]
    Session(#[from] SessionError),
    #[error("steps line {line}")]
    Steps { line: u64, word: usize },
    #[error(transparent)]
    Frames(#[from] FrameLinesError),
    #[error(transparent)]
    Dis(#[from] DisError),
    #[error(transparent)]
    Lay(#[from] LayError),
    #[error(transparent)]
    Capture(#[from] MonitorFault),
    #[error(transparent)]
    Edid(#[from] EdidFault),
    #[error(transparent)]
    Write(#[from] WriteFault),
    #[error("no memory")]
    Memory(#[from(alloc)] AllocError),
}

impl From<StepRunError> for ProgramFault {
    fn from(error: StepRunError) -> ProgramFault {
        match error {
            StepRunError::Run(error) => ProgramFault::Emulate(error),
            StepRunError::Steps { line, word } => ProgramFault::Steps { line, word },
        }
    }
}

impl From<CheckError> for ProgramFault {
    fn from(error: CheckError) -> ProgramFault {
        match error {
            CheckError::Emulate(error) => ProgramFault::Emulate(error),
            CheckError::Expect(fault) => ProgramFault::Expect(fault),
            CheckError::Write(count) => ProgramFault::Write(WriteFault { count }),
            CheckError::Memory => ProgramFault::Memory(AllocError),
        }
    }
}

impl From<CaptureError> for ProgramFault {
    fn from(error: CaptureError) -> ProgramFault {
        ProgramFault::Capture(MonitorFault::from(error))
    }
}

impl From<CaptureCheckError> for ProgramFault {
    fn from(error: CaptureCheckError) -> ProgramFault {
        match error {
            CaptureCheckError::Expect(fault) => ProgramFault::CaptureExpect(fault),
            CaptureCheckError::Write(count) => ProgramFault::Write(WriteFault { count }),
            CaptureCheckError::Memory => ProgramFault::Memory(AllocError),
        }
    }
}

impl From<SweepError> for ProgramFault {
    fn from(error: SweepError) -> ProgramFault {
        match error {
            SweepError::NoRange => ProgramFault::NoRange,
            SweepError::Range(fault) => ProgramFault::Range(fault),
            SweepError::At { instant, error } => ProgramFault::AtInstant { instant, error },
            SweepError::Write(count) => ProgramFault::Write(WriteFault { count }),
            SweepError::Memory => ProgramFault::Memory(AllocError),
        }
    }
}

impl ProgramFault {
    /// Why the words of the command line were not to be had.
    pub fn of_words(error: io::Error) -> ProgramFault {
        match error.kind() {
            ErrorKind::OutOfMemory => ProgramFault::Memory(AllocError),
            _ => ProgramFault::NotUtf8,
        }
    }
}
