//! The faults of inputs, as the libraries return them.
use capture_forms::{CaptureForm, Cause};
use edid_core::EdidCause;
use edid_dump::DumpError;
use expect_text::{ExpectCause, RangeCause};
use message_hex::DisCause;
use message_lay::LayCause;
use message_text::AssembleError;
use room_script::{ScriptCause, TopologyCause};
use text_core::At;
use thiserror::Error;

/// What an input is to be.
#[derive(Clone, Copy, Debug, PartialEq, Eq)]
pub enum Input {
    /// A topology, a line `script` and a script.
    Network,
    /// The same with a script that may have labels and expectations.
    Test,
    /// Expectations, a line `capture` and a capture.
    CaptureTest,
    /// Lines of their own: frames or edges.
    Lines,
    /// Lines that are answered as they come. Of a session the topology is kept, and nothing else.
    Session,
    /// The bytes of an EDID.
    EdidBytes,
    /// The text of an EDID.
    EdidText,
    /// The same, in which payloads may stand in words.
    EdidWords,
}

/// A line that parts an input, named as the part that follows it.
#[derive(Clone, Copy, Debug, Drop, PartialEq, Eq, Error)]
pub enum Parting {
    #[error("script")]
    Script,
    #[error("steps")]
    Steps,
    #[error("capture")]
    Capture,
}

/// A fault that stands in no line of the input: it is of the whole input, of the program or of its command line.
#[derive(Clone, Copy, Debug)]
pub enum WholeFault {
    /// A text without a hex dump of an EDID.
    Dump(DumpError),
    /// No time of a script is a range.
    NoRange,
    InputTooLong,
    /// A line of a session is.
    LineTooLong,
    Read,
    Write,
    Memory,
    /// A word of the command line is none of UTF-8.
    NotUtf8,
}

/// Why the program did not do what it was asked. Lines count from 1 in their part of the input, words from 0 in their line;
/// where a word is missing, its number is the one that it would have.
#[derive(Clone, Copy, Debug)]
pub enum InputFault {
    /// A line of a topology.
    Topology(At<TopologyCause>),
    /// A line of a script. Words are those of the line without its label.
    Script(At<ScriptCause>),
    /// A line of a session that is for an instant before its horizon.
    Past {
        line: u64,
        word: usize,
    },
    /// A line with a label or an expectation, of a script or of a capture. Words are those of the line with its label.
    Expectation(At<ExpectCause>),
    /// A line of a script with a range of instants. Words are those of the line with its label.
    Range(At<RangeCause>),
    /// A line that is no step.
    Steps {
        line: u64,
        word: usize,
    },
    /// A line that is no frame's text.
    Frame {
        line: u64,
        cause: AssembleError,
    },
    /// A line that is no frame in hex.
    Hex {
        line: u64,
        cause: DisCause,
    },
    /// A line with a frame to lay.
    Lay {
        line: u64,
        cause: LayCause,
        word: usize,
    },
    /// A line of a capture in this form, which parts its words.
    Capture {
        form: CaptureForm,
        line: u64,
        cause: Cause,
        word: usize,
    },
    /// The bytes of an EDID, of the input or of a topology's line `edid`.
    Edid(EdidCause),
    /// No device has such a port.
    NoPort,
    /// A line of an EDID's text that has another form.
    TextSyntax {
        line: u64,
    },
    /// A word of a line of an EDID's text.
    TextField {
        line: u64,
        word: usize,
    },
    /// The line is missing that parts the input so.
    NoParting(Parting),
    /// No line is at fault.
    Whole(WholeFault),
}
