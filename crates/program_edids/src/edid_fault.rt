//! Why what is asked for of an EDID is not written.
use conversion_calls::{EdidToTextError, PassOnError};
use edid_core::EdidError;
use edid_dump::DumpError;
use edid_eld::EldError;
use edid_merge::{MergeError, SpeakersError};
use infoframe_tables::InfoFrameError;
use std::alloc::AllocError;
use text_core::WriteFault;
use thiserror::Error;

/// Why what is asked for of an EDID is not written.
#[derive(Debug, Drop, Error)]
pub enum EdidFault {
    /// The bytes are no EDID.
    #[error("edid: {0}")]
    Edid(EdidError),
    /// On this line of a text, from 1, another line would have to stand.
    #[error("text: syntax {0}")]
    Syntax(usize),
    /// A word of this line of a text, from 1, is at fault, by its number from 0.
    #[error("text: field {line}")]
    Field { line: usize, word: usize },
    #[error("dump: {0}")]
    Dump(DumpError),
    /// No device has a port of this number.
    #[error("edid: port-range")]
    PortRange,
    /// No HDMI block is in it, so no address.
    #[error("edid: no-hdmi-block")]
    NoHdmiBlock,
    #[error("merge: {0}")]
    Merge(MergeError),
    #[error("edid: {0}")]
    Speakers(SpeakersError),
    /// The bytes are no ELD.
    #[error("eld: {0}")]
    Eld(#[from] EldError),
    /// The first of two that are compared is no EDID.
    #[error("diff: first: {0}")]
    First(EdidError),
    /// The second is none.
    #[error("diff: second: {0}")]
    Second(EdidError),
    /// Two EDIDs differ. All of where they do was written.
    #[error("the EDIDs differ")]
    Differ,
    /// A text is no InfoFrame.
    #[error("infoframe: {0}")]
    InfoFrame(#[from] InfoFrameError),
    /// An InfoFrame is not as it has to be, or not offered. All of what it says was written.
    #[error("the InfoFrame is ill-formed, or the display does not offer it")]
    NotOffered,
    /// A rule that an EDID breaks is a failure. All rules that it breaks were written.
    #[error("edid: a rule fails")]
    RuleFails,
    #[error(transparent)]
    Write(#[from] WriteFault),
    #[error("no memory")]
    Memory(#[from(alloc)] AllocError),
}

impl From<EdidToTextError> for EdidFault {
    fn from(error: EdidToTextError) -> EdidFault {
        match error {
            EdidToTextError::Edid(error) => EdidFault::Edid(error),
            EdidToTextError::Write(count) => EdidFault::Write(WriteFault { count }),
        }
    }
}

impl From<PassOnError> for EdidFault {
    fn from(error: PassOnError) -> EdidFault {
        match error {
            PassOnError::PortRange => EdidFault::PortRange,
            PassOnError::Edid(error) => EdidFault::Edid(error),
            PassOnError::NoHdmiBlock => EdidFault::NoHdmiBlock,
            PassOnError::Write(count) => EdidFault::Write(WriteFault { count }),
        }
    }
}
