//! Why a session has come to no end.
use edid_core::EdidCause;
use room_script::TopologyCause;
use thiserror::Error;

/// Why a session has come to no end.
#[derive(Debug, Drop, Error)]
pub enum SessionError {
    #[error("read fault")]
    Read,
    #[error("input too long")]
    TooLong,
    #[error("no script line")]
    NoScriptLine,
    /// The first line of the topology at fault, counted from 1, its cause, and the word at fault, counted from 0.
    #[error("topology line {line}: {cause}")]
    Topology {
        line: u64,
        cause: TopologyCause,
        word: usize,
    },
    /// The topology's bytes of an EDID are refused.
    #[error("edid: {0}")]
    Edid(EdidCause),
    /// The input ended at this line of the script, counted from 1, before a line `end`; or that line is too long.
    #[error("script line {line}: {cause}")]
    Script {
        line: u64,
        cause: ScriptEnd,
    },
    /// A `put` took none. So many bytes were handed on.
    #[error("write fault after {0} bytes")]
    Write(u128),
    #[error("no memory")]
    Memory,
}

/// Why no further line was read.
#[derive(Clone, Copy, Debug, Drop, PartialEq, Eq, Error)]
pub enum ScriptEnd {
    #[error("end")]
    End,
    #[error("too-long")]
    TooLong,
}
