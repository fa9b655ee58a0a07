//! What opens files by their names.
ghost use Rattle.std.specs.Prelude.{◌≡◌, ℕ, List, Option, IfOk};

use std::io::Read;
use thiserror::Error;

/// Why a file is not opened.
#[derive(Clone, Copy, Debug, Drop, PartialEq, Eq, Error)]
pub enum OpenFault {
    /// No file has the name.
    #[error("no such file")]
    Missing,
    /// The file may not be read.
    #[error("no leave to read it")]
    Denied,
    /// The name is a directory's.
    #[error("a directory")]
    Directory,
    /// The system has another reason.
    #[error("read fault")]
    Other,
}

/// Opens files by their names.
pub trait Opens {
    /// An open file.
    type Opened: Read + Drop;

    /// What the file of a name holds, where that is known: of the files of a system it is not.
    ghost held: { Self → List ℕ → Option (List ℕ) };

    /// Opens the file of this name, to be read from its first byte on.
    fn open(&self, name: &str) -> Result<Self::Opened, OpenFault>
        ensures { IfOk result (λ opened. Self.Opened.remaining opened ≡ held self.now name.now) };

    /// Whether standard input is a terminal, at which somebody has to type the input.
    fn is_typed(&self) -> bool;
}
