//! The input of a command line: where it comes from, standard input or files that it names, what is read of it, and its parts.
#![tactic(auto)]

mod disk;
mod error;
mod mark;
mod opens;
mod parts;
mod plain;
mod read;
mod returns;
mod shelf;
mod source;

pub use disk::Disk;
pub use error::InputError;
pub use mark::WithoutMark;
pub use opens::{OpenFault, Opens};
pub use parts::{capture_parts, run_parts, steps_parts};
pub use plain::{PlainFiles, plain_reader, takes_plain};
pub use read::{limit_of, read_input};
pub use returns::WithoutReturns;
pub use shelf::Shelf;
pub use source::{Source, are_texts, between, source_of};
