//! Why an input is not read, or has not its parts.
use explain_marks::Parting;
use std::alloc::AllocError;
use thiserror::Error;

/// Why an input is not read, or has not its parts.
#[derive(Debug, Drop, Error)]
pub enum InputError {
    #[error("read fault")]
    Read,
    #[error("input too long")]
    TooLong,
    #[error("no {0} line")]
    NoParting(Parting),
    #[error("no memory")]
    Memory(#[from(alloc)] AllocError),
}
