//! Faults that no process can be made to have.
use super::*;
use program_calls::{ProgramFault, write_fault};
use std::alloc::AllocError;
use std::process::Abort;

/// The program reports a fault so, and ends with this status.
fn reports(rt: &(impl Abort + AllocGlobal), fault: ProgramFault, text: &str, status: u8) {
    let mut err = Vec::new(rt.alloc());
    let reported = write_fault(&fault, &mut Writes::new(&mut err)) == status;
    expect(rt, reported && err.as_slice() == text.as_bytes(), "", text);
}

/// The program was not handed its words, for this reason.
fn of_words(reason: ErrorKind) -> ProgramFault {
    ProgramFault::of_words(io::Error::from(reason))
}

#[test]
fn reports_why_it_has_no_words_or_no_memory(rt: HostRuntime) {
    let no_memory = "hdminet: no memory\n";
    reports(&rt, ProgramFault::Memory(AllocError), no_memory, 4);
    reports(&rt, of_words(ErrorKind::OutOfMemory), no_memory, 4);
    let not_text = "hdminet: an argument is not UTF-8\n";
    reports(&rt, of_words(ErrorKind::InvalidData), not_text, 2);
}
