//! Lines of a capture, read again.
use crate::changed::{Changed, word_of};
use capture_forms::{CaptureError, CaptureForm, read_capture};
use std::alloc::{AllocError, Global};

/// The word at which a line of a capture in a form is refused.
pub fn of_capture(
    alloc: Global,
    form: CaptureForm,
    changed: Changed<'_>,
) -> Result<Option<usize>, AllocError> {
    let text = changed.part(alloc)?;
    match read_capture(alloc, form, &[], &text) {
        Ok(_) => Ok(None),
        Err(CaptureError::Fault(fault)) => Ok(word_of(
            changed.number_in_part(),
            fault.line,
            fault.word,
        )),
        Err(CaptureError::Memory) => Err(AllocError),
    }
}
