//! The parts of an input, with a line between them.
ghost use Rattle.std.specs.Prelude.{IfOk, IfSome};
ghost use Rattle.program_input.specs.Parted.{IsCaptureInput, IsParted, IsRunInput, IsStepsInput};

use crate::error::InputError;
use explain_marks::Parting;
use text_core::{after, len_before};

// The text before the first line that reads so, and the text after it.
fn parted<'a>(text: &'a [u8], mark: &[u8]) -> Option<(&'a [u8], &'a [u8])>
    ensures { IfSome result (λ p. IsParted mark.now text.now p.0.now p.1.now) }
{
    let mut start = 0;
    'lines: while start < text.len() {
        let rest = &text[start..];
        let length = len_before(rest, b'\n');
        if &rest[..length] == mark {
            return Some((&text[..start], after(rest, length + 1)));
        }
        if length == rest.len() {
            return None;
        }
        start += length + 1;
    }
    None
}

/// The text before the first line `script`, and the text after it.
pub fn run_parts(text: &[u8]) -> Result<(&[u8], &[u8]), InputError>
    ensures { IfOk result (λ p. IsRunInput text.now p.0.now p.1.now) }
{
    parted(text, b"script").ok_or(InputError::NoParting(Parting::Script))
}

/// The text before the first line `steps`, and the text after it.
pub fn steps_parts(text: &[u8]) -> Result<(&[u8], &[u8]), InputError>
    ensures { IfOk result (λ p. IsStepsInput text.now p.0.now p.1.now) }
{
    parted(text, b"steps").ok_or(InputError::NoParting(Parting::Steps))
}

/// The text before the first line `capture`, and the text after it.
pub fn capture_parts(text: &[u8]) -> Result<(&[u8], &[u8]), InputError>
    ensures { IfOk result (λ p. IsCaptureInput text.now p.0.now p.1.now) }
{
    parted(text, b"capture").ok_or(InputError::NoParting(Parting::Capture))
}
