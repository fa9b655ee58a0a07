//! What the program reads of its input.
ghost use Rattle.std.specs.Prelude.{IfOk};
ghost use Rattle.program_input.specs.Read.{IsAllOf};

use crate::error::InputError;
use cli_choice::{CapturePair, CommandChoice, MonChoice, Objects, SummaryChoice};
use std::alloc::Global;
use std::io::Read;

/// The longest input, in bytes.
const LIMIT: usize = 1_048_576;

// So many bytes are read at a time, at most.
const READ: usize = 4096;

/// The longest capture whose form is given, in bytes.
const CAPTURE_LIMIT: usize = 67_108_864;

/// The longest input of a choice, in bytes.
pub fn limit_of(choice: CommandChoice) -> usize {
    match choice {
        CommandChoice::Mon(MonChoice { form: Some(_), .. })
        | CommandChoice::Summary(SummaryChoice { form: Some(_), .. })
        | CommandChoice::CaptureDiff(CapturePair { form: Some(_), .. })
        | CommandChoice::CapturedLine { form: Some(_), .. }
        | CommandChoice::CheckCapture { form: Some(_), .. }
        | CommandChoice::Json(Objects::CaptureTest { form: Some(_), .. }) => CAPTURE_LIMIT,
        CommandChoice::Mon(MonChoice { form: None, .. })
        | CommandChoice::Summary(SummaryChoice { form: None, .. })
        | CommandChoice::CaptureDiff(CapturePair { form: None, .. })
        | CommandChoice::CapturedLine { form: None, .. }
        | CommandChoice::CheckCapture { form: None, .. }
        | CommandChoice::Json(
            Objects::Trace { .. }
            | Objects::Room { .. }
            | Objects::Test { .. }
            | Objects::CaptureTest { form: None, .. },
        )
        | CommandChoice::Run { .. }
        | CommandChoice::Check(_)
        | CommandChoice::Step { .. }
        | CommandChoice::Live { .. }
        | CommandChoice::Follow(_)
        | CommandChoice::Asm
        | CommandChoice::Dis { .. }
        | CommandChoice::Lay { .. }
        | CommandChoice::EdidDiff { .. }
        | CommandChoice::InfoFrame { .. }
        | CommandChoice::Eld { .. }
        | CommandChoice::Edid { .. } => LIMIT,
    }
}

/// Reads all there is, up to the limit.
pub fn read_input<R: Read>(
    alloc: Global,
    limit: usize,
    input: &mut R,
) -> Result<Vec<u8>, InputError>
    ensures { IfOk result (λ bytes. IsAllOf (R.remaining input.old) bytes.items) }
{
    let mut bytes = Vec::new(alloc);
    let mut buffer = [0; READ];
    'reads: while bytes.len() <= limit {
        match input.read(&mut buffer) {
            Ok(0) => return Ok(bytes),
            Ok(count) => bytes.extend_from_slice(&buffer[..count])?,
            Err(_) => return Err(InputError::Read),
        }
    }
    Err(InputError::TooLong)
}
