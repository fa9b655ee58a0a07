//! Which word of a line is at fault.
ghost use Rattle.std.specs.Prelude.{◌≡◌};
ghost use Rattle.std.specs.Option.{option_copied};
ghost use Rattle.expect_text.specs.Fault.{IsNear, after_label};

use crate::form::ExpectCause;
use text_core::{AtWord, at_word};

/// The same word of a line with its label before it, which takes two words.
pub fn after_label(label: Option<&[u8]>, fault: AtWord<ExpectCause>) -> AtWord<ExpectCause>
    ensures { IsNear fault → result ≡ after_label (option_copied label.entry) fault }
{
    match label {
        None => fault,
        Some(_) => at_word(fault.word.saturating_add(2), fault.cause),
    }
}
