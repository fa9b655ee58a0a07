//! What words and flags of a command line stand for.
ghost use Rattle.std.specs.Prelude.{◌≡◌};
ghost use Rattle.std.specs.Option.{option_map};
ghost use Rattle.cli_choice.specs.Form.{form_by};
ghost use Rattle.cli_choice.specs.Joined.{joined};
ghost use Rattle.cli_choice.specs.Micros.{micros_of};

use record_core::Form;
use text_core::number_in;

/// Whether lines are written as they are, or, with `--json`, as objects.
pub fn form_by(json: bool) -> Form
    ensures { result ≡ form_by json }
{
    if json { Form::Json } else { Form::Text }
}

/// What stands before the first `=` of a word, and what stands after it, where it has one: a flag and its value in one word.
pub fn joined(word: &str) -> Option<(&str, &str)>
    ensures { option_map (λ parts. (parts.0.now, parts.1.now)) result ≡ joined word.now }
{
    word.split_once('=')
}

/// A number of microseconds in digits without leading zeros, at most 18,446,744,073,709,551,615.
// A greater one is read as that number, whose digits are its own alone.
pub fn micros_of(word: &[u8]) -> Option<u64>
    ensures { result ≡ micros_of word.now }
{
    let number = number_in(word)?;
    if number == u64::MAX && word != b"18446744073709551615".as_slice() {
        None
    } else {
        Some(number)
    }
}
