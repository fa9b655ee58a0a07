//! Quotients of thousandths in decimals, as many as are significant.
ghost use Rattle.std.specs.Prelude.{◌≡◌, ◌≤◌, ◌<◌, ◌+◌, ◌*◌, ◌^◌, ◌++◌, length};
ghost use Rattle.arrayvec.specs.ArrayVec.{array_vec_len};
ghost use Rattle.meaning_fields.specs.Figures.{down_to, figure, figure_unit, has_three, two_digits, unit_text};

use edid_base::append;
use meaning_words::{NOTE, Note, append_digit, append_thousandths, nearest};

/// The least count of a unit that has three digits.
const HUNDRED: u64 = 100;

// So many of a unit as go into so many thousandths.
fn scaled(unit: u64, number: u64) -> u64
    requires unit { unit ≤ 1000 }
    requires small { number ≤ 1125899906842624 }
    ensures value { result ≡ unit * number }
    ensures small { result ≤ 1000 * 1125899906842624 }
{
    unit * number
}

fn has_three(unit: u64, number: u64, by: u64) -> bool
    requires unit { unit ≤ 1000 }
    requires small { number ≤ 1125899906842624 }
    requires some { 0 < by }
    requires small_by { by < 2 ^ 60 }
    ensures { result ≡ has_three unit number by }
{
    HUNDRED <= nearest(scaled(unit, number), by)
}

// The unit that a quotient is told in, by how often it goes into a thousandth.
fn figure_unit(number: u64, by: u64) -> u64
    requires small { number ≤ 1125899906842624 }
    requires some { 0 < by }
    requires small_by { by < 2 ^ 60 }
    ensures value { result ≡ figure_unit number by }
    ensures small { result ≤ 1000 }
{
    if has_three(10, number, by) {
        1
    } else if has_three(100, number, by) {
        10
    } else if has_three(1000, number, by) {
        100
    } else {
        1000
    }
}

fn append_two(note: &mut Note, zeros: &[u8], number: u64)
    requires short { length zeros.now ≤ 6 }
    requires room { array_vec_len note.old + 24 ≤ NOTE }
    ensures items { note.new.items ≡ note.old.items ++ two_digits zeros.now number }
    ensures len { array_vec_len note.new ≤ array_vec_len note.old + 8 }
{
    append(note, zeros);
    append_digit(note, number / 10);
    append_digit(note, number);
}

fn append_units(note: &mut Note, unit: u64, number: u64)
    requires { array_vec_len note.old + 24 ≤ NOTE }
    ensures items { note.new.items ≡ note.old.items ++ unit_text unit number }
    ensures len { array_vec_len note.new ≤ array_vec_len note.old + 24 }
{
    match unit {
        1 => append_thousandths(note, number),
        10 => append_two(note, b"0.00", number),
        100 => append_two(note, b"0.000", number),
        _ => append_two(note, b"0.0000", number),
    }
}

// A quotient of thousandths: three decimals, or of less than ten thousandths two digits after as many zeros as it has, of six
// decimals at most.
#[tactic(auto, unfolding(crate::specs::Figures::figure))]
fn append_figure(note: &mut Note, number: u64, by: u64)
    requires small { number ≤ 1125899906842624 }
    requires some { 0 < by }
    requires small_by { by < 2 ^ 60 }
    requires room { array_vec_len note.old + 24 ≤ NOTE }
    ensures items { note.new.items ≡ note.old.items ++ figure number by }
    ensures len { array_vec_len note.new ≤ array_vec_len note.old + 24 }
{
    if number == 0 {
        append(note, b"0");
        return;
    }
    let unit = figure_unit(number, by);
    append_units(note, unit, nearest(scaled(unit, number), by));
}

/// Appends a least luminance, a quotient of thousandths of 1 cd/m2.
pub fn append_down_to(note: &mut Note, number: u64, by: u64)
    requires small { number ≤ 1125899906842624 }
    requires some { 0 < by }
    requires small_by { by < 2 ^ 60 }
    requires room { array_vec_len note.old + 60 ≤ NOTE }
    ensures items { note.new.items ≡ note.old.items ++ down_to number by }
    ensures len { array_vec_len note.new ≤ array_vec_len note.old + 60 }
{
    append(note, b", down to ");
    append_figure(note, number, by);
    append(note, b" cd/m2");
}
