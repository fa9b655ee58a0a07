//! What the numbers of a base block mean.
ghost use Rattle.std.specs.Prelude.{◌≡◌, ◌≤◌, ◌<◌, ◌+◌, ◌^◌, ◌++◌, length, slice_index};
ghost use Rattle.arrayvec.specs.ArrayVec.{array_vec_len};
ghost use Rattle.meaning_words.specs.Notes.{own_line};
ghost use Rattle.meaning_base.specs.Figures.{week_text, made_text, plain_size, ratio_text, aspect_size, size_text, gamma_text, coordinate, point_text, chroma_text, standard_height, standard_text};

use arrayvec::ArrayVec;
use edid_base::{Revision, append};
use meaning_fields::append_ten_thousandths;
use meaning_words::{
    NOTE, Note, PAGE, Page, append_between, append_decimal, append_hundredths, append_line, nearest,
};

/// The week that marks a model year in 1.4.
const MODEL_YEAR: u64 = 255;
/// A gamma that is told in an extension.
const NO_GAMMA: u64 = 255;
/// The units of a chromaticity's 1.
const CHROMA_UNITS: u64 = 1024;

/// A number of a line; 0 where it has none there.
fn number_at(numbers: &[u32], place: usize) -> u64
    ensures value { result ≡ slice_index numbers.now place }
    ensures small { result < 2 ^ 32 }
{
    match numbers.get(place) {
        Some(number) => u64::from(*number),
        None => 0,
    }
}

fn append_week(note: &mut Note, revision: Revision, week: u64)
    requires { array_vec_len note.old + 100 ≤ NOTE }
    ensures items { note.new.items ≡ note.old.items ++ week_text revision week }
    ensures len { array_vec_len note.new ≤ array_vec_len note.old + 40 }
{
    if week == 0 {
        return;
    }
    match revision {
        Revision::Four if week == MODEL_YEAR => append(note, b"model year "),
        _ => append_between(note, b"week ", week, b" of "),
    }
}

/// Appends when it was made, or the year of its model (E-EDID Release A, section 3.4.4).
#[tactic(auto, unfolding(crate::specs::Figures::made_text))]
pub fn append_made(page: &mut Page, revision: Revision, numbers: &[u32])
    requires { array_vec_len page.old + 100 ≤ PAGE }
    ensures { page.new.items ≡ page.old.items ++ own_line (made_text revision (slice_index numbers.now 0) (slice_index numbers.now 1)) }
{
    let mut note: Note = ArrayVec::new();
    append_week(&mut note, revision, number_at(numbers, 0));
    append_decimal(&mut note, number_at(numbers, 1));
    append_line(page, note.as_slice());
}

#[tactic(auto, unfolding(crate::specs::Figures::ratio_text))]
fn append_ratio(note: &mut Note, before: &[u8], number: u64, after: &[u8])
    requires short_before { length before.now ≤ 20 }
    requires short_after { length after.now ≤ 20 }
    requires room { array_vec_len note.old + 70 ≤ NOTE }
    ensures items { note.new.items ≡ note.old.items ++ ratio_text before.now number after.now }
    ensures len { array_vec_len note.new ≤ array_vec_len note.old + 70 }
{
    append(note, before);
    append_hundredths(note, number);
    append(note, after);
}

fn append_aspect(note: &mut Note, revision: Revision, width: u64, height: u64)
    requires width { width < 2 ^ 32 }
    requires height { height < 2 ^ 32 }
    requires room { array_vec_len note.old + 100 ≤ NOTE }
    ensures items { note.new.items ≡ note.old.items ++ aspect_size revision width height }
    ensures len { array_vec_len note.new ≤ array_vec_len note.old + 80 }
{
    match revision {
        Revision::Three => append(note, b"no size"),
        Revision::Four if width == 0 && height == 0 => append(note, b"no size"),
        Revision::Four if height == 0 => append_ratio(note, b"", width + 99, b":1 landscape"),
        Revision::Four => append_ratio(note, b"1:", height + 99, b" portrait"),
    }
}

fn append_plain(note: &mut Note, width: u64, height: u64)
    requires { array_vec_len note.old + 200 ≤ NOTE }
    ensures items { note.new.items ≡ note.old.items ++ plain_size width height }
    ensures len { array_vec_len note.new ≤ array_vec_len note.old + 80 }
{
    append_between(note, b"", width, b" x ");
    append_between(note, b"", height, b" cm");
}

#[tactic(auto, unfolding(crate::specs::Figures::size_text))]
fn size_note(revision: Revision, width: u64, height: u64) -> Note
    requires width { width < 2 ^ 32 }
    requires height { height < 2 ^ 32 }
    ensures value { result.items ≡ size_text revision width height }
    ensures len { array_vec_len result ≤ 80 }
{
    let mut note = ArrayVec::new();
    if width == 0 || height == 0 {
        append_aspect(&mut note, revision, width, height);
    } else {
        append_plain(&mut note, width, height);
    }
    note
}

/// Appends its size, or in 1.4 its aspect where one number is 0 (E-EDID Release A, section 3.6.2).
pub fn append_size(page: &mut Page, revision: Revision, numbers: &[u32])
    requires { array_vec_len page.old + 100 ≤ PAGE }
    ensures { page.new.items ≡ page.old.items ++ own_line (size_text revision (slice_index numbers.now 0) (slice_index numbers.now 1)) }
{
    let note = size_note(revision, number_at(numbers, 0), number_at(numbers, 1));
    append_line(page, note.as_slice());
}

#[tactic(auto, unfolding(crate::specs::Figures::gamma_text))]
fn gamma_note(gamma: u64) -> Note
    requires { gamma < 2 ^ 32 }
    ensures value { result.items ≡ gamma_text gamma }
    ensures len { array_vec_len result ≤ 80 }
{
    let mut note = ArrayVec::new();
    if gamma == NO_GAMMA {
        append(&mut note, b"elsewhere");
    } else {
        append_hundredths(&mut note, gamma + 100);
    }
    note
}

/// Appends its gamma (E-EDID Release A, section 3.6.3).
pub fn append_gamma(page: &mut Page, numbers: &[u32])
    requires { array_vec_len page.old + 100 ≤ PAGE }
    ensures { page.new.items ≡ page.old.items ++ own_line (gamma_text (slice_index numbers.now 0)) }
{
    append_line(page, gamma_note(number_at(numbers, 0)).as_slice());
}

fn append_coordinate(note: &mut Note, number: u64)
    requires small { number < 2 ^ 32 }
    requires room { array_vec_len note.old + 25 ≤ NOTE }
    ensures items { note.new.items ≡ note.old.items ++ coordinate number }
    ensures len { array_vec_len note.new ≤ array_vec_len note.old + 25 }
{
    append_ten_thousandths(note, nearest(number * 10_000, CHROMA_UNITS));
}

fn append_point(note: &mut Note, name: &[u8], x: u64, y: u64)
    requires short { length name.now ≤ 10 }
    requires x_small { x < 2 ^ 32 }
    requires y_small { y < 2 ^ 32 }
    requires room { array_vec_len note.old + 61 ≤ NOTE }
    ensures items { note.new.items ≡ note.old.items ++ point_text name.now x y }
    ensures len { array_vec_len note.new ≤ array_vec_len note.old + 61 }
{
    append(note, name);
    append_coordinate(note, x);
    append(note, b" ");
    append_coordinate(note, y);
}

#[tactic(auto, unfolding(crate::specs::Figures::chroma_text))]
fn chroma_note(numbers: &[u32]) -> Note
    ensures value { result.items ≡ chroma_text numbers.now }
    ensures len { array_vec_len result ≤ 244 }
{
    let mut note = ArrayVec::new();
    append_point(
        &mut note,
        b"red ",
        number_at(numbers, 0),
        number_at(numbers, 1),
    );
    append_point(
        &mut note,
        b", green ",
        number_at(numbers, 2),
        number_at(numbers, 3),
    );
    append_point(
        &mut note,
        b", blue ",
        number_at(numbers, 4),
        number_at(numbers, 5),
    );
    append_point(
        &mut note,
        b", white ",
        number_at(numbers, 6),
        number_at(numbers, 7),
    );
    note
}

/// Appends the chromaticities of its colours and its white point (E-EDID Release A, section 3.7).
pub fn append_chroma(page: &mut Page, numbers: &[u32])
    requires { array_vec_len page.old + 250 ≤ PAGE }
    ensures { page.new.items ≡ page.old.items ++ own_line (chroma_text numbers.now) }
{
    append_line(page, chroma_note(numbers).as_slice());
}

fn standard_height(width: u64, aspect: u64) -> u64
    requires { width < 2 ^ 32 }
    ensures { result ≡ standard_height width aspect }
{
    match aspect {
        0 => width * 10 / 16,
        1 => width * 3 / 4,
        2 => width * 4 / 5,
        _ => width * 9 / 16,
    }
}

#[tactic(auto, unfolding(crate::specs::Figures::standard_text))]
fn standard_note(width: u64, aspect: u64, rate: u64) -> Note
    requires { width < 2 ^ 32 }
    ensures value { result.items ≡ standard_text width aspect rate }
    ensures len { array_vec_len result ≤ 80 }
{
    let mut note = ArrayVec::new();
    append_between(&mut note, b"", width, b"x");
    append_decimal(&mut note, standard_height(width, aspect));
    append_between(&mut note, b" at ", rate, b" Hz");
    note
}

/// Appends the picture and the rate of a standard timing, of its width, aspect and rate (E-EDID Release A, section 3.9).
pub fn append_standard(page: &mut Page, numbers: &[u32])
    requires { array_vec_len page.old + 100 ≤ PAGE }
    ensures { page.new.items ≡ page.old.items ++ own_line (standard_text (slice_index numbers.now 0) (slice_index numbers.now 1) (slice_index numbers.now 2)) }
{
    let note = standard_note(
        number_at(numbers, 0),
        number_at(numbers, 1),
        number_at(numbers, 2),
    );
    append_line(page, note.as_slice());
}
