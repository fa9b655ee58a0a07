//! The picture, the rate and the clock of a timing of DisplayID of 20 bytes, and what is left of bytes.
ghost use Rattle.std.specs.Prelude.{◌≡◌, ◌≤◌, ◌<◌, ◌+◌, ◌*◌, ◌++◌, length, flat_map};
ghost use Rattle.arrayvec.specs.ArrayVec.{array_vec_len};
ghost use Rattle.meaning_words.specs.Notes.{own_line};
ghost use Rattle.meaning_displayid.specs.Timings.{clock_of, clock_text, front_text, left_lines, line_pixels, picture_lines, picture_rate, picture_text, rate_text, two_at};

use arrayvec::ArrayVec;
use edid_base::append;
use meaning_words::{
    NOTE, Note, PAGE, Page, append_between, append_rest, append_thousandths, append_words, byte_at,
    nearest,
};

fn two_at(timing: &[u8], place: usize) -> u64
    requires { place < 1000 }
    ensures value { result ≡ two_at timing.now place }
    ensures some { 0 < result }
    ensures small { result ≤ 65536 }
{
    u64::from(byte_at(timing, place)) + u64::from(byte_at(timing, place + 1)) * 256 + 1
}

fn clock_of(unit: u64, timing: &[u8]) -> u64
    requires { unit ≤ 10 }
    ensures value { result ≡ clock_of unit timing.now }
    ensures small { result ≤ 167772160 }
{
    (u64::from(byte_at(timing, 0))
        + u64::from(byte_at(timing, 1)) * 256
        + u64::from(byte_at(timing, 2)) * 65_536
        + 1)
        * unit
}

fn line_pixels(timing: &[u8]) -> u64
    ensures value { result ≡ line_pixels timing.now }
    ensures some { 0 < result }
    ensures small { result ≤ 131072 }
{
    two_at(timing, 4) + two_at(timing, 6)
}

fn picture_lines(timing: &[u8]) -> u64
    ensures value { result ≡ picture_lines timing.now }
    ensures some { 0 < result }
    ensures small { result ≤ 131072 }
{
    two_at(timing, 12) + two_at(timing, 14)
}

fn product(pixels: u64, lines: u64) -> u64
    requires some_pixels { 0 < pixels }
    requires some_lines { 0 < lines }
    requires pixels { pixels ≤ 131072 }
    requires lines { lines ≤ 131072 }
    ensures value { result ≡ pixels * lines }
    ensures some { 0 < result }
    ensures small { result ≤ 17179869184 }
{
    pixels * lines
}

fn picture_rate(unit: u64, timing: &[u8]) -> u64
    requires { unit ≤ 10 }
    ensures { result ≡ picture_rate unit timing.now }
{
    nearest(
        clock_of(unit, timing) * 1_000_000,
        product(line_pixels(timing), picture_lines(timing)),
    )
}

fn append_picture(note: &mut Note, timing: &[u8])
    requires { array_vec_len note.old + 200 ≤ NOTE }
    ensures items { note.new.items ≡ note.old.items ++ picture_text timing.now }
    ensures len { array_vec_len note.new ≤ array_vec_len note.old + 45 }
{
    append_between(note, b"", two_at(timing, 4), b"x");
    append_between(note, b"", two_at(timing, 12), b" at ");
}

fn append_rate(note: &mut Note, unit: u64, timing: &[u8])
    requires unit { unit ≤ 10 }
    requires room { array_vec_len note.old + 29 ≤ NOTE }
    ensures items { note.new.items ≡ note.old.items ++ rate_text unit timing.now }
    ensures len { array_vec_len note.new ≤ array_vec_len note.old + 29 }
{
    append_thousandths(note, picture_rate(unit, timing));
    append(note, b" Hz, ");
}

fn append_clock(note: &mut Note, unit: u64, timing: &[u8])
    requires unit { unit ≤ 10 }
    requires room { array_vec_len note.old + 28 ≤ NOTE }
    ensures items { note.new.items ≡ note.old.items ++ clock_text unit timing.now }
    ensures len { array_vec_len note.new ≤ array_vec_len note.old + 28 }
{
    append_thousandths(note, clock_of(unit, timing));
    append(note, b" MHz");
}

/// Appends the picture, the rate and the clock.
pub(crate) fn append_front(note: &mut Note, unit: u64, timing: &[u8])
    requires unit { unit ≤ 10 }
    requires room { array_vec_len note.old + 200 ≤ NOTE }
    ensures items { note.new.items ≡ note.old.items ++ front_text unit timing.now }
    ensures len { array_vec_len note.new ≤ array_vec_len note.old + 102 }
{
    append_picture(note, timing);
    append_rate(note, unit, timing);
    append_clock(note, unit, timing);
}

/// Appends bytes of no known meaning on a line of their own.
pub(crate) fn append_left(page: &mut Page, bytes: &[u8])
    requires few { length bytes.now ≤ 128 }
    requires room { array_vec_len page.old + 2 * length bytes.now + 15 ≤ PAGE }
    ensures items { page.new.items ≡ page.old.items ++ flat_map own_line (left_lines bytes.now) }
    ensures len { array_vec_len page.new ≤ array_vec_len page.old + 2 * length bytes.now + 15 }
{
    let mut words: Note = ArrayVec::new();
    append_rest(&mut words, bytes);
    append_words(page, words.as_slice());
}
