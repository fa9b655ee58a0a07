//! What a detailed timing means.
ghost use Rattle.std.specs.Prelude.{◌≡◌, ◌≤◌, ◌+◌, ◌++◌, length, flat_map};
ghost use Rattle.arrayvec.specs.ArrayVec.{array_vec_len};
ghost use Rattle.meaning_words.specs.Notes.{own_line};
ghost use Rattle.meaning_words.specs.Rates.{of_line};
ghost use Rattle.meaning_words.specs.Timings.{picture_text, rates_text, clock_text, serrations, analog_lines, horizontal_sign, vertical_sign, separate_text, composite_text, analog_text, sync_text, size_text, border_text, stereo_text, timing_text, timing_meanings};

use crate::bits::is_set;
use crate::notes::{
    NOTE, Note, PAGE, Page, append_decimal, append_hundredths, append_line, append_thousandths,
    append_word,
};
use crate::rates::{TimingNumbers, field_rate, half_lines, line_pixels, line_rate, picture_lines};
use arrayvec::ArrayVec;
use edid_base::append;

/// Flags from here on say that a picture is two fields.
const INTERLACED: u8 = 128;
/// The bit of the flags that indicates serrations, or of a positive vertical sync.
const SERRATED: u32 = 4;
/// The bit of the flags that indicates sync on three lines, or of a positive horizontal sync.
const POSITIVE: u32 = 2;

fn append_picture(note: &mut Note, timing: &TimingNumbers)
    requires { array_vec_len note.old + 42 ≤ NOTE }
    ensures items { note.new.items ≡ note.old.items ++ picture_text timing.now }
    ensures len { array_vec_len note.new ≤ array_vec_len note.old + 42 }
{
    append_decimal(note, u64::from(timing.horizontal_active));
    append(note, b"x");
    append_decimal(note, picture_lines(timing));
    if INTERLACED <= timing.flags {
        append(note, b"i");
    }
}

fn append_rates(note: &mut Note, timing: &TimingNumbers)
    requires { array_vec_len note.old + 61 ≤ NOTE }
    ensures items { note.new.items ≡ note.old.items ++ rates_text timing.now }
    ensures len { array_vec_len note.new ≤ array_vec_len note.old + 61 }
{
    if line_pixels(timing) * half_lines(timing) == 0 {
        append(note, b", no rate");
        return;
    }
    append(note, b" at ");
    append_thousandths(note, field_rate(timing));
    append(note, b" Hz, ");
    append_thousandths(note, line_rate(timing));
    append(note, b" kHz");
}

fn append_clock(note: &mut Note, timing: &TimingNumbers)
    requires { array_vec_len note.old + 29 ≤ NOTE }
    ensures items { note.new.items ≡ note.old.items ++ clock_text timing.now }
    ensures len { array_vec_len note.new ≤ array_vec_len note.old + 29 }
{
    append(note, b", ");
    append_hundredths(note, u64::from(timing.clock));
    append(note, b" MHz");
}

fn append_serrations(note: &mut Note, flags: u8)
    requires { array_vec_len note.old + 10 ≤ NOTE }
    ensures items { note.new.items ≡ note.old.items ++ serrations flags }
    ensures len { array_vec_len note.new ≤ array_vec_len note.old + 10 }
{
    if is_set(u32::from(flags), SERRATED) {
        append_word(note, b"serrated");
    }
}

fn analog_lines(flags: u8) -> &'static str
    ensures value { result.now ≡ analog_lines flags }
    ensures short { length result.now ≤ 23 }
{
    if is_set(u32::from(flags), POSITIVE) {
        " on red, green and blue"
    } else {
        " on green"
    }
}

fn horizontal_sign(flags: u8) -> &'static str
    ensures value { result.now ≡ horizontal_sign flags }
    ensures short { length result.now ≤ 2 }
{
    if is_set(u32::from(flags), POSITIVE) {
        "+h"
    } else {
        "-h"
    }
}

fn vertical_sign(flags: u8) -> &'static str
    ensures value { result.now ≡ vertical_sign flags }
    ensures short { length result.now ≤ 3 }
{
    if is_set(u32::from(flags), SERRATED) {
        " +v"
    } else {
        " -v"
    }
}

fn append_separate(note: &mut Note, flags: u8)
    requires { array_vec_len note.old + 64 ≤ NOTE }
    ensures items { note.new.items ≡ note.old.items ++ separate_text flags }
    ensures len { array_vec_len note.new ≤ array_vec_len note.old + 64 }
{
    append(note, b", ");
    append(note, horizontal_sign(flags).as_bytes());
    append(note, vertical_sign(flags).as_bytes());
}

fn append_composite(note: &mut Note, name: &[u8], flags: u8)
    requires short { length name.now ≤ 31 }
    requires room { array_vec_len note.old + 64 ≤ NOTE }
    ensures items { note.new.items ≡ note.old.items ++ composite_text name.now flags }
    ensures len { array_vec_len note.new ≤ array_vec_len note.old + 64 }
{
    append(note, name);
    append(note, horizontal_sign(flags).as_bytes());
    append_serrations(note, flags);
}

fn append_analog(note: &mut Note, name: &[u8], flags: u8)
    requires short { length name.now ≤ 31 }
    requires room { array_vec_len note.old + 64 ≤ NOTE }
    ensures items { note.new.items ≡ note.old.items ++ analog_text name.now flags }
    ensures len { array_vec_len note.new ≤ array_vec_len note.old + 64 }
{
    append(note, name);
    append(note, analog_lines(flags).as_bytes());
    append_serrations(note, flags);
}

fn append_sync(note: &mut Note, flags: u8)
    requires { array_vec_len note.old + 64 ≤ NOTE }
    ensures items { note.new.items ≡ note.old.items ++ sync_text flags }
    ensures len { array_vec_len note.new ≤ array_vec_len note.old + 64 }
{
    match flags / 8 % 4 {
        3 => append_separate(note, flags),
        2 => append_composite(note, b", digital composite sync ", flags),
        1 => append_analog(note, b", bipolar analog composite sync", flags),
        _ => append_analog(note, b", analog composite sync", flags),
    }
}

fn append_size(note: &mut Note, timing: &TimingNumbers)
    requires { array_vec_len note.old + 48 ≤ NOTE }
    ensures items { note.new.items ≡ note.old.items ++ size_text timing.now }
    ensures len { array_vec_len note.new ≤ array_vec_len note.old + 48 }
{
    let (width, height) = (u64::from(timing.width), u64::from(timing.height));
    if width == 0 && height == 0 {
        return;
    }
    append(note, b", ");
    append_decimal(note, width);
    append(note, b" x ");
    append_decimal(note, height);
    append(note, b" mm");
}

fn append_borders(note: &mut Note, timing: &TimingNumbers)
    requires { array_vec_len note.old + 71 ≤ NOTE }
    ensures items { note.new.items ≡ note.old.items ++ border_text timing.now }
    ensures len { array_vec_len note.new ≤ array_vec_len note.old + 71 }
{
    let (horizontal, vertical) = (
        u64::from(timing.horizontal_border),
        u64::from(timing.vertical_border),
    );
    if horizontal == 0 && vertical == 0 {
        return;
    }
    append(note, b", borders of ");
    append_decimal(note, horizontal);
    append(note, b" pixels and ");
    append_decimal(note, vertical);
    append(note, b" lines");
}

fn stereo_text(code: u8) -> &'static str
    ensures value { result.now ≡ stereo_text code }
    ensures short { length result.now ≤ 58 }
{
    match code {
        2 => ", field sequential stereo, right image at the stereo sync",
        3 => ", 2-way interleaved stereo, right image on even lines",
        4 => ", field sequential stereo, left image at the stereo sync",
        5 => ", 2-way interleaved stereo, left image on even lines",
        6 => ", 4-way interleaved stereo",
        7 => ", side-by-side interleaved stereo",
        _ => "",
    }
}

fn timing_note(timing: &TimingNumbers) -> Note
    ensures value { result.items ≡ timing_text timing.now }
    ensures len { array_vec_len result ≤ 400 }
{
    let flags = timing.flags;
    let mut note = ArrayVec::new();
    append_picture(&mut note, timing);
    append_rates(&mut note, timing);
    append_clock(&mut note, timing);
    append_sync(&mut note, flags);
    append_size(&mut note, timing);
    append_borders(&mut note, timing);
    append(
        &mut note,
        stereo_text(flags / 32 % 4 * 2 + flags % 2).as_bytes(),
    );
    note
}

fn line_note(numbers: &[u32], flags: u8) -> Note
    ensures value { result.items ≡ timing_text (of_line numbers.now flags) }
    ensures len { array_vec_len result ≤ 400 }
{
    timing_note(&TimingNumbers::of_line(numbers, flags))
}

/// Appends what a detailed timing means: its picture and rates, the nearest Hz and thousandths of a Hz, its pixel clock, its
/// sync, and, where it reports them, the image's size, borders and stereo (E-EDID Release A, section 3.10.2).
///
/// `numbers` are those of its line: the clock in units of 10 kHz; active and blanking, horizontally and vertically; sync
/// offset and width, in the same way; millimetres; borders.
#[tactic(auto, unfolding(crate::specs::Timings::timing_meanings))]
pub fn append_timing(page: &mut Page, numbers: &[u32], flags: u8)
    requires { array_vec_len page.old + 403 ≤ PAGE }
    ensures { page.new.items ≡ page.old.items ++ flat_map own_line (timing_meanings numbers.now flags) }
{
    append_line(page, line_note(numbers, flags).as_slice());
}
