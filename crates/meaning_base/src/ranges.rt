//! What the limits of a display's ranges mean.
ghost use Rattle.std.specs.Prelude.{◌≡◌, ◌≤◌, ◌<◌, ◌+◌, ◌^◌, ◌++◌, length, flat_map};
ghost use Rattle.arrayvec.specs.ArrayVec.{array_vec_len};
ghost use Rattle.meaning_words.specs.Notes.{own_line, set_words};
ghost use Rattle.meaning_base.specs.Ranges.{least_rate, greatest_rate, field_text, line_text, clock_text, limits_text, gtf_text, new_name, form_name, second_text, cvt_pixels, cvt_head, aspect_rows, preferred_text, blanking_rows, scaling_rows, preferred_rate, cvt_words, cvt_meanings, form_meanings, range_text, range_meanings};

use arrayvec::ArrayVec;
use edid_base::{Revision, append};
use meaning_words::{
    Bit, NOTE, Note, PAGE, Page, append_between, append_bits, append_hundredths, append_line,
    append_named_hex, append_words, bit_rows, byte_at, is_set,
};

/// What bits of 1.4 add to a rate.
const OFFSET: u64 = 255;
/// The bit of the features that indicates the default GTF.
const GTF: u32 = 1;
/// The form of a second GTF curve.
const SECOND_GTF: u8 = 2;
/// The form of CVT, in 1.4.
const CVT: u8 = 4;

const ASPECTS: &[Bit] = bit_rows! {
    128 "4:3";
    64 "16:9";
    32 "16:10";
    16 "5:4";
    8 "15:9";
};

const BLANKINGS: &[Bit] = bit_rows! {
    16 "reduced blanking";
    8 "standard blanking";
};

const SCALINGS: &[Bit] = bit_rows! {
    128 "horizontal shrink";
    64 "horizontal stretch";
    32 "vertical shrink";
    16 "vertical stretch";
};

fn least_rate(revision: Revision, bits: u8, rate: u8) -> u64
    ensures { result ≡ least_rate revision bits rate }
{
    match revision {
        Revision::Four if bits == 3 => u64::from(rate) + OFFSET,
        _ => u64::from(rate),
    }
}

fn greatest_rate(revision: Revision, bits: u8, rate: u8) -> u64
    ensures { result ≡ greatest_rate revision bits rate }
{
    match revision {
        Revision::Four if 2 <= bits => u64::from(rate) + OFFSET,
        _ => u64::from(rate),
    }
}

fn append_fields(note: &mut Note, revision: Revision, bytes: &[u8])
    requires { array_vec_len note.old + 150 ≤ NOTE }
    ensures items { note.new.items ≡ note.old.items ++ field_text revision bytes.now }
    ensures len { array_vec_len note.new ≤ array_vec_len note.old + 50 }
{
    let bits = byte_at(bytes, 0) % 4;
    append_between(
        note,
        b"",
        least_rate(revision, bits, byte_at(bytes, 1)),
        b" to ",
    );
    append_between(
        note,
        b"",
        greatest_rate(revision, bits, byte_at(bytes, 2)),
        b" Hz, ",
    );
}

fn append_lines(note: &mut Note, revision: Revision, bytes: &[u8])
    requires { array_vec_len note.old + 150 ≤ NOTE }
    ensures items { note.new.items ≡ note.old.items ++ line_text revision bytes.now }
    ensures len { array_vec_len note.new ≤ array_vec_len note.old + 50 }
{
    let bits = byte_at(bytes, 0) / 4 % 4;
    append_between(
        note,
        b"",
        least_rate(revision, bits, byte_at(bytes, 3)),
        b" to ",
    );
    append_between(
        note,
        b"",
        greatest_rate(revision, bits, byte_at(bytes, 4)),
        b" kHz",
    );
}

fn append_clock(note: &mut Note, clock: u8)
    requires { array_vec_len note.old + 100 ≤ NOTE }
    ensures items { note.new.items ≡ note.old.items ++ clock_text clock }
    ensures len { array_vec_len note.new ≤ array_vec_len note.old + 50 }
{
    if clock != 0 {
        append_between(note, b", up to ", 10 * u64::from(clock), b" MHz");
    }
}

fn append_limits(note: &mut Note, revision: Revision, bytes: &[u8])
    requires { array_vec_len note.old + 300 ≤ NOTE }
    ensures items { note.new.items ≡ note.old.items ++ limits_text revision bytes.now }
    ensures len { array_vec_len note.new ≤ array_vec_len note.old + 150 }
{
    append_fields(note, revision, bytes);
    append_lines(note, revision, bytes);
    append_clock(note, byte_at(bytes, 5));
}

fn gtf_text(revision: Revision, features: u8) -> &'static str
    ensures value { result.now ≡ gtf_text revision features }
    ensures short { length result.now ≤ 14 }
{
    match revision {
        Revision::Three => {
            if is_set(u32::from(features), GTF) {
                ", GTF"
            } else {
                ", no formula"
            }
        }
        Revision::Four => ", GTF",
    }
}

fn append_new_name(note: &mut Note, revision: Revision, form: u8)
    requires { array_vec_len note.old + 50 ≤ NOTE }
    ensures items { note.new.items ≡ note.old.items ++ new_name revision form }
    ensures len { array_vec_len note.new ≤ array_vec_len note.old + 20 }
{
    match (revision, form) {
        (Revision::Four, 1) => append(note, b", limits alone"),
        (Revision::Four, CVT) => append(note, b", CVT"),
        _ => append_named_hex(note, b", form ", &[form]),
    }
}

fn append_form_name(note: &mut Note, revision: Revision, features: u8, form: u8)
    requires { array_vec_len note.old + 50 ≤ NOTE }
    ensures items { note.new.items ≡ note.old.items ++ form_name revision features form }
    ensures len { array_vec_len note.new ≤ array_vec_len note.old + 20 }
{
    match form {
        0 => append(note, gtf_text(revision, features).as_bytes()),
        SECOND_GTF => append(note, b", second GTF"),
        _ => append_new_name(note, revision, form),
    }
}

fn second_note(bytes: &[u8]) -> Note
    ensures value { result.items ≡ second_text bytes.now }
    ensures len { array_vec_len result ≤ 200 }
{
    let mut note = ArrayVec::new();
    append_between(
        &mut note,
        b"from ",
        2 * u64::from(byte_at(bytes, 8)),
        b" kHz, C ",
    );
    append_hundredths(&mut note, 50 * u64::from(byte_at(bytes, 9)));
    append_between(
        &mut note,
        b", M ",
        u64::from(byte_at(bytes, 10)) + 256 * u64::from(byte_at(bytes, 11)),
        b", K ",
    );
    append_between(&mut note, b"", u64::from(byte_at(bytes, 12)), b", J ");
    append_hundredths(&mut note, 50 * u64::from(byte_at(bytes, 13)));
    note
}

fn append_pixels(note: &mut Note, pixels: u64)
    requires small { pixels < 2 ^ 16 }
    requires room { array_vec_len note.old + 100 ≤ NOTE }
    ensures items { note.new.items ≡ note.old.items ++ cvt_pixels pixels }
    ensures len { array_vec_len note.new ≤ array_vec_len note.old + 50 }
{
    if pixels != 0 {
        append_between(note, b", up to ", 8 * pixels, b" pixels a line");
    }
}

fn cvt_head(bytes: &[u8]) -> Note
    ensures value { result.items ≡ cvt_head bytes.now }
    ensures len { array_vec_len result ≤ 200 }
{
    let version = byte_at(bytes, 7);
    let precise = byte_at(bytes, 8);
    let mut note = ArrayVec::new();
    append_between(&mut note, b"CVT ", u64::from(version / 16), b".");
    append_between(&mut note, b"", u64::from(version % 16), b", up to ");
    append_hundredths(
        &mut note,
        (1000 * u64::from(byte_at(bytes, 5))).saturating_sub(25 * u64::from(precise / 4)),
    );
    append(&mut note, b" MHz");
    append_pixels(
        &mut note,
        u64::from(byte_at(bytes, 9)) + 256 * u64::from(precise % 4),
    );
    note
}

fn preferred_text(aspect: u8) -> &'static str
    ensures value { result.now ≡ preferred_text aspect }
    ensures short { length result.now ≤ 28 }
{
    match aspect {
        0 => ", preferred aspect 4:3",
        1 => ", preferred aspect 16:9",
        2 => ", preferred aspect 16:10",
        3 => ", preferred aspect 5:4",
        4 => ", preferred aspect 15:9",
        _ => ", reserved preferred aspect",
    }
}

fn append_preferred_rate(note: &mut Note, rate: u8)
    requires { array_vec_len note.old + 100 ≤ NOTE }
    ensures items { note.new.items ≡ note.old.items ++ preferred_rate rate }
    ensures len { array_vec_len note.new ≤ array_vec_len note.old + 50 }
{
    if rate != 0 {
        append_between(note, b", preferred ", u64::from(rate), b" Hz");
    }
}

fn append_aspects(note: &mut Note, bits: u32)
    requires { array_vec_len note.old + 200 ≤ NOTE }
    ensures items { note.new.items ≡ note.old.items ++ set_words aspect_rows bits }
    ensures len { array_vec_len note.new ≤ array_vec_len note.old + 200 }
{
    append_bits(note, ASPECTS, bits);
}

fn append_blankings(note: &mut Note, bits: u32)
    requires { array_vec_len note.old + 80 ≤ NOTE }
    ensures items { note.new.items ≡ note.old.items ++ set_words blanking_rows bits }
    ensures len { array_vec_len note.new ≤ array_vec_len note.old + 80 }
{
    append_bits(note, BLANKINGS, bits);
}

fn append_scalings(note: &mut Note, bits: u32)
    requires { array_vec_len note.old + 160 ≤ NOTE }
    ensures items { note.new.items ≡ note.old.items ++ set_words scaling_rows bits }
    ensures len { array_vec_len note.new ≤ array_vec_len note.old + 160 }
{
    append_bits(note, SCALINGS, bits);
}

fn cvt_note(bytes: &[u8]) -> Note
    ensures value { result.items ≡ cvt_words bytes.now }
    ensures len { array_vec_len result ≤ 518 }
{
    let mut words = ArrayVec::new();
    let preferred = byte_at(bytes, 11);
    append_aspects(&mut words, u32::from(byte_at(bytes, 10)));
    append(&mut words, preferred_text(preferred / 32).as_bytes());
    append_blankings(&mut words, u32::from(preferred));
    append_scalings(&mut words, u32::from(byte_at(bytes, 12)));
    append_preferred_rate(&mut words, byte_at(bytes, 13));
    words
}

fn append_cvt(page: &mut Page, bytes: &[u8])
    requires { array_vec_len page.old + 730 ≤ PAGE }
    ensures { page.new.items ≡ page.old.items ++ flat_map own_line (cvt_meanings bytes.now) }
{
    append_line(page, cvt_head(bytes).as_slice());
    append_words(page, cvt_note(bytes).as_slice());
}

fn append_form(page: &mut Page, revision: Revision, form: u8, bytes: &[u8])
    requires { array_vec_len page.old + 730 ≤ PAGE }
    ensures { page.new.items ≡ page.old.items ++ flat_map own_line (form_meanings revision form bytes.now) }
{
    match (revision, form) {
        (_, SECOND_GTF) => append_line(page, second_note(bytes).as_slice()),
        (Revision::Four, CVT) => append_cvt(page, bytes),
        _ => {}
    }
}

fn range_note(revision: Revision, features: u8, bytes: &[u8]) -> Note
    ensures value { result.items ≡ range_text revision features bytes.now }
    ensures len { array_vec_len result ≤ 170 }
{
    let mut note = ArrayVec::new();
    append_limits(&mut note, revision, bytes);
    append_form_name(&mut note, revision, features, byte_at(bytes, 6));
    note
}

/// Appends the limits of a display's ranges, of the 14 bytes after their tag: of field and line rates and of the pixel
/// clock, and the formula that it has for timings, with its parameters on a line of their own. In 1.3 bit 0 of the features reports
/// of the default GTF (E-EDID Release A, section 3.10.3.3); in 1.4 a form of 00 does (E-EDID 1.4, section 3.10.3.3).
#[tactic(auto, unfolding(crate::specs::Ranges::range_meanings))]
pub fn append_range(page: &mut Page, revision: Revision, features: u8, bytes: &[u8])
    requires { array_vec_len page.old + 910 ≤ PAGE }
    ensures { page.new.items ≡ page.old.items ++ flat_map own_line (range_meanings revision features bytes.now) }
{
    append_line(page, range_note(revision, features, bytes).as_slice());
    append_form(page, revision, byte_at(bytes, 6), bytes);
}
