//! What video capability, colorimetry and HDR blocks mean.
ghost use Rattle.std.specs.Prelude.{◌≡◌, ◌≤◌, ◌+◌, ◌++◌, length, flat_map};
ghost use Rattle.arrayvec.specs.ArrayVec.{array_vec_len};
ghost use Rattle.meaning_words.specs.Notes.{own_line, set_words};
ghost use Rattle.meaning_extended.specs.Colours.{capability_meanings, capability_words, colour_meanings, colour_rows, content_words, curve_rows, gamut_rows, hdr_meanings, hdr_words, luminance_words, metadata_rows, range_rows, scan_text, scan_words};

use arrayvec::ArrayVec;
use edid_base::append;
use meaning_fields::{append_least, luminance};
use meaning_words::{
    Bit, NOTE, Note, PAGE, Page, after, append_between, append_bits, append_rest, append_words,
    bit_rows, byte_at,
};

const RANGES: &[Bit] = bit_rows! {
    64 "RGB range selectable";
    128 "YCC range selectable";
};

const COLOURS: &[Bit] = bit_rows! {
    1 "xvYCC601";
    2 "xvYCC709";
    4 "sYCC601";
    8 "opYCC601";
    16 "opRGB";
    32 "BT2020cYCC";
    64 "BT2020YCC";
    128 "BT2020RGB";
};

const GAMUTS: &[Bit] = bit_rows! {
    128 "DCI-P3";
    64 "ICtCp";
    32 "sRGB";
    16 "default RGB";
    1 "gamut metadata 0";
    2 "gamut metadata 1";
    4 "gamut metadata 2";
    8 "gamut metadata 3";
};

const CURVES: &[Bit] = bit_rows! {
    1 "traditional gamma SDR";
    2 "traditional gamma HDR";
    4 "SMPTE ST 2084";
    8 "hybrid log-gamma";
    16 "reserved transfer function 4";
    32 "reserved transfer function 5";
    64 "reserved transfer function 6";
    128 "reserved transfer function 7";
};

const METADATA: &[Bit] = bit_rows! {
    1 "static metadata type 1";
    2 "reserved metadata type 2";
    4 "reserved metadata type 3";
    8 "reserved metadata type 4";
    16 "reserved metadata type 5";
    32 "reserved metadata type 6";
    64 "reserved metadata type 7";
    128 "reserved metadata type 8";
};

// Appends the ranges that can be chosen.
fn append_range_bits(note: &mut Note, bits: u8)
    requires { array_vec_len note.old + 80 ≤ NOTE }
    ensures items { note.new.items ≡ note.old.items ++ set_words range_rows bits }
    ensures len { array_vec_len note.new ≤ array_vec_len note.old + 80 }
{
    append_bits(note, RANGES, u32::from(bits));
}

// Appends the colour spaces.
fn append_colour_bits(note: &mut Note, bits: u8)
    requires { array_vec_len note.old + 320 ≤ NOTE }
    ensures items { note.new.items ≡ note.old.items ++ set_words colour_rows bits }
    ensures len { array_vec_len note.new ≤ array_vec_len note.old + 320 }
{
    append_bits(note, COLOURS, u32::from(bits));
}

// Appends the gamuts.
fn append_gamut_bits(note: &mut Note, bits: u8)
    requires { array_vec_len note.old + 320 ≤ NOTE }
    ensures items { note.new.items ≡ note.old.items ++ set_words gamut_rows bits }
    ensures len { array_vec_len note.new ≤ array_vec_len note.old + 320 }
{
    append_bits(note, GAMUTS, u32::from(bits));
}

// Appends the transfer functions.
fn append_curve_bits(note: &mut Note, bits: u8)
    requires { array_vec_len note.old + 320 ≤ NOTE }
    ensures items { note.new.items ≡ note.old.items ++ set_words curve_rows bits }
    ensures len { array_vec_len note.new ≤ array_vec_len note.old + 320 }
{
    append_bits(note, CURVES, u32::from(bits));
}

// Appends the kinds of metadata.
fn append_metadata_bits(note: &mut Note, bits: u8)
    requires { array_vec_len note.old + 320 ≤ NOTE }
    ensures items { note.new.items ≡ note.old.items ++ set_words metadata_rows bits }
    ensures len { array_vec_len note.new ≤ array_vec_len note.old + 320 }
{
    append_bits(note, METADATA, u32::from(bits));
}

fn scan_text(scan: u8) -> &'static str
    ensures value { result.now ≡ scan_text scan }
    ensures short { length result.now ≤ 21 }
{
    match scan {
        1 => "overscanned",
        2 => "underscanned",
        _ => "over- or underscanned",
    }
}

fn append_scan(note: &mut Note, none: &[u8], name: &[u8], scan: u8)
    requires short_none { length none.now ≤ 30 }
    requires short_name { length name.now ≤ 30 }
    requires room { array_vec_len note.old + 60 ≤ NOTE }
    ensures items { note.new.items ≡ note.old.items ++ scan_words none.now name.now scan }
    ensures len { array_vec_len note.new ≤ array_vec_len note.old + 60 }
{
    if scan == 0 {
        append(note, none);
    } else {
        append(note, name);
        append(note, scan_text(scan).as_bytes());
    }
}

fn capability_note(bits: u8) -> Note
    ensures value { result.items ≡ capability_words bits }
    ensures len { array_vec_len result ≤ 260 }
{
    let mut words = ArrayVec::new();
    append_range_bits(&mut words, bits);
    append_scan(&mut words, b"", b", preferred timing ", bits / 16 % 4);
    append_scan(
        &mut words,
        b", no IT formats",
        b", IT formats ",
        bits / 4 % 4,
    );
    append_scan(&mut words, b", no CE formats", b", CE formats ", bits % 4);
    words
}

/// Appends what a video capability block means (CTA-861-G, section 7.5.6).
pub fn append_capability(page: &mut Page, payload: &[u8])
    requires few { length payload.now ≤ 128 }
    requires room { array_vec_len page.old + 1536 ≤ PAGE }
    ensures { page.new.items ≡ page.old.items ++ flat_map own_line (capability_meanings payload.now) }
{
    let mut words = capability_note(byte_at(payload, 0));
    append_rest(&mut words, after(payload, 1));
    append_words(page, words.as_slice());
}

/// Appends what a colorimetry block means (CTA-861-G, section 7.5.5).
pub fn append_colours(page: &mut Page, payload: &[u8])
    requires few { length payload.now ≤ 128 }
    requires room { array_vec_len page.old + 1536 ≤ PAGE }
    ensures { page.new.items ≡ page.old.items ++ flat_map own_line (colour_meanings payload.now) }
{
    let mut words: Note = ArrayVec::new();
    append_colour_bits(&mut words, byte_at(payload, 0));
    append_gamut_bits(&mut words, byte_at(payload, 1));
    append_rest(&mut words, after(payload, 2));
    append_words(page, words.as_slice());
}

fn append_luminance(note: &mut Note, name: &[u8], code: u8)
    requires short { length name.now ≤ 30 }
    requires room { array_vec_len note.old + 100 ≤ NOTE }
    ensures items { note.new.items ≡ note.old.items ++ luminance_words name.now code }
    ensures len { array_vec_len note.new ≤ array_vec_len note.old + 60 }
{
    if code != 0 {
        append_between(note, name, u64::from(luminance(code)), b" cd/m2");
    }
}

fn append_contents(note: &mut Note, payload: &[u8])
    requires few { length payload.now ≤ 128 }
    requires room { array_vec_len note.old + 600 ≤ NOTE }
    ensures items { note.new.items ≡ note.old.items ++ content_words payload.now }
    ensures len { array_vec_len note.new ≤ array_vec_len note.old + 500 }
{
    append_luminance(note, b", content up to ", byte_at(payload, 2));
    append_luminance(note, b", frames on average up to ", byte_at(payload, 3));
    append_least(note, byte_at(payload, 2), byte_at(payload, 4));
    append_rest(note, after(payload, 5));
}

fn hdr_note(payload: &[u8]) -> Note
    requires { length payload.now ≤ 128 }
    ensures value { result.items ≡ hdr_words payload.now }
    ensures len { array_vec_len result ≤ 1140 }
{
    let mut words = ArrayVec::new();
    append_curve_bits(&mut words, byte_at(payload, 0));
    append_metadata_bits(&mut words, byte_at(payload, 1));
    append_contents(&mut words, payload);
    words
}

/// Appends what an HDR static metadata block means (CTA-861-G, section 7.5.13).
pub fn append_hdr(page: &mut Page, payload: &[u8])
    requires few { length payload.now ≤ 128 }
    requires room { array_vec_len page.old + 1536 ≤ PAGE }
    ensures { page.new.items ≡ page.old.items ++ flat_map own_line (hdr_meanings payload.now) }
{
    append_words(page, hdr_note(payload).as_slice());
}
