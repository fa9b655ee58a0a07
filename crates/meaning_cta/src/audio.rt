//! What the bytes of an audio data block mean.
ghost use Rattle.std.specs.Prelude.{◌≡◌, ◌≤◌, ◌+◌, ◌*◌, ◌++◌, length, flat_map, codes, [], ◌∷◌};
ghost use Rattle.meaning_fields.specs.Fields.{field_words};
ghost use Rattle.hex.specs.Hex.{encode_lower};
ghost use Rattle.arrayvec.specs.ArrayVec.{array_vec_len};
ghost use Rattle.meaning_words.specs.Notes.{own_line};
ghost use Rattle.meaning_cta.specs.Audio.{format_number, format_name, extension_name, audio_name, channel_count, channels_text, rates_text, sizes_text, bit_rate_text, other_text, pcm_text, joint_rows, mat_rows, profile_rows, frame_rows, surround_rows, level_rows, extended_third, third_text, spare_first, spare_bits, spare_text, audio_text, audio_meanings};

use arrayvec::ArrayVec;
use edid_base::append;
use meaning_fields::{Field, FieldSays, append_fields, choices, field_rows};
use meaning_words::{
    Bit, NOTE, Note, PAGE, Page, append_between, append_counted, append_line, append_named_hex,
    append_spaced, bit_rows,
};

/// The format of linear PCM.
const LINEAR_PCM: u8 = 1;
/// The format that an extension reports.
const EXTENDED: u8 = 15;
/// The extension of MPEG-H 3D audio.
const MPEG_H: u8 = 11;
/// The extension of AC-4.
const AC4: u8 = 12;
/// The extension of linear PCM in three dimensions.
const LINEAR_PCM_3D: u8 = 13;
/// The format of Enhanced AC-3.
const ENHANCED_AC3: u8 = 10;
/// The format of MAT.
const MAT: u8 = 12;
/// The format of WMA Pro.
const WMA_PRO: u8 = 14;
/// A unit of the greatest bit rate, in kbit/s.
const BIT_RATE: u64 = 8;

const RATES: &[Bit] = bit_rows! {
    1 "32";
    2 "44.1";
    4 "48";
    8 "88.2";
    16 "96";
    32 "176.4";
    64 "192";
};

const SIZES: &[Bit] = bit_rows! {
    1 "16";
    2 "20";
    4 "24";
};

const JOINT: &[Field] = field_rows! {
    0 1 1 4 FieldSays::Words { before: "", texts: choices! { ""; ", joint object coding (Dolby Atmos)"; ", joint object coding with ACMOD 28 alone"; ", joint object coding (Dolby Atmos), also with ACMOD 28"; } };
    0 1 4 64 FieldSays::Hex(", reserved bits ");
};

const MATS: &[Field] = field_rows! {
    0 1 1 4 FieldSays::Words { before: "", texts: choices! { ", TrueHD alone"; ", objects and channels (Dolby Atmos), hash needed"; ", TrueHD alone"; ", objects and channels (Dolby Atmos), no hash needed"; } };
    0 1 4 64 FieldSays::Hex(", reserved bits ");
};

const PROFILES: &[Field] = field_rows! {
    0 1 1 8 FieldSays::Number { before: ", profile ", times: 1, plus: 0, after: "" };
    0 1 8 32 FieldSays::Hex(", reserved bits ");
};

const FRAMES: &[Field] = field_rows! {
    0 1 2 4 FieldSays::Words { before: "", texts: choices! { ""; ", frames of 960 samples"; ", frames of 1024 samples"; ", frames of 1024 and of 960 samples"; } };
    0 1 1 2 FieldSays::Hex(", reserved bits ");
};

const SURROUNDS: &[Field] = field_rows! {
    0 1 2 4 FieldSays::Words { before: "", texts: choices! { ""; ", frames of 960 samples"; ", frames of 1024 samples"; ", frames of 1024 and of 960 samples"; } };
    0 1 1 2 FieldSays::Words { before: "", texts: choices! { ", surround implicit"; ", surround implicit and explicit"; } };
};

const LEVELS: &[Field] = field_rows! {
    0 1 1 8 FieldSays::Words { before: ", level ", texts: choices! { ""; ", level 1"; ", level 2"; ", level 3"; ", level 4"; ", level 5"; } };
};

fn format_number(first: u8) -> u8
    ensures { result ≡ format_number first }
{
    first / 8 % 16
}

fn format_name(number: u8) -> &'static str
    ensures value { result.now ≡ format_name number }
    ensures short { length result.now ≤ 31 }
{
    match number {
        1 => "linear PCM",
        2 => "AC-3",
        3 => "MPEG-1",
        4 => "MP3",
        5 => "MPEG-2",
        6 => "AAC LC",
        7 => "DTS",
        8 => "ATRAC",
        9 => "One Bit Audio",
        10 => "Enhanced AC-3",
        11 => "DTS-HD",
        12 => "MAT",
        13 => "DST",
        14 => "WMA Pro",
        _ => "reserved",
    }
}

fn extension_name(number: u8) -> &'static str
    ensures value { result.now ≡ extension_name number }
    ensures short { length result.now ≤ 31 }
{
    match number {
        4 => "MPEG-4 HE AAC",
        5 => "MPEG-4 HE AAC v2",
        6 => "MPEG-4 AAC LC",
        7 => "DRA",
        8 => "MPEG-4 HE AAC and MPEG Surround",
        10 => "MPEG-4 AAC LC and MPEG Surround",
        11 => "MPEG-H 3D",
        12 => "AC-4",
        13 => "linear PCM 3D",
        14 => "Auro-Cx",
        15 => "MPEG-D USAC",
        _ => "reserved extension",
    }
}

fn audio_name(first: u8, third: u8) -> &'static str
    ensures value { result.now ≡ audio_name first third }
    ensures short { length result.now ≤ 31 }
{
    if format_number(first) == EXTENDED {
        extension_name(third / 8)
    } else {
        format_name(format_number(first))
    }
}

fn channel_count(first: u8, second: u8, third: u8) -> u8
    ensures { result ≡ channel_count first second third }
{
    if format_number(first) == EXTENDED && third / 8 == LINEAR_PCM_3D {
        second / 128 * 16 + first / 128 * 8 + first % 8 + 1
    } else {
        first % 8 + 1
    }
}

fn append_channels(note: &mut Note, first: u8, second: u8, third: u8)
    requires { array_vec_len note.old + 53 ≤ NOTE }
    ensures items { note.new.items ≡ note.old.items ++ channels_text first second third }
    ensures len { array_vec_len note.new ≤ array_vec_len note.old + 53 }
{
    if format_number(first) == EXTENDED && (third / 8 == MPEG_H || third / 8 == AC4) {
        return;
    }
    append(note, b", ");
    append_counted(
        note,
        u64::from(channel_count(first, second, third)),
        b" channel",
    );
}

fn append_rates(note: &mut Note, second: u8)
    requires { array_vec_len note.old + 285 ≤ NOTE }
    ensures items { note.new.items ≡ note.old.items ++ rates_text second }
    ensures len { array_vec_len note.new ≤ array_vec_len note.old + 285 }
{
    if second % 128 == 0 {
        return;
    }
    append(note, b", ");
    append_spaced(note, RATES, u32::from(second));
    append(note, b"kHz");
}

fn append_sizes(note: &mut Note, third: u8)
    requires { array_vec_len note.old + 126 ≤ NOTE }
    ensures items { note.new.items ≡ note.old.items ++ sizes_text third }
    ensures len { array_vec_len note.new ≤ array_vec_len note.old + 126 }
{
    if third % 8 == 0 {
        return;
    }
    append(note, b", ");
    append_spaced(note, SIZES, u32::from(third));
    append(note, b"bits");
}

fn append_bit_rate(note: &mut Note, third: u8)
    requires { array_vec_len note.old + 100 ≤ NOTE }
    ensures items { note.new.items ≡ note.old.items ++ bit_rate_text third }
    ensures len { array_vec_len note.new ≤ array_vec_len note.old + 35 }
{
    append_between(note, b", up to ", BIT_RATE * u64::from(third), b" kbit/s");
}

fn append_other(note: &mut Note, third: u8)
    requires { array_vec_len note.old + 42 ≤ NOTE }
    ensures items { note.new.items ≡ note.old.items ++ other_text third }
    ensures len { array_vec_len note.new ≤ array_vec_len note.old + 14 }
{
    append_named_hex(note, b", byte 3 is ", &[third]);
}

// Appends reserved bits of linear PCM.
fn append_pcm(note: &mut Note, third: u8)
    requires { array_vec_len note.old + 60 ≤ NOTE }
    ensures items { note.new.items ≡ note.old.items ++ pcm_text third }
    ensures len { array_vec_len note.new ≤ array_vec_len note.old + 18 }
{
    if third / 8 != 0 {
        append_named_hex(note, b", reserved bits ", &[third / 8 * 8]);
    }
}

fn append_pcm_third(note: &mut Note, third: u8)
    requires { array_vec_len note.old + 200 ≤ NOTE }
    ensures items { note.new.items ≡ note.old.items ++ (sizes_text third ++ pcm_text third) }
    ensures len { array_vec_len note.new ≤ array_vec_len note.old + 144 }
{
    append_sizes(note, third);
    append_pcm(note, third);
}

fn append_joint(note: &mut Note, third: u8)
    requires { array_vec_len note.old + 300 ≤ NOTE }
    ensures items { note.new.items ≡ note.old.items ++ field_words joint_rows (third ∷ []) }
    ensures len { array_vec_len note.new ≤ array_vec_len note.old + 120 }
{
    append_fields(note, JOINT, &[third]);
}

fn append_mat(note: &mut Note, third: u8)
    requires { array_vec_len note.old + 300 ≤ NOTE }
    ensures items { note.new.items ≡ note.old.items ++ field_words mat_rows (third ∷ []) }
    ensures len { array_vec_len note.new ≤ array_vec_len note.old + 120 }
{
    append_fields(note, MATS, &[third]);
}

fn append_profile(note: &mut Note, third: u8)
    requires { array_vec_len note.old + 300 ≤ NOTE }
    ensures items { note.new.items ≡ note.old.items ++ field_words profile_rows (third ∷ []) }
    ensures len { array_vec_len note.new ≤ array_vec_len note.old + 120 }
{
    append_fields(note, PROFILES, &[third]);
}

fn append_frames(note: &mut Note, third: u8)
    requires { array_vec_len note.old + 300 ≤ NOTE }
    ensures items { note.new.items ≡ note.old.items ++ field_words frame_rows (third ∷ []) }
    ensures len { array_vec_len note.new ≤ array_vec_len note.old + 120 }
{
    append_fields(note, FRAMES, &[third]);
}

fn append_surround(note: &mut Note, third: u8)
    requires { array_vec_len note.old + 300 ≤ NOTE }
    ensures items { note.new.items ≡ note.old.items ++ field_words surround_rows (third ∷ []) }
    ensures len { array_vec_len note.new ≤ array_vec_len note.old + 120 }
{
    append_fields(note, SURROUNDS, &[third]);
}

fn append_level(note: &mut Note, third: u8)
    requires { array_vec_len note.old + 300 ≤ NOTE }
    ensures items { note.new.items ≡ note.old.items ++ field_words level_rows (third ∷ []) }
    ensures len { array_vec_len note.new ≤ array_vec_len note.old + 60 }
{
    append_fields(note, LEVELS, &[third]);
}

fn append_extended_third(note: &mut Note, third: u8)
    requires { array_vec_len note.old + 300 ≤ NOTE }
    ensures items { note.new.items ≡ note.old.items ++ extended_third third }
    ensures len { array_vec_len note.new ≤ array_vec_len note.old + 144 }
{
    match third / 8 {
        4..=6 => append_frames(note, third),
        8 | 10 => append_surround(note, third),
        MPEG_H => append_level(note, third),
        LINEAR_PCM_3D => append_sizes(note, third),
        _ => append_other(note, third),
    }
}

fn append_third(note: &mut Note, first: u8, third: u8)
    requires { array_vec_len note.old + 300 ≤ NOTE }
    ensures items { note.new.items ≡ note.old.items ++ third_text first third }
    ensures len { array_vec_len note.new ≤ array_vec_len note.old + 144 }
{
    match format_number(first) {
        LINEAR_PCM => append_pcm_third(note, third),
        2..=8 => append_bit_rate(note, third),
        ENHANCED_AC3 => append_joint(note, third),
        MAT => append_mat(note, third),
        WMA_PRO => append_profile(note, third),
        EXTENDED => append_extended_third(note, third),
        _ => append_other(note, third),
    }
}

fn spare_first(first: u8, third: u8) -> u8
    ensures { result ≡ spare_first first third }
{
    if format_number(first) == EXTENDED && (third / 8 == MPEG_H || third / 8 == AC4) {
        first / 128 * 128 + first % 8
    } else {
        first / 128 * 128
    }
}

fn append_spare_bits(note: &mut Note, spare: u8, second: u8)
    requires { array_vec_len note.old + 60 ≤ NOTE }
    ensures items { note.new.items ≡ note.old.items ++ spare_bits spare second }
    ensures len { array_vec_len note.new ≤ array_vec_len note.old + 20 }
{
    if spare == 0 && second / 128 == 0 {
        return;
    }
    append_named_hex(note, b", reserved bits ", &[spare, second / 128 * 128]);
}

fn append_spare(note: &mut Note, first: u8, second: u8, third: u8)
    requires { array_vec_len note.old + 60 ≤ NOTE }
    ensures items { note.new.items ≡ note.old.items ++ spare_text first second third }
    ensures len { array_vec_len note.new ≤ array_vec_len note.old + 20 }
{
    if format_number(first) == EXTENDED && third / 8 == LINEAR_PCM_3D {
        return;
    }
    append_spare_bits(note, spare_first(first, third), second);
}

/// The words of a format of three bytes: its name, its channels, its sampling rates, and the sizes of its samples or its greatest bit
/// rate.
pub fn audio_note(first: u8, second: u8, third: u8) -> Note
    ensures value { result.items ≡ audio_text first second third }
    ensures len { array_vec_len result ≤ 533 }
{
    let mut note = ArrayVec::new();
    append(&mut note, audio_name(first, third).as_bytes());
    append_channels(&mut note, first, second, third);
    append_rates(&mut note, second);
    append_third(&mut note, first, third);
    append_spare(&mut note, first, second, third);
    note
}

/// Appends bytes that are less than a format.
fn append_left(page: &mut Page, bytes: &[u8])
    requires few { length bytes.now ≤ 2 }
    requires room { array_vec_len page.old + 14 ≤ PAGE }
    ensures { page.new.items ≡ page.old.items ++ own_line (codes "in hex " ++ encode_lower bytes.now) }
{
    let mut note = ArrayVec::new();
    append_named_hex(&mut note, b"in hex ", bytes);
    append_line(page, note.as_slice());
}

/// Appends a line for each format of an audio data block, of three bytes: the format, its channels, its sampling rates, and
/// the sizes of its samples or its greatest bit rate (CTA-861-G, section 7.5.2).
pub fn append_audio(page: &mut Page, payload: &[u8])
    requires { array_vec_len page.old + 188 * length payload.now ≤ PAGE }
    ensures { page.new.items ≡ page.old.items ++ flat_map own_line (audio_meanings payload.now) }
{
    match payload {
        [first, second, third, rest @ ..] => {
            append_line(page, audio_note(*first, *second, *third).as_slice());
            append_audio(page, rest);
        }
        [] => {}
        left => append_left(page, left),
    }
}
