//! What the video input definition and the feature bits mean.
ghost use Rattle.std.specs.Prelude.{◌≡◌, ◌≤◌, ◌<◌, ◌+◌, ◌++◌, length, flat_map};
ghost use Rattle.arrayvec.specs.ArrayVec.{array_vec_len};
ghost use Rattle.meaning_words.specs.Notes.{own_line, set_words};
ghost use Rattle.edid_base.specs.declared.base.Revision.TheVariants.{Three, Four};
ghost use Rattle.meaning_base.specs.Inputs.{depth_text, interface_text, digital_words, level_text, analog_rows, analog_words, input_words, input_meanings, power_rows, encoding_text, colour_text, shades_text, use_rows, feature_words, feature_meanings};

use arrayvec::ArrayVec;
use edid_base::{Revision, append};
use meaning_words::{
    Bit, NOTE, Note, PAGE, Page, append_between, append_bits, append_word, append_words, bit_rows,
    byte_at, is_set,
};

/// Inputs from here on are digital.
const DIGITAL: u8 = 128;
/// The bit of a digital input of 1.3 that indicates DFP.
const DFP: u32 = 1;

const ANALOG: &[Bit] = bit_rows! {
    16 "blank-to-black setup";
    8 "separate sync";
    4 "composite sync";
    2 "sync on green";
    1 "serrated vertical sync";
};

const POWER: &[Bit] = bit_rows! {
    128 "standby";
    64 "suspend";
    32 "active off";
};

const USES_OF_THREE: &[Bit] = bit_rows! {
    4 "sRGB by default";
    2 "first timing preferred";
    1 "GTF";
};

const USES_OF_FOUR: &[Bit] = bit_rows! {
    4 "sRGB by default";
    2 "first timing native";
    1 "continuous frequency";
};

fn append_depth(note: &mut Note, depth: u8)
    requires few { depth < 8 }
    requires room { array_vec_len note.old + 100 ≤ NOTE }
    ensures items { note.new.items ≡ note.old.items ++ depth_text depth }
    ensures len { array_vec_len note.new ≤ array_vec_len note.old + 40 }
{
    match depth {
        0 => {}
        7 => append(note, b", reserved depth"),
        _ => append_between(note, b", ", 4 + 2 * u64::from(depth), b" bits a colour"),
    }
}

fn interface_text(interface: u8) -> &'static str
    ensures value { result.now ≡ interface_text interface }
    ensures short { length result.now ≤ 20 }
{
    match interface {
        0 => "",
        1 => ", DVI",
        2 => ", HDMI-a",
        3 => ", HDMI-b",
        4 => ", MDDI",
        5 => ", DisplayPort",
        _ => ", reserved interface",
    }
}

fn level_text(level: u8) -> &'static str
    ensures value { result.now ≡ level_text level }
    ensures short { length result.now ≤ 39 }
{
    match level {
        0 => ", analog, 0.700 V video, 0.300 V sync",
        1 => ", analog, 0.714 V video, 0.286 V sync",
        2 => ", analog, 1.000 V video, 0.400 V sync",
        _ => ", analog, 0.700 V video, 0.000 V sync",
    }
}

fn append_analog(note: &mut Note, bits: u32)
    requires { array_vec_len note.old + 200 ≤ NOTE }
    ensures items { note.new.items ≡ note.old.items ++ set_words analog_rows bits }
    ensures len { array_vec_len note.new ≤ array_vec_len note.old + 200 }
{
    append_bits(note, ANALOG, bits);
}

fn analog_note(input: u8) -> Note
    ensures value { result.items ≡ analog_words input }
    ensures len { array_vec_len result ≤ 239 }
{
    let mut words = ArrayVec::new();
    append(&mut words, level_text(input / 32 % 4).as_bytes());
    append_analog(&mut words, u32::from(input));
    words
}

fn digital_note(revision: Revision, input: u8) -> Note
    ensures value { result.items ≡ digital_words revision input }
    ensures len { array_vec_len result ≤ 239 }
{
    let mut words = ArrayVec::new();
    append(&mut words, b", digital");
    match revision {
        Revision::Three => {
            if is_set(u32::from(input), DFP) {
                append_word(&mut words, b"as DFP 1.x");
            }
        }
        Revision::Four => {
            append_depth(&mut words, input / 16 % 8);
            append(&mut words, interface_text(input % 16).as_bytes());
        }
    }
    words
}

fn input_note(revision: Revision, input: u8) -> Note
    ensures value { result.items ≡ input_words revision input }
    ensures len { array_vec_len result ≤ 239 }
{
    if input < DIGITAL {
        analog_note(input)
    } else {
        digital_note(revision, input)
    }
}

/// Appends what the video input definition means (E-EDID Release A, section 3.6.1).
#[tactic(auto, unfolding(crate::specs::Inputs::input_meanings))]
pub fn append_input(page: &mut Page, revision: Revision, bytes: &[u8])
    requires { array_vec_len page.old + 240 ≤ PAGE }
    ensures { page.new.items ≡ page.old.items ++ flat_map own_line (input_meanings revision bytes.now) }
{
    append_words(page, input_note(revision, byte_at(bytes, 0)).as_slice());
}

fn encoding_text(encoding: u8) -> &'static str
    ensures value { result.now ≡ encoding_text encoding }
    ensures short { length result.now ≤ 33 }
{
    match encoding {
        0 => ", RGB",
        1 => ", RGB, YCbCr 4:4:4",
        2 => ", RGB, YCbCr 4:2:2",
        _ => ", RGB, YCbCr 4:4:4, YCbCr 4:2:2",
    }
}

fn colour_text(colour: u8) -> &'static str
    ensures value { result.now ≡ colour_text colour }
    ensures short { length result.now ≤ 33 }
{
    match colour {
        0 => ", monochrome",
        1 => ", RGB colour",
        2 => ", other colour",
        _ => ", undefined colour",
    }
}

fn shades_text(revision: Revision, input: u8, features: u8) -> &'static str
    ensures value { result.now ≡ shades_text revision input features }
    ensures short { length result.now ≤ 33 }
{
    match revision {
        Revision::Three => colour_text(features / 8 % 4),
        Revision::Four if input < DIGITAL => colour_text(features / 8 % 4),
        Revision::Four => encoding_text(features / 8 % 4),
    }
}

fn append_power(note: &mut Note, bits: u32)
    requires { array_vec_len note.old + 120 ≤ NOTE }
    ensures items { note.new.items ≡ note.old.items ++ set_words power_rows bits }
    ensures len { array_vec_len note.new ≤ array_vec_len note.old + 120 }
{
    append_bits(note, POWER, bits);
}

fn append_uses_of_three(note: &mut Note, bits: u32)
    requires { array_vec_len note.old + 120 ≤ NOTE }
    ensures items { note.new.items ≡ note.old.items ++ set_words (use_rows Three) bits }
    ensures len { array_vec_len note.new ≤ array_vec_len note.old + 120 }
{
    append_bits(note, USES_OF_THREE, bits);
}

fn append_uses_of_four(note: &mut Note, bits: u32)
    requires { array_vec_len note.old + 120 ≤ NOTE }
    ensures items { note.new.items ≡ note.old.items ++ set_words (use_rows Four) bits }
    ensures len { array_vec_len note.new ≤ array_vec_len note.old + 120 }
{
    append_bits(note, USES_OF_FOUR, bits);
}

fn append_uses(note: &mut Note, revision: Revision, features: u8)
    requires { array_vec_len note.old + 120 ≤ NOTE }
    ensures items { note.new.items ≡ note.old.items ++ set_words (use_rows revision) features }
    ensures len { array_vec_len note.new ≤ array_vec_len note.old + 120 }
{
    match revision {
        Revision::Three => append_uses_of_three(note, u32::from(features)),
        Revision::Four => append_uses_of_four(note, u32::from(features)),
    }
}

fn feature_note(revision: Revision, input: u8, features: u8) -> Note
    ensures value { result.items ≡ feature_words revision input features }
    ensures len { array_vec_len result ≤ 273 }
{
    let mut words = ArrayVec::new();
    append_power(&mut words, u32::from(features));
    append(
        &mut words,
        shades_text(revision, input, features).as_bytes(),
    );
    append_uses(&mut words, revision, features);
    words
}

/// Appends what the feature bits mean, of a display with this video input definition (E-EDID Release A, section 3.6.4).
#[tactic(auto, unfolding(crate::specs::Inputs::feature_meanings))]
pub fn append_features(page: &mut Page, revision: Revision, input: u8, bytes: &[u8])
    requires { array_vec_len page.old + 274 ≤ PAGE }
    ensures { page.new.items ≡ page.old.items ++ flat_map own_line (feature_meanings revision input bytes.now) }
{
    append_words(
        page,
        feature_note(revision, input, byte_at(bytes, 0)).as_slice(),
    );
}
