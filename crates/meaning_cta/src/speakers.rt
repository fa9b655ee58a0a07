//! What the bytes of a speaker allocation data block mean.
ghost use Rattle.std.specs.Prelude.{◌≡◌, ◌≤◌, ◌+◌, ◌*◌, ◌++◌, length, flat_map};
ghost use Rattle.arrayvec.specs.ArrayVec.{array_vec_len};
ghost use Rattle.meaning_words.specs.Notes.{own_line, set_words};
ghost use Rattle.meaning_cta.specs.Speakers.{speaker_rows, speaker_bits, speaker_words, speaker_meanings};

use arrayvec::ArrayVec;
use meaning_words::{
    Bit, NOTE, Note, PAGE, Page, after, append_bits, append_rest, append_words, bit_rows, byte_at,
};

const SPEAKERS: &[Bit] = bit_rows! {
    1 "FL FR";
    2 "LFE";
    4 "FC";
    8 "BL BR";
    16 "BC";
    32 "FLc FRc";
    64 "RLC RRC";
    128 "FLw FRw";
    256 "TpFL TpFR";
    512 "TpC";
    1024 "TpFC";
    2048 "LS RS";
    4096 "LFE2";
    8192 "TpBC";
    16384 "SiL SiR";
    32768 "TpSiL TpSiR";
    65536 "TpBL TpBR";
    131072 "BtFC";
    262144 "BtFL BtFR";
    524288 "TpLS TpRS";
    1048576 "LSd RSd";
    2097152 "reserved speaker 21";
    4194304 "reserved speaker 22";
    8388608 "reserved speaker 23";
};

fn speaker_bits(payload: &[u8]) -> u32
    ensures { result ≡ speaker_bits payload.now }
{
    u32::from(byte_at(payload, 0))
        + u32::from(byte_at(payload, 1)) * 256
        + u32::from(byte_at(payload, 2)) * 65536
}

fn append_speaker_bits(note: &mut Note, bits: u32)
    requires { array_vec_len note.old + 960 ≤ NOTE }
    ensures items { note.new.items ≡ note.old.items ++ set_words speaker_rows bits }
    ensures len { array_vec_len note.new ≤ array_vec_len note.old + 960 }
{
    append_bits(note, SPEAKERS, bits);
}

/// The words of speakers, each with a comma and a space before it.
pub fn speaker_note(payload: &[u8]) -> Note
    requires { length payload.now ≤ 128 }
    ensures value { result.items ≡ speaker_words payload.now }
    ensures len { array_vec_len result ≤ 1230 }
{
    let mut words = ArrayVec::new();
    append_speaker_bits(&mut words, speaker_bits(payload));
    append_rest(&mut words, after(payload, 3));
    words
}

/// Appends the speakers of a speaker allocation data block (CTA-861-G, section 7.5.3).
#[tactic(auto, unfolding(crate::specs::Speakers::speaker_meanings))]
pub fn append_speakers(page: &mut Page, payload: &[u8])
    requires few { length payload.now ≤ 128 }
    requires room { array_vec_len page.old + 1231 ≤ PAGE }
    ensures { page.new.items ≡ page.old.items ++ flat_map own_line (speaker_meanings payload.now) }
{
    append_words(page, speaker_note(payload).as_slice());
}
