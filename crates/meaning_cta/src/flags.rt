//! What the flags of a CTA extension mean.
ghost use Rattle.std.specs.Prelude.{◌≡◌, ◌≤◌, ◌+◌, ◌++◌, flat_map};
ghost use Rattle.arrayvec.specs.ArrayVec.{array_vec_len};
ghost use Rattle.meaning_words.specs.Notes.{own_line, set_words};
ghost use Rattle.meaning_cta.specs.Flags.{flag_rows, flag_words, flag_meanings};

use arrayvec::ArrayVec;
use edid_base::append;
use meaning_words::{
    Bit, NOTE, Note, PAGE, Page, append_bits, append_counted, append_words, bit_rows, byte_at,
};

const FLAGS: &[Bit] = bit_rows! {
    128 "underscans";
    64 "basic audio";
    32 "YCbCr 4:4:4";
    16 "YCbCr 4:2:2";
};

fn append_flag_bits(note: &mut Note, bits: u32)
    requires { array_vec_len note.old + 160 ≤ NOTE }
    ensures items { note.new.items ≡ note.old.items ++ set_words flag_rows bits }
    ensures len { array_vec_len note.new ≤ array_vec_len note.old + 160 }
{
    append_bits(note, FLAGS, bits);
}

fn flag_note(flags: u8) -> Note
    ensures value { result.items ≡ flag_words flags }
    ensures len { array_vec_len result ≤ 213 }
{
    let mut words = ArrayVec::new();
    append_flag_bits(&mut words, u32::from(flags));
    append(&mut words, b", ");
    append_counted(&mut words, u64::from(flags % 16), b" native timing");
    words
}

/// Appends what the flags of a CTA extension mean, which are its byte 3 (CTA-861-G, section 7.5).
#[tactic(auto, unfolding(crate::specs::Flags::flag_meanings))]
pub fn append_flags(page: &mut Page, payload: &[u8])
    requires { array_vec_len page.old + 214 ≤ PAGE }
    ensures { page.new.items ≡ page.old.items ++ flat_map own_line (flag_meanings payload.now) }
{
    append_words(page, flag_note(byte_at(payload, 0)).as_slice());
}
