//! A speaker allocation data block in words.
ghost use Rattle.std.specs.Prelude.{◌≡◌, ◌/◌, ◌%◌, [], ◌∷◌, MatchResult, Ok, Err};
ghost use Rattle.std.specs.Option.{option_copied};
ghost use Rattle.text_core.specs.Words.{words_after};
ghost use Rattle.edid_spelling.specs.Rows.{bits_of};
ghost use Rattle.edid_spelling.specs.Speakers.{speaker_rows, speakers_of};

use crate::rows::{Named, bits_in, named_rows};
use arrayvec::ArrayVec;

const SPEAKERS: &[Named] = named_rows! {
    "FL/FR" 1;
    "LFE" 2;
    "FC" 4;
    "BL/BR" 8;
    "BC" 16;
    "FLc/FRc" 32;
    "RLC/RRC" 64;
    "FLw/FRw" 128;
    "TpFL/TpFR" 256;
    "TpC" 512;
    "TpFC" 1024;
    "LS/RS" 2048;
    "LFE2" 4096;
    "TpBC" 8192;
    "SiL/SiR" 16384;
    "TpSiL/TpSiR" 32768;
    "TpBL/TpBR" 65536;
    "BtFC" 131072;
    "BtFL/BtFR" 262144;
    "TpLS/TpRS" 524288;
    "LSd/RSd" 1048576;
};

// The bits of the words that are left.
#[tactic(auto, unfolding(crate::specs::Speakers::speaker_rows))]
fn speaker_bits(rest: Option<&[u8]>) -> Result<u32, usize>
    ensures { result ≡ bits_of speaker_rows 1 (words_after (option_copied rest.entry)) }
{
    bits_in(SPEAKERS, b' ', 1, rest)
}

fn three_bytes(bits: u32) -> ArrayVec<u8, 128>
    ensures { result.items ≡ bits % 256 ∷ bits / 256 % 256 ∷ bits / 65536 % 256 ∷ [] }
{
    let mut payload = ArrayVec::new();
    payload.push((bits % 256) as u8);
    payload.push((bits / 256 % 256) as u8);
    payload.push((bits / 65536 % 256) as u8);
    payload
}

// The bytes of the words that are left, or the number of the word at fault.
pub(crate) fn speakers_in(rest: Option<&[u8]>) -> Result<ArrayVec<u8, 128>, usize>
    ensures { MatchResult result (λ p. speakers_of (words_after (option_copied rest.entry)) ≡ Ok p.items) (λ k. speakers_of (words_after (option_copied rest.entry)) ≡ Err k) }
{
    match speaker_bits(rest) {
        Ok(bits) => Ok(three_bytes(bits)),
        Err(number) => Err(number),
    }
}
