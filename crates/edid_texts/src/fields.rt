//! What the words of a line may be, each by itself.
ghost use Rattle.std.specs.Prelude.{◌≡◌, ℕ, ◌-◌, ◌<◌, ◌^◌, get_or, true, Some, IfSome, MatchBool};
ghost use Rattle.std.specs.Fmt.{decimal};
ghost use Rattle.text_core.specs.Piece.{phys_text};
ghost use Rattle.text_core.specs.declared.phys.Phys.{Phys as PhysValue};
ghost use Rattle.edid_texts.specs.Refusal.{word_count, IsFirstUnfit};
ghost use Rattle.edid_texts.specs.Words.{timing_most, number_fits, FitsAt};

use edid_text_lines::{Keyword, read_number};
use text_core::{Phys, first_word};

/// The greatest numbers of a detailed timing.
const TIMING_MOST: &[u32] = &[
    65535, 4095, 4095, 4095, 4095, 1023, 1023, 63, 63, 4095, 4095, 255, 255,
];

/// The greatest number of a detailed timing as the word of this number.
fn most_of_timing(index: usize) -> u32
    ensures { result ≡ get_or timing_most (index - 1) 0 }
{
    match TIMING_MOST.get(index.saturating_sub(1)) {
        Some(most) => *most,
        None => 0,
    }
}

/// Whether a detailed timing has a number as the word of this number.
fn timing_fits(index: usize, number: u32) -> bool
    ensures { result ≡ number_fits Keyword.Timing index number }
{
    let most = most_of_timing(index);
    let least = if index == 1 { 1 } else { 0 };
    least <= number && number <= most
}

/// Whether a standard timing has a number as the word of this number.
fn standard_fits(index: usize, number: u32) -> bool
    ensures { result ≡ number_fits Keyword.Standard index number }
{
    if index == 1 {
        248 <= number && number <= 2288 && number % 8 == 0
    } else {
        number <= 3
    }
}

/// Whether a line has a number as the word of this number, where that is not its last one.
fn number_fits(word: Keyword, index: usize, number: u32) -> bool
    ensures { result ≡ number_fits word index number }
{
    match word {
        Keyword::Made => number <= 255,
        Keyword::Size => number <= 255,
        Keyword::Chroma => number <= 1023,
        Keyword::Standard => standard_fits(index, number),
        Keyword::Timing => timing_fits(index, number),
        _ => false,
    }
}

/// The number that a text is in decimal digits.
fn number_of(text: &[u8]) -> Option<u32>
    ensures found { IfSome result (λ n. decimal n ≡ text.now) }
    ensures only { (n : ℕ) → n < 2 ^ 32 → decimal n ≡ text.now → result ≡ Some n }
{
    let Some(number) = read_number(text) else {
        return None;
    };
    let mut digits = itoa::Buffer::new();
    if digits.format(number).as_bytes() == text {
        Some(number)
    } else {
        None
    }
}

/// Whether a line has a text as the word of this number, where that is a number and not its last word.
fn is_number_at(word: Keyword, index: usize, text: &[u8]) -> bool
    ensures { MatchBool result
        ((n : ℕ) × ((decimal n ≡ text.now) × (number_fits word index n ≡ true)))
        ((n : ℕ) → decimal n ≡ text.now → number_fits word index n ≡ true → ⊥) }
{
    match number_of(text) {
        Some(number) => number_fits(word, index, number),
        None => false,
    }
}

/// Whether a text is a physical address.
fn is_address(text: &[u8]) -> bool
    ensures { MatchBool result
        ((p : PhysValue) × ((p.high < 256) × ((p.low < 256) × (phys_text p ≡ text.now))))
        ((p : PhysValue) → p.high < 256 → p.low < 256 → phys_text p ≡ text.now → ⊥) }
{
    match Phys::read(text) {
        Some(_) => true,
        None => false,
    }
}

/// Whether a line has a text as the word of this number, where that is not its last one.
fn fits_at(word: Keyword, index: usize, text: &[u8]) -> bool
    ensures { MatchBool result (FitsAt word index text.now) (FitsAt word index text.now → ⊥) }
{
    if word == Keyword::Hdmi {
        is_address(text)
    } else {
        is_number_at(word, index, text)
    }
}

/// The first word after the first that may not stand in a line of so many words, or else the last one.
pub fn unfit_word(word: Keyword, front: &[u8], count: usize) -> usize
    requires { count ≡ word_count front.now }
    ensures { IsFirstUnfit word front.now result }
{
    let (_, mut rest) = first_word(front);
    let mut index = 1;
    'words: while index + 1 < count {
        let Some(text) = rest else {
            return index;
        };
        let (field, more) = first_word(text);
        if !fits_at(word, index, field) {
            return index;
        }
        rest = more;
        index += 1;
    }
    index
}
