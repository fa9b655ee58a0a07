//! The bits of readings that are not complete, and which words of patterns they meet.
ghost use Rattle.std.specs.Prelude.{◌≡◌, ◌+◌, ◌≤◌, IfSome};
ghost use Rattle.expect_text.specs.Bits.{are_stars, fewest, first_place, is_eom, is_word_met, may_have, meets_bits, most, stands};

use crate::pattern::fits;
use line_frames::Ending;

/// The bits of sixteen blocks, the most of a reading.
const WHOLE: usize = 160;

/// The bits of a block.
const BLOCK: usize = 10;

/// The place of the end-of-message bit in its block.
const EOM: usize = 8;

// The fewest bits of a reading with this ending.
fn fewest(ending: Ending) -> usize
    ensures { result ≡ fewest ending }
{
    match ending {
        Ending::Silent => 1,
        Ending::Long => WHOLE,
        Ending::Short | Ending::BadStart | Ending::Complete | Ending::Open => 0,
    }
}

// The most bits of a reading with this ending.
fn most(ending: Ending) -> usize
    ensures value { result ≡ most ending }
    ensures few { result ≤ 160 }
{
    match ending {
        Ending::BadStart => 0,
        Ending::Long => WHOLE,
        Ending::Short | Ending::Silent | Ending::Complete | Ending::Open => WHOLE - 1,
    }
}

fn is_eom(place: usize) -> bool
    ensures { result ≡ is_eom place }
{
    place % BLOCK == EOM
}

// Whether a reading with this ending can have so many bits, one or more.
fn may_have(ending: Ending, count: usize) -> bool
    ensures { result ≡ may_have ending count }
{
    1 <= count && fewest(ending) <= count && count <= most(ending)
}

fn are_stars(word: &[u8]) -> bool
    ensures { result ≡ are_stars word.now }
{
    match word {
        [] => true,
        [byte, rest @ ..] => *byte == b'*' && are_stars(rest),
    }
}

// Whether the digits of a word can be bits from a place on, as far as its first star.
fn stands(ending: Ending, place: usize, word: &[u8]) -> bool
    ensures { result ≡ stands ending place word.now }
{
    match word {
        [] => may_have(ending, place),
        [b'*', ..] => true,
        [b'0', rest @ ..] => place < most(ending) && stands(ending, place + 1, rest),
        [b'1', rest @ ..] => {
            place < most(ending)
                && if is_eom(place) {
                    are_stars(rest) && may_have(ending, place + 1)
                } else {
                    stands(ending, place + 1, rest)
                }
        }
        [_, ..] => false,
    }
}

// The first of so many places from which they can.
fn first_place(ending: Ending, place: usize, count: usize, word: &[u8]) -> Option<usize>
    requires { place + count ≤ 161 }
    ensures value { result ≡ first_place ending place count word.now }
    ensures within { IfSome result (λ found. found ≤ 160) }
{
    if count == 0 {
        return None;
    }
    if stands(ending, place, word) {
        return Some(place);
    }
    first_place(ending, place + 1, count - 1, word)
}

// Whether bits from a place on meet a word.
fn meets_bits(ending: Ending, place: usize, word: &[u8]) -> bool
    requires { place ≤ 160 }
    ensures { result ≡ meets_bits ending place word.now }
{
    match word {
        [] => may_have(ending, place),
        [b'*', rest @ ..] => {
            let count = (most(ending) + 1).saturating_sub(place);
            match first_place(ending, place, count, rest) {
                None => false,
                Some(found) => meets_bits(ending, found, rest),
            }
        }
        [b'0', rest @ ..] => place < most(ending) && meets_bits(ending, place + 1, rest),
        [b'1', rest @ ..] => {
            place < most(ending)
                && if is_eom(place) {
                    are_stars(rest) && may_have(ending, place + 1)
                } else {
                    meets_bits(ending, place + 1, rest)
                }
        }
        [_, ..] => false,
    }
}

/// Whether what is shown of the bits of a reading with this ending meets a word.
#[tactic(auto, unfolding(crate::specs::Bits::is_word_met))]
pub(crate) fn is_word_met(ending: Ending, word: &[u8]) -> bool
    ensures { result ≡ is_word_met ending word.now }
{
    (fewest(ending) == 0 && fits(word, b"-")) || meets_bits(ending, 0, word)
}
