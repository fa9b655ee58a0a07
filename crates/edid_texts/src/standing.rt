//! Which lines may stand somewhere, by their words, and which word of theirs is at fault.
ghost use Rattle.std.specs.Prelude.{◌≡◌, ◌+◌, ◌-◌, ◌<◌, ◌^◌, Some, IfSome, MatchOption, length};
ghost use Rattle.edid_texts.specs.Refusal.{first_word, word_count, MayStand, IsFieldFault};
ghost use Rattle.edid_text_lines.specs.Text.{word_text};
ghost use Rattle.edid_text_lines.specs.declared.line.Keyword.{Keyword as WordValue};

use crate::fields::unfit_word;
use crate::place::{NextLine, has_words, may_begin};
use edid_text_lines::{Keyword, space_in, word_of};
use text_core::spaces_unquoted;

/// What stands before the first space.
fn first_word(front: &[u8]) -> &[u8]
    ensures { result.now ≡ first_word front.now }
{
    match space_in(front) {
        None => front,
        Some(end) => &front[..end],
    }
}

/// The first word of a line.
fn read_word(front: &[u8]) -> Option<Keyword>
    ensures found { IfSome result (λ w. word_text w ≡ first_word front.now) }
    ensures only { (w : WordValue) → word_text w ≡ first_word front.now → result ≡ Some w }
{
    word_of(first_word(front))
}

/// How many words a line has. A quote and all after it are one.
fn count_words(front: &[u8]) -> usize
    requires { length front.now + 1 < 2 ^ 64 }
    ensures { result ≡ word_count front.now }
{
    spaces_unquoted(front) + 1
}

/// The word at fault of a line, where an accepted text can have one here with the same first word and as many words.
pub fn word_at_fault(place: NextLine, line: &[u8]) -> Option<usize>
    ensures { MatchOption result (MayStand place line.now → ⊥) (λ k. IsFieldFault place line.now k) }
{
    if line.is_empty() || line[line.len() - 1] != b'\n' {
        return None;
    }
    let front = &line[..line.len() - 1];
    let Some(word) = read_word(front) else {
        return None;
    };
    let count = count_words(front);
    if may_begin(place, word) && has_words(word.form(), count) {
        Some(unfit_word(word, front, count))
    } else {
        None
    }
}
