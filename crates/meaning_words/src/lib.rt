//! What the parts of an EDID mean, as lines below the lines of its text: how such lines are made of words, bits and numbers,
//! and what timings and video codes mean.
//!
//! To say what one more kind of line means:
//!
//! 1. In a crate over this one, a definition from the line's payload to the texts below it, in the standard's terms:
//!    `x_meanings : List ℕ → List (List ℕ)`. A line of words is `below words`, where `words` is `comma word`, `when test word`
//!    and `set_words rows bits` one after another: each word has a comma and a space before it. Characters need no care: a
//!    line is written with a dot for each byte that is no character of ASCII.
//! 2. The function that appends them, whose clause is the definition,
//!    `page.new.items ≡ page.old.items ++ flat_map indented (x_meanings payload.now)`, and which requires room for them. It
//!    fills a `Note` by `append_word`, `append_between` and `append_bits`, and hands that to `append_words` or `append_line`;
//!    `append_video` and `append_timing` are examples. A table of bits is a constant of `bit_rows!`, in a function of its own
//!    whose clause names the definition's rows and whose answer is `c.append_bits.ensures.items`. Where lines follow lines,
//!    `joined` of proofs/Joins.antt is the answer.
//! 3. An arm in the crate that writes the lines.
#![tactic(auto)]

mod bits;
mod formats;
mod laws;
mod notes;
mod parts;
mod rates;
mod timings;
mod videos;

pub use bits::{Bit, append_bit_lines, append_bits, append_spaced, is_set};
pub use formats::{Aspect, VideoFormat, format_of};
pub use laws::{lines_join, nearest_is_one};
pub use notes::{
    NOTE, Note, PAGE, Page, append_between, append_counted, append_decimal, append_digit,
    append_hex, append_hundredths, append_line, append_named_hex, append_rest, append_thousandths,
    append_word, append_words,
};
pub use parts::{after, before, byte_at};
pub use rates::nearest;
pub use timings::append_timing;
pub use videos::{append_code, append_video};
