//! Parts of a text.
ghost use Rattle.std.specs.Prelude.{◌≡◌, ◌+◌, ◌++◌, ◌<◌, ◌≤◌, ◌==◌, length, slice_index, take, drop, position};
ghost use Rattle.std.specs.List.{position_or_len};

use arrayvec::ArrayVec;

/// The byte at a place, or 0 past the end.
pub fn byte_at(text: &[u8], place: usize) -> u8
    ensures { result ≡ slice_index text.now place }
{
    if place < text.len() { text[place] } else { 0 }
}

/// The first bytes of a text.
pub fn before(text: &[u8], count: usize) -> &[u8]
    ensures { result.now ≡ take count text.now }
{
    if count < text.len() {
        &text[..count]
    } else {
        text
    }
}

/// A text without its first bytes.
pub fn after(text: &[u8], count: usize) -> &[u8]
    ensures { result.now ≡ drop count text.now }
{
    if count < text.len() {
        &text[count..]
    } else {
        &[]
    }
}

// Where a byte first stands.
pub(crate) fn position_of(text: &[u8], byte: u8) -> Option<usize>
    ensures { result ≡ position (λ b. b == byte) text.now }
{
    text.iter().position(|b| *b == byte)
}

/// How much of a text stands before the first byte of this value: all of it, where there is none.
#[tactic(auto, using(crate::proofs::LineLemmas::position_within))]
pub fn len_before(text: &[u8], byte: u8) -> usize
    ensures value { result ≡ position_or_len (λ b. b == byte) text.now }
    ensures within { result ≤ length text.now }
{
    match position_of(text, byte) {
        Some(place) => place,
        None => text.len(),
    }
}

/// One text after another.
pub fn joined(front: &[u8], back: &[u8]) -> ArrayVec<u8, 48>
    requires { length front.now + length back.now ≤ 48 }
    ensures { result.items ≡ front.now ++ back.now }
{
    let mut items = ArrayVec::new();
    let _ = items.try_extend_from_slice(front);
    let _ = items.try_extend_from_slice(back);
    items
}
