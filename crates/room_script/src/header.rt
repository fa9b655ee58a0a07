//! Headers of frames in which names stand for addresses.
ghost use Rattle.std.specs.Prelude.{◌≡◌, ◌∷◌, [], IfOk, OnOk};
ghost use Rattle.std.specs.Option.{option_copied};
ghost use Rattle.text_core.specs.Words.{text_of, words_after, words_of};
ghost use Rattle.room_script.specs.Header.{destination_part, device_of, digit_of, digits_of, has_names, header_names, initiator_part, is_named, is_part, names_by};

use edid_tree::Tree;
use room_event::HeaderNames;
use std::alloc::{AllocError, Global};
use text_core::{after, before, byte_at, is_hex_digit, len_before};

fn is_named(part: &[u8]) -> bool
    ensures { result ≡ is_named part.now }
{
    byte_at(part, 0) == b'@'
}

fn is_part(part: &[u8]) -> bool
    ensures { result ≡ is_part part.now }
{
    is_named(part) || part.len() == 1 && is_hex_digit(byte_at(part, 0))
}

fn initiator_part(word: &[u8]) -> &[u8]
    ensures { result.now ≡ initiator_part word.now }
{
    before(word, len_before(word, b'>'))
}

fn destination_part(word: &[u8]) -> &[u8]
    ensures { result.now ≡ destination_part word.now }
{
    after(word, len_before(word, b'>') + 1)
}

/// Whether this is a header with a name in it at least: `PART>PART`, where a part is a hex digit or `@NAME`.
pub fn has_names(word: &[u8]) -> bool
    ensures { result ≡ has_names word.now }
{
    let initiator = initiator_part(word);
    let destination = destination_part(word);
    is_part(initiator) && is_part(destination) && (is_named(initiator) || is_named(destination))
}

fn digit_of(part: &[u8]) -> u8
    ensures { result ≡ digit_of part.now }
{
    if is_named(part) {
        b'0'
    } else {
        byte_at(part, 0)
    }
}

fn device_of(tree: &Tree<15>, part: &[u8]) -> Option<Option<usize>>
    ensures { result ≡ device_of tree.now part.now }
{
    if !is_named(part) {
        return Some(None);
    }
    match tree.device_named(after(part, 1)) {
        None => None,
        Some(device) => Some(Some(device)),
    }
}

fn names_by(
    initiator: Option<Option<usize>>,
    destination: Option<Option<usize>>,
) -> Option<Option<HeaderNames>>
    ensures { result ≡ names_by initiator destination }
{
    let initiator = initiator?;
    let destination = destination?;
    Some(Some(HeaderNames {
        initiator,
        destination,
    }))
}

/// The devices that a header names, where it has names; None where no device has one of them.
pub fn header_names(tree: &Tree<15>, word: &[u8]) -> Option<Option<HeaderNames>>
    ensures { result ≡ header_names tree.now word.now }
{
    if !has_names(word) {
        return Some(None);
    }
    names_by(
        device_of(tree, initiator_part(word)),
        device_of(tree, destination_part(word)),
    )
}

/// Adds words to a first one.
#[tactic(auto, using(crate::proofs::Reading::text_added))]
fn add_words(text: &mut Vec<u8>, words: &[u8]) -> Result<(), AllocError>
    ensures { OnOk result (text.new.items ≡ text_of (text.old.items ∷ words_of words.now)) }
{
    text.push(b' ')?;
    text.extend_from_slice(words)?;
    Ok(())
}

fn add_others(text: &mut Vec<u8>, others: Option<&[u8]>) -> Result<(), AllocError>
    ensures { OnOk result (text.new.items ≡ text_of (text.old.items ∷ words_after (option_copied others.entry))) }
{
    match others {
        None => Ok(()),
        Some(words) => add_words(text, words),
    }
}

/// The text of a frame whose header has names, with 0 in the place of each.
pub fn text_with_digits(
    alloc: Global,
    word: &[u8],
    others: Option<&[u8]>,
) -> Result<Vec<u8>, AllocError>
    ensures { IfOk result (λ text. text.items ≡ text_of (digits_of word.now ∷ words_after (option_copied others.entry))) }
{
    let mut text = Vec::new(alloc);
    text.push(digit_of(initiator_part(word)))?;
    text.push(b'>')?;
    text.push(digit_of(destination_part(word)))?;
    add_others(&mut text, others)?;
    Ok(text)
}
