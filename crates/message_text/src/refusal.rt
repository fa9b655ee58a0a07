//! Why a text is no frame's.
ghost use Rattle.std.specs.Prelude.{◌≡◌, ◌≤◌, ◌<◌, ◌==◌, length};
ghost use Rattle.std.specs.List.{position_or_len};
ghost use Rattle.text_core.specs.Phys.{is_hex_digit};
ghost use Rattle.message_text.specs.Refusals.{IsRefused, are_addresses, first_word_len, has_addresses, has_count, is_quote, is_too_long, least_words, most_words};

use crate::assembler::AssembleError;
use crate::reading::{opcode_named, word_len};
use message_table::{Operands, operands_of};
use text_core::{after, before, byte_at, is_hex_digit, len_before, spaces_unquoted};

fn are_addresses(text: &[u8]) -> bool
    ensures { result ≡ are_addresses text.now }
{
    match text {
        [from, sign, to] => is_hex_digit(*from) && *sign == b'>' && is_hex_digit(*to),
        _ => false,
    }
}

/// Whether a text begins with an initiator and a destination.
fn has_addresses(text: &[u8]) -> bool
    ensures { result ≡ has_addresses text.now }
{
    are_addresses(before(text, word_len(text)))
}

/// Where the first quote stands, or the end.
fn unquoted_len(text: &[u8]) -> usize
    ensures value { result ≡ position_or_len is_quote text.now }
    ensures within { result ≤ length text.now }
{
    len_before(text, b'"')
}

fn first_word_len(text: &[u8]) -> usize
    ensures { result ≡ first_word_len text.now }
{
    let end = word_len(text);
    if end < unquoted_len(text) {
        return end;
    }
    text.len()
}

/// Whether there are too many raw operands.
fn is_too_long(text: &[u8]) -> bool
    ensures { result ≡ is_too_long text.now }
{
    if byte_at(text, 1) != b':' {
        return false;
    }
    first_word_len(after(text, 1)) > 29
}

fn least_words(form: Operands) -> usize
    ensures { result ≡ least_words form }
{
    match form {
        Operands::Nothing | Operands::Optional(_) => 0,
        Operands::Raw | Operands::One(_) | Operands::Text | Operands::WordAndText(_) => 1,
        Operands::Two(_, _) | Operands::Volume => 2,
    }
}

fn most_words(form: Operands) -> usize
    ensures { result ≡ most_words form }
{
    match form {
        Operands::WordAndText(_) => 2,
        Operands::Optional(_) => 1,
        _ => least_words(form),
    }
}

/// Whether there are as many words as a row may have, or one that begins with a colon.
fn has_count(form: Operands, text: &[u8]) -> bool
    ensures { result ≡ has_count form text.now }
{
    let count = spaces_unquoted(text);
    if count == 1 && byte_at(text, 1) == b':' {
        return true;
    }
    least_words(form) <= count && count <= most_words(form)
}

/// Why a text is refused, the first reason.
pub(crate) fn cause(text: &[u8]) -> AssembleError
    ensures { IsRefused text.now result }
{
    if !has_addresses(text) {
        return AssembleError::Address;
    }
    let words = after(text, 4);
    let end = word_len(words);
    let Some(code) = opcode_named(before(words, end)) else {
        return AssembleError::Name;
    };
    let operands = after(words, end);
    if is_too_long(operands) {
        return AssembleError::TooLong;
    }
    if !has_count(operands_of(code), operands) {
        return AssembleError::Count;
    }
    AssembleError::Operand
}
