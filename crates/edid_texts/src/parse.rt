//! Reading an EDID's text.
ghost use Rattle.std.specs.Prelude.{◌≡◌, ◌<◌, ◌+◌, [], ◌∷◌, IfOk, IfErr, IfSome, Ok, MatchOption, length, position, ◌==◌};
ghost use Rattle.edid_texts.specs.Lines.{edid_text};
ghost use Rattle.edid_texts.specs.Cut.{lines_with_feeds};
ghost use Rattle.edid_core.specs.declared.edid.Edid.{Edid as EdidValue};
ghost use Rattle.edid_texts.specs.Refusal.{IsRefusal, IsFaultAt};

use crate::draft::EdidDraft;
use crate::place::NextLine;
use crate::standing::word_at_fault;
use edid_core::Edid;
use edid_text_lines::read_line;
use std::alloc::Global;
use thiserror::Error;

/// Why a text is none of an EDID: the line, from 1, that no accepted text has there.
#[derive(Clone, Copy, Debug, PartialEq, Eq, Error)]
pub enum TextError {
    /// Another line would have to stand there.
    #[error("syntax {0}")]
    Syntax(usize),
    /// The line's first word may stand there with so many words, and a word after it is at fault, by its number from 0.
    #[error("field {line}")]
    Field { line: usize, word: usize },
    /// There was no memory.
    #[error("no memory")]
    Memory,
}

/// The fault of a line that no accepted text has here.
fn fault(place: NextLine, line: &[u8], number: usize) -> TextError
    ensures { IsFaultAt place line.now number result }
{
    match word_at_fault(place, line) {
        Some(word) => TextError::Field { line: number, word },
        None => TextError::Syntax(number),
    }
}

/// Where the first line feed stands.
fn end_of(text: &[u8]) -> Option<usize>
    ensures { result ≡ position (λ b. b == 10) text.now }
{
    text.iter().position(|byte| *byte == b'\n')
}

/// The first line with its line feed, if it has one, and the text after it. An empty text has none.
pub fn first_line(text: &[u8]) -> Option<(&[u8], &[u8])>
    ensures lines { MatchOption result (lines_with_feeds text.now ≡ []) (λ p. lines_with_feeds text.now ≡ p.0.now ∷ lines_with_feeds p.1.now) }
    ensures shorter { IfSome result (λ p. length p.1.now < length text.now) }
{
    if text.is_empty() {
        return None;
    }
    match end_of(text) {
        None => Some((text, &[])),
        Some(end) => Some((&text[..end + 1], &text[end + 1..])),
    }
}

/// The EDID that a text gives, or the first line at fault. A text that ends too early is at fault on
/// the line after its last.
pub fn parse_text(_alloc: Global, text: &[u8]) -> Result<Edid, TextError>
    ensures found { IfOk result (λ e. edid_text e ≡ text.now) }
    ensures only { (e : EdidValue) → text.now ≡ edid_text e → result ≡ Ok e }
    ensures refused { IfErr result (λ e. IsRefusal (lines_with_feeds text.now) e) }
{
    let mut draft = EdidDraft::new();
    let mut rest = text;
    let mut number = 1;
    while let Some((line, more)) = first_line(rest) {
        let place = draft.place();
        let Some(read) = read_line(line) else {
            return Err(fault(place, line, number));
        };
        if !draft.put(&read) {
            return Err(fault(place, line, number));
        }
        rest = more;
        number += 1;
    }
    if !draft.is_whole() {
        return Err(TextError::Syntax(number));
    }
    Ok(draft.finish())
}
