//! The range of a script, and the script at an instant of it.
ghost use Rattle.std.specs.Prelude.{◌≡◌, ◌++◌, ◌&&◌, Ok, Err, Some, None, IfOk, OnOk};
ghost use Rattle.std.specs.Option.{option_copied};
ghost use Rattle.text_core.specs.Words.{words_after, words_of};
ghost use Rattle.expect_sweep.specs.Script.{has_range, is_range_at, line_at, mark_before, range_of, script_at, with_range, with_word, word_at, words_ranged};

use crate::places::WordRole;
use crate::series::{InstantSeries, is_range, series_in};
use expect_text::RangeCause;
use std::alloc::{AllocError, Global};
use text_core::{At, first_line, first_word};

pub(crate) fn is_range_at(place: WordRole, word: &[u8]) -> bool
    ensures { result ≡ is_range_at place word.now }
{
    place.is_time() && is_range(word)
}

// A range, after the one that was seen.
fn with_range(
    number: u64,
    index: usize,
    seen: Option<InstantSeries>,
    found: Result<InstantSeries, RangeCause>,
) -> Result<Option<InstantSeries>, At<RangeCause>>
    ensures { result ≡ with_range number index seen found }
{
    match found {
        Err(cause) => Err(At {
            line: number,
            cause,
            word: index,
        }),
        Ok(series) => match seen {
            None => Ok(Some(series)),
            Some(_) => Err(At {
                line: number,
                cause: RangeCause::Range,
                word: index,
            }),
        },
    }
}

fn with_word(
    number: u64,
    index: usize,
    place: WordRole,
    seen: Option<InstantSeries>,
    word: &[u8],
) -> Result<Option<InstantSeries>, At<RangeCause>>
    ensures { result ≡ with_word number index place seen word.now }
{
    if is_range_at(place, word) {
        with_range(number, index, seen, series_in(word))
    } else {
        Ok(seen)
    }
}

#[tactic(auto, using(crate::proofs::Words::few_words))]
fn words_ranged(
    number: u64,
    seen: Option<InstantSeries>,
    line: &[u8],
) -> Result<Option<InstantSeries>, At<RangeCause>>
    ensures { result ≡ words_ranged number 0 WordRole.Begin seen (words_of line.now) }
{
    let mut rest = Some(line);
    let mut index = 0usize;
    let mut place = WordRole::Begin;
    let mut seen = seen;
    'words: while let Some(text) = rest {
        let (word, others) = first_word(text);
        seen = match with_word(number, index, place, seen, word) {
            Err(fault) => return Err(fault),
            Ok(seen) => seen,
        };
        index += 1;
        place = place.next(word);
        rest = others;
    }
    Ok(seen)
}

/// The range of a script, where it has one.
///
/// # Errors
///
/// The first line whose range is none, or is the second one.
pub(crate) fn range_of(script: &[u8]) -> Result<Option<InstantSeries>, At<RangeCause>>
    ensures { result ≡ range_of script.now }
{
    let mut rest = script;
    let mut number = 1u64;
    let mut seen = None;
    'lines: while let Some((line, after)) = first_line(rest) {
        seen = match words_ranged(number, seen, line) {
            Err(fault) => return Err(fault),
            Ok(seen) => seen,
        };
        rest = after;
        number += 1;
    }
    Ok(seen)
}

/// Whether a script has a range, and no line at fault.
pub fn has_range(script: &[u8]) -> bool
    ensures { result ≡ has_range script.now }
{
    match range_of(script) {
        Ok(Some(_)) => true,
        Ok(None) | Err(_) => false,
    }
}

fn push_word(text: &mut Vec<u8>, at: u64, place: WordRole, word: &[u8]) -> Result<(), AllocError>
    ensures { OnOk result (text.new.items ≡ text.old.items ++ word_at at place word.now) }
{
    if is_range_at(place, word) {
        let mut digits = itoa::Buffer::new();
        text.extend_from_slice(digits.format(at).as_bytes())
    } else {
        text.extend_from_slice(word)
    }
}

// What stands after a word.
fn mark_before(others: Option<&[u8]>) -> &'static [u8]
    ensures { result.now ≡ mark_before (words_after (option_copied others.entry)) }
{
    match others {
        None => b"\n",
        Some(text) => {
            let (_word, _words) = first_word(text);
            b" "
        }
    }
}

fn push_line(text: &mut Vec<u8>, at: u64, line: &[u8]) -> Result<(), AllocError>
    ensures { OnOk result (text.new.items ≡ text.old.items ++ line_at at line.now) }
{
    let mut rest = Some(line);
    let mut place = WordRole::Begin;
    'words: while let Some(part) = rest {
        let (word, others) = first_word(part);
        push_word(text, at, place, word)?;
        text.extend_from_slice(mark_before(others))?;
        place = place.next(word);
        rest = others;
    }
    Ok(())
}

/// The script with this instant in the place of its range.
///
/// # Errors
///
/// Want of memory.
pub(crate) fn script_at(alloc: Global, script: &[u8], at: u64) -> Result<Vec<u8>, AllocError>
    ensures { IfOk result (λ text. text.items ≡ script_at at script.now) }
{
    let mut text = Vec::new(alloc);
    let mut rest = script;
    'lines: while let Some((line, after)) = first_line(rest) {
        push_line(&mut text, at, line)?;
        rest = after;
    }
    Ok(text)
}
