//! Lines of a script with labels and expectations.
ghost use Rattle.std.specs.Prelude.{◌≡◌, ◌++◌, [], codes, if◌then◌else◌, OnOk, IfOk};
ghost use Rattle.std.specs.Fmt.{decimal};
ghost use Rattle.std.specs.Option.{option_copied};
ghost use Rattle.text_core.specs.Words.{words_after, words_of};
ghost use Rattle.expect_text.specs.Line.{unlabelled_words, cut_line, cut_script, has_verb, is_before, is_labelable, label_in, onset_in, plain_line, plain_part, plain_script, plain_words};

use std::alloc::{AllocError, Global};
use text_core::{first_line, first_word, is_skipped, number_in};

/// A line of a script: its label, and the line without it.
#[derive(Clone, Copy)]
pub struct Labelled<'a> {
    pub label: Option<&'a [u8]>,
    /// `None` where nothing stands after the label.
    pub rest: Option<&'a [u8]>,
}

/// A line's label, and the line without it.
pub fn unlabelled(line: &[u8]) -> Labelled<'_>
    ensures label { option_copied result.label ≡ label_in (words_of line.now) }
    ensures rest { words_after (option_copied result.rest) ≡ unlabelled_words (words_of line.now) }
{
    let (verb, rest) = first_word(line);
    if verb != b"label".as_slice() {
        return Labelled {
            label: None,
            rest: Some(line),
        };
    }
    let Some(rest) = rest else {
        return Labelled {
            label: None,
            rest: Some(line),
        };
    };
    let (name, rest) = first_word(rest);
    Labelled {
        label: Some(name),
        rest,
    }
}

/// Whether this is the first of the words after a label.
pub fn has_verb(verb: &[u8], rest: Option<&[u8]>) -> bool
    ensures { result ≡ has_verb verb.now (words_after (option_copied rest.entry)) }
{
    match rest {
        None => false,
        Some(rest) => {
            let (word, _others) = first_word(rest);
            word == verb
        }
    }
}

/// Whether a label may stand before these words: those of an expectation, an event, a pulse, a pull or a level of the pin.
pub(crate) fn is_labelable(rest: Option<&[u8]>) -> bool
    ensures { result ≡ is_labelable (words_after (option_copied rest.entry)) }
{
    has_verb(b"expect", rest)
        || has_verb(b"at", rest)
        || has_verb(b"pulse", rest)
        || has_verb(b"pull", rest)
        || has_verb(b"pin", rest)
}

/// The onset of a pulse or a pull, or the time of a level of the pin, by its line without a label.
pub fn onset_in(rest: Option<&[u8]>) -> Option<u64>
    ensures { result ≡ onset_in (words_after (option_copied rest.entry)) }
{
    let (verb, rest) = first_word(rest?);
    let (time, _others) = first_word(rest?);
    let is_pulled = verb == b"pulse".as_slice() || verb == b"pull".as_slice();
    if is_pulled || verb == b"pin".as_slice() {
        number_in(time)
    } else {
        None
    }
}

// What is left of these words in a script without expectations.
fn plain_words(rest: Option<&[u8]>) -> &[u8]
    ensures { result.now ≡ plain_words (words_after (option_copied rest.entry)) }
{
    if has_verb(b"expect", rest) {
        return &[];
    }
    match rest {
        None => &[],
        Some(rest) => rest,
    }
}

/// What is left of a line in a script without labels and expectations: nothing of an expectation.
pub fn plain_part(line: &[u8]) -> &[u8]
    ensures { result.now ≡ plain_part line.now }
{
    plain_words(unlabelled(line).rest)
}

fn push_plain(text: &mut Vec<u8>, line: &[u8]) -> Result<(), AllocError>
    ensures { OnOk result (text.new.items ≡ text.old.items ++ plain_line line.now) }
{
    text.extend_from_slice(plain_part(line))?;
    text.push(b'\n')?;
    Ok(())
}

/// The script without labels and expectations, line for line: the line of an expectation is empty.
///
/// # Errors
///
/// Want of memory.
pub fn plain_script(alloc: Global, script: &[u8]) -> Result<Vec<u8>, AllocError>
    ensures { IfOk result (λ text. text.items ≡ plain_script script.now) }
{
    let mut text = Vec::new(alloc);
    let mut rest = script;
    'lines: while let Some((line, after)) = first_line(rest) {
        push_plain(&mut text, line)?;
        rest = after;
    }
    Ok(text)
}

// Whether the line of an event has a time before this one.
fn is_before(time: u64, line: &[u8]) -> bool
    ensures { result ≡ is_before time (words_of line.now) }
{
    let (_verb, rest) = first_word(line);
    let Some(rest) = rest else {
        return false;
    };
    let (at, _others) = first_word(rest);
    match number_in(at) {
        None => false,
        Some(at) => at < time,
    }
}

fn push_event(text: &mut Vec<u8>, time: u64, line: &[u8]) -> Result<(), AllocError>
    ensures { OnOk result (text.new.items ≡ text.old.items ++ (if is_before time (words_of line.now) then line.now else [])) }
{
    if is_before(time, line) {
        text.extend_from_slice(line)?;
    }
    Ok(())
}

fn push_end(text: &mut Vec<u8>, time: u64) -> Result<(), AllocError>
    ensures { OnOk result (text.new.items ≡ text.old.items ++ codes "end " ++ decimal time) }
{
    text.extend_from_slice(b"end ")?;
    let mut digits = itoa::Buffer::new();
    text.extend_from_slice(digits.format(time).as_bytes())?;
    Ok(())
}

fn push_cut(text: &mut Vec<u8>, time: u64, line: &[u8]) -> Result<(), AllocError>
    ensures { OnOk result (text.new.items ≡ text.old.items ++ cut_line time line.now) }
{
    if !is_skipped(line) {
        if has_verb(b"at", Some(line)) {
            return push_event(text, time, line);
        }
        if has_verb(b"end", Some(line)) {
            return push_end(text, time);
        }
    }
    text.extend_from_slice(line)?;
    Ok(())
}

/// A plain script that ends at a time, line for line: events at that time or later are empty lines, and the end is at that time.
///
/// # Errors
///
/// Want of memory.
pub fn cut_script(alloc: Global, time: u64, script: &[u8]) -> Result<Vec<u8>, AllocError>
    ensures { IfOk result (λ text. text.items ≡ cut_script time script.now) }
{
    let mut text = Vec::new(alloc);
    let mut rest = script;
    'lines: while let Some((line, after)) = first_line(rest) {
        push_cut(&mut text, time, line)?;
        text.push(b'\n')?;
        rest = after;
    }
    Ok(text)
}
