//! Lines of expectations of a capture, and the first one at fault.
ghost use Rattle.std.specs.Prelude.{◌≡◌, IfOk, map};
ghost use Rattle.std.specs.Option.{option_copied, option_map};
ghost use Rattle.text_core.specs.Lines.{lines_of};
ghost use Rattle.text_core.specs.Words.{words_after};
ghost use Rattle.expect_text.specs.Fault.{after_label};
ghost use Rattle.audit_expect.specs.Lines.{event_fault, expectation_fault, instant_fault, instant_of, is_any_first, is_any_third, is_event_word, is_first, is_line_word, is_of_run, is_own, is_third, is_passed, kind_fault, line_fault, named_fault, number_by, time_fault, time_word, verb_fault};
ghost use Rattle.audit_expect.specs.Wanted.{plain_text};
ghost use Rattle.audit_expect.specs.Faults.{earlier, first_fault, kinds_from, readings_fault};

use crate::wanted::wanted_fault_in;
use expect_text::{ExpectCause, after_label, exact_number, has_verb, unlabelled};
use room_lines::{SCRIPT, ScriptVerb};
use std::alloc::{AllocError, Global};
use text_core::{At, AtWord, at_word, first_line, first_word, is_skipped};
use text_forms::Slot;

fn number_by(word: Option<&[u8]>) -> Option<u64>
    ensures { result ≡ number_by (option_copied word.entry) }
{
    exact_number(word?)
}

// Whether a place of a form has this word itself.
fn is_own(place: (Slot, &str), word: &[u8]) -> bool
    ensures { result ≡ is_own word.now (place.entry.0, place.entry.1.now) }
{
    match place.0 {
        Slot::Word | Slot::Key => place.1.as_bytes() == word,
        _ => false,
    }
}

// Whether a form begins with this word.
fn is_first(form: &[(Slot, &str)], word: &[u8]) -> bool
    ensures { result ≡ is_first word.now (map (λ p. (p.0, p.1.now)) form.now) }
{
    match form {
        [place, _others @ ..] => is_own(*place, word),
        _ => false,
    }
}

// Whether a form has this word after its time.
fn is_third(form: &[(Slot, &str)], word: &[u8]) -> bool
    ensures { result ≡ is_third word.now (map (λ p. (p.0, p.1.now)) form.now) }
{
    match form {
        [_at, _time, place, _others @ ..] => is_own(*place, word),
        _ => false,
    }
}

fn is_first_of_any(forms: &[(ScriptVerb, &[(Slot, &str)])], word: &[u8]) -> bool
    ensures { result ≡ is_any_first word.now (map (λ r. (r.0, map (λ p. (p.0, p.1.now)) r.1.now)) forms.now) }
{
    match forms {
        [form, others @ ..] => is_first(form.1, word) || is_first_of_any(others, word),
        _ => false,
    }
}

fn is_third_of_any(forms: &[(ScriptVerb, &[(Slot, &str)])], word: &[u8]) -> bool
    ensures { result ≡ is_any_third word.now (map (λ r. (r.0, map (λ p. (p.0, p.1.now)) r.1.now)) forms.now) }
{
    match forms {
        [form, others @ ..] => is_third(form.1, word) || is_third_of_any(others, word),
        _ => false,
    }
}

// Whether a line of a script begins with this word.
#[tactic(auto, unfolding(crate::specs::Lines::is_line_word))]
fn is_line_word(word: &[u8]) -> bool
    ensures { result ≡ is_line_word word.now }
{
    is_first_of_any(SCRIPT, word)
}

// Whether an event of a script begins with this word after its time.
#[tactic(auto, unfolding(crate::specs::Lines::is_event_word))]
fn is_event_word(word: &[u8]) -> bool
    ensures { result ≡ is_event_word word.now }
{
    is_third_of_any(SCRIPT, word)
}

// A time, alone or with an event after it.
fn time_word(rest: Option<&[u8]>) -> Option<&[u8]>
    ensures { option_copied result ≡ time_word (words_after (option_copied rest.entry)) }
{
    let (time, others) = first_word(rest?);
    let Some(others) = others else {
        return Some(time);
    };
    let (word, _words) = first_word(others);
    if is_event_word(word) {
        Some(time)
    } else {
        None
    }
}

/// The instant that a line gives a name.
pub(crate) fn instant_of(line: &[u8]) -> Option<u64>
    ensures { result ≡ instant_of line.now }
{
    let (verb, others) = first_word(unlabelled(line).rest?);
    if verb == b"at".as_slice() {
        number_by(time_word(others))
    } else {
        None
    }
}

fn time_fault(word: usize, time: Option<u64>) -> Option<AtWord<ExpectCause>>
    ensures { result ≡ time_fault word time }
{
    match time {
        None => Some(at_word(word, ExpectCause::Number)),
        Some(_) => None,
    }
}

fn named_fault(rest: Option<&[u8]>) -> Option<AtWord<ExpectCause>>
    ensures { result ≡ named_fault (words_after (option_copied rest.entry)) }
{
    let Some(text) = rest else {
        return Some(at_word(3, ExpectCause::Word));
    };
    let (time, others) = first_word(text);
    match others {
        None => time_fault(3, exact_number(time)),
        Some(others) => {
            let (word, _words) = first_word(others);
            if is_event_word(word) {
                time_fault(3, exact_number(time))
            } else {
                Some(at_word(4, ExpectCause::Word))
            }
        }
    }
}

fn event_fault(rest: Option<&[u8]>) -> Option<AtWord<ExpectCause>>
    ensures { result ≡ event_fault (words_after (option_copied rest.entry)) }
{
    let Some(text) = rest else {
        return Some(at_word(0, ExpectCause::Word));
    };
    let (time, others) = first_word(text);
    let Some(others) = others else {
        return Some(at_word(0, ExpectCause::Word));
    };
    let (word, _words) = first_word(others);
    if is_event_word(word) {
        time_fault(1, exact_number(time))
    } else {
        Some(at_word(0, ExpectCause::Word))
    }
}

fn instant_fault(label: Option<&[u8]>, rest: Option<&[u8]>) -> Option<AtWord<ExpectCause>>
    ensures { result ≡ instant_fault (option_copied label.entry) (words_after (option_copied rest.entry)) }
{
    match label {
        None => event_fault(rest),
        Some(_) => named_fault(rest),
    }
}

// Whether an expectation is none of a capture, or none behind a label.
fn is_of_run(rest: Option<&[u8]>) -> bool
    ensures { result ≡ is_of_run (words_after (option_copied rest.entry)) }
{
    has_verb(b"refused", rest) || has_verb(b"state", rest) || has_verb(b"no-remark", rest)
}

fn expectation_fault(label: Option<&[u8]>, rest: Option<&[u8]>) -> Option<AtWord<ExpectCause>>
    ensures { result ≡ option_map (after_label (option_copied label.entry)) (expectation_fault (words_after (option_copied rest.entry))) }
{
    if is_of_run(rest) {
        Some(after_label(label, at_word(1, ExpectCause::Word)))
    } else {
        None
    }
}

fn verb_fault(label: Option<&[u8]>, verb: &[u8]) -> AtWord<ExpectCause>
    ensures { result ≡ verb_fault (option_copied label.entry) verb.now }
{
    match label {
        None => {
            if verb == b"label".as_slice() {
                at_word(1, ExpectCause::Word)
            } else {
                at_word(0, ExpectCause::Word)
            }
        }
        Some(_) => at_word(2, ExpectCause::Word),
    }
}

// Whether a line of a script is passed over.
fn is_passed(label: Option<&[u8]>, verb: &[u8]) -> bool
    ensures { result ≡ is_passed (option_copied label.entry) verb.now }
{
    match label {
        None => is_line_word(verb),
        Some(_) => false,
    }
}

fn kind_fault(label: Option<&[u8]>, rest: Option<&[u8]>) -> Option<AtWord<ExpectCause>>
    ensures { result ≡ kind_fault (option_copied label.entry) (words_after (option_copied rest.entry)) }
{
    let Some(text) = rest else {
        return Some(after_label(label, at_word(0, ExpectCause::Word)));
    };
    let (verb, others) = first_word(text);
    if verb == b"expect".as_slice() {
        expectation_fault(label, others)
    } else if verb == b"at".as_slice() {
        instant_fault(label, others)
    } else if is_passed(label, verb) {
        None
    } else {
        Some(verb_fault(label, verb))
    }
}

fn line_fault(line: &[u8]) -> Option<AtWord<ExpectCause>>
    ensures { result ≡ line_fault line.now }
{
    if is_skipped(line) {
        return None;
    }
    let line = unlabelled(line);
    kind_fault(line.label, line.rest)
}

// The first line that is none of a capture's.
fn kind_fault_in(text: &[u8]) -> Option<At<ExpectCause>>
    ensures { result ≡ kinds_from 1 (lines_of text.now) }
{
    let mut rest = text;
    let mut number = 1u64;
    'lines: while let Some((line, after)) = first_line(rest) {
        if let Some(fault) = line_fault(line) {
            return Some(fault.on_line(number));
        }
        rest = after;
        number += 1;
    }
    None
}

fn earlier(
    fault: Option<At<ExpectCause>>,
    other: Option<At<ExpectCause>>,
) -> Option<At<ExpectCause>>
    ensures { result ≡ earlier fault other }
{
    match fault {
        None => other,
        Some(fault) => match other {
            None => Some(fault),
            Some(other) => {
                if other.line < fault.line {
                    Some(other)
                } else {
                    Some(fault)
                }
            }
        },
    }
}

// The first line of expectations of readings that is at fault.
fn readings_fault(alloc: Global, text: &[u8]) -> Result<Option<At<ExpectCause>>, AllocError>
    ensures { IfOk result (λ fault. fault ≡ readings_fault text.now) }
{
    let fault = expect_text::readings_fault(alloc, text)?;
    Ok(earlier(kind_fault_in(text), fault))
}

/// The first line of expectations of a capture that is at fault; `plain` are those of its readings.
///
/// # Errors
///
/// Want of memory.
pub(crate) fn first_fault(
    alloc: Global,
    text: &[u8],
    plain: &[u8],
) -> Result<Option<At<ExpectCause>>, AllocError>
    requires { plain.now ≡ plain_text text.now }
    ensures { IfOk result (λ fault. fault ≡ first_fault text.now) }
{
    let fault = readings_fault(alloc, plain)?;
    Ok(earlier(wanted_fault_in(text), fault))
}
