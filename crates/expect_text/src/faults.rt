//! The first line of a script at fault.
ghost use Rattle.std.specs.Prelude.{◌≡◌, ◌≤◌, map, IfErr, IfOk, IfSome};
ghost use Rattle.std.specs.Option.{option_copied, option_map};
ghost use Rattle.text_core.specs.Words.{words_after, words_of};
ghost use Rattle.expect_text.specs.Fault.{IsNear, after_label};
ghost use Rattle.expect_text.specs.Form.{IsForm, form_as, window_of};
ghost use Rattle.expect_text.specs.Line.{unlabelled_words};
ghost use Rattle.expect_text.specs.Names.{named_as};
ghost use Rattle.expect_text.specs.Senders.{judged_as};
ghost use Rattle.text_core.specs.Lines.{lines_of};
ghost use Rattle.expect_text.specs.StateTest.{strange_word};
ghost use Rattle.expect_text.specs.Faults.{declared_in, end_in, ends_before, first_fault, fault_on, faults_from, form_fault, has_strange_name, is_above, is_declared, is_line, is_named, is_own_label, is_past, is_refusal, is_strange, is_strange_name, labelled_form, names_of, or_fault, pattern_fault, readings_fault, refusal_fault, refusal_word, remark_fault, state_fault, strange_at, strange_fault, window_fault};

use crate::fault::after_label;
use crate::form::{ExpectCause, ExpectLine, ExpectWindow, Quantity, form_in, in_window};
use crate::labels::Labels;
use crate::line::{is_labelable, unlabelled};
use crate::named::NamedPattern;
use crate::names::{is_meetable, named_in, unmet_word};
use crate::part::Judged;
use crate::remarks::is_remark_called;
use crate::state_words::strange_word;
use arrayvec::ArrayVec;
use std::alloc::{AllocError, Global};
use text_core::{At, AtWord, at_word, first_line, first_word, number_in};

fn is_above(number: u64, line: Option<u64>) -> bool
    ensures { result ≡ is_above number line }
{
    match line {
        None => false,
        Some(line) => line < number,
    }
}

fn is_line(number: u64, line: Option<u64>) -> bool
    ensures { result ≡ is_line number line }
{
    match line {
        None => false,
        Some(line) => line == number,
    }
}

fn is_own_label(labels: &Labels<'_>, number: u64, label: Option<&[u8]>) -> bool
    ensures { result ≡ is_own_label labels.now.script.now number (option_copied label.entry) }
{
    match label {
        None => true,
        Some(name) => !name.is_empty() && is_line(number, labels.line_of(name)),
    }
}

// The device that a line of a topology declares.
fn declared_in(line: &[u8]) -> Option<&[u8]>
    ensures { option_copied result ≡ declared_in (words_of line.now) }
{
    let (verb, rest) = first_word(line);
    let (name, _others) = first_word(rest?);
    if verb == b"device".as_slice() {
        Some(name)
    } else {
        None
    }
}

fn declares(name: &[u8], line: &[u8]) -> bool
    ensures { result ≡ is_named name.now (declared_in (words_of line.now)) }
{
    match declared_in(line) {
        None => false,
        Some(declared) => declared == name,
    }
}

// The devices that a topology declares, in its order.
fn device_names(topology: &[u8]) -> ArrayVec<&[u8], 15>
    ensures { map (λ n. n.now) result.items ≡ names_of topology.now }
{
    let mut names = ArrayVec::new();
    let mut rest = topology;
    'lines: while let Some((line, after)) = first_line(rest) {
        if names.is_full() {
            return names;
        }
        if let Some(name) = declared_in(line) {
            names.push(name);
        }
        rest = after;
    }
    names
}

fn is_declared(topology: &[u8], name: &[u8]) -> bool
    ensures { result ≡ is_declared topology.now name.now }
{
    let mut rest = topology;
    'lines: while let Some((line, after)) = first_line(rest) {
        if declares(name, line) {
            return true;
        }
        rest = after;
    }
    false
}

fn end_in(rest: Option<&[u8]>) -> Option<u64>
    ensures { result ≡ end_in (words_after (option_copied rest.entry)) }
{
    let (verb, rest) = first_word(rest?);
    let (time, _others) = first_word(rest?);
    if verb == b"end".as_slice() {
        number_in(time)
    } else {
        None
    }
}

fn is_past(time: u64, line: &[u8]) -> bool
    ensures { result ≡ is_past time (end_in (unlabelled_words (words_of line.now))) }
{
    match end_in(unlabelled(line).rest) {
        None => false,
        Some(end) => end < time,
    }
}

fn ends_before(script: &[u8], time: u64) -> bool
    ensures { result ≡ ends_before script.now time }
{
    let mut rest = script;
    'lines: while let Some((line, after)) = first_line(rest) {
        if is_past(time, line) {
            return true;
        }
        rest = after;
    }
    false
}

fn window_fault(
    labels: &Labels<'_>,
    number: u64,
    quantity: Quantity,
    window: ExpectWindow,
) -> Option<AtWord<ExpectCause>>
    ensures value { result ≡ window_fault labels.now.script.now number quantity (window_of window.entry) }
    ensures bounded { IfSome result IsNear }
{
    match window {
        ExpectWindow::Within { label, .. } => {
            if is_above(number, labels.line_of(label)) {
                None
            } else {
                Some(in_window(quantity, 3, ExpectCause::Label))
            }
        }
        ExpectWindow::From { from, to } => {
            if to < from {
                Some(in_window(quantity, 3, ExpectCause::Order))
            } else {
                None
            }
        }
    }
}

fn pattern_fault(who: Judged<'_>, quantity: Quantity, pattern: &[u8]) -> Option<AtWord<ExpectCause>>
    ensures value { result ≡ pattern_fault (judged_as who.entry) quantity pattern.now }
    ensures bounded { IfSome result IsNear }
{
    if is_meetable(who, pattern) {
        None
    } else {
        Some(in_window(quantity, 4 + unmet_word(who, pattern), ExpectCause::Unmet))
    }
}

fn rounds_fault(
    who: Judged<'_>,
    labels: &Labels<'_>,
    number: u64,
    quantity: Quantity,
    window: ExpectWindow,
    pattern: &[u8],
) -> Option<AtWord<ExpectCause>>
    ensures value { result ≡ or_fault (window_fault labels.now.script.now number quantity (window_of window.entry)) (pattern_fault (judged_as who.entry) quantity pattern.now) }
    ensures bounded { IfSome result IsNear }
{
    match window_fault(labels, number, quantity, window) {
        Some(fault) => Some(fault),
        None => pattern_fault(who, quantity, pattern),
    }
}

// Whether an event can be refused with a word.
fn is_refusal(word: &[u8]) -> bool
    ensures { result ≡ is_refusal word.now }
{
    word == b"port-range".as_slice()
        || word == b"port-taken".as_slice()
        || word == b"not-loose".as_slice()
        || word == b"loop".as_slice()
        || word == b"not-plugged".as_slice()
        || word == b"not-for-kind".as_slice()
        || word == b"off-wire".as_slice()
        || word == b"queue-full".as_slice()
        || word == b"own-address".as_slice()
        || word == b"no-address".as_slice()
}

// The number of the word with which an event is refused.
fn refusal_word(label: Option<&[u8]>) -> usize
    ensures value { result ≡ refusal_word (option_copied label.entry) }
    ensures few { result ≤ 3 }
{
    match label {
        None => 2,
        Some(_) => 3,
    }
}

fn refusal_fault(
    labels: &Labels<'_>,
    number: u64,
    label: Option<&[u8]>,
    word: &[u8],
) -> Option<AtWord<ExpectCause>>
    ensures value { result ≡ refusal_fault labels.now.script.now number (option_copied label.entry) word.now }
    ensures bounded { IfSome result IsNear }
{
    if !is_above(number, labels.event_meant(number, label)) {
        Some(at_word(2, ExpectCause::Label))
    } else if is_refusal(word) {
        None
    } else {
        Some(at_word(refusal_word(label), ExpectCause::Unmet))
    }
}

fn strange_fault(words: &[u8]) -> Option<AtWord<ExpectCause>>
    ensures value { result ≡ strange_fault (strange_word (words_of words.now)) }
    ensures bounded { IfSome result IsNear }
{
    match strange_word(words) {
        None => None,
        Some(word) => Some(at_word(word, ExpectCause::Unmet)),
    }
}

fn state_fault(script: &[u8], time: u64, words: &[u8]) -> Option<AtWord<ExpectCause>>
    ensures value { result ≡ state_fault script.now time (words_of words.now) }
    ensures bounded { IfSome result IsNear }
{
    if ends_before(script, time) {
        Some(at_word(2, ExpectCause::Order))
    } else {
        strange_fault(words)
    }
}

// No remark is called so.
fn remark_fault(pattern: Option<&[u8]>) -> Option<AtWord<ExpectCause>>
    ensures value { result ≡ remark_fault (option_copied pattern.entry) }
    ensures bounded { IfSome result IsNear }
{
    match pattern {
        None => None,
        Some(pattern) => {
            if is_remark_called(pattern) {
                None
            } else {
                Some(at_word(2, ExpectCause::Unmet))
            }
        }
    }
}

fn form_fault(
    who: Judged<'_>,
    labels: &Labels<'_>,
    number: u64,
    form: ExpectLine,
) -> Option<AtWord<ExpectCause>>
    ensures value { result ≡ form_fault (judged_as who.entry) labels.now.script.now number (form_as form.entry) }
    ensures bounded { IfSome result IsNear }
{
    match form {
        ExpectLine::Other => None,
        ExpectLine::Rounds {
            quantity,
            window,
            pattern,
        } => rounds_fault(who, labels, number, quantity, window, pattern),
        ExpectLine::State { time, words, .. } => state_fault(labels.script, time, words),
        ExpectLine::Refused { label, word } => refusal_fault(labels, number, label, word),
        ExpectLine::Unremarked { pattern } => remark_fault(pattern),
    }
}

fn is_strange_name(topology: &[u8], named: Option<NamedPattern>) -> bool
    ensures { result ≡ is_strange_name topology.now (option_map named_as named.entry) }
{
    match named {
        None => false,
        Some(named) => !is_declared(topology, named.name),
    }
}

fn has_strange_name(topology: &[u8], named: Option<NamedPattern>) -> bool
    ensures { result ≡ has_strange_name topology.now (option_map named_as named.entry) }
{
    match named {
        None => false,
        Some(named) => {
            !is_declared(topology, named.name) || is_strange_name(topology, named_in(named.rest))
        }
    }
}

// Whether a form names a device that is not declared.
fn is_strange(topology: &[u8], form: ExpectLine) -> bool
    ensures { result ≡ is_strange topology.now (form_as form.entry) }
{
    match form {
        ExpectLine::Other => false,
        ExpectLine::Rounds { pattern, .. } => has_strange_name(topology, named_in(pattern)),
        ExpectLine::State { device, .. } => !is_declared(topology, device),
        ExpectLine::Refused { .. } => false,
        ExpectLine::Unremarked { .. } => false,
    }
}

// The word that names it.
fn strange_at(form: ExpectLine) -> AtWord<ExpectCause>
    ensures value { result ≡ strange_at (form_as form.entry) }
    ensures bounded { IsNear result }
{
    match form {
        ExpectLine::Other => at_word(3, ExpectCause::Name),
        ExpectLine::Rounds { quantity, .. } => in_window(quantity, 4, ExpectCause::Name),
        ExpectLine::State { .. } => at_word(3, ExpectCause::Name),
        ExpectLine::Refused { .. } => at_word(3, ExpectCause::Name),
        ExpectLine::Unremarked { .. } => at_word(3, ExpectCause::Name),
    }
}

// The same word of a line with its label before it, where one is at fault.
fn any_after_label(
    label: Option<&[u8]>,
    fault: Option<AtWord<ExpectCause>>,
) -> Option<AtWord<ExpectCause>>
    requires bounded { IfSome fault IsNear }
    ensures { result ≡ option_map (after_label (option_copied label.entry)) fault }
{
    match fault {
        None => None,
        Some(fault) => Some(after_label(label, fault)),
    }
}

// What a line says without its label, which stands before no other line than an expectation, an event or a pulse.
fn labelled_form<'a>(
    label: Option<&[u8]>,
    rest: Option<&'a [u8]>,
) -> Result<ExpectLine<'a>, AtWord<ExpectCause>>
    ensures form { IsForm (labelled_form (option_copied label.entry) (words_after (option_copied rest.entry))) result }
    ensures bounded { IfErr result IsNear }
{
    if label.is_some() && !is_labelable(rest) {
        return Err(at_word(0, ExpectCause::Word));
    }
    form_in(rest)
}

fn fault_on(
    who: Judged<'_>,
    topology: &[u8],
    labels: &Labels<'_>,
    number: u64,
    line: &[u8],
) -> Option<AtWord<ExpectCause>>
    ensures { result ≡ fault_on (judged_as who.entry) topology.now labels.now.script.now number line.now }
{
    let line = unlabelled(line);
    match labelled_form(line.label, line.rest) {
        Err(fault) => Some(after_label(line.label, fault)),
        Ok(form) => {
            if is_strange(topology, form) {
                Some(after_label(line.label, strange_at(form)))
            } else if is_own_label(labels, number, line.label) {
                any_after_label(line.label, form_fault(who, labels, number, form))
            } else {
                Some(at_word(1, ExpectCause::Label))
            }
        }
    }
}

// The first line at fault, by what is judged.
fn fault_in(who: Judged<'_>, topology: &[u8], labels: &Labels<'_>) -> Option<At<ExpectCause>>
    ensures { result ≡ faults_from (judged_as who.entry) topology.now labels.now.script.now 1 (lines_of labels.now.script.now) }
{
    let mut rest = labels.script;
    let mut number = 1u64;
    'lines: while let Some((line, after)) = first_line(rest) {
        if let Some(fault) = fault_on(who, topology, labels, number, line) {
            return Some(fault.on_line(number));
        }
        rest = after;
        number += 1;
    }
    None
}

/// The first line at fault of a script whose labels are read, for a topology.
pub fn fault_among(topology: &[u8], labels: &Labels<'_>) -> Option<At<ExpectCause>>
    ensures { result ≡ first_fault topology.now labels.now.script.now }
{
    let names = device_names(topology);
    fault_in(Judged::Run(&names), topology, labels)
}

/// The first line of a script for a topology whose label or expectation is at fault, and the word of the line as it is written.
///
/// # Errors
///
/// Want of memory.
pub fn first_fault(
    alloc: Global,
    topology: &[u8],
    script: &[u8],
) -> Result<Option<At<ExpectCause>>, AllocError>
    ensures { IfOk result (λ fault. fault ≡ first_fault topology.now script.now) }
{
    let labels = Labels::new(alloc, script)?;
    Ok(fault_among(topology, &labels))
}

/// The same of expectations of a capture, which has no devices.
///
/// # Errors
///
/// Want of memory.
pub fn readings_fault(alloc: Global, text: &[u8]) -> Result<Option<At<ExpectCause>>, AllocError>
    ensures { IfOk result (λ fault. fault ≡ readings_fault text.now) }
{
    let labels = Labels::new(alloc, text)?;
    Ok(fault_in(Judged::Capture, &[], &labels))
}
