//! Lines that are read by a table of forms.
ghost use Rattle.std.specs.Prelude.{◌≡◌, ◌+◌, ◌≤◌, get_or, map, length};
ghost use Rattle.std.specs.Option.{IfSome, option_copied, option_map};
ghost use Rattle.text_core.specs.Words.{words_of, words_after};
ghost use Rattle.text_forms.specs.Limits.{latest, most_ports};
ghost use Rattle.text_forms.specs.Forms.{Itself, byte_at, fault_in, lacks_value, line_of, meanings_of, meant, kind_at, level_at, late_time_at, number_at, port_at, ports_at, read_by, read_of, row_of, said, text_at, time_at, value_or, values_of, words_at};

use crate::form::{LineCause, Slot, are_whole, is_whole, most_fitting};
use crate::limits::{LAST_BYTE, LATEST, MOST_PORTS};
use crate::value::{Value, value_in};
use arrayvec::ArrayVec;
use text_core::{AtWord, Kind, at_word, first_word};

/// The most words of a line that are kept apart.
const MOST_WORDS: usize = 16;

/// A line, the form that it has, and what the form stands for. Each place has its value.
#[derive(Clone, Copy)]
pub struct FormLine<'t, V> {
    pub verb: V,
    pub form: &'t [(Slot, &'t str)],
    pub text: &'t [u8],
}

// The first place of this turn whose word has no value. So many words stand before.
#[tactic(auto, unfolding(crate::specs::Forms::fault_in))]
fn fault_in(
    turn: u8,
    before: usize,
    form: &[(Slot, &str)],
    line: Option<&[u8]>,
) -> Option<AtWord<LineCause>>
    requires few { before + length form.now ≤ 18446744073709551615 }
    ensures { result ≡ fault_in turn before (map (λ p. (p.0, p.1.now)) form.now) (words_after (option_copied line.entry)) }
{
    let [place, others @ ..] = form else {
        return None;
    };
    let Some(text) = line else {
        return None;
    };
    let (word, after) = first_word(text);
    if place.0.turn() == turn && value_in(place.0, word).is_none() {
        return Some(at_word(before, place.0.cause()));
    }
    fault_in(turn, before + 1, others, after)
}

// Whether the word at some place has no value.
#[tactic(auto, unfolding(crate::specs::Forms::lacks_value))]
fn lacks_value(form: &[(Slot, &str)], line: Option<&[u8]>) -> bool
    ensures { result ≡ lacks_value (map (λ p. (p.0, p.1.now)) form.now) (words_after (option_copied line.entry)) }
{
    let [place, others @ ..] = form else {
        return false;
    };
    let Some(text) = line else {
        return false;
    };
    let (word, after) = first_word(text);
    value_in(place.0, word).is_none() || lacks_value(others, after)
}

fn value_or_itself<'t>(value: Option<Value<'t>>) -> Value<'t>
    ensures { meant result ≡ value_or (option_map meant value.entry) }
{
    match value {
        Some(value) => value,
        None => Value::Itself,
    }
}

// The value at a place; `Itself` past the last.
#[tactic(auto, unfolding(crate::specs::Forms::meanings_of), using(crate::proofs::Places::later))]
fn value_at<'t>(form: &[(Slot, &str)], line: Option<&'t [u8]>, place: usize) -> Value<'t>
    ensures { meant result ≡ get_or (meanings_of (map (λ p. (p.0, p.1.now)) form.now) (words_after (option_copied line.entry))) place Itself }
{
    let [first, others @ ..] = form else {
        return Value::Itself;
    };
    let Some(text) = line else {
        return Value::Itself;
    };
    let (word, after) = first_word(text);
    if place == 0 {
        if first.0 == Slot::Rest {
            return Value::Rest(text);
        }
        return value_or_itself(value_in(first.0, word));
    }
    if first.0 == Slot::Rest {
        return Value::Itself;
    }
    value_at(others, after, place - 1)
}

// Reads a line that has the words of a form, turn by turn.
fn read_in_turns<'t, V: Copy>(
    verb: V,
    form: &'t [(Slot, &'t str)],
    line: &'t [u8],
) -> Result<FormLine<'t, V>, AtWord<LineCause>>
    ensures { said result ≡ read_by verb (map (λ p. (p.0, p.1.now)) form.now) (words_of line.now) }
{
    if let Some(fault) = fault_in(0, 0, form, Some(line)) {
        return Err(fault);
    }
    if let Some(fault) = fault_in(1, 0, form, Some(line)) {
        return Err(fault);
    }
    if let Some(fault) = fault_in(2, 0, form, Some(line)) {
        return Err(fault);
    }
    Ok(FormLine {
        verb,
        form,
        text: line,
    })
}

// Whether one of these words, those of a form, has no value.
#[tactic(auto, unfolding(crate::specs::Forms::lacks_value))]
fn lack_value(form: &[(Slot, &str)], words: &[&[u8]]) -> bool
    ensures { result ≡ lacks_value (map (λ p. (p.0, p.1.now)) form.now) (map (λ w. w.now) words.now) }
{
    let [place, places @ ..] = form else {
        return false;
    };
    let [word, others @ ..] = words else {
        return false;
    };
    value_in(place.0, word).is_none() || lack_value(places, others)
}

// Reads a line that has the words of a form. Where each place has a value there is no fault of any turn.
fn read_by<'t, V: Copy>(
    verb: V,
    form: &'t [(Slot, &'t str)],
    line: &'t [u8],
    lacks: bool,
) -> Result<FormLine<'t, V>, AtWord<LineCause>>
    requires { lacks ≡ lacks_value (map (λ p. (p.0, p.1.now)) form.now) (words_of line.now) }
    ensures { said result ≡ read_by verb (map (λ p. (p.0, p.1.now)) form.now) (words_of line.now) }
{
    if lacks {
        return read_in_turns(verb, form, line);
    }
    Ok(FormLine {
        verb,
        form,
        text: line,
    })
}

// The first form that a line has, word by word.
#[tactic(auto, unfolding(crate::specs::Forms::row_of))]
fn form_of<'t, V: Copy>(
    forms: &'t [(V, &'t [(Slot, &'t str)])],
    line: &[u8],
) -> Option<(V, &'t [(Slot, &'t str)])>
    ensures { option_map (λ r. (r.0, map (λ p. (p.0, p.1.now)) r.1.now)) result ≡ row_of (map (λ r. (r.0, map (λ p. (p.0, p.1.now)) r.1.now)) forms.now) (words_of line.now) }
{
    let [form, others @ ..] = forms else {
        return None;
    };
    if is_whole(form.1, Some(line)) {
        Some((form.0, form.1))
    } else {
        form_of(others, line)
    }
}

// The first form that a line with these words has.
#[tactic(auto, unfolding(crate::specs::Forms::row_of))]
fn form_of_words<'t, V: Copy>(
    forms: &'t [(V, &'t [(Slot, &'t str)])],
    words: &[&[u8]],
) -> Option<(V, &'t [(Slot, &'t str)])>
    ensures { option_map (λ r. (r.0, map (λ p. (p.0, p.1.now)) r.1.now)) result ≡ row_of (map (λ r. (r.0, map (λ p. (p.0, p.1.now)) r.1.now)) forms.now) (map (λ w. w.now) words.now) }
{
    let [form, others @ ..] = forms else {
        return None;
    };
    if are_whole(form.1, words) {
        Some((form.0, form.1))
    } else {
        form_of_words(others, words)
    }
}

// The words of a line; None where they are more than are kept apart.
fn split_words(line: &[u8]) -> Option<ArrayVec<&[u8], MOST_WORDS>>
    ensures { IfSome result (λ w. map (λ word. word.now) w.items ≡ words_of line.now) }
{
    let mut words = ArrayVec::new();
    let mut rest = Some(line);
    'words: while let Some(text) = rest {
        if words.is_full() {
            return None;
        }
        let (word, after) = first_word(text);
        words.push(word);
        rest = after;
    }
    Some(words)
}

// Reads a line that is cut into these words.
fn read_words<'t, V: Copy>(
    forms: &'t [(V, &'t [(Slot, &'t str)])],
    line: &'t [u8],
    words: &[&[u8]],
) -> Result<FormLine<'t, V>, AtWord<LineCause>>
    requires { map (λ w. w.now) words.now ≡ words_of line.now }
    ensures { said result ≡ line_of (map (λ r. (r.0, map (λ p. (p.0, p.1.now)) r.1.now)) forms.now) (words_of line.now) }
{
    match form_of_words(forms, words) {
        Some(form) => read_by(form.0, form.1, line, lack_value(form.1, words)),
        None => Err(at_word(most_fitting(forms, line), LineCause::Word)),
    }
}

// Reads a line that has more words than are kept apart.
fn read_long<'t, V: Copy>(
    forms: &'t [(V, &'t [(Slot, &'t str)])],
    line: &'t [u8],
) -> Result<FormLine<'t, V>, AtWord<LineCause>>
    ensures { said result ≡ line_of (map (λ r. (r.0, map (λ p. (p.0, p.1.now)) r.1.now)) forms.now) (words_of line.now) }
{
    match form_of(forms, line) {
        Some(form) => read_by(form.0, form.1, line, lacks_value(form.1, Some(line))),
        None => Err(at_word(most_fitting(forms, line), LineCause::Word)),
    }
}

/// Reads a line by a table of forms.
///
/// # Errors
///
/// The first word that fits none of the forms; or of the first form that the line has, the first place, in the order of turns,
/// whose word has no value.
pub fn read_line<'t, V: Copy>(
    forms: &'t [(V, &'t [(Slot, &'t str)])],
    line: &'t [u8],
) -> Result<FormLine<'t, V>, AtWord<LineCause>>
    ensures { said result ≡ line_of (map (λ r. (r.0, map (λ p. (p.0, p.1.now)) r.1.now)) forms.now) (words_of line.now) }
{
    match split_words(line) {
        Some(words) => read_words(forms, line, words.as_slice()),
        None => read_long(forms, line),
    }
}

impl<'t, V> FormLine<'t, V> {
    /// The value at a place; `Itself` past the last.
    pub fn value(&self, place: usize) -> Value<'t>
        ensures { meant result ≡ get_or (values_of self.now) place Itself }
    {
        value_at(self.form, Some(self.text), place)
    }

    /// The number at a place; 0 where none is.
    pub fn number(&self, place: usize) -> u64
        ensures { result ≡ number_at (values_of self.now) place }
    {
        match value_at(self.form, Some(self.text), place) {
            Value::Number(number) => number,
            _ => 0,
        }
    }

    /// The byte at a place; 0 where none is.
    pub fn byte(&self, place: usize) -> u8
        ensures { result ≡ byte_at (values_of self.now) place }
    {
        match value_at(self.form, Some(self.text), place) {
            Value::Number(byte) => byte.min(LAST_BYTE) as u8,
            _ => 0,
        }
    }

    /// The time at a place; 0 where none is.
    pub fn time(&self, place: usize) -> u64
        ensures value { result ≡ time_at (values_of self.now) place }
        ensures early { result ≤ latest }
    {
        match value_at(self.form, Some(self.text), place) {
            Value::Number(time) => time.min(LATEST),
            _ => 0,
        }
    }

    /// The time at a place; None where none is.
    pub fn late_time(&self, place: usize) -> Option<u64>
        ensures { result ≡ late_time_at (values_of self.now) place }
    {
        match value_at(self.form, Some(self.text), place) {
            Value::Number(time) => Some(time.min(LATEST)),
            _ => None,
        }
    }

    /// The port at a place; 0 where none is.
    pub fn port(&self, place: usize) -> u8
        ensures { result ≡ port_at (values_of self.now) place }
    {
        match value_at(self.form, Some(self.text), place) {
            Value::Port(port) => port,
            _ => 0,
        }
    }

    /// The count of ports at a place; 0 where none is.
    pub fn ports(&self, place: usize) -> u8
        ensures value { result ≡ ports_at (values_of self.now) place }
        ensures few { result ≤ most_ports }
    {
        match value_at(self.form, Some(self.text), place) {
            Value::Ports(ports) => ports.min(MOST_PORTS as u8),
            _ => 0,
        }
    }

    /// The level at a place, or the switch; low or off where none is.
    pub fn level(&self, place: usize) -> bool
        ensures { result ≡ level_at (values_of self.now) place }
    {
        match value_at(self.form, Some(self.text), place) {
            Value::Level(level) => level,
            _ => false,
        }
    }

    /// The kind at a place; a television where none is.
    pub fn kind(&self, place: usize) -> Kind
        ensures { result ≡ kind_at (values_of self.now) place }
    {
        match value_at(self.form, Some(self.text), place) {
            Value::Kind(kind) => kind,
            _ => Kind::Tv,
        }
    }

    /// The word at a place; empty where none is.
    pub fn text(&self, place: usize) -> &'t [u8]
        ensures { result.now ≡ text_at (values_of self.now) place }
    {
        match value_at(self.form, Some(self.text), place) {
            Value::Text(text) => text,
            _ => &[],
        }
    }

    /// All that stands from a place on; None where a form has no such place.
    pub fn rest(&self, place: usize) -> Option<&'t [u8]>
        ensures { words_after (option_copied result) ≡ words_at (values_of self.now) place }
    {
        match value_at(self.form, Some(self.text), place) {
            Value::Rest(text) => Some(text),
            _ => None,
        }
    }
}
