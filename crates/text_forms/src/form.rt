//! Forms of lines, and how far a line fits one.
ghost use Rattle.std.specs.Prelude.{◌≡◌, ◌≤◌, length, map};
ghost use Rattle.std.specs.Option.{option_copied};
ghost use Rattle.text_core.specs.Words.{words_after, words_of};
ghost use Rattle.text_forms.specs.Forms.{are_as_long, cause_of, fits, fitting, is_as_long, is_whole, most_fitting, turn_of};

use crate::value::value_in;
use text_core::{first_word, hex_byte};

/// What stands at a place of a form.
#[derive(Clone, Copy, Debug, PartialEq, Eq)]
pub enum Slot {
    /// The word itself.
    Word,
    /// The word of a key: itself, and `KEY` in what is shown.
    Key,
    /// A time in microseconds, at most 1,000,000,000,000.
    Time,
    /// Such a time, of which the caller tells the fault: causes of its own come before it.
    LateTime,
    /// A number.
    Number,
    /// A port: a number that counts as 255 above it.
    Port,
    /// The port of a key, of which a fault comes before that of the time.
    KeyPort,
    /// A count of ports, at most 15.
    Ports,
    /// `0` or `1`.
    Level,
    /// `on` or `off`.
    Switch,
    /// A kind of device.
    Kind,
    /// An opcode: a byte in two hex digits. A line with another word here has another form.
    Opcode,
    /// Any word. The caller says what it means.
    Text,
    /// All that stands from here on, at least one word.
    Rest,
}

/// Why a line fits no form, or has no value at a place.
#[derive(Clone, Copy, Debug, Drop, PartialEq, Eq)]
pub enum LineCause {
    /// No such line, or no such word in it.
    Word,
    /// An ill-formed number, or one past its limit.
    Number,
}

impl Slot {
    /// The cause of a word that has no value here.
    pub fn cause(self) -> LineCause
        ensures { result ≡ cause_of self }
    {
        match self {
            Slot::Word
            | Slot::Key
            | Slot::Switch
            | Slot::Kind
            | Slot::Opcode
            | Slot::Text
            | Slot::Rest => LineCause::Word,
            Slot::Time
            | Slot::LateTime
            | Slot::Number
            | Slot::Port
            | Slot::KeyPort
            | Slot::Ports
            | Slot::Level => LineCause::Number,
        }
    }

    // Whose fault is told first: 0, then 1, then 2. A fault of turn 3 is left to the caller.
    pub(crate) fn turn(self) -> u8
        ensures { result ≡ turn_of self }
    {
        match self {
            Slot::Word
            | Slot::Key
            | Slot::Switch
            | Slot::Kind
            | Slot::Opcode
            | Slot::Text
            | Slot::Rest => 0,
            Slot::KeyPort => 1,
            Slot::Time | Slot::Number | Slot::Port | Slot::Ports | Slot::Level => 2,
            Slot::LateTime => 3,
        }
    }
}

fn fits(place: (Slot, &str), word: &[u8]) -> bool
    ensures { result ≡ fits (place.entry.0, place.entry.1.now) word.now }
{
    match place.0 {
        Slot::Word | Slot::Key => place.1.as_bytes() == word,
        Slot::Opcode => hex_byte(word).is_some(),
        _ => true,
    }
}

/// How many words of a line, from the left, fit a form.
#[tactic(auto, unfolding(crate::specs::Forms::fitting))]
pub fn fitting(form: &[(Slot, &str)], line: Option<&[u8]>) -> usize
    ensures count { result ≡ fitting (map (λ p. (p.0, p.1.now)) form.now) (words_after (option_copied line.entry)) }
    ensures few { result ≤ length form.now }
{
    let [place, others @ ..] = form else {
        return 0;
    };
    let Some(text) = line else {
        return 0;
    };
    let (word, after) = first_word(text);
    if fits(*place, word) {
        1 + fitting(others, after)
    } else {
        0
    }
}

/// Whether the words of a line are those of a form.
#[tactic(auto, unfolding(crate::specs::Forms::is_whole))]
pub(crate) fn is_whole(form: &[(Slot, &str)], line: Option<&[u8]>) -> bool
    ensures { result ≡ is_whole (map (λ p. (p.0, p.1.now)) form.now) (words_after (option_copied line.entry)) }
{
    let Some(text) = line else {
        return match form {
            [_first, _others @ ..] => false,
            _ => true,
        };
    };
    let (word, after) = first_word(text);
    let [place, others @ ..] = form else {
        return false;
    };
    fits(*place, word) && (place.0 == Slot::Rest || is_whole(others, after))
}

fn is_as_long(place: (Slot, &str), word: &[u8]) -> bool
    ensures { result ≡ is_as_long (place.entry.0, place.entry.1.now) word.now }
{
    match place.0 {
        Slot::Word | Slot::Key => place.1.as_bytes().len() == word.len(),
        _ => true,
    }
}

// Whether these words are as many as those of a form, and as long where it has words of its own.
#[tactic(auto, unfolding(crate::specs::Forms::are_as_long))]
fn are_as_long(form: &[(Slot, &str)], words: &[&[u8]]) -> bool
    ensures { result ≡ are_as_long (map (λ p. (p.0, p.1.now)) form.now) (map (λ w. w.now) words.now) }
{
    let [word, others @ ..] = words else {
        return match form {
            [_first, _others @ ..] => false,
            _ => true,
        };
    };
    let [place, places @ ..] = form else {
        return false;
    };
    is_as_long(*place, word) && (place.0 == Slot::Rest || are_as_long(places, others))
}

// Whether these words are those of a form, byte by byte.
#[tactic(auto, unfolding(crate::specs::Forms::is_whole))]
fn are_same(form: &[(Slot, &str)], words: &[&[u8]]) -> bool
    ensures { result ≡ is_whole (map (λ p. (p.0, p.1.now)) form.now) (map (λ w. w.now) words.now) }
{
    let [word, others @ ..] = words else {
        return match form {
            [_first, _others @ ..] => false,
            _ => true,
        };
    };
    let [place, places @ ..] = form else {
        return false;
    };
    fits(*place, word) && (place.0 == Slot::Rest || are_same(places, others))
}

/// Whether these words are those of a form. Their lengths, which leave few forms, are compared before their bytes.
#[tactic(auto, using(crate::proofs::Lengths::none_whole))]
pub(crate) fn are_whole(form: &[(Slot, &str)], words: &[&[u8]]) -> bool
    ensures { result ≡ is_whole (map (λ p. (p.0, p.1.now)) form.now) (map (λ w. w.now) words.now) }
{
    if are_as_long(form, words) {
        are_same(form, words)
    } else {
        false
    }
}

/// The most words of a line that fit one of some forms. The word after them is the first that fits none.
#[tactic(auto, unfolding(crate::specs::Forms::most_fitting))]
pub fn most_fitting<V: Copy>(forms: &[(V, &[(Slot, &str)])], line: &[u8]) -> usize
    ensures { result ≡ most_fitting (map (λ r. (r.0, map (λ p. (p.0, p.1.now)) r.1.now)) forms.now) (words_of line.now) }
{
    match forms {
        [form, others @ ..] => fitting(form.1, Some(line)).max(most_fitting(others, line)),
        _ => 0,
    }
}

/// How many words of a line, from the left, fit a form as help understands it: also a word of a set is to be one of them.
pub fn fitting_said(form: &[(Slot, &str)], line: Option<&[u8]>) -> usize
    ensures few { result ≤ length form.now }
{
    let [place, others @ ..] = form else {
        return 0;
    };
    let Some(text) = line else {
        return 0;
    };
    let (word, after) = first_word(text);
    if fits(*place, word) && (place.0.turn() > 0 || value_in(place.0, word).is_some()) {
        1 + fitting_said(others, after)
    } else {
        0
    }
}
