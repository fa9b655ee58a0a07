//! Forms of lines: words, of which one in capitals stands for a value.
use arrayvec::ArrayVec;
use device_features::KeyWord;
use explain_lists::Draft;
use room_lines::{EXPECT, ExpectVerb, How, SCRIPT, SESSION, STEPS, TOPOLOGY};
use text_core::Kind;
use text_forms::Slot;

/// The most forms that the lines of an input have.
const MOST_FORMS: usize = 32;

type Row = &'static [(Slot, &'static str)];

type Forms = ArrayVec<Form, MOST_FORMS>;

/// A form: places of a row of a table, and the words that stand after them.
#[derive(Clone, Copy, Default)]
pub struct Form {
    front: Row,
    tail: &'static str,
}

/// What an expectation speaks of.
#[derive(Clone, Copy, PartialEq, Eq)]
pub enum Expected {
    /// Rounds, at least one of them.
    Rounds,
    /// No round, or a number of them.
    Counts,
    /// What a run has and a capture has not: states of devices, and events that are refused.
    OfRuns,
    /// Remarks of an audit.
    Remarks,
}

/// Lines of one kind: those of a table, or those of some texts.
#[derive(Clone, Copy)]
pub enum Lines {
    Topology,
    Script,
    Session,
    Steps,
    Expect(Expected),
    Texts(&'static [&'static str]),
}

impl Form {
    /// How many words it has.
    pub fn count(self) -> usize {
        let after = if self.tail.is_empty() {
            0
        } else {
            self.tail.split(' ').count()
        };
        self.front.len().saturating_add(after)
    }

    /// The word at a place.
    pub fn word(self, place: usize) -> Option<&'static str> {
        match self.front.get(place) {
            Some(wanted) => Some(wanted.1),
            None if self.tail.is_empty() => None,
            None => self
                .tail
                .split(' ')
                .nth(place.saturating_sub(self.front.len())),
        }
    }

    /// Adds its words.
    pub fn add_to(self, draft: &mut Draft) {
        let mut before = "";
        for place in self.front {
            draft.add_all(&[before, place.1]);
            before = " ";
        }
        if !self.tail.is_empty() {
            draft.add_all(&[before, self.tail]);
        }
    }
}

// Whether two forms have the same words.
fn are_same(one: Form, other: Form) -> bool {
    let count = one.count();
    count == other.count() && (0..count).all(|place| one.word(place) == other.word(place))
}

// Adds a form, unless it has the words of the one before it.
fn add_form(forms: &mut Forms, form: Form) {
    let is_new = match forms.as_slice().last() {
        Some(last) => !are_same(*last, form),
        None => true,
    };
    if is_new {
        let _ = forms.try_push(form);
    }
}

// Adds the forms of a row: one for each word of a set, and one with KEY for the words of all keys.
fn add_row(forms: &mut Forms, row: Row) {
    let mut count = 0usize;
    for place in row {
        let words = match place.0 {
            Slot::Key => "KEY",
            Slot::Switch | Slot::Rest => place.1,
            _ => "",
        };
        if !words.is_empty() {
            let front = row.get(..count).unwrap_or(row);
            for tail in words.split('|') {
                add_form(forms, Form { front, tail });
            }
            return;
        }
        count = count.saturating_add(1);
    }
    add_form(
        forms,
        Form {
            front: row,
            tail: "",
        },
    );
}

fn add_rows<V>(forms: &mut Forms, rows: &[(V, Row)]) {
    for row in rows {
        add_row(forms, row.1);
    }
}

fn expected_by(verb: ExpectVerb) -> Expected {
    match verb {
        ExpectVerb::Within(How::AtLeastOnce) | ExpectVerb::From(How::AtLeastOnce) => {
            Expected::Rounds
        }
        ExpectVerb::Within(_) | ExpectVerb::From(_) => Expected::Counts,
        ExpectVerb::State | ExpectVerb::Refused | ExpectVerb::RefusedAbove => Expected::OfRuns,
        ExpectVerb::NoRemark | ExpectVerb::NoRemarkOf => Expected::Remarks,
    }
}

// Adds the forms of the expectations that speak of this.
fn add_expected(forms: &mut Forms, expected: Expected) {
    for row in EXPECT {
        if expected_by(row.0) == expected {
            add_row(forms, row.1);
        }
    }
}

fn add_texts(forms: &mut Forms, texts: &[&'static str]) {
    for text in texts {
        let tail = *text;
        add_form(forms, Form { front: &[], tail });
    }
}

/// The forms of lines, in their order.
pub fn forms_in(lines: &[Lines]) -> ArrayVec<Form, MOST_FORMS> {
    let mut forms = ArrayVec::new();
    for some in lines {
        match *some {
            Lines::Topology => add_rows(&mut forms, TOPOLOGY),
            Lines::Script => add_rows(&mut forms, SCRIPT),
            Lines::Session => add_rows(&mut forms, SESSION),
            Lines::Steps => add_rows(&mut forms, STEPS),
            Lines::Expect(expected) => add_expected(&mut forms, expected),
            Lines::Texts(texts) => add_texts(&mut forms, texts),
        }
    }
    forms
}

/// Whether a word of a form stands for a value.
pub fn is_value(wanted: &str) -> bool {
    match wanted.as_bytes().first() {
        Some(byte) => byte.is_ascii_uppercase(),
        None => false,
    }
}

// Whether a byte is a hex digit as opcodes are written.
fn is_digit(byte: u8) -> bool {
    byte.is_ascii_digit() || (b'a'..=b'f').contains(&byte)
}

// Whether a byte is a logical address of a device: 0 to e.
fn is_address(byte: u8) -> bool {
    is_digit(byte) && byte != b'f'
}

// Whether a word is an opcode: two hex digits in lower case.
fn is_opcode(word: &str) -> bool {
    word.len() == 2 && word.bytes().all(is_digit)
}

// Whether a digit stands once in a word.
fn stands_once(word: &str, digit: u8) -> bool {
    let mut count = 0usize;
    for other in word.bytes() {
        if other == digit {
            count = count.saturating_add(1);
        }
    }
    count == 1
}

// Whether a word says what a device from outside holds: `-`, or one to four logical addresses.
fn is_held(word: &str) -> bool {
    if word == "-" {
        return true;
    }
    for part in word.split('+') {
        match part.as_bytes() {
            [digit] if is_address(*digit) && stands_once(word, *digit) => {}
            _ => return false,
        }
    }
    word.len() <= 7
}

// Whether a word may stand where a form has another.
fn fits(wanted: &str, word: &str) -> bool {
    match wanted {
        "KIND" => Kind::named(word.as_bytes()).is_some(),
        "KEY" => KeyWord::named(word.as_bytes()).is_some(),
        "XX" => is_opcode(word),
        "ADDRS" => is_held(word),
        _ => is_value(wanted) || wanted == word,
    }
}

/// How many words of a line, from the left, fit a form.
pub fn fitting(form: Form, line: &str) -> usize {
    let mut count = 0usize;
    for word in line.split(' ') {
        match form.word(count) {
            Some(wanted) if fits(wanted, word) => count = count.saturating_add(1),
            _ => return count,
        }
    }
    count
}

/// The most words of a line that fit one of the forms: the word after them is the first that fits none.
pub fn most_fitting(lines: &[Lines], line: &str) -> usize {
    let forms = forms_in(lines);
    let mut most = 0;
    for form in forms.as_slice() {
        most = most.max(fitting(*form, line));
    }
    most
}

// The word that a line has to have after so many, where one form alone fits those, and goes on.
fn word_after(lines: &[Lines], line: &str, count: usize) -> Option<&'static str> {
    let forms = forms_in(lines);
    let mut after = None;
    for form in forms.as_slice() {
        if fitting(*form, line) == count {
            if after.is_some() {
                return None;
            }
            after = form.word(count);
        }
    }
    after
}

/// The word that a line lacks at its end, where one form alone fits all that it has.
pub fn missing(lines: &[Lines], line: &str) -> Option<&'static str> {
    word_after(lines, line, line.split(' ').count())
}
