//! A reader of a dump, word by word.
ghost use Rattle.std.specs.Prelude.{◌≡◌, ◌<◌, false, slice_index, position, Option, None};
ghost use Rattle.std.specs.List.{list_all};
ghost use Rattle.capture_vcd.specs.Dump.{is_bit, is_high, is_other_value, is_mark, is_space, is_vector, vector_value};

use crate::scale::{Count, Scale, counted_word, instant_of, unit_of};
use crate::words::space_in;
use capture_core::{Cause, TakesWords, Track};
use line_wave::Edge;
use text_core::{AtWord, after, at_word, byte_at};

/// What the next word of a variable's definition is.
#[derive(Clone, Copy, Debug, PartialEq, Eq)]
pub enum DefinitionField {
    Kind,
    Size,
    /// The identifier, of a variable of one bit or of another one.
    Id(bool),
    Name(bool),
}

/// What the next word belongs to.
#[derive(Clone, Copy, Debug, PartialEq, Eq)]
pub enum Section {
    /// Nothing: it is a keyword or a change.
    Free,
    /// A section of which nothing more is read.
    Skipped,
    /// The time scale, of which this is the count.
    Scale,
    /// The time scale, of which this is the unit.
    Unit(Count),
    /// The definition of a variable.
    Variable(DefinitionField),
    /// A change, of which the value is read: whether the wire is low by it, where it is a value of one bit.
    Value(Option<bool>),
}

// Whether a byte stands for a value at which nobody pulls.
fn is_high(byte: u8) -> bool
    ensures { result ≡ is_high byte }
{
    byte == b'1' || byte == b'z' || byte == b'Z' || byte == b'x' || byte == b'X'
}

// Whether these are bits of a vector.
fn are_bits(bits: &[u8]) -> bool
    ensures { result ≡ list_all is_bit bits.now }
{
    bits.iter().all(|bit| *bit == b'0' || is_high(*bit))
}

// Whether a word is a vector of bits.
fn is_vector(word: &[u8]) -> bool
    ensures { result ≡ is_vector word.now }
{
    let mark = byte_at(word, 0);
    let bits = after(word, 1);
    (mark == b'b' || mark == b'B') && (!bits.is_empty() && are_bits(bits))
}

// Whether a byte begins a real number or a string.
fn is_other_value(byte: u8) -> bool
    ensures { result ≡ is_other_value byte }
{
    byte == b'r' || byte == b'R' || byte == b's' || byte == b'S'
}

// Whether a keyword stands among changes and says nothing itself.
fn is_mark(word: &[u8]) -> bool
    ensures { result ≡ is_mark word.now }
{
    word == b"$dumpvars".as_slice()
        || word == b"$dumpall".as_slice()
        || word == b"$dumpon".as_slice()
        || word == b"$dumpoff".as_slice()
        || word == b"$end".as_slice()
}

// Whether a wire is low by a vector, where that has one bit.
fn vector_value(word: &[u8]) -> Option<bool>
    ensures { result ≡ vector_value word.now }
{
    if word.len() == 2 {
        Some(byte_at(word, 1) == b'0')
    } else {
        None
    }
}

/// A reader of the words of a dump.
#[derive(Clone, Copy, Debug)]
pub struct VcdReader<'a> {
    /// The name of the wire; an empty one stands for any.
    name: &'a [u8],
    section: Section,
    scale: Option<Scale>,
    /// The identifier of the wire.
    id: Option<&'a [u8]>,
    /// The identifier of the variable that is being defined.
    candidate: &'a [u8],
    /// Whether the definitions have ended.
    is_data: bool,
    track: Track,
}

impl<'a> VcdReader<'a> {
    ghost use Rattle.capture_core.specs.Reading.{Takes};
    ghost use Rattle.capture_vcd.specs.Dump.{first_state, after_name, change, definition, free, in_field, in_section, keyword, end_of_definitions, scalar, scale_begun, scale_made, state_of_reader, after_time, took, after_value};
    ghost use Rattle.capture_vcd.specs.Scale.{counted_word};

    /// A reader at the front of a dump.
    pub fn new(name: &'a [u8]) -> Self
        ensures { state_of_reader result ≡ first_state name.now }
    {
        VcdReader {
            name,
            section: Section::Free,
            scale: None,
            id: None,
            candidate: name,
            is_data: false,
            track: Track::new(),
        }
    }

    // The value of a variable.
    fn set(&mut self, value: Option<bool>, id: &[u8])
        ensures { state_of_reader self.new ≡ after_value value id.now (state_of_reader self.old) }
    {
        if let Some(is_low) = value {
            if let Some(own) = self.id {
                if id == own {
                    self.track.set(is_low);
                }
            }
        }
    }

    // A value of one bit, and what stands after it: the identifier of its variable, or nothing, where that comes next.
    fn set_scalar(&mut self, is_low: bool, id: &[u8])
        ensures { state_of_reader self.new ≡ scalar is_low id.now (state_of_reader self.old) }
    {
        if id.is_empty() {
            self.section = Section::Value(Some(is_low));
        } else {
            self.set(Some(is_low), id);
        }
    }

    // The time of the changes that follow.
    fn go_to(&mut self, instant: Option<u64>) -> Result<Option<Edge>, Cause>
        ensures { Takes (after_time instant (state_of_reader self.old)) result (state_of_reader self.new) }
    {
        let Some(instant) = instant else {
            return Err(Cause::Time);
        };
        match self.track.go_to(instant) {
            Ok(edge) => Ok(edge),
            Err(_) => Err(Cause::Order),
        }
    }

    // The definitions end.
    fn begin_data(&mut self) -> Result<Option<Edge>, Cause>
        ensures { Takes (end_of_definitions (state_of_reader self.old)) result (state_of_reader self.new) }
    {
        if self.scale.is_none() {
            return Err(Cause::Scale);
        }
        if self.id.is_none() {
            return Err(Cause::Signal);
        }
        self.is_data = true;
        self.section = Section::Skipped;
        Ok(None)
    }

    // A keyword of the definitions.
    fn take_definition(&mut self, word: &[u8]) -> Result<Option<Edge>, Cause>
        ensures { Takes (definition word.now (state_of_reader self.old)) result (state_of_reader self.new) }
    {
        if word == b"$enddefinitions".as_slice() {
            return self.begin_data();
        }
        if word == b"$timescale".as_slice() {
            self.section = Section::Scale;
        } else if word == b"$var".as_slice() {
            self.section = Section::Variable(DefinitionField::Kind);
        } else if word != b"$end".as_slice() {
            self.section = Section::Skipped;
        }
        Ok(None)
    }

    // A keyword.
    fn take_keyword(&mut self, word: &[u8]) -> Result<Option<Edge>, Cause>
        ensures { Takes (keyword word.now (state_of_reader self.old)) result (state_of_reader self.new) }
    {
        if !self.is_data {
            return self.take_definition(word);
        }
        if !is_mark(word) {
            self.section = Section::Skipped;
        }
        Ok(None)
    }

    // A change, or a time.
    fn take_change(&mut self, word: &[u8]) -> Result<Option<Edge>, Cause>
        ensures { Takes (change (slice_index word.now 0) word.now (state_of_reader self.old)) result (state_of_reader self.new) }
    {
        let mark = byte_at(word, 0);
        if mark == b'#' {
            return match self.scale {
                None => Err(Cause::Scale),
                Some(scale) => self.go_to(instant_of(scale, after(word, 1))),
            };
        }
        if mark == b'0' {
            self.set_scalar(true, after(word, 1));
        } else if is_high(mark) {
            self.set_scalar(false, after(word, 1));
        } else if is_vector(word) {
            self.section = Section::Value(vector_value(word));
        } else if is_other_value(mark) {
            self.section = Section::Value(None);
        } else {
            return Err(Cause::Word);
        }
        Ok(None)
    }

    // A keyword or a change.
    fn take_free(&mut self, word: &[u8]) -> Result<Option<Edge>, Cause>
        ensures { Takes (free word.now (state_of_reader self.old)) result (state_of_reader self.new) }
    {
        if byte_at(word, 0) == b'$' {
            return self.take_keyword(word);
        }
        if !self.is_data {
            return Ok(None);
        }
        self.take_change(word)
    }

    // The unit of the time scale.
    fn make_scale(&mut self, count: Count, word: &[u8]) -> Result<Option<Edge>, Cause>
        ensures { Takes (scale_made count word.now (state_of_reader self.old)) result (state_of_reader self.new) }
    {
        match unit_of(word) {
            None => Err(Cause::Scale),
            Some(unit) => {
                self.scale = Some(Scale { count, unit });
                self.section = Section::Skipped;
                Ok(None)
            }
        }
    }

    // The count of the time scale, perhaps with its unit.
    fn take_scale(&mut self, word: &[u8]) -> Result<Option<Edge>, Cause>
        ensures { Takes (scale_begun (counted_word word.now) (state_of_reader self.old)) result (state_of_reader self.new) }
    {
        match counted_word(word) {
            None => Err(Cause::Scale),
            Some((count, rest)) => {
                if !rest.is_empty() {
                    return self.make_scale(count, rest);
                }
                self.section = Section::Unit(count);
                Ok(None)
            }
        }
    }

    // The name of a variable.
    fn take_name(&mut self, is_bit: bool, word: &[u8])
        ensures { state_of_reader self.new ≡ after_name is_bit word.now (state_of_reader self.old) }
    {
        if is_bit && self.id.is_none() && (self.name.is_empty() || word == self.name) {
            self.id = Some(self.candidate);
        }
        self.section = Section::Skipped;
    }

    // A word of a variable's definition.
    fn take_field(&mut self, field: DefinitionField, word: &'a [u8])
        ensures { state_of_reader self.new ≡ in_field field word.now (state_of_reader self.old) }
    {
        match field {
            DefinitionField::Kind => self.section = Section::Variable(DefinitionField::Size),
            DefinitionField::Size => {
                self.section = Section::Variable(DefinitionField::Id(word == b"1".as_slice()));
            }
            DefinitionField::Id(is_bit) => {
                self.candidate = word;
                self.section = Section::Variable(DefinitionField::Name(is_bit));
            }
            DefinitionField::Name(is_bit) => self.take_name(is_bit, word),
        }
    }

    // The next word, which is not empty.
    fn take_some(&mut self, word: &'a [u8]) -> Result<Option<Edge>, Cause>
        ensures { Takes (in_section self.old.section word.now (state_of_reader self.old)) result (state_of_reader self.new) }
    {
        match self.section {
            Section::Free => return self.take_free(word),
            Section::Scale => return self.take_scale(word),
            Section::Unit(count) => return self.make_scale(count, word),
            Section::Skipped => {
                if word == b"$end".as_slice() {
                    self.section = Section::Free;
                }
            }
            Section::Variable(field) => {
                if word == b"$end".as_slice() {
                    return Err(Cause::Word);
                }
                self.take_field(field, word);
            }
            Section::Value(value) => {
                self.section = Section::Free;
                self.set(value, word);
            }
        }
        Ok(None)
    }

    // Takes the next word, and returns the edge that is known by it.
    fn take_word(&mut self, word: &'a [u8]) -> Result<Option<Edge>, Cause>
        ensures { Takes (took word.now (state_of_reader self.old)) result (state_of_reader self.new) }
    {
        if word.is_empty() {
            return Ok(None);
        }
        self.take_some(word)
    }
}

impl<'a> TakesWords<'a> for VcdReader<'a> {
    ghost use Rattle.capture_vcd.specs.Dump.{State as StateOf, dump_form, state_of_reader};

    ghost State = { StateOf };

    ghost state = { state_of_reader };

    ghost form = { dump_form };

    fn gap_in(line: &[u8]) -> Option<usize>
        ensures { result ≡ position is_space line.now }
    {
        space_in(line)
    }

    fn take(&mut self, number: usize, word: &'a [u8]) -> Result<Option<Edge>, AtWord<Cause>> {
        match self.take_word(word) {
            Ok(edge) => Ok(edge),
            Err(cause) => Err(at_word(number, cause)),
        }
    }

    fn track(&self) -> Track {
        self.track
    }

    fn end(&self) -> Result<u64, Cause> {
        if self.is_data {
            Ok(self.track.at())
        } else {
            Err(Cause::End)
        }
    }
}
