//! What the line of a round can say, and which patterns it can meet.
ghost use Rattle.std.specs.Prelude.{◌≡◌, ◌+◌, ◌-◌, ◌<◌, ◌≤◌, ◌^◌, ◌++◌, ◌∷◌, [], length};
ghost use Rattle.std.specs.List.{list_any};
ghost use Rattle.message_table.specs.Operands.{size_of};
ghost use Rattle.message_table.specs.Table.{operands_of};
ghost use Rattle.message_text.specs.ReadingText.{verdict_by};
ghost use Rattle.expect_text.specs.Parts.{any_below, end_met, is_met};
ghost use Rattle.expect_text.specs.Senders.{judged_as, tail_met};
ghost use Rattle.expect_text.specs.declared.part.PatternPart.TheVariants.{Many};
ghost use Rattle.expect_text.specs.declared.part.Class.TheVariants.{Any};
ghost use Rattle.expect_text.specs.Said.{ending_word, header_parts, hex_parts, hole_met, is_complete_met, is_ending_met, is_opcode_met, is_open_met, is_operand_met, is_poll_met, is_said, literal, opcode_parts, operand_parts, operands_parts, quoted_parts, quoted_up_to, raw_but, raw_from, raw_parts, repeat, spoilt_at, spoilt_from, spoilt_operand, spoilt_parts, unworded_parts, verdict_parts, volume_parts, worded_parts};

use crate::hole::Hole;
use crate::part::{After, Class, Judged, PatternPart, Worded, is_met};
use arrayvec::ArrayVec;
use line_frames::Ending;
use message_table::{Operand, Operands, operands_of};

/// A few parts of a line.
type Parts = ArrayVec<PatternPart, 48>;

/// All parts of a line.
type LineParts = ArrayVec<PatternPart, 128>;

/// The most bytes of operands.
const MOST: usize = 14;

// These bytes, each a part.
fn literal(text: &[u8]) -> Parts
    requires { length text.now ≤ 32 }
    ensures value { result.items ≡ literal text.now }
    ensures few { length result.items ≡ length text.now }
{
    let mut parts = ArrayVec::new();
    for byte in text {
        parts.push(PatternPart::Byte(*byte));
    }
    parts
}

fn parts_of(parts: &[PatternPart]) -> Parts
    requires { length parts.now ≤ 48 }
    ensures { result.items ≡ parts.now }
{
    let mut items = ArrayVec::new();
    let _ = items.try_extend_from_slice(parts);
    items
}

fn both(front: &[PatternPart], back: &[PatternPart]) -> Parts
    requires { length front.now + length back.now ≤ 48 }
    ensures { result.items ≡ front.now ++ back.now }
{
    let mut items = parts_of(front);
    let _ = items.try_extend_from_slice(back);
    items
}

// So many of this part.
fn repeat(count: usize, part: PatternPart) -> Parts
    requires { count ≤ 30 }
    ensures value { result.items ≡ repeat count part }
    ensures few { length result.items ≡ count }
{
    if count == 0 {
        return ArrayVec::new();
    }
    both(&[part], &repeat(count - 1, part))
}

fn size(operand: Operand) -> usize
    ensures value { result ≡ size_of operand }
    ensures small { result ≤ 3 }
{
    usize::from(operand.size())
}

impl Hole<'_> {
    // Whether the line with these operands meets the pattern.
    fn is_met_with(&self, operands: &[PatternPart]) -> bool
        requires { length operands.now ≤ 48 }
        ensures { result ≡ hole_met self.now operands.now }
    {
        let mut parts: LineParts = ArrayVec::new();
        let _ = parts.try_extend_from_slice(self.front);
        let _ = parts.try_extend_from_slice(operands);
        let _ = parts.try_extend_from_slice(self.back);
        is_met(&parts, After::Tail(self.who), self.pattern)
    }

    // Whether one of the lines with so many bytes of operands in hex, or more, does.
    fn is_met_raw(&self, least: usize, count: usize) -> bool
        requires { least + count ≤ 15 }
        ensures { result ≡ list_any (hole_met self.now) (raw_from least count) }
    {
        count > 0 && (self.is_met_with(&raw_parts(least)) || self.is_met_raw(least + 1, count - 1))
    }

    // The same of any count but one.
    fn is_met_raw_but(&self, count: usize) -> bool
        requires { count ≤ 14 }
        ensures { result ≡ list_any (hole_met self.now) (raw_but count) }
    {
        self.is_met_raw(0, count) || self.is_met_raw(count + 1, MOST - count)
    }

    // Whether the line with a byte that has no word between so many bytes does.
    fn is_met_spoilt(&self, before: usize, kind: Worded, after: usize) -> bool
        requires { before + after ≤ 13 }
        ensures { result ≡ hole_met self.now (spoilt_parts before kind after) }
    {
        self.is_met_with(&spoilt_parts(before, kind, after))
    }

    // The same with fewer after it than this.
    fn is_met_spoilt_at(&self, before: usize, kind: Worded, count: usize) -> bool
        requires { before + count ≤ 14 }
        ensures { result ≡ list_any (hole_met self.now) (spoilt_at before kind count) }
    {
        count > 0
            && (self.is_met_spoilt(before, kind, count - 1)
                || self.is_met_spoilt_at(before, kind, count - 1))
    }

    // The same from there on, in so many bytes or fewer.
    fn is_met_spoilt_from(&self, before: usize, kind: Worded, count: usize) -> bool
        requires { before + count ≤ 14 }
        ensures { result ≡ list_any (hole_met self.now) (spoilt_from before kind count) }
    {
        count > 0
            && (self.is_met_spoilt_at(before, kind, count)
                || self.is_met_spoilt_from(before + 1, kind, count - 1))
    }

    // Whether the line does with an operand that has no word between so many bytes.
    fn is_met_spoilt_operand(&self, before: usize, operand: Operand, after: usize) -> bool
        requires { before + after + size_of operand ≤ 14 }
        ensures { result ≡ list_any (hole_met self.now) (spoilt_operand before operand after) }
    {
        match operand {
            Operand::Byte | Operand::Vendor | Operand::Address => false,
            Operand::Word(set) => self.is_met_spoilt(before, Worded::Listed(set), after),
            Operand::Language => {
                self.is_met_spoilt(before, Worded::Character, 2 + after)
                    || self.is_met_spoilt(before + 1, Worded::Character, 1 + after)
                    || self.is_met_spoilt(before + 2, Worded::Character, after)
            }
        }
    }

    // Whether the line does with operands that do not fit their row.
    fn is_met_unworded(&self, operands: Operands) -> bool
        ensures { result ≡ list_any (hole_met self.now) (unworded_parts operands) }
    {
        match operands {
            Operands::Raw => self.is_met_raw(0, 15),
            Operands::Nothing => self.is_met_raw(1, 14),
            Operands::One(only) => {
                self.is_met_raw_but(size(only)) || self.is_met_spoilt_operand(0, only, 0)
            }
            Operands::Optional(only) => {
                self.is_met_raw(1, size(only).saturating_sub(1))
                    || self.is_met_raw(size(only) + 1, MOST - size(only))
                    || self.is_met_spoilt_operand(0, only, 0)
            }
            Operands::Two(first, second) => {
                self.is_met_raw_but(size(first) + size(second))
                    || self.is_met_spoilt_operand(0, first, size(second))
                    || self.is_met_spoilt_operand(size(first), second, 0)
            }
            Operands::Volume => {
                self.is_met_raw_but(1) || self.is_met_spoilt(0, Worded::Loudness, 0)
            }
            Operands::Text => {
                self.is_met_raw(0, 1) || self.is_met_spoilt_from(0, Worded::Quoted, 14)
            }
            Operands::WordAndText(set) => {
                self.is_met_raw(0, 1)
                    || self.is_met_spoilt_at(0, Worded::Listed(set), 14)
                    || self.is_met_spoilt_from(1, Worded::Quoted, 13)
            }
        }
    }

    // Whether the line does with a text in quotes, of so many characters or fewer, after these parts.
    fn is_met_quoted(&self, front: &[PatternPart], most: usize) -> bool
        requires few { length front.now ≤ 2 }
        requires short { most ≤ 14 }
        ensures { result ≡ list_any (hole_met self.now) (quoted_up_to front.now most) }
    {
        most > 0
            && (self.is_met_with(&both(front, &quoted_parts(most)))
                || self.is_met_quoted(front, most - 1))
    }

    // Whether the line does with a volume up to 100 after this word.
    fn is_met_loud(&self, word: &[u8]) -> bool
        requires { length word.now ≤ 8 }
        ensures { result ≡ list_any (hole_met self.now) (volume_parts word.now) }
    {
        let front = literal(word);
        let digit = PatternPart::One(Class::Digit);
        self.is_met_with(&both(&front, &[digit]))
            || self.is_met_with(&both(&front, &[PatternPart::One(Class::NonZero), digit]))
            || self.is_met_with(&both(&front, &literal(b"100")))
    }

    // Whether the line does with operands that fit their row, in words.
    fn is_met_worded(&self, operands: Operands) -> bool
        ensures { result ≡ list_any (hole_met self.now) (worded_parts operands) }
    {
        match operands {
            Operands::Raw => false,
            Operands::Nothing => self.is_met_with(&[]),
            Operands::One(only) => self.is_met_with(&operand_parts(only)),
            Operands::Optional(only) => {
                self.is_met_with(&[]) || self.is_met_with(&operand_parts(only))
            }
            Operands::Two(first, second) => {
                self.is_met_with(&both(&operand_parts(first), &operand_parts(second)))
            }
            Operands::Volume => self.is_met_loud(b" mute ") || self.is_met_loud(b" sound "),
            Operands::Text => self.is_met_quoted(&[], MOST),
            Operands::WordAndText(set) => {
                let word = [PatternPart::Byte(b' '), PatternPart::Word(set)];
                self.is_met_with(&word) || self.is_met_quoted(&word, MOST - 1)
            }
        }
    }

    // Whether the line does with operands of such a row.
    fn is_met_by(&self, operands: Operands) -> bool
        ensures { result ≡ list_any (hole_met self.now) (operands_parts operands) }
    {
        self.is_met_worded(operands) || self.is_met_unworded(operands)
    }
}

fn operand_parts(operand: Operand) -> Parts
    ensures value { result.items ≡ operand_parts operand }
    ensures few { length result.items ≤ 8 }
{
    let space = PatternPart::Byte(b' ');
    let hex = PatternPart::One(Class::Hex);
    let letter = PatternPart::One(Class::Letter);
    let dot = PatternPart::Byte(b'.');
    match operand {
        Operand::Byte => parts_of(&[space, hex, hex]),
        Operand::Word(set) => parts_of(&[space, PatternPart::Word(set)]),
        Operand::Language => parts_of(&[space, letter, letter, letter]),
        Operand::Vendor => parts_of(&[space, hex, hex, hex, hex, hex, hex]),
        Operand::Address => parts_of(&[space, hex, dot, hex, dot, hex, dot, hex]),
    }
}

// A text of so many characters in quotes.
#[tactic(auto, unfolding(crate::specs::Said::quoted_parts))]
fn quoted_parts(count: usize) -> Parts
    requires { count ≤ 14 }
    ensures value { result.items ≡ quoted_parts count }
    ensures few { length result.items ≤ 17 }
{
    let quote = PatternPart::Byte(b'"');
    let characters = repeat(count, PatternPart::One(Class::Quotable));
    both(
        &[PatternPart::Byte(b' '), quote],
        &both(&characters, &[quote]),
    )
}

// So many bytes in hex.
#[tactic(auto, unfolding(crate::specs::Said::raw_parts))]
fn raw_parts(count: usize) -> Parts
    requires { count ≤ 14 }
    ensures value { result.items ≡ raw_parts count }
    ensures few { length result.items ≤ 30 }
{
    let digits = repeat(count + count, PatternPart::One(Class::Hex));
    both(&[PatternPart::Byte(b' '), PatternPart::Byte(b':')], &digits)
}

// A byte that has no word, between so many bytes.
#[tactic(auto, unfolding(crate::specs::Said::spoilt_parts))]
fn spoilt_parts(before: usize, kind: Worded, after: usize) -> Parts
    requires { before + after ≤ 13 }
    ensures value { result.items ≡ spoilt_parts before kind after }
    ensures few { length result.items ≤ 30 }
{
    let hex = PatternPart::One(Class::Hex);
    let front = repeat(before + before, hex);
    let back = repeat(after + after, hex);
    let digits = both(&front, &both(&[PatternPart::Unworded(kind)], &back));
    both(&[PatternPart::Byte(b' '), PatternPart::Byte(b':')], &digits)
}

// Initiator and destination.
#[tactic(auto, unfolding(crate::specs::Said::header_parts))]
fn header_parts(is_broadcast: bool) -> Parts
    ensures value { result.items ≡ header_parts is_broadcast }
    ensures few { length result.items ≤ 3 }
{
    let destination = if is_broadcast {
        PatternPart::Byte(b'f')
    } else {
        PatternPart::One(Class::Directed)
    };
    parts_of(&[
        PatternPart::One(Class::Hex),
        PatternPart::Byte(b'>'),
        destination,
    ])
}

// A header and an opcode.
#[tactic(auto, unfolding(crate::specs::Said::opcode_parts))]
fn opcode_parts(is_broadcast: bool, code: u8) -> Parts
    ensures value { result.items ≡ opcode_parts is_broadcast code }
    ensures few { length result.items ≤ 5 }
{
    both(
        &header_parts(is_broadcast),
        &[PatternPart::Byte(b' '), PatternPart::Opcode(code)],
    )
}

fn verdict_word(is_broadcast: bool, last_bit: bool) -> &'static [u8]
    ensures value { result.now ≡ verdict_by is_broadcast last_bit }
    ensures few { length result.now ≤ 8 }
{
    match (is_broadcast, last_bit) {
        (true, true) => b" ok",
        (true, false) => b" refused",
        (false, true) => b" nack",
        (false, false) => b" ack",
    }
}

// What stands after a frame.
#[tactic(auto, unfolding(crate::specs::Said::verdict_parts))]
fn verdict_parts(is_broadcast: bool, last_bit: bool) -> Parts
    ensures value { result.items ≡ verdict_parts is_broadcast last_bit }
    ensures few { length result.items ≤ 8 }
{
    literal(verdict_word(is_broadcast, last_bit))
}

// Whether a text that begins with these parts meets the pattern.
fn is_front_met(front: &[PatternPart], pattern: &[u8]) -> bool
    requires { length front.now ≤ 5 }
    ensures { result ≡ is_met end_met (front.now ++ (Many Any ∷ [])) pattern.now }
{
    is_met(
        &both(front, &[PatternPart::Many(Class::Any)]),
        After::End,
        pattern,
    )
}

// Whether the line of a frame with this opcode and verdict meets the pattern.
fn is_operand_met(
    who: Judged<'_>,
    is_broadcast: bool,
    code: u8,
    pattern: &[u8],
    last_bit: bool,
) -> bool
    ensures { result ≡ is_operand_met (judged_as who.entry) is_broadcast code pattern.now last_bit }
{
    let front = opcode_parts(is_broadcast, code);
    let back = verdict_parts(is_broadcast, last_bit);
    let hole = Hole {
        front: &front,
        back: &back,
        who,
        pattern,
    };
    hole.is_met_by(operands_of(code))
}

// Whether the line of a frame with this opcode meets the pattern. Of most opcodes the name says that it does not.
#[tactic(auto, using(crate::proofs::Fronts::no_opcode))]
fn is_opcode_met(who: Judged<'_>, is_broadcast: bool, pattern: &[u8], code: u8) -> bool
    ensures { result ≡ is_opcode_met (judged_as who.entry) is_broadcast pattern.now code }
{
    if !is_front_met(&opcode_parts(is_broadcast, code), pattern) {
        return false;
    }
    is_operand_met(who, is_broadcast, code, pattern, false)
        || is_operand_met(who, is_broadcast, code, pattern, true)
}

#[tactic(auto, using(crate::proofs::Below::below_more, crate::proofs::Below::below_next, crate::proofs::Below::below_none))]
fn is_any_opcode_met(who: Judged<'_>, is_broadcast: bool, pattern: &[u8]) -> bool
    ensures { result ≡ any_below 256 (is_opcode_met (judged_as who.entry) is_broadcast pattern.now) }
{
    let mut code = 255u8;
    'codes: loop {
        if is_opcode_met(who, is_broadcast, pattern, code) {
            return true;
        }
        if code == 0 {
            return false;
        }
        code -= 1;
    }
}

// Whether the line of a poll with this verdict meets the pattern.
fn is_poll_met(who: Judged<'_>, is_broadcast: bool, pattern: &[u8], last_bit: bool) -> bool
    ensures { result ≡ is_poll_met (judged_as who.entry) is_broadcast pattern.now last_bit }
{
    let header = header_parts(is_broadcast);
    let back = verdict_parts(is_broadcast, last_bit);
    is_met(&both(&header, &back), After::Tail(who), pattern)
}

// Whether the line of a complete reading meets the pattern.
#[tactic(auto, using(crate::proofs::Fronts::no_header))]
fn is_complete_met(who: Judged<'_>, pattern: &[u8], is_broadcast: bool) -> bool
    ensures { result ≡ is_complete_met (judged_as who.entry) pattern.now is_broadcast }
{
    if !is_front_met(&header_parts(is_broadcast), pattern) {
        return false;
    }
    is_poll_met(who, is_broadcast, pattern, false)
        || is_poll_met(who, is_broadcast, pattern, true)
        || is_any_opcode_met(who, is_broadcast, pattern)
}

fn ending_word(ending: Ending) -> &'static [u8]
    ensures value { result.now ≡ ending_word ending }
    ensures few { length result.now ≤ 10 }
{
    match ending {
        Ending::Short => b"short ",
        Ending::Silent => b"silent ",
        Ending::BadStart => b"bad-start ",
        Ending::Long => b"long ",
        Ending::Complete => b"open ",
        Ending::Open => b"open ",
    }
}

// Whether the line of a reading with this ending meets the pattern.
fn is_ending_met(who: Judged<'_>, pattern: &[u8], ending: Ending) -> bool
    ensures { result ≡ is_ending_met (judged_as who.entry) pattern.now ending }
{
    is_met(
        &literal(ending_word(ending)),
        After::Bits { ending, who },
        pattern,
    )
}

// Whether the line of a reading that is not over meets the pattern: a capture alone has one.
fn is_open_met(who: Judged<'_>, pattern: &[u8]) -> bool
    ensures { result ≡ is_open_met (judged_as who.entry) pattern.now }
{
    match who {
        Judged::Run(_) => false,
        Judged::Capture => is_ending_met(who, pattern, Ending::Open),
    }
}

/// Whether a pattern can be met: by what the line of some round says.
#[tactic(auto, using(crate::proofs::Fronts::said_is))]
pub fn is_said(who: Judged<'_>, pattern: &[u8]) -> bool
    ensures { result ≡ is_said (judged_as who.entry) pattern.now }
{
    is_ending_met(who, pattern, Ending::Short)
        || is_ending_met(who, pattern, Ending::Silent)
        || is_ending_met(who, pattern, Ending::BadStart)
        || is_ending_met(who, pattern, Ending::Long)
        || is_open_met(who, pattern)
        || is_complete_met(who, pattern, false)
        || is_complete_met(who, pattern, true)
}
