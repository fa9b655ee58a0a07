//! A text without the carriage returns at the ends of its lines.
ghost use Rattle.std.specs.Prelude.{◌≡◌, ◌≤◌, ◌<◌, min, ◌≢◌, ◌==◌, ℕ, [], take, drop, length, slice_index, true, false, OnOk, OnErr, ◌&&◌, not};
ghost use Rattle.std.specs.Io.KnownBytes.{IsAtEnd, Keeps, prepend_known};
ghost use Rattle.program_input.specs.Plain.{ends_line};
ghost use Rattle.program_input.specs.PlainReading.{IsFilled, IsHanded, IsRun, left_of, run_of, still_left};

use std::io;
use std::io::Read;
use text_core::{after, before, byte_at, len_before};

// So many bytes are read at a time, at most.
const READ: usize = 4096;

/// A reader's text, as it stands or without the carriage return at the end of each line. It reads no further than it has to.
#[derive(Drop)]
pub struct WithoutReturns<R> {
    below: R,
    is_plain: bool,
    /// What the last read gave stands first.
    pending: [u8; READ],
    /// How many bytes it gave.
    given: usize,
    /// How many of these bytes were handed out.
    handed: usize,
    /// Whether a carriage return was read last, and not handed out.
    held: bool,
}

// How much of a text can be handed out at once: up to a carriage return where these may be left out.
fn run_of(text: &[u8], is_plain: bool) -> usize
    ensures value { result ≡ run_of is_plain text.now }
    ensures within { result ≤ length text.now }
{
    if is_plain {
        len_before(text, b'\r')
    } else {
        text.len()
    }
}

// Copies as much of a text as there is room for.
fn copy_front(text: &[u8], count: usize, buf: &mut [u8]) -> usize
    requires { count ≤ length text.now }
    ensures count { result ≡ min count (length buf.old) }
    ensures bytes { take result buf.new ≡ take result text.now }
    ensures same { length buf.new ≡ length buf.old }
{
    let count = count.min(buf.len());
    buf[..count].copy_from_slice(&text[..count]);
    count
}

impl<R: Read> WithoutReturns<R> {
    /// The text of a reader, of which nothing is read yet.
    pub(crate) fn new(below: R, is_plain: bool) -> Self
        ensures { (result.below ≡ below) × (result.is_plain ≡ is_plain) × (result.held ≡ false) × (left_of result ≡ []) }
    {
        WithoutReturns {
            below,
            is_plain,
            pending: [0; READ],
            given: 0,
            handed: 0,
            held: false,
        }
    }

    // What was read and is not handed out.
    fn left(&self) -> &[u8]
        ensures { result.now ≡ left_of self.now }
    {
        after(before(self.pending.as_slice(), self.given), self.handed)
    }

    // Reads some more.
    fn fill(&mut self) -> io::Result<()>
        requires { left_of self.old ≡ [] }
        ensures filled { IsFilled (R.remaining self.old.below) (prepend_known (left_of self.new) (R.remaining self.new.below)) (left_of self.new) result }
        ensures same { (self.new.held ≡ self.old.held) × (self.new.is_plain ≡ self.old.is_plain) }
    {
        self.given = 0;
        self.handed = 0;
        match self.below.read(&mut self.pending) {
            Ok(count) => {
                self.given = count;
                Ok(())
            }
            Err(fault) => Err(fault),
        }
    }

    // Reads some more where all was handed out.
    fn ready(&mut self) -> io::Result<()>
        ensures filled { IsFilled (prepend_known (left_of self.old) (R.remaining self.old.below)) (prepend_known (left_of self.new) (R.remaining self.new.below)) (left_of self.new) result }
        ensures same { (self.new.held ≡ self.old.held) × (self.new.is_plain ≡ self.old.is_plain) }
    {
        if !self.left().is_empty() {
            return Ok(());
        }
        self.fill()
    }

    // Hands out so many bytes.
    fn hand_out(&mut self, count: usize)
        requires { count ≤ length (left_of self.old) }
        ensures left { left_of self.new ≡ drop count (left_of self.old) }
        ensures same { (self.new.held ≡ self.old.held) × (self.new.is_plain ≡ self.old.is_plain) × (self.new.below ≡ self.old.below) }
    {
        self.handed += count;
    }

    // Whether a carriage return is left first, of which it is to be seen whether a line ends there.
    fn is_return_next(&self) -> bool
        ensures { result ≡ (self.now.is_plain && not self.now.held && (slice_index (left_of self.now) 0 == 13)) }
    {
        self.is_plain && !self.held && byte_at(self.left(), 0) == b'\r'
    }

    // Holds back a carriage return that is left first, and reads on.
    fn hold(&mut self) -> io::Result<()>
        requires { left_of self.old ≡ [] → IsAtEnd (R.remaining self.old.below) }
        ensures ok { OnOk result (Keeps (still_left self.old (R.remaining self.old.below)) (still_left self.new (R.remaining self.new.below))) }
        ensures run { OnOk result (IsRun self.new.is_plain self.new.held (left_of self.new)) }
        ensures end { OnOk result (left_of self.new ≡ [] → IsAtEnd (R.remaining self.new.below)) }
        ensures err { OnErr result (Keeps (still_left self.old (R.remaining self.old.below)) (still_left self.new (R.remaining self.new.below))) }
    {
        if !self.is_return_next() {
            return Ok(());
        }
        self.hand_out(1);
        self.held = true;
        self.ready()
    }

    // Whether a carriage return that was held back ends no line.
    fn gives_return(&self) -> bool
        ensures { result ≡ (self.now.is_plain && self.now.held && not (ends_line (left_of self.now))) }
    {
        if !self.is_plain || !self.held {
            return false;
        }
        match self.left() {
            [] => false,
            [first, ..] => *first != b'\n',
        }
    }

    // Hands out the carriage return that was held back.
    #[tactic(auto, using(crate::proofs::Handing::given_is))]
    fn give_return(&mut self, buf: &mut [u8]) -> usize
        requires some { 0 < length buf.old }
        requires given { (self.old.is_plain && self.old.held && not (ends_line (left_of self.old))) ≡ true }
        ensures bound { result ≤ length buf.new }
        ensures handed { IsHanded (still_left self.old (R.remaining self.old.below)) (still_left self.new (R.remaining self.new.below)) buf.new result }
    {
        self.held = false;
        buf[0] = b'\r';
        1
    }

    // Hands out what is left up to the next carriage return. One that was held back ends a line.
    #[tactic(auto, using(crate::proofs::Handing::hand_is))]
    fn hand(&mut self, buf: &mut [u8]) -> usize
        requires some { 0 < length buf.old }
        requires run { IsRun self.old.is_plain self.old.held (left_of self.old) }
        requires ended { (self.old.is_plain && self.old.held && not (ends_line (left_of self.old))) ≡ false }
        requires end { left_of self.old ≡ [] → IsAtEnd (R.remaining self.old.below) }
        ensures bound { result ≤ length buf.new }
        ensures handed { IsHanded (still_left self.old (R.remaining self.old.below)) (still_left self.new (R.remaining self.new.below)) buf.new result }
    {
        self.held = false;
        let left = self.left();
        let count = copy_front(left, run_of(left, self.is_plain), buf);
        self.hand_out(count);
        count
    }
}

impl<R: Read> Read for WithoutReturns<R> {
    ghost use Rattle.program_input.specs.PlainReading.{still_left};

    ghost remaining = { λ text. still_left text (R.remaining text.below) };

    fn read(&mut self, buf: &mut [u8]) -> io::Result<usize> {
        if buf.is_empty() {
            return Ok(0);
        }
        self.ready()?;
        self.hold()?;
        if self.gives_return() {
            return Ok(self.give_return(buf));
        }
        Ok(self.hand(buf))
    }
}
