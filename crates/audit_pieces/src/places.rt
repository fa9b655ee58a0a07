//! Where a stretch stands in a piece, and how a piece ends.
ghost use Rattle.std.specs.Prelude.{◌≡◌, ◌<◌, ◌-◌, length, true};
ghost use Rattle.line_frames.specs.Bits.{most_bits};
ghost use Rattle.audit_pieces.specs.declared.piece.Place.TheVariants as places;
ghost use Rattle.audit_pieces.specs.Slots.{is_whole};
ghost use Rattle.audit_pieces.specs.Pieces.{alone, bare_ending, broken_ending, ended, ending_of, ends_open, frame_ending, frame_place, in_frame, is_apart, is_broken, is_cut, is_early, is_framed, is_late_bit, is_outside, is_over, is_overrun, is_start, parts_of, piece_of, place_of, placed, quiet_ending, slot_fall, trails, whole_ending, with_stretch};

use crate::piece::{After, Parts, Piece, PieceEnding, Place, Slot};
use crate::slots::{asks_last, has_eom, is_late, is_whole, last_slot};
use crate::stretch::{Class, LowStretch};
use arrayvec::ArrayVec;

/// Two stretches belong together where the second falls less than this after the first, in microseconds: the longest start bit lasts
/// 4,700 (CEC 5.2.1), and the shortest signal free time is 7,200 (CEC 9.1).
const APART_FROM: u64 = 6_000;

/// A bit lasts 2,050 at least (CEC 5.2.2); 400 less is past its sample.
const SHORTEST_BIT: u64 = 1_650;

fn is_apart(last: u64, fall: u64) -> bool
    ensures { result ≡ is_apart last fall }
{
    fall.saturating_sub(last) >= APART_FROM
}

fn trails(class: Class) -> Place
    ensures { result ≡ trails class }
{
    match class {
        Class::Bit => Place::Trails,
        Class::Long | Class::Start | Class::Cut => Place::Outside,
    }
}

impl Class {
    fn is_framed(self) -> bool
        ensures { result ≡ is_framed self }
    {
        match self {
            Class::Bit => false,
            Class::Long | Class::Start | Class::Cut => true,
        }
    }

    fn is_start(self) -> bool
        ensures { result ≡ is_start self }
    {
        match self {
            Class::Start => true,
            Class::Bit | Class::Long | Class::Cut => false,
        }
    }

    fn is_cut(self) -> bool
        ensures { result ≡ is_cut self }
    {
        match self {
            Class::Cut => true,
            Class::Bit | Class::Long | Class::Start => false,
        }
    }
}

impl Place {
    /// Whether it is in no piece so far.
    pub fn is_outside(self) -> bool
        ensures { result ≡ is_outside self }
    {
        match self {
            Place::Outside => true,
            Place::InSlot | Place::Late | Place::Breaks | Place::Trails => false,
        }
    }
}

impl Parts {
    /// Of one stretch.
    pub fn new(head: LowStretch) -> Self
        ensures { parts_of result ≡ alone head }
    {
        Parts {
            head,
            slots: ArrayVec::new(),
            broken_by: None,
            trail: 0,
            last: head.fall,
        }
    }

    // No slot is to come.
    fn is_over(&self) -> bool
        ensures { result ≡ is_over (parts_of self.now) }
    {
        !self.head.class.is_framed()
            || self.head.class.is_cut()
            || self.broken_by.is_some()
            || self.trail > 0
    }

    /// Where the last slot falls, or the start bit where there is none.
    pub fn slot_fall(&self) -> u64
        ensures { result ≡ slot_fall (parts_of self.now) self.now.slots.items }
    {
        if self.slots.is_empty() {
            self.head.fall
        } else {
            last_slot(&self.slots).fall
        }
    }

    fn is_early(&self, stretch: LowStretch) -> bool
        ensures { result ≡ is_early (parts_of self.now) stretch }
    {
        stretch.fall.saturating_sub(self.slot_fall()) < SHORTEST_BIT
    }

    fn in_frame(&self, stretch: LowStretch) -> Place
        ensures { result ≡ in_frame (parts_of self.now) stretch stretch.class }
    {
        match stretch.class {
            Class::Bit => {
                if self.is_early(stretch) {
                    Place::Breaks
                } else {
                    Place::InSlot
                }
            }
            Class::Long => {
                if !self.is_early(stretch) && asks_last(&self.slots) {
                    Place::InSlot
                } else {
                    Place::Breaks
                }
            }
            Class::Start => Place::Outside,
            Class::Cut => Place::Breaks,
        }
    }

    fn is_late_bit(&self, stretch: LowStretch) -> bool
        ensures { result ≡ is_late_bit (parts_of self.now) stretch stretch.class }
    {
        match stretch.class {
            Class::Bit => is_late(&self.slots, stretch),
            Class::Long | Class::Start | Class::Cut => false,
        }
    }

    fn frame_place(&self, stretch: LowStretch) -> Place
        ensures { result ≡ frame_place (parts_of self.now) stretch }
    {
        if self.is_late_bit(stretch) {
            Place::Late
        } else if is_whole(&self.slots) {
            trails(stretch.class)
        } else {
            self.in_frame(stretch)
        }
    }

    /// Where the next stretch stands.
    pub fn place_of(&self, stretch: LowStretch) -> Place
        ensures { result ≡ place_of (parts_of self.now) stretch }
    {
        if is_apart(self.last, stretch.fall) {
            Place::Outside
        } else if self.is_over() {
            trails(stretch.class)
        } else {
            self.frame_place(stretch)
        }
    }

    fn add_slot(&mut self, stretch: LowStretch)
        requires { length self.old.slots.items < most_bits }
        ensures { parts_of self.new ≡ placed places.InSlot stretch (parts_of self.old) }
    {
        self.slots.push(Slot::of(stretch));
        self.last = stretch.fall;
    }

    fn add_late(&mut self, stretch: LowStretch)
        requires { 0 < length self.old.slots.items }
        ensures { parts_of self.new ≡ placed places.Late stretch (parts_of self.old) }
    {
        let place = self.slots.len() - 1;
        self.slots[place] = last_slot(&self.slots).with_late(stretch);
        self.last = stretch.fall;
    }

    fn add_trail(&mut self, stretch: LowStretch)
        ensures { parts_of self.new ≡ placed places.Trails stretch (parts_of self.old) }
    {
        self.trail = self.trail.saturating_add(1);
        self.last = stretch.fall;
    }

    fn break_off(&mut self, stretch: LowStretch)
        ensures { parts_of self.new ≡ placed places.Breaks stretch (parts_of self.old) }
    {
        self.broken_by = Some(stretch);
        self.last = stretch.fall;
    }

    /// Takes the next stretch to its place.
    pub fn add(&mut self, stretch: LowStretch)
        ensures { parts_of self.new ≡ with_stretch stretch (parts_of self.old) }
    {
        let _count = self.slots.len();
        match self.place_of(stretch) {
            Place::InSlot => self.add_slot(stretch),
            Place::Late => self.add_late(stretch),
            Place::Breaks => self.break_off(stretch),
            Place::Trails => self.add_trail(stretch),
            Place::Outside => {}
        }
    }

    fn whole_ending(&self, after: After) -> PieceEnding
        ensures { result ≡ whole_ending (parts_of self.now) after }
    {
        if has_eom(&self.slots) {
            PieceEnding::Complete
        } else if self.trail > 0 {
            PieceEnding::Long
        } else {
            quiet_ending(self.last, after)
        }
    }

    fn frame_ending(&self, after: After) -> PieceEnding
        ensures { result ≡ frame_ending (parts_of self.now) after self.now.broken_by }
    {
        match self.broken_by {
            Some(by) => broken_ending(self.last, after, by.class),
            None => {
                if is_whole(&self.slots) {
                    self.whole_ending(after)
                } else if is_overrun(self.last, after) {
                    PieceEnding::Overrun
                } else {
                    quiet_ending(self.last, after)
                }
            }
        }
    }

    fn bare_ending(&self, begin: Option<u64>) -> PieceEnding
        ensures { result ≡ bare_ending (parts_of self.now) begin }
    {
        match begin {
            None => PieceEnding::Stray,
            Some(begin) => {
                if is_apart(begin, self.head.fall) {
                    PieceEnding::Stray
                } else {
                    PieceEnding::Mid
                }
            }
        }
    }

    /// How it ends before what comes after it. Of the first piece `begin` is where the capture begins.
    pub fn ending_of(&self, begin: Option<u64>, after: After) -> PieceEnding
        ensures { result ≡ ending_of begin (parts_of self.now) after }
    {
        if self.head.class.is_framed() {
            self.frame_ending(after)
        } else {
            self.bare_ending(begin)
        }
    }

    /// The piece that ends so.
    pub fn ended(self, begin: Option<u64>, after: After) -> Piece
        ensures { piece_of result ≡ ended begin (parts_of self) after }
    {
        let ending = self.ending_of(begin, after);
        Piece {
            parts: self,
            ending,
        }
    }
}

fn ends_open(last: u64, after: After) -> bool
    ensures { result ≡ ends_open last after }
{
    match after {
        After::Fall(_) => false,
        After::End(end) => !is_apart(last, end),
    }
}

fn is_overrun(last: u64, after: After) -> bool
    ensures { result ≡ is_overrun last after }
{
    match after {
        After::End(_) => false,
        After::Fall(stretch) => stretch.class.is_start() && !is_apart(last, stretch.fall),
    }
}

fn quiet_ending(last: u64, after: After) -> PieceEnding
    ensures { result ≡ quiet_ending last after }
{
    if ends_open(last, after) {
        PieceEnding::Open
    } else {
        PieceEnding::Stops
    }
}

fn broken_ending(last: u64, after: After, class: Class) -> PieceEnding
    ensures { result ≡ broken_ending last after class }
{
    match class {
        Class::Bit => PieceEnding::Intruder,
        Class::Cut => {
            if ends_open(last, after) {
                PieceEnding::Open
            } else {
                PieceEnding::Drive
            }
        }
        Class::Long | Class::Start => PieceEnding::Drive,
    }
}
