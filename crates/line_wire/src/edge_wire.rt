//! A line that goes from edge to edge: one receiver, which all seats share, and the senders of the seats that send.
ghost use Rattle.std.specs.Prelude.{◌≡◌, ◌+◌, ◌-◌, ◌<◌, ◌≤◌, nat_le, nat_lt, ◌++◌, ◌&&◌, ◌||◌, ◌==◌, not, true, false, if◌then◌else◌, length, [], ◌∷◌, All, take, drop, slice_get, IfSome, IsTrue, MatchOption, is_some, None, Some, ℕ, List};
ghost use Rattle.std.specs.List.{list_any};
ghost use Rattle.line_wave.specs.declared.Stretch.{Stretch as StretchValue};
ghost use Rattle.line_wave.specs.Bounds.{latest_begin, latest_heard};
ghost use Rattle.line_wave.specs.Line.{IsWave};
ghost use Rattle.line_wave.specs.Sender.{first_slot};
ghost use Rattle.line_rounds.specs.Machine.{AreSentWell};
ghost use Rattle.line_rounds.specs.Bounds.{over_by};
ghost use Rattle.line_rounds.specs.Round.{rest_of};
ghost use Rattle.line_reading.specs.Hears.{heard_by, hear_in, reported_so};
ghost use Rattle.line_wire.specs.Pulls.{pull_in};
ghost use Rattle.line_wire.specs.States.{survivor_at, survivors_of, losers_of, out_in};
ghost use Rattle.line_wire.specs.Steps.{EdgeBy, StandsAfter};

use crate::followers::{is_acknowledged, is_broken};
use crate::reading::Ended;
use crate::senders::{
    Pull, SenderPlaces, copied_senders, hear_all, places_of, pull_at, senders_of,
};
use crate::wakes::{steady_until, until_begin, until_due, until_end, until_held, wakes_in};
use arrayvec::ArrayVec;
use line_frames::{Ending, Reading};
use line_reading::{Receiver, Sender, SenderState, Told, copied_bits, destination};
use line_rounds::{ACK_PULL, Loser, Outcome, Recorder, SHORT_PULL, Seat, Wire};
use line_wave::{Edge, Pulls, Stretch};

/// A round as far as it was heard: everything before `time`.
#[derive(Debug, Drop)]
pub struct EdgeWire {
    seats: ArrayVec<Seat, 15>,
    begin: u64,
    /// The last pull that began: none before it lasts still.
    last: Option<Stretch>,
    /// How many pulls have begun.
    begun: usize,
    time: u64,
    receiver: Receiver,
    senders: ArrayVec<Option<Sender>, 15>,
    /// Where in that list senders stand: there are none elsewhere.
    places: SenderPlaces,
    /// What the senders do, for as long as that lasts.
    pull: Pull,
    /// What the receiver reported of the reading: its bits, and how it ended.
    bits: ArrayVec<bool, 160>,
    ended: Option<Ended>,
    /// Until when those who follow hold the line.
    held: u64,
    recorder: Recorder,
}

fn copied_seats(seats: &[Seat]) -> ArrayVec<Seat, 15>
    requires { length seats.now ≤ 15 }
    ensures same { result.items ≡ seats.now }
    ensures sends { AreSentWell result.items }
{
    let mut kept = ArrayVec::new();
    for seat in seats {
        kept.push(seat.copy());
    }
    kept
}

// Whether the line falls, where it was low or not just before.
fn is_fall(was: bool, is_low: bool) -> bool
    ensures { result ≡ (is_low && not was) }
{
    is_low && !was
}

// Whether the line falls or rises at `t`, where it was low or not just before.
fn edge_at(t: u64, was: bool, low: bool) -> Option<Edge>
    ensures { EdgeBy was low t result }
{
    if low == was {
        None
    } else {
        Some(Edge { at: t, low })
    }
}

// The receiver hears that the line is low or not in microsecond `t`.
fn tell(receiver: &mut Receiver, t: u64, low: bool) -> Told
    requires early { t ≤ latest_heard }
    ensures heard { reported_so (heard_by receiver.new) result ≡ hear_in t receiver.old.was_low low (heard_by receiver.old) }
    ensures level { (receiver.new.was_low ≡ low) × (receiver.new.is_low ≡ low) }
    ensures stands { StandsAfter receiver.old t low result receiver.new }
{
    if low {
        receiver.fall(t);
    } else {
        receiver.rise(t);
    }
    receiver.tick(t)
}

impl EdgeWire {
    ghost use Rattle.std.specs.Prelude.{◌^◌};
    ghost use Rattle.std.specs.Option.{option_to_list};
    ghost use Rattle.line_reading.specs.Hears.{wake_of, due_in};
    ghost use Rattle.line_wave.specs.Pulses.{AreSparse};
    ghost use Rattle.line_wire.specs.Listening.{AllHeard};
    ghost use Rattle.line_wire.specs.declared.reading.Ended.{Ended as EndedValue};
    ghost use Rattle.line_wire.specs.Pulls.{takes_last};
    ghost use Rattle.line_wire.specs.Told.{told_of};
    ghost use Rattle.line_wire.specs.Wire.{until_by};
    ghost use Rattle.line_wire.specs.Wired.{AreIdle, ArePulls, EachLine, EachOf, Follow, Found, IsBegunWith, IsKept, IsNext, IsReceiverIn, IsRoundOf, IsSenderIn, NextEdges, SameRound, SendsNothing, end_in, is_low_in, is_silent_in, pulls_in};
    ghost use Rattle.line_wire.specs.Turns.{Heeds, IsBegun, IsCalm, IsToldNext, IsWake, KeepsOver, Takes, acks_by, breaks_until, is_told_in};

    // A round that begins at `start`.
    fn started(seats: &[Seat], start: u64) -> Self
        requires few { length seats.now ≤ 15 }
        requires early { start ≤ latest_begin }
        ensures begun { IsBegunWith [] result }
        ensures seats { result.seats.items ≡ seats.now }
        ensures begin { result.begin ≡ start }
        ensures time { result.time ≡ start }
        ensures idle { AreIdle result }
    {
        let senders = senders_of(seats, start);
        let places = places_of(senders.as_slice());
        let pull = pull_at(senders.as_slice(), places, start);
        EdgeWire {
            seats: copied_seats(seats),
            begin: start,
            last: None,
            begun: 0,
            time: start,
            receiver: Receiver::new(),
            senders,
            places,
            pull,
            bits: ArrayVec::new(),
            ended: None,
            held: 0,
            recorder: Recorder::new(),
        }
    }

    /// A wire on which nobody sends, before its first round.
    pub fn new() -> Self
        ensures begun { IsBegunWith [] result }
        ensures idle { AreIdle result }
    {
        EdgeWire::started(&[], 0)
    }

    /// The same wire again, which stands where this one does.
    pub fn copy(&self) -> Self
        ensures { result ≡ self.now }
    {
        EdgeWire {
            seats: copied_seats(self.seats.as_slice()),
            begin: self.begin,
            last: self.last,
            begun: self.begun,
            time: self.time,
            receiver: self.receiver.copy(),
            senders: copied_senders(self.senders.as_slice()),
            places: self.places,
            pull: self.pull,
            bits: copied_bits(self.bits.as_slice()),
            ended: self.ended,
            held: self.held,
            recorder: self.recorder.copy(),
        }
    }

    /// When the round began.
    pub fn begun_at(&self) -> u64
        ensures { result ≡ self.now.begin }
    {
        self.begin
    }

    /// The instant before which the round was heard.
    pub fn heard_until(&self) -> u64
        ensures { result ≡ self.now.time }
    {
        self.time
    }

    /// How many pulls have begun in the round.
    pub fn pulses_begun(&self) -> usize
        ensures { result ≡ self.now.begun }
    {
        self.begun
    }

    /// Begins a round of at most 15 seats at `start`. A round that was begun before is given up.
    pub fn begin(&mut self, seats: &[Seat], start: u64)
        requires few { length seats.now ≤ 15 }
        requires early { start ≤ latest_begin }
        ensures seats { self.new.seats.items ≡ seats.now }
        ensures begun { IsBegunWith [] self.new }
        ensures begin { self.new.begin ≡ start }
        ensures time { self.new.time ≡ start }
        ensures idle { AreIdle self.new }
    {
        self.seats = copied_seats(seats);
        self.clear(start);
    }

    // The same seats, before the round's first microsecond. The wire is large, and each part is set where it stands.
    fn clear(&mut self, start: u64)
        requires early { start ≤ latest_begin }
        requires sent { AreSentWell self.old.seats.items }
        ensures seats { self.new.seats.items ≡ self.old.seats.items }
        ensures begun { IsBegunWith [] self.new }
        ensures begin { self.new.begin ≡ start }
        ensures time { self.new.time ≡ start }
        ensures idle { AreIdle self.new }
    {
        self.begin = start;
        self.last = None;
        self.begun = 0;
        self.time = start;
        self.receiver = Receiver::new();
        self.senders = senders_of(self.seats.as_slice(), start);
        self.places = places_of(self.senders.as_slice());
        self.pull = pull_at(self.senders.as_slice(), self.places, start);
        self.bits.clear();
        self.ended = None;
        self.held = 0;
        self.recorder.clear();
    }

    // What is kept of the senders is what they do in the next microsecond.
    fn is_pull_kept(&self) -> bool
        ensures { result ≡ nat_lt self.now.time self.now.pull.until }
    {
        self.time < self.pull.until
    }

    // What the senders do from the next microsecond on.
    fn pull_now(&self) -> Pull
        requires time { self.now.time ≤ latest_heard }
        requires kept { IsKept self.now }
        ensures later { self.now.time < result.until }
        ensures near { result.until ≤ self.now.time + first_slot }
        ensures low { (t : ℕ) → self.now.time ≤ t → t < result.until → list_any (pull_in t) self.now.senders.items ≡ nat_lt t result.rise }
    {
        if self.is_pull_kept() {
            self.pull
        } else {
            pull_at(self.senders.as_slice(), self.places, self.time)
        }
    }

    // The reading is over where no fall came before this microsecond.
    fn is_due(&self) -> bool
        ensures { result ≡ due_in self.now.receiver.place self.now.receiver.begin self.now.receiver.fall self.now.time }
    {
        self.receiver.is_due(self.time)
    }

    // The last microsecond in which a pull begins that the round takes.
    fn pulls_until(&self) -> u64
        ensures { result ≡ until_by self.now.receiver (end_in self.now.ended) self.now.time }
    {
        match self.ended {
            Some(ended) => ended.until,
            None => {
                if self.is_due() {
                    self.time - 1
                } else {
                    self.time
                }
            }
        }
    }

    // A pull counts that begins by the last microsecond that the round takes, and another one where the line was low just
    // before. That microsecond is looked for where it decides.
    #[tactic(auto, using(crate::proofs::Pulling::or_swap))]
    fn counts(&self, from: u64, was: bool) -> bool
        ensures { result ≡ (nat_le from (until_by self.now.receiver (end_in self.now.ended) self.now.time) || was) }
    {
        was || from <= self.pulls_until()
    }

    // The last pull that began lasts, and the round takes it.
    fn is_taken(&self, was: bool) -> bool
        ensures { result ≡ takes_last (until_by self.now.receiver (end_in self.now.ended) self.now.time) was self.now.time self.now.last }
    {
        match self.last {
            None => false,
            Some(pull) => self.time < pull.to && self.counts(pull.from, was),
        }
    }

    // Whether the line is low in the next microsecond, where a sender pulls or none. At an ending for want of a fall a sender
    // makes no fall.
    fn is_pulled(&self, is_sent: bool) -> bool
        requires { is_sent ≡ list_any (pull_in self.now.time) self.now.senders.items }
        ensures { result ≡ pulls_in self.now }
    {
        let was = self.recorder.was_low();
        self.is_taken(was) || ((is_sent && self.counts(self.time, was)) || self.time < self.held)
    }

    // The next instant at which anybody changes what he does, or the reading may change.
    fn wake(&self, until: u64, next: Option<Stretch>) -> u64
        ensures { IsWake self.now until next result }
    {
        let wake = until_end(self.last, self.time, until);
        let wake = until_due(self.receiver.wakes_at(), wake);
        let wake = until_held(self.held, self.time, wake);
        until_begin(next, wake)
    }

    // Keeps what the senders do from the next microsecond on.
    fn refresh(&mut self)
        requires time { self.old.time ≤ latest_heard }
        requires kept { IsKept self.old }
        ensures same { self.new ≡ record self.old { pull = self.new.pull } }
        ensures kept { IsKept self.new }
        ensures later { self.old.time < self.new.pull.until }
    {
        if !self.is_pull_kept() {
            self.pull = pull_at(self.senders.as_slice(), self.places, self.time);
        }
    }

    // Goes to the next instant at which the line or the reading may change.
    fn wait(&mut self, next: Option<Stretch>)
        requires begun { IsBegun self.old }
        requires goes { is_silent_in self.old ≡ false }
        requires next { IfSome next (λ p. self.old.time ≤ p.from) }
        ensures same { self.new ≡ record self.old { time = self.new.time } }
        ensures later { self.old.time ≤ self.new.time }
        ensures near { self.new.time ≤ self.old.time + first_slot }
        ensures time { self.new.time < latest_heard }
        ensures next { IfSome next (λ p. self.new.time ≤ p.from) }
        ensures stands { (past : List StretchValue) → IsBegunWith past self.old → IsBegunWith past self.new × EachOf past self.new (IsCalm self.old self.new.time) }
    {
        let pull = self.pull_now();
        if self.time != self.begin
            && self.is_pulled(self.time < pull.rise) == self.recorder.was_low()
        {
            self.time = self.wake(steady_until(pull, self.time), next);
        }
    }

    // Takes the next pull, if it begins now.
    fn take(&mut self, next: Option<Stretch>)
        requires room { self.old.begun < 2 ^ 63 }
        requires next { IfSome next (λ p. self.old.time ≤ p.from) }
        ensures { Takes self.old next self.new }
    {
        match next {
            Some(pull) if pull.from == self.time => {
                self.last = Some(pull);
                self.begun += 1;
            }
            _ => {}
        }
    }

    // Until when those who follow hold the line, where a slot falls now.
    fn acknowledged_until(&self) -> u64
        requires early { self.now.time ≤ latest_heard }
        ensures { result ≡ acks_by self.now.seats.items self.now.senders.items self.now.bits.items self.now.time }
    {
        if (self.bits.len() + 1) % 10 == 0
            && is_acknowledged(
                self.seats.as_slice(),
                self.senders.as_slice(),
                destination(self.bits.as_slice()),
            )
        {
            self.time + ACK_PULL
        } else {
            0
        }
    }

    // Until when they do where the reading ends so now. They are asked before the senders hear of it.
    fn broken_until(&self, ending: Ending) -> u64
        requires early { self.now.time ≤ latest_heard }
        ensures { result ≡ breaks_until self.now.seats.items self.now.senders.items ending self.now.held self.now.time }
    {
        if ending == Ending::Short && is_broken(self.seats.as_slice(), self.senders.as_slice()) {
            self.time + SHORT_PULL
        } else {
            self.held
        }
    }

    // The senders hear what this microsecond reported. What they do stays as it was, unless one of them stops.
    fn pass_on(&mut self, reported: Told)
        requires early { self.old.time < latest_heard }
        requires kept { IsKept self.old }
        ensures same { self.new ≡ record self.old { senders = self.new.senders; pull = self.new.pull } }
        ensures heard { AllHeard reported self.old.time self.old.senders.items self.new.senders.items }
        ensures kept { IsKept self.new }
    {
        if hear_all(&mut self.senders, self.places, reported, self.time) {
            self.pull = pull_at(self.senders.as_slice(), self.places, self.time);
        }
    }

    // What this microsecond reported of the reading that runs, in which a slot falls or none; `until` is the last microsecond
    // of a reading that ends now.
    fn heed(&mut self, reported: Told, falls: bool, until: u64)
        requires early { self.old.time < latest_heard }
        requires runs { self.old.ended ≡ None }
        requires room { length self.old.bits.items < 160 }
        requires kept { IsKept self.old }
        ensures same { self.new ≡ record self.old { senders = self.new.senders; pull = self.new.pull; bits = self.new.bits; ended = self.new.ended; held = self.new.held } }
        ensures heeds { Heeds self.old reported falls until self.new }
        ensures kept { IsKept self.new }
    {
        match reported {
            Told::Nothing => {
                if falls {
                    self.held = self.acknowledged_until();
                }
            }
            Told::Bit(_, bit) => {
                self.bits.push(bit);
                self.pass_on(reported);
            }
            Told::Last(bit, ending) => {
                self.bits.push(bit);
                self.ended = Some(Ended {
                    ending,
                    at: self.time,
                    until,
                });
                self.pass_on(reported);
            }
            Told::Ended(ending) => {
                self.held = self.broken_until(ending);
                self.ended = Some(Ended {
                    ending,
                    at: self.time,
                    until,
                });
                self.pass_on(reported);
            }
        }
    }

    // The receiver and the senders hear that the line is low or not in the next microsecond, in which it falls or not.
    fn tick(&mut self, low: bool, falls: bool) -> Told
        requires early { self.old.time < latest_heard }
        requires room { self.old.ended ≡ None → length self.old.bits.items < 160 }
        requires kept { IsKept self.old }
        ensures same { self.new ≡ record self.old { receiver = self.new.receiver; senders = self.new.senders; pull = self.new.pull; bits = self.new.bits; ended = self.new.ended; held = self.new.held } }
        ensures kept { IsKept self.new }
        ensures heard { reported_so (heard_by self.new.receiver) result ≡ hear_in self.old.time self.old.receiver.was_low low (heard_by self.old.receiver) }
        ensures level { (self.new.receiver.was_low ≡ low) × (self.new.receiver.is_low ≡ low) }
        ensures stands { StandsAfter self.old.receiver self.old.time low result self.new.receiver }
        ensures runs { self.old.ended ≡ None → Heeds self.old result falls (until_by self.old.receiver None self.old.time) self.new }
        ensures over { (e : EndedValue) → self.old.ended ≡ Some e → KeepsOver self.old self.new }
    {
        let until = self.pulls_until();
        let reported = tell(&mut self.receiver, self.time, low);
        if self.ended.is_none() {
            self.heed(reported, falls, until);
        }
        reported
    }

    // Whether something is to be told in the next microsecond: the round begins, the line changes, or the receiver wakes.
    fn is_told(&self, was: bool, is_low: bool) -> bool
        ensures { result ≡ is_told_in self.now was is_low }
    {
        self.time == self.begin || is_low != was || wakes_in(self.receiver.wakes_at(), self.time)
    }

    // What is told of it: a round begins with a fall, whatever the line does.
    fn is_told_low(&self, is_low: bool) -> bool
        ensures { result ≡ (is_low || (self.now.time == self.now.begin)) }
    {
        is_low || self.time == self.begin
    }

    // Tells that the line is low or not in the next microsecond, and was low or not just before.
    fn tell(&mut self, was: bool, is_low: bool)
        requires begun { IsBegun self.old }
        requires early { self.old.time < latest_heard }
        requires was { was ≡ is_low_in self.old }
        requires low { is_low ≡ pulls_in self.old }
        ensures same { self.new ≡ record self.old { receiver = self.new.receiver; senders = self.new.senders; pull = self.new.pull; bits = self.new.bits; ended = self.new.ended; held = self.new.held } }
        ensures kept { IsKept self.new }
        ensures level { self.new.receiver.is_low ≡ self.new.receiver.was_low }
        ensures stands { (past : List StretchValue) → IsBegunWith past self.old → EachLine self.old.seats.items self.old.begin past (self.old.time + 1) (λ low. (low self.old.time ≡ is_low) × IsToldNext self.old self.new (told_of low self.old.begin)) }
    {
        if self.is_told(was, is_low) {
            let low = self.is_told_low(is_low);
            let _ = self.tick(low, is_fall(was, is_low));
        }
    }

    // Hears the next microsecond. Returns whether the line falls or rises in it.
    fn hear(&mut self) -> Option<Edge>
        requires begun { IsBegun self.old }
        requires early { self.old.time < latest_heard }
        ensures round { SameRound self.old self.new }
        ensures pulls { (self.new.last ≡ self.old.last) × (self.new.begun ≡ self.old.begun) }
        ensures time { self.new.time ≡ self.old.time + 1 }
        ensures low { is_low_in self.new ≡ pulls_in self.old }
        ensures edge { EdgeBy (is_low_in self.old) (pulls_in self.old) self.old.time result }
        ensures stands { (past : List StretchValue) → IsBegunWith past self.old → IsBegunWith past self.new × EachOf past self.new (λ low. low self.old.time ≡ pulls_in self.old) }
    {
        self.refresh();
        let was = self.recorder.was_low();
        let is_low = self.is_pulled(self.time < self.pull.rise);
        let at = self.time;
        self.tell(was, is_low);
        self.recorder.hear(at, is_low);
        self.time += 1;
        edge_at(at, was, is_low)
    }

    // The reading has ended, and nobody pulls any more.
    fn is_silent(&self) -> bool
        requires begun { IsBegun self.now }
        ensures { result ≡ is_silent_in self.now }
    {
        match self.ended {
            Some(_) => {
                !self.recorder.was_low() && !self.is_pulled(self.time < self.pull_now().rise)
            }
            None => false,
        }
    }

    // The first of the pulls that came since so many had begun, which has not begun.
    fn next_of(&self, coming: &[Stretch], begun: usize) -> Option<Stretch>
        requires { begun ≤ self.now.begun }
        ensures { result ≡ slice_get coming.now (self.now.begun - begun) }
    {
        coming.get(self.begun - begun).copied()
    }

    // Looks for the next edge of the line, where these are the next pulls.
    fn search(&mut self, coming: &[Stretch]) -> Option<Edge>
        requires begun { (past : List StretchValue) × IsBegunWith past self.old × Follow past coming.now self.old.time }
        ensures round { SameRound self.old self.new }
        ensures goes { MatchOption result (is_silent_in self.new ≡ true) (λ edge. self.old.time < self.new.time) }
        ensures at { IfSome result (λ edge. edge.at + 1 ≡ self.new.time) }
        ensures found { (past : List StretchValue) → IsBegunWith past self.old → Follow past coming.now self.old.time → Found past coming.now self.old self.new result }
        ensures near { (past : List StretchValue) → IsBegunWith past self.old → Follow past coming.now self.old.time → AreSparse (past ++ coming.now) → self.old.time ≤ self.old.begin + over_by → self.new.time ≤ self.new.begin + over_by }
    {
        let begun = self.begun;
        'wakes: while !self.is_silent() {
            let next = self.next_of(coming, begun);
            self.wait(next);
            self.take(next);
            if let Some(edge) = self.hear() {
                return Some(edge);
            }
        }
        None
    }

    /// The next edge of the line, if there is one. `pulls` are those of the round, in order; more than one may begin before
    /// an edge comes.
    pub fn next_edge_among(&mut self, pulls: &[Stretch]) -> Option<Edge>
        requires begun { IsBegunWith (take self.old.begun pulls.now) self.old }
        requires pulls { ArePulls (take self.old.begun pulls.now) pulls.now self.old }
        ensures begun { IsBegunWith (take self.new.begun pulls.now) self.new }
        ensures pulls { ArePulls (take self.new.begun pulls.now) pulls.now self.new }
        ensures round { SameRound self.old self.new }
        ensures goes { MatchOption result (is_silent_in self.new ≡ true) (λ edge. self.old.time < self.new.time) }
        ensures at { IfSome result (λ edge. edge.at + 1 ≡ self.new.time) }
        ensures edge { NextEdges pulls.now self.old result }
        ensures near { AreSparse pulls.now → self.old.time ≤ self.old.begin + over_by → self.new.time ≤ self.new.begin + over_by }
    {
        let (_begun, coming) = pulls.split_at(self.begun);
        self.search(coming)
    }

    /// The same, where `next` is the next pull that begins, if there is one.
    pub fn next_edge(&mut self, next: Option<Stretch>) -> Option<Edge>
        requires begun { (past : List StretchValue) × IsBegunWith past self.old × IsNext past self.old.time next }
        ensures round { SameRound self.old self.new }
        ensures goes { MatchOption result (is_silent_in self.new ≡ true) (λ edge. self.old.time < self.new.time) }
        ensures at { IfSome result (λ edge. edge.at + 1 ≡ self.new.time) }
        ensures found { (past : List StretchValue) → IsBegunWith past self.old → IsNext past self.old.time next → Found past (option_to_list next) self.old self.new result }
        ensures near { (past : List StretchValue) → IsBegunWith past self.old → IsNext past self.old.time next → AreSparse (past ++ option_to_list next) → self.old.time ≤ self.old.begin + over_by → self.new.time ≤ self.new.begin + over_by }
    {
        match next {
            None => self.search(&[]),
            Some(pull) => self.search(&[pull]),
        }
    }

    /// The receiver of a seat, whose number is below the count. It has heard the line through the last edge, or to the
    /// end of the round where no edge is left. All seats hear one line, and share one receiver.
    pub fn receiver_of(&self, _seat: usize) -> &Receiver
        requires known { _seat < length self.now.seats.items }
        ensures shared { result.now ≡ self.now.receiver }
        ensures stands { (past : List StretchValue) → IsBegunWith past self.now → IsReceiverIn past self.now result.now }
    {
        &self.receiver
    }

    /// The sender of a seat, whose number is below the count, if it sends in the round.
    pub fn sender_of(&self, seat: usize) -> Option<&Sender>
        requires known { seat < length self.now.seats.items }
        requires begun { IsBegun self.now }
        ensures { MatchOption result (SendsNothing self.now seat) (λ sender. (past : List StretchValue) → IsBegunWith past self.now → IsSenderIn past self.now seat sender.now) }
    {
        sender_at(self.senders.as_slice(), seat)
    }

    // What the round gave, where no edge comes any more.
    fn finished(&self) -> Outcome
        requires begun { IsBegun self.now }
        requires silent { is_silent_in self.now ≡ true }
        ensures round { (past : List StretchValue) → IsBegunWith past self.now → IsRoundOf past self.now result }
    {
        let ended = match self.ended {
            Some(ended) => ended,
            None => unreachable!(),
        };
        let (survivors, losers) = parted(self.senders.as_slice());
        Outcome {
            reading: Reading {
                begin: self.begin,
                at: ended.at,
                ending: ended.ending,
                bits: copied_bits(self.bits.as_slice()),
            },
            survivors,
            losers,
            rest: rest(self.recorder.wave.as_slice(), ended.until),
            wave: self.recorder.wave.copy(),
        }
    }

    /// What the round gave, once no edge comes any more. The wire then stands where `begin` had it stand, before the round's
    /// first microsecond: it has the same seats, and every receiver is idle.
    pub fn finish(&mut self) -> Outcome
        requires begun { IsBegun self.old }
        requires silent { is_silent_in self.old ≡ true }
        ensures begun { IsBegunWith [] self.new }
        ensures seats { self.new.seats.items ≡ self.old.seats.items }
        ensures begin { self.new.begin ≡ self.old.begin }
        ensures time { self.new.time ≡ self.old.begin }
        ensures idle { AreIdle self.new }
        ensures round { (past : List StretchValue) → IsBegunWith past self.old → IsRoundOf past self.old result }
    {
        let outcome = self.finished();
        self.clear(self.begin);
        outcome
    }
}

// The sender at a place, if there is one.
fn sender_at(senders: &[Option<Sender>], place: usize) -> Option<&Sender>
    requires { place < length senders.now }
    ensures { MatchOption result (slice_get senders.now place ≡ Some None) (λ sender. slice_get senders.now place ≡ Some (Some sender.now)) }
{
    senders[place].as_ref()
}

// Where the sender was out, if it was.
fn out_of(sender: &Option<Sender>) -> Option<usize>
    ensures { result ≡ out_in sender.now }
{
    match sender {
        None => None,
        Some(sender) => match sender.state() {
            SenderState::Out(slot) => Some(slot),
            SenderState::Sending | SenderState::Stopped => None,
        },
    }
}

// Whether the seat sent, and was not out.
fn survives(sender: &Option<Sender>) -> bool
    ensures { (seat : ℕ) → survivor_at seat sender.now ≡ (if result then seat ∷ [] else []) }
{
    match sender {
        None => false,
        Some(sender) => match sender.state() {
            SenderState::Out(_) => false,
            SenderState::Sending | SenderState::Stopped => true,
        },
    }
}

// Who is still sending, and who was out at which slot.
fn parted(senders: &[Option<Sender>]) -> (ArrayVec<usize, 15>, ArrayVec<Loser, 15>)
    requires { length senders.now ≤ 15 }
    ensures survivors { result.0.items ≡ survivors_of 0 senders.now }
    ensures losers { result.1.items ≡ losers_of 0 senders.now }
{
    let mut survivors = ArrayVec::new();
    let mut losers = ArrayVec::new();
    for (seat, sender) in senders.iter().enumerate() {
        if survives(sender) {
            survivors.push(seat);
        }
        if let Some(slot) = out_of(sender) {
            losers.push(Loser { seat, slot });
        }
    }
    (survivors, losers)
}

// The end of the last stretch that begins by `until`.
fn rest(wave: &[Stretch], until: u64) -> u64
    ensures { result ≡ rest_of until wave.now }
{
    let mut rest = 0;
    for stretch in wave {
        rest = if stretch.from <= until {
            stretch.to
        } else {
            rest
        };
    }
    rest
}

// How many pulls begin before the round.
fn skipped(stretches: &[Stretch], start: u64) -> usize
    ensures few { result ≤ length stretches.now }
    ensures before { All (λ p. p.from < start) (take result stretches.now) }
    ensures late { IfSome (slice_get stretches.now result) (λ p. start ≤ p.from) }
{
    let mut skipped = 0;
    for stretch in stretches {
        if stretch.from >= start {
            return skipped;
        }
        skipped += 1;
    }
    skipped
}

impl Wire for EdgeWire {
    fn round(&mut self, seats: &[Seat], start: u64, pulls: &Pulls) -> Outcome {
        let stretches = pulls.as_slice();
        let (_before, pulls) = stretches.split_at(skipped(stretches, start));
        self.begin(seats, start);
        'edges: while self.next_edge_among(pulls).is_some() {}
        self.finished()
    }
}
