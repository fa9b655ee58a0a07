//! The senders of a round's seats: what they pull, and what they hear.
ghost use Rattle.std.specs.Prelude.{◌≡◌, ◌<◌, ◌≤◌, ◌||◌, ◌+◌, ℕ, false, length, nat_lt, slice_index_or, None};
ghost use Rattle.std.specs.List.{list_any};
ghost use Rattle.line_wave.specs.Bounds.{latest_heard};
ghost use Rattle.line_wave.specs.Sender.{first_slot};
ghost use Rattle.line_wire.specs.Listening.{AllHeard, AreBegun, HeardOne, IsSenderOf};
ghost use Rattle.line_wire.specs.Pulls.{StandIn, pull_in};
ghost use Rattle.line_wire.specs.States.{is_sending_on};

use arrayvec::ArrayVec;
use line_reading::{Sender, SenderState, Told};
use line_rounds::Seat;
use line_wave::FIRST_SLOT;

/// What the senders do up to an instant: they pull the line low before `rise`, and not from then on.
#[derive(Clone, Copy, Debug)]
pub struct Pull {
    pub rise: u64,
    pub until: u64,
}

/// Places in a list of senders, from one on, up to and without another.
#[derive(Clone, Copy, Debug)]
pub struct SenderPlaces {
    pub from: usize,
    pub to: usize,
}

// The sender of a seat, if it sends.
fn sender_of(seat: &Seat, begin: u64) -> Option<Sender>
    requires early { begin ≤ latest_heard }
    ensures { IsSenderOf seat.now begin result }
{
    match &seat.sends {
        None => None,
        Some(frame) => Some(Sender::begin(frame.copy(), begin)),
    }
}

/// The sender of each seat, which begins to send at `begin`.
pub fn senders_of(seats: &[Seat], begin: u64) -> ArrayVec<Option<Sender>, 15>
    requires few { length seats.now ≤ 15 }
    requires early { begin ≤ latest_heard }
    ensures { AreBegun seats.now begin result.items }
{
    let mut senders = ArrayVec::new();
    for seat in seats {
        senders.push(sender_of(seat, begin));
    }
    senders
}

// The first place at which a sender stands, or the end of the list.
fn first_place(senders: &[Option<Sender>]) -> usize
    ensures few { result ≤ length senders.now }
    ensures none { (k : ℕ) → k < result → slice_index_or senders.now k None ≡ None }
{
    for place in 0..senders.len() {
        if senders[place].is_some() {
            return place;
        }
    }
    senders.len()
}

// The place from which on no sender stands, at `from` or later.
fn end_place(senders: &[Option<Sender>], from: usize) -> usize
    requires { from ≤ length senders.now }
    ensures later { from ≤ result }
    ensures few { result ≤ length senders.now }
    ensures none { (k : ℕ) → result ≤ k → slice_index_or senders.now k None ≡ None }
{
    let mut end = senders.len();
    'places: while end > from && senders[end - 1].is_none() {
        end -= 1;
    }
    end
}

/// The places between which all senders stand.
pub fn places_of(senders: &[Option<Sender>]) -> SenderPlaces
    ensures { StandIn result senders.now }
{
    let from = first_place(senders);
    SenderPlaces {
        from,
        to: end_place(senders, from),
    }
}

// What a sender does beside these.
fn pull_with(sender: &Option<Sender>, pull: Pull, t: u64) -> Pull
    requires early { t ≤ latest_heard }
    ensures sooner { result.until ≤ pull.until }
    ensures later { t < pull.until → t < result.until }
    ensures rises { (u : ℕ) → t ≤ u → u < result.until → nat_lt u result.rise ≡ (nat_lt u pull.rise || pull_in u sender.now) }
{
    match sender {
        None => pull,
        Some(sender) => {
            let own = sender.pull_at(t);
            Pull {
                rise: own.rise.max(pull.rise),
                until: own.until.min(pull.until),
            }
        }
    }
}

/// What the senders at these places do from `t` on, if they hear nothing more: there are none elsewhere.
pub fn pull_at(senders: &[Option<Sender>], places: SenderPlaces, t: u64) -> Pull
    requires early { t ≤ latest_heard }
    requires places { StandIn places senders.now }
    ensures near { result.until ≤ t + first_slot }
    ensures later { t < result.until }
    ensures low { (u : ℕ) → t ≤ u → u < result.until → list_any (pull_in u) senders.now ≡ nat_lt u result.rise }
{
    let mut pull = Pull {
        rise: t,
        until: t + FIRST_SLOT,
    };
    for place in places.from..places.to {
        pull = pull_with(&senders[place], pull, t);
    }
    pull
}

/// Its seat is sending.
pub fn is_sending(sender: &Option<Sender>) -> bool
    ensures { result ≡ is_sending_on sender.now }
{
    match sender {
        None => false,
        Some(sender) => match sender.state() {
            SenderState::Sending => true,
            SenderState::Out(_) | SenderState::Stopped => false,
        },
    }
}

// Returns whether it stopped.
fn hear_one(sender: &mut Option<Sender>, reported: Told, t: u64) -> bool
    requires early { t ≤ latest_heard }
    ensures heard { HeardOne reported t sender.old sender.new }
    ensures kept { result ≡ false → (u : ℕ) → pull_in u sender.new ≡ pull_in u sender.old }
{
    match sender {
        None => false,
        Some(sender) => {
            let state = sender.state();
            sender.heard(reported, t);
            sender.state() != state
        }
    }
}

/// Each sender hears what the receiver reports at microsecond `t`; they stand at these places. Returns whether one stopped.
pub fn hear_all(
    senders: &mut [Option<Sender>],
    places: SenderPlaces,
    reported: Told,
    t: u64,
) -> bool
    requires early { t ≤ latest_heard }
    requires places { StandIn places senders.old }
    ensures heard { AllHeard reported t senders.old senders.new }
    ensures kept { result ≡ false → (u : ℕ) → list_any (pull_in u) senders.new ≡ list_any (pull_in u) senders.old }
{
    let mut stopped = false;
    for place in places.from..places.to {
        let sender = &mut senders[place];
        if hear_one(sender, reported, t) {
            stopped = true;
        }
    }
    stopped
}

// The same sender again, if there is one.
fn copied_sender(sender: &Option<Sender>) -> Option<Sender>
    ensures { result ≡ sender.now }
{
    match sender {
        None => None,
        Some(sender) => Some(sender.copy()),
    }
}

/// The same senders again.
pub fn copied_senders(senders: &[Option<Sender>]) -> ArrayVec<Option<Sender>, 15>
    requires { length senders.now ≤ 15 }
    ensures { result.items ≡ senders.now }
{
    let mut copy = ArrayVec::new();
    for sender in senders {
        copy.push(copied_sender(sender));
    }
    copy
}
