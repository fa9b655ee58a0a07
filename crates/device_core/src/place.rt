//! Joining and leaving the wire, logical address allocation (CEC 10.2.1), and the fates of frames: retransmission
//! (CEC 7.1).
ghost use Rattle.std.specs.Prelude.{◌≡◌, ◌<◌, Some, None, length, MatchResult, IsSome, IsTrue, ◌≤◌, nat_lt};
ghost use Rattle.std.specs.List.{list_all};
ghost use Rattle.line_frames.specs.declared.Fate.TheVariants.{Lost};
ghost use Rattle.device_features.specs.Kinds.{addresses, second_addresses};
ghost use Rattle.device_core.specs.Place.{begins, settles, tries, tries_after, list_of, place_after_fate, class_of_poll, unregistered, polled_at, settled_at, start_place, fresh, with_reports, reported_from, after_joining, after_leaving, after_front, after_failure, again_by, attempts_of, frame_sent, front_is_counted, front_is_poll, most_again, after_sending, poll_sent, after_waiting, submit_fault, after_submission, front_of, is_allocating};

use crate::device::{Device, Queued, SubmitError, Ticket};
use crate::outside::MoreHeld;
use arrayvec::ArrayVec;
use device_features::{
    DataBlocks, NOWHERE, Port, Record, addresses, is_nowhere, report_of, second_addresses,
};
use line_frames::{Addr, Fate, Frame, FreeTime};
use text_core::{Kind, Phys};

/// Where a device stands on the wire. A box has a second unit, which begins once the first one has settled; any
/// other device has one.
#[derive(Clone, Copy, PartialEq, Eq)]
pub(crate) enum Place {
    /// Off the wire.
    Off,
    /// A unit polls an address; `found` is where the first one has settled, where it is the second that polls.
    Polls { found: Option<Addr>, address: Addr },
    /// Each unit has settled at an address, at 15 where it found none or takes none.
    Settled { first: Addr, second: Option<Addr> },
}

// No address but those of its units.
const NO_MORE: MoreHeld = MoreHeld {
    third: None,
    fourth: None,
};

// The first unit has settled. The second one begins with its list, if there is one.
fn begins(kind: Kind, first: Addr) -> Place
    ensures { result ≡ begins first (second_addresses kind) }
{
    match second_addresses(kind) {
        [] => Place::Settled {
            first,
            second: None,
        },
        [address, ..] => Place::Polls {
            found: Some(first),
            address: Addr::new(*address),
        },
    }
}

// A unit has settled.
fn settles(kind: Kind, found: Option<Addr>, address: Addr) -> Place
    ensures { result ≡ settles kind found address }
{
    match found {
        None => begins(kind, address),
        Some(first) => Place::Settled {
            first,
            second: Some(address),
        },
    }
}

// The poll of the first of these addresses; without one the unit settles at 15.
fn tries(kind: Kind, found: Option<Addr>, list: &[u8]) -> Place
    requires { IsTrue (list_all (λ a. nat_lt a 16) list.now) }
    ensures { result ≡ tries kind found list.now }
{
    match list {
        [] => settles(kind, found, Addr::new(15)),
        [address, ..] => Place::Polls {
            found,
            address: Addr::new(*address),
        },
    }
}

// The same after the address that was found taken.
fn tries_after(kind: Kind, found: Option<Addr>, taken: u8, list: &[u8]) -> Place
    requires { IsTrue (list_all (λ a. nat_lt a 16) list.now) }
    ensures { result ≡ tries_after kind found taken list.now }
{
    match list {
        [] => settles(kind, found, Addr::new(15)),
        [first, rest @ ..] => {
            if taken == *first {
                tries(kind, found, rest)
            } else {
                tries_after(kind, found, taken, rest)
            }
        }
    }
}

// What is polled after an address that was found taken.
fn place_after_poll(kind: Kind, found: Option<Addr>, taken: Addr) -> Place
    ensures { result ≡ tries_after kind found taken (list_of kind found) }
{
    let list = match found {
        None => addresses(kind),
        Some(_) => second_addresses(kind),
    };
    tries_after(kind, found, taken.value(), list)
}

// Where a device stands after the fate of a poll. An address whose poll nobody acknowledged is free: the unit takes it.
fn place_after_fate(kind: Kind, place: Place, fate: Fate) -> Place
    ensures { result ≡ place_after_fate kind place fate }
{
    match place {
        Place::Polls { found, address } => match fate {
            Fate::Unacked => settles(kind, found, address),
            Fate::Delivered => place_after_poll(kind, found, address),
            Fate::Lost | Fate::Broken => Place::Polls { found, address },
        },
        place => place,
    }
}

// How many attempts are said to be made, where that is said.
fn attempts_of(ticket: Option<Ticket>) -> Option<u8>
    ensures { result ≡ attempts_of ticket }
{
    match ticket {
        None => None,
        Some(ticket) => ticket.attempts,
    }
}

// How often a frame is sent again at most.
fn again_by(ticket: Option<Ticket>) -> u8
    ensures { result ≡ again_by (attempts_of ticket) }
{
    match attempts_of(ticket) {
        None => 5,
        Some(attempts) => attempts.saturating_sub(1).min(5),
    }
}

fn class_of_poll(fate: Fate) -> FreeTime
    ensures { result ≡ class_of_poll fate }
{
    match fate {
        Fate::Unacked | Fate::Delivered => FreeTime::PresentInitiator,
        Fate::Lost => FreeTime::NewInitiator,
        Fate::Broken => FreeTime::Retry,
    }
}

// Every unit at 15.
fn unregistered(kind: Kind) -> Place
    ensures { result ≡ unregistered (second_addresses kind) }
{
    let second = match second_addresses(kind) {
        [] => None,
        _ => Some(Addr::new(15)),
    };
    Place::Settled {
        first: Addr::new(15),
        second,
    }
}

fn first_place(kind: Kind, phys: Phys) -> Place
    ensures { result ≡ start_place kind phys }
{
    if is_nowhere(phys) {
        return unregistered(kind);
    }
    tries(kind, None, addresses(kind))
}

/// A copy of a name.
pub(crate) fn name_copy(name: &[u8]) -> ArrayVec<u8, 14>
    requires { length name.now ≤ 14 }
    ensures { result.items ≡ name.now }
{
    let mut copy = ArrayVec::new();
    let _ = copy.try_extend_from_slice(name);
    copy
}

/// A switch without ports or a name, to fill the room of those that are yet to come.
impl<const Q: usize> Default for Device<Q> {
    fn default() -> Self {
        Device::new(Kind::Switch, &[], 0)
    }
}

impl<const Q: usize> Device<Q> {
    /// A new device, off the wire. Its name has at most 14 bytes, and it has at most 15 input ports.
    pub fn new(kind: Kind, name: &[u8], ports: u8) -> Self
        requires name { length name.now ≤ 14 }
        requires ports { ports ≤ 15 }
        ensures { result ≡ fresh kind name.now ports }
    {
        let ports = Port::new(ports);
        Device {
            kind,
            name: name_copy(name),
            ports,
            number: 0,
            phys: NOWHERE,
            place: Place::Off,
            more: NO_MORE,
            record: Record::new(kind, ports),
            queue: ArrayVec::new(),
            attempts: 0,
            class: FreeTime::NewInitiator,
            poll_ready: 0,
            dropped: 0,
        }
    }

    /// Leaves the wire: it is a new device again.
    pub fn leave(&mut self)
        ensures { self.new ≡ after_leaving self.old }
    {
        self.number = 0;
        self.phys = NOWHERE;
        self.place = Place::Off;
        self.more = NO_MORE;
        self.record = Record::new(self.kind, self.ports);
        self.queue = ArrayVec::new();
        self.attempts = 0;
        self.class = FreeTime::NewInitiator;
        self.poll_ready = 0;
        self.dropped = 0;
    }

    // Queues the physical address to all, from a unit that has an address. A switch, which never has one, says it too.
    fn report_from(&mut self, unit: Option<Addr>, at: u64)
        ensures { self.new ≡ reported_from Q at unit self.old }
    {
        let Some(from) = unit else {
            return;
        };
        if from.value() < 15 || self.kind == Kind::Switch {
            let report = DataBlocks::new(&report_of(self.kind, self.phys, from));
            self.put(at, from, Addr::new(Addr::BROADCAST), report.bytes());
        }
    }

    // Each of its units reports, once all have settled.
    fn report(&mut self, at: u64)
        ensures { self.new ≡ with_reports Q at self.old }
    {
        let [first, second] = self.held();
        self.report_from(first, at);
        self.report_from(second, at);
    }

    /// Joins the wire with its number and its physical address, at `at` microseconds. A switch, a device from outside,
    /// and a device at F.F.F.F, settles at 15 at once. Any other begins to poll the addresses of its kind in order; a box those
    /// of its recorder, and then those of its player.
    pub fn join(&mut self, number: u8, phys: Phys, at: u64)
        ensures { self.new ≡ after_joining Q self.old number phys at }
    {
        self.leave();
        self.number = number;
        self.phys = phys;
        self.place = first_place(self.kind, phys);
        self.poll_ready = at;
        self.report(at);
    }

    // The front frame has ended: it was delivered or is given up.
    fn end_front(&mut self)
        requires { 0 < length self.old.queue }
        ensures { self.new ≡ after_front self.old }
    {
        self.queue.remove(0);
        self.attempts = 0;
        self.class = FreeTime::PresentInitiator;
    }

    // How often the front frame is sent again at most.
    pub(crate) fn most_again(&self) -> u8
        requires { 0 < length self.now.queue }
        ensures { result ≡ most_again self.now.queue }
    {
        again_by(self.queue[0].ticket)
    }

    // Retransmission (CEC 7.1): after a failed attempt a frame is sent again, up to five times, or less often where who handed
    // it in says so.
    fn fail(&mut self)
        requires { 0 < length self.old.queue }
        ensures { self.new ≡ after_failure self.old }
    {
        if self.attempts < self.most_again() {
            self.attempts += 1;
            self.class = FreeTime::Retry;
        } else {
            self.end_front();
        }
    }

    // The address that it polls.
    pub(crate) fn polled(&self) -> Option<Addr>
        ensures { result ≡ polled_at self.now.place }
    {
        match self.place {
            Place::Polls { address, .. } => Some(address),
            _ => None,
        }
    }

    // The fate of a poll moves it by a step.
    fn poll_sent(&mut self, fate: Fate, at: u64)
        ensures { self.new ≡ poll_sent Q self.old fate at }
    {
        self.place = place_after_fate(self.kind, self.place, fate);
        self.poll_ready = at;
        self.class = class_of_poll(fate);
        self.report(at);
    }

    pub(crate) fn front_is_poll(&self) -> bool
        requires { 0 < length self.now.queue }
        ensures { result ≡ front_is_poll self.now.queue }
    {
        self.queue[0].frame.is_poll() && !self.front_is_counted()
    }

    pub(crate) fn front_is_counted(&self) -> bool
        requires { 0 < length self.now.queue }
        ensures { result ≡ front_is_counted self.now.queue }
    {
        attempts_of(self.queue[0].ticket).is_some()
    }

    // Another one has won the arbitration. That is an attempt where attempts are counted.
    fn lose(&mut self)
        requires { 0 < length self.old.queue }
        ensures { self.new ≡ frame_sent self.old Lost }
    {
        if self.front_is_counted() {
            self.fail();
        }
        self.class = FreeTime::NewInitiator;
    }

    // A poll of a script ends where it was answered or not, and is sent again where it was broken off, unless its attempts are
    // counted.
    fn frame_sent(&mut self, fate: Fate)
        requires { 0 < length self.old.queue }
        ensures { self.new ≡ frame_sent self.old fate }
    {
        match fate {
            Fate::Lost => self.lose(),
            Fate::Delivered => self.end_front(),
            Fate::Unacked if self.front_is_poll() => self.end_front(),
            Fate::Unacked => self.fail(),
            Fate::Broken if self.front_is_poll() => self.class = FreeTime::Retry,
            Fate::Broken => self.fail(),
        }
    }

    /// It learns the fate of what `queue_front` gave, at the close of the round, `at` microseconds.
    pub fn sent(&mut self, fate: Fate, at: u64)
        requires { IsSome (front_of self.old) }
        ensures { self.new ≡ after_sending Q self.old fate at }
    {
        if self.is_allocating() {
            self.poll_sent(fate, at);
        } else {
            self.frame_sent(fate);
        }
    }

    /// Others have sent, and it was no contender.
    pub fn waited(&mut self)
        ensures { self.new ≡ after_waiting self.old }
    {
        self.class = match self.class {
            FreeTime::PresentInitiator => FreeTime::NewInitiator,
            class => class,
        };
    }

    // Whether all its units have settled, and one of them at this address.
    fn is_settled_at(&self, from: Addr) -> bool
        ensures { result ≡ settled_at self.now.place from }
    {
        match self.place {
            Place::Settled { first, second } => first == from || second == Some(from),
            _ => false,
        }
    }

    /// Queues a frame that somebody hands in. It is refused with `OffWire`, `NoAddress` where the device has
    /// not settled or the frame's initiator is none of its addresses, `OwnAddress` where the frame goes to itself,
    /// and `QueueFull`, in this order. A device from outside sends from and to any address. A refusal changes nothing.
    pub fn submit(&mut self, frame: Frame, ticket: Ticket, at: u64) -> Result<(), SubmitError>
        ensures answer { MatchResult result (λ _. submit_fault Q self.old frame ≡ None) (λ fault. submit_fault Q self.old frame ≡ Some fault) }
        ensures queue { self.new ≡ after_submission Q self.old frame ticket at }
    {
        if self.place == Place::Off {
            return Err(SubmitError::OffWire);
        }
        if !self.kind.is_outside() && !self.is_settled_at(frame.initiator()) {
            return Err(SubmitError::NoAddress);
        }
        if !self.kind.is_outside() && self.holds(frame.destination()) {
            return Err(SubmitError::OwnAddress);
        }
        if self.queue.len() >= Q {
            return Err(SubmitError::QueueFull);
        }
        self.queue.push(Queued {
            frame,
            ready: at,
            ticket: Some(ticket),
        });
        Ok(())
    }
}
