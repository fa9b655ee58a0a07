//! What a device says of itself.
ghost use Rattle.std.specs.Prelude.{◌≡◌, ◌≤◌, length};
ghost use Rattle.device_core.specs.State.{addresses_held, held_by, more_of};
ghost use Rattle.device_features.specs.Kinds.{is_outside};
ghost use Rattle.device_core.specs.Place.{front_of, ready_of, is_allocating, is_on_wire};

use crate::device::{Device, Queued, frame_of};
use crate::outside::MoreHeld;
use crate::place::{Place, name_copy};
use arrayvec::ArrayVec;
use device_features::Record;
use line_frames::{Addr, Frame, FreeTime};
use text_core::{Kind, Phys};

// What a device holds beside the addresses of its units: only one from outside does, while it is on the wire.
fn more_of(outside: bool, place: Place, more: MoreHeld) -> [Option<Addr>; 2]
    ensures { result ≡ more_of outside place more }
{
    if outside {
        match place {
            Place::Off | Place::Polls { .. } => [None, None],
            Place::Settled { .. } => [more.third, more.fourth],
        }
    } else {
        [None, None]
    }
}

impl<const Q: usize> Device<Q> {
    /// What it is.
    pub fn kind(&self) -> Kind
        ensures { result ≡ self.now.kind }
    {
        self.kind
    }

    /// Its name, at most 14 bytes.
    pub fn name(&self) -> &[u8]
        ensures name { result.now ≡ self.now.name }
        ensures within { length result.now ≤ 14 }
    {
        self.name.as_slice()
    }

    /// How many input ports it has, at most 15.
    pub fn ports(&self) -> u8
        ensures ports { result ≡ self.now.ports }
        ensures within { result ≤ 15 }
    {
        self.ports.value()
    }

    /// Its number among the devices; 0 while it is off the wire.
    pub fn number(&self) -> u8
        ensures { result ≡ self.now.number }
    {
        self.number
    }

    /// Its physical address; F.F.F.F while it is off the wire.
    pub fn phys(&self) -> Phys
        ensures { result ≡ self.now.phys }
    {
        self.phys
    }

    /// Where each of its units has settled, at 15 where it found no address. A device of one unit has no second one.
    pub fn held(&self) -> [Option<Addr>; 2]
        ensures { result ≡ addresses_held self.now.place }
    {
        match self.place {
            Place::Off => [None, None],
            Place::Polls { found, .. } => [found, None],
            Place::Settled { first, second } => [Some(first), second],
        }
    }

    // What it holds beside the addresses of its units.
    fn more_held(&self) -> [Option<Addr>; 2]
        ensures { result ≡ more_of (is_outside self.now.kind) self.now.place self.now.more }
    {
        more_of(self.kind.is_outside(), self.place, self.more)
    }

    /// All addresses that it holds, 15 among them: those of its units, and of a device from outside up to two more.
    pub fn all_held(&self) -> [Option<Addr>; 4]
        ensures { result ≡ held_by self.now }
    {
        let [first, second] = self.held();
        let [third, fourth] = self.more_held();
        [first, second, third, fourth]
    }

    /// Whether it is on the wire.
    pub fn is_on_wire(&self) -> bool
        ensures { result ≡ is_on_wire self.now }
    {
        !matches!(self.place, Place::Off)
    }

    /// Whether it still looks for an address.
    pub fn is_allocating(&self) -> bool
        ensures { result ≡ is_allocating self.now }
    {
        matches!(self.place, Place::Polls { .. })
    }

    /// What it remembers.
    pub fn record(&self) -> &Record
        ensures { result.now ≡ self.now.record_of }
    {
        &self.record
    }

    /// How many frames are queued. The poll of an address is none of them.
    pub fn queue_len(&self) -> usize
        ensures { result ≡ length self.now.queue }
    {
        self.queue.len()
    }

    /// What it has to send next: the poll of an address while it looks for one, else the front of
    /// its queue.
    pub fn queue_front(&self) -> Option<Frame>
        ensures { result ≡ front_of self.now }
    {
        match self.polled() {
            Some(address) => Some(frame_of(address, address, &[])),
            None => match self.queue.as_slice() {
                [] => None,
                [front, ..] => Some(front.frame.copy()),
            },
        }
    }

    /// Since when that is ready, in microseconds.
    pub fn ready_at(&self) -> Option<u64>
        ensures { result ≡ ready_of self.now }
    {
        match self.polled() {
            Some(_) => Some(self.poll_ready),
            None => match self.queue.as_slice() {
                [] => None,
                [front, ..] => Some(front.ready),
            },
        }
    }

    /// How long the line has to have been free before it starts.
    pub fn class(&self) -> FreeTime
        ensures { result ≡ self.now.class }
    {
        self.class
    }

    /// How many frames of its own found its queue full. It stays at the greatest u64.
    pub fn dropped(&self) -> u64
        ensures { result ≡ self.now.dropped }
    {
        self.dropped
    }

    fn copied_queue(&self) -> ArrayVec<Queued, Q>
        ensures { result.items ≡ self.now.queue }
    {
        let mut copy = ArrayVec::new();
        for queued in self.queue.as_slice() {
            copy.push(Queued {
                frame: queued.frame.copy(),
                ready: queued.ready,
                ticket: queued.ticket,
            });
        }
        copy
    }

    /// The same device again.
    pub fn copy(&self) -> Self
        ensures { result ≡ self.now }
    {
        Device {
            kind: self.kind,
            name: name_copy(self.name.as_slice()),
            ports: self.ports,
            number: self.number,
            phys: self.phys,
            place: self.place,
            more: self.more,
            record: self.record.copy(),
            queue: self.copied_queue(),
            attempts: self.attempts,
            class: self.class,
            poll_ready: self.poll_ready,
            dropped: self.dropped,
        }
    }
}
