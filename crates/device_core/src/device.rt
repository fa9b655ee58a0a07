//! A device: who it is, and what it has to send.
ghost use Rattle.std.specs.Prelude.{◌≡◌, ◌<◌, ◌≤◌, ◌==◌, [], length, false};
ghost use Rattle.device_core.specs.State.{with_queued, speaks, holds, is_held, main_of, source, frame_of};
ghost use Rattle.device_core.specs.Say.{say, say_all};

use crate::outside::MoreHeld;
use crate::place::Place;
use arrayvec::ArrayVec;
use device_features::{DataBlocks, Heard, Port, Record, Say, is_nowhere};
use line_frames::{Addr, Frame, FrameError, FreeTime};
use message_table::Message;
use std::marker::Model;
use text_core::{Kind, Phys};
use thiserror::Error;

/// A frame that waits, and when it was ready.
#[derive(Drop)]
pub struct Queued {
    pub frame: Frame,
    pub ready: u64,
    /// What is said of it, where it was handed in.
    pub ticket: Option<Ticket>,
}

/// What is said of a frame that is handed in: the line of the script that hands it in, and how many attempts it has in all, where
/// the line says so.
#[derive(Clone, Copy, Debug, PartialEq, Eq)]
pub struct Ticket {
    pub line: u64,
    pub attempts: Option<u8>,
}

impl Default for Queued {
    fn default() -> Self {
        Queued {
            frame: frame_of(Addr::new(0), Addr::new(0), &[]),
            ready: 0,
            ticket: None,
        }
    }
}

/// Why a frame that is handed in is not queued.
#[derive(Clone, Copy, Debug, Drop, PartialEq, Eq, Error)]
pub enum SubmitError {
    #[error("the queue is full")]
    QueueFull,
    #[error("the frame goes to the device itself")]
    OwnAddress,
    #[error("the frame's initiator is not the device's address")]
    NoAddress,
    #[error("the device is off the wire")]
    OffWire,
}

/// A device of a living room: what it is, where it stands on the wire, what it remembers, and up to `Q`
/// frames that it has to send.
#[derive(Drop)]
pub struct Device<const Q: usize> {
    pub(crate) kind: Kind,
    pub(crate) name: ArrayVec<u8, 14>,
    pub(crate) ports: Port,
    pub(crate) number: u8,
    pub(crate) phys: Phys,
    pub(crate) place: Place,
    pub(crate) more: MoreHeld,
    pub(crate) record: Record,
    pub(crate) queue: ArrayVec<Queued, Q>,
    pub(crate) attempts: u8,
    pub(crate) class: FreeTime,
    pub(crate) poll_ready: u64,
    pub(crate) dropped: u64,
}

impl<const Q: usize> Model for Device<Q> {
    ghost use Rattle.device_core.specs.State.{State};

    ghost Value = { State };

    ghost view = { λ d. record {
      kind = d.kind;
      name = d.name.items;
      ports = d.ports;
      number = d.number;
      phys = d.phys;
      place = d.place;
      more = d.more;
      record_of = d.«record»;
      queue = d.queue.items;
      attempts = d.attempts;
      class = d.class;
      poll_ready = d.poll_ready;
      dropped = d.dropped;
    } };
}

/// A frame of a header block and the blocks after it, up to fifteen.
pub fn frame_of(from: Addr, to: Addr, rest: &[u8]) -> Frame
    requires { length rest.now ≤ 15 }
    ensures { result ≡ frame_of from to rest.now }
{
    let mut bytes: ArrayVec<u8, 16> = ArrayVec::new();
    bytes.push(from.value() * 16 + to.value());
    let _ = bytes.try_extend_from_slice(rest);
    match Frame::new(&bytes) {
        Ok(frame) => frame,
        Err(FrameError::Empty) => unreachable!(),
        Err(FrameError::TooLong) => unreachable!(),
    }
}

// The main address of a device that has settled.
fn main_of(first: Addr, second: Option<Addr>) -> Addr
    ensures { result ≡ main_of first second }
{
    match second {
        Some(second) if second.value() < 15 => second,
        _ => first,
    }
}

fn is_held(unit: Option<Addr>, to: Addr) -> bool
    ensures { result ≡ is_held unit to }
{
    match unit {
        None => false,
        Some(address) => address == to && to.value() < 15,
    }
}

impl<const Q: usize> Device<Q> {
    // The address that a frame comes from: the destination of the direct frame that it answers, else the main one.
    fn source(&self, asked: Addr) -> Addr
        ensures { result ≡ source self.now.place asked }
    {
        if asked.value() < Addr::BROADCAST {
            return asked;
        }
        match self.place {
            Place::Settled { first, second } => main_of(first, second),
            _ => Addr::new(15),
        }
    }

    /// Whether one of its units holds this address, which is then below 15.
    pub fn holds(&self, to: Addr) -> bool
        ensures { result ≡ holds self.now.place to }
    {
        let [first, second] = self.held();
        is_held(first, to) || is_held(second, to)
    }

    fn speaks(&self) -> bool
        ensures { result ≡ speaks self.now }
    {
        match self.place {
            Place::Settled { first, second } => {
                main_of(first, second).value() < 15
                    || (self.kind == Kind::Switch && !is_nowhere(self.phys))
            }
            _ => false,
        }
    }

    /// Queues a frame of a reply, report or key, where the device speaks and the frame is not to itself.
    /// One that finds the queue full is dropped and counted.
    pub(crate) fn put(&mut self, at: u64, from: Addr, to: Addr, rest: &[u8])
        requires { length rest.now ≤ 15 }
        ensures { self.new ≡ with_queued Q at from to rest.now self.old }
    {
        if !self.speaks() || self.holds(to) {
            return;
        }
        if self.queue.len() < Q {
            let frame = frame_of(from, to, rest);
            self.queue.push(Queued {
                frame,
                ready: at,
                ticket: None,
            });
        } else {
            self.dropped = self.dropped.saturating_add(1);
        }
    }

    /// Queues one thing that is said. A reply and a notice go to an address below 15 alone, and a refusal to
    /// who sent a frame to this device itself, unless that was a refusal (CEC 12.3). What answers a direct frame
    /// comes from the address that this one went to.
    fn say(&mut self, heard: &Heard, said: &Say)
        ensures { self.new ≡ say Q heard.now said.now self.old }
    {
        let from = self.source(heard.to);
        match said {
            Say::Reply(blocks) => {
                if heard.from.value() < Addr::BROADCAST {
                    self.put(heard.at, from, heard.from, blocks.bytes());
                }
            }
            Say::Cast(blocks) => {
                self.put(heard.at, from, Addr::new(Addr::BROADCAST), blocks.bytes());
            }
            Say::Report(to, blocks) => {
                if to.value() < Addr::BROADCAST {
                    self.put(heard.at, from, *to, blocks.bytes());
                }
            }
            Say::Refuse(reason) => {
                if heard.to.value() < Addr::BROADCAST
                    && heard.from.value() < Addr::BROADCAST
                    && heard.opcode != 0
                {
                    let abort = DataBlocks::new(&Message::FeatureAbort {
                        opcode: heard.opcode,
                        reason: *reason,
                    });
                    self.put(heard.at, from, heard.from, abort.bytes());
                }
            }
        }
    }

    /// Queues what is said, in order.
    pub(crate) fn say_all(&mut self, heard: &Heard, says: &[Say])
        ensures { self.new ≡ say_all Q heard.now says.now self.old }
    {
        if let [first, rest @ ..] = says {
            self.say(heard, first);
            self.say_all(heard, rest);
        }
    }
}
