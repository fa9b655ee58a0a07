//! The network between its events and rounds.
ghost use Rattle.std.specs.Prelude.{◌≡◌, ◌≤◌, ◌<◌, length, slice_get, Some, None, All, MatchResult, MatchOption, IfSome, option_and_then, option_map};
ghost use Rattle.line_wave.specs.Bounds.{latest_instant};

use crate::named::{named_frame, nameless};
use crate::start::{first_onset, least_start, sooner};
use crate::step::{RoundReport, end_round, seats_of};
use crate::wiring::{DEVICES, act_on, loose, press_key, rewire, submit_frame};
use arrayvec::ArrayVec;
use device_core::{Act, Device, Key, KeyError, SubmitError, Ticket};
use edid_tree::{PlugError, Tree, UnplugError};
use line_frames::Frame;
use line_rounds::{Outcome, Seat, Wire};
use line_wave::{Pulls, Pulses, Stretch};
use line_wire::EdgeWire;
use room_event::{Event, EventError, HeaderNames};
use std::marker::Model;

/// A tree of devices on one CEC line, and where their run stands. Devices go by their numbers in the tree,
/// times are in microseconds.
// A number stands on either side of the pulses: so the compiler writes a network without pulses to the heap part by part,
// and the 256 KB of no pulses never stand on the stack.
#[derive(Drop)]
pub struct Net<W> {
    pub(crate) tree: Tree<DEVICES>,
    pub(crate) wire: W,
    pub(crate) close: u64,
    pub(crate) pulses: Pulls,
    pub(crate) rest: u64,
    pub(crate) devices: ArrayVec<Device<16>, DEVICES>,
    /// The wire of a round that was begun to be taken edge by edge.
    pub(crate) begun: Option<EdgeWire>,
}

impl<W> Model for Net<W> {
    ghost use Rattle.room_net.specs.State.{NetState};

    ghost Value = { NetState };

    ghost use Rattle.room_net.specs.Sound.{IsSound};
    ghost use Rattle.std.specs.Prelude.{None, option_map};
    ghost use Rattle.room_net.specs.Underway.{IsUnderway};

    ghost view = { λ n. record { tree = n.tree; devices = n.devices.items; pulses = n.pulses; close = n.close; rest = n.rest; heard = option_map (λ w. w.time) n.begun } };

    ghost invariant = { λ n.
        IsSound (record { tree = n.tree; devices = n.devices.items; pulses = n.pulses; close = n.close; rest = n.rest; heard = None })
        × IsUnderway (record { tree = n.tree; devices = n.devices.items; pulses = n.pulses; close = n.close; rest = n.rest; heard = None }) n.begun };
}

impl<W> Net<W> {
    ghost use Rattle.room_net.specs.State.{first_net, next_start};
    ghost use Rattle.room_net.specs.Held.{HeldOnce};

    /// The network at time 0, when the devices that the tree joins to its root come on the wire. The tree has
    /// at least one device, and no pulse begins after 2,000,000,000,000.
    pub fn new(tree: Tree<15>, wire: W, pulses: Pulses) -> Self
        requires some { 0 < length tree }
        requires early { All (λ p. p.from ≤ latest_instant) pulses }
        ensures { result ≡ first_net tree pulses }
    {
        let mut devices = loose(&tree);
        rewire(&mut devices, &tree, 0);
        let mut pulls = Pulls::none();
        pulls.become_those(pulses.as_slice());
        Net {
            tree,
            wire,
            pulses: pulls,
            devices,
            close: 0,
            rest: 0,
            begun: None,
        }
    }

    /// When the next round begins: at the least start of a device, or at the onset of the next pulse, where
    /// that is sooner. There is none where no device has anything to send and no pulse is left.
    pub fn next_start(&self) -> Option<u64>
        ensures { result ≡ next_start self.now }
    {
        sooner(
            least_start(&self.devices, self.rest),
            first_onset(self.pulses.as_slice()),
        )
    }

    /// When the last round closed: its reading had ended, and the line was high. 0 before the first round.
    pub fn close(&self) -> u64
        ensures { result ≡ self.now.close }
    {
        self.close
    }

    /// A device, whose number is below the count.
    pub fn device(&self, number: usize) -> &Device<16>
        requires { number < length self.now.tree }
        ensures { slice_get self.now.devices number ≡ Some result.now }
    {
        &self.devices[number]
    }

    /// The devices, by their numbers.
    pub fn devices(&self) -> &[Device<16>]
        ensures { result.now ≡ self.now.devices }
    {
        &self.devices
    }

    /// Each device of the tree has its state, and no other has. No effect at run time: a proof reads it.
    pub fn has_each_device(&self)
        ensures { length self.now.devices ≡ length self.now.tree }
    {
        let _devices = &self.devices;
    }

    // No logical address below 15 is held twice, by two devices that are not from outside or by one, wherever a run stands.
    fn addresses_are_held_once(&self)
        ensures { HeldOnce self.now.devices }
    {
        let _devices = &self.devices;
    }

    /// The tree of the devices.
    pub fn tree(&self) -> &Tree<15>
        ensures { result.now ≡ self.now.tree }
    {
        &self.tree
    }
}

impl<W> Net<W> {
    ghost use Rattle.edid_tree.specs.Tree.{plug_fault, tree_with_plug, unplug_fault, tree_without_plug};
    ghost use Rattle.device_core.specs.Keys.{key_fault, after_key};
    ghost use Rattle.device_core.specs.Outside.{act_fault, after_act};
    ghost use Rattle.device_core.specs.Place.{submit_fault, after_submission};
    ghost use Rattle.room_net.specs.State.{with_tree};
    ghost use Rattle.room_event.specs.Events.{AreNamed, NamesDevices};
    ghost use Rattle.room_net.specs.Apply.{named_frame, send_fault, event_fault, net_after, changed_at, after_sent, after_accepted};
    ghost use Rattle.room_net.specs.Held.{HeldOnce};

    fn plug(&mut self, at: u64, child: usize, parent: usize, port: u8) -> Result<(), PlugError>
        requires idle { self.old.heard ≡ None }
        requires early { at ≤ latest_instant }
        requires known { (child < length self.old.tree) × (parent < length self.old.tree) }
        ensures { MatchResult result
            (λ _. (plug_fault self.old.tree child parent port ≡ None) × (self.new ≡ with_tree at (tree_with_plug self.old.tree child parent port) self.old))
            (λ error. (plug_fault self.old.tree child parent port ≡ Some error) × (self.new ≡ self.old)) }
    {
        match self.tree.plug(child, parent, port) {
            Err(error) => Err(error),
            Ok(()) => {
                rewire(&mut self.devices, &self.tree, at);
                Ok(())
            }
        }
    }

    fn unplug(&mut self, at: u64, child: usize) -> Result<(), UnplugError>
        requires idle { self.old.heard ≡ None }
        requires early { at ≤ latest_instant }
        requires known { child < length self.old.tree }
        ensures { MatchResult result
            (λ _. (unplug_fault self.old.tree child ≡ None) × (self.new ≡ with_tree at (tree_without_plug self.old.tree child) self.old))
            (λ error. (unplug_fault self.old.tree child ≡ Some error) × (self.new ≡ self.old)) }
    {
        match self.tree.unplug(child) {
            Err(error) => Err(error),
            Ok(()) => {
                rewire(&mut self.devices, &self.tree, at);
                Ok(())
            }
        }
    }

    fn key(&mut self, at: u64, device: usize, key: Key, press: bool) -> Result<(), KeyError>
        requires idle { self.old.heard ≡ None }
        requires early { at ≤ latest_instant }
        requires known { device < length self.old.tree }
        ensures { MatchResult result
            (λ _. (option_and_then (λ d. key_fault d key) (slice_get self.old.devices device) ≡ None)
            × (self.new ≡ record self.old { devices = changed_at device (λ d. after_key 16 d key press at) self.old.devices }))
            (λ error. (option_and_then (λ d. key_fault d key) (slice_get self.old.devices device) ≡ Some error) × (self.new ≡ self.old)) }
    {
        press_key(&mut self.devices, device, key, press, at)
    }

    fn send(
        &mut self,
        at: u64,
        device: usize,
        frame: Frame,
        ticket: Ticket,
    ) -> Result<(), SubmitError>
        requires idle { self.old.heard ≡ None }
        requires early { at ≤ latest_instant }
        requires known { device < length self.old.tree }
        ensures { MatchResult result
            (λ _. (option_and_then (λ d. submit_fault 16 d frame) (slice_get self.old.devices device) ≡ None)
            × (self.new ≡ record self.old { devices = changed_at device (λ d. after_submission 16 d frame ticket at) self.old.devices }))
            (λ error. (option_and_then (λ d. submit_fault 16 d frame) (slice_get self.old.devices device) ≡ Some error) × (self.new ≡ self.old)) }
    {
        submit_frame(&mut self.devices, device, frame, ticket, at)
    }

    fn send_named(
        &mut self,
        at: u64,
        device: usize,
        names: HeaderNames,
        frame: &Frame,
        ticket: Ticket,
    ) -> Result<(), SubmitError>
        requires idle { self.old.heard ≡ None }
        requires early { at ≤ latest_instant }
        requires known { (device < length self.old.tree) × AreNamed (length self.old.tree) names }
        ensures { MatchResult result
            (λ _. (send_fault self.old.devices device (named_frame self.old.devices names frame.now) ≡ None)
            × (self.new ≡ after_sent at device (named_frame self.old.devices names frame.now) ticket self.old))
            (λ error. (send_fault self.old.devices device (named_frame self.old.devices names frame.now) ≡ Some error) × (self.new ≡ self.old)) }
    {
        match named_frame(&self.devices, names, frame) {
            Some(frame) => self.send(at, device, frame, ticket),
            None => Err(nameless(&self.devices[device])),
        }
    }

    fn act(&mut self, device: usize, act: Act) -> Result<(), KeyError>
        requires idle { self.old.heard ≡ None }
        requires known { device < length self.old.tree }
        ensures { MatchResult result
            (λ _. (option_and_then (λ d. act_fault d) (slice_get self.old.devices device) ≡ None)
            × (self.new ≡ record self.old { devices = changed_at device (λ d. after_act d act) self.old.devices }))
            (λ error. (option_and_then (λ d. act_fault d) (slice_get self.old.devices device) ≡ Some error) × (self.new ≡ self.old)) }
    {
        act_on(&mut self.devices, device, act)
    }

    fn apply_to_devices(&mut self, at: u64, event: Event) -> Result<(), EventError>
        requires idle { self.old.heard ≡ None }
        requires early { at ≤ latest_instant }
        requires known { NamesDevices (length self.old.tree) event }
        ensures { MatchResult result
            (λ _. (event_fault self.old event ≡ None) × (self.new ≡ after_accepted at event self.old))
            (λ error. (event_fault self.old event ≡ Some error) × (self.new ≡ self.old)) }
    {
        match event {
            Event::Plug {
                child,
                parent,
                port,
            } => self.plug(at, child, parent, port)?,
            Event::Unplug { child } => self.unplug(at, child)?,
            Event::Key { device, key, press } => self.key(at, device, key, press)?,
            Event::Send {
                device,
                frame,
                ticket,
            } => self.send(at, device, frame, ticket)?,
            Event::SendNamed {
                device,
                names,
                frame,
                ticket,
            } => self.send_named(at, device, names, &frame, ticket)?,
            Event::Outside { device, act } => self.act(device, act)?,
        }
        Ok(())
    }

    /// Applies an event at time `at`: not before the close of the last round or the event before, and not after
    /// the next start. The devices that it names are among those of the tree. A round that was begun is given up.
    ///
    /// # Errors
    ///
    /// The event is refused as the tree refuses a plug, and as the device refuses a key, a frame or an act; a frame with a name whose
    /// device holds no address with `OffWire` where its sender is off the wire, else with `NoAddress`. The network is then as it was.
    pub fn apply(&mut self, at: u64, event: Event) -> Result<(), EventError>
        requires early { at ≤ latest_instant }
        requires known { NamesDevices (length self.old.tree) event }
        ensures answer { MatchResult result (λ _. event_fault self.old event ≡ None) (λ error. event_fault self.old event ≡ Some error) }
        ensures state { self.new ≡ net_after at event self.old }
        ensures once { HeldOnce self.new.devices }
    {
        // A wire is large: where no round was begun its room is not touched.
        let answer = if self.begun.is_none() {
            self.apply_to_devices(at, event)
        } else {
            self.apply_underway(at, event)
        };
        self.addresses_are_held_once();
        answer
    }

    // Applies an event while a round is underway, which is given up where the event is taken.
    fn apply_underway(&mut self, at: u64, event: Event) -> Result<(), EventError>
        requires early { at ≤ latest_instant }
        requires known { NamesDevices (length self.old.tree) event }
        ensures answer { MatchResult result (λ _. event_fault self.old event ≡ None) (λ error. event_fault self.old event ≡ Some error) }
        ensures state { self.new ≡ net_after at event self.old }
    {
        let begun = self.begun.take();
        match self.apply_to_devices(at, event) {
            Ok(()) => Ok(()),
            Err(error) => {
                self.begun = begun;
                Err(error)
            }
        }
    }
}

// Gives up a round that was begun. Where there is none, the room for one is not touched.
pub(crate) fn give_up(begun: &mut Option<EdgeWire>)
    ensures { begun.new ≡ None }
{
    if begun.is_some() {
        *begun = None;
    }
}

impl<W> Net<W> {
    ghost use Rattle.line_wave.specs.Line.{IsWave};
    ghost use Rattle.line_rounds.specs.Round.{IsRound};
    ghost use Rattle.room_net.specs.State.{next_start};
    ghost use Rattle.room_net.specs.Step.{seats_of, after_round};
    ghost use Rattle.room_net.specs.Progress.{IsProgress};
    ghost use Rattle.room_net.specs.Held.{HeldOnce};

    /// The pulses and pulls that no round has taken, in order.
    pub fn pulls(&self) -> &[Stretch]
        ensures pulls { result.now ≡ self.now.pulses }
        ensures order { IsWave result.now }
    {
        self.pulses.as_slice()
    }

    /// The seats of a round that begins at `begin`, one for each device, by their numbers.
    pub fn seats(&self, begin: u64) -> ArrayVec<Seat, DEVICES>
        ensures { result.items ≡ seats_of self.now begin }
    {
        seats_of(&self.devices, self.rest, begin)
    }

    /// Ends the next round, which begins at `begin` and gave this outcome, as `round_at` does. The last round closed by
    /// 2,000,000,000,000.
    pub fn end(&mut self, begin: u64, outcome: &Outcome)
        requires early { self.old.close ≤ latest_instant }
        requires begins { next_start self.old ≡ Some begin }
        requires round { IsRound (seats_of self.old begin) begin self.old.pulses outcome.now }
        ensures state { self.new ≡ after_round self.old begin outcome.now }
        ensures progress { IsProgress self.old begin self.new }
        ensures once { HeldOnce self.new.devices }
    {
        // They come in order: the round rests with the last of them that its reading has.
        let _stretches = outcome.wave.as_slice();
        let _pulses = self.pulses.as_slice();
        end_round(&mut self.devices, self.rest, begin, outcome);
        self.pulses.drop_until(outcome.rest);
        self.close = outcome.close();
        self.rest = outcome.rest;
        give_up(&mut self.begun);
    }
}

impl<W: Wire> Net<W> {
    ghost use Rattle.line_wave.specs.Line.{IsWave};
    ghost use Rattle.line_rounds.specs.Round.{IsRound};
    ghost use Rattle.room_net.specs.State.{next_start};
    ghost use Rattle.room_net.specs.Step.{IsNextRound, after_round, seats_of};
    ghost use Rattle.room_net.specs.Progress.{IsProgress};
    ghost use Rattle.room_net.specs.Held.{HeldOnce};

    /// What the next round gives, which begins at `begin`. The network stays as it was, and the round still comes. The last
    /// round closed by 2,000,000,000,000.
    pub fn outcome_at(&mut self, begin: u64) -> Outcome
        requires early { self.old.close ≤ latest_instant }
        requires begins { next_start self.old ≡ Some begin }
        ensures same { self.new ≡ self.old }
        ensures round { IsRound (seats_of self.old begin) begin self.old.pulses result }
        ensures wave { IsWave result.wave }
        ensures progress { IsProgress self.old begin (after_round self.old begin result) }
    {
        let seats = seats_of(&self.devices, self.rest, begin);
        // They come in order.
        let _pulses = self.pulses.as_slice();
        let outcome = self.wire.round(&seats, begin, &self.pulses);
        let _stretches = outcome.wave.as_slice();
        outcome
    }

    /// Runs the next round, which begins at `begin`, to its close. The last round closed by 2,000,000,000,000. Each device
    /// then follows the frame that was read, and learns what became of its own. A round that was begun is given up.
    pub fn round_at(&mut self, begin: u64) -> Outcome
        requires early { self.old.close ≤ latest_instant }
        requires begins { next_start self.old ≡ Some begin }
        ensures step { IsNextRound self.old begin result self.new }
        ensures progress { IsProgress self.old begin self.new }
        ensures once { HeldOnce self.new.devices }
    {
        let outcome = self.outcome_at(begin);
        self.end(begin, &outcome);
        outcome
    }

    /// Runs the next round, as `round_at`, where there is one. None, and nothing changes, where there is no next start.
    pub fn round(&mut self) -> Option<RoundReport>
        requires { self.old.close ≤ latest_instant }
        ensures step { MatchOption result
            ((next_start self.old ≡ None) × (self.new ≡ self.old))
            (λ report. (next_start self.old ≡ Some report.begin) × IsNextRound self.old report.begin report.outcome self.new) }
        ensures progress { IfSome result (λ report. IsProgress self.old report.begin self.new) }
        ensures once { HeldOnce self.new.devices }
    {
        match self.next_start() {
            None => {
                self.addresses_are_held_once();
                None
            }
            Some(begin) => Some(RoundReport {
                begin,
                outcome: self.round_at(begin),
            }),
        }
    }
}
