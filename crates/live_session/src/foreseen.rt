//! A network, and the round that comes next on it.
ghost use Rattle.std.specs.Prelude.{◌≡◌, ℕ, List, ◌≤◌, ◌<◌, [], length, slice_get, true, Some, None, Option, IfOk, IfSome, IsSome, MatchResult};
ghost use Rattle.line_wave.specs.Line.{IsWave};
ghost use Rattle.line_wave.specs.Bounds.{latest_instant};
ghost use Rattle.line_rounds.specs.declared.Outcome.{Outcome as OutcomeValue};
ghost use Rattle.room_event.specs.Events.{NamesDevices};
ghost use Rattle.room_net.specs.Added.{pulse_fault, with_pulse};
ghost use Rattle.room_net.specs.Apply.{event_fault, net_after};
ghost use Rattle.room_net.specs.Progress.{IsProgress};
ghost use Rattle.room_net.specs.State.{NetState, first_net, next_start};
ghost use Rattle.room_net.specs.Step.{IsNextRound};
ghost use Rattle.line_rounds.specs.Round.{close_in};
ghost use Rattle.text_core.specs.Adds.{Adds};
ghost use Rattle.message_text.specs.ReadingText.{is_complete};
ghost use Rattle.room_run.specs.Run.{counted_event, counted_round, turn_of};
ghost use Rattle.room_run.specs.Happening.{OfEvent, OfRound};
ghost use Rattle.live_session.specs.Edges.{first_edge, pinned_by};
ghost use Rattle.live_session.specs.Session.{pin_by};
ghost use Rattle.live_session.specs.Turns.{AreAhead, AreEdgesOn, HasEdges, IsForeseen, IsKept, IsOn};

use crate::edges::{InstantRange, add_edges_by, first_edge_by};
use device_core::Device;
use edid_tree::Tree;
use line_rounds::Outcome;
use line_wave::Stretch;
use line_wire::EdgeWire;
use record_core::Form;
use room_net::{Net, PulseError};
use room_run::{Reporter, Totals, Turn, next_turn, take_event, take_round};
use room_script::TimedEvent;
use std::alloc::{AllocError, Global};
use std::marker::Model;
use text_core::{Counted, Sink};

/// A network, and what its next round gives, once that was looked for. So a round that is not reported yet is run once, and not
/// again with each line that comes. As a value it is the network.
#[derive(Drop)]
pub(crate) struct Foreseen {
    net: Box<Net<EdgeWire>>,
    /// What the next round gives, where it is known; else what an earlier one gave. An outcome is large, so it is not cleared.
    next: Option<Outcome>,
    /// Whether the next round was run, and nothing has changed since.
    is_known: bool,
}

impl Model for Foreseen {
    ghost use Rattle.room_net.specs.State.{NetState};
    ghost use Rattle.live_session.specs.Turns.{AreAhead, IsKept};

    ghost Value = { NetState };

    ghost view = { λ f. f.net.value };

    ghost invariant = { λ f. IsKept f.is_known f.net.value f.next × AreAhead f.net.value };
}

// Runs the next round, which begins at `begin`. Returns its close. An outcome is large: room for it is made here, and not where
// the round was run already.
#[inline(never)]
fn run_ahead(net: &mut Net<EdgeWire>, begin: u64, next: &mut Option<Outcome>) -> u64
    requires early { net.old.close ≤ latest_instant }
    requires begins { next_start net.old ≡ Some begin }
    ensures same { net.new ≡ net.old }
    ensures known { IsForeseen net.old next.new }
    ensures some { IsSome next.new }
    ensures close { IfSome next.new (λ o. result ≡ close_in o) }
{
    let outcome = net.outcome_at(begin);
    let close = outcome.close();
    *next = Some(outcome);
    close
}

// Runs the next round, which begins at `begin`, where it is not known. Returns its close.
fn foresee(
    net: &mut Net<EdgeWire>,
    begin: u64,
    next: &mut Option<Outcome>,
    is_known: &mut bool,
) -> u64
    requires early { net.old.close ≤ latest_instant }
    requires begins { next_start net.old ≡ Some begin }
    requires kept { IsKept is_known.old net.old next.old }
    ensures same { net.new ≡ net.old }
    ensures known { is_known.new ≡ true }
    ensures kept { IsForeseen net.old next.new }
    ensures some { IsSome next.new }
    ensures close { IfSome next.new (λ o. result ≡ close_in o) }
{
    if *is_known {
        if let Some(outcome) = &*next {
            return outcome.close();
        }
    }
    *is_known = true;
    run_ahead(net, begin, next)
}

// The pin as a round has it that closes then.
fn pin_by(pin: Option<u64>, close: u64) -> Option<u64>
    ensures { result ≡ pin_by pin close }
{
    let low = pin?;
    if close < low { None } else { Some(low) }
}

impl Foreseen {
    /// The network at time 0, without pulses.
    ///
    /// # Errors
    ///
    /// Want of memory.
    pub fn new(alloc: Global, tree: Tree<15>) -> Result<Self, AllocError>
        requires some { 0 < length tree }
        ensures { IfOk result (λ net. net ≡ first_net tree []) }
    {
        let net = Net::on_heap(alloc, tree, &[])?;
        Ok(Foreseen {
            net,
            next: None,
            is_known: false,
        })
    }

    /// Its pulses and pulls are in order, and none begins before its line has come to rest.
    pub fn pulses_are_ahead(&self)
        ensures { AreAhead self.now }
    {
        let _is_known = self.is_known;
    }

    /// The tree of the devices.
    pub fn tree(&self) -> &Tree<15>
        ensures { result.now ≡ self.now.tree }
    {
        self.net.tree()
    }

    /// The devices, by their numbers.
    pub fn devices(&self) -> &[Device<16>]
        ensures { result.now ≡ self.now.devices }
    {
        self.net.devices()
    }

    /// A device, whose number is below the count.
    pub fn device(&self, number: usize) -> &Device<16>
        requires { number < length self.now.tree }
        ensures { slice_get self.now.devices number ≡ Some result.now }
    {
        self.net.device(number)
    }

    /// How many of the pulses that it was told of no round has taken yet.
    pub fn waiting(&self) -> usize
        ensures { result ≡ length self.now.pulses }
    {
        self.net.waiting()
    }

    /// What comes next in a run to `end`, where the next event has this time.
    pub fn next_turn(&self, end: u64, time: Option<u64>) -> Turn
        ensures { result ≡ turn_of end self.now time }
    {
        next_turn(end, &self.net, time)
    }

    /// Tells of one more pulse, as [`add_pulse`](Net::add_pulse) of a network.
    ///
    /// # Errors
    ///
    /// Those of that.
    pub fn add_pulse(&mut self, pulse: Stretch) -> Result<(), PulseError>
        ensures { MatchResult result
            (λ _. (pulse_fault self.old pulse ≡ None) × (self.new ≡ with_pulse self.old pulse))
            (λ error. (pulse_fault self.old pulse ≡ Some error) × (self.new ≡ self.old)) }
    {
        self.is_known = false;
        self.net.add_pulse(pulse)
    }

    /// Applies an event, as [`take_event`].
    pub fn take_event<R: Reporter>(
        &mut self,
        totals: &mut Totals,
        at: u64,
        event: &TimedEvent,
        reporter: &mut R,
    )
        requires early { at ≤ latest_instant }
        requires known { NamesDevices (length self.old.tree) event.now.event }
        requires room { totals.old.refused < 18446744073709551615 }
        ensures net { self.new ≡ net_after at event.now.event self.old }
        ensures totals { totals.new ≡ counted_event (event_fault self.old event.now.event) totals.old }
        ensures heard { R.hears reporter.old (OfEvent at event.now self.old) reporter.new }
    {
        self.is_known = false;
        take_event(&mut self.net, totals, at, event, reporter);
    }

    /// The close of the next round, which begins at `begin`.
    pub fn next_close(&mut self, begin: u64) -> u64
        requires early { self.old.close ≤ latest_instant }
        requires begins { next_start self.old ≡ Some begin }
        ensures same { self.new ≡ self.old }
        ensures close { (outcome : OutcomeValue) × (after : NetState) × IsWave outcome.wave × IsNextRound self.old begin outcome after × IsProgress self.old begin after × (result ≡ after.close) }
    {
        foresee(&mut self.net, begin, &mut self.next, &mut self.is_known)
    }

    /// The first edge of the next round, which begins at `begin`, at an instant or later: of its own, or where the pin goes low by its
    /// close the pin's.
    pub fn next_edge(&mut self, begin: u64, from: u64, pin: Option<u64>) -> Option<u64>
        requires early { self.old.close ≤ latest_instant }
        requires begins { next_start self.old ≡ Some begin }
        ensures same { self.new ≡ self.old }
        ensures edge { (outcome : OutcomeValue) × (after : NetState) × IsWave outcome.wave × IsNextRound self.old begin outcome after × (result ≡ first_edge from (pinned_by (pin_by pin after.close) outcome.wave)) }
    {
        let close = foresee(&mut self.net, begin, &mut self.next, &mut self.is_known);
        let Some(outcome) = &self.next else {
            unreachable!();
        };
        first_edge_by(from, pin_by(pin, close), outcome.wave.as_slice())
    }

    // Adds the edges of the next round, which begins at `begin`, that lie in a span, by the pin.
    fn add_edges<S: Sink>(
        &mut self,
        out: &mut Counted<'_, S>,
        form: Form,
        begin: u64,
        span: InstantRange,
        pin: Option<u64>,
    )
        requires early { self.old.close ≤ latest_instant }
        requires begins { next_start self.old ≡ Some begin }
        ensures same { self.new ≡ self.old }
        ensures edges { (edges : List ℕ) × HasEdges form span pin begin self.old edges × Adds out.old out.new edges }
    {
        let _close = foresee(&mut self.net, begin, &mut self.next, &mut self.is_known);
        let Some(outcome) = &self.next else {
            unreachable!();
        };
        add_edges_by(out, form, span, pin, outcome.wave.as_slice());
    }

    /// Adds the edges of the next round that lie in a span, where it is on, and the pin's, where it is low.
    pub fn add_edges_on<S: Sink>(
        &mut self,
        out: &mut Counted<'_, S>,
        form: Form,
        on: Option<u64>,
        span: InstantRange,
        pin: Option<u64>,
    )
        requires early { self.old.close ≤ latest_instant }
        requires begins { IfSome on (λ begin. next_start self.old ≡ Some begin) }
        ensures same { self.new ≡ self.old }
        ensures edges { (edges : List ℕ) × AreEdgesOn form span pin self.old on edges × Adds out.old out.new edges }
    {
        match on {
            None => add_edges_by(out, form, span, pin, &[]),
            Some(begin) => self.add_edges(out, form, begin, span, pin),
        }
    }

    /// Whether the next round, which begins at `begin`, is on: it closes at `until` or later, and the script has not ended.
    pub fn is_on(&mut self, begin: u64, until: u64, ended: bool) -> bool
        requires early { self.old.close ≤ latest_instant }
        requires begins { next_start self.old ≡ Some begin }
        ensures same { self.new ≡ self.old }
        ensures on { IsOn result ended until begin self.old }
    {
        if ended {
            return false;
        }
        self.next_close(begin) >= until
    }

    /// Reports the next round, which begins at `begin`, runs it and counts it, as [`take_round`].
    pub fn take_round<R: Reporter>(&mut self, totals: &mut Totals, begin: u64, reporter: &mut R)
        requires early { self.old.close ≤ latest_instant }
        requires soon { begin ≤ latest_instant }
        requires begins { next_start self.old ≡ Some begin }
        requires room { totals.old.rounds < 18446744073709551615 }
        requires less { totals.old.complete ≤ totals.old.rounds }
        ensures heard { (outcome : OutcomeValue) × IsWave outcome.wave × IsNextRound self.old begin outcome self.new
            × (totals.new ≡ counted_round (is_complete outcome.reading.ending) totals.old) × R.hears reporter.old (OfRound begin self.old outcome) reporter.new }
        ensures progress { IsProgress self.old begin self.new }
    {
        let _close = foresee(&mut self.net, begin, &mut self.next, &mut self.is_known);
        let Some(outcome) = &self.next else {
            unreachable!();
        };
        self.is_known = false;
        take_round(&mut self.net, totals, begin, outcome, reporter);
    }
}
