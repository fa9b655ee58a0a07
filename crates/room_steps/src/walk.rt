//! Where a run stands, and how its steps lead on.
ghost use Rattle.std.specs.Prelude.{◌≡◌, ℕ, Option, Result, Some, IsSome, length};
ghost use Rattle.text_core.specs.Cut.{WrittenText};
ghost use Rattle.edid_core.specs.Root.{HasAddress};
ghost use Rattle.room_steps.specs.Ready.{IsReady, point_of, run_of};
ghost use Rattle.room_steps.specs.Steps.{step_text};
ghost use Rattle.room_trace.specs.Records.{state_text};
ghost use Rattle.room_steps.specs.declared.stepper.StepError.TheVariants.{Write};

use crate::events_text::EventsText;
use crate::position::{Ahead, Position, RunInput};
use crate::stepper::StepError;
use device_core::Device;
use edid_core::root_on_heap;
use line_rounds::Outcome;
use line_wire::EdgeWire;
use record_core::Form;
use room_net::Net;
use room_run::edid_on_heap;
use room_script::{Script, Topology};
use room_step_text::{Break, stops};
use room_trace::{add_round, add_state};
use std::alloc::{AllocError, Global};
use std::marker::Model;
use std::mem;
use text_core::{Counted, Sink, WriteFault};

/// How many rounds a search leaps over at once, while none of them is looked for. Only the rounds of the last leap are run
/// twice, with a copy of the position before each.
const LEAP: u32 = 64;

/// A run of a script on a topology, and where it stands. A network is large: a step is worked out in places that are lent
/// to it, and where it counts they are exchanged for those in which the run stands.
#[derive(Drop)]
pub(crate) struct Walk {
    input: RunInput,
    /// After the last round that was finished, or at the start.
    last: Position,
    /// In the round that was begun, where one is. Its line is heard ahead of what is written of it, so that an edge that is
    /// not written is still the next one.
    inside: Position,
    ahead: Option<Ahead>,
    is_begun: bool,
}

impl Model for Walk {
    ghost use Rattle.edid_core.specs.Root.{HasAddress};
    ghost use Rattle.room_steps.specs.Ready.{AheadIf, InsideIf, IsReady, begun_in, point_of, run_of, written_in};
    ghost use Rattle.room_steps.specs.Steps.{Steps};

    ghost Value = { Steps };

    ghost view = { λ s. record { run = run_of s.input; last = point_of s.input.events.items s.last; begun = begun_in s.is_begun (written_in s.ahead (point_of s.input.events.items s.inside)) } };

    ghost invariant = { λ s. HasAddress s.input.edid.value × IsReady s.input.end (point_of s.input.events.items s.last)
        × InsideIf s.is_begun s.input.end (point_of s.input.events.items s.last) (point_of s.input.events.items s.inside)
        × AheadIf s.ahead s.inside.net.value };
}

fn step_error(fault: WriteFault) -> StepError
    ensures { result ≡ Write fault.count }
{
    StepError::Write(fault.count)
}

// Writes what the trace has of a round with this outcome, from the position before it to that after it.
fn write_step<S: Sink>(
    input: &RunInput,
    before: &mut Position,
    after: &Position,
    outcome: &Outcome,
    out: &mut S,
) -> Result<u128, WriteFault>
    requires ready { IsReady input.now.end (point_of input.now.events.items before.old) }
    requires addressed { HasAddress input.now.edid.value }
    ensures { WrittenText (S.contents out.old) (S.contents out.new) (S.is_stuck out.old) (S.is_stuck out.new)
        (step_text (run_of input.now) (point_of input.now.events.items before.old) outcome.now (point_of input.now.events.items after.now)) result }
{
    let mut text = Counted::new(out);
    before.add_start(input, &mut text);
    let mut events = EventsText::new(text, input.form, &input.edid);
    let _begin = before.to_round(input, &mut events);
    let mut text = events.into_text();
    add_round(&mut text, input.form, after.net.devices(), outcome);
    let written = text.written();
    // No effect at run time. The proof reads what `out` holds from the sink that comes back.
    let _below = text.into_sink();
    written
}

// Writes the state line of a device, or its object.
fn write_state<S: Sink>(out: &mut S, form: Form, device: &Device<16>) -> Result<u128, WriteFault>
    ensures { WrittenText (S.contents out.old) (S.contents out.new) (S.is_stuck out.old) (S.is_stuck out.new) (state_text form device.now) result }
{
    let mut text = Counted::new(out);
    add_state(&mut text, form, device);
    let written = text.written();
    // No effect at run time. The proof reads what `out` holds from the sink that comes back.
    let _below = text.into_sink();
    written
}

impl Walk {
    ghost use Rattle.std.specs.Prelude.{◌||◌, ◌<◌, IfOk, IsTrue, MatchOption, is_some};
    ghost use Rattle.std.specs.Option.{option_map};
    ghost use Rattle.room_script.specs.Script.{IsScript, course_of};
    ghost use Rattle.edid_core.specs.declared.edid.Edid.{Edid};
    ghost use Rattle.edid_core.specs.Root.{IsRoot as IsRootOf};
    ghost use Rattle.room_net.specs.State.{first_net};
    ghost use Rattle.room_steps.specs.Over.{OverIf};
    ghost use Rattle.room_steps.specs.Ready.{Brings, IsFound, IsInside};
    ghost use Rattle.room_steps.specs.Steps.{IsEdgeStep, IsNever, IsNoEdge, IsOver, IsRound, IsTaken, IsUntil, IsFirstStep, IsShown, Skips, after_round, begun_at, device_count, in_round, is_write, shown_net};

    // Stands after a round.
    fn stand_after(&mut self, after: &mut Position)
        requires { IsReady self.old.run.end (point_of self.old.run.events after.old) }
        ensures { self.new ≡ after_round self.old (point_of self.old.run.events after.old) }
    {
        mem::swap(&mut self.last, after);
        self.is_begun = false;
    }

    // Stands in the round that comes after a position.
    fn stand_in(&mut self, last: &mut Position, inside: &mut Position)
        requires ready { IsReady self.old.run.end (point_of self.old.run.events last.old) }
        requires inside { IsInside self.old.run.end (point_of self.old.run.events last.old) (point_of self.old.run.events inside.old) }
        ensures { self.new ≡ in_round self.old (point_of self.old.run.events last.old) inside.old.net.value }
    {
        mem::swap(&mut self.last, last);
        mem::swap(&mut self.inside, inside);
        self.ahead = None;
        self.is_begun = true;
    }

    /// Whether a round was begun.
    pub fn is_begun(&self) -> bool
        ensures { result ≡ is_some self.now.begun }
    {
        self.is_begun
    }

    /// A place for a position.
    pub fn place(&self, alloc: Global) -> Result<Position, AllocError>
        requires { 0 < device_count self.now }
    {
        Position::start(alloc, self.last.net.tree().copy(), &[])
    }

    /// Whether no edge is left, where no round was begun. Where one was, that is not looked for.
    pub fn is_over(&self, place: &mut Position) -> bool
        ensures { OverIf result self.now }
    {
        if self.is_begun {
            return false;
        }
        self.copy_last(place);
        place.pass_events(&self.input).is_none()
    }

    // Copies the position after the last round that was finished to another place.
    fn copy_last(&self, place: &mut Position)
        ensures last { point_of self.now.run.events place.new ≡ self.now.last }
        ensures ready { IsReady self.now.run.end (point_of self.now.run.events place.new) }
    {
        place.copy_from(&self.last);
    }

    // Writes what the trace has of a round, and stands after it.
    fn take<S: Sink>(
        &mut self,
        before: &mut Position,
        after: &mut Position,
        outcome: &Outcome,
        out: &mut S,
    ) -> Result<u128, StepError>
        requires before { IsReady self.old.run.end (point_of self.old.run.events before.old) }
        requires after { IsReady self.old.run.end (point_of self.old.run.events after.old) }
        ensures step { IsTaken
            (λ text t. (text ≡ step_text self.old.run (point_of self.old.run.events before.old) outcome.now (point_of self.old.run.events after.old))
            × (t ≡ after_round self.old (point_of self.old.run.events after.old)))
            ⊥ self.old self.new (S.contents out.old) (S.contents out.new) result }
        ensures flag { S.is_stuck out.new ≡ (is_write result || S.is_stuck out.old) }
    {
        match write_step(&self.input, before, after, outcome, out) {
            Err(fault) => Err(step_error(fault)),
            Ok(count) => {
                self.stand_after(after);
                Ok(count)
            }
        }
    }

    /// `Stepper::round`, worked out in these places.
    pub fn round<S: Sink>(
        &mut self,
        before: &mut Position,
        after: &mut Position,
        out: &mut S,
    ) -> Result<u128, StepError>
        ensures step { IsTaken (IsRound self.old) (IsOver self.old.run.end self.old.last) self.old self.new (S.contents out.old) (S.contents out.new) result }
        ensures flag { S.is_stuck out.new ≡ (is_write result || S.is_stuck out.old) }
    {
        self.copy_last(after);
        let Some(report) = after.pass_round(&self.input) else {
            return Err(StepError::Ended);
        };
        self.copy_last(before);
        self.take(before, after, &report.outcome, out)
    }

    // Goes on over as many rounds as are leapt over at once, where none of them is looked for. Returns whether it went on.
    fn leap(&self, at: Break, here: &mut Position, ahead: &mut Position) -> bool
        requires { IsReady self.now.run.end (point_of self.now.run.events here.old) }
        ensures skips { (rounds : ℕ) × Skips self.now.run.end at rounds (point_of self.now.run.events here.old) (point_of self.now.run.events here.new) }
        ensures ready { IsReady self.now.run.end (point_of self.now.run.events here.new) }
        ensures onward { IsTrue result → Brings self.now.run.end (point_of self.now.run.events here.old) (point_of self.now.run.events here.new) }
    {
        ahead.copy_from(here);
        'rounds: for _ in 0..LEAP {
            let Some(report) = ahead.pass_round(&self.input) else {
                return false;
            };
            if stops(at, &report.outcome) {
                return false;
            }
        }
        mem::swap(here, ahead);
        true
    }

    // Goes on to the first round that is looked for. Returns its outcome, with the positions before and after it in their
    // places. A position is large: it is copied before each round only where the one that is looked for is near.
    fn search(&self, at: Break, before: &mut Position, after: &mut Position) -> Option<Outcome>
        ensures { MatchOption result (IsNever self.now at) (λ outcome. IsFound self.now at before.new outcome after.new) }
    {
        self.copy_last(before);
        'leaps: while self.leap(at, before, after) {}
        'rounds: loop {
            after.copy_from(before);
            let Some(report) = after.pass_round(&self.input) else {
                return None;
            };
            if stops(at, &report.outcome) {
                return Some(report.outcome);
            }
            mem::swap(before, after);
        }
    }

    /// `Stepper::until`, worked out in these places.
    pub fn until<S: Sink>(
        &mut self,
        at: Break,
        before: &mut Position,
        after: &mut Position,
        out: &mut S,
    ) -> Result<u128, StepError>
        ensures step { IsTaken (IsUntil self.old at) (IsNever self.old at) self.old self.new (S.contents out.old) (S.contents out.new) result }
        ensures flag { S.is_stuck out.new ≡ (is_write result || S.is_stuck out.old) }
    {
        let Some(outcome) = self.search(at, before, after) else {
            return Err(StepError::Ended);
        };
        self.take(before, after, &outcome, out)
    }

    // Writes the first edge of the round that comes after a position, and stands in that round.
    fn first_edge<S: Sink>(
        &mut self,
        last: &mut Position,
        inside: &mut Position,
        out: &mut S,
    ) -> Result<u128, StepError>
        requires { IsReady self.old.run.end (point_of self.old.run.events last.old) }
        ensures step { IsTaken (IsFirstStep self.old (point_of self.old.run.events last.old)) (IsOver self.old.run.end (point_of self.old.run.events last.old))
            self.old self.new (S.contents out.old) (S.contents out.new) result }
        ensures flag { S.is_stuck out.new ≡ (is_write result || S.is_stuck out.old) }
    {
        inside.copy_from(last);
        let Some(edge) = inside.begin_round(&self.input) else {
            return Err(StepError::Ended);
        };
        match inside.write_edge(out, self.input.form, edge) {
            Err(fault) => Err(step_error(fault)),
            Ok(count) => {
                self.stand_in(last, inside);
                Ok(count)
            }
        }
    }

    // Writes the next edge of the round that was begun; where it has given all its edges, the first one of the next.
    fn edge_inside<S: Sink>(
        &mut self,
        last: &mut Position,
        next: &mut Position,
        out: &mut S,
    ) -> Result<u128, StepError>
        requires { IsSome self.old.begun }
        ensures step { IsTaken (IsEdgeStep self.old) (IsNoEdge self.old) self.old self.new (S.contents out.old) (S.contents out.new) result }
        ensures flag { S.is_stuck out.new ≡ (is_write result || S.is_stuck out.old) }
    {
        let Some(edge) = self.inside.hear_ahead(&mut self.ahead) else {
            last.copy_from(&self.inside);
            let report = last.net.finish_round();
            // No effect at run time. The proof reads from it how many there are at most.
            let _stretches = report.outcome.wave.as_slice();
            last.is_first = false;
            return self.first_edge(last, next, out);
        };
        match self.inside.write_edge(out, self.input.form, edge) {
            Err(fault) => Err(step_error(fault)),
            Ok(count) => {
                self.ahead = None;
                Ok(count)
            }
        }
    }

    /// `Stepper::edge`, worked out in these places.
    pub fn edge<S: Sink>(
        &mut self,
        before: &mut Position,
        after: &mut Position,
        out: &mut S,
    ) -> Result<u128, StepError>
        ensures step { IsTaken (IsEdgeStep self.old) (IsNoEdge self.old) self.old self.new (S.contents out.old) (S.contents out.new) result }
        ensures flag { S.is_stuck out.new ≡ (is_write result || S.is_stuck out.old) }
    {
        if self.is_begun {
            return self.edge_inside(before, after, out);
        }
        self.copy_last(before);
        self.first_edge(before, after, out)
    }

    // The network that is shown: in the round that was begun, and else after the last one.
    fn shown(&self) -> &Net<EdgeWire>
        ensures devices { result.now.devices ≡ (shown_net self.now).devices }
        ensures count { length result.now.tree ≡ device_count self.now }
    {
        if self.is_begun {
            &self.inside.net
        } else {
            &self.last.net
        }
    }

    /// `Stepper::show`.
    pub fn show<S: Sink>(&self, device: usize, out: &mut S) -> Result<u128, StepError>
        requires { device < device_count self.now }
        ensures step { IsTaken (IsShown self.now device) ⊥ self.now self.now (S.contents out.old) (S.contents out.new) result }
        ensures flag { S.is_stuck out.new ≡ (is_write result || S.is_stuck out.old) }
    {
        match write_state(out, self.input.form, self.shown().device(device)) {
            Err(fault) => Err(step_error(fault)),
            Ok(count) => Ok(count),
        }
    }

    /// The form of its lines.
    pub fn form(&self) -> Form
        ensures { result ≡ self.now.run.form }
    {
        self.input.form
    }

    /// The start of a run, as of `Stepper::in_form`.
    pub fn new(
        alloc: Global,
        form: Form,
        topology: Topology,
        script: Script,
    ) -> Result<Walk, AllocError>
        requires some { 0 < length topology.tree }
        requires script { IsScript (length topology.tree) (course_of script) }
        requires root { (edid : Option Edid) × IsRootOf (option_map (λ bytes. bytes.items) topology.edid) edid }
        ensures { IfOk result (λ walk. (edid : Option Edid) × IsRootOf (option_map (λ bytes. bytes.items) topology.edid) edid
            × (walk ≡ begun_at form edid (course_of script) (first_net topology.tree script.pulses.items))) }
    {
        let Ok(edid) = root_on_heap(alloc, &topology.edid) else {
            return Err(AllocError);
        };
        let edid = edid_on_heap(alloc, edid)?;
        // No effect at run time. The proof reads from it how many devices there are at most.
        let _count = topology.tree.count();
        let inside = Position::start(alloc, topology.tree.copy(), &[])?;
        let last = Position::start(alloc, topology.tree, &script.pulses)?;
        Ok(Walk {
            input: RunInput {
                form,
                edid,
                events: script.events,
                end: script.end,
            },
            last,
            inside,
            ahead: None,
            is_begun: false,
        })
    }
}
