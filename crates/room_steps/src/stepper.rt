//! The stepper.
ghost use Rattle.std.specs.Prelude.{◌≡◌, Option};
ghost use Rattle.room_steps.specs.Over.{OverIf, is_ended};

use crate::position::Position;
use crate::walk::Walk;
use record_core::Form;
use room_script::{Script, Topology};
use room_step_text::Break;
use std::alloc::{AllocError, Global};
use std::marker::Model;
use text_core::Sink;
use thiserror::Error;

/// Why a step was not taken.
#[derive(Clone, Copy, Debug, Drop, PartialEq, Eq, Error)]
pub enum StepError {
    /// The run has no such round any more.
    #[error("ended")]
    Ended,
    /// A `put` took none. So many bytes of the step's text were written.
    #[error("write fault after {0} bytes")]
    Write(u128),
}

/// A run of a script on a topology, taken step by step. A step counts once its text was written.
#[derive(Drop)]
pub struct Stepper {
    walk: Walk,
    /// Whether no edge is left, as a step has found. No further step then looks for one.
    is_over: bool,
    /// Places in which a step is worked out.
    before: Position,
    after: Position,
}

impl Model for Stepper {
    ghost use Rattle.room_steps.specs.Steps.{Steps};
    ghost use Rattle.room_steps.specs.Over.{OverIf};

    ghost Value = { Steps };

    ghost view = { λ s. s.walk };

    ghost invariant = { λ s. OverIf s.is_over s.walk };
}

fn is_ended(taken: &Result<u128, StepError>) -> bool
    ensures { result ≡ is_ended taken.now }
{
    match taken {
        Err(StepError::Ended) => true,
        _ => false,
    }
}

// Whether no edge is left, as far as that is looked for: after a step that there was not, and where no round was begun.
fn found_over(walk: &Walk, taken: &Result<u128, StepError>, place: &mut Position) -> bool
    ensures { OverIf result walk.now }
{
    is_ended(taken) && walk.is_over(place)
}

impl Stepper {
    ghost use Rattle.std.specs.Prelude.{◌||◌, ◌<◌, IfOk, IsTrue, length};
    ghost use Rattle.std.specs.Option.{option_map};
    ghost use Rattle.room_script.specs.Script.{IsScript, course_of};
    ghost use Rattle.edid_core.specs.declared.edid.Edid.{Edid};
    ghost use Rattle.record_core.specs.declared.cell.Form.TheVariants.{Text};
    ghost use Rattle.edid_core.specs.Root.{IsRoot as IsRootOf};
    ghost use Rattle.room_net.specs.State.{first_net};
    ghost use Rattle.room_steps.specs.Steps.{IsEdgeStep, IsNever, IsNoEdge, IsOver, IsRound, IsTaken, IsUntil, IsShown, begun_at, device_count, is_write};

    // Whether no round is left, as a step has found.
    fn has_no_round(&self) -> bool
        ensures { IsTrue result → IsOver self.now.run.end self.now.last }
    {
        self.is_over && !self.walk.is_begun()
    }

    /// Finishes the round that was begun, or the next one, and writes what the trace has of it: its line, after
    /// those of the events before it.
    ///
    /// # Errors
    ///
    /// There is no next round, or a `put` took none. The stepper then stands where it stood.
    pub fn round<S: Sink>(&mut self, out: &mut S) -> Result<u128, StepError>
        ensures step { IsTaken (IsRound self.old) (IsOver self.old.run.end self.old.last) self.old self.new (S.contents out.old) (S.contents out.new) result }
        ensures flag { S.is_stuck out.new ≡ (is_write result || S.is_stuck out.old) }
    {
        if self.has_no_round() {
            return Err(StepError::Ended);
        }
        let taken = self.walk.round(&mut self.before, &mut self.after, out);
        self.is_over = found_over(&self.walk, &taken, &mut self.after);
        taken
    }

    /// Goes on to the first round that is looked for, beginning with one that was begun, and writes that one alone, as
    /// `round` does.
    ///
    /// # Errors
    ///
    /// The run ends before such a round, or a `put` took none. The stepper then stands where it stood.
    pub fn until<S: Sink>(&mut self, at: Break, out: &mut S) -> Result<u128, StepError>
        ensures step { IsTaken (IsUntil self.old at) (IsNever self.old at) self.old self.new (S.contents out.old) (S.contents out.new) result }
        ensures flag { S.is_stuck out.new ≡ (is_write result || S.is_stuck out.old) }
    {
        if self.has_no_round() {
            return Err(StepError::Ended);
        }
        self.is_over = false;
        self.walk.until(at, &mut self.before, &mut self.after, out)
    }

    /// Writes the next edge of the round that was begun, and where each device on the wire then stands. Where no
    /// round was begun, or it has given all its edges, the next round is begun.
    ///
    /// # Errors
    ///
    /// There is no next round, or a `put` took none. The stepper then stands where it stood.
    pub fn edge<S: Sink>(&mut self, out: &mut S) -> Result<u128, StepError>
        ensures step { IsTaken (IsEdgeStep self.old) (IsNoEdge self.old) self.old self.new (S.contents out.old) (S.contents out.new) result }
        ensures flag { S.is_stuck out.new ≡ (is_write result || S.is_stuck out.old) }
    {
        if self.is_over {
            return Err(StepError::Ended);
        }
        let taken = self.walk.edge(&mut self.before, &mut self.after, out);
        self.is_over = is_ended(&taken);
        taken
    }

    /// Writes the state line of a device, whose number is below the count: in a round that was begun its state in
    /// that round, and else that after the last round.
    ///
    /// # Errors
    ///
    /// A `put` took none.
    pub fn show<S: Sink>(&self, device: usize, out: &mut S) -> Result<u128, StepError>
        requires { device < device_count self.now }
        ensures step { IsTaken (IsShown self.now device) ⊥ self.now self.now (S.contents out.old) (S.contents out.new) result }
        ensures flag { S.is_stuck out.new ≡ (is_write result || S.is_stuck out.old) }
    {
        self.walk.show(device, out)
    }

    /// The form in which it writes.
    pub fn form(&self) -> Form
        ensures { result ≡ self.now.run.form }
    {
        self.walk.form()
    }

    /// A stepper at the start of the run, that writes lines. The script was read with that topology, whose EDID, where it is given,
    /// is accepted and has an HDMI block.
    ///
    /// # Errors
    ///
    /// Want of memory.
    pub fn new(alloc: Global, topology: Topology, script: Script) -> Result<Stepper, AllocError>
        requires some { 0 < length topology.tree }
        requires script { IsScript (length topology.tree) (course_of script) }
        requires root { (edid : Option Edid) × IsRootOf (option_map (λ bytes. bytes.items) topology.edid) edid }
        ensures { IfOk result (λ stepper. (edid : Option Edid) × IsRootOf (option_map (λ bytes. bytes.items) topology.edid) edid
            × (stepper ≡ begun_at Text edid (course_of script) (first_net topology.tree script.pulses.items))) }
    {
        Stepper::in_form(alloc, Form::Text, topology, script)
    }

    /// The same, that writes in a form.
    ///
    /// # Errors
    ///
    /// Want of memory.
    pub fn in_form(
        alloc: Global,
        form: Form,
        topology: Topology,
        script: Script,
    ) -> Result<Stepper, AllocError>
        requires some { 0 < length topology.tree }
        requires script { IsScript (length topology.tree) (course_of script) }
        requires root { (edid : Option Edid) × IsRootOf (option_map (λ bytes. bytes.items) topology.edid) edid }
        ensures { IfOk result (λ stepper. (edid : Option Edid) × IsRootOf (option_map (λ bytes. bytes.items) topology.edid) edid
            × (stepper ≡ begun_at form edid (course_of script) (first_net topology.tree script.pulses.items))) }
    {
        let walk = Walk::new(alloc, form, topology, script)?;
        let before = walk.place(alloc)?;
        let after = walk.place(alloc)?;
        Ok(Stepper {
            walk,
            is_over: false,
            before,
            after,
        })
    }
}
