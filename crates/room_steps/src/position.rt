//! Where a run stands, and its next round.
ghost use Rattle.std.specs.Prelude.{◌≡◌, ℕ, ◌+◌, ◌++◌, ◌<◌, ◌≤◌, List, All, None, Some, true, drop, length, IfOk, MatchOption, IfSome, IsSome};
ghost use Rattle.line_wave.specs.Bounds.{latest_instant};
ghost use Rattle.line_wave.specs.Pulls.{are_timely};
ghost use Rattle.room_net.specs.Sound.{EndsEarly};
ghost use Rattle.room_net.specs.State.{first_net};
ghost use Rattle.room_net.specs.Underway.{OfRound, standing_reported};
ghost use Rattle.room_step_text.specs.EdgeText.{edge_text};
ghost use Rattle.text_core.specs.Cut.{WrittenText};
ghost use Rattle.text_core.specs.Adds.{Adds};
ghost use Rattle.room_run.specs.Heard.{Hears};
ghost use Rattle.room_run.specs.declared.run.Turn.TheVariants.{Apply, Stop};
ghost use Rattle.edid_core.specs.Root.{HasAddress};
ghost use Rattle.room_steps.specs.Ready.{AheadIf, AreAlike, Begins, Brings, HearsFirst, IsAhead, IsReady, Passes, happened, point_of, run_of, written_of};
ghost use Rattle.room_steps.specs.declared.position.Ahead.{Ahead as AheadOf};
ghost use Rattle.room_steps.specs.Steps.{ComesTo, IsOver, IsRoundStep, after_events, start_text, turn_at};

use edid_core::Edid;
use edid_tree::Tree;
use line_rounds::Outcome;
use line_wave::{Edge, Stretch};
use line_wire::EdgeWire;
use record_core::Form;
use room_net::{Net, RoundReport};
use room_run::{AppliedEvent, Reporter, Totals, Turn, first_time, next_turn, take_event};
use room_script::TimedEvent;
use room_step_text::write_edge;
use room_trace::add_new_ports;
use std::alloc::{AllocError, Global};
use text_core::{Counted, Sink, WriteFault};

/// What a run is made of: the form of its lines, the television's EDID, which is large and stands on the heap, the events in the
/// order of their times, and the end.
#[derive(Drop)]
pub(crate) struct RunInput {
    pub form: Form,
    pub edid: Box<Option<Edid>>,
    pub events: Vec<TimedEvent>,
    pub end: u64,
}

/// Where a run stands. Its network is large, and stands on the heap.
#[derive(Drop)]
pub(crate) struct Position {
    pub net: Box<Net<EdgeWire>>,
    /// How many events were applied.
    pub applied: usize,
    /// Whether no round was run yet. The lines of the ports are then due.
    pub is_first: bool,
}

/// What was heard of a round ahead of what was written of it: its next edge after an instant, or that none is left.
#[derive(Clone, Copy)]
pub(crate) struct Ahead {
    pub written: u64,
    pub edge: Option<Edge>,
}

// Hears of a run and keeps nothing of it.
#[derive(Drop)]
struct Silent;

impl Reporter for Silent {
    ghost use Rattle.std.specs.Prelude.{◌≡◌, true};

    ghost hears = { λ r x s. s ≡ r };

    ghost goes_on = { λ r. true };

    fn event<W>(&mut self, _applied: &AppliedEvent<'_>, _net: &Net<W>) {}

    fn round<W>(&mut self, _begin: u64, _outcome: &Outcome, _net: &Net<W>) {}

    fn wants_more(&self) -> bool {
        true
    }
}

impl RunInput {
    // The events that are left after so many.
    fn left(&self, applied: usize) -> &[TimedEvent]
        ensures { result.now ≡ drop applied self.now.events.items }
    {
        if applied <= self.events.len() {
            &self.events[applied..]
        } else {
            &[]
        }
    }
}

impl Position {
    /// The start of a run.
    pub fn start(alloc: Global, tree: Tree<15>, pulses: &[Stretch]) -> Result<Self, AllocError>
        requires some { 0 < length tree }
        requires early { All (λ p. p.from ≤ latest_instant) pulses.now }
        requires ends { All EndsEarly pulses.now }
        requires timely { are_timely pulses.now ≡ true }
        ensures { IfOk result (λ start. (start.net.value ≡ first_net tree pulses.now) × (start.applied ≡ 0) × (start.is_first ≡ true)) }
    {
        Ok(Position {
            net: Net::on_heap(alloc, tree, pulses)?,
            applied: 0,
            is_first: true,
        })
    }

    /// Becomes a copy of another position, in its own place.
    pub fn copy_from(&mut self, other: &Self)
        ensures { AreAlike self.new other.now }
    {
        self.net.copy_from(&other.net);
        self.applied = other.applied;
        self.is_first = other.is_first;
    }

    // What comes next in the run.
    fn turn(&self, input: &RunInput) -> Turn
        ensures { result ≡ turn_at input.now.end (point_of input.now.events.items self.now) }
    {
        let left = input.left(self.applied);
        next_turn(input.end, &self.net, first_time(left))
    }

    // Applies the next event, which comes at this instant, and reports it.
    fn pass_event<R: Reporter>(&mut self, input: &RunInput, at: u64, reporter: &mut R)
        requires turn { turn_at input.now.end (point_of input.now.events.items self.old) ≡ Apply at }
        requires ready { IsReady input.now.end (point_of input.now.events.items self.old) }
        ensures point { Passes at input.now.events.items self.old self.new }
        ensures heard { HearsFirst R.hears at self.old.net.value (drop self.old.applied input.now.events.items) reporter.old reporter.new }
        ensures ready { IsReady input.now.end (point_of input.now.events.items self.new) }
    {
        let Some((event, others)) = input.left(self.applied).split_first() else {
            unreachable!();
        };
        // No effect at run time. The proof reads from it how many are left.
        let _left = others;
        let mut totals = Totals::default();
        take_event(&mut self.net, &mut totals, at, event, reporter);
        self.applied += 1;
    }

    /// Applies the events that come before the next round, and reports each. Returns when that round begins; None where no round
    /// comes.
    pub fn to_round<R: Reporter>(&mut self, input: &RunInput, reporter: &mut R) -> Option<u64>
        requires ready { IsReady input.now.end (point_of input.now.events.items self.old) }
        ensures point { point_of input.now.events.items self.new ≡ after_events input.now.end (point_of input.now.events.items self.old) }
        ensures comes { ComesTo input.now.end (point_of input.now.events.items self.old) result }
        ensures rest { self.new.net.value.rest ≡ self.old.net.value.rest }
        ensures ready { IsReady input.now.end (point_of input.now.events.items self.new) }
        ensures heard { Hears R.hears reporter.old (happened input.now.end (point_of input.now.events.items self.old)) reporter.new }
    {
        'events: loop {
            match self.turn(input) {
                Turn::Apply(at) => self.pass_event(input, at, reporter),
                Turn::Round(begin) => return Some(begin),
                Turn::Stop => return None,
            }
        }
    }

    /// The same, reported to nobody.
    pub fn pass_events(&mut self, input: &RunInput) -> Option<u64>
        requires { IsReady input.now.end (point_of input.now.events.items self.old) }
        ensures point { point_of input.now.events.items self.new ≡ after_events input.now.end (point_of input.now.events.items self.old) }
        ensures comes { ComesTo input.now.end (point_of input.now.events.items self.old) result }
        ensures rest { self.new.net.value.rest ≡ self.old.net.value.rest }
        ensures ready { IsReady input.now.end (point_of input.now.events.items self.new) }
    {
        self.to_round(input, &mut Silent)
    }

    /// Runs the events and the round that come next. None where no round comes.
    pub fn pass_round(&mut self, input: &RunInput) -> Option<RoundReport>
        requires { IsReady input.now.end (point_of input.now.events.items self.old) }
        ensures step { MatchOption result
            (IsOver input.now.end (point_of input.now.events.items self.old))
            (λ report. IsRoundStep input.now.end (point_of input.now.events.items self.old) report.outcome (point_of input.now.events.items self.new)) }
        ensures brings { IfSome result (λ _. Brings input.now.end (point_of input.now.events.items self.old) (point_of input.now.events.items self.new)) }
        ensures ready { IfSome result (λ _. IsReady input.now.end (point_of input.now.events.items self.new)) }
    {
        let begin = self.pass_events(input)?;
        let outcome = self.net.round_at(begin);
        // No effect at run time. The proof reads from it how many there are at most.
        let _stretches = outcome.wave.as_slice();
        self.is_first = false;
        Some(RoundReport { begin, outcome })
    }

    /// Begins the round that comes next, with the events before it. Returns the first edge of its line; None where no
    /// round comes.
    pub fn begin_round(&mut self, input: &RunInput) -> Option<Edge>
        requires { IsReady input.now.end (point_of input.now.events.items self.old) }
        ensures { MatchOption result
            (IsOver input.now.end (point_of input.now.events.items self.old))
            (λ edge. Begins input.now.end (point_of input.now.events.items self.old) edge (point_of input.now.events.items self.new)) }
    {
        let _begin = self.pass_events(input)?;
        if !self.net.begin() {
            unreachable!();
        }
        self.net.next_edge()
    }

    /// Hears the round that was begun to its next edge, where that was not done already. Returns that edge; None where none is
    /// left.
    pub fn hear_ahead(&mut self, ahead: &mut Option<Ahead>) -> Option<Edge>
        requires underway { IsSome self.old.net.value.heard }
        requires ahead { AheadIf ahead.old self.old.net.value }
        ensures kept { (self.new.applied ≡ self.old.applied) × (self.new.is_first ≡ self.old.is_first) }
        ensures written { written_of ahead.new self.new.net.value ≡ written_of ahead.old self.old.net.value }
        ensures ahead { (heard : AheadOf) × (ahead.new ≡ Some heard) × (heard.edge ≡ result) × IsAhead self.new.net.value heard }
    {
        if let Some(heard) = ahead {
            return heard.edge;
        }
        let Some(written) = self.net.heard_until() else {
            unreachable!();
        };
        let edge = self.net.next_edge();
        *ahead = Some(Ahead { written, edge });
        edge
    }

    /// Adds the lines that are due before any event, or their objects: those of the ports, before the first round.
    #[tactic(auto, using(text_core::proofs::Adding::nothing))]
    pub fn add_start<S: Sink>(&self, input: &RunInput, out: &mut Counted<'_, S>)
        requires addressed { HasAddress input.now.edid.value }
        ensures { Adds out.old out.new (start_text (run_of input.now) (point_of input.now.events.items self.now)) }
    {
        if self.is_first {
            add_new_ports(out, input.form, 0, &input.edid, self.net.tree(), &[]);
        }
    }

    /// Writes the line of an edge, or its object, through which the line of the round that was begun is told. All devices hear one
    /// line: the first one's receiver stands where each one does.
    pub fn write_edge<S: Sink>(
        &self,
        out: &mut S,
        form: Form,
        edge: Edge,
    ) -> Result<u128, WriteFault>
        requires underway { IsSome self.now.net.value.heard }
        requires some { 0 < length self.now.net.value.tree }
        requires few { length self.now.net.value.devices ≤ 15 }
        ensures { (text : List ℕ) × OfRound self.now.net.value (λ begin heard low. text ≡ edge_text form self.now.net.value.devices edge (standing_reported low begin heard))
            × WrittenText (S.contents out.old) (S.contents out.new) (S.is_stuck out.old) (S.is_stuck out.new) text result }
    {
        write_edge(out, form, self.net.devices(), edge, self.net.standing_of(0))
    }
}
