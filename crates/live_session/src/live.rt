//! A run whose script comes line by line.
ghost use Rattle.std.specs.Prelude.{◌≡◌, IfOk, Option, option_map};
ghost use Rattle.line_wave.specs.Bounds.{latest_event};
ghost use Rattle.live_session.specs.Session.{refuse, step_show};
ghost use Rattle.live_session.specs.Session.{horizon_waited};

use crate::answer::{
    Refusal, RefusalCause, add_idle, add_refused, add_shown, add_taken, state_made,
};
use crate::command::{SessionCommand, command_in};
use crate::edges::InstantRange;
use crate::foreseen::Foreseen;
use crate::note::{events_after, note_line};
use crate::session_text::SessionText;
use crate::start::write_first_ports;
use crate::turns::{certain_until, next_edge, soonest, take_turns};
use edid_core::Edid;
use edid_tree::Tree;
use line_wave::LATEST_EVENT;
use record_core::Form;
use room_run::{Totals, edid_on_heap, first_time};
use room_script::{ScriptCause, ScriptDraft};
use room_trace::add_last_lines;
use std::alloc::{AllocError, Global};
use std::marker::Model;
use text_core::{Counted, Held, Sink, WriteFault};
use thiserror::Error;

/// What a line asks for.
#[derive(Clone, Copy, Debug, Drop, PartialEq, Eq)]
pub enum Step {
    /// It is refused.
    Refuse(Refusal),
    /// Nothing comes any more, unless a line does.
    Idle,
    /// The state of the device of this number is shown.
    Show(usize),
    /// The run goes on to the horizon.
    Go,
    /// It goes on so, and edges are reported with this line.
    Edge,
    /// The run goes on to its end.
    Finish,
}

/// What a line has asked for, and how many bytes were written of what is due then.
#[derive(Clone, Copy, Debug, Drop, PartialEq, Eq)]
pub struct Answered {
    pub step: Step,
    /// It stays at its greatest value.
    pub count: u128,
}

/// Why a line was not answered.
#[derive(Debug, Drop, Error)]
pub enum LiveError {
    /// A `put` took none. So many bytes of what is due were written.
    #[error("write fault after {0} bytes")]
    Write(u128),
    #[error("no memory")]
    Memory,
}

/// A run whose script comes line by line. What it has written is at each moment the front of the trace that the run of the
/// lines so far has, or of the objects of that trace, whatever lines come. Times are in microseconds.
#[derive(Drop)]
pub struct Live {
    alloc: Global,
    /// Whether it says lines or objects.
    form: Form,
    /// The television's EDID, which is large, on the heap.
    edid: Box<Option<Edid>>,
    /// The devices by their names.
    tree: Tree<15>,
    net: Foreseen,
    /// What the lines that were taken say.
    draft: ScriptDraft,
    /// How many events were applied.
    applied: usize,
    totals: Totals,
    /// All that is over before this instant was told, and each line that comes is for it or later.
    horizon: u64,
    /// How many lines have come.
    lines: u64,
    /// Whether edges are reported.
    edges: bool,
    /// The horizon before the last line: the edges before it were reported, or come no more.
    since: u64,
    /// Whether notes of devices from outside are reported.
    seats: bool,
}

impl Model for Live {
    ghost use Rattle.std.specs.Prelude.{◌≤◌, length};
    ghost use Rattle.edid_core.specs.Root.{HasAddress};
    ghost use Rattle.live_session.specs.Session.{IsReady, Session};

    ghost Value = { Session };

    ghost use Rattle.live_session.specs.Live.{session_of};

    ghost view = { session_of };

    ghost invariant = { λ l. IsReady (session_of l) × (l.applied ≤ length l.draft.events.items) × HasAddress l.edid.value };
}

// A line is refused, with this word at fault.
fn refuse(word: usize, cause: RefusalCause) -> Step
    ensures { result ≡ refuse word cause }
{
    Step::Refuse(Refusal { cause, word })
}

// Where one more turn is over, and an instant where none is by then.
fn horizon_waited(horizon: u64, until: u64, soon: Option<u64>) -> u64
    ensures { result ≡ horizon_waited horizon until soon }
{
    match soon {
        None => until,
        Some(time) => horizon.max(time),
    }
}

fn shown(device: Option<usize>) -> Step
    ensures { result ≡ step_show device }
{
    match device {
        None => refuse(1, RefusalCause::Script(ScriptCause::Name)),
        Some(device) => Step::Show(device),
    }
}

impl Live {
    ghost use Rattle.std.specs.Prelude.{ℕ, ◌<◌, ◌≤◌, ◌++◌, true, IfSome, MatchOption, Result, is_some, length, None};
    ghost use Rattle.text_core.specs.Held.{held_bytes};
    ghost use Rattle.room_script.specs.Script.{IsLineRead, Notes};
    ghost use Rattle.room_script.specs.declared.script.ScriptCause.{ScriptCause as CauseValue};
    ghost use Rattle.text_core.specs.declared.at.AtWord.{AtWord as AtWordValue};
    ghost use Rattle.edid_core.specs.Root.{HasAddress};
    ghost use Rattle.text_core.specs.Adds.{Adds};
    ghost use Rattle.text_core.specs.Cut.{WrittenText};
    ghost use Rattle.room_run.specs.Run.{end_reported, start_reported};
    ghost use Rattle.live_session.specs.declared.live.Step.TheVariants.{Edge, Finish, Go, Idle, Refuse, Show};
    ghost use Rattle.live_session.specs.Command.{pin_time};
    ghost use Rattle.live_session.specs.Note.{IsSettled};
    ghost use Rattle.live_session.specs.Session.{IsEdgeStep, IsSoonest, IsStep, NamesShown, after_to, after_wait, first_session, span_of, with_line_counted, standing, step_to, step_wait, taken_text, with_standing};
    ghost use Rattle.live_session.specs.Session.{IsWaitStep};
    ghost use Rattle.live_session.specs.Shown.{IsMade, IsShow};
    ghost use Rattle.live_session.specs.Turns.{certain_until, form_of, reporting_of};
    ghost use Rattle.live_session.specs.Taken.{IsAnswered, IsGone, IsLineTaken, IsOfMemory, IsTaken};

    /// A run before its first line, which says lines or objects. The television's EDID, where it is given, has an HDMI block.
    ///
    /// # Errors
    ///
    /// Want of memory.
    pub fn new(
        alloc: Global,
        form: Form,
        tree: Tree<15>,
        edid: Option<Box<Edid>>,
    ) -> Result<Live, AllocError>
        requires some { 0 < length tree }
        requires addressed { HasAddress (option_map (λ b. b.value) edid) }
        ensures { IfOk result (λ live. live ≡ first_session (reporting_of form (option_map (λ b. b.value) edid)) tree) }
    {
        let edid = edid_on_heap(alloc, edid)?;
        let net = Foreseen::new(alloc, tree.copy())?;
        Ok(Live {
            alloc,
            form,
            edid,
            tree,
            net,
            draft: ScriptDraft::new(alloc),
            applied: 0,
            totals: Totals::default(),
            horizon: 0,
            lines: 0,
            edges: false,
            since: 0,
            seats: false,
        })
    }

    /// Whether the script has come to its end.
    pub fn is_over(&self) -> bool
        ensures { result ≡ is_some self.now.notes.end }
    {
        self.draft.end.is_some()
    }

    /// Writes what the trace has at its start: the lines of the ports, or their objects.
    pub fn write_start<S: Sink>(&self, out: &mut S) -> Result<u128, WriteFault>
        ensures { WrittenText (S.contents out.old) (S.contents out.new) (S.is_stuck out.old) (S.is_stuck out.new) (start_reported self.now.reporting self.now.place.net) result }
    {
        write_first_ports(out, self.form, &self.edid, self.net.tree())
    }

    // Takes a line of the script. None where memory ran out; then nothing has changed.
    fn note(&mut self, line: &[u8]) -> Option<Step>
        requires going { self.old.notes.end ≡ None }
        ensures { MatchOption result (self.new ≡ self.old)
            (λ step. (read : Result Notes (AtWordValue CauseValue)) × IsLineRead self.old.tree self.old.notes (length self.old.place.net.pulses) self.old.lines line.now read
            × IsSettled (standing self.old) (pin_time line.now) read step (standing self.new) × (self.new ≡ with_standing self.old (standing self.new))) }
    {
        note_line(
            &self.tree,
            &mut self.draft,
            &mut self.net,
            &mut self.horizon,
            self.lines,
            line,
        )
    }

    // Takes `wait`.
    fn wait(&mut self) -> Step
        ensures { (soon : Option ℕ) × IsSoonest (certain_until self.old.notes.pin latest_event) self.old.place soon × (result ≡ step_wait soon) × (self.new ≡ after_wait self.old soon) }
    {
        let limit = certain_until(self.draft.pin, LATEST_EVENT);
        match soonest(
            &mut self.net,
            first_time(events_after(&self.draft, self.applied)),
            limit,
        ) {
            None => Step::Idle,
            Some(time) => {
                self.horizon = self.horizon.max(time);
                Step::Go
            }
        }
    }

    // Takes `wait T`.
    fn wait_until(&mut self, time: Option<u64>) -> Step
        requires early { IfSome time (λ t. t ≤ latest_event) }
        ensures { IsWaitStep self.old time result self.new }
    {
        let Some(until) = time else {
            return refuse(1, RefusalCause::Script(ScriptCause::Number));
        };
        if until < self.horizon {
            return refuse(1, RefusalCause::Past);
        }
        let limit = certain_until(self.draft.pin, until);
        let soon = soonest(
            &mut self.net,
            first_time(events_after(&self.draft, self.applied)),
            limit,
        );
        self.horizon = horizon_waited(self.horizon, until, soon);
        Step::Go
    }

    // Takes `run to T`.
    fn run_to(&mut self, time: Option<u64>) -> Step
        requires early { IfSome time (λ t. t ≤ latest_event) }
        ensures step { result ≡ step_to self.old time }
        ensures after { self.new ≡ after_to self.old time }
    {
        match time {
            None => refuse(2, RefusalCause::Script(ScriptCause::Number)),
            Some(time) => {
                if time < self.horizon {
                    return refuse(2, RefusalCause::Past);
                }
                self.horizon = time;
                Step::Go
            }
        }
    }

    // Takes `edge T`.
    fn edge(&mut self, time: Option<u64>) -> Step
        requires early { IfSome time (λ t. t ≤ latest_event) }
        ensures { IsEdgeStep self.old time result self.new }
    {
        let Some(until) = time else {
            return refuse(1, RefusalCause::Script(ScriptCause::Number));
        };
        if until < self.horizon {
            return refuse(1, RefusalCause::Past);
        }
        let pin = self.draft.pin;
        let horizon = next_edge(
            &mut self.net,
            first_time(events_after(&self.draft, self.applied)),
            self.horizon,
            until,
            pin,
        );
        self.horizon = self.horizon.max(horizon);
        Step::Edge
    }

    // Has edges reported, or not.
    fn report_edges(&mut self, edges: bool) -> Step
        ensures step { result ≡ Go }
        ensures after { self.new ≡ record self.old { edges = edges } }
    {
        self.edges = edges;
        Step::Go
    }

    // Has notes of devices from outside reported, or not.
    fn report_seats(&mut self, seats: bool) -> Step
        ensures step { result ≡ Go }
        ensures after { self.new ≡ record self.old { seats = seats } }
    {
        self.seats = seats;
        Step::Go
    }

    // What a line asks for. None where memory ran out; then the line counts, and nothing else has changed.
    fn step(&mut self, line: &[u8]) -> Option<Step>
        requires going { self.old.notes.end ≡ None }
        ensures step { MatchOption result (self.new ≡ with_line_counted self.old) (λ step. IsStep self.old line.now step self.new) }
        ensures shown { IfSome result (λ step. NamesShown (length self.new.tree) step) }
    {
        self.lines = self.lines.saturating_add(1);
        self.since = self.horizon;
        match command_in(&self.tree, line) {
            SessionCommand::Script => self.note(line),
            SessionCommand::Wait => Some(self.wait()),
            SessionCommand::WaitUntil(time) => Some(self.wait_until(time)),
            SessionCommand::RunTo(time) => Some(self.run_to(time)),
            SessionCommand::Show(device) => Some(shown(device)),
            SessionCommand::Edge(time) => Some(self.edge(time)),
            SessionCommand::Edges(edges) => Some(self.report_edges(edges)),
            SessionCommand::Seats(seats) => Some(self.report_seats(seats)),
        }
    }

    // The instants whose edges are reported.
    fn span(&self, edges: bool, ended: bool) -> InstantRange
        ensures { result ≡ span_of edges ended self.now }
    {
        if !edges {
            return InstantRange { from: 0, until: 0 };
        }
        InstantRange {
            from: self.since,
            until: if ended { u64::MAX } else { self.horizon },
        }
    }

    // Goes on, and adds what is reported, with the edges or without.
    fn go<'a, S: Sink>(&mut self, text: Counted<'a, S>, edges: bool, ended: bool) -> Counted<'a, S>
        ensures { IsGone edges ended self.old self.new text.entry result }
    {
        self.net.pulses_are_ahead();
        let span = self.span(edges, ended);
        let pin = self.draft.pin;
        let until = certain_until(pin, self.horizon);
        let mut applied = 0;
        let mut told = SessionText::new(text, self.seats, self.form, &self.edid, span);
        let on = take_turns(
            &mut self.net,
            &mut self.totals,
            events_after(&self.draft, self.applied),
            &mut applied,
            until,
            ended,
            &mut told,
        );
        self.applied += applied;
        let mut text = told.into_text();
        self.net.add_edges_on(&mut text, self.form, on, span, pin);
        text
    }

    // Refuses a line.
    fn take_refusal<'a, S: Sink>(&self, text: Counted<'a, S>, refusal: Refusal) -> Counted<'a, S>
        ensures { IsTaken (Refuse refusal) self.now self.now text.entry result }
    {
        let mut text = text;
        add_refused(&mut text, self.form, self.lines, refusal);
        text
    }

    // Says that nothing comes any more.
    fn take_idle<'a, S: Sink>(&self, text: Counted<'a, S>) -> Counted<'a, S>
        ensures { IsTaken Idle self.now self.now text.entry result }
    {
        let mut text = text;
        add_idle(&mut text, self.form, self.horizon);
        text
    }

    // Shows the state of a device, from what was made of it.
    fn take_show<'a, S: Sink>(
        &self,
        text: Counted<'a, S>,
        device: usize,
        state: &[u8],
    ) -> Counted<'a, S>
        requires shown { device < length self.now.tree }
        requires made { IsMade self.now (Show device) state.now }
        ensures { IsTaken (Show device) self.now self.now text.entry result }
    {
        let mut text = text;
        add_shown(&mut text, self.form, self.net.device(device), state);
        text
    }

    // Goes on to the horizon, and answers.
    fn take_go<'a, S: Sink>(&mut self, text: Counted<'a, S>) -> Counted<'a, S>
        ensures { IsTaken Go self.old self.new text.entry result }
    {
        let edges = self.edges;
        let mut text = self.go(text, edges, false);
        add_taken(&mut text, self.form, self.horizon);
        text
    }

    // Goes on to the horizon with the edges, and answers.
    fn take_edge<'a, S: Sink>(&mut self, text: Counted<'a, S>) -> Counted<'a, S>
        ensures { IsTaken Edge self.old self.new text.entry result }
    {
        let mut text = self.go(text, true, false);
        add_taken(&mut text, self.form, self.horizon);
        text
    }

    // Adds the rest of the trace after its last turn, and the answer.
    fn add_end<S: Sink>(&self, text: &mut Counted<'_, S>)
        ensures { Adds text.old text.new (end_reported self.now.reporting self.now.horizon self.now.place.net ++ taken_text (form_of self.now.reporting) self.now.horizon) }
    {
        add_last_lines(text, self.form, self.net.devices(), self.horizon);
        add_taken(text, self.form, self.horizon);
    }

    // Goes on to the end, and answers.
    fn take_finish<'a, S: Sink>(&mut self, text: Counted<'a, S>) -> Counted<'a, S>
        ensures { IsTaken Finish self.old self.new text.entry result }
    {
        let edges = self.edges;
        let mut text = self.go(text, edges, true);
        self.add_end(&mut text);
        text
    }

    // Adds what is due of a step, of which this was made.
    fn take<'a, S: Sink>(
        &mut self,
        text: Counted<'a, S>,
        step: Step,
        state: &[u8],
    ) -> Counted<'a, S>
        requires shown { NamesShown (length self.old.tree) step }
        requires made { IsMade self.old step state.now }
        ensures { IsTaken step self.old self.new text.entry result }
    {
        match step {
            Step::Refuse(refusal) => self.take_refusal(text, refusal),
            Step::Idle => self.take_idle(text),
            Step::Show(device) => self.take_show(text, device, state),
            Step::Go => self.take_go(text),
            Step::Edge => self.take_edge(text),
            Step::Finish => self.take_finish(text),
        }
    }

    // What is made of the device that a step shows, before it is shown. None where memory ran out, which is for a step that shows one.
    fn made(&self, step: Step) -> Option<Held>
        requires { NamesShown (length self.now.tree) step }
        ensures { MatchOption result (IsShow step) (λ held. IsMade self.now step (held_bytes held)) }
    {
        match step {
            Step::Show(device) => state_made(self.alloc, self.form, self.net.device(device)),
            Step::Refuse(_) | Step::Idle | Step::Go | Step::Edge | Step::Finish => {
                Some(Held::new(self.alloc))
            }
        }
    }

    // Writes what is due of a step, of which this was made.
    fn write<S: Sink>(&mut self, step: Step, state: &[u8], out: &mut S) -> Result<u128, WriteFault>
        requires shown { NamesShown (length self.old.tree) step }
        requires made { IsMade self.old step state.now }
        ensures { IsAnswered step self.old self.new (S.contents out.old) (S.contents out.new) (S.is_stuck out.old) (S.is_stuck out.new) result }
    {
        let text = self.take(Counted::new(out), step, state);
        let written = text.written();
        // No effect at run time. The proof reads what `out` holds from the sink that comes back.
        let _below = text.into_sink();
        written
    }

    /// Takes a line, writes what of the trace is certain by it, and then one line of answer. The script has not come to its
    /// end.
    ///
    /// # Errors
    ///
    /// Memory ran out: then nothing was written, and the line is not taken. A `put` took none: then the front of what is due
    /// was written, as long as the error says.
    pub fn line<S: Sink>(&mut self, line: &[u8], out: &mut S) -> Result<Answered, LiveError>
        requires going { self.old.notes.end ≡ None }
        ensures taken { IsLineTaken self.old line.now self.new (S.contents out.old) (S.contents out.new) (S.is_stuck out.old) (S.is_stuck out.new) result }
        ensures memory { IsOfMemory result → out.new ≡ out.old }
    {
        let Some(step) = self.step(line) else {
            return Err(LiveError::Memory);
        };
        let Some(state) = self.made(step) else {
            return Err(LiveError::Memory);
        };
        match self.write(step, state.bytes(), out) {
            Ok(count) => Ok(Answered { step, count }),
            Err(fault) => Err(LiveError::Write(fault.count)),
        }
    }
}
