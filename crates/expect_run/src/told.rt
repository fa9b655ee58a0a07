//! What keeps of a run what a report needs.
ghost use Rattle.std.specs.Prelude.{◌≡◌, ◌||◌, ◌++◌, ◌∷◌, [], map, OnOk};
ghost use Rattle.expect_judge.specs.Told.{event_as, kept_as, round_as};
ghost use Rattle.expect_run.specs.Kept.{is_event_kept, is_round_kept, is_timed};
ghost use Rattle.expect_run.specs.Sifted.{events_if, first_sifting, rounds_if, shown_as, sifted_as};
ghost use Rattle.expect_told.specs.Turns.{round_told};

use crate::needs::Needs;
use device_core::Device;
use expect_judge::{EventLine, KeptRound, RoundLine};
use expect_told::{is_complete, refusal_said, round_shown, say_round};
use line_rounds::Outcome;
use record_core::Form;
use room_net::Net;
use room_run::{AppliedEvent, Reporter};
use std::alloc::{AllocError, Global};
use text_core::Held;

/// What was told of a run as far as it was heard: of it what a script needs, or all. Where memory runs out nothing more is kept, nor,
/// where not all is, after a labelled event that was not applied about when the script has it: what is looked for is then not known.
#[derive(Drop)]
pub(crate) struct RunTold<'a> {
    alloc: Global,
    pub needs: Needs<'a>,
    pub all: bool,
    /// Whether rounds say who holds which address.
    pub named: bool,
    /// How rounds are shown below a test that failed.
    pub form: Form,
    said: Held,
    pub rounds: Vec<KeptRound>,
    pub events: Vec<EventLine<'static>>,
    pub lost: bool,
    pub late: bool,
}

/// The rounds and the events that are kept of a run, in order.
#[derive(Drop)]
pub(crate) struct KeptTold {
    pub rounds: Vec<KeptRound>,
    pub events: Vec<EventLine<'static>>,
}

// Keeps a round, with what stands of it below a test that failed.
fn push_round(
    alloc: Global,
    rounds: &mut Vec<KeptRound>,
    round: &RoundLine<'_>,
    shown: Vec<u8>,
) -> Result<(), AllocError>
    ensures { OnOk result (map kept_as rounds.new.items ≡ map kept_as rounds.old.items ++ shown_as (round_as round.now) shown.items ∷ []) }
{
    let mut reported = Vec::new(alloc);
    reported.extend_from_slice(round.reported)?;
    rounds.push(KeptRound {
        begin: round.begin,
        at: round.at,
        is_complete: round.is_complete,
        reported,
        shown,
    })?;
    Ok(())
}

// Whether a round is needed, or all are.
fn is_round_wanted(needs: &Needs<'_>, all: bool, round: &RoundLine<'_>) -> bool
    ensures { result ≡ (all || is_round_kept needs.now.script.now (round_as round.now)) }
{
    all || needs.round(round)
}

// The same of an event.
fn is_event_wanted(needs: &Needs<'_>, all: bool, event: &EventLine<'_>) -> bool
    ensures { result ≡ (all || is_event_kept needs.now.script.now (event_as event.now)) }
{
    all || needs.event(event)
}

// Whether an event was applied about when the script has it. Where all is kept, nobody asks.
fn is_on_time(needs: &Needs<'_>, all: bool, event: &EventLine<'_>) -> bool
    ensures { result ≡ (all || is_timed needs.now.script.now (event_as event.now)) }
{
    all || needs.is_timed(event)
}

// Keeps an event, where it is needed.
fn keep_event(
    needs: &Needs<'_>,
    all: bool,
    events: &mut Vec<EventLine<'static>>,
    event: &EventLine<'static>,
) -> Result<(), AllocError>
    ensures { OnOk result (map event_as events.new.items ≡ map event_as events.old.items ++ events_if all needs.now.script.now (event_as event.now)) }
{
    if !is_event_wanted(needs, all, event) {
        return Ok(());
    }
    events.push(*event)?;
    Ok(())
}

impl<'a> RunTold<'a> {
    /// Nothing is heard yet.
    pub(crate) fn new(alloc: Global, needs: Needs<'a>, all: bool, named: bool, form: Form) -> Self
        ensures { sifted_as result ≡ first_sifting form needs.entry.script.now all named }
    {
        RunTold {
            alloc,
            needs,
            all,
            named,
            form,
            said: Held::new(alloc),
            rounds: Vec::new(alloc),
            events: Vec::new(alloc),
            lost: false,
            late: false,
        }
    }

    // Says a round, and keeps it where it is needed: only then it is shown.
    #[tactic(auto, using(crate::proofs::Sifting::skipped_round, crate::proofs::Sifting::kept_round))]
    fn hear_round(&mut self, devices: &[Device<16>], outcome: &Outcome) -> Result<(), AllocError>
        ensures same { (self.new.needs ≡ self.old.needs) × (self.new.all ≡ self.old.all) × (self.new.named ≡ self.old.named) × (self.new.form ≡ self.old.form) × (self.new.lost ≡ self.old.lost) × (self.new.events ≡ self.old.events) }
        ensures kept { OnOk result (map kept_as self.new.rounds.items ≡ map kept_as self.old.rounds.items ++ rounds_if self.old.all self.old.needs.script.now (round_told self.old.form self.old.named devices.now outcome.now)) }
    {
        let alloc = self.alloc;
        let all = self.all;
        let form = self.form;
        say_round(&mut self.said, self.named, devices, outcome)?;
        let round = RoundLine {
            begin: outcome.reading.begin,
            at: outcome.reading.at,
            is_complete: is_complete(outcome.reading.ending),
            reported: self.said.bytes(),
            shown: &[],
        };
        if !is_round_wanted(&self.needs, all, &round) {
            return Ok(());
        }
        let shown = round_shown(alloc, form, devices, outcome)?;
        push_round(alloc, &mut self.rounds, &round, shown)
    }
}

impl Reporter for RunTold<'_> {
    ghost use Rattle.std.specs.Prelude.{not};
    ghost use Rattle.expect_run.specs.Kept.{is_round_kept};
    ghost use Rattle.expect_run.specs.Sifted.{SiftsOne, sifted_as};

    ghost hears = { λ r x s. SiftsOne (sifted_as r) x (sifted_as s) };

    ghost goes_on = { λ r. not r.lost };

    fn event<W>(&mut self, applied: &AppliedEvent<'_>, _net: &Net<W>) {
        let event = EventLine {
            at: applied.at,
            line: applied.event.line,
            refused: refusal_said(applied.refused),
        };
        if !is_on_time(&self.needs, self.all, &event) {
            self.lost = true;
            self.late = true;
            return;
        }
        match keep_event(&self.needs, self.all, &mut self.events, &event) {
            Ok(()) => {}
            Err(_) => self.lost = true,
        }
    }

    fn round<W>(&mut self, _begin: u64, outcome: &Outcome, net: &Net<W>) {
        match self.hear_round(net.devices(), outcome) {
            Ok(()) => {}
            Err(_) => self.lost = true,
        }
    }

    fn wants_more(&self) -> bool {
        !self.lost
    }
}
