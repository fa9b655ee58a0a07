//! A line of the script: what it says, and whether it comes too late.
ghost use Rattle.std.specs.Prelude.{◌≡◌, ◌||◌, ◌≤◌, [], drop, take, length, nat_lt, if◌then◌else◌, None, Result, Ok, MatchOption};
ghost use Rattle.std.specs.List.{list_any};
ghost use Rattle.room_script.specs.Script.{IsLineRead, Notes, notes_of};
ghost use Rattle.room_script.specs.Lines.{Extends};
ghost use Rattle.room_script.specs.declared.script.ScriptCause.{ScriptCause as CauseValue};
ghost use Rattle.text_core.specs.declared.at.AtWord.{AtWord as AtWordValue};
ghost use Rattle.room_run.specs.Certain.{with_pulses};
ghost use Rattle.live_session.specs.Command.{pin_time};
ghost use Rattle.live_session.specs.Note.{IsSettled, refused_by};
ghost use Rattle.live_session.specs.Session.{is_given_before, refuse, refuses_pulse, rises_before};
ghost use Rattle.live_session.specs.Turns.{certain_until};
ghost use Rattle.live_session.specs.declared.answer.RefusalCause.TheVariants.{Past};

use crate::answer::{Refusal, RefusalCause};
use crate::command::pin_time;
use crate::foreseen::Foreseen;
use crate::live::Step;
use crate::turns::certain_until;
use edid_tree::Tree;
use line_wave::Stretch;
use room_script::{ScriptDraft, ScriptLineError, TimedEvent, take_line};

/// What comes after the first ones.
pub(crate) fn after<T>(items: &[T], count: usize) -> &[T]
    ensures { result.now ≡ drop count items.now }
{
    if count <= items.len() {
        &items[count..]
    } else {
        &[]
    }
}

/// The events after the first ones.
pub(crate) fn events_after(draft: &ScriptDraft, count: usize) -> &[TimedEvent]
    ensures { result.now ≡ drop count draft.now.events.items }
{
    after(&draft.events, count)
}

fn any_event_before(events: &[TimedEvent], horizon: u64) -> bool
    ensures { result ≡ list_any (λ e. nat_lt e.at horizon) events.now }
{
    events.iter().any(|event| event.at < horizon)
}

fn any_pulse_before(pulses: &[Stretch], horizon: u64) -> bool
    ensures { result ≡ list_any (λ p. nat_lt p.from horizon) pulses.now }
{
    pulses.iter().any(|pulse| pulse.from < horizon)
}

fn any_pulse_ended(pulses: &[Stretch], horizon: u64) -> bool
    ensures { result ≡ list_any (λ p. nat_lt p.to horizon) pulses.now }
{
    pulses.iter().any(|pulse| pulse.to < horizon)
}

// Whether the pull that lets a pin go, which is low, ends before the horizon.
fn rises_before(horizon: u64, pin: Option<u64>, pulses: &[Stretch]) -> bool
    ensures { result ≡ rises_before horizon pin pulses.now }
{
    match pin {
        None => false,
        Some(_) => any_pulse_ended(pulses, horizon),
    }
}

fn is_given_before(horizon: u64, time: Option<u64>) -> bool
    ensures { result ≡ is_given_before horizon time }
{
    match time {
        None => false,
        Some(time) => time < horizon,
    }
}

// Tells the network of the pulse, where there is one. Returns whether it refuses it; then it is as it was.
fn add_pulse(net: &mut Foreseen, pulses: &[Stretch]) -> bool
    requires few { length pulses.now ≤ 1 }
    ensures refused { result ≡ refuses_pulse pulses.now net.old }
    ensures net { net.new ≡ (if result then net.old else with_pulses pulses.now net.old) }
{
    let Some((pulse, others)) = pulses.split_first() else {
        return false;
    };
    // No effect at run time. The proof reads from it how many are left.
    let _others = others;
    match net.add_pulse(*pulse) {
        Ok(()) => false,
        Err(_) => true,
    }
}

// What a draft had before a line.
#[derive(Clone, Copy, Debug)]
struct Before {
    events: usize,
    pulses: usize,
    pin: Option<u64>,
}

// Whether a line of the pin, which gives this instant, what a line adds, or an end is for an instant before the horizon.
fn is_past(draft: &ScriptDraft, before: Before, given: Option<u64>, horizon: u64) -> bool
    ensures { result ≡ (is_given_before horizon given
        || (list_any (λ e. nat_lt e.at horizon) (drop before.events draft.now.events.items)
        || (list_any (λ p. nat_lt p.from (certain_until before.pin horizon)) (drop before.pulses draft.now.pulses.items)
        || (rises_before horizon before.pin (drop before.pulses draft.now.pulses.items)
        || (is_given_before (certain_until before.pin horizon) draft.now.pin || is_given_before horizon draft.now.end))))) }
{
    let pulses = after(&draft.pulses, before.pulses);
    let certain = certain_until(before.pin, horizon);
    is_given_before(horizon, given)
        || any_event_before(after(&draft.events, before.events), horizon)
        || any_pulse_before(pulses, certain)
        || rises_before(horizon, before.pin, pulses)
        || is_given_before(certain, draft.pin)
        || is_given_before(horizon, draft.end)
}

// Takes a line back, before which there was no end, and refuses it.
fn take_back(draft: &mut ScriptDraft, before: Before) -> Step
    ensures notes { notes_of draft.new ≡ record { events = take before.events draft.old.events.items; pulses = take before.pulses draft.old.pulses.items; end = None; pin = before.pin } }
    ensures step { result ≡ refuse 1 Past }
{
    draft.events.truncate(before.events);
    draft.pulses.truncate(before.pulses);
    draft.end = None;
    draft.pin = before.pin;
    Step::Refuse(Refusal {
        cause: RefusalCause::Past,
        word: 1,
    })
}

// What becomes of a line that the draft has taken, before which there was no end. A line of the pin gives its instant.
fn settle(
    draft: &mut ScriptDraft,
    before: Before,
    given: Option<u64>,
    net: &mut Foreseen,
    horizon: &mut u64,
) -> Step
    requires few { length (drop before.pulses draft.old.pulses.items) ≤ 1 }
    ensures { (old : Notes) → old.end ≡ None → Extends old (notes_of draft.old) → before.events ≡ length old.events → before.pulses ≡ length old.pulses → before.pin ≡ old.pin
        → IsSettled (record { notes = old; horizon = horizon.old; net = net.old }) given (Ok (notes_of draft.old)) result
        (record { notes = notes_of draft.new; horizon = horizon.new; net = net.new }) }
{
    if is_past(draft, before, given, *horizon) {
        return take_back(draft, before);
    }
    if add_pulse(net, after(&draft.pulses, before.pulses)) {
        return take_back(draft, before);
    }
    match draft.end {
        None => Step::Go,
        Some(end) => {
            *horizon = end;
            Step::Finish
        }
    }
}

fn refused_by(error: ScriptLineError) -> Option<Step>
    ensures { result ≡ refused_by error }
{
    match error {
        ScriptLineError::Fault(fault) => Some(Step::Refuse(Refusal {
            cause: RefusalCause::Script(fault.cause),
            word: fault.word,
        })),
        ScriptLineError::Memory => None,
    }
}

/// Takes a line of the script, the one of this number. None where memory ran out; then nothing has changed.
pub(crate) fn note_line(
    tree: &Tree<15>,
    draft: &mut ScriptDraft,
    net: &mut Foreseen,
    horizon: &mut u64,
    number: u64,
    line: &[u8],
) -> Option<Step>
    requires going { draft.old.end ≡ None }
    ensures { MatchOption result
        ((notes_of draft.new ≡ notes_of draft.old) × (horizon.new ≡ horizon.old) × (net.new ≡ net.old))
        (λ step. (read : Result Notes (AtWordValue CauseValue)) × IsLineRead tree.now (notes_of draft.old) (length net.old.pulses) number line.now read
        × IsSettled (record { notes = notes_of draft.old; horizon = horizon.old; net = net.old }) (pin_time line.now) read step
        (record { notes = notes_of draft.new; horizon = horizon.new; net = net.new })) }
{
    let before = Before {
        events: draft.events.len(),
        pulses: draft.pulses.len(),
        pin: draft.pin,
    };
    match take_line(tree, draft, net.waiting(), number, line) {
        Ok(()) => Some(settle(draft, before, pin_time(line), net, horizon)),
        Err(error) => refused_by(error),
    }
}
