//! What is told of a run, with the events of the lines of its script that others speak of at hand.
ghost use Rattle.std.specs.Prelude.{◌≡◌, ℕ, true, length, map, IfOk, OnOk};
ghost use Rattle.std.specs.Option.{option_map};
ghost use Rattle.expect_judge.specs.Told.{event_as, event_at, round_as, told_as};
ghost use Rattle.expect_judge.specs.Seen.{ends_seen, first_of};
ghost use Rattle.expect_judge.specs.Named.{is_named};
ghost use Rattle.expect_judge.specs.Index.{are_in_order, entry, event_on, or_event};

use crate::lines::{EventLine, Told, event_at};
use crate::named::NamedLines;
use crate::seen::{Seen, TimeSpan, are_in_order, rounds_seen};
use std::alloc::{AllocError, Global};
use std::collections::HashMap;

/// What is told of a run, and the event of each line of its script that others speak of.
#[derive(Drop)]
pub(crate) struct Index<'a> {
    pub told: Told<'a>,
    /// Whether the rounds began and ended one after another.
    pub in_order: bool,
    pub named: NamedLines<'a>,
    events: HashMap<u64, EventLine<'a>>,
    ghost order_is: { in_order ≡ true → are_in_order told.rounds.now ≡ true },
    ghost events_are: { (number : ℕ) → is_named named.script.now number ≡ true → entry events number ≡ event_at (map event_as told.events.now) number },
}

// Notes an event, where none of its line stands there.
#[tactic(auto, using(crate::proofs::Indexed::taken_noted, crate::proofs::Indexed::put_noted))]
fn note<'a>(
    events: &mut HashMap<u64, EventLine<'a>>,
    event: EventLine<'a>,
) -> Result<(), AllocError>
    ensures { OnOk result ((number : ℕ) → entry events.new number ≡ or_event (entry events.old number) (event_on number (event_as event.entry))) }
{
    let line = event.line;
    if events.contains_key(&line) {
        return Ok(());
    }
    match events.insert(line, event) {
        Ok(_) => Ok(()),
        Err(_) => Err(AllocError),
    }
}

// Notes an event, where others speak of its line.
#[tactic(auto, using(crate::proofs::Indexed::unnamed))]
fn note_named<'a>(
    events: &mut HashMap<u64, EventLine<'a>>,
    named: &NamedLines<'_>,
    event: &EventLine<'a>,
) -> Result<(), AllocError>
    ensures { OnOk result ((number : ℕ) → is_named named.now.script.now number ≡ true
        → entry events.new number ≡ or_event (entry events.old number) (event_on number (event_as event.now))) }
{
    if !named.has(event.line) {
        return Ok(());
    }
    note(events, *event)
}

// Of these events that of each line that others speak of.
#[tactic(auto, using(crate::proofs::Indexed::one_more, crate::proofs::Indexed::no_more))]
fn named_events<'a>(
    alloc: Global,
    named: &NamedLines<'_>,
    told: &[EventLine<'a>],
) -> Result<HashMap<u64, EventLine<'a>>, AllocError>
    ensures { IfOk result (λ events. (number : ℕ) → is_named named.now.script.now number ≡ true → entry events number ≡ event_at (map event_as told.now) number) }
{
    let mut events = HashMap::new(alloc);
    let mut rest = told;
    'events: while let [event, others @ ..] = rest {
        note_named(&mut events, named, event)?;
        rest = others;
    }
    Ok(events)
}

impl<'a> Index<'a> {
    /// Keeps the events of the lines of a script that others speak of at hand.
    ///
    /// # Errors
    ///
    /// Want of memory.
    pub fn new(alloc: Global, script: &'a [u8], told: &Told<'a>) -> Result<Self, AllocError>
        ensures { IfOk result (λ index. told_as index.told ≡ told_as told.now) }
    {
        let named = NamedLines::new(alloc, script)?;
        let events = named_events(alloc, &named, told.events)?;
        let in_order = are_in_order(told.rounds);
        Ok(Index {
            told: *told,
            in_order,
            named,
            events,
        })
    }

    /// How many rounds began and ended within the span and meet the pattern, and the end of the first.
    pub fn rounds_seen(&self, span: TimeSpan, pattern: &[u8]) -> Seen
        ensures count { result.count ≡ length (ends_seen (map round_as self.now.told.rounds.now) span pattern.now) }
        ensures first { result.first ≡ first_of (ends_seen (map round_as self.now.told.rounds.now) span pattern.now) }
    {
        rounds_seen(self.told.rounds, self.in_order, span, pattern)
    }

    /// The event of a line of the script.
    pub fn event_at(&self, number: u64) -> Option<EventLine<'a>>
        ensures { option_map event_as result ≡ event_at (map event_as self.now.told.events.now) number }
    {
        if !self.named.has(number) {
            return event_at(self.told.events, number);
        }
        self.events.get(&number).copied()
    }
}
