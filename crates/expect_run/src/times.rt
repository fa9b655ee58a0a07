//! The times that a script gives its labelled events.
ghost use Rattle.std.specs.Prelude.{◌≡◌, ℕ, IfOk, OnOk, nat_eq};
ghost use Rattle.std.specs.HashMap.{get};
ghost use Rattle.std.specs.Option.{option_copied, option_map};
ghost use Rattle.text_core.specs.Words.{words_after};
ghost use Rattle.expect_judge.specs.Judged.{instant_at, noted};
ghost use Rattle.expect_judge.specs.Told.{event_as};
ghost use Rattle.expect_run.specs.Kept.{is_at, is_timed, labelled_time, time_at, time_in};

use expect_judge::EventLine;
use expect_text::unlabelled;
use line_rounds::LONGEST_PULSED_ROUND;
use std::alloc::{AllocError, Global};
use std::collections::HashMap;
use text_core::{first_line, first_word, number_in};

/// The longest that an event waits, for the close of a round, in microseconds.
pub(crate) const LONGEST_WAIT: u64 = LONGEST_PULSED_ROUND;

/// The times of the lines of a script that have a label and are events.
#[derive(Drop)]
pub(crate) struct Times<'a> {
    pub script: &'a [u8],
    times: HashMap<u64, u64>,
    ghost times_are: { (number : ℕ) → get nat_eq times number ≡ time_at script.now number },
}

// The time of an event, by its line without a label.
fn time_in(rest: Option<&[u8]>) -> Option<u64>
    ensures { result ≡ time_in (words_after (option_copied rest.entry)) }
{
    let (verb, rest) = first_word(rest?);
    let (time, _others) = first_word(rest?);
    if verb == b"at".as_slice() {
        number_in(time)
    } else {
        None
    }
}

fn labelled_time(line: &[u8]) -> Option<u64>
    ensures { result ≡ labelled_time line.now }
{
    let line = unlabelled(line);
    if line.label.is_some() {
        time_in(line.rest)
    } else {
        None
    }
}

// Notes the time of a line, where it has one.
#[tactic(auto, using(crate::proofs::Timing::put))]
fn note_time(
    times: &mut HashMap<u64, u64>,
    number: u64,
    time: Option<u64>,
) -> Result<(), AllocError>
    ensures { OnOk result ((other : ℕ) → get nat_eq times.new other ≡ noted (λ line. get nat_eq times.old line) number time other) }
{
    let Some(time) = time else {
        return Ok(());
    };
    match times.insert(number, time) {
        Ok(_) => Ok(()),
        Err(_) => Err(AllocError),
    }
}

// Whether an event was applied at its time, or later by a wait.
fn is_at(at: u64, time: Option<u64>) -> bool
    ensures { result ≡ is_at at time }
{
    match time {
        None => true,
        Some(time) => time <= at && at - time <= LONGEST_WAIT,
    }
}

impl<'a> Times<'a> {
    /// Reads the times of a script.
    ///
    /// # Errors
    ///
    /// Want of memory.
    #[tactic(auto, using(crate::proofs::Timing::one_more, crate::proofs::Timing::no_more))]
    pub(crate) fn new(alloc: Global, script: &'a [u8]) -> Result<Self, AllocError>
        ensures { IfOk result (λ times. times.script.now ≡ script.now) }
    {
        let mut times = HashMap::new(alloc);
        let mut rest = script;
        let mut number = 1u64;
        'lines: while let Some((line, after)) = first_line(rest) {
            note_time(&mut times, number, labelled_time(line))?;
            rest = after;
            number += 1;
        }
        Ok(Times { script, times })
    }

    /// The time of a line.
    pub(crate) fn of_line(&self, line: Option<u64>) -> Option<u64>
        ensures { result ≡ instant_at (time_at self.now.script.now) line }
    {
        let line = line?;
        self.times.get(&line).copied()
    }

    /// Whether an event was applied at the time of its line, or later by a wait, where that has a label.
    pub(crate) fn have(&self, event: &EventLine<'_>) -> bool
        ensures { result ≡ is_timed self.now.script.now (event_as event.now) }
    {
        is_at(event.at, self.times.get(&event.line).copied())
    }
}
