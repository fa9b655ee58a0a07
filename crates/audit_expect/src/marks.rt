//! The instants with a name of expectations of a capture.
ghost use Rattle.std.specs.Prelude.{◌≡◌, ◌++◌, map, IfOk, OnOk};
ghost use Rattle.expect_judge.specs.Told.{event_as};
ghost use Rattle.audit_expect.specs.Marks.{mark_of, marks};

use crate::faults::instant_of;
use expect_judge::EventLine;
use std::alloc::{AllocError, Global};
use text_core::first_line;

// Adds an event, where there is an instant.
fn push_mark(
    events: &mut Vec<EventLine<'static>>,
    number: u64,
    instant: Option<u64>,
) -> Result<(), AllocError>
    ensures { OnOk result (map event_as events.new.items ≡ map event_as events.old.items ++ mark_of number instant) }
{
    let Some(at) = instant else {
        return Ok(());
    };
    events.push(EventLine {
        at,
        line: number,
        refused: None,
    })?;
    Ok(())
}

/// An event for each instant with a name.
///
/// # Errors
///
/// Want of memory.
pub(crate) fn marks(
    alloc: Global,
    expectations: &[u8],
) -> Result<Vec<EventLine<'static>>, AllocError>
    ensures { IfOk result (λ events. map event_as events.items ≡ marks expectations.now) }
{
    let mut events = Vec::new(alloc);
    let mut rest = expectations;
    let mut number = 1u64;
    'lines: while let Some((line, after)) = first_line(rest) {
        push_mark(&mut events, number, instant_of(line))?;
        rest = after;
        number += 1;
    }
    Ok(events)
}
