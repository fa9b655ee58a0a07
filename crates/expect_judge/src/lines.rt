//! What is told of a run or of a capture: its rounds and its events.
ghost use Rattle.std.specs.Prelude.{◌≡◌, map};
ghost use Rattle.std.specs.Option.{option_map};
ghost use Rattle.expect_judge.specs.Told.{event_as, event_at};

/// What the line of a round says.
#[derive(Clone, Copy)]
pub struct RoundLine<'a> {
    pub begin: u64,
    pub at: u64,
    pub is_complete: bool,
    /// What stands after these, which patterns are met by.
    pub reported: &'a [u8],
    /// What stands of it below a test that failed.
    pub shown: &'a [u8],
}

/// What the line of an event says.
#[derive(Clone, Copy)]
pub struct EventLine<'a> {
    /// When it was applied.
    pub at: u64,
    /// Its line in the script.
    pub line: u64,
    /// The word with which it was refused.
    pub refused: Option<&'a [u8]>,
}

/// The rounds and the events of a run or of a capture, in order.
#[derive(Clone, Copy)]
pub struct Told<'a> {
    pub rounds: &'a [RoundLine<'a>],
    pub events: &'a [EventLine<'a>],
}

/// The event of a line of the script.
pub(crate) fn event_at<'a>(events: &[EventLine<'a>], number: u64) -> Option<EventLine<'a>>
    ensures { option_map event_as result ≡ event_at (map event_as events.now) number }
{
    let mut rest = events;
    'events: while let [event, others @ ..] = rest {
        if event.line == number {
            return Some(*event);
        }
        rest = others;
    }
    None
}
