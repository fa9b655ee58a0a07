//! One turn of a run.
ghost use Rattle.std.specs.Prelude.{◌≡◌, ◌<◌, ◌≤◌, length, Some};
ghost use Rattle.line_wave.specs.Bounds.{latest_instant};
ghost use Rattle.line_rounds.specs.Round.{IsRound};
ghost use Rattle.room_event.specs.Events.{NamesDevices};
ghost use Rattle.room_net.specs.State.{next_start};
ghost use Rattle.room_net.specs.Apply.{net_after, event_fault};
ghost use Rattle.room_net.specs.Step.{after_round, seats_of};
ghost use Rattle.room_net.specs.Progress.{IsProgress};
ghost use Rattle.message_text.specs.ReadingText.{is_complete};
ghost use Rattle.room_run.specs.Run.{counted_event, counted_round};
ghost use Rattle.room_run.specs.Happening.{OfEvent, OfRound};

use crate::reporter::{AppliedEvent, Reporter};
use crate::run::Totals;
use line_frames::Ending;
use line_rounds::Outcome;
use room_event::EventError;
use room_net::Net;
use room_script::TimedEvent;
use room_trace::on_wire;

// Applies an event, and counts it where it is refused. Returns why it is refused.
fn apply_counted<W>(
    net: &mut Net<W>,
    totals: &mut Totals,
    at: u64,
    event: &TimedEvent,
) -> Option<EventError>
    requires early { at ≤ latest_instant }
    requires known { NamesDevices (length net.old.tree) event.now.event }
    requires room { totals.old.refused < 18446744073709551615 }
    ensures net { net.new ≡ net_after at event.now.event net.old }
    ensures totals { totals.new ≡ counted_event (event_fault net.old event.now.event) totals.old }
    ensures fault { result ≡ event_fault net.old event.now.event }
{
    match net.apply(at, event.event.copy()) {
        Ok(()) => None,
        Err(error) => {
            totals.refused += 1;
            Some(error)
        }
    }
}

fn counted_round(totals: Totals, ending: Ending) -> Totals
    requires room { totals.rounds < 18446744073709551615 }
    requires less { totals.complete ≤ totals.rounds }
    ensures { result ≡ counted_round (is_complete ending) totals }
{
    match ending {
        Ending::Complete => Totals {
            rounds: totals.rounds + 1,
            complete: totals.complete + 1,
            refused: totals.refused,
        },
        _ => Totals {
            rounds: totals.rounds + 1,
            complete: totals.complete,
            refused: totals.refused,
        },
    }
}

/// Applies an event at `at`, counts it where it is refused, and reports it.
pub fn take_event<W, R: Reporter>(
    net: &mut Net<W>,
    totals: &mut Totals,
    at: u64,
    event: &TimedEvent,
    reporter: &mut R,
)
    requires early { at ≤ latest_instant }
    requires known { NamesDevices (length net.old.tree) event.now.event }
    requires room { totals.old.refused < 18446744073709551615 }
    ensures net { net.new ≡ net_after at event.now.event net.old }
    ensures totals { totals.new ≡ counted_event (event_fault net.old event.now.event) totals.old }
    ensures heard { R.hears reporter.old (OfEvent at event.now net.old) reporter.new }
{
    let was = on_wire(net.tree());
    let refused = apply_counted(net, totals, at, event);
    let applied = AppliedEvent {
        at,
        event,
        refused,
        was: &was,
    };
    reporter.event(&applied, net);
}

/// Reports the next round, which begins at `begin` and gives this outcome, ends it and counts it. The outcome is what
/// [`outcome_at`](Net::outcome_at) gives, now or when it was looked for.
pub fn take_round<W, R: Reporter>(
    net: &mut Net<W>,
    totals: &mut Totals,
    begin: u64,
    outcome: &Outcome,
    reporter: &mut R,
)
    requires early { net.old.close ≤ latest_instant }
    requires soon { begin ≤ latest_instant }
    requires begins { next_start net.old ≡ Some begin }
    requires round { IsRound (seats_of net.old begin) begin net.old.pulses outcome.now }
    requires progress { IsProgress net.old begin (after_round net.old begin outcome.now) }
    requires room { totals.old.rounds < 18446744073709551615 }
    requires less { totals.old.complete ≤ totals.old.rounds }
    ensures state { net.new ≡ after_round net.old begin outcome.now }
    ensures progress { IsProgress net.old begin net.new }
    ensures totals { totals.new ≡ counted_round (is_complete outcome.now.reading.ending) totals.old }
    ensures heard { R.hears reporter.old (OfRound begin net.old outcome.now) reporter.new }
{
    reporter.round(begin, outcome, net);
    net.end(begin, outcome);
    *totals = counted_round(*totals, outcome.reading.ending);
}
