//! One turn after another.
ghost use Rattle.std.specs.Prelude.{◌≡◌, ◌≤◌, length};
ghost use Rattle.line_wave.specs.Bounds.{latest_event};
ghost use Rattle.room_script.specs.Script.{IsSchedule};
ghost use Rattle.room_run.specs.Run.{start};
ghost use Rattle.room_run.specs.Heard.{IsRunHeard};

use crate::reporter::Reporter;
use crate::run::{Totals, Turn, first_time, next_turn};
use crate::turn::{take_event, take_round};
use line_rounds::Wire;
use room_net::Net;
use room_script::TimedEvent;

/// Runs a network to `end`, at most 1,000,000,000,000 microseconds, as long as the reporter wants to hear more, and reports each
/// turn. The events stand in the order of their times, all before `end`, and name devices of the tree.
pub fn run_turns<W: Wire, R: Reporter>(
    net: &mut Net<W>,
    events: &[TimedEvent],
    end: u64,
    reporter: &mut R,
) -> Totals
    requires early { end ≤ latest_event }
    requires fresh { (net.old.close ≤ latest_event) × (net.old.rest ≤ latest_event) }
    requires schedule { IsSchedule (length net.old.tree) end 0 events.now }
    ensures { IsRunHeard R.hears end (start net.old events.now) net.new result reporter.old reporter.new (R.goes_on reporter.new) }
{
    let mut rest = events;
    let mut totals = Totals::default();
    'turns: while reporter.wants_more() {
        match next_turn(end, net, first_time(rest)) {
            Turn::Stop => break,
            Turn::Apply(at) => {
                let Some((event, others)) = rest.split_first() else {
                    unreachable!();
                };
                take_event(net, &mut totals, at, event, reporter);
                rest = others;
            }
            Turn::Round(begin) => {
                let outcome = net.outcome_at(begin);
                take_round(net, &mut totals, begin, &outcome, reporter);
            }
        }
    }
    totals
}
