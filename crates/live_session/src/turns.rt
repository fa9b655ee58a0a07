//! The turns that a session reports.
ghost use Rattle.std.specs.Prelude.{◌≡◌, ℕ, min, ◌+◌, ◌<◌, ◌≤◌, [], drop, length, Some, IfSome};
ghost use Rattle.line_wave.specs.Line.{IsWave};
ghost use Rattle.line_wave.specs.Bounds.{latest_event, latest_instant};
ghost use Rattle.line_rounds.specs.declared.Outcome.{Outcome as OutcomeValue};
ghost use Rattle.room_script.specs.Script.{IsSchedule};
ghost use Rattle.room_net.specs.State.{NetState, next_start};
ghost use Rattle.room_net.specs.Step.{IsNextRound};
ghost use Rattle.room_run.specs.Run.{turn_of};
ghost use Rattle.live_session.specs.Edges.{first_edge, pinned_by};
ghost use Rattle.live_session.specs.Session.{IsEdgeBy, IsSoonestBy, at_most, edge_horizon, pin_by, to_edge};
ghost use Rattle.live_session.specs.Turns.{AreHeard, IsWithin, Keeps, certain_until};

use crate::edges::first_edge_by;
use crate::foreseen::Foreseen;
use room_run::{Reporter, Totals, Turn, first_time};
use room_script::TimedEvent;

/// The instant before which turns are certain: the horizon, or that from which on the pin is low.
pub(crate) fn certain_until(pin: Option<u64>, horizon: u64) -> u64
    ensures result { result ≡ certain_until pin horizon }
    ensures limit { result ≤ horizon }
{
    match pin {
        None => horizon,
        Some(low) => horizon.min(low),
    }
}

/// Goes on with a run while its turns are certain and the reporter wants to hear more: those that are over before `until` where the
/// script has not ended, and else all that begin before it. Reports each, and counts the events that are applied. Returns when the
/// next round begins, where it is on.
pub(crate) fn take_turns<R: Reporter>(
    net: &mut Foreseen,
    totals: &mut Totals,
    events: &[TimedEvent],
    applied: &mut usize,
    until: u64,
    ended: bool,
    reporter: &mut R,
) -> Option<u64>
    requires early { until ≤ latest_event }
    requires none { applied.old ≡ 0 }
    requires within { IsWithin (record { net = net.old; events = events.now; totals = totals.old }) }
    requires schedule { (from end : ℕ) × IsSchedule (length net.old.tree) end from events.now }
    requires room { totals.old.refused + length events.now ≤ 18446744073709551615 }
    ensures heard { AreHeard R.hears ended until (record { net = net.old; events = events.now; totals = totals.old })
        (record { net = net.new; events = drop applied.new events.now; totals = totals.new }) reporter.old reporter.new (R.goes_on reporter.new) result }
    ensures begins { IfSome result (λ begin. next_start net.new ≡ Some begin) }
    ensures few { applied.new ≤ length events.now }
    ensures within { IsWithin (record { net = net.new; events = drop applied.new events.now; totals = totals.new }) }
    ensures keeps { Keeps (record { net = net.old; events = events.now; totals = totals.old })
        (record { net = net.new; events = drop applied.new events.now; totals = totals.new }) }
{
    let mut rest = events;
    'turns: while reporter.wants_more() {
        match net.next_turn(until, first_time(rest)) {
            Turn::Stop => return None,
            Turn::Apply(at) => {
                let Some((event, others)) = rest.split_first() else {
                    unreachable!();
                };
                net.take_event(totals, at, event, reporter);
                rest = others;
                *applied += 1;
            }
            Turn::Round(begin) => {
                if net.is_on(begin, until, ended) {
                    return Some(begin);
                }
                net.take_round(totals, begin, reporter);
            }
        }
    }
    None
}

// The instant after the close of the next round, which begins at `begin`, where that is not after a limit.
fn soon_after(net: &mut Foreseen, begin: u64, limit: u64) -> Option<u64>
    requires early { net.old.close ≤ latest_instant }
    requires begins { next_start net.old ≡ Some begin }
    requires soon { begin < latest_event }
    ensures same { net.new ≡ net.old }
    ensures limit { IfSome result (λ soon. soon ≤ limit) }
    ensures soon { (outcome : OutcomeValue) × (after : NetState) × IsWave outcome.wave × IsNextRound net.old begin outcome after × (result ≡ at_most limit (after.close + 1)) }
{
    let soon = net.next_close(begin) + 1;
    if soon > limit { None } else { Some(soon) }
}

/// The least instant before which one more turn is over, at most a limit, where the next event has this time and nothing else comes.
pub(crate) fn soonest(net: &mut Foreseen, time: Option<u64>, limit: u64) -> Option<u64>
    requires early { net.old.close ≤ latest_instant }
    requires limit { limit ≤ latest_event }
    ensures same { net.new ≡ net.old }
    ensures limit { IfSome result (λ soon. soon ≤ limit) }
    ensures soon { IsSoonestBy limit net.old (turn_of limit net.old time) result }
{
    match net.next_turn(limit, time) {
        Turn::Stop => None,
        Turn::Apply(at) => Some(at + 1),
        Turn::Round(begin) => soon_after(net, begin, limit),
    }
}

// The microsecond after an edge, or after the close where there is none, at most `until`.
fn edge_horizon(until: u64, close: u64, edge: Option<u64>) -> u64
    ensures horizon { result ≡ edge_horizon until close edge }
    ensures limit { result ≤ until }
{
    let at = match edge {
        None => close,
        Some(edge) => edge,
    };
    if at < until { at + 1 } else { until }
}

// How far to go for an edge of the next round, which begins at `begin`.
fn edge_in(net: &mut Foreseen, begin: u64, from: u64, until: u64, pin: Option<u64>) -> u64
    requires early { net.old.close ≤ latest_instant }
    requires begins { next_start net.old ≡ Some begin }
    requires limit { until ≤ latest_event }
    ensures same { net.new ≡ net.old }
    ensures edge { (outcome : OutcomeValue) × (after : NetState) × IsWave outcome.wave × IsNextRound net.old begin outcome after × (result ≡ edge_horizon until after.close (first_edge from (pinned_by (pin_by pin after.close) outcome.wave))) }
    ensures limit { result ≤ until }
{
    let edge = net.next_edge(begin, from, pin);
    edge_horizon(until, net.next_close(begin), edge)
}

// How far to go for an edge of the pin, where no round is on.
fn pin_edge(from: u64, until: u64, pin: Option<u64>) -> u64
    ensures edge { result ≡ to_edge until (first_edge from (pinned_by pin [])) }
    ensures limit { result ≤ until }
{
    match first_edge_by(from, pin, &[]) {
        None => until,
        Some(edge) => edge_horizon(until, edge, Some(edge)),
    }
}

/// The microsecond after the next edge of the line at `from` or later, or after what comes before that is over, at most `until`,
/// where the next event has this time and nothing else comes, and `pin` is the instant from which on the pin is low, where it is.
pub(crate) fn next_edge(
    net: &mut Foreseen,
    time: Option<u64>,
    from: u64,
    until: u64,
    pin: Option<u64>,
) -> u64
    requires early { net.old.close ≤ latest_instant }
    requires limit { until ≤ latest_event }
    ensures same { net.new ≡ net.old }
    ensures edge { IsEdgeBy pin from until net.old (turn_of (certain_until pin until) net.old time) result }
    ensures limit { result ≤ until }
{
    match net.next_turn(certain_until(pin, until), time) {
        Turn::Stop => pin_edge(from, until, pin),
        Turn::Apply(at) => at + 1,
        Turn::Round(begin) => edge_in(net, begin, from, until, pin),
    }
}
