//! Rounds in a span of time that meet a pattern.
ghost use Rattle.std.specs.Prelude.{◌≡◌, ◌+◌, ◌<◌, ◌≤◌, ◌∷◌, [], true, drop, length, map, take, List, ℕ};
ghost use Rattle.expect_judge.specs.Index.{are_in_order, leads};
ghost use Rattle.expect_judge.specs.Seen.{ends_seen, first_of, is_seen, or_first, rounds_seen};
ghost use Rattle.expect_judge.specs.Told.{round_as};

use crate::lines::RoundLine;
use expect_text::meets;

/// A span of time, in microseconds.
#[derive(Clone, Copy, Debug, PartialEq, Eq)]
pub struct TimeSpan {
    pub from: u64,
    pub to: u64,
}

/// How many rounds were seen, and when the first of them ended.
#[derive(Clone, Copy, Debug, PartialEq, Eq)]
pub struct Seen {
    pub count: u64,
    pub first: Option<u64>,
}

/// Whether a round began and ended within the span and what its line says meets the pattern.
pub fn is_seen(span: TimeSpan, pattern: &[u8], round: &RoundLine) -> bool
    ensures { result ≡ is_seen span pattern.now (round_as round.now) }
{
    span.from <= round.begin && round.at <= span.to && meets(pattern, round.reported)
}

fn or_first(first: Option<u64>, at: u64) -> Option<u64>
    ensures { result ≡ or_first first (at ∷ []) }
{
    match first {
        None => Some(at),
        Some(first) => Some(first),
    }
}

// Whether a round began and ended no later than the next one.
fn leads(round: &RoundLine, others: &[RoundLine<'_>]) -> bool
    ensures { result ≡ leads round.now others.now }
{
    match others {
        [] => true,
        [next, ..] => round.begin <= next.begin && round.at <= next.at,
    }
}

/// Whether each of these rounds began and ended no later than the next one.
pub(crate) fn are_in_order(rounds: &[RoundLine<'_>]) -> bool
    ensures { result ≡ are_in_order rounds.now }
{
    let mut rest = rounds;
    'rounds: while let [round, others @ ..] = rest {
        if !leads(round, others) {
            return false;
        }
        rest = others;
    }
    true
}

// Whether the round at a place of these, which are in order, began before the span. Then none up to it is seen.
fn began_before(rounds: &[RoundLine<'_>], place: usize, span: TimeSpan) -> bool
    requires in_order { are_in_order rounds.now ≡ true }
    requires within { place < length rounds.now }
    ensures { result ≡ true → (pattern : List ℕ) → rounds_seen (map round_as (drop (place + 1) rounds.now)) span pattern ≡ rounds_seen (map round_as rounds.now) span pattern }
{
    rounds[place].begin < span.from
}

// Whether the round at a place of these, which are in order, ended after the span. Then none from it on is seen.
fn ended_after(rounds: &[RoundLine<'_>], place: usize, span: TimeSpan) -> bool
    requires in_order { are_in_order rounds.now ≡ true }
    requires within { place < length rounds.now }
    ensures { result ≡ true → (pattern : List ℕ) → rounds_seen (map round_as (take place rounds.now)) span pattern ≡ rounds_seen (map round_as rounds.now) span pattern }
{
    span.to < rounds[place].at
}

/// The place of the first of these rounds, which are in order, that did not begin before the span: found by halves.
pub(crate) fn first_place(rounds: &[RoundLine<'_>], span: TimeSpan) -> usize
    requires { are_in_order rounds.now ≡ true }
    ensures within { result ≤ length rounds.now }
    ensures same { (pattern : List ℕ) → rounds_seen (map round_as (drop result rounds.now)) span pattern ≡ rounds_seen (map round_as rounds.now) span pattern }
{
    let mut start = 0usize;
    let mut width = rounds.len();
    'halves: while 0 < width {
        let half = width / 2;
        let place = start + half;
        if began_before(rounds, place, span) {
            start = place + 1;
            width -= half + 1;
        } else {
            width = half;
        }
    }
    start
}

/// The place of the first of these rounds, which are in order, that ended after the span, or past the last: found by halves.
pub(crate) fn last_place(rounds: &[RoundLine<'_>], span: TimeSpan) -> usize
    requires { are_in_order rounds.now ≡ true }
    ensures within { result ≤ length rounds.now }
    ensures same { (pattern : List ℕ) → rounds_seen (map round_as (take result rounds.now)) span pattern ≡ rounds_seen (map round_as rounds.now) span pattern }
{
    let mut start = 0usize;
    let mut end = rounds.len();
    'halves: while start < end {
        let place = start + (end - start) / 2;
        if ended_after(rounds, place, span) {
            end = place;
        } else {
            start = place + 1;
        }
    }
    end
}

// How many of these rounds, which are in order, are seen: those after the first that ended after the span are not looked at.
fn seen_until(rounds: &[RoundLine<'_>], span: TimeSpan, pattern: &[u8]) -> Seen
    requires { are_in_order rounds.now ≡ true }
    ensures count { result.count ≡ length (ends_seen (map round_as rounds.now) span pattern.now) }
    ensures first { result.first ≡ first_of (ends_seen (map round_as rounds.now) span pattern.now) }
{
    let mut rest = rounds;
    let mut count = 0u64;
    let mut found = None;
    'rounds: while let [round, others @ ..] = rest {
        if span.to < round.at {
            return Seen {
                count,
                first: found,
            };
        }
        if is_seen(span, pattern, round) {
            count += 1;
            found = or_first(found, round.at);
        }
        rest = others;
    }
    Seen {
        count,
        first: found,
    }
}

// How many of these rounds, which are in order, are seen, and the end of the first.
fn rounds_in_order_seen(rounds: &[RoundLine<'_>], span: TimeSpan, pattern: &[u8]) -> Seen
    requires { are_in_order rounds.now ≡ true }
    ensures count { result.count ≡ length (ends_seen (map round_as rounds.now) span pattern.now) }
    ensures first { result.first ≡ first_of (ends_seen (map round_as rounds.now) span pattern.now) }
{
    let (_earlier, rest) = rounds.split_at(first_place(rounds, span));
    seen_until(rest, span, pattern)
}

// How many of these rounds are seen, and the end of the first.
fn all_seen(rounds: &[RoundLine<'_>], span: TimeSpan, pattern: &[u8]) -> Seen
    ensures count { result.count ≡ length (ends_seen (map round_as rounds.now) span pattern.now) }
    ensures first { result.first ≡ first_of (ends_seen (map round_as rounds.now) span pattern.now) }
{
    let mut rest = rounds;
    let mut count = 0u64;
    let mut first = None;
    'rounds: while let [round, others @ ..] = rest {
        if is_seen(span, pattern, round) {
            count += 1;
            first = or_first(first, round.at);
        }
        rest = others;
    }
    Seen { count, first }
}

/// How many of these rounds began and ended within the span and meet the pattern, and the end of the first. Where they are in order
/// not all are looked at.
pub(crate) fn rounds_seen(
    rounds: &[RoundLine<'_>],
    in_order: bool,
    span: TimeSpan,
    pattern: &[u8],
) -> Seen
    requires { in_order ≡ true → are_in_order rounds.now ≡ true }
    ensures count { result.count ≡ length (ends_seen (map round_as rounds.now) span pattern.now) }
    ensures first { result.first ≡ first_of (ends_seen (map round_as rounds.now) span pattern.now) }
{
    if in_order {
        rounds_in_order_seen(rounds, span, pattern)
    } else {
        all_seen(rounds, span, pattern)
    }
}
