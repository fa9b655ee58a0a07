//! What is looked for, in groups, so that a round is compared with few.
ghost use Rattle.std.specs.Prelude.{◌≡◌, ◌&&◌, ◌||◌, ℕ, List, Some, map, IfOk, OnOk};
ghost use Rattle.std.specs.List.{flat_map, list_any};
ghost use Rattle.expect_text.specs.Names.{meets};
ghost use Rattle.expect_judge.specs.Told.{round_as};
ghost use Rattle.expect_run.specs.Kept.{is_within, watch_as};
ghost use Rattle.expect_run.specs.Groups.{hull_from, is_known_met, no_span, widened};

use crate::watch::Watch;
use expect_judge::{RoundLine, TimeSpan};
use expect_text::meets;
use std::alloc::{AllocError, Global};

/// How many a group has, at most.
const GROUP_MOST: usize = 32;

/// Some that stand one after another, and a span in which their known spans lie.
#[derive(Drop)]
pub(crate) struct Group<'a> {
    hull: TimeSpan,
    pub watches: Vec<Watch<'a>>,
    ghost hull_is: { hull ≡ hull_from no_span (map watch_as watches.items) },
}

fn is_in(span: TimeSpan, round: &RoundLine) -> bool
    ensures { result ≡ is_within (Some span) (round_as round.now) }
{
    span.from <= round.begin && round.at <= span.to
}

// Whether a round is in a known span, and meets its pattern.
fn is_known_met(watch: &Watch, round: &RoundLine) -> bool
    ensures { result ≡ is_known_met (round_as round.now) (watch_as watch.now) }
{
    match watch.span {
        None => false,
        Some(span) => is_in(span, round) && meets(watch.pattern, round.reported),
    }
}

fn is_any_known_met(watches: &[Watch<'_>], round: &RoundLine) -> bool
    ensures { result ≡ list_any (is_known_met (round_as round.now)) (map watch_as watches.now) }
{
    let mut rest = watches;
    'watches: while let [watch, others @ ..] = rest {
        if is_known_met(watch, round) {
            return true;
        }
        rest = others;
    }
    false
}

fn widened(hull: TimeSpan, span: Option<TimeSpan>) -> TimeSpan
    ensures { result ≡ widened hull span }
{
    match span {
        None => hull,
        Some(span) => TimeSpan {
            from: hull.from.min(span.from),
            to: hull.to.max(span.to),
        },
    }
}

// The span of the known spans of these.
fn hull_of(watches: &[Watch<'_>]) -> TimeSpan
    ensures { result ≡ hull_from no_span (map watch_as watches.now) }
{
    let mut hull = TimeSpan {
        from: u64::MAX,
        to: 0,
    };
    let mut rest = watches;
    'watches: while let [watch, others @ ..] = rest {
        hull = widened(hull, watch.span);
        rest = others;
    }
    hull
}

impl<'a> Group<'a> {
    fn new(alloc: Global, watches: &[Watch<'a>]) -> Result<Self, AllocError>
        ensures { IfOk result (λ group. map watch_as group.watches.items ≡ map watch_as watches.now) }
    {
        let mut own = Vec::new(alloc);
        own.extend_from_slice(watches)?;
        let hull = hull_of(&own);
        Ok(Group { hull, watches: own })
    }

    // Whether a round is in the known span of one, and meets its pattern.
    #[tactic(auto, using(crate::proofs::Grouping::none_in))]
    fn is_met(&self, round: &RoundLine) -> bool
        ensures { result ≡ list_any (is_known_met (round_as round.now)) (map watch_as self.now.watches.items) }
    {
        is_in(self.hull, round) && is_any_known_met(&self.watches, round)
    }
}

/// What is looked for, in groups.
///
/// # Errors
///
/// Want of memory.
#[tactic(auto, using(crate::proofs::Grouping::one_more, crate::proofs::Grouping::no_more))]
pub(crate) fn groups_of<'a>(
    alloc: Global,
    watches: &[Watch<'a>],
) -> Result<Vec<Group<'a>>, AllocError>
    ensures { IfOk result (λ groups. flat_map (λ group. map watch_as group.watches.items) groups.items ≡ map watch_as watches.now) }
{
    let mut groups = Vec::new(alloc);
    let mut start = 0usize;
    'groups: while start < watches.len() {
        let (_earlier, rest) = watches.split_at(start);
        let (front, _later) = rest.split_at(rest.len().min(GROUP_MOST));
        groups.push(Group::new(alloc, front)?)?;
        start += front.len();
    }
    Ok(groups)
}

/// Whether a round is in the known span of one of these, and meets its pattern.
#[tactic(auto, using(crate::proofs::Grouping::met_here, crate::proofs::Grouping::met_later))]
pub(crate) fn is_any_met(groups: &[Group<'_>], round: &RoundLine) -> bool
    ensures { result ≡ list_any (is_known_met (round_as round.now)) (flat_map (λ group. map watch_as group.watches.items) groups.now) }
{
    let mut rest = groups;
    'groups: while let [group, others @ ..] = rest {
        if group.is_met(round) {
            return true;
        }
        rest = others;
    }
    false
}
