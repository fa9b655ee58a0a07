//! What a script needs to be kept of its run.
ghost use Rattle.std.specs.Prelude.{◌≡◌, ◌&&◌, List, ℕ, true, false, map, IfOk};
ghost use Rattle.std.specs.List.{flat_map, list_any};
ghost use Rattle.expect_text.specs.Names.{meets};
ghost use Rattle.expect_judge.specs.Told.{event_as, round_as};
ghost use Rattle.expect_run.specs.Kept.{is_event_kept, is_round_kept, is_timed, watch_as, watches_of};
ghost use Rattle.expect_run.specs.Groups.{is_sought};

use crate::group::{Group, groups_of, is_any_met};
use crate::times::Times;
use crate::watch::{all_watches, fits_any, patterns_of};
use expect_judge::{EventLine, NamedLines, RoundLine};
use expect_text::Labels;
use std::alloc::{AllocError, Global};

/// What a script needs to be kept: the lines of its labels, the times of those that are events, and what its expectations look for: in
/// groups, and the patterns of all, and of those whose span is not known.
#[derive(Drop)]
pub(crate) struct Needs<'a> {
    pub script: &'a [u8],
    named: NamedLines<'a>,
    times: Times<'a>,
    groups: Vec<Group<'a>>,
    texts: Vec<&'a [u8]>,
    timeless: Vec<&'a [u8]>,
    ghost named_are: { named.script.now ≡ script.now },
    ghost times_are: { times.script.now ≡ script.now },
    ghost groups_are: { flat_map (λ group. map watch_as group.watches.items) groups.items ≡ watches_of script.now },
    ghost texts_are: { (reported : List ℕ) → list_any (λ text. meets text.now reported) texts.items ≡ list_any (λ watch. is_sought false watch && meets watch.pattern reported) (watches_of script.now) },
    ghost timeless_are: { (reported : List ℕ) → list_any (λ text. meets text.now reported) timeless.items ≡ list_any (λ watch. is_sought true watch && meets watch.pattern reported) (watches_of script.now) },
}

impl<'a> Needs<'a> {
    /// Reads what a script needs.
    pub(crate) fn new(alloc: Global, script: &'a [u8]) -> Result<Self, AllocError>
        ensures { IfOk result (λ needs. needs.script.now ≡ script.now) }
    {
        let named = NamedLines::new(alloc, script)?;
        let times = Times::new(alloc, script)?;
        let labels = Labels::new(alloc, script)?;
        let watches = all_watches(alloc, &labels, &times)?;
        let groups = groups_of(alloc, &watches)?;
        let texts = patterns_of(alloc, false, &watches)?;
        let timeless = patterns_of(alloc, true, &watches)?;
        Ok(Needs {
            script,
            named,
            times,
            groups,
            texts,
            timeless,
        })
    }

    /// Whether an event has a label or is refused.
    pub(crate) fn event(&self, event: &EventLine<'_>) -> bool
        ensures { result ≡ is_event_kept self.now.script.now (event_as event.now) }
    {
        self.named.has(event.line) || event.refused.is_some()
    }

    /// Whether an event was applied about when the script has it.
    pub(crate) fn is_timed(&self, event: &EventLine<'_>) -> bool
        ensures { result ≡ is_timed self.now.script.now (event_as event.now) }
    {
        self.times.have(event)
    }

    /// Whether a round is what an expectation looks for. Most rounds have none of the patterns.
    #[tactic(auto, using(crate::proofs::Watching::none_met, crate::proofs::Watching::met_so))]
    pub(crate) fn round(&self, round: &RoundLine) -> bool
        ensures { result ≡ is_round_kept self.now.script.now (round_as round.now) }
    {
        fits_any(&self.texts, round.reported)
            && (fits_any(&self.timeless, round.reported) || is_any_met(&self.groups, round))
    }
}
