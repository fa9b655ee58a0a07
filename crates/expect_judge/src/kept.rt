//! Rounds that are kept, as they are judged.
ghost use Rattle.std.specs.Prelude.{◌≡◌, map, IfOk};
ghost use Rattle.expect_judge.specs.Told.{kept_as, round_as};

use crate::lines::RoundLine;
use std::alloc::{AllocError, Global};

/// A round that is kept, with what it says, and what stands of it below a test that failed.
#[derive(Drop)]
pub struct KeptRound {
    pub begin: u64,
    pub at: u64,
    pub is_complete: bool,
    pub reported: Vec<u8>,
    pub shown: Vec<u8>,
}

/// These rounds, as they are judged.
///
/// # Errors
///
/// Want of memory.
pub fn rounds_kept<'a>(
    alloc: Global,
    kept: &'a [KeptRound],
) -> Result<Vec<RoundLine<'a>>, AllocError>
    ensures { IfOk result (λ rounds. map round_as rounds.items ≡ map kept_as kept.now) }
{
    let mut rounds = Vec::new(alloc);
    let mut rest = kept;
    'rounds: while let [round, others @ ..] = rest {
        rounds.push(RoundLine {
            begin: round.begin,
            at: round.at,
            is_complete: round.is_complete,
            reported: &round.reported,
            shown: &round.shown,
        })?;
        rest = others;
    }
    Ok(rounds)
}
