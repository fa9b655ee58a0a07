//! Laws of checks.
ghost use Rattle.expect_run.specs.Check.{TalliesCountVerdicts};
ghost use Rattle.expect_run.specs.Cuts.{CutsAreRead};

use expect_told::texts_end_so;
use room_run::texts_have_one_line;

/// The tally of a check counts the verdicts of the same texts, and as failed those of them that are false.
pub fn tallies_count_verdicts()
    ensures { TalliesCountVerdicts }
{
    // No effect at run time. The proof reads these laws.
    texts_end_so();
    texts_have_one_line();
}

/// A script that is read is also read where it ends at a time: its events before then, its pulses and
/// pulls, and that end, which lets the pin go.
pub fn cut_scripts_are_read()
    ensures { CutsAreRead }
{}
