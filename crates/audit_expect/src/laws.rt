//! Laws of runs and their captures.
ghost use Rattle.audit_expect.specs.Alike.{NoRemarkIsJudgedAlike};

use expect_remarks::what_is_shown_was_met;
use room_run::texts_have_one_line;

/// `expect no-remark` holds of a run exactly where it does of the capture of the run's line.
pub fn no_remark_is_judged_alike()
    ensures { NoRemarkIsJudgedAlike }
{
    // No effect at run time. The proof reads these laws.
    texts_have_one_line();
    what_is_shown_was_met();
}
