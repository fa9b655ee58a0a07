//! Laws of what is told of a run.
ghost use Rattle.expect_told.specs.Shown.{MarkedRecordsAreRecords};
ghost use Rattle.expect_told.specs.Turns.{TextsEndSo, TextsHaveOneTold};

use line_rounds::one_outcome;
use room_script::one_script;

/// A topology and a script have one run: the same turns, which end in one state.
pub fn texts_end_so()
    ensures { TextsEndSo }
{
    // No effect at run time. The proof reads these laws.
    one_outcome();
    one_script();
}

/// So one thing is told of it.
pub fn texts_have_one_told()
    ensures { TextsHaveOneTold }
{
    // No effect at run time. The proof reads this law.
    texts_end_so();
}

/// What stands of a record below a test is a record: that with a mark before its line.
pub fn marked_records_are_records()
    ensures { MarkedRecordsAreRecords }
{}
