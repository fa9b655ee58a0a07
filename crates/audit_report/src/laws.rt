//! Laws of a report.
ghost use Rattle.audit_report.specs.Laws.{AnswersAreTold, RemarksAreTold, RowsAreTold, SpreadsAreOfLists};

/// The row of an address counts what is told of that address, in order, and the last row what is told of nobody.
pub fn rows_are_told()
    ensures { RowsAreTold }
{}

/// The least, greatest and mean of answers are of those that are told of the address, and of all of them.
pub fn answers_are_told()
    ensures answers { AnswersAreTold }
    ensures spreads { SpreadsAreOfLists }
{}

/// The remarks of an address are those that are told of it: each is counted once, with its kind.
pub fn remarks_are_told()
    ensures { RemarksAreTold }
{}
