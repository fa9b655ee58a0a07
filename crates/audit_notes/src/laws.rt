//! Laws of folding.
ghost use Rattle.audit_notes.specs.Folded.{FoldingLosesNoLine};

/// The lines that stand together, one after another, are the lines; where there is no bad start nothing is folded.
pub fn folding_loses_no_line()
    ensures { FoldingLosesNoLine }
{}
