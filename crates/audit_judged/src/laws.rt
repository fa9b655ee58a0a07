//! Laws of the judgement.
ghost use Rattle.audit_judged.specs.Endings.{OneEnding, WholeFramesAreTaken};
ghost use Rattle.audit_judged.specs.Widths.{LawfulWidthsHaveNoRemark};

/// A piece that is no whole frame has one remark of its ending, or one cause.
pub fn one_ending()
    ensures { OneEnding }
{}

/// A whole frame of which nothing is said has nothing after its end, and each of its blocks was taken.
pub fn whole_frames_are_taken()
    ensures { WholeFramesAreTaken }
{}

/// A piece whose widths are all in their windows has no remark of a width.
pub fn lawful_widths_have_no_remark()
    ensures { LawfulWidthsHaveNoRemark }
{}
