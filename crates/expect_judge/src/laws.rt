//! Laws of expectations of rounds.
ghost use Rattle.expect_judge.specs.Laws.{LabelledLinesAreNamed, LargerSpansHold, NeverIsTheContrary, OnceIsSome, SameRoundsEndTogether};

/// `none` is the contrary of the plain form, in the same span.
pub fn never_is_the_contrary()
    ensures { NeverIsTheContrary }
{}

/// Where `once` holds, the plain form does.
pub fn once_is_some()
    ensures { OnceIsSome }
{}

/// An expectation of the plain form, or of at least so many, that holds goes on to hold in a larger span, and one of at most so
/// many in a smaller one.
pub fn larger_spans_hold()
    ensures { LargerSpansHold }
{}

/// The line that a label stands for is one that others speak of.
pub fn labelled_lines_are_named()
    ensures { LabelledLinesAreNamed }
{}

/// Where the same rounds are seen, they end at the same instants.
pub fn same_rounds_end_together()
    ensures { SameRoundsEndTogether }
{}
