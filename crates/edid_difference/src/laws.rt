//! Laws of the difference of two EDIDs.
ghost use Rattle.edid_difference.specs.Laws.{AlikeAreSame, Exchanges, FirstsStand, SameAreAlike, SecondsStand};

/// Nothing is told of two EDIDs exactly where they have the same bytes.
/// - `same`: nothing is told where they have them;
/// - `only`: they have them where nothing is told.
pub fn same_bytes_do_not_differ()
    ensures same { SameAreAlike }
    ensures only { AlikeAreSame }
{}

/// Each line of both EDIDs stands in the alignment once.
/// - `firsts`: those of the first EDID, in their order;
/// - `seconds`: those of the second, in theirs;
/// - `exchanged`: the alignment of the second with the first is the same with its sides exchanged.
pub fn parts_stand_side_by_side()
    ensures firsts { FirstsStand }
    ensures seconds { SecondsStand }
    ensures exchanged { Exchanges }
{}
