//! A line with a hole for operands.
ghost use Rattle.std.specs.Prelude.{◌≤◌, length};

use crate::part::{Judged, PatternPart};

/// A line with a hole for operands: what stands before and after them, whose line it is, and a pattern.
#[derive(Clone, Copy)]
pub(crate) struct Hole<'a> {
    pub(crate) front: &'a [PatternPart],
    pub(crate) back: &'a [PatternPart],
    pub(crate) who: Judged<'a>,
    pub(crate) pattern: &'a [u8],
    ghost few_before: { length front.now ≤ 5 },
    ghost few_after: { length back.now ≤ 8 },
}
