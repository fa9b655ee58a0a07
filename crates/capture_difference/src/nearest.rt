//! The next frame that two captures have in common.
ghost use Rattle.std.specs.Prelude.{◌≡◌, map};
ghost use Rattle.capture_difference.specs.Aligned.{meeting_from, meets_at, nearest};
ghost use Rattle.capture_frames.specs.Frames.{frame_as};

use crate::row::is_one;
use capture_frames::CapturedFrame;

/// A frame that both captures have: so many stand before it in each.
#[derive(Clone, Copy, Debug, PartialEq, Eq)]
pub(crate) struct Meeting {
    pub(crate) first: usize,
    pub(crate) second: usize,
}

// Whether one frame stands at these places.
#[tactic(auto, using(crate::proofs::Meeting::first_lacks, crate::proofs::Meeting::second_lacks, crate::proofs::Meeting::both_stand))]
fn meets_at(xs: &[CapturedFrame], ys: &[CapturedFrame], first: usize, second: usize) -> bool
    ensures { result ≡ meets_at (map frame_as xs.now) (map frame_as ys.now) first second }
{
    let Some(x) = xs.get(first) else {
        return false;
    };
    let Some(y) = ys.get(second) else {
        return false;
    };
    is_one(x, y)
}

// The frame of both before which so many stand in the two together, and the fewest in the first.
#[tactic(auto, using(crate::proofs::Meeting::found_there, crate::proofs::Meeting::none_there, crate::proofs::Meeting::next_there))]
fn meeting_after(xs: &[CapturedFrame], ys: &[CapturedFrame], steps: usize) -> Option<Meeting>
    ensures { result ≡ meeting_from (map frame_as xs.now) (map frame_as ys.now) 0 steps }
{
    let mut first = 0;
    let mut second = steps;
    'places: loop {
        if meets_at(xs, ys, first, second) {
            return Some(Meeting { first, second });
        }
        if second == 0 {
            return None;
        }
        first += 1;
        second -= 1;
    }
}

/// The frame of both before which the fewest stand in the two together, and of such the fewest in the first.
#[tactic(auto, using(crate::proofs::Meeting::found_now, crate::proofs::Meeting::none_now, crate::proofs::Meeting::none_ever))]
pub(crate) fn nearest(xs: &[CapturedFrame], ys: &[CapturedFrame]) -> Option<Meeting>
    ensures { result ≡ nearest (map frame_as xs.now) (map frame_as ys.now) }
{
    let mut steps = 0;
    let mut left = xs.len() + ys.len();
    'steps: while left > 0 {
        match meeting_after(xs, ys, steps) {
            Some(meeting) => return Some(meeting),
            None => {}
        }
        steps += 1;
        left -= 1;
    }
    None
}
