//! How long after the frame before a frame has to have ended.
ghost use Rattle.std.specs.Prelude.{◌≡◌};
ghost use Rattle.capture_as_test.specs.Timing.{duration, rounded};
ghost use Rattle.capture_frames.specs.Frames.{frame_as};

use capture_frames::CapturedFrame;

/// The time within which a device answers where it can, in microseconds (CEC 9.2).
const WANTED_PAUSE: u64 = 200_000;

/// The time within which it has to answer, in microseconds (CEC 9.2).
const MOST_PAUSE: u64 = 1_000_000;

/// Any time later: the most that a capture lasts, in microseconds.
const ANY_PAUSE: u64 = 2_000_000_000_000;

// The time from the end of a frame to the fall of the next one, rounded up.
fn rounded(pause: u64) -> u64
    ensures { result ≡ rounded pause }
{
    if pause <= WANTED_PAUSE {
        WANTED_PAUSE
    } else if pause <= MOST_PAUSE {
        MOST_PAUSE
    } else {
        ANY_PAUSE
    }
}

/// How long after the end of the frame before it a frame has to have ended.
pub(crate) fn duration(end: u64, frame: &CapturedFrame) -> u64
    ensures { result ≡ duration end (frame_as frame.now) }
{
    let pause = rounded(frame.begin.saturating_sub(end));
    pause.saturating_add(frame.close.saturating_sub(frame.begin))
}
