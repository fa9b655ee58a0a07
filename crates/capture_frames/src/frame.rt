//! A frame that was read whole.
ghost use Rattle.std.specs.Prelude.{◌≡◌, drop};
ghost use Rattle.message_text.specs.ReadingText.{is_complete, verdict_text};
ghost use Rattle.capture_frames.specs.Frames.{frame_as, frame_told};

use arrayvec::ArrayVec;
use line_frames::{Ending, MOST_BITS, Reading};
use message_text::{reading_reported, reading_verdict};
use text_core::after;

/// A frame of a capture: from its fall to its ending, in microseconds, its text, and how it was acknowledged.
#[derive(Drop)]
pub struct CapturedFrame {
    pub begin: u64,
    pub close: u64,
    pub text: ArrayVec<u8, MOST_BITS>,
    pub verdict: &'static [u8],
}

/// Whether a reading that ended so is complete.
pub(crate) fn is_complete(ending: Ending) -> bool
    ensures { result ≡ is_complete ending }
{
    matches!(ending, Ending::Complete)
}

// How the frame of a complete reading was acknowledged.
fn verdict_of(reading: &Reading) -> &'static [u8]
    ensures { result.now ≡ drop 1 (verdict_text reading.now) }
{
    after(reading_verdict(reading).as_bytes(), 1)
}

/// The frame of a complete reading.
pub(crate) fn frame_told(reading: &Reading) -> CapturedFrame
    ensures { frame_as result ≡ frame_told reading.now }
{
    CapturedFrame {
        begin: reading.begin,
        close: reading.at,
        text: reading_reported(reading),
        verdict: verdict_of(reading),
    }
}
