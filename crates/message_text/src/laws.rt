//! What holds of every frame and its text.
ghost use Rattle.std.specs.Prelude.{◌≡◌, ℕ, IsTrue};
ghost use Rattle.text_core.specs.Bytes.{are_bytes};
ghost use Rattle.message_text.specs.FrameReading.{is_frame};
ghost use Rattle.message_text.specs.FrameText.{frame_text};
ghost use Rattle.message_text.specs.Messages.{WordsReportMessages};

use crate::reading::candidate;
use crate::spelling::frame_text;
use line_frames::Frame;
use message_table::messages_keep_operands;

// Each item of a slice of bytes is below 256.
fn items_are_bytes(bytes: &[u8])
    ensures { IsTrue (are_bytes bytes.now) }
{
    let _first = bytes.first();
}

/// Every frame has one to sixteen bytes.
pub fn frames_are_whole(frame: &Frame)
    ensures { IsTrue (is_frame frame.now) }
{
    items_are_bytes(frame.bytes());
}

/// No two frames share a text.
pub fn one_frame_a_text(first: &Frame, second: &Frame)
    ensures { frame_text first.now ≡ frame_text second.now → first.now ≡ second.now }
{
    frames_are_whole(first);
    frames_are_whole(second);
    let _only = candidate(&frame_text(first));
}

/// Words stand only where decoding the frame gives a message whose encoding has the frame's operands.
pub fn words_report_messages()
    ensures { (code : ℕ) → WordsReportMessages code }
{
    messages_keep_operands();
}
