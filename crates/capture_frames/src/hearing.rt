//! The frames of a capture, as they are heard.
ghost use Rattle.std.specs.Prelude.{◌≡◌, ◌∷◌, ◌++◌, map, IfOk, [], false};
ghost use Rattle.line_reading.specs.Windows.{AreWindows};
ghost use Rattle.capture_monitor.specs.Watch.{captured_by};
ghost use Rattle.capture_frames.specs.Frames.{frame_as, frame_told, frames_in};

use crate::frame::{CapturedFrame, frame_told, is_complete};
use audit_core::hear_readings;
use audit_notes::{AuditNote, LineHearer, ReadingGroup};
use capture_core::Capture;
use line_frames::Reading;
use line_reading::Windows;
use std::alloc::{AllocError, Global};

/// What keeps frames, and notes whether memory ran out.
#[derive(Drop)]
struct Frames {
    frames: Vec<CapturedFrame>,
    full: bool,
}

impl Frames {
    // None yet.
    fn none(alloc: Global) -> Self
        ensures { result.frames.items ≡ [] }
    {
        Frames {
            frames: Vec::new(alloc),
            full: false,
        }
    }

    // Keeps the frame of a complete reading.
    fn keep(&mut self, reading: &Reading)
        ensures { self.new.full ≡ false → (self.old.full ≡ false) × (map frame_as self.new.frames.items ≡ map frame_as self.old.frames.items ++ frame_told reading.now ∷ []) }
    {
        match self.frames.push(frame_told(reading)) {
            Ok(()) => {}
            Err(_) => self.full = true,
        }
    }

    // All of them, where memory did not run out.
    fn all(self) -> Result<Vec<CapturedFrame>, AllocError>
        ensures { IfOk result (λ frames. (self.full ≡ false) × (frames.items ≡ self.frames.items)) }
    {
        if self.full {
            return Err(AllocError);
        }
        Ok(self.frames)
    }
}

impl LineHearer for Frames {
    ghost use Rattle.std.specs.Prelude.{map};
    ghost use Rattle.capture_frames.specs.Frames.{frame_as};
    ghost use Rattle.capture_frames.specs.Heard.{KeepsFrames, both_kept, none_kept};

    ghost hears = { λ old lines new. KeepsFrames (map frame_as old.frames.items) old.full lines (map frame_as new.frames.items) new.full };

    fn reading(&mut self, reading: &Reading) {
        if !is_complete(reading.ending) {
            return;
        }
        self.keep(reading);
    }

    fn group(&mut self, _group: ReadingGroup) {}

    fn word(&mut self, _word: &str) {}

    fn note(&mut self, _note: AuditNote) {}

    ghost nothing = { λ a. none_kept (map frame_as a.frames.items) a.full };

    ghost then = { λ a b c xs ys first second. both_kept (map frame_as a.frames.items) (map frame_as b.frames.items) (map frame_as c.frames.items) a.full b.full c.full xs ys first second };
}

/// The frames of a capture, in order, as a monitor reads them by these windows.
///
/// # Errors
///
/// Want of memory.
pub fn frames_heard(
    alloc: Global,
    capture: &Capture,
    windows: Windows,
) -> Result<Vec<CapturedFrame>, AllocError>
    requires { AreWindows windows }
    ensures { IfOk result (λ frames. map frame_as frames.items ≡ frames_in (captured_by windows capture.now)) }
{
    let mut heard = Frames::none(alloc);
    hear_readings(capture, windows, &mut heard);
    let frames = heard.all()?;
    Ok(frames)
}
