//! Frames in hex, one a line.
ghost use Rattle.std.specs.Prelude.{◌≡◌, ℕ, List, Ok, Err, Some, None, Option, MatchResult};
ghost use Rattle.message_hex.specs.Lines.{Answers, first_fault, line_frame, text_by};
ghost use Rattle.std.specs.List.{flat_map};
ghost use Rattle.text_core.specs.Adds.{Adds};
ghost use Rattle.text_core.specs.Cut.{WritesText};
ghost use Rattle.text_core.specs.Lines.{lines_of};

use crate::bytes::{DisCause, frame_in};
use line_frames::Frame;
use text_core::{At, Counted, Sink, TextOfLine, WriteFault, first_line, is_skipped, write_lines};
use thiserror::Error;

/// Why the texts of frames are not written.
#[derive(Clone, Copy, Debug, Drop, PartialEq, Eq, Error)]
pub enum DisError {
    /// A line has no frame. Nothing was written.
    #[error(transparent)]
    Line(At<DisCause>),
    /// The sink took no more than the first bytes.
    #[error(transparent)]
    Write(WriteFault),
}

// The frame of a line, unless the line is skipped.
fn line_frame(line: &[u8]) -> Result<Option<Frame>, DisCause>
    ensures { result ≡ line_frame line.now }
{
    if is_skipped(line) {
        return Ok(None);
    }
    match frame_in(line) {
        Ok(frame) => Ok(Some(frame)),
        Err(cause) => Err(cause),
    }
}

// Looks for a line that has no frame.
fn check_lines(text: &[u8]) -> Result<(), At<DisCause>>
    ensures { MatchResult result
        (λ _. first_fault 1 (lines_of text.now) ≡ None)
        (λ fault. first_fault 1 (lines_of text.now) ≡ Some fault) }
{
    let mut rest = text;
    let mut line = 1u64;
    'lines: while let Some((current, after)) = first_line(rest) {
        if let Err(cause) = line_frame(current) {
            return Err(At {
                line,
                cause,
                word: 0,
            });
        }
        rest = after;
        line += 1;
    }
    Ok(())
}

/// What adds what is written of a frame.
pub trait TextOfFrame {
    /// What is written of a frame.
    ghost text: { Self → List ℕ → List ℕ };

    /// Adds what is written of a frame.
    fn add<S: Sink>(&self, out: &mut Counted<'_, S>, frame: &Frame)
        ensures { Adds out.old out.new (text self.now frame.now) };
}

// Adds what is written of a line's frame, if it has one.
#[tactic(auto, using(text_core::proofs::Adding::nothing))]
fn add_one<S: Sink, F: TextOfFrame>(out: &mut Counted<'_, S>, each: &F, line: &[u8])
    ensures { Adds out.old out.new (text_by (F.text each.now) line.now) }
{
    match line_frame(line) {
        Ok(Some(frame)) => each.add(out, &frame),
        Ok(None) => {}
        Err(_) => {}
    }
}

// What is written of the frames of lines.
#[derive(Drop)]
struct FramesOf<'a, F: TextOfFrame> {
    each: &'a F,
}

impl<'a, F: TextOfFrame> TextOfLine for FramesOf<'a, F> {
    ghost use Rattle.std.specs.Prelude.{◌≡◌};
    ghost use Rattle.message_hex.specs.Lines.{text_by};

    ghost is = { λ frames line text. text ≡ text_by (F.text frames.each.now) line };

    fn add<S: Sink>(&self, out: &mut Counted<'_, S>, line: &[u8]) {
        add_one(out, self.each, line);
    }
}

fn write_each<S: Sink, F: TextOfFrame>(text: &[u8], each: &F, out: &mut S) -> Result<(), WriteFault>
    ensures { WritesText (S.contents out.old) (S.contents out.new) (S.is_stuck out.old) (S.is_stuck out.new) (flat_map (text_by (F.text each.now)) (lines_of text.now)) result }
{
    write_lines(text, &FramesOf { each }, out)
}

/// Writes what is written of the frames whose bytes the lines of a text spell in hex. It takes no memory.
///
/// # Errors
///
/// `Line` with the first line that has no frame, and why: then nothing was written. Lines that are empty or begin with `#`
/// are skipped, but counted. `Write` where the sink takes no more: then the front of what is written was, as long as it
/// says.
pub fn write_frames<S: Sink, F: TextOfFrame>(
    text: &[u8],
    each: &F,
    out: &mut S,
) -> Result<(), DisError>
    ensures { Answers (text_by (F.text each.now)) (S.contents out.old) (S.contents out.new) (S.is_stuck out.old) (S.is_stuck out.new) (lines_of text.now) result }
{
    if let Err(fault) = check_lines(text) {
        return Err(DisError::Line(fault));
    }
    match write_each(text, each, out) {
        Ok(()) => Ok(()),
        Err(fault) => Err(DisError::Write(fault)),
    }
}
