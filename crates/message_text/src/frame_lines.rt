//! Texts of frames, one a line, and their bytes in hex.
ghost use Rattle.std.specs.Prelude.{◌≡◌, ℕ, ◌<◌, ◌^◌, List, [], ◌∷◌, IfErr, MatchResult};
ghost use Rattle.std.specs.List.{flat_map};
ghost use Rattle.message_text.specs.FrameLines.{AreTextsOf, Answers, IsFirstFault, IsRead, hex_line, lines_of_frames};
ghost use Rattle.text_core.specs.Lines.{is_skipped, lines_of};
ghost use Rattle.text_core.specs.Written.{Written, WrittenAll};

use crate::assembler::{AssembleError, assemble, frame_word};
use crate::laws::frames_are_whole;
use crate::reading::candidate;
use arrayvec::ArrayVec;
use line_frames::Frame;
use text_core::{At, Sink, WriteFault, at_word, first_line, hex_digit, is_skipped, put_all};
use thiserror::Error;

/// Why frames are not written in hex.
#[derive(Clone, Copy, Debug, Drop, PartialEq, Eq, Error)]
pub enum FrameLinesError {
    /// A line reports no frame. Nothing was written.
    #[error(transparent)]
    Line(At<AssembleError>),
    /// The sink took no more than the first bytes.
    #[error(transparent)]
    Write(WriteFault),
}

// The frame of a line, unless the line is skipped.
fn frame_of(line: &[u8]) -> Result<Option<Frame>, AssembleError>
    ensures { IsRead line.now result }
{
    if is_skipped(line) {
        return Ok(None);
    }
    match assemble(line) {
        Ok(frame) => {
            frames_are_whole(&frame);
            Ok(Some(frame))
        }
        Err(cause) => Err(cause),
    }
}

// Looks for a line that reports no frame.
fn check_lines(text: &[u8]) -> Result<(), At<AssembleError>>
    ensures { MatchResult result
        (λ _. (frames : List (List ℕ)) × AreTextsOf (lines_of_frames (lines_of text.now)) frames)
        (λ fault. IsFirstFault (lines_of text.now) fault) }
{
    let mut rest = text;
    let mut line = 1u64;
    while let Some((current, after)) = first_line(rest) {
        if let Err(cause) = frame_of(current) {
            return Err(at_word(frame_word(cause), cause).on_line(line));
        }
        rest = after;
        line += 1;
    }
    Ok(())
}

fn hex_line(frame: &Frame) -> ArrayVec<u8, 33>
    ensures { result.items ≡ hex_line frame.now }
{
    let mut line = ArrayVec::new();
    for byte in frame.bytes() {
        line.push(hex_digit(*byte / 16));
        line.push(hex_digit(*byte % 16));
    }
    line.push(b'\n');
    line
}

fn put_line<S: Sink>(line: &[u8], out: &mut S) -> Result<u64, WriteFault>
    ensures { Written (S.contents out.old) (S.contents out.new) (S.is_stuck out.old) (S.is_stuck out.new) line.now result }
{
    match put_all(out, line) {
        Ok(()) => Ok(line.len() as u64),
        Err(fault) => Err(fault),
    }
}

// Writes the frame of a line, and answers how long that is. The line is known to tell one, or is skipped: what it would
// spell is not compared with it again.
fn write_frame_line<S: Sink>(line: &[u8], out: &mut S) -> Result<u64, WriteFault>
    ensures whole { (frames : List (List ℕ)) → AreTextsOf (lines_of_frames (line.now ∷ [])) frames
        → Written (S.contents out.old) (S.contents out.new) (S.is_stuck out.old) (S.is_stuck out.new) (flat_map hex_line frames) result }
    ensures small { IfErr result (λ fault. fault.count < 2 ^ 64) }
{
    if is_skipped(line) {
        return put_line(&[], out);
    }
    match candidate(line) {
        Some(frame) => put_line(&hex_line(&frame), out),
        None => put_line(&[], out),
    }
}

fn write_lines<S: Sink>(text: &[u8], out: &mut S) -> Result<(), WriteFault>
    ensures { (frames : List (List ℕ)) → AreTextsOf (lines_of_frames (lines_of text.now)) frames
        → WrittenAll (S.contents out.old) (S.contents out.new) (S.is_stuck out.old) (S.is_stuck out.new) (flat_map hex_line frames) result }
{
    let mut rest = text;
    let mut written = 0u128;
    while let Some((current, after)) = first_line(rest) {
        match write_frame_line(current, out) {
            Ok(count) => written += u128::from(count),
            Err(fault) => {
                return Err(WriteFault {
                    count: written + fault.count,
                });
            }
        }
        rest = after;
    }
    Ok(())
}

/// Writes the frames of a text's lines, each as a line of hex. It takes no memory.
///
/// # Errors
///
/// `Line` with the first line that reports no frame, and why: then nothing was written. Lines that are empty or begin
/// with `#` are skipped, but counted. `Write` where the sink takes no more: then it has taken as many bytes.
pub fn asm_lines<S: Sink>(text: &[u8], out: &mut S) -> Result<(), FrameLinesError>
    ensures { Answers (S.contents out.old) (S.contents out.new) (S.is_stuck out.old) (S.is_stuck out.new) (lines_of text.now) result }
{
    if let Err(fault) = check_lines(text) {
        return Err(FrameLinesError::Line(fault));
    }
    match write_lines(text, out) {
        Ok(()) => Ok(()),
        Err(fault) => Err(FrameLinesError::Write(fault)),
    }
}
