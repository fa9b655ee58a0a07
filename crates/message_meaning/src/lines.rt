//! Frames in hex, one a line: their records, and those of what they mean.
ghost use Rattle.std.specs.Prelude.{false, true};
ghost use Rattle.message_hex.specs.Lines.{Answers};
ghost use Rattle.message_meaning.specs.Records.{dis_text};
ghost use Rattle.text_core.specs.Lines.{lines_of};

use crate::frame::add_frame;
use crate::meaning::add_meaning;
use line_frames::Frame;
use message_hex::{DisError, TextOfFrame, write_frames};
use record_core::Form;
use text_core::{Counted, Sink};

// Of a frame its record.
#[derive(Drop)]
struct Frames {
    form: Form,
}

impl TextOfFrame for Frames {
    ghost use Rattle.std.specs.Prelude.{false};
    ghost use Rattle.message_meaning.specs.Records.{dis_record};

    ghost text = { λ frames. dis_record frames.form false };

    fn add<S: Sink>(&self, out: &mut Counted<'_, S>, frame: &Frame) {
        add_frame(out, self.form, frame);
    }
}

// The same, and that of what it means.
#[derive(Drop)]
struct MeantFrames {
    form: Form,
}

impl TextOfFrame for MeantFrames {
    ghost use Rattle.std.specs.Prelude.{true};
    ghost use Rattle.message_meaning.specs.Records.{dis_record};

    ghost text = { λ frames. dis_record frames.form true };

    #[tactic(auto, using(text_core::proofs::Adding::then))]
    fn add<S: Sink>(&self, out: &mut Counted<'_, S>, frame: &Frame) {
        add_frame(out, self.form, frame);
        add_meaning(out, self.form, frame);
    }
}

// Writes the records of frames.
fn write_plain<S: Sink>(text: &[u8], form: Form, out: &mut S) -> Result<(), DisError>
    ensures { Answers (dis_text form false) (S.contents out.old) (S.contents out.new) (S.is_stuck out.old) (S.is_stuck out.new) (lines_of text.now) result }
{
    write_frames(text, &Frames { form }, out)
}

// The same, and those of what they mean.
fn write_meant<S: Sink>(text: &[u8], form: Form, out: &mut S) -> Result<(), DisError>
    ensures { Answers (dis_text form true) (S.contents out.old) (S.contents out.new) (S.is_stuck out.old) (S.is_stuck out.new) (lines_of text.now) result }
{
    write_frames(text, &MeantFrames { form }, out)
}

/// Writes the texts of the frames whose bytes the lines of a text spell in hex, a line each; after a text stands ` # ` and a word
/// of the standard, where the text leaves the opcode or an operand as bytes and the standard has a word. Where it is wanted, a
/// line below each says what the frame means, in plain words, after two spaces. Each is written as its line, or as an object of
/// JSON. It takes no memory.
///
/// # Errors
///
/// `Line` with the first line that has no frame, and why: then nothing was written. Lines that are empty or begin with `#`
/// are skipped, but counted. `Write` where the sink takes no more: then the front of the texts was written, as long as it
/// says.
pub fn dis_lines<S: Sink>(
    text: &[u8],
    form: Form,
    meaning: bool,
    out: &mut S,
) -> Result<(), DisError>
    ensures { Answers (dis_text form meaning) (S.contents out.old) (S.contents out.new) (S.is_stuck out.old) (S.is_stuck out.new) (lines_of text.now) result }
{
    if meaning {
        write_meant(text, form, out)
    } else {
        write_plain(text, form, out)
    }
}
