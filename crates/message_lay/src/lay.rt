//! Lines of frames, and the pulls of all of them.
ghost use Rattle.std.specs.Prelude.{◌≡◌, List, Ok, Err, MatchResult};
ghost use Rattle.std.specs.List.{flat_map};
ghost use Rattle.text_core.specs.Adds.{Adds};
ghost use Rattle.text_core.specs.Cut.{WritesText};
ghost use Rattle.text_core.specs.Lines.{lines_of};
ghost use Rattle.line_wave.specs.declared.Stretch.{Stretch as StretchValue};
ghost use Rattle.message_lay.specs.Line.{IsLineRead};
ghost use Rattle.message_lay.specs.Text.{Answers, AreLinesRead, IsFollowed, no_notes, pull_record};

use crate::fault::{LayCause, LayError};
use crate::line::line_pulls;
use crate::order::follow;
use line_wave::Stretch;
use record_core::{Form, Value, add_record, cells};
use text_core::{
    At, AtWord, Counted, Piece, Sink, TextOfLine, WriteFault, first_line, write_lines,
};

// From when on a pull may begin after those of a line.
fn follow_line(free: u64, line: &[u8]) -> Result<u64, AtWord<LayCause>>
    ensures { IsFollowed free line.now result }
{
    match line_pulls(line) {
        Err(fault) => Err(fault),
        Ok(pulls) => follow(free, &pulls),
    }
}

// Looks for a line that is not laid.
fn check_lines(text: &[u8]) -> Result<(), At<LayCause>>
    ensures { MatchResult result
        (λ _. (pulls : List StretchValue) × AreLinesRead (lines_of text.now) 1 no_notes (Ok pulls))
        (λ fault. AreLinesRead (lines_of text.now) 1 no_notes (Err fault)) }
{
    let mut rest = text;
    let mut line = 1u64;
    let mut free = 0;
    'lines: while let Some((current, after)) = first_line(rest) {
        match follow_line(free, current) {
            Err(fault) => return Err(fault.on_line(line)),
            Ok(next) => free = next,
        }
        rest = after;
        line += 1;
    }
    Ok(())
}

fn add_pull<S: Sink>(out: &mut Counted<'_, S>, form: Form, pull: Stretch)
    ensures { Adds out.old out.new (pull_record form pull) }
{
    let width = pull.to.saturating_sub(pull.from);
    let cells = cells![
        both("pull ", "at", Value::One(Piece::Decimal(pull.from))),
        both(" ", "width", Value::One(Piece::Decimal(width))),
    ];
    add_record(out, form, "pull", &cells);
}

fn add_pulls<S: Sink>(out: &mut Counted<'_, S>, form: Form, pulls: &[Stretch])
    ensures { Adds out.old out.new (flat_map (pull_record form) pulls.now) }
{
    'pulls: for pull in pulls {
        add_pull(out, form, *pull);
    }
}

// Adds the pulls of a line, which is known to be laid.
fn add_laid<S: Sink>(out: &mut Counted<'_, S>, form: Form, line: &[u8])
    ensures { (pulls : List StretchValue) → IsLineRead line.now (Ok pulls) → Adds out.old out.new (flat_map (pull_record form) pulls) }
{
    match line_pulls(line) {
        Ok(pulls) => add_pulls(out, form, &pulls),
        Err(_) => {}
    }
}

// The pulls of lines that are laid.
#[derive(Drop)]
struct LaidLines {
    form: Form,
}

impl TextOfLine for LaidLines {
    ghost use Rattle.message_lay.specs.Text.{ArePullsOf};

    ghost is = { λ lines. ArePullsOf lines.form };

    fn add<S: Sink>(&self, out: &mut Counted<'_, S>, line: &[u8]) {
        add_laid(out, self.form, line);
    }
}

// Writes the pulls of lines, which are known to be laid.
fn write_pulls<S: Sink>(text: &[u8], form: Form, out: &mut S) -> Result<(), WriteFault>
    ensures { (pulls : List StretchValue) → AreLinesRead (lines_of text.now) 1 no_notes (Ok pulls)
        → WritesText (S.contents out.old) (S.contents out.new) (S.is_stuck out.old) (S.is_stuck out.new) (flat_map (pull_record form) pulls) result }
{
    write_lines(text, &LaidLines { form }, out)
}

/// Writes the pulls of frames, as lines `pull T WIDTH` of a script, or as their objects of JSON. A line is `T FRAME` or `T FAULT FRAME`: the frame's start bit
/// falls at T microseconds, and a sender of nominal times pulls it (CEC 5.2), each acknowledge bit a 1. In the place of FRAME may
/// stand `blocks HEX`, 1 to 64 bytes. Slots and blocks count from 1, and FAULT is one of:
///
/// - `eom BLOCK BIT`: the block's end-of-message bit is BIT, 0 or 1;
/// - `bit K LOW TOTAL`: slot K is low for LOW, and the next one falls TOTAL after it;
/// - `start LOW TOTAL`: the same of the start bit;
/// - `last K`: nothing is pulled after slot K;
/// - `drive K`: a low drive of 3,600 from the fall of slot K on, and then nothing;
/// - `glitch K AFTER LOW`: a low of LOW more, which begins AFTER after the fall of slot K, joined with what it overlaps or
///   touches.
///
/// A frame's text is all that stands after the fault. Empty lines and lines that begin with `#` are skipped, but counted. It takes no
/// memory.
///
/// # Errors
///
/// `Line` with the first line that is not laid: then nothing was written. Its cause is the first from the left; then `Slot` where
/// the frame has not the fault's slot or block; then of the first pull at fault `Order` where it does not begin after the end of
/// the one above, `Late` where it begins after 1,000,000,000,000, `Width` where a glitch joins lows to more than 10,000,000.
/// `Write` where the sink takes no more: then the front of the pulls was written, as long as it says.
pub fn lay_lines<S: Sink>(text: &[u8], form: Form, out: &mut S) -> Result<(), LayError>
    ensures { Answers form (S.contents out.old) (S.contents out.new) (S.is_stuck out.old) (S.is_stuck out.new) (lines_of text.now) result }
{
    if let Err(fault) = check_lines(text) {
        return Err(LayError::Line(fault));
    }
    match write_pulls(text, form, out) {
        Ok(()) => Ok(()),
        Err(fault) => Err(LayError::Write(fault)),
    }
}
