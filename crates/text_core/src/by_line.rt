//! Texts that are written line by line.
ghost use Rattle.std.specs.Prelude.{ℕ, List};
ghost use Rattle.text_core.specs.Adds.{Adds};
ghost use Rattle.text_core.specs.ByLine.{AreInOrder};
ghost use Rattle.text_core.specs.Cut.{WritesText};
ghost use Rattle.text_core.specs.Lines.{lines_of};

use crate::lines::first_line;
use crate::sink::{Sink, WriteFault};
use crate::tally::Counted;

/// What adds the text of a line.
pub trait TextOfLine {
    /// What is the text of a line.
    ghost is: { Self → List ℕ → List ℕ → Type 0 };

    /// Adds the text of a line that has one.
    fn add<S: Sink>(&self, out: &mut Counted<'_, S>, line: &[u8])
        ensures { (text : List ℕ) → is self.now line.now text → Adds out.old out.new text };
}

// Adds the texts of the lines, up to a fault.
fn add_lines<S: Sink, L: TextOfLine>(out: &mut Counted<'_, S>, each: &L, text: &[u8])
    ensures { (texts : List ℕ) → AreInOrder (L.is each.now) (lines_of text.now) texts → Adds out.old out.new texts }
{
    let mut rest = text;
    'lines: while let Some((line, after)) = first_line(rest) {
        each.add(out, line);
        if out.has_failed() {
            return;
        }
        rest = after;
    }
}

/// Writes the texts of the lines of a text, where each line has one.
///
/// # Errors
///
/// The sink takes no more: then the front of the texts was written, as long as it reports.
pub fn write_lines<S: Sink, L: TextOfLine>(
    text: &[u8],
    each: &L,
    out: &mut S,
) -> Result<(), WriteFault>
    ensures { (texts : List ℕ) → AreInOrder (L.is each.now) (lines_of text.now) texts
        → WritesText (S.contents out.old) (S.contents out.new) (S.is_stuck out.old) (S.is_stuck out.new) texts result }
{
    let mut lines = Counted::new(out);
    add_lines(&mut lines, each, text);
    let written = lines.written();
    // No effect at run time. The proof reads what `out` holds from the sink that comes back.
    let _below = lines.into_sink();
    match written {
        Ok(_) => Ok(()),
        Err(fault) => Err(fault),
    }
}
