//! The file of a line.
ghost use Rattle.std.specs.Prelude.{◌%◌};
ghost use Rattle.text_core.specs.Adds.{Adds};
ghost use Rattle.capture_csv.specs.Text.{changes, head, row_text, rows_text, stretch_text};

use capture_core::nine_digits;
use line_wave::Stretch;
use text_core::{Counted, Piece, Sink};

/// Adds the names of the columns, and the line high.
pub fn add_head<S: Sink>(out: &mut Counted<'_, S>)
    ensures { Adds out.old out.new head }
{
    out.add_line(&[Piece::Text("Time [s],CEC\n0.000000000,1\n")]);
}

// Adds the rows of the fall and the rise of a stretch, of which these are the decimals.
fn add_rows<'a, S: Sink>(
    out: &mut Counted<'_, S>,
    stretch: &Stretch,
    fall: &'a [u8],
    rise: &'a [u8],
)
    ensures { Adds out.old out.new (rows_text stretch.now fall.now rise.now) }
{
    out.add_line(&[
        Piece::Decimal(stretch.from / 1_000_000),
        Piece::Text("."),
        Piece::Bytes(fall),
        Piece::Text(",0\n"),
        Piece::Decimal(stretch.to / 1_000_000),
        Piece::Text("."),
        Piece::Bytes(rise),
        Piece::Text(",1\n"),
    ]);
}

// Adds the rows of the fall and the rise of a stretch.
fn add_stretch<S: Sink>(out: &mut Counted<'_, S>, stretch: &Stretch)
    ensures { Adds out.old out.new (stretch_text stretch.now) }
{
    let fall = nine_digits(stretch.from % 1_000_000);
    let rise = nine_digits(stretch.to % 1_000_000);
    add_rows(out, stretch, &fall, &rise);
}

/// Adds the falls and rises of stretches, a row each.
pub fn add_changes<S: Sink>(out: &mut Counted<'_, S>, stretches: &[Stretch])
    ensures { Adds out.old out.new (changes stretches.now) }
{
    for stretch in stretches {
        add_stretch(out, stretch);
    }
}

/// Adds the end: that the line is high still.
pub fn add_last<S: Sink>(out: &mut Counted<'_, S>, end: u64)
    ensures { Adds out.old out.new (row_text end 49) }
{
    let digits = nine_digits(end % 1_000_000);
    out.add_line(&[
        Piece::Decimal(end / 1_000_000),
        Piece::Text("."),
        Piece::Bytes(&digits),
        Piece::Text(",1\n"),
    ]);
}
