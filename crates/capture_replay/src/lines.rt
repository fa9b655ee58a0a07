//! The lines of a replay.
ghost use Rattle.text_core.specs.Adds.{Adds};
ghost use Rattle.capture_replay.specs.Replay.{end_line, left_line, pin_lines};

use line_wave::Stretch;
use text_core::{Counted, Piece, Sink};

/// Adds that the pin pulls the line low for a stretch.
pub(crate) fn add_pins<S: Sink>(out: &mut Counted<'_, S>, low: Stretch)
    ensures { Adds out.old out.new (pin_lines low) }
{
    out.add_line(&[
        Piece::Text("pin "),
        Piece::Decimal(low.from),
        Piece::Text(" 0\npin "),
        Piece::Decimal(low.to),
        Piece::Text(" 1\n"),
    ]);
}

/// Adds how many low stretches are left out, as a remark.
pub(crate) fn add_left<S: Sink>(out: &mut Counted<'_, S>, count: u64)
    ensures { Adds out.old out.new (left_line count) }
{
    out.add_line(&[
        Piece::Text(
            "# low stretches that are left out, since the line does not tell who drove them: ",
        ),
        Piece::Decimal(count),
        Piece::Text("\n"),
    ]);
}

/// Adds where the script ends.
pub(crate) fn add_end<S: Sink>(out: &mut Counted<'_, S>, end: u64)
    ensures { Adds out.old out.new (end_line end) }
{
    out.add_line(&[Piece::Text("end "), Piece::Decimal(end), Piece::Text("\n")]);
}
