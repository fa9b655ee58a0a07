//! The dump of a line.
ghost use Rattle.text_core.specs.Adds.{Adds};
ghost use Rattle.capture_vcd.specs.Text.{change_lines, changes, head, last};

use line_wave::Stretch;
use text_core::{Counted, Piece, Sink};

/// Adds the definitions, and that the line is high at first.
pub fn add_head<S: Sink>(out: &mut Counted<'_, S>)
    ensures { Adds out.old out.new head }
{
    out.add_line(&[Piece::Text(
        "$version hdminet $end\n$timescale 1 us $end\n$scope module hdmi $end\n$var wire 1 ! CEC $end\n$upscope $end\n$enddefinitions $end\n#0\n$dumpvars\n1!\n$end\n",
    )]);
}

// Adds the fall and the rise of a stretch.
fn add_stretch<S: Sink>(out: &mut Counted<'_, S>, stretch: &Stretch)
    ensures { Adds out.old out.new (change_lines stretch.now) }
{
    out.add_line(&[
        Piece::Text("#"),
        Piece::Decimal(stretch.from),
        Piece::Text("\n0!\n#"),
        Piece::Decimal(stretch.to),
        Piece::Text("\n1!\n"),
    ]);
}

/// Adds the falls and rises of stretches, each in two lines.
pub fn add_changes<S: Sink>(out: &mut Counted<'_, S>, stretches: &[Stretch])
    ensures { Adds out.old out.new (changes stretches.now) }
{
    for stretch in stretches {
        add_stretch(out, stretch);
    }
}

/// Adds the last time.
pub fn add_last<S: Sink>(out: &mut Counted<'_, S>, end: u64)
    ensures { Adds out.old out.new (last end) }
{
    out.add_line(&[Piece::Text("#"), Piece::Decimal(end), Piece::Text("\n")]);
}
