//! The lines of an edge file, written.
ghost use Rattle.std.specs.Prelude.{◌≡◌, ◌++◌, ◌+◌, ◌≤◌, length};
ghost use Rattle.std.specs.List.{flat_map};
ghost use Rattle.arrayvec.specs.ArrayVec.{array_vec_len};
ghost use Rattle.text_core.specs.Piece.{piece_text};
ghost use Rattle.text_core.specs.Adds.{Adds};
ghost use Rattle.capture_monitor.specs.EdgeText.{edge_lines, last_line, stretch_lines};

use arrayvec::ArrayVec;
use line_wave::Stretch;
use text_core::{Counted, Piece, Sink};

/// The parts of the lines that go out in one `put`: four for each stretch.
const PARTS: usize = 128;

/// The most stretches whose lines go out in one `put`. A fall and a rise of 13 digits each take 32 bytes.
const TOGETHER: usize = 32;

// Adds the fall and the rise of a stretch.
fn add_stretch(lines: &mut ArrayVec<Piece<'static>, PARTS>, stretch: &Stretch)
    requires room { array_vec_len lines.old + 4 ≤ 128 }
    ensures text { flat_map piece_text lines.new.items ≡ flat_map piece_text lines.old.items ++ stretch_lines stretch.now }
    ensures len { array_vec_len lines.new ≡ array_vec_len lines.old + 4 }
{
    lines.push(Piece::Decimal(stretch.from));
    lines.push(Piece::Text(" 0\n"));
    lines.push(Piece::Decimal(stretch.to));
    lines.push(Piece::Text(" 1\n"));
}

// Adds the falls and rises of a few stretches at once.
fn add_few<S: Sink>(out: &mut Counted<'_, S>, stretches: &[Stretch])
    requires few { length stretches.now ≤ 32 }
    ensures { Adds out.old out.new (edge_lines stretches.now) }
{
    let mut lines = ArrayVec::new();
    for stretch in stretches {
        add_stretch(&mut lines, stretch);
    }
    out.add_line(&lines);
}

/// Adds the falls and rises of stretches, a line each.
pub fn add_edges<S: Sink>(out: &mut Counted<'_, S>, stretches: &[Stretch])
    ensures { Adds out.old out.new (edge_lines stretches.now) }
{
    if stretches.is_empty() {
        return;
    }
    let (few, others) = stretches.split_at(stretches.len().min(TOGETHER));
    add_few(out, few);
    add_edges(out, others);
}

/// Adds the last line: the instant with which the file ends, in microseconds.
pub fn add_last<S: Sink>(out: &mut Counted<'_, S>, end: u64)
    ensures { Adds out.old out.new (last_line end) }
{
    out.add_line(&[Piece::Decimal(end), Piece::Text(" end\n")]);
}
