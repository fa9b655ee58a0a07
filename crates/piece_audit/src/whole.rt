//! The pieces of a whole captured line.
ghost use Rattle.std.specs.Prelude.{◌≡◌, ◌-◌, ◌≤◌, Some, length, option_map};
ghost use Rattle.std.specs.Option.{option_to_list};
ghost use Rattle.text_core.specs.Adds.{Adds};
ghost use Rattle.audit_pieces.specs.Pieces.{piece_of};
ghost use Rattle.audit_pieces.specs.Stretches.{stretches_of};
ghost use Rattle.audit_pieces.specs.Wide.{pieces_of};
ghost use Rattle.piece_audit.specs.Texts.{pieces_text};
ghost use Rattle.piece_audit.specs.Wide.{Reads, after_first, lows_from};

use crate::texts::add_piece;
use crate::wide::WideReader;
use audit_pieces::Piece;
use audit_widths::{Low, first_low};
use line_wave::Edge;
use record_core::Form;
use text_core::{Counted, Sink};

// The edges behind the first low stretch.
fn after_first(edges: &[Edge]) -> &[Edge]
    ensures rest { result.now ≡ after_first edges.now }
    ensures shorter { length result.now ≤ length edges.now - 1 }
{
    match edges {
        [] => &[],
        [_] => &[],
        [_, _, rest @ ..] => rest,
    }
}

fn add_some<S: Sink>(out: &mut Counted<'_, S>, form: Form, grid: u64, piece: Option<Piece>)
    ensures { Adds out.old out.new (pieces_text form grid (option_to_list (option_map piece_of piece))) }
{
    match piece {
        None => {}
        Some(piece) => add_piece(out, form, grid, &piece),
    }
}

// Takes a low stretch, if there is one.
fn add_low<S: Sink>(
    out: &mut Counted<'_, S>,
    form: Form,
    grid: u64,
    end: u64,
    reader: &mut WideReader,
    low: Option<Low>,
)
    ensures { Reads form grid end reader.old low reader.new out.old out.new }
{
    match low {
        None => {}
        Some(low) => add_some(out, form, grid, reader.take(end, low)),
    }
}

/// Adds all pieces of a captured line that begins at 0 and ends at `end`, of its edges, which begin with a fall: of each what
/// `add_piece` adds.
pub fn add_pieces<S: Sink>(
    out: &mut Counted<'_, S>,
    form: Form,
    grid: u64,
    edges: &[Edge],
    end: u64,
)
    ensures { Adds out.old out.new (pieces_text form grid (pieces_of end (Some 0) (stretches_of end (lows_from edges.now)))) }
{
    let mut reader = WideReader::new(0);
    let mut left = edges;
    'lows: while left.len() > 0 {
        add_low(out, form, grid, end, &mut reader, first_low(left));
        left = after_first(left);
    }
    let last = reader.last(end);
    add_some(out, form, grid, last);
    add_some(out, form, grid, reader.finish(end));
}
