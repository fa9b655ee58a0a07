//! What a device drove of a whole captured line.
ghost use Rattle.std.specs.Prelude.{◌≡◌, ◌-◌, ◌≤◌, length, option_map};
ghost use Rattle.std.specs.Option.{option_to_list};
ghost use Rattle.audit_pieces.specs.Pieces.{piece_of};
ghost use Rattle.text_core.specs.Adds.{Adds};
ghost use Rattle.capture_replay.specs.Replay.{PlaysPieces, counts_of, pieces_in, replay_of};
ghost use Rattle.capture_replay.specs.Wide.{Reads, after_first};

use crate::counts::ReplayCounts;
use crate::lines::{add_end, add_left};
use crate::piece::add_piece;
use audit_pieces::Piece;
use audit_widths::{Low, first_low};
use line_wave::Edge;
use piece_audit::WideReader;
use text_core::{Counted, Sink};

// The edges behind the first low stretch.
fn after_first(edges: &[Edge]) -> &[Edge]
    ensures rest { result.now ≡ after_first edges.now }
    ensures shorter { length result.now ≤ length edges.now - 1 }
{
    match edges {
        [] => &[],
        [_] => &[],
        [_, _, rest @ ..] => rest,
    }
}

fn add_some<S: Sink>(
    out: &mut Counted<'_, S>,
    counts: &mut ReplayCounts,
    address: u8,
    piece: Option<Piece>,
)
    ensures { PlaysPieces address (option_to_list (option_map piece_of piece)) out.old out.new counts.old counts.new }
{
    match piece {
        None => {}
        Some(piece) => add_piece(out, counts, address, &piece),
    }
}

// Takes a low stretch, if there is one.
fn add_low<S: Sink>(
    out: &mut Counted<'_, S>,
    counts: &mut ReplayCounts,
    address: u8,
    end: u64,
    reader: &mut WideReader,
    low: Option<Low>,
)
    ensures { Reads address end reader.old low reader.new out.old out.new counts.old counts.new }
{
    match low {
        None => {}
        Some(low) => add_some(out, counts, address, reader.take(end, low)),
    }
}

// Adds what the device drove of all pieces, of edges that begin with a fall.
fn add_pieces<S: Sink>(
    out: &mut Counted<'_, S>,
    counts: &mut ReplayCounts,
    address: u8,
    edges: &[Edge],
    end: u64,
)
    ensures { PlaysPieces address (pieces_in edges.now end) out.old out.new counts.old counts.new }
{
    let mut reader = WideReader::new(0);
    let mut left = edges;
    'lows: while left.len() > 0 {
        add_low(out, counts, address, end, &mut reader, first_low(left));
        left = after_first(left);
    }
    let last = reader.last(end);
    add_some(out, counts, address, last);
    add_some(out, counts, address, reader.finish(end));
}

/// Adds the replay of the device of an address, by the edges of a capture, which begin with a fall, and its end.
pub(crate) fn add_replay<S: Sink>(
    out: &mut Counted<'_, S>,
    address: u8,
    edges: &[Edge],
    end: u64,
) -> ReplayCounts
    ensures counts { result ≡ counts_of address (pieces_in edges.now end) }
    ensures text { Adds out.old out.new (replay_of address end (pieces_in edges.now end)) }
{
    let mut counts = ReplayCounts::none();
    add_pieces(out, &mut counts, address, edges, end);
    add_left(out, counts.left_out);
    add_end(out, end);
    counts
}
