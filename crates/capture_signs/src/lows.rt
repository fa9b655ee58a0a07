//! Edges behind a low stretch.
ghost use Rattle.std.specs.Prelude.{◌≡◌, ◌-◌, ◌≤◌, length};
ghost use Rattle.piece_audit.specs.Wide.{after_first};

use line_wave::Edge;

/// The edges behind the first low stretch.
pub(crate) fn after_first(edges: &[Edge]) -> &[Edge]
    ensures rest { result.now ≡ after_first edges.now }
    ensures shorter { length result.now ≤ length edges.now - 1 }
{
    match edges {
        [] => &[],
        [_] => &[],
        [_, _, rest @ ..] => rest,
    }
}
