//! Whether it is known what there is to remark of a reading, whatever comes later.
ghost use Rattle.std.specs.Prelude.{◌≡◌, ◌≤◌, ◌⊎◌};
ghost use Rattle.line_reading.specs.Reports.{listed_as};
ghost use Rattle.audit_core.specs.Audit.{falls_until};
ghost use Rattle.audit_widths.specs.Lows.{gone_to, place_of};
ghost use Rattle.follow_audit.specs.Settled.{has_next, is_drive_known, is_over, is_settled, later};

use audit_widths::Cursor;
use line_frames::{Ending, Reading};
use line_wave::Edge;

/// The later of two instants.
pub(crate) fn later(a: u64, b: u64) -> u64
    ensures value { result ≡ later a b }
    ensures after { (a ≤ result) × (b ≤ result) }
    ensures either { (result ≡ a) ⊎ (result ≡ b) }
{
    if a < b { b } else { a }
}

// The instant before which the slots of a reading fall.
fn falls_until(ending: Ending, at: u64) -> u64
    ensures { result ≡ falls_until ending at }
{
    match ending {
        Ending::Open => at.saturating_add(1),
        Ending::Complete | Ending::Short | Ending::Silent | Ending::BadStart | Ending::Long => at,
    }
}

// Whether the line falls at an instant or later, of edges that begin with a fall.
fn has_next(until: u64, edges: &[Edge]) -> bool
    ensures { result ≡ has_next until edges.now }
{
    let [fall, after @ ..] = edges else {
        return false;
    };
    if fall.at >= until {
        return true;
    }
    let [_, falls @ ..] = after else {
        return false;
    };
    has_next(until, falls)
}

fn is_over(edges: &[Edge]) -> bool
    ensures { result ≡ is_over edges.now }
{
    match edges {
        [_, _, ..] => true,
        _ => false,
    }
}

fn is_drive_known(ending: Ending, edges: &[Edge]) -> bool
    ensures { result ≡ is_drive_known ending edges.now }
{
    match ending {
        Ending::Short => is_over(edges),
        Ending::Complete | Ending::Silent | Ending::BadStart | Ending::Long | Ending::Open => true,
    }
}

/// The edges at an instant or later.
pub(crate) fn edges_from(edges: &[Edge], at: u64) -> Cursor
    ensures { place_of result ≡ gone_to at edges.now }
{
    let mut cursor = Cursor::new(edges);
    cursor.go_to(at);
    cursor
}

/// Whether these edges, from its fall on, say all that there is to remark of a reading.
pub(crate) fn is_settled(reading: &Reading, edges: &[Edge]) -> bool
    ensures { result ≡ is_settled (listed_as reading.now) edges.now }
{
    has_next(falls_until(reading.ending, reading.at), edges)
        && is_drive_known(reading.ending, edges_from(edges, reading.at).edges())
}
