//! The edges of the line that a session reports, as lines or as objects.
ghost use Rattle.std.specs.Prelude.{◌≡◌};
ghost use Rattle.line_wave.specs.Bounds.{latest_instant};
ghost use Rattle.text_core.specs.Adds.{Adds};
ghost use Rattle.live_session.specs.Edges.{edge_reported, edge_text, edges_reported, first_edge, is_in, pinned, pinned_by, stretch_reported};

use line_wave::{LATEST_INSTANT, Stretch};
use record_core::{Form, Value, add_record, cells};
use text_core::{Counted, Piece, Sink};

/// The instants from one on and before another.
#[derive(Clone, Copy, Debug, PartialEq, Eq)]
pub struct InstantRange {
    pub from: u64,
    pub until: u64,
}

// Adds an edge.
fn add_edge_record<S: Sink>(out: &mut Counted<'_, S>, form: Form, at: u64, level: u64)
    ensures { Adds out.old out.new (edge_text form at level) }
{
    let cells = cells![
        both("~ ", "at", Value::One(Piece::Decimal(at))),
        both(" ", "level", Value::One(Piece::Decimal(level))),
    ];
    add_record(out, form, "edge", &cells);
}

fn is_in(span: InstantRange, at: u64) -> bool
    ensures { result ≡ is_in span at }
{
    span.from <= at && at < span.until
}

// Adds an edge that lies in the span.
#[tactic(auto, using(text_core::proofs::Adding::nothing))]
fn add_edge<S: Sink>(out: &mut Counted<'_, S>, form: Form, span: InstantRange, at: u64, level: u64)
    ensures { Adds out.old out.new (edge_reported form span at level) }
{
    if is_in(span, at) {
        add_edge_record(out, form, at, level);
    }
}

// Adds the edges of a stretch that lie in the span.
#[tactic(auto, using(text_core::proofs::Adding::then))]
fn add_stretch<S: Sink>(out: &mut Counted<'_, S>, form: Form, span: InstantRange, stretch: Stretch)
    ensures { Adds out.old out.new (stretch_reported form span stretch) }
{
    add_edge(out, form, span, stretch.from, 0);
    add_edge(out, form, span, stretch.to, 1);
}

// Adds the edges of the stretches that lie in the span.
fn add_stretches<S: Sink>(
    out: &mut Counted<'_, S>,
    form: Form,
    span: InstantRange,
    stretches: &[Stretch],
)
    ensures { Adds out.old out.new (edges_reported form span stretches.now) }
{
    for stretch in stretches {
        add_stretch(out, form, span, *stretch);
    }
}

/// Adds the edges of a round that lie in the span, by its low stretches. Where the span has no instant they are not looked at.
pub(crate) fn add_edges<S: Sink>(
    out: &mut Counted<'_, S>,
    form: Form,
    span: InstantRange,
    stretches: &[Stretch],
)
    ensures { Adds out.old out.new (edges_reported form span stretches.now) }
{
    if span.until <= span.from {
        return;
    }
    add_stretches(out, form, span, stretches);
}

// A pull of a pin that is low, from an instant on.
fn open_pull(from: u64) -> Stretch
    ensures { result ≡ record { from = from; to = latest_instant } }
{
    Stretch {
        from,
        to: LATEST_INSTANT,
    }
}

// Adds the edges of a round, where the pin is low from an instant on, that lie in the span.
#[tactic(auto, using(text_core::proofs::Adding::then, text_core::proofs::Adding::nothing))]
fn add_pinned<S: Sink>(
    out: &mut Counted<'_, S>,
    form: Form,
    span: InstantRange,
    low: u64,
    stretches: &[Stretch],
)
    ensures { Adds out.old out.new (edges_reported form span (pinned low stretches.now)) }
{
    let Some((stretch, others)) = stretches.split_first() else {
        add_stretch(out, form, span, open_pull(low));
        return;
    };
    if stretch.to < low {
        add_stretch(out, form, span, *stretch);
        add_pinned(out, form, span, low, others);
    } else {
        add_stretch(out, form, span, open_pull(stretch.from.min(low)));
    }
}

/// Adds the edges of a round that lie in the span, by its low stretches, and by the instant from which on the pin is low, where
/// it is.
pub(crate) fn add_edges_by<S: Sink>(
    out: &mut Counted<'_, S>,
    form: Form,
    span: InstantRange,
    pin: Option<u64>,
    stretches: &[Stretch],
)
    ensures { Adds out.old out.new (edges_reported form span (pinned_by pin stretches.now)) }
{
    match pin {
        None => add_edges(out, form, span, stretches),
        Some(low) => add_pinned(out, form, span, low, stretches),
    }
}

// The first edge of a round at an instant or later, by its low stretches.
fn first_edge(from: u64, stretches: &[Stretch]) -> Option<u64>
    ensures { result ≡ first_edge from stretches.now }
{
    let Some((stretch, others)) = stretches.split_first() else {
        return None;
    };
    if from <= stretch.from {
        Some(stretch.from)
    } else if from <= stretch.to {
        Some(stretch.to)
    } else {
        first_edge(from, others)
    }
}

// The first edge at an instant or later of a round, where the pin is low from an instant on.
fn first_pinned(from: u64, low: u64, stretches: &[Stretch]) -> Option<u64>
    ensures { result ≡ first_edge from (pinned low stretches.now) }
{
    let Some((first, others)) = stretches.split_first() else {
        return first_edge(from, &[open_pull(low)]);
    };
    if low <= first.to {
        return first_edge(from, &[open_pull(first.from.min(low))]);
    }
    if from <= first.from {
        Some(first.from)
    } else if from <= first.to {
        Some(first.to)
    } else {
        first_pinned(from, low, others)
    }
}

/// The first edge of a round at an instant or later, by its low stretches, and by the instant from which on the pin is low, where
/// it is.
pub(crate) fn first_edge_by(from: u64, pin: Option<u64>, stretches: &[Stretch]) -> Option<u64>
    ensures { result ≡ first_edge from (pinned_by pin stretches.now) }
{
    match pin {
        None => first_edge(from, stretches),
        Some(low) => first_pinned(from, low, stretches),
    }
}
