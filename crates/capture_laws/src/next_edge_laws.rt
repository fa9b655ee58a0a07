//! Laws of the next edge.
ghost use Rattle.capture_laws.specs.NextEdges.{EdgesComeSoon, EdgesStay};

/// What [`next_edge`](line_wire::EdgeWire::next_edge) finds by the next pulse alone is the next edge whatever sparse pulses follow
/// that one.
pub fn edges_stay()
    ensures { EdgesStay }
{}

/// Where pulses are sparse, an edge that it finds comes less than 23,000 microseconds after what was heard: its clause `at` then has
/// the wire stand at most 23,000 later.
pub fn edges_come_soon()
    ensures { EdgesComeSoon }
{}
