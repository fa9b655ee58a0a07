//! The edges of a line, each of its times multiplied.
ghost use Rattle.std.specs.Prelude.{◌≡◌, ◌≤◌, map, min, nat_le, true, IfErr, IfOk};
ghost use Rattle.line_wave.specs.Bounds.{latest_instant};
ghost use Rattle.capture_scale.specs.Scaled.{IsRefused, cut_edge, is_scalable, scaled_at, scaled_edges, shortest_kept};

use crate::factor::MOST_SCALE;
use capture_core::Capture;
use capture_smooth::smooth_edges;
use line_wave::{Edge, LATEST_INSTANT};
use std::alloc::{AllocError, Global};
use thiserror::Error;

/// Why a capture is not scaled.
#[derive(Debug, Drop, Error)]
pub enum ScaleError {
    /// The factor is none of 1 to 10,000,000, or the end would be past the limit of captures.
    #[error("scale out of range")]
    OutOfRange,
    #[error("no memory")]
    Memory,
}

impl From<AllocError> for ScaleError {
    ghost use Rattle.std.specs.Prelude.{◌≡◌};
    ghost use Rattle.capture_scale.specs.declared.scaling.ScaleError.TheVariants.{Memory};

    ghost from_gives = { λ _ error. error ≡ Memory };

    fn from(_error: AllocError) -> ScaleError {
        ScaleError::Memory
    }
}

// An instant that is scaled, at most the limit of captures.
fn cut_at(factor: u64, at: u64) -> u64
    ensures { result ≡ min (scaled_at factor at) latest_instant }
{
    let scaled = u128::from(at) * u128::from(factor) / 10_000;
    if scaled > u128::from(LATEST_INSTANT) {
        return LATEST_INSTANT;
    }
    scaled as u64
}

fn is_within(factor: u64, at: u64) -> bool
    ensures { result ≡ nat_le (scaled_at factor at) latest_instant }
{
    u128::from(at) * u128::from(factor) / 10_000 <= u128::from(LATEST_INSTANT)
}

fn is_scalable(factor: u64, end: u64) -> bool
    ensures { result ≡ is_scalable factor end }
{
    1 <= factor && factor <= MOST_SCALE && is_within(factor, end)
}

// The shortest pulse or gap that lasts a microsecond when it is scaled.
fn shortest_kept(factor: u64) -> u64
    requires { 1 ≤ factor }
    ensures { result ≡ shortest_kept factor }
{
    9_999 / factor + 1
}

fn cut_edge(factor: u64, edge: Edge) -> Edge
    ensures { result ≡ cut_edge factor edge }
{
    Edge {
        at: cut_at(factor, edge.at),
        low: edge.low,
    }
}

// Edges that are scaled.
fn cut_edges(alloc: Global, factor: u64, edges: &[Edge]) -> Result<Vec<Edge>, AllocError>
    ensures { IfOk result (λ kept. kept.items ≡ map (cut_edge factor) edges.now) }
{
    let mut kept = Vec::new(alloc);
    for edge in edges {
        kept.push(cut_edge(factor, *edge))?;
    }
    Ok(kept)
}

/// The capture with each of its times multiplied by so many ten-thousandths and cut to whole microseconds. Pulses and gaps that would
/// be shorter than a microsecond are left out.
///
/// # Errors
///
/// The factor is none of 1 to 10,000,000, or the end would be past the limit of captures; or no memory.
pub fn scale(alloc: Global, capture: &Capture, factor: u64) -> Result<Capture, ScaleError>
    ensures edges { IfOk result (λ c. c.edges ≡ scaled_edges factor capture.now.edges) }
    ensures end { IfOk result (λ c. c.end ≡ scaled_at factor capture.now.end) }
    ensures range { IfOk result (λ _. is_scalable factor capture.now.end ≡ true) }
    ensures refused { IfErr result (IsRefused factor capture.now.end) }
{
    if !is_scalable(factor, capture.end()) {
        return Err(ScaleError::OutOfRange);
    }
    let long = smooth_edges(alloc, capture, shortest_kept(factor))?;
    let kept = cut_edges(alloc, factor, long.edges())?;
    Ok(Capture::new(kept, cut_at(factor, capture.end())))
}
