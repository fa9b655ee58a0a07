//! Where two captures differ.
ghost use Rattle.std.specs.Prelude.{◌≡◌, IfOk, OnOk, true};
ghost use Rattle.program_captures.specs.Compared.{ComparesAlike, IsReadOf, WritesAlike};

use crate::capture::{as_read, form_of, within_most};
use crate::fault::MonitorFault;
use capture_core::Capture;
use capture_difference::write_capture_difference;
use capture_forms::read_capture;
use cli_choice::CapturePair;
use line_reading::Windows;
use std::alloc::Global;
use text_core::Sink;

// The first of two captures, as it is read.
fn first_of(
    alloc: Global,
    pair: CapturePair,
    signal: &[u8],
    input: &[u8],
) -> Result<Capture, MonitorFault>
    ensures { IfOk result (λ kept. IsReadOf pair signal.now input.now kept) }
{
    let whole = read_capture(alloc, form_of(pair.form, input), signal, input)?;
    let kept = as_read(alloc, pair.inverted, pair.scale, pair.glitch, whole)?;
    Ok(kept)
}

// Why the second is not read.
fn of_second(fault: MonitorFault) -> MonitorFault {
    match fault {
        MonitorFault::Line(fault) => MonitorFault::OtherLine(fault),
        fault => fault,
    }
}

// The second of two captures, as it is read.
fn second_of(
    alloc: Global,
    pair: CapturePair,
    signal: &[u8],
    input: &[u8],
) -> Result<Capture, MonitorFault>
    ensures { IfOk result (λ kept. IsReadOf pair signal.now input.now kept) }
{
    match first_of(alloc, pair, signal, input) {
        Ok(kept) => Ok(kept),
        Err(fault) => Err(of_second(fault)),
    }
}

// Nothing, unless two captures differ.
fn if_same(same: bool) -> Result<(), MonitorFault>
    ensures { OnOk result (same ≡ true) }
{
    if same {
        Ok(())
    } else {
        Err(MonitorFault::Differ)
    }
}

// Writes where two captures differ. Where they do, that is a fault.
fn compare<W: Sink>(
    alloc: Global,
    pair: CapturePair,
    first: &Capture,
    second: &Capture,
    out: &mut W,
) -> Result<(), MonitorFault>
    ensures { OnOk result (ComparesAlike pair first.now second.now (W.contents out.old) (W.contents out.new)) }
{
    let windows = Windows::wider(within_most(pair.margin));
    let same = write_capture_difference(alloc, first, second, windows, pair.written, out)?;
    if_same(same)
}

/// Writes where two captures differ, of each the wire of a name, or the first where that is empty. Where they do, that is a fault, and
/// all of it was written.
#[inline(never)]
pub fn write_diff<W: Sink>(
    alloc: Global,
    pair: CapturePair,
    signal: &[u8],
    first: &[u8],
    second: &[u8],
    out: &mut W,
) -> Result<(), MonitorFault>
    ensures { OnOk result (WritesAlike pair signal.now first.now second.now (W.contents out.old) (W.contents out.new)) }
{
    let first = first_of(alloc, pair, signal, first)?;
    let second = second_of(alloc, pair, signal, second)?;
    compare(alloc, pair, &first, &second, out)
}
