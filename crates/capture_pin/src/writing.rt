//! The pin file of a line.
ghost use Rattle.std.specs.Prelude.{◌%◌};
ghost use Rattle.text_core.specs.Adds.{Adds};
ghost use Rattle.capture_pin.specs.Text.{event_text, head};

use capture_core::nine_digits;
use text_core::{Counted, Piece, Sink};

/// Adds what cec-ctl writes first, and the line high.
pub fn add_head<S: Sink>(out: &mut Counted<'_, S>)
    ensures { Adds out.old out.new head }
{
    out.add_line(&[Piece::Text(
        "# cec-ctl --store-pin\n# version 1\n# start_monotonic 0.000000000\n# start_timeofday 0.000000\n# log_addr_mask 0x0000\n# phys_addr f.f.f.f\n0.000000000 1\n",
    )]);
}

/// Adds that the line falls at an instant.
pub fn add_fall<S: Sink>(out: &mut Counted<'_, S>, instant: u64)
    ensures { Adds out.old out.new (event_text instant 48) }
{
    let digits = nine_digits(instant % 1_000_000);
    out.add_line(&[
        Piece::Decimal(instant / 1_000_000),
        Piece::Text("."),
        Piece::Bytes(&digits),
        Piece::Text(" 0\n"),
    ]);
}

/// Adds that the line rises at an instant, or is high still.
pub fn add_rise<S: Sink>(out: &mut Counted<'_, S>, instant: u64)
    ensures { Adds out.old out.new (event_text instant 49) }
{
    let digits = nine_digits(instant % 1_000_000);
    out.add_line(&[
        Piece::Decimal(instant / 1_000_000),
        Piece::Text("."),
        Piece::Bytes(&digits),
        Piece::Text(" 1\n"),
    ]);
}
