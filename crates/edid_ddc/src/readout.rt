//! What a reading over DDC gives, segment by segment, as a text.
ghost use Rattle.std.specs.Prelude.{◌≡◌, ◌≤◌, ◌+◌, ◌*◌, ◌%◌, length};
ghost use Rattle.text_core.specs.Adds.{Adds};
ghost use Rattle.text_core.specs.Cut.{WrittenText};
ghost use Rattle.edid_ddc.specs.Readout.{block_text, heading, readout_text, row_text, rows_text, segment_text};

use crate::ddc::Ddc;
use crate::learn::read_block;
use text_core::{Counted, Piece, Sink, WriteFault};

/// The bytes of a row.
const ROW: usize = 16;

/// The rows of a block of 128 bytes.
const ROWS: u8 = 8;

// A row: the offset of its first byte, and its bytes.
fn add_row<S: Sink>(row: u8, bytes: &[u8], out: &mut Counted<'_, S>)
    requires { row ≤ 15 }
    ensures { Adds out.old out.new (row_text row bytes.now) }
{
    out.add_line(&[
        Piece::HexByte(row * 16),
        Piece::Text(": "),
        Piece::Hex(bytes),
        Piece::Text("\n"),
    ]);
}

// So many rows, of which the first has this number in its segment.
#[tactic(auto, using(text_core::proofs::Adding::nothing, crate::proofs::Rows::one_more))]
fn add_rows<S: Sink>(count: u8, row: u8, bytes: &[u8], out: &mut Counted<'_, S>)
    requires there { length bytes.now ≡ 16 * count }
    requires few { row + count ≤ 16 }
    ensures { Adds out.old out.new (rows_text count row bytes.now) }
{
    if count == 0 {
        return;
    }
    let (first, after) = bytes.split_at(ROW);
    add_row(row, first, out);
    add_rows(count - 1, row + 1, after, out);
}

// The line of a segment above its first block.
#[tactic(auto, using(text_core::proofs::Adding::nothing))]
fn add_heading<S: Sink>(block: u8, out: &mut Counted<'_, S>)
    ensures { Adds out.old out.new (heading block) }
{
    if block % 2 == 0 {
        out.add_line(&[
            Piece::Text("segment "),
            Piece::Decimal(u64::from(block / 2)),
            Piece::Text("\n"),
        ]);
    }
}

// A block, where its segment is acknowledged.
#[tactic(auto, using(text_core::proofs::Adding::nothing, text_core::proofs::Adding::then))]
fn add_block<S: Sink>(ddc: &mut Ddc, block: u8, out: &mut Counted<'_, S>)
    requires { block ≤ 3 }
    ensures same { ddc.new.bytes ≡ ddc.old.bytes }
    ensures text { Adds out.old out.new (block_text ddc.old.bytes block) }
{
    match read_block(ddc, block) {
        Ok(bytes) => {
            add_heading(block, out);
            add_rows(ROWS, block % 2 * ROWS, &bytes, out);
        }
        Err(_) => {}
    }
}

// A segment: two blocks.
#[tactic(auto, using(text_core::proofs::Adding::then))]
fn add_segment<S: Sink>(ddc: &mut Ddc, segment: u8, out: &mut Counted<'_, S>)
    requires { segment ≤ 1 }
    ensures same { ddc.new.bytes ≡ ddc.old.bytes }
    ensures text { Adds out.old out.new (segment_text ddc.old.bytes segment) }
{
    add_block(ddc, 2 * segment, out);
    add_block(ddc, 2 * segment + 1, out);
}

#[tactic(auto, using(text_core::proofs::Adding::then))]
fn add_segments<S: Sink>(ddc: &mut Ddc, out: &mut Counted<'_, S>)
    ensures { Adds out.old out.new (readout_text ddc.old.bytes) }
{
    add_segment(ddc, 0, out);
    add_segment(ddc, 1, out);
}

/// Writes what a reading over DDC gives: for each segment that is acknowledged a line `segment N`, and below it sixteen rows of an
/// offset and sixteen bytes in hex.
///
/// # Errors
///
/// A `put` took none. The front of the text was written, as long as the fault's count says.
pub fn write_readout<S: Sink>(ddc: &mut Ddc, out: &mut S) -> Result<u128, WriteFault>
    ensures { WrittenText (S.contents out.old) (S.contents out.new) (S.is_stuck out.old) (S.is_stuck out.new) (readout_text ddc.old.bytes) result }
{
    let mut text = Counted::new(out);
    add_segments(ddc, &mut text);
    let written = text.written();
    // No effect at run time. The proof reads what `out` holds from the sink that comes back.
    let _below = text.into_sink();
    written
}
