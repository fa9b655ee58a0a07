//! What a source mends in an EDID, and what it passes over, as lines.
ghost use Rattle.std.specs.Prelude.{◌≡◌, ◌≤◌, ◌+◌, ◌*◌, ◌<◌, None, length};
ghost use Rattle.text_core.specs.Adds.{Adds};
ghost use Rattle.text_core.specs.Cut.{WrittenText};
ghost use Rattle.edid_as_source.specs.Notes.{base_notes, block_note, blocks_notes, count_by, count_note, extension_notes, header_note, is_other, maker_by, maker_note, notes_text, rest_by, rest_note, revision_by, revision_note, room_after};
ghost use Rattle.edid_base.specs.Letters.{has_letters, is_number};
ghost use Rattle.edid_as_source.specs.Source.{refusal};

use crate::count::extension_count;
use crate::extensions::is_taken;
use crate::front::{HEADER, right_places};
use crate::source::refusal;
use edid_base::is_summed;
use text_core::{Counted, Piece, Sink, WriteFault, byte_at};

/// The bytes of a block.
const BLOCK: usize = 128;

/// As many extensions an EDID has at most.
const MOST: u8 = 3;

#[tactic(auto, using(text_core::proofs::Adding::nothing))]
fn add_header<S: Sink>(bytes: &[u8], out: &mut Counted<'_, S>)
    ensures { Adds out.old out.new (header_note bytes.now) }
{
    if right_places(bytes, HEADER) < HEADER.len() {
        out.add_line(&[Piece::Text("hdminet: mended base header\n")]);
    }
}

#[tactic(auto, using(text_core::proofs::Adding::nothing))]
fn add_revision_by<S: Sink>(revision: u8, out: &mut Counted<'_, S>)
    ensures { Adds out.old out.new (revision_by revision) }
{
    if revision == 3 || revision == 4 {
        return;
    }
    out.add_line(&[
        Piece::Text("hdminet: mended base revision "),
        Piece::Decimal(revision as u64),
        Piece::Text("\n"),
    ]);
}

fn add_revision<S: Sink>(bytes: &[u8], out: &mut Counted<'_, S>)
    ensures { Adds out.old out.new (revision_note bytes.now) }
{
    let revision = byte_at(bytes, 19);
    add_revision_by(revision, out);
}

fn is_number(number: u16) -> bool
    ensures { result ≡ is_number number }
{
    number >= 1 && number <= 26
}

// Whether a maker is three letters.
fn has_letters(high: u8, low: u8) -> bool
    ensures { result ≡ has_letters high low }
{
    let number = u16::from(high) * 256 + u16::from(low);
    number < 32768
        && is_number(number / 1024)
        && is_number(number / 32 % 32)
        && is_number(number % 32)
}

#[tactic(auto, using(text_core::proofs::Adding::nothing))]
fn add_maker_by<S: Sink>(high: u8, low: u8, out: &mut Counted<'_, S>)
    ensures { Adds out.old out.new (maker_by high low) }
{
    if !has_letters(high, low) {
        out.add_line(&[
            Piece::Text("hdminet: mended base maker "),
            Piece::HexByte(high),
            Piece::HexByte(low),
            Piece::Text("\n"),
        ]);
    }
}

fn add_maker<S: Sink>(bytes: &[u8], out: &mut Counted<'_, S>)
    ensures { Adds out.old out.new (maker_note bytes.now) }
{
    let high = byte_at(bytes, 8);
    let low = byte_at(bytes, 9);
    add_maker_by(high, low, out);
}

// Whether a count is another than that of byte 126.
fn is_other(count: u8, first: u8) -> bool
    ensures { result ≡ is_other count first }
{
    count != first
}

#[tactic(auto, using(text_core::proofs::Adding::nothing))]
fn add_count_by<S: Sink>(count: u8, first: u8, out: &mut Counted<'_, S>)
    ensures { Adds out.old out.new (count_by count first) }
{
    if is_other(count, first) {
        out.add_line(&[
            Piece::Text("hdminet: counted ext "),
            Piece::Decimal(count as u64),
            Piece::Text("\n"),
        ]);
    }
}

fn add_count<S: Sink>(bytes: &[u8], out: &mut Counted<'_, S>)
    ensures { Adds out.old out.new (count_note bytes.now) }
{
    add_count_by(extension_count(bytes), byte_at(bytes, 126), out);
}

#[tactic(auto, using(text_core::proofs::Adding::nothing))]
fn add_rest_by<S: Sink>(count: usize, out: &mut Counted<'_, S>)
    ensures { Adds out.old out.new (rest_by count) }
{
    if count != 0 {
        out.add_line(&[
            Piece::Text("hdminet: passed over "),
            Piece::Decimal(count as u64),
            Piece::Text(" bytes at the end\n"),
        ]);
    }
}

fn add_rest<S: Sink>(bytes: &[u8], out: &mut Counted<'_, S>)
    ensures { Adds out.old out.new (rest_note bytes.now) }
{
    let blocks = BLOCK * usize::from(extension_count(bytes)) + BLOCK;
    add_rest_by(bytes.len().saturating_sub(blocks), out);
}

#[tactic(auto, using(text_core::proofs::Adding::nothing))]
fn add_block<S: Sink>(room: u8, number: u64, block: &[u8], out: &mut Counted<'_, S>)
    ensures { Adds out.old out.new (block_note room number block.now) }
{
    if room == 0 {
        out.add_line(&[
            Piece::Text("hdminet: passed over ext "),
            Piece::Decimal(number),
            Piece::Text("\n"),
        ]);
        return;
    }
    if is_summed(block) {
        return;
    }
    if byte_at(block, 0) == 2 {
        out.add_line(&[
            Piece::Text("hdminet: mended ext "),
            Piece::Decimal(number),
            Piece::Text(" checksum\n"),
        ]);
    } else {
        out.add_line(&[
            Piece::Text("hdminet: passed over ext "),
            Piece::Decimal(number),
            Piece::Text(" checksum\n"),
        ]);
    }
}

// The blocks that there is room for after one.
fn room_after(room: u8, block: &[u8]) -> u8
    ensures { result ≡ room_after room block.now }
{
    if is_taken(block) {
        room.saturating_sub(1)
    } else {
        room
    }
}

#[tactic(auto, using(text_core::proofs::Adding::nothing, crate::proofs::Noting::one_more))]
fn add_blocks<S: Sink>(room: u8, number: u64, count: u8, rest: &[u8], out: &mut Counted<'_, S>)
    requires there { 128 * count ≤ length rest.now }
    requires few { number + count < 1000 }
    ensures { Adds out.old out.new (blocks_notes room number count rest.now) }
{
    if count == 0 {
        return;
    }
    let (block, after) = rest.split_at(BLOCK);
    add_block(room, number, block, out);
    add_blocks(room_after(room, block), number + 1, count - 1, after, out);
}

#[tactic(auto, using(text_core::proofs::Adding::then))]
fn add_base<S: Sink>(bytes: &[u8], out: &mut Counted<'_, S>)
    ensures { Adds out.old out.new (base_notes bytes.now) }
{
    add_header(bytes, out);
    add_revision(bytes, out);
    add_maker(bytes, out);
}

#[tactic(auto, using(text_core::proofs::Adding::then, crate::proofs::Accepting::room_for))]
fn add_extensions<S: Sink>(bytes: &[u8], out: &mut Counted<'_, S>)
    requires { refusal bytes.now ≡ None }
    ensures { Adds out.old out.new (extension_notes bytes.now) }
{
    let (_base, extensions) = bytes.split_at(BLOCK);
    add_count(bytes, out);
    add_rest(bytes, out);
    add_blocks(MOST, 1, extension_count(bytes), extensions, out);
}

#[tactic(auto, using(text_core::proofs::Adding::then, text_core::proofs::Adding::nothing))]
fn add_notes<S: Sink>(bytes: &[u8], out: &mut Counted<'_, S>)
    ensures { Adds out.old out.new (notes_text bytes.now) }
{
    match refusal(bytes) {
        Some(_) => {}
        None => {
            add_base(bytes, out);
            add_extensions(bytes, out);
        }
    }
}

/// Writes a line for each thing that a source mends in the EDID of these bytes, or passes over: the base block's header, its
/// revision, its maker, the count of extensions, bytes after those that are counted, and each extension in turn. Of bytes that no
/// source takes there is none.
///
/// # Errors
///
/// A `put` took none. The front of the lines was written, as long as the fault's count says.
pub fn write_notes<S: Sink>(bytes: &[u8], out: &mut S) -> Result<u128, WriteFault>
    ensures { WrittenText (S.contents out.old) (S.contents out.new) (S.is_stuck out.old) (S.is_stuck out.new) (notes_text bytes.now) result }
{
    let mut lines = Counted::new(out);
    add_notes(bytes, &mut lines);
    let written = lines.written();
    // No effect at run time. The proof reads what `out` holds from the sink that comes back.
    let _below = lines.into_sink();
    written
}
