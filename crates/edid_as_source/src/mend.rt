//! An EDID in which what follows from its other bytes is set right: the checksum of each block, the count of extensions, and the
//! HDMI Forum's override of it.
ghost use Rattle.std.specs.Prelude.{◌≡◌, ◌≤◌, ◌+◌, ◌*◌, ◌++◌, IfOk, IfErr, Ok, Err, length, slice_set};
ghost use Rattle.arrayvec.specs.ArrayVec.{array_vec_len};
ghost use Rattle.text_core.specs.Adds.{Adds};
ghost use Rattle.text_core.specs.Cut.{WrittenText};
ghost use Rattle.edid_as_source.specs.Mend.{base_mend_notes, byte_note, first_mend_notes, later_mend_notes, mend_notes, mend_notes_by, mended, recounted, recounted_by, summed_blocks};

use crate::count::{begins_with_override, has_length};
use crate::extensions::mended_extension;
use arrayvec::ArrayVec;
use edid_base::append;
use edid_core::EdidError;
use text_core::{Counted, Piece, Sink, WriteFault, after, byte_at};

/// The bytes of a block.
const BLOCK: usize = 128;

/// The place of the count in the base block.
const COUNT: usize = 126;

/// The place of the override's count.
const OVERRIDE: usize = 134;

// Puts another byte in a place, where there is one.
#[tactic(auto, using(crate::proofs::Mending::set_past))]
fn set_byte(bytes: &mut ArrayVec<u8, 512>, place: usize, byte: u8)
    ensures { bytes.new.items ≡ slice_set bytes.old.items place byte }
{
    if place < bytes.len() {
        bytes[place] = byte;
    }
}

// The bytes with the count of the extensions that are there, in byte 126 or in an override that is there.
fn recounted_by(by_override: bool, bytes: &[u8]) -> ArrayVec<u8, 512>
    requires least { 128 ≤ length bytes.now }
    requires most { length bytes.now ≤ 512 }
    ensures { result.items ≡ recounted_by by_override bytes.now }
{
    let there = (bytes.len() / BLOCK - 1) as u8;
    let mut counted: ArrayVec<u8, 512> = ArrayVec::new();
    append(&mut counted, bytes);
    if by_override {
        set_byte(&mut counted, COUNT, 1);
        set_byte(&mut counted, OVERRIDE, there);
    } else {
        set_byte(&mut counted, COUNT, there);
    }
    counted
}

fn recounted(overridden: bool, bytes: &[u8]) -> ArrayVec<u8, 512>
    requires least { 128 ≤ length bytes.now }
    requires most { length bytes.now ≤ 512 }
    ensures { result.items ≡ recounted overridden bytes.now }
{
    recounted_by(
        overridden && begins_with_override(after(bytes, BLOCK)),
        bytes,
    )
}

// Adds so many blocks, each with its right checksum.
#[tactic(auto, using(crate::proofs::Mending::summed_onto))]
fn push_summed(count: usize, rest: &[u8], made: &mut ArrayVec<u8, 512>)
    requires there { 128 * count ≤ length rest.now }
    requires room { array_vec_len made.old + 128 * count ≤ 512 }
    ensures { made.new.items ≡ made.old.items ++ summed_blocks count rest.now }
{
    if count == 0 {
        return;
    }
    let (block, others) = rest.split_at(BLOCK);
    append(made, &mended_extension(block));
    push_summed(count - 1, others, made);
}

/// The bytes of an EDID in which the last byte of each block makes its sum 0 modulo 256, and byte 126 counts the blocks after
/// the first. Where one goes by the HDMI Forum's override, one that the first extension begins with counts them, and byte 126
/// is 1.
///
/// # Errors
///
/// `Length` where there are not 128, 256, 384 or 512 bytes.
#[tactic(auto, using(crate::proofs::Mending::whole_blocks, crate::proofs::Mending::recounted_room))]
pub fn mended(overridden: bool, bytes: &[u8]) -> Result<ArrayVec<u8, 512>, EdidError>
    ensures ok { IfOk result (λ b. mended overridden bytes.now ≡ Ok b.items) }
    ensures refused { IfErr result (λ e. mended overridden bytes.now ≡ Err e) }
{
    if !has_length(bytes) {
        return Err(EdidError::Length);
    }
    let counted = recounted(overridden, bytes);
    let mut made: ArrayVec<u8, 512> = ArrayVec::new();
    push_summed(bytes.len() / BLOCK, counted.as_slice(), &mut made);
    Ok(made)
}

// Adds a line where a byte is another than it was.
#[tactic(auto, using(text_core::proofs::Adding::nothing))]
fn add_note<S: Sink>(place: usize, note: &str, bytes: &[u8], made: &[u8], out: &mut Counted<'_, S>)
    ensures { Adds out.old out.new (byte_note place note.now bytes.now made.now) }
{
    if byte_at(made, place) == byte_at(bytes, place) {
        return;
    }
    out.add_line(&[Piece::Text(note)]);
}

#[tactic(auto, using(text_core::proofs::Adding::then))]
fn add_base_notes<S: Sink>(bytes: &[u8], made: &[u8], out: &mut Counted<'_, S>)
    ensures { Adds out.old out.new (base_mend_notes bytes.now made.now) }
{
    add_note(COUNT, "hdminet: mended base count\n", bytes, made, out);
    add_note(127, "hdminet: mended base checksum\n", bytes, made, out);
}

#[tactic(auto, using(text_core::proofs::Adding::then))]
fn add_first_notes<S: Sink>(bytes: &[u8], made: &[u8], out: &mut Counted<'_, S>)
    ensures { Adds out.old out.new (first_mend_notes bytes.now made.now) }
{
    add_note(
        OVERRIDE,
        "hdminet: mended ext 1 override\n",
        bytes,
        made,
        out,
    );
    add_note(255, "hdminet: mended ext 1 checksum\n", bytes, made, out);
}

#[tactic(auto, using(text_core::proofs::Adding::then))]
fn add_later_notes<S: Sink>(bytes: &[u8], made: &[u8], out: &mut Counted<'_, S>)
    ensures { Adds out.old out.new (later_mend_notes bytes.now made.now) }
{
    add_note(383, "hdminet: mended ext 2 checksum\n", bytes, made, out);
    add_note(511, "hdminet: mended ext 3 checksum\n", bytes, made, out);
}

#[tactic(auto, using(text_core::proofs::Adding::then))]
fn add_made_notes<S: Sink>(bytes: &[u8], made: &[u8], out: &mut Counted<'_, S>)
    ensures { Adds out.old out.new (mend_notes_by bytes.now (Ok made.now)) }
{
    add_base_notes(bytes, made, out);
    add_first_notes(bytes, made, out);
    add_later_notes(bytes, made, out);
}

#[tactic(auto, using(text_core::proofs::Adding::nothing))]
fn add_mend_notes<S: Sink>(overridden: bool, bytes: &[u8], out: &mut Counted<'_, S>)
    ensures { Adds out.old out.new (mend_notes overridden bytes.now) }
{
    match mended(overridden, bytes) {
        Ok(made) => add_made_notes(bytes, made.as_slice(), out),
        Err(_) => {}
    }
}

/// Writes a line for each byte that `mended` sets right: the count, the override's, and the checksum of each block. Of bytes
/// that it refuses there is none.
///
/// # Errors
///
/// A `put` took none. The front of the lines was written, as long as the fault's count says.
pub fn write_mend_notes<S: Sink>(
    overridden: bool,
    bytes: &[u8],
    out: &mut S,
) -> Result<u128, WriteFault>
    ensures { WrittenText (S.contents out.old) (S.contents out.new) (S.is_stuck out.old) (S.is_stuck out.new) (mend_notes overridden bytes.now) result }
{
    let mut lines = Counted::new(out);
    add_mend_notes(overridden, bytes, &mut lines);
    let written = lines.written();
    // No effect at run time. The proof reads what `out` holds from the sink that comes back.
    let _below = lines.into_sink();
    written
}
