//! What is said of a data block.
ghost use Rattle.std.specs.Prelude.{◌≡◌, ◌≤◌, ◌+◌, ◌*◌, [], ◌∷◌, length, drop, flat_map, IsTrue};
ghost use Rattle.text_core.specs.Adds.{Adds};
ghost use Rattle.edid_cta.specs.Block.{block_bytes};
ghost use Rattle.edid_fields.specs.Fields.{end_of, is_table};
ghost use Rattle.edid_fields.specs.Forms.{table_in_code};
ghost use Rattle.edid_tables.specs.Names.{block_name};
ghost use Rattle.edid_tables.specs.Frames.{frame_parts};
ghost use Rattle.conversion_fields.specs.Blocks.{block_part, block_said, blocks_parts, body_of, body_parts, cut_of, first_cut, front_end, front_parts, head_byte, left_of};
ghost use Rattle.conversion_fields.specs.Objects.{objects_text, part_object};
ghost use Rattle.conversion_fields.specs.Parts.{part_text, parts_text};
ghost use Rattle.conversion_fields.specs.Said.{all_said, end_in, front_said};

use crate::objects::{Lengths, add_bytes, add_fields, add_part};
use edid_cta::DataBlock;
use edid_fields::{Part, Place, cut_of, left_of, walk};
use edid_tables::{Frame, block_name, frame_parts, front_frame, layout_of, parts_of};
use text_core::{Counted, Sink};

/// The bytes after some.
pub(crate) fn after(bytes: &[u8], count: usize) -> &[u8]
    ensures { result.now ≡ drop count bytes.now }
{
    if count < bytes.len() {
        &bytes[count..]
    } else {
        &[]
    }
}

/// The byte of tag and length.
pub(crate) fn head_of(block: &DataBlock) -> [u8; 1]
    ensures { result ≡ head_byte block.now ∷ [] }
{
    [block.kind.number() * 32 + block.payload.len() as u8]
}

/// Where the fields of bytes end.
#[inline(never)]
pub(crate) fn end_of(table: &[Part], bytes: &[u8]) -> Place
    requires few { length bytes.now ≤ 31 }
    requires table { IsTrue (is_table (table_in_code table.now)) }
    ensures end { result ≡ end_of (table_in_code table.now) bytes.now }
    ensures within { result.at ≤ length bytes.now }
{
    walk(table, bytes).end
}

// Adds what a table says of bytes that begin at one of the block, as far as it goes, and returns where that is.
#[inline(never)]
fn add_front<S: Sink>(
    out: &mut Counted<'_, S>,
    number: u64,
    at: usize,
    table: &[Part],
    bytes: &[u8],
) -> usize
    requires start { at ≤ 6000 }
    requires few { length bytes.now ≤ 31 }
    requires table { IsTrue (is_table (table_in_code table.now)) }
    ensures text { Adds out.old out.new (objects_text number (front_said at (table_in_code table.now) bytes.now)) }
    ensures end { result ≡ end_in (table_in_code table.now) bytes.now }
    ensures within { result ≤ length bytes.now }
{
    let walked = walk(table, bytes);
    add_fields(out, number, at, walked.fields.as_slice());
    walked.end.at
}

/// Adds what a table says of bytes, and those that are left over.
pub(crate) fn add_all<S: Sink>(
    out: &mut Counted<'_, S>,
    number: u64,
    at: usize,
    table: &[Part],
    bytes: &[u8],
)
    requires start { at ≤ 6000 }
    requires few { length bytes.now ≤ 31 }
    requires table { IsTrue (is_table (table_in_code table.now)) }
    ensures { Adds out.old out.new (objects_text number (all_said at (table_in_code table.now) bytes.now)) }
{
    let end = add_front(out, number, at, table, bytes);
    add_bytes(
        out,
        number,
        at + end,
        "left over",
        "\"left\"",
        after(bytes, end),
    );
}

/// The table of the body of a data block.
pub(crate) fn body_parts(block: &DataBlock) -> &'static [Part]
    ensures value { table_in_code result.now ≡ body_parts block.now }
    ensures table { IsTrue (is_table (table_in_code result.now)) }
{
    match layout_of(block) {
        None => frame_parts(Frame::Payload),
        Some(layout) => parts_of(layout.2),
    }
}

/// The table of what says of which kind a data block is.
pub(crate) fn front_parts(block: &DataBlock) -> &'static [Part]
    ensures value { table_in_code result.now ≡ front_parts block.now }
    ensures table { IsTrue (is_table (table_in_code result.now)) }
{
    frame_parts(front_frame(block.kind))
}

/// The bytes of a data block after that.
pub(crate) fn body_of(block: &DataBlock) -> &[u8]
    ensures value { result.now ≡ body_of block.now }
    ensures few { length result.now ≤ 31 }
{
    let payload = block.payload.as_slice();
    let end = end_of(front_parts(block), payload);
    after(payload, end.at)
}

// What is cut has no body.
fn first_cut(front: usize, body: usize) -> usize
    ensures { result ≡ first_cut front body }
{
    if 0 < front { front } else { body }
}

fn lengths_of(block: &DataBlock) -> Lengths
    ensures cut { result.cut ≡ cut_of block.now }
    ensures left { result.left ≡ left_of block.now }
{
    let payload = block.payload.as_slice();
    let front = end_of(front_parts(block), payload);
    let body = body_of(block);
    let end = end_of(body_parts(block), body);
    Lengths {
        cut: first_cut(cut_of(payload, front), cut_of(body, end)),
        left: left_of(body, end),
    }
}

// Adds the object of a data block.
fn add_object<S: Sink>(out: &mut Counted<'_, S>, number: u64, at: usize, block: &DataBlock)
    ensures { Adds out.old out.new (part_object number at (block_bytes block.now) (block_name block.now) (cut_of block.now) (left_of block.now)) }
{
    let bytes = block.write();
    add_part(
        out,
        number,
        at,
        bytes.as_slice(),
        block_name(block),
        lengths_of(block),
    );
}

fn add_head<S: Sink>(out: &mut Counted<'_, S>, number: u64, at: usize, block: &DataBlock)
    requires start { at ≤ 6000 }
    ensures { Adds out.old out.new (objects_text number (all_said at (frame_parts Frame.Head) (head_byte block.now ∷ []))) }
{
    add_all(out, number, at, frame_parts(Frame::Head), &head_of(block));
}

/// Adds the object of a data block that begins at a byte, and those of its fields.
#[tactic(auto, unfolding(crate::specs::Parts::part_text))]
pub(crate) fn add_block<S: Sink>(
    out: &mut Counted<'_, S>,
    number: u64,
    at: usize,
    block: &DataBlock,
)
    requires start { at ≤ 5000 }
    ensures { Adds out.old out.new (part_text number (block_part at block.now)) }
{
    add_object(out, number, at, block);
    add_head(out, number, at, block);
    let payload = block.payload.as_slice();
    let end = add_front(out, number, at + 1, front_parts(block), payload);
    let body = after(payload, end);
    add_all(out, number, at + 1 + end, body_parts(block), body);
}

/// Adds the objects of data blocks that begin at a byte, and returns where they end.
#[tactic(auto, unfolding(crate::specs::Blocks::blocks_parts))]
pub(crate) fn add_blocks<S: Sink>(
    out: &mut Counted<'_, S>,
    number: u64,
    at: usize,
    blocks: &[DataBlock],
) -> usize
    requires few { at + 32 * length blocks.now ≤ 5000 }
    ensures text { Adds out.old out.new (parts_text number (blocks_parts at blocks.now)) }
    ensures end { result ≡ at + length (flat_map block_bytes blocks.now) }
{
    if let [block, others @ ..] = blocks {
        add_block(out, number, at, block);
        add_blocks(out, number, at + (1 + block.payload.len()), others)
    } else {
        at
    }
}
