//! The data blocks that a receiver answers with.
ghost use Rattle.std.specs.Prelude.{◌≡◌, ◌≤◌, ◌+◌, ◌++◌, length, find, flat_map, IfNone, IfSome, None, Some};
ghost use Rattle.arrayvec.specs.ArrayVec.{array_vec_len};
ghost use Rattle.edid_cta.specs.Block.{block_bytes};
ghost use Rattle.edid_merge.specs.Blocks.{blocks_of, both_of, by_bits, by_numbers, by_whose, colour_blocks, further_blocks, link_blocks, main_blocks, merged_blocks, one_of};
ghost use Rattle.edid_merge.specs.Subjects.{is_of};

use crate::mixing::{CAPABILITY, COLOURS, FORUM, HDMI, SPEAKERS, Way, add_mixed};
use crate::subject::{Subject, is_of};
use crate::table::{Bits, Numbers, Table, Whose};
use arrayvec::ArrayVec;
use edid_base::append;
use edid_cta::DataBlock;

/// Room for all blocks, of which each kind is at most as long as an extension.
const ROOM: usize = 1536;

/// The blocks of the display and those of the receiver itself, each as many as an extension has room for.
#[derive(Drop)]
struct Sides<'a> {
    display: &'a [DataBlock],
    own: &'a [DataBlock],
    ghost display_fits: { length (flat_map block_bytes display.now) ≤ 123 },
    ghost own_fits: { length (flat_map block_bytes own.now) ≤ 123 },
}

// Adds the blocks of a kind.
fn add_blocks(out: &mut ArrayVec<u8, ROOM>, subject: Subject, blocks: &[DataBlock])
    requires { array_vec_len out.old + length (flat_map block_bytes blocks.now) ≤ 1536 }
    ensures items { out.new.items ≡ out.old.items ++ blocks_of subject blocks.now }
    ensures len { array_vec_len out.new ≤ array_vec_len out.old + length (flat_map block_bytes blocks.now) }
{
    let [block, rest @ ..] = blocks else {
        return;
    };
    if is_of(subject, block) {
        append(out, block.write().as_slice());
        add_blocks(out, subject, rest);
    } else {
        add_blocks(out, subject, rest);
    }
}

// The first block of a kind.
fn first_of(subject: Subject, blocks: &[DataBlock]) -> Option<&DataBlock>
    ensures none { IfNone result (find (is_of subject) blocks.now ≡ None) }
    ensures some { IfSome result (λ b. find (is_of subject) blocks.now ≡ Some b.now) }
{
    match blocks {
        [] => None,
        [block, rest @ ..] => {
            if is_of(subject, block) {
                Some(block)
            } else {
                first_of(subject, rest)
            }
        }
    }
}

// Adds two blocks as one.
fn add_one(out: &mut ArrayVec<u8, ROOM>, ways: &[Way], display: &DataBlock, own: &DataBlock)
    requires { array_vec_len out.old + 123 ≤ 1536 }
    ensures items { out.new.items ≡ out.old.items ++ both_of ways.now (Some display.now) (Some own.now) }
    ensures len { array_vec_len out.new ≤ array_vec_len out.old + 123 }
{
    out.push(display.kind.number() * 32 + display.payload.len() as u8);
    add_mixed(
        out,
        ways,
        display.payload.as_slice(),
        own.payload.as_slice(),
    );
}

// Adds the first blocks of a kind as one, where both have one.
fn add_both(out: &mut ArrayVec<u8, ROOM>, ways: &[Way], subject: Subject, sides: &Sides<'_>)
    requires { array_vec_len out.old + 123 ≤ 1536 }
    ensures items { out.new.items ≡ out.old.items ++ one_of ways.now subject sides.now.display.now sides.now.own.now }
    ensures len { array_vec_len out.new ≤ array_vec_len out.old + 123 }
{
    match first_of(subject, sides.display) {
        None => {}
        Some(shown) => match first_of(subject, sides.own) {
            None => {}
            Some(known) => add_one(out, ways, shown, known),
        },
    }
}

fn add_by_whose(out: &mut ArrayVec<u8, ROOM>, row: Whose, subject: Subject, sides: &Sides<'_>)
    requires { array_vec_len out.old + 123 ≤ 1536 }
    ensures items { out.new.items ≡ out.old.items ++ by_whose row subject sides.now.display.now sides.now.own.now }
    ensures len { array_vec_len out.new ≤ array_vec_len out.old + 123 }
{
    match row {
        Whose::Keep => add_blocks(out, subject, sides.display),
        Whose::Own => add_blocks(out, subject, sides.own),
    }
}

fn add_by_bits(
    out: &mut ArrayVec<u8, ROOM>,
    row: Bits,
    ways: &[Way],
    subject: Subject,
    sides: &Sides<'_>,
)
    requires { array_vec_len out.old + 123 ≤ 1536 }
    ensures items { out.new.items ≡ out.old.items ++ by_bits row ways.now subject sides.now.display.now sides.now.own.now }
    ensures len { array_vec_len out.new ≤ array_vec_len out.old + 123 }
{
    match row {
        Bits::Keep => add_blocks(out, subject, sides.display),
        Bits::Own => add_blocks(out, subject, sides.own),
        Bits::And => add_both(out, ways, subject, sides),
    }
}

fn add_by_numbers(
    out: &mut ArrayVec<u8, ROOM>,
    row: Numbers,
    ways: &[Way],
    subject: Subject,
    sides: &Sides<'_>,
)
    requires { array_vec_len out.old + 123 ≤ 1536 }
    ensures items { out.new.items ≡ out.old.items ++ by_numbers row ways.now subject sides.now.display.now sides.now.own.now }
    ensures len { array_vec_len out.new ≤ array_vec_len out.old + 123 }
{
    match row {
        Numbers::Keep => add_blocks(out, subject, sides.display),
        Numbers::Own => add_blocks(out, subject, sides.own),
        Numbers::Least => add_both(out, ways, subject, sides),
    }
}

// Adds the blocks of sound and pictures.
fn add_main(out: &mut ArrayVec<u8, ROOM>, table: &Table, sides: &Sides<'_>)
    requires { array_vec_len out.old + 369 ≤ 1536 }
    ensures items { out.new.items ≡ out.old.items ++ main_blocks table.now sides.now.display.now sides.now.own.now }
    ensures len { array_vec_len out.new ≤ array_vec_len out.old + 369 }
{
    add_by_whose(out, table.video, Subject::Video, sides);
    add_by_whose(out, table.audio, Subject::Audio, sides);
    add_by_bits(out, table.speakers, SPEAKERS, Subject::Speakers, sides);
}

// Adds the blocks of the link.
fn add_link(out: &mut ArrayVec<u8, ROOM>, table: &Table, sides: &Sides<'_>)
    requires { array_vec_len out.old + 246 ≤ 1536 }
    ensures items { out.new.items ≡ out.old.items ++ link_blocks table.now sides.now.display.now sides.now.own.now }
    ensures len { array_vec_len out.new ≤ array_vec_len out.old + 246 }
{
    add_by_numbers(out, table.hdmi, HDMI, Subject::Hdmi, sides);
    add_by_numbers(out, table.forum, FORUM, Subject::Forum, sides);
}

// Adds the blocks of colours.
fn add_colours(out: &mut ArrayVec<u8, ROOM>, table: &Table, sides: &Sides<'_>)
    requires { array_vec_len out.old + 369 ≤ 1536 }
    ensures items { out.new.items ≡ out.old.items ++ colour_blocks table.now sides.now.display.now sides.now.own.now }
    ensures len { array_vec_len out.new ≤ array_vec_len out.old + 369 }
{
    add_by_bits(
        out,
        table.capability,
        CAPABILITY,
        Subject::Capability,
        sides,
    );
    add_by_bits(out, table.colorimetry, COLOURS, Subject::Colorimetry, sides);
    add_by_bits(out, table.hdr, COLOURS, Subject::Hdr, sides);
}

// Adds what makers have added, and what is not known.
fn add_further(out: &mut ArrayVec<u8, ROOM>, table: &Table, sides: &Sides<'_>)
    requires { array_vec_len out.old + 369 ≤ 1536 }
    ensures items { out.new.items ≡ out.old.items ++ further_blocks table.now sides.now.display.now sides.now.own.now }
    ensures len { array_vec_len out.new ≤ array_vec_len out.old + 369 }
{
    add_by_whose(out, table.maker_video, Subject::MakerVideo, sides);
    add_by_whose(out, table.maker_audio, Subject::MakerAudio, sides);
    add_by_whose(out, table.other, Subject::Other, sides);
}

/// The bytes of the data blocks that a receiver answers with, by a table, of the display's and of its own. They may be more than
/// an extension has room for.
#[tactic(auto, unfolding(crate::specs::Blocks::merged_blocks))]
pub fn merged_blocks(table: &Table, display: &[DataBlock], own: &[DataBlock]) -> ArrayVec<u8, ROOM>
    requires display { length (flat_map block_bytes display.now) ≤ 123 }
    requires own { length (flat_map block_bytes own.now) ≤ 123 }
    ensures { result.items ≡ merged_blocks table.now display.now own.now }
{
    let sides = Sides { display, own };
    let mut out = ArrayVec::new();
    add_main(&mut out, table, &sides);
    add_link(&mut out, table, &sides);
    add_colours(&mut out, table, &sides);
    add_further(&mut out, table, &sides);
    out
}
