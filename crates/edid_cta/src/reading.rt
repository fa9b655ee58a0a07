//! Reading data blocks and timings.
ghost use Rattle.std.specs.Prelude.{◌≡◌, ◌≤◌, ◌++◌, [], List, ℕ, length, IsTrue, MatchOption, IfSome, IfNone, flat_map};
ghost use Rattle.edid_base.specs.Timing.{timing_bytes};
ghost use Rattle.edid_cta.specs.Block.{block_bytes};
ghost use Rattle.edid_cta.specs.Cta.{is_tail};
ghost use Rattle.edid_cta.specs.declared.block.DataBlock.{DataBlock as BlockValue};

use crate::block::{BlockKind, DataBlock};
use arrayvec::ArrayVec;
use edid_base::{Timing, part};

/// The data block in front, and the bytes after it.
fn first_block(bytes: &[u8]) -> Option<(DataBlock, &[u8])>
    ensures { MatchOption result
        ((b : BlockValue) (ys : List ℕ) → block_bytes b ++ ys ≡ bytes.now → ⊥)
        (λ r. block_bytes r.0 ++ r.1.now ≡ bytes.now) }
{
    let (head, rest) = bytes.split_first()?;
    let len = (*head % 32) as usize;
    if rest.len() < len {
        return None;
    }
    let mut payload = ArrayVec::new();
    let _ = payload.try_extend_from_slice(&rest[..len]);
    let kind = BlockKind::of_byte(*head);
    Some((DataBlock { kind, payload }, &rest[len..]))
}

/// Puts the data blocks that fill these bytes into an empty list, where there are some. They are large, and so read
/// where they stand.
pub fn read_blocks(bytes: &[u8], blocks: &mut ArrayVec<DataBlock, 123>) -> Option<()>
    requires few { length bytes.now ≤ 123 }
    requires fresh { blocks.old.items ≡ [] }
    ensures found { IfSome result (λ _. flat_map block_bytes blocks.new.items ≡ bytes.now) }
    ensures none { IfNone result ((bs : List BlockValue) → flat_map block_bytes bs ≡ bytes.now → ⊥) }
{
    let mut rest = bytes;
    while !rest.is_empty() {
        match first_block(rest) {
            None => return None,
            Some((block, more)) => {
                blocks.push(block);
                rest = more;
            }
        }
    }
    Some(())
}

/// The timings in front, up to six, and the bytes after them.
pub fn read_timings(bytes: &[u8]) -> (ArrayVec<Timing, 6>, &[u8])
    requires { length bytes.now ≤ 123 }
    ensures found { flat_map timing_bytes result.0.items ++ result.1.now ≡ bytes.now }
    ensures ended { IsTrue (is_tail result.1.now) }
{
    let mut timings = ArrayVec::new();
    let mut rest = bytes;
    while rest.len() >= 18 {
        match Timing::read(&part(rest, 0)) {
            None => return (timings, rest),
            Some(timing) => {
                timings.push(timing);
                rest = &rest[18..];
            }
        }
    }
    (timings, rest)
}
