//! The data block that a line gives.
ghost use Rattle.std.specs.Prelude.{◌≡◌, ◌≤◌, ℕ, List, length, MatchOption};
ghost use Rattle.edid_cta.specs.declared.block.DataBlock.{DataBlock as BlockValue};
ghost use Rattle.edid_texts.specs.Lines.{address_line, block_line};

use crate::line_to_value::bytes_of;
use arrayvec::ArrayVec;
use edid_cta::{BlockKind, DataBlock, has_identifier};
use edid_text_lines::{Fields, Keyword, Line};
use text_core::Phys;

/// The HDMI block with an address and the bytes after it.
fn hdmi_block(phys: Phys, bytes: &[u8]) -> DataBlock
    requires { length bytes.now ≤ 26 }
    ensures { block_line result ≡ record { word = Keyword.Hdmi; fields = Fields.Address phys (record { items = bytes.now }) } }
{
    let mut payload = ArrayVec::new();
    let _ = payload.try_extend_from_slice(&[0x03, 0x0c, 0x00, phys.high, phys.low]);
    let _ = payload.try_extend_from_slice(bytes);
    DataBlock {
        kind: BlockKind::Vendor,
        payload,
    }
}

/// The HDMI block that a line gives.
fn hdmi_of(line: &Line) -> Option<DataBlock>
    ensures { MatchOption result ((p : List ℕ) → address_line p ≡ line.now → ⊥) (λ b. block_line b ≡ line.now) }
{
    if line.word != Keyword::Hdmi {
        return None;
    }
    match &line.fields {
        Fields::Address(phys, after) => Some(hdmi_block(*phys, after.as_slice())),
        _ => None,
    }
}

/// The data block with these bytes.
fn plain_block(kind: BlockKind, bytes: &[u8]) -> DataBlock
    requires { length bytes.now ≤ 31 }
    ensures kind { result.kind ≡ kind }
    ensures payload { result.payload.items ≡ bytes.now }
{
    let mut payload = ArrayVec::new();
    let _ = payload.try_extend_from_slice(bytes);
    DataBlock { kind, payload }
}

/// The data block that a line gives.
pub fn block_of(line: &Line) -> Option<DataBlock>
    ensures { MatchOption result ((b : BlockValue) → block_line b ≡ line.now → ⊥) (λ b. block_line b ≡ line.now) }
{
    if let Some(block) = hdmi_of(line) {
        return Some(block);
    }
    let Keyword::Block(kind) = line.word else {
        return None;
    };
    let Some(bytes) = bytes_of(line, line.word) else {
        return None;
    };
    if bytes.len() > 31 || (kind == BlockKind::Vendor && has_identifier(bytes)) {
        return None;
    }
    Some(plain_block(kind, bytes))
}
