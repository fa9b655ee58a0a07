//! Each line adds to a draft.
ghost use Rattle.std.specs.Prelude.{◌≡◌, ◌⊎◌, ◌<◌, ◌∷◌, [], ◌++◌, ◌≤◌, false, true, IsTrue, MatchBool, MatchOption, length};
ghost use Rattle.arrayvec.specs.ArrayVec.{array_vec_len};
ghost use Rattle.edid_cta.specs.Block.{block_bytes};
ghost use Rattle.edid_cta.specs.declared.raw.RawExt.{RawExt as RawValue};
ghost use Rattle.edid_texts.specs.Drafts.{draft_lines, draft_of, lines_so_far, Follows, BlockFits, TimingFits, TailFits};
ghost use Rattle.edid_texts.specs.Lines.{block_line, timing_line, bytes_line, ext_lines, part_lines, edid_lines};
ghost use Rattle.edid_texts.specs.Tails.{padded_bytes, fills, ends};
ghost use Rattle.edid_texts.specs.Words.{place_of};
ghost use Rattle.edid_core.specs.declared.edid.Edid.{Edid as EdidValue};

use crate::base_steps::{blank, put_base};
use crate::draft::EdidDraft;
use crate::line_to_block::block_of;
use crate::line_to_value::{array_from, bytes_of, one_byte, timing_of};
use crate::place::NextLine;
use crate::stage::Stage;
use crate::tail::{filled, tail_of};
use arrayvec::ArrayVec;
use edid_base::{Base, Timing};
use edid_core::Edid;
use edid_cta::{Bare, Cta, DataBlock, Ext, RawExt, read_ext};
use edid_text_lines::{Keyword, Line};
use std::mem;

/// One more line of the base block, of which so many were read.
fn put_begun(draft: &mut EdidDraft, number: usize, line: &Line) -> bool
    requires { draft.old.stage ≡ Stage.Begun number }
    ensures { MatchBool result (lines_so_far draft.new ≡ lines_so_far draft.old ++ line.now ∷ []) (Follows (lines_so_far draft.old) line.now → ⊥) }
{
    if !put_base(&mut draft.base, number, line) {
        return false;
    }
    if number < 22 {
        draft.stage = Stage::Begun(number + 1);
        return true;
    }
    draft.stage = Stage::Whole;
    true
}

/// The EDID of these blocks.
fn edid_of(base: Base, extensions: ArrayVec<Ext, 3>) -> Edid
    requires { length extensions.items ≤ 3 }
    ensures { edid_lines result ≡ part_lines base extensions.items }
{
    let mut base = base;
    base.extensions = extensions.len() as u8;
    Edid { base, extensions }
}

/// The extension of no known form that a line gives.
fn raw_ext_of(line: &Line) -> Option<RawExt>
    ensures { MatchOption result ((r : RawValue) → bytes_line Keyword.Ext r.bytes ≡ line.now → ⊥) (λ r. bytes_line Keyword.Ext r.bytes ≡ line.now) }
{
    let Some(bytes) = bytes_of(line, Keyword::Ext) else {
        return None;
    };
    if bytes.len() != 128 {
        return None;
    }
    match read_ext(&array_from(bytes)) {
        Ok(Ext::Raw(raw)) => Some(raw),
        _ => None,
    }
}

/// Opens a CTA block.
fn open(draft: &mut EdidDraft, flags: u8)
    requires whole { draft.old.stage ≡ Stage.Whole }
    requires room { length draft.old.extensions.items < 3 }
    ensures { lines_so_far draft.new ≡ lines_so_far draft.old ++ bytes_line Keyword.Cta (flags ∷ []) ∷ [] }
{
    draft.blocks.clear();
    draft.timings.clear();
    draft.stage = Stage::Opened { flags, left: 123 };
}

/// One more whole extension.
fn put_extension(draft: &mut EdidDraft, ext: Ext)
    requires { length draft.old.extensions.items < 3 }
    ensures { lines_so_far draft.new ≡ part_lines draft.old.base draft.old.extensions.items ++ ext_lines ext }
{
    draft.extensions.push(ext);
    draft.stage = Stage::Whole;
}

/// The first line of an extension, where there is room for one.
fn put_whole(draft: &mut EdidDraft, line: &Line) -> bool
    requires { draft.old.stage ≡ Stage.Whole }
    ensures { MatchBool result (lines_so_far draft.new ≡ lines_so_far draft.old ++ line.now ∷ []) (Follows (lines_so_far draft.old) line.now → ⊥) }
{
    if draft.extensions.len() == 3 {
        return false;
    }
    if let Some(flags) = one_byte(line, Keyword::Cta) {
        open(draft, flags);
        return true;
    }
    if let Some(flags) = one_byte(line, Keyword::CtaNone) {
        draft.stage = Stage::Bare(flags);
        return true;
    }
    let Some(raw) = raw_ext_of(line) else {
        return false;
    };
    put_extension(draft, Ext::Raw(raw));
    true
}

/// A data block, where there is room.
fn put_block(draft: &mut EdidDraft, flags: u8, left: usize, block: DataBlock) -> bool
    requires opened { draft.old.stage ≡ Stage.Opened flags left }
    requires first { array_vec_len draft.old.timings ≡ 0 }
    ensures { MatchBool result (lines_so_far draft.new ≡ lines_so_far draft.old ++ block_line block ∷ []) (left < length (block_bytes block)) }
{
    let len = block.payload.len() + 1;
    if left < len {
        return false;
    }
    draft.blocks.push(block);
    draft.stage = Stage::Opened {
        flags,
        left: left - len,
    };
    true
}

/// A timing, where there is room.
fn put_timing(draft: &mut EdidDraft, flags: u8, left: usize, timing: Timing) -> bool
    requires { draft.old.stage ≡ Stage.Opened flags left }
    ensures { MatchBool result (lines_so_far draft.new ≡ lines_so_far draft.old ++ timing_line timing ∷ []) (left < 18) }
{
    if left < 18 {
        return false;
    }
    draft.timings.push(timing);
    draft.stage = Stage::Opened {
        flags,
        left: left - 18,
    };
    true
}

/// A tail, where it ends the block.
fn put_tail(draft: &mut EdidDraft, flags: u8, left: usize, bytes: &[u8]) -> bool
    requires { draft.old.stage ≡ Stage.Opened flags left }
    ensures { MatchBool result (lines_so_far draft.new ≡ lines_so_far draft.old ++ bytes_line Keyword.Tail bytes.now ∷ []) (ends left bytes.now ≡ false) }
{
    let Some(tail) = tail_of(left, bytes) else {
        return false;
    };
    let cta = Cta {
        flags,
        blocks: mem::replace(&mut draft.blocks, ArrayVec::new()),
        timings: mem::replace(&mut draft.timings, ArrayVec::new()),
        tail,
    };
    draft.stage = Stage::Whole;
    put_extension(draft, Ext::Cta(cta));
    true
}

/// A timing or the tail.
fn put_after_blocks(draft: &mut EdidDraft, flags: u8, left: usize, line: &Line) -> bool
    requires { draft.old.stage ≡ Stage.Opened flags left }
    ensures { MatchBool result (lines_so_far draft.new ≡ lines_so_far draft.old ++ line.now ∷ []) (TimingFits left line.now ⊎ TailFits left line.now → ⊥) }
{
    if let Some(timing) = timing_of(line) {
        return put_timing(draft, flags, left, timing);
    }
    let Some(bytes) = bytes_of(line, Keyword::Tail) else {
        return false;
    };
    put_tail(draft, flags, left, bytes)
}

/// A data block, a timing or the tail.
fn put_in_blocks(draft: &mut EdidDraft, flags: u8, left: usize, line: &Line) -> bool
    requires opened { draft.old.stage ≡ Stage.Opened flags left }
    requires first { array_vec_len draft.old.timings ≡ 0 }
    ensures { MatchBool result (lines_so_far draft.new ≡ lines_so_far draft.old ++ line.now ∷ []) (BlockFits left line.now ⊎ (TimingFits left line.now ⊎ TailFits left line.now) → ⊥) }
{
    match block_of(line) {
        Some(block) => put_block(draft, flags, left, block),
        None => put_after_blocks(draft, flags, left, line),
    }
}

/// One more line of a CTA block. Its data blocks stand before its timings.
fn put_opened(draft: &mut EdidDraft, flags: u8, left: usize, line: &Line) -> bool
    requires { draft.old.stage ≡ Stage.Opened flags left }
    ensures { MatchBool result (lines_so_far draft.new ≡ lines_so_far draft.old ++ line.now ∷ []) (Follows (lines_so_far draft.old) line.now → ⊥) }
{
    if draft.timings.is_empty() {
        put_in_blocks(draft, flags, left, line)
    } else {
        put_after_blocks(draft, flags, left, line)
    }
}

/// The extension that has a tail alone.
fn bare_of(flags: u8, bytes: &[u8]) -> Option<Bare>
    ensures { MatchOption result (fills 123 bytes.now ≡ false) (λ b. (b.flags ≡ flags) × (fills 123 bytes.now ≡ true) × (b.tail ≡ padded_bytes 123 bytes.now)) }
{
    let Some(tail) = filled(123, bytes) else {
        return None;
    };
    Some(Bare {
        flags,
        tail: array_from(tail.as_slice()),
    })
}

/// The tail that stands alone.
fn put_bare(draft: &mut EdidDraft, flags: u8, line: &Line) -> bool
    requires { draft.old.stage ≡ Stage.Bare flags }
    ensures { MatchBool result (lines_so_far draft.new ≡ lines_so_far draft.old ++ line.now ∷ []) (Follows (lines_so_far draft.old) line.now → ⊥) }
{
    let Some(bytes) = bytes_of(line, Keyword::Tail) else {
        return false;
    };
    let Some(bare) = bare_of(flags, bytes) else {
        return false;
    };
    put_extension(draft, Ext::Bare(bare));
    true
}

impl EdidDraft {
    /// No lines.
    pub fn new() -> EdidDraft
        ensures { draft_lines (draft_of result) ≡ [] }
    {
        EdidDraft {
            base: blank(),
            extensions: ArrayVec::new(),
            blocks: ArrayVec::new(),
            timings: ArrayVec::new(),
            stage: Stage::Begun(0),
        }
    }

    /// Where the next line stands.
    pub fn place(&self) -> NextLine
        ensures { result ≡ place_of (draft_of self.now) }
    {
        match self.stage {
            Stage::Begun(number) => NextLine::InBase(number),
            Stage::Whole => {
                if self.extensions.len() < 3 {
                    NextLine::AtExt
                } else {
                    NextLine::AtEnd
                }
            }
            Stage::Opened { left, .. } => {
                if self.timings.is_empty() {
                    NextLine::InBlocks(left)
                } else {
                    NextLine::InTimings(left)
                }
            }
            Stage::Bare(_) => NextLine::AtTail,
        }
    }

    /// Takes one more line, where some EDID's lines go on with it. Returns whether some do; else the lines are those before.
    pub fn put(&mut self, line: &Line) -> bool
        ensures { MatchBool result (draft_lines (draft_of self.new) ≡ draft_lines (draft_of self.old) ++ line.now ∷ []) (Follows (draft_lines (draft_of self.old)) line.now → ⊥) }
    {
        match self.stage {
            Stage::Begun(number) => put_begun(self, number, line),
            Stage::Whole => put_whole(self, line),
            Stage::Opened { flags, left } => put_opened(self, flags, left, line),
            Stage::Bare(flags) => put_bare(self, flags, line),
        }
    }

    /// Whether the lines so far are all lines of an EDID.
    pub fn is_whole(&self) -> bool
        ensures whole { IsTrue result → self.now.stage ≡ Stage.Whole }
        ensures begun { result ≡ false → (e : EdidValue) → edid_lines e ≡ draft_lines (draft_of self.now) → ⊥ }
    {
        match self.stage {
            Stage::Whole => true,
            _ => false,
        }
    }

    /// The EDID whose lines these are all.
    pub fn finish(self) -> Edid
        requires { self.stage ≡ Stage.Whole }
        ensures { edid_lines result ≡ draft_lines (draft_of self) }
    {
        edid_of(self.base, self.extensions)
    }
}
