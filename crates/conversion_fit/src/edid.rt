//! An EDID without the formats that its link does not carry.
ghost use Rattle.std.specs.Prelude.{◌≡◌, ◌≤◌, ◌+◌, ◌*◌, ◌++◌, List, length, flat_map};
ghost use Rattle.edid_cta.specs.declared.raw.Ext.{Ext as ExtValue};
ghost use Rattle.edid_base.specs.Timing.{timing_bytes};
ghost use Rattle.edid_cta.specs.Block.{block_bytes};
ghost use Rattle.conversion_fit.specs.Whole.{AreFitted, IsFitted, IsFittedBase, IsFittedCta, IsFittedExt, left_flags};
ghost use Rattle.conversion_fit.specs.Zeros.{zeros_after};

use crate::blocks::fitted_blocks;
use crate::displayid::fitted_raw;
use crate::tail::zeros_after;
use crate::timings::{leader, led_descriptors, led_timings, some_lost};
use arrayvec::ArrayVec;
use edid_base::{Base, Timing};
use edid_core::Edid;
use edid_cta::{Cta, DataBlock, Ext};

/// The bytes of a timing.
const TIMING: usize = 18;

/// The flags, where some timing goes or none.
fn left_flags(loses: bool, flags: u8) -> u8
    ensures { result ≡ left_flags loses flags }
{
    if loses { flags / 16 * 16 } else { flags }
}

/// How many bytes data blocks have.
fn count_of(blocks: &[DataBlock]) -> usize
    requires { length (flat_map block_bytes blocks.now) ≤ 123 }
    ensures { result ≡ length (flat_map block_bytes blocks.now) }
{
    match blocks {
        [] => 0,
        [block, rest @ ..] => 1 + block.payload.len() + count_of(rest),
    }
}

/// An extension of these parts, and zeros.
fn cta_with(flags: u8, blocks: ArrayVec<DataBlock, 123>, timings: ArrayVec<Timing, 6>) -> Cta
    requires { length (flat_map block_bytes blocks.items) + length (flat_map timing_bytes timings.items) ≤ 123 }
    ensures flags { result.flags ≡ flags }
    ensures blocks { result.blocks.items ≡ blocks.items }
    ensures timings { result.timings.items ≡ timings.items }
    ensures tail { result.tail.items ≡ zeros_after (length (flat_map block_bytes blocks.items) + length (flat_map timing_bytes timings.items)) }
{
    let count = count_of(blocks.as_slice()) + TIMING * timings.len();
    let tail = zeros_after(count);
    Cta {
        flags,
        blocks,
        timings,
        tail,
    }
}

/// An extension without the formats that the link does not carry.
#[inline(never)]
fn fitted_cta(base: &Base, extensions: &[Ext], cta: &Cta) -> Cta
    requires { length extensions.now ≤ 3 }
    ensures { IsFittedCta base.now extensions.now cta.now result }
{
    let flags = left_flags(some_lost(base, extensions), cta.flags);
    let blocks = fitted_blocks(extensions, cta.blocks.as_slice());
    let timings = led_timings(
        extensions,
        &base.descriptors,
        leader(extensions, base),
        cta.timings.as_slice(),
    );
    cta_with(flags, blocks, timings)
}

#[inline(never)]
fn fitted_ext(base: &Base, extensions: &[Ext], ext: &Ext) -> Ext
    requires { length extensions.now ≤ 3 }
    ensures { IsFittedExt base.now extensions.now ext.now result }
{
    match ext {
        Ext::Cta(cta) => Ext::Cta(fitted_cta(base, extensions, cta)),
        Ext::Bare(bare) => Ext::Bare(*bare),
        Ext::Raw(raw) => fitted_raw(extensions, raw),
    }
}

/// Appends extensions without the formats that the link does not carry.
fn add_fitted(out: &mut ArrayVec<Ext, 3>, base: &Base, extensions: &[Ext], some: &[Ext])
    requires few { length extensions.now ≤ 3 }
    requires room { length out.old.items + length some.now ≤ 3 }
    ensures fitted { (done : List ExtValue) → AreFitted base.now extensions.now done out.old.items → AreFitted base.now extensions.now (done ++ some.now) out.new.items }
    ensures len { length out.new.items ≡ length out.old.items + length some.now }
{
    if let [ext, rest @ ..] = some {
        out.push(fitted_ext(base, extensions, ext));
        add_fitted(out, base, extensions, rest);
    }
}

/// The base block without the timings that the link does not carry.
fn fitted_base(extensions: &[Ext], base: &Base) -> Base
    requires { length extensions.now ≤ 3 }
    ensures { IsFittedBase extensions.now base.now result }
{
    let mut fitted = base.copy();
    fitted.descriptors = led_descriptors(extensions, &base.descriptors, leader(extensions, base));
    fitted
}

/// The EDID without the formats that its link does not carry: without their video codes, timings and data blocks of DisplayID, and with zeros
/// after the timings that stay. Where the preferred timing goes, the one with the greatest picture stands in its place.
pub fn fitted_edid(edid: &Edid) -> Edid
    ensures { IsFitted edid.now result }
{
    let extensions = edid.extensions.as_slice();
    let mut fitted = ArrayVec::new();
    add_fitted(&mut fitted, &edid.base, extensions, extensions);
    Edid {
        base: fitted_base(extensions, &edid.base),
        extensions: fitted,
    }
}
