//! The EDID that a receiver answers with.
ghost use Rattle.std.specs.Prelude.{◌≡◌, ◌<◌, ◌≤◌, IfOk, IfErr, OnErr, OnOk, flat_map, length};
ghost use Rattle.edid_cta.specs.Ext.{ext_bytes};
ghost use Rattle.edid_merge.specs.Merge.{HasRoom, IsMerged, IsOne, IsUnfit, blocks_for, cta_for, with_cta};

use crate::base::merged_base;
use crate::blocks::merged_blocks;
use crate::extension::{
    cta_blocks, cta_flags, cta_of, cta_timings, has_one_cta, merged_flags, with_cta,
};
use crate::table::Table;
use arrayvec::ArrayVec;
use edid_core::{Edid, EdidError, edid_from_bytes};
use edid_cta::Ext;
use thiserror::Error;

/// Why nothing is made of an EDID.
#[derive(Clone, Copy, Debug, PartialEq, Eq, Error)]
pub enum Unfit {
    /// The bytes are no EDID.
    #[error("{0}")]
    Edid(EdidError),
    /// Not one extension has data blocks, but none or several.
    #[error("one-cta")]
    Cta,
}

/// Why a receiver has no answer: the first of these that applies.
#[derive(Clone, Copy, Debug, PartialEq, Eq, Error)]
pub enum MergeError {
    /// Nothing is made of the display's.
    #[error("display: {0}")]
    Display(Unfit),
    /// Nothing is made of the receiver's own.
    #[error("receiver: {0}")]
    Receiver(Unfit),
    /// The data blocks have no room in an extension.
    #[error("long")]
    Long,
}

/// The data blocks have no room in an extension.
#[derive(Clone, Copy, Debug, PartialEq, Eq)]
pub struct TooLong;

/// The most bytes of the data blocks of an extension.
const MOST: usize = 123;

// The extensions that a receiver answers with.
fn merged_extensions(
    table: &Table,
    display: &[Ext],
    own: &[Ext],
) -> Result<ArrayVec<Ext, 3>, TooLong>
    requires { length display.now ≤ 3 }
    ensures room { OnOk result (length (blocks_for table.now display.now own.now) < 124) }
    ensures bytes { IfOk result (λ xs. flat_map ext_bytes xs.items ≡ with_cta (cta_for table.now display.now own.now) display.now) }
    ensures count { IfOk result (λ xs. length xs.items ≡ length display.now) }
    ensures refused { OnErr result (¬ (length (blocks_for table.now display.now own.now) < 124)) }
{
    let blocks = merged_blocks(table, cta_blocks(display), cta_blocks(own));
    if blocks.len() > MOST {
        return Err(TooLong);
    }
    let flags = merged_flags(table.audio, cta_flags(display), cta_flags(own));
    let cta = cta_of(flags, blocks.as_slice(), cta_timings(display));
    let mut merged = ArrayVec::new();
    with_cta(&cta, display, &mut merged);
    Ok(merged)
}

/// The EDID that a receiver answers with by a table, of a display's and of its own, each of which has data blocks in one extension.
/// The timings after them stay as far as they have room; the display's other extensions stay.
///
/// # Errors
///
/// The data blocks have no room.
pub fn merge(table: &Table, display: &Edid, own: &Edid) -> Result<Edid, TooLong>
    ensures merged { IfOk result (λ merged. IsMerged table.now display.now own.now merged) }
    ensures refused { OnErr result (¬ HasRoom table.now display.now own.now) }
{
    let base = merged_base(table.product, &display.base, &own.base);
    let extensions = merged_extensions(
        table,
        display.extensions.as_slice(),
        own.extensions.as_slice(),
    )?;
    Ok(Edid { base, extensions })
}

/// The EDID that bytes spell, where its data blocks stand in one extension.
pub fn one_edid(bytes: &[u8]) -> Result<Edid, Unfit>
    ensures found { IfOk result (λ e. IsOne bytes.now e) }
    ensures refused { IfErr result (λ cause. IsUnfit bytes.now cause) }
{
    match edid_from_bytes(bytes) {
        Err(cause) => Err(Unfit::Edid(cause)),
        Ok(edid) => {
            if has_one_cta(edid.extensions.as_slice()) {
                Ok(edid)
            } else {
                Err(Unfit::Cta)
            }
        }
    }
}
