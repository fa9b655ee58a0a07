//! The television's EDID.
ghost use Rattle.std.specs.Prelude.{◌≡◌, ◌≤◌, ℕ, [], length, List, Some, IfOk, IfErr, IsSome, option_map};
ghost use Rattle.edid_core.specs.Address.{edid_address};
ghost use Rattle.edid_core.specs.Bytes.{edid_bytes};
ghost use Rattle.edid_core.specs.Root.{IsNoRoot, IsNoRootOf, IsRoot};

use crate::bytes::{EdidError, edid_from_bytes, read_parts};
use crate::edid::Edid;
use arrayvec::ArrayVec;
use edid_base::Base;
use edid_cta::Ext;
use std::alloc::{AllocError, Global};
use thiserror::Error;

/// Why some bytes are no EDID of a television, whose ports each have an address.
#[derive(Clone, Copy, Debug, Drop, Error)]
pub enum EdidCause {
    /// They are no EDID.
    #[error("{0}")]
    Edid(EdidError),
    /// The EDID has no HDMI block, so that it has no address.
    #[error("no-hdmi-block")]
    NoHdmiBlock,
}

fn read_root(bytes: &[u8]) -> Result<Edid, EdidCause>
    ensures read { IfOk result (λ root. (edid_bytes root ≡ bytes.now) × IsSome (edid_address root)) }
    ensures refused { IfErr result (λ cause. IsNoRoot bytes.now cause) }
{
    match edid_from_bytes(bytes) {
        Err(error) => Err(EdidCause::Edid(error)),
        Ok(root) => match root.address() {
            None => Err(EdidCause::NoHdmiBlock),
            Some(_) => Ok(root),
        },
    }
}

/// The EDID that a topology's bytes spell, where it gives them. It has an HDMI block.
pub fn root_of(bytes: &Option<Vec<u8>>) -> Result<Option<Edid>, EdidCause>
    ensures read { IfOk result (λ root. IsRoot (option_map (λ v. v.items) bytes.now) root) }
    ensures refused { IfErr result (λ cause. (given : List ℕ) × (option_map (λ v. v.items) bytes.now ≡ Some given) × IsNoRoot given cause) }
{
    match bytes {
        None => Ok(None),
        Some(bytes) => match read_root(bytes) {
            Err(cause) => Err(cause),
            Ok(root) => Ok(Some(root)),
        },
    }
}

/// Why no television's EDID was put on the heap.
#[derive(Clone, Copy, Debug, Drop)]
pub enum RootError {
    /// The bytes are none.
    Cause(EdidCause),
    /// Memory ran out.
    Memory,
}

impl From<AllocError> for RootError {
    ghost use Rattle.std.specs.Prelude.{◌≡◌};
    ghost use Rattle.edid_core.specs.declared.root.RootError.TheVariants.{Memory};

    ghost from_gives = { λ _ error. error ≡ Memory };

    fn from(_error: AllocError) -> RootError {
        RootError::Memory
    }
}

// Room for extensions.
#[inline(never)]
fn room(alloc: Global) -> Result<Box<ArrayVec<Ext, 3>>, AllocError>
    ensures { IfOk result (λ room. room.value.items ≡ []) }
{
    let room = Box::new(alloc, ArrayVec::new())?;
    Ok(room)
}

// An EDID of these parts.
#[inline(never)]
fn whole(
    alloc: Global,
    base: Base,
    extensions: Box<ArrayVec<Ext, 3>>,
) -> Result<Box<Edid>, AllocError>
    requires counted { base.extensions ≡ length extensions.value.items }
    requires few { length extensions.value.items ≤ 3 }
    ensures { IfOk result (λ root. (root.value.base ≡ base) × (root.value.extensions.items ≡ extensions.value.items)) }
{
    let root = Edid {
        base,
        extensions: Box::into_inner(extensions),
    };
    let root = Box::new(alloc, root)?;
    Ok(root)
}

// The EDID that bytes spell.
fn read_on_heap(alloc: Global, bytes: &[u8]) -> Result<Box<Edid>, RootError>
    ensures read { IfOk result (λ root. (edid_bytes root.value ≡ bytes.now) × IsSome (edid_address root.value)) }
    ensures refused { IfErr result (λ error. IsNoRootOf bytes.now error) }
{
    let mut extensions = room(alloc)?;
    let base = match read_parts(bytes, &mut extensions) {
        Err(error) => return Err(RootError::Cause(EdidCause::Edid(error))),
        Ok(base) => base,
    };
    let root = whole(alloc, base, extensions)?;
    match root.address() {
        None => Err(RootError::Cause(EdidCause::NoHdmiBlock)),
        Some(_) => Ok(root),
    }
}

/// As [`root_of`], on the heap: an EDID is large, and this one is read where it stays.
///
/// # Errors
///
/// The cause for which the bytes are no television's EDID, or want of memory.
pub fn root_on_heap(alloc: Global, bytes: &Option<Vec<u8>>) -> Result<Option<Box<Edid>>, RootError>
    ensures read { IfOk result (λ root. IsRoot (option_map (λ v. v.items) bytes.now) (option_map (λ b. b.value) root)) }
    ensures refused { IfErr result (λ error. (given : List ℕ) × (option_map (λ v. v.items) bytes.now ≡ Some given) × IsNoRootOf given error) }
{
    match bytes {
        None => Ok(None),
        Some(bytes) => match read_on_heap(alloc, bytes) {
            Err(error) => Err(error),
            Ok(root) => Ok(Some(root)),
        },
    }
}
