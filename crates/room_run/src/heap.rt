//! The EDID of a run on the heap.
ghost use Rattle.std.specs.Prelude.{◌≡◌, IfOk};
ghost use Rattle.std.specs.Option.{option_map};

use edid_core::Edid;
use std::alloc::{AllocError, Global};

/// The EDID that ports pass on, or that there is none, on the heap: it is large.
///
/// # Errors
///
/// Want of memory.
#[inline(never)]
pub fn edid_on_heap(alloc: Global, edid: Option<Box<Edid>>) -> Result<Box<Option<Edid>>, AllocError>
    ensures { IfOk result (λ boxed. boxed.value ≡ option_map (λ b. b.value) edid) }
{
    let boxed = match edid {
        None => Box::new(alloc, None)?,
        Some(edid) => Box::new(alloc, Some(Box::into_inner(edid)))?,
    };
    Ok(boxed)
}
