//! Where a session lies between two calls.
ghost use Rattle.std.specs.Prelude.{◌≡◌, None, Option, Some, IsSome};
ghost use Rattle.library_live.specs.declared.talk.Talk.{Talk as TalkValue};
ghost use Rattle.library_live.specs.Owned.{kept_owns};

use crate::talk::Talk;
use loose_box::Loose;
use std::alloc::Global;
use std::marker::Model;
use std::ptr::null_mut;

/// A session that its caller keeps, or none. Who has it owns the session's memory; dropped, it forgets it.
#[repr(C)]
#[derive(Drop)]
pub struct Kept {
    at: *mut u8,
    pub(crate) ghost value: { Option TalkValue },
}

impl Model for Kept {
    ghost also_owns = { λ k. kept_owns k.at k.value };
}

impl Kept {
    /// None.
    pub(crate) fn nothing() -> Kept
        ensures { result.value ≡ None }
    {
        Kept { at: null_mut() }
    }

    /// This one.
    pub(crate) fn of(loose: Loose<Talk, Global>) -> Kept
        ensures { result.value ≡ Some loose.value }
    {
        let Loose { ptr, alloc: _alloc } = loose;
        Kept { at: ptr as *mut u8 }
    }

    /// The one that it is.
    pub(crate) fn into_loose(self, alloc: Global) -> Loose<Talk, Global>
        requires { IsSome self.value }
        ensures { Some result.value ≡ self.value }
    {
        let Kept { at } = self;
        Loose {
            ptr: at as *mut Talk,
            alloc,
        }
    }
}
