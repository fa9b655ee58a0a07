//! A box as its pointer, and back: for a value that another language's program holds between two calls.
#![tactic(auto)]

ghost use Rattle.std.specs.Prelude.{◌≡◌};
ghost use Rattle.std.specs.Box.Ownership.{box_owns};

use std::alloc::Allocator;
use std::marker::Model;

/// A box that was taken apart: where its value lies, and what frees it.
pub struct Loose<T, A: Allocator> {
    pub ptr: *mut T,
    pub alloc: A,
    pub ghost value: { T },
}

impl<T, A: Allocator> Model for Loose<T, A> {
    ghost also_owns = { λ l. box_owns (A.dealloc_token l.alloc) T.row l.ptr l.value };
}

impl<T, A: Allocator> Loose<T, A> {
    /// Takes a box apart.
    pub fn of(boxed: Box<T, A>) -> Loose<T, A>
    where
        T: Drop,
        ensures { result.value ≡ boxed.value }
    {
        let (ptr, alloc) = Box::into_raw_with_allocator(boxed);
        Loose { ptr, alloc }
    }

    /// The box again.
    pub fn into_box(self) -> Box<T, A>
        ensures { result.value ≡ self.value }
    {
        let Loose { ptr, alloc } = self;
        unsafe { Box::from_raw(alloc, ptr) }
    }
}
