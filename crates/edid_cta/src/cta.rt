//! A block of the CTA form.
ghost use Rattle.std.specs.Prelude.{◌≡◌, ◌+◌, ◌∷◌, length, IsTrue, flat_map};
ghost use Rattle.edid_base.specs.Bytes.{are_bytes};
ghost use Rattle.edid_base.specs.Timing.{timing_bytes};
ghost use Rattle.edid_cta.specs.Block.{block_bytes};
ghost use Rattle.edid_cta.specs.Cta.{is_tail};

use crate::block::{DataBlock, copies_of};
use arrayvec::ArrayVec;
use edid_base::{Timing, append};

/// Data blocks, timings and a tail.
#[derive(Drop)]
pub struct Cta {
    pub flags: u8,
    pub blocks: ArrayVec<DataBlock, 123>,
    pub timings: ArrayVec<Timing, 6>,
    pub tail: ArrayVec<u8, 123>,
    ghost whole: { length (flat_map block_bytes blocks.items) + length (flat_map timing_bytes timings.items) + length tail.items ≡ 123 },
    ghost ended: { IsTrue (is_tail tail.items) },
    ghost bytes_fit: { IsTrue (are_bytes (flags ∷ tail.items)) },
}

impl Cta {
    /// The same block.
    pub fn copy(&self) -> Cta
        ensures { result ≡ self.now }
    {
        let mut timings = ArrayVec::new();
        let _ = timings.try_extend_from_slice(self.timings.as_slice());
        let mut tail = ArrayVec::new();
        append(&mut tail, self.tail.as_slice());
        Cta {
            flags: self.flags,
            blocks: copies_of(self.blocks.as_slice()),
            timings,
            tail,
        }
    }
}

/// A tail alone.
#[derive(Clone, Copy)]
pub struct Bare {
    pub flags: u8,
    pub tail: [u8; 123],
    ghost whole: { length tail ≡ 123 },
    ghost bytes_fit: { IsTrue (are_bytes (flags ∷ tail)) },
}
