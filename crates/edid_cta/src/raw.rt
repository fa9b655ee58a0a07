//! An extension.
ghost use Rattle.std.specs.Prelude.{◌≡◌, ◌%◌, IsTrue, length, sum};
ghost use Rattle.edid_base.specs.Bytes.{are_bytes};
ghost use Rattle.edid_cta.specs.Whole.{cta_bytes, bare_bytes};
ghost use Rattle.edid_cta.specs.declared.cta.Cta.{Cta as CtaValue};
ghost use Rattle.edid_cta.specs.declared.cta.Bare.{Bare as BareValue};

use crate::cta::{Bare, Cta};

/// A block whose sum is right, and that is of no form.
#[derive(Clone, Copy)]
pub struct RawExt {
    pub bytes: [u8; 128],
    ghost whole: { length bytes ≡ 128 },
    ghost bytes_fit: { IsTrue (are_bytes bytes) },
    ghost checked: { sum bytes % 256 ≡ 0 },
    ghost no_cta: { (c : CtaValue) → cta_bytes c ≡ bytes → ⊥ },
    ghost no_bare: { (b : BareValue) → bare_bytes b ≡ bytes → ⊥ },
}

/// An extension block of an EDID, whatever its 128 bytes are, where their sum is right.
#[derive(Drop)]
pub enum Ext {
    /// A CTA block of version 3 with data blocks, timings and a tail.
    Cta(Cta),
    /// A CTA block of version 3 whose byte 2 is 0: it has neither data blocks nor timings.
    Bare(Bare),
    /// Any other block.
    Raw(RawExt),
}

impl Ext {
    /// The same extension.
    pub fn copy(&self) -> Ext
        ensures { result ≡ self.now }
    {
        match self {
            Ext::Cta(cta) => Ext::Cta(cta.copy()),
            Ext::Bare(bare) => Ext::Bare(*bare),
            Ext::Raw(raw) => Ext::Raw(*raw),
        }
    }
}

/// A block without data blocks and timings, for the places of an array that hold no extension yet.
impl Default for Ext {
    fn default() -> Self {
        Ext::Bare(Bare {
            flags: 0,
            tail: [0; 123],
        })
    }
}
