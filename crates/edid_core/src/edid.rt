//! A whole EDID.
ghost use Rattle.std.specs.Prelude.{◌≡◌, ◌≤◌, length};

use arrayvec::ArrayVec;
use edid_base::Base;
use edid_cta::Ext;

/// A base block and up to three extensions after it. Byte 126 of the base block, `base.extensions`, says how many
/// there are (E-EDID Release A, section 3.11).
#[derive(Drop)]
pub struct Edid {
    pub base: Base,
    pub extensions: ArrayVec<Ext, 3>,
    ghost counted: { base.extensions ≡ length extensions.items },
    ghost few: { length extensions.items ≤ 3 },
}
