//! Reading and writing a whole base block.
ghost use Rattle.std.specs.Prelude.{◌≡◌, IfOk, IfErr, Some};
ghost use Rattle.edid_base.specs.Base.{base_bytes};
ghost use Rattle.edid_base.specs.Refusals.{refusal};
ghost use Rattle.edid_base.specs.declared.base.Base.{Base as BaseValue};

use crate::base::{Base, BaseError};

/// The base block that 128 bytes spell, or the first reason why they spell none.
pub fn read_base(bytes: &[u8; 128]) -> Result<Base, BaseError>
    ensures found { IfOk result (λ b. base_bytes b ≡ bytes.now) }
    ensures only { (b : BaseValue) → bytes.now ≡ base_bytes b → result ≡ Ok b }
    ensures refused { IfErr result (λ e. refusal bytes.now ≡ Some e) }
{
    Base::read(bytes)
}

/// The 128 bytes that spell a base block.
pub fn write_base(base: &Base) -> [u8; 128]
    ensures { result ≡ base_bytes base.now }
{
    base.write()
}
