//! Bits of a byte.
ghost use Rattle.std.specs.Prelude.{◌≡◌};
ghost use Rattle.infoframe_claims.specs.Bits.{has_bit};

/// Whether a bit of a byte is set. There are none but 0 to 7.
pub(crate) fn has_bit(byte: u8, bit: u8) -> bool
    ensures { result ≡ has_bit byte bit }
{
    bit < 8 && (u16::from(byte) >> bit) % 2 == 1
}
