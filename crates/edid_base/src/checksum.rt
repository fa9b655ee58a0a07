//! The E-EDID checksum: the sum of a block's bytes (E-EDID Release A, section 3.11).
ghost use Rattle.std.specs.Prelude.{◌≡◌, ◌%◌, ◌↔◌, IsTrue, sum};
ghost use Rattle.edid_base.specs.Check.{check_of};

/// The last byte of a block that begins with these.
pub fn checksum_of(bytes: &[u8]) -> u8
    ensures { result ≡ check_of bytes.now }
{
    let mut total = 0u8;
    for byte in bytes {
        total = total.wrapping_add(*byte);
    }
    0u8.wrapping_sub(total)
}

/// Whether the bytes of a block have the sum 0 modulo 256.
pub fn is_summed(bytes: &[u8]) -> bool
    ensures { IsTrue result ↔ (sum bytes.now % 256 ≡ 0) }
{
    checksum_of(bytes) == 0
}
