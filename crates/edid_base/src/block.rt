//! A block of bytes whose last one is a checksum.
ghost use Rattle.std.specs.Prelude.{◌≡◌, ◌%◌, length, sum};
ghost use Rattle.edid_base.specs.Check.{block_with_checksum};

use crate::checksum::checksum_of;
use crate::parts::append;
use arrayvec::ArrayVec;

/// `N` bytes whose sum is 0 modulo 256. A block of an EDID has 128 (E-EDID Release A, section 3.11).
#[derive(Drop)]
pub struct Block<const N: usize> {
    pub bytes: [u8; N],
    ghost whole: { length bytes ≡ N },
    ghost checked: { sum bytes % 256 ≡ 0 },
}

impl Block<128> {
    /// The block that begins with these 127 bytes and ends with their checksum.
    pub fn ending(front: &[u8]) -> Self
        requires { length front.now ≡ 127 }
        ensures { result.bytes ≡ block_with_checksum front.now }
    {
        Block {
            bytes: with_checksum(front),
        }
    }
}

/// The bytes, and their checksum after them.
fn with_checksum(front: &[u8]) -> [u8; 128]
    requires { length front.now ≡ 127 }
    ensures { result ≡ block_with_checksum front.now }
{
    let mut bytes: ArrayVec<u8, 128> = ArrayVec::new();
    append(&mut bytes, front);
    bytes.push(checksum_of(front));
    <[u8; 128]>::try_from(bytes.as_slice()).unwrap()
}
