//! Pieces of bytes, and bytes that are all 0.
ghost use Rattle.std.specs.Prelude.{◌≡◌, ◌+◌, ◌≤◌, ◌++◌, take, drop, length};
ghost use Rattle.arrayvec.specs.ArrayVec.{array_vec_len};
ghost use Rattle.edid_base.specs.Bytes.{are_zeros};

use arrayvec::ArrayVec;

/// The N bytes from a place on.
pub fn part<const N: usize>(bytes: &[u8], at: usize) -> [u8; N]
    requires { at + N ≤ length bytes.now }
    ensures { result ≡ take N (drop at bytes.now) }
{
    <[u8; N]>::try_from(&bytes[at..at + N]).unwrap()
}

/// Appends bytes for which there is room.
pub fn append<const N: usize>(block: &mut ArrayVec<u8, N>, bytes: &[u8])
    requires { array_vec_len block.old + length bytes.now ≤ N }
    ensures items { block.new.items ≡ block.old.items ++ bytes.now }
    ensures len { array_vec_len block.new ≡ array_vec_len block.old + length bytes.now }
{
    let _ = block.try_extend_from_slice(bytes);
}

/// Whether all bytes are 0.
pub fn are_zeros(bytes: &[u8]) -> bool
    ensures { result ≡ are_zeros bytes.now }
{
    bytes.iter().all(|byte| *byte == 0)
}
