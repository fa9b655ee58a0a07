//! Each bit of an EDID at its own place.
use crate::samples::bytes_of;
use crate::texts::text_of;
use edid_core::edid_from_bytes;
use std::process::Abort;

/// EDIDs, and the hashes of the texts of all that differ from them in one bit. The hashes are those of the texts that a
/// program apart from this one writes, by the layouts of the standards.
pub(crate) const HASHES: &str = "\
neighbours every.. => d4f6c7caee9f610
neighbours tv..0151 speaking..e8 => 3aa6b8bf1c4a28db
";

/// The byte that makes the sum of a block 0 modulo 256.
fn checksum(front: &[u8]) -> u8 {
    let mut sum = 0u8;
    for byte in front {
        sum = sum.wrapping_add(*byte);
    }
    sum.wrapping_neg()
}

/// Mends the checksum of the block that a byte stands in.
fn mend(rt: &impl Abort, bytes: &mut [u8], at: usize) {
    let from = at / 128 * 128;
    let sum = checksum(bytes.get(from..from + 127).expect(rt, "a block"));
    *bytes.get_mut(from + 127).expect(rt, "a checksum") = sum;
}

/// Turns over one bit, and mends the checksum of its block where the bit is not the checksum's own.
fn turn_bit(rt: &impl Abort, bytes: &mut [u8], at: usize, bit: u8) {
    *bytes.get_mut(at).expect(rt, "a byte") ^= bit;
    if at % 128 != 127 {
        mend(rt, bytes, at);
    }
}

fn with_bit_turned(rt: &(impl Abort + AllocGlobal), bytes: &[u8], at: usize, bit: u8) -> Vec<u8> {
    let mut turned = Vec::from_slice(rt.alloc(), bytes).expect(rt, "bytes");
    turn_bit(rt, &mut turned, at, bit);
    turned
}

/// The text of an EDID, or why the bytes are none.
fn reported(rt: &(impl Abort + AllocGlobal), bytes: &[u8]) -> Vec<u8> {
    match edid_from_bytes(bytes) {
        Err(cause) => {
            let line = format!(in rt.alloc(); "{cause}\n").expect(rt, "a line");
            line.into_bytes()
        }
        Ok(edid) => text_of(rt, &edid),
    }
}

/// Takes a text into a hash (FNV-1a of 64 bits).
fn hashed(hash: u64, text: &[u8]) -> u64 {
    let mut hash = hash;
    for byte in text {
        hash = (hash ^ u64::from(*byte)).wrapping_mul(0x100_0000_01b3);
    }
    hash
}

fn reported_with_bit_turned(
    rt: &(impl Abort + AllocGlobal),
    bytes: &[u8],
    at: usize,
    bit: u8,
) -> Vec<u8> {
    reported(rt, &with_bit_turned(rt, bytes, at, bit))
}

/// The hash of the texts of all EDIDs that differ from this one in one bit.
fn hash_of_neighbours(rt: &(impl Abort + AllocGlobal), bytes: &[u8]) -> u64 {
    let mut hash = 0xcbf2_9ce4_8422_2325u64;
    for at in 0..bytes.len() {
        for bit in [1u8, 2, 4, 8, 16, 32, 64, 128] {
            hash = hashed(hash, &reported_with_bit_turned(rt, bytes, at, bit));
        }
    }
    hash
}

pub(crate) fn neighbours_reported(rt: &(impl Abort + AllocGlobal), words: &str) -> String {
    let hash = hash_of_neighbours(rt, &bytes_of(rt, words));
    format!(in rt.alloc(); "{hash:x}").expect(rt, "a text")
}
