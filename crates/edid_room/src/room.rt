//! What of a block is left.
ghost use Rattle.std.specs.Prelude.{◌≡◌, ◌≤◌, length};
ghost use Rattle.edid_room.specs.Room.{bit_count, cta_blocks, cta_left, cta_tail, cta_timings, cta_used, unset_established, unused_descriptors, unused_standards};
ghost use Rattle.edid_texts.specs.Lines.{bytes_without_zeros};

use edid_base::{Descriptor, StandardTiming};
use edid_cta::Cta;

/// The bytes of an extension between its first four and its checksum.
const CONTENT: usize = 123;

/// The bytes of an extension before its data blocks, and its checksum.
const FRAME: usize = 5;

/// The bytes of a detailed timing.
const TIMING: usize = 18;

/// How many established timings there are.
const ESTABLISHED: u8 = 17;

/// How many of the descriptors are unused.
pub fn free_descriptors(descriptors: &[Descriptor]) -> usize
    ensures value { result ≡ unused_descriptors descriptors.now }
    ensures few { result ≤ length descriptors.now }
{
    let [descriptor, others @ ..] = descriptors else {
        return 0;
    };
    let free = free_descriptors(others);
    match descriptor {
        Descriptor::Dummy => free + 1,
        Descriptor::Timing(_)
        | Descriptor::Name(_)
        | Descriptor::Text(_)
        | Descriptor::SerialText(_)
        | Descriptor::Range(_)
        | Descriptor::Raw(_) => free,
    }
}

/// How many of the standard timings are unused.
pub fn free_standards(standards: &[Option<StandardTiming>]) -> usize
    ensures value { result ≡ unused_standards standards.now }
    ensures few { result ≤ length standards.now }
{
    let [standard, others @ ..] = standards else {
        return 0;
    };
    let free = free_standards(others);
    match standard {
        None => free + 1,
        Some(_) => free,
    }
}

// How many bits of a byte are 1.
fn bit_count(byte: u8) -> u8
    ensures value { result ≡ bit_count byte }
    ensures few { result ≤ 8 }
{
    let high = byte / 128 + byte / 64 % 2 + byte / 32 % 2 + byte / 16 % 2;
    high + (byte / 8 % 2 + byte / 4 % 2 + byte / 2 % 2 + byte % 2)
}

/// How many of the established timings are not there.
pub fn free_established(established: &[u8; 3]) -> u8
    ensures { result ≡ unset_established established.now }
{
    let [first, second, third] = *established;
    ESTABLISHED - (bit_count(first) + bit_count(second) + third / 128)
}

/// How long bytes are without the zeros at their end.
pub(crate) fn kept_len(bytes: &[u8]) -> usize
    ensures value { result ≡ length (bytes_without_zeros bytes.now) }
    ensures few { result ≤ length bytes.now }
{
    let [byte, others @ ..] = bytes else {
        return 0;
    };
    let kept = kept_len(others);
    if *byte == 0 && kept == 0 { 0 } else { kept + 1 }
}

/// The bytes of its timings.
pub(crate) fn cta_timings(cta: &Cta) -> usize
    ensures value { result ≡ cta_timings cta.now }
    ensures few { result ≤ 108 }
{
    TIMING * cta.timings.len()
}

/// The bytes of its data blocks.
#[tactic(auto, using(crate::proofs::Taken::timings_long, crate::proofs::Taken::cta_whole))]
pub(crate) fn cta_blocks(cta: &Cta) -> usize
    ensures value { result ≡ cta_blocks cta.now }
    ensures few { result ≤ 123 }
{
    CONTENT - cta_timings(cta) - cta.tail.len()
}

/// The bytes after its timings, without the zeros at their end.
pub(crate) fn cta_tail(cta: &Cta) -> usize
    ensures value { result ≡ cta_tail cta.now }
    ensures few { result ≤ length cta.now.tail.items }
{
    kept_len(cta.tail.as_slice())
}

/// The bytes of an extension that are left for data blocks and timings: the zeros at its end.
pub fn cta_left(cta: &Cta) -> usize
    ensures { result ≡ cta_left cta.now }
{
    cta.tail.len() - cta_tail(cta)
}

/// The bytes of an extension that are used.
#[tactic(auto, using(crate::proofs::Taken::cta_whole))]
pub fn cta_used(cta: &Cta) -> usize
    ensures { result ≡ cta_used cta.now }
{
    FRAME + cta_blocks(cta) + cta_timings(cta) + cta_tail(cta)
}
