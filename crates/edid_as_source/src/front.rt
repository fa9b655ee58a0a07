//! The base block as a source takes it.
ghost use Rattle.std.specs.Prelude.{◌≡◌, ◌≤◌, ◌+◌, length, take, drop};
ghost use Rattle.edid_as_source.specs.Front.{mended_block, mended_letter, mended_maker, mended_revision, right_places};

use arrayvec::ArrayVec;
use edid_base::{Block, append, part};

/// What a base block begins with (E-EDID Release A, section 3.3).
pub const HEADER: &[u8] = &[0, 0xff, 0xff, 0xff, 0xff, 0xff, 0xff, 0];

/// The letter in the place of one that is none.
const UNKNOWN: u8 = 24;

/// At how many places bytes are those of a header.
pub fn right_places(bytes: &[u8], header: &[u8]) -> usize
    ensures value { result ≡ right_places bytes.now header.now }
    ensures few { result ≤ length header.now }
{
    let [wanted, others @ ..] = header else {
        return 0;
    };
    let [byte, rest @ ..] = bytes else {
        return 0;
    };
    let right = right_places(rest, others);
    if byte == wanted { right + 1 } else { right }
}

// The revision as which a source reads a version 1: those before 3 have the same places.
fn mended_revision(revision: u8) -> u8
    ensures { result ≡ mended_revision revision }
{
    revision.clamp(3, 4)
}

// A letter, or X where five bits are none.
fn mended_letter(letter: u8) -> u8
    ensures { result ≡ mended_letter letter }
{
    if letter >= 1 && letter <= 26 {
        letter
    } else {
        UNKNOWN
    }
}

// The bytes of a maker with X for what is no letter, and the top bit clear.
fn mended_maker(high: u8, low: u8) -> [u8; 2]
    ensures { result ≡ mended_maker high low }
{
    let first = mended_letter(high / 4 % 32);
    let second = mended_letter(high % 4 * 8 + low / 32);
    let third = mended_letter(low % 32);
    [first * 4 + second / 8, second % 8 * 32 + third]
}

/// The base block as a source takes it, with another count of extensions: its header, its maker, its revision and its checksum
/// are mended.
pub fn mended_block(block: &[u8], count: u8) -> [u8; 128]
    requires { 128 ≤ length block.now }
    ensures { result ≡ mended_block block.now count }
{
    let mut front: ArrayVec<u8, 127> = ArrayVec::new();
    append(&mut front, HEADER);
    append(&mut front, &mended_maker(block[8], block[9]));
    append(&mut front, &part::<8>(block, 10));
    front.push(1);
    front.push(mended_revision(block[19]));
    append(&mut front, &part::<106>(block, 20));
    front.push(count);
    Block::ending(front.as_slice()).bytes
}
