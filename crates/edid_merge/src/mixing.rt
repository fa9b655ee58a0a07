//! One block of two: the bits that both have, the lesser of two numbers.
ghost use Rattle.std.specs.Prelude.{◌≡◌, ◌≤◌, ◌<◌, ◌+◌, ◌++◌, drop, length};
ghost use Rattle.arrayvec.specs.ArrayVec.{array_vec_len};
ghost use Rattle.edid_merge.specs.Mixing.{mixed, mixed_byte};

use arrayvec::ArrayVec;
use edid_base::append;
use text_core::byte_at;

/// How a byte is made of the display's and of the receiver's own.
#[derive(Clone, Copy, Debug, PartialEq, Eq)]
pub enum Way {
    /// The display's.
    Display,
    /// The receiver's own.
    Receiver,
    /// The bits that both have.
    Both,
    /// The lesser of two numbers.
    Lesser,
    /// The display's, where the receiver's own is not 0.
    Passed,
    /// The top bit is the receiver's own; of the others those that both have.
    Flags,
    /// The lesser of the numbers in the high four bits; of the low ones those that both have.
    Rates,
}

/// Flags, as many bytes as a data block has at most.
pub const SPEAKERS: &[Way] = &[Way::Both; 31];

/// A tag, and flags.
pub const CAPABILITY: &[Way] = &[Way::Display, Way::Both];

/// A tag, and two bytes of flags.
pub const COLOURS: &[Way] = &[Way::Display, Way::Both, Way::Both];

/// The identifier, the address, the flags of AI and deep colour, the greatest clock.
pub const HDMI: &[Way] = &[
    Way::Display,
    Way::Display,
    Way::Display,
    Way::Receiver,
    Way::Receiver,
    Way::Flags,
    Way::Lesser,
];

/// The identifier and the version, the greatest clock, flags, the greatest fixed rate and flags, flags; variable refresh and
/// compression.
pub const FORUM: &[Way] = &[
    Way::Display,
    Way::Display,
    Way::Display,
    Way::Display,
    Way::Lesser,
    Way::Both,
    Way::Rates,
    Way::Both,
    Way::Passed,
    Way::Passed,
    Way::Passed,
    Way::Passed,
    Way::Passed,
];

// A byte that is made of two in a way.
fn mixed_byte(way: Way, display: u8, own: u8) -> u8
    ensures { result ≡ mixed_byte way display own }
{
    match way {
        Way::Display => display,
        Way::Receiver => own,
        Way::Both => display & own,
        Way::Lesser => display.min(own),
        Way::Passed => { if own == 0 { 0 } else { display } }
        Way::Flags => own / 128 * 128 + (display % 128 & own % 128),
        Way::Rates => (display / 16).min(own / 16) * 16 + (display % 16 & own % 16),
    }
}

// The bytes after the first.
fn after_first(bytes: &[u8]) -> &[u8]
    ensures { result.now ≡ drop 1 bytes.now }
{
    match bytes {
        [] => bytes,
        [_, rest @ ..] => rest,
    }
}

/// Adds bytes that are made of the display's and of the receiver's own, each in its way.
pub fn add_mixed(out: &mut ArrayVec<u8, 1536>, ways: &[Way], display: &[u8], own: &[u8])
    requires { array_vec_len out.old + length display.now ≤ 1536 }
    ensures items { out.new.items ≡ out.old.items ++ mixed ways.now display.now own.now }
    ensures len { array_vec_len out.new ≡ array_vec_len out.old + length display.now }
{
    let [way, others @ ..] = ways else {
        append(out, display);
        return;
    };
    let [byte, rest @ ..] = display else {
        return;
    };
    out.push(mixed_byte(*way, *byte, byte_at(own, 0)));
    add_mixed(out, others, rest, after_first(own));
}
