//! What a device said last.
ghost use Rattle.std.specs.Prelude.{◌≡◌, false};
ghost use Rattle.audit_remarks.specs.Frames.{opcode_of, receiver};
ghost use Rattle.audit_contents.specs.Said.{letters, name_in, other_name, other_number, other_vendor, place_in, said_nothing, same_bytes, same_place, same_triple, says, told_all, told_one, vendor_in, version_in, with_said};

use line_frames::Addr;
use message_table::Triple;
use text_core::{Phys, byte_at};

// The opcodes of what devices say of themselves (CEC 13).
const SET_OSD_NAME: u8 = 0x47;

const REPORT_PHYSICAL_ADDRESS: u8 = 0x84;

const DEVICE_VENDOR_ID: u8 = 0x87;

const REPORT_POWER_STATUS: u8 = 0x90;

const CEC_VERSION: u8 = 0x9e;

/// The longest name (CEC 17, OSD Name).
const NAME: usize = 14;

/// What a device said last, since it last polled its own address.
#[derive(Clone, Copy)]
pub struct Said {
    pub(crate) vendor: Option<Triple>,
    pub(crate) name: Option<[u8; NAME]>,
    pub(crate) version: Option<u8>,
    /// Its physical address.
    pub(crate) place: Option<Phys>,
    /// Whether it reported its state of power.
    pub(crate) has_power: bool,
    /// The opcode of its last frame, where that was to all.
    pub(crate) to_all: Option<u8>,
    /// The opcode of its last frame to one device.
    pub(crate) to_one: Option<u8>,
}

/// The destination, in the low half of the header.
pub(crate) fn receiver(frame: &[u8]) -> u8
    ensures { result ≡ receiver frame.now }
{
    byte_at(frame, 0) % 16
}

fn opcode_of(frame: &[u8]) -> u8
    ensures { result ≡ opcode_of frame.now }
{
    byte_at(frame, 1)
}

/// Whether a frame has an opcode, and so many bytes at least.
pub(crate) fn says(opcode: u8, least: usize, frame: &[u8]) -> bool
    ensures { result ≡ says opcode least frame.now }
{
    frame.len() >= least && opcode_of(frame) == opcode
}

/// The vendor that a frame has.
pub(crate) fn vendor_in(frame: &[u8]) -> Option<Triple>
    ensures { result ≡ vendor_in frame.now }
{
    if !says(DEVICE_VENDOR_ID, 5, frame) {
        return None;
    }
    Some(Triple {
        first: byte_at(frame, 2),
        second: byte_at(frame, 3),
        third: byte_at(frame, 4),
    })
}

// The bytes of a name, and 0 past its end.
fn letters(frame: &[u8]) -> [u8; NAME]
    ensures { result ≡ letters frame.now }
{
    [
        byte_at(frame, 2),
        byte_at(frame, 3),
        byte_at(frame, 4),
        byte_at(frame, 5),
        byte_at(frame, 6),
        byte_at(frame, 7),
        byte_at(frame, 8),
        byte_at(frame, 9),
        byte_at(frame, 10),
        byte_at(frame, 11),
        byte_at(frame, 12),
        byte_at(frame, 13),
        byte_at(frame, 14),
        byte_at(frame, 15),
    ]
}

/// The name that a frame has.
pub(crate) fn name_in(frame: &[u8]) -> Option<[u8; NAME]>
    ensures { result ≡ name_in frame.now }
{
    if !says(SET_OSD_NAME, 3, frame) {
        return None;
    }
    Some(letters(frame))
}

/// The version that a frame has.
pub(crate) fn version_in(frame: &[u8]) -> Option<u8>
    ensures { result ≡ version_in frame.now }
{
    if !says(CEC_VERSION, 3, frame) {
        return None;
    }
    Some(byte_at(frame, 2))
}

fn place_in(frame: &[u8]) -> Option<Phys>
    ensures { result ≡ place_in frame.now }
{
    if !says(REPORT_PHYSICAL_ADDRESS, 4, frame) {
        return None;
    }
    Some(Phys {
        high: byte_at(frame, 2),
        low: byte_at(frame, 3),
    })
}

fn told_all(frame: &[u8]) -> Option<u8>
    ensures { result ≡ told_all frame.now }
{
    if receiver(frame) == Addr::BROADCAST {
        Some(opcode_of(frame))
    } else {
        None
    }
}

fn told_one(frame: &[u8]) -> Option<u8>
    ensures { result ≡ told_one frame.now }
{
    if receiver(frame) == Addr::BROADCAST {
        None
    } else {
        Some(opcode_of(frame))
    }
}

impl Said {
    /// Nothing was said.
    pub(crate) const NOTHING: Said = Said {
        vendor: None,
        name: None,
        version: None,
        place: None,
        has_power: false,
        to_all: None,
        to_one: None,
    };

    /// After one more frame.
    pub(crate) fn after(self, frame: &[u8]) -> Said
        ensures { result ≡ with_said frame.now self }
    {
        Said {
            vendor: vendor_in(frame).or(self.vendor),
            name: name_in(frame).or(self.name),
            version: version_in(frame).or(self.version),
            place: place_in(frame).or(self.place),
            has_power: says(REPORT_POWER_STATUS, 3, frame) || self.has_power,
            to_all: told_all(frame),
            to_one: told_one(frame).or(self.to_one),
        }
    }
}

/// Whether a number was said before, and is another one now.
pub(crate) fn other_number(before: Option<u8>, now: Option<u8>) -> bool
    ensures { result ≡ other_number before now }
{
    match before {
        None => false,
        Some(before) => match now {
            None => false,
            Some(now) => before != now,
        },
    }
}

fn same_triple(one: Triple, other: Triple) -> bool
    ensures { result ≡ same_triple one other }
{
    one.first == other.first && one.second == other.second && one.third == other.third
}

/// The same of vendors.
pub(crate) fn other_vendor(before: Option<Triple>, now: Option<Triple>) -> bool
    ensures { result ≡ other_vendor before now }
{
    match before {
        None => false,
        Some(before) => match now {
            None => false,
            Some(now) => !same_triple(before, now),
        },
    }
}

fn same_bytes(left: &[u8], right: &[u8]) -> bool
    ensures { result ≡ same_bytes left.now right.now }
{
    match left {
        [] => match right {
            [] => true,
            [_, ..] => false,
        },
        [byte, left @ ..] => match right {
            [] => false,
            [other, right @ ..] => *byte == *other && same_bytes(left, right),
        },
    }
}

/// The same of names.
pub(crate) fn other_name(before: Option<[u8; NAME]>, now: Option<[u8; NAME]>) -> bool
    ensures { result ≡ other_name before now }
{
    match before {
        None => false,
        Some(before) => match now {
            None => false,
            Some(now) => !same_bytes(&before, &now),
        },
    }
}

/// Whether two physical addresses are known, and are one.
pub(crate) fn same_place(one: Option<Phys>, other: Option<Phys>) -> bool
    ensures { result ≡ same_place one other }
{
    match one {
        None => false,
        Some(one) => match other {
            None => false,
            Some(other) => one.high == other.high && one.low == other.low,
        },
    }
}
