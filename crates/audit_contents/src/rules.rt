//! The rules: what the standard has of what a device says.
ghost use Rattle.std.specs.Prelude.{◌≡◌, ◌+◌, ◌<◌, ◌≤◌, length};
ghost use Rattle.audit_contents.specs.Rules.{any_outside, breaks, has_gap, has_other_type, is_abort, is_foreign, is_known, is_mandatory, is_misplaced, is_misspelled, is_no_state, is_no_type, is_nowhere, is_opcode, is_out, is_reserved, is_shared, is_tv, is_unasked, names_place, refused, refuses, said_of, shares, told_all_alone, type_at};

use crate::rule::ContentRule;
use crate::said::{
    Said, name_in, other_name, other_number, other_vendor, receiver, same_place, says, vendor_in,
    version_in,
};
use audit_remarks::sender;
use line_frames::Addr;
use message_table::rule;
use text_core::{after, before, byte_at};

// Opcodes (CEC 13).
const FEATURE_ABORT: u8 = 0x00;

const IMAGE_VIEW_ON: u8 = 0x04;

const TEXT_VIEW_ON: u8 = 0x0d;

const SET_MENU_LANGUAGE: u8 = 0x32;

const GIVE_OSD_NAME: u8 = 0x46;

const SET_OSD_NAME: u8 = 0x47;

const SET_OSD_STRING: u8 = 0x64;

const SET_SYSTEM_AUDIO_MODE: u8 = 0x72;

const REPORT_AUDIO_STATUS: u8 = 0x7a;

const SYSTEM_AUDIO_MODE_STATUS: u8 = 0x7e;

const ACTIVE_SOURCE: u8 = 0x82;

const GIVE_PHYSICAL_ADDRESS: u8 = 0x83;

const REPORT_PHYSICAL_ADDRESS: u8 = 0x84;

const SET_STREAM_PATH: u8 = 0x86;

const DEVICE_VENDOR_ID: u8 = 0x87;

const GIVE_DEVICE_VENDOR_ID: u8 = 0x8c;

const MENU_STATUS: u8 = 0x8e;

const GIVE_DEVICE_POWER_STATUS: u8 = 0x8f;

const REPORT_POWER_STATUS: u8 = 0x90;

const INACTIVE_SOURCE: u8 = 0x9d;

const CEC_VERSION: u8 = 0x9e;

const GET_CEC_VERSION: u8 = 0x9f;

// Logical addresses (CEC 10.2).
const TV: u8 = 0;

const AUDIO_SYSTEM: u8 = 5;

const FREE_USE: u8 = 14;

/// The addresses whose devices are of a known type (CEC 10.2).
const TYPED: u8 = 12;

/// What each device said, by its logical address.
pub(crate) type Saids = [Said; 16];

/// What the device at an address said.
pub(crate) fn said_of(initiator: u8, saids: &Saids) -> Said
    requires { initiator < 16 }
    ensures { result ≡ said_of initiator saids.now }
{
    saids[initiator as usize]
}

// ---- Feature Abort

fn is_abort(frame: &[u8]) -> bool
    ensures { result ≡ is_abort frame.now }
{
    says(FEATURE_ABORT, 4, frame)
}

fn refused(frame: &[u8]) -> u8
    ensures { result ≡ refused frame.now }
{
    byte_at(frame, 2)
}

fn is_tv(initiator: u8) -> bool
    ensures { result ≡ is_tv initiator }
{
    initiator == TV || initiator == FREE_USE
}

// Whether a device has to follow an opcode.
fn is_mandatory(initiator: u8, opcode: u8) -> bool
    ensures { result ≡ is_mandatory initiator opcode }
{
    opcode == GIVE_PHYSICAL_ADDRESS
        || opcode == GET_CEC_VERSION
        || (opcode == GIVE_OSD_NAME && !is_tv(initiator))
        || (initiator == TV && (opcode == IMAGE_VIEW_ON || opcode == TEXT_VIEW_ON))
}

// Whether it said what answers an opcode.
fn is_known(said: &Said, opcode: u8) -> bool
    ensures { result ≡ is_known said.now opcode }
{
    (opcode == GIVE_DEVICE_VENDOR_ID && said.vendor.is_some())
        || (opcode == GIVE_OSD_NAME && said.name.is_some())
        || (opcode == GIVE_DEVICE_POWER_STATUS && said.has_power)
}

fn refuses(said: &Said, frame: &[u8]) -> bool
    ensures { result ≡ refuses said.now frame.now }
{
    if !is_abort(frame) || byte_at(frame, 3) != 0 {
        return false;
    }
    let opcode = refused(frame);
    is_mandatory(sender(frame), opcode) || is_known(said, opcode)
}

fn is_opcode(before: Option<u8>, opcode: u8) -> bool
    ensures { result ≡ is_opcode before opcode }
{
    match before {
        None => false,
        Some(before) => before == opcode,
    }
}

fn told_all_alone(said: &Said, opcode: u8) -> bool
    ensures { result ≡ told_all_alone said.now opcode }
{
    is_opcode(said.to_all, opcode) && !is_opcode(said.to_one, opcode)
}

fn is_unasked(asker: &Said, frame: &[u8]) -> bool
    ensures { result ≡ is_unasked asker.now frame.now }
{
    if !is_abort(frame) || receiver(frame) == Addr::BROADCAST {
        return false;
    }
    let opcode = refused(frame);
    opcode == FEATURE_ABORT || !rule(opcode).direct || told_all_alone(asker, opcode)
}

// ---- values

// Whether an operand is out of its bounds.
fn is_out(opcode: u8, place: usize, least: u8, greatest: u8, frame: &[u8]) -> bool
    requires { place < 16 }
    ensures { result ≡ is_out opcode place least greatest frame.now }
{
    says(opcode, place + 1, frame)
        && (byte_at(frame, place) < least || greatest < byte_at(frame, place))
}

fn is_no_state(frame: &[u8]) -> bool
    ensures { result ≡ is_no_state frame.now }
{
    is_out(FEATURE_ABORT, 3, 0, 5, frame)
        || is_out(SET_SYSTEM_AUDIO_MODE, 2, 0, 1, frame)
        || is_out(SYSTEM_AUDIO_MODE_STATUS, 2, 0, 1, frame)
        || is_out(MENU_STATUS, 2, 0, 1, frame)
}

fn is_no_type(frame: &[u8]) -> bool
    ensures { result ≡ is_no_type frame.now }
{
    is_out(REPORT_PHYSICAL_ADDRESS, 4, 0, 7, frame)
        || (says(REPORT_PHYSICAL_ADDRESS, 5, frame) && byte_at(frame, 4) == 2)
}

fn is_reserved(frame: &[u8]) -> bool
    ensures { result ≡ is_reserved frame.now }
{
    is_no_state(frame)
        || is_out(REPORT_POWER_STATUS, 2, 0, 3, frame)
        || is_out(CEC_VERSION, 2, 4, 6, frame)
        || is_no_type(frame)
}

fn any_outside(least: u8, greatest: u8, text: &[u8]) -> bool
    ensures { result ≡ any_outside least greatest text.now }
{
    let [byte, text @ ..] = text else {
        return false;
    };
    *byte < least || greatest < *byte || any_outside(least, greatest, text)
}

fn is_misspelled(frame: &[u8]) -> bool
    ensures { result ≡ is_misspelled frame.now }
{
    (says(SET_OSD_NAME, 3, frame) && any_outside(b' ', b'~', after(frame, 2)))
        || (says(SET_OSD_STRING, 4, frame) && any_outside(b' ', b'~', after(frame, 3)))
        || (says(SET_MENU_LANGUAGE, 5, frame)
            && any_outside(b'a', b'z', before(after(frame, 2), 3)))
}

// ---- physical addresses

fn names_place(frame: &[u8]) -> bool
    ensures { result ≡ names_place frame.now }
{
    says(ACTIVE_SOURCE, 4, frame)
        || says(REPORT_PHYSICAL_ADDRESS, 4, frame)
        || says(SET_STREAM_PATH, 4, frame)
        || says(INACTIVE_SOURCE, 4, frame)
}

// Whether a digit that is no 0 comes after one that is.
fn has_gap(high: u8, low: u8) -> bool
    ensures { result ≡ has_gap high low }
{
    (high / 16 == 0 && (high % 16 != 0 || low != 0))
        || (high % 16 == 0 && low != 0)
        || (low / 16 == 0 && low % 16 != 0)
}

fn is_nowhere(high: u8, low: u8) -> bool
    ensures { result ≡ is_nowhere high low }
{
    high == 0xff && low == 0xff
}

fn is_misplaced(frame: &[u8]) -> bool
    ensures { result ≡ is_misplaced frame.now }
{
    let high = byte_at(frame, 2);
    let low = byte_at(frame, 3);
    let initiator = sender(frame);
    (names_place(frame)
        && (has_gap(high, low) || (is_nowhere(high, low) && initiator != Addr::BROADCAST)))
        || (initiator == TV && says(REPORT_PHYSICAL_ADDRESS, 4, frame) && (high != 0 || low != 0))
}

// ---- who says it

fn is_foreign(frame: &[u8]) -> bool
    ensures { result ≡ is_foreign frame.now }
{
    let initiator = sender(frame);
    initiator < TYPED
        && ((initiator != TV
            && (says(SET_MENU_LANGUAGE, 2, frame) || says(SET_STREAM_PATH, 2, frame)))
            || (initiator != AUDIO_SYSTEM
                && (says(SET_SYSTEM_AUDIO_MODE, 2, frame)
                    || says(REPORT_AUDIO_STATUS, 2, frame)
                    || says(SYSTEM_AUDIO_MODE_STATUS, 2, frame))))
}

// ---- lawful, and worth a look

// The device type of a logical address.
fn type_at(initiator: u8) -> Option<u8>
    ensures { result ≡ type_at initiator }
{
    match initiator {
        0 => Some(0),
        1 | 2 | 9 => Some(1),
        3 | 6 | 7 | 10 => Some(3),
        4 | 8 | 11 => Some(4),
        5 => Some(5),
        _ => None,
    }
}

fn has_other_type(frame: &[u8]) -> bool
    ensures { result ≡ has_other_type frame.now }
{
    says(REPORT_PHYSICAL_ADDRESS, 5, frame)
        && other_number(type_at(sender(frame)), Some(byte_at(frame, 4)))
}

// Whether one of these devices, numbered from one on, was where this one is, and has another vendor.
fn shares(initiator: u8, said: &Said, number: u8, others: &[Said]) -> bool
    requires { number + length others.now ≤ 16 }
    ensures { result ≡ shares initiator said.now number others.now }
{
    let [other, others @ ..] = others else {
        return false;
    };
    (number != initiator
        && same_place(other.place, said.place)
        && other_vendor(other.vendor, said.vendor))
        || shares(initiator, said, number + 1, others)
}

fn is_shared(frame: &[u8], saids: &Saids) -> bool
    ensures { result ≡ is_shared frame.now saids.now }
{
    if !says(REPORT_PHYSICAL_ADDRESS, 4, frame) && !says(DEVICE_VENDOR_ID, 5, frame) {
        return false;
    }
    let initiator = sender(frame);
    let said = said_of(initiator, saids).after(frame);
    shares(initiator, &said, 0, saids)
}

// ---- all of them

impl ContentRule {
    /// Whether a frame breaks it, after what the devices said.
    pub(crate) fn is_broken(self, frame: &[u8], saids: &Saids) -> bool
        ensures { result ≡ breaks self frame.now saids.now }
    {
        let said = said_of(sender(frame), saids);
        match self {
            ContentRule::Refuses => refuses(&said, frame),
            ContentRule::Unasked => is_unasked(&said_of(receiver(frame), saids), frame),
            ContentRule::Reserved => is_reserved(frame),
            ContentRule::Misspelled => is_misspelled(frame),
            ContentRule::Misplaced => is_misplaced(frame),
            ContentRule::OtherVendor => other_vendor(said.vendor, vendor_in(frame)),
            ContentRule::OtherVersion => other_number(said.version, version_in(frame)),
            ContentRule::Foreign => is_foreign(frame),
            ContentRule::OtherType => has_other_type(frame),
            ContentRule::OtherName => other_name(said.name, name_in(frame)),
            ContentRule::Shared => is_shared(frame, saids),
        }
    }
}
