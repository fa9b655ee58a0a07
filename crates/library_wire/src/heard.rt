//! What a receiver hears at an instant, in plain numbers.
ghost use Rattle.std.specs.Prelude.{◌≡◌, Some};
ghost use Rattle.line_reading.specs.declared.receiver.Told.{Told as ReportedValue};
ghost use Rattle.library_wire.specs.Heard.{ending_in, ending_number, heard_code, heard_of, instant_of, instant_refused, reported_in};

use library_answers::Code;
use line_frames::Ending;
use line_reading::Told;

/// What an instant told a receiver.
#[repr(C)]
#[derive(Clone, Copy, Debug, PartialEq, Eq)]
pub struct InstantHeard {
    /// The number of a `Code`: 0 where the receiver heard that instant.
    pub code: u32,
    /// 0 nothing, 1 the bit of a slot, 2 a bit with which the reading ended, 3 that the reading ended.
    pub kind: u8,
    /// How it ended: 1 complete, 2 short, 3 silent, 4 with a bad start, 5 too long; 0 where it did not.
    pub ending: u8,
    /// The bit, or false.
    pub bit: bool,
    /// The slot of a bit with which no reading ended, counted from 1, or 0.
    pub slot: u64,
}

/// An instant that may be absent.
#[repr(C)]
#[derive(Clone, Copy, Debug, PartialEq, Eq)]
pub struct Instant {
    /// The number of a `Code`: 0 where there is one.
    pub code: u32,
    /// In microseconds, or 0.
    pub at: u64,
}

/// The number of an ending.
pub(crate) fn ending_number(ending: Ending) -> u8
    ensures { result ≡ ending_number ending }
{
    match ending {
        Ending::Complete => 1,
        Ending::Short => 2,
        Ending::Silent => 3,
        Ending::BadStart => 4,
        Ending::Long => 5,
        Ending::Open => 6,
    }
}

/// The ending of a number.
pub(crate) fn ending_in(number: u8) -> Option<Ending>
    ensures { result ≡ ending_in number }
{
    match number {
        1 => Some(Ending::Complete),
        2 => Some(Ending::Short),
        3 => Some(Ending::Silent),
        4 => Some(Ending::BadStart),
        5 => Some(Ending::Long),
        6 => Some(Ending::Open),
        _ => None,
    }
}

/// What was reported, in plain numbers.
pub(crate) fn heard_of(reported: Told) -> InstantHeard
    ensures { result ≡ heard_of reported }
{
    match reported {
        Told::Nothing => InstantHeard {
            code: 0,
            kind: 0,
            ending: 0,
            bit: false,
            slot: 0,
        },
        Told::Bit(slot, bit) => InstantHeard {
            code: 0,
            kind: 1,
            ending: 0,
            bit,
            slot: slot as u64,
        },
        Told::Last(bit, ending) => InstantHeard {
            code: 0,
            kind: 2,
            ending: ending_number(ending),
            bit,
            slot: 0,
        },
        Told::Ended(ending) => InstantHeard {
            code: 0,
            kind: 3,
            ending: ending_number(ending),
            bit: false,
            slot: 0,
        },
    }
}

/// What was reported, from plain numbers.
pub(crate) fn reported_in(heard: InstantHeard) -> Option<Told>
    ensures { result ≡ reported_in heard }
{
    match heard.kind {
        0 => Some(Told::Nothing),
        1 => Some(Told::Bit(heard.slot as usize, heard.bit)),
        2 => match ending_in(heard.ending) {
            Some(ending) => Some(Told::Last(heard.bit, ending)),
            None => None,
        },
        3 => match ending_in(heard.ending) {
            Some(ending) => Some(Told::Ended(ending)),
            None => None,
        },
        _ => None,
    }
}

/// Nothing was heard, for this reason.
pub(crate) fn heard_refused(code: Code) -> InstantHeard
    ensures { result ≡ heard_code code }
{
    InstantHeard {
        code: code.number(),
        kind: 0,
        ending: 0,
        bit: false,
        slot: 0,
    }
}

/// An instant, where there is one.
pub(crate) fn instant_of(at: Option<u64>) -> Instant
    ensures { result ≡ instant_of at }
{
    match at {
        Some(at) => Instant {
            code: Code::Done.number(),
            at,
        },
        None => Instant {
            code: Code::Absent.number(),
            at: 0,
        },
    }
}

/// No instant, for this reason.
pub(crate) fn instant_refused(code: Code) -> Instant
    ensures { result ≡ instant_refused code }
{
    Instant {
        code: code.number(),
        at: 0,
    }
}

/// What a receiver told is told to a sender as it was.
pub fn what_was_reported_is_reported()
    ensures { (reported : ReportedValue) → reported_in (heard_of reported) ≡ Some reported }
{}
