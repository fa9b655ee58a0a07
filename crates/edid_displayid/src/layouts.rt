//! How the bytes of a timing say it, by its type.
ghost use Rattle.std.specs.Prelude.{◌≡◌, ◌≤◌, ◌+◌, ◌*◌, slice_index};
ghost use Rattle.edid_displayid.specs.Layouts.{aspect_lines, type_iii, type_ii, type_v, type_ix, clock_of, type_i, format_of, layout_len, type_vi, width_in_cells};

use crate::bytes::{byte_at, two_at};
use crate::formulas::{by_version, dmt_format, reduced_version_2};
use crate::timing::{TypedFormat, TypedTiming};

/// How the bytes of a timing say it.
#[derive(Clone, Copy, Debug, PartialEq, Eq)]
pub enum Layout {
    /// Type I.
    TypeI,
    /// Type II.
    TypeII,
    /// Type III.
    TypeIII,
    /// Type V.
    TypeV,
    /// Type VI.
    TypeVI,
    /// Type VII.
    TypeVII,
    /// Types IX and X.
    TypeIX,
    /// An identifier of a monitor timing.
    Dmt,
    /// A video code of CTA-861.
    Vic,
}

/// The clock of a timing of types I, II and VII, in kHz.
fn clock_of(unit: u64, timing: &[u8]) -> u64
    requires { unit ≤ 10 }
    ensures { result ≡ clock_of unit timing.now }
{
    (byte_at(timing, 0) + byte_at(timing, 1) * 256 + byte_at(timing, 2) * 65_536 + 1) * unit
}

/// A timing of types I and VII.
fn type_i(unit: u64, timing: &[u8]) -> TypedFormat
    requires { unit ≤ 10 }
    ensures { result ≡ type_i unit timing.now }
{
    TypedFormat::Timing(TypedTiming {
        clock: clock_of(unit, timing),
        width: two_at(timing, 4),
        pixels: two_at(timing, 4) + two_at(timing, 6),
        lines: two_at(timing, 12) + two_at(timing, 14),
        is_interlaced: byte_at(timing, 3) / 16 % 2 == 1,
    })
}

/// The pixels of a timing of type II that are shown.
fn width_in_cells(timing: &[u8]) -> u64
    ensures value { result ≡ width_in_cells timing.now }
    ensures few { result ≤ 4096 }
{
    (byte_at(timing, 4) + byte_at(timing, 5) % 2 * 256 + 1) * 8
}

/// A timing of type II.
fn type_ii(timing: &[u8]) -> TypedFormat
    ensures { result ≡ type_ii timing.now }
{
    let blanking = (byte_at(timing, 5) / 2 + 1) * 8;
    let height = byte_at(timing, 7) + byte_at(timing, 8) % 16 * 256 + 1;
    TypedFormat::Timing(TypedTiming {
        clock: clock_of(10, timing),
        width: width_in_cells(timing),
        pixels: width_in_cells(timing) + blanking,
        lines: height + byte_at(timing, 9) + 1,
        is_interlaced: byte_at(timing, 3) / 16 % 2 == 1,
    })
}

/// The lines of so wide a picture by the code of its aspect; 0 where it is not known.
fn aspect_lines(aspect: u64, width: u64) -> u64
    requires { width ≤ 2048 }
    ensures value { result ≡ aspect_lines aspect width }
    ensures few { result ≤ 65536 }
{
    match aspect {
        0 => width,
        1 => width * 4 / 5,
        2 => width * 3 / 4,
        3 => width * 9 / 15,
        4 => width * 9 / 16,
        5 => width * 10 / 16,
        6 => width * 27 / 64,
        7 => width * 135 / 256,
        _ => 0,
    }
}

/// A timing of type III.
fn type_iii(timing: &[u8]) -> Option<TypedFormat>
    ensures { result ≡ type_iii timing.now }
{
    let (head, rate) = (byte_at(timing, 0), byte_at(timing, 2));
    let width = (byte_at(timing, 1) + 1) * 8;
    let version = head / 16 % 8;
    if 1 < version || 128 <= rate {
        return None;
    }
    by_version(version, width, aspect_lines(head % 16, width), rate + 1)
}

/// A timing of type V.
fn type_v(timing: &[u8]) -> Option<TypedFormat>
    ensures { result ≡ type_v timing.now }
{
    if byte_at(timing, 0) % 4 == 0 {
        Some(reduced_version_2(two_at(timing, 2), two_at(timing, 4), byte_at(timing, 6) + 1))
    } else {
        None
    }
}

/// A timing of type VI.
fn type_vi(timing: &[u8]) -> TypedFormat
    ensures { result ≡ type_vi timing.now }
{
    let width = byte_at(timing, 3) + byte_at(timing, 4) % 64 * 256 + 1;
    let height = byte_at(timing, 5) + byte_at(timing, 6) % 64 * 256 + 1;
    TypedFormat::Timing(TypedTiming {
        clock: byte_at(timing, 0) + byte_at(timing, 1) * 256 + byte_at(timing, 2) % 64 * 65_536 + 1,
        width,
        pixels: width + byte_at(timing, 7) + byte_at(timing, 9) % 16 * 256 + 1,
        lines: height + byte_at(timing, 11) + 1,
        is_interlaced: byte_at(timing, 13) / 128 % 2 == 1,
    })
}

/// A timing of types IX and X.
fn type_ix(timing: &[u8]) -> Option<TypedFormat>
    ensures { result ≡ type_ix timing.now }
{
    by_version(
        byte_at(timing, 0) % 8,
        two_at(timing, 1),
        two_at(timing, 3),
        byte_at(timing, 5) + byte_at(timing, 6) % 4 * 256 + 1,
    )
}

impl Layout {
    /// The least bytes of a timing.
    pub(crate) fn len(self) -> usize
        ensures value { result ≡ layout_len self }
        ensures some { 1 ≤ result }
        ensures few { result ≤ 20 }
    {
        match self {
            Layout::TypeI | Layout::TypeVII => 20,
            Layout::TypeII => 11,
            Layout::TypeIII => 3,
            Layout::TypeV => 7,
            Layout::TypeVI => 14,
            Layout::TypeIX => 6,
            Layout::Dmt | Layout::Vic => 1,
        }
    }

    /// The format that bytes say; none where it is not known.
    #[tactic(auto, unfolding(crate::specs::Layouts::format_of))]
    pub(crate) fn format(self, bytes: &[u8]) -> Option<TypedFormat>
        ensures { result ≡ format_of self bytes.now }
    {
        match self {
            Layout::TypeI => Some(type_i(10, bytes)),
            Layout::TypeII => Some(type_ii(bytes)),
            Layout::TypeIII => type_iii(bytes),
            Layout::TypeV => type_v(bytes),
            Layout::TypeVI => Some(type_vi(bytes)),
            Layout::TypeVII => Some(type_i(1, bytes)),
            Layout::TypeIX => type_ix(bytes),
            Layout::Dmt => dmt_format(byte_at(bytes, 0)),
            Layout::Vic => match bytes {
                [] => None,
                [code, ..] => Some(TypedFormat::Code(*code)),
            },
        }
    }
}
