//! Timings by VESA's formulas and by the table of monitor timings.
ghost use Rattle.std.specs.Prelude.{◌≡◌, ◌≤◌, ◌<◌};
ghost use Rattle.edid_displayid.specs.Formulas.{blank_lines, by_formula, by_version, dmt_format, of_mode, of_dmt, progressive, reduced_version_2};

use crate::timing::{TypedFormat, TypedTiming};
use edid_modes::{Formula, Mode, ModeTiming, monitor_timing};

/// Flags from here on say that a picture is two fields.
const INTERLACED: u8 = 128;
/// The unit of a mode's clock in kHz.
const CLOCK_UNIT: u64 = 10;
/// The least time of the vertical blanking, in microseconds.
const LEAST_TIME: u64 = 460;
/// The microseconds of a second.
const SECOND: u64 = 1_000_000;
/// The least lines of the vertical blanking: front porch, sync and back porch.
const LEAST_LINES: u64 = 1 + 8 + 6;
/// The blanking of a line, in pixels.
const ACROSS: u64 = 80;
/// The pixels of a second to a kHz.
const KILOHERTZ: u64 = 1000;

fn of_mode(timing: ModeTiming) -> TypedFormat
    ensures { result ≡ of_mode timing }
{
    TypedFormat::Timing(TypedTiming {
        clock: u64::from(timing.clock) * CLOCK_UNIT,
        width: u64::from(timing.width),
        pixels: u64::from(timing.width) + u64::from(timing.horizontal_blanking),
        lines: u64::from(timing.height) + u64::from(timing.vertical_blanking),
        is_interlaced: INTERLACED <= timing.flags,
    })
}

fn of_dmt(timing: Option<ModeTiming>) -> Option<TypedFormat>
    ensures { result ≡ of_dmt timing }
{
    match timing {
        None => None,
        Some(timing) => Some(of_mode(timing)),
    }
}

fn progressive(clock: u64, width: u64, pixels: u64, lines: u64) -> Option<TypedFormat>
    ensures { result ≡ progressive clock width pixels lines }
{
    Some(TypedFormat::Timing(TypedTiming {
        clock,
        width,
        pixels,
        lines,
        is_interlaced: false,
    }))
}

/// The monitor timing of an identifier, where it has one.
pub(crate) fn dmt_format(identifier: u64) -> Option<TypedFormat>
    ensures { result ≡ dmt_format identifier }
{
    match identifier {
        0x04 => progressive(25_175, 640, 800, 525),
        0x57 => progressive(556_744, 4096, 4176, 2222),
        0x58 => progressive(556_188, 4096, 4176, 2222),
        _ => of_dmt(monitor_timing(identifier)),
    }
}

fn by_formula(formula: Formula, width: u64, height: u64, rate: u64) -> Option<TypedFormat>
    ensures { result ≡ by_formula formula width height rate }
{
    let mode = Mode {
        width,
        height,
        rate,
    };
    match formula.timing(mode) {
        Err(_) => None,
        Ok(timing) => Some(of_mode(timing)),
    }
}

/// The lines of the vertical blanking by reduced blanking of version 2.
fn blank_lines(height: u64, rate: u64) -> u64
    requires height { height ≤ 65536 }
    requires rate { rate ≤ 1024 }
    ensures value { result ≡ blank_lines height rate }
    ensures small { result < 32000000000 }
{
    let by_time = LEAST_TIME * (rate * height) / (SECOND - LEAST_TIME * rate) + 1;
    by_time.max(LEAST_LINES)
}

/// A timing by CVT with reduced blanking of version 2.
pub(crate) fn reduced_version_2(width: u64, height: u64, rate: u64) -> TypedFormat
    requires width { width ≤ 65536 }
    requires height { height ≤ 65536 }
    requires rate { rate ≤ 1024 }
    ensures { result ≡ reduced_version_2 width height rate }
{
    let lines = height + blank_lines(height, rate);
    let pixels = width + ACROSS;
    TypedFormat::Timing(TypedTiming {
        clock: rate * lines * pixels / KILOHERTZ,
        width,
        pixels,
        lines,
        is_interlaced: false,
    })
}

/// A timing by a version of CVT: 0 has the blanking of a tube, 1 and 2 reduced blanking.
pub(crate) fn by_version(version: u64, width: u64, height: u64, rate: u64) -> Option<TypedFormat>
    requires width { width ≤ 65536 }
    requires height { height ≤ 65536 }
    requires rate { rate ≤ 1024 }
    ensures { result ≡ by_version version width height rate }
{
    match version {
        0 => by_formula(Formula::Coordinated, width, height, rate),
        1 => by_formula(Formula::Reduced, width, height, rate),
        2 => Some(reduced_version_2(width, height, rate)),
        _ => None,
    }
}
