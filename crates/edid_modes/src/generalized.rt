//! The Generalized Timing Formula (GTF 1.1, section 5), with the default blanking curve.
ghost use Rattle.std.specs.Prelude.{◌≡◌, ◌<◌, ◌≤◌};
ghost use Rattle.edid_modes.specs.Generalized.{across, back_lines, clock, generalized, generalized_by, line_rate};
ghost use Rattle.edid_modes.specs.Modes.{IsMode};

use crate::mode::Mode;
use crate::timing::{ModeTiming, TOO_FAST, TOO_LONG};

/// The time of the vertical sync and back porch, in microseconds.
const LEAST_TIME: u64 = 550;
/// The vertical front porch and the vertical sync, in lines.
const FRONT: u64 = 1;

const SYNC: u32 = 3;
/// Blanking comes in pairs of cells.
const PAIR: u64 = 16;
/// Hz of the unit of clocks.
const UNIT: u64 = 10_000;
/// Digital separate sync, positive down.
const FLAGS: u8 = 0x1c;

// The lines of the vertical sync and back porch, to the nearest.
fn back_lines(mode: Mode) -> u64
    requires { IsMode mode }
    ensures value { result ≡ back_lines mode }
    ensures small { result < 3000000000 }
{
    let left = mode.time_left(LEAST_TIME);
    (2 * LEAST_TIME * mode.lines_with(FRONT) + left) / (2 * left)
}

// The lines of a second.
fn line_rate(mode: Mode) -> u64
    requires { IsMode mode }
    ensures value { result ≡ line_rate mode }
    ensures small { result < 2000000000000 }
{
    mode.rate * (mode.height + back_lines(mode) + FRONT)
}

// The blanking of a line, in pairs of cells to the nearest: 30 in 100 of it less 0.3 for each microsecond.
fn across(mode: Mode) -> u64
    requires { IsMode mode }
    ensures { result ≡ across mode }
{
    let lines = line_rate(mode);
    let part = mode.width * (3 * lines).saturating_sub(30_000);
    let whole = PAIR * (7 * lines + 30_000);
    (2 * part + whole) / (2 * whole) * PAIR
}

// The clock of lines with so much blanking, to the nearest 10 kHz.
fn clock(mode: Mode, blanking: u64) -> u64
    requires is_mode { IsMode mode }
    requires short { blanking ≤ 4096 }
    ensures value { result ≡ clock mode blanking }
    ensures small { result ≤ 65536 }
{
    (((mode.width + blanking) * line_rate(mode) + UNIT / 2) / UNIT).min(TOO_FAST)
}

// The timing of a mode whose lines have so much blanking.
fn generalized_by(mode: Mode, blanking: u64) -> Option<ModeTiming>
    requires is_mode { IsMode mode }
    requires short { blanking ≤ 4096 }
    ensures { result ≡ generalized_by mode blanking }
{
    let horizontal_sync = (mode.width + blanking + 50) / 100 * 8;
    let timing = ModeTiming {
        clock: clock(mode, blanking) as u32,
        width: mode.width as u32,
        horizontal_blanking: blanking as u32,
        height: mode.height as u32,
        vertical_blanking: (FRONT + back_lines(mode)) as u32,
        horizontal_offset: (blanking / 2).saturating_sub(horizontal_sync) as u32,
        horizontal_sync: horizontal_sync as u32,
        vertical_offset: FRONT as u32,
        vertical_sync: SYNC,
        flags: FLAGS,
    };
    timing.where_room()
}

// The timing of a mode; none where a detailed timing has no room for it.
pub(crate) fn generalized(mode: Mode) -> Option<ModeTiming>
    requires { IsMode mode }
    ensures { result ≡ generalized mode }
{
    generalized_by(mode, across(mode).min(TOO_LONG))
}
