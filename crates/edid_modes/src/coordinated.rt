//! Coordinated Video Timings with the blanking of a tube (CVT 1.2, section 5.1).
ghost use Rattle.std.specs.Prelude.{◌≡◌, ◌<◌, ◌≤◌};
ghost use Rattle.edid_modes.specs.Coordinated.{across, back_lines, clock, coordinated, coordinated_by, sync_lines};
ghost use Rattle.edid_modes.specs.Modes.{IsMode};

use crate::mode::Mode;
use crate::timing::{ModeTiming, TOO_FAST, TOO_LONG};

/// The least time of the vertical sync and back porch, in microseconds.
const LEAST_TIME: u64 = 550;
/// The vertical front porch, in lines.
const FRONT: u64 = 3;
/// The least vertical back porch, in lines.
const LEAST_BACK: u64 = 7;
/// The clock comes in steps of 250 kHz: so many are a MHz, and so many times 10 kHz is one.
const STEPS: u64 = 4;

const STEP: u64 = 25;
/// Blanking comes in pairs of cells.
const PAIR: u64 = 16;
/// Digital separate sync, positive down.
const FLAGS: u8 = 0x1c;

// The lines of the vertical sync, by which a display knows the aspect.
pub(crate) fn sync_lines(mode: Mode) -> u64
    requires { IsMode mode }
    ensures value { result ≡ sync_lines mode }
    ensures small { result ≤ 10 }
{
    let (width, height) = (mode.width, mode.height);
    if width * 3 == height * 4 {
        4
    } else if width * 9 == height * 16 {
        5
    } else if width * 10 == height * 16 {
        6
    } else if width * 4 == height * 5 || width * 9 == height * 15 {
        7
    } else {
        10
    }
}

// The lines of the vertical sync and back porch.
fn back_lines(mode: Mode) -> u64
    requires { IsMode mode }
    ensures value { result ≡ back_lines mode }
    ensures small { result < 2000000000 }
{
    let by_time = LEAST_TIME * mode.lines_with(FRONT) / mode.time_left(LEAST_TIME) + 1;
    by_time.max(sync_lines(mode) + LEAST_BACK)
}

// The blanking of a line: 30 in 100 of it less 0.3 for each microsecond, and 20 in 100 at least.
fn across(mode: Mode) -> u64
    requires { IsMode mode }
    ensures { result ≡ across mode }
{
    let (lines, left) = (mode.lines_with(FRONT), mode.time_left(LEAST_TIME));
    if 100 * lines < 3 * left {
        mode.width / 64 * PAIR
    } else {
        mode.width * (300 * lines - 3 * left) / (PAIR * (700 * lines + 3 * left)) * PAIR
    }
}

// The clock, in 10 kHz, of lines with so much blanking.
fn clock(mode: Mode, blanking: u64) -> u64
    requires is_mode { IsMode mode }
    requires short { blanking ≤ 4096 }
    ensures value { result ≡ clock mode blanking }
    ensures small { result ≤ 65536 }
{
    let steps = STEPS * (mode.width + blanking) * mode.lines_with(FRONT)
        / mode.time_left(LEAST_TIME);
    (STEP * steps).min(TOO_FAST)
}

// The timing of a mode whose lines have so much blanking.
fn coordinated_by(mode: Mode, blanking: u64) -> Option<ModeTiming>
    requires is_mode { IsMode mode }
    requires short { blanking ≤ 4096 }
    ensures { result ≡ coordinated_by mode blanking }
{
    let horizontal_sync = (mode.width + blanking) / 100 * 8;
    let timing = ModeTiming {
        clock: clock(mode, blanking) as u32,
        width: mode.width as u32,
        horizontal_blanking: blanking as u32,
        height: mode.height as u32,
        vertical_blanking: (FRONT + back_lines(mode)) as u32,
        horizontal_offset: (blanking / 2).saturating_sub(horizontal_sync) as u32,
        horizontal_sync: horizontal_sync as u32,
        vertical_offset: FRONT as u32,
        vertical_sync: sync_lines(mode) as u32,
        flags: FLAGS,
    };
    timing.where_room()
}

// The timing of a mode; none where a detailed timing has no room for it.
pub(crate) fn coordinated(mode: Mode) -> Option<ModeTiming>
    requires { IsMode mode }
    ensures { result ≡ coordinated mode }
{
    coordinated_by(mode, across(mode).min(TOO_LONG))
}
