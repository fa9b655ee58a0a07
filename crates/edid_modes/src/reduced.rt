//! Coordinated Video Timings with reduced blanking, version 1 (CVT 1.2, section 5.2).
ghost use Rattle.std.specs.Prelude.{◌≡◌, ◌<◌};
ghost use Rattle.edid_modes.specs.Reduced.{blank_lines, reduced};
ghost use Rattle.edid_modes.specs.Modes.{IsMode};

use crate::coordinated::sync_lines;
use crate::mode::Mode;
use crate::timing::{ModeTiming, TOO_FAST};

/// The least time of the vertical blanking, in microseconds.
const LEAST_TIME: u64 = 460;
/// The vertical front porch and the least back porch, in lines.
const FRONT: u64 = 3;

const LEAST_BACK: u64 = 7;
/// The blanking of a line, its front porch and its sync, in pixels.
const ACROSS: u64 = 160;

const OFFSET: u32 = 48;

const SYNC: u32 = 32;
/// The clock comes in steps of 250 kHz, which are so many Hz, and so many times 10 kHz.
const HERTZ: u64 = 250_000;

const STEP: u64 = 25;
/// Digital separate sync, positive across.
const FLAGS: u8 = 0x1a;

// The lines of the vertical blanking.
fn blank_lines(mode: Mode) -> u64
    requires { IsMode mode }
    ensures value { result ≡ blank_lines mode }
    ensures small { result < 2000000000 }
{
    let by_time = LEAST_TIME * mode.lines_with(0) / mode.time_left(LEAST_TIME) + 1;
    by_time.max(FRONT + sync_lines(mode) + LEAST_BACK)
}

// The timing of a mode; none where a detailed timing has no room for it.
pub(crate) fn reduced(mode: Mode) -> Option<ModeTiming>
    requires { IsMode mode }
    ensures { result ≡ reduced mode }
{
    let down = blank_lines(mode);
    let pixels = mode.rate * (mode.height + down) * (mode.width + ACROSS);
    let timing = ModeTiming {
        clock: (STEP * (pixels / HERTZ)).min(TOO_FAST) as u32,
        width: mode.width as u32,
        horizontal_blanking: ACROSS as u32,
        height: mode.height as u32,
        vertical_blanking: down as u32,
        horizontal_offset: OFFSET,
        horizontal_sync: SYNC,
        vertical_offset: FRONT as u32,
        vertical_sync: sync_lines(mode) as u32,
        flags: FLAGS,
    };
    timing.where_room()
}
