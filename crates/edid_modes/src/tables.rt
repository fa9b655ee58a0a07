//! Timings by the numbers of tables: video codes of CTA-861, and monitor timings of VESA.
ghost use Rattle.std.specs.Prelude.{◌≡◌};
ghost use Rattle.edid_modes.specs.Tables.{code_timing, monitor_timing, timing_with};

use crate::timing::ModeTiming;

// Rows of a table: the number, and its timing.
macro_rules! timings {
    ($($number:literal $clock:literal $width:literal $across:literal $height:literal $down:literal $h_offset:literal $h_sync:literal $v_offset:literal $v_sync:literal $flags:literal;)*) => {
        &[$(($number, ModeTiming {
            clock: $clock,
            width: $width,
            horizontal_blanking: $across,
            height: $height,
            vertical_blanking: $down,
            horizontal_offset: $h_offset,
            horizontal_sync: $h_sync,
            vertical_offset: $v_offset,
            vertical_sync: $v_sync,
            flags: $flags,
        }),)*]
    };
}

/// The formats of CTA-861 for which a detailed timing has room (CTA-861-G, table 3 and figures 1 to 4): the code; the clock in 10 kHz; the
/// picture and its blanking, across and down; sync offset and width, across and down; flags. Of two fields one, with the lesser blanking.
const FORMATS: &[(u64, ModeTiming)] = timings! {
    2 2700 720 138 480 45 16 62 9 6 0x18;
    3 2700 720 138 480 45 16 62 9 6 0x18;
    4 7425 1280 370 720 30 110 40 5 5 0x1e;
    5 7425 1920 280 540 22 88 44 2 5 0x9e;
    6 2700 1440 276 240 22 38 124 4 3 0x98;
    7 2700 1440 276 240 22 38 124 4 3 0x98;
    16 14850 1920 280 1080 45 88 44 4 5 0x1e;
    17 2700 720 144 576 49 12 64 5 5 0x18;
    18 2700 720 144 576 49 12 64 5 5 0x18;
    19 7425 1280 700 720 30 440 40 5 5 0x1e;
    20 7425 1920 720 540 22 528 44 2 5 0x9e;
    21 2700 1440 288 288 24 24 126 2 3 0x98;
    22 2700 1440 288 288 24 24 126 2 3 0x98;
    31 14850 1920 720 1080 45 528 44 4 5 0x1e;
    32 7425 1920 830 1080 45 638 44 4 5 0x1e;
    33 7425 1920 720 1080 45 528 44 4 5 0x1e;
    34 7425 1920 280 1080 45 88 44 4 5 0x1e;
    40 14850 1920 720 540 22 528 44 2 5 0x9e;
    41 14850 1280 700 720 30 440 40 5 5 0x1e;
    46 14850 1920 280 540 22 88 44 2 5 0x9e;
    47 14850 1280 370 720 30 110 40 5 5 0x1e;
    63 29700 1920 280 1080 45 88 44 4 5 0x1e;
    64 29700 1920 720 1080 45 528 44 4 5 0x1e;
    95 29700 3840 560 2160 90 176 88 8 10 0x1e;
    97 59400 3840 560 2160 90 176 88 8 10 0x1e;
};

/// The monitor timings for which a detailed timing has room (VESA DMT 1.13), by their identifiers: the same numbers. A border counts as
/// blanking.
const MONITORS: &[(u64, ModeTiming)] = timings! {
    0x01 3150 640 192 350 95 32 64 32 3 0x1a;
    0x02 3150 640 192 400 45 32 64 1 3 0x1c;
    0x03 3550 720 216 400 46 36 72 1 3 0x1c;
    0x05 3150 640 192 480 40 24 40 9 3 0x18;
    0x06 3150 640 200 480 20 16 64 1 3 0x18;
    0x07 3600 640 192 480 29 56 56 1 3 0x18;
    0x08 3600 800 224 600 25 24 72 1 2 0x1e;
    0x09 4000 800 256 600 28 40 128 1 4 0x1e;
    0x0a 5000 800 240 600 66 56 120 37 6 0x1e;
    0x0b 4950 800 256 600 25 16 80 1 3 0x1e;
    0x0c 5625 800 248 600 31 32 64 1 3 0x1e;
    0x0d 7325 800 160 600 36 48 32 3 4 0x1a;
    0x0e 3375 848 240 480 37 16 112 6 8 0x1e;
    0x0f 4490 1024 240 384 24 8 176 0 4 0x9e;
    0x10 6500 1024 320 768 38 24 136 3 6 0x18;
    0x11 7500 1024 304 768 38 24 136 3 6 0x18;
    0x12 7875 1024 288 768 32 16 96 1 3 0x1e;
    0x13 9450 1024 352 768 40 48 96 1 3 0x1e;
    0x14 11550 1024 160 768 45 48 32 3 4 0x1a;
    0x15 10800 1152 448 864 36 64 128 1 3 0x1e;
    0x16 6825 1280 160 768 22 48 32 3 7 0x1a;
    0x17 7950 1280 384 768 30 64 128 3 7 0x1c;
    0x18 10225 1280 416 768 37 80 128 3 7 0x1c;
    0x19 11750 1280 432 768 41 80 136 3 7 0x1c;
    0x1a 14025 1280 160 768 45 48 32 3 7 0x1a;
    0x1b 7100 1280 160 800 23 48 32 3 6 0x1a;
    0x1c 8350 1280 400 800 31 72 128 3 6 0x1c;
    0x1d 10650 1280 416 800 38 80 128 3 6 0x1c;
    0x1e 12250 1280 432 800 43 80 136 3 6 0x1c;
    0x1f 14625 1280 160 800 47 48 32 3 6 0x1a;
    0x20 10800 1280 520 960 40 96 112 1 3 0x1e;
    0x21 14850 1280 448 960 51 64 160 1 3 0x1e;
    0x22 17550 1280 160 960 57 48 32 3 4 0x1a;
    0x23 10800 1280 408 1024 42 48 112 1 3 0x1e;
    0x24 13500 1280 408 1024 42 16 144 1 3 0x1e;
    0x25 15750 1280 448 1024 48 64 160 1 3 0x1e;
    0x26 18725 1280 160 1024 60 48 32 3 7 0x1a;
    0x27 8550 1360 432 768 27 64 112 3 6 0x1e;
    0x28 14825 1360 160 768 45 48 32 3 5 0x1a;
    0x29 10100 1400 160 1050 30 48 32 3 4 0x1a;
    0x2a 12175 1400 464 1050 39 88 144 3 4 0x1c;
    0x2b 15600 1400 496 1050 49 104 144 3 4 0x1c;
    0x2c 17950 1400 512 1050 55 104 152 3 4 0x1c;
    0x2d 20800 1400 160 1050 62 48 32 3 4 0x1a;
    0x2e 8875 1440 160 900 26 48 32 3 6 0x1a;
    0x2f 10650 1440 464 900 34 80 152 3 6 0x1c;
    0x30 13675 1440 496 900 42 96 152 3 6 0x1c;
    0x31 15700 1440 512 900 48 104 152 3 6 0x1c;
    0x32 18275 1440 160 900 53 48 32 3 6 0x1a;
    0x33 16200 1600 560 1200 50 64 192 1 3 0x1e;
    0x34 17550 1600 560 1200 50 64 192 1 3 0x1e;
    0x35 18900 1600 560 1200 50 64 192 1 3 0x1e;
    0x36 20250 1600 560 1200 50 64 192 1 3 0x1e;
    0x37 22950 1600 560 1200 50 64 192 1 3 0x1e;
    0x38 26825 1600 160 1200 71 48 32 3 4 0x1a;
    0x39 11900 1680 160 1050 30 48 32 3 6 0x1a;
    0x3a 14625 1680 560 1050 39 104 176 3 6 0x1c;
    0x3b 18700 1680 592 1050 49 120 176 3 6 0x1c;
    0x3c 21475 1680 608 1050 55 128 176 3 6 0x1c;
    0x3d 24550 1680 160 1050 62 48 32 3 6 0x1a;
    0x3e 20475 1792 656 1344 50 128 200 1 3 0x1c;
    0x3f 26100 1792 664 1344 73 96 216 1 3 0x1c;
    0x40 33325 1792 160 1344 79 48 32 3 4 0x1a;
    0x41 21825 1856 672 1392 47 96 224 1 3 0x1c;
    0x42 28800 1856 704 1392 108 128 224 1 3 0x1c;
    0x43 35650 1856 160 1392 81 48 32 3 4 0x1a;
    0x44 15400 1920 160 1200 35 48 32 3 6 0x1a;
    0x45 19325 1920 672 1200 45 136 200 3 6 0x1c;
    0x46 24525 1920 688 1200 55 136 208 3 6 0x1c;
    0x47 28125 1920 704 1200 62 144 208 3 6 0x1c;
    0x48 31700 1920 160 1200 71 48 32 3 6 0x1a;
    0x49 23400 1920 680 1440 60 128 208 1 3 0x1c;
    0x4a 29700 1920 720 1440 60 144 224 1 3 0x1c;
    0x4b 38050 1920 160 1440 83 48 32 2 3 0x1a;
    0x4c 26850 2560 160 1600 46 48 32 3 6 0x1a;
    0x4d 34850 2560 944 1600 58 192 280 3 6 0x1c;
    0x4e 44325 2560 976 1600 72 208 280 3 6 0x1c;
    0x4f 50525 2560 976 1600 82 208 280 3 6 0x1c;
    0x50 55275 2560 160 1600 94 48 32 3 6 0x1a;
    0x51 8550 1366 426 768 30 70 143 3 3 0x1e;
    0x52 14850 1920 280 1080 45 88 44 4 5 0x1e;
    0x53 10800 1600 200 900 100 24 80 1 3 0x1e;
    0x54 16200 2048 202 1152 48 26 80 1 3 0x1e;
    0x55 7425 1280 370 720 30 110 40 5 5 0x1e;
    0x56 7200 1366 134 768 32 14 56 1 3 0x1e;
};

fn timing_with(rows: &[(u64, ModeTiming)], number: u64) -> Option<ModeTiming>
    ensures { result ≡ timing_with rows.now number }
{
    match rows {
        [] => None,
        [row, rest @ ..] => {
            if row.0 == number {
                Some(row.1)
            } else {
                timing_with(rest, number)
            }
        }
    }
}

/// The timing of a video code; none where a detailed timing has no room for it.
#[tactic(auto, unfolding(crate::specs::Tables::format_rows))]
pub fn code_timing(code: u64) -> Option<ModeTiming>
    ensures { result ≡ code_timing code }
{
    timing_with(FORMATS, code)
}

/// The monitor timing of an identifier; none where a detailed timing has no room for it.
#[tactic(auto, unfolding(crate::specs::Tables::monitor_rows))]
pub fn monitor_timing(identifier: u64) -> Option<ModeTiming>
    ensures { result ≡ monitor_timing identifier }
{
    timing_with(MONITORS, identifier)
}
