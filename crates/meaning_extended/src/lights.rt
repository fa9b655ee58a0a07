//! Luminances by codes of SMPTE ST 2084 that a block of Dolby may have.
ghost use Rattle.std.specs.Prelude.{◌≡◌, ◌<◌};
ghost use Rattle.meaning_extended.specs.Lights.{floor, peak};

/// The greatest luminances, in cd/m2: of the codes 2055, 2120 and so on in steps of 65, of 12 bits, each the whole number nearest to it
/// (SMPTE ST 2084, section 5.1).
pub const PEAKS: &[u16] = &[
    94, 110, 129, 150, 175, 204, 237, 276, 320, 372, 431, 499, 578, 670, 775, 897, 1037, 1200,
    1387, 1605, 1856, 2147, 2485, 2876, 3330, 3857, 4470, 5183, 6014, 6982, 8113, 9434,
];

/// The least luminances, in thousand millionths of 1 cd/m2: of the codes 0, 20 and so on in steps of 20.
pub const FLOORS: &[u32] = &[
    0,
    636_648,
    2_212_269,
    4_733_859,
    8_278_302,
    12_939_593,
    18_821_613,
    26_036_040,
    34_701_669,
    44_944_245,
    56_896_533,
    70_698_494,
    86_497_537,
    104_448_811,
    124_715_527,
    147_469_310,
    172_890_565,
    201_168_873,
    232_503_393,
    267_103_296,
    305_188_210,
    346_988_687,
    392_746_692,
    442_716_106,
    497_163_262,
    556_367_492,
    620_621_704,
    690_232_982,
    765_523_210,
    846_829_722,
    934_505_984,
    1_028_922_301,
];

/// The greatest luminance by the place of its code, in cd/m2.
pub(crate) fn peak(place: u8) -> u64
    requires { place < 32 }
    ensures value { result ≡ peak place }
    ensures small { result < 65536 }
{
    u64::from(PEAKS[usize::from(place)])
}

/// The least luminance by the place of its code, in thousand millionths of 1 cd/m2.
pub(crate) fn floor(place: u8) -> u64
    requires { place < 32 }
    ensures value { result ≡ floor place }
    ensures small { result < 4294967296 }
{
    u64::from(FLOORS[usize::from(place)])
}
