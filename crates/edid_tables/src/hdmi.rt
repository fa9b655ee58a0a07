//! The HDMI block (HDMI 1.4b, section 8.3.2, tables 8-16 and H-2 to H-5).
ghost use Rattle.std.specs.Prelude.{◌≡◌};
ghost use Rattle.edid_fields.specs.Forms.{table_in_code};
ghost use Rattle.edid_tables.specs.Tables.{hdmi_parts};

use crate::rows::field_rows;
use edid_fields::{Asked, Bits, Part, Size, Test, Times};

/// The form of what is said of 3D.
const MULTI: Bits = Bits {
    part: 3,
    byte: 0,
    high: 6,
    low: 5,
};
/// How many codes of HDMI's own there are.
const CODES: Bits = Bits {
    part: 3,
    byte: 1,
    high: 7,
    low: 5,
};
/// How many bytes say what is there in 3D.
const BYTES_OF_3D: Bits = Bits {
    part: 3,
    byte: 1,
    high: 4,
    low: 0,
};

macro_rules! test {
    ($bits:expr, $least:literal, $greatest:literal) => {
        Test {
            asked: Asked::Value($bits),
            least: $least,
            greatest: $greatest,
        }
    };
}

/// Whether a bit of the byte of presences is set.
macro_rules! present {
    ($bit:literal) => {
        Test {
            asked: Asked::Value(Bits {
                part: 0,
                byte: 4,
                high: $bit,
                low: $bit,
            }),
            least: 1,
            greatest: 1,
        }
    };
}

/// Whether the structure of an entry of this part has a second byte.
macro_rules! has_detail {
    ($part:literal) => {
        Test {
            asked: Asked::Value(Bits {
                part: $part,
                byte: 0,
                high: 3,
                low: 0,
            }),
            least: 8,
            greatest: 15,
        }
    };
}

/// An entry of the list of formats in 3D: the place of a video code, and a structure.
macro_rules! entry_rows {
    ($($detail:tt)*) => {
        field_rows! {
            0 7 4 "2D_VIC_order" [any];
            0 3 0 "3D_Structure" [0 0 "3D frame packing", 1 1 "3D field alternative", 2 2 "3D line alternative", 3 3 "3D side by side (full)", 4 4 "3D L + depth", 5 5 "3D L + depth + graphics", 6 6 "3D top and bottom", 8 8 "3D side by side (half)"];
            $($detail)*
        }
    };
}

/// The entries in so many bytes less some, where the form of 3D is one of these.
macro_rules! entries {
    ($part:literal, $less:literal, $least:literal, $greatest:literal) => {
        (
            Times::Within(BYTES_OF_3D, $less),
            &[
                (
                    &[test!(MULTI, $least, $greatest), has_detail!($part)],
                    Size { bytes: 2, least: 2 },
                    entry_rows! {
                        1 7 4 "3D_Detail" [0 0 "", 1 1 "horizontal", 6 6 "all quincunx", 7 7 "quincunx odd left, odd right", 8 8 "quincunx odd left, even right", 9 9 "quincunx even left, odd right", 10 10 "quincunx even left, even right"];
                        1 3 0 "reserved" [clear];
                    },
                ),
                (
                    &[test!(MULTI, $least, $greatest)],
                    Size { bytes: 1, least: 1 },
                    entry_rows! {},
                ),
            ],
        )
    };
}

/// The block, after its identifier: the address and what follows at once (0), latencies (1, 2), what is said of video (3), codes of
/// HDMI's own (4), and in so many bytes as byte 1 of part 3 says, the structures of the first 16 codes (5), a mask of these codes (6),
/// entries (7 to 9, by the bytes that parts 5 and 6 take of them; 10 of a reserved form). Bytes after these are 0 (11).
const HDMI: &[Part] = &[
    (
        Times::Once,
        &[(
            &[],
            Size { bytes: 5, least: 2 },
            field_rows! {
                0 7 0 "address high" [any];
                1 7 0 "address low" [any];
                2 7 7 "Supports_AI" [flag "AI"];
                2 6 6 "DC_48bit" [any];
                2 5 5 "DC_36bit" [any];
                2 4 4 "DC_30bit" [any];
                2 3 3 "DC_Y444" [any];
                2 2 1 "reserved" [clear];
                2 0 0 "DVI_Dual" [flag "dual-link DVI"];
                3 7 0 "Max_TMDS_Clock" [any];
                4 7 7 "Latency_Fields_Present" [any];
                4 6 6 "I_Latency_Fields_Present" [any];
                4 5 5 "HDMI_Video_present" [any];
                4 4 4 "reserved bit 4" [clear];
                4 3 3 "game content" [flag "game content"];
                4 2 2 "cinema content" [flag "cinema content"];
                4 1 1 "photo content" [flag "photo content"];
                4 0 0 "graphics content" [flag "graphics content"];
            },
        )],
    ),
    (
        Times::Once,
        &[(
            &[present!(7)],
            Size { bytes: 2, least: 2 },
            field_rows! {
                0 7 0 "Video_Latency" [0 0 "video latency unknown", 1 251 "", 255 255 "no video"];
                1 7 0 "Audio_Latency" [0 0 "audio latency unknown", 1 251 "", 255 255 "no audio"];
            },
        )],
    ),
    (
        Times::Once,
        &[(
            &[present!(6)],
            Size { bytes: 2, least: 2 },
            field_rows! {
                0 7 0 "Interlaced_Video_Latency" [0 0 "interlaced video latency unknown", 1 251 "", 255 255 "no interlaced video"];
                1 7 0 "Interlaced_Audio_Latency" [0 0 "audio latency unknown", 1 251 "", 255 255 "no audio"];
            },
        )],
    ),
    (
        Times::Once,
        &[(
            &[present!(5)],
            Size { bytes: 2, least: 2 },
            field_rows! {
                0 7 7 "3D_present" [flag "3D"];
                0 6 5 "3D_Multi_present" [0 0 "", 1 1 "3D of the first 16 codes", 2 2 "3D of some of the first 16 codes"];
                0 4 3 "Image_Size" [0 0 "", 1 1 "size right in its aspect alone", 2 2 "size to 1 cm", 3 3 "size to 5 cm"];
                0 2 0 "reserved" [clear];
                1 7 5 "HDMI_VIC_LEN" [any];
                1 4 0 "HDMI_3D_LEN" [any];
            },
        )],
    ),
    (
        Times::Counted(CODES),
        &[(
            &[],
            Size { bytes: 1, least: 1 },
            field_rows! {
                0 7 0 "HDMI_VIC" [1 4 ""];
            },
        )],
    ),
    (
        Times::Once,
        &[(
            &[test!(MULTI, 1, 2), test!(BYTES_OF_3D, 2, 31)],
            Size { bytes: 2, least: 2 },
            field_rows! {
                0 7 7 "structure 15" [flag "3D side by side (half) quincunx"];
                0 6 6 "structure 14" [clear];
                0 5 5 "structure 13" [clear];
                0 4 4 "structure 12" [clear];
                0 3 3 "structure 11" [clear];
                0 2 2 "structure 10" [clear];
                0 1 1 "structure 9" [clear];
                0 0 0 "structure 8" [flag "3D side by side (half)"];
                1 7 7 "structure 7" [clear];
                1 6 6 "structure 6" [flag "3D top and bottom"];
                1 5 5 "structure 5" [flag "3D L + depth + graphics"];
                1 4 4 "structure 4" [flag "3D L + depth"];
                1 3 3 "structure 3" [flag "3D side by side (full)"];
                1 2 2 "structure 2" [flag "3D line alternative"];
                1 1 1 "structure 1" [flag "3D field alternative"];
                1 0 0 "structure 0" [flag "3D frame packing"];
            },
        )],
    ),
    (
        Times::Once,
        &[(
            &[test!(MULTI, 2, 2), test!(BYTES_OF_3D, 4, 31)],
            Size { bytes: 2, least: 2 },
            field_rows! {
                0 7 0 "3D_MASK high" [any];
                1 7 0 "3D_MASK low" [any];
            },
        )],
    ),
    entries!(7, 0, 0, 0),
    entries!(8, 2, 1, 1),
    entries!(9, 4, 2, 2),
    (
        Times::Within(BYTES_OF_3D, 0),
        &[(
            &[test!(MULTI, 3, 3)],
            Size { bytes: 1, least: 1 },
            field_rows! {
                0 7 0 "of the reserved form" [any];
            },
        )],
    ),
    (
        Times::ToEnd,
        &[(
            &[],
            Size { bytes: 1, least: 1 },
            field_rows! {
                0 7 0 "reserved" [clear];
            },
        )],
    ),
];

#[tactic(auto, unfolding(crate::specs::Tables::hdmi_parts))]
pub(crate) fn hdmi_parts() -> &'static [Part]
    ensures { table_in_code result.now ≡ hdmi_parts }
{
    HDMI
}
