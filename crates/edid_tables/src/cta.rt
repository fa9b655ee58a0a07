//! Blocks of CTA-861.
ghost use Rattle.std.specs.Prelude.{◌≡◌};
ghost use Rattle.edid_fields.specs.Forms.{table_in_code};
ghost use Rattle.edid_tables.specs.Tables.{video_parts, speakers_parts, capability_parts, colorimetry_parts, hdr_parts, preferences_parts, video_420_parts, map_420_parts};

use crate::rows::field_rows;
use edid_fields::{Part, Size, Times};

/// A part of one byte.
const BYTE: Size = Size { bytes: 1, least: 1 };

/// Video capability (CTA-861-H, section 7.5.6).
const CAPABILITY: &[Part] = &[(
    Times::Once,
    &[(
        &[],
        Size { bytes: 1, least: 1 },
        field_rows! {
            0 7 7 "QY" [flag "YCC range selectable"];
            0 6 6 "QS" [flag "RGB range selectable"];
            0 5 4 "S_PT" [0 0 "", 1 1 "overscanned", 2 2 "underscanned", 3 3 "over- or underscanned"];
            0 3 2 "S_IT" [0 0 "not supported", 1 1 "overscanned", 2 2 "underscanned", 3 3 "over- or underscanned"];
            0 1 0 "S_CE" [0 0 "not supported", 1 1 "overscanned", 2 2 "underscanned", 3 3 "over- or underscanned"];
        },
    )],
)];

#[tactic(auto, unfolding(crate::specs::Tables::capability_parts))]
pub(crate) fn capability_parts() -> &'static [Part]
    ensures { table_in_code result.now ≡ capability_parts }
{
    CAPABILITY
}

/// Colorimetry (CTA-861-H, section 7.5.5).
const COLORIMETRY: &[Part] = &[(
    Times::Once,
    &[(
        &[],
        Size { bytes: 2, least: 2 },
        field_rows! {
            0 7 7 "BT2020RGB" [flag "BT2020RGB"];
            0 6 6 "BT2020YCC" [flag "BT2020YCC"];
            0 5 5 "BT2020cYCC" [flag "BT2020cYCC"];
            0 4 4 "opRGB" [flag "opRGB"];
            0 3 3 "opYCC601" [flag "opYCC601"];
            0 2 2 "sYCC601" [flag "sYCC601"];
            0 1 1 "xvYCC709" [flag "xvYCC709"];
            0 0 0 "xvYCC601" [flag "xvYCC601"];
            1 7 7 "DCI-P3" [flag "DCI-P3"];
            1 6 6 "ICtCp" [flag "ICtCp"];
            1 5 5 "sRGB" [flag "sRGB"];
            1 4 4 "default RGB" [flag "default RGB"];
            1 3 3 "gamut metadata 3" [flag "gamut metadata 3"];
            1 2 2 "gamut metadata 2" [flag "gamut metadata 2"];
            1 1 1 "gamut metadata 1" [flag "gamut metadata 1"];
            1 0 0 "gamut metadata 0" [flag "gamut metadata 0"];
        },
    )],
)];

#[tactic(auto, unfolding(crate::specs::Tables::colorimetry_parts))]
pub(crate) fn colorimetry_parts() -> &'static [Part]
    ensures { table_in_code result.now ≡ colorimetry_parts }
{
    COLORIMETRY
}

/// Static metadata of HDR (CTA-861-H, section 7.5.13): the luminances may be absent.
const HDR: &[Part] = &[(
    Times::Once,
    &[(
        &[],
        Size { bytes: 5, least: 2 },
        field_rows! {
            0 7 7 "ET_7" [clear];
            0 6 6 "ET_6" [clear];
            0 5 5 "ET_5" [clear];
            0 4 4 "ET_4" [clear];
            0 3 3 "hybrid log-gamma" [flag "hybrid log-gamma"];
            0 2 2 "SMPTE ST 2084" [flag "SMPTE ST 2084"];
            0 1 1 "traditional gamma HDR" [flag "traditional gamma HDR"];
            0 0 0 "traditional gamma SDR" [flag "traditional gamma SDR"];
            1 7 7 "SM_7" [clear];
            1 6 6 "SM_6" [clear];
            1 5 5 "SM_5" [clear];
            1 4 4 "SM_4" [clear];
            1 3 3 "SM_3" [clear];
            1 2 2 "SM_2" [clear];
            1 1 1 "SM_1" [clear];
            1 0 0 "SM_0" [flag "static metadata type 1"];
            2 7 0 "Desired Content Max Luminance" [any];
            3 7 0 "Desired Content Max Frame-average Luminance" [any];
            4 7 0 "Desired Content Min Luminance" [any];
        },
    )],
)];

#[tactic(auto, unfolding(crate::specs::Tables::hdr_parts))]
pub(crate) fn hdr_parts() -> &'static [Part]
    ensures { table_in_code result.now ≡ hdr_parts }
{
    HDR
}

/// Preferred formats, one at least (CTA-861-I, section 7.5.12): video codes, and timings by their number.
const PREFERENCES: &[Part] = &[
    (
        Times::Once,
        &[(
            &[],
            BYTE,
            field_rows! {
                0 7 0 "SVR" [1 127 "", 129 144 "", 145 160 "", 161 175 "", 193 253 "", 254 254 "first timing by a code of DMT"];
            },
        )],
    ),
    (
        Times::ToEnd,
        &[(
            &[],
            BYTE,
            field_rows! {
                0 7 0 "SVR" [1 127 "", 129 144 "", 145 160 "", 161 175 "", 193 253 "", 254 254 "first timing by a code of DMT"];
            },
        )],
    ),
];

#[tactic(auto, unfolding(crate::specs::Tables::preferences_parts))]
pub(crate) fn preferences_parts() -> &'static [Part]
    ensures { table_in_code result.now ≡ preferences_parts }
{
    PREFERENCES
}

/// Video codes, those of 129 to 192 native (CTA-861-H, section 7.5.1, tables 3 and 59).
const VIDEO: &[Part] = &[(
    Times::ToEnd,
    &[(
        &[],
        BYTE,
        field_rows! {
            0 7 0 "SVD" [1 127 "", 129 192 "native", 193 219 ""];
        },
    )],
)];

#[tactic(auto, unfolding(crate::specs::Tables::video_parts))]
pub(crate) fn video_parts() -> &'static [Part]
    ensures { table_in_code result.now ≡ video_parts }
{
    VIDEO
}

/// Video codes in 4:2:0 alone (CTA-861-H, section 7.5.10).
const VIDEO_420: &[Part] = &[(
    Times::ToEnd,
    &[(
        &[],
        BYTE,
        field_rows! {
            0 7 0 "SVD" [1 127 "", 193 219 ""];
        },
    )],
)];

#[tactic(auto, unfolding(crate::specs::Tables::video_420_parts))]
pub(crate) fn video_420_parts() -> &'static [Part]
    ensures { table_in_code result.now ≡ video_420_parts }
{
    VIDEO_420
}

/// A bit for each video code that is there in 4:2:0 too (CTA-861-H, section 7.5.11).
const MAP_420: &[Part] = &[(
    Times::ToEnd,
    &[(
        &[],
        BYTE,
        field_rows! {
            0 7 7 "bit 7" [any];
            0 6 6 "bit 6" [any];
            0 5 5 "bit 5" [any];
            0 4 4 "bit 4" [any];
            0 3 3 "bit 3" [any];
            0 2 2 "bit 2" [any];
            0 1 1 "bit 1" [any];
            0 0 0 "bit 0" [any];
        },
    )],
)];

#[tactic(auto, unfolding(crate::specs::Tables::map_420_parts))]
pub(crate) fn map_420_parts() -> &'static [Part]
    ensures { table_in_code result.now ≡ map_420_parts }
{
    MAP_420
}

/// Speakers (CTA-861-H, section 7.5.3).
const SPEAKERS: &[Part] = &[(
    Times::Once,
    &[(
        &[],
        Size { bytes: 3, least: 3 },
        field_rows! {
            0 7 7 "FLw FRw" [flag "FLw FRw"];
            0 6 6 "RLC RRC" [flag "RLC RRC"];
            0 5 5 "FLc FRc" [flag "FLc FRc"];
            0 4 4 "BC" [flag "BC"];
            0 3 3 "BL BR" [flag "BL BR"];
            0 2 2 "FC" [flag "FC"];
            0 1 1 "LFE" [flag "LFE"];
            0 0 0 "FL FR" [flag "FL FR"];
            1 7 7 "TpSiL TpSiR" [flag "TpSiL TpSiR"];
            1 6 6 "SiL SiR" [flag "SiL SiR"];
            1 5 5 "TpBC" [flag "TpBC"];
            1 4 4 "LFE2" [flag "LFE2"];
            1 3 3 "LS RS" [flag "LS RS"];
            1 2 2 "TpFC" [flag "TpFC"];
            1 1 1 "TpC" [flag "TpC"];
            1 0 0 "TpFL TpFR" [flag "TpFL TpFR"];
            2 7 7 "reserved 23" [clear];
            2 6 6 "reserved 22" [clear];
            2 5 5 "reserved 21" [clear];
            2 4 4 "LSd RSd" [flag "LSd RSd"];
            2 3 3 "TpLS TpRS" [flag "TpLS TpRS"];
            2 2 2 "BtFL BtFR" [flag "BtFL BtFR"];
            2 1 1 "BtFC" [flag "BtFC"];
            2 0 0 "TpBL TpBR" [flag "TpBL TpBR"];
        },
    )],
)];

#[tactic(auto, unfolding(crate::specs::Tables::speakers_parts))]
pub(crate) fn speakers_parts() -> &'static [Part]
    ensures { table_in_code result.now ≡ speakers_parts }
{
    SPEAKERS
}
