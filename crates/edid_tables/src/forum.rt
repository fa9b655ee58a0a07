//! The HDMI Forum's capabilities, and its override of the count of extensions.
ghost use Rattle.std.specs.Prelude.{◌≡◌};
ghost use Rattle.edid_fields.specs.Forms.{table_in_code};
ghost use Rattle.edid_tables.specs.Tables.{forum_parts, count_parts, sink_capabilities_parts};

use crate::rows::field_rows;
use edid_fields::{Part, Row, Size, Times};

/// The fields of the capabilities from the version on (HDMI 2.1, section 10.3.2). The clock and the rates of variable refresh are
/// numbers, which rules of their own judge.
const CAPABILITIES: &[Row] = field_rows! {
    0 7 0 "Version" [1 1 ""];
    1 7 0 "Max_TMDS_Character_Rate" [any];
    2 7 7 "SCDC_Present" [flag "SCDC"];
    2 6 6 "read request" [flag "read request"];
    2 5 5 "cable status" [flag "cable status"];
    2 4 4 "CCBPCI" [flag "CCBPCI"];
    2 3 3 "scrambling up to 340 MHz" [flag "scrambling up to 340 MHz"];
    2 2 2 "3D independent view" [flag "3D independent view"];
    2 1 1 "3D dual view" [flag "3D dual view"];
    2 0 0 "3D OSD disparity" [flag "3D OSD disparity"];
    3 7 4 "Max_FRL_Rate" [0 0 "", 1 1 "FRL up to 3 Gbit/s on 3 lanes", 2 2 "FRL up to 6 Gbit/s on 3 lanes", 3 3 "FRL up to 6 Gbit/s on 4 lanes", 4 4 "FRL up to 8 Gbit/s on 4 lanes", 5 5 "FRL up to 10 Gbit/s on 4 lanes", 6 6 "FRL up to 12 Gbit/s on 4 lanes"];
    3 3 3 "UHD VIC" [flag "UHD VIC"];
    3 2 2 "4:2:0 at 48 bits a pixel" [flag "4:2:0 at 48 bits a pixel"];
    3 1 1 "4:2:0 at 36 bits a pixel" [flag "4:2:0 at 36 bits a pixel"];
    3 0 0 "4:2:0 at 30 bits a pixel" [flag "4:2:0 at 30 bits a pixel"];
    4 7 7 "FAPA end extended" [flag "FAPA end extended"];
    4 6 6 "QMS" [flag "QMS"];
    4 5 5 "Mdelta" [flag "Mdelta"];
    4 4 4 "cinema VRR" [flag "cinema VRR"];
    4 3 3 "negative Mvrr" [flag "negative Mvrr"];
    4 2 2 "FVA" [flag "FVA"];
    4 1 1 "ALLM" [flag "ALLM"];
    4 0 0 "FAPA in blanking" [flag "FAPA in blanking"];
    5 7 6 "VRR_max high" [any];
    5 5 0 "VRR_min" [any];
    6 7 0 "VRR_max low" [any];
    7 7 7 "DSC 1.2a" [flag "DSC 1.2a"];
    7 6 6 "DSC in 4:2:0" [flag "DSC in 4:2:0"];
    7 5 5 "QMS TFR max" [flag "QMS TFR max"];
    7 4 4 "QMS TFR min" [flag "QMS TFR min"];
    7 3 3 "DSC at each 1/16 bit a pixel" [flag "DSC at each 1/16 bit a pixel"];
    7 2 2 "DSC at 16 bits" [flag "DSC at 16 bits"];
    7 1 1 "DSC at 12 bits" [flag "DSC at 12 bits"];
    7 0 0 "DSC at 10 bits" [flag "DSC at 10 bits"];
    8 7 4 "DSC_Max_FRL_Rate" [0 0 "", 1 1 "DSC over FRL at 3 Gbit/s on 3 lanes", 2 2 "DSC over FRL at 6 Gbit/s on 3 lanes", 3 3 "DSC over FRL at 6 Gbit/s on 4 lanes", 4 4 "DSC over FRL at 8 Gbit/s on 4 lanes", 5 5 "DSC over FRL at 10 Gbit/s on 4 lanes", 6 6 "DSC over FRL at 12 Gbit/s on 4 lanes"];
    8 3 0 "DSC_MaxSlices" [0 0 "", 1 1 "DSC in 1 slice up to 340 MHz", 2 2 "DSC in 2 slices up to 340 MHz", 3 3 "DSC in 4 slices up to 340 MHz", 4 4 "DSC in 8 slices up to 340 MHz", 5 5 "DSC in 8 slices up to 400 MHz", 6 6 "DSC in 12 slices up to 400 MHz", 7 7 "DSC in 16 slices up to 400 MHz"];
    9 7 6 "reserved" [clear];
    9 5 0 "DSC_TotalChunkKBytes" [any];
};

/// Four bytes are there, the others may be absent.
const CAPABILITIES_SIZE: Size = Size {
    bytes: 10,
    least: 4,
};

/// The vendor block, after its identifier (HDMI 2.1, section 10.3.2).
const FORUM: &[Part] = &[(Times::Once, &[(&[], CAPABILITIES_SIZE, CAPABILITIES)])];

#[tactic(auto, unfolding(crate::specs::Tables::forum_parts))]
pub(crate) fn forum_parts() -> &'static [Part]
    ensures { table_in_code result.now ≡ forum_parts }
{
    FORUM
}

/// The extended block of sink capabilities: two reserved bytes, then the same (HDMI 2.1, section 10.3.6).
const SINK_CAPABILITIES: &[Part] = &[
    (
        Times::Once,
        &[(
            &[],
            Size { bytes: 2, least: 2 },
            field_rows! {
                0 7 0 "reserved 1" [clear];
                1 7 0 "reserved 2" [clear];
            },
        )],
    ),
    (Times::Once, &[(&[], CAPABILITIES_SIZE, CAPABILITIES)]),
];

#[tactic(auto, unfolding(crate::specs::Tables::sink_capabilities_parts))]
pub(crate) fn sink_capabilities_parts() -> &'static [Part]
    ensures { table_in_code result.now ≡ sink_capabilities_parts }
{
    SINK_CAPABILITIES
}

/// The override of the count of extensions (HDMI 2.1, section 10.3.7).
const COUNT: &[Part] = &[(
    Times::Once,
    &[(
        &[],
        Size { bytes: 1, least: 1 },
        field_rows! {
            0 7 0 "EEODB" [any];
        },
    )],
)];

#[tactic(auto, unfolding(crate::specs::Tables::count_parts))]
pub(crate) fn count_parts() -> &'static [Part]
    ensures { table_in_code result.now ≡ count_parts }
{
    COUNT
}
