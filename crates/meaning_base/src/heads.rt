//! What the first bytes of an extension report that is kept as it is.
ghost use Rattle.std.specs.Prelude.{◌≡◌, ◌≤◌, length, map, IsTrue};
ghost use Rattle.meaning_fields.specs.Fields.{are_fields, row_in_code};
ghost use Rattle.meaning_base.specs.Heads.{cta_of_1_rows, cta_of_2_rows, cta_rows, device_rows, head_rows, map_rows, strings_rows, timing_rows};

use meaning_fields::{Field, FieldSays, choices, field_rows};
use meaning_words::byte_at;

/// The counts of a video timing block (VESA VTB-EXT, version 1).
const TIMING: &[Field] = field_rows! {
    1 1 1 256 FieldSays::Number { before: ", version ", times: 1, plus: 0, after: "" };
    2 1 1 256 FieldSays::Above { before: ", ", times: 1, after: " detailed timings" };
    3 1 1 256 FieldSays::Above { before: ", ", times: 1, after: " CVT codes" };
    4 1 1 256 FieldSays::Above { before: ", ", times: 1, after: " standard timings" };
};

/// The interface and the pixels of display information (VESA DI-EXT, version 1: digital interface, display device).
const DEVICE: &[Field] = field_rows! {
    1 1 1 256 FieldSays::Number { before: ", version ", times: 1, plus: 0, after: "" };
    2 1 1 256 FieldSays::Words { before: ", interface ", texts: choices! { ", analog"; ", DVI"; ", DVI of one link"; ", DVI of two links for resolution"; ", DVI of two links for colour"; ", DVI for consumer electronics"; ", Plug & Display"; ", DFP"; ", OpenLDI of one link"; ", OpenLDI of two links"; ", OpenLDI for consumer electronics"; } };
    9 1 1 256 FieldSays::Above { before: ", clock from ", times: 1, after: " MHz" };
    10 2 1 65536 FieldSays::Above { before: ", clock up to ", times: 1, after: " MHz" };
    17 1 1 256 FieldSays::Above { before: ", pitch ", times: 1, after: " hundredths of 1 mm" };
    18 1 1 256 FieldSays::Above { before: " by ", times: 1, after: " hundredths of 1 mm" };
    19 1 128 2 FieldSays::Word(", fixed pixel format");
    19 1 2 2 FieldSays::Word(", DDC/CI");
};

/// The versions of localized strings (VESA LS-EXT).
const STRINGS: &[Field] = field_rows! {
    1 1 1 256 FieldSays::Number { before: ", version ", times: 1, plus: 0, after: "" };
    2 1 1 256 FieldSays::Number { before: ".", times: 1, plus: 0, after: "" };
    3 1 16 16 FieldSays::Number { before: ", Unicode ", times: 1, plus: 0, after: "" };
    3 1 1 16 FieldSays::Number { before: ".", times: 1, plus: 0, after: "" };
    4 1 1 256 FieldSays::Number { before: ".", times: 1, plus: 0, after: "" };
};

/// The tags that a block map lists of the blocks 2 to 4 (E-EDID A, section 4.1).
const MAP: &[Field] = field_rows! {
    1 1 1 256 FieldSays::Hex(", block 2 of tag ");
    2 1 1 256 FieldSays::Hex(", block 3 of tag ");
    3 1 1 256 FieldSays::Hex(", block 4 of tag ");
};

/// A CTA block of revision 1 (CTA-861, section 7).
const CTA_OF_1: &[Field] = field_rows! {
    2 1 1 256 FieldSays::Above { before: ", timings from byte ", times: 1, after: "" };
};

/// A CTA block of revision 2 and of those that are not known.
const CTA_OF_2: &[Field] = field_rows! {
    2 1 1 256 FieldSays::Above { before: ", timings from byte ", times: 1, after: "" };
    3 1 128 2 FieldSays::Word(", underscans");
    3 1 64 2 FieldSays::Word(", basic audio");
    3 1 32 2 FieldSays::Word(", YCbCr 4:4:4");
    3 1 16 2 FieldSays::Word(", YCbCr 4:2:2");
    3 1 1 16 FieldSays::Above { before: ", ", times: 1, after: " native timings" };
};

#[tactic(auto, unfolding(crate::specs::Heads::timing_rows))]
fn timing_fields() -> &'static [Field]
    ensures value { map row_in_code result.now ≡ timing_rows }
    ensures fields { IsTrue (are_fields result.now) }
    ensures few { length result.now ≤ 8 }
{
    TIMING
}

#[tactic(auto, unfolding(crate::specs::Heads::device_rows))]
fn device_fields() -> &'static [Field]
    ensures value { map row_in_code result.now ≡ device_rows }
    ensures fields { IsTrue (are_fields result.now) }
    ensures few { length result.now ≤ 8 }
{
    DEVICE
}

#[tactic(auto, unfolding(crate::specs::Heads::strings_rows))]
fn strings_fields() -> &'static [Field]
    ensures value { map row_in_code result.now ≡ strings_rows }
    ensures fields { IsTrue (are_fields result.now) }
    ensures few { length result.now ≤ 8 }
{
    STRINGS
}

#[tactic(auto, unfolding(crate::specs::Heads::map_rows))]
fn map_fields() -> &'static [Field]
    ensures value { map row_in_code result.now ≡ map_rows }
    ensures fields { IsTrue (are_fields result.now) }
    ensures few { length result.now ≤ 8 }
{
    MAP
}

#[tactic(auto, unfolding(crate::specs::Heads::cta_of_1_rows))]
fn cta_of_1_fields() -> &'static [Field]
    ensures value { map row_in_code result.now ≡ cta_of_1_rows }
    ensures fields { IsTrue (are_fields result.now) }
    ensures few { length result.now ≤ 8 }
{
    CTA_OF_1
}

#[tactic(auto, unfolding(crate::specs::Heads::cta_of_2_rows))]
fn cta_of_2_fields() -> &'static [Field]
    ensures value { map row_in_code result.now ≡ cta_of_2_rows }
    ensures fields { IsTrue (are_fields result.now) }
    ensures few { length result.now ≤ 8 }
{
    CTA_OF_2
}

fn cta_fields(revision: u8) -> &'static [Field]
    ensures value { map row_in_code result.now ≡ cta_rows revision }
    ensures fields { IsTrue (are_fields result.now) }
    ensures few { length result.now ≤ 8 }
{
    match revision {
        1 => cta_of_1_fields(),
        3 => &[],
        _ => cta_of_2_fields(),
    }
}

/// The fields of the first bytes of an extension, by its tag.
pub(crate) fn head_fields(bytes: &[u8]) -> &'static [Field]
    ensures value { map row_in_code result.now ≡ head_rows bytes.now }
    ensures fields { IsTrue (are_fields result.now) }
    ensures few { length result.now ≤ 8 }
{
    match byte_at(bytes, 0) {
        0x02 => cta_fields(byte_at(bytes, 1)),
        0x10 => timing_fields(),
        0x40 => device_fields(),
        0x50 => strings_fields(),
        0xf0 => map_fields(),
        _ => &[],
    }
}
