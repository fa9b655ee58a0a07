//! The data blocks of DisplayID 2.x.
ghost use Rattle.std.specs.Prelude.{◌≡◌, ◌≤◌, IsTrue};
ghost use Rattle.meaning_displayid.specs.Forms.{form_in_code, is_form};
ghost use Rattle.meaning_displayid.specs.Two.{adaptive_sync, container, features, limits, long_limits, long_timings_x, parameters, parameters_in_mm, product, tiles, timings_ix, timings_vii, timings_vii_420, timings_x, vendor, vesa};

use crate::forms::{Form, Line, Say, block, list};
use meaning_fields::{Choice, Field, FieldSays, choices, field_rows};

/// Product identification (section 4.1), after the maker.
const PRODUCT: &[Field] = field_rows! {
    3 2 1 65536 FieldSays::Number { before: ", code ", times: 1, plus: 0, after: "" };
    5 4 1 4294967296 FieldSays::Above { before: ", serial number ", times: 1, after: "" };
    9 1 1 256 FieldSays::Above { before: ", week ", times: 1, after: "" };
    10 1 1 256 FieldSays::Number { before: " of ", times: 1, plus: 2000, after: "" };
};

const PRODUCT_SAYS: &[Say] = &[
    Say::Named(", product"),
    Say::Bytes {
        before: " of maker ",
        place: 0,
        count: 3,
    },
    Say::Fields(PRODUCT),
    Say::Text {
        before: ", ",
        place: 12,
        count: 116,
    },
];

/// Product identification.
#[tactic(auto, unfolding(crate::specs::Two::product, crate::specs::Forms::width, crate::specs::Forms::lines_width))]
pub(crate) fn product() -> Form
    ensures value { form_in_code result ≡ product }
    ensures form { IsTrue (is_form result) }
{
    block!(12, &[], PRODUCT_SAYS, 128)
}

/// A size in tenths of 1 mm.
const TENTHS: &[Field] = field_rows! {
    0 2 1 65536 FieldSays::Number { before: ", ", times: 1, plus: 0, after: " x " };
    2 2 1 65536 FieldSays::Number { before: "", times: 1, plus: 0, after: " in tenths of 1 mm" };
};

/// A size in millimetres.
const MILLIMETRES: &[Field] = field_rows! {
    0 2 1 65536 FieldSays::Number { before: ", ", times: 1, plus: 0, after: " x " };
    2 2 1 65536 FieldSays::Number { before: "", times: 1, plus: 0, after: " mm" };
};

/// Display parameters (section 4.2).
const PARAMETERS: &[Field] = field_rows! {
    4 2 1 65536 FieldSays::Number { before: ", ", times: 1, plus: 0, after: "x" };
    6 2 1 65536 FieldSays::Number { before: "", times: 1, plus: 0, after: " pixels" };
    8 1 1 8 FieldSays::Words { before: "", texts: choices! { ", left to right, top to bottom"; ", right to left, top to bottom"; ", top to bottom, right to left"; ", bottom to top, right to left"; ", right to left, bottom to top"; ", left to right, bottom to top"; ", bottom to top, left to right"; ", top to bottom, left to right"; } };
    8 1 8 4 FieldSays::Words { before: ", luminances ", texts: choices! { ", luminances guaranteed"; ", luminances for guidance"; } };
    8 1 32 2 FieldSays::Word(", reserved bit 5");
    8 1 64 2 FieldSays::Words { before: "", texts: choices! { ", CIE 1931"; ", CIE 1976"; } };
    8 1 128 2 FieldSays::Words { before: "", texts: choices! { ", speakers"; ", no speakers"; } };
    27 1 1 8 FieldSays::Words { before: ", depth ", texts: choices! { ""; ", 8 bits a colour"; ", 10 bits a colour"; ", 12 bits a colour"; ", 14 bits a colour"; ", 16 bits a colour"; } };
    27 1 8 2 FieldSays::Word(", reserved bit 3");
    27 1 16 8 FieldSays::Words { before: ", technology ", texts: choices! { ""; ", LCD"; ", OLED"; } };
    27 1 128 2 FieldSays::Word(", dark theme preferred");
};

/// The chromaticities of its primaries and of its white, in units of 2^-12.
const PRIMARIES: &[Field] = field_rows! {
    9 2 1 4096 FieldSays::Share { before: ", primary 1 ", plus: 0, by: 4096 };
    10 2 16 4096 FieldSays::Share { before: " ", plus: 0, by: 4096 };
    12 2 1 4096 FieldSays::Share { before: ", primary 2 ", plus: 0, by: 4096 };
    13 2 16 4096 FieldSays::Share { before: " ", plus: 0, by: 4096 };
    15 2 1 4096 FieldSays::Share { before: ", primary 3 ", plus: 0, by: 4096 };
    16 2 16 4096 FieldSays::Share { before: " ", plus: 0, by: 4096 };
    18 2 1 4096 FieldSays::Share { before: ", white ", plus: 0, by: 4096 };
    19 2 16 4096 FieldSays::Share { before: " ", plus: 0, by: 4096 };
};

const TENTHS_SAYS: &[Say] = &[
    Say::Named(", parameters"),
    Say::Fields(TENTHS),
    Say::Fields(PARAMETERS),
];

const MILLIMETRES_SAYS: &[Say] = &[
    Say::Named(", parameters"),
    Say::Fields(MILLIMETRES),
    Say::Fields(PARAMETERS),
];

const PRIMARIES_SAYS: &[Say] = &[Say::Fields(PRIMARIES)];

const LIGHTS_SAYS: &[Say] = &[
    Say::Light {
        before: ", full coverage up to ",
        place: 21,
    },
    Say::Light {
        before: ", 10% coverage up to ",
        place: 23,
    },
    Say::Floor { place: 25 },
    Say::Gamma { place: 28 },
];

const PARAMETERS_LINES: &[Line] = &[
    Line { says: TENTHS_SAYS },
    Line {
        says: PRIMARIES_SAYS,
    },
];

/// Display parameters, with a size in tenths of 1 mm.
#[tactic(auto, unfolding(crate::specs::Two::parameters, crate::specs::Forms::width, crate::specs::Forms::lines_width))]
pub(crate) fn parameters() -> Form
    ensures value { form_in_code result ≡ parameters }
    ensures form { IsTrue (is_form result) }
{
    block!(29, PARAMETERS_LINES, LIGHTS_SAYS, 29)
}

const PARAMETERS_IN_MM_LINES: &[Line] = &[
    Line {
        says: MILLIMETRES_SAYS,
    },
    Line {
        says: PRIMARIES_SAYS,
    },
];

/// Display parameters, with a size in millimetres.
#[tactic(auto, unfolding(crate::specs::Two::parameters_in_mm, crate::specs::Forms::width, crate::specs::Forms::lines_width))]
pub(crate) fn parameters_in_mm() -> Form
    ensures value { form_in_code result ≡ parameters_in_mm }
    ensures form { IsTrue (is_form result) }
{
    block!(29, PARAMETERS_IN_MM_LINES, LIGHTS_SAYS, 29)
}

/// Timings of 20 bytes (section 4.3).
const TIMINGS: &[Field] = field_rows! {
    6 2 1 65536 FieldSays::Number { before: ", h blanking ", times: 1, plus: 1, after: "" };
    8 2 1 32768 FieldSays::Number { before: ", offset ", times: 1, plus: 1, after: "" };
    10 2 1 65536 FieldSays::Number { before: ", width ", times: 1, plus: 1, after: "" };
    9 1 128 2 FieldSays::Words { before: "", texts: choices! { ", -h"; ", +h"; } };
    14 2 1 65536 FieldSays::Number { before: ", v blanking ", times: 1, plus: 1, after: "" };
    16 2 1 32768 FieldSays::Number { before: ", offset ", times: 1, plus: 1, after: "" };
    18 2 1 65536 FieldSays::Number { before: ", width ", times: 1, plus: 1, after: "" };
    17 1 128 2 FieldSays::Words { before: "", texts: choices! { ", -v"; ", +v"; } };
    3 1 128 2 FieldSays::Word(", preferred");
    3 1 32 4 FieldSays::Words { before: ", stereo ", texts: choices! { ""; ", stereo"; ", stereo by the user"; } };
    3 1 16 2 FieldSays::Word(", interlaced");
    3 1 1 16 FieldSays::Words { before: ", aspect ", texts: choices! { ", 1:1"; ", 5:4"; ", 4:3"; ", 15:9"; ", 16:9"; ", 16:10"; ", 64:27"; ", 256:135"; ""; } };
};

/// The same from revision 2 on.
const TIMINGS_420: &[Field] = field_rows! {
    6 2 1 65536 FieldSays::Number { before: ", h blanking ", times: 1, plus: 1, after: "" };
    8 2 1 32768 FieldSays::Number { before: ", offset ", times: 1, plus: 1, after: "" };
    10 2 1 65536 FieldSays::Number { before: ", width ", times: 1, plus: 1, after: "" };
    9 1 128 2 FieldSays::Words { before: "", texts: choices! { ", -h"; ", +h"; } };
    14 2 1 65536 FieldSays::Number { before: ", v blanking ", times: 1, plus: 1, after: "" };
    16 2 1 32768 FieldSays::Number { before: ", offset ", times: 1, plus: 1, after: "" };
    18 2 1 65536 FieldSays::Number { before: ", width ", times: 1, plus: 1, after: "" };
    17 1 128 2 FieldSays::Words { before: "", texts: choices! { ", -v"; ", +v"; } };
    3 1 128 2 FieldSays::Word(", also in YCbCr 4:2:0");
    3 1 32 4 FieldSays::Words { before: ", stereo ", texts: choices! { ""; ", stereo"; ", stereo by the user"; } };
    3 1 16 2 FieldSays::Word(", interlaced");
    3 1 1 16 FieldSays::Words { before: ", aspect ", texts: choices! { ", 1:1"; ", 5:4"; ", 4:3"; ", 15:9"; ", 16:9"; ", 16:10"; ", 64:27"; ", 256:135"; ""; } };
};

const TIMINGS_SAYS: &[Say] = &[Say::Named(", "), Say::Rate(1), Say::Fields(TIMINGS)];

const TIMINGS_420_SAYS: &[Say] = &[Say::Named(", "), Say::Rate(1), Say::Fields(TIMINGS_420)];

/// Timings of type VII, of so many bytes more.
#[tactic(auto, unfolding(crate::specs::Two::timings_vii, crate::specs::Forms::width, crate::specs::Forms::lines_width))]
pub(crate) fn timings_vii(extra: usize) -> Form
    requires { extra ≤ 7 }
    ensures value { form_in_code result ≡ timings_vii extra }
    ensures form { IsTrue (is_form result) }
{
    list!(&[], &[], 0, 20, extra, 0, TIMINGS_SAYS, 20)
}

/// Timings of type VII from revision 2 on.
#[tactic(auto, unfolding(crate::specs::Two::timings_vii_420, crate::specs::Forms::width, crate::specs::Forms::lines_width))]
pub(crate) fn timings_vii_420(extra: usize) -> Form
    requires { extra ≤ 7 }
    ensures value { form_in_code result ≡ timings_vii_420 extra }
    ensures form { IsTrue (is_form result) }
{
    list!(&[], &[], 0, 20, extra, 0, TIMINGS_420_SAYS, 20)
}

/// Timings of six bytes (section 4.3.3).
const TYPE_9: &[Field] = field_rows! {
    1 2 1 65536 FieldSays::Number { before: ", ", times: 1, plus: 1, after: "x" };
    3 2 1 65536 FieldSays::Number { before: "", times: 1, plus: 1, after: "" };
    5 1 1 256 FieldSays::Number { before: " at ", times: 1, plus: 1, after: " Hz" };
    0 1 1 8 FieldSays::Words { before: ", formula ", texts: choices! { ", CVT"; ", CVT with reduced blanking"; ", CVT with reduced blanking of version 2"; } };
    0 1 16 2 FieldSays::Word(", also at 1000/1001 of it");
    0 1 32 4 FieldSays::Words { before: ", stereo ", texts: choices! { ""; ", stereo"; ", stereo by the user"; } };
    0 1 8 2 FieldSays::Hex(", reserved bits ");
    0 1 128 2 FieldSays::Hex(", reserved bits ");
};

const TYPE_9_SAYS: &[Say] = &[Say::Fields(TYPE_9)];

/// Timings of type IX.
#[tactic(auto, unfolding(crate::specs::Two::timings_ix, crate::specs::Forms::width, crate::specs::Forms::lines_width))]
pub(crate) fn timings_ix() -> Form
    ensures value { form_in_code result ≡ timings_ix }
    ensures form { IsTrue (is_form result) }
{
    list!(&[], &[], 0, 6, 0, 0, TYPE_9_SAYS, 6)
}

/// Timings of six bytes (section 4.3.4).
const TYPE_10: &[Field] = field_rows! {
    1 2 1 65536 FieldSays::Number { before: ", ", times: 1, plus: 1, after: "x" };
    3 2 1 65536 FieldSays::Number { before: "", times: 1, plus: 1, after: "" };
    5 1 1 256 FieldSays::Number { before: " at ", times: 1, plus: 1, after: " Hz" };
    0 1 1 8 FieldSays::Words { before: ", formula ", texts: choices! { ", CVT"; ", CVT with reduced blanking"; ", CVT with reduced blanking of version 2"; ", CVT with reduced blanking of version 3"; } };
    0 1 8 2 FieldSays::Word(", early vertical sync");
    0 1 16 2 FieldSays::Word(", also at 1000/1001, or in version 3 160 pixels of blanking");
    0 1 32 4 FieldSays::Words { before: ", stereo ", texts: choices! { ""; ", stereo"; ", stereo by the user"; } };
    0 1 128 2 FieldSays::Word(", also in YCbCr 4:2:0");
};

/// The same of seven bytes or more.
const LONG_TYPE_10: &[Field] = field_rows! {
    1 2 1 65536 FieldSays::Number { before: ", ", times: 1, plus: 1, after: "x" };
    3 2 1 65536 FieldSays::Number { before: "", times: 1, plus: 1, after: "" };
    5 2 1 1024 FieldSays::Number { before: " at ", times: 1, plus: 1, after: " Hz" };
    0 1 1 8 FieldSays::Words { before: ", formula ", texts: choices! { ", CVT"; ", CVT with reduced blanking"; ", CVT with reduced blanking of version 2"; ", CVT with reduced blanking of version 3"; } };
    0 1 8 2 FieldSays::Word(", early vertical sync");
    0 1 16 2 FieldSays::Word(", also at 1000/1001, or in version 3 160 pixels of blanking");
    0 1 32 4 FieldSays::Words { before: ", stereo ", texts: choices! { ""; ", stereo"; ", stereo by the user"; } };
    0 1 128 2 FieldSays::Word(", also in YCbCr 4:2:0");
    6 1 4 8 FieldSays::Above { before: ", horizontal blanking step ", times: 1, after: "" };
    6 1 32 8 FieldSays::Above { before: ", ", times: 35, after: " us more vertical blanking" };
};

const TYPE_10_SAYS: &[Say] = &[Say::Fields(TYPE_10)];

const LONG_TYPE_10_SAYS: &[Say] = &[Say::Fields(LONG_TYPE_10)];

/// Timings of type X.
#[tactic(auto, unfolding(crate::specs::Two::timings_x, crate::specs::Forms::width, crate::specs::Forms::lines_width))]
pub(crate) fn timings_x() -> Form
    ensures value { form_in_code result ≡ timings_x }
    ensures form { IsTrue (is_form result) }
{
    list!(&[], &[], 0, 6, 0, 0, TYPE_10_SAYS, 6)
}

/// Timings of type X, of so many bytes more.
#[tactic(auto, unfolding(crate::specs::Two::long_timings_x, crate::specs::Forms::width, crate::specs::Forms::lines_width))]
pub(crate) fn long_timings_x(extra: usize) -> Form
    requires { extra ≤ 7 }
    ensures value { form_in_code result ≡ long_timings_x extra }
    ensures form { IsTrue (is_form result) }
{
    list!(&[], &[], 0, 6, extra, 0, LONG_TYPE_10_SAYS, 7)
}

/// Limits of dynamic timings (section 4.4).
const LIMITS: &[Field] = field_rows! {
    0 3 1 16777216 FieldSays::Number { before: ", ", times: 1, plus: 1, after: " to " };
    3 3 1 16777216 FieldSays::Number { before: "", times: 1, plus: 1, after: " kHz" };
    6 1 1 256 FieldSays::Number { before: ", ", times: 1, plus: 0, after: " to " };
    7 1 1 256 FieldSays::Number { before: "", times: 1, plus: 0, after: " Hz" };
    8 1 128 2 FieldSays::Word(", seamless");
    8 1 1 128 FieldSays::Hex(", reserved bits ");
};

/// The same from revision 1 on, with a greatest rate of ten bits.
const LONG_LIMITS: &[Field] = field_rows! {
    0 3 1 16777216 FieldSays::Number { before: ", ", times: 1, plus: 1, after: " to " };
    3 3 1 16777216 FieldSays::Number { before: "", times: 1, plus: 1, after: " kHz" };
    6 1 1 256 FieldSays::Number { before: ", ", times: 1, plus: 0, after: " to " };
    7 2 1 1024 FieldSays::Number { before: "", times: 1, plus: 0, after: " Hz" };
    8 1 128 2 FieldSays::Word(", seamless");
    8 1 4 32 FieldSays::Hex(", reserved bits ");
};

const LIMITS_SAYS: &[Say] = &[Say::Named(", dynamic range limits"), Say::Fields(LIMITS)];

const LONG_LIMITS_SAYS: &[Say] = &[
    Say::Named(", dynamic range limits"),
    Say::Fields(LONG_LIMITS),
];

/// Limits of dynamic timings.
#[tactic(auto, unfolding(crate::specs::Two::limits, crate::specs::Forms::width, crate::specs::Forms::lines_width))]
pub(crate) fn limits() -> Form
    ensures value { form_in_code result ≡ limits }
    ensures form { IsTrue (is_form result) }
{
    block!(9, &[], LIMITS_SAYS, 9)
}

/// Limits of dynamic timings from revision 1 on.
#[tactic(auto, unfolding(crate::specs::Two::long_limits, crate::specs::Forms::width, crate::specs::Forms::lines_width))]
pub(crate) fn long_limits() -> Form
    ensures value { form_in_code result ≡ long_limits }
    ensures form { IsTrue (is_form result) }
{
    block!(9, &[], LONG_LIMITS_SAYS, 9)
}

/// Depths of RGB and of YCbCr 4:4:4 (section 4.6).
const DEPTHS: &[Choice] = choices! { " 6"; " 8"; " 10"; " 12"; " 14"; " 16"; };

/// Depths of YCbCr 4:2:2 and 4:2:0.
const FEWER_DEPTHS: &[Choice] = choices! { " 8"; " 10"; " 12"; " 14"; " 16"; };

/// Rates of audio.
const RATES: &[Choice] =
    choices! { " bit 0"; " bit 1"; " bit 2"; " bit 3"; " bit 4"; " 48"; " 44.1"; " 32"; };

/// Colour spaces with their transfer functions.
const SPACES: &[Choice] =
    choices! { " sRGB"; " BT.601"; " BT.709/BT.1886"; " Adobe RGB"; " DCI-P3"; " BT.2020"; " BT.2020/ST 2084"; };

/// The least clock of YCbCr 4:2:0.
const LEAST_420: &[Field] = field_rows! {
    4 1 1 256 FieldSays::Above { before: ", 4:2:0 from ", times: 74250, after: " kHz" };
};

/// Further ones.
const MORE_SPACES: &[Field] = field_rows! {
    7 1 1 256 FieldSays::Hex(", reserved byte ");
    8 1 1 8 FieldSays::Above { before: ", ", times: 1, after: " further combinations" };
    8 1 8 32 FieldSays::Hex(", reserved bits ");
};

/// A colour space and a transfer function.
const COMBINATION: &[Field] = field_rows! {
    0 1 16 16 FieldSays::Words { before: ", colour space ", texts: choices! { ", undefined"; ", sRGB"; ", BT.601"; ", BT.709"; ", Adobe RGB"; ", DCI-P3"; ", BT.2020"; ", custom"; } };
    0 1 1 16 FieldSays::Words { before: " with transfer function ", texts: choices! { " with undefined"; " with sRGB"; " with BT.601"; " with BT.1886"; " with Adobe RGB"; " with DCI-P3"; " with BT.2020"; " with a gamma function"; " with ST 2084"; " with hybrid log-gamma"; " with custom"; } };
};

const RGB_SAYS: &[Say] = &[
    Say::Named(", interface features"),
    Say::Bits {
        before: ", RGB",
        place: 0,
        words: DEPTHS,
        after: " bits",
    },
    Say::Bits {
        before: ", YCbCr 4:4:4",
        place: 1,
        words: DEPTHS,
        after: " bits",
    },
];

const YCC_SAYS: &[Say] = &[
    Say::Bits {
        before: ", YCbCr 4:2:2",
        place: 2,
        words: FEWER_DEPTHS,
        after: " bits",
    },
    Say::Bits {
        before: ", YCbCr 4:2:0",
        place: 3,
        words: FEWER_DEPTHS,
        after: " bits",
    },
    Say::Fields(LEAST_420),
];

const SPACES_SAYS: &[Say] = &[
    Say::Bits {
        before: ", audio at",
        place: 5,
        words: RATES,
        after: " kHz",
    },
    Say::Bits {
        before: ", colours",
        place: 6,
        words: SPACES,
        after: "",
    },
    Say::Fields(MORE_SPACES),
];

const COMBINATION_SAYS: &[Say] = &[Say::Fields(COMBINATION)];

const FEATURES_LINES: &[Line] = &[Line { says: RGB_SAYS }, Line { says: YCC_SAYS }];

/// Interface features.
#[tactic(auto, unfolding(crate::specs::Two::features, crate::specs::Forms::width, crate::specs::Forms::lines_width))]
pub(crate) fn features() -> Form
    ensures value { form_in_code result ≡ features }
    ensures form { IsTrue (is_form result) }
{
    list!(FEATURES_LINES, SPACES_SAYS, 9, 1, 0, 0, COMBINATION_SAYS, 1)
}

/// The topology of tiles (section 4.8).
const TILES: &[Field] = field_rows! {
    0 1 128 2 FieldSays::Word(", in one enclosure");
    0 1 64 2 FieldSays::Word(", with bezels");
    0 1 32 2 FieldSays::Hex(", reserved bits ");
    0 1 8 4 FieldSays::Words { before: ", some alone ", texts: choices! { ""; ", some alone at their place"; } };
    0 1 1 8 FieldSays::Words { before: ", one alone ", texts: choices! { ""; ", one alone at its place"; ", one alone scaled"; ", one alone cloned"; } };
    1 1 16 16 FieldSays::Number { before: ", ", times: 1, plus: 1, after: " across" };
    1 1 1 16 FieldSays::Number { before: ", ", times: 1, plus: 1, after: " down" };
    2 1 16 16 FieldSays::Number { before: ", column ", times: 1, plus: 1, after: "" };
    2 1 1 16 FieldSays::Number { before: ", row ", times: 1, plus: 1, after: "" };
    3 1 1 256 FieldSays::Hex(", high bits ");
    4 2 1 65536 FieldSays::Number { before: ", ", times: 1, plus: 1, after: "x" };
    6 2 1 65536 FieldSays::Number { before: "", times: 1, plus: 1, after: " pixels" };
};

/// Their bezels, in tenths of so many pixels.
const BEZELS: &[Field] = field_rows! {
    8 1 1 256 FieldSays::Above { before: ", bezels times ", times: 1, after: "" };
    9 1 1 256 FieldSays::Above { before: ", top ", times: 1, after: "" };
    10 1 1 256 FieldSays::Above { before: ", bottom ", times: 1, after: "" };
    11 1 1 256 FieldSays::Above { before: ", right ", times: 1, after: "" };
    12 1 1 256 FieldSays::Above { before: ", left ", times: 1, after: "" };
};

/// The tiled product.
const TILED: &[Field] = field_rows! {
    16 2 1 65536 FieldSays::Number { before: ", code ", times: 1, plus: 0, after: "" };
    18 4 1 4294967296 FieldSays::Above { before: ", serial number ", times: 1, after: "" };
};

const ALL_TILES_SAYS: &[Say] = &[
    Say::Named(", tiles"),
    Say::Fields(TILES),
    Say::Fields(BEZELS),
];

const TILED_SAYS: &[Say] = &[
    Say::Named(", of the product"),
    Say::Bytes {
        before: " of maker ",
        place: 13,
        count: 3,
    },
    Say::Fields(TILED),
];

const TILES_LINES: &[Line] = &[Line {
    says: ALL_TILES_SAYS,
}];

/// The topology of tiles.
#[tactic(auto, unfolding(crate::specs::Two::tiles, crate::specs::Forms::width, crate::specs::Forms::lines_width))]
pub(crate) fn tiles() -> Form
    ensures value { form_in_code result ≡ tiles }
    ensures form { IsTrue (is_form result) }
{
    block!(22, TILES_LINES, TILED_SAYS, 22)
}

const CONTAINER_SAYS: &[Say] = &[
    Say::Named(", container"),
    Say::Bytes {
        before: " ",
        place: 0,
        count: 16,
    },
];

/// The container (section 4.9).
#[tactic(auto, unfolding(crate::specs::Two::container, crate::specs::Forms::width, crate::specs::Forms::lines_width))]
pub(crate) fn container() -> Form
    ensures value { form_in_code result ≡ container }
    ensures form { IsTrue (is_form result) }
{
    block!(16, &[], CONTAINER_SAYS, 16)
}

/// Ranges of Adaptive-Sync of six bytes (section 4.10).
const SYNC: &[Field] = field_rows! {
    2 1 1 256 FieldSays::Number { before: ", ", times: 1, plus: 0, after: " to " };
    3 2 1 1024 FieldSays::Number { before: "", times: 1, plus: 1, after: " Hz" };
    0 1 1 2 FieldSays::Word(", native to the panel");
    0 1 4 4 FieldSays::Words { before: ", v-total ", texts: choices! { ", fixed average v-total"; ", fixed average and adaptive v-total"; } };
    0 1 16 2 FieldSays::Word(", seamless");
    1 1 1 256 FieldSays::Above { before: ", a frame at most ", times: 250, after: " us longer" };
    0 1 2 2 FieldSays::Word(", no jitter by longer frames");
    5 1 1 256 FieldSays::Above { before: ", a frame at most ", times: 250, after: " us shorter" };
    0 1 32 2 FieldSays::Word(", no jitter by shorter frames");
    0 1 64 4 FieldSays::Hex(", reserved bits ");
    4 1 4 64 FieldSays::Hex(", reserved bits ");
};

const SYNC_NAME: &[Say] = &[Say::Named(", Adaptive-Sync")];

const SYNC_SAYS: &[Say] = &[Say::Fields(SYNC)];

/// Adaptive-Sync, of ranges of so many bytes more.
#[tactic(auto, unfolding(crate::specs::Two::adaptive_sync, crate::specs::Forms::width, crate::specs::Forms::lines_width))]
pub(crate) fn adaptive_sync(extra: usize) -> Form
    requires { extra ≤ 7 }
    ensures value { form_in_code result ≡ adaptive_sync extra }
    ensures form { IsTrue (is_form result) }
{
    list!(&[], SYNC_NAME, 0, 6, extra, 0, SYNC_SAYS, 6)
}

const VENDOR_SAYS: &[Say] = &[
    Say::Named(", of maker"),
    Say::Bytes {
        before: " ",
        place: 0,
        count: 3,
    },
];

/// A block of a maker (section 4.11).
#[tactic(auto, unfolding(crate::specs::Two::vendor, crate::specs::Forms::width, crate::specs::Forms::lines_width))]
pub(crate) fn vendor() -> Form
    ensures value { form_in_code result ≡ vendor }
    ensures form { IsTrue (is_form result) }
{
    block!(3, &[], VENDOR_SAYS, 3)
}

/// A block of VESA.
const VESA: &[Field] = field_rows! {
    3 1 1 8 FieldSays::Words { before: ", structure ", texts: choices! { ", eDP"; ", DisplayPort"; } };
    3 1 8 16 FieldSays::Hex(", reserved bits ");
    3 1 128 2 FieldSays::Words { before: "", texts: choices! { ", sRGB by default"; ", native colours by default"; } };
    4 1 1 16 FieldSays::Above { before: ", ", times: 1, after: " pixels overlap" };
    4 1 16 2 FieldSays::Word(", reserved bit 4");
    4 1 32 4 FieldSays::Words { before: ", streams ", texts: choices! { ""; ", two streams"; ", four streams"; } };
    4 1 128 2 FieldSays::Word(", reserved bit 7");
};

const VESA_SAYS: &[Say] = &[Say::Named(", of VESA"), Say::Fields(VESA)];

/// A block of VESA.
#[tactic(auto, unfolding(crate::specs::Two::vesa, crate::specs::Forms::width, crate::specs::Forms::lines_width))]
pub(crate) fn vesa() -> Form
    ensures value { form_in_code result ≡ vesa }
    ensures form { IsTrue (is_form result) }
{
    block!(5, &[], VESA_SAYS, 5)
}
