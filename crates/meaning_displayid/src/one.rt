//! The data blocks of DisplayID 1.3.
ghost use Rattle.std.specs.Prelude.{◌≡◌, ◌≤◌, IsTrue};
ghost use Rattle.meaning_displayid.specs.Forms.{form_in_code, is_form};
ghost use Rattle.meaning_displayid.specs.One.{colours, curves, device, dmt_codes, hdmi_vic_codes, interface, limits, parameters, power, product, serial, short_interface, short_tiles, space, stereo, string, tiles, timings_i, timings_ii, timings_iii, timings_v, timings_vi, vic_codes};

use crate::forms::{Form, Line, Say, block, list};
use meaning_fields::{Choice, Field, FieldSays, choices, field_rows};

/// Product identification (section 4.1), after the maker.
const PRODUCT: &[Field] = field_rows! {
    3 2 1 65536 FieldSays::Number { before: ", code ", times: 1, plus: 0, after: "" };
    5 4 1 4294967296 FieldSays::Above { before: ", serial number ", times: 1, after: "" };
    9 1 1 256 FieldSays::Above { before: ", week ", times: 1, after: "" };
    10 1 1 256 FieldSays::Number { before: " of ", times: 1, plus: 2000, after: "" };
};

const PRODUCT_SAYS: &[Say] = &[
    Say::Named(", product"),
    Say::Text {
        before: " of ",
        place: 0,
        count: 3,
    },
    Say::Fields(PRODUCT),
    Say::Text {
        before: ", ",
        place: 12,
        count: 116,
    },
];

/// Product identification.
#[tactic(auto, unfolding(crate::specs::One::product, crate::specs::Forms::width, crate::specs::Forms::lines_width))]
pub(crate) fn product() -> Form
    ensures value { form_in_code result ≡ product }
    ensures form { IsTrue (is_form result) }
{
    block!(12, &[], PRODUCT_SAYS, 128)
}

/// Display parameters (section 4.2).
const PARAMETERS: &[Field] = field_rows! {
    0 2 1 65536 FieldSays::Number { before: ", ", times: 1, plus: 0, after: " x " };
    2 2 1 65536 FieldSays::Number { before: "", times: 1, plus: 0, after: " in tenths of 1 mm" };
    4 2 1 65536 FieldSays::Number { before: ", ", times: 1, plus: 0, after: "x" };
    6 2 1 65536 FieldSays::Number { before: "", times: 1, plus: 0, after: " pixels" };
    8 1 128 2 FieldSays::Word(", audio");
    8 1 64 2 FieldSays::Word(", separate audio");
    8 1 32 2 FieldSays::Word(", audio override");
    8 1 16 2 FieldSays::Word(", power management");
    8 1 8 2 FieldSays::Word(", fixed timing");
    8 1 4 2 FieldSays::Word(", fixed format");
    8 1 2 2 FieldSays::Word(", AI");
    8 1 1 2 FieldSays::Word(", deinterlacing");
    9 1 1 256 FieldSays::Number { before: ", gamma code ", times: 1, plus: 0, after: "" };
    10 1 1 256 FieldSays::Share { before: ", aspect ", plus: 100, by: 100 };
    11 1 1 16 FieldSays::Number { before: ", native ", times: 1, plus: 1, after: " bits a colour" };
    11 1 16 16 FieldSays::Number { before: ", overall ", times: 1, plus: 1, after: " bits a colour" };
};

const PARAMETERS_SAYS: &[Say] = &[Say::Named(", parameters"), Say::Fields(PARAMETERS)];

/// Display parameters.
#[tactic(auto, unfolding(crate::specs::One::parameters, crate::specs::Forms::width, crate::specs::Forms::lines_width))]
pub(crate) fn parameters() -> Form
    ensures value { form_in_code result ≡ parameters }
    ensures form { IsTrue (is_form result) }
{
    block!(12, &[], PARAMETERS_SAYS, 12)
}

/// Colour characteristics (section 4.3).
const COLOURS: &[Field] = field_rows! {
    0 1 128 2 FieldSays::Words { before: "", texts: choices! { ", spatial"; ", temporal"; } };
    0 1 16 8 FieldSays::Number { before: ", ", times: 1, plus: 0, after: " primaries" };
    0 1 1 16 FieldSays::Number { before: ", ", times: 1, plus: 0, after: " white points" };
};

/// A colour space in the place of primaries.
const SPACE: &[Field] = field_rows! {
    1 1 1 256 FieldSays::Words { before: ", colour space ", texts: choices! { ", sRGB"; ", BT.601"; ", BT.709"; ", Adobe RGB"; ", DCI-P3"; ", NTSC"; ", EBU"; ", Adobe Wide Gamut RGB"; ", DICOM"; } };
};

/// A chromaticity, in units of 2^-12.
const POINT: &[Field] = field_rows! {
    0 2 1 4096 FieldSays::Share { before: ", ", plus: 0, by: 4096 };
    1 2 16 4096 FieldSays::Share { before: " ", plus: 0, by: 4096 };
};

const COLOURS_SAYS: &[Say] = &[Say::Named(", colours"), Say::Fields(COLOURS)];

const SPACE_SAYS: &[Say] = &[
    Say::Named(", colours"),
    Say::Fields(COLOURS),
    Say::Fields(SPACE),
];

const POINT_SAYS: &[Say] = &[Say::Fields(POINT)];

/// Colour characteristics.
#[tactic(auto, unfolding(crate::specs::One::colours, crate::specs::Forms::width, crate::specs::Forms::lines_width))]
pub(crate) fn colours() -> Form
    ensures value { form_in_code result ≡ colours }
    ensures form { IsTrue (is_form result) }
{
    list!(&[], COLOURS_SAYS, 1, 3, 0, 0, POINT_SAYS, 3)
}

/// Colour characteristics of a colour space.
#[tactic(auto, unfolding(crate::specs::One::space, crate::specs::Forms::width, crate::specs::Forms::lines_width))]
pub(crate) fn space() -> Form
    ensures value { form_in_code result ≡ space }
    ensures form { IsTrue (is_form result) }
{
    list!(&[], SPACE_SAYS, 2, 3, 0, 0, POINT_SAYS, 3)
}

/// Timings of 20 bytes (section 4.4.1).
const TIMINGS: &[Field] = field_rows! {
    6 2 1 65536 FieldSays::Number { before: ", h blanking ", times: 1, plus: 1, after: "" };
    8 2 1 32768 FieldSays::Number { before: ", offset ", times: 1, plus: 1, after: "" };
    10 2 1 65536 FieldSays::Number { before: ", width ", times: 1, plus: 1, after: "" };
    9 1 128 2 FieldSays::Words { before: "", texts: choices! { ", -h"; ", +h"; } };
    14 2 1 65536 FieldSays::Number { before: ", v blanking ", times: 1, plus: 1, after: "" };
    16 2 1 32768 FieldSays::Number { before: ", offset ", times: 1, plus: 1, after: "" };
    18 2 1 65536 FieldSays::Number { before: ", width ", times: 1, plus: 1, after: "" };
    17 1 128 2 FieldSays::Words { before: "", texts: choices! { ", -v"; ", +v"; } };
    3 1 128 2 FieldSays::Word(", preferred");
    3 1 32 4 FieldSays::Words { before: ", stereo ", texts: choices! { ""; ", stereo"; ", stereo by the user"; } };
    3 1 16 2 FieldSays::Word(", interlaced");
    3 1 1 16 FieldSays::Words { before: ", aspect ", texts: choices! { ", 1:1"; ", 5:4"; ", 4:3"; ", 15:9"; ", 16:9"; ", 16:10"; ", 64:27"; ", 256:135"; ""; } };
};

const TIMINGS_SAYS: &[Say] = &[Say::Named(", "), Say::Rate(10), Say::Fields(TIMINGS)];

/// Timings of type I.
#[tactic(auto, unfolding(crate::specs::One::timings_i, crate::specs::Forms::width, crate::specs::Forms::lines_width))]
pub(crate) fn timings_i() -> Form
    ensures value { form_in_code result ≡ timings_i }
    ensures form { IsTrue (is_form result) }
{
    list!(&[], &[], 0, 20, 0, 0, TIMINGS_SAYS, 20)
}

/// Timings of 11 bytes (section 4.4.2).
const TYPE_2: &[Field] = field_rows! {
    4 2 1 512 FieldSays::Number { before: ", ", times: 8, plus: 8, after: "x" };
    7 2 1 4096 FieldSays::Number { before: "", times: 1, plus: 1, after: "" };
    0 3 1 16777216 FieldSays::Number { before: ", ", times: 10, plus: 10, after: " kHz" };
    5 1 2 128 FieldSays::Number { before: ", h blanking ", times: 8, plus: 8, after: "" };
    6 1 16 16 FieldSays::Number { before: ", offset ", times: 8, plus: 8, after: "" };
    6 1 1 16 FieldSays::Number { before: ", width ", times: 8, plus: 8, after: "" };
    3 1 8 2 FieldSays::Words { before: "", texts: choices! { ", -h"; ", +h"; } };
    9 1 1 256 FieldSays::Number { before: ", v blanking ", times: 1, plus: 1, after: "" };
    10 1 16 16 FieldSays::Number { before: ", offset ", times: 1, plus: 1, after: "" };
    10 1 1 16 FieldSays::Number { before: ", width ", times: 1, plus: 1, after: "" };
    3 1 4 2 FieldSays::Words { before: "", texts: choices! { ", -v"; ", +v"; } };
    3 1 128 2 FieldSays::Word(", preferred");
    3 1 32 4 FieldSays::Words { before: ", stereo ", texts: choices! { ""; ", stereo"; ", stereo by the user"; } };
    3 1 16 2 FieldSays::Word(", interlaced");
};

const TYPE_2_SAYS: &[Say] = &[Say::Fields(TYPE_2)];

/// Timings of type II.
#[tactic(auto, unfolding(crate::specs::One::timings_ii, crate::specs::Forms::width, crate::specs::Forms::lines_width))]
pub(crate) fn timings_ii() -> Form
    ensures value { form_in_code result ≡ timings_ii }
    ensures form { IsTrue (is_form result) }
{
    list!(&[], &[], 0, 11, 0, 0, TYPE_2_SAYS, 11)
}

/// Timings of three bytes (section 4.4.3).
const TYPE_3: &[Field] = field_rows! {
    1 1 1 256 FieldSays::Number { before: ", ", times: 8, plus: 8, after: " pixels a line" };
    2 1 1 128 FieldSays::Number { before: " at ", times: 1, plus: 1, after: " Hz" };
    0 1 16 8 FieldSays::Words { before: ", formula ", texts: choices! { ", CVT"; ", CVT with reduced blanking"; } };
    0 1 1 16 FieldSays::Words { before: ", aspect ", texts: choices! { ", 1:1"; ", 5:4"; ", 4:3"; ", 15:9"; ", 16:9"; ", 16:10"; ", 64:27"; ", 256:135"; ""; } };
    2 1 128 2 FieldSays::Word(", interlaced");
    0 1 128 2 FieldSays::Word(", preferred");
};

const TYPE_3_SAYS: &[Say] = &[Say::Fields(TYPE_3)];

/// Timings of type III.
#[tactic(auto, unfolding(crate::specs::One::timings_iii, crate::specs::Forms::width, crate::specs::Forms::lines_width))]
pub(crate) fn timings_iii() -> Form
    ensures value { form_in_code result ≡ timings_iii }
    ensures form { IsTrue (is_form result) }
{
    list!(&[], &[], 0, 3, 0, 0, TYPE_3_SAYS, 3)
}

/// A code of a byte.
const DMT: &[Field] = field_rows! {
    0 1 1 256 FieldSays::Hex(", DMT ");
};

const DMT_SAYS: &[Say] = &[Say::Fields(DMT)];

/// Timings by DMT codes (section 4.4.4).
#[tactic(auto, unfolding(crate::specs::One::dmt_codes, crate::specs::Forms::width, crate::specs::Forms::lines_width))]
pub(crate) fn dmt_codes() -> Form
    ensures value { form_in_code result ≡ dmt_codes }
    ensures form { IsTrue (is_form result) }
{
    list!(&[], &[], 0, 1, 0, 0, DMT_SAYS, 1)
}

/// A code of a byte.
const VIC: &[Field] = field_rows! {
    0 1 1 256 FieldSays::Number { before: ", VIC ", times: 1, plus: 0, after: "" };
};

const VIC_SAYS: &[Say] = &[Say::Fields(VIC)];

/// Timings by video codes (section 4.4.4).
#[tactic(auto, unfolding(crate::specs::One::vic_codes, crate::specs::Forms::width, crate::specs::Forms::lines_width))]
pub(crate) fn vic_codes() -> Form
    ensures value { form_in_code result ≡ vic_codes }
    ensures form { IsTrue (is_form result) }
{
    list!(&[], &[], 0, 1, 0, 0, VIC_SAYS, 1)
}

/// A code of a byte.
const HDMI_VIC: &[Field] = field_rows! {
    0 1 1 256 FieldSays::Number { before: ", HDMI VIC ", times: 1, plus: 0, after: "" };
};

const HDMI_VIC_SAYS: &[Say] = &[Say::Fields(HDMI_VIC)];

/// Timings by HDMI's video codes (section 4.4.4).
#[tactic(auto, unfolding(crate::specs::One::hdmi_vic_codes, crate::specs::Forms::width, crate::specs::Forms::lines_width))]
pub(crate) fn hdmi_vic_codes() -> Form
    ensures value { form_in_code result ≡ hdmi_vic_codes }
    ensures form { IsTrue (is_form result) }
{
    list!(&[], &[], 0, 1, 0, 0, HDMI_VIC_SAYS, 1)
}

/// Range limits (section 4.5).
const LIMITS: &[Field] = field_rows! {
    0 3 1 16777216 FieldSays::Number { before: ", ", times: 10, plus: 10, after: " to " };
    3 3 1 16777216 FieldSays::Number { before: "", times: 10, plus: 10, after: " kHz" };
    6 1 1 256 FieldSays::Number { before: ", lines at ", times: 1, plus: 0, after: " to " };
    7 1 1 256 FieldSays::Number { before: "", times: 1, plus: 0, after: " kHz" };
    8 2 1 65536 FieldSays::Number { before: ", blanking of ", times: 1, plus: 0, after: " pixels" };
    10 1 1 256 FieldSays::Number { before: ", ", times: 1, plus: 0, after: " to " };
    11 1 1 256 FieldSays::Number { before: "", times: 1, plus: 0, after: " Hz" };
    12 2 1 65536 FieldSays::Number { before: ", blanking of ", times: 1, plus: 0, after: " lines" };
    14 1 128 2 FieldSays::Word(", interlaced");
    14 1 64 2 FieldSays::Word(", CVT");
    14 1 32 2 FieldSays::Word(", CVT with reduced blanking");
    14 1 16 2 FieldSays::Word(", discrete frequencies");
    14 1 1 16 FieldSays::Hex(", reserved bits ");
};

const LIMITS_SAYS: &[Say] = &[Say::Named(", range limits"), Say::Fields(LIMITS)];

/// Range limits.
#[tactic(auto, unfolding(crate::specs::One::limits, crate::specs::Forms::width, crate::specs::Forms::lines_width))]
pub(crate) fn limits() -> Form
    ensures value { form_in_code result ≡ limits }
    ensures form { IsTrue (is_form result) }
{
    block!(15, &[], LIMITS_SAYS, 15)
}

const SERIAL_SAYS: &[Say] = &[
    Say::Named(", serial number: "),
    Say::Text {
        before: "",
        place: 0,
        count: 128,
    },
];

/// A serial number (section 4.6).
#[tactic(auto, unfolding(crate::specs::One::serial, crate::specs::Forms::width, crate::specs::Forms::lines_width))]
pub(crate) fn serial() -> Form
    ensures value { form_in_code result ≡ serial }
    ensures form { IsTrue (is_form result) }
{
    block!(1, &[], SERIAL_SAYS, 128)
}

const STRING_SAYS: &[Say] = &[
    Say::Named(", text: "),
    Say::Text {
        before: "",
        place: 0,
        count: 128,
    },
];

/// A text (section 4.7).
#[tactic(auto, unfolding(crate::specs::One::string, crate::specs::Forms::width, crate::specs::Forms::lines_width))]
pub(crate) fn string() -> Form
    ensures value { form_in_code result ≡ string }
    ensures form { IsTrue (is_form result) }
{
    block!(1, &[], STRING_SAYS, 128)
}

/// The display device (section 4.8).
const DEVICE: &[Field] = field_rows! {
    0 1 16 16 FieldSays::Words { before: ", technology ", texts: choices! { ", CRT"; ", LCD"; ", plasma"; ", electroluminescent"; ", inorganic LED"; ", organic LED"; ", field emission"; ", electrophoretic"; ", electrochromic"; ", electromechanical"; ", electrowetting"; ""; ""; ""; ""; ", other technology"; } };
    0 1 1 16 FieldSays::Above { before: ", kind ", times: 1, after: "" };
    1 1 16 16 FieldSays::Words { before: ", operation ", texts: choices! { ", reflective, ambient light"; ", reflective, ambient light or its own"; ", reflective, its own light"; ", transmissive, ambient light"; ", transmissive, ambient light or its own"; ", transmissive, its own light"; ", emissive"; ", transflective, backlight off by default"; ", transflective, backlight on by default"; ", transparent, ambient light"; ", transparent, emissive"; ", projection by reflection"; ", projection by transmission"; ", projection by emission"; } };
    1 1 8 2 FieldSays::Word(", backlight can be switched");
    1 1 4 2 FieldSays::Word(", backlight can be dimmed");
    1 1 1 4 FieldSays::Hex(", reserved bits ");
    2 2 1 65536 FieldSays::Number { before: ", ", times: 1, plus: 1, after: "x" };
    4 2 1 65536 FieldSays::Number { before: "", times: 1, plus: 1, after: " pixels" };
    6 1 1 256 FieldSays::Share { before: ", aspect ", plus: 100, by: 100 };
    7 1 64 4 FieldSays::Words { before: "", texts: choices! { ", landscape"; ", portrait"; ", not fixed"; ", orientation undefined"; } };
    7 1 16 4 FieldSays::Words { before: "", texts: choices! { ""; ", turns clockwise"; ", turns counterclockwise"; ", turns both ways"; } };
    7 1 4 4 FieldSays::Words { before: "", texts: choices! { ", first pixel upper left"; ", first pixel upper right"; ", first pixel lower left"; ", first pixel lower right"; } };
    7 1 1 4 FieldSays::Words { before: ", scan ", texts: choices! { ""; ", fast scan on the long axis"; ", fast scan on the short axis"; } };
};

/// Its pixels.
const PIXELS: &[Field] = field_rows! {
    8 1 1 256 FieldSays::Words { before: ", layout ", texts: choices! { ", layout undefined"; ", RGB vertical stripes"; ", RGB horizontal stripes"; ", vertical stripes by primaries"; ", horizontal stripes by primaries"; ", quads with red top left"; ", quads with red bottom left"; ", delta"; ", mosaic"; ", quads of RGB and 1 more"; ", fives of RGB and 2 more"; ", sixes of RGB and 3 more"; ", PenTile"; } };
    9 1 1 256 FieldSays::Number { before: ", pitch ", times: 1, plus: 0, after: " x " };
    10 1 1 256 FieldSays::Number { before: "", times: 1, plus: 0, after: " hundredths of 1 mm" };
    11 1 1 16 FieldSays::Number { before: ", ", times: 1, plus: 0, after: " bits a colour" };
    11 1 16 16 FieldSays::Hex(", reserved bits ");
    12 1 128 2 FieldSays::Words { before: "", texts: choices! { ", black to white"; ", white to black"; } };
    12 1 1 128 FieldSays::Number { before: " in ", times: 1, plus: 0, after: " ms" };
};

const DEVICE_SAYS: &[Say] = &[Say::Named(", display device"), Say::Fields(DEVICE)];

const PIXELS_SAYS: &[Say] = &[Say::Fields(PIXELS)];

const DEVICE_LINES: &[Line] = &[Line { says: DEVICE_SAYS }];

/// The display device.
#[tactic(auto, unfolding(crate::specs::One::device, crate::specs::Forms::width, crate::specs::Forms::lines_width))]
pub(crate) fn device() -> Form
    ensures value { form_in_code result ≡ device }
    ensures form { IsTrue (is_form result) }
{
    block!(13, DEVICE_LINES, PIXELS_SAYS, 13)
}

/// Power sequencing (section 4.9).
const POWER: &[Field] = field_rows! {
    0 1 16 16 FieldSays::Number { before: ", T1 from ", times: 1, plus: 0, after: " tenths of 1 ms" };
    0 1 1 16 FieldSays::Number { before: " to ", times: 2, plus: 0, after: " ms" };
    1 1 1 64 FieldSays::Number { before: ", T2 up to ", times: 2, plus: 0, after: " ms" };
    2 1 1 64 FieldSays::Number { before: ", T3 up to ", times: 2, plus: 0, after: " ms" };
    3 1 1 128 FieldSays::Number { before: ", T4 from ", times: 10, plus: 0, after: " ms" };
    4 1 1 64 FieldSays::Number { before: ", T5 from ", times: 10, plus: 0, after: " ms" };
    5 1 1 64 FieldSays::Number { before: ", T6 from ", times: 10, plus: 0, after: " ms" };
};

const POWER_SAYS: &[Say] = &[Say::Named(", power sequencing"), Say::Fields(POWER)];

/// Power sequencing.
#[tactic(auto, unfolding(crate::specs::One::power, crate::specs::Forms::width, crate::specs::Forms::lines_width))]
pub(crate) fn power() -> Form
    ensures value { form_in_code result ≡ power }
    ensures form { IsTrue (is_form result) }
{
    block!(6, &[], POWER_SAYS, 6)
}

/// Transfer characteristics (section 4.10).
const CURVES: &[Field] = field_rows! {
    0 1 128 2 FieldSays::Word(", the first curve is white");
    0 1 64 2 FieldSays::Word(", a curve for each primary");
    0 1 32 2 FieldSays::Word(", curves of four parameters");
    0 1 1 32 FieldSays::Hex(", reserved bits ");
};

const CURVES_SAYS: &[Say] = &[
    Say::Named(", transfer characteristics"),
    Say::Fields(CURVES),
];

/// Transfer characteristics.
#[tactic(auto, unfolding(crate::specs::One::curves, crate::specs::Forms::width, crate::specs::Forms::lines_width))]
pub(crate) fn curves() -> Form
    ensures value { form_in_code result ≡ curves }
    ensures form { IsTrue (is_form result) }
{
    block!(1, &[], CURVES_SAYS, 1)
}

/// The display interface (section 4.11).
const INTERFACES: &[Field] = field_rows! {
    0 1 16 16 FieldSays::Words { before: ", interface ", texts: choices! { ", analog"; ", LVDS"; ", TMDS"; ", RSDS"; ", DVI-D"; ", DVI-I analog"; ", DVI-I digital"; ", HDMI-A"; ", HDMI-B"; ", MDDI"; ", DisplayPort"; ", a proprietary interface"; } };
    0 1 1 16 FieldSays::Number { before: ", links ", times: 1, plus: 0, after: "" };
    1 1 16 16 FieldSays::Number { before: ", version ", times: 1, plus: 0, after: "" };
    1 1 1 16 FieldSays::Number { before: ".", times: 1, plus: 0, after: "" };
};

/// Its protection of content, and how its clock spreads.
const PROTECTION: &[Field] = field_rows! {
    5 1 1 16 FieldSays::Words { before: ", protection ", texts: choices! { ""; ", HDCP"; ", DTCP"; ", DPCP"; } };
    6 1 16 16 FieldSays::Above { before: " ", times: 1, after: "" };
    6 1 1 16 FieldSays::Above { before: ".", times: 1, after: "" };
    7 1 64 4 FieldSays::Words { before: ", spread ", texts: choices! { ""; ", down spread"; ", centre spread"; } };
    7 1 1 16 FieldSays::Above { before: " ", times: 1, after: " tenths of 1 percent" };
};

/// Depths of RGB and of YCbCr 4:4:4.
const DEPTHS: &[Choice] = choices! { " 6"; " 8"; " 10"; " 12"; " 14"; " 16"; };

/// Depths of YCbCr 4:2:2 and 4:2:0.
const FEWER_DEPTHS: &[Choice] = choices! { " 8"; " 10"; " 12"; " 14"; " 16"; };

const INTERFACES_SAYS: &[Say] = &[Say::Named(", display interface"), Say::Fields(INTERFACES)];

const DEPTHS_SAYS: &[Say] = &[
    Say::Fields(PROTECTION),
    Say::Bits {
        before: ", RGB",
        place: 2,
        words: DEPTHS,
        after: " bits",
    },
    Say::Bits {
        before: ", YCbCr 4:4:4",
        place: 3,
        words: DEPTHS,
        after: " bits",
    },
];

const DEPTHS_422_SAYS: &[Say] = &[Say::Bits {
    before: ", YCbCr 4:2:2",
    place: 4,
    words: FEWER_DEPTHS,
    after: " bits",
}];

/// The first bytes of the display interface.
#[tactic(auto, unfolding(crate::specs::One::short_interface, crate::specs::Forms::width, crate::specs::Forms::lines_width))]
pub(crate) fn short_interface() -> Form
    ensures value { form_in_code result ≡ short_interface }
    ensures form { IsTrue (is_form result) }
{
    block!(3, &[], INTERFACES_SAYS, 2)
}

const INTERFACE_LINES: &[Line] = &[
    Line {
        says: INTERFACES_SAYS,
    },
    Line { says: DEPTHS_SAYS },
];

/// The display interface.
#[tactic(auto, unfolding(crate::specs::One::interface, crate::specs::Forms::width, crate::specs::Forms::lines_width))]
pub(crate) fn interface() -> Form
    ensures value { form_in_code result ≡ interface }
    ensures form { IsTrue (is_form result) }
{
    block!(10, INTERFACE_LINES, DEPTHS_422_SAYS, 8)
}

/// The stereo interface (section 4.12).
const STEREO: &[Field] = field_rows! {
    1 1 1 256 FieldSays::Words { before: ", method ", texts: choices! { ", field sequential"; ", side by side"; ", pixels interleaved"; ", dual interface"; ", multi-view"; ", stacked frames"; } };
};

const STEREO_SAYS: &[Say] = &[Say::Named(", stereo interface"), Say::Fields(STEREO)];

/// The stereo interface.
#[tactic(auto, unfolding(crate::specs::One::stereo, crate::specs::Forms::width, crate::specs::Forms::lines_width))]
pub(crate) fn stereo() -> Form
    ensures value { form_in_code result ≡ stereo }
    ensures form { IsTrue (is_form result) }
{
    block!(2, &[], STEREO_SAYS, 2)
}

/// Timings of seven bytes (section 4.4.5).
const TYPE_5: &[Field] = field_rows! {
    2 2 1 65536 FieldSays::Number { before: ", ", times: 1, plus: 1, after: "x" };
    4 2 1 65536 FieldSays::Number { before: "", times: 1, plus: 1, after: "" };
    6 1 1 256 FieldSays::Number { before: " at ", times: 1, plus: 1, after: " Hz" };
    0 1 1 4 FieldSays::Words { before: ", formula ", texts: choices! { ", CVT with reduced blanking of version 2"; ", custom reduced blanking"; } };
    0 1 16 2 FieldSays::Word(", also at 1000/1001 of it");
    0 1 32 4 FieldSays::Words { before: ", stereo ", texts: choices! { ""; ", stereo"; ", stereo by the user"; } };
    0 1 128 2 FieldSays::Word(", preferred");
};

const TYPE_5_SAYS: &[Say] = &[Say::Fields(TYPE_5)];

/// Timings of type V.
#[tactic(auto, unfolding(crate::specs::One::timings_v, crate::specs::Forms::width, crate::specs::Forms::lines_width))]
pub(crate) fn timings_v() -> Form
    ensures value { form_in_code result ≡ timings_v }
    ensures form { IsTrue (is_form result) }
{
    list!(&[], &[], 0, 7, 0, 0, TYPE_5_SAYS, 7)
}

/// Timings of 14 or 17 bytes (section 4.4.6).
const TYPE_6: &[Field] = field_rows! {
    3 2 1 16384 FieldSays::Number { before: ", ", times: 1, plus: 1, after: "x" };
    5 2 1 16384 FieldSays::Number { before: "", times: 1, plus: 1, after: "" };
    0 3 1 4194304 FieldSays::Number { before: ", ", times: 1, plus: 1, after: " kHz" };
    7 1 1 256 FieldSays::Number { before: ", h blanking low ", times: 1, plus: 0, after: "" };
    8 1 1 256 FieldSays::Number { before: ", offset low ", times: 1, plus: 0, after: "" };
    9 1 1 256 FieldSays::Hex(", high bits ");
    10 1 1 256 FieldSays::Number { before: ", width ", times: 1, plus: 1, after: "" };
    4 1 128 2 FieldSays::Words { before: "", texts: choices! { ", -h"; ", +h"; } };
    11 1 1 256 FieldSays::Number { before: ", v blanking ", times: 1, plus: 1, after: "" };
    12 1 1 256 FieldSays::Number { before: ", offset ", times: 1, plus: 1, after: "" };
    13 1 1 16 FieldSays::Number { before: ", width ", times: 1, plus: 1, after: "" };
    6 1 128 2 FieldSays::Words { before: "", texts: choices! { ", -v"; ", +v"; } };
    2 1 128 2 FieldSays::Word(", preferred");
    13 1 32 4 FieldSays::Words { before: ", stereo ", texts: choices! { ""; ", stereo"; ", stereo by the user"; } };
    13 1 128 2 FieldSays::Word(", interlaced");
};

const TYPE_6_SAYS: &[Say] = &[Say::Fields(TYPE_6)];

/// Timings of type VI.
#[tactic(auto, unfolding(crate::specs::One::timings_vi, crate::specs::Forms::width, crate::specs::Forms::lines_width))]
pub(crate) fn timings_vi() -> Form
    ensures value { form_in_code result ≡ timings_vi }
    ensures form { IsTrue (is_form result) }
{
    list!(&[], &[], 0, 14, 0, 3, TYPE_6_SAYS, 14)
}

/// The topology of tiles (section 4.13).
const TILES: &[Field] = field_rows! {
    0 1 128 2 FieldSays::Word(", in one enclosure");
    0 1 64 2 FieldSays::Word(", with bezels");
    0 1 32 2 FieldSays::Hex(", reserved bits ");
    0 1 8 4 FieldSays::Words { before: ", some alone ", texts: choices! { ""; ", some alone at their place"; } };
    0 1 1 8 FieldSays::Words { before: ", one alone ", texts: choices! { ""; ", one alone at its place"; ", one alone scaled"; ", one alone cloned"; } };
    1 1 16 16 FieldSays::Number { before: ", ", times: 1, plus: 1, after: " across" };
    1 1 1 16 FieldSays::Number { before: ", ", times: 1, plus: 1, after: " down" };
    2 1 16 16 FieldSays::Number { before: ", column ", times: 1, plus: 1, after: "" };
    2 1 1 16 FieldSays::Number { before: ", row ", times: 1, plus: 1, after: "" };
    3 1 1 256 FieldSays::Hex(", high bits ");
    4 2 1 65536 FieldSays::Number { before: ", ", times: 1, plus: 1, after: "x" };
    6 2 1 65536 FieldSays::Number { before: "", times: 1, plus: 1, after: " pixels" };
};

/// Their bezels, in tenths of so many pixels, and the product.
const BEZELS: &[Field] = field_rows! {
    8 1 1 256 FieldSays::Above { before: ", bezels times ", times: 1, after: "" };
    9 1 1 256 FieldSays::Above { before: ", top ", times: 1, after: "" };
    10 1 1 256 FieldSays::Above { before: ", bottom ", times: 1, after: "" };
    11 1 1 256 FieldSays::Above { before: ", right ", times: 1, after: "" };
    12 1 1 256 FieldSays::Above { before: ", left ", times: 1, after: "" };
};

/// The tiled product.
const TILED: &[Field] = field_rows! {
    16 2 1 65536 FieldSays::Number { before: ", code ", times: 1, plus: 0, after: "" };
    18 4 1 4294967296 FieldSays::Above { before: ", serial number ", times: 1, after: "" };
};

const TILES_SAYS: &[Say] = &[Say::Named(", tiles"), Say::Fields(TILES)];

const ALL_TILES_SAYS: &[Say] = &[
    Say::Named(", tiles"),
    Say::Fields(TILES),
    Say::Fields(BEZELS),
];

const TILED_SAYS: &[Say] = &[
    Say::Named(", of the product"),
    Say::Text {
        before: " of ",
        place: 13,
        count: 3,
    },
    Say::Fields(TILED),
];

/// The first bytes of the topology of tiles.
#[tactic(auto, unfolding(crate::specs::One::short_tiles, crate::specs::Forms::width, crate::specs::Forms::lines_width))]
pub(crate) fn short_tiles() -> Form
    ensures value { form_in_code result ≡ short_tiles }
    ensures form { IsTrue (is_form result) }
{
    block!(13, &[], TILES_SAYS, 8)
}

const TILES_LINES: &[Line] = &[Line {
    says: ALL_TILES_SAYS,
}];

/// The topology of tiles.
#[tactic(auto, unfolding(crate::specs::One::tiles, crate::specs::Forms::width, crate::specs::Forms::lines_width))]
pub(crate) fn tiles() -> Form
    ensures value { form_in_code result ≡ tiles }
    ensures form { IsTrue (is_form result) }
{
    block!(22, TILES_LINES, TILED_SAYS, 22)
}
