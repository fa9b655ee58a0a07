//! What the rules ask of values of the base block.
ghost use Rattle.std.specs.Prelude.{◌≡◌, length, drop};
ghost use Rattle.std.specs.List.{list_any};
ghost use Rattle.rules_values.specs.BaseParts.{is_tagged};
ghost use Rattle.rules_contents.specs.Bases.{are_spaces, is_printable, is_written, has_text_tag, has_clear_bytes, has_text_form, is_ill_text, is_reserved_descriptor, is_reserved_week, is_late_year, has_other_gamma, is_reserved_input, has_reserved_input};

use edid_base::{Base, Descriptor, Revision};
use edid_fields::some_reserved;
use edid_tables::{descriptor_section, section_parts};
use rules_values::{NAME_TAG, SERIAL_TAG, claims_srgb};

/// The tag of a descriptor with a text.
const TEXT_TAG: u8 = 0xfe;
/// The greatest week of a year that an EDID tells of.
const LAST_WEEK: u8 = 54;
/// The week that marks a model year.
const MODEL_YEAR: u8 = 255;
/// The last year in which a display is made.
const LAST_YEAR: u16 = 2050;
/// The gamma 2.2, times 100, less 100.
const SRGB_GAMMA: u8 = 120;
/// The depth of a digital input that is reserved.
const RESERVED_DEPTH: u8 = 7;
/// The greatest interface of a digital input: DisplayPort.
const LAST_INTERFACE: u8 = 5;

/// Whether 18 bytes are a display descriptor with this tag, whatever else stands in it.
fn is_tagged(tag: u8, bytes: &[u8; 18]) -> bool
    ensures { result ≡ is_tagged tag bytes.now }
{
    bytes[0] == 0 && bytes[1] == 0 && bytes[3] == tag
}

fn are_spaces(bytes: &[u8]) -> bool
    ensures { result ≡ are_spaces bytes.now }
{
    bytes.iter().all(|byte| *byte == b' ')
}

fn is_printable(byte: u8) -> bool
    ensures { result ≡ is_printable byte }
{
    0x20 <= byte && byte <= 0x7e
}

/// Whether bytes are printable characters, and then nothing, or a line feed and spaces.
fn is_written(bytes: &[u8]) -> bool
    ensures { result ≡ is_written bytes.now }
{
    match bytes {
        [] => true,
        [b'\n', rest @ ..] => are_spaces(rest),
        [byte, rest @ ..] => is_printable(*byte) && is_written(rest),
    }
}

fn has_text_tag(bytes: &[u8; 18]) -> bool
    ensures { result ≡ has_text_tag bytes.now }
{
    is_tagged(NAME_TAG, bytes) || is_tagged(TEXT_TAG, bytes) || is_tagged(SERIAL_TAG, bytes)
}

fn has_clear_bytes(bytes: &[u8; 18]) -> bool
    ensures { result ≡ has_clear_bytes bytes.now }
{
    bytes[2] == 0 && bytes[4] == 0
}

/// The text of 18 bytes.
fn text_of(bytes: &[u8]) -> &[u8]
    requires { length bytes.now ≡ 18 }
    ensures { result.now ≡ drop 5 bytes.now }
{
    &bytes[5..]
}

fn has_text_form(bytes: &[u8; 18]) -> bool
    ensures { result ≡ has_text_form bytes.now }
{
    has_clear_bytes(bytes) && is_written(text_of(bytes))
}

/// Whether a descriptor has the tag of a text, and not the form of one.
pub fn is_ill_text(descriptor: &Descriptor) -> bool
    ensures { result ≡ is_ill_text descriptor.now }
{
    match descriptor {
        Descriptor::Raw(raw) => has_text_tag(&raw.bytes) && !has_text_form(&raw.bytes),
        _ => false,
    }
}

pub fn some_ill_text(base: &Base) -> bool
    ensures { result ≡ list_any is_ill_text base.now.descriptors }
{
    base.descriptors
        .iter()
        .any(|descriptor| is_ill_text(descriptor))
}

/// Whether a descriptor has a value that the standard reserves, but for a name, a text and a serial number.
pub fn is_reserved_descriptor(descriptor: &Descriptor) -> bool
    ensures { result ≡ is_reserved_descriptor descriptor.now }
{
    let bytes = descriptor.write();
    !has_text_tag(&bytes) && some_reserved(section_parts(descriptor_section(&bytes)), &bytes)
}

/// Whether one of the four descriptors has a value that the standard reserves.
pub fn some_reserved_descriptor(base: &Base) -> bool
    ensures { result ≡ list_any is_reserved_descriptor base.now.descriptors }
{
    base.descriptors
        .iter()
        .any(|descriptor| is_reserved_descriptor(descriptor))
}

/// Whether the week is none of a year, and marks no model year.
pub fn is_reserved_week(base: &Base) -> bool
    ensures { result ≡ is_reserved_week base.now }
{
    LAST_WEEK < base.week && base.week < MODEL_YEAR
}

/// Whether the year is one in which no display is made.
pub fn is_late_year(base: &Base) -> bool
    ensures { result ≡ is_late_year base.now }
{
    LAST_YEAR < base.year
}

/// Whether the display's own colours are those of sRGB, and its gamma is not.
pub fn has_other_gamma(base: &Base) -> bool
    ensures { result ≡ has_other_gamma base.now }
{
    claims_srgb(base) && base.gamma != SRGB_GAMMA
}

/// Whether a digital input has bits that 1.3 reserves, or a depth or an interface that 1.4 does.
fn is_reserved_input(revision: Revision, input: u8) -> bool
    ensures { result ≡ is_reserved_input revision input }
{
    match revision {
        Revision::Three => 0 < input / 2 % 64,
        Revision::Four => input / 16 % 8 == RESERVED_DEPTH || LAST_INTERFACE < input % 16,
    }
}

/// Whether the input is a digital one with a reserved value.
pub fn has_reserved_input(base: &Base) -> bool
    ensures { result ≡ has_reserved_input base.now }
{
    128 <= base.input && is_reserved_input(base.revision, base.input)
}
