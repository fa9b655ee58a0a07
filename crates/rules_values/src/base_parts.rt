//! What the rules ask of the base block.
ghost use Rattle.std.specs.Prelude.{◌≡◌};
ghost use Rattle.std.specs.List.{list_any};
ghost use Rattle.rules_values.specs.BaseParts.{is_three, has_tag, some_tagged, is_empty, is_timed, begins_with_timing, is_continuous, prefers_first, claims_srgb, is_srgb, is_ill_unused, has_established_vga, is_formula, names_formula};

use edid_base::{Base, Chroma, Descriptor, Revision, StandardTiming, are_zeros};

/// The tag of a descriptor with the serial number.
pub const SERIAL_TAG: u8 = 0xff;
/// The tag of a descriptor with the range limits.
pub const RANGE_TAG: u8 = 0xfd;
/// The tag of a descriptor with the product's name.
pub const NAME_TAG: u8 = 0xfc;

pub fn is_three(revision: Revision) -> bool
    ensures { result ≡ is_three revision }
{
    matches!(revision, Revision::Three)
}

/// Whether it is a display descriptor with this tag, whatever else stands in it.
fn has_tag(tag: u8, descriptor: &Descriptor) -> bool
    ensures { result ≡ has_tag tag descriptor.now }
{
    let bytes = descriptor.write();
    bytes[0] == 0 && bytes[1] == 0 && bytes[3] == tag
}

fn is_empty(descriptor: &Descriptor) -> bool
    ensures { result ≡ is_empty descriptor.now }
{
    are_zeros(&descriptor.write())
}

pub fn some_tagged(tag: u8, base: &Base) -> bool
    ensures { result ≡ some_tagged tag base.now }
{
    base.descriptors
        .iter()
        .any(|descriptor| has_tag(tag, descriptor))
}

pub fn some_empty(base: &Base) -> bool
    ensures { result ≡ list_any is_empty base.now.descriptors }
{
    base.descriptors
        .iter()
        .any(|descriptor| is_empty(descriptor))
}

fn is_timed(descriptor: &Descriptor) -> bool
    ensures { result ≡ is_timed descriptor.now }
{
    matches!(descriptor, Descriptor::Timing(_))
}

/// Whether the first of the four descriptors is a detailed timing.
pub fn begins_with_timing(base: &Base) -> bool
    ensures { result ≡ begins_with_timing base.now }
{
    is_timed(&base.descriptors[0])
}

/// Whether the display takes any frequency within its limits.
pub fn is_continuous(base: &Base) -> bool
    ensures { result ≡ is_continuous base.now }
{
    base.features % 2 == 1
}

/// Whether the first detailed timing is the preferred one.
pub fn prefers_first(base: &Base) -> bool
    ensures { result ≡ prefers_first base.now }
{
    base.features / 2 % 2 == 1
}

pub fn claims_srgb(base: &Base) -> bool
    ensures { result ≡ claims_srgb base.now }
{
    base.features / 4 % 2 == 1
}

/// Whether they are the chromaticities of sRGB.
pub fn is_srgb(chroma: Chroma) -> bool
    ensures { result ≡ is_srgb chroma }
{
    let Chroma {
        red,
        green,
        blue,
        white,
    } = chroma;
    red.x == 655
        && red.y == 338
        && green.x == 307
        && green.y == 614
        && blue.x == 154
        && blue.y == 61
        && white.x == 320
        && white.y == 337
}

fn is_ill_unused(standard: Option<StandardTiming>) -> bool
    ensures { result ≡ is_ill_unused standard }
{
    match standard {
        None => false,
        Some(timing) => timing.width <= 256,
    }
}

pub fn some_ill_unused(base: &Base) -> bool
    ensures { result ≡ list_any is_ill_unused base.now.standard }
{
    base.standard
        .iter()
        .any(|standard| is_ill_unused(*standard))
}

pub fn has_established_vga(base: &Base) -> bool
    ensures { result ≡ has_established_vga base.now }
{
    base.established[0] / 32 % 2 == 1
}

fn is_formula(form: u8) -> bool
    ensures { result ≡ is_formula form }
{
    form == 0 || form == 2 || form == 4
}

/// Whether it has range limits of 1.4 with a formula for timings.
fn names_formula(descriptor: &Descriptor) -> bool
    ensures { result ≡ names_formula descriptor.now }
{
    match descriptor {
        Descriptor::Range(limits) => is_formula(limits.bytes[6]),
        _ => false,
    }
}

pub fn some_formula(base: &Base) -> bool
    ensures { result ≡ list_any names_formula base.now.descriptors }
{
    base.descriptors
        .iter()
        .any(|descriptor| names_formula(descriptor))
}
