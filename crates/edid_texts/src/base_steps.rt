//! Each line of a base block adds to it.
ghost use Rattle.std.specs.Prelude.{◌≡◌, ◌+◌, ◌<◌, ◌++◌, ◌∷◌, [], Some, MatchBool, slice_get, take};
ghost use Rattle.edid_base.specs.declared.base.Base.{Base as BaseValue};
ghost use Rattle.edid_texts.specs.Lines.{head_lines, base_lines};

use crate::line_to_value::{
    chroma_of, descriptor_of, maker_of, one_byte, one_number, revision_of, standard_of,
    three_bytes, two_numbers,
};
use edid_base::{Base, Chroma, Descriptor, Maker, Point, Revision};
use edid_text_lines::{Keyword, Line};

/// A base block whose fields do not count.
pub fn blank() -> Base {
    let point = Point { x: 0, y: 0 };
    Base {
        maker: Maker {
            first: b'A',
            second: b'A',
            third: b'A',
        },
        product: 0,
        serial: 0,
        week: 0,
        year: 1990,
        revision: Revision::Three,
        input: 0,
        width: 0,
        height: 0,
        gamma: 0,
        features: 0,
        chroma: Chroma {
            red: point,
            green: point,
            blue: point,
            white: point,
        },
        established: [0; 3],
        standard: [None; 8],
        descriptors: [
            Descriptor::Dummy,
            Descriptor::Dummy,
            Descriptor::Dummy,
            Descriptor::Dummy,
        ],
        extensions: 0,
    }
}

/// One of the first six lines of a base block.
fn put_product(base: &mut Base, number: usize, line: &Line) -> bool
    requires { number < 6 }
    ensures { MatchBool result
        (take (number + 1) (base_lines base.new) ≡ take number (base_lines base.old) ++ line.now ∷ [])
        ((b : BaseValue) → slice_get (head_lines b) number ≡ Some line.now → ⊥) }
{
    match number {
        0 => {
            let Some(revision) = revision_of(line) else {
                return false;
            };
            base.revision = revision;
            true
        }
        1 => {
            let Some(maker) = maker_of(line) else {
                return false;
            };
            base.maker = maker;
            true
        }
        2 => {
            let Some(product) = one_number(line, Keyword::Product, 0xffff) else {
                return false;
            };
            base.product = product as u16;
            true
        }
        3 => {
            let Some(serial) = one_number(line, Keyword::Serial, u32::MAX) else {
                return false;
            };
            base.serial = serial;
            true
        }
        4 => {
            let Some((week, year)) = two_numbers(line, Keyword::Made, 1990, 2245) else {
                return false;
            };
            base.week = week;
            base.year = year as u16;
            true
        }
        _ => {
            let Some(input) = one_byte(line, Keyword::Input) else {
                return false;
            };
            base.input = input;
            true
        }
    }
}

/// One of the next five lines.
fn put_display(base: &mut Base, number: usize, line: &Line) -> bool
    requires least { 5 < number }
    requires most { number < 11 }
    ensures { MatchBool result
        (take (number + 1) (base_lines base.new) ≡ take number (base_lines base.old) ++ line.now ∷ [])
        ((b : BaseValue) → slice_get (head_lines b) number ≡ Some line.now → ⊥) }
{
    match number {
        6 => {
            let Some((width, height)) = two_numbers(line, Keyword::Size, 0, 255) else {
                return false;
            };
            base.width = width;
            base.height = height as u8;
            true
        }
        7 => {
            let Some(gamma) = one_number(line, Keyword::Gamma, 255) else {
                return false;
            };
            base.gamma = gamma as u8;
            true
        }
        8 => {
            let Some(features) = one_byte(line, Keyword::Features) else {
                return false;
            };
            base.features = features;
            true
        }
        9 => {
            let Some(chroma) = chroma_of(line) else {
                return false;
            };
            base.chroma = chroma;
            true
        }
        _ => {
            let Some(established) = three_bytes(line, Keyword::Established) else {
                return false;
            };
            base.established = established;
            true
        }
    }
}

/// The line of a standard timing.
fn put_standard(base: &mut Base, number: usize, line: &Line) -> bool
    requires least { 10 < number }
    requires most { number < 19 }
    ensures { MatchBool result
        (take (number + 1) (base_lines base.new) ≡ take number (base_lines base.old) ++ line.now ∷ [])
        ((b : BaseValue) → slice_get (base_lines b) number ≡ Some line.now → ⊥) }
{
    let Some(standard) = standard_of(line) else {
        return false;
    };
    base.standard[number - 11] = standard;
    true
}

/// The line of a descriptor.
fn put_descriptor(base: &mut Base, number: usize, line: &Line) -> bool
    requires least { 18 < number }
    requires most { number < 23 }
    ensures { MatchBool result
        (take (number + 1) (base_lines base.new) ≡ take number (base_lines base.old) ++ line.now ∷ [])
        ((b : BaseValue) → slice_get (base_lines b) number ≡ Some line.now → ⊥) }
{
    let Some(descriptor) = descriptor_of(line) else {
        return false;
    };
    base.descriptors[number - 19] = descriptor;
    true
}

/// One of the 23 lines of a base block, where some base block has that line there. Returns whether one has; else nothing
/// has changed.
pub fn put_base(base: &mut Base, number: usize, line: &Line) -> bool
    requires { number < 23 }
    ensures { MatchBool result
        (take (number + 1) (base_lines base.new) ≡ take number (base_lines base.old) ++ line.now ∷ [])
        ((b : BaseValue) → slice_get (base_lines b) number ≡ Some line.now → ⊥) }
{
    if number < 6 {
        put_product(base, number, line)
    } else if number < 11 {
        put_display(base, number, line)
    } else if number < 19 {
        put_standard(base, number, line)
    } else {
        put_descriptor(base, number, line)
    }
}
