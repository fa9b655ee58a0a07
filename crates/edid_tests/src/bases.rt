//! A display's base block, and what may be wrong with one.
use crate::samples::{block_of, owned};
use edid_base::{Base, Descriptor, Text, Timing, read_base, write_base};
use std::process::Abort;

/// Base blocks, and what is reported of them: why they are refused; or the maker, the product, the serial number, the year, a part
/// of red and one of white, the count of extensions, and whether a timing and a name come first. The last has a right checksum
/// over a wrong version.
///
/// A timing whose clock's low byte is 0, and its clock. Letters with `;` for a line feed, how many there are, and how many
/// are the text without its padding.
pub(crate) const CASES: &str = "\
base tv..0151 => ['S', 'A', 'M'] [258, 1, 2011, 655, 337, 1] true
base tv..0152 => Checksum
base tv..0152 19=02 => Revision
base tv..0131 8=6c => Maker
base tv..0151 0=01 => Header
base tv..0150 18=02 => Revision
timing 003a00000000000000000000000000000000 => Some(14848)
letters LOUNGE TV 001 => 13 Some(13)
letters LOUNGE TV     => 13 Some(13)
letters LOUNGE TV;    => 13 Some(9)
letters LOUNGE TV;  x => 13 None
letters LOUNGE \"TV\" 1 => 13 None
";

/// The product, the serial number, the year, a part of red and one of white, and the count of extensions.
fn numbers(base: &Base) -> [u32; 6] {
    [
        u32::from(base.product),
        base.serial,
        u32::from(base.year),
        u32::from(base.chroma.red.x),
        u32::from(base.chroma.white.y),
        u32::from(base.extensions),
    ]
}

fn maker(base: &Base) -> [char; 3] {
    [
        char::from(base.maker.first),
        char::from(base.maker.second),
        char::from(base.maker.third),
    ]
}

fn begins_with_timing_and_name(base: &Base) -> bool {
    let [first, second, _, _] = &base.descriptors;
    matches!(first, Descriptor::Timing(_)) && matches!(second, Descriptor::Name(_))
}

fn values_text(rt: &(impl Abort + AllocGlobal), base: &Base) -> String {
    let (numbers, begins) = (numbers(base), begins_with_timing_and_name(base));
    format!(in rt.alloc(); "{:?} {numbers:?} {begins}", maker(base)).expect(rt, "a text")
}

/// The values of a base block, which is written to the same bytes again, or why it is refused.
pub(crate) fn base_reported(rt: &(impl Abort + AllocGlobal), words: &str) -> String {
    let block = block_of(rt, words);
    match read_base(&block) {
        Err(error) => format!(in rt.alloc(); "{error:?}").expect(rt, "a text"),
        Ok(base) if write_base(&base).as_slice() == block.as_slice() => values_text(rt, &base),
        Ok(_) => owned(rt, "other bytes"),
    }
}

/// The clock of a timing that is written to the same bytes again.
fn clock_there_and_back(bytes: &[u8; 18]) -> Option<u32> {
    let timing = Timing::read(bytes)?;
    let is_same = timing.write().as_slice() == bytes.as_slice();
    is_same.then_some(u32::from(timing.clock))
}

pub(crate) fn timing_reported(rt: &(impl Abort + AllocGlobal), digits: &str) -> String {
    let bytes = hex::decode(rt.alloc(), digits).expect(rt, "hex digits");
    let bytes = <[u8; 18]>::try_from(bytes.as_slice()).expect(rt, "a timing");
    format!(in rt.alloc(); "{:?}", clock_there_and_back(&bytes)).expect(rt, "a text")
}

/// The number of characters of the text that 13 bytes are.
fn text_len(bytes: &[u8]) -> Option<usize> {
    let bytes = <[u8; 13]>::try_from(bytes).ok()?;
    Some(Text::read(&bytes)?.chars.len())
}

/// How many letters there are, and how many of them are the text.
pub(crate) fn letters_reported(rt: &(impl Abort + AllocGlobal), letters: &str) -> String {
    let letters = letters.replace(rt.alloc(), ";", "\n").expect(rt, "letters");
    let bytes = letters.as_str().as_bytes();
    format!(in rt.alloc(); "{} {:?}", bytes.len(), text_len(bytes)).expect(rt, "a text")
}
