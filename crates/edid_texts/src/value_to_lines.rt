//! The lines of an EDID's text.
ghost use Rattle.std.specs.Prelude.{◌≡◌, ◌≤◌, ◌<◌, ◌+◌, Option, Some, None, length, take, slice_get, flat_map};
ghost use Rattle.edid_texts.specs.Lines.{letters_line, numbers_line, bytes_line, quoted_line, revision_letters, standard_line, timing_line, descriptor_line, head_lines, base_lines, block_line, bytes_without_zeros, tail_line, cta_lines, bare_lines, ext_lines, part_lines};

use arrayvec::ArrayVec;
use edid_base::{Base, Descriptor, Revision, StandardTiming, Text, Timing};
use edid_cta::{Bare, BlockKind, Cta, DataBlock, Ext, has_identifier};
use edid_text_lines::{Fields, Keyword, Line};
use text_core::Phys;

fn letters_line(word: Keyword, letters: &[u8]) -> Line
    requires { length letters.now ≤ 8 }
    ensures { result ≡ letters_line word letters.now }
{
    let mut field = ArrayVec::new();
    let _ = field.try_extend_from_slice(letters);
    Line {
        word,
        fields: Fields::Letters(field),
    }
}

fn numbers_line(word: Keyword, numbers: &[u32]) -> Line
    requires { length numbers.now ≤ 13 }
    ensures { result ≡ numbers_line word numbers.now }
{
    let mut field = ArrayVec::new();
    let _ = field.try_extend_from_slice(numbers);
    Line {
        word,
        fields: Fields::Numbers(field),
    }
}

fn bytes_line(word: Keyword, bytes: &[u8]) -> Line
    requires { length bytes.now ≤ 128 }
    ensures { result ≡ bytes_line word bytes.now }
{
    let mut field = ArrayVec::new();
    let _ = field.try_extend_from_slice(bytes);
    Line {
        word,
        fields: Fields::Bytes(field),
    }
}

fn quoted_line(word: Keyword, text: &Text) -> Line
    ensures { result ≡ quoted_line word text.now.chars.items }
{
    let mut field = ArrayVec::new();
    let _ = field.try_extend_from_slice(text.chars.as_slice());
    Line {
        word,
        fields: Fields::Quoted(field),
    }
}

fn revision_letters(revision: Revision) -> &'static [u8; 3]
    ensures { result.now ≡ revision_letters revision }
{
    match revision {
        Revision::Three => b"1.3",
        Revision::Four => b"1.4",
    }
}

/// One of the eleven lines that stand once in each base block.
fn head_line(base: &Base, number: usize) -> Line
    requires { number < 11 }
    ensures { slice_get (head_lines base.now) number ≡ Some result }
{
    match number {
        0 => letters_line(Keyword::Edid, revision_letters(base.revision)),
        1 => letters_line(
            Keyword::Maker,
            &[base.maker.first, base.maker.second, base.maker.third],
        ),
        2 => numbers_line(Keyword::Product, &[u32::from(base.product)]),
        3 => numbers_line(Keyword::Serial, &[base.serial]),
        4 => numbers_line(Keyword::Made, &[u32::from(base.week), u32::from(base.year)]),
        5 => bytes_line(Keyword::Input, &[base.input]),
        6 => numbers_line(
            Keyword::Size,
            &[u32::from(base.width), u32::from(base.height)],
        ),
        7 => numbers_line(Keyword::Gamma, &[u32::from(base.gamma)]),
        8 => bytes_line(Keyword::Features, &[base.features]),
        9 => numbers_line(Keyword::Chroma, &base.chroma.numbers()),
        _ => bytes_line(Keyword::Established, &base.established),
    }
}

fn standard_line(standard: Option<StandardTiming>) -> Line
    ensures { result ≡ standard_line standard }
{
    match standard {
        None => letters_line(Keyword::Standard, b"unused"),
        Some(timing) => numbers_line(Keyword::Standard, &timing.numbers()),
    }
}

fn timing_line(timing: &Timing) -> Line
    ensures { result ≡ timing_line timing.now }
{
    let mut numbers = ArrayVec::new();
    let _ = numbers.try_extend_from_slice(&timing.numbers());
    Line {
        word: Keyword::Timing,
        fields: Fields::Timed(numbers, timing.flags),
    }
}

fn descriptor_line(descriptor: &Descriptor) -> Line
    ensures { result ≡ descriptor_line descriptor.now }
{
    match descriptor {
        Descriptor::Timing(timing) => timing_line(timing),
        Descriptor::Name(text) => quoted_line(Keyword::Name, text),
        Descriptor::Text(text) => quoted_line(Keyword::Text, text),
        Descriptor::SerialText(text) => quoted_line(Keyword::SerialText, text),
        Descriptor::Range(limits) => bytes_line(Keyword::Range, &limits.bytes),
        Descriptor::Dummy => Line {
            word: Keyword::Dummy,
            fields: Fields::Nothing,
        },
        Descriptor::Raw(raw) => bytes_line(Keyword::Raw, &raw.bytes),
    }
}

/// One of the 23 lines of a base block.
fn base_line(base: &Base, number: usize) -> Line
    requires { number < 23 }
    ensures { slice_get (base_lines base.now) number ≡ Some result }
{
    if number < 11 {
        head_line(base, number)
    } else if number < 19 {
        standard_line(base.standard[number - 11])
    } else {
        descriptor_line(&base.descriptors[number - 19])
    }
}

fn block_line(block: &DataBlock) -> Line
    ensures { result ≡ block_line block.now }
{
    let payload = block.payload.as_slice();
    if block.kind != BlockKind::Vendor || !has_identifier(payload) {
        return bytes_line(Keyword::Block(block.kind), payload);
    }
    let mut field = ArrayVec::new();
    let _ = field.try_extend_from_slice(&payload[5..]);
    let phys = Phys {
        high: payload[3],
        low: payload[4],
    };
    Line {
        word: Keyword::Hdmi,
        fields: Fields::Address(phys, field),
    }
}

/// How long the bytes are without their trailing zeros.
fn trimmed_len(bytes: &[u8]) -> usize
    ensures within { result ≤ length bytes.now }
    ensures front { take result bytes.now ≡ bytes_without_zeros bytes.now }
{
    let mut len = 0;
    for (i, byte) in bytes.iter().enumerate() {
        if *byte != 0 {
            len = i + 1;
        }
    }
    len
}

fn tail_line(bytes: &[u8]) -> Line
    requires { length bytes.now ≤ 123 }
    ensures { result ≡ tail_line bytes.now }
{
    bytes_line(Keyword::Tail, &bytes[..trimmed_len(bytes)])
}

fn cta_line(cta: &Cta, number: usize) -> Option<Line>
    ensures { slice_get (cta_lines cta.now) number ≡ result }
{
    if number == 0 {
        return Some(bytes_line(Keyword::Cta, &[cta.flags]));
    }
    let blocks = cta.blocks.as_slice();
    let number = number - 1;
    if number < blocks.len() {
        return Some(block_line(&blocks[number]));
    }
    let timings = cta.timings.as_slice();
    let number = number - blocks.len();
    if number < timings.len() {
        return Some(timing_line(&timings[number]));
    }
    if number == timings.len() {
        return Some(tail_line(cta.tail.as_slice()));
    }
    None
}

fn bare_line(bare: &Bare, number: usize) -> Option<Line>
    ensures { slice_get (bare_lines bare.now) number ≡ result }
{
    match number {
        0 => Some(bytes_line(Keyword::CtaNone, &[bare.flags])),
        1 => Some(tail_line(&bare.tail)),
        _ => None,
    }
}

fn ext_line(ext: &Ext, number: usize) -> Option<Line>
    ensures { slice_get (ext_lines ext.now) number ≡ result }
{
    match ext {
        Ext::Cta(cta) => cta_line(cta, number),
        Ext::Bare(bare) => bare_line(bare, number),
        Ext::Raw(raw) if number == 0 => Some(bytes_line(Keyword::Ext, &raw.bytes)),
        Ext::Raw(_) => None,
    }
}

/// How many lines an extension has.
fn line_count(ext: &Ext) -> usize
    ensures { result ≡ length (ext_lines ext.now) }
{
    match ext {
        Ext::Cta(cta) => cta.blocks.len() + cta.timings.len() + 2,
        Ext::Bare(_) => 2,
        Ext::Raw(_) => 1,
    }
}

/// The line with this number, from 0, of some extensions.
fn line_in(extensions: &[Ext], number: usize) -> Option<Line>
    ensures { slice_get (flat_map ext_lines extensions.now) number ≡ result }
{
    let mut number = number;
    for ext in extensions {
        let count = line_count(ext);
        if number < count {
            return ext_line(ext, number);
        }
        number -= count;
    }
    None
}

/// The line with this number, from 0, of the text of a base block and the extensions after it.
pub fn line_at(base: &Base, extensions: &[Ext], number: usize) -> Option<Line>
    ensures { slice_get (part_lines base.now extensions.now) number ≡ result }
{
    if number < 23 {
        return Some(base_line(base, number));
    }
    line_in(extensions, number - 23)
}
