//! Makers by their identifiers.
ghost use Rattle.std.specs.Prelude.{◌≡◌, ◌≤◌, ◌+◌, ◌++◌, length, flat_map};
ghost use Rattle.arrayvec.specs.ArrayVec.{array_vec_len};
ghost use Rattle.meaning_words.specs.Notes.{own_line};
ghost use Rattle.meaning_extended.specs.Makers.{labelled_meanings, maker_name, named_meanings, tag_name};

use arrayvec::ArrayVec;
use edid_base::append;
use meaning_words::{Note, PAGE, Page, after, append_rest, append_words};

pub(crate) const AMD: u32 = 0x00001a;

const NVIDIA: u32 = 0x00044b;

const ASUS: u32 = 0x000c6e;

const APPLE: u32 = 0x0010fa;

const MSTAR: u32 = 0x0014b9;

pub(crate) const DOLBY: u32 = 0x00d046;

const IN_FOCUS: u32 = 0x00e047;

pub(crate) const HDR10_PLUS: u32 = 0x90848b;

pub(crate) const MICROSOFT: u32 = 0xca125c;

/// The name of the maker of a vendor block, with a comma before it; nothing where it is not known.
pub fn maker_name(identifier: u32) -> &'static str
    ensures value { result.now ≡ maker_name identifier }
    ensures short { length result.now ≤ 20 }
{
    match identifier {
        NVIDIA => ", NVIDIA",
        ASUS => ", ASUS",
        APPLE => ", Apple",
        MSTAR => ", MStar",
        DOLBY => ", Dolby",
        IN_FOCUS => ", InFocus",
        _ => "",
    }
}

/// The name of what an extended block is for whose bytes are not read, with a comma before it; nothing where it is not known.
pub fn tag_name(tag: u8) -> &'static str
    ensures value { result.now ≡ tag_name tag }
    ensures short { length result.now ≤ 40 }
{
    match tag {
        0x02 => ", VESA display device",
        0x03 => ", VESA video timings",
        0x07 => ", dynamic HDR metadata",
        0x08 => ", native video resolution",
        0x12 => ", HDMI audio",
        0x13 => ", room configuration",
        0x14 => ", speaker locations",
        0x20 => ", InfoFrames",
        _ => "",
    }
}

/// Appends a name, with a comma before it, and the bytes after a maker's identifier in hex; nothing without a name.
pub fn append_named(page: &mut Page, name: &[u8], payload: &[u8])
    requires short { length name.now ≤ 20 }
    requires few { length payload.now ≤ 128 }
    requires room { array_vec_len page.old + 1536 ≤ PAGE }
    ensures { page.new.items ≡ page.old.items ++ flat_map own_line (named_meanings name.now payload.now) }
{
    if name.is_empty() {
        return;
    }
    let mut words: Note = ArrayVec::new();
    append(&mut words, name);
    append_rest(&mut words, after(payload, 3));
    append_words(page, words.as_slice());
}

/// Appends a name, with a comma before it, and bytes in hex; nothing without a name.
pub fn append_labelled(page: &mut Page, name: &[u8], payload: &[u8])
    requires short { length name.now ≤ 40 }
    requires few { length payload.now ≤ 128 }
    requires room { array_vec_len page.old + 1536 ≤ PAGE }
    ensures { page.new.items ≡ page.old.items ++ flat_map own_line (labelled_meanings name.now payload.now) }
{
    if name.is_empty() {
        return;
    }
    let mut words: Note = ArrayVec::new();
    append(&mut words, name);
    append_rest(&mut words, payload);
    append_words(page, words.as_slice());
}
