//! The formats that the link of an EDID does not carry, and what it carries.
ghost use Rattle.std.specs.Prelude.{◌≤◌, length};

use crate::blocks::bytes_reported;
use crate::formats::typed_reported;
use edid_cta::{DataBlock, Ext};
use edid_displayid::typed_formats;
use edid_layout::code_of_hdmi;
use rules_contents::{forum_of, has_extended_tag, is_forum_block};
use rules_link::{
    Load, block_rate, characters, fixed_gigabits, is_code_beyond, is_typed_beyond, load_of,
    typed_load,
};
use rules_values::{blocks_of, code_of, hdmi_codes, video_codes};
use std::alloc::{AllocError, Global};

/// A MHz in kHz.
const MEGAHERTZ: u32 = 1000;
/// The extended tag of a block of formats in 4:2:0 alone.
const VIDEO_420: u8 = 0x0e;

/// The greatest rate of characters of a link, in kHz.
fn greatest_rate(extensions: &[Ext]) -> u32 {
    let mut rate = 0;
    for ext in extensions {
        for block in blocks_of(ext) {
            rate = rate.max(block_rate(block));
        }
    }
    rate
}

fn gigabits_of(block: &DataBlock) -> u64 {
    if is_forum_block(block) {
        fixed_gigabits(forum_of(block).fixed_rate)
    } else {
        0
    }
}

/// The greatest fixed rate of a link, in Gbit/s; 0 where there is none.
fn greatest_fixed(extensions: &[Ext]) -> u64 {
    let mut gigabits = 0;
    for ext in extensions {
        for block in blocks_of(ext) {
            gigabits = gigabits.max(gigabits_of(block));
        }
    }
    gigabits
}

/// How fast a format is, and what the link carries.
pub fn load_reported(alloc: Global, extensions: &[Ext], load: Load) -> Result<String, AllocError> {
    let clock = characters(load);
    let (whole, part) = (clock / MEGAHERTZ, clock % MEGAHERTZ);
    let alone = if load.is_halved {
        " in 4:2:0 alone"
    } else {
        ""
    };
    let rate = greatest_rate(extensions) / MEGAHERTZ;
    match greatest_fixed(extensions) {
        0 => format!(in alloc; "{whole}.{part:03} MHz{alone}, the link has {rate} MHz"),
        gigabits => format!(in alloc;
            "{whole}.{part:03} MHz{alone}, the link has {rate} MHz, or {gigabits} Gbit/s"
        ),
    }
}

/// The format of a video code that the link does not carry, after a name.
fn beyond_reported(
    alloc: Global,
    extensions: &[Ext],
    is_halved: bool,
    code: u8,
    name: &str,
) -> Result<Option<String>, AllocError> {
    if !is_code_beyond(extensions, is_halved, code) {
        return Ok(None);
    }
    match load_of(is_halved, code) {
        None => Ok(None),
        Some(load) => {
            let reported = load_reported(alloc, extensions, load)?;
            Ok(Some(format!(in alloc; "{name}, {reported}")?))
        }
    }
}

/// The same after that code.
fn named_reported(
    alloc: Global,
    extensions: &[Ext],
    is_halved: bool,
    code: u8,
) -> Result<Option<String>, AllocError> {
    let name = format!(in alloc; "video code {code}")?;
    beyond_reported(alloc, extensions, is_halved, code, name.as_str())
}

/// The first of some codes that the link does not carry.
fn first_beyond(
    alloc: Global,
    extensions: &[Ext],
    codes: &[u8],
) -> Result<Option<String>, AllocError> {
    for code in codes {
        if let Some(text) = named_reported(alloc, extensions, false, *code)? {
            return Ok(Some(text));
        }
    }
    Ok(None)
}

/// The first code of a block of formats in 4:2:0 alone that the link does not carry.
fn halved_reported(
    alloc: Global,
    extensions: &[Ext],
    block: &DataBlock,
) -> Result<Option<String>, AllocError> {
    if !has_extended_tag(VIDEO_420, block) {
        return Ok(None);
    }
    for svd in block.payload.as_slice().iter().skip(1) {
        if let Some(text) = named_reported(alloc, extensions, true, code_of(*svd))? {
            return Ok(Some(text));
        }
    }
    Ok(None)
}

/// The first code of HDMI's own in an HDMI block whose format the link does not carry.
fn own_reported(
    alloc: Global,
    extensions: &[Ext],
    block: &DataBlock,
) -> Result<Option<String>, AllocError> {
    if !block.is_hdmi() {
        return Ok(None);
    }
    let bytes = bytes_reported(alloc, block)?;
    for code in hdmi_codes(block.payload.as_slice()) {
        let name = format!(in alloc; "{bytes}, code {code}")?;
        let known = code_of_hdmi(*code);
        if let Some(text) = beyond_reported(alloc, extensions, false, known, name.as_str())? {
            return Ok(Some(text));
        }
    }
    Ok(None)
}

/// The first video code that the link does not carry: of the video blocks, in 4:2:0 alone, of HDMI's own.
fn code_reported(alloc: Global, extensions: &[Ext]) -> Result<Option<String>, AllocError>
    requires { length extensions.now ≤ 3 }
{
    let codes = video_codes(extensions);
    if let Some(text) = first_beyond(alloc, extensions, codes.as_slice())? {
        return Ok(Some(text));
    }
    for ext in extensions {
        for block in blocks_of(ext) {
            if let Some(text) = halved_reported(alloc, extensions, block)? {
                return Ok(Some(text));
            }
            if let Some(text) = own_reported(alloc, extensions, block)? {
                return Ok(Some(text));
            }
        }
    }
    Ok(None)
}

/// The first format of DisplayID that the link does not carry.
fn first_typed_beyond(alloc: Global, extensions: &[Ext]) -> Result<Option<String>, AllocError>
    requires { length extensions.now ≤ 3 }
{
    let formats = typed_formats(extensions);
    for format in formats.as_slice() {
        if is_typed_beyond(extensions, *format) {
            if let Some(load) = typed_load(*format) {
                let name = typed_reported(alloc, *format)?;
                let reported = load_reported(alloc, extensions, load)?;
                return Ok(Some(format!(in alloc; "{name}, {reported}")?));
            }
        }
    }
    Ok(None)
}

/// The first format that the link does not carry and that is no detailed timing: with a code, or else of DisplayID.
pub fn beyond_format_reported(
    alloc: Global,
    extensions: &[Ext],
) -> Result<Option<String>, AllocError>
    requires { length extensions.now ≤ 3 }
{
    match code_reported(alloc, extensions)? {
        Some(text) => Ok(Some(text)),
        None => first_typed_beyond(alloc, extensions),
    }
}
