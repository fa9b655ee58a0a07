//! Formats and colour values at fault.
ghost use Rattle.std.specs.Prelude.{◌≤◌, length};

use crate::blocks::bytes_reported;
use crate::limits::{pace_reported, standard_reported};
use edid_base::Base;
use edid_cta::Ext;
use edid_displayid::{TypedFormat, typed_formats};
use rules_contents::fixes_ycc_range;
use rules_rates::{
    ESTABLISHED, established_bits, has_past, has_slow, is_established_outside, is_out_of_range,
    is_standard_outside, pace_of, typed_pace,
};
use rules_values::{blocks_of, video_codes};
use std::alloc::{AllocError, Global};

/// The first map that marks a place after the last video code, and how many codes there are.
pub fn map_reported(alloc: Global, extensions: &[Ext]) -> Result<Option<String>, AllocError>
    requires { length extensions.now ≤ 3 }
{
    let count = video_codes(extensions).len();
    for ext in extensions {
        for block in blocks_of(ext) {
            if has_past(count, block) {
                let bytes = bytes_reported(alloc, block)?;
                return Ok(Some(format!(in alloc; "{bytes}, {count} video codes")?));
            }
        }
    }
    Ok(None)
}

/// The first data block with a format in 4:2:0 that is too slow for it.
pub fn slow_reported(alloc: Global, extensions: &[Ext]) -> Result<Option<String>, AllocError>
    requires { length extensions.now ≤ 3 }
{
    let codes = video_codes(extensions);
    for ext in extensions {
        for block in blocks_of(ext) {
            if has_slow(codes.as_slice(), block) {
                return Ok(Some(bytes_reported(alloc, block)?));
            }
        }
    }
    Ok(None)
}

/// The first video capability block after which the range of YCbCr values can't be chosen.
pub fn range_reported(alloc: Global, extensions: &[Ext]) -> Result<Option<String>, AllocError> {
    for ext in extensions {
        for block in blocks_of(ext) {
            if fixes_ycc_range(block) {
                return Ok(Some(bytes_reported(alloc, block)?));
            }
        }
    }
    Ok(None)
}

/// The first standard timing outside the range limits, from 1, with what of it is outside.
fn first_standard(alloc: Global, base: &Base) -> Result<Option<String>, AllocError> {
    let mut number = 0_u8;
    for standard in &base.standard {
        number = number.saturating_add(1);
        if let Some(timing) = *standard {
            if is_standard_outside(base, Some(timing)) {
                let beyond = standard_reported(alloc, base, timing)?;
                return Ok(Some(format!(in alloc; "standard timing {number}, {beyond}")?));
            }
        }
    }
    Ok(None)
}

/// The first established timing outside the range limits, with what of it is outside.
fn first_established(alloc: Global, base: &Base) -> Result<Option<String>, AllocError> {
    let bits = established_bits(&base.established);
    for row in ESTABLISHED {
        if is_established_outside(base, bits, *row) {
            let beyond = pace_reported(alloc, base, row.pace)?;
            return Ok(Some(format!(in alloc; "an established timing, {beyond}")?));
        }
    }
    Ok(None)
}

/// The first video code outside the range limits, with what of it is outside.
fn first_code(alloc: Global, base: &Base, extensions: &[Ext]) -> Result<Option<String>, AllocError>
    requires { length extensions.now ≤ 3 }
{
    let codes = video_codes(extensions);
    for code in codes.as_slice() {
        if let Some(pace) = pace_of(*code) {
            if is_out_of_range(base, pace) {
                let beyond = pace_reported(alloc, base, pace)?;
                return Ok(Some(format!(in alloc; "video code {code}, {beyond}")?));
            }
        }
    }
    Ok(None)
}

/// The name of a format of DisplayID.
pub fn typed_reported(alloc: Global, format: TypedFormat) -> Result<String, AllocError> {
    match format {
        TypedFormat::Timing(_) => format!(in alloc; "a timing of DisplayID"),
        TypedFormat::Code(code) => format!(in alloc; "video code {code} of DisplayID"),
    }
}

/// The first format of DisplayID outside the range limits, with what of it is outside.
fn first_typed(alloc: Global, base: &Base, extensions: &[Ext]) -> Result<Option<String>, AllocError>
    requires { length extensions.now ≤ 3 }
{
    let formats = typed_formats(extensions);
    for format in formats.as_slice() {
        if let Some(pace) = typed_pace(*format) {
            if is_out_of_range(base, pace) {
                let beyond = pace_reported(alloc, base, pace)?;
                let name = typed_reported(alloc, *format)?;
                return Ok(Some(format!(in alloc; "{name}, {beyond}")?));
            }
        }
    }
    Ok(None)
}

/// The first established timing outside the range limits, or the first format of DisplayID, with what of it is outside.
fn first_other(alloc: Global, base: &Base, extensions: &[Ext]) -> Result<Option<String>, AllocError>
    requires { length extensions.now ≤ 3 }
{
    match first_established(alloc, base)? {
        None => first_typed(alloc, base, extensions),
        Some(text) => Ok(Some(text)),
    }
}

/// The first video code outside the range limits, or the first standard timing, established timing or format of DisplayID, with the limit,
/// its rate and by how much.
pub fn format_reported(
    alloc: Global,
    base: &Base,
    extensions: &[Ext],
) -> Result<Option<String>, AllocError>
    requires { length extensions.now ≤ 3 }
{
    if let Some(text) = first_code(alloc, base, extensions)? {
        return Ok(Some(text));
    }
    match first_standard(alloc, base)? {
        None => first_other(alloc, base, extensions),
        Some(text) => Ok(Some(text)),
    }
}
