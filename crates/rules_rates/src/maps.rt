//! The formats that a display takes in YCbCr 4:2:0.
ghost use Rattle.std.specs.Prelude.{◌≡◌, ◌≤◌, ◌<◌, ◌+◌, length};
ghost use Rattle.std.specs.List.{list_any};
ghost use Rattle.rules_values.specs.VideoCodes.{code_of};
ghost use Rattle.rules_values.specs.ExtParts.{some_block};
ghost use Rattle.rules_rates.specs.Maps.{weight, marks_past, has_past, is_slower, is_slow, is_marked, marks_slow, has_slow};

use crate::pace::Pace;
use crate::paces::pace_of;
use edid_cta::{DataBlock, Ext};
use rules_contents::has_extended_tag;
use rules_values::{blocks_of, code_of};

/// The extended tag of a block of formats in 4:2:0 alone.
const VIDEO_420: u8 = 0x0e;
/// That of a map of the formats that are there in 4:2:0 too.
const MAP_420: u8 = 0x0f;
/// The least clock of a format in 4:2:0, in kHz.
const LEAST_CLOCK: u32 = 590_000;

/// The weight of a bit by its place in a byte.
fn weight(place: usize) -> u8
    ensures value { result ≡ weight place }
    ensures some { 0 < result }
{
    match place {
        0 => 1,
        1 => 2,
        2 => 4,
        3 => 8,
        4 => 16,
        5 => 32,
        6 => 64,
        _ => 128,
    }
}

/// Whether a bit is set for a place after so many codes.
fn marks_past(count: usize, bytes: &[u8]) -> bool
    ensures { result ≡ marks_past count bytes.now }
{
    match bytes {
        [] => false,
        [byte, rest @ ..] => {
            count < 8 && 0 < *byte / weight(count) || marks_past(count.saturating_sub(8), rest)
        }
    }
}

/// Whether a data block is a map that marks a place after so many codes.
pub fn has_past(count: usize, block: &DataBlock) -> bool
    ensures { result ≡ has_past count block.now }
{
    has_extended_tag(MAP_420, block) && marks_past(count, &block.payload.as_slice()[1..])
}

fn some_past_in(count: usize, blocks: &[DataBlock]) -> bool
    ensures { result ≡ list_any (has_past count) blocks.now }
{
    blocks.iter().any(|block| has_past(count, block))
}

/// Whether some map marks a place after so many codes.
pub fn some_past(count: usize, extensions: &[Ext]) -> bool
    ensures { result ≡ some_block (has_past count) extensions.now }
{
    extensions
        .iter()
        .any(|ext| some_past_in(count, blocks_of(ext)))
}

fn is_slower(pace: Option<Pace>) -> bool
    ensures { result ≡ is_slower pace }
{
    match pace {
        None => false,
        Some(pace) => pace.clock < LEAST_CLOCK,
    }
}

/// Whether the format of a code is too slow for 4:2:0.
pub fn is_slow(code: u8) -> bool
    ensures { result ≡ is_slow code }
{
    is_slower(pace_of(code))
}

/// Whether a map marks the code at a place.
pub fn is_marked(bytes: &[u8], place: usize) -> bool
    ensures { result ≡ is_marked bytes.now place }
{
    place / 8 < bytes.len() && bytes[place / 8] / weight(place % 8) % 2 == 1
}

/// Whether one of the codes, which stand from a place on, is marked and slow.
fn marks_slow(bytes: &[u8], place: usize, codes: &[u8]) -> bool
    requires { place + length codes.now < 1024 }
    ensures { result ≡ marks_slow bytes.now place codes.now }
{
    match codes {
        [] => false,
        [code, rest @ ..] => {
            is_marked(bytes, place) && is_slow(*code) || marks_slow(bytes, place + 1, rest)
        }
    }
}

fn some_slow_svd(svds: &[u8]) -> bool
    ensures { result ≡ list_any (λ svd. is_slow (code_of svd)) svds.now }
{
    svds.iter().any(|svd| is_slow(code_of(*svd)))
}

/// Whether a data block has a format in 4:2:0 that is too slow for it, where these are the codes of the video blocks.
pub fn has_slow(codes: &[u8], block: &DataBlock) -> bool
    requires { length codes.now ≤ 369 }
    ensures { result ≡ has_slow codes.now block.now }
{
    let payload = block.payload.as_slice();
    has_extended_tag(MAP_420, block) && marks_slow(&payload[1..], 0, codes)
        || has_extended_tag(VIDEO_420, block) && some_slow_svd(&payload[1..])
}

fn some_slow_in(codes: &[u8], blocks: &[DataBlock]) -> bool
    requires { length codes.now ≤ 369 }
    ensures { result ≡ list_any (has_slow codes.now) blocks.now }
{
    blocks.iter().any(|block| has_slow(codes, block))
}

/// Whether some data block has a format in 4:2:0 that is too slow for it.
pub fn some_slow(codes: &[u8], extensions: &[Ext]) -> bool
    requires { length codes.now ≤ 369 }
    ensures { result ≡ some_block (has_slow codes.now) extensions.now }
{
    extensions
        .iter()
        .any(|ext| some_slow_in(codes, blocks_of(ext)))
}
