//! What a link carries (HDMI 1.4b, section 8.3.2; HDMI 2.1, section 10.3.2).
ghost use Rattle.std.specs.Prelude.{◌≡◌, ◌≤◌};
ghost use Rattle.std.specs.List.{list_any};
ghost use Rattle.rules_values.specs.ExtParts.{some_block};
ghost use Rattle.rules_link.specs.Links.{characters, least_bits, hdmi_rate, block_rate, fixed_gigabits, has_room, compresses, carries_fixed, carries_characters, carries, is_carried, is_beyond};

use crate::load::Load;
use edid_cta::{DataBlock, Ext};
use edid_layout::{ForumBlock, HdmiBlock};
use rules_contents::{forum_of, is_forum_block};
use rules_values::{Sought, blocks_of, hdmi_of, some_block};

/// The greatest rate of an HDMI block that gives none, in kHz.
const PLAIN_RATE: u32 = 165_000;
/// The unit of a block's greatest rate, in kHz.
const RATE_UNIT: u32 = 5_000;
/// Max_FRL_Rate above this one is reserved.
const LAST_FIXED_RATE: u8 = 6;
/// DSC_1p2
const DSC: u8 = 128;
/// The bits of a pixel.
const FULL_BITS: u64 = 24;
/// Those of one in 4:2:0.
const HALVED_BITS: u64 = 12;
/// The least of one that is compressed.
const COMPRESSED_BITS: u64 = 6;
/// Of so many bits of a fixed rate link eight are payload.
const CODED_BITS: u64 = 9;
/// The payload of nine gigabits a second, in kbit/s.
const PAYLOAD: u64 = 8_000_000;

/// The characters that a format needs, in kHz.
pub fn characters(load: Load) -> u32
    ensures { result ≡ characters load }
{
    if load.is_halved {
        load.clock / 2
    } else {
        load.clock
    }
}

/// The least bits of a pixel.
fn least_bits(compresses: bool, load: Load) -> u64
    ensures value { result ≡ least_bits compresses load }
    ensures few { result ≤ 24 }
{
    if compresses {
        COMPRESSED_BITS
    } else if load.is_halved {
        HALVED_BITS
    } else {
        FULL_BITS
    }
}

/// The greatest rate of an HDMI block, in kHz.
fn hdmi_rate(hdmi: HdmiBlock) -> u32
    ensures { result ≡ hdmi_rate hdmi }
{
    let rate = if hdmi.max_clock == 0 {
        PLAIN_RATE
    } else {
        u32::from(hdmi.max_clock) * RATE_UNIT
    };
    let links = if hdmi.has_dual_link { 2 } else { 1 };
    rate * links
}

/// The greatest rate of characters that a data block gives, in kHz; 0 where it gives none.
pub fn block_rate(block: &DataBlock) -> u32
    ensures { result ≡ block_rate block.now }
{
    if block.is_hdmi() {
        hdmi_rate(hdmi_of(block))
    } else if is_forum_block(block) {
        u32::from(forum_of(block).max_rate) * RATE_UNIT
    } else {
        0
    }
}

/// What a fixed rate link carries in a second, in Gbit, coding among them; 0 where there is none.
pub fn fixed_gigabits(rate: u8) -> u64
    ensures value { result ≡ fixed_gigabits rate }
    ensures few { result ≤ 48 }
{
    match rate {
        1 => 9,
        2 => 18,
        3 => 24,
        4 => 32,
        5 => 40,
        6 => 48,
        _ => 0,
    }
}

/// Whether the pixels that are shown have room in the time of a line.
fn has_room(gigabits: u64, bits: u64, load: Load) -> bool
    requires gigabits { gigabits ≤ 48 }
    requires bits { bits ≤ 24 }
    ensures { result ≡ has_room gigabits bits load }
{
    u64::from(load.clock) * u64::from(load.width) * bits * CODED_BITS
        <= gigabits * PAYLOAD * u64::from(load.pixels)
}

fn compresses(forum: ForumBlock) -> bool
    ensures { result ≡ compresses forum }
{
    forum.streams / DSC % 2 == 1
}

/// Whether the fixed rate link of the HDMI Forum's block carries a format.
fn carries_fixed(load: Load, forum: ForumBlock) -> bool
    ensures { result ≡ carries_fixed load forum }
{
    LAST_FIXED_RATE < forum.fixed_rate
        || 0 < forum.fixed_rate
            && has_room(
                fixed_gigabits(forum.fixed_rate),
                least_bits(compresses(forum), load),
                load,
            )
}

fn carries_characters(rate: u32, load: Load) -> bool
    ensures { result ≡ carries_characters rate load }
{
    0 < rate && characters(load) <= rate
}

/// Whether a data block gives a link that carries a format.
fn carries(load: Load, block: &DataBlock) -> bool
    ensures { result ≡ carries load block.now }
{
    carries_characters(block_rate(block), load)
        || is_forum_block(block) && carries_fixed(load, forum_of(block))
}

fn some_carries(load: Load, blocks: &[DataBlock]) -> bool
    ensures { result ≡ list_any (carries load) blocks.now }
{
    blocks.iter().any(|block| carries(load, block))
}

/// Whether the link of these extensions carries a format.
pub fn is_carried(extensions: &[Ext], load: Load) -> bool
    ensures { result ≡ is_carried extensions.now load }
{
    extensions
        .iter()
        .any(|ext| some_carries(load, blocks_of(ext)))
}

/// Whether there is an HDMI block, and the link does not carry a format.
pub fn is_beyond(extensions: &[Ext], load: Load) -> bool
    ensures { result ≡ is_beyond extensions.now load }
{
    some_block(Sought::Hdmi, extensions) && !is_carried(extensions, load)
}
