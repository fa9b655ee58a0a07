//! What an extended block and a vendor block mean.
ghost use Rattle.std.specs.Prelude.{◌≡◌, ◌≤◌, ◌+◌, ◌++◌, length, flat_map};
ghost use Rattle.arrayvec.specs.ArrayVec.{array_vec_len};
ghost use Rattle.meaning_words.specs.Notes.{own_line};
ghost use Rattle.meaning_extended.specs.Blocks.{extended_meanings, named_block, named_vendor, other_meanings, tagged_meanings, titled_meanings, vendor_audio, vendor_meanings, vendor_video};

use crate::colours::{append_capability, append_colours, append_hdr};
use crate::counts::append_count;
use crate::forum::{append_forum, append_sink};
use crate::makers::{
    AMD, DOLBY, HDR10_PLUS, MICROSOFT, append_labelled, append_named, maker_name, tag_name,
};
use crate::titles::{append_maker, append_tag, append_title, is_timing_block};
use crate::videos::{append_map, append_preferences};
use crate::{append_dolby, append_plus, append_soft, append_sound, append_sync};
use edid_layout::{HDMI_FORUM, identifier};
use meaning_displayid::append_timing_block;
use meaning_words::{PAGE, Page, after, append_video, byte_at};

/// The extended tags (CTA-861-G, table 56).
const VIDEO_CAPABILITY: u8 = 0x00;

const VENDOR_VIDEO: u8 = 0x01;

const COLORIMETRY: u8 = 0x05;

const HDR_STATIC: u8 = 0x06;

const PREFERENCES: u8 = 0x0d;

const VIDEO_420: u8 = 0x0e;

const MAP_420: u8 = 0x0f;

const VENDOR_AUDIO: u8 = 0x11;
/// The extended tag of the HDMI Forum's sink capabilities (HDMI 2.1, section 10.3.6).
const SINK_CAPABILITY: u8 = 0x79;

/// The extended tag of the HDMI Forum's count of extensions (HDMI 2.1, section 10.3.7).
const EXTENSION_COUNT: u8 = 0x78;

fn append_vendor_video(page: &mut Page, payload: &[u8])
    requires few { length payload.now ≤ 128 }
    requires room { array_vec_len page.old + 4000 ≤ PAGE }
    ensures { page.new.items ≡ page.old.items ++ flat_map own_line (vendor_video payload.now) }
{
    match identifier(payload) {
        DOLBY => append_dolby(page, after(payload, 3)),
        HDR10_PLUS => append_plus(page, after(payload, 3)),
        _ => append_maker(page, b", video of maker ", payload),
    }
}

fn append_vendor_audio(page: &mut Page, payload: &[u8])
    requires few { length payload.now ≤ 128 }
    requires room { array_vec_len page.old + 4000 ≤ PAGE }
    ensures { page.new.items ≡ page.old.items ++ flat_map own_line (vendor_audio payload.now) }
{
    if identifier(payload) == DOLBY {
        append_sound(page, after(payload, 3));
    } else {
        append_maker(page, b", audio of maker ", payload);
    }
}

// A block whose bytes are not read.
fn append_unread(page: &mut Page, tag: u8, payload: &[u8])
    requires few { length payload.now ≤ 128 }
    requires room { array_vec_len page.old + 1536 ≤ PAGE }
    ensures { page.new.items ≡ page.old.items ++ flat_map own_line (named_block tag payload.now) }
{
    let name = tag_name(tag);
    if name.is_empty() {
        append_tag(page, tag, payload);
    } else {
        append_labelled(page, name.as_bytes(), payload);
    }
}

fn append_other(page: &mut Page, tag: u8, payload: &[u8])
    requires few { length payload.now ≤ 128 }
    requires room { array_vec_len page.old + 21640 ≤ PAGE }
    ensures { page.new.items ≡ page.old.items ++ flat_map own_line (other_meanings tag payload.now) }
{
    if is_timing_block(tag) {
        append_timing_block(page, tag, payload);
    } else {
        append_unread(page, tag, payload);
    }
}

#[tactic(auto, unfolding(crate::specs::Blocks::tagged_meanings))]
fn append_tagged(page: &mut Page, codes: &[u8], tag: u8, payload: &[u8])
    requires few { length payload.now ≤ 128 }
    requires room { array_vec_len page.old + 21640 ≤ PAGE }
    ensures { page.new.items ≡ page.old.items ++ flat_map own_line (tagged_meanings codes.now tag payload.now) }
{
    match tag {
        VIDEO_CAPABILITY => append_capability(page, payload),
        VENDOR_VIDEO => append_vendor_video(page, payload),
        COLORIMETRY => append_colours(page, payload),
        HDR_STATIC => append_hdr(page, payload),
        PREFERENCES => append_preferences(page, payload),
        VIDEO_420 => append_video(page, payload),
        MAP_420 => append_map(page, codes, payload),
        VENDOR_AUDIO => append_vendor_audio(page, payload),
        EXTENSION_COUNT => append_count(page, payload),
        SINK_CAPABILITY => append_sink(page, payload),
        _ => append_other(page, tag, payload),
    }
}

fn append_titled(page: &mut Page, codes: &[u8], tag: u8, payload: &[u8])
    requires few { length payload.now ≤ 128 }
    requires room { array_vec_len page.old + 21700 ≤ PAGE }
    ensures { page.new.items ≡ page.old.items ++ flat_map own_line (titled_meanings codes.now tag payload.now) }
{
    append_title(page, tag);
    append_tagged(page, codes, tag, payload);
}

/// Appends what an extended block means, of the video codes of its EDID, its extended tag and the bytes after it.
pub fn append_extended(page: &mut Page, codes: &[u8], bytes: &[u8])
    requires few { length bytes.now ≤ 128 }
    requires room { array_vec_len page.old + 21700 ≤ PAGE }
    ensures { page.new.items ≡ page.old.items ++ flat_map own_line (extended_meanings codes.now bytes.now) }
{
    if !bytes.is_empty() {
        append_titled(page, codes, byte_at(bytes, 0), after(bytes, 1));
    }
}

fn append_named_vendor(page: &mut Page, bytes: &[u8])
    requires few { length bytes.now ≤ 128 }
    requires room { array_vec_len page.old + 1536 ≤ PAGE }
    ensures { page.new.items ≡ page.old.items ++ flat_map own_line (named_vendor bytes.now) }
{
    let name = maker_name(identifier(bytes));
    if name.is_empty() {
        append_maker(page, b", maker ", bytes);
    } else {
        append_named(page, name.as_bytes(), bytes);
    }
}

/// Appends what a vendor block means, of the identifier and the bytes after it.
pub fn append_vendor(page: &mut Page, bytes: &[u8])
    requires few { length bytes.now ≤ 128 }
    requires room { array_vec_len page.old + 16000 ≤ PAGE }
    ensures { page.new.items ≡ page.old.items ++ flat_map own_line (vendor_meanings bytes.now) }
{
    match identifier(bytes) {
        HDMI_FORUM => append_forum(page, after(bytes, 3)),
        AMD => append_sync(page, after(bytes, 3)),
        MICROSOFT => append_soft(page, after(bytes, 3)),
        _ => append_named_vendor(page, bytes),
    }
}
