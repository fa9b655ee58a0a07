//! What a block of the HDMI Forum means.
ghost use Rattle.std.specs.Prelude.{◌≡◌, ◌≤◌, ◌+◌, ◌*◌, ◌++◌, codes, length, drop, flat_map};
ghost use Rattle.arrayvec.specs.ArrayVec.{array_vec_len};
ghost use Rattle.meaning_words.specs.Notes.{own_line, set_words, when};
ghost use Rattle.meaning_extended.specs.Forum.{alone_words, clock_words, compression_meanings, compression_rows, depth_rows, fixed_words, flag_words, forum_meanings, from_words, greatest_words, lines_of, link_meanings, link_rows, link_words, picture_meanings, picture_rows, picture_words, rate_words, sink_meanings, spare_lines, spare_meanings, spare_rows, stream_rows, vrr_words};

use arrayvec::ArrayVec;
use edid_base::append;
use edid_layout::ForumBlock;
use meaning_fields::{Field, FieldSays, append_block, choices, field_rows};
use meaning_words::{
    Bit, NOTE, Note, PAGE, Page, after, append_between, append_bits, append_word, append_words,
    before, bit_rows,
};

/// A unit of the TMDS clock, in MHz.
const TMDS_CLOCK: u64 = 5;

const LINK: &[Bit] = bit_rows! {
    64 "read request";
    32 "cable status";
    16 "CCBPCI";
    8 "scrambling up to 340 MHz";
    4 "3D independent view";
    2 "3D dual view";
    1 "3D OSD disparity";
};

const DEPTHS: &[Bit] = bit_rows! {
    8 "UHD VIC";
    4 "4:2:0 at 48 bits a pixel";
    2 "4:2:0 at 36 bits a pixel";
    1 "4:2:0 at 30 bits a pixel";
};

const PICTURES: &[Bit] = bit_rows! {
    2 "ALLM";
    4 "FVA";
    8 "negative Mvrr";
    16 "cinema VRR";
    32 "Mdelta";
    64 "QMS";
    1 "FAPA in blanking";
    128 "FAPA end extended";
};

const STREAMS: &[Bit] = bit_rows! {
    128 "DSC 1.2a";
    64 "DSC in 4:2:0";
    32 "QMS TFR max";
    16 "QMS TFR min";
    8 "DSC at each 1/16 bit a pixel";
    4 "DSC at 16 bits";
    2 "DSC at 12 bits";
    1 "DSC at 10 bits";
};

const COMPRESSION: &[Field] = field_rows! {
    8 1 16 16 FieldSays::Words { before: ", DSC rate ", texts: choices! { ""; ", DSC over FRL at 3 Gbit/s on 3 lanes"; ", DSC over FRL at 6 Gbit/s on 3 lanes"; ", DSC over FRL at 6 Gbit/s on 4 lanes"; ", DSC over FRL at 8 Gbit/s on 4 lanes"; ", DSC over FRL at 10 Gbit/s on 4 lanes"; ", DSC over FRL at 12 Gbit/s on 4 lanes"; } };
    8 1 1 16 FieldSays::Words { before: ", DSC slices ", texts: choices! { ""; ", DSC in 1 slice up to 340 MHz"; ", DSC in 2 slices up to 340 MHz"; ", DSC in 4 slices up to 340 MHz"; ", DSC in 8 slices up to 340 MHz"; ", DSC in 8 slices up to 400 MHz"; ", DSC in 12 slices up to 400 MHz"; ", DSC in 16 slices up to 400 MHz"; } };
    9 1 1 64 FieldSays::Number { before: ", DSC chunks of a line up to ", times: 1024, plus: 1024, after: " bytes" };
    9 1 64 4 FieldSays::Hex(", reserved bits ");
};

// Appends what the link can do.
fn append_link_bits(note: &mut Note, bits: u8)
    requires { array_vec_len note.old + 320 ≤ NOTE }
    ensures items { note.new.items ≡ note.old.items ++ set_words link_rows bits }
    ensures len { array_vec_len note.new ≤ array_vec_len note.old + 320 }
{
    append_bits(note, LINK, u32::from(bits));
}

// Appends the depths in 4:2:0.
fn append_depth_bits(note: &mut Note, bits: u8)
    requires { array_vec_len note.old + 160 ≤ NOTE }
    ensures items { note.new.items ≡ note.old.items ++ set_words depth_rows bits }
    ensures len { array_vec_len note.new ≤ array_vec_len note.old + 160 }
{
    append_bits(note, DEPTHS, u32::from(bits));
}

// Appends what pictures may do.
fn append_picture_bits(note: &mut Note, bits: u8)
    requires { array_vec_len note.old + 320 ≤ NOTE }
    ensures items { note.new.items ≡ note.old.items ++ set_words picture_rows bits }
    ensures len { array_vec_len note.new ≤ array_vec_len note.old + 320 }
{
    append_bits(note, PICTURES, u32::from(bits));
}

// Appends what compressed streams may do.
fn append_stream_bits(note: &mut Note, bits: u8)
    requires { array_vec_len note.old + 320 ≤ NOTE }
    ensures items { note.new.items ≡ note.old.items ++ set_words stream_rows bits }
    ensures len { array_vec_len note.new ≤ array_vec_len note.old + 320 }
{
    append_bits(note, STREAMS, u32::from(bits));
}

fn append_clock(note: &mut Note, clock: u8)
    requires { array_vec_len note.old + 100 ≤ NOTE }
    ensures items { note.new.items ≡ note.old.items ++ clock_words clock }
    ensures len { array_vec_len note.new ≤ array_vec_len note.old + 39 }
{
    if clock != 0 {
        append_between(
            note,
            b", TMDS up to ",
            TMDS_CLOCK * u64::from(clock),
            b" MHz",
        );
    }
}

fn rate_words(rate: u8) -> &'static str
    ensures value { result.now ≡ rate_words rate }
    ensures short { length result.now ≤ 40 }
{
    match rate {
        0 => "",
        1 => ", FRL up to 3 Gbit/s on 3 lanes",
        2 => ", FRL up to 6 Gbit/s on 3 lanes",
        3 => ", FRL up to 6 Gbit/s on 4 lanes",
        4 => ", FRL up to 8 Gbit/s on 4 lanes",
        5 => ", FRL up to 10 Gbit/s on 4 lanes",
        6 => ", FRL up to 12 Gbit/s on 4 lanes",
        _ => ", FRL of a reserved rate",
    }
}

fn append_fixed(note: &mut Note, block: ForumBlock)
    requires { array_vec_len note.old + 200 ≤ NOTE }
    ensures items { note.new.items ≡ note.old.items ++ fixed_words block }
    ensures len { array_vec_len note.new ≤ array_vec_len note.old + 200 }
{
    append(note, rate_words(block.fixed_rate).as_bytes());
    append_depth_bits(note, block.depths);
}

fn append_scdc(note: &mut Note, has_scdc: bool)
    requires { array_vec_len note.old + 6 ≤ NOTE }
    ensures items { note.new.items ≡ note.old.items ++ when has_scdc (codes "SCDC") }
    ensures len { array_vec_len note.new ≤ array_vec_len note.old + 6 }
{
    if has_scdc {
        append_word(note, b"SCDC");
    }
}

fn append_link_flags(note: &mut Note, block: ForumBlock)
    requires { array_vec_len note.old + 326 ≤ NOTE }
    ensures items { note.new.items ≡ note.old.items ++ flag_words block }
    ensures len { array_vec_len note.new ≤ array_vec_len note.old + 326 }
{
    append_scdc(note, block.has_scdc);
    append_link_bits(note, block.link);
}

fn link_note(block: ForumBlock) -> Note
    ensures value { result.items ≡ link_words block }
    ensures len { array_vec_len result ≤ 800 }
{
    let mut words = ArrayVec::new();
    append_between(
        &mut words,
        b", HDMI Forum version ",
        u64::from(block.version),
        b"",
    );
    append_clock(&mut words, block.max_rate);
    append_link_flags(&mut words, block);
    append_fixed(&mut words, block);
    words
}

fn append_greatest(note: &mut Note, most: u16)
    requires { array_vec_len note.old + 100 ≤ NOTE }
    ensures items { note.new.items ≡ note.old.items ++ greatest_words most }
    ensures len { array_vec_len note.new ≤ array_vec_len note.old + 40 }
{
    if most == 0 {
        append(note, b" Hz on");
    } else {
        append_between(note, b" to ", u64::from(most), b" Hz");
    }
}

/// Appends a least rate, and what is above it.
fn append_from(note: &mut Note, least: u8, most: u16)
    requires { array_vec_len note.old + 160 ≤ NOTE }
    ensures items { note.new.items ≡ note.old.items ++ from_words least most }
    ensures len { array_vec_len note.new ≤ array_vec_len note.old + 80 }
{
    append_between(note, b", VRR from ", u64::from(least), b"");
    append_greatest(note, most);
}

/// Appends a greatest rate without a least one.
fn append_alone(note: &mut Note, most: u16)
    requires { array_vec_len note.old + 160 ≤ NOTE }
    ensures items { note.new.items ≡ note.old.items ++ alone_words most }
    ensures len { array_vec_len note.new ≤ array_vec_len note.old + 80 }
{
    if most != 0 {
        append_between(note, b", VRR up to ", u64::from(most), b" Hz");
    }
}

fn append_vrr(note: &mut Note, least: u8, most: u16)
    requires { array_vec_len note.old + 160 ≤ NOTE }
    ensures items { note.new.items ≡ note.old.items ++ vrr_words least most }
    ensures len { array_vec_len note.new ≤ array_vec_len note.old + 80 }
{
    if least == 0 {
        append_alone(note, most);
    } else {
        append_from(note, least, most);
    }
}

fn picture_note(block: ForumBlock) -> Note
    ensures value { result.items ≡ picture_words block }
    ensures len { array_vec_len result ≤ 800 }
{
    let mut words = ArrayVec::new();
    append_picture_bits(&mut words, block.pictures);
    append_vrr(&mut words, block.least_refresh, block.greatest_refresh);
    append_stream_bits(&mut words, block.streams);
    words
}

fn append_link(page: &mut Page, block: ForumBlock)
    requires { array_vec_len page.old + 1536 ≤ PAGE }
    ensures items { page.new.items ≡ page.old.items ++ flat_map own_line (link_meanings block) }
    ensures len { array_vec_len page.new ≤ array_vec_len page.old + 1000 }
{
    append_words(page, link_note(block).as_slice());
}

fn append_pictures(page: &mut Page, block: ForumBlock)
    requires { array_vec_len page.old + 1536 ≤ PAGE }
    ensures items { page.new.items ≡ page.old.items ++ flat_map own_line (picture_meanings block) }
    ensures len { array_vec_len page.new ≤ array_vec_len page.old + 1000 }
{
    append_words(page, picture_note(block).as_slice());
}

// Appends how streams are compressed, and what is left.
fn append_compression(page: &mut Page, payload: &[u8])
    requires few { length payload.now ≤ 128 }
    requires room { array_vec_len page.old + 1536 ≤ PAGE }
    ensures { page.new.items ≡ page.old.items ++ flat_map own_line (compression_meanings payload.now) }
{
    append_block(page, b"", COMPRESSION, 10, payload);
}

#[tactic(auto, unfolding(crate::specs::Forum::lines_of))]
fn append_of(page: &mut Page, block: ForumBlock, payload: &[u8])
    requires few { length payload.now ≤ 128 }
    requires room { array_vec_len page.old + 4000 ≤ PAGE }
    ensures { page.new.items ≡ page.old.items ++ flat_map own_line (lines_of block payload.now) }
{
    append_link(page, block);
    append_pictures(page, block);
    append_compression(page, payload);
}

/// Appends what a block of the HDMI Forum means, of its bytes from the version on (HDMI 2.1, sections 10.3.2 and 10.3.6): a
/// line of the link, one of what pictures may do, and one of how streams are compressed.
pub fn append_forum(page: &mut Page, payload: &[u8])
    requires few { length payload.now ≤ 128 }
    requires room { array_vec_len page.old + 4000 ≤ PAGE }
    ensures { page.new.items ≡ page.old.items ++ flat_map own_line (forum_meanings payload.now) }
{
    append_of(page, ForumBlock::of(payload), payload);
}

/// Two reserved bytes before sink capabilities.
const SPARE: &[Field] = field_rows! {
    0 1 1 256 FieldSays::Hex(", byte 1 is ");
    1 1 1 256 FieldSays::Hex(", byte 2 is ");
};

// Appends reserved bytes that are not 0.
#[tactic(auto, unfolding(crate::specs::Forum::spare_lines))]
fn append_spare_bytes(page: &mut Page, bytes: &[u8])
    requires few { length bytes.now ≤ 128 }
    requires room { array_vec_len page.old + 1536 ≤ PAGE }
    ensures items { page.new.items ≡ page.old.items ++ flat_map own_line (spare_lines bytes.now) }
    ensures len { array_vec_len page.new ≤ array_vec_len page.old + 1400 }
{
    append_block(page, b"", SPARE, 2, bytes);
}

fn append_spare(page: &mut Page, payload: &[u8])
    requires few { length payload.now ≤ 128 }
    requires room { array_vec_len page.old + 1536 ≤ PAGE }
    ensures items { page.new.items ≡ page.old.items ++ flat_map own_line (spare_meanings payload.now) }
    ensures len { array_vec_len page.new ≤ array_vec_len page.old + 1400 }
{
    append_spare_bytes(page, before(payload, 2));
}

fn append_after_spare(page: &mut Page, payload: &[u8])
    requires few { length payload.now ≤ 128 }
    requires room { array_vec_len page.old + 4000 ≤ PAGE }
    ensures { page.new.items ≡ page.old.items ++ flat_map own_line (forum_meanings (drop 2 payload.now)) }
{
    append_forum(page, after(payload, 2));
}

/// Appends what an extended block of sink capabilities means: reserved bytes that are not 0, and the same lines from the
/// version on (HDMI 2.1, section 10.3.6).
pub(crate) fn append_sink(page: &mut Page, payload: &[u8])
    requires few { length payload.now ≤ 128 }
    requires room { array_vec_len page.old + 6000 ≤ PAGE }
    ensures { page.new.items ≡ page.old.items ++ flat_map own_line (sink_meanings payload.now) }
{
    append_spare(page, payload);
    append_after_spare(page, payload);
}
