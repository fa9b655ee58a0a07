//! What an HDMI block, the vendor specific data block of HDMI (VSDB), means (HDMI 1.4, section 8.3.2).
ghost use Rattle.std.specs.Prelude.{◌≡◌, ◌≤◌, ◌<◌, ◌+◌, ◌*◌, ◌++◌, length, map, flat_map};
ghost use Rattle.std.specs.Option.{ForSome};
ghost use Rattle.arrayvec.specs.ArrayVec.{array_vec_len};
ghost use Rattle.meaning_words.specs.Notes.{own_line, when, set_words};
ghost use Rattle.meaning_cta.specs.Hdmi.{also_text, depth_text, tmds_text, content_rows, capability_words, capability_meanings, time_text, delay_words, latency_words, latency_meanings, hdmi_text, image_text, multi_text, format_count, stereo_count, counts_text, over_words, spare_text, video_words, left_meanings, flag_part, code_part, stereo_part, spare_part, video_meanings, video_part, plain_latencies, interlaced_latencies, block_meanings, hdmi_meanings};

use crate::stereo::append_stereo;
use arrayvec::ArrayVec;
use edid_base::append;
use edid_layout::{Delay, HdmiBlock, HdmiVideo, Latencies, code_of_hdmi, video_bytes};
use meaning_words::{
    Bit, NOTE, Note, PAGE, Page, append_between, append_bits, append_code, append_line,
    append_named_hex, append_rest, append_spaced, append_word, append_words, bit_rows,
};

/// A unit of the TMDS clock, in MHz.
const TMDS_CLOCK: u64 = 5;

const DEPTHS: &[Bit] = bit_rows! {
    4 "48";
    2 "36";
    1 "30";
};

const CONTENTS: &[Bit] = bit_rows! {
    1 "graphics content";
    2 "photo content";
    4 "cinema content";
    8 "game content";
    16 "reserved bit 4";
};

fn also_text(also: bool) -> &'static str
    ensures value { result.now ≡ also_text also }
    ensures short { length result.now ≤ 26 }
{
    if also {
        "bits a pixel also in 4:4:4"
    } else {
        "bits a pixel"
    }
}

fn append_depths(note: &mut Note, depths: u8, also: bool)
    requires { array_vec_len note.old + 148 ≤ NOTE }
    ensures items { note.new.items ≡ note.old.items ++ depth_text depths also }
    ensures len { array_vec_len note.new ≤ array_vec_len note.old + 148 }
{
    if depths == 0 {
        append_when(note, also, b"deep colour in 4:4:4");
    } else {
        append(note, b", ");
        append_spaced(note, DEPTHS, u32::from(depths));
        append(note, also_text(also).as_bytes());
    }
}

fn append_tmds(note: &mut Note, clock: u8)
    requires { array_vec_len note.old + 100 ≤ NOTE }
    ensures items { note.new.items ≡ note.old.items ++ tmds_text clock }
    ensures len { array_vec_len note.new ≤ array_vec_len note.old + 39 }
{
    if clock == 0 {
        return;
    }
    append_between(
        note,
        b", TMDS up to ",
        TMDS_CLOCK * u64::from(clock),
        b" MHz",
    );
}

/// Appends a word where a bit is set.
fn append_when(note: &mut Note, is_there: bool, word: &[u8])
    requires short { length word.now ≤ 30 }
    requires room { array_vec_len note.old + 32 ≤ NOTE }
    ensures items { note.new.items ≡ note.old.items ++ when is_there word.now }
    ensures len { array_vec_len note.new ≤ array_vec_len note.old + 32 }
{
    if is_there {
        append_word(note, word);
    }
}

// Appends reserved bits of a byte of flags.
fn append_spare(note: &mut Note, bits: u8)
    requires { array_vec_len note.old + 60 ≤ NOTE }
    ensures items { note.new.items ≡ note.old.items ++ spare_text bits }
    ensures len { array_vec_len note.new ≤ array_vec_len note.old + 18 }
{
    if bits != 0 {
        append_named_hex(note, b", reserved bits ", &[bits]);
    }
}

fn append_contents(note: &mut Note, bits: u32)
    requires { array_vec_len note.old + 200 ≤ NOTE }
    ensures items { note.new.items ≡ note.old.items ++ set_words content_rows bits }
    ensures len { array_vec_len note.new ≤ array_vec_len note.old + 200 }
{
    append_bits(note, CONTENTS, bits);
}

fn capability_note(block: HdmiBlock) -> Note
    ensures value { result.items ≡ capability_words block }
    ensures len { array_vec_len result ≤ 469 }
{
    let mut words = ArrayVec::new();
    append_when(&mut words, block.supports_ai, b"AI");
    append_depths(&mut words, block.deep_colours, block.has_deep_444);
    append_when(&mut words, block.has_dual_link, b"dual-link DVI");
    append_spare(&mut words, block.reserved);
    append_tmds(&mut words, block.max_clock);
    append_contents(&mut words, u32::from(block.contents));
    words
}

fn append_capabilities(page: &mut Page, block: HdmiBlock)
    requires { array_vec_len page.old + 470 ≤ PAGE }
    ensures items { page.new.items ≡ page.old.items ++ flat_map own_line (capability_meanings block) }
    ensures len { array_vec_len page.new ≤ array_vec_len page.old + 470 }
{
    append_words(page, capability_note(block).as_slice());
}

fn append_both(note: &mut Note, name: &[u8], word: &[u8])
    requires short { length name.now ≤ 30 }
    requires short_word { length word.now ≤ 24 }
    requires room { array_vec_len note.old + 54 ≤ NOTE }
    ensures items { note.new.items ≡ note.old.items ++ (name.now ++ word.now) }
    ensures len { array_vec_len note.new ≤ array_vec_len note.old + 54 }
{
    append(note, name);
    append(note, word);
}

fn append_time(note: &mut Note, name: &[u8], time: u16)
    requires short { length name.now ≤ 30 }
    requires room { array_vec_len note.old + 154 ≤ NOTE }
    ensures items { note.new.items ≡ note.old.items ++ (name.now ++ time_text time) }
    ensures len { array_vec_len note.new ≤ array_vec_len note.old + 54 }
{
    append(note, name);
    append_between(note, b" ", u64::from(time), b" ms");
}

fn append_delay(note: &mut Note, name: &[u8], none: &[u8], delay: Delay)
    requires short { length name.now ≤ 30 }
    requires short_none { length none.now ≤ 30 }
    requires room { array_vec_len note.old + 154 ≤ NOTE }
    ensures items { note.new.items ≡ note.old.items ++ delay_words name.now none.now delay }
    ensures len { array_vec_len note.new ≤ array_vec_len note.old + 54 }
{
    match delay {
        Delay::Unknown => append_both(note, name, b" unknown"),
        Delay::Time(time) => append_time(note, name, time),
        Delay::Reserved => append_both(note, name, b" reserved"),
        Delay::Absent => append(note, none),
    }
}

fn latency_note(name: &[u8], none: &[u8], latencies: Latencies) -> Note
    requires short { length name.now ≤ 30 }
    requires short_none { length none.now ≤ 30 }
    ensures value { result.items ≡ latency_words name.now none.now latencies }
    ensures len { array_vec_len result ≤ 108 }
{
    let mut words = ArrayVec::new();
    append_delay(&mut words, name, none, latencies.video);
    append_delay(
        &mut words,
        b", audio latency",
        b", no audio",
        latencies.audio,
    );
    words
}

fn append_latencies(page: &mut Page, name: &[u8], none: &[u8], latencies: Option<Latencies>)
    requires short { length name.now ≤ 30 }
    requires short_none { length none.now ≤ 30 }
    requires room { array_vec_len page.old + 109 ≤ PAGE }
    ensures items { page.new.items ≡ page.old.items ++ flat_map own_line (latency_meanings name.now none.now latencies) }
    ensures len { array_vec_len page.new ≤ array_vec_len page.old + 109 }
{
    if let Some(latencies) = latencies {
        append_words(page, latency_note(name, none, latencies).as_slice());
    }
}

fn hdmi_note(hdmi: u8) -> Note
    ensures value { result.items ≡ hdmi_text hdmi }
    ensures len { array_vec_len result ≤ 104 }
{
    let mut note = ArrayVec::new();
    append_between(&mut note, b"HDMI ", u64::from(hdmi), b": ");
    append_code(&mut note, code_of_hdmi(hdmi));
    note
}

fn append_hdmi_codes(page: &mut Page, codes: &[u8])
    requires { array_vec_len page.old + 107 * length codes.now ≤ PAGE }
    ensures items { page.new.items ≡ page.old.items ++ flat_map own_line (map hdmi_text codes.now) }
    ensures len { array_vec_len page.new ≤ array_vec_len page.old + 107 * length codes.now }
{
    if let [code, rest @ ..] = codes {
        append_line(page, hdmi_note(*code).as_slice());
        append_hdmi_codes(page, rest);
    }
}

fn image_text(size: u8) -> &'static str
    ensures value { result.now ≡ image_text size }
    ensures short { length result.now ≤ 32 }
{
    match size {
        1 => ", size right in its aspect alone",
        2 => ", size to 1 cm",
        3 => ", size to 5 cm",
        _ => "",
    }
}

fn multi_text(form: u8) -> &'static str
    ensures value { result.now ≡ multi_text form }
    ensures short { length result.now ≤ 34 }
{
    match form {
        1 => ", 3D of the first 16 codes",
        2 => ", 3D of some of the first 16 codes",
        3 => ", 3D in a reserved form",
        _ => "",
    }
}

fn video_note(video: HdmiVideo) -> Note
    ensures value { result.items ≡ video_words video }
    ensures len { array_vec_len result ≤ 116 }
{
    let mut words = ArrayVec::new();
    append_when(&mut words, video.has_stereo, b"3D");
    append(&mut words, multi_text(video.multi).as_bytes());
    append(&mut words, image_text(video.image_size).as_bytes());
    append_spare(&mut words, video.reserved);
    words
}

fn append_left(page: &mut Page, bytes: &[u8])
    requires few { length bytes.now ≤ 128 }
    requires room { array_vec_len page.old + 271 ≤ PAGE }
    ensures { page.new.items ≡ page.old.items ++ flat_map own_line (left_meanings bytes.now) }
{
    let mut words: Note = ArrayVec::new();
    append_rest(&mut words, bytes);
    append_words(page, words.as_slice());
}

fn append_format_count(note: &mut Note, formats: u64)
    requires { array_vec_len note.old + 100 ≤ NOTE }
    ensures items { note.new.items ≡ note.old.items ++ format_count formats }
    ensures len { array_vec_len note.new ≤ array_vec_len note.old + 40 }
{
    append_between(note, b", counts ", formats, b" codes and ");
}

fn append_stereo_count(note: &mut Note, bytes: u64)
    requires { array_vec_len note.old + 100 ≤ NOTE }
    ensures items { note.new.items ≡ note.old.items ++ stereo_count bytes }
    ensures len { array_vec_len note.new ≤ array_vec_len note.old + 33 }
{
    append_between(note, b"", bytes, b" bytes of 3D");
}

fn append_counts(note: &mut Note, formats: u64, bytes: u64)
    requires { array_vec_len note.old + 200 ≤ NOTE }
    ensures items { note.new.items ≡ note.old.items ++ counts_text formats bytes }
    ensures len { array_vec_len note.new ≤ array_vec_len note.old + 73 }
{
    append_format_count(note, formats);
    append_stereo_count(note, bytes);
}

// Appends the counts of codes and of bytes of 3D, where there are fewer.
fn append_over(note: &mut Note, video: HdmiVideo, bytes: &[u8])
    requires { array_vec_len note.old + 200 ≤ NOTE }
    ensures items { note.new.items ≡ note.old.items ++ over_words video bytes.now }
    ensures len { array_vec_len note.new ≤ array_vec_len note.old + 73 }
{
    if bytes.len() < 2 + usize::from(video.codes) + usize::from(video.stereo) {
        append_counts(note, u64::from(video.codes), u64::from(video.stereo));
    }
}

fn append_flag_part(page: &mut Page, video: HdmiVideo, bytes: &[u8])
    requires { array_vec_len page.old + 190 ≤ PAGE }
    ensures items { page.new.items ≡ page.old.items ++ flat_map own_line (flag_part video bytes.now) }
    ensures len { array_vec_len page.new ≤ array_vec_len page.old + 190 }
{
    let mut words = video_note(video);
    append_over(&mut words, video, bytes);
    append_words(page, words.as_slice());
}

fn append_code_part(page: &mut Page, video: HdmiVideo, bytes: &[u8])
    requires few { video.codes < 8 }
    requires room { array_vec_len page.old + 856 ≤ PAGE }
    ensures items { page.new.items ≡ page.old.items ++ flat_map own_line (code_part video bytes.now) }
    ensures len { array_vec_len page.new ≤ array_vec_len page.old + 856 }
{
    append_hdmi_codes(page, video.codes_in(bytes));
}

fn append_stereo_part(page: &mut Page, codes: &[u8], video: HdmiVideo, bytes: &[u8])
    requires few { video.stereo < 32 }
    requires room { array_vec_len page.old + 11100 ≤ PAGE }
    ensures items { page.new.items ≡ page.old.items ++ flat_map own_line (stereo_part codes.now video bytes.now) }
    ensures len { array_vec_len page.new ≤ array_vec_len page.old + 11100 }
{
    append_stereo(page, codes, video.multi, video.stereo_in(bytes));
}

fn append_spare_part(page: &mut Page, video: HdmiVideo, bytes: &[u8])
    requires few { length bytes.now ≤ 128 }
    requires room { array_vec_len page.old + 271 ≤ PAGE }
    ensures { page.new.items ≡ page.old.items ++ flat_map own_line (spare_part video bytes.now) }
{
    append_left(page, video.left_in(bytes));
}

#[tactic(auto, unfolding(crate::specs::Hdmi::video_meanings))]
fn append_videos(page: &mut Page, codes: &[u8], video: HdmiVideo, bytes: &[u8])
    requires few { length bytes.now ≤ 128 }
    requires few_codes { video.codes < 8 }
    requires few_stereo { video.stereo < 32 }
    requires room { array_vec_len page.old + 12500 ≤ PAGE }
    ensures { page.new.items ≡ page.old.items ++ flat_map own_line (video_meanings codes.now video bytes.now) }
{
    append_flag_part(page, video, bytes);
    append_code_part(page, video, bytes);
    append_stereo_part(page, codes, video, bytes);
    append_spare_part(page, video, bytes);
}

fn append_video_part(page: &mut Page, codes: &[u8], video: Option<HdmiVideo>, bytes: &[u8])
    requires few { length bytes.now ≤ 128 }
    requires counted { ForSome video (λ v. (v.codes < 8) × (v.stereo < 32)) }
    requires room { array_vec_len page.old + 12500 ≤ PAGE }
    ensures { page.new.items ≡ page.old.items ++ flat_map own_line (video_part codes.now video bytes.now) }
{
    match video {
        None => append_left(page, bytes),
        Some(video) => append_videos(page, codes, video, bytes),
    }
}

fn append_plain_latencies(page: &mut Page, latencies: Option<Latencies>)
    requires { array_vec_len page.old + 109 ≤ PAGE }
    ensures items { page.new.items ≡ page.old.items ++ flat_map own_line (plain_latencies latencies) }
    ensures len { array_vec_len page.new ≤ array_vec_len page.old + 109 }
{
    append_latencies(page, b", video latency", b", no video", latencies);
}

fn append_interlaced_latencies(page: &mut Page, latencies: Option<Latencies>)
    requires { array_vec_len page.old + 109 ≤ PAGE }
    ensures items { page.new.items ≡ page.old.items ++ flat_map own_line (interlaced_latencies latencies) }
    ensures len { array_vec_len page.new ≤ array_vec_len page.old + 109 }
{
    append_latencies(
        page,
        b", interlaced video latency",
        b", no interlaced video",
        latencies,
    );
}

#[tactic(auto, unfolding(crate::specs::Hdmi::block_meanings))]
fn append_of(page: &mut Page, codes: &[u8], block: HdmiBlock, bytes: &[u8])
    requires few { length bytes.now ≤ 128 }
    requires counted { ForSome block.video (λ v. (v.codes < 8) × (v.stereo < 32)) }
    requires room { array_vec_len page.old + 13200 ≤ PAGE }
    ensures { page.new.items ≡ page.old.items ++ flat_map own_line (block_meanings codes.now block bytes.now) }
{
    append_capabilities(page, block);
    append_plain_latencies(page, block.latencies);
    append_interlaced_latencies(page, block.interlaced_latencies);
    append_video_part(page, codes, block.video, bytes);
}

/// Appends what an HDMI block means, of the video codes of its EDID and the bytes after its physical address: capabilities;
/// latencies, video formats of HDMI's own codes and 3D where it indicates them; and what is left in hex (HDMI 1.4, section 8.3.2).
#[tactic(auto, unfolding(crate::specs::Hdmi::hdmi_meanings))]
pub fn append_hdmi(page: &mut Page, codes: &[u8], bytes: &[u8])
    requires few { length bytes.now ≤ 128 }
    requires room { array_vec_len page.old + 13200 ≤ PAGE }
    ensures { page.new.items ≡ page.old.items ++ flat_map own_line (hdmi_meanings codes.now bytes.now) }
{
    append_of(page, codes, HdmiBlock::of(bytes), video_bytes(bytes));
}
