//! What the data blocks of a display say of its sound.
ghost use Rattle.std.specs.Prelude.{◌≡◌, ◌≤◌, ◌%◌, ◌++◌, ◌||◌, [], false, length, take, flat_map};
ghost use Rattle.std.specs.List.{list_any};
ghost use Rattle.edid_cta.specs.Hdmi.{blocks_of, is_hdmi};
ghost use Rattle.edid_eld.specs.Display.{audio_in, delay_of, delays_in, has_ai, has_latency, is_speakers, last_of, latency, speakers_in, takes_ai};

use arrayvec::ArrayVec;
use edid_base::append;
use edid_cta::{BlockKind, DataBlock, Ext};

/// A latency of 500 ms, in units of 2 ms.
const GREATEST: u8 = 250;
/// The latency of a display that has no video, or no audio.
const ABSENT: u8 = 255;
/// The bytes of fifteen short audio descriptors.
const AUDIO: usize = 45;

/// What was said so far.
#[derive(Drop)]
pub(crate) struct Sound {
    pub ai: bool,
    pub delay: u8,
    pub speakers: u8,
    pub audio: ArrayVec<u8, 45>,
    ghost fits: { length audio.items ≤ 45 },
    ghost whole: { length audio.items % 3 ≡ 0 },
}

fn latency(code: u8) -> u8
    ensures value { result ≡ latency code }
    ensures small { result ≤ 250 }
{
    code.saturating_sub(1).min(GREATEST)
}

/// By how much the video is later than the audio, in units of 2 ms.
fn delay_of(video: u8, audio: u8) -> u8
    ensures { result ≡ delay_of video audio }
{
    if video == ABSENT || audio == ABSENT {
        return 0;
    }
    latency(video).saturating_sub(latency(audio))
}

fn takes_ai(block: &DataBlock) -> bool
    ensures { result ≡ takes_ai block.now }
{
    let payload = block.payload.as_slice();
    block.is_hdmi() && 6 <= payload.len() && 128 <= payload[5]
}

fn delay_or(block: &DataBlock, other: u8) -> u8
    ensures { result ≡ last_of other (delays_in block.now) }
{
    let payload = block.payload.as_slice();
    if block.is_hdmi() && 10 <= payload.len() && 128 <= payload[7] {
        delay_of(payload[8], payload[9])
    } else {
        other
    }
}

fn speakers_or(block: &DataBlock, other: u8) -> u8
    ensures { result ≡ last_of other (speakers_in block.now) }
{
    match (block.kind, block.payload.as_slice()) {
        (BlockKind::Speakers, [speakers, ..]) => *speakers,
        _ => other,
    }
}

/// The short audio descriptors of a block.
fn audio_in(block: &DataBlock) -> &[u8]
    ensures value { result.now ≡ audio_in block.now }
    ensures whole { length result.now % 3 ≡ 0 }
{
    if !block.is_audio() {
        return &[];
    }
    let payload = block.payload.as_slice();
    &payload[..payload.len() / 3 * 3]
}

/// Appends descriptors, as far as there is room.
fn append_audio(audio: &mut ArrayVec<u8, 45>, bytes: &[u8])
    requires { length audio.old.items ≤ 45 }
    ensures items { audio.new.items ≡ take 45 (audio.old.items ++ bytes.now) }
    ensures fits { length audio.new.items ≤ 45 }
{
    let room = AUDIO - audio.len();
    append(audio, &bytes[..room.min(bytes.len())]);
}

/// The data blocks of an extension.
fn blocks_of(ext: &Ext) -> &[DataBlock]
    ensures { result.now ≡ blocks_of ext.now }
{
    match ext {
        Ext::Cta(cta) => cta.blocks.as_slice(),
        Ext::Bare(_) | Ext::Raw(_) => &[],
    }
}

impl Sound {
    pub(crate) fn new() -> Sound
        ensures ai { result.ai ≡ false }
        ensures delay { result.delay ≡ 0 }
        ensures speakers { result.speakers ≡ 0 }
        ensures audio { result.audio.items ≡ [] }
    {
        Sound {
            ai: false,
            delay: 0,
            speakers: 0,
            audio: ArrayVec::new(),
        }
    }

    fn hear(&mut self, block: &DataBlock)
        ensures ai { self.new.ai ≡ (self.old.ai || takes_ai block.now) }
        ensures delay { self.new.delay ≡ last_of self.old.delay (delays_in block.now) }
        ensures speakers { self.new.speakers ≡ last_of self.old.speakers (speakers_in block.now) }
        ensures audio { self.new.audio.items ≡ take 45 (self.old.audio.items ++ audio_in block.now) }
    {
        self.ai = self.ai || takes_ai(block);
        self.delay = delay_or(block, self.delay);
        self.speakers = speakers_or(block, self.speakers);
        append_audio(&mut self.audio, audio_in(block));
    }

    fn hear_blocks(&mut self, blocks: &[DataBlock])
        ensures ai { self.new.ai ≡ (self.old.ai || list_any takes_ai blocks.now) }
        ensures delay { self.new.delay ≡ last_of self.old.delay (flat_map delays_in blocks.now) }
        ensures speakers { self.new.speakers ≡ last_of self.old.speakers (flat_map speakers_in blocks.now) }
        ensures audio { self.new.audio.items ≡ take 45 (self.old.audio.items ++ flat_map audio_in blocks.now) }
    {
        if let [block, others @ ..] = blocks {
            self.hear(block);
            self.hear_blocks(others);
        }
    }

    fn hear_ext(&mut self, ext: &Ext)
        ensures ai { self.new.ai ≡ (self.old.ai || list_any takes_ai (blocks_of ext.now)) }
        ensures delay { self.new.delay ≡ last_of self.old.delay (flat_map delays_in (blocks_of ext.now)) }
        ensures speakers { self.new.speakers ≡ last_of self.old.speakers (flat_map speakers_in (blocks_of ext.now)) }
        ensures audio { self.new.audio.items ≡ take 45 (self.old.audio.items ++ flat_map audio_in (blocks_of ext.now)) }
    {
        self.hear_blocks(blocks_of(ext));
    }

    /// Hears the data blocks of extensions.
    pub(crate) fn hear_all(&mut self, extensions: &[Ext])
        ensures ai { self.new.ai ≡ (self.old.ai || list_any takes_ai (flat_map blocks_of extensions.now)) }
        ensures delay { self.new.delay ≡ last_of self.old.delay (flat_map delays_in (flat_map blocks_of extensions.now)) }
        ensures speakers { self.new.speakers ≡ last_of self.old.speakers (flat_map speakers_in (flat_map blocks_of extensions.now)) }
        ensures audio { self.new.audio.items ≡ take 45 (self.old.audio.items ++ flat_map audio_in (flat_map blocks_of extensions.now)) }
    {
        if let [ext, others @ ..] = extensions {
            self.hear_ext(ext);
            self.hear_all(others);
        }
    }
}
