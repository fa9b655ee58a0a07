//! An HDMI block in words.
ghost use Rattle.std.specs.Prelude.{◌≡◌, ◌+◌, ◌*◌, ◌<◌, ◌≤◌, ◌++◌, length, map, MatchResult, Some, Ok, Err};
ghost use Rattle.arrayvec.specs.ArrayVec.{array_vec_len};
ghost use Rattle.std.specs.Option.{option_copied};
ghost use Rattle.text_core.specs.Words.{words_after};
ghost use Rattle.edid_spelling.specs.Hdmi.{capabilities, clock_of, contents, delay_bytes, delay_of, delays_of, format_bytes, format_count, formats_of, has_video, hdmi_bytes, hdmi_of, hdmi_row_in_code, hdmi_rows, head_bytes, nothing, presence, said_from, time_byte, video_bytes, weight, with_delays, with_flag};

use crate::rows::next_word;
use arrayvec::ArrayVec;
use edid_base::append;
use text_core::{first_word, number_in};

/// What a word says that no value follows.
#[derive(Clone, Copy)]
pub enum Flag {
    /// Supports_AI
    Ai,
    /// DC_30bit
    Deep30,
    /// DC_36bit
    Deep36,
    /// DC_48bit
    Deep48,
    /// DC_Y444
    Deep444,
    /// DVI_Dual
    DualLink,
    /// CNC0
    Graphics,
    /// CNC1
    Photo,
    /// CNC2
    Cinema,
    /// CNC3
    Game,
    /// 3D_present
    Stereo,
    /// HDMI_VIC 1 to 4: 3840x2160 at 30, 25 and 24 Hz, 4096x2160 at 24 Hz.
    Format1,
    Format2,
    Format3,
    Format4,
}

/// Which video two latencies are of.
#[derive(Clone, Copy)]
pub enum Scan {
    /// Video_Latency and Audio_Latency: of interlaced video too, where it has none of its own.
    Progressive,
    /// Interlaced_Video_Latency and Interlaced_Audio_Latency.
    Interlaced,
}

/// What a word says, and the values after it.
#[derive(Clone, Copy)]
pub enum HdmiWord {
    Flag(Flag),
    /// Max_TMDS_Clock, in MHz.
    Clock,
    /// The latencies of video and of its sound, in ms.
    Latency(Scan),
}

/// A word of the table.
#[derive(Clone, Copy)]
pub struct HdmiRow {
    pub word: &'static str,
    pub says: HdmiWord,
}

/// The latencies of video and of its sound, as bytes.
#[derive(Clone, Copy)]
pub struct Delays {
    pub video: u8,
    pub audio: u8,
}

/// What the words of an HDMI block say.
#[derive(Clone, Copy)]
pub struct Said {
    pub supports_ai: bool,
    pub deep_30: bool,
    pub deep_36: bool,
    pub deep_48: bool,
    pub deep_444: bool,
    pub dual_link: bool,
    /// Max_TMDS_Clock, in units of 5 MHz; 0 where it is not told.
    pub max_clock: u8,
    pub graphics: bool,
    pub photo: bool,
    pub cinema: bool,
    pub game: bool,
    pub latencies: Option<Delays>,
    pub interlaced_latencies: Option<Delays>,
    pub stereo: bool,
    pub format_1: bool,
    pub format_2: bool,
    pub format_3: bool,
    pub format_4: bool,
}

/// The unit of the TMDS clock in MHz, and the greatest clock.
const CLOCK: u64 = 5;

const GREATEST_CLOCK: u64 = 1275;
/// The greatest latency in ms.
const GREATEST_DELAY: u64 = 500;

// Rows of the table: a word, and what it says.
macro_rules! hdmi_rows {
    ($($word:literal $says:expr;)*) => {
        &[$(HdmiRow {
            word: $word,
            says: $says,
        },)*]
    };
}

const WORDS: &[HdmiRow] = hdmi_rows! {
    "ai" HdmiWord::Flag(Flag::Ai);
    "30-bit" HdmiWord::Flag(Flag::Deep30);
    "36-bit" HdmiWord::Flag(Flag::Deep36);
    "48-bit" HdmiWord::Flag(Flag::Deep48);
    "y444" HdmiWord::Flag(Flag::Deep444);
    "dvi-dual" HdmiWord::Flag(Flag::DualLink);
    "tmds" HdmiWord::Clock;
    "graphics-content" HdmiWord::Flag(Flag::Graphics);
    "photo-content" HdmiWord::Flag(Flag::Photo);
    "cinema-content" HdmiWord::Flag(Flag::Cinema);
    "game-content" HdmiWord::Flag(Flag::Game);
    "latency" HdmiWord::Latency(Scan::Progressive);
    "interlaced-latency" HdmiWord::Latency(Scan::Interlaced);
    "3d-present" HdmiWord::Flag(Flag::Stereo);
    "vic-1" HdmiWord::Flag(Flag::Format1);
    "vic-2" HdmiWord::Flag(Flag::Format2);
    "vic-3" HdmiWord::Flag(Flag::Format3);
    "vic-4" HdmiWord::Flag(Flag::Format4);
};

/// What no words say.
const NOTHING: Said = Said {
    supports_ai: false,
    deep_30: false,
    deep_36: false,
    deep_48: false,
    deep_444: false,
    dual_link: false,
    max_clock: 0,
    graphics: false,
    photo: false,
    cinema: false,
    game: false,
    latencies: None,
    interlaced_latencies: None,
    stereo: false,
    format_1: false,
    format_2: false,
    format_3: false,
    format_4: false,
};

// What is said with a flag more.
fn with_flag(flag: Flag, said: Said) -> Said
    ensures { result ≡ with_flag flag said }
{
    match flag {
        Flag::Ai => Said {
            supports_ai: true,
            ..said
        },
        Flag::Deep30 => Said {
            deep_30: true,
            ..said
        },
        Flag::Deep36 => Said {
            deep_36: true,
            ..said
        },
        Flag::Deep48 => Said {
            deep_48: true,
            ..said
        },
        Flag::Deep444 => Said {
            deep_444: true,
            ..said
        },
        Flag::DualLink => Said {
            dual_link: true,
            ..said
        },
        Flag::Graphics => Said {
            graphics: true,
            ..said
        },
        Flag::Photo => Said {
            photo: true,
            ..said
        },
        Flag::Cinema => Said {
            cinema: true,
            ..said
        },
        Flag::Game => Said { game: true, ..said },
        Flag::Stereo => Said {
            stereo: true,
            ..said
        },
        Flag::Format1 => Said {
            format_1: true,
            ..said
        },
        Flag::Format2 => Said {
            format_2: true,
            ..said
        },
        Flag::Format3 => Said {
            format_3: true,
            ..said
        },
        Flag::Format4 => Said {
            format_4: true,
            ..said
        },
    }
}

fn with_clock(clock: u8, said: Said) -> Said
    ensures { result ≡ record said { max_clock = clock } }
{
    Said {
        max_clock: clock,
        ..said
    }
}

fn with_delays(scan: Scan, delays: Delays, said: Said) -> Said
    ensures { result ≡ with_delays scan delays said }
{
    match scan {
        Scan::Progressive => Said {
            latencies: Some(delays),
            ..said
        },
        Scan::Interlaced => Said {
            interlaced_latencies: Some(delays),
            ..said
        },
    }
}

// The byte of a clock in MHz.
fn clock_of(clock: Option<u64>) -> Option<u8>
    ensures { result ≡ clock_of clock }
{
    match clock {
        Some(clock) if clock % CLOCK == 0 && 1 <= clock && clock <= GREATEST_CLOCK => {
            Some((clock / CLOCK) as u8)
        }
        _ => None,
    }
}

// The byte of a latency in ms.
fn time_byte(time: Option<u64>) -> Option<u8>
    ensures { result ≡ time_byte time }
{
    match time {
        Some(time) if time % 2 == 0 && time <= GREATEST_DELAY => Some((time / 2) as u8 + 1),
        _ => None,
    }
}

// The byte of a latency, which may be unknown, or that of no video or no sound.
fn delay_of(word: &[u8]) -> Option<u8>
    ensures { result ≡ delay_of word.now }
{
    if word == b"unknown".as_slice() {
        Some(0)
    } else if word == b"none".as_slice() {
        Some(255)
    } else {
        time_byte(number_in(word))
    }
}

// The latencies of two words, or which of them is at fault.
fn delays_of(video: &[u8], audio: &[u8]) -> Result<Delays, usize>
    ensures value { result ≡ delays_of video.now audio.now }
    ensures few { MatchResult result (λ d. Unit {0}) (λ word. word < 2) }
{
    let Some(video) = delay_of(video) else {
        return Err(0);
    };
    let Some(audio) = delay_of(audio) else {
        return Err(1);
    };
    Ok(Delays { video, audio })
}

// What is said and what the words that are left say, or the number of the word at fault.
fn said_from(
    rows: &[HdmiRow],
    said: Said,
    number: usize,
    rest: Option<&[u8]>,
) -> Result<Said, usize>
    requires { number + 3 * length rows.now < 1000 }
    ensures { result ≡ said_from (map hdmi_row_in_code rows.now) said number (words_after (option_copied rest.entry)) }
{
    match rest {
        None => Ok(said),
        Some(text) => {
            let (word, more) = first_word(text);
            match rows {
                [] => Err(number),
                [row, others @ ..] => {
                    if word != row.word.as_bytes() {
                        return said_from(others, said, number, rest);
                    }
                    match row.says {
                        HdmiWord::Flag(flag) => {
                            said_from(others, with_flag(flag, said), number + 1, more)
                        }
                        HdmiWord::Clock => {
                            let (clock, more) = next_word(more);
                            let Some(clock) = clock_of(number_in(clock)) else {
                                return Err(number + 1);
                            };
                            said_from(others, with_clock(clock, said), number + 2, more)
                        }
                        HdmiWord::Latency(scan) => {
                            let (video, more) = next_word(more);
                            let (audio, more) = next_word(more);
                            match delays_of(video, audio) {
                                Err(word) => Err(number + 1 + word),
                                Ok(delays) => {
                                    said_from(
                                        others,
                                        with_delays(scan, delays, said),
                                        number + 3,
                                        more,
                                    )
                                }
                            }
                        }
                    }
                }
            }
        }
    }
}

// What the words after the physical address say, or the number of the word at fault.
#[tactic(auto, unfolding(crate::specs::Hdmi::hdmi_rows))]
fn said_in(rest: Option<&[u8]>) -> Result<Said, usize>
    ensures { result ≡ said_from hdmi_rows nothing 2 (words_after (option_copied rest.entry)) }
{
    said_from(WORDS, NOTHING, 2, rest)
}

fn weight(is_set: bool, amount: u8) -> u8
    ensures value { result ≡ weight is_set amount }
    ensures small { result ≤ amount }
{
    if is_set { amount } else { 0 }
}

// Byte 6 of the block.
fn capabilities(said: Said) -> u8
    ensures { result ≡ capabilities said }
{
    weight(said.supports_ai, 128)
        + weight(said.deep_48, 64)
        + weight(said.deep_36, 32)
        + weight(said.deep_30, 16)
        + weight(said.deep_444, 8)
        + weight(said.dual_link, 1)
}

fn has_video(said: Said) -> bool
    ensures { result ≡ has_video said }
{
    said.stereo || said.format_1 || said.format_2 || said.format_3 || said.format_4
}

fn contents(said: Said) -> u8
    ensures value { result ≡ contents said }
    ensures small { result ≤ 15 }
{
    weight(said.game, 8) + weight(said.cinema, 4) + weight(said.photo, 2) + weight(said.graphics, 1)
}

// Byte 8 of the block.
fn presence(said: Said) -> u8
    ensures { result ≡ presence said }
{
    weight(said.latencies.is_some(), 128)
        + weight(said.interlaced_latencies.is_some(), 64)
        + weight(has_video(said), 32)
        + contents(said)
}

fn format_count(said: Said) -> u8
    ensures value { result ≡ format_count said }
    ensures small { result ≤ 4 }
{
    weight(said.format_1, 1)
        + weight(said.format_2, 1)
        + weight(said.format_3, 1)
        + weight(said.format_4, 1)
}

// Bytes 6 to 8, without those at the end that are 0.
fn push_head(bytes: &mut ArrayVec<u8, 26>, first: u8, clock: u8, presence: u8)
    requires { array_vec_len bytes.old ≤ 10 }
    ensures items { bytes.new.items ≡ bytes.old.items ++ head_bytes first clock presence }
    ensures len { array_vec_len bytes.new ≤ array_vec_len bytes.old + 3 }
{
    if presence == 0 {
        if clock == 0 {
            append(bytes, &[first]);
        } else {
            append(bytes, &[first, clock]);
        }
    } else {
        append(bytes, &[first, clock, presence]);
    }
}

fn push_delays(bytes: &mut ArrayVec<u8, 26>, delays: Option<Delays>)
    requires { array_vec_len bytes.old ≤ 10 }
    ensures items { bytes.new.items ≡ bytes.old.items ++ delay_bytes delays }
    ensures len { array_vec_len bytes.new ≤ array_vec_len bytes.old + 2 }
{
    if let Some(delays) = delays {
        append(bytes, &[delays.video, delays.audio]);
    }
}

fn push_format(bytes: &mut ArrayVec<u8, 26>, is_set: bool, format: u8)
    requires { array_vec_len bytes.old ≤ 20 }
    ensures items { bytes.new.items ≡ bytes.old.items ++ format_bytes is_set format }
    ensures len { array_vec_len bytes.new ≤ array_vec_len bytes.old + 1 }
{
    if is_set {
        bytes.push(format);
    }
}

fn push_formats(bytes: &mut ArrayVec<u8, 26>, said: Said)
    requires { array_vec_len bytes.old ≤ 15 }
    ensures { bytes.new.items ≡ bytes.old.items ++ formats_of said }
{
    push_format(bytes, said.format_1, 1);
    push_format(bytes, said.format_2, 2);
    push_format(bytes, said.format_3, 3);
    push_format(bytes, said.format_4, 4);
}

fn push_video(bytes: &mut ArrayVec<u8, 26>, said: Said)
    requires { array_vec_len bytes.old ≤ 10 }
    ensures { bytes.new.items ≡ bytes.old.items ++ video_bytes said }
{
    if has_video(said) {
        append(bytes, &[weight(said.stereo, 128), 32 * format_count(said)]);
        push_formats(bytes, said);
    }
}

// The bytes after the physical address.
fn hdmi_bytes(said: Said) -> ArrayVec<u8, 26>
    ensures { result.items ≡ hdmi_bytes said }
{
    let mut bytes = ArrayVec::new();
    push_head(
        &mut bytes,
        capabilities(said),
        said.max_clock,
        presence(said),
    );
    push_delays(&mut bytes, said.latencies);
    push_delays(&mut bytes, said.interlaced_latencies);
    push_video(&mut bytes, said);
    bytes
}

// The bytes that the words after the physical address stand for, or the number of the word at fault.
pub(crate) fn hdmi_in(rest: Option<&[u8]>) -> Result<ArrayVec<u8, 26>, usize>
    ensures { MatchResult result (λ p. hdmi_of (words_after (option_copied rest.entry)) ≡ Ok p.items) (λ k. hdmi_of (words_after (option_copied rest.entry)) ≡ Err k) }
{
    match said_in(rest) {
        Ok(said) => Ok(hdmi_bytes(said)),
        Err(number) => Err(number),
    }
}
