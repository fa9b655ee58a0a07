//! Words of the standard that the texts of frames leave as bytes.
ghost use Rattle.std.specs.Prelude.{◌≡◌, map, option_copied};
ghost use Rattle.message_table.specs.WordSets.{word_in_code, word_of};
ghost use Rattle.message_hex.specs.Remark.{more_names, more_words, operand_remark, place_of, remark};

use line_frames::Frame;
use message_table::NamedByte;

macro_rules! words {
    ($($byte:literal $text:literal;)*) => {
        &[$(NamedByte { byte: $byte, text: $text },)*]
    };
}

/// Opcodes of CEC 2.0 and of CDC (HDMI 2.0, CEC 11; HDMI 1.4, HEC).
const NAMES: &[NamedByte] = words! {
    0xa5 "give-features";
    0xa6 "report-features";
    0xa7 "request-current-latency";
    0xa8 "report-current-latency";
    0xf8 "cdc-message";
};

/// Feature Abort, its second operand: [Abort Reason].
const ABORT_REASONS: &[NamedByte] = words! {
    0x05 "undetermined";
};

/// Report Physical Address, its third operand: [Device Type].
const DEVICE_TYPES: &[NamedByte] = words! {
    0x07 "video-processor";
};

/// Report Power Status: [Power Status].
const POWERS: &[NamedByte] = words! {
    0x02 "standby-to-on";
    0x03 "on-to-standby";
};

/// CEC Version: [CEC Version].
const VERSIONS: &[NamedByte] = words! {
    0x04 "1.3a";
    0x06 "2.0";
};

/// Deck Status: [Deck Info].
const DECK_STATES: &[NamedByte] = words! {
    0x12 "record";
    0x13 "play-reverse";
    0x15 "slow";
    0x16 "slow-reverse";
    0x1d "index-search-forward";
    0x1e "index-search-reverse";
    0x1f "other";
};

/// Play: [Play Mode].
const PLAY_MODES: &[NamedByte] = words! {
    0x20 "reverse";
    0x15 "slow-forward-min";
    0x16 "slow-forward-mid";
    0x17 "slow-forward-max";
    0x19 "slow-reverse-min";
    0x1a "slow-reverse-mid";
    0x1b "slow-reverse-max";
};

/// Give Tuner Device Status: [Status Request].
const TUNER_REQUESTS: &[NamedByte] = words! {
    0x01 "on";
    0x02 "off";
    0x03 "once";
};

/// Record On: [Record Source Type].
const RECORD_SOURCES: &[NamedByte] = words! {
    0x01 "own-source";
    0x02 "digital-service";
    0x03 "analogue-service";
    0x04 "external-plug";
    0x05 "external-physical-address";
};

/// Record Status: [Record Status Info].
const RECORD_STATES: &[NamedByte] = words! {
    0x01 "recording-current-source";
    0x02 "recording-digital-service";
    0x03 "recording-analogue-service";
    0x04 "recording-external-input";
    0x05 "no-digital-service";
    0x06 "no-analogue-service";
    0x07 "no-such-service";
    0x09 "invalid-external-plug";
    0x0a "invalid-external-address";
    0x0b "ca-system-not-supported";
    0x0c "no-ca-entitlements";
    0x0d "copy-not-allowed";
    0x0e "no-further-copies";
    0x10 "no-media";
    0x11 "playing";
    0x12 "already-recording";
    0x13 "media-protected";
    0x14 "no-source-signal";
    0x15 "media-problem";
    0x16 "no-space";
    0x17 "parental-lock";
    0x1a "terminated-normally";
    0x1b "already-terminated";
    0x1f "no-recording";
};

/// Timer Cleared Status: [Timer Cleared Status Data].
const TIMER_CLEARED: &[NamedByte] = words! {
    0x00 "not-cleared-recording";
    0x01 "not-cleared-no-match";
    0x02 "not-cleared-no-information";
    0x80 "cleared";
};

/// Set Audio Rate: [Audio Rate].
const AUDIO_RATES: &[NamedByte] = words! {
    0x00 "rate-control-off";
    0x01 "wide-standard";
    0x02 "wide-fast";
    0x03 "wide-slow";
    0x04 "narrow-standard";
    0x05 "narrow-fast";
    0x06 "narrow-slow";
};

/// User Control Pressed: [UI Command].
const USER_CONTROLS: &[NamedByte] = words! {
    0x05 "right-up";
    0x06 "right-down";
    0x07 "left-up";
    0x08 "left-down";
    0x0a "setup-menu";
    0x0b "contents-menu";
    0x0c "favorite-menu";
    0x10 "media-top-menu";
    0x11 "media-context-sensitive-menu";
    0x1d "number-entry-mode";
    0x1e "number-11";
    0x1f "number-12";
    0x2a "dot";
    0x2b "enter";
    0x2c "clear";
    0x2f "next-favorite";
    0x30 "channel-up";
    0x31 "channel-down";
    0x32 "previous-channel";
    0x33 "sound-select";
    0x34 "input-select";
    0x35 "display-information";
    0x36 "help";
    0x37 "page-up";
    0x38 "page-down";
    0x47 "record";
    0x48 "rewind";
    0x49 "fast-forward";
    0x4a "eject";
    0x4b "skip-forward";
    0x4c "skip-backward";
    0x4d "stop-record";
    0x4e "pause-record";
    0x50 "angle";
    0x51 "sub-picture";
    0x52 "video-on-demand";
    0x53 "electronic-program-guide";
    0x54 "timer-programming";
    0x55 "initial-configuration";
    0x56 "select-broadcast-type";
    0x57 "select-sound-presentation";
    0x58 "audio-description";
    0x59 "internet";
    0x5a "3d-mode";
    0x60 "play-function";
    0x61 "pause-play-function";
    0x62 "record-function";
    0x63 "pause-record-function";
    0x64 "stop-function";
    0x65 "mute-function";
    0x66 "restore-volume-function";
    0x67 "tune-function";
    0x68 "select-media-function";
    0x69 "select-av-input-function";
    0x6a "select-audio-input-function";
    0x6b "power-toggle-function";
    0x71 "f1-blue";
    0x72 "f2-red";
    0x73 "f3-green";
    0x74 "f4-yellow";
    0x75 "f5";
    0x76 "data";
};

/// The text of the first of these words that stands for a byte.
fn text_in(words: &[NamedByte], byte: u8) -> Option<&'static str>
    ensures { option_copied result ≡ word_of (map word_in_code words.now) byte }
{
    let mut rest = words;
    'words: while let [word, others @ ..] = rest {
        if word.byte == byte {
            return Some(word.text);
        }
        rest = others;
    }
    None
}

// Which operand byte of an opcode has words here, counted from 0.
fn place_of(opcode: u8) -> usize
    ensures { result ≡ place_of opcode }
{
    match opcode {
        0x00 => 1,
        0x84 => 2,
        _ => 0,
    }
}

// The words of that byte.
fn more_words(opcode: u8) -> &'static [NamedByte]
    ensures { map word_in_code result.now ≡ more_words opcode }
{
    match opcode {
        0x00 => ABORT_REASONS,
        0x08 => TUNER_REQUESTS,
        0x09 => RECORD_SOURCES,
        0x0a => RECORD_STATES,
        0x1b => DECK_STATES,
        0x41 => PLAY_MODES,
        0x43 => TIMER_CLEARED,
        0x44 => USER_CONTROLS,
        0x84 => DEVICE_TYPES,
        0x90 => POWERS,
        0x9a => AUDIO_RATES,
        0x9e => VERSIONS,
        _ => &[],
    }
}

fn more_name(opcode: u8) -> Option<&'static str>
    ensures { option_copied result ≡ word_of more_names opcode }
{
    text_in(NAMES, opcode)
}

fn operand_remark(opcode: u8, operands: &[u8]) -> Option<&'static str>
    ensures { option_copied result ≡ operand_remark opcode operands.now }
{
    match operands.get(place_of(opcode)) {
        None => None,
        Some(byte) => text_in(more_words(opcode), *byte),
    }
}

/// What the standard calls an opcode, or an operand of it, that the text of a frame leaves as bytes, if it has a word.
pub fn remark(frame: &Frame) -> Option<&'static str>
    ensures { option_copied result ≡ remark frame.now }
{
    match frame.bytes() {
        [_, opcode, operands @ ..] => match more_name(*opcode) {
            Some(name) => Some(name),
            None => operand_remark(*opcode, operands),
        },
        _ => None,
    }
}
