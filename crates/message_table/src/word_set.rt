//! The sets of words that stand for an operand byte: each word once, with its byte and its name in the code.
ghost use Rattle.std.specs.Prelude.{◌≡◌, ◌≢◌, ◌≤◌, ◌<◌, ℕ, option_copied, length, map, IfSome, IfNone};
ghost use Rattle.message_table.specs.Naming.{byte_of};
ghost use Rattle.message_table.specs.WordSets.{word_in_code, word_of, words_of};

/// A byte, and the word that stands for it.
#[derive(Clone, Copy)]
pub struct NamedByte {
    pub byte: u8,
    pub text: &'static str,
}

/// A set of words, each of which stands for one byte.
#[derive(Clone, Copy, Debug, Drop, PartialEq, Eq)]
pub enum WordSet {
    Reason,
    Power,
    OnOff,
    DeviceType,
    StatusRequest,
    DeckInfo,
    PlayMode,
    DeckControl,
    Display,
    MenuRequest,
    MenuState,
    Version,
    UserControl,
}

macro_rules! words {
    (Reason $make:ident $($at:tt)*) => {
        $make! {
            ($($at)*)
            0 Unrecognized "unrecognized";
            1 WrongMode "wrong-mode";
            2 NoSource "no-source";
            3 InvalidOperand "invalid-operand";
            4 Refused "refused";
        }
    };
    (Power $make:ident $($at:tt)*) => {
        $make! {
            ($($at)*)
            0 On "on";
            1 Standby "standby";
        }
    };
    (SystemAudio $make:ident $($at:tt)*) => {
        $make! {
            ($($at)*)
            0 Off "off";
            1 On "on";
        }
    };
    (DeviceType $make:ident $($at:tt)*) => {
        $make! {
            ($($at)*)
            0 Tv "tv";
            1 Recorder "recorder";
            3 Tuner "tuner";
            4 Playback "playback";
            5 Audio "audio";
            6 Switch "switch";
        }
    };
    (StatusRequest $make:ident $($at:tt)*) => {
        $make! {
            ($($at)*)
            1 On "on";
            2 Off "off";
            3 Once "once";
        }
    };
    (DeckInfo $make:ident $($at:tt)*) => {
        $make! {
            ($($at)*)
            0x11 Play "play";
            0x14 Still "still";
            0x17 FastForward "fast-forward";
            0x18 FastReverse "fast-reverse";
            0x19 NoMedia "no-media";
            0x1a Stop "stop";
            0x1b SkipForward "skip-forward";
            0x1c SkipReverse "skip-reverse";
        }
    };
    (PlayMode $make:ident $($at:tt)*) => {
        $make! {
            ($($at)*)
            0x24 Forward "forward";
            0x25 Still "still";
            0x05 FastForwardMin "ff-min";
            0x06 FastForwardMid "ff-mid";
            0x07 FastForwardMax "ff-max";
            0x09 FastReverseMin "fr-min";
            0x0a FastReverseMid "fr-mid";
            0x0b FastReverseMax "fr-max";
        }
    };
    (DeckControlMode $make:ident $($at:tt)*) => {
        $make! {
            ($($at)*)
            1 SkipForward "skip-forward";
            2 SkipReverse "skip-reverse";
            3 Stop "stop";
            4 Eject "eject";
        }
    };
    (Display $make:ident $($at:tt)*) => {
        $make! {
            ($($at)*)
            0x00 Default "default";
            0x40 Hold "hold";
            0x80 Clear "clear";
        }
    };
    (MenuRequestType $make:ident $($at:tt)*) => {
        $make! {
            ($($at)*)
            0 Activate "activate";
            1 Deactivate "deactivate";
            2 Query "query";
        }
    };
    (MenuState $make:ident $($at:tt)*) => {
        $make! {
            ($($at)*)
            0 Activated "activated";
            1 Deactivated "deactivated";
        }
    };
    (Version $make:ident $($at:tt)*) => {
        $make! {
            ($($at)*)
            0x05 OnePointFour "1.4";
        }
    };
    (UserControl $make:ident $($at:tt)*) => {
        $make! {
            ($($at)*)
            0x00 Select "select";
            0x01 Up "up";
            0x02 Down "down";
            0x03 Left "left";
            0x04 Right "right";
            0x09 RootMenu "root-menu";
            0x0d Exit "exit";
            0x20 Digit0 "digit-0";
            0x21 Digit1 "digit-1";
            0x22 Digit2 "digit-2";
            0x23 Digit3 "digit-3";
            0x24 Digit4 "digit-4";
            0x25 Digit5 "digit-5";
            0x26 Digit6 "digit-6";
            0x27 Digit7 "digit-7";
            0x28 Digit8 "digit-8";
            0x29 Digit9 "digit-9";
            0x40 Power "power";
            0x41 VolumeUp "volume-up";
            0x42 VolumeDown "volume-down";
            0x43 Mute "mute";
            0x44 Play "play";
            0x45 Stop "stop";
            0x46 Pause "pause";
            0x6c PowerOff "power-off";
            0x6d PowerOn "power-on";
        }
    };
}

macro_rules! from_code {
    (($byte:expr, $set:ident, $other:ident) $($code:literal $variant:ident $word:literal;)*) => {
        match $byte {
            $($code => $set::$variant,)*
            byte => $set::Other($other { byte }),
        }
    };
}

macro_rules! to_code {
    (($value:expr, $set:ident) $($code:literal $variant:ident $word:literal;)*) => {
        match $value {
            $($set::$variant => $code,)*
            $set::Other(other) => other.byte,
        }
    };
}

macro_rules! table {
    (() $($code:literal $variant:ident $word:literal;)*) => {
        &[$(NamedByte { byte: $code, text: $word },)*]
    };
}

const REASONS: &[NamedByte] = words!(Reason table);

const POWERS: &[NamedByte] = words!(Power table);

const ON_OFF: &[NamedByte] = words!(SystemAudio table);

const DEVICE_TYPES: &[NamedByte] = words!(DeviceType table);

const STATUS_REQUESTS: &[NamedByte] = words!(StatusRequest table);

const DECK_STATES: &[NamedByte] = words!(DeckInfo table);

const PLAY_MODES: &[NamedByte] = words!(PlayMode table);

const DECK_CONTROLS: &[NamedByte] = words!(DeckControlMode table);

const DISPLAYS: &[NamedByte] = words!(Display table);

const MENU_REQUESTS: &[NamedByte] = words!(MenuRequestType table);

const MENU_STATES: &[NamedByte] = words!(MenuState table);

const VERSIONS: &[NamedByte] = words!(Version table);

const USER_CONTROLS: &[NamedByte] = words!(UserControl table);

pub(crate) use from_code;
pub(crate) use to_code;
pub(crate) use words;

/// The text of the first of these words that stands for a byte.
pub(crate) fn text_in(words: &[NamedByte], byte: u8) -> Option<&'static str>
    ensures { option_copied result ≡ word_of (map word_in_code words.now) byte }
{
    let mut rest = words;
    while let [word, others @ ..] = rest {
        if word.byte == byte {
            return Some(word.text);
        }
        rest = others;
    }
    None
}

/// The byte of the first of these words that has this text.
pub(crate) fn byte_in(words: &[NamedByte], text: &[u8]) -> Option<u8>
    ensures { result ≡ byte_of (map word_in_code words.now) text.now }
{
    let mut rest = words;
    while let [word, others @ ..] = rest {
        if word.text.as_bytes() == text {
            return Some(word.byte);
        }
        rest = others;
    }
    None
}

impl WordSet {
    /// Its words.
    pub fn words(self) -> &'static [NamedByte]
        ensures { map word_in_code result.now ≡ words_of self }
    {
        match self {
            WordSet::Reason => REASONS,
            WordSet::Power => POWERS,
            WordSet::OnOff => ON_OFF,
            WordSet::DeviceType => DEVICE_TYPES,
            WordSet::StatusRequest => STATUS_REQUESTS,
            WordSet::DeckInfo => DECK_STATES,
            WordSet::PlayMode => PLAY_MODES,
            WordSet::DeckControl => DECK_CONTROLS,
            WordSet::Display => DISPLAYS,
            WordSet::MenuRequest => MENU_REQUESTS,
            WordSet::MenuState => MENU_STATES,
            WordSet::Version => VERSIONS,
            WordSet::UserControl => USER_CONTROLS,
        }
    }

    /// The word that stands for a byte, if one does.
    pub fn word(self, byte: u8) -> Option<&'static str>
        ensures value { option_copied result ≡ word_of (words_of self) byte }
        ensures short { IfSome result (λ word. length word.now ≤ 15) }
    {
        text_in(self.words(), byte)
    }

    /// The byte that a word stands for, if it stands for one.
    pub fn byte(self, text: &[u8]) -> Option<u8>
        ensures found { IfSome result (λ byte. word_of (words_of self) byte ≡ Some text.now) }
        ensures none { IfNone result ((byte : ℕ) → byte < 256 → word_of (words_of self) byte ≢ Some text.now) }
    {
        byte_in(self.words(), text)
    }
}
