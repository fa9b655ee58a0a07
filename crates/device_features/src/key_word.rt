//! The words of keys.
ghost use Rattle.std.specs.Prelude.{◌≡◌};
ghost use Rattle.device_features.specs.KeyWords.{key_named, key_text};

/// The word that a key is, or begins with, in a script.
#[derive(Clone, Copy, Debug, PartialEq, Eq)]
pub enum KeyWord {
    Play,
    Stop,
    Eject,
    Load,
    Menu,
    Power,
    VolumeUp,
    VolumeDown,
    Mute,
    Port,
    Watch,
    Language,
    Audio,
    Arc,
    Remote,
}

impl KeyWord {
    /// Each word once.
    pub const ALL: &'static [KeyWord] = &[
        KeyWord::Play,
        KeyWord::Stop,
        KeyWord::Eject,
        KeyWord::Load,
        KeyWord::Menu,
        KeyWord::Power,
        KeyWord::VolumeUp,
        KeyWord::VolumeDown,
        KeyWord::Mute,
        KeyWord::Port,
        KeyWord::Watch,
        KeyWord::Language,
        KeyWord::Audio,
        KeyWord::Arc,
        KeyWord::Remote,
    ];

    /// The word as it stands in a text.
    pub fn text(self) -> &'static str
        ensures { result.now ≡ key_text self }
    {
        match self {
            KeyWord::Play => "play",
            KeyWord::Stop => "stop",
            KeyWord::Eject => "eject",
            KeyWord::Load => "load",
            KeyWord::Menu => "menu",
            KeyWord::Power => "power",
            KeyWord::VolumeUp => "volume-up",
            KeyWord::VolumeDown => "volume-down",
            KeyWord::Mute => "mute",
            KeyWord::Port => "port",
            KeyWord::Watch => "watch",
            KeyWord::Language => "language",
            KeyWord::Audio => "audio",
            KeyWord::Arc => "arc",
            KeyWord::Remote => "remote",
        }
    }

    /// The word that a text is.
    pub fn named(text: &[u8]) -> Option<KeyWord>
        ensures { result ≡ key_named text.now }
    {
        KeyWord::ALL
            .iter()
            .copied()
            .find(|word| word.text().as_bytes() == text)
    }
}
