//! The lines of scripts.
use device_features::KeyWord;
use text_forms::Slot;

/// A line of a script.
#[derive(Clone, Copy, Debug, PartialEq, Eq)]
pub enum ScriptVerb {
    /// A key that begins with this word goes down.
    Press(KeyWord),
    /// It comes up again.
    Release(KeyWord),
    Plug,
    Unplug,
    Send,
    Hold,
    Drop,
    Pulse,
    Pull,
    Pin,
    End,
}

/// Each form, with what stands at its places: a row for each key. Where one of several may stand, `|` parts them. Where a word
/// has a cause that the caller tells, which comes before that of the time, the time is `LateTime`.
pub const SCRIPT: &[(ScriptVerb, &[(Slot, &str)])] = &[
    (
        ScriptVerb::Press(KeyWord::Play),
        &[
            (Slot::Word, "at"),
            (Slot::Time, "T"),
            (Slot::Word, "press"),
            (Slot::Text, "NAME"),
            (Slot::Key, "play"),
        ],
    ),
    (
        ScriptVerb::Press(KeyWord::Stop),
        &[
            (Slot::Word, "at"),
            (Slot::Time, "T"),
            (Slot::Word, "press"),
            (Slot::Text, "NAME"),
            (Slot::Key, "stop"),
        ],
    ),
    (
        ScriptVerb::Press(KeyWord::Eject),
        &[
            (Slot::Word, "at"),
            (Slot::Time, "T"),
            (Slot::Word, "press"),
            (Slot::Text, "NAME"),
            (Slot::Key, "eject"),
        ],
    ),
    (
        ScriptVerb::Press(KeyWord::Load),
        &[
            (Slot::Word, "at"),
            (Slot::Time, "T"),
            (Slot::Word, "press"),
            (Slot::Text, "NAME"),
            (Slot::Key, "load"),
        ],
    ),
    (
        ScriptVerb::Press(KeyWord::Menu),
        &[
            (Slot::Word, "at"),
            (Slot::Time, "T"),
            (Slot::Word, "press"),
            (Slot::Text, "NAME"),
            (Slot::Key, "menu"),
        ],
    ),
    (
        ScriptVerb::Press(KeyWord::Power),
        &[
            (Slot::Word, "at"),
            (Slot::Time, "T"),
            (Slot::Word, "press"),
            (Slot::Text, "NAME"),
            (Slot::Key, "power"),
        ],
    ),
    (
        ScriptVerb::Press(KeyWord::VolumeUp),
        &[
            (Slot::Word, "at"),
            (Slot::Time, "T"),
            (Slot::Word, "press"),
            (Slot::Text, "NAME"),
            (Slot::Key, "volume-up"),
        ],
    ),
    (
        ScriptVerb::Press(KeyWord::VolumeDown),
        &[
            (Slot::Word, "at"),
            (Slot::Time, "T"),
            (Slot::Word, "press"),
            (Slot::Text, "NAME"),
            (Slot::Key, "volume-down"),
        ],
    ),
    (
        ScriptVerb::Press(KeyWord::Mute),
        &[
            (Slot::Word, "at"),
            (Slot::Time, "T"),
            (Slot::Word, "press"),
            (Slot::Text, "NAME"),
            (Slot::Key, "mute"),
        ],
    ),
    (
        ScriptVerb::Press(KeyWord::Port),
        &[
            (Slot::Word, "at"),
            (Slot::Time, "T"),
            (Slot::Word, "press"),
            (Slot::Text, "NAME"),
            (Slot::Key, "port"),
            (Slot::KeyPort, "N"),
        ],
    ),
    (
        ScriptVerb::Press(KeyWord::Watch),
        &[
            (Slot::Word, "at"),
            (Slot::LateTime, "T"),
            (Slot::Word, "press"),
            (Slot::Text, "NAME"),
            (Slot::Key, "watch"),
            (Slot::Text, "PA"),
        ],
    ),
    (
        ScriptVerb::Press(KeyWord::Language),
        &[
            (Slot::Word, "at"),
            (Slot::LateTime, "T"),
            (Slot::Word, "press"),
            (Slot::Text, "NAME"),
            (Slot::Key, "language"),
            (Slot::Text, "LLL"),
        ],
    ),
    (
        ScriptVerb::Press(KeyWord::Audio),
        &[
            (Slot::Word, "at"),
            (Slot::Time, "T"),
            (Slot::Word, "press"),
            (Slot::Text, "NAME"),
            (Slot::Key, "audio"),
            (Slot::Switch, "on|off"),
        ],
    ),
    (
        ScriptVerb::Press(KeyWord::Arc),
        &[
            (Slot::Word, "at"),
            (Slot::Time, "T"),
            (Slot::Word, "press"),
            (Slot::Text, "NAME"),
            (Slot::Key, "arc"),
            (Slot::Switch, "on|off"),
        ],
    ),
    (
        ScriptVerb::Press(KeyWord::Remote),
        &[
            (Slot::Word, "at"),
            (Slot::LateTime, "T"),
            (Slot::Word, "press"),
            (Slot::Text, "NAME"),
            (Slot::Key, "remote"),
            (Slot::Text, "D"),
            (Slot::Text, "CODE"),
        ],
    ),
    (
        ScriptVerb::Release(KeyWord::Play),
        &[
            (Slot::Word, "at"),
            (Slot::Time, "T"),
            (Slot::Word, "release"),
            (Slot::Text, "NAME"),
            (Slot::Key, "play"),
        ],
    ),
    (
        ScriptVerb::Release(KeyWord::Stop),
        &[
            (Slot::Word, "at"),
            (Slot::Time, "T"),
            (Slot::Word, "release"),
            (Slot::Text, "NAME"),
            (Slot::Key, "stop"),
        ],
    ),
    (
        ScriptVerb::Release(KeyWord::Eject),
        &[
            (Slot::Word, "at"),
            (Slot::Time, "T"),
            (Slot::Word, "release"),
            (Slot::Text, "NAME"),
            (Slot::Key, "eject"),
        ],
    ),
    (
        ScriptVerb::Release(KeyWord::Load),
        &[
            (Slot::Word, "at"),
            (Slot::Time, "T"),
            (Slot::Word, "release"),
            (Slot::Text, "NAME"),
            (Slot::Key, "load"),
        ],
    ),
    (
        ScriptVerb::Release(KeyWord::Menu),
        &[
            (Slot::Word, "at"),
            (Slot::Time, "T"),
            (Slot::Word, "release"),
            (Slot::Text, "NAME"),
            (Slot::Key, "menu"),
        ],
    ),
    (
        ScriptVerb::Release(KeyWord::Power),
        &[
            (Slot::Word, "at"),
            (Slot::Time, "T"),
            (Slot::Word, "release"),
            (Slot::Text, "NAME"),
            (Slot::Key, "power"),
        ],
    ),
    (
        ScriptVerb::Release(KeyWord::VolumeUp),
        &[
            (Slot::Word, "at"),
            (Slot::Time, "T"),
            (Slot::Word, "release"),
            (Slot::Text, "NAME"),
            (Slot::Key, "volume-up"),
        ],
    ),
    (
        ScriptVerb::Release(KeyWord::VolumeDown),
        &[
            (Slot::Word, "at"),
            (Slot::Time, "T"),
            (Slot::Word, "release"),
            (Slot::Text, "NAME"),
            (Slot::Key, "volume-down"),
        ],
    ),
    (
        ScriptVerb::Release(KeyWord::Mute),
        &[
            (Slot::Word, "at"),
            (Slot::Time, "T"),
            (Slot::Word, "release"),
            (Slot::Text, "NAME"),
            (Slot::Key, "mute"),
        ],
    ),
    (
        ScriptVerb::Release(KeyWord::Port),
        &[
            (Slot::Word, "at"),
            (Slot::Time, "T"),
            (Slot::Word, "release"),
            (Slot::Text, "NAME"),
            (Slot::Key, "port"),
            (Slot::KeyPort, "N"),
        ],
    ),
    (
        ScriptVerb::Release(KeyWord::Watch),
        &[
            (Slot::Word, "at"),
            (Slot::LateTime, "T"),
            (Slot::Word, "release"),
            (Slot::Text, "NAME"),
            (Slot::Key, "watch"),
            (Slot::Text, "PA"),
        ],
    ),
    (
        ScriptVerb::Release(KeyWord::Language),
        &[
            (Slot::Word, "at"),
            (Slot::LateTime, "T"),
            (Slot::Word, "release"),
            (Slot::Text, "NAME"),
            (Slot::Key, "language"),
            (Slot::Text, "LLL"),
        ],
    ),
    (
        ScriptVerb::Release(KeyWord::Audio),
        &[
            (Slot::Word, "at"),
            (Slot::Time, "T"),
            (Slot::Word, "release"),
            (Slot::Text, "NAME"),
            (Slot::Key, "audio"),
            (Slot::Switch, "on|off"),
        ],
    ),
    (
        ScriptVerb::Release(KeyWord::Arc),
        &[
            (Slot::Word, "at"),
            (Slot::Time, "T"),
            (Slot::Word, "release"),
            (Slot::Text, "NAME"),
            (Slot::Key, "arc"),
            (Slot::Switch, "on|off"),
        ],
    ),
    (
        ScriptVerb::Release(KeyWord::Remote),
        &[
            (Slot::Word, "at"),
            (Slot::LateTime, "T"),
            (Slot::Word, "release"),
            (Slot::Text, "NAME"),
            (Slot::Key, "remote"),
            (Slot::Text, "D"),
            (Slot::Text, "CODE"),
        ],
    ),
    (
        ScriptVerb::Plug,
        &[
            (Slot::Word, "at"),
            (Slot::Time, "T"),
            (Slot::Word, "plug"),
            (Slot::Text, "CHILD"),
            (Slot::Text, "PARENT"),
            (Slot::Port, "PORT"),
        ],
    ),
    (
        ScriptVerb::Unplug,
        &[
            (Slot::Word, "at"),
            (Slot::Time, "T"),
            (Slot::Word, "unplug"),
            (Slot::Text, "CHILD"),
        ],
    ),
    (
        ScriptVerb::Send,
        &[
            (Slot::Word, "at"),
            (Slot::LateTime, "T"),
            (Slot::Word, "send"),
            (Slot::Text, "NAME"),
            (Slot::Rest, "FRAME|hex HEX|attempts N FRAME"),
        ],
    ),
    (
        ScriptVerb::Hold,
        &[
            (Slot::Word, "at"),
            (Slot::LateTime, "T"),
            (Slot::Word, "hold"),
            (Slot::Text, "NAME"),
            (Slot::Text, "ADDRS"),
        ],
    ),
    (
        ScriptVerb::Drop,
        &[
            (Slot::Word, "at"),
            (Slot::Time, "T"),
            (Slot::Word, "drop"),
            (Slot::Text, "NAME"),
        ],
    ),
    (
        ScriptVerb::Pulse,
        &[
            (Slot::Word, "pulse"),
            (Slot::Time, "T"),
            (Slot::Number, "WIDTH"),
        ],
    ),
    (
        ScriptVerb::Pull,
        &[
            (Slot::Word, "pull"),
            (Slot::Time, "T"),
            (Slot::Number, "WIDTH"),
        ],
    ),
    (
        ScriptVerb::Pin,
        &[
            (Slot::Word, "pin"),
            (Slot::Time, "T"),
            (Slot::Level, "LEVEL"),
        ],
    ),
    (ScriptVerb::End, &[(Slot::Word, "end"), (Slot::Time, "T")]),
];
