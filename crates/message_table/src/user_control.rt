//! User control codes. A byte that is no word of the set is kept.
ghost use Rattle.std.specs.Prelude.{◌≡◌, IsTrue};
ghost use Rattle.message_table.specs.WordSets.{is_unlisted};
ghost use Rattle.message_table.specs.declared.word_set.WordSet.TheVariants.{UserControl as UserControlWords};

use crate::word_set::{from_code, to_code, words};

/// A byte that is no user control code.
#[derive(Clone, Copy)]
pub struct OtherUserControl {
    pub byte: u8,
    ghost unlisted: { IsTrue (is_unlisted UserControlWords byte) },
}

/// A key of a remote control (CEC table 27).
#[derive(Clone, Copy)]
pub enum UserControl {
    Select,
    Up,
    Down,
    Left,
    Right,
    RootMenu,
    Exit,
    Digit0,
    Digit1,
    Digit2,
    Digit3,
    Digit4,
    Digit5,
    Digit6,
    Digit7,
    Digit8,
    Digit9,
    Power,
    VolumeUp,
    VolumeDown,
    Mute,
    Play,
    Stop,
    Pause,
    PowerOff,
    PowerOn,
    Other(OtherUserControl),
}

impl UserControl {
    ghost use Rattle.message_table.specs.ControlWords.{user_control_at, user_control_byte};

    /// The word that a byte stands for.
    pub fn from_byte(byte: u8) -> UserControl
        ensures { result ≡ user_control_at byte }
    {
        words!(UserControl from_code byte, UserControl, OtherUserControl)
    }

    /// Its byte.
    pub fn byte(self) -> u8
        ensures { result ≡ user_control_byte self }
    {
        words!(UserControl to_code self, UserControl)
    }
}
