//! Operands of a screen and its menus that are words of a set. A byte that is no word of the set is kept.
ghost use Rattle.std.specs.Prelude.{◌≡◌, IsTrue};
ghost use Rattle.message_table.specs.WordSets.{is_unlisted};
ghost use Rattle.message_table.specs.declared.word_set.WordSet.TheVariants.{Display as DisplayWords, MenuRequest as MenuRequestWords, MenuState as MenuStateWords};

use crate::word_set::{from_code, to_code, words};

/// A byte that is no display control.
#[derive(Clone, Copy)]
pub struct OtherDisplay {
    pub byte: u8,
    ghost unlisted: { IsTrue (is_unlisted DisplayWords byte) },
}

/// How long a text is shown (CEC 17, Display Control).
#[derive(Clone, Copy)]
pub enum Display {
    Default,
    Hold,
    Clear,
    Other(OtherDisplay),
}

impl Display {
    ghost use Rattle.message_table.specs.ScreenWords.{display_at, display_byte};

    /// The word that a byte stands for.
    pub fn from_byte(byte: u8) -> Display
        ensures { result ≡ display_at byte }
    {
        words!(Display from_code byte, Display, OtherDisplay)
    }

    /// Its byte.
    pub fn byte(self) -> u8
        ensures { result ≡ display_byte self }
    {
        words!(Display to_code self, Display)
    }
}

/// A byte that is no request of a menu.
#[derive(Clone, Copy)]
pub struct OtherMenuRequestType {
    pub byte: u8,
    ghost unlisted: { IsTrue (is_unlisted MenuRequestWords byte) },
}

/// What is asked of a menu (CEC 17, Menu Request Type).
#[derive(Clone, Copy)]
pub enum MenuRequestType {
    Activate,
    Deactivate,
    Query,
    Other(OtherMenuRequestType),
}

impl MenuRequestType {
    ghost use Rattle.message_table.specs.ScreenWords.{menu_request_at, menu_request_byte};

    /// The word that a byte stands for.
    pub fn from_byte(byte: u8) -> MenuRequestType
        ensures { result ≡ menu_request_at byte }
    {
        words!(MenuRequestType from_code byte, MenuRequestType, OtherMenuRequestType)
    }

    /// Its byte.
    pub fn byte(self) -> u8
        ensures { result ≡ menu_request_byte self }
    {
        words!(MenuRequestType to_code self, MenuRequestType)
    }
}

/// A byte that is no state of a menu.
#[derive(Clone, Copy)]
pub struct OtherMenuState {
    pub byte: u8,
    ghost unlisted: { IsTrue (is_unlisted MenuStateWords byte) },
}

/// Whether a menu is shown (CEC 17, Menu State).
#[derive(Clone, Copy)]
pub enum MenuState {
    Activated,
    Deactivated,
    Other(OtherMenuState),
}

impl MenuState {
    ghost use Rattle.message_table.specs.ScreenWords.{menu_state_at, menu_state_byte};

    /// The word that a byte stands for.
    pub fn from_byte(byte: u8) -> MenuState
        ensures { result ≡ menu_state_at byte }
    {
        words!(MenuState from_code byte, MenuState, OtherMenuState)
    }

    /// Its byte.
    pub fn byte(self) -> u8
        ensures { result ≡ menu_state_byte self }
    {
        words!(MenuState to_code self, MenuState)
    }
}
