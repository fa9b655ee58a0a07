//! Operands of a deck that are words of a set. A byte that is no word of the set is kept.
ghost use Rattle.std.specs.Prelude.{◌≡◌, IsTrue};
ghost use Rattle.message_table.specs.WordSets.{is_unlisted};
ghost use Rattle.message_table.specs.declared.word_set.WordSet.TheVariants.{StatusRequest as StatusRequestWords, DeckInfo as DeckInfoWords, PlayMode as PlayModeWords, DeckControl as DeckControlWords};

use crate::word_set::{from_code, to_code, words};

/// A byte that is no request.
#[derive(Clone, Copy)]
pub struct OtherStatusRequest {
    pub byte: u8,
    ghost unlisted: { IsTrue (is_unlisted StatusRequestWords byte) },
}

/// When a deck reports its state (CEC 17, Status Request).
#[derive(Clone, Copy)]
pub enum StatusRequest {
    On,
    Off,
    Once,
    Other(OtherStatusRequest),
}

impl StatusRequest {
    ghost use Rattle.message_table.specs.DeckWords.{status_request_at, status_request_byte};

    /// The word that a byte stands for.
    pub fn from_byte(byte: u8) -> StatusRequest
        ensures { result ≡ status_request_at byte }
    {
        words!(StatusRequest from_code byte, StatusRequest, OtherStatusRequest)
    }

    /// Its byte.
    pub fn byte(self) -> u8
        ensures { result ≡ status_request_byte self }
    {
        words!(StatusRequest to_code self, StatusRequest)
    }
}

/// A byte that is no state of a deck.
#[derive(Clone, Copy)]
pub struct OtherDeckInfo {
    pub byte: u8,
    ghost unlisted: { IsTrue (is_unlisted DeckInfoWords byte) },
}

/// What a deck does (CEC 17, Deck Info).
#[derive(Clone, Copy)]
pub enum DeckInfo {
    Play,
    Still,
    FastForward,
    FastReverse,
    NoMedia,
    Stop,
    SkipForward,
    SkipReverse,
    Other(OtherDeckInfo),
}

impl DeckInfo {
    ghost use Rattle.message_table.specs.DeckWords.{deck_info_at, deck_info_byte};

    /// The word that a byte stands for.
    pub fn from_byte(byte: u8) -> DeckInfo
        ensures { result ≡ deck_info_at byte }
    {
        words!(DeckInfo from_code byte, DeckInfo, OtherDeckInfo)
    }

    /// Its byte.
    pub fn byte(self) -> u8
        ensures { result ≡ deck_info_byte self }
    {
        words!(DeckInfo to_code self, DeckInfo)
    }
}

/// A byte that is no play mode.
#[derive(Clone, Copy)]
pub struct OtherPlayMode {
    pub byte: u8,
    ghost unlisted: { IsTrue (is_unlisted PlayModeWords byte) },
}

/// How a deck shall play (CEC 17, Play Mode).
#[derive(Clone, Copy)]
pub enum PlayMode {
    Forward,
    Still,
    FastForwardMin,
    FastForwardMid,
    FastForwardMax,
    FastReverseMin,
    FastReverseMid,
    FastReverseMax,
    Other(OtherPlayMode),
}

impl PlayMode {
    ghost use Rattle.message_table.specs.DeckWords.{play_mode_at, play_mode_byte};

    /// The word that a byte stands for.
    pub fn from_byte(byte: u8) -> PlayMode
        ensures { result ≡ play_mode_at byte }
    {
        words!(PlayMode from_code byte, PlayMode, OtherPlayMode)
    }

    /// Its byte.
    pub fn byte(self) -> u8
        ensures { result ≡ play_mode_byte self }
    {
        words!(PlayMode to_code self, PlayMode)
    }
}

/// A byte that is no deck control.
#[derive(Clone, Copy)]
pub struct OtherDeckControlMode {
    pub byte: u8,
    ghost unlisted: { IsTrue (is_unlisted DeckControlWords byte) },
}

/// What a deck shall do (CEC 17, Deck Control Mode).
#[derive(Clone, Copy)]
pub enum DeckControlMode {
    SkipForward,
    SkipReverse,
    Stop,
    Eject,
    Other(OtherDeckControlMode),
}

impl DeckControlMode {
    ghost use Rattle.message_table.specs.DeckWords.{deck_control_at, deck_control_byte};

    /// The word that a byte stands for.
    pub fn from_byte(byte: u8) -> DeckControlMode
        ensures { result ≡ deck_control_at byte }
    {
        words!(DeckControlMode from_code byte, DeckControlMode, OtherDeckControlMode)
    }

    /// Its byte.
    pub fn byte(self) -> u8
        ensures { result ≡ deck_control_byte self }
    {
        words!(DeckControlMode to_code self, DeckControlMode)
    }
}
