//! Operands that are words of a set. A byte that is no word of the set is kept.
ghost use Rattle.std.specs.Prelude.{◌≡◌, ◌<◌, IsTrue};
ghost use Rattle.message_table.specs.WordSets.{is_unlisted};
ghost use Rattle.message_table.specs.declared.word_set.WordSet.TheVariants.{Reason as ReasonWords, Power as PowerWords, OnOff as OnOffWords, DeviceType as DeviceTypeWords, Version as VersionWords};

use crate::word_set::{from_code, to_code, words};

/// A byte that is no reason.
#[derive(Clone, Copy)]
pub struct OtherReason {
    pub byte: u8,
    ghost unlisted: { IsTrue (is_unlisted ReasonWords byte) },
}

/// Why a message is refused (CEC 17, Abort Reason).
#[derive(Clone, Copy)]
pub enum Reason {
    Unrecognized,
    WrongMode,
    NoSource,
    InvalidOperand,
    Refused,
    Other(OtherReason),
}

/// A byte that is no power status.
#[derive(Clone, Copy)]
pub struct OtherPower {
    pub byte: u8,
    ghost unlisted: { IsTrue (is_unlisted PowerWords byte) },
}

/// Whether a device is on (CEC 17, Power Status).
#[derive(Clone, Copy)]
pub enum Power {
    On,
    Standby,
    Other(OtherPower),
}

impl Reason {
    ghost use Rattle.message_table.specs.Words.{reason_at, reason_byte};

    /// The word that a byte stands for.
    pub fn from_byte(byte: u8) -> Reason
        ensures { result ≡ reason_at byte }
    {
        words!(Reason from_code byte, Reason, OtherReason)
    }

    /// Its byte.
    pub fn byte(self) -> u8
        ensures { result ≡ reason_byte self }
    {
        words!(Reason to_code self, Reason)
    }
}

impl Power {
    ghost use Rattle.message_table.specs.Words.{power_at, power_byte};

    /// The word that a byte stands for.
    pub fn from_byte(byte: u8) -> Power
        ensures { result ≡ power_at byte }
    {
        words!(Power from_code byte, Power, OtherPower)
    }

    /// Its byte.
    pub fn byte(self) -> u8
        ensures { result ≡ power_byte self }
    {
        words!(Power to_code self, Power)
    }
}

/// A byte that is no state of system audio mode.
#[derive(Clone, Copy)]
pub struct OtherSystemAudio {
    pub byte: u8,
    ghost unlisted: { IsTrue (is_unlisted OnOffWords byte) },
}

/// Whether system audio mode is on (CEC 17, System Audio Status).
#[derive(Clone, Copy)]
pub enum SystemAudio {
    Off,
    On,
    Other(OtherSystemAudio),
}

impl SystemAudio {
    ghost use Rattle.message_table.specs.Words.{system_audio_at, system_audio_byte};

    /// The word that a byte stands for.
    pub fn from_byte(byte: u8) -> SystemAudio
        ensures { result ≡ system_audio_at byte }
    {
        words!(SystemAudio from_code byte, SystemAudio, OtherSystemAudio)
    }

    /// Its byte.
    pub fn byte(self) -> u8
        ensures { result ≡ system_audio_byte self }
    {
        words!(SystemAudio to_code self, SystemAudio)
    }
}

/// A byte that is no type of a device.
#[derive(Clone, Copy)]
pub struct OtherDeviceType {
    pub byte: u8,
    ghost unlisted: { IsTrue (is_unlisted DeviceTypeWords byte) },
}

/// What kind of device has a physical address (CEC 17, Device Type).
#[derive(Clone, Copy)]
pub enum DeviceType {
    Tv,
    Recorder,
    Tuner,
    Playback,
    Audio,
    Switch,
    Other(OtherDeviceType),
}

impl DeviceType {
    ghost use Rattle.message_table.specs.Words.{device_type_at, device_type_byte};

    /// The word that a byte stands for.
    pub fn from_byte(byte: u8) -> DeviceType
        ensures { result ≡ device_type_at byte }
    {
        words!(DeviceType from_code byte, DeviceType, OtherDeviceType)
    }

    /// Its byte.
    pub fn byte(self) -> u8
        ensures { result ≡ device_type_byte self }
    {
        words!(DeviceType to_code self, DeviceType)
    }
}

/// A byte that is no version.
#[derive(Clone, Copy)]
pub struct OtherVersion {
    pub byte: u8,
    ghost unlisted: { IsTrue (is_unlisted VersionWords byte) },
}

/// A version of CEC (CEC 17, CEC Version).
#[derive(Clone, Copy)]
pub enum Version {
    OnePointFour,
    Other(OtherVersion),
}

impl Version {
    ghost use Rattle.message_table.specs.Words.{version_at, version_byte};

    /// The word that a byte stands for.
    pub fn from_byte(byte: u8) -> Version
        ensures { result ≡ version_at byte }
    {
        words!(Version from_code byte, Version, OtherVersion)
    }

    /// Its byte.
    pub fn byte(self) -> u8
        ensures { result ≡ version_byte self }
    {
        words!(Version to_code self, Version)
    }
}

/// Whether the sound is off, and how loud it is: 0 to 100, or what else the seven bits say.
#[derive(Clone, Copy)]
pub struct AudioStatus {
    pub muted: bool,
    pub volume: u8,
    ghost in_range: { volume < 128 },
}

impl AudioStatus {
    ghost use Rattle.message_table.specs.Words.{status_at, status_byte};

    /// What a byte says.
    pub fn from_byte(byte: u8) -> AudioStatus
        ensures { result ≡ status_at byte }
    {
        AudioStatus {
            muted: byte >= 128,
            volume: byte % 128,
        }
    }

    /// Its byte.
    pub fn byte(self) -> u8
        ensures { result ≡ status_byte self }
    {
        if self.muted {
            self.volume + 128
        } else {
            self.volume
        }
    }
}
