//! What a device remembers.
ghost use Rattle.std.specs.Prelude.{◌≡◌};
ghost use Rattle.device_features.specs.Fresh.{fresh_record};

use arrayvec::ArrayVec;
use line_frames::Addr;
use message_table::{DeckInfo, Triple};
use std::marker::Model;
use text_core::{Kind, Phys};

/// The number of a port, or how many ports there are: 0 to 15.
#[derive(Clone, Copy, PartialEq, Eq)]
pub struct Port {
    value: u8,
}

impl Model for Port {
    ghost use Rattle.std.specs.Prelude.{ℕ, ◌<◌};

    ghost Value = { ℕ };

    ghost view = { λ p. p.value };

    ghost invariant = { λ p. p.value < 16 };

    ghost inverse = { λ n. record { value = n } };
}

impl Port {
    ghost use Rattle.std.specs.Prelude.{◌≡◌, ◌<◌};

    /// The port of this number, which is below 16.
    pub fn new(value: u8) -> Self
        requires { value < 16 }
        ensures { result ≡ value }
    {
        Port { value }
    }

    /// Its number.
    pub fn value(self) -> u8
        ensures value { result ≡ self }
        ensures in_range { result < 16 }
    {
        self.value
    }
}

/// How loud it is, 0 to 100.
#[derive(Clone, Copy)]
pub struct Volume {
    level: u8,
}

impl Model for Volume {
    ghost use Rattle.std.specs.Prelude.{ℕ, ◌≤◌};

    ghost Value = { ℕ };

    ghost view = { λ v. v.level };

    ghost invariant = { λ v. v.level ≤ 100 };

    ghost inverse = { λ n. record { level = n } };
}

impl Volume {
    ghost use Rattle.std.specs.Prelude.{◌≡◌, ◌-◌, ◌≤◌};
    ghost use Rattle.device_features.specs.Volume.{louder};

    /// The volume of a new device.
    pub fn new() -> Self
        ensures { result ≡ 20 }
    {
        Volume { level: 20 }
    }

    /// Its number.
    pub fn value(self) -> u8
        ensures value { result ≡ self }
        ensures in_range { result ≤ 100 }
    {
        self.level
    }

    /// One step up, at most to 100.
    pub fn louder(self) -> Self
        ensures { result ≡ louder self }
    {
        Volume {
            level: self.level.min(99) + 1,
        }
    }

    /// One step down, at least to 0.
    pub fn softer(self) -> Self
        ensures { result ≡ self - 1 }
    {
        Volume {
            level: self.level.saturating_sub(1),
        }
    }
}

/// The last report that was heard: who sent it, its opcode, and its first operand.
#[derive(Clone, Copy)]
pub struct HeardReport {
    pub from: Addr,
    pub opcode: u8,
    pub first: u8,
}

/// What a device remembers: all that frames and keys change.
#[derive(Drop)]
pub struct Record {
    /// Whether it is on; else it is in standby.
    pub power: bool,
    /// The active source.
    pub active: Option<Phys>,
    /// The path that was routed last.
    pub path: Option<Phys>,
    /// What the deck does.
    pub deck: DeckInfo,
    /// Whether its menu is shown.
    pub menu: bool,
    /// Whether system audio mode is on.
    pub audio: bool,
    pub volume: Volume,
    pub mute: bool,
    /// Whether the audio return channel is on.
    pub arc: bool,
    /// The port that a switch has selected.
    pub selected: Option<Port>,
    pub language: Triple,
    /// The text on the screen.
    pub osd: ArrayVec<u8, 16>,
    /// The user control code that is held down.
    pub held: Option<u8>,
    pub heard: Option<HeardReport>,
    /// Who asked for the status of the deck at each change.
    pub sub: Option<Addr>,
}

/// A copy of a text.
pub(crate) fn copy_of(text: &ArrayVec<u8, 16>) -> ArrayVec<u8, 16>
    ensures { result ≡ text.now }
{
    let mut copy = ArrayVec::new();
    let _ = copy.try_extend_from_slice(text.as_slice());
    copy
}

impl Record {
    /// The record of a new device.
    pub fn new(kind: Kind, ports: Port) -> Self
        ensures { result ≡ fresh_record kind ports }
    {
        Record {
            power: true,
            active: None,
            path: None,
            deck: DeckInfo::Stop,
            menu: false,
            audio: false,
            volume: Volume::new(),
            mute: false,
            arc: false,
            selected: if kind == Kind::Switch && ports.value() > 0 {
                Some(Port::new(1))
            } else {
                None
            },
            language: Triple {
                first: b'e',
                second: b'n',
                third: b'g',
            },
            osd: ArrayVec::new(),
            held: None,
            heard: None,
            sub: None,
        }
    }

    /// The same record again.
    pub fn copy(&self) -> Self
        ensures { result ≡ self.now }
    {
        Record {
            power: self.power,
            active: self.active,
            path: self.path,
            deck: self.deck,
            menu: self.menu,
            audio: self.audio,
            volume: self.volume,
            mute: self.mute,
            arc: self.arc,
            selected: self.selected,
            language: self.language,
            osd: copy_of(&self.osd),
            held: self.held,
            heard: self.heard,
            sub: self.sub,
        }
    }
}

/// A frame that came, but for its operands after the first, and when.
#[derive(Clone, Copy)]
pub struct Heard {
    pub from: Addr,
    pub to: Addr,
    pub opcode: u8,
    pub first: u8,
    pub at: u64,
}
