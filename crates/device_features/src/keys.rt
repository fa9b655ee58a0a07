//! The keys of a device, which are this profile's own.
ghost use Rattle.std.specs.Prelude.{◌≡◌, ◌≤◌, ◌∷◌, [], length, IsTrue};
ghost use Rattle.arrayvec.specs.ArrayVec.{array_vec_len};
ghost use Rattle.message_table.specs.Table.{spelling};
ghost use Rattle.device_features.specs.declared.say.Say.TheVariants.{Report};
ghost use Rattle.device_features.specs.Effect.{does};
ghost use Rattle.device_features.specs.KeyWords.{word_of_key};
ghost use Rattle.device_features.specs.Keys.{arc_said, audio_said, code_of, has_key, port_selection, pressing, releasing, taking_over, sound_after};

use crate::key_word::KeyWord;
use crate::kinds::{Identity, is_deck};
use crate::messages::{active_source, arc_command, arc_request, menu_status, report_audio_status};
use crate::record::{Port, Record};
use crate::say::{DataBlocks, Say, Says, both, cast, report, silence};
use crate::ways::below;
use line_frames::Addr;
use message_table::{DeckInfo, Message, Triple, UserControl};
use text_core::{Kind, Phys};

/// The logical addresses of a television and of an audio system (CEC 10.2).
const TELEVISION: u8 = 0;

const AMPLIFIER: u8 = 5;

/// A key of a device, or of its remote control.
#[derive(Clone, Copy)]
pub enum Key {
    Play,
    Stop,
    Eject,
    Load,
    Menu,
    Power,
    /// To watch the source at a physical address.
    Watch(Phys),
    /// A switch's port, by its number.
    Port(u8),
    /// System audio mode.
    Audio { on: bool },
    /// The audio return channel.
    Arc { on: bool },
    Volume(VolumeKey),
    Language(Triple),
    /// A user control code, sent to another device: Remote Control Pass Through (CEC 13.13).
    Remote { to: Addr, code: UserControl },
}

impl Key {
    /// The word that it is, or begins with, in a script.
    pub fn word(&self) -> KeyWord
        ensures { result ≡ word_of_key self.now }
    {
        match self {
            Key::Play => KeyWord::Play,
            Key::Stop => KeyWord::Stop,
            Key::Eject => KeyWord::Eject,
            Key::Load => KeyWord::Load,
            Key::Menu => KeyWord::Menu,
            Key::Power => KeyWord::Power,
            Key::Watch(_) => KeyWord::Watch,
            Key::Port(_) => KeyWord::Port,
            Key::Audio { .. } => KeyWord::Audio,
            Key::Arc { .. } => KeyWord::Arc,
            Key::Volume(VolumeKey::Up) => KeyWord::VolumeUp,
            Key::Volume(VolumeKey::Down) => KeyWord::VolumeDown,
            Key::Volume(VolumeKey::Mute) => KeyWord::Mute,
            Key::Language(_) => KeyWord::Language,
            Key::Remote { .. } => KeyWord::Remote,
        }
    }
}

/// The keys of the sound.
#[derive(Clone, Copy)]
pub enum VolumeKey {
    Up,
    Down,
    Mute,
}

impl VolumeKey {
    /// Its user control code (CEC table 27).
    pub fn code(self) -> UserControl
        ensures { result ≡ code_of self }
    {
        match self {
            VolumeKey::Up => UserControl::VolumeUp,
            VolumeKey::Down => UserControl::VolumeDown,
            VolumeKey::Mute => UserControl::Mute,
        }
    }
}

/// Whether a device of this kind, with so many ports, has the key.
pub fn has_key(kind: Kind, ports: Port, key: &Key) -> bool
    ensures found { result ≡ has_key kind ports key.now }
    ensures in_range { ports ≤ 15 }
{
    let count = ports.value();
    match key {
        Key::Play | Key::Stop | Key::Eject | Key::Load | Key::Menu => is_deck(kind),
        Key::Power => !kind.is_outside(),
        Key::Port(port) => kind == Kind::Switch && *port >= 1 && *port <= count,
        Key::Arc { .. } | Key::Volume(_) => matches!(kind, Kind::Tv | Kind::Amp),
        Key::Watch(_) | Key::Audio { .. } | Key::Language(_) | Key::Remote { .. } => {
            kind == Kind::Tv
        }
    }
}

// To the television, to the amplifier.
fn to_television(message: &Message) -> Says
    requires { length (spelling message.now) ≤ 15 }
    ensures { result.items ≡ Report 0 (spelling message.now) ∷ [] }
{
    report(Addr::new(TELEVISION), message)
}

fn to_amplifier(message: &Message) -> Says
    requires { length (spelling message.now) ≤ 15 }
    ensures { result.items ≡ Report 5 (spelling message.now) ∷ [] }
{
    report(Addr::new(AMPLIFIER), message)
}

impl Record {
    // One Touch Play (CEC 13.1): it is the active source, and says so to the television and to all.
    fn take_over(&mut self, own: Phys) -> Says
        ensures effect { does self.new result.items ≡ taking_over own self.old }
        ensures len { array_vec_len result ≡ 2 }
    {
        self.power = true;
        self.active = Some(own);
        self.path = Some(own);
        let view_on = DataBlocks::new(&Message::ImageViewOn);
        let active = DataBlocks::new(&active_source(own));
        both(
            Say::Report(Addr::new(TELEVISION), view_on),
            Say::Cast(active),
        )
    }

    fn press_play(&mut self, me: Identity) -> Says
        ensures { does self.new result.items ≡ pressing me.kind me.phys self.old Key.Play }
    {
        if self.lacks_medium() {
            return self.take_over(me.phys);
        }
        let notice = self.notice(DeckInfo::Play);
        self.deck = DeckInfo::Play;
        let mut says = self.take_over(me.phys);
        if let Some(notice) = notice {
            says.push(notice);
        }
        says
    }

    // Standby is said to the others: to all of them by a television, and to the television by the active source.
    fn press_power(&mut self, me: Identity) -> Says
        ensures { does self.new result.items ≡ pressing me.kind me.phys self.old Key.Power }
    {
        if !self.power {
            self.power = true;
            return silence();
        }
        match me.kind {
            Kind::Tv => {
                self.fall_asleep();
                cast(&Message::Standby)
            }
            Kind::Player | Kind::Recorder | Kind::Combo if self.active == Some(me.phys) => {
                self.active = None;
                self.fall_asleep();
                to_television(&Message::InactiveSource { address: me.phys })
            }
            _ => {
                self.fall_asleep();
                silence()
            }
        }
    }

    // Routing Control (CEC 13.2): a switch says to all which way it now leads.
    fn press_port(&mut self, own: Phys, port: Port) -> Says
        ensures { does self.new result.items ≡ port_selection own port self.old self.old.selected }
    {
        let old = self.selected;
        self.selected = Some(port);
        match old {
            Some(old) if old != port => cast(&Message::RoutingChange {
                from: below(own, old),
                to: below(own, port),
            }),
            _ => silence(),
        }
    }

    fn turn_volume(&mut self, key: VolumeKey)
        ensures { self.new ≡ sound_after key self.old }
    {
        match key {
            VolumeKey::Up => self.volume = self.volume.louder(),
            VolumeKey::Down => self.volume = self.volume.softer(),
            VolumeKey::Mute => self.mute = !self.mute,
        }
    }

    // A television leaves the sound to the amplifier where system audio mode is on.
    fn press_volume(&mut self, me: Identity, key: VolumeKey) -> Says
        ensures { does self.new result.items ≡ pressing me.kind me.phys self.old (Key.Volume key) }
    {
        if me.kind == Kind::Tv && self.audio {
            return to_amplifier(&Message::UserControlPressed { code: key.code() });
        }
        self.turn_volume(key);
        if me.kind == Kind::Amp && self.audio {
            to_television(&report_audio_status(self.audio_status()))
        } else {
            silence()
        }
    }

    /// A key of the device is pressed, which it has.
    pub fn press_key(&mut self, me: Identity, key: Key) -> Says
        requires found { IsTrue (has_key me.kind me.ports key) }
        requires in_range { me.ports ≤ 15 }
        ensures { does self.new result.items ≡ pressing me.kind me.phys self.old key }
    {
        match key {
            Key::Play => self.press_play(me),
            Key::Stop => {
                if self.lacks_medium() {
                    silence()
                } else {
                    self.turn(DeckInfo::Stop)
                }
            }
            Key::Eject => self.turn(DeckInfo::NoMedia),
            Key::Load => {
                if self.lacks_medium() {
                    self.turn(DeckInfo::Stop)
                } else {
                    silence()
                }
            }
            Key::Menu => {
                self.menu = !self.menu;
                to_television(&menu_status(self.menu))
            }
            Key::Power => self.press_power(me),
            Key::Watch(to) => {
                self.path = Some(to);
                cast(&Message::SetStreamPath { address: to })
            }
            Key::Port(port) => self.press_port(me.phys, Port::new(port)),
            Key::Audio { on } => press_audio(on, self.path),
            Key::Arc { on } => press_arc(me.kind, on),
            Key::Volume(key) => self.press_volume(me, key),
            Key::Language(language) => {
                self.language = language;
                cast(&Message::SetMenuLanguage { language })
            }
            Key::Remote { to, code } => report(to, &Message::UserControlPressed { code }),
        }
    }

    /// A key of the device is released, which changes nothing of the record.
    pub fn release_key(&self, kind: Kind, key: &Key) -> Says
        ensures { does self.now result.items ≡ releasing kind self.now key.now }
    {
        match key {
            Key::Remote { to, .. } => report(*to, &Message::UserControlReleased),
            Key::Volume(_) if kind == Kind::Tv && self.audio => {
                to_amplifier(&Message::UserControlReleased)
            }
            _ => silence(),
        }
    }
}

// A television asks the amplifier for the audio return channel, and that one begins or ends it (CEC 13.17).
fn press_arc(kind: Kind, on: bool) -> Says
    ensures { result.items ≡ arc_said kind on ∷ [] }
{
    if kind == Kind::Tv {
        to_amplifier(&arc_request(on))
    } else {
        to_television(&arc_command(on))
    }
}

// System Audio Control (CEC 13.15): a television asks the amplifier for system audio mode, for the path if there is one.
fn press_audio(on: bool, path: Option<Phys>) -> Says
    ensures { result.items ≡ audio_said on path ∷ [] }
{
    let path = path.unwrap_or(Phys { high: 0, low: 0 });
    let address = if on { Some(path) } else { None };
    to_amplifier(&Message::SystemAudioModeRequest { address })
}
