//! What each message changes in the record of a device that follows it, and what is said.
ghost use Rattle.std.specs.Prelude.{◌≡◌, ◌≤◌, ◌==◌, ◌∷◌, [], length, if◌then◌else◌};
ghost use Rattle.device_features.specs.declared.say.Say.TheVariants.{Reply, Refuse};
ghost use Rattle.message_table.specs.declared.words.Reason.TheVariants.{Refused};
ghost use Rattle.message_table.specs.Table.{spelling};
ghost use Rattle.device_features.specs.Effect.{does};
ghost use Rattle.device_features.specs.Effects.{audio_set, effect_of, hears, key_press, pressed_on, route_change, selecting, osd_display, standby, stream_path, volume_report, volume_status};

use crate::kinds::{Identity, is_deck};
use crate::messages::{
    active_source, menu_status, report_audio_status, report_of, report_power_status,
    set_system_audio_mode, system_audio_mode_status,
};
use crate::record::{Heard, HeardReport, Record, copy_of};
use crate::say::{Says, cast, refuse, reply, report, silence};
use crate::ways::{below, is_nowhere, port_towards};
use arrayvec::ArrayVec;
use line_frames::Addr;
use message_table::{
    DeckInfo, Display, Message, Reason, SystemAudio, Triple, UserControl, Version,
};
use text_core::{Kind, Phys};

/// The vendor that every device reports.
const VENDOR: Triple = Triple {
    first: 0x02,
    second: 0x00,
    third: 0x00,
};

/// The table: for each message the kinds that it is for, and what it does. Another kind refuses.
macro_rules! rows {
    ($make:ident, $record:ident, $me:ident, $name:ident, $heard:ident, $message:expr) => {
        $make! {
            $me, $message;
            [] (Message::FeatureAbort { .. }) { silence() };
            [] (
                Message::DeckStatus { .. }
                | Message::SetOsdName { .. }
                | Message::ReportAudioStatus { .. }
                | Message::SystemAudioModeStatus { .. }
                | Message::ReportPhysicalAddress { .. }
                | Message::DeviceVendorId { .. }
                | Message::MenuStatus { .. }
                | Message::ReportPowerStatus { .. }
                | Message::CecVersion { .. }
            ) { $record.note($heard) };
            [Tv] (Message::ImageViewOn) {
                $record.power = true;
                silence()
            };
            [Tv] (Message::TextViewOn) {
                $record.power = true;
                $record.osd = ArrayVec::new();
                silence()
            };
            [Player Recorder Combo] (Message::GiveDeckStatus { request }) { $record.ask_deck($heard, *request) };
            [Player Recorder Combo Amp] (Message::SetMenuLanguage { language }) {
                if $heard.from.value() == 0 {
                    $record.language = *language;
                }
                silence()
            };
            [] (Message::Standby) {
                $record.fall_asleep();
                silence()
            };
            [Player Recorder Combo] (Message::Play { mode }) { $record.play(*mode) };
            [Player Recorder Combo] (Message::DeckControl { control }) { $record.control_deck(*control) };
            [Tv Amp Player Recorder Combo] (Message::UserControlPressed { code }) { $record.press($me.kind, *code) };
            [Tv Amp Player Recorder Combo] (Message::UserControlReleased) {
                $record.held = None;
                silence()
            };
            [] (Message::GiveOsdName) { osd_name($name) };
            [Tv] (Message::SetOsdString { display, text }) { $record.show(*display, text) };
            [Amp] (Message::SystemAudioModeRequest { address }) {
                if address.is_some() {
                    $record.power = true;
                    $record.audio = true;
                    cast(&set_system_audio_mode(true))
                } else {
                    $record.audio = false;
                    cast(&set_system_audio_mode(false))
                }
            };
            [Amp] (Message::GiveAudioStatus) { reply(&report_audio_status($record.audio_status())) };
            [Tv] (Message::SetSystemAudioMode { audio }) { $record.set_audio(*audio) };
            [Amp] (Message::GiveSystemAudioModeStatus) { reply(&system_audio_mode_status($record.audio)) };
            [] (Message::RoutingChange { to, .. }) { $record.route($me, *to) };
            [] (Message::RoutingInformation { address }) { $record.route($me, *address) };
            [] (Message::ActiveSource { address }) {
                $record.active = Some(*address);
                $record.path = Some(*address);
                $record.select($me, *address);
                silence()
            };
            [] (Message::GivePhysicalAddress) { cast(&report_of($me.kind, $me.phys, $heard.to)) };
            [] (Message::RequestActiveSource) {
                if $record.power && $record.active == Some($me.phys) {
                    cast(&active_source($me.phys))
                } else {
                    silence()
                }
            };
            [] (Message::SetStreamPath { address }) { $record.stream($me, *address) };
            [] (Message::GiveDeviceVendorId) { cast(&Message::DeviceVendorId { vendor: VENDOR }) };
            [Player Recorder Combo] (Message::MenuRequest { request }) { $record.ask_menu(*request) };
            [] (Message::GiveDevicePowerStatus) { reply(&report_power_status($record.power)) };
            [Tv] (Message::GetMenuLanguage) { cast(&Message::SetMenuLanguage { language: $record.language }) };
            [Tv] (Message::InactiveSource { address }) {
                if $record.active == Some(*address) {
                    $record.active = None;
                }
                silence()
            };
            [] (Message::GetCecVersion) { reply(&Message::CecVersion { version: Version::OnePointFour }) };
            [Tv] (Message::InitiateArc) {
                if $record.power {
                    $record.arc = true;
                    reply(&Message::ReportArcInitiated)
                } else {
                    refuse(Reason::WrongMode)
                }
            };
            [Amp] (Message::ReportArcInitiated) {
                $record.arc = true;
                silence()
            };
            [Amp] (Message::ReportArcTerminated) {
                $record.arc = false;
                silence()
            };
            [Amp] (Message::RequestArcInitiation) { from_television($heard, &Message::InitiateArc) };
            [Amp] (Message::RequestArcTermination) { from_television($heard, &Message::TerminateArc) };
            [Tv] (Message::TerminateArc) {
                $record.arc = false;
                reply(&Message::ReportArcTerminated)
            };
            [] (Message::Abort | Message::Raw { .. } | Message::Unknown { .. }) { refuse(Reason::Unrecognized) };
        }
    };
}

macro_rules! only {
    ([] $me:ident $body:block) => {
        $body
    };
    ([$($kind:ident)*] $me:ident $body:block) => {
        match $me.kind {
            $(Kind::$kind)|* => $body,
            _ => refuse(Reason::Unrecognized),
        }
    };
}

macro_rules! obey_match {
    ($me:ident, $message:expr; $($kinds:tt ($pattern:pat) $body:block;)*) => {
        match $message {
            $($pattern => only!($kinds $me $body),)*
        }
    };
}

// What the television asks for, and nobody else may.
fn from_television(heard: &Heard, message: &Message) -> Says
    requires { length (spelling message.now) ≤ 15 }
    ensures { result.items ≡ (if heard.now.from == 0 then Reply (spelling message.now) ∷ [] else Refuse Refused ∷ []) }
{
    if heard.from.value() == 0 {
        reply(message)
    } else {
        refuse(Reason::Refused)
    }
}

// Set OSD Name with the device's name.
fn osd_name(name: &[u8]) -> Says
    requires { length name.now ≤ 14 }
    ensures { result.items ≡ Reply (0x47 ∷ name.now) ∷ [] }
{
    let mut text = ArrayVec::new();
    let _ = text.try_extend_from_slice(name);
    reply(&Message::SetOsdName { text })
}

impl Record {
    // Keeps a report.
    fn note(&mut self, heard: &Heard) -> Says
        ensures { does self.new result.items ≡ hears heard.now self.old }
    {
        self.heard = Some(HeardReport {
            from: heard.from,
            opcode: heard.opcode,
            first: heard.first,
        });
        silence()
    }

    /// Goes into standby (CEC 13.3).
    pub(crate) fn fall_asleep(&mut self)
        ensures { self.new ≡ standby self.old }
    {
        self.power = false;
        self.menu = false;
        self.held = None;
        self.sub = None;
        if !self.lacks_medium() {
            self.deck = DeckInfo::Stop;
        }
    }

    /// Its audio status: bit 7 says that it is mute, the others how loud it is (CEC 13.15).
    pub(crate) fn audio_status(&self) -> u8
        ensures { result ≡ volume_status self.now }
    {
        if self.mute {
            self.volume.value() + 128
        } else {
            self.volume.value()
        }
    }

    // A switch selects the port that leads to an address below its own.
    fn select(&mut self, me: Identity, to: Phys)
        ensures { self.new ≡ selecting me.kind me.phys me.ports to self.old }
    {
        if let Some(port) = port_towards(me.phys, to) {
            if me.kind == Kind::Switch && port.value() > 0 && port.value() <= me.ports.value() {
                self.selected = Some(port);
            }
        }
    }

    // Routing Control (CEC 13.2): the way was changed; a switch that it leads to says where it leads on.
    fn route(&mut self, me: Identity, to: Phys) -> Says
        ensures { does self.new result.items ≡ route_change me.kind me.phys to self.old }
    {
        self.path = Some(to);
        self.active = None;
        if me.kind == Kind::Switch && to == me.phys {
            if let Some(port) = self.selected {
                let address = below(me.phys, port);
                if !is_nowhere(address) {
                    return cast(&Message::RoutingInformation { address });
                }
            }
        }
        silence()
    }

    // The device at the address that a television wants to see becomes the active source (CEC 13.2).
    fn stream(&mut self, me: Identity, to: Phys) -> Says
        ensures { does self.new result.items ≡ stream_path me.kind me.phys me.ports to self.old }
    {
        self.path = Some(to);
        match me.kind {
            Kind::Player | Kind::Recorder | Kind::Combo | Kind::Amp if to == me.phys => {
                self.power = true;
                self.active = Some(to);
                cast(&active_source(to))
            }
            _ => {
                self.select(me, to);
                silence()
            }
        }
    }

    // Shows a text on the screen, or none (CEC 13.10).
    fn show(&mut self, display: Display, text: &ArrayVec<u8, 16>) -> Says
        ensures { does self.new result.items ≡ osd_display self.old display text.now }
    {
        match display {
            Display::Other(_) => refuse(Reason::InvalidOperand),
            _ if !self.power => refuse(Reason::WrongMode),
            Display::Clear => {
                self.osd = ArrayVec::new();
                silence()
            }
            Display::Default | Display::Hold => {
                if text.is_empty() {
                    refuse(Reason::InvalidOperand)
                } else {
                    self.osd = copy_of(text);
                    silence()
                }
            }
        }
    }

    // System Audio Control (CEC 13.15): a television leaves the sound to the amplifier, or takes it back.
    fn set_audio(&mut self, audio: SystemAudio) -> Says
        ensures { does self.new result.items ≡ audio_set self.old audio }
    {
        match audio {
            SystemAudio::Off => {
                self.audio = false;
                silence()
            }
            SystemAudio::On => {
                self.audio = true;
                silence()
            }
            SystemAudio::Other(_) => refuse(Reason::InvalidOperand),
        }
    }

    // Remote Control Pass Through (CEC 13.13): a key of another device's remote.
    fn press(&mut self, kind: Kind, code: UserControl) -> Says
        ensures { does self.new result.items ≡ key_press kind code self.old }
    {
        if self.power {
            self.held = Some(code.byte());
            return self.press_on(kind, code);
        }
        if matches!(code, UserControl::Power | UserControl::PowerOn) {
            self.power = true;
            self.held = Some(code.byte());
        }
        silence()
    }

    // The same where the device is on.
    fn press_on(&mut self, kind: Kind, code: UserControl) -> Says
        ensures { does self.new result.items ≡ pressed_on kind code self.old }
    {
        let is_deck = is_deck(kind);
        let is_loaded = is_deck && !self.lacks_medium();
        match code {
            UserControl::Power | UserControl::PowerOff => {
                self.fall_asleep();
                silence()
            }
            UserControl::VolumeUp if !is_deck => {
                self.volume = self.volume.louder();
                self.report_volume(kind)
            }
            UserControl::VolumeDown if !is_deck => {
                self.volume = self.volume.softer();
                self.report_volume(kind)
            }
            UserControl::Mute if !is_deck => {
                self.mute = !self.mute;
                self.report_volume(kind)
            }
            UserControl::Play if is_loaded => self.turn(DeckInfo::Play),
            UserControl::Stop if is_loaded => self.turn(DeckInfo::Stop),
            UserControl::Pause if is_loaded => self.turn(DeckInfo::Still),
            UserControl::RootMenu if is_deck && !self.menu => {
                self.menu = true;
                report(Addr::new(0), &menu_status(true))
            }
            UserControl::Exit if is_deck && self.menu => {
                self.menu = false;
                report(Addr::new(0), &menu_status(false))
            }
            _ => silence(),
        }
    }

    // An amplifier with audio on says how loud it is.
    fn report_volume(&self, kind: Kind) -> Says
        ensures { does self.now result.items ≡ volume_report kind self.now }
    {
        if kind == Kind::Amp && self.audio {
            reply(&report_audio_status(self.audio_status()))
        } else {
            silence()
        }
    }

    /// Obeys a message of a frame that the device follows, by the opcode table. The device has this name.
    pub fn obey(&mut self, me: Identity, name: &[u8], heard: &Heard, message: &Message) -> Says
        requires { length name.now ≤ 14 }
        ensures { does self.new result.items ≡ effect_of me.kind me.phys name.now me.ports heard.now self.old message.now }
    {
        rows!(obey_match, self, me, name, heard, message)
    }
}
