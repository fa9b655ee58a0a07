//! What a device says of itself, as messages.
ghost use Rattle.std.specs.Prelude.{◌≡◌, ◌∷◌, [], if◌then◌else◌};
ghost use Rattle.message_table.specs.Table.{spelling};
ghost use Rattle.message_table.specs.Words.{system_audio_byte};
ghost use Rattle.device_features.specs.Kinds.{type_of};

use crate::kinds::is_recorders;
use line_frames::Addr;
use message_table::{
    AudioStatus, DeviceType, MenuState, Message, Power, SystemAudio, messages_keep_operands,
};
use text_core::{Kind, Phys};

/// Active Source.
pub(crate) fn active_source(phys: Phys) -> Message
    ensures { spelling result ≡ 0x82 ∷ phys.high ∷ phys.low ∷ [] }
{
    Message::ActiveSource { address: phys }
}

/// Report Physical Address, from this logical address.
pub fn report_of(kind: Kind, phys: Phys, from: Addr) -> Message
    ensures { spelling result ≡ 0x84 ∷ phys.high ∷ phys.low ∷ type_of kind from ∷ [] }
{
    Message::ReportPhysicalAddress {
        address: phys,
        kind: match kind {
            Kind::Tv | Kind::OutsideTv => DeviceType::Tv,
            Kind::Recorder => DeviceType::Recorder,
            Kind::Player => DeviceType::Playback,
            Kind::Amp => DeviceType::Audio,
            Kind::Switch | Kind::Outside => DeviceType::Switch,
            Kind::Combo if is_recorders(from.value()) => DeviceType::Recorder,
            Kind::Combo => DeviceType::Playback,
        },
    }
}

/// Report Audio Status.
pub(crate) fn report_audio_status(status: u8) -> Message
    ensures { spelling result ≡ 0x7a ∷ status ∷ [] }
{
    messages_keep_operands();
    Message::ReportAudioStatus {
        status: AudioStatus::from_byte(status),
    }
}

/// Menu Status, of a menu that is shown or not.
pub(crate) fn menu_status(shown: bool) -> Message
    ensures { spelling result ≡ 0x8e ∷ (if shown then 0 else 1) ∷ [] }
{
    Message::MenuStatus {
        menu: if shown {
            MenuState::Activated
        } else {
            MenuState::Deactivated
        },
    }
}

/// Report Power Status.
pub(crate) fn report_power_status(on: bool) -> Message
    ensures { spelling result ≡ 0x90 ∷ (if on then 0 else 1) ∷ [] }
{
    Message::ReportPowerStatus {
        power: if on { Power::On } else { Power::Standby },
    }
}

/// System audio mode, as a word.
fn system_audio(on: bool) -> SystemAudio
    ensures { system_audio_byte result ≡ (if on then 1 else 0) }
{
    if on {
        SystemAudio::On
    } else {
        SystemAudio::Off
    }
}

/// Set System Audio Mode.
pub(crate) fn set_system_audio_mode(on: bool) -> Message
    ensures { spelling result ≡ 0x72 ∷ (if on then 1 else 0) ∷ [] }
{
    Message::SetSystemAudioMode {
        audio: system_audio(on),
    }
}

/// System Audio Mode Status.
pub(crate) fn system_audio_mode_status(on: bool) -> Message
    ensures { spelling result ≡ 0x7e ∷ (if on then 1 else 0) ∷ [] }
{
    Message::SystemAudioModeStatus {
        audio: system_audio(on),
    }
}

/// Request ARC Initiation, or Termination.
pub(crate) fn arc_request(on: bool) -> Message
    ensures { spelling result ≡ (if on then 0xc3 else 0xc4) ∷ [] }
{
    if on {
        Message::RequestArcInitiation
    } else {
        Message::RequestArcTermination
    }
}

/// Initiate ARC, or Terminate ARC.
pub(crate) fn arc_command(on: bool) -> Message
    ensures { spelling result ≡ (if on then 0xc0 else 0xc5) ∷ [] }
{
    if on {
        Message::InitiateArc
    } else {
        Message::TerminateArc
    }
}
