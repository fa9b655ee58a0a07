//! The messages, one case for each opcode.
use crate::deck_words::{DeckControlMode, DeckInfo, PlayMode, StatusRequest};
use crate::screen_words::{Display, MenuRequestType, MenuState};
use crate::user_control::UserControl;
use crate::words::{AudioStatus, DeviceType, Power, Reason, SystemAudio, Version};
use arrayvec::ArrayVec;
use text_core::Phys;

/// Three bytes.
#[derive(Clone, Copy)]
pub struct Triple {
    pub first: u8,
    pub second: u8,
    pub third: u8,
}

// Neither `Debug` nor `PartialEq`: each crate above would carry their proofs, and the bytes that a message spells are exact.
#[derive(Drop)]
pub enum Message {
    FeatureAbort {
        opcode: u8,
        reason: Reason,
    },
    ImageViewOn,
    TextViewOn,
    GiveDeckStatus {
        request: StatusRequest,
    },
    DeckStatus {
        deck: DeckInfo,
    },
    SetMenuLanguage {
        language: Triple,
    },
    Standby,
    Play {
        mode: PlayMode,
    },
    DeckControl {
        control: DeckControlMode,
    },
    UserControlPressed {
        code: UserControl,
    },
    UserControlReleased,
    GiveOsdName,
    SetOsdName {
        text: ArrayVec<u8, 16>,
    },
    SetOsdString {
        display: Display,
        text: ArrayVec<u8, 16>,
    },
    SystemAudioModeRequest {
        address: Option<Phys>,
    },
    GiveAudioStatus,
    SetSystemAudioMode {
        audio: SystemAudio,
    },
    ReportAudioStatus {
        status: AudioStatus,
    },
    GiveSystemAudioModeStatus,
    SystemAudioModeStatus {
        audio: SystemAudio,
    },
    RoutingChange {
        from: Phys,
        to: Phys,
    },
    RoutingInformation {
        address: Phys,
    },
    ActiveSource {
        address: Phys,
    },
    GivePhysicalAddress,
    ReportPhysicalAddress {
        address: Phys,
        kind: DeviceType,
    },
    RequestActiveSource,
    SetStreamPath {
        address: Phys,
    },
    DeviceVendorId {
        vendor: Triple,
    },
    GiveDeviceVendorId,
    MenuRequest {
        request: MenuRequestType,
    },
    MenuStatus {
        menu: MenuState,
    },
    GiveDevicePowerStatus,
    ReportPowerStatus {
        power: Power,
    },
    GetMenuLanguage,
    InactiveSource {
        address: Phys,
    },
    CecVersion {
        version: Version,
    },
    GetCecVersion,
    InitiateArc,
    ReportArcInitiated,
    ReportArcTerminated,
    RequestArcInitiation,
    RequestArcTermination,
    TerminateArc,
    Abort,
    /// An opcode whose operands are kept as they are.
    Raw {
        opcode: u8,
        operands: ArrayVec<u8, 16>,
    },
    /// An opcode with no name.
    Unknown {
        opcode: u8,
        operands: ArrayVec<u8, 16>,
    },
}

/// What a frame says.
#[derive(Drop)]
pub enum Decoded {
    Poll,
    Known(Message),
    /// Too few operands for this opcode.
    Short(u8),
    /// An opcode with no name.
    Unknown(u8),
}
