//! What a sender keeps, in plain numbers.
ghost use Rattle.std.specs.Prelude.{◌≡◌, ◌<◌, Some, IsSome, IfSome};
ghost use Rattle.line_reading.specs.Parts.{ArePartsOfSender, number_of_state, slot_of_state};
ghost use Rattle.line_reading.specs.declared.sender.Sender.{Sender as SenderValue};
ghost use Rattle.line_reading.specs.declared.sender.SenderState.{SenderState as StateValue};

use crate::sender::{Sender, SenderState};
use line_frames::Frame;
use line_wave::LATEST_HEARD;

/// What a sender keeps, in plain numbers, for callers in other languages.
#[repr(C)]
#[derive(Debug, Drop)]
pub struct SenderParts {
    /// The instant at which it began, in microseconds.
    pub begin: u64,
    /// The last microsecond in which it pulls, once it has stopped, or 0.
    pub last: u64,
    /// The slot at which it went out, counted from 1, or 0.
    pub slot: u64,
    /// 0 it sends, 1 it went out at a slot, 2 it stopped when the reading ended.
    pub state: u8,
    /// How many bytes the frame has, 1 to 16.
    pub count: u8,
    /// The bytes of the frame.
    pub bytes: [u8; 16],
}

fn number_of_state(state: SenderState) -> u8
    ensures { result ≡ number_of_state state }
{
    match state {
        SenderState::Sending => 0,
        SenderState::Out(_) => 1,
        SenderState::Stopped => 2,
    }
}

fn slot_of_state(state: SenderState) -> u64
    ensures { result ≡ slot_of_state state }
{
    match state {
        SenderState::Out(slot) => slot as u64,
        SenderState::Sending | SenderState::Stopped => 0,
    }
}

fn state_of(number: u8, slot: u64) -> Option<SenderState>
    ensures found { IfSome result (λ state. (number ≡ number_of_state state) × (slot ≡ slot_of_state state)) }
    ensures there { (state : StateValue) → number ≡ number_of_state state → slot ≡ slot_of_state state → result ≡ Some state }
{
    match (number, slot) {
        (0, 0) => Some(SenderState::Sending),
        (1, _) => Some(SenderState::Out(slot as usize)),
        (2, 0) => Some(SenderState::Stopped),
        _ => None,
    }
}

impl Sender {
    /// What it keeps.
    pub fn parts(&self) -> SenderParts
        ensures { ArePartsOfSender self.now result }
    {
        let mut bytes = [0; 16];
        let frame = self.frame.bytes();
        bytes[..frame.len()].copy_from_slice(frame);
        SenderParts {
            begin: self.begin,
            last: self.last,
            slot: slot_of_state(self.state),
            state: number_of_state(self.state),
            count: frame.len() as u8,
            bytes,
        }
    }

    /// The sender that keeps this, where one can.
    pub fn of_parts(parts: &SenderParts) -> Option<Self>
        ensures found { IfSome result (λ sender. ArePartsOfSender sender parts.now) }
        ensures there { (sender : SenderValue) → ArePartsOfSender sender parts.now → IsSome result }
    {
        if parts.count > 16 || parts.begin > LATEST_HEARD || parts.last > LATEST_HEARD {
            return None;
        }
        let state = state_of(parts.state, parts.slot)?;
        let Ok(frame) = Frame::new(&parts.bytes[..usize::from(parts.count)]) else {
            return None;
        };
        Some(Sender {
            frame,
            begin: parts.begin,
            state,
            last: parts.last,
        })
    }
}
