//! What a receiver keeps, in plain numbers.
ghost use Rattle.std.specs.Prelude.{◌≡◌, ◌<◌, Some, IsSome, IfSome};
ghost use Rattle.line_reading.specs.Parts.{ArePartsOf, number_of};
ghost use Rattle.line_reading.specs.declared.receiver.ReceiverState.{ReceiverState as PlaceValue};
ghost use Rattle.line_reading.specs.declared.receiver.Receiver.{Receiver as ReceiverValue};

use crate::reading::copied_bits;
use crate::receiver::{Receiver, ReceiverState};
use line_frames::MOST_BITS;
use line_wave::LATEST_HEARD;

/// What a receiver keeps, in plain numbers, for callers in other languages.
#[repr(C)]
#[derive(Debug, Drop)]
pub struct ReceiverParts {
    /// Whether the line was low before its last change.
    pub was_low: bool,
    /// Whether the line is low.
    pub is_low: bool,
    /// 0 no reading runs, 1 in the start bit, 2 after its rise, 3 in a slot before its sample, 4 after it.
    pub place: u8,
    /// How many bits were sampled so far.
    pub count: u8,
    /// The instant at which the reading began, in microseconds, or 0.
    pub begin: u64,
    /// The last fall, in microseconds, or 0.
    pub fall: u64,
    /// The bits sampled so far, from slot 1 on.
    pub bits: [bool; MOST_BITS],
}

fn number_of_place(place: ReceiverState) -> u8
    ensures { result ≡ number_of place }
{
    match place {
        ReceiverState::Rest => 0,
        ReceiverState::StartLow => 1,
        ReceiverState::StartHigh => 2,
        ReceiverState::Unsampled => 3,
        ReceiverState::Sampled => 4,
    }
}

fn place_of(number: u8) -> Option<ReceiverState>
    ensures found { IfSome result (λ place. number ≡ number_of place) }
    ensures there { (place : PlaceValue) → number ≡ number_of place → result ≡ Some place }
{
    match number {
        0 => Some(ReceiverState::Rest),
        1 => Some(ReceiverState::StartLow),
        2 => Some(ReceiverState::StartHigh),
        3 => Some(ReceiverState::Unsampled),
        4 => Some(ReceiverState::Sampled),
        _ => None,
    }
}

impl Receiver {
    /// What it keeps.
    pub fn parts(&self) -> ReceiverParts
        ensures { ArePartsOf self.now result }
    {
        let mut bits = [false; MOST_BITS];
        let sampled = self.bits.as_slice();
        bits[..sampled.len()].copy_from_slice(sampled);
        ReceiverParts {
            was_low: self.was_low,
            is_low: self.is_low,
            place: number_of_place(self.place),
            count: self.bits.len() as u8,
            begin: self.begin,
            fall: self.fall,
            bits,
        }
    }

    /// The receiver that keeps this, where one can.
    pub fn of_parts(parts: &ReceiverParts) -> Option<Self>
        ensures found { IfSome result (λ receiver. ArePartsOf receiver parts.now) }
        ensures there { (receiver : ReceiverValue) → ArePartsOf receiver parts.now → IsSome result }
    {
        if usize::from(parts.count) >= MOST_BITS
            || parts.begin > LATEST_HEARD
            || parts.fall > LATEST_HEARD
        {
            return None;
        }
        let Some(place) = place_of(parts.place) else {
            return None;
        };
        Some(Receiver {
            was_low: parts.was_low,
            is_low: parts.is_low,
            place,
            begin: parts.begin,
            fall: parts.fall,
            bits: copied_bits(&parts.bits[..usize::from(parts.count)]),
        })
    }
}
