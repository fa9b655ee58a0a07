//! What became of a frame that was sent.
ghost use Rattle.std.specs.Prelude.{◌≡◌, Some, None};
ghost use Rattle.line_reading.specs.Parts.{ArePartsOfSender};
ghost use Rattle.line_reading.specs.declared.sender.Sender.{Sender as SenderValue};
ghost use Rattle.line_frames.specs.declared.Reading.{Reading as ReadingValue};
ghost use Rattle.library_answers.specs.declared.code.Code.TheVariants.{State};
ghost use Rattle.library_wire.specs.Fate.{fate_code, fate_reported};
ghost use Rattle.library_wire.specs.Readings.{reading_in};
ghost use Rattle.library_wire.specs.Sender.{IsNoSender};

use library_wire::{ReadingParts, SentFate, sender_fate};
use line_reading::SenderParts;

/// What became of the frame of a sender that has stopped, by the reading that it began (CEC 9).
///
/// Refused where the state is no sender's, then where the numbers are no reading's, and absent where it sends still or the
/// reading has not ended.
#[unsafe(no_mangle)]
pub extern "C" fn hdminet_sender_fate(sender: &SenderParts, reading: &ReadingParts) -> SentFate
    ensures reported { (s : SenderValue) → (r : ReadingValue) → ArePartsOfSender s sender.now → reading_in reading.now ≡ Some r → result ≡ fate_reported s.state r }
    ensures spoilt { IsNoSender sender.now → result ≡ fate_code State }
    ensures nothing { (s : SenderValue) → ArePartsOfSender s sender.now → reading_in reading.now ≡ None → result ≡ fate_code State }
{
    sender_fate(sender, reading)
}
