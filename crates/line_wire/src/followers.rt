//! Those who follow: who acknowledges a block (the acknowledge bit, CEC 6.1), and who answers a fall too early with a low
//! drive (line error handling, CEC 7.4), by what the senders are doing.
ghost use Rattle.std.specs.Prelude.{◌≡◌};
ghost use Rattle.line_wire.specs.States.{acks_to, breaks_by};

use crate::senders::is_sending;
use line_reading::Sender;
use line_rounds::Seat;

/// A seat that is not sending holds this address.
pub fn is_acknowledged(seats: &[Seat], senders: &[Option<Sender>], address: u8) -> bool
    ensures { result ≡ acks_to address seats.now senders.now }
{
    let [seat, more_seats @ ..] = seats else {
        return false;
    };
    let [sender, more_senders @ ..] = senders else {
        return false;
    };
    (seat.plugged && (seat.has_address(address) && !is_sending(sender)))
        || is_acknowledged(more_seats, more_senders, address)
}

/// A seat that is not sending is plugged in.
pub fn is_broken(seats: &[Seat], senders: &[Option<Sender>]) -> bool
    ensures { result ≡ breaks_by seats.now senders.now }
{
    let [seat, more_seats @ ..] = seats else {
        return false;
    };
    let [sender, more_senders @ ..] = senders else {
        return false;
    };
    (seat.plugged && !is_sending(sender)) || is_broken(more_seats, more_senders)
}
