//! A receiver and a sender are what they keep, and nothing more.
ghost use Rattle.std.specs.Prelude.{◌≡◌, Some};
ghost use Rattle.parts_laws.specs.Laws.{ReceiversHaveOneForm, SendersHaveOneForm};

use line_reading::{Receiver, Sender};

/// Two receivers that keep the same are the same.
pub fn receivers_have_one_form()
    ensures { ReceiversHaveOneForm }
{}

/// Two senders that keep the same are the same.
pub fn senders_have_one_form()
    ensures { SendersHaveOneForm }
{}

/// What a receiver keeps is taken back, and gives that receiver.
pub fn receivers_are_their_parts(receiver: &Receiver) -> Option<Receiver>
    ensures { result ≡ Some receiver.now }
{
    Receiver::of_parts(&receiver.parts())
}

/// What a sender keeps is taken back, and gives that sender.
pub fn senders_are_their_parts(sender: &Sender) -> Option<Sender>
    ensures { result ≡ Some sender.now }
{
    Sender::of_parts(&sender.parts())
}
