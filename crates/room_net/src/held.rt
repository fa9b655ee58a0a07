//! No address is held twice.
ghost use Rattle.room_net.specs.Held.{KeepsOrder, NeverTwice, PollsTakeTurns};

/// At no moment of a run is a logical address below 15 held twice, by two devices or by two units of one, where
/// they are not from outside.
pub fn never_twice()
    ensures { NeverTwice }
{}

/// Each event and each round keeps what that rests on.
pub fn steps_keep_order()
    ensures { KeepsOrder }
{}

/// In one round at most one device looks for an address.
pub fn polls_take_turns()
    ensures { PollsTakeTurns }
{}
