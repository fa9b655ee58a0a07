//! What a device keeps and does by itself, and why no address is held twice.
ghost use Rattle.device_core.specs.Once.{AddressesAreFound, FatesKeepOnce};
ghost use Rattle.device_core.specs.Clean.{HoldsNothingYet, KeepsClean, KeepsKind, KeepsNumber, KeepsPlace};
ghost use Rattle.device_core.specs.Listed.{HoldsListed};
ghost use Rattle.device_core.specs.Outside.{OnlyOutside};
ghost use Rattle.device_core.specs.PlaceLaw.{PlaceGoesByFates};
ghost use Rattle.device_core.specs.Sent.{FramesEnd};

/// The fates of a round keep each address below 15 with one holder.
pub fn fates_keep_once()
    ensures { FatesKeepOnce }
{}

/// What is queued goes to others, and nothing is queued before a device has settled.
pub fn queues_go_elsewhere()
    ensures { KeepsClean }
{}

/// A device polls and holds addresses of its kind's list alone.
pub fn addresses_are_listed()
    ensures { HoldsListed }
{}

/// A device stands where all the fates of its polls so far put it.
pub fn place_goes_by_fates()
    ensures { PlaceGoesByFates }
{}

/// Only joining, leaving and the fates of polls move a device that is not from outside.
pub fn only_polls_move()
    ensures { KeepsPlace }
{}

/// A device holds an address only from a poll on that nobody acknowledged.
pub fn addresses_are_found()
    ensures { AddressesAreFound }
{}

/// A device that joins, or has left, holds no address yet.
pub fn joining_holds_nothing()
    ensures { HoldsNothingYet }
{}

/// A device keeps its number from when it joins until it leaves.
pub fn numbers_stay()
    ensures { KeepsNumber }
{}

/// A device stays of its kind, whatever it does and is told.
pub fn kinds_stay()
    ensures { KeepsKind }
{}

/// A frame is over exactly where its device has less to send than before.
pub fn frames_end()
    ensures { FramesEnd }
{}

/// A device from outside holds and sends what it is told, and does nothing by itself.
pub fn only_outside()
    ensures { OnlyOutside }
{}
