//! What begins a round, what events and rounds leave as it was, how many rounds a run has, which pulses they take and what is
//! read on its line, and that addresses of ports are one rule.
ghost use Rattle.room_net.specs.Few.{RunsAreShort};
ghost use Rattle.room_net.specs.Kept.{EventsKeep, EventsKeepFramed, FramedSeatsFit, RoundsKeepCount, RoundsKeepFramed, StartsAreFramed, StartsHaveAll};
ghost use Rattle.room_net.specs.Line.{RunsAreInOrder, RunsAreOver, RunsAreRead, RunsAreWaves};
ghost use Rattle.room_net.specs.Ports.{BelowIsThePorts, PortsLeadBelow};
ghost use Rattle.room_net.specs.Progress.{LeastIsLed, RoundsAreBegun, RoundsGoOn};
ghost use Rattle.room_net.specs.Taken.{RoundsTakePulses};

/// A run that ends at `end` has at most one round for each 7,200 microseconds, and one more for each pulse.
pub fn runs_are_short()
    ensures { RunsAreShort }
{}

/// The pulses that a round drops are those on its line, and no other.
pub fn rounds_take_pulses()
    ensures { RoundsTakePulses }
{}

/// The address that a switch gives its port is the one that the tree gives it (HDMI 1.4, 8.7.2).
pub fn below_is_the_ports()
    ensures { BelowIsThePorts }
{}

/// The port of a switch that leads to an address, by the switch's own, is the one that the device of that address is at
/// or below.
pub fn ports_lead_below()
    ensures { PortsLeadBelow }
{}

/// An event leaves the pulses, the close and the rest, and how many devices there are.
pub fn events_keep_the_rest()
    ensures { EventsKeep }
{}

/// A run begins with a device for each node of its tree, and a round leaves how many there are.
pub fn devices_stay()
    ensures start { StartsHaveAll }
    ensures round { RoundsKeepCount }
{}

/// What a device has to send has a block at least: at the start, after an event that hands in no empty frame, and after a
/// round. So each seat that sends in a round sends a frame.
pub fn frames_have_blocks()
    ensures start { StartsAreFramed }
    ensures event { EventsKeepFramed }
    ensures round { RoundsKeepFramed }
    ensures seats { FramedSeatsFit }
{}

/// At the least start of some devices one of them sends, a signal free time after the rest. A round that begins at the next
/// start is begun by who sends or by a pulse, pulls the line low, and takes a pulse or comes that free time after the rest.
pub fn rounds_begin()
    ensures led { LeastIsLed }
    ensures begun { RoundsAreBegun }
    ensures going { RoundsGoOn }
{}

/// The readings of a run's whole line, cut at its last close or later, are its rounds' readings, in order, each
/// once.
pub fn runs_are_read()
    ensures { RunsAreRead }
{}

/// The stretches of a run's rounds, one round after another, neither overlap nor touch: each is a fall and a rise
/// of the whole line.
pub fn runs_are_waves()
    ensures { RunsAreWaves }
{}

/// Each round of a run begins at the close of the one before or later, and after its last low stretch.
pub fn runs_are_in_order()
    ensures { RunsAreInOrder }
{}

/// From its last close on the line of a run is high.
pub fn runs_are_over()
    ensures { RunsAreOver }
{}
