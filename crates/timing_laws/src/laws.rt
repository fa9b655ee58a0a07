//! Laws of the times of rounds and runs.
ghost use Rattle.timing_laws.specs.Attempts.{RunsGiveUp};
ghost use Rattle.timing_laws.specs.Nominal.{RoundsAreNominal};
ghost use Rattle.timing_laws.specs.Times.{RunsKeepTheirTimes};
ghost use Rattle.timing_laws.specs.Verdicts.{RoundsAreBlocks, RunsAreFine};

/// The line of a round that no pulse comes into is that of one sender of the nominal times, which sends the bits that are
/// read, whoever sends, wins and acknowledges.
pub fn rounds_are_nominal()
    ensures { RoundsAreNominal }
{}

/// The line of a run without pulses, written in any format, is read as a capture of which an audit remarks no width: each
/// start bit and bit is low for as long as the standard allows, and the next one falls in time (CEC 5.2.1, 5.2.2), so that no low drive is remarked (CEC 7.4). What it
/// remarks of signal free times asks for more than three bit periods: no frame begins sooner after the start of the final bit of
/// the one before (CEC 9.1).
pub fn runs_keep_their_times()
    ensures { RunsKeepTheirTimes }
{}

/// The line of a run without pulses, written in any format, is read as a capture of which an audit remarks no seventh attempt
/// (CEC 7.1), whatever the script: also where devices from outside send from one address.
pub fn runs_give_up()
    ensures { RunsGiveUp }
{}

/// The bits of a round that no pulse comes into, and that is not read as too long, are whole blocks, up to the last one of a frame or to one that
/// was not taken (CEC 6.1, 7.1), whoever sends, wins and acknowledges (CEC 9.1).
pub fn rounds_are_blocks()
    ensures { RoundsAreBlocks }
{}

/// The line of a run without pulses, written in any format, is read as a capture whose verdict is `fine` with each frame in order; `idle` where nobody
/// speaks, and `empty` where it takes no time either. Read wide, its pieces are the frames that are read of it, in order, each once, and no width and
/// no ending of them is remarked. This holds whatever the script, where no frame is read as too long: a device sends 16 blocks at most (CEC 6.1).
pub fn runs_are_fine()
    ensures { RunsAreFine }
{}
