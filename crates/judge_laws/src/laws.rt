//! Laws of what is told of a run.
ghost use Rattle.judge_laws.specs.Alike.{CapturesAreSeenAlike, FilesAreJudgedAlike};
ghost use Rattle.judge_laws.specs.Said.{NamesAreDeclared, ReadingsAreSaid, RefusedAreNeverSeen, RoundsAreSaid};
ghost use Rattle.judge_laws.specs.Told.{LinesReportRounds, TracesAreTold};
ghost use Rattle.judge_laws.specs.States.{CutTracesAgree, StatesAreOfRuns};

use room_run::turns_tell_the_text;

/// Two rounds whose lines in a trace are the same text are told as the same round.
pub fn lines_report_rounds()
    ensures { LinesReportRounds }
{}

/// The state that a script speaks of, at a time, is that at the end of the run that its events before the time and its pulses
/// give, and which ends at the time.
pub fn states_are_of_runs()
    ensures { StatesAreOfRuns }
{}

/// The trace of a run that ends at a time begins as that of the whole one: with the text of all turns that are over before then.
pub fn cut_traces_agree()
    ensures { CutTracesAgree }
{}

/// The devices of a topology are those that its lines declare, in their order.
pub fn names_are_declared()
    ensures { NamesAreDeclared }
{}

/// What each round of a run says is what a pattern can meet: the text of a frame or of bits, and who sent in the topology's order.
pub fn rounds_are_said()
    ensures { RoundsAreSaid }
{}

/// What each reading of a line says, cut at an instant, is such a text without who sent.
pub fn readings_are_said()
    ensures { ReadingsAreSaid }
{}

/// No round of a run meets a pattern that is refused.
pub fn refused_are_never_seen()
    ensures { RefusedAreNeverSeen }
{}

/// A pattern that can't ask who sent is met by the readings of a run's capture, in any format, as by the rounds of the run.
pub fn captures_are_seen_alike()
    ensures { CapturesAreSeenAlike }
{}

/// Expectations of rounds of a file whose patterns are seen alike by what is told of two runs, and whose labels of events name the
/// same instants by both, are judged alike.
pub fn files_are_judged_alike()
    ensures { FilesAreJudgedAlike }
{}

/// What is told of a run is its trace, line by line.
pub fn traces_are_told()
    ensures { TracesAreTold }
{
    // No effect at run time. The proof reads this law.
    turns_tell_the_text();
}
