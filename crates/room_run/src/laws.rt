//! Laws of runs.
ghost use Rattle.room_run.specs.Run.{OneRunText, OneTrace};
ghost use Rattle.room_run.specs.RunLine.{EdgesAreTheLine, LinesAreOfTheRounds, RunsAreRead, RunsAreShort};
ghost use Rattle.room_run.specs.Accepted.{ScriptsBeginEarly, ScriptsEndEarly, TextsAreOfOneRun, TopologiesHaveDevices};
ghost use Rattle.room_run.specs.Emulate.{TextsHaveOneLine, TextsHaveOneTextOfObjects, TextsHaveOneTrace};
ghost use Rattle.room_run.specs.Objects.{ObjectsAreOfTheTrace};
ghost use Rattle.room_run.specs.Heard.{TurnsAreAdded};
ghost use Rattle.room_run.specs.HasRun.{RunsHaveTexts, TextsHaveObjects, TextsHaveTraces};
ghost use Rattle.room_run.specs.OneRun.{OneRun, RunsCloseSoon, TextsHaveOneRun, TracesHaveParts};
ghost use Rattle.room_run.specs.Certain.{AllBeforeIsOne, LatePulsesDoNotPull, NoneAfterHeld, ReportedIsFront, RoundTurnsStay, RoundsStay, TurnsAreCertain, TurnsStayCertain};
ghost use Rattle.room_run.specs.Causal.{RunsAreCausal, TracesAreCausal};
ghost use Rattle.room_run.specs.Turns.{EventTurns, EventsAreRefused, EventsHappen, EventsKeepComplete, EventsKeepRounds, NoneAfterStop};
ghost use Rattle.room_run.specs.Turns.{RoundTurns, RoundTurnsBegin, RoundsAreCounted, RoundsBringOn, RoundsHappen, RunsAreTold, SameOutcomesAreOne};
ghost use Rattle.room_run.specs.Turns.{ObjectsSay, SchedulesGoOn, TextsBeginSo, TracesSay, TurnsAreOne};

/// A run has one trace, and one count of its rounds and refused events.
pub fn one_trace()
    ensures { OneTrace }
{}

/// A run writes one text, whether its trace or its line in a format, and has one count of its rounds and refused
/// events.
pub fn one_run_text()
    ensures { OneRunText }
{}

/// The texts of a topology and a script have one text of their line in each format, and one count of its rounds and refused
/// events.
pub fn texts_have_one_line()
    ensures { TextsHaveOneLine }
{}

/// The texts of a topology and a script have one trace, and one count of what it reports.
pub fn texts_have_one_trace()
    ensures { TextsHaveOneTrace }
{}

/// The texts of a topology and a script have one text of the objects of their trace, with those of the room and without, and one count
/// of what it reports.
pub fn texts_have_one_text_of_objects()
    ensures { TextsHaveOneTextOfObjects }
{}

/// A topology and a script that are accepted, with an EDID that is none or is read, have such a text.
pub fn texts_have_objects()
    ensures { TextsHaveObjects }
{}

/// The objects of a trace are those of its lines, one for one, after those of the room.
pub fn objects_are_of_the_trace()
    ensures { ObjectsAreOfTheTrace }
{}

/// The readings of a run's whole line, cut at the script's end or the last close, whichever is later, are those
/// of its rounds, in order, each once.
pub fn runs_are_read()
    ensures { RunsAreRead }
{}

/// The line of a run, in a format, is the text of its rounds' lines, in order, between what stands first and last, and ends
/// at the script's end or the last close, whichever is later; the readings of that line, cut there, are those of the run's
/// rounds, in order, each once.
pub fn lines_are_of_the_rounds()
    ensures { LinesAreOfTheRounds }
{}

/// The edge file of a run has the edges of its whole line, and ends at the script's end or the last close, whichever
/// is later; the readings of that line, cut there, are those of the run's rounds, in order, each once.
pub fn edges_are_the_line()
    ensures { EdgesAreTheLine }
{}

/// A run ends: it has at most one round for each 7,200 microseconds before the script's end, and one more for each pulse and pull.
pub fn runs_are_short()
    ensures { RunsAreShort }
{}

/// A run is one run, whatever is told of it: its trace and its line in any format have as many turns, one last state,
/// one count of rounds and refused events, and the same rounds, in order.
pub fn one_run()
    ensures { OneRun }
{}

/// The trace and the line, in any format, of a topology and a script have the same counts, and tell the same rounds, in order.
pub fn texts_have_one_run()
    ensures { TextsHaveOneRun }
{}

/// The last round of a run closes by each instant that is the longest round without pulls after the script's end, or later, and by
/// which each pull is over that began until then.
pub fn runs_close_soon()
    ensures { RunsCloseSoon }
{}

/// A run has a trace, and a text of its line in each format: each of its rounds has an outcome, and it stops.
pub fn runs_have_texts()
    ensures { RunsHaveTexts }
{}

/// A topology and a script that are accepted have a trace, and a text of their line in each format. With
/// [`texts_have_one_trace`] and [`texts_have_one_line`] they have one of each.
pub fn texts_have_traces()
    ensures { TextsHaveTraces }
{}

/// A trace is what the start reports, then what is reported of each event and the line of each round, in order, and then
/// what the end reports.
pub fn traces_have_parts()
    ensures { TracesHaveParts }
{}

/// Turns that are over before an instant are turns of each run that may still come, whatever comes for that instant or
/// later.
pub fn turns_are_certain()
    ensures { TurnsAreCertain }
{}

/// They are over before each later instant too, with whatever has come by then.
pub fn turns_stay_certain()
    ensures { TurnsStayCertain }
{}

/// What they report is the front of what each such run reports in the end.
pub fn reported_is_front()
    ensures { ReportedIsFront }
{}

/// All turns that are over before an instant tell one text, and lead to one place.
pub fn all_before_is_one()
    ensures { AllBeforeIsOne }
{}

/// Runs that know the same before an instant begin with one text, that of all turns that are over before it.
pub fn runs_are_causal()
    ensures { RunsAreCausal }
{}

/// What the trace of a topology and a script has before an instant depends on what the script says before that instant alone.
pub fn traces_are_causal()
    ensures { TracesAreCausal }
{}

/// What the texts of a topology and a script spell fits a run: its pulses and pulls begin and end within the limits of runs, and
/// there is a device. A trace of the texts is a trace of that run.
pub fn accepted_texts_fit_runs()
    ensures early { ScriptsBeginEarly }
    ensures ends { ScriptsEndEarly }
    ensures device { TopologiesHaveDevices }
    ensures trace { TextsAreOfOneRun }
{}

/// A round's turn begins at the next start, before the end, and brings the rest and the close on. After an event's turn the
/// events that are left are in order.
pub fn turns_bring_on()
    ensures begins { RoundTurnsBegin }
    ensures brings { RoundsBringOn }
    ensures left { SchedulesGoOn }
{}

/// An event counts no round, and one refused event at most. A round counts itself, and itself as complete at most.
pub fn totals_count_turns()
    ensures rounds { EventsKeepRounds }
    ensures complete { EventsKeepComplete }
    ensures refused { EventsAreRefused }
    ensures counts { RoundsAreCounted }
{}

/// What the calls report of an event or a round is what happens in that turn, and a turn of the run that reports a text.
pub fn calls_are_turns()
    ensures event { EventsHappen }
    ensures round { RoundsHappen }
    ensures event_turn { EventTurns }
    ensures round_turn { RoundTurns }
{}

/// Outcomes that report the same are one, and a turn reports one text and leads to one place. No turn comes where the run stops,
/// and none that is over before an instant comes where what is next is not over before it.
pub fn turns_are_one()
    ensures outcome { SameOutcomesAreOne }
    ensures turn { TurnsAreOne }
    ensures none { NoneAfterStop }
    ensures held { NoneAfterHeld }
{}

/// What the turns so far report is the front of each text of the run, and where the run stops it is that text but for what stands
/// last. What is said of each turn in a trace is what is reported of it, and so is each object of it.
pub fn turns_tell_the_text()
    ensures front { TextsBeginSo }
    ensures told { RunsAreTold }
    ensures trace { TracesSay }
    ensures objects { ObjectsSay }
{}

/// A pulse that begins once a round has closed pulls nothing in it: the round stays the same whatever comes then or later, and so
/// does the turn that it is.
pub fn rounds_stay()
    ensures late { LatePulsesDoNotPull }
    ensures round { RoundsStay }
    ensures turn { RoundTurnsStay }
{}

/// A reporter that adds a text of each turn, by something that stays, has added the texts of the turns, one after another.
pub fn turns_are_added<R, K>()
    ensures { TurnsAreAdded R K }
{}
