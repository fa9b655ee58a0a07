//! Laws of whole sessions.
ghost use Rattle.live_session.specs.EdgesStay.{EdgesStay, PinnedEdgesStay};
ghost use Rattle.live_session.specs.Session.{StepsHaveOneText};
ghost use Rattle.live_session.specs.Told.{EdgesAreCertain, EdgesAreTold, LineEdgesAreCertain};
ghost use Rattle.live_session.specs.Whole.{SessionsReportFronts, SessionsReportTraces, SessionsReportTracesOf};

use line_rounds::rounds_are_lone;
use room_net::{rounds_take_pulses, runs_are_in_order, runs_are_waves};
use room_run::{edges_are_the_line, one_run, runs_have_texts};

/// A step that a line asks for has one text that is due, and leads to one session.
pub fn steps_have_one_text()
    ensures { StepsHaveOneText }
{}

/// While a session goes on, what its lines have reported, without the answers, is the front of the trace of every run that may
/// still come of the lines that were taken, or of the objects of that trace.
pub fn sessions_report_fronts()
    ensures { SessionsReportFronts }
{}

/// Once it has ended, that is the trace of the lines that were taken, or the objects of that trace.
pub fn sessions_report_traces()
    ensures { SessionsReportTraces }
{}

/// The edges of the round that is on which lie before the horizon are edges of that round in every run that may still come, all that
/// it has before the horizon.
pub fn edges_stay()
    ensures { EdgesStay }
{}

/// So they are while the pin is low, where it goes low within the round's reading, however long it is.
pub fn pinned_edges_stay()
    ensures { PinnedEdgesStay }
{}

/// What a session has reported is the trace that its topology has with its script, or the objects of that trace, with the lines that
/// were refused and the session's own ones emptied.
pub fn sessions_report_traces_of()
    ensures { SessionsReportTracesOf }
{}

/// The edges that a session has told, where edges are on and the pin is high after each of its lines, are the first of the edge file of
/// every run that may still come of the lines that were taken: all that lie before the horizon, and no other. So it is from any line
/// on, of the edges from the horizon before it. Once the script has ended they are all that the edge file of its run has from there on.
/// The edges that a line tells, whether the pin is high or low after it, are those of the edge file of every run that may still come
/// from the horizon before the line to the one after it.
pub fn edges_are_certain()
    ensures certain { EdgesAreCertain }
    ensures told { EdgesAreTold }
    ensures line { LineEdgesAreCertain }
{
    rounds_are_lone();
    runs_are_waves();
    runs_are_in_order();
    rounds_take_pulses();
    one_run();
    runs_have_texts();
    edges_are_the_line();
}
