//! Laws of captures that come line by line.
ghost use Rattle.std.specs.Prelude.{◌++◌, ◌≡◌, Bool, Err, List, Ok, Result, [], false, ℕ};
ghost use Rattle.text_core.specs.declared.at.At.{At};
ghost use Rattle.line_wave.specs.declared.Edge.{Edge};
ghost use Rattle.capture_core.specs.Edges.{AreInTurn, Captured, EndBy};
ghost use Rattle.capture_core.specs.Reading.{with_edges};
ghost use Rattle.capture_core.specs.declared.fault.Cause.{Cause};
ghost use Rattle.capture_csv.specs.Sampling.{CsvLinesGoOn};
ghost use Rattle.capture_monitor.specs.EdgeFile.{EdgeLinesGoOn};
ghost use Rattle.capture_pin.specs.Sampling.{PinLinesGoOn};
ghost use Rattle.follow_core.specs.Follow.{LongLinesAreTooMuch};
ghost use Rattle.capture_through.specs.Through.{AreFrom};
ghost use Rattle.follow_core.specs.Follow.{received, received_of};
ghost use Rattle.follow_core.specs.Passing.{edges_in, made_read, passing_left};
ghost use Rattle.follow_core.specs.Teller.{IsTold, TellsPassed, ToldComeFirst, listed_pair};
ghost use Rattle.follow_core.specs.declared.lines.LineForm.{LineForm};
ghost use Rattle.follow_core.specs.declared.passing.PassedEdges.{PassedEdges};
ghost use Rattle.follow_core.specs.declared.passing.PassingLines.{PassingLines};
ghost use Rattle.follow_core.specs.declared.reception.Reception.{Reception};
ghost use Rattle.follow_core.specs.declared.teller.PassedReadings.{PassedReadings};
ghost use Rattle.follow_core.specs.declared.teller.Teller.{Teller};
ghost use Rattle.line_reading.specs.Readings.{Listed};
ghost use Rattle.line_reading.specs.declared.times.Windows.{Windows};
ghost use Rattle.line_wave.specs.Line.{Line};

/// Edges that were read before what is left of a capture.
/// - `none`: none of them leave what is left as it is;
/// - `joined`: some before others are both, one after another;
/// - `split`: a capture that begins with them is read where what is left is, and is them and then that.
pub fn edges_come_before_what_is_left()
    ensures none { (r : Result Captured (At Cause)) → r ≡ with_edges [] r }
    ensures joined { (a b : List Edge) (r : Result Captured (At Cause)) → with_edges a (with_edges b r) ≡ with_edges (a ++ b) r }
    ensures split { (edges : List Edge) (r : Result Captured (At Cause)) (c : Captured) → with_edges edges r ≡ Ok c
        → (d : Captured) × (r ≡ Ok d) × (c ≡ record { edges = edges ++ d.edges; end = d.end }) }
{}

/// What the lines of a capture leave to be read.
/// - `turn`: the edges that come of a capture are in turn from a fall on, and by its end;
/// - `ended`: where no line is left, no signal has to be named.
pub fn lines_leave_a_capture_in_turn()
    ensures turn { (file : EdgeLinesGoOn) (pin : PinLinesGoOn) (csv : CsvLinesGoOn) (how : Reception) (form : LineForm) (signal : List ℕ) (lines : List (List ℕ)) (c : Captured)
        → received_of how form signal lines ≡ Ok c → AreInTurn false 0 c.edges × EndBy c.end c.edges }
    ensures ended { (signal : List ℕ) (p : PassingLines) (number : ℕ) → passing_left signal p number [] ≡ passing_left [] p number [] }
{}

/// What is made of a capture that is read.
/// - `whole`: a capture is made of one that is read;
/// - `fault`: a fault is that of the lines.
pub fn what_is_made_was_read()
    ensures whole { (how : Reception) (r : Result Captured (At Cause)) (c : Captured) → made_read how.inverted how.glitch r ≡ Ok c
        → (d : Captured) × (r ≡ Ok d) × (c ≡ received how d) }
    ensures fault { (how : Reception) (r : Result Captured (At Cause)) (fault : At Cause) → made_read how.inverted how.glitch r ≡ Err fault → r ≡ Err fault }
{}

/// What a teller is told of the edges that come of a line.
/// - `passed`: the readings that have ended are those by its own edge, and then those as none comes before an instant;
/// - `calm`: edges in turn of which none comes before an instant are in turn from there on.
pub fn edges_of_a_line_are_told()
    ensures passed { (windows : Windows) (old mid new : Teller) (passed : PassedEdges) (one two : PassedReadings) → TellsPassed old passed.by_edge one mid → TellsPassed mid passed.by_calm two new
        → (low : Line) (left : List Edge) (end : ℕ) (ended : List Listed) → IsTold windows old low (edges_in passed ++ left) end ended
        → IsTold windows new low left end ((ended ++ listed_pair one) ++ listed_pair two) }
    ensures calm { (b : Bool) (from to : ℕ) (es : List Edge) → AreInTurn b from es → AreFrom to es → AreInTurn b to es }
{}

/// Where more bytes of a line have come than it may have, the line after those that came before is too long.
pub fn long_lines_are_too_much()
    ensures { LongLinesAreTooMuch }
{}

/// The readings that have ended of a line that is told as it comes are the first of those of the line.
pub fn told_readings_come_first()
    ensures { ToldComeFirst }
{}
