//! Laws of captures that begin in the middle of a frame.
ghost use Rattle.std.specs.Prelude.{◌||◌, ◌++◌, ◌≡◌, ◌≤◌, ◌+◌, Bool, List, None, Option, Some, [], false, map, ℕ};
ghost use Rattle.line_reading.specs.Readings.{Listed};
ghost use Rattle.line_wave.specs.Line.{Line};
ghost use Rattle.audit_notes.specs.Lines.{AuditLine};
ghost use Rattle.capture_join.specs.Joined.{HeldReadingsAreOneLine, IsFoundBefore, IsJoined, LinesAreIdleFirstOnce, has_begun, joined_lines, lines_from};

/// A line is first idle at one instant.
pub fn a_line_is_idle_first_once()
    ensures { LinesAreIdleFirstOnce }
{}

/// What is found of a line, whatever comes of it later.
/// - `known`: the instant that is found before an instant is that of each line that goes on so;
/// - `later`: where none was found up to an instant, one that is found later is no sooner than the microsecond before;
/// - `last`: nor is that of the whole line.
pub fn what_is_found_stays_first()
    ensures known { (low : Line) (n end t : ℕ) → IsFoundBefore low n (Some t) → n ≤ end + 1 → IsJoined low end t }
    ensures later { (low : Line) (n k t : ℕ) → IsFoundBefore low n None → IsFoundBefore low k (Some t) → n ≤ t + 1 }
    ensures last { (low : Line) (n end t : ℕ) → IsFoundBefore low n None → n ≤ end + 1 → IsJoined low end t → n ≤ t + 1 }
{}

/// Readings after readings.
/// - `lines`: the lines of both are those of the first, and then those of the second, of which it is known whether one was joined before;
/// - `begun`: one of both is joined where one of the first or of the second is;
/// - `none_begun`, `none_lines`: of none nothing is;
/// - `all`: where no instant is waited for each stands by itself.
pub fn lines_of_readings_go_on()
    ensures lines { (start : Option ℕ) (b : Bool) (xs ys : List Listed) → lines_from start b (xs ++ ys) ≡ lines_from start b xs ++ lines_from start (b || has_begun start xs) ys }
    ensures begun { (start : Option ℕ) (xs ys : List Listed) → has_begun start (xs ++ ys) ≡ (has_begun start xs || has_begun start ys) }
    ensures none_begun { (start : Option ℕ) → has_begun start [] ≡ false }
    ensures none_lines { (start : Option ℕ) (b : Bool) → lines_from start b [] ≡ [] }
    ensures all { (b : Bool) (xs : List Listed) → joined_lines 0 b xs ≡ map AuditLine.Reading xs }
{}

/// Where each reading that has ended begins before the instant, their lines are the one that stands for them, if there is one.
pub fn readings_before_the_line_is_idle_are_one_line()
    ensures { HeldReadingsAreOneLine }
{}
