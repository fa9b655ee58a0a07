//! Which line of a script is earlier than which.
use explain_lists::Draft;
use explain_marks::{InputLine, is_line_end, without_label};
use room_lines::{SCRIPT, ScriptVerb};
use text_forms::read_line;

/// What a line of a script does: from one instant to another, where it pulls, and whether the pin is low from then on.
#[derive(Clone, Copy)]
struct Done {
    verb: ScriptVerb,
    from: u64,
    to: u64,
    is_low: bool,
}

/// A line of a script with its number.
#[derive(Clone, Copy)]
struct Earlier {
    number: usize,
    done: Done,
}

// What a line does, where it is one of a script, and not its end.
fn done_by(line: &[u8]) -> Option<Done> {
    let text = without_label(str::from_utf8(line).ok()?).line;
    let Ok(line) = read_line(SCRIPT, text.as_bytes()) else {
        return None;
    };
    let from = line.late_time(1)?;
    match line.verb {
        ScriptVerb::End => None,
        verb => Some(Done {
            verb,
            from,
            to: from.saturating_add(line.number(2)),
            is_low: matches!(verb, ScriptVerb::Pin) && !line.level(2),
        }),
    }
}

// Whether it is an event: pulses, pulls and the pin are in an order of their own.
fn is_event(done: Done) -> bool {
    !matches!(
        done.verb,
        ScriptVerb::Pulse | ScriptVerb::Pull | ScriptVerb::Pin
    )
}

// The last line of the script before one that does something of its kind.
fn last_before(place: InputLine<'_>, of_events: bool) -> Option<Earlier> {
    let mut last = None;
    let mut number = 0usize;
    let above = place.number.saturating_sub(1);
    for line in place.input.split(is_line_end).take(above) {
        number = number.saturating_add(1);
        if number > place.before {
            match done_by(line) {
                Some(done) if is_event(done) == of_events => last = Some(Earlier { number, done }),
                _ => {}
            }
        }
    }
    last
}

// Of the pin that changes by the end of what is low above, or before it went low.
fn add_earlier_level(draft: &mut Draft, number: usize, instant: u64, last: Earlier) {
    let (above, end) = (last.number, last.done.to);
    if last.done.is_low {
        writeln!(
            draft,
            "  the pin of line {number} of the input changes at {instant}, and by line {above} it is low from {end} on"
        );
    } else {
        writeln!(
            draft,
            "  the pin of line {number} of the input changes at {instant}, and what line {above} pulls low ends at {end}"
        );
    }
}

// Of a pulse that begins before the last one above ends, or a pull that does not begin after that end.
fn add_earlier_low(draft: &mut Draft, number: usize, done: Done, last: Earlier) {
    let (instant, above, end) = (done.from, last.number, last.done.to);
    if last.done.is_low {
        writeln!(
            draft,
            "  by line {above} of the input the pin is low from {end} on, and a line `pin T 1` lets it go"
        );
    } else if matches!(done.verb, ScriptVerb::Pulse) {
        writeln!(
            draft,
            "  the pulse of line {number} of the input begins at {instant}, before that of line {above} ends, at {end}"
        );
    } else {
        writeln!(
            draft,
            "  the pull of line {number} of the input begins at {instant}, and what line {above} pulls low ends at {end}"
        );
    }
}

/// Says which line's time is earlier than which, of a line of a script that is out of order.
pub fn add_order(draft: &mut Draft, place: InputLine<'_>) {
    let number = place.number;
    let Some(done) = done_by(place.line) else {
        return;
    };
    let Some(last) = last_before(place, is_event(done)) else {
        return;
    };
    match done.verb {
        ScriptVerb::Pin => add_earlier_level(draft, number, done.from, last),
        ScriptVerb::Pulse | ScriptVerb::Pull => add_earlier_low(draft, number, done, last),
        _ => writeln!(
            draft,
            "  the time of line {number} of the input, {}, is before that of line {}, {}",
            done.from, last.number, last.done.from
        ),
    }
}
