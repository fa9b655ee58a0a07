//! The lines that each input has. Those of topologies, scripts, sessions, steps and expectations are the rows of their tables.
use crate::form::{Expected, Lines};
use room_lines::SCRIPT as SCRIPT_ROWS;
use text_forms::Slot;

// The line between a topology and a script.
const PARTING: &[&str] = &["script"];

// A label before a line.
const LABEL: &[&str] = &["label NAME LINE"];

/// The words with which events are refused.
pub const REFUSALS: &[&str] = &[
    "port-range",
    "port-taken",
    "not-loose",
    "loop",
    "not-plugged",
    "not-for-kind",
    "off-wire",
    "queue-full",
    "own-address",
    "no-address",
];

/// The kinds of remarks.
pub const REMARKS: &[&str] = &[
    "no-answer",
    "late-answer",
    "free",
    "start-low",
    "start-total",
    "bit-low",
    "bit-total",
    "low-drive",
    "drive-within",
    "unfinished",
    "too-many-attempts",
    "goes-on",
    "stops",
    "lone-start",
    "receivers",
    "operands",
];

// What expectations of a capture have alone. No event is refused there, and there are no devices whose states it has.
const OF_CAPTURES: &[&str] = &["expect remark PATTERN", "label NAME at T"];

// The lines of frames to lay.
const OF_LAID: &[&str] = &[
    "T FRAME",
    "T eom BLOCK BIT FRAME",
    "T bit SLOT LOW TOTAL FRAME",
    "T start LOW TOTAL FRAME",
    "T last SLOT FRAME",
    "T drive SLOT FRAME",
    "T glitch SLOT AFTER LOW FRAME",
];

/// The lines of a topology.
pub const TOPOLOGY: &[Lines] = &[Lines::Topology];

/// The lines of a script.
pub const SCRIPT: &[Lines] = &[Lines::Script];

/// The lines of a session after the line `script`.
pub const SESSION: &[Lines] = &[Lines::Script, Lines::Session];

/// The lines that a session has besides those of a script.
pub const SESSION_ALONE: &[Lines] = &[Lines::Session];

/// The lines of a topology and a script, and the one between them.
pub const NETWORK: &[Lines] = &[Lines::Topology, Lines::Texts(PARTING), Lines::Script];

/// The lines of the script of a test: those of a script, with a label before them or not, and expectations.
pub const TEST: &[Lines] = &[
    Lines::Script,
    Lines::Texts(LABEL),
    Lines::Expect(Expected::Rounds),
    Lines::Expect(Expected::OfRuns),
    Lines::Expect(Expected::Remarks),
];

/// The lines of expectations, and the line of a label.
pub const EXPECTATIONS: &[Lines] = &[
    Lines::Expect(Expected::Rounds),
    Lines::Expect(Expected::Counts),
    Lines::Expect(Expected::OfRuns),
    Lines::Expect(Expected::Remarks),
    Lines::Texts(LABEL),
];

/// The lines of the expectations of a capture.
pub const CAPTURE_EXPECTATIONS: &[Lines] = &[
    Lines::Expect(Expected::Rounds),
    Lines::Expect(Expected::Counts),
    Lines::Expect(Expected::Remarks),
    Lines::Texts(OF_CAPTURES),
    Lines::Texts(LABEL),
];

/// The lines of frames to lay.
pub const LAID: &[Lines] = &[Lines::Texts(OF_LAID)];

/// The steps.
pub const STEPS: &[Lines] = &[Lines::Steps];

// Whether a place of a form has this word itself.
fn is_own(place: (Slot, &str), word: &str) -> bool {
    place.0 == Slot::Word && place.1 == word
}

fn is_first(form: &[(Slot, &str)], word: &str) -> bool {
    match form {
        [place, _others @ ..] => is_own(*place, word),
        _ => false,
    }
}

fn is_third(form: &[(Slot, &str)], word: &str) -> bool {
    match form {
        [_at, _time, place, _others @ ..] => is_own(*place, word),
        _ => false,
    }
}

/// Whether a line of a script begins with this word.
pub fn is_script_verb(word: &str) -> bool {
    for row in SCRIPT_ROWS {
        if is_first(row.1, word) {
            return true;
        }
    }
    false
}

/// Whether an event of a script has this word after its time.
pub fn is_event_word(word: &str) -> bool {
    for row in SCRIPT_ROWS {
        if is_third(row.1, word) {
            return true;
        }
    }
    false
}
