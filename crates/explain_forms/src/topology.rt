//! What the words of a topology's line may have been meant for, and what stands in their way.
use crate::names::{add_name_meant, add_taken};
use explain_again::Spot;
use explain_lists::{Draft, word_at};
use explain_marks::{InputLine, is_event_word, is_line_end, is_script_verb, kind_of, ports_of};
use explain_near::{add_near, add_nearest, add_number, add_other, add_suggestion};
use room_script::TopologyCause;
use text_core::Kind;

/// The words with which lines of a topology begin, and the one between it and a script.
const TOPOLOGY_VERBS: &[&str] = &["device", "plug", "edid", "script"];

// What a name of a topology's line may have been meant for, by its line.
fn of_topology_name(draft: &mut Draft, spot: Spot<'_>, word: &str) {
    let place = spot.at.place;
    if place.line.starts_with(b"plug ") {
        add_name_meant(draft, spot, word);
    } else {
        add_taken(draft, place, word);
        add_spelling(draft, word);
    }
}

// What is wrong with a name that is no name.
fn add_spelling(draft: &mut Draft, word: &str) {
    let begins_so = matches!(word.as_bytes(), [first, ..] if first.is_ascii_lowercase());
    let count = word.len();
    if count > 14 {
        writeln!(
            draft,
            "  a name has at most 14 characters, and this one {count}"
        );
    } else if !begins_so {
        draft.add_line("a name begins with a letter in lower case");
    } else if !word.bytes().all(is_of_name) {
        draft.add_line("a name has letters in lower case, digits and `-` alone");
    }
}

fn is_of_name(byte: u8) -> bool {
    byte.is_ascii_lowercase() || byte.is_ascii_digit() || byte == b'-'
}

// The kind that a word may have been meant for: one that is near, or one that is called so elsewhere.
fn add_nearest_kind(draft: &mut Draft, spot: Spot<'_>, word: &str) {
    for kind in Kind::ALL {
        if add_near(draft, spot, kind.word(), word) {
            return;
        }
    }
    let _ = add_other(draft, spot, word);
}

// What the first word of a topology's line may have been meant for: one with which such a line begins, or a line of the script.
fn of_topology_verb(draft: &mut Draft, spot: Spot<'_>, word: &str) {
    if is_script_verb(word) || matches!(word, "label" | "expect") {
        draft.add_line("this line is one of a script, which stands below the line `script`");
    } else if is_event_word(word) {
        writeln!(
            draft,
            "  `{word}` is an event of a script, below the line `script`: `at T {word} ..`"
        );
    } else if Kind::named(word.as_bytes()).is_some() {
        draft.add_line("`device` and NAME stand before KIND, as `device tv tv 4`");
    } else {
        let _ = add_nearest(draft, spot, TOPOLOGY_VERBS, word) || add_other(draft, spot, word);
    }
}

// What a word of a topology that may not stand there may have been meant for, by its number in the line.
fn of_topology_word(draft: &mut Draft, spot: Spot<'_>, word: &str) {
    match spot.word {
        0 => of_topology_verb(draft, spot, word),
        2 => add_nearest_kind(draft, spot, word),
        _ => {}
    }
}

// The PORTS of a device of a topology.
fn add_ports(draft: &mut Draft, place: InputLine<'_>, name: &str) {
    match ports_of(place, name) {
        Some("0") => draft.add_all(&["  `", name, "` has no ports\n"]),
        Some(ports) => draft.add_all(&["  `", name, "` has the ports 1 to ", ports, "\n"]),
        None => {}
    }
}

// The line above that plugs into a port, with its number.
fn add_plugged(draft: &mut Draft, place: InputLine<'_>, parent: &str, port: &str) {
    let above = place.number.saturating_sub(1);
    let mut number = 0usize;
    for line in place.input.split(is_line_end).take(above) {
        number = number.saturating_add(1);
        let line = str::from_utf8(line).unwrap_or("");
        if word_at(line, 0) == Some("plug")
            && word_at(line, 2) == Some(parent)
            && word_at(line, 3) == Some(port)
        {
            let child = word_at(line, 1).unwrap_or("");
            writeln!(draft, "  line {number} plugs `{child}` in there");
        }
    }
}

// The line above that plugs a device in, or that it is the television.
fn add_not_loose(draft: &mut Draft, place: InputLine<'_>, child: &str) {
    if kind_of(place, child) == Some("tv") {
        return draft.add_all(&["  `", child, "` is the root: it is in no port\n"]);
    }
    let above = place.number.saturating_sub(1);
    let mut number = 0usize;
    for line in place.input.split(is_line_end).take(above) {
        number = number.saturating_add(1);
        let line = str::from_utf8(line).unwrap_or("");
        if word_at(line, 0) == Some("plug") && word_at(line, 1) == Some(child) {
            writeln!(draft, "  line {number} plugs `{child}` in already");
        }
    }
}

// What is wrong with digits of an EDID.
fn add_digits(draft: &mut Draft, word: &str) {
    let count = word.len();
    if word.starts_with("0x") {
        draft.add_line("the digits of HEX stand without `0x`");
    } else if !word.bytes().all(|byte| byte.is_ascii_hexdigit()) {
        draft.add_line("HEX has digits 0 to 9 and a to f alone");
    } else if count % 2 == 1 {
        writeln!(draft, "  HEX has {count} digits, which is no even count");
    }
}

// What stands in the way of a line that plugs a device in.
fn of_plug(draft: &mut Draft, place: InputLine<'_>, cause: TopologyCause, line: &str) {
    let (Some(child), Some(parent), Some(port)) = (
        word_at(line, 1),
        word_at(line, 2),
        word_at(line, 3),
    ) else {
        return;
    };
    match cause {
        TopologyCause::PortRange => add_ports(draft, place, parent),
        TopologyCause::PortTaken => add_plugged(draft, place, parent, port),
        TopologyCause::NotLoose => add_not_loose(draft, place, child),
        _ => {}
    }
}

// A port that is named by letters and a number.
fn add_port_number(draft: &mut Draft, spot: Spot<'_>, word: &str) {
    let digits = word.trim_start_matches(|c: char| c.is_ascii_alphabetic());
    if digits.len() < word.len() && !digits.is_empty() {
        let _ = add_suggestion(draft, spot, digits, word);
    } else {
        add_number(draft, spot, word);
    }
}

/// What a word of a topology may have been meant for.
pub fn add_topology_meant(draft: &mut Draft, cause: TopologyCause, spot: Spot<'_>) {
    let word = spot.text();
    match cause {
        TopologyCause::Name => of_topology_name(draft, spot, word),
        TopologyCause::Number => add_port_number(draft, spot, word),
        TopologyCause::Word => of_topology_word(draft, spot, word),
        TopologyCause::PortRange | TopologyCause::PortTaken | TopologyCause::NotLoose => {
            of_plug(draft, spot.at.place, cause, spot.at.text);
        }
        TopologyCause::Hex => add_digits(draft, word),
        TopologyCause::Full
        | TopologyCause::SecondRoot
        | TopologyCause::NoRoot
        | TopologyCause::Loop => {}
    }
}
