//! The devices that a name at fault could be.
use explain_again::{Spot, is_taken};
use explain_lists::Draft;
use explain_marks::{InputLine, declared_by, is_line_end};
use explain_near::{add_near, add_suggestion, is_near};
use std::alloc::AllocError;

/// Whether a line above declares a device of this name.
pub fn is_declared(place: InputLine<'_>, word: &str) -> bool {
    let above = place.number.saturating_sub(1);
    for line in place.input.split(is_line_end).take(above) {
        if declared_by(line) == Some(word) {
            return true;
        }
    }
    false
}

// What stands before a name of a list.
fn before_name(is_first: bool) -> &'static str {
    if is_first {
        "  the topology has `"
    } else {
        "`, `"
    }
}

/// The devices that the lines above declare.
pub fn add_declared(draft: &mut Draft, place: InputLine<'_>) {
    let above = place.number.saturating_sub(1);
    let mut is_first = true;
    for line in place.input.split(is_line_end).take(above) {
        if let Some(name) = declared_by(line) {
            draft.add(before_name(is_first));
            draft.add(name);
            is_first = false;
        }
    }
    if !is_first {
        draft.add("`\n");
    }
}

/// A name that a line above has given already.
pub fn add_taken(draft: &mut Draft, place: InputLine<'_>, word: &str) {
    if is_declared(place, word) {
        draft.add_all(&["  `", word, "` has a `device` line already\n"]);
    }
}

/// The first name of a device that a word may have been meant for. Returns whether there is one.
pub fn add_nearest_name(draft: &mut Draft, spot: Spot<'_>, word: &str) -> bool {
    let place = spot.at.place;
    let above = place.number.saturating_sub(1);
    for line in place.input.split(is_line_end).take(above) {
        if let Some(name) = declared_by(line) {
            if add_near(draft, spot, name, word) {
                return true;
            }
        }
    }
    false
}

/// The name of a device that a word may have been meant for, or else all of them.
pub fn add_name_meant(draft: &mut Draft, spot: Spot<'_>, word: &str) {
    if !add_nearest_name(draft, spot, word) {
        add_declared(draft, spot.at.place);
    }
}

// The first of the names in a header, each after an `@`, that no line above declares.
fn undeclared_in<'a>(place: InputLine<'_>, header: &'a str) -> Option<&'a str> {
    for part in header.split('>') {
        if let Some((_, name)) = part.split_once('@') {
            if !is_declared(place, name) {
                return Some(name);
            }
        }
    }
    None
}

// Whether a header is taken with a name in the place of another one, which stands after an `@`.
fn is_named_so(draft: &mut Draft, spot: Spot<'_>, header: &str, word: &str, name: &str) -> bool {
    let alloc = draft.alloc();
    let Ok(from) = format!(in alloc; "@{word}") else {
        draft.fail();
        return false;
    };
    let Some((before, after)) = header.rsplit_once(from.as_str()) else {
        return false;
    };
    match format!(in alloc; "{before}@{name}{after}") {
        Ok(text) => is_taken(draft, spot, header, text.as_str()),
        Err(AllocError) => {
            draft.fail();
            false
        }
    }
}

// The first name of a device that a name in a header may have been meant for. Returns whether there is one.
fn add_nearest_in_header(draft: &mut Draft, spot: Spot<'_>, header: &str, word: &str) -> bool {
    let place = spot.at.place;
    let above = place.number.saturating_sub(1);
    for line in place.input.split(is_line_end).take(above) {
        if let Some(name) = declared_by(line) {
            if is_near(draft, name, word) && is_named_so(draft, spot, header, word, name) {
                draft.add_all(&["  `", word, "`: did you mean `", name, "`?\n"]);
                return true;
            }
        }
    }
    false
}

/// What a name may have been meant for, or the first in a header that no line above declares.
pub fn add_header_name_meant(draft: &mut Draft, spot: Spot<'_>, word: &str) {
    match undeclared_in(spot.at.place, word) {
        Some(name) => {
            if !add_nearest_in_header(draft, spot, word, name) {
                add_declared(draft, spot.at.place);
            }
        }
        None => add_name_meant(draft, spot, word),
    }
}

// A part of a header as it is to stand there, and what is missing before it: a hex digit, `*` or the name of a device after an `@`.
fn part_meant<'a>(place: InputLine<'_>, part: &'a str) -> Option<(&'static str, &'a str)> {
    if matches!(part.as_bytes(), [b'0'..=b'9' | b'a'..=b'f' | b'*']) {
        return Some(("", part));
    }
    let name = part.strip_prefix("@").unwrap_or(part);
    if is_declared(place, name) {
        Some(("@", name))
    } else {
        None
    }
}

/// A header whose names have no `@`. Returns whether it is one.
pub fn add_named_header(draft: &mut Draft, spot: Spot<'_>, word: &str) -> bool {
    let place = spot.at.place;
    let Some((from, to)) = word.split_once('>') else {
        return false;
    };
    let Some((before_from, from)) = part_meant(place, from) else {
        return false;
    };
    let Some((before_to, to)) = part_meant(place, to) else {
        return false;
    };
    match format!(in draft.alloc(); "{before_from}{from}>{before_to}{to}") {
        Ok(header) => header.as_str() != word && add_suggestion(draft, spot, header.as_str(), word),
        Err(AllocError) => {
            draft.fail();
            false
        }
    }
}

/// A sender and a receiver of a frame in the place of the sender's name alone. Returns whether it is that.
pub fn add_sender(draft: &mut Draft, spot: Spot<'_>, word: &str) -> bool {
    let Some((from, to)) = word.split_once(">") else {
        return false;
    };
    match format!(in draft.alloc(); "{from} @{from}>@{to}") {
        Ok(text) => add_suggestion(draft, spot, text.as_str(), word),
        Err(AllocError) => {
            draft.fail();
            false
        }
    }
}
