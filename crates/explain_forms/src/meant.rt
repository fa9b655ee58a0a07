//! What the word at fault may have been meant for.
use crate::captures::add_row_meant;
use crate::expected::add_expected_meant;
use crate::frames::add_frame_meant;
use crate::keys::is_of_key;
use crate::labels::add_label;
use crate::names::{add_header_name_meant, add_name_meant, add_named_header, add_sender};
use crate::ranges::add_range;
use crate::repairs::add_repaired;
use crate::topology::add_topology_meant;
use crate::wanted::add_nearest_of;
use capture_forms::{CaptureForm, Cause};
use device_features::KeyWord;
use edid_text_lines::{LineContent, WORD_TEXTS, word_of};
use expect_text::ExpectCause;
use explain_again::{Spot, is_whole_line_read};
use explain_lists::{Draft, Gaps, word_at};
use explain_marks::{
    EXPECTATIONS, FaultyLine, Input, InputFault, LAID, NETWORK, SESSION, SESSION_ALONE, STEPS,
    gaps_of, is_event_word, is_number, is_script_verb, is_word, most_fitting,
};
use explain_near::{
    add_code, add_enclosed, add_exchanged, add_near, add_nearest, add_number, add_other,
    add_quotes, add_respelled, add_set_meant, add_suggestion, add_unit, add_value, bare, is_near,
};
use message_lay::LayCause;
use message_table::{WordSet, name};
use message_text::AssembleError;
use room_script::{ScriptCause, TopologyCause};
use std::alloc::AllocError;
use text_core::At;

/// The latest time of a capture, in microseconds.
const LATEST_INSTANT: u64 = 2_000_000_000_000;

// The first word of a key that a word may have been meant for: one that is near, or one that is called so elsewhere.
fn add_nearest_key(draft: &mut Draft, spot: Spot<'_>, word: &str) {
    for key in KeyWord::ALL {
        if add_near(draft, spot, key.text(), word) {
            return;
        }
    }
    let _ = add_other(draft, spot, word);
}

// What a word of a key may have been meant for, by the key's first word and its own number in the line.
fn of_key(draft: &mut Draft, spot: Spot<'_>, word: &str) {
    match (word_at(spot.at.text, 4), spot.word) {
        (_, 4) => add_nearest_key(draft, spot, word),
        (Some("remote"), 6) => {
            let _ = add_set_meant(draft, spot, WordSet::UserControl, word);
        }
        (Some("audio" | "arc"), 5) => {
            let _ = add_set_meant(draft, spot, WordSet::OnOff, word);
        }
        _ => {}
    }
}

// Two logical addresses with another mark than `+` between them.
fn add_pair(draft: &mut Draft, spot: Spot<'_>, word: &str) {
    match word.as_bytes() {
        [first, b',' | b'/' | b'&' | b'-', second]
            if first.is_ascii_hexdigit() && second.is_ascii_hexdigit() && first != second => {
            let (first, second) = (char::from(*first), char::from(*second));
            match format!(in draft.alloc(); "{first}+{second}") {
                Ok(pair) => {
                    let _ = add_suggestion(draft, spot, pair.as_str(), word);
                }
                Err(AllocError) => draft.fail(),
            }
        }
        _ => {}
    }
}

// What the ADDRS of `hold` may have been meant for.
fn of_addresses(draft: &mut Draft, spot: Spot<'_>, word: &str) {
    if !add_other(draft, spot, word) && !add_exchanged(draft, spot.moved_to(3)) {
        add_pair(draft, spot, word);
    }
}

// What a word with which a script's line or its event begins may have been meant for.
fn add_nearest_verb(draft: &mut Draft, spot: Spot<'_>, word: &str) {
    let is_test = spot.at.what == Input::Test;
    let lines = if spot.at.what == Input::Session {
        SESSION
    } else {
        NETWORK
    };
    let _ = add_nearest_of(draft, spot, lines, word)
        || is_test && add_nearest_of(draft, spot, EXPECTATIONS, word)
        || add_other(draft, spot, word);
}

// A time with which a line begins, where `at` is missing before it, or an event without both. Returns whether it is one.
fn add_at(draft: &mut Draft, spot: Spot<'_>, word: &str) -> bool {
    let time = bare(word).trim_start_matches(|c: char| c == '@');
    if is_number(word, u64::MAX) {
        draft.add_line("`at` is missing before T");
        true
    } else if is_number(time, u64::MAX) {
        add_enclosed(draft, spot, "at ", time, "", word)
    } else if is_event_word(word) {
        draft.add_all(&["  `at T` is missing before `", word, "`\n"]);
        true
    } else {
        false
    }
}

// What a word may have been meant for with which no line of a script begins.
fn of_script_verb(draft: &mut Draft, spot: Spot<'_>, word: &str) {
    let is_session = spot.at.what == Input::Session;
    if add_at(draft, spot, word) {
        // What is missing is said.
    } else if word == "script" {
        draft.add_line("a line `script` stands above already");
    } else if !is_session && most_fitting(SESSION_ALONE, spot.at.text) > 0 {
        draft.add_all(&["  `", word, "` begins a line of `hdminet live` alone\n"]);
    } else if !is_session && word == "sleep" {
        draft.add_line("nothing waits: each event has its time, `at T`");
    } else if !add_label(draft, spot, word) {
        add_nearest_verb(draft, spot, word);
    }
}

// What a word that a script's line may not have there may have been meant for.
fn of_script_word(draft: &mut Draft, spot: Spot<'_>, word: &str) {
    let (line, number) = (spot.at.text, spot.word);
    if number == 4 && is_word(line, 2, "hold") {
        return of_addresses(draft, spot, word);
    }
    if is_of_key(line, number) {
        return of_key(draft, spot, word);
    }
    if number == 0 {
        of_script_verb(draft, spot, word);
    } else if number == 2 && is_script_verb(word) {
        draft.add_all(&[
            "  `",
            word,
            "` stands first in its line: `",
            word,
            " T ..`\n",
        ]);
    } else if number == 2 || spot.at.what == Input::Session {
        add_nearest_verb(draft, spot, word);
    }
}

// What a number of a script may have been meant for: of a pin its level.
fn of_script_number(draft: &mut Draft, spot: Spot<'_>, word: &str) {
    if spot.word == 2 && is_word(spot.at.text, 0, "pin") {
        let _ = add_exchanged(draft, spot.moved_to(1)) || add_other(draft, spot, word);
    } else if !add_range(draft, spot, word, spot.word == 1) {
        add_number(draft, spot, word);
    }
}

// What a name of a script may have been meant for: a word, or one in the header of a frame.
fn of_script_name(draft: &mut Draft, spot: Spot<'_>, word: &str) {
    let (line, number) = (spot.at.text, spot.word);
    let is_send = is_word(line, 2, "send");
    if number >= 4 && is_send {
        add_header_name_meant(draft, spot, word);
    } else if is_send && add_sender(draft, spot, word) {
        // Its sender stands before a header.
    } else if number != 3 || !is_word(line, 2, "hold") || !add_exchanged(draft, spot) {
        add_name_meant(draft, spot, word);
    }
}

// What the frame of a script may have been meant for.
fn of_script_frame(draft: &mut Draft, cause: AssembleError, spot: Spot<'_>) {
    let word = spot.text();
    let is_said = cause == AssembleError::Address
        && (add_named_header(draft, spot, word) || add_other(draft, spot, word));
    if !is_said {
        add_frame_meant(draft, cause, spot);
    }
}

// What a word of a script may have been meant for, by its number in the line without a label.
fn of_script(draft: &mut Draft, cause: ScriptCause, spot: Spot<'_>) {
    let word = spot.text();
    match cause {
        ScriptCause::Name => of_script_name(draft, spot, word),
        ScriptCause::Number => of_script_number(draft, spot, word),
        ScriptCause::Word => of_script_word(draft, spot, word),
        ScriptCause::Frame(cause) => of_script_frame(draft, cause, spot),
        ScriptCause::Hex
        | ScriptCause::Width
        | ScriptCause::Order
        | ScriptCause::Close
        | ScriptCause::TooMany
        | ScriptCause::End => {}
    }
}

// The digits of the opcode that has a name, or one that is near.
fn add_code_named(draft: &mut Draft, spot: Spot<'_>, word: &str) {
    for code in 0..=u8::MAX {
        if let Some(name) = name(code) {
            if (name == word || is_near(draft, name, word)) && add_code(draft, spot, code) {
                return;
            }
        }
    }
}

// The opcode that a word has been written for: by its name, after `0x` or before `h`, or in capitals.
fn add_opcode(draft: &mut Draft, spot: Spot<'_>) {
    let word = spot.text();
    let digits = word.strip_prefix("0x").unwrap_or(word);
    let digits = digits.strip_suffix("h").unwrap_or(digits);
    match u8::from_str_radix(digits, 16) {
        Ok(code) if digits.len() <= 2 => {
            let _ = add_code(draft, spot, code);
        }
        _ => add_code_named(draft, spot, word),
    }
}

// What a word of a step may have been meant for.
fn of_step(draft: &mut Draft, spot: Spot<'_>) {
    let (line, word, number) = (spot.at.text, spot.text(), spot.word);
    if number == 2 && is_word(line, 1, "opcode") {
        add_opcode(draft, spot);
    } else if is_word(line, 0, "show") && number == 1 || is_word(line, 1, "device") && number == 2 {
        add_name_meant(draft, spot, word);
    } else {
        let _ = add_nearest_of(draft, spot, STEPS, word) || add_other(draft, spot, word);
    }
}

// What the time of an edge may have been meant for.
fn of_edge_time(draft: &mut Draft, spot: Spot<'_>, word: &str) {
    if is_number(word, LATEST_INSTANT) {
        return;
    }
    if word.contains(",") {
        draft.add_line("T and what follows it stand one space apart");
    } else if word.eq_ignore_ascii_case("end") {
        draft.add_line("T stands before `end`");
    } else {
        add_number(draft, spot, word);
    }
}

// What a word of an edge may have been meant for, by its number in the line.
fn of_edge(draft: &mut Draft, spot: Spot<'_>) {
    let word = spot.text();
    if spot.word == 0 {
        return of_edge_time(draft, spot, word);
    }
    let _ = add_exchanged(draft, spot.moved_to(0)) || add_other(draft, spot, word);
}

// What a word of a captured line may have been meant for.
fn of_capture(draft: &mut Draft, form: CaptureForm, cause: Cause, spot: Spot<'_>) {
    match (form, cause) {
        (CaptureForm::Edges, Cause::Line) => of_edge(draft, spot),
        (CaptureForm::Csv, Cause::Word) => add_row_meant(draft, spot.at),
        _ => {}
    }
}

// LOW and TOTAL of a fault in the other order.
fn of_width(draft: &mut Draft, spot: Spot<'_>) {
    let low = match word_at(spot.at.text, 1) {
        Some("bit") => 3usize,
        Some("start") => 2,
        _ => return,
    };
    let _ = add_exchanged(draft, spot.moved_to(low));
}

// What a word of a frame to lay may have been meant for.
fn of_laid(draft: &mut Draft, cause: LayCause, spot: Spot<'_>) {
    let word = spot.text();
    match cause {
        LayCause::Number => add_number(draft, spot, word),
        LayCause::Frame(AssembleError::Address) if add_nearest_of(draft, spot, LAID, word) => {}
        LayCause::Frame(cause) => add_frame_meant(draft, cause, spot),
        LayCause::Width => of_width(draft, spot),
        LayCause::Word | LayCause::Blocks | LayCause::Slot | LayCause::Order | LayCause::Late => {}
    }
}

// What stands after the first word of a line of an EDID's text.
fn content_of(spot: Spot<'_>) -> LineContent {
    match word_of(spot.moved_to(0).text().as_bytes()) {
        Some(keyword) => keyword.form(),
        None => LineContent::Empty,
    }
}

// Whether a word of a line of an EDID's text is to be a decimal number. The last one of a timing is hex.
fn is_decimal(spot: Spot<'_>) -> bool {
    match content_of(spot) {
        LineContent::One | LineContent::Two | LineContent::Eight | LineContent::Unused => true,
        LineContent::Timing => spot.word < 14,
        _ => false,
    }
}

// What a field of an EDID's text may have been meant for: a text in quotes, or a number.
fn of_field(draft: &mut Draft, spot: Spot<'_>) {
    if content_of(spot) == LineContent::Quoted {
        let text = spot.moved_to(1);
        let _ = add_quotes(draft, text, text.tail());
    } else if is_decimal(spot) && !is_number(spot.text(), u64::MAX) {
        add_number(draft, spot, spot.text());
    }
}

// What a line of an EDID's text may have been meant for that has another form.
fn of_text_line(draft: &mut Draft, spot: Spot<'_>, word: &str) {
    let text = spot.moved_to(1);
    let _ = add_nearest(draft, spot, WORD_TEXTS, word)
        || content_of(spot) == LineContent::Quoted && add_quotes(draft, text, text.tail())
        || add_other(draft, spot, word);
}

// What the word at fault may have been meant for, by the fault of its line.
fn add_known(draft: &mut Draft, spot: Spot<'_>) {
    let word = spot.text();
    match spot.at.fault {
        InputFault::Topology(fault) => add_topology_meant(draft, fault.cause, spot),
        InputFault::Script(fault) => of_script(draft, fault.cause, spot),
        InputFault::Expectation(fault) => add_expected_meant(draft, fault.cause, spot),
        InputFault::Steps { .. } => of_step(draft, spot),
        InputFault::Frame { cause, .. } => add_frame_meant(draft, cause, spot),
        InputFault::Lay { cause, .. } => of_laid(draft, cause, spot),
        InputFault::TextSyntax { .. } => of_text_line(draft, spot, word),
        InputFault::TextField { .. } => of_field(draft, spot),
        InputFault::Capture { form, cause, .. } => of_capture(draft, form, cause, spot),
        InputFault::Past { .. }
        | InputFault::Range(_)
        | InputFault::Hex { .. }
        | InputFault::Edid(_)
        | InputFault::NoPort
        | InputFault::NoParting(_)
        | InputFault::Whole(_) => {}
    }
}

// Whether a word at fault is to be a number.
fn is_of_number(spot: Spot<'_>) -> bool {
    match spot.at.fault {
        InputFault::Topology(fault) => fault.cause == TopologyCause::Number,
        InputFault::Script(fault) => fault.cause == ScriptCause::Number,
        InputFault::Expectation(fault) => fault.cause == ExpectCause::Number,
        InputFault::Lay { cause, .. } => cause == LayCause::Number,
        InputFault::Capture { .. } => true,
        InputFault::TextField { .. } => is_decimal(spot),
        _ => false,
    }
}

// Whether another spelling of a word is tried: of a frame not that of its opcode, and not where it has too many words; of a
// capture's test not that of a line's first word, since only expectations are read again.
fn has_spelling(spot: Spot<'_>) -> bool {
    if spot.at.what == Input::CaptureTest && spot.word == 0 {
        return false;
    }
    let cause = match spot.at.fault {
        InputFault::Frame { cause, .. } => cause,
        InputFault::Lay {
            cause: LayCause::Frame(cause),
            ..
        } => cause,
        InputFault::Script(
            At {
                cause: ScriptCause::Frame(cause),
                ..
            },
        ) => cause,
        _ => return true,
    };
    !matches!(cause, AssembleError::Name | AssembleError::Count)
}

/// What the word of this number in a line may have been meant for, or else the line. The line is without the label that it has in a
/// test.
pub fn add_meant(draft: &mut Draft, at: FaultyLine<'_>, number: usize) {
    let spot = Spot { at, word: number };
    if gaps_of(at.fault) != Gaps::Spaces {
        return add_known(draft, spot);
    }
    let length = draft.len();
    if word_at(at.text, number).is_some() {
        let is_said = add_unit(draft, spot)
            || has_spelling(spot) && add_respelled(draft, spot, is_of_number(spot));
        if is_said {
            return;
        }
        add_known(draft, spot);
        if draft.len() == length {
            let _ = add_value(draft, spot);
        }
    }
    if draft.len() == length {
        add_repaired(draft, spot);
    }
}

/// Whether a line is right but for the carriage return at its end.
pub fn is_right_but_for_return(draft: &mut Draft, at: FaultyLine<'_>) -> bool {
    at.place.line.ends_with(b"\r")
        && is_whole_line_read(draft, Spot { at, word: 0 }, at.text, at.text)
}
