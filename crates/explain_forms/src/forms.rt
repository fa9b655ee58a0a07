//! What a line at fault would have to look like.
use crate::captures::add_capture;
use crate::fields::{fields_of, words_of};
use crate::frames::add_frame;
use crate::hexes::add_hex_meant;
use crate::keys::{add_key, is_of_key};
use crate::order::add_order;
use crate::room::{add_field_count, add_lack_of_room, is_hex_alone, next_word};
use expect_text::ExpectCause;
use explain_again::Spot;
use explain_lists::{Draft, word_at, word_count};
use explain_marks::{
    FaultyLine, Input, InputFault, InputLine, LAID, Lines, REFUSALS, REMARKS, SCRIPT, SESSION,
    STEPS, TEST, TOPOLOGY, as_form, fitting, forms_in, forms_of, frame_start, is_word, label_words,
    missing, most_fitting, plain, slip_of, without_label,
};
use message_lay::LayCause;
use message_text::AssembleError;
use room_script::{ScriptCause, TopologyCause};

/// What the words of a state are.
const STATE_WORDS: &str =
    "WORD is one of a state line after the device's name: a kind, logical addresses, a physical address, `on` or `standby`, or KEY=VALUE as `active=1.0.0.0`, `path=-`, `deck=1a`, `menu=off`, `audio=on`, `volume=20`, `mute=off`, `arc=off`, `sel=1`, `lang=656e67`, `osd=5456`, `held=41`, `heard=4:90:00`, `sub=5`, `queue=0`, `dropped=0`";

/// The word that a line lacks.
pub fn add_missing(draft: &mut Draft, word: Option<&str>) {
    if let Some(word) = word {
        draft.add_all(&["  ", word, " is missing at the end of the line\n"]);
    }
}

// The forms that a line fits as far as any.
fn add_fitting(draft: &mut Draft, lines: &[Lines], line: &str) {
    let most = most_fitting(lines, line);
    let forms = forms_in(lines);
    let mut before = "  a line here reads `";
    for form in forms.as_slice() {
        if fitting(*form, line) == most {
            draft.add(before);
            form.add_to(draft);
            before = "`, `";
        }
    }
    draft.add("`\n");
}

// The forms that a line fits as far as any, and the word that it lacks.
fn add_forms(draft: &mut Draft, lines: &[Lines], line: &str) {
    add_fitting(draft, lines, line);
    add_missing(draft, missing(lines, line));
}

/// The forms of a script's lines, which may have labels and expectations among them in a test.
pub(crate) fn script_forms(what: Input) -> &'static [Lines] {
    match what {
        Input::Test => TEST,
        Input::Session => SESSION,
        _ => SCRIPT,
    }
}

// The forms that a script's line could have, and who reads it where it is a test's.
fn add_script_forms(draft: &mut Draft, what: Input, line: &str) {
    add_forms(draft, script_forms(what), line);
    let is_of_test = line.starts_with("label ") || line.starts_with("expect ");
    if what != Input::Test && is_of_test {
        draft.add_line("labels and expectations are read by `hdminet check`");
    }
}

// What a line of a script would be, by the number of its first word that it may not have. Returns whether more would be of no use.
fn add_script_line(draft: &mut Draft, at: FaultyLine<'_>, word: usize) -> bool {
    let is_key = is_of_key(at.text, word);
    if !is_key || word == 4 {
        add_script_forms(draft, at.what, at.text);
    }
    if word >= 4 && is_word(at.text, 2, "hold") {
        draft.add_line(
            "ADDRS is `-` for none, or one to four logical addresses, 0 to e: `4`, `4+8`",
        );
    }
    is_key && add_key(draft, at.place, at.text, word)
}

// Whether the word after the first one has hex digits alone.
fn begins_with_hex(line: &str) -> bool {
    match word_at(line, 1) {
        Some(word) => word.bytes().all(|byte| byte.is_ascii_hexdigit()),
        None => false,
    }
}

// The forms of a topology's line.
fn add_topology_forms(draft: &mut Draft, line: &str) {
    add_forms(draft, TOPOLOGY, line);
    if line.starts_with("edid ") && word_count(line) > 2 {
        draft.add_line(if begins_with_hex(line) {
            "HEX is one word: its digits stand without spaces"
        } else {
            "no name stands before HEX: the EDID is that of the television"
        });
    }
}

// What a line of a topology would be that is refused for a cause.
fn add_topology(draft: &mut Draft, cause: TopologyCause, line: &str) {
    match cause {
        TopologyCause::Word => add_topology_forms(draft, line),
        TopologyCause::Number
        | TopologyCause::Name
        | TopologyCause::Full
        | TopologyCause::SecondRoot
        | TopologyCause::NoRoot
        | TopologyCause::PortRange
        | TopologyCause::PortTaken
        | TopologyCause::NotLoose
        | TopologyCause::Loop
        | TopologyCause::Hex => {}
    }
}

// What a line of a script would be that is refused for a cause, by the number of its word at fault. Returns whether more would
// be of no use.
fn add_script(draft: &mut Draft, at: FaultyLine<'_>, cause: ScriptCause, word: usize) -> bool {
    match cause {
        ScriptCause::Word => return add_script_line(draft, at, word),
        ScriptCause::Order => add_order(draft, at.place),
        ScriptCause::Frame(cause) => {
            let word = frame_start(cause, word);
            add_frame(draft, cause, Spot { at, word });
        }
        ScriptCause::Number => {
            if is_word(at.text, 4, "attempts") {
                draft.add_line("a frame has 1 to 6 attempts in all");
            }
        }
        ScriptCause::Name
        | ScriptCause::Hex
        | ScriptCause::Width
        | ScriptCause::Close
        | ScriptCause::TooMany
        | ScriptCause::End => {}
    }
    false
}

// The forms of a line of expectations. Where a word slipped, none is missing at its end.
fn add_expectation_forms(draft: &mut Draft, at: FaultyLine<'_>) {
    let own = as_form(at.what, at.text);
    match slip_of(at.fault, at.text) {
        Some(_) => add_fitting(draft, forms_of(at.what), own),
        None => add_forms(draft, forms_of(at.what), own),
    }
    let lacks_word = own.starts_with("expect state ") && own.ends_with(" not");
    if lacks_word || own == "expect refused" {
        add_missing(draft, Some("WORD"));
    }
}

// What the words of a state are. Returns whether the line is of a state.
fn add_state_words(draft: &mut Draft, line: &str) -> bool {
    let is_state = without_label(line).line.starts_with("expect state ");
    if is_state {
        draft.add_line(STATE_WORDS);
    }
    is_state
}

// The words that may stand somewhere.
fn add_words(draft: &mut Draft, about: &str, words: &[&str]) {
    draft.add(about);
    for word in words {
        draft.add_all(&[" `", word, "`"]);
    }
    draft.add("\n");
}

// The words with which an event is refused. Returns whether the line is of a refusal.
fn add_refusals(draft: &mut Draft, line: &str) -> bool {
    let is_refusal = without_label(line).line.starts_with("expect refused ");
    if is_refusal {
        let about = "  WORD is one with which an event is refused:";
        add_words(draft, about, REFUSALS);
    }
    is_refusal
}

// The kinds of remarks. Returns whether the line is of a remark.
fn add_remarks(draft: &mut Draft, line: &str) -> bool {
    let own = without_label(line).line;
    let is_remark = own.starts_with("expect remark ") || own.starts_with("expect no-remark ");
    if is_remark {
        let about = "  PATTERN begins with a kind of remarks:";
        add_words(draft, about, REMARKS);
    }
    is_remark
}

// What a line of expectations would be that is refused for a cause. Returns whether more would be of no use.
fn add_expectation(draft: &mut Draft, at: FaultyLine<'_>, cause: ExpectCause) -> bool {
    match cause {
        ExpectCause::Word | ExpectCause::Pattern => add_expectation_forms(draft, at),
        ExpectCause::Unmet => {
            return add_state_words(draft, at.text)
                || add_refusals(draft, at.text)
                || add_remarks(draft, at.text);
        }
        ExpectCause::Number | ExpectCause::Name | ExpectCause::Label | ExpectCause::Order => {}
    }
    false
}

/// The words after `timing` that name one.
const NAMED_TIMINGS: &[&str] = &["vic", "dmt", "cvt", "cvt-rb", "gtf"];

// Whether the payload of a line stands in words: it is not one word of hex digits, two a byte.
fn stands_in_words(word: &str, line: &str) -> bool {
    match word {
        "timing" => NAMED_TIMINGS.iter().any(|name| is_word(line, 1, name)),
        "hdmi" => !is_hex_alone(line, 2),
        _ => !is_hex_alone(line, 1),
    }
}

// What the fields or the words of a line are that begins with a word.
fn fields_in(what: Input, word: &str, line: &str) -> Option<&'static str> {
    match words_of(word) {
        Some(words) if what == Input::EdidWords && stands_in_words(word, line) => Some(words),
        _ => fields_of(word),
    }
}

// What a line with a frame to lay would be that is refused for a cause, by the number of its word at fault.
fn add_laid(draft: &mut Draft, at: FaultyLine<'_>, cause: LayCause, word: usize) {
    match cause {
        LayCause::Frame(cause) => {
            if most_fitting(LAID, at.text) > 1 && cause == AssembleError::Address && word > 1 {
                add_forms(draft, LAID, at.text);
            }
            let word = frame_start(cause, word);
            add_frame(draft, cause, Spot { at, word });
        }
        LayCause::Word | LayCause::Number => add_forms(draft, LAID, at.text),
        LayCause::Blocks | LayCause::Width | LayCause::Slot | LayCause::Order | LayCause::Late => {}
    }
}

// Whether a line is a timing for which its extension has no room, which is then said.
fn is_past_room(draft: &mut Draft, place: InputLine<'_>, line: &str) -> bool {
    is_word(line, 0, "timing") && add_lack_of_room(draft, place)
}

// What the fields of a line are that begins with a word.
fn add_fields_of(draft: &mut Draft, at: FaultyLine<'_>, word: &str) {
    if let Some(fields) = fields_in(at.what, word, at.text) {
        draft.add_line(fields);
    }
}

// What the fields of a line of an EDID's text are, or that its extension has no room for it. Returns whether more would be of no
// use.
fn add_fields(draft: &mut Draft, at: FaultyLine<'_>) -> bool {
    if add_lack_of_room(draft, at.place) {
        return true;
    }
    add_fields_of(draft, at, word_at(at.text, 0).unwrap_or(""));
    false
}

// What a line of an EDID's text would be that has another form. Returns whether more would be of no use.
fn add_text_line(draft: &mut Draft, at: FaultyLine<'_>) -> bool {
    if is_past_room(draft, at.place, at.text) {
        return true;
    }
    if add_field_count(draft, at.text) {
        add_fields_of(draft, at, word_at(at.text, 0).unwrap_or(""));
        return true;
    }
    match next_word(at.place) {
        Some(word) => {
            draft.add_all(&["  here a line `", word, "` stands\n"]);
            add_fields_of(draft, at, word);
            true
        }
        None => false,
    }
}

/// The forms that a line could have, or the line that it should not stand after. Returns whether what would be right in place
/// of any fault of this cause is of no use then.
pub fn add_right_forms(draft: &mut Draft, at: FaultyLine<'_>) -> bool {
    let line = at.text;
    match at.fault {
        InputFault::Topology(fault) => add_topology(draft, fault.cause, line),
        InputFault::Script(fault) => {
            let text = plain(at.what, line);
            let labels = label_words(at.what, line);
            let own = FaultyLine { text, labels, ..at };
            return add_script(draft, own, fault.cause, fault.word);
        }
        InputFault::Expectation(fault) => return add_expectation(draft, at, fault.cause),
        InputFault::Steps { .. } => add_forms(draft, STEPS, line),
        InputFault::Frame { cause, .. } => add_frame(draft, cause, Spot { at, word: 0 }),
        InputFault::Lay { cause, word, .. } => add_laid(draft, at, cause, word),
        InputFault::TextField { .. } => return add_fields(draft, at),
        InputFault::TextSyntax { .. } => return add_text_line(draft, at),
        InputFault::Hex { .. } => add_hex_meant(draft, line),
        InputFault::Capture { form, cause, .. } => add_capture(draft, at, form, cause),
        InputFault::Past { .. }
        | InputFault::Range(_)
        | InputFault::Edid(_)
        | InputFault::NoPort
        | InputFault::NoParting(_)
        | InputFault::Whole(_) => {}
    }
    false
}
