//! Lines that are read by a table with each slot: words that stand for themselves, values at their limits and past them, and
//! which fault comes first.
use crate::cases::case_holds;
use device_features::KeyWord;
use room_lines::{
    EXPECT, ExpectVerb, How, SCRIPT, SESSION, STEPS, ScriptVerb, SessionVerb, StepVerb, TOPOLOGY,
    TopologyVerb,
};
use std::process::Abort;
use text_core::{AtWord, Kind};
use text_forms::{FormLine, LineCause, Slot, Value, fitting, read_line};

/// Forms with each slot, by the letter with which a test names them.
const FORMS: &[(char, &[(Slot, &str)])] = &[
    (
        't',
        &[(Slot::Word, "at"), (Slot::Time, "T"), (Slot::Word, "stop")],
    ),
    ('n', &[(Slot::Word, "count"), (Slot::Number, "N")]),
    (
        'l',
        &[
            (Slot::Word, "pin"),
            (Slot::Time, "T"),
            (Slot::Level, "LEVEL"),
        ],
    ),
    ('s', &[(Slot::Word, "audio"), (Slot::Switch, "on|off")]),
    (
        'k',
        &[
            (Slot::Word, "at"),
            (Slot::Time, "T"),
            (Slot::Key, "port"),
            (Slot::KeyPort, "PORT"),
        ],
    ),
    (
        'd',
        &[
            (Slot::Word, "device"),
            (Slot::Text, "NAME"),
            (Slot::Kind, "KIND"),
            (Slot::Ports, "PORTS"),
        ],
    ),
    (
        'p',
        &[
            (Slot::Word, "plug"),
            (Slot::Text, "NAME"),
            (Slot::Port, "PORT"),
        ],
    ),
    (
        'r',
        &[
            (Slot::Word, "send"),
            (Slot::Text, "NAME"),
            (Slot::Rest, "FRAME"),
        ],
    ),
    (
        'h',
        &[
            (Slot::Word, "hold"),
            (Slot::LateTime, "T"),
            (Slot::Text, "ADDRS"),
        ],
    ),
];

/// What a line is read as: the letter of its form, or the cause and the word of its fault.
enum Read<'t> {
    Line(FormLine<'t, char>),
    Fault(AtWord<LineCause>),
}

fn read_form(line: &str) -> Read<'_> {
    match read_line(FORMS, line.as_bytes()) {
        Ok(line) => Read::Line(line),
        Err(fault) => Read::Fault(fault),
    }
}

/// Lines of a form, with the letter of the form.
const READ: &[(&str, char)] = &[
    ("at 0 stop", 't'),
    ("at 1000000000000 stop", 't'),
    ("count 0", 'n'),
    ("count 18446744073709551615", 'n'),
    // A greater number counts as the greatest.
    ("count 18446744073709551616", 'n'),
    ("pin 5 0", 'l'),
    ("pin 5 1", 'l'),
    ("audio on", 's'),
    ("audio off", 's'),
    ("at 7 port 15", 'k'),
    ("device tv tv 15", 'd'),
    ("device  amp 0", 'd'),
    ("plug p1 300", 'p'),
    ("send p1 4>0", 'r'),
    ("send p1 4>0 give-osd-name", 'r'),
    ("send p1 ", 'r'),
    ("hold 5 4", 'h'),
    // The caller tells the fault of a late time.
    ("hold x 4", 'h'),
];

/// Lines at fault: the cause, and the word, counted from 0.
const REFUSED: &[(&str, LineCause, usize)] = &[
    ("", LineCause::Word, 0),
    ("stop", LineCause::Word, 0),
    ("at", LineCause::Word, 1),
    ("at 5", LineCause::Word, 2),
    ("at 5 stop now", LineCause::Word, 3),
    ("at 5 halt", LineCause::Word, 2),
    // No form has these words, so that the word is at fault, and not the number before it.
    ("at x halt", LineCause::Word, 2),
    ("at x stop", LineCause::Number, 1),
    ("at 01 stop", LineCause::Number, 1),
    ("at 1000000000001 stop", LineCause::Number, 1),
    ("count ", LineCause::Number, 1),
    ("pin 5 2", LineCause::Number, 2),
    ("pin 5 on", LineCause::Number, 2),
    ("audio ON", LineCause::Word, 1),
    ("audio 1", LineCause::Word, 1),
    // The port of a key comes before the time, though the time stands first.
    ("at x port y", LineCause::Number, 3),
    ("at x port 1", LineCause::Number, 1),
    ("device a avr x", LineCause::Word, 2),
    ("device a amp x", LineCause::Number, 3),
    ("device a amp 16", LineCause::Number, 3),
    ("device a amp", LineCause::Word, 3),
    ("send p1", LineCause::Word, 2),
    ("hold 5", LineCause::Word, 2),
];

#[test]
fn lines_have_their_forms(rt: HostRuntime) {
    for (line, letter) in READ {
        let is_so = match read_form(line) {
            Read::Line(found) => found.verb == *letter,
            Read::Fault(_) => false,
        };
        case_holds(&rt, is_so, line);
    }
}

#[test]
fn the_first_fault_is_told(rt: HostRuntime) {
    for (line, cause, word) in REFUSED {
        let is_so = match read_form(line) {
            Read::Line(_) => false,
            Read::Fault(fault) => fault.cause == *cause && fault.word == *word,
        };
        case_holds(&rt, is_so, line);
    }
}

fn line_of<'t>(rt: &impl Abort, line: &'t str) -> FormLine<'t, char> {
    match read_form(line) {
        Read::Line(found) => found,
        Read::Fault(_) => panic!(rt; "{line}"),
    }
}

#[test]
fn values_stand_at_their_places(rt: HostRuntime) {
    assert!(rt; line_of(&rt, "at 1000000000000 stop").number(1) == 1_000_000_000_000);
    assert!(rt; line_of(&rt, "at 1000000000000 stop").time(1) == 1_000_000_000_000);
    assert!(rt; line_of(&rt, "at 5 stop").time(0) == 0);
    assert!(rt; line_of(&rt, "count 18446744073709551616").number(1) == u64::MAX);
    assert!(rt; line_of(&rt, "at 5 stop").number(2) == 0);
    assert!(rt; line_of(&rt, "at 5 stop").number(9) == 0);
    assert!(rt; line_of(&rt, "plug p1 300").port(2) == 255);
    assert!(rt; line_of(&rt, "plug p1 255").port(2) == 255);
    assert!(rt; line_of(&rt, "plug p1 3").ports(2) == 0);
    let device = line_of(&rt, "device low amp 15");
    assert!(rt; device.text(1) == b"low".as_slice());
    assert!(rt; device.kind(2) == Kind::Amp);
    assert!(rt; device.ports(3) == 15);
    assert!(rt; device.kind(1) == Kind::Tv);
    assert!(rt; matches!(line_of(&rt, "pin 5 1").value(2), Value::Level(true)));
    assert!(rt; matches!(line_of(&rt, "pin 5 0").value(2), Value::Level(false)));
    assert!(rt; matches!(line_of(&rt, "audio on").value(1), Value::Level(true)));
    assert!(rt; matches!(line_of(&rt, "audio off").value(0), Value::Itself));
    assert!(rt; line_of(&rt, "pin 5 1").level(2));
    assert!(rt; !line_of(&rt, "pin 5 0").level(2));
    assert!(rt; !line_of(&rt, "pin 5 1").level(1));
    assert!(rt; line_of(&rt, "hold 1000000000000 4").late_time(1) == Some(1_000_000_000_000));
    assert!(rt; line_of(&rt, "hold 1000000000001 4").late_time(1).is_none());
    assert!(rt; line_of(&rt, "hold x 4").late_time(1).is_none());
    assert!(rt; line_of(&rt, "hold 5 4").late_time(2).is_none());
    assert!(rt; line_of(&rt, "send p1 4>0").rest(1).is_none());
    let Some(words) = line_of(&rt, "send p1 4>0 give-osd-name").rest(2) else {
        panic!(rt; "the words of a frame");
    };
    assert!(rt; words == b"4>0 give-osd-name".as_slice());
    let Value::Rest(frame) = line_of(&rt, "send p1 4>0 give-osd-name").value(2) else {
        panic!(rt; "the words of a frame");
    };
    assert!(rt; frame == b"4>0 give-osd-name".as_slice());
}

#[test]
fn words_fit_from_the_left(rt: HostRuntime) {
    let (_, form) = FORMS[0];
    assert!(rt; fitting(form, None) == 0);
    assert!(rt; fitting(form, Some(b"at x")) == 2);
    assert!(rt; fitting(form, Some(b"at x stop here")) == 3);
    assert!(rt; fitting(form, Some(b"stop x at")) == 0);
}

/// The line of a topology that a text is.
fn topology_line(line: &str) -> Option<TopologyVerb> {
    match read_line(TOPOLOGY, line.as_bytes()) {
        Ok(found) => Some(found.verb),
        Err(_) => None,
    }
}

#[test]
fn topologies_have_three_forms(rt: HostRuntime) {
    assert!(rt; topology_line("device tv tv 4") == Some(TopologyVerb::Device));
    assert!(rt; topology_line("plug p1 tv 1") == Some(TopologyVerb::Plug));
    assert!(rt; topology_line("edid 00ff") == Some(TopologyVerb::Edid));
    assert!(rt; topology_line("script").is_none());
}

/// Lines of a script, and what each stands for.
const SAID: &[(&str, ScriptVerb)] = &[
    ("at 5 press p1 play", ScriptVerb::Press(KeyWord::Play)),
    ("at 5 release p1 port 2", ScriptVerb::Release(KeyWord::Port)),
    ("at 5 press tv audio on", ScriptVerb::Press(KeyWord::Audio)),
    (
        "at 5 press tv remote 4 select",
        ScriptVerb::Press(KeyWord::Remote),
    ),
    ("at 5 plug p1 tv 1", ScriptVerb::Plug),
    ("at 5 unplug p1", ScriptVerb::Unplug),
    ("at 5 send p1 4>0 give-osd-name", ScriptVerb::Send),
    ("at 5 send p1 attempts 2 hex 4004", ScriptVerb::Send),
    ("at 5 hold l1 1+4+5+8", ScriptVerb::Hold),
    // What the addresses are comes before what the time is, and the script tells both.
    ("at x hold l1 17", ScriptVerb::Hold),
    ("at 5 drop l1", ScriptVerb::Drop),
    ("pulse 5 3700", ScriptVerb::Pulse),
    ("pull 5 10", ScriptVerb::Pull),
    ("pin 5 0", ScriptVerb::Pin),
    ("end 9", ScriptVerb::End),
];

/// Lines that have no form of a script, or no value at a place: the cause, and the word.
const UNSAID: &[(&str, LineCause, usize)] = &[
    ("at", LineCause::Word, 1),
    ("at 5", LineCause::Word, 2),
    ("at 5 press p1", LineCause::Word, 4),
    ("at 5 press p1 jump", LineCause::Word, 4),
    ("at 5 press p1 play now", LineCause::Word, 5),
    ("at 5 press tv remote 4", LineCause::Word, 6),
    ("at x press p1 play", LineCause::Number, 1),
    // A value of a key comes before the time.
    ("at x press p1 port y", LineCause::Number, 5),
    ("at x press tv audio maybe", LineCause::Word, 5),
    ("at 5 send p1", LineCause::Word, 4),
    ("at 5 hold l1", LineCause::Word, 4),
    ("pin 5 2", LineCause::Number, 2),
    ("end", LineCause::Word, 1),
    ("ends 5", LineCause::Word, 0),
];

#[test]
fn scripts_have_their_forms(rt: HostRuntime) {
    for (line, verb) in SAID {
        let is_so = match read_line(SCRIPT, line.as_bytes()) {
            Ok(found) => found.verb == *verb,
            Err(_) => false,
        };
        case_holds(&rt, is_so, line);
    }
    for (line, cause, word) in UNSAID {
        let is_so = match read_line(SCRIPT, line.as_bytes()) {
            Ok(_) => false,
            Err(fault) => fault.cause == *cause && fault.word == *word,
        };
        case_holds(&rt, is_so, line);
    }
}

/// Lines of a session that are none of a script, and what each stands for.
const ASKED: &[(&str, SessionVerb)] = &[
    ("run to 5", SessionVerb::RunTo),
    ("run to x", SessionVerb::RunTo),
    ("wait", SessionVerb::Wait),
    ("wait 5", SessionVerb::WaitUntil),
    ("wait ", SessionVerb::WaitUntil),
    ("show p1", SessionVerb::Show),
    ("edge 5", SessionVerb::Edge),
    ("edges on", SessionVerb::Edges),
    ("edges off", SessionVerb::Edges),
    ("seats on", SessionVerb::Seats),
];

/// Lines that a session reads as those of a script.
const UNASKED: &[&str] = &[
    "run",
    "run 5",
    "run to",
    "run to 5 6",
    "wait 5 6",
    "show",
    "edge",
    "edges",
    "edges yes",
    "seats",
    "seats 1",
    "end 5",
    "",
];

#[test]
fn sessions_have_their_forms(rt: HostRuntime) {
    for (line, verb) in ASKED {
        let is_so = match read_line(SESSION, line.as_bytes()) {
            Ok(found) => found.verb == *verb,
            Err(_) => false,
        };
        case_holds(&rt, is_so, line);
    }
    for line in UNASKED {
        case_holds(&rt, read_line(SESSION, line.as_bytes()).is_err(), line);
    }
}

/// Lines of steps, and what each stands for.
const STEPPED: &[(&str, StepVerb)] = &[
    ("edge", StepVerb::Edge),
    ("round", StepVerb::Round),
    ("until opcode 82", StepVerb::UntilOpcode),
    ("until opcode ff", StepVerb::UntilOpcode),
    ("until device p1", StepVerb::UntilDevice),
    ("until device ", StepVerb::UntilDevice),
    ("until break", StepVerb::UntilBreak),
    ("show p1", StepVerb::Show),
];

/// Lines that are no step, and the word at fault.
const UNSTEPPED: &[(&str, usize)] = &[
    ("", 0),
    ("edges", 0),
    ("edge 5", 1),
    ("until", 1),
    ("until round", 1),
    ("until opcode", 2),
    // An opcode is at fault before what stands after it.
    ("until opcode 8 now", 2),
    ("until opcode 8A", 2),
    ("until opcode 82 now", 3),
    // How many words stand after it is at fault before a name.
    ("until device p1 now", 3),
    ("until break now", 2),
    ("show", 1),
    ("show p1 now", 2),
];

#[test]
fn steps_have_their_forms(rt: HostRuntime) {
    for (line, verb) in STEPPED {
        let is_so = match read_line(STEPS, line.as_bytes()) {
            Ok(found) => found.verb == *verb,
            Err(_) => false,
        };
        case_holds(&rt, is_so, line);
    }
    for (line, word) in UNSTEPPED {
        let is_so = match read_line(STEPS, line.as_bytes()) {
            Ok(_) => false,
            Err(fault) => fault.cause == LineCause::Word && fault.word == *word,
        };
        case_holds(&rt, is_so, line);
    }
    let Ok(opcode) = read_line(STEPS, b"until opcode 8a") else {
        panic!(rt; "an opcode");
    };
    assert!(rt; opcode.byte(2) == 0x8a);
    assert!(rt; opcode.byte(1) == 0);
}

/// Lines of expectations, and what each stands for. What a pattern and the numbers of a count and of a window are, the reader of
/// expectations tells.
const EXPECTED: &[(&str, ExpectVerb)] = &[
    (
        "expect within 5 of film 4>f active-source",
        ExpectVerb::Within(How::AtLeastOnce),
    ),
    (
        "expect from 0 to 5 short",
        ExpectVerb::From(How::AtLeastOnce),
    ),
    ("expect from x to y ", ExpectVerb::From(How::AtLeastOnce)),
    (
        "expect none within 5 of film short",
        ExpectVerb::Within(How::Never),
    ),
    ("expect once from 0 to 5 short", ExpectVerb::From(How::Once)),
    (
        "expect exactly 2 within 5 of film short",
        ExpectVerb::Within(How::Exactly),
    ),
    (
        "expect at most x from 0 to 5 short",
        ExpectVerb::From(How::AtMost),
    ),
    (
        "expect at least 0 within 5 of film short",
        ExpectVerb::Within(How::AtLeast),
    ),
    ("expect state 5 tv on", ExpectVerb::State),
    ("expect state x tv not", ExpectVerb::State),
    ("expect refused slip off-wire", ExpectVerb::Refused),
    ("expect refused off-wire", ExpectVerb::RefusedAbove),
    ("expect no-remark", ExpectVerb::NoRemark),
    ("expect no-remark ", ExpectVerb::NoRemarkOf),
    ("expect no-remark bit-low slot 1", ExpectVerb::NoRemarkOf),
];

/// Lines that have no form of an expectation, and the word at fault.
const UNEXPECTED: &[(&str, usize)] = &[
    ("", 0),
    ("expects", 0),
    ("expect", 1),
    ("expect often from 0 to 5 short", 1),
    ("expect remark free", 1),
    ("expect none", 2),
    ("expect none 5", 2),
    ("expect exactly", 2),
    ("expect exactly 2", 3),
    ("expect exactly within 5 of film short", 3),
    ("expect at", 2),
    ("expect at all from 0 to 5 short", 2),
    ("expect at most", 3),
    ("expect at least 2", 4),
    ("expect at least 2 until 5", 4),
    ("expect within", 2),
    ("expect within 5", 3),
    ("expect within 5 to film short", 3),
    ("expect within 5 of", 4),
    ("expect within 5 of film", 5),
    ("expect at most 2 from 0 to 5", 8),
    ("expect state", 2),
    ("expect state 5", 3),
    ("expect state 5 tv", 4),
    ("expect refused", 2),
    ("expect refused slip off-wire now", 4),
];

#[test]
fn expectations_have_their_forms(rt: HostRuntime) {
    for (line, verb) in EXPECTED {
        let is_so = match read_line(EXPECT, line.as_bytes()) {
            Ok(found) => found.verb == *verb,
            Err(_) => false,
        };
        case_holds(&rt, is_so, line);
    }
    for (line, word) in UNEXPECTED {
        let is_so = match read_line(EXPECT, line.as_bytes()) {
            Ok(_) => false,
            Err(fault) => fault.cause == LineCause::Word && fault.word == *word,
        };
        case_holds(&rt, is_so, line);
    }
}
