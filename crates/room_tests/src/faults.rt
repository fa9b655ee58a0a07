//! Readers and writers of sessions that fail, and a line that is answered before the next one is read. What else sessions answer stands
//! in tests/cases.
use crate::pipes::{end_of, said_in, written_in};
use record_core::Form;
use std::process::Abort;

/// A session, line by line: each line that is sent stands after `> `, and before the next one stands what came for it.
const SAID: &str = "\
> device tv tv 1
> script
> run to 39151
12000 39150 complete 0>0 nack by tv out -
= 39151
> frob
! 2 word
";

#[test]
fn answers_each_line_before_the_next(rt: HostRuntime) {
    let input = b"device tv tv 1\nscript\nrun to 39151\nfrob\n";
    let (said, ended) = said_in(&rt, Form::Text, input, usize::MAX);
    assert!(&rt; said.as_slice() == SAID.as_bytes(), "{SAID}");
    let reported = end_of(&rt, &ended);
    assert!(&rt; reported.as_str() == "script line 3: end", "{reported}");
}

/// Inputs whose reader fails at `#fault`, and what is written before.
const READ_FAULTS: &[(&str, &str)] = &[
    ("device tv tv 1\n#fault", ""),
    ("device tv tv 1\nscript\nrun to 5\n#fault", "= 5\n"),
];

#[test]
fn ends_where_its_reader_fails(rt: HostRuntime) {
    for (input, want) in READ_FAULTS {
        let (said, ended) = said_in(&rt, Form::Text, input.as_bytes(), usize::MAX);
        let written = written_in(&rt, said.as_slice());
        let fault = end_of(&rt, &ended);
        assert!(&rt;
            written.as_slice() == want.as_bytes() && fault.as_str() == "read fault",
            "{want}{fault}"
        );
    }
}

/// The rooms of writers that fail in mid-session.
const FULL: &[usize] = &[0, 1, 41, 42, 49, 50, 60];

/// A session over a writer with so much room ends as it is full, and has written so much.
fn is_full(rt: &(impl Abort + AllocGlobal), room: usize) {
    let input = b"device tv tv 1\nscript\nrun to 50000\nend 60000\n";
    let (said, ended) = said_in(rt, Form::Text, input, room);
    let written = written_in(rt, said.as_slice());
    let fault = end_of(rt, &ended);
    let want = format!(in rt.alloc(); "write fault after {room} bytes").expect(rt, "a fault");
    assert!(rt;
        fault.as_str() == want.as_str() && written.len() >= room,
        "{room}"
    );
}

#[test]
fn says_how_much_was_written(rt: HostRuntime) {
    for room in FULL {
        is_full(&rt, *room);
    }
}

/// A session with a line that is refused, and its objects.
const REFUSED: &[u8] = b"device tv tv 1\nscript\nrun to 5\nend x\n";

const OBJECTS: &str = "\
{\"line\":\"= 5\",\"type\":\"horizon\",\"at\":5,\"idle\":false}
{\"line\":\"! 2 number\",\"type\":\"refusal\",\"script_line\":2,\"cause\":\"number\"}
";

/// A writer with this much room gets the front of the objects that fits, and its length is the count of the fault.
#[test]
fn a_writer_that_fails_has_the_front(rt: HostRuntime) {
    for room in 0..OBJECTS.len() {
        let (said, ended) = said_in(&rt, Form::Json, REFUSED, room);
        let front = written_in(&rt, said.as_slice());
        let reported = end_of(&rt, &ended);
        let want = format!(in rt.alloc(); "write fault after {room} bytes").expect(&rt, "a fault");
        assert!(&rt; reported == want, "{reported}");
        assert!(&rt;
            Some(front.as_slice()) == OBJECTS.as_bytes().get(..room),
            "{room}"
        );
    }
}
