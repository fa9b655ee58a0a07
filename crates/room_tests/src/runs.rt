//! The objects of a run, which are written while it runs, beside the lines of its trace.
use room_run::Totals;
use room_run::emulate::{EmulateError, emulate};
use room_run::objects::emulate_objects;
use std::io::{self, ErrorKind, Write};
use std::process::Abort;
use text_core::Writes;

pub(crate) fn holds(rt: &impl Abort, holds: bool, case: &str) {
    assert!(rt; holds, "{case}");
}

/// A writer that takes one byte a call, as many as it has room for.
#[derive(Drop)]
struct Narrow {
    bytes: Vec<u8>,
    room: usize,
}

impl Write for Narrow {
    fn write(&mut self, bytes: &[u8]) -> io::Result<usize> {
        if self.bytes.len() >= self.room {
            return Err(io::Error::from(ErrorKind::Other));
        }
        let taken = bytes.get(..1).unwrap_or(bytes);
        self.bytes.extend_from_slice(taken)?;
        Ok(taken.len())
    }

    fn flush(&mut self) -> io::Result<()> {
        Ok(())
    }
}

const TOPOLOGY: &str = "\
device tv tv 4
device p1 player 0
plug p1 tv 1
";

const SCRIPT: &str = "\
at 1000000 press p1 play
pulse 1200000 400
at 1300000 plug p1 tv 2
at 1400000 send p1 4>0 image-view-on
end 1500000
";

fn trace(rt: &(impl Abort + AllocGlobal)) -> Vec<u8> {
    let mut out = Vec::new(rt.alloc());
    let ran = emulate(
        rt.alloc(),
        TOPOLOGY.as_bytes(),
        SCRIPT.as_bytes(),
        &mut Writes::new(&mut out),
    );
    holds(rt, ran.is_ok(), "a trace");
    out
}

/// The count of the fault by which a run was cut off.
fn fault_of(ran: Result<Totals, EmulateError>) -> Option<u128> {
    match ran {
        Err(EmulateError::Write(count)) => Some(count),
        _ => None,
    }
}

/// What is written of a run while it goes on, with its room or without, by a writer for so many bytes, and the count of its fault.
fn written(
    rt: &(impl Abort + AllocGlobal),
    script: &str,
    with_room: bool,
    room: usize,
) -> (Vec<u8>, Option<u128>) {
    let mut out = Narrow {
        bytes: Vec::new(rt.alloc()),
        room,
    };
    let ran = emulate_objects(
        rt.alloc(),
        TOPOLOGY.as_bytes(),
        script.as_bytes(),
        with_room,
        &mut Writes::new(&mut out),
    );
    (out.bytes, fault_of(ran))
}

/// All is written where there is room for it, and else the front that fits, whose length is the count of the fault.
fn is_front(want: &[u8], room: usize, out: &[u8], fault: Option<u128>) -> bool {
    if room >= want.len() {
        out == want && fault.is_none()
    } else {
        Some(out) == want.get(..room) && fault == Some(room as u128)
    }
}

/// Each object has the line of the trace that stands in its place.
fn are_of(rt: &(impl Abort + AllocGlobal), trace: &str, objects: &str) {
    holds(
        rt,
        trace.lines().count() == objects.lines().count(),
        "an object a line",
    );
    for (line, object) in trace.lines().zip(objects.lines()) {
        let front = format!(in rt.alloc(); "{{\"line\":\"{line}\",\"type\":\"").expect(rt, line);
        holds(rt, object.starts_with(front.as_str()), line);
    }
}

#[test]
fn objects_of_a_run(rt: HostRuntime) {
    let trace = String::from_utf8(trace(&rt)).expect(&rt, "a text");
    let (want, fault) = written(&rt, SCRIPT, false, usize::MAX);
    holds(&rt, fault.is_none(), "all of it");
    for room in [
        0,
        1,
        40,
        want.len() / 2,
        want.len().saturating_sub(1),
        want.len(),
    ] {
        let (out, fault) = written(&rt, SCRIPT, false, room);
        holds(&rt, is_front(&want, room, &out, fault), "objects of a run");
    }
    let objects = String::from_utf8(want).expect(&rt, "a text");
    are_of(&rt, trace.as_str(), objects.as_str());
}

/// The objects of the room, by hand.
const ROOM: &str = "\
{'line':'device tv tv 4','type':'device','device':'tv','kind':'tv','ports':4}
{'line':'device p1 player 0','type':'device','device':'p1','kind':'player','ports':0}
{'line':'plug p1 tv 1','type':'plug','device':'p1','parent':'tv','port':1}
{'line':'pulse 1200000 400','type':'pulse','at':1200000,'width':400}
";

/// How the object of each event ends, and what stands there with the room.
const ENDS: &[(&str, &str)] = &[
    (
        "'script_line':1,'verdict':'ok','cause':null}",
        "'script_line':1,'verdict':'ok','cause':null,'verb':'press','device':'p1','text':'press p1 play'}",
    ),
    (
        "'script_line':3,'verdict':'refused','cause':'not-loose'}",
        "'script_line':3,'verdict':'refused','cause':'not-loose','verb':'plug','device':'p1','text':'plug p1 tv 2'}",
    ),
    (
        "'script_line':4,'verdict':'ok','cause':null}",
        "'script_line':4,'verdict':'ok','cause':null,'verb':'send','device':'p1','text':'send p1 4>0 image-view-on'}",
    ),
];

/// The objects of a run with those of its room: as those of the run alone, but for the ends of events.
fn with_its_room(rt: &(impl Abort + AllocGlobal)) -> String {
    let (objects, _) = written(rt, SCRIPT, false, usize::MAX);
    let mut text = String::from_utf8(objects).expect(rt, "a text");
    for (end, with_room) in ENDS {
        let end = end.replace(rt.alloc(), "'", "\"").expect(rt, "a text");
        let with_room = with_room
            .replace(rt.alloc(), "'", "\"")
            .expect(rt, "a text");
        holds(rt, text.contains(end.as_str()), end.as_str());
        text = text
            .replace(rt.alloc(), end.as_str(), with_room.as_str())
            .expect(rt, "a text");
    }
    let room = ROOM.replace(rt.alloc(), "'", "\"").expect(rt, "a text");
    format!(in rt.alloc(); "{room}{text}").expect(rt, "a text")
}

#[test]
fn objects_of_a_run_and_its_room(rt: HostRuntime) {
    let want = with_its_room(&rt);
    let want = want.as_bytes();
    for room in [
        0,
        1,
        40,
        want.len() / 2,
        want.len().saturating_sub(1),
        want.len(),
    ] {
        let (out, fault) = written(&rt, SCRIPT, true, room);
        holds(&rt, is_front(want, room, &out, fault), "objects of a room");
    }
}

#[test]
fn a_refused_script_writes_nothing(rt: HostRuntime) {
    let script = "at 5 frob tv\nend 10\n";
    for with_room in [true, false] {
        let (out, fault) = written(&rt, script, with_room, 1000);
        holds(&rt, out.is_empty() && fault.is_none(), "nothing");
    }
}
