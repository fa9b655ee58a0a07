//! Writers that take one byte a call, and that fail: what a step has written then, and where the stepper stands.
ghost use Rattle.std.specs.Prelude.{length, IfSome};
ghost use Rattle.room_script.specs.Script.{IsScript, course_of};

use edid_core::root_of;
use record_core::Form;
use room_run::emulate::EmulateError;
use room_script::{Script, Topology, parse_script, parse_topology};
use room_steps::step_run::{StepRunError, step_run};
use room_steps::{Break, StepError, Stepper};
use std::alloc::Global;
use std::io::{self, ErrorKind, Write};
use std::process::Abort;
use text_core::Writes;

/// A television, and a player in its first port.
const TWO: &str = "device tv tv 4\ndevice p1 player 0\nplug p1 tv 1\n";

const SCRIPT: &str = "end 400000\n";

/// What `until device p1` writes: the player's poll. The television's poll comes before it.
const POLL: &str = "50705 77855 complete 4>4 nack by p1 out -\n";

/// The round after it.
const REPORT: &str =
    "89405 212555 complete 0>f report-physical-address 0.0.0.0 tv ok by tv out -\n";

/// The number of the player.
const PLAYER: usize = 1;

/// Each step, and `ended` twice.
const STEPS: &str =
    "edge\nedge\nedge\nuntil device p1\nshow p1\nuntil opcode 84\nuntil break\nround\nround\n";

const STEPPED: &str = "\
12000 low tv=start-low p1=start-low
15700 high tv=start-high p1=start-high
16500 low tv=slot:1:- p1=slot:1:-
50705 77855 complete 4>4 nack by p1 out -
state p1 player 4 1.0.0.0 on active=- path=- deck=1a menu=off audio=off volume=20 mute=off arc=off sel=- lang=656e67 osd=- held=- heard=- sub=- queue=1 dropped=0
89405 212555 complete 0>f report-physical-address 0.0.0.0 tv ok by tv out -
ended
224105 347255 complete 4>f report-physical-address 1.0.0.0 playback ok by p1 out -
ended
";

/// A writer that takes one byte at a time, and fails once it holds `room`.
#[derive(Drop)]
struct Stingy {
    held: Vec<u8>,
    room: usize,
}

impl Write for Stingy {
    fn write(&mut self, bytes: &[u8]) -> io::Result<usize> {
        if self.held.len() >= self.room {
            return Err(io::Error::from(ErrorKind::Other));
        }
        match bytes.first() {
            None => Ok(0),
            Some(byte) => {
                self.held.push(*byte)?;
                Ok(1)
            }
        }
    }

    fn flush(&mut self) -> io::Result<()> {
        Ok(())
    }
}

fn with_room(alloc: Global, room: usize) -> Stingy {
    Stingy {
        held: Vec::new(alloc),
        room,
    }
}

fn parsed(alloc: Global) -> Option<(Topology, Script)>
    ensures { IfSome result (λ parsed. IsScript (length parsed.0.tree) (course_of parsed.1)) }
{
    let topology = parse_topology(alloc, TWO.as_bytes()).ok()?;
    let script = parse_script(alloc, &topology, SCRIPT.as_bytes()).ok()?;
    Some((topology, script))
}

/// A stepper at the start of the run.
fn at_start(rt: &impl Abort, alloc: Global) -> Stepper {
    let (topology, script) = parsed(alloc).expect(rt, "a run");
    let _edid = root_of(&topology.edid).ok().expect(rt, "an EDID");
    assert!(rt; topology.tree.count() == 2);
    Stepper::new(alloc, topology, script)
        .ok()
        .expect(rt, "memory")
}

fn until_poll(stepper: &mut Stepper, out: &mut Stingy) -> Result<u128, StepError> {
    stepper.until(Break::Device(PLAYER), &mut Writes::new(out))
}

fn round(stepper: &mut Stepper, out: &mut Stingy) -> Result<u128, StepError> {
    stepper.round(&mut Writes::new(out))
}

/// Whether the front of a text was written, as far as there was room.
fn holds_front(out: &Stingy, text: &str) -> bool {
    text.as_bytes().get(..out.room) == Some(out.held.as_slice())
}

/// `until` into a writer that fails there: the front of its text was written.
fn is_cut(alloc: Global, stepper: &mut Stepper, room: usize) -> bool {
    let mut out = with_room(alloc, room);
    let reported = until_poll(stepper, &mut out);
    reported == Err(StepError::Write(room as u128)) && holds_front(&out, POLL)
}

/// `until` and the next round, into a writer that does not fail.
fn are_written(alloc: Global, stepper: &mut Stepper) -> bool {
    let mut out = with_room(alloc, POLL.len() + REPORT.len());
    until_poll(stepper, &mut out) == Ok(POLL.len() as u128)
        && round(stepper, &mut out) == Ok(REPORT.len() as u128)
        && out.held.get(..POLL.len()) == Some(POLL.as_bytes())
        && out.held.get(POLL.len()..) == Some(REPORT.as_bytes())
}

/// Where the writer fails, the stepper stands where it stood. So the same `until` into one that does not fail writes the
/// round, and the next round is the one after it.
#[test]
fn until_is_taken_once_its_text_is_written(rt: HostRuntime) {
    let alloc = rt.alloc();
    let mut stepper = at_start(&rt, alloc);
    for room in 0..POLL.len() {
        assert!(&rt; is_cut(alloc, &mut stepper, room), "{room}");
    }
    assert!(&rt; are_written(alloc, &mut stepper));
}

/// Takes the steps into a writer that has so much room.
fn stepped(alloc: Global, out: &mut Stingy) -> Result<(), StepRunError> {
    step_run(
        alloc,
        Form::Text,
        TWO.as_bytes(),
        SCRIPT.as_bytes(),
        STEPS.as_bytes(),
        &mut Writes::new(out),
    )
}

/// The steps into a writer that fails there.
fn are_cut(alloc: Global, room: usize) -> bool {
    let mut out = with_room(alloc, room);
    match stepped(alloc, &mut out) {
        Err(StepRunError::Run(EmulateError::Write(count))) => {
            count == room as u128 && holds_front(&out, STEPPED)
        }
        _ => false,
    }
}

/// Each step fails at each of its bytes.
#[test]
fn steps_are_cut_at_each_byte(rt: HostRuntime) {
    let alloc = rt.alloc();
    for room in 0..STEPPED.len() {
        assert!(&rt; are_cut(alloc, room), "{room}");
    }
    let mut out = with_room(alloc, STEPPED.len());
    assert!(&rt; stepped(alloc, &mut out).is_ok() && holds_front(&out, STEPPED));
}
