//! From the texts of a topology and a script to the objects of the trace of their run.
ghost use Rattle.std.specs.Prelude.{◌≡◌, ℕ, List, ◌↔◌, false, IfOk, IfErr, IsTrue, option_map};
ghost use Rattle.std.specs.Io.KnownBytes.{Appends};
ghost use Rattle.room_run.specs.declared.run.Reporting.TheVariants.{Objects};
ghost use Rattle.room_run.specs.Emulate.{AreObjectsCut, AreObjectsOf, IsReported, is_write};
ghost use Rattle.room_trace.specs.Room.{room_if};

use crate::emulate::EmulateError;
use crate::run::{Reporting, Totals, run, started_net};
use edid_core::{Edid, root_on_heap};
use room_script::{parse_script, parse_topology};
use room_trace::RoomTexts;
use std::alloc::{AllocError, Global};
use text_core::Sink;

// That objects are written with this EDID and in this room, on the heap: the EDID is large.
#[inline(never)]
fn objects_with<'a>(
    alloc: Global,
    edid: Option<Box<Edid>>,
    room: Option<RoomTexts<'a>>,
) -> Result<Box<Reporting<'a>>, AllocError>
    ensures { IfOk result (λ reporting. reporting.value ≡ Objects (option_map (λ b. b.value) edid) room.entry) }
{
    let reporting = match edid {
        None => Box::new(alloc, Reporting::Objects(None, room))?,
        Some(edid) => Box::new(alloc, Reporting::Objects(Some(Box::into_inner(edid)), room))?,
    };
    Ok(reporting)
}

// A room, where it is asked for.
fn room_if<'a>(with_room: bool, topology: &'a [u8], script: &'a [u8]) -> Option<RoomTexts<'a>>
    ensures { result ≡ room_if with_room topology.now script.now }
{
    if with_room {
        Some(RoomTexts::new(topology, script))
    } else {
        None
    }
}

// The same with the room where it is asked for.
#[inline(never)]
fn objects_in<'a>(
    alloc: Global,
    edid: Option<Box<Edid>>,
    with_room: bool,
    topology: &'a [u8],
    script: &'a [u8],
) -> Result<Box<Reporting<'a>>, AllocError>
    ensures { IfOk result (λ reporting. reporting.value ≡ Objects (option_map (λ b. b.value) edid) (room_if with_room topology.now script.now)) }
{
    objects_with(alloc, edid, room_if(with_room, topology, script))
}

/// Runs a script on a topology, and writes while it runs an object of JSON for each line of the trace, a line each. With the room
/// stand before them the objects of the topology's lines and of the script's pulses, pulls and levels of the pin, and an event has in
/// its object the verb, the device and the text of its line of the script.
///
/// # Errors
///
/// Those of [`emulate`](crate::emulate::emulate), in the same order. A failed write: then the front of the objects was written, as long
/// as it reports. Else nothing was written.
// The network is large: where this stood inside its caller, the caller's frame would hold one for each kind of run.
#[inline(never)]
pub fn emulate_objects<S: Sink>(
    alloc: Global,
    topology: &[u8],
    script: &[u8],
    with_room: bool,
    out: &mut S,
) -> Result<Totals, EmulateError>
    ensures ok { IfOk result (λ totals. (text : List ℕ) × AreObjectsOf with_room topology.now script.now text totals × Appends (S.contents out.old) (S.contents out.new) text) }
    ensures reported { IfErr result (IsReported topology.now script.now) }
    ensures write { S.is_stuck out.old ≡ false → (IsTrue (is_write result) ↔ IsTrue (S.is_stuck out.new)) }
    ensures cut { IfErr result (AreObjectsCut with_room topology.now script.now (S.contents out.old) (S.contents out.new)) }
{
    let plan = parse_topology(alloc, topology)?;
    let course = parse_script(alloc, &plan, script)?;
    let edid = root_on_heap(alloc, &plan.edid)?;
    let Ok(reporting) = objects_in(alloc, edid, with_room, topology, script) else {
        return Err(EmulateError::Memory);
    };
    let Ok(mut net) = started_net(alloc, plan.tree, &course) else {
        return Err(EmulateError::Memory);
    };
    match run(out, &mut net, &reporting, &course.events, course.end) {
        Ok(totals) => Ok(totals),
        Err(fault) => Err(EmulateError::Write(fault.count)),
    }
}
