//! A television's blocks, read over DDC.
use crate::samples::{bytes_of, comes_out, edid_of, first_bytes_of, number, owned, parted};
use edid_ddc::{Ddc, learn_address};
use std::process::Abort;

/// Segments are acknowledged that have a block, and reading goes on at the begin of the segment.
const SEGMENTS: &str = "\
edid tv..0151 speaking..e8 => -
segment 1 => Err(NoAck)
segment 0 => Ok(())
over .. .. .. .. => -
segment 1 => Ok(())
over tv..0151 speaking..e8 => -
offset 250 => -
read 10 => 0000000000e800ffffff
stop => -
read 1 => ff
";

/// Bytes, and the address that is learnt of them. An extension that is missing is read as FF.
const LEARNT: &str = "\
over tv..0151 speaking..c7 148=21 149=00 => -
learn => Ok(Phys { high: 33, low: 0 })
over tv..0151 => -
learn => Err(Edid(Ext(1, Checksum)))
over tv..034f speaking..e8 => -
learn => Err(NoAck)
over tv..044e speaking..e8 => -
learn => Err(Edid(Length))
";

/// Numbers of bytes that no display has, and the blocks that they are the first of.
const WRONG_LENGTHS: &str = "\
first 0 .. => Length
first 129 .. .. => Length
first 640 .. .. .. .. .. => Length
";

/// Four blocks in two segments: the television's with three extensions to follow, a block map, one with an HDMI block, an
/// empty one. A missing fourth block is read as FF.
const TWO_SEGMENTS: &str = "\
edid tv..034f map..0c speaking..e8 empty..06 => -
segment 1 => Ok(())
offset 0 => -
read 4 => 020316f1
offset 254 => -
read 4 => 00060203
segment 2 => Err(NoAck)
over tv..034f map..0c speaking..e8 empty..06 => -
segment 1 => Ok(())
segment 2 => Err(NoAck)
learn => Ok(Phys { high: 0, low: 0 })
over tv..0250 map..0c speaking..e8 => -
segment 1 => Ok(())
offset 126 => -
read 4 => 00e8ffff
learn => Ok(Phys { high: 0, low: 0 })
";

/// The bytes that are read next, in hex.
fn read(rt: &(impl Abort + AllocGlobal), ddc: &mut Ddc, count: u8) -> String {
    let mut seats = [0; 16];
    let read = seats.get_mut(..usize::from(count)).expect(rt, "few bytes");
    ddc.read(read);
    hex::encode(rt.alloc(), &*read).expect(rt, "hex digits")
}

fn take_number(rt: &(impl Abort + AllocGlobal), ddc: &mut Ddc, verb: &str, number: u8) -> String {
    match verb {
        "segment" => format!(in rt.alloc(); "{:?}", ddc.segment(number)).expect(rt, "a text"),
        "read" => read(rt, ddc, number),
        "offset" => {
            ddc.offset(number);
            owned(rt, "-")
        }
        _ => owned(rt, "no such verb"),
    }
}

/// The address that is learnt, or why none is.
pub(crate) fn learnt(rt: &(impl Abort + AllocGlobal), ddc: &mut Ddc) -> String {
    format!(in rt.alloc(); "{:?}", learn_address(ddc)).expect(rt, "a text")
}

/// Other bytes in place of those that were read, if a display may have so many.
fn over(rt: &(impl Abort + AllocGlobal), ddc: &mut Ddc, bytes: Vec<u8>) -> String {
    match Ddc::over(&bytes) {
        Err(error) => format!(in rt.alloc(); "{error:?}").expect(rt, "a text"),
        Ok(other) => {
            *ddc = other;
            owned(rt, "-")
        }
    }
}

/// The blocks of an EDID in place of those that were read.
fn read_edid(rt: &(impl Abort + AllocGlobal), ddc: &mut Ddc, words: &str) -> String {
    *ddc = Ddc::new(&edid_of(rt, words));
    owned(rt, "-")
}

/// One step, and what comes of it.
fn take(rt: &(impl Abort + AllocGlobal), ddc: &mut Ddc, step: &str) -> String {
    let (verb, words) = step.split_once(' ').unwrap_or((step, ""));
    match verb {
        "over" => over(rt, ddc, bytes_of(rt, words)),
        "first" => over(rt, ddc, first_bytes_of(rt, words)),
        "edid" => read_edid(rt, ddc, words),
        "learn" => learnt(rt, ddc),
        "stop" => {
            ddc.stop();
            owned(rt, "-")
        }
        _ => take_number(rt, ddc, verb, number(rt, words)),
    }
}

/// Asserts what comes of each step.
fn takes(rt: &(impl Abort + AllocGlobal), steps: &str) {
    let mut ddc = Ddc::new(&edid_of(rt, "tv..0151 speaking..e8"));
    for case in steps.lines() {
        let (step, want) = parted(rt, case);
        comes_out(rt, take(rt, &mut ddc, step), want, case);
    }
}

#[test]
fn blocks_are_read_and_addresses_learnt(rt: HostRuntime) {
    takes(&rt, SEGMENTS);
    takes(&rt, LEARNT);
    takes(&rt, WRONG_LENGTHS);
    takes(&rt, TWO_SEGMENTS);
}
