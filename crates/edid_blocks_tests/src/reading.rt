//! What is read of a text.
use crate::forms::{
    ARRAY, COLONS, COMMAS, HEXDUMP_WIDE, HEXDUMP_WORDS, I2CDUMP, IOREG, OD, OD_CHARACTERS,
    OD_DECIMAL, OD_HEX, OD_WORDS, REGISTRY, XXD_ARRAY, XXD_ARRAY_UPPER,
};
use crate::further::{
    DASHES, DECIMAL, ESCAPES, HEX_STRING, INTEL_HEX, JSON, JSON_MEMBER, LINE_REMARKS, LONG_TABLE,
    OD_NUMBERS, REG_QUERY, REMARKS, STRINGS, TABLE, XML,
};
use crate::printed::{
    CARRIAGE_RETURNS, EDID_DECODE, FIVE_BLOCKS, HEXDUMP, KERNEL, LIVING_ROOM, MONITOR, TWO, XORG,
    XRANDR, XXD, XXD_PLAIN, XXD_UPPER,
};
use edid_dump::{dump_bytes, looks_like_dump};
use std::process::Abort;

/// The bytes of the dump in a text in hex, or why there are none.
fn reported(rt: &(impl Abort + AllocGlobal), text: &str) -> String {
    match dump_bytes(text.as_bytes()) {
        Ok(bytes) => hex::encode(rt.alloc(), bytes.as_slice()).expect(rt, "memory"),
        Err(error) => format!(in rt.alloc(); "{error}").expect(rt, "memory"),
    }
}

fn is_read(rt: &(impl Abort + AllocGlobal), text: &str, want: &str) {
    let reported = reported(rt, text);
    assert_eq!(rt; reported.as_str(), want);
}

#[test]
fn dumps_of_tools_are_read(rt: HostRuntime) {
    is_read(&rt, XXD_PLAIN, LIVING_ROOM);
    is_read(&rt, XXD, MONITOR);
    is_read(&rt, XXD_UPPER, LIVING_ROOM);
    is_read(&rt, HEXDUMP, LIVING_ROOM);
    is_read(&rt, EDID_DECODE, MONITOR);
    is_read(&rt, LIVING_ROOM, LIVING_ROOM);
    is_read(&rt, CARRIAGE_RETURNS, MONITOR);
}

#[test]
fn dumps_of_further_tools_are_read(rt: HostRuntime) {
    is_read(&rt, XXD_ARRAY, LIVING_ROOM);
    is_read(&rt, XXD_ARRAY_UPPER, LIVING_ROOM);
    is_read(&rt, HEXDUMP_WORDS, LIVING_ROOM);
    is_read(&rt, HEXDUMP_WIDE, LIVING_ROOM);
    is_read(&rt, OD, LIVING_ROOM);
    is_read(&rt, OD_HEX, LIVING_ROOM);
    is_read(&rt, OD_CHARACTERS, LIVING_ROOM);
    is_read(&rt, OD_DECIMAL, LIVING_ROOM);
    is_read(&rt, I2CDUMP, LIVING_ROOM);
}

#[test]
fn lists_are_read(rt: HostRuntime) {
    is_read(&rt, IOREG, LIVING_ROOM);
    is_read(&rt, REGISTRY, LIVING_ROOM);
    is_read(&rt, COLONS, LIVING_ROOM);
    is_read(&rt, COMMAS, LIVING_ROOM);
    is_read(&rt, ARRAY, LIVING_ROOM);
}

#[test]
fn bytes_of_programs_and_shells_are_read(rt: HostRuntime) {
    is_read(&rt, REMARKS, LIVING_ROOM);
    is_read(&rt, LINE_REMARKS, LIVING_ROOM);
    is_read(&rt, ESCAPES, LIVING_ROOM);
    is_read(&rt, STRINGS, LIVING_ROOM);
    is_read(&rt, DASHES, LIVING_ROOM);
    is_read(&rt, REG_QUERY, LIVING_ROOM);
    is_read(&rt, HEX_STRING, LIVING_ROOM);
    is_read(&rt, XML, LIVING_ROOM);
    is_read(&rt, TABLE, LIVING_ROOM);
    is_read(&rt, LONG_TABLE, LIVING_ROOM);
    is_read(&rt, INTEL_HEX, LIVING_ROOM);
}

#[test]
fn decimal_numbers_are_read(rt: HostRuntime) {
    is_read(&rt, DECIMAL, LIVING_ROOM);
    is_read(&rt, JSON, LIVING_ROOM);
    is_read(&rt, JSON_MEMBER, LIVING_ROOM);
    is_read(&rt, OD_NUMBERS, LIVING_ROOM);
}

// Octal offsets of words look like hex ones, so rows that are left out can't be counted.
#[test]
fn octal_words_are_refused(rt: HostRuntime) {
    is_read(&rt, OD_WORDS, "long 13");
}

#[test]
fn dumps_in_other_text_are_read(rt: HostRuntime) {
    is_read(&rt, XRANDR, LIVING_ROOM);
    is_read(&rt, KERNEL, MONITOR);
    is_read(&rt, XORG, LIVING_ROOM);
    is_read(&rt, TWO, LIVING_ROOM);
}

/// Broken dumps, a text of its own each, and why they are refused: lines are parted by `/` here.
const BROKEN: &str = "\
nothing|none
|none
01ffffffffffff00|none
00ffffffffffff0|none
0 0ffffffffffff00|none
00ffffffffffff00|cut 2
00ffffffffffff00/4c2d0|cut 2
00ffffffffffff00/4c 2d/x|cut 3
a/b/00ff ffff ffff ff00|cut 4
00000000: 00ff ffff ffff ff00 4c2d 0201 0100 0000  ........L-....../00 11|cut 2
00000000  00 ff ff ff ff ff ff 00  4c 2d 02 01 01 00 00 00  |........L-......|/*|cut 3
00000000  00 ff ff ff ff ff ff 00  4c 2d 02 01 01 00 00 00  |........L-......|/*/00000090|cut 4
00000000  00 ff ff ff ff ff ff 00  4c 2d 02 01 01 00 00 00  |........L-......|/*/00000210|long 3
00000000  00 ff ff ff ff ff ff 00  4c 2d 02 01 01 00 00 00  |........L-......|/*/ffffffff|long 3
kernel: 00 ff ff ff ff ff ff 00 4c 2d 02 01 01 00 00|none
kernel: 00ffffffffffff004c2d020101000000/12: 00|cut 2
kernel:00ffffffffffff004c2d020101000000|none
{00ffffffffffff00/{00|cut 2
<00ffffffffffff00/<00|cut 2
0x00,0xff,0xff,0xff,0xff,0xff,0xff,0x00,/0x4|cut 2
0,255,255,255,255,255,255,0|cut 2
[0, 255, 255, 255, 255, 255, 255, 0, 76/45, 2]/[1]|cut 3
[0, 255, 255, 255, 255, 255, 255, 0, 256]|none
[0, 255, 255, 255, 255, 255, 255, 0, 07]|none
[0, 255, 255, 255, 255, 255, 255, 0, 4c]|none
[0, 255, 255, 255, 255, 255, 255, 1, 76]|none
0,255,255,255,255,255,255,|none
0, 255, 255, 255, 255, 255, 255,|none
0 255 255 255 255 255 255 |none
00-ff-ff-ff-ff-ff-ff-00/4c-2d/---|cut 3
EDID: 00-FF-FF-FF-FF-FF-FF-00/EDID: 00-FF-FF-FF-FF-FF-FF-00|cut 2
00-ff-ff-ff-ff-ff-ff-00-4c2d|none
x = \"\\x00\\xff\\xff\\xff\\xff\\xff\\xff\\x00\"/\"\\x4c\"; x/};|cut 3
\\x00\\xff\\xff\\xff\\xff\\xff\\xff\\x00L|none
\\x00\\xFF\\xFF\\xFF\\xFF\\xFF\\xFF\\x00L|none
\\x00\\xff\\xff\\xff\\xff\\xff\\xff\\x00ab|none
\\x00\\xff\\xff\\xff\\xff\\xff\\xff\\x00\\x4|none
x 00ffffffffffff00|none
x 00FFFFFFFFFFFF00 y|none
<a>00ffffffffffff00<b>/<b>4c2d<b>/<a>|cut 3
<a>00ffffffffffff0<b>|none
00000000   00 FF FF FF FF FF FF 00 4C 2D 02 01 01 00 00 00  L-/x|cut 2
00000000   00 FF FF FF FF FF FF 00  xy|none
:0800000000FFFFFFFFFFFF00FE/:020000004C2D85/:00000001FF|cut 3
:0800000000FFFFFFFFFFFF00FF|none
:0700000000FFFFFFFFFFFF00FF|none
:0800000400FFFFFFFFFFFF00FA|none
0000000 00ff ffff ffff ff00|cut 2
0000000 ff00 ffff ffff 00ff 2d4c 0102 0001 0000/*/0000210|long 3
0000000 00 ff ff ff ff ff ff 00 4c 2d 02 01 01 00 00 00/*/0000160|cut 4
0000000 00 ff ff ff ff ff ff 00 4c 2d 02 01 01 00 00 00/*/0001020|long 3
000000 00 ff ff ff ff ff ff 00 4c 2d 02 01 01 00 00 00/*/000210|long 3
00: 00 ff ff ff ff ff ff 00 4c 2d    ..........|cut 2
hex:00,ff,ff,ff,ff,ff,ff,00,\\|cut 2
hex 00,ff,ff,ff,ff,ff,ff,00|none";

/// The same of lists with remarks: lines are parted by `~` here.
const REMARKED: &str = "\
0x00,0xff,0xff,0xff,0xff,0xff,0xff,0x00, // a~0x4c, /* b, c */ }; ~# d|cut 3
0x00,0xff,0xff,0xff,0xff,0xff,0xff,0x00, # a~/* b */~0x4c|cut 2
{0x00,0xff,0xff,0xff,0xff,0xff,0xff,0x00 /* a * b / c ** d */~x|cut 2
0x00,0xff,0xff,0xff,0xff,0xff,0xff,0x00, /* a */ 0x4c|none
0x00,0xff,0xff,0xff,0xff,0xff,0xff,0x00, /* a|none
0x00,0xff,0xff,0xff,0xff,0xff,0xff,0x00, /*/|none
/* a */ 0x00,0xff,0xff,0xff,0xff,0xff,0xff,0x00|none
0x00,0xff,0xff,0xff,0xff,0xff,0xff,0x00, / a|none";

fn are_refused(rt: &(impl Abort + AllocGlobal), rows: &str, mark: &str) {
    for row in rows.lines() {
        let (text, want) = row.rsplit_once('|').expect(rt, "a row");
        let lines = text.replace(rt.alloc(), mark, "\n").expect(rt, "memory");
        is_read(rt, lines.as_str(), want);
    }
}

#[test]
fn broken_dumps_are_refused(rt: HostRuntime) {
    are_refused(&rt, BROKEN, "/");
    are_refused(&rt, REMARKED, "~");
    is_read(&rt, FIVE_BLOCKS, "long 9");
}

#[test]
fn dumps_are_recognized(rt: HostRuntime) {
    assert!(rt; looks_like_dump(XORG.as_bytes()));
    assert!(rt; looks_like_dump(b"00ffffffffffff00"));
    assert!(rt; !looks_like_dump(b"edid 1.3\nmaker SAM\n"));
}
