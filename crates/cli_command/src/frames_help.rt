//! What `--help` says of the commands that read and write frames.

pub const ASM_ABOUT: &str = "Writes texts of CEC frames in hex";

pub const ASM_HELP: &str = "\
The input has the text of a frame a line. Lines that are empty or begin with `#` are skipped, but
counted. The output has a line of hex for each frame: header, opcode and operands.

The text of a frame is `I>D`, the logical addresses of initiator and destination as hex digits; a
poll is that alone. Then come the opcode's name, or `op-XX` where it has none, and the operands, one
space apart: as words where they fit the opcode exactly, and else as one word, `:` and all operands
in lower-case hex. Each frame has one text.

An example, and what it gives:
  4>4                              44
  4>f active-source 1.0.0.0        4f821000
  4>0 play forward                 404124
  4>0 play :99                     404199
  5>0 set-osd-name \"AVR\"           5047415652
  5>0 report-audio-status sound 20 507a14

The fault is `line N: CAUSE` with the first line that tells no frame; nothing is written then. CAUSE
is the first of these that applies:
  address    the line does not begin with `I>D`
  name       no opcode has that name
  too-long   more than 14 operands in hex
  count      not as many words as the opcode's operands have
  operand    the words are no operands of the opcode, or not spelled as they should be

Exit status: 0 done; 1 input refused; 2 command line refused; 3 a read or write fault, or input
past 1048576 bytes; 4 no memory.";

/// What the list of the forms of frames begins with.
pub const ASM_FORMS: &str = "\
The frames of each opcode that has a name, by its hex digits, after `I>D` and a space; what stands in
brackets may be left out:";

pub const DIS_ABOUT: &str = "Writes CEC frames in hex as texts";

/// The flags of `dis`, each with its help.
pub const DIS_FLAGS: &[(&str, &str)] = &[
    (
        "meaning",
        "Prints below each frame what it means, in plain words",
    ),
    ("json", "Prints each line as an object of JSON"),
];

pub const DIS_HELP: &str = "\
The input has the bytes of a frame a line, in hex: header, opcode and operands. Lines that are empty or
begin with `#` are skipped, but counted. The output has the text of each frame in a line, as
`hdminet asm` takes it; after it stands ` # ` and a word of the standard where the text leaves the
opcode or an operand as bytes.

Each byte has two hex digits of either case, with `0x` before them or not. Between bytes there may be
spaces, `:`, `,` and `-`, also none. What stands before the last `>>` or `<<` of a line, and these, is
passed over, so that a log of cec-client is read as it is.

An example, and what it gives:
  44               4>4
  4f:82:10:00      4>f active-source 1.0.0.0
  40 41 24         4>0 play forward

With --meaning a line follows each frame, indented by two spaces, that says what it means in plain
words: who asks, tells or sends what to whom, and what its operands say.
  40 41 24         4>0 play forward
                     Playback Device 1 asks TV to play: forward

With --json each line of the output is an object of JSON, whose first field is that line; then come its
type, frame or meaning, and what it says: of a frame its addresses, opcode, operands and bytes.

The fault is `line N: CAUSE` with the first line that has no frame; nothing is written then. CAUSE is
  digit      something else than hex digits and what may stand between bytes
  half       a hex digit alone
  length     no byte, or more than 16

Exit status: 0 done; 1 input refused; 2 command line refused; 3 a read or write fault, or input
past 1048576 bytes; 4 no memory.";

pub const LAY_ABOUT: &str = "Writes CEC frames, whole or with a fault, as pulls of a script";

/// The flags of `lay`, each with its help.
pub const LAY_FLAGS: &[(&str, &str)] = &[("json", "Prints each pull as an object of JSON")];

pub const LAY_HELP: &str = "\
The input has a frame a line: T, the microsecond at which its start bit falls, then a fault or none, and
then the frame as `hdminet asm` takes it. Lines that are empty or begin with `#` are skipped, but counted.
  T FRAME
  T FAULT FRAME
In the place of FRAME may stand `blocks HEX`, 1 to 64 bytes in lower-case hex.

The output has what a sender of nominal times pulls for these frames, a line `pull T WIDTH` of a script
for each low: a start bit, and ten slots a block, one for each bit. Each acknowledge bit is a 1. Pulls
hear nothing: nobody wins over them, and no frame is sent again.

Slots and blocks count from 1: slot 9 is the end-of-message bit of the header, slot 10 its acknowledge
bit. FAULT is one of
  eom BLOCK BIT           the end-of-message bit of a block is BIT, 0 or 1
  bit SLOT LOW TOTAL      a slot is low for LOW, and the next one falls TOTAL after it
  start LOW TOTAL         the same of the start bit
  last SLOT               nothing is pulled after a slot
  drive SLOT              a low drive of 3600 from the fall of a slot on, and then nothing
  glitch SLOT AFTER LOW   one more low of LOW, which begins AFTER after the nominal fall of a slot, joined
                          with those that it meets

An example, and what it gives:
  1000000 last 2 4>0 image-view-on     pull 1000000 3700
                                       pull 1004500 1500
                                       pull 1006900 600

With --json each line of the output is an object of JSON, whose first field is that line; then come its
type, pull, and the pull's instant and width.

Between a room and an end that gives a run:
  (cat room; echo script; hdminet lay < faults; echo end 2000000) | hdminet run

The fault is `line N: CAUSE` with the first line that is not laid; nothing is written then. CAUSE is the
first from the left of
  word       a word is missing
  number     a number that is none, T past 1000000000000, or BIT neither 0 nor 1
  width      LOW is 0 or past 10000000, TOTAL is LOW or less or past 10000000, AFTER past 10000000
  frame ..   what stands after T or the fault is no text of a frame, for this cause of `hdminet asm`
  blocks     HEX is not the hex of 1 to 64 bytes
then slot, where the frame has not that slot or block, and of the first pull at fault
  order      it does not begin after the end of the one above
  late       it begins after 1000000000000
  width      a glitch joins lows to more than 10000000

Exit status: 0 done; 1 input refused; 2 command line refused; 3 a read or write fault, or input
past 1048576 bytes; 4 no memory.";
