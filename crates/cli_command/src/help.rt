//! What `--help` reports.

pub const ABOUT: &str =
    "Emulates a living-room HDMI network: a television, and below it devices that share one CEC wire.";

pub const EXPLAIN_FLAG: &str =
    "After a fault, shows its line and word, and what would be right; after a run, its counts";

/// The file that a subcommand reads.
pub const FILE: &str = "What is read; standard input where it is left out, or `-`";

/// Those that `check` reads.
pub const FILES: &str =
    "What is tested, of several each by itself; standard input where it is left out, or `-`";

/// The second that `edid --merge` and `edid --diff` read.
pub const RECEIVER: &str =
    "With --merge, the receiver's EDID, where FILE is the display's alone; with --diff, the other EDID";

/// The second that `mon --diff` reads.
pub const OTHER: &str = "With --diff, the other capture, where FILE is the first alone";

/// What follows a refused command line that has `--explain`.
pub const EXPLAINED: &str =
    "  the subcommands are run, check, step, live, asm, dis, lay, mon and edid; each reads standard input, and all but live a file too, as `hdminet run FILE`\n";

/// What follows a command line that is refused for a file's name in the place of a subcommand.
pub const FILE_ALONE: &str = "  a file stands after a subcommand: `hdminet run FILE`\n";

/// Why words ask for nothing, that are known each by itself.
pub const FLAGS_DIFFER: &str = "flags do not go together";

/// The same of words with a value that its flag does not take.
pub const VALUE_DIFFERS: &str = "a value is none of its flag";

/// The same of words that would ask for something with other files.
pub const FILES_DIFFER: &str = "so many files do not go with these flags, or `-` is one of several";

/// What follows a command line that is refused for the word `help`.
pub const HELP_WORD: &str =
    "  the help is `hdminet --help`, and that of a subcommand `hdminet run --help`\n";

/// What stands below the flags where they alone are asked for.
pub const SHORT: &str =
    "`--help` explains what is read and written, with examples, faults and exit statuses.";

pub const OVERVIEW: &str = "\
With --explain a fault is followed by the line of the input, the word at fault, and what would be right.

Each subcommand reads the file that is named after it, or standard input where none is, or `-`, and writes
standard output; `live` reads standard input alone. After `--` each word is a file. `check` takes several
files, `edid --merge`, `edid --diff` and `mon --diff` two. `hdminet SUBCOMMAND --help` explains the input. With no subcommand it is `run`.

Examples, of which the folder examples/ has the inputs and outputs:
  ./hdminet run examples/first-path.net
      a network of a television and a player, whose play key is pressed:
      device tv tv 4
      device p1 player 0
      plug p1 tv 1
      script
      at 1000000 press p1 play
      end 1500000
      (further ones are four-players.net and ports.net)
  ./hdminet run --edges examples/first-path.net
      the same network, but the falls and rises of its CEC line: `12000 0`, `15700 1` and so on
  ./hdminet check examples/film.test
      a network under test: `ok 1 - ..` for each line of its script that says what is to happen
  ./hdminet step examples/arbitration.steps
      two devices send at once: the line of that round edge by edge, and where each device then stands
  ./hdminet live
      a network as a co-process: each line of its script is answered as it comes, as by
      examples/live/active-source.py
  ./hdminet asm examples/frames.txt
      `4>f active-source 1.0.0.0` gives `4f821000`
  ./hdminet dis examples/frames.hex
      and `4f821000` gives `4>f active-source 1.0.0.0`
  ./hdminet lay examples/faults.lay
      frames with a fault, as pulls of a script: `pull 1000000 3700` and so on
  ./hdminet mon examples/capture.edges
      the falls and rises of a captured line give `1000 8251 silent 1` and so on
  ./hdminet edid examples/living-room.edid
      the bytes of an EDID give the lines `edid 1.3`, `maker SAM` and so on
  ./hdminet edid --text examples/living-room.edid.txt
      and the lines give the bytes in hex

Faults go to standard error, as `hdminet: script line 3: word`; with --explain indented lines follow.

Exit status: 0 done; 1 input refused, or a test failed; 2 command line refused; 3 a file that is not opened, a read
or write fault, or input past 1048576 bytes; 4 no memory; 5 an EDID fails --check.";

/// The flag that names a wire of a capture.
const SIGNAL: (&str, &str, &str) = (
    "signal",
    "NAME",
    "Reads the wire of this name in a vcd or csv; where it is left out the first",
);

pub const RUN_ABOUT: &str = "Runs a topology and a script, and prints the trace (the default)";

/// The flags of `run`, each with its help.
pub const RUN_FLAGS: &[(&str, &str)] = &[
    (
        "edges",
        "Prints the edges of the CEC line in place of the trace",
    ),
    (
        "json",
        "Prints each line of the trace as an object of JSON; not with --edges",
    ),
    (
        "room",
        "With --json, objects of the topology, of pulses, pulls and the pin come first; events have their line",
    ),
    (
        "drives",
        "With --edges --as vcd, the dump also has a wire for each device and one for the pulses",
    ),
    (
        "named",
        "With --drives, the dump also has its frames and bits as strings, which GTKWave shows",
    ),
    (
        "strict",
        "Ends with status 1 where an event of the script was refused; the output is the same",
    ),
];

/// Those that take a value, with what stands for it.
pub const RUN_VALUES: &[(&str, &str, &str)] = &[(
    "as",
    "FORMAT",
    "With --edges, prints the line as vcd, for PulseView and GTKWave, pin, for cec-ctl, or csv",
)];

pub const RUN_HELP: &str = "\
The input has two parts, parted by a line `script`. Lines that are empty or begin with `#` are
skipped. Words stand one space apart. Times are microseconds.

The topology declares the devices and how they are plugged together at the start:
  device NAME KIND PORTS        KIND is tv, amp, player, recorder, switch, combo, outside or
                                outside-tv; PORTS is 0 to 15
  plug CHILD PARENT PORT        into a port of a device declared above, counted from 1
  edid HEX                      the television's EDID, once at most; its ports pass it on

The script says what happens, in the order of its times, and when the run ends:
  at T plug CHILD PARENT PORT
  at T unplug CHILD
  at T press NAME KEY
  at T release NAME KEY
  at T send NAME FRAME          a frame as `hdminet asm` takes it; @NAME in its header, as @p1>@tv, is the
                                address that this device holds then
  at T send NAME hex HEX        the same, as `hdminet dis` takes it
  at T send NAME attempts N ..  the same, with N attempts in all, 1 to 6; those that are lost count too
  at T hold NAME ADDRS          of a device from outside: ADDRS is -, or one to four logical addresses
                                of 0 to e, as 4 or 1+4
  at T drop NAME                of a device from outside: it drops what it has to send
  pulse T WIDTH                 the line is pulled low from outside: 1 to 10000 microseconds, each
                                at least 25000 after the end of the one above, at most 4096
  pull T WIDTH                  the same, as dense as you like: 1 to 10000000 microseconds, each
                                after the end of the pulse or pull above, at most 16384 of both
  pin T LEVEL                   a pin of your own: 0 pulls the line low from T on, 1 lets it go, and so
                                does `end`
  end T                         the last line

The keys, and the kinds that have them, are listed below. PA is an address as 1.0.0.0, LLL a language as
eng, D the logical address of a device, 1 to e, and CODE a key of the remote control.

An example:
  device tv tv 4
  device p1 player 0
  plug p1 tv 1
  script
  at 1000000 press p1 play
  end 1500000

The output is the trace: a line a round on the wire, a line an event, with an EDID a line for each
port of a device that comes on the wire, and at the end the state of each device. These are
  START END ENDING FRAME VERDICT by SENDERS out LIST
  T event LINE ok
  T event LINE refused WORD
  T port NAME PORT HEX
  state NAME KIND ..
  T end

With --edges the output is an edge file, as `hdminet mon` takes it: `T 0` for each fall of the CEC line,
`T 1` for each rise, and last `T end`, the end of the script or the close of the last round, whichever is
later. Its readings are those of the trace. With --as the same line is a Value Change Dump (vcd), pin
events of cec-ctl (pin), or seconds and levels with commas between them (csv):
  ./hdminet run --edges --as vcd < examples/first-path.net > first-path.vcd

With --json each line of the trace is an object of JSON, whose first field is that line:
  {\"line\":\"1000000 event 1 ok\",\"type\":\"event\",\"at\":1000000,\"script_line\":1,\"verdict\":\"ok\",\"cause\":null}

With --strict the run is the same, and where an event was refused the status is 1 and standard error has
`hdminet: refused events N`:
  ./hdminet run --strict < x.net > x.trace || echo something was refused

An event is refused, and the run goes on, with one of
  plug      port-range, port-taken, not-loose, loop
  unplug    not-plugged
  keys      off-wire, not-for-kind
  send      off-wire, no-address, own-address, queue-full

Faults: `topology line N: CAUSE`, `script line N: CAUSE`, `edid: CAUSE`, `no script line`. N counts
from the first line of its part, and nothing is written to standard output then. The causes of
topologies and scripts are listed below; of a script there is also `frame` and the cause of
`hdminet asm`. CAUSE of an EDID is length, count, base header, base checksum, base revision, base maker,
ext N checksum (N is 1 to 3) or no-hdmi-block.

Exit status: 0 done; 1 input refused; 2 command line refused; 3 a read or write fault, or input
past 1048576 bytes; 4 no memory.";

/// What the list of the words of topologies and scripts begins with.
pub const RUN_WORDS: &str = "\
The keys, each with the kinds that have it, and the codes of a remote control; port N is a key of a switch
with so many ports:";

pub const CHECK_ABOUT: &str = "Says whether a run is as its script expects";

/// The flags of `check`, each with its help.
pub const CHECK_FLAGS: &[(&str, &str)] = &[
    (
        "trace",
        "Prints after the report the trace of the run, each line after `# `",
    ),
    (
        "plain",
        "Prints the input without labels and expectations, for run, in place of the report",
    ),
    (
        "json",
        "Prints each line of the report as an object of JSON; not with --plain",
    ),
    (
        "progress",
        "Says on standard error after each 1000 instants of a range how far the sweep is",
    ),
    ("capture", "Tests a capture in place of a run"),
];

/// Those that take a value, with what stands for it.
pub const CHECK_VALUES: &[(&str, &str, &str)] = &[
    (
        "from",
        "FORM",
        "Reads a capture as edges, vcd, pin or csv; where it is left out its first line says which",
    ),
    SIGNAL,
    (
        "glitch",
        "MICROSECONDS",
        "Passes over pulses and gaps of a capture that are shorter; 50 is safe",
    ),
];

pub const CHECK_HELP: &str = "\
The input is that of `hdminet run`, and its script may also have labels and expectations:
  label NAME LINE                        a label before an event, pulse, pull, `pin` or expectation
  expect within D of NAME PATTERN        a round that meets the pattern, D microseconds from a label on
  expect from T to U PATTERN             or between two times
  expect none .., expect once ..         no such round, or exactly one
  expect exactly N ..                    so many of them; or `expect at most N ..`, `expect at least N ..`
  expect state T NAME WORD ..            at T the device's state line has each of these words
  expect state T NAME not WORD ..        or none of them
  expect refused NAME WORD               the event of this label is refused with the word
  expect refused WORD                    or that of the line above
  expect no-remark                       the audit of mon --audit has no remark of the run's line
  expect no-remark PATTERN               or none of this kind: its word as of mon --audit --json, and what it says
A pattern is met by a round whose line in the trace begins with it after its two times, without the word
complete, up to the end of a word; `*` stands for any part of one word. A round is in a window where it
begins and ends in it. The instant of a label is that at which its event was applied, the onset of its
pulse or pull, or the end of the first round that meets its expectation.

The output is in the Test Anything Protocol, version 13: a line `ok` or `not ok` for each expectation, in
order, then one for each refused event that none expects. Below a failure stand the window and rounds in it,
or the state line. Lines are counted from the line after `script`.

An example:
  device tv tv 4
  device p1 player 0
  plug p1 tv 1
  script
  label film at 1000000 press p1 play
  label on expect within 60000 of film 4>0 image-view-on ack
  expect once within 200000 of on 4>f active-source 1.0.0.0 ok
  end 2000000
and what it gives:
  TAP version 13
  ok 1 - line 2: label on expect within 60000 of film 4>0 image-view-on ack
  ok 2 - line 3: expect once within 200000 of on 4>f active-source 1.0.0.0 ok
  1..2

With --trace the report is followed by a line `# trace` and the lines of the trace, each after `# `. With
--plain the output is the topology, the line `script` and the script without labels and expectations, line
for line, whose run the report speaks of:
  ./hdminet check --plain < film.test | ./hdminet run

Of several files the output is one report in version 14 of the protocol: the report of each below a line
`# Subtest: NAME`, four spaces in, and then a test by itself, `ok N - NAME`; the lines of a sweep stand there
after `# `. A file that is refused or not opened is `not ok`, is named on standard error, and does not stop
the others; the status is the greatest of theirs:
  ./hdminet check rooms/*.test

Where a test fails, the status is 1 and standard error has `hdminet: failed tests N`; the report is written.

One time of the script may be a range, T..U or T..U/S: each microsecond from T to U, or one in S. Then each
instant of the range takes its place in turn, and the output has a line for each longest stretch of instants
at which the same tests hold, so that a race shows by the microsecond:
  at 4840000..5000000/50 press p2 play
gives of examples/race.sweep
  4840000..4931550 not-ok ok
  4931600..4945250 ok not-ok
  4945300..4999950 not-ok not-ok
  5000000..5000000 ok not-ok
Where a test fails at any of them, the status is 1 and standard error has `failed tests in the range`.
With --progress standard error has after each 1000 instants, as long as there are more
  hdminet: instants 1000 of 3201, stretches 1
With --trace and --plain no time is a range. A range has at most 1000000 instants, and each keeps the order
of the script: events in order of time, pulses, pulls and the pin too, `end` after each event, no state
after `end`.

With --capture the input is expectations, a line `capture`, and a capture in any form that `hdminet mon`
reads, of which they are to hold. Here `label NAME at T` names an instant, and the other lines are
expectations of rounds; a round says what its reading says in the lines of mon --from-start. Lines that
are empty or begin with `#` are skipped. Two more speak of the audit that mon --audit writes:
  expect no-remark, expect no-remark PATTERN    as of a run
  expect remark PATTERN                  it has one
Their tests stand after the others; below one that fails stand the first eight remarks, of `no-remark`
those that meet it:
  (cat film.expect; echo capture; cat film.vcd) | hdminet check --capture --glitch 50

With --json each line of the report is an object of JSON.

Faults: those of `hdminet run`, and then `script line N: CAUSE` for the first label or expectation at fault;
nothing is written then. CAUSE is the first of these that applies:
  word       no such expectation; a pattern of no or more than 160 bytes, with more than four `*`, or with a
             space at an end; after a label no event, pulse, pull, `pin` or expectation
  number     a number that is none; `at least 0`, which always holds
  name       a device that the topology does not declare
  label      a label that is empty or stands above already; one that no line above has; for a refusal, one
             that is no event's
  order      a window ends before it begins, or the time of a state is past `end`
  pattern    the line of no round meets the pattern; no event is refused with the word; no state line has it;
             no kind of remarks is called so
  range      more than 1000000 instants, or a second range
  order with line M   an instant of the range, and line M of the script, are out of order
The faults of a range come first of all; a script that is refused at an instant T of it has ` at T` after
its fault. With --capture they are `no capture line`, `line N: CAUSE` of the capture as those of hdminet
mon, and `expectations line N: CAUSE`.

Exit status: 0 all tests hold; 1 a test failed, or input refused; 2 command line refused; 3 a read or write
fault, or input past 1048576 bytes; 4 no memory.";

pub const STEP_ABOUT: &str = "Takes a run step by step, edge by edge or round by round";

/// The flags of `step`, each with its help.
pub const STEP_FLAGS: &[(&str, &str)] = &[(
    "json",
    "Prints each line as an object of JSON: the line itself, and what it says",
)];

pub const STEP_HELP: &str = "\
The input is that of `hdminet run`, and after its `end` line a line `steps` and the steps, one a
line. Lines that are empty or begin with `#` are skipped.
  edge                    the next edge of the CEC line; it begins the next round where none is begun,
                          or where the last one has given all its edges
  round                   what the trace has of the round that was begun, or of the next one: the lines
                          of the events before it, and its own
  until opcode XX         the same of the first round that reads a complete frame of this opcode (two
                          hex digits in lower case); of a round that was begun, or of the next one on
  until device NAME       of the first round in which the device sends
  until break             of the first round that ends in any other way than complete
  show NAME               the state line of a device

A step that the run does not have any more writes `ended`, and the run stays where it is.

The line of an edge is `T low` or `T high`, and then ` NAME=STANDING` for each device on the wire:
  idle                    outside a reading, the line high
  start-low, start-high   in the start bit, before and after its rise
  slot:K:BITS             in slot K, with the bits sampled so far, `-` for none
  wait-high               after an ending, the line still low

With --json each line is an object, as of `hdminet run --json`, in which it stands as `line`. That of
an edge has the type `edge`, with `at`, `level` and `devices`, a list of `device`, `position`, `slot`
and `bits`; that of `ended` the type `ended`.

An example, and what it gives:
  device tv tv 1
  script
  end 200000
  steps
  edge                    12000 low tv=start-low
  edge                    15700 high tv=start-high
  round                   12000 39150 complete 0>0 nack by tv out -
  until break             ended

Faults: those of `hdminet run`; then `no steps line`, or `steps line N` for the first line that is no
step, where N counts from the line after `steps`. Nothing is written then.

Exit status: 0 done; 1 input refused; 2 command line refused; 3 a read or write fault, or input
past 1048576 bytes; 4 no memory.";

pub const LIVE_ABOUT: &str =
    "Runs a network whose script comes line by line, and answers each line";

/// The flags of `live`, each with its help.
pub const LIVE_FLAGS: &[(&str, &str)] = &[(
    "json",
    "Prints each line of the trace, of edges and of answers as an object of JSON",
)];

pub const LIVE_HELP: &str = "\
The input is a topology, a line `script`, and then lines, each of which is answered before the next
one is read. For each it writes what of the trace is certain by then, and one line of answer.
  a line of a script      as of `hdminet run`, for the horizon or later; the horizon is 0 at first
  run to T                sets the horizon to T microseconds: what is over before T is written
  wait                    sets it to where one more event or round is over, if nothing else comes
  wait T                  the same, at most to T
  show NAME               the answer is the state line of a device
  edge T                  sets it to the microsecond after the line's next edge, which is reported,
                          or to where an event or a round before it is over; at most to T
  edges on, edges off     from now on edges are reported with every line, or not
  seats on, seats off     from now on notes of devices from outside are reported, or not
  end T                   the rest of the trace; then the session is over
Answers:
  = H                     the line is taken; the horizon
  = H idle                after `wait`: nothing comes any more, unless a line does
  = state NAME ...        after `show`
  ! N CAUSE               line N after `script` is refused, for a cause of scripts, or last `past`:
                          it is for an instant before the horizon. It changes nothing
With --json each of these lines is an object, as of `hdminet run --json`, in which it stands as
`line`: `= H` is a `horizon` with `at` and `idle`, `= state ..` a `state`, `! N CAUSE` a `refusal`
with `script_line` and `cause`, `~ T L` an `edge` with `at` and `level`,
`* sent ..` a `sent` with `script_line`, `fate` and `attempts`, `* moved ..` a `moved` with `device`
and `physical_address`.
With --explain a refused line is shown on standard error after its answer, with what would be right.
An edge is a line `~ T 0` or `~ T 1`, the level that the line then has, above its round's line.
A note `* sent N ack` is of a frame that line N handed in, and has `ack`, `nack`, `lost` or `broken`,
and the attempts. `* moved NAME ADDRESS` is of a device from outside that came, or left (`-`). Each
is below the line of its round or event.
Without the answers, the edges and the notes, what is written is the trace that `hdminet run` writes of the
lines taken.
At most 16384 pulses and pulls wait at a time, and a pulse comes while fewer than 4096 wait: one that
a round has taken counts no more once that is told.

An example, `>` before what is sent:
  > device tv tv 1
  > script
  > run to 50000
  12000 39150 complete 0>0 nack by tv out -
  = 50000
  > wait
  55500 178650 complete 0>f report-physical-address 0.0.0.0 tv ok by tv out -
  = 178651
  > wait
  = 178651 idle

Faults: before `script` those of `hdminet run`; then `script line N: end` where the input ends
before `end T`, and `script line N: too-long` for a line of more than 4096 bytes. What was written
before stays.

Exit status: 0 done; 1 input refused; 2 command line refused; 3 a read or write fault, or a topology
past 1048576 bytes; 4 no memory.";

pub const MON_ABOUT: &str = "Prints what was read on a captured line";

/// The flags of `mon`, each with its help.
pub const MON_FLAGS: &[(&str, &str)] = &[
    (
        "from-start",
        "Prints all readings; without it of a vcd, pin or csv those from where the line was first idle",
    ),
    (
        "from-idle",
        "Prints one line for the readings that begin before the line was first idle",
    ),
    (
        "invert",
        "Reads the levels the other way round, as of a probe that turns them",
    ),
    (
        "audit",
        "Prints below each reading what the standard would have otherwise",
    ),
    (
        "timing",
        "Prints the audit, with the widths of each reading's parts",
    ),
    (
        "strict",
        "Ends with status 1 where the audit has a remark, or with --report would have one, once all of it is printed",
    ),
    (
        "fold",
        "Prints bad starts one after another as one line, from the first to the last",
    ),
    (
        "json",
        "Prints each line as an object of JSON: readings, and with --audit remarks",
    ),
    ("edges", "Prints the line itself, as an edge file"),
    (
        "report",
        "Prints what the capture tells of each device on the line",
    ),
    (
        "verdict",
        "Prints in one line what the capture looks like as a whole",
    ),
    (
        "as-test",
        "Prints expectations that the capture meets, for check --capture",
    ),
    (
        "diff",
        "Reads two captures, and prints where their frames differ; status 1 where they do",
    ),
    (
        "follow",
        "With --from edges, pin or csv, prints each reading as soon as the lines so far say that it is over",
    ),
];

/// Those that take a value, with what stands for it.
pub const MON_VALUES: &[(&str, &str, &str)] = &[
    (
        "from",
        "FORM",
        "Reads edges, vcd, pin or csv; where it is left out the first line says which",
    ),
    SIGNAL,
    (
        "scale",
        "FACTOR",
        "Multiplies each time, of a capture in another unit or of a clock that is off",
    ),
    (
        "glitch",
        "MICROSECONDS",
        "Passes over pulses and gaps that are shorter; 50 is safe",
    ),
    (
        "margin",
        "MICROSECONDS",
        "Reads by windows that are wider at either side, by 300 at most",
    ),
    (
        "replay",
        "ADDRESS",
        "Prints what the device of a logical address drove, as lines `pin` of a script",
    ),
];

pub const MON_HELP: &str = "\
The input is an edge file: the falls and rises of the CEC line in the order of their times, as a logic
analyser captures them, and the end of the capture. Lines that are empty or begin with `#` are skipped,
but counted. Times are whole microseconds, at most 2000000000000.
  T 0           the line falls; the first edge is a fall, and falls and rises take turns
  T 1           the line rises
  T end         the last line, not before the last edge

The output has a line for each reading, in order: its fall, its ending, how it ended, and what it told.
  START END complete FRAME VERDICT   a frame as `hdminet asm` takes it; ack or nack, and of a
                                     broadcast ok or refused
  START END short BITS               a fall too early for the next slot
  START END silent BITS              no fall in time for the next slot
  START END bad-start -              a start bit out of time
  START END long BITS                a sixteenth block that is not the last
  START END open BITS                not ended at the end of the capture
BITS are the bits read so far, `-` for none.

An example, and what it gives:
  1000 0
  4700 1
  5500 0
  6100 1
  20000 end                          1000 8251 silent 1

Captures of other tools are read too: Value Change Dumps (vcd) of PulseView, sigrok-cli and GTKWave, pin
events of cec-ctl (pin), and comma-separated values of Logic (csv). The first line says which it is, or
--from does; --signal names the wire:
  ./hdminet mon --from vcd --signal CEC --glitch 50 < capture.vcd

Of these forms one line, `0 T joined -`, stands for the readings that begin before T, when the line had
been high for 7200 microseconds, since a capture may begin in the middle of a frame: that is --from-idle.
With --from-start all readings are printed. With --glitch pulses and gaps of fewer microseconds are passed
over. With --margin the windows of a start bit and of a bit's period are so many microseconds wider at
either side, for devices that are nearly right; an audit still names each width that is out of the
standard's. With --invert a level that is captured as low is high, and the other way round. With --scale
each time is multiplied by a number, 0.0001 to 1000, and cut to whole microseconds, after --invert and before
--glitch; of a capture whose bits last N microseconds it is 2400 / N:
  ./hdminet mon --scale 0.1 < tenths.edges

Standard error names the events that a pin file has lost, the wires of a capture on whose first nothing was
read, and the verdict of a line that is not fine: what it looks like, and the flag that reads more of it. An
edge file that is read with no flag has its verdict with --explain alone.

With --edges the output is the line itself, as an edge file.

With --audit indented lines below each reading say what the standard would have otherwise, and at the end
stands a summary; with --timing the widths of each reading's parts too:
  ./hdminet mon --audit < capture.vcd
    1000000 1051150 complete 4>0 image-view-on ack
      slot 13 block 2 bit 3 low 870 not 400..800
With --strict the status is 1 where it has a remark: something that the standard has otherwise. A note is
none: a block that nobody takes, bad starts, a second address, what was read, and the summary.

With --fold bad starts one after another are one line, from the first fall to the last ending:
  START END bad-starts N
An audit remarks the widths of the first one alone; with --fold those after it are one line there too, as
far as none has a line below it.

With --follow each line of an edge file, of pin events or of comma-separated values is read as it comes, at
most 4096 bytes long, and a reading is printed as soon as it is over, all of them as with --from-start; what
was printed before a fault stays. With --from-idle nothing is printed before the line has been high for 7200
microseconds, then the line for the readings before. With --fold bad starts one after another are printed
once another reading is over, or with the end. With --audit what there is to say of a reading is printed as
soon as the next fall, or the end, says all of it:
  pin-events | ./hdminet mon --follow --from pin --audit

In place of readings the output may be what is said of the whole capture (docs/mon.md has the lines):
  ./hdminet mon --verdict capture.vcd            what the line looks like, and the flag that reads more of it
  ./hdminet mon --report capture.vcd             of each device its frames, widths, free times, answers and faults
  ./hdminet mon --as-test good.vcd > good.expect        expectations that it meets, for check --capture
  ./hdminet mon --replay 4 capture.vcd > player.pins    what the device at address 4 drove, as pins of a script
  ./hdminet mon --diff before.vcd after.vcd      the frames of two captures beside each other

With --json each line of the output is an object of JSON, whose first field is that line. Of an audit its
type is reading, remark, note, sender, widths or summary; a remark has its kind, the section of HDMI 1.4
CEC and its values.

Faults: `line N: CAUSE` for the first line at fault; nothing is written then. Of an edge file CAUSE is line
(ill-formed, past the limit or after the end; or the line after the last, where no end is there) or order
(out of turn or time); of the others also word, scale, signal, time, late and end, as docs/captures.md
has them. `scale: late` where --scale takes the end past 2000000000000.

Exit status: 0 done; 1 input refused, a remark with --strict, or captures that differ with --diff; 2 command
line refused; 3 a read or write fault, or input past 1048576 bytes, with --from past 67108864; 4 no memory.";
