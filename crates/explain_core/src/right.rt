//! What would be right, said once for each cause.
use capture_forms::Cause;
use edid_base::BaseError;
use edid_core::{EdidCause, EdidError};
use edid_dump::DumpError;
use expect_text::{ExpectCause, RangeCause};
use explain_marks::{InputFault, Parting, WholeFault};
use message_hex::DisCause;
use message_lay::LayCause;
use message_text::AssembleError;
use room_script::{ScriptCause, TopologyCause};

fn of_topology(cause: TopologyCause) -> &'static str {
    match cause {
        TopologyCause::Word => {
            "KIND is tv, amp, player, recorder, switch, combo, outside or outside-tv; words stand one space apart; `edid` comes once"
        }
        TopologyCause::Number => {
            "PORTS is a decimal number from 0 to 15, and PORT a decimal number; neither has a zero before it"
        }
        TopologyCause::Name => {
            "NAME is new, of 1 to 14 of a to z, 0 to 9 and `-`, first a letter; CHILD and PARENT have a `device` line above"
        }
        TopologyCause::Full => "a network has at most 15 devices",
        TopologyCause::SecondRoot =>
            "a network has one device of the kind tv or outside-tv, its root",
        TopologyCause::NoRoot =>
            "a network has a device of the kind tv or outside-tv, as `device tv tv 4`",
        TopologyCause::PortRange => "PORT is from 1 to the PORTS that the line of PARENT gives it",
        TopologyCause::PortTaken => {
            "one device stands in a port; another one has this port already"
        }
        TopologyCause::NotLoose => "CHILD is plugged in nowhere yet, and is not the tv",
        TopologyCause::Loop => "PARENT is neither CHILD nor plugged in below it",
        TopologyCause::Hex => "HEX has two hex digits a byte, and at least one byte",
    }
}

fn of_script(cause: ScriptCause) -> &'static str {
    match cause {
        ScriptCause::Word => "words stand one space apart, and nothing follows the last one",
        ScriptCause::Number => {
            "T is decimal microseconds, 0 to 1000000000000; PORT and WIDTH are decimal numbers; none has a zero before it; LEVEL is 0 or 1"
        }
        ScriptCause::Name => {
            "a NAME, CHILD or PARENT of the script has a `device` line in the topology"
        }
        ScriptCause::Frame(cause) => of_frame(cause),
        ScriptCause::Hex => "HEX has two hex digits a byte, and 1 to 16 bytes",
        ScriptCause::Width => {
            "WIDTH is a number of microseconds, 1 to 10000, of a pull 1 to 10000000"
        }
        ScriptCause::Order => {
            "times do not go back: each T is that of the line before it or later, and a pulse or a pull begins after the end of the last one, with the pin high"
        }
        ScriptCause::Close => {
            "a pulse begins at least 25000 microseconds after the end of the last pulse or pull"
        }
        ScriptCause::TooMany => {
            "a script has at most 16384 pulses and pulls, and a pulse stands after fewer than 4096"
        }
        ScriptCause::End => {
            "the last line is `end T`, with T after that of each line `at`; after it only empty lines and comments come"
        }
    }
}

fn of_expectation(cause: ExpectCause) -> &'static str {
    match cause {
        ExpectCause::Word | ExpectCause::Pattern => {
            "words stand one space apart; PATTERN has 1 to 160 bytes, at most four `*` and no space at an end; a label stands before an event, a pulse, a pull, the pin or an expectation"
        }
        ExpectCause::Number => {
            "D, T and U are decimal numbers of microseconds, N is a count; none has a zero before it"
        }
        ExpectCause::Name => "a line of the topology declares the device",
        ExpectCause::Label => {
            "a label is a word that no other line has, on a line above those that name it; `refused` names that of an event, or stands on the line below one"
        }
        ExpectCause::Order => {
            "a window does not end before it begins: U is T or later; the time of a state is not past `end`"
        }
        ExpectCause::Unmet => {
            "PATTERN begins as what some round says in the trace after its times, without `complete`: `4>f active-source 1.0.0.0 ok`, `short 0`; a frame to one address has `ack` or `nack`, one to `f` has `ok` or `refused`; an event is refused with port-range, port-taken, not-loose, loop, not-plugged, not-for-kind, off-wire, queue-full, own-address or no-address"
        }
    }
}

fn of_range(cause: RangeCause) -> &'static str {
    match cause {
        RangeCause::Number => {
            "T, U and S of a range `T..U/S` are decimal numbers, T and U of at most 1000000000000 microseconds, S at least 1; none has a zero before it"
        }
        RangeCause::Order => "a range `T..U` does not end before it begins: U is T or later",
        RangeCause::Crosses(_) => {
            "each instant of a range keeps the order of the script: events in order of time, pulses, pulls and the pin too, `end` after each event, no state after `end`"
        }
        RangeCause::Range => {
            "one time of a script may be a range, `T..U` or `T..U/S`, of at most 1000000 instants; another line may have one already"
        }
    }
}

fn of_frame(cause: AssembleError) -> &'static str {
    match cause {
        AssembleError::Address => {
            "a line begins with `I>D`, the hex digits of initiator and destination in lower case, as `4>0`"
        }
        AssembleError::Name => {
            "after `I>D` and one space comes an opcode's name, or `op-XX` for an opcode that has none"
        }
        AssembleError::TooLong => {
            "a frame has at most 14 operands, so at most 28 hex digits after `:`"
        }
        AssembleError::Count => {
            "the opcode takes another number of words; words stand one space apart"
        }
        AssembleError::Operand => {
            "operands are the opcode's words, as docs/asm.md has them; as hex, `:` and two lower-case digits a byte, where no word says them"
        }
    }
}

fn of_hex(cause: DisCause) -> &'static str {
    match cause {
        DisCause::Digit => {
            "a byte is two hex digits, with `0x` before them or not; between bytes stand spaces, `:`, `,` or `-`"
        }
        DisCause::Half => "a hex digit stands alone; each byte has two",
        DisCause::Length => "a frame has 1 to 16 bytes",
    }
}

fn of_laid(cause: LayCause) -> &'static str {
    match cause {
        LayCause::Word => {
            "a line is `T FRAME`, or `T FAULT FRAME` with a fault and its numbers; `blocks HEX` may stand in the place of FRAME"
        }
        LayCause::Number => {
            "T is decimal microseconds, 0 to 1000000000000, and BIT 0 or 1; BLOCK, SLOT, LOW, TOTAL and AFTER are decimal numbers; none has a zero before it"
        }
        LayCause::Width => {
            "LOW is 1 to 10000000 microseconds, also of lows that a glitch joins, TOTAL more than LOW and at most 10000000, AFTER at most 10000000"
        }
        LayCause::Frame(AssembleError::Address) => {
            "after T, or after a fault and its numbers, comes `blocks` or a frame, `I>D` first, the hex digits of initiator and destination in lower case; a fault is eom, bit, start, last, drive or glitch"
        }
        LayCause::Frame(cause) => of_frame(cause),
        LayCause::Blocks => {
            "HEX is two lower-case digits a byte, without spaces, of 1 to 64 bytes"
        }
        LayCause::Slot => {
            "slots and blocks count from 1; a frame has a block for its header, its opcode and each operand, and ten slots a block"
        }
        LayCause::Order => "a frame begins after the end of the last pull above",
        LayCause::Late => "each pull begins at 1000000000000 microseconds or before",
    }
}

fn of_capture(cause: Cause) -> &'static str {
    match cause {
        Cause::Line => {
            "a line is `T 0` for a fall or `T 1` for a rise, and the last one `T end`, T decimal microseconds, 0 to 2000000000000"
        }
        Cause::Word => {
            "nothing of this form reads so: docs/captures.md has each form, and `mon --from` says which it is"
        }
        Cause::Scale => {
            "before its changes a dump says how long a tick is, as `$timescale 1 us $end`: 1, 10 or 100 of s, ms, us, ns, ps or fs"
        }
        Cause::Signal => {
            "no wire has this name and one bit: `mon --signal` takes the name in a dump's `$var`, or in the line of names"
        }
        Cause::Time => {
            "a time is `#` and a decimal number with no zero before it, at most 2000000000000 microseconds"
        }
        Cause::Late => "a time is at most 2000000000000 microseconds after the start",
        Cause::Order => {
            "falls and rises take turns, from a fall on, each later than the one before; `end` is not before the last"
        }
        Cause::End => {
            "the definitions of a dump end with `$enddefinitions $end`, and its changes follow"
        }
    }
}

fn of_base(error: BaseError) -> &'static str {
    match error {
        BaseError::Header => "an EDID begins with the bytes 00 ff ff ff ff ff ff 00",
        BaseError::Checksum => {
            "the bytes of the base block add up to a multiple of 256: byte 127 sees to it"
        }
        BaseError::Revision => "bytes 18 and 19 are 01 03 or 01 04, for E-EDID 1.3 or 1.4",
        BaseError::Maker => {
            "bytes 8 and 9 are three letters of five bits each, A as 1 to Z as 26, with a top bit of 0"
        }
    }
}

fn of_edid(error: EdidError) -> &'static str {
    match error {
        EdidError::Length => {
            "an EDID has 128, 256, 384 or 512 bytes: a base block and up to three extensions of 128 bytes each"
        }
        EdidError::Count => {
            "byte 126 of the base block is the number of the extensions that follow"
        }
        EdidError::Base(error) => of_base(error),
        EdidError::Ext(..) => {
            "the bytes of each extension add up to a multiple of 256: its last byte sees to it"
        }
    }
}

fn of_edid_cause(cause: EdidCause) -> &'static str {
    match cause {
        EdidCause::Edid(error) => of_edid(error),
        EdidCause::NoHdmiBlock => {
            "the EDID of a television has a data block of HDMI, with a physical address for its ports to pass on"
        }
    }
}

fn of_dump(error: DumpError) -> &'static str {
    match error {
        DumpError::NoDump => {
            "a dump of an EDID begins with the bytes 00 ff ff ff ff ff ff 00; each line has its bytes as pairs of hex digits"
        }
        DumpError::Cut(_) => {
            "an EDID has 128, 256, 384 or 512 bytes, so its dump ends at the end of a block of 128"
        }
        DumpError::Long(_) => "an EDID has 512 bytes at most",
    }
}

fn of_parting(parting: Parting) -> &'static str {
    match parting {
        Parting::Script => {
            "a line `script`, and nothing else on it, parts the topology from the script"
        }
        Parting::Steps => {
            "a line `steps`, and nothing else on it, parts the script from the commands"
        }
        Parting::Capture => {
            "a line `capture`, and nothing else on it, stands between the expectations and the capture, or between two captures"
        }
    }
}

fn of_whole(fault: WholeFault) -> &'static str {
    match fault {
        WholeFault::Dump(error) => of_dump(error),
        WholeFault::NoRange => "no time of the script is a range, as `at 5..9 press tv power`",
        WholeFault::InputTooLong => {
            "standard input has at most 1048576 bytes, a capture with `--from` 67108864"
        }
        WholeFault::LineTooLong => "a line of a session has at most 4096 bytes",
        WholeFault::Read => {
            "standard input is not to be read: is it open, and is it a file and no folder?"
        }
        WholeFault::Write => {
            "standard output takes no more: is the disk full, or the reader gone? What was written before is the front of the output"
        }
        WholeFault::Memory => "the system gave no more memory",
        WholeFault::NotUtf8 => "the words of the command line are UTF-8",
    }
}

/// What would be right in place of a fault.
pub fn right(fault: InputFault) -> &'static str {
    match fault {
        InputFault::Topology(at) => of_topology(at.cause),
        InputFault::Script(at) => of_script(at.cause),
        InputFault::Past { .. } => {
            "T is the horizon or later: the number after `=` in the last answer"
        }
        InputFault::Expectation(at) => of_expectation(at.cause),
        InputFault::Range(at) => of_range(at.cause),
        InputFault::Steps { .. } => {
            "XX is an opcode, two hex digits in lower case; NAME has a `device` line in the topology; words stand one space apart"
        }
        InputFault::Frame { cause, .. } => of_frame(cause),
        InputFault::Hex { cause, .. } => of_hex(cause),
        InputFault::Lay { cause, .. } => of_laid(cause),
        InputFault::Capture { cause, .. } => of_capture(cause),
        InputFault::Edid(cause) => of_edid_cause(cause),
        InputFault::NoPort => "a device has ports 1 to 15",
        InputFault::TextSyntax { .. } => {
            "here another line has to stand: `edid --help` shows the lines in their order; each has its word and all its fields, and ends with a line feed"
        }
        InputFault::TextField { .. } => {
            "a field is out of its range or not spelled as it should be: numbers are decimal with no zero before them, hex is lower case"
        }
        InputFault::NoParting(parting) => of_parting(parting),
        InputFault::Whole(fault) => of_whole(fault),
    }
}
