//! Files that a command line names: those that are not opened, reports of several into a writer that fails, and a terminal.
use super::*;
use program_input::OpenFault;

/// The room of examples/film.test in short, whose tests hold.
const FILM: &[u8] = b"device tv tv 4
device p1 player 0
plug p1 tv 1
script
label film at 1000000 press p1 play
expect within 60000 of film 4>0 image-view-on ack
end 2000000
";

/// The same with a range, of which each instant holds.
const SWEEP: &[u8] = b"device tv tv 4
device p1 player 0
plug p1 tv 1
script
label film at 1000000..1000001 press p1 play
expect within 60000 of film 4>0 image-view-on ack
end 2000000
";

/// Files, each a name and what it holds.
const FILES: &[(&str, &[u8])] = &[
    ("frames.txt", b"4>f active-source 1.0.0.0\n"),
    ("film.test", FILM),
    ("film.sweep", SWEEP),
];

/// The program's name, and the words of a line, with `|` between them.
fn parted(rt: &(impl Abort + AllocGlobal), line: &str) -> Vec<String> {
    let mut words = Vec::new(rt.alloc());
    for word in ["hdminet"].into_iter().chain(line.split('|')) {
        let word = String::from_str(rt.alloc(), word).expect(rt, "a word");
        words.push(word).expect(rt, "words");
    }
    words
}

/// What the program answers with these files, and with a frame that is typed on a terminal.
fn at_terminal(rt: &(impl Abort + AllocGlobal), line: &str) -> Answer {
    let files = Shelf {
        files: FILES,
        is_typed: true,
    };
    let input = b"5>0 standby\n".as_slice();
    reported_from(rt, &files, parted(rt, line), input, None)
}

/// Files none of which is opened, for this reason.
#[derive(Drop)]
struct Shut(OpenFault);

impl Opens for Shut {
    type Opened = &'static [u8];

    ghost use Rattle.std.specs.Prelude.{None};

    ghost held = { λ files name. None };

    fn open(&self, _name: &str) -> Result<&'static [u8], OpenFault> {
        Err(self.0)
    }

    fn is_typed(&self) -> bool {
        false
    }
}

#[test]
fn reports_why_a_file_is_not_opened(rt: HostRuntime) {
    for (fault, want) in [
        (OpenFault::Missing, "hdminet: a.net: no such file\n"),
        (OpenFault::Denied, "hdminet: a.net: no leave to read it\n"),
        (OpenFault::Directory, "hdminet: a.net: a directory\n"),
        (OpenFault::Other, "hdminet: a.net: read fault\n"),
    ] {
        let files = Shut(fault);
        let reported = reported_from(&rt, &files, parted(&rt, "run|a.net"), b"".as_slice(), None);
        ends(&rt, reported, 3, b"", want.as_bytes(), "run", want);
    }
}

/// Two files whose tests hold.
const HELD: &str = "\
TAP version 14
# Subtest: film.test
    ok 1 - line 2: expect within 60000 of film 4>0 image-view-on ack
    1..1
ok 1 - film.test
# 1000000..1000001 ok
ok 2 - film.sweep
1..2
";

#[test]
fn a_writer_that_fails_ends_the_report_of_several(rt: HostRuntime) {
    let files = Shelf {
        files: FILES,
        is_typed: false,
    };
    let line = "check|film.test|film.sweep";
    for room in [0usize, 1, 14, 15, 60, HELD.len() - 1] {
        let reported = reported_from(&rt, &files, parted(&rt, line), b"".as_slice(), Some(room));
        let fault = format!(in rt.alloc(); "hdminet: write fault after {room} bytes\n");
        let fault = fault.expect(&rt, "a fault");
        let front = &HELD.as_bytes()[..room];
        ends(
            &rt,
            reported,
            3,
            front,
            fault.as_bytes(),
            line,
            fault.as_str(),
        );
    }
}

/// Command lines without a file, and what is waited for at a terminal.
const WAITED: &str = "\
asm => frames on standard input (--help explains them)
mon|--from|edges => a capture on standard input (--help explains it)
run => a topology and a script on standard input (--help explains them)
check|--capture => expectations and a capture on standard input (--help explains them)
edid => an EDID on standard input (--help explains it)
";

#[test]
fn a_terminal_is_told_what_is_waited_for(rt: HostRuntime) {
    for case in WAITED.lines() {
        let (line, what) = case.split_once(" => ").expect(&rt, case);
        let said = format!(in rt.alloc(); "hdminet: waits for {what}\n").expect(&rt, "a line");
        let reported = at_terminal(&rt, line);
        expect(&rt, reported.err.starts_with(said.as_bytes()), line, what);
    }
    for line in ["asm|-", "asm|frames.txt", "asm|--help"] {
        expect(&rt, at_terminal(&rt, line).err.is_empty(), line, "nothing");
    }
}
