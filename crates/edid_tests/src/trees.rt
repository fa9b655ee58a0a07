//! Trees: what is refused and in which order, addresses, what ports pass on.
use crate::ddc::learnt;
use crate::samples::{comes_out, edid_of, hex_of, number, owned, parted, two_numbers};
use edid_core::Edid;
use edid_ddc::Ddc;
use edid_tree::{PortEdidError, Tree};
use std::fmt::Debug;
use std::process::Abort;
use text_core::Kind;

/// What is done with a tree or asked of it, a line each, and what comes of it; `-` where it is done.
const REFUSALS: &str = "\
add tv tv 4 => -
add tv2 tv 1 => SecondRoot
add tv tv 1 => Name
add 2nd player 0 => Name
add p1 player 0 => -
add p2 player 0 => -
add a switch 2 => -
add b switch 2 => -
plug 1 0 5 => PortRange
plug 1 0 0 => PortRange
plug 1 0 1 => -
plug 2 0 1 => PortTaken
plug 1 0 2 => NotLoose
plug 0 3 1 => NotLoose
plug 3 4 1 => -
plug 4 3 1 => Loop
plug 4 4 2 => Loop
unplug 2 => NotPlugged
address 3 => None
unplug 1 => -
wire 1 => false
device 0 => tv Tv 4
device 1 => p1 Player 0
device 3 => a Switch 2
number b => Some(4)
count devices => 5
";

/// A television from outside is the root as any other: there is one television, its own or from outside, and it is never
/// plugged in. A device from outside is none.
const ROOTS: &str = "\
add amp amp 1 => -
add box outside 2 => -
wire 1 => false
address 0 => None
add tv outside-tv 4 => -
add tv2 tv 1 => SecondRoot
add tv2 outside-tv 1 => SecondRoot
add tv outside-tv 1 => Name
add 2nd outside-tv 1 => Name
plug 2 0 1 => NotLoose
plug 0 2 5 => PortRange
plug 0 2 1 => -
plug 1 2 4 => -
plug 2 1 2 => NotLoose
unplug 2 => NotPlugged
address 2 => Some(Phys { high: 0, low: 0 })
address 0 => Some(Phys { high: 16, low: 0 })
address 1 => Some(Phys { high: 64, low: 0 })
wire 2 => true
wire 1 => true
device 2 => tv OutsideTv 4
count devices => 3
";

/// An emulated television keeps one from outside out too.
const FIRST_ROOT: &str = "\
add tv tv 4 => -
add tv2 outside-tv 1 => SecondRoot
add p1 player 0 => -
count devices => 2
";

/// A tree takes fifteen devices. What is wrong with a sixteenth besides does not matter.
const FULL: &str = "\
add tv tv 4 => -
add p1 player 0 => -
add p2 player 0 => -
add p3 player 0 => -
add p4 player 0 => -
add p5 player 0 => -
add p6 player 0 => -
add p7 player 0 => -
add p8 player 0 => -
add p9 player 0 => -
add p10 player 0 => -
add p11 player 0 => -
add p12 player 0 => -
add p13 player 0 => -
add p13 player 0 => Name
add p14 player 0 => -
add p15 player 0 => Full
add p14 player 0 => Full
add 2nd player 0 => Full
add tv2 tv 1 => Full
count devices => 15
device 14 => p14 Player 0
";

const CHAIN: &str = "\
add tv tv 1 => -
add s1 switch 1 => -
add s2 switch 1 => -
add s3 switch 1 => -
add s4 switch 1 => -
add p1 player 0 => -
plug 1 0 1 => -
plug 2 1 1 => -
plug 3 2 1 => -
plug 4 3 1 => -
plug 5 4 1 => -
address 0 => Some(Phys { high: 0, low: 0 })
address 1 => Some(Phys { high: 16, low: 0 })
address 4 => Some(Phys { high: 17, low: 17 })
address 5 => Some(Phys { high: 255, low: 255 })
wire 5 => true
count devices => 6
";

/// Devices and ports, and what they pass on of a television's EDID. Without an address they pass on nothing.
const TELEVISION: &str = "\
add tv tv 4 => -
port 0 1 of tv..0151 speaking..e8 => tv..0151 speaking..d8 148=10
port 0 2 of tv..0151 speaking..e8 => tv..0151 speaking..c8 148=20
port 0 5 of tv..0151 speaking..e8 => PortRange
port 0 1 of tv..0052 => NoHdmiBlock
";

/// A television from outside passes on its EDID as any other.
const FROM_OUTSIDE: &str = "\
add box outside 2 => -
add tv outside-tv 4 => -
add amp amp 1 => -
plug 0 1 2 => -
plug 2 1 1 => -
port 1 1 of tv..0151 speaking..e8 => tv..0151 speaking..d8 148=10
port 1 2 of tv..0151 speaking..e8 => tv..0151 speaking..c8 148=20
port 1 5 of tv..0151 speaking..e8 => PortRange
port 0 2 of tv..0151 speaking..e8 => tv..0151 speaking..c6 148=22
port 2 1 of tv..0151 speaking..e8 => tv..0151 020319f143900403260f7f071507508301000065030c001100..e7
learn 2 1 of tv..0151 speaking..e8 => Ok(Phys { high: 17, low: 0 })
";

/// A television, an amplifier in its first port with a switch in its own, and a switch in the second: the ports above the
/// amplifier and beside it, its own, and the one below.
const AMPLIFIER: &str = "\
add tv tv 2 => -
add amp amp 1 => -
add below switch 1 => -
add beside switch 1 => -
plug 1 0 1 => -
plug 2 1 1 => -
plug 3 0 2 => -
port 0 1 of tv..0151 speaking..e8 => tv..0151 speaking..d8 148=10
port 3 1 of tv..0151 speaking..e8 => tv..0151 speaking..c7 148=21
port 1 1 of tv..0151 speaking..e8 => tv..0151 020319f143900403260f7f071507508301000065030c001100..e7
port 2 1 of tv..0151 speaking..e8 => tv..0151 020319f143900403260f7f071507508301000065030c001110..d7
";

/// A television, and an amplifier in its second port: what a device in the amplifier's third port learns.
const LEARNT: &str = "\
add tv tv 4 => -
add amp amp 3 => -
plug 1 0 2 => -
learn 1 3 of tv..0151 speaking..e8 => Ok(Phys { high: 35, low: 0 })
learn 1 3 of tv..034f map..0c speaking..e8 empty..06 => Ok(Phys { high: 35, low: 0 })
";

fn kind_of(word: &str) -> Option<Kind> {
    match word {
        "tv" => Some(Kind::Tv),
        "amp" => Some(Kind::Amp),
        "player" => Some(Kind::Player),
        "outside" => Some(Kind::Outside),
        "outside-tv" => Some(Kind::OutsideTv),
        "switch" => Some(Kind::Switch),
        _ => None,
    }
}

fn done<E: Debug + Drop>(rt: &(impl Abort + AllocGlobal), answer: Result<(), E>) -> String {
    match answer {
        Ok(()) => owned(rt, "-"),
        Err(error) => format!(in rt.alloc(); "{error:?}").expect(rt, "a text"),
    }
}

fn add(rt: &(impl Abort + AllocGlobal), tree: &mut Tree<15>, words: &str) -> String {
    let (name, words) = words.split_once(' ').expect(rt, "a kind");
    let (kind, ports) = words.split_once(' ').expect(rt, "ports");
    let kind = kind_of(kind).expect(rt, "a kind");
    let ports = number(rt, ports).min(15);
    done(rt, tree.add(name.as_bytes(), kind, ports))
}

fn plug(rt: &(impl Abort + AllocGlobal), tree: &mut Tree<15>, words: &str) -> String {
    let (device, words) = words.split_once(' ').expect(rt, "a parent");
    let (parent, port) = two_numbers(rt, words);
    let (device, parent) = (usize::from(number(rt, device)), usize::from(parent));
    assert!(rt; device < tree.count() && parent < tree.count());
    done(rt, tree.plug(device, parent, port))
}

fn reported(rt: &(impl Abort + AllocGlobal), name: &[u8], kind: Kind, ports: u8) -> String {
    let name = str::from_utf8(name).expect(rt, "a name");
    format!(in rt.alloc(); "{name} {kind:?} {ports}").expect(rt, "a text")
}

/// What is asked of a device.
fn ask_device(rt: &(impl Abort + AllocGlobal), tree: &Tree<15>, verb: &str, word: &str) -> String {
    let device = usize::from(number(rt, word));
    assert!(rt; device < tree.count());
    match verb {
        "address" => format!(in rt.alloc(); "{:?}", tree.address_of(device)).expect(rt, "a text"),
        "wire" => format!(in rt.alloc(); "{}", tree.on_wire(device)).expect(rt, "a text"),
        "device" => reported(rt, tree.name(device), tree.kind(device), tree.ports(device)),
        _ => owned(rt, "no such verb"),
    }
}

fn unplug(rt: &(impl Abort + AllocGlobal), tree: &mut Tree<15>, word: &str) -> String {
    let device = usize::from(number(rt, word));
    assert!(rt; device < tree.count());
    done(rt, tree.unplug(device))
}

fn number_of(rt: &(impl Abort + AllocGlobal), tree: &Tree<15>, name: &str) -> String {
    format!(in rt.alloc(); "{:?}", tree.device_named(name.as_bytes())).expect(rt, "a text")
}

/// What a port passes on of a television's EDID: the words are the device and the port, and the television's blocks.
fn passed_on(
    rt: &(impl Abort + AllocGlobal),
    tree: &Tree<15>,
    words: &str,
) -> Result<Edid, PortEdidError> {
    let (place, blocks) = words.split_once(" of ").expect(rt, "an EDID");
    let (device, port) = two_numbers(rt, place);
    let device = usize::from(device);
    assert!(rt; device < tree.count());
    tree.port_edid(&edid_of(rt, blocks), device, port)
}

fn refused(rt: &(impl Abort + AllocGlobal), error: PortEdidError) -> String {
    format!(in rt.alloc(); "{error:?}").expect(rt, "a text")
}

/// The same as bytes, with no EDID as a value between.
fn written(rt: &(impl Abort + AllocGlobal), tree: &Tree<15>, words: &str) -> String {
    let (place, blocks) = words.split_once(" of ").expect(rt, "an EDID");
    let (device, port) = two_numbers(rt, place);
    let device = usize::from(device);
    assert!(rt; device < tree.count());
    match tree.write_port_edid(&edid_of(rt, blocks), device, port) {
        Ok(bytes) => hex::encode(rt.alloc(), bytes.as_slice()).expect(rt, "hex digits"),
        Err(error) => refused(rt, error),
    }
}

fn port(rt: &(impl Abort + AllocGlobal), tree: &Tree<15>, words: &str) -> String {
    let reported = match passed_on(rt, tree, words) {
        Ok(edid) => hex_of(rt, &edid),
        Err(error) => refused(rt, error),
    };
    assert!(rt; written(rt, tree, words) == reported);
    reported
}

/// What a device in a port learns over DDC.
fn learn(rt: &(impl Abort + AllocGlobal), tree: &Tree<15>, words: &str) -> String {
    let edid = passed_on(rt, tree, words).expect(rt, "an EDID");
    learnt(rt, &mut Ddc::new(&edid))
}

/// What is asked of a tree.
fn ask(rt: &(impl Abort + AllocGlobal), tree: &Tree<15>, verb: &str, words: &str) -> String {
    match verb {
        "number" => number_of(rt, tree, words),
        "count" => format!(in rt.alloc(); "{}", tree.count()).expect(rt, "a text"),
        "port" => port(rt, tree, words),
        "learn" => learn(rt, tree, words),
        _ => ask_device(rt, tree, verb, words),
    }
}

/// One step or question, and what comes of it.
fn take(rt: &(impl Abort + AllocGlobal), tree: &mut Tree<15>, line: &str) -> String {
    let (verb, words) = line.split_once(' ').expect(rt, "a verb");
    match verb {
        "add" => add(rt, tree, words),
        "plug" => plug(rt, tree, words),
        "unplug" => unplug(rt, tree, words),
        _ => ask(rt, tree, verb, words),
    }
}

/// Asserts what comes of each step of a tree that grows.
fn grows(rt: &(impl Abort + AllocGlobal), steps: &str) {
    let mut tree = Tree::new();
    for case in steps.lines() {
        let (step, want) = parted(rt, case);
        comes_out(rt, take(rt, &mut tree, step), want, case);
    }
}

#[test]
fn trees_grow_and_pass_on_addresses(rt: HostRuntime) {
    grows(&rt, REFUSALS);
    grows(&rt, ROOTS);
    grows(&rt, FIRST_ROOT);
    grows(&rt, FULL);
    grows(&rt, CHAIN);
    grows(&rt, TELEVISION);
    grows(&rt, AMPLIFIER);
    grows(&rt, FROM_OUTSIDE);
    grows(&rt, LEARNT);
}
