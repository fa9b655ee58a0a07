//! Networks of a television and devices in its first ports.
ghost use Rattle.std.specs.Prelude.{◌≤◌, ◌<◌, All};

use device_core::Ticket;
use edid_tree::Tree;
use line_frames::Frame;
use line_wave::{Pulses, Stretch};
use line_wire::EdgeWire;
use room_net::{Event, Net, RoundReport};
use std::process::Abort;
use text_core::Kind;

/// The last instant at which a round may begin or an event come.
pub(crate) const LATEST: u64 = 2_000_000_000_000;

const NAMES: &[&[u8]] = &[
    b"tv", b"d1", b"d2", b"d3", b"d4", b"d5", b"d6", b"d7", b"d8", b"d9", b"d10", b"d11", b"d12",
    b"d13", b"d14",
];

// Adds a device in the television's port of its number.
fn add_device(rt: &impl Abort, tree: &mut Tree<15>, kind: Kind) {
    let number = tree.count();
    assert!(rt; 0 < number && number < 15);
    tree.add(NAMES[number], kind, 0).expect(rt, "a device");
    assert!(rt; number < tree.count());
    tree.plug(number, 0, number as u8).expect(rt, "a free port");
}

fn pulses_of(rt: &impl Abort, stretches: &[Stretch]) -> Pulses
    ensures { All (λ p. p.from ≤ 2000000000000) result }
{
    let pulses = Pulses::new(stretches).expect(rt, "sparse pulses");
    assert!(rt; pulses.as_slice().iter().all(|pulse| pulse.from <= LATEST));
    pulses
}

/// A television of so many ports, these devices in the first of them, and these pulses.
pub(crate) fn room(
    rt: &impl Abort,
    ports: u8,
    kinds: &[Kind],
    stretches: &[Stretch],
) -> Net<EdgeWire>
    requires { ports ≤ 15 }
{
    let mut tree = Tree::new();
    tree.add(b"tv", Kind::Tv, ports).expect(rt, "a television");
    for kind in kinds {
        add_device(rt, &mut tree, *kind);
    }
    assert!(rt; 0 < tree.count());
    Net::new(tree, EdgeWire::new(), pulses_of(rt, stretches))
}

/// Runs the next round, if there is one that begins before this instant.
pub(crate) fn round_before(
    rt: &impl Abort,
    net: &mut Net<EdgeWire>,
    end: u64,
) -> Option<RoundReport> {
    if matches!(net.next_start(), Some(start) if start < end) {
        assert!(rt; net.close() <= LATEST);
        net.round()
    } else {
        None
    }
}

/// Unplugs a device at an instant, or plugs it into a port of the television if it is unplugged.
pub(crate) fn replug(rt: &impl Abort, net: &mut Net<EdgeWire>, at: u64, child: usize, port: u8) {
    assert!(rt; at <= LATEST && child < net.tree().count() && 0 < net.tree().count());
    let event = if net.tree().on_wire(child) {
        Event::Unplug { child }
    } else {
        Event::Plug {
            child,
            parent: 0,
            port,
        }
    };
    assert!(rt; net.apply(at, event).is_ok());
}

/// A device sends a frame at an instant.
pub(crate) fn send(rt: &impl Abort, net: &mut Net<EdgeWire>, at: u64, device: usize, bytes: &[u8]) {
    assert!(rt; at <= LATEST && device < net.tree().count());
    let frame = Frame::new(bytes).expect(rt, "a frame");
    let event = Event::Send {
        device,
        frame,
        ticket: Ticket {
            line: 0,
            attempts: None,
        },
    };
    assert!(rt; net.apply(at, event).is_ok());
}
