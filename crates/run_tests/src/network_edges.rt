//! Rounds taken edge by edge, worked out by hand.
ghost use Rattle.std.specs.Prelude.{◌<◌, IsSome};

use crate::rooms::{LATEST, room, round_before, send};
use line_frames::Ending;
use line_reading::Standing;
use line_wave::{Edge, Stretch};
use line_wire::EdgeWire;
use room_net::{Net, RoundReport};
use std::process::Abort;
use text_core::Kind;

const IMAGE_VIEW_ON: u8 = 0x04;

// A television, an amplifier and a player in its ports, with a pulse of 100, once all have their addresses.
fn settled(rt: &impl Abort, from: u64) -> Net<EdgeWire> {
    let to = u64::saturating_add(from, 100);
    let mut net = room(rt, 4, &[Kind::Amp, Kind::Player], &[Stretch { from, to }]);
    for _ in 0..6u8 {
        assert!(rt; round_before(rt, &mut net, LATEST).is_some());
    }
    assert!(rt; net.tree().count() == 3);
    net
}

// Each device stands so.
fn all_stand(net: &Net<EdgeWire>, standing: Standing<'_>) -> bool
    requires { IsSome net.now.heard }
{
    for device in 0..net.tree().count() {
        if net.standing_of(device) != standing {
            return false;
        }
    }
    true
}

// An edge: when, whether the line falls, and how each device stands after it.
type Told = (u64, bool, Standing<'static>);

// These are the next edges.
fn reports(rt: &impl Abort, net: &mut Net<EdgeWire>, edges: &[Told])
    requires { IsSome net.old.heard }
    ensures { IsSome net.new.heard }
{
    for (at, low, standing) in edges {
        let edge = Edge { at: *at, low: *low };
        assert!(rt; net.next_edge() == Some(edge));
        assert!(rt; all_stand(net, *standing), "{at}");
    }
}

fn begins(rt: &impl Abort, net: &mut Net<EdgeWire>)
    ensures { IsSome net.new.heard }
{
    assert!(rt; net.close() <= LATEST);
    let is_begun = net.begin();
    assert!(rt; is_begun);
}

const BROKEN: &[Told] = &[
    (1_000_000, true, Standing::StartLow),
    (1_003_700, false, Standing::StartHigh),
    (1_004_500, true, Standing::Slot(1, &[])),
    (1_006_000, false, Standing::Slot(1, &[false])),
    (1_006_500, true, Standing::WaitHigh),
    (1_010_100, false, Standing::Idle),
];

// The amplifier's frame loses to the player's in slot 4.
const CONTENDED: &[Told] = &[
    (2_000_000, true, Standing::StartLow),
    (2_003_700, false, Standing::StartHigh),
    (2_004_500, true, Standing::Slot(1, &[])),
    (2_006_000, false, Standing::Slot(1, &[false])),
    (2_006_900, true, Standing::Slot(2, &[false])),
    (2_007_500, false, Standing::Slot(2, &[false])),
    (2_009_300, true, Standing::Slot(3, &[false, true])),
    (2_010_800, false, Standing::Slot(3, &[false, true, false])),
    (2_011_700, true, Standing::Slot(4, &[false, true, false])),
    (
        2_013_200,
        false,
        Standing::Slot(4, &[false, true, false, false]),
    ),
];

// A round: the pulse, what the devices send, the edges, whether they are all, how the round ends, and who loses at
// which slot.
struct Round {
    pulse: u64,
    begin: u64,
    frames: &'static [(usize, &'static [u8])],
    edges: &'static [Told],
    are_all: bool,
    ending: Ending,
    at: u64,
    rest: u64,
    losers: &'static [(usize, usize)],
}

const ROUNDS: &[Round] = &[
    Round {
        pulse: 1_006_500,
        begin: 1_000_000,
        frames: &[(2, &[0x40, IMAGE_VIEW_ON])],
        edges: BROKEN,
        are_all: true,
        ending: Ending::Short,
        at: 1_006_500,
        rest: 1_010_100,
        losers: &[],
    },
    Round {
        pulse: 5_000_000,
        begin: 2_000_000,
        frames: &[(1, &[0x50, 0x8f]), (2, &[0x40, IMAGE_VIEW_ON])],
        edges: CONTENDED,
        are_all: false,
        ending: Ending::Complete,
        at: 2_051_150,
        rest: 2_051_600,
        losers: &[(1, 4)],
    },
];

fn has_ended(report: &RoundReport, round: &Round) -> bool {
    let outcome = &report.outcome;
    report.begin == round.begin
        && outcome.reading.ending == round.ending
        && outcome.reading.at == round.at
        && outcome.rest == round.rest
}

// These seats lost, and at these slots.
fn has_losers(report: &RoundReport, wanted: &[(usize, usize)]) -> bool {
    let losers = report.outcome.losers.as_slice();
    for place in 0..losers.len() {
        let loser = &losers[place];
        if wanted.get(place) != Some(&(loser.seat, loser.slot)) {
            return false;
        }
    }
    losers.len() == wanted.len()
}

// Takes the edges of a round and ends it. A copy stays where it was made.
fn ends(rt: &impl Abort, net: &mut Net<EdgeWire>, round: &Round) -> bool {
    begins(rt, net);
    reports(rt, net, round.edges);
    let is_over = net.next_edge().is_none();
    let copy = net.copy();
    let report = net.finish_round();
    is_over == round.are_all
        && copy.close() < net.close()
        && has_ended(&report, round)
        && has_losers(&report, round.losers)
}

#[test]
fn rounds_go_edge_by_edge(rt: HostRuntime) {
    for round in ROUNDS {
        let mut net = settled(&rt, round.pulse);
        for (device, bytes) in round.frames {
            send(&rt, &mut net, round.begin, *device, bytes);
        }
        assert!(&rt; ends(&rt, &mut net, round), "{}", round.begin);
    }
}
