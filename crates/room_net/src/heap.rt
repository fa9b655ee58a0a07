//! A network that is made on the heap: it is large.
ghost use Rattle.std.specs.Prelude.{◌≡◌, ◌≤◌, ◌<◌, [], length, All, IfOk, None, true};
ghost use Rattle.line_wave.specs.Pulls.{are_timely};
ghost use Rattle.room_net.specs.Sound.{EndsEarly};
ghost use Rattle.line_wave.specs.Bounds.{latest_instant};
ghost use Rattle.room_net.specs.State.{each_from, loose, moved_by, first_net};

use crate::net::Net;
use crate::wiring::{DEVICES, fill_loose, rewire};
use arrayvec::ArrayVec;
use device_core::Device;
use edid_tree::Tree;
use line_wave::{Pulls, Stretch};
use line_wire::EdgeWire;
use std::alloc::{AllocError, Global};

// Each of the next three makes what is large in a frame of its own.

// Room for devices.
#[inline(never)]
fn room(alloc: Global) -> Result<Box<ArrayVec<Device<16>, DEVICES>>, AllocError>
    ensures { IfOk result (λ room. room.value.items ≡ []) }
{
    let room = Box::new(alloc, ArrayVec::new())?;
    Ok(room)
}

// The devices of a tree at the start of a run.
fn first_devices(
    alloc: Global,
    tree: &Tree<15>,
) -> Result<Box<ArrayVec<Device<16>, DEVICES>>, AllocError>
    ensures devices { IfOk result (λ devices. devices.value.items ≡ each_from 0 (moved_by 0 tree.now) (loose tree.now)) }
    ensures few { IfOk result (λ _. length tree.now ≤ 15) }
{
    let mut devices = room(alloc)?;
    fill_loose(&mut devices, tree);
    rewire(&mut devices, tree, 0);
    Ok(devices)
}

// The network without pulses.
#[inline(never)]
fn without_pulses(
    alloc: Global,
    tree: Tree<15>,
    devices: Box<ArrayVec<Device<16>, DEVICES>>,
) -> Result<Box<Net<EdgeWire>>, AllocError>
    requires devices { devices.value.items ≡ each_from 0 (moved_by 0 tree) (loose tree) }
    requires few { length tree ≤ 15 }
    ensures { IfOk result (λ net. net.value ≡ first_net tree []) }
{
    let net = Net {
        tree,
        wire: EdgeWire::new(),
        close: 0,
        pulses: Pulls::none(),
        rest: 0,
        devices: Box::into_inner(devices),
        begun: None,
    };
    let net = Box::new(alloc, net)?;
    Ok(net)
}

impl<W> Net<W> {
    // Takes the pulses of a run before its first round, in their own place.
    fn take_pulses(&mut self, pulses: &[Stretch])
        requires idle { self.old.heard ≡ None }
        requires fresh { self.old.rest ≡ 0 }
        requires early { All (λ p. p.from ≤ latest_instant) pulses.now }
        requires ends { All EndsEarly pulses.now }
        requires timely { are_timely pulses.now ≡ true }
        ensures { self.new ≡ record self.old { pulses = pulses.now } }
    {
        self.pulses.become_those(pulses);
    }
}

impl Net<EdgeWire> {
    /// The network that [`new`](Net::new) gives with a new wire, made on the heap.
    ///
    /// # Errors
    ///
    /// Want of memory.
    pub fn on_heap(
        alloc: Global,
        tree: Tree<15>,
        pulses: &[Stretch],
    ) -> Result<Box<Self>, AllocError>
        requires some { 0 < length tree }
        requires early { All (λ p. p.from ≤ latest_instant) pulses.now }
        requires ends { All EndsEarly pulses.now }
        requires timely { are_timely pulses.now ≡ true }
        ensures { IfOk result (λ net. net.value ≡ first_net tree pulses.now) }
    {
        let devices = first_devices(alloc, &tree)?;
        let mut net = without_pulses(alloc, tree, devices)?;
        net.take_pulses(pulses);
        Ok(net)
    }
}
