//! The head of the dump: the definitions of its wires.
ghost use Rattle.std.specs.Prelude.{◌+◌, ◌++◌, ◌≤◌, length};
ghost use Rattle.text_core.specs.Adds.{Adds};
ghost use Rattle.capture_wires.specs.Wires.{variables};
ghost use Rattle.room_driven.specs.Driven.{names_of};
ghost use Rattle.room_driven.specs.Named.{closing_of, head_of, opening_of};

use crate::wires::Wires;
use capture_wires::{add_closing, add_opening, add_variable};
use device_core::Device;
use room_named::{add_named_closing, add_named_opening};
use text_core::{Counted, Sink};

// Adds the wires of devices, from this number on.
#[tactic(auto, using(text_core::proofs::Adding::nothing))]
fn add_devices<S: Sink>(out: &mut Counted<'_, S>, number: u8, devices: &[Device<16>])
    requires { number + length devices.now ≤ 90 }
    ensures { Adds out.old out.new (variables number (names_of devices.now)) }
{
    let Some((device, others)) = devices.split_first() else {
        return;
    };
    add_variable(out, number, device.name());
    add_devices(out, number + 1, others);
}

// Adds what stands before the devices.
fn add_opening_of<S: Sink>(out: &mut Counted<'_, S>, wires: Wires)
    ensures { Adds out.old out.new (opening_of wires) }
{
    match wires {
        Wires::Plain => add_opening(out),
        Wires::Named => add_named_opening(out),
    }
}

// Adds what stands after so many devices.
fn add_closing_of<S: Sink>(out: &mut Counted<'_, S>, wires: Wires, count: u8)
    requires { count ≤ 90 }
    ensures { Adds out.old out.new (closing_of wires count) }
{
    match wires {
        Wires::Plain => add_closing(out, count),
        Wires::Named => add_named_closing(out, count),
    }
}

// Adds the wires of the devices, and what stands after them.
fn add_wires<S: Sink>(out: &mut Counted<'_, S>, wires: Wires, devices: &[Device<16>])
    requires { length devices.now ≤ 15 }
    ensures { Adds out.old out.new (variables 1 (names_of devices.now) ++ closing_of wires (length (names_of devices.now))) }
{
    add_devices(out, 1, devices);
    add_closing_of(out, wires, devices.len() as u8);
}

/// Adds the definitions of the dump of a network.
#[tactic(auto, using(text_core::proofs::Adding::then))]
pub fn add_head<S: Sink>(out: &mut Counted<'_, S>, wires: Wires, devices: &[Device<16>])
    requires { length devices.now ≤ 15 }
    ensures { Adds out.old out.new (head_of wires (names_of devices.now)) }
{
    add_opening_of(out, wires);
    add_wires(out, wires, devices);
}
