//! Who sends in a round, and who holds which logical address when it begins.
ghost use Rattle.std.specs.Prelude.{◌≡◌, ◌∷◌, ◌++◌, map, codes};
ghost use Rattle.std.specs.List.{flat_map};
ghost use Rattle.text_core.specs.Adds.{Adds};
ghost use Rattle.room_trace.specs.TraceText.{comma_list, loser_text, name_at};
ghost use Rattle.expect_told.specs.Senders.{held_by, holders_text, holding, out_text, senders_text};

use device_core::Device;
use line_frames::Addr;
use line_rounds::{Loser, Outcome};
use text_core::{Counted, Piece, Sink};

// The name of the device of a number.
fn name_at(devices: &[Device<16>], number: usize) -> &[u8]
    ensures { result.now ≡ name_at devices.now number }
{
    match devices.get(number) {
        Some(device) => device.name(),
        None => &[],
    }
}

// Adds the name of a device after a comma.
fn add_later_name<S: Sink>(out: &mut Counted<'_, S>, devices: &[Device<16>], number: usize)
    ensures { Adds out.old out.new (44 ∷ name_at devices.now number) }
{
    out.add_line(&[Piece::Text(","), Piece::Bytes(name_at(devices, number))]);
}

#[tactic(auto, using(text_core::proofs::Adding::nothing))]
fn add_later_names<S: Sink>(out: &mut Counted<'_, S>, devices: &[Device<16>], numbers: &[usize])
    ensures { Adds out.old out.new (flat_map (λ number. 44 ∷ name_at devices.now number) numbers.now) }
{
    let Some((number, others)) = numbers.split_first() else {
        return;
    };
    add_later_name(out, devices, *number);
    add_later_names(out, devices, others);
}

fn add_first_name<S: Sink>(out: &mut Counted<'_, S>, devices: &[Device<16>], number: usize)
    ensures { Adds out.old out.new (name_at devices.now number) }
{
    out.add_line(&[Piece::Bytes(name_at(devices, number))]);
}

// Adds the names of devices.
fn add_names<S: Sink>(out: &mut Counted<'_, S>, devices: &[Device<16>], numbers: &[usize])
    ensures { Adds out.old out.new (comma_list (map (name_at devices.now) numbers.now)) }
{
    let Some((first, others)) = numbers.split_first() else {
        out.add_line(&[Piece::Text("-")]);
        return;
    };
    add_first_name(out, devices, *first);
    add_later_names(out, devices, others);
}

// Adds a device that was out, with its slot, after a comma.
fn add_later_loser<S: Sink>(out: &mut Counted<'_, S>, devices: &[Device<16>], loser: Loser)
    ensures { Adds out.old out.new (44 ∷ loser_text devices.now loser) }
{
    out.add_line(&[
        Piece::Text(","),
        Piece::Bytes(name_at(devices, loser.seat)),
        Piece::Text("@"),
        Piece::Decimal(loser.slot as u64),
    ]);
}

#[tactic(auto, using(text_core::proofs::Adding::nothing))]
fn add_later_losers<S: Sink>(out: &mut Counted<'_, S>, devices: &[Device<16>], losers: &[Loser])
    ensures { Adds out.old out.new (flat_map (λ loser. 44 ∷ loser_text devices.now loser) losers.now) }
{
    let Some((loser, others)) = losers.split_first() else {
        return;
    };
    add_later_loser(out, devices, *loser);
    add_later_losers(out, devices, others);
}

fn add_first_loser<S: Sink>(out: &mut Counted<'_, S>, devices: &[Device<16>], loser: Loser)
    ensures { Adds out.old out.new (loser_text devices.now loser) }
{
    out.add_line(&[
        Piece::Bytes(name_at(devices, loser.seat)),
        Piece::Text("@"),
        Piece::Decimal(loser.slot as u64),
    ]);
}

// Adds the devices that were out, each with its slot.
fn add_losers<S: Sink>(out: &mut Counted<'_, S>, devices: &[Device<16>], losers: &[Loser])
    ensures { Adds out.old out.new (comma_list (map (loser_text devices.now) losers.now)) }
{
    let Some((first, others)) = losers.split_first() else {
        out.add_line(&[Piece::Text("-")]);
        return;
    };
    add_first_loser(out, devices, *first);
    add_later_losers(out, devices, others);
}

// Adds who did not go on to the end.
#[tactic(auto, using(text_core::proofs::Adding::then))]
fn add_out<S: Sink>(out: &mut Counted<'_, S>, devices: &[Device<16>], losers: &[Loser])
    ensures { Adds out.old out.new (out_text devices.now losers.now) }
{
    out.add_line(&[Piece::Text(" out ")]);
    add_losers(out, devices, losers);
}

// Adds who went on to the end, and who did not.
#[tactic(auto, using(text_core::proofs::Adding::then))]
fn add_by_and_out<S: Sink>(
    out: &mut Counted<'_, S>,
    devices: &[Device<16>],
    survivors: &[usize],
    losers: &[Loser],
)
    ensures { Adds out.old out.new (comma_list (map (name_at devices.now) survivors.now) ++ out_text devices.now losers.now) }
{
    add_names(out, devices, survivors);
    add_out(out, devices, losers);
}

/// Adds who went on to the end, and who did not, after words that say so.
#[tactic(auto, using(text_core::proofs::Adding::then))]
pub(crate) fn add_senders<S: Sink>(
    out: &mut Counted<'_, S>,
    devices: &[Device<16>],
    outcome: &Outcome,
)
    ensures { Adds out.old out.new (senders_text devices.now outcome.now) }
{
    out.add_line(&[Piece::Text(" by ")]);
    add_by_and_out(out, devices, &outcome.survivors, &outcome.losers);
}

// Adds a device with an address that it holds.
#[tactic(auto, using(text_core::proofs::Adding::nothing))]
fn add_holding<S: Sink>(out: &mut Counted<'_, S>, name: &[u8], unit: Option<Addr>)
    ensures { Adds out.old out.new (holding name.now unit) }
{
    let Some(address) = unit else {
        return;
    };
    if address.value() < 15 {
        out.add_line(&[
            Piece::Bytes(name),
            Piece::Text("="),
            Piece::Nibble(address.value()),
            Piece::Text("@"),
        ]);
    }
}

#[tactic(auto, using(text_core::proofs::Adding::nothing))]
fn add_holdings<S: Sink>(out: &mut Counted<'_, S>, name: &[u8], held: &[Option<Addr>])
    ensures { Adds out.old out.new (flat_map (holding name.now) held.now) }
{
    let Some((unit, others)) = held.split_first() else {
        return;
    };
    add_holding(out, name, *unit);
    add_holdings(out, name, others);
}

// Adds a device with each address that it holds.
fn add_held_by<S: Sink>(out: &mut Counted<'_, S>, device: &Device<16>)
    ensures { Adds out.old out.new (held_by device.now) }
{
    add_holdings(out, device.name(), &device.all_held());
}

#[tactic(auto, using(text_core::proofs::Adding::nothing))]
fn add_all_held<S: Sink>(out: &mut Counted<'_, S>, devices: &[Device<16>])
    ensures { Adds out.old out.new (flat_map held_by devices.now) }
{
    let Some((device, others)) = devices.split_first() else {
        return;
    };
    add_held_by(out, device);
    add_all_held(out, others);
}

/// Adds who holds which address.
#[tactic(auto, using(text_core::proofs::Adding::then))]
pub(crate) fn add_holders<S: Sink>(out: &mut Counted<'_, S>, devices: &[Device<16>])
    ensures { Adds out.old out.new (holders_text devices.now) }
{
    out.add_line(&[Piece::Text(" @")]);
    add_all_held(out, devices);
}
