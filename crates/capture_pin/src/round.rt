//! The events of a round.
ghost use Rattle.std.specs.Prelude.{◌-◌};
ghost use Rattle.std.specs.List.{flat_map};
ghost use Rattle.text_core.specs.Adds.{Adds};
ghost use Rattle.capture_pin.specs.Text.{again, round_text, stretch_text};

use crate::writing::{add_fall, add_rise};
use line_wave::Stretch;
use text_core::{Counted, Sink};

// Adds the level before the first of these stretches once more.
#[tactic(auto, using(text_core::proofs::Adding::nothing))]
fn add_again<S: Sink>(out: &mut Counted<'_, S>, stretches: &[Stretch])
    ensures { Adds out.old out.new (again stretches.now) }
{
    match stretches.first() {
        None => {}
        Some(first) => add_rise(out, first.from.saturating_sub(1)),
    }
}

// Adds the fall and the rise of a stretch.
#[tactic(auto, using(text_core::proofs::Adding::then))]
fn add_stretch<S: Sink>(out: &mut Counted<'_, S>, stretch: &Stretch)
    ensures { Adds out.old out.new (stretch_text stretch.now) }
{
    add_fall(out, stretch.from);
    add_rise(out, stretch.to);
}

// Adds the falls and rises of stretches.
fn add_stretches<S: Sink>(out: &mut Counted<'_, S>, stretches: &[Stretch])
    ensures { Adds out.old out.new (flat_map stretch_text stretches.now) }
{
    for stretch in stretches {
        add_stretch(out, stretch);
    }
}

/// Adds the line of a round, given by its low stretches: that the line is high still a microsecond before its first fall,
/// since cec-ctl ends a message only at a level that is reported again, and then each fall and each rise. Of no stretch it
/// adds nothing.
#[tactic(auto, using(text_core::proofs::Adding::then))]
pub fn add_round<S: Sink>(out: &mut Counted<'_, S>, stretches: &[Stretch])
    ensures { Adds out.old out.new (round_text stretches.now) }
{
    add_again(out, stretches);
    add_stretches(out, stretches);
}
