//! Who drives the line, as what hears of a run.
ghost use Rattle.std.specs.Prelude.{◌≡◌, not};

use crate::round::add_drives;
use crate::wires::Wires;
use line_rounds::Outcome;
use room_net::Net;
use room_run::{AppliedEvent, Reporter};
use text_core::{Counted, Sink};

/// The drives, as far as they are written.
#[derive(Drop)]
pub struct DrivesText<'a, S: Sink> {
    pub text: Counted<'a, S>,
    pub wires: Wires,
}

impl<'a, S: Sink> Reporter for DrivesText<'a, S> {
    ghost use Rattle.std.specs.Prelude.{◌≡◌, not};
    ghost use Rattle.text_core.specs.Adds.{Adds};
    ghost use Rattle.room_driven.specs.Named.{wires_of_turn};

    ghost hears = { λ r x s. Adds r.text s.text (wires_of_turn r.wires x) × (s.wires ≡ r.wires) };

    ghost goes_on = { λ r. not r.text.failed };

    fn event<W>(&mut self, _applied: &AppliedEvent<'_>, _net: &Net<W>) {}

    fn round<W>(&mut self, begin: u64, outcome: &Outcome, net: &Net<W>) {
        add_drives(&mut self.text, self.wires, begin, outcome, net);
    }

    fn wants_more(&self) -> bool {
        !self.text.has_failed()
    }
}
