//! The line of a run in a format, as what hears of it.
ghost use Rattle.std.specs.Prelude.{◌≡◌, ◌≤◌, length, not};
ghost use Rattle.line_wave.specs.Bounds.{latest_event};
ghost use Rattle.room_script.specs.Script.{IsSchedule};
ghost use Rattle.room_run.specs.declared.run.Reporting.TheVariants.{Line};
ghost use Rattle.room_run.specs.Run.{IsRunText, start};
ghost use Rattle.room_run.specs.Heard.{IsRunWritten};

use crate::reporter::{AppliedEvent, Reporter};
use crate::run::{Totals, told};
use crate::turn_by_turn::run_turns;
use capture_forms::{CaptureForm, add_end, add_round, add_start};
use line_rounds::{Outcome, Wire};
use room_net::Net;
use room_script::TimedEvent;
use text_core::{Counted, Sink, WriteFault};

/// The line, as far as it is written: of an event it has nothing, of a round its falls and rises.
#[derive(Drop)]
pub struct LineText<'a, S: Sink> {
    text: Counted<'a, S>,
    format: CaptureForm,
}

impl<'a, S: Sink> Reporter for LineText<'a, S> {
    ghost use Rattle.std.specs.Prelude.{◌≡◌, not};
    ghost use Rattle.text_core.specs.Adds.{Adds};
    ghost use Rattle.room_run.specs.Happening.{line_of_turn};

    ghost hears = { λ r x s. Adds r.text s.text (line_of_turn r.format x) × (s.format ≡ r.format) };

    ghost goes_on = { λ r. not r.text.failed };

    fn event<W>(&mut self, _applied: &AppliedEvent<'_>, _net: &Net<W>) {}

    fn round<W>(&mut self, _begin: u64, outcome: &Outcome, _net: &Net<W>) {
        add_round(&mut self.text, self.format, outcome.wave.as_slice());
    }

    fn wants_more(&self) -> bool {
        !self.text.has_failed()
    }
}

/// Runs a network to `end`, and writes its line in a format.
///
/// # Errors
///
/// Those of [`run`](crate::run::run).
pub fn write_line<S: Sink, W: Wire>(
    out: &mut S,
    net: &mut Net<W>,
    format: CaptureForm,
    events: &[TimedEvent],
    end: u64,
) -> Result<Totals, WriteFault>
    requires early { end ≤ latest_event }
    requires fresh { (net.old.close ≤ latest_event) × (net.old.rest ≤ latest_event) }
    requires schedule { IsSchedule (length net.old.tree) end 0 events.now }
    ensures { IsRunWritten (IsRunText (Line format) end (start net.old events.now)) (S.contents out.old) (S.contents out.new) (S.is_stuck out.old) (S.is_stuck out.new) result }
{
    let mut text = Counted::new(out);
    add_start(&mut text, format);
    let mut line = LineText { text, format };
    let totals = run_turns(net, events, end, &mut line);
    let LineText {
        mut text,
        format: _format,
    } = line;
    add_end(&mut text, format, end.max(net.close()));
    let written = text.written();
    // No effect at run time. The proof reads what `out` holds from the sink that comes back.
    let _below = text.into_sink();
    told(written, totals)
}
