//! The objects of a trace, as what hears of a run.
ghost use Rattle.std.specs.Prelude.{◌≡◌, ◌≤◌, length, not};
ghost use Rattle.line_wave.specs.Bounds.{latest_event};
ghost use Rattle.edid_core.specs.Root.{HasAddress};
ghost use Rattle.room_script.specs.Script.{IsSchedule};
ghost use Rattle.room_run.specs.declared.run.Reporting.TheVariants.{Objects};
ghost use Rattle.room_run.specs.Run.{IsRunText, start};
ghost use Rattle.room_run.specs.Heard.{IsRunWritten};

use crate::reporter::{AppliedEvent, Reporter};
use crate::run::{Totals, told};
use crate::trace_text::Passed;
use crate::turn_by_turn::run_turns;
use edid_core::Edid;
use line_rounds::{Outcome, Wire};
use record_core::Form;
use room_net::Net;
use room_script::TimedEvent;
use room_trace::{
    RoomTexts, add_event_in, add_last_lines, add_new_ports, add_room, add_round, room_again,
};
use text_core::{Counted, Sink, WriteFault};

/// The objects, as far as they are written: that of each event with those of the ports that come onto the wire by it, and that of
/// each round.
#[derive(Drop)]
struct ObjectsText<'a, 'e, 'r, S: Sink> {
    text: Counted<'a, S>,
    passed: Passed<'e>,
    room: Option<RoomTexts<'r>>,
}

impl<'a, 'e, 'r, S: Sink> Reporter for ObjectsText<'a, 'e, 'r, S> {
    ghost use Rattle.std.specs.Prelude.{◌≡◌, not};
    ghost use Rattle.text_core.specs.Adds.{Adds};
    ghost use Rattle.room_run.specs.Happening.{given, objects_of};

    ghost hears = { λ r x s. Adds r.text s.text (objects_of r.passed.edid.now r.room x) × (given s.passed.edid.now s.room ≡ given r.passed.edid.now r.room) };

    ghost goes_on = { λ r. not r.text.failed };

    #[tactic(auto, using(crate::proofs::Addressed::has_address, text_core::proofs::Adding::then))]
    fn event<W>(&mut self, applied: &AppliedEvent<'_>, net: &Net<W>) {
        add_event_in(
            &mut self.text,
            &mut self.room,
            applied.at,
            applied.event.line,
            applied.refused,
        );
        add_new_ports(
            &mut self.text,
            Form::Json,
            applied.at,
            self.passed.edid,
            net.tree(),
            applied.was,
        );
    }

    fn round<W>(&mut self, _begin: u64, outcome: &Outcome, net: &Net<W>) {
        add_round(&mut self.text, Form::Json, net.devices(), outcome);
    }

    fn wants_more(&self) -> bool {
        !self.text.has_failed()
    }
}

/// Runs a network to `end`, and writes the objects of its room, where it is given, and of its trace.
///
/// # Errors
///
/// Those of [`run`](crate::run::run).
#[tactic(auto, using(crate::proofs::Addressed::each_address))]
pub fn write_objects<S: Sink, W: Wire>(
    out: &mut S,
    net: &mut Net<W>,
    edid: &Option<Edid>,
    room: &Option<RoomTexts<'_>>,
    events: &[TimedEvent],
    end: u64,
) -> Result<Totals, WriteFault>
    requires addressed { HasAddress edid.now }
    requires early { end ≤ latest_event }
    requires fresh { (net.old.close ≤ latest_event) × (net.old.rest ≤ latest_event) }
    requires schedule { IsSchedule (length net.old.tree) end 0 events.now }
    ensures { IsRunWritten (IsRunText (Objects edid.now room.now) end (start net.old events.now)) (S.contents out.old) (S.contents out.new) (S.is_stuck out.old) (S.is_stuck out.new) result }
{
    let mut text = Counted::new(out);
    add_room(&mut text, room);
    add_new_ports(&mut text, Form::Json, 0, edid, net.tree(), &[]);
    let mut objects = ObjectsText {
        text,
        passed: Passed { edid },
        room: room_again(room),
    };
    let totals = run_turns(net, events, end, &mut objects);
    let ObjectsText {
        mut text,
        passed: _passed,
        room: _room,
    } = objects;
    add_last_lines(&mut text, Form::Json, net.devices(), end);
    let written = text.written();
    // No effect at run time. The proof reads what `out` holds from the sink that comes back.
    let _below = text.into_sink();
    told(written, totals)
}
