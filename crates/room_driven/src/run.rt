//! A run of the network, of which the line and who drives it are written.
ghost use Rattle.std.specs.Prelude.{◌≤◌, length};
ghost use Rattle.line_wave.specs.Bounds.{latest_event};
ghost use Rattle.room_script.specs.Script.{IsSchedule};
ghost use Rattle.room_run.specs.Run.{start};
ghost use Rattle.room_run.specs.Heard.{IsRunWritten};
ghost use Rattle.room_driven.specs.Named.{IsDump};

use crate::drives_text::DrivesText;
use crate::head::add_head;
use crate::wires::Wires;
use capture_vcd::add_last;
use line_rounds::Wire;
use room_net::Net;
use room_run::{Totals, run_turns, told};
use room_script::TimedEvent;
use text_core::{Counted, Sink, WriteFault};

/// Runs a network to `end`, at most 1,000,000,000,000 microseconds, and writes the dump of its line and of who drives it, with
/// these wires. The events stand in the order of their times, all before `end`, and name devices of the tree.
///
/// # Errors
///
/// A `put` took none. Its count, which stays at its greatest value, says how much of the text was written.
pub fn run<S: Sink, W: Wire>(
    out: &mut S,
    wires: Wires,
    net: &mut Net<W>,
    events: &[TimedEvent],
    end: u64,
) -> Result<Totals, WriteFault>
    requires early { end ≤ latest_event }
    requires fresh { (net.old.close ≤ latest_event) × (net.old.rest ≤ latest_event) }
    requires few { length net.old.devices ≤ 15 }
    requires schedule { IsSchedule (length net.old.tree) end 0 events.now }
    ensures { IsRunWritten (IsDump wires end (start net.old events.now)) (S.contents out.old) (S.contents out.new) (S.is_stuck out.old) (S.is_stuck out.new) result }
{
    let mut text = Counted::new(out);
    add_head(&mut text, wires, net.devices());
    let mut drives = DrivesText { text, wires };
    let totals = run_turns(net, events, end, &mut drives);
    let DrivesText {
        mut text,
        wires: _wires,
    } = drives;
    add_last(&mut text, end.max(net.close()));
    let written = text.written();
    // No effect at run time. The proof reads what `out` holds from the sink that comes back.
    let _below = text.into_sink();
    told(written, totals)
}
