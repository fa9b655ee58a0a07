//! The last lines of a trace, or their objects.
ghost use Rattle.std.specs.Prelude.{◌≡◌, ◌++◌};
ghost use Rattle.std.specs.List.{flat_map};
ghost use Rattle.text_core.specs.Adds.{Adds};
ghost use Rattle.room_trace.specs.Records.{end_text, state_text};

use crate::state_text::add_state;
use crate::trace_text::add_end;
use device_core::Device;
use record_core::Form;
use text_core::{Counted, Sink};

/// Adds the state lines of devices, or their objects.
pub fn add_states<S: Sink>(out: &mut Counted<'_, S>, form: Form, devices: &[Device<16>])
    ensures { Adds out.old out.new (flat_map (state_text form) devices.now) }
{
    for device in devices {
        add_state(out, form, device);
    }
}

/// Adds the state lines of the devices, and the last line, or their objects.
pub fn add_last_lines<S: Sink>(
    out: &mut Counted<'_, S>,
    form: Form,
    devices: &[Device<16>],
    end: u64,
)
    ensures { Adds out.old out.new (flat_map (state_text form) devices.now ++ end_text form end) }
{
    add_states(out, form, devices);
    add_end(out, form, end);
}
