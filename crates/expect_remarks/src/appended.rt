//! Records in memory.
ghost use Rattle.std.specs.Prelude.{◌≡◌, ◌++◌, OnOk, map};
ghost use Rattle.text_core.specs.Cut.{WritesText};
ghost use Rattle.text_core.specs.Held.{held_bytes};
ghost use Rattle.record_core.specs.Cells.{plain_of};
ghost use Rattle.record_core.specs.Records.{record_text};

use record_core::{Cell, Form, add_record};
use std::alloc::AllocError;
use text_core::{Counted, Held, Sink, WriteFault};

fn write_record<S: Sink>(
    out: &mut S,
    form: Form,
    kind: &str,
    cells: &[Cell],
) -> Result<(), WriteFault>
    ensures { WritesText (S.contents out.old) (S.contents out.new) (S.is_stuck out.old) (S.is_stuck out.new) (record_text form kind.now (map plain_of cells.now)) result }
{
    let mut text = Counted::new(out);
    add_record(&mut text, form, kind, cells);
    let written = text.written();
    // No effect at run time. The proof reads what `out` holds from the sink that comes back.
    let _below = text.into_sink();
    match written {
        Ok(_) => Ok(()),
        Err(fault) => Err(fault),
    }
}

/// Appends the line of cells, or its object, of which `kind` is the type.
///
/// # Errors
///
/// Want of memory.
pub fn append_record(
    out: &mut Held,
    form: Form,
    kind: &str,
    cells: &[Cell],
) -> Result<(), AllocError>
    ensures { OnOk result (held_bytes out.new ≡ held_bytes out.old ++ record_text form kind.now (map plain_of cells.now)) }
{
    match write_record(out, form, kind, cells) {
        Ok(()) => Ok(()),
        Err(_) => Err(AllocError),
    }
}
