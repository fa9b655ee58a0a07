//! Records that go out in one `put`.
ghost use Rattle.std.specs.Prelude.{Some, map, ◌++◌};
ghost use Rattle.text_core.specs.Adds.{Adds};
ghost use Rattle.text_core.specs.Cut.{WrittenText};
ghost use Rattle.record_core.specs.Cells.{plain_of};
ghost use Rattle.record_core.specs.Records.{record_text};

use crate::cell::{Cell, Form};
use crate::line::add_line;
use crate::object::add_object;
use arrayvec::ArrayVec;
use text_core::{Counted, Sink, WriteFault};

/// The most bytes of a line, or of an object, that goes out in one `put`: more than the object of a port has.
const MOST: usize = 2_304;

// A line or an object that is being made. It takes bytes as long as there is room.
#[derive(Drop)]
struct Gathered {
    bytes: ArrayVec<u8, MOST>,
    stuck: bool,
}

impl Sink for Gathered {
    ghost contents = { λ line. Some line.bytes.items };

    ghost is_stuck = { λ line. line.stuck };

    fn put(&mut self, bytes: &[u8]) -> usize {
        if self.bytes.try_extend_from_slice(bytes).is_ok() {
            return bytes.len();
        }
        if !bytes.is_empty() {
            self.stuck = true;
        }
        0
    }
}

// Adds the line of cells and of more, or their object, part by part.
fn add_parts<S: Sink>(
    out: &mut Counted<'_, S>,
    form: Form,
    kind: &str,
    cells: &[Cell],
    more: &[Cell],
)
    ensures { Adds out.old out.new (record_text form kind.now (map plain_of cells.now ++ map plain_of more.now)) }
{
    match form {
        Form::Text => add_line(out, cells, more),
        Form::Json => add_object(out, kind, cells, more),
    }
}

fn gather(
    line: &mut Gathered,
    form: Form,
    kind: &str,
    cells: &[Cell],
    more: &[Cell],
) -> Result<u128, WriteFault>
    ensures { WrittenText (Some line.old.bytes.items) (Some line.new.bytes.items) line.old.stuck line.new.stuck
        (record_text form kind.now (map plain_of cells.now ++ map plain_of more.now)) result }
{
    let mut text = Counted::new(line);
    add_parts(&mut text, form, kind, cells, more);
    let written = text.written();
    // No effect at run time. The proof reads what `line` holds from the sink that comes back.
    let _below = text.into_sink();
    written
}

/// Adds the line of cells and of more after them, or its object, of which `kind` is the type: as one `put` where the sink takes it
/// and it is no longer than 2,304 bytes.
pub fn add_record_with<S: Sink>(
    out: &mut Counted<'_, S>,
    form: Form,
    kind: &str,
    cells: &[Cell],
    more: &[Cell],
)
    ensures { Adds out.old out.new (record_text form kind.now (map plain_of cells.now ++ map plain_of more.now)) }
{
    let mut line = Gathered {
        bytes: ArrayVec::new(),
        stuck: false,
    };
    match gather(&mut line, form, kind, cells, more) {
        Ok(_) => out.add(&line.bytes),
        Err(_) => add_parts(out, form, kind, cells, more),
    }
}

/// Adds the line of cells, or its object, of which `kind` is the type.
pub fn add_record<S: Sink>(out: &mut Counted<'_, S>, form: Form, kind: &str, cells: &[Cell])
    ensures { Adds out.old out.new (record_text form kind.now (map plain_of cells.now)) }
{
    add_record_with(out, form, kind, cells, &[]);
}
