//! Stretches of instants at which the same is found, as they are made, and their lines or objects.
ghost use Rattle.std.specs.Prelude.{◌≡◌, ◌≤◌, ◌++◌, ◌&&◌, OnOk};
ghost use Rattle.line_wave.specs.Bounds.{latest_event};
ghost use Rattle.text_core.specs.Held.{held_bytes};
ghost use Rattle.expect_sweep.specs.Stretches.{are_all_ok, are_same, first_draft, draft_as, draft_at_end, stretch_line, with_instant};

use expect_remarks::append_record;
use record_core::{Form, Value, cells};
use std::alloc::{AllocError, Global};
use text_core::{Held, Piece};

/// The stretches of the instants so far: the lines of those that have ended, and the last one.
#[derive(Drop)]
pub(crate) struct StretchesDraft {
    form: Form,
    pub(crate) text: Held,
    first: u64,
    last: u64,
    verdicts: Vec<bool>,
    /// Whether each verdict of each instant is ok.
    pub(crate) holds: bool,
    /// How many instants there are.
    pub(crate) done: u64,
    /// How many stretches these make.
    pub(crate) stretches: u64,
}

fn are_all_ok(verdicts: &[bool]) -> bool
    ensures { result ≡ are_all_ok verdicts.now }
{
    verdicts.iter().all(|verdict| *verdict)
}

fn are_same(left: &[bool], right: &[bool]) -> bool
    ensures { result ≡ are_same left.now right.now }
{
    left == right
}

fn both(left: bool, right: bool) -> bool
    ensures { result ≡ (left && right) }
{
    left && right
}

// Appends the line of a stretch, or its object.
fn append_stretch(
    out: &mut Held,
    form: Form,
    first: u64,
    last: u64,
    verdicts: &[bool],
) -> Result<(), AllocError>
    ensures { OnOk result (held_bytes out.new ≡ held_bytes out.old ++ stretch_line form (record { first = first; last = last; verdicts = verdicts.now })) }
{
    let cells = cells![
        both("", "from", Value::One(Piece::Decimal(first))),
        both("..", "to", Value::One(Piece::Decimal(last))),
        both("", "holds", Value::Verdicts(verdicts)),
    ];
    append_record(out, form, "stretch", &cells)
}

impl StretchesDraft {
    /// One instant.
    pub(crate) fn new(alloc: Global, form: Form, at: u64, verdicts: Vec<bool>) -> Self
        ensures { draft_as result ≡ first_draft form at verdicts.items }
    {
        let holds = are_all_ok(&verdicts);
        StretchesDraft {
            form,
            text: Held::new(alloc),
            first: at,
            last: at,
            verdicts,
            holds,
            done: 1,
            stretches: 1,
        }
    }

    /// Writes the line of the last stretch, or its object.
    pub(crate) fn end(&mut self) -> Result<(), AllocError>
        ensures { OnOk result (draft_as self.new ≡ draft_at_end (draft_as self.old)) }
    {
        append_stretch(
            &mut self.text,
            self.form,
            self.first,
            self.last,
            &self.verdicts,
        )
    }

    /// One more instant.
    pub(crate) fn add(&mut self, at: u64, verdicts: Vec<bool>) -> Result<(), AllocError>
        requires few { self.old.stretches ≤ self.old.done }
        requires early { self.old.done ≤ latest_event }
        ensures { OnOk result (draft_as self.new ≡ with_instant (draft_as self.old) at verdicts.items) }
    {
        let done = self.done + 1;
        let stretches = self.stretches + 1;
        if are_same(&self.verdicts, &verdicts) {
            self.last = at;
            self.done = done;
            return Ok(());
        }
        self.end()?;
        self.holds = both(self.holds, are_all_ok(&verdicts));
        self.first = at;
        self.last = at;
        self.verdicts = verdicts;
        self.done = done;
        self.stretches = stretches;
        Ok(())
    }
}
