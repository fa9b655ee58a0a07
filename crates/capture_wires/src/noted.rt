//! The changes of several wires in order of time, and beside them wires of text: notes, each from an instant on.
ghost use Rattle.std.specs.Prelude.{◌≡◌, [], ◌+◌, ◌-◌, ◌∷◌, ◌++◌, ◌<◌, ◌≤◌, ℕ, codes, false, length, map};
ghost use Rattle.std.specs.Fmt.{decimal};
ghost use Rattle.std.specs.List.{concat, flat_map};
ghost use Rattle.line_wave.specs.Line.{IsWave};
ghost use Rattle.text_core.specs.Adds.{Adds};
ghost use Rattle.capture_wires.specs.Wires.{changes_from, wires_text};
ghost use Rattle.capture_wires.specs.Noted.{escaped, is_noted, note_at, note_line, noted, notes_at, noted_instant, noted_text};

use crate::drive::Drive;
use crate::instants::{
    add_change, add_changes, add_time, any_turns, next_end, next_end_of, next_two, not_over, turns,
};
use line_wave::Stretch;
use text_core::{Counted, Sink};

/// What a wire of text has from an instant on: the wire by its identifier, and the text.
#[derive(Clone, Copy, Debug)]
pub struct WireText<'a> {
    pub at: u64,
    pub id: u8,
    pub text: &'a [u8],
}

impl Default for WireText<'_> {
    fn default() -> Self {
        WireText {
            at: 0,
            id: 0,
            text: &[],
        }
    }
}

// ---- one note

// Adds a byte of a text.
fn add_escaped<S: Sink>(out: &mut Counted<'_, S>, byte: u8)
    ensures { Adds out.old out.new (escaped byte) }
{
    match byte {
        b' ' => out.add(b"\\x20"),
        b'\\' => out.add(b"\\\\"),
        _ => out.add(&[byte]),
    }
}

// Adds the bytes of a text.
#[tactic(auto, using(text_core::proofs::Adding::nothing))]
fn add_text<S: Sink>(out: &mut Counted<'_, S>, text: &[u8])
    ensures { Adds out.old out.new (flat_map escaped text.now) }
{
    let Some((byte, others)) = text.split_first() else {
        return;
    };
    add_escaped(out, *byte);
    add_text(out, others);
}

// Adds what stands after a text.
fn add_id<S: Sink>(out: &mut Counted<'_, S>, id: u8)
    ensures { Adds out.old out.new (32 ∷ id ∷ 10 ∷ []) }
{
    let end = [b' ', id, b'\n'];
    out.add(&end);
}

// Adds what a wire of text has from now on.
fn add_note<S: Sink>(out: &mut Counted<'_, S>, note: &WireText<'_>)
    ensures { Adds out.old out.new (note_line (noted note.now)) }
{
    out.add(b"s");
    add_text(out, note.text);
    add_id(out, note.id);
}

// Adds what is noted at an instant.
#[tactic(auto, using(text_core::proofs::Adding::nothing))]
fn add_note_at<S: Sink>(out: &mut Counted<'_, S>, t: u64, note: &WireText<'_>)
    ensures { Adds out.old out.new (note_at t (noted note.now)) }
{
    if note.at == t {
        add_note(out, note);
    }
}

#[tactic(auto, using(text_core::proofs::Adding::nothing))]
fn add_notes_at<S: Sink>(out: &mut Counted<'_, S>, t: u64, notes: &[WireText<'_>])
    ensures { Adds out.old out.new (notes_at t (map noted notes.now)) }
{
    let Some((note, others)) = notes.split_first() else {
        return;
    };
    add_note_at(out, t, note);
    add_notes_at(out, t, others);
}

// Whether something is noted at an instant.
fn is_noted(t: u64, notes: &[WireText<'_>]) -> bool
    ensures { result ≡ is_noted t (map noted notes.now) }
{
    match notes {
        [] => false,
        [note, others @ ..] => note.at == t || is_noted(t, others),
    }
}

// The first note after `t`, or `next` where that is sooner.
fn next_note(notes: &[WireText<'_>], t: u64, next: u64) -> u64
    requires { t < next }
    ensures later { t < result }
    ensures bounded { result ≤ next }
    ensures quiet { (u : ℕ) → t < u → u < result → is_noted u (map noted notes.now) ≡ false }
{
    match notes {
        [] => next,
        [note, others @ ..] => {
            let rest = next_note(others, t, next);
            if t < note.at { note.at.min(rest) } else { rest }
        }
    }
}

// ---- one instant

// The line, who drives it, the pulses below them, and what is noted beside them.
#[derive(Clone, Copy)]
struct NotedWires<'a> {
    line: &'a [Stretch],
    drives: &'a [Drive],
    pulses: &'a [Stretch],
    notes: &'a [WireText<'a>],
}

// Adds the changes of the line and of the wires below it, the pulses' last.
fn add_all_changes<S: Sink>(out: &mut Counted<'_, S>, t: u64, wires: &NotedWires<'_>)
    requires { length wires.now.drives.now ≤ 90 }
    ensures { Adds out.old out.new (changes_from t 0 (wires.now.line.now ∷ (wires.now.drives.now ++ wires.now.pulses.now ∷ []))) }
{
    add_change(out, t, 0, wires.line);
    add_changes(out, t, 1, wires.drives);
    add_change(out, t, wires.drives.len() as u8 + 1, wires.pulses);
}

// Adds an instant, those changes then, and what is noted.
fn add_timed<S: Sink>(out: &mut Counted<'_, S>, t: u64, wires: &NotedWires<'_>)
    requires { length wires.now.drives.now ≤ 90 }
    ensures { Adds out.old out.new ((concat (codes "#" ∷ decimal t ∷ codes "\n" ∷ []) ++ changes_from t 0 (wires.now.line.now ∷ (wires.now.drives.now ++ wires.now.pulses.now ∷ []))) ++ notes_at t (map noted wires.now.notes.now)) }
{
    add_time(out, t);
    add_all_changes(out, t, wires);
    add_notes_at(out, t, wires.notes);
}

// Adds an instant, where some wire changes then or something is noted.
#[tactic(auto, using(text_core::proofs::Adding::nothing))]
fn add_instant<S: Sink>(out: &mut Counted<'_, S>, t: u64, wires: &NotedWires<'_>)
    requires { length wires.now.drives.now ≤ 90 }
    ensures { Adds out.old out.new (noted_instant (wires.now.line.now ∷ (wires.now.drives.now ++ wires.now.pulses.now ∷ [])) (map noted wires.now.notes.now) t) }
{
    if turns(wires.line, t)
        || (any_turns(wires.drives, t) || turns(wires.pulses, t))
        || is_noted(t, wires.notes)
    {
        add_timed(out, t, wires);
    }
}

// ---- all of them

/// Adds the changes of the line and of the wires below it, and what is noted, from one instant up to another: those of its
/// drives, and after them that of the pulses, which come in order, as many as there are.
pub fn add_noted_wires<'a, S: Sink>(
    out: &mut Counted<'_, S>,
    line: &'a [Stretch],
    drives: &'a [Drive],
    pulses: &'a [Stretch],
    notes: &'a [WireText<'a>],
    from: u64,
    to: u64,
)
    requires few { length drives.now ≤ 90 }
    requires pulses { IsWave pulses.now }
    requires order { from ≤ to }
    ensures { Adds out.old out.new (noted_text (line.now ∷ (drives.now ++ pulses.now ∷ [])) (map noted notes.now) from (to - from)) }
{
    let mut t = from;
    let mut left = pulses;
    'instants: while t < to {
        left = not_over(left, t);
        let next = next_two(left);
        let wires = NotedWires {
            line,
            drives,
            pulses: next,
            notes,
        };
        add_instant(out, t, &wires);
        let change = next_end(line, t, next_end_of(drives, t, next_end(next, t, to)));
        t = next_note(notes, t, change);
    }
}

/// The same with no notes.
pub fn add_wires<S: Sink>(
    out: &mut Counted<'_, S>,
    line: &[Stretch],
    drives: &[Drive],
    pulses: &[Stretch],
    from: u64,
    to: u64,
)
    requires few { length drives.now ≤ 90 }
    requires pulses { IsWave pulses.now }
    requires order { from ≤ to }
    ensures { Adds out.old out.new (wires_text (line.now ∷ (drives.now ++ pulses.now ∷ [])) from (to - from)) }
{
    add_noted_wires(out, line, drives, pulses, &[], from, to);
}
