//! What each wire does at an instant, and up to when nothing happens.
ghost use Rattle.std.specs.Prelude.{◌≡◌, [], ◌+◌, ◌-◌, ◌==◌, ◌||◌, ◌∷◌, ◌++◌, ◌<◌, ◌≤◌, ℕ, if◌then◌else◌, false, codes, length, take};
ghost use Rattle.std.specs.Fmt.{decimal};
ghost use Rattle.std.specs.List.{concat, list_any};
ghost use Rattle.line_wave.specs.Line.{line_of, was_low, IsWave};
ghost use Rattle.text_core.specs.Adds.{Adds};
ghost use Rattle.capture_wires.specs.Left.{FirstNotOver};
ghost use Rattle.capture_wires.specs.Wires.{change_text, changes_from, id_of, instant_text, turns, wires_text};

use crate::definitions::id_of;
use crate::drive::Drive;
use line_wave::Stretch;
use text_core::{Counted, Piece, Sink};

// ---- one wire

/// Whether a wire is low in microsecond `t`.
pub fn is_low(wire: &[Stretch], t: u64) -> bool
    ensures { result ≡ line_of wire.now t }
{
    wire.iter()
        .any(|stretch| stretch.from <= t && t < stretch.to)
}

// Whether it was low just before.
fn was_low(wire: &[Stretch], t: u64) -> bool
    ensures { result ≡ was_low (line_of wire.now) t }
{
    t > 0 && is_low(wire, t - 1)
}

/// Whether it falls or rises then.
pub(crate) fn turns(wire: &[Stretch], t: u64) -> bool
    ensures { result ≡ turns (line_of wire.now) t }
{
    is_low(wire, t) != was_low(wire, t)
}

// A stretch's begin or end, where it is after `t` and before `next`, or else `next`.
fn sooner(stretch: Stretch, t: u64, next: u64) -> u64
    requires { t < next }
    ensures later { t < result }
    ensures bounded { result ≤ next }
    ensures quiet { (u : ℕ) → t < u → u < result → ((stretch.from == u) || (stretch.to == u)) ≡ false }
{
    let begin = if t < stretch.from {
        stretch.from.min(next)
    } else {
        next
    };
    if t < stretch.to {
        stretch.to.min(begin)
    } else {
        begin
    }
}

/// The first begin or end of a stretch after `t`, or `next` where that is sooner.
pub(crate) fn next_end(wire: &[Stretch], t: u64, next: u64) -> u64
    requires { t < next }
    ensures later { t < result }
    ensures bounded { result ≤ next }
    ensures quiet { (u : ℕ) → t < u → u < result → list_any (λ s. (s.from == u) || (s.to == u)) wire.now ≡ false }
{
    match wire {
        [] => next,
        [stretch, others @ ..] => sooner(*stretch, t, next_end(others, t, next)),
    }
}

/// The same of several wires.
pub(crate) fn next_end_of(drives: &[Drive], t: u64, next: u64) -> u64
    requires { t < next }
    ensures later { t < result }
    ensures bounded { result ≤ next }
    ensures quiet { (u : ℕ) → t < u → u < result → list_any (λ wire. list_any (λ s. (s.from == u) || (s.to == u)) wire) drives.now ≡ false }
{
    match drives {
        [] => next,
        [drive, others @ ..] => next_end(drive.as_slice(), t, next_end_of(others, t, next)),
    }
}

// ---- the pulses, in order

/// Those that are not over before `t`.
pub(crate) fn not_over(pulses: &[Stretch], t: u64) -> &[Stretch]
    requires { IsWave pulses.now }
    ensures order { IsWave result.now }
    ensures first { FirstNotOver t result.now }
    ensures same { (u : ℕ) → t ≤ u + 1 → line_of result.now u ≡ line_of pulses.now u }
{
    let mut left = pulses;
    'over: while let [first, others @ ..] = left {
        if t <= first.to {
            return left;
        }
        left = others;
    }
    left
}

/// The first two of them, between which and the others nothing happens before the second one is over.
pub(crate) fn next_two(pulses: &[Stretch]) -> &[Stretch]
    ensures { result.now ≡ take 2 pulses.now }
{
    if pulses.len() < 2 {
        pulses
    } else {
        &pulses[..2]
    }
}

// ---- one change

fn add_value<S: Sink>(out: &mut Counted<'_, S>, number: u8, is_low: bool)
    requires { number ≤ 100 }
    ensures { Adds out.old out.new ((if is_low then 48 else 49) ∷ id_of number ∷ 10 ∷ []) }
{
    let line = [value_of(is_low), id_of(number), b'\n'];
    out.add(&line);
}

// The value of a wire: 0 where it is low.
fn value_of(is_low: bool) -> u8
    ensures { result ≡ (if is_low then 48 else 49) }
{
    if is_low { b'0' } else { b'1' }
}

/// Adds the change of a wire, where it has one.
#[tactic(auto, using(text_core::proofs::Adding::nothing))]
pub(crate) fn add_change<S: Sink>(out: &mut Counted<'_, S>, t: u64, number: u8, wire: &[Stretch])
    requires { number ≤ 100 }
    ensures { Adds out.old out.new (change_text t number wire.now) }
{
    if turns(wire, t) {
        add_value(out, number, is_low(wire, t));
    }
}

/// Adds the changes of wires from this number on.
#[tactic(auto, using(text_core::proofs::Adding::nothing))]
pub(crate) fn add_changes<S: Sink>(out: &mut Counted<'_, S>, t: u64, number: u8, drives: &[Drive])
    requires { number + length drives.now ≤ 100 }
    ensures { Adds out.old out.new (changes_from t number drives.now) }
{
    let Some((drive, others)) = drives.split_first() else {
        return;
    };
    add_change(out, t, number, drive.as_slice());
    add_changes(out, t, number + 1, others);
}

/// Adds an instant.
pub(crate) fn add_time<S: Sink>(out: &mut Counted<'_, S>, t: u64)
    ensures { Adds out.old out.new (concat (codes "#" ∷ decimal t ∷ codes "\n" ∷ [])) }
{
    out.add_line(&[Piece::Text("#"), Piece::Decimal(t), Piece::Text("\n")]);
}

/// Whether some wire falls or rises then.
pub(crate) fn any_turns(drives: &[Drive], t: u64) -> bool
    ensures { result ≡ list_any (λ wire. turns (line_of wire) t) drives.now }
{
    match drives {
        [] => false,
        [drive, others @ ..] => turns(drive.as_slice(), t) || any_turns(others, t),
    }
}
