//! When a wire wakes next: the earliest of what its senders, those who follow, pulls and its receiver do.
ghost use Rattle.std.specs.Prelude.{◌≡◌, ◌<◌, ◌≤◌, nat_lt, IfSome, Some, ℕ};
ghost use Rattle.line_wave.specs.declared.Stretch.{Stretch as StretchValue};
ghost use Rattle.line_wire.specs.Steps.{wakes_in};

use crate::senders::Pull;
use line_wave::Stretch;

/// Until when the senders do what they do at `t`.
pub fn steady_until(pull: Pull, t: u64) -> u64
    requires { t < pull.until }
    ensures sooner { result ≤ pull.until }
    ensures later { t < result }
    ensures lasts { (u : ℕ) → t ≤ u → u < result → nat_lt u pull.rise ≡ nat_lt t pull.rise }
{
    if t < pull.rise {
        pull.rise.min(pull.until)
    } else {
        pull.until
    }
}

/// The earlier of a wake and the end of the pull, where it lasts.
pub fn until_end(last: Option<Stretch>, t: u64, wake: u64) -> u64
    ensures sooner { result ≤ wake }
    ensures ends { (p : StretchValue) → last ≡ Some p → t < p.to → result ≤ p.to }
    ensures later { t ≤ wake → t ≤ result }
{
    match last {
        Some(pull) if t < pull.to => wake.min(pull.to),
        _ => wake,
    }
}

/// The earlier of a wake and the next pull's begin.
pub fn until_begin(next: Option<Stretch>, wake: u64) -> u64
    ensures sooner { result ≤ wake }
    ensures begins { IfSome next (λ p. result ≤ p.from) }
    ensures later { (t : ℕ) → t ≤ wake → IfSome next (λ p. t ≤ p.from) → t ≤ result }
{
    match next {
        None => wake,
        Some(pull) => wake.min(pull.from),
    }
}

/// The earlier of a wake and the receiver's.
pub fn until_due(due: Option<u64>, wake: u64) -> u64
    ensures sooner { result ≤ wake }
    ensures wakes { (n : ℕ) → due ≡ Some n → result ≤ n }
    ensures later { (t : ℕ) → t ≤ wake → ((n : ℕ) → due ≡ Some n → t ≤ n) → t ≤ result }
{
    match due {
        None => wake,
        Some(due) => wake.min(due),
    }
}

/// The earlier of a wake and the instant up to which the line is held, where that is to come.
pub fn until_held(held: u64, t: u64, wake: u64) -> u64
    ensures sooner { result ≤ wake }
    ensures holds { t < held → result ≤ held }
    ensures later { t ≤ wake → t ≤ result }
{
    if t < held { wake.min(held) } else { wake }
}

/// Whether a wake is at `t`.
pub fn wakes_in(due: Option<u64>, t: u64) -> bool
    ensures { result ≡ wakes_in due t }
{
    match due {
        None => false,
        Some(due) => due == t,
    }
}
