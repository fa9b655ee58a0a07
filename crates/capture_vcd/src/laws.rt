//! Laws of dumps.
ghost use Rattle.std.specs.Prelude.{◌≡◌, ℕ, ◌^◌, ◌<◌, ◌==◌, [], ◌∷◌};
ghost use Rattle.capture_core.specs.Texts.{Lacks};
ghost use Rattle.capture_vcd.specs.Dump.{parts_of};
ghost use Rattle.capture_vcd.specs.Text.{DumpsAreReadBack, time_line};
ghost use Rattle.capture_vcd.specs.Wire.{DumpsAreSampled};

/// The dump of a line that is high from the end on is read as the line's edges.
pub fn dumps_are_read_back()
    ensures { DumpsAreReadBack }
{}

/// What is read of a dump is its wire, sampled at the first instant of each microsecond, and is a capture.
pub fn dumps_are_sampled()
    ensures { DumpsAreSampled }
{}

/// What is written of a time is one word, and lacks line feeds.
pub fn times_are_lines()
    ensures word { (t : ℕ) → t < 2 ^ 64 → parts_of (time_line t) ≡ time_line t ∷ [] }
    ensures plain { (t : ℕ) → t < 2 ^ 64 → Lacks (λ c. c == 10) (time_line t) }
{}
