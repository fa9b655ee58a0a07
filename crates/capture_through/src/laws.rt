//! Laws of lines that pass.
ghost use Rattle.std.specs.Prelude.{Bool, List, ℕ};
ghost use Rattle.line_wave.specs.declared.Edge.{Edge};
ghost use Rattle.capture_core.specs.Edges.{AreInTurn};
ghost use Rattle.capture_through.specs.Through.{AreFrom, CapturesStay};

/// What comes out of a capture, with its end, is a capture.
pub fn captures_stay_captures()
    ensures { CapturesStay }
{}

/// Of edges none comes before 0, and of edges in turn from an instant on none before that.
pub fn edges_come_from_an_instant()
    ensures zero { (es : List Edge) → AreFrom 0 es }
    ensures turn { (b : Bool) (from : ℕ) (es : List Edge) → AreInTurn b from es → AreFrom from es }
{}
