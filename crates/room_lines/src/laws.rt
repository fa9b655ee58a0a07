//! What holds of the tables.
ghost use Rattle.std.specs.Prelude.{◌≡◌, true};
ghost use Rattle.text_forms.specs.Laws.{all_apart};
ghost use Rattle.room_lines.specs.Expect.{expect_rows};
ghost use Rattle.room_lines.specs.Script.{script_rows};
ghost use Rattle.room_lines.specs.Session.{session_rows};
ghost use Rattle.room_lines.specs.Step.{step_rows};
ghost use Rattle.room_lines.specs.Topology.{topology_rows};

/// No line has two of the forms of a topology, so that each line's reading and its canonical text determine each other.
pub fn topology_rows_are_apart()
    ensures { all_apart topology_rows ≡ true }
{}

/// No line has two of the forms of a script.
pub fn script_rows_are_apart()
    ensures { all_apart script_rows ≡ true }
{}

/// No line has two of the forms of a session.
pub fn session_rows_are_apart()
    ensures { all_apart session_rows ≡ true }
{}

/// No line has two of the forms of steps.
pub fn step_rows_are_apart()
    ensures { all_apart step_rows ≡ true }
{}

/// No line has two of the forms of expectations.
pub fn expect_rows_are_apart()
    ensures { all_apart expect_rows ≡ true }
{}
