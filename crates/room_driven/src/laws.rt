//! Laws of runs of which it is told who drives the line.
ghost use Rattle.room_driven.specs.Driven.{RunsHaveDrives};

/// A run has a text of its line and of who drives it: each of its rounds has an outcome, and it stops.
pub fn runs_have_drives()
    ensures { RunsHaveDrives }
{}
