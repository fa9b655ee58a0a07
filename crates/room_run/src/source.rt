//! Where a run takes its script from.
ghost use Rattle.std.specs.Prelude.{ℕ, List, length, IfOk};
ghost use Rattle.room_script.specs.Script.{GivesScript, IsScript, course_of};

use room_script::{Script, ScriptError, Topology, parse_script};
use std::alloc::Global;

/// What has the text of a script, and reads it.
pub trait ScriptSource {
    /// The text.
    ghost text: { Self → List ℕ };

    /// Reads it for the devices of a topology, as `parse_script` does.
    fn parse(&self, alloc: Global, topology: &Topology) -> Result<Script, ScriptError>
        ensures gives { GivesScript topology.now.tree (text self.now) result }
        ensures script { IfOk result (λ script. IsScript (length topology.now.tree) (course_of script)) };
}

/// A script's text in memory.
#[derive(Clone, Copy)]
pub struct ScriptText<'a> {
    pub text: &'a [u8],
}

impl ScriptSource for ScriptText<'_> {
    ghost text = { λ script. script.text.now };

    fn parse(&self, alloc: Global, topology: &Topology) -> Result<Script, ScriptError> {
        parse_script(alloc, topology, self.text)
    }
}
