//! A script that is read where it stands, without its labels and expectations.
ghost use Rattle.std.specs.Prelude.{length, IfOk};
ghost use Rattle.room_script.specs.Script.{GivesScript, IsScript, course_of};
ghost use Rattle.expect_text.specs.Line.{plain_script};

use expect_text::plain_part;
use room_run::ScriptSource;
use room_script::{Script, ScriptDraft, ScriptError, Topology, error_at, take_line};
use std::alloc::Global;
use text_core::first_line;

/// The plain script of a script, read line by line.
#[derive(Clone, Copy)]
pub(crate) struct PlainScriptLines<'a> {
    pub script: &'a [u8],
}

impl ScriptSource for PlainScriptLines<'_> {
    ghost text = { λ lines. plain_script lines.script.now };

    fn parse(&self, alloc: Global, topology: &Topology) -> Result<Script, ScriptError> {
        parse_plain(alloc, topology, self.script)
    }
}

// Reads a script as `parse_script` reads its plain script.
#[tactic(auto, using(crate::proofs::PlainRead::line_refused))]
fn parse_plain(alloc: Global, topology: &Topology, script: &[u8]) -> Result<Script, ScriptError>
    ensures gives { GivesScript topology.now.tree (plain_script script.now) result }
    ensures script { IfOk result (λ read. IsScript (length topology.now.tree) (course_of read)) }
{
    let tree = &topology.tree;
    let mut draft = ScriptDraft::new(alloc);
    let mut rest = script;
    let mut number = 1;
    'lines: while let Some((line, after)) = first_line(rest) {
        let waiting = draft.pulses.len();
        if let Err(error) = take_line(tree, &mut draft, waiting, number, plain_part(line)) {
            return Err(error_at(number, error));
        }
        rest = after;
        number += 1;
    }
    draft.finish(number)
}
