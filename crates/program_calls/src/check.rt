//! What `check` writes of a run.
ghost use Rattle.std.specs.Prelude.{OnOk};
ghost use Rattle.program_calls.specs.Done.{WritesTestOf};

use crate::expectations::write_test;
use crate::fault::ProgramFault;
use crate::told::Recap;
use cli_choice::TestView;
use expect_sweep::ProgressHearer;
use program_input::run_parts;
use record_core::Form;
use std::alloc::Global;
use text_core::Sink;

#[inline(never)]
pub fn test<W: Sink, H: ProgressHearer>(
    alloc: Global,
    form: Form,
    view: TestView,
    input: &[u8],
    out: &mut W,
    hearer: &mut H,
) -> Result<Recap, ProgramFault>
    ensures { OnOk result (WritesTestOf form view input.now (W.contents out.old) (W.contents out.new)) }
{
    let (topology, script) = run_parts(input)?;
    write_test(alloc, form, view, topology, script, out, hearer)?;
    Ok(Recap::Nothing)
}
