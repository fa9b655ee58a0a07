//! Steps that are refused.
use record_core::Form;
use room_run::emulate::EmulateError;
use room_steps::step_run::{StepRunError, step_run};
use std::alloc::Global;
use std::process::Abort;
use text_core::Writes;

// A television, and a player in its first port.
const TWO: &str = "device tv tv 4\ndevice p1 player 0\nplug p1 tv 1\n";

// The number of the word at fault, and the line.
const FAULTS: &str = "\
0 edges
0 Edge
1 edge  now
1 round 2
1 until
1 until stop
1 until stop now
2 until opcode
2 until opcode 8
2 until opcode 8F
2 until opcode 8F now
3 until opcode 8f now
2 until device
2 until device p2
3 until device p2 now
3 until device p1 now then
2 until break now
1 show
1 show p2
2 show p1 now
2 show p2 now
";

// What these steps are refused with. There is no room for a text.
fn refusal(alloc: Global, script: &str, steps: &str) -> Result<(), StepRunError> {
    let mut room = [0; 0];
    step_run(
        alloc,
        Form::Text,
        TWO.as_bytes(),
        script.as_bytes(),
        steps.as_bytes(),
        &mut Writes::new(room.as_mut_slice()),
    )
}

// Of these steps the fourth line is at fault, at the word of the row.
fn is_at_fault(rt: &(impl Abort + AllocGlobal), row: &str) -> bool {
    let (want, line) = row.split_once(' ').expect(rt, "a row");
    let want = want.parse::<usize>().expect(rt, "a number");
    let steps = format!(in rt.alloc(); "\n# steps\nround\n{line}\nedges\n").expect(rt, "steps");
    match refusal(rt.alloc(), "end 400000\n", steps.as_str()) {
        Err(StepRunError::Steps { line: 4, word }) => word == want,
        _ => false,
    }
}

#[test]
fn refuses_the_first_line_at_fault(rt: HostRuntime) {
    let alloc = rt.alloc();
    for row in FAULTS.lines() {
        assert!(&rt; is_at_fault(&rt, row), "{row}");
    }
    let answer = refusal(alloc, "", "edges\n");
    assert!(&rt;
        matches!(
            answer,
            Err(StepRunError::Run(EmulateError::Script { line: 1, .. }))
        )
    );
}
