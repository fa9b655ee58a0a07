//! Whether a run is as the expectations of its script have it.
ghost use Rattle.std.specs.Prelude.{◌≡◌};
ghost use Rattle.library_run.specs.Checking.{AnswersCheck, check_answer, counts_of, expect_code};

use crate::run::run_refused;
use expect_run::{CheckError, Tally, check};
use expect_text::ExpectCause;
use library_answers::{Answer, Code, put, refused};
use record_core::Form;
use std::alloc::Global;
use text_core::Held;

/// How many tests a report has.
#[repr(C)]
#[derive(Clone, Copy, Debug, PartialEq, Eq)]
pub struct TestCounts {
    /// All of them, one for each expectation and for each refused event that none expects.
    pub count: u64,
    /// Those that failed.
    pub failed: u64,
}

fn counts_of(tally: Tally) -> TestCounts
    ensures { result ≡ counts_of tally }
{
    TestCounts {
        count: tally.count,
        failed: tally.failed,
    }
}

fn expect_code(cause: ExpectCause) -> Code
    ensures { result ≡ expect_code cause }
{
    match cause {
        ExpectCause::Word => Code::ExpectWord,
        ExpectCause::Pattern => Code::ExpectWord,
        ExpectCause::Number => Code::ExpectNumber,
        ExpectCause::Name => Code::ScriptName,
        ExpectCause::Label => Code::ExpectLabel,
        ExpectCause::Order => Code::ExpectOrder,
        ExpectCause::Unmet => Code::ExpectWord,
    }
}

/// The answer where there is no report, for this cause. What is written stands in memory, so that only want of it ends a write.
pub fn check_refused(error: &CheckError) -> Answer
    ensures { result ≡ check_answer error.now }
{
    match error {
        CheckError::Emulate(error) => run_refused(error),
        CheckError::Expect(fault) => refused(expect_code(fault.cause), fault.line),
        CheckError::Write(_) | CheckError::Memory => refused(Code::Memory, 0),
    }
}

/// Runs a script without its labels and expectations on a topology, and puts the report into the room whether the run is as
/// they have it. Its tests are counted also where the room is too small.
///
/// Refused as `put_trace` refuses the script without them; then with the first line whose label or expectation is at
/// fault; or where memory ran out.
pub fn put_report(
    alloc: Global,
    topology: &[u8],
    script: &[u8],
    room: &mut [u8],
    tests: &mut TestCounts,
) -> Answer
    ensures { AnswersCheck topology.now script.now room.old room.new tests.old tests.new result }
{
    let mut report = Held::new(alloc);
    match check(alloc, Form::Text, topology, script, &mut report) {
        Ok(tally) => {
            *tests = counts_of(tally);
            put(report.bytes(), room)
        }
        Err(error) => check_refused(&error),
    }
}
