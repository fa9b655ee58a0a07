//! The report of several inputs: a subtest for each, and a test that it is.
ghost use Rattle.std.specs.Prelude.{◌≡◌, ◌++◌, false, OnOk, IfOk, codes, map, string_bytes};
ghost use Rattle.std.specs.Io.KnownBytes.{Appends};
ghost use Rattle.std.specs.List.{flat_map};
ghost use Rattle.text_core.specs.Buffered.{below};
ghost use Rattle.text_core.specs.Lines.{lines_of};
ghost use Rattle.cli_words.specs.Named.{named_in};
ghost use Rattle.program_captures.specs.Captures.{name_of};
ghost use Rattle.program_calls.specs.Done.{IsDone, is_line_by_line};
ghost use Rattle.program_calls.specs.Reports.{WritesNested, WritesNestedFile, WritesNestedInput, WritesReports, is_swept, nested_line, nested_text, plan_line, report_kind, result_line};
ghost use Rattle.program_calls.specs.Tests.{remark_line};

use crate::fault::ProgramFault;
use crate::files::read_file;
use crate::perform::perform;
use crate::program::{Call, ProgramEnd, signal_of};
use crate::progress::ProgressLines;
use crate::said::{remark, report};
use crate::status::write_fault;
use cli_choice::CommandChoice;
use expect_sweep::has_range;
use program_input::{Opens, limit_of};
use std::alloc::AllocError;
use text_core::{
    Buffered, Counted, Held, Piece, Sink, TextOfLine, WriteFault, put_all, write_lines,
    write_pieces,
};

/// The version of the Test Anything Protocol of one report, which has no subtests.
const VERSION: &[u8] = b"TAP version 13";

/// That of the report of several.
const NESTED_VERSION: &[u8] = b"TAP version 14\n";

/// What the lines of a report are.
#[derive(Clone, Copy, Debug)]
pub(crate) enum ReportKind {
    /// Tests.
    Expectations,
    /// Stretches of a sweep.
    Sweep,
}

// Whether the report of an input is that of a sweep.
fn is_swept(choice: CommandChoice, input: &[u8]) -> bool
    ensures { result ≡ is_swept choice input.now }
{
    match choice {
        CommandChoice::Check(_) => has_range(input),
        _ => false,
    }
}

// What the lines of the report of an input are. Where there is none, no test is named.
fn report_kind(choice: CommandChoice, input: &[u8], report: &[u8]) -> ReportKind
    ensures { result ≡ report_kind choice input.now report.now }
{
    if report.is_empty() || is_swept(choice, input) {
        ReportKind::Sweep
    } else {
        ReportKind::Expectations
    }
}

// The lines of a report as those of a subtest.
#[derive(Clone, Copy)]
struct NestedLines;

impl TextOfLine for NestedLines {
    ghost is = { λ lines line text. text ≡ nested_line line };

    fn add<S: Sink>(&self, out: &mut Counted<'_, S>, line: &[u8]) {
        if line != VERSION {
            out.add_line(&[Piece::Text("    "), Piece::Bytes(line), Piece::Text("\n")]);
        }
    }
}

// The lines of a report as remarks.
#[derive(Clone, Copy)]
struct RemarkLines;

impl TextOfLine for RemarkLines {
    ghost is = { λ lines line text. text ≡ remark_line line };

    fn add<S: Sink>(&self, out: &mut Counted<'_, S>, line: &[u8]) {
        out.add_line(&[Piece::Text("# "), Piece::Bytes(line), Piece::Text("\n")]);
    }
}

// Writes the lines of a report as those of a subtest.
fn write_nested_lines<W: Sink>(report: &[u8], out: &mut W) -> Result<(), WriteFault>
    ensures { OnOk result (Appends (W.contents out.old) (W.contents out.new) (flat_map nested_line (lines_of report.now))) }
{
    write_lines(report, &NestedLines, out)
}

// Writes them as remarks.
fn write_remarks<W: Sink>(report: &[u8], out: &mut W) -> Result<(), WriteFault>
    ensures { OnOk result (Appends (W.contents out.old) (W.contents out.new) (flat_map remark_line (lines_of report.now))) }
{
    write_lines(report, &RemarkLines, out)
}

// Writes the name of a subtest.
fn write_head<W: Sink>(name: &str, out: &mut W) -> Result<(), WriteFault>
    ensures { OnOk result (Appends (W.contents out.old) (W.contents out.new) (codes "# Subtest: " ++ name.now ++ codes "\n")) }
{
    write_pieces(
        out,
        &[
            Piece::Text("# Subtest: "),
            Piece::Text(name),
            Piece::Text("\n"),
        ],
    )?;
    Ok(())
}

// Writes a report below the name of its input.
fn write_nested<W: Sink>(
    kind: ReportKind,
    name: &str,
    report: &[u8],
    out: &mut W,
) -> Result<(), WriteFault>
    ensures { OnOk result (Appends (W.contents out.old) (W.contents out.new) (nested_text kind name.now report.now)) }
{
    match kind {
        ReportKind::Expectations => {
            write_head(name, out)?;
            write_nested_lines(report, out)
        }
        ReportKind::Sweep => write_remarks(report, out),
    }
}

// Writes the test that an input is.
fn write_result<W: Sink>(
    holds: bool,
    number: u64,
    name: &str,
    out: &mut W,
) -> Result<(), WriteFault>
    ensures { OnOk result (Appends (W.contents out.old) (W.contents out.new) (result_line holds number name.now)) }
{
    let verdict = if holds { "ok " } else { "not ok " };
    write_pieces(
        out,
        &[
            Piece::Text(verdict),
            Piece::Decimal(number),
            Piece::Text(" - "),
            Piece::Text(name),
            Piece::Text("\n"),
        ],
    )?;
    Ok(())
}

// Writes how many inputs there are.
fn write_plan<W: Sink>(count: usize, out: &mut W) -> Result<(), WriteFault>
    ensures { OnOk result (Appends (W.contents out.old) (W.contents out.new) (plan_line count)) }
{
    write_pieces(
        out,
        &[
            Piece::Text("1.."),
            Piece::Decimal(count as u64),
            Piece::Text("\n"),
        ],
    )?;
    Ok(())
}

// The greater of two exit statuses.
fn greater(one: u8, other: u8) -> u8
    ensures { result ≡ 0 → (one ≡ 0) × (other ≡ 0) }
{
    if one < other { other } else { one }
}

impl Call<'_> {
    // Writes what stands for the input of a name, whose number this is, and says how it went. Answers the exit status.
    fn report_input<W: Sink, E: Sink>(
        self,
        input: &[u8],
        number: u64,
        name: &str,
        out: &mut W,
        err: &mut E,
    ) -> Result<u8, WriteFault>
        requires { is_line_by_line self.asked.choice ≡ false }
        ensures { IfOk result (λ status. status ≡ 0 → WritesNestedInput (report_kind self.entry.asked.choice) (IsDone self.entry.asked.choice (name_of (named_in (map string_bytes self.entry.words.now)))) input.now number name.now (W.contents out.old) (W.contents out.new)) }
    {
        let Call { alloc, asked, .. } = self;
        let mut held = Held::new(alloc);
        let mut progress = ProgressLines { alloc, err };
        let signal = signal_of(self.words);
        let done = perform(alloc, asked.choice, signal, input, &mut held, &mut progress);
        write_nested(
            report_kind(asked.choice, input, held.bytes()),
            name,
            held.bytes(),
            out,
        )?;
        write_result(done.is_ok(), number, name, out)?;
        match done {
            Ok(told) => {
                remark(alloc, asked, signal, told, input, err);
                Ok(0)
            }
            Err(_) if held.is_full() => {
                let fault = ProgramFault::Memory(AllocError);
                Ok(report(alloc, asked, Some(name), &fault, input, err))
            }
            Err(fault) => Ok(self.fail_over(Some(name), signal, &fault, input, err)),
        }
    }

    // The same of the file of a name.
    fn report_file<F: Opens, W: Sink, E: Sink>(
        self,
        files: &F,
        number: u64,
        name: &str,
        out: &mut W,
        err: &mut E,
    ) -> Result<u8, WriteFault>
        requires { is_line_by_line self.asked.choice ≡ false }
        ensures { IfOk result (λ status. status ≡ 0 → WritesNestedFile (report_kind self.entry.asked.choice) (IsDone self.entry.asked.choice (name_of (named_in (map string_bytes self.entry.words.now)))) (F.held files.now name.now) number name.now (W.contents out.old) (W.contents out.new)) }
    {
        match read_file(self.alloc, limit_of(self.asked.choice), files, name) {
            Ok(input) => self.report_input(&input, number, name, out, err),
            Err(fault) => {
                write_result(false, number, name, out)?;
                Ok(report(self.alloc, self.asked, Some(name), &fault, b"", err))
            }
        }
    }

    // The same of the last of so many files, in turn. Answers the greatest of the exit statuses.
    fn report_each<F: Opens, W: Sink, E: Sink>(
        self,
        files: &F,
        count: usize,
        names: &[String],
        out: &mut W,
        err: &mut E,
    ) -> Result<u8, WriteFault>
        requires { is_line_by_line self.asked.choice ≡ false }
        ensures { IfOk result (λ status. status ≡ 0 → WritesNested (report_kind self.entry.asked.choice) (IsDone self.entry.asked.choice (name_of (named_in (map string_bytes self.entry.words.now)))) (F.held files.now) count (map string_bytes names.now) (W.contents out.old) (W.contents out.new)) }
    {
        match names {
            [] => Ok(0),
            [name, others @ ..] => {
                let number = count.saturating_sub(others.len()) as u64;
                let first = self.report_file(files, number, name.as_str(), out, err)?;
                let rest = self.report_each(files, count, others, out, err)?;
                Ok(greater(first, rest))
            }
        }
    }

    // Writes the report of some files. Answers the greatest of the exit statuses.
    fn report_files<F: Opens, W: Sink, E: Sink>(
        self,
        files: &F,
        names: &[String],
        out: &mut W,
        err: &mut E,
    ) -> Result<u8, WriteFault>
        requires { is_line_by_line self.asked.choice ≡ false }
        ensures { IfOk result (λ status. status ≡ 0 → WritesReports (report_kind self.entry.asked.choice) (IsDone self.entry.asked.choice (name_of (named_in (map string_bytes self.entry.words.now)))) (F.held files.now) (map string_bytes names.now) (W.contents out.old) (W.contents out.new)) }
    {
        put_all(out, NESTED_VERSION)?;
        let status = self.report_each(files, names.len(), names, out, err)?;
        write_plan(names.len(), out)?;
        Ok(status)
    }

    // The same, once it is handed on. Answers the exit status.
    fn hand_on_reports<F: Opens, W: Sink, E: Sink>(
        self,
        files: &F,
        names: &[String],
        out: &mut Buffered<W>,
        err: &mut E,
    ) -> u8
        requires { is_line_by_line self.asked.choice ≡ false }
        ensures { result ≡ 0 → WritesReports (report_kind self.entry.asked.choice) (IsDone self.entry.asked.choice (name_of (named_in (map string_bytes self.entry.words.now)))) (F.held files.now) (map string_bytes names.now) (⟦<Buffered<W> as Sink>⟧.contents out.old) (W.contents (below out.new)) }
    {
        let done = self.report_files(files, names, out, err);
        match out.flush() {
            Ok(()) => match done {
                Ok(status) => status,
                Err(fault) => write_fault(&ProgramFault::Write(fault), err),
            },
            Err(fault) => write_fault(&ProgramFault::Write(fault), err),
        }
    }

    /// Writes the report of some files, and says how it went. A file that is at fault does not stop the others.
    pub(crate) fn serve_reports<F: Opens, W: Sink, E: Sink>(
        self,
        files: &F,
        names: &[String],
        out: W,
        err: &mut E,
    ) -> ProgramEnd<W>
        requires { is_line_by_line self.asked.choice ≡ false }
        ensures { result.status ≡ 0 → WritesReports (report_kind self.entry.asked.choice) (IsDone self.entry.asked.choice (name_of (named_in (map string_bytes self.entry.words.now)))) (F.held files.now) (map string_bytes names.now) (W.contents out) (W.contents result.out) }
    {
        let mut out = Buffered::new(out);
        let status = self.hand_on_reports(files, names, &mut out, err);
        ProgramEnd {
            status,
            out: out.into_below(),
        }
    }
}
