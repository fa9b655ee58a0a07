//! The program over files, a reader and two sinks.
ghost use Rattle.std.specs.Prelude.{◌≡◌, ◌<◌, true, false, OnOk, IfOk, Ok, length, map, string_bytes};
ghost use Rattle.std.specs.Io.KnownBytes.{Keeps};
ghost use Rattle.text_core.specs.Buffered.{below};
ghost use Rattle.program_captures.specs.Captures.{name_of};
ghost use Rattle.program_captures.specs.Following.{FollowsTo};
ghost use Rattle.std.specs.Option.{option_copied};
ghost use Rattle.program_calls.specs.Done.{AreServed, AreServedAs, AreServedBy, IsCompared, IsComparedOf, IsHelp, IsServed, IsServedOf, IsServedOfSeveral, Writes, captures_of, is_line_by_line};
ghost use Rattle.program_captures.specs.Compared.{WritesAlike};
ghost use Rattle.program_calls.specs.Live.{Lives};
ghost use Rattle.cli_words.specs.Named.{named_in};
ghost use Rattle.cli_words.specs.Operands.{asked_on, takes};
ghost use Rattle.program_input.specs.Plain.{plain_held, plain_known, takes_plain};
ghost use Rattle.program_input.specs.Source.{are_texts, known_bytes, known_joined};

use crate::fault::ProgramFault;
use crate::files::{FileFault, read_file, read_files};
use crate::live::{Explainer, form_by, live};
use crate::perform::{compare, perform};
use crate::progress::ProgressLines;
use crate::said::{remark, remark_fault, report};
use crate::status::{USAGE, write_fault};
use crate::told::Recap;
use crate::waited::waited_for;
use cli_choice::{Asked, CapturePair, CommandChoice, FollowChoice};
use cli_command::{Refused, choose};
use cli_words::{CommandLine, is_report, line_of, named_in};
use program_captures::follow_capture;
use program_input::{
    OpenFault, Opens, PlainFiles, are_texts, limit_of, plain_reader, read_input, source_of,
    takes_plain,
};
use record_core::Form;
use std::alloc::{AllocError, Global};
use std::io::Read;
use text_core::{Buffered, Sink, put_all};

/// How the program ended.
#[derive(Drop)]
pub struct ProgramEnd<W> {
    /// The exit status: 0 done, 1 input refused, an event of a strict run refused, a remark of a strict audit or a test failed, 2 command line refused, 3 a
    /// read or write fault or input past its limit, 4 no memory, 5 an EDID fails a rule.
    pub status: u8,
    /// The sink that it wrote to.
    pub out: W,
}

// What was done, once all that was written is handed on. Where it can't be, that is the first fault.
fn handed_on<W: Sink>(
    done: Result<Recap, ProgramFault>,
    out: &mut Buffered<W>,
) -> Result<Recap, ProgramFault>
    ensures same { IfOk result (λ told. done ≡ Ok told) }
    ensures handed { OnOk result (Keeps (⟦<Buffered<W> as Sink>⟧.contents out.old) (W.contents (below out.new))) }
{
    out.flush()?;
    done
}

// Writes a help. Answers the exit status.
fn show<W: Sink, E: Sink>(help: &str, out: &mut Buffered<W>, err: &mut E) -> u8
    ensures { result ≡ 0 → IsHelp (⟦<Buffered<W> as Sink>⟧.contents out.old) (W.contents (below out.new)) }
{
    let _ = put_all(out, help.as_bytes());
    match out.flush() {
        Ok(()) => 0,
        Err(fault) => write_fault(&ProgramFault::Write(fault), err),
    }
}

// Shows why a command line is refused, or the help that it asks for. Answers the exit status.
fn refuse<W: Sink, E: Sink>(refused: &Refused, out: &mut Buffered<W>, err: &mut E) -> u8
    ensures { result ≡ 0 → IsHelp (⟦<Buffered<W> as Sink>⟧.contents out.old) (W.contents (below out.new)) }
{
    match refused {
        Refused::Help(text) => show(text.as_str(), out, err),
        Refused::Words(text) => {
            let _ = put_all(err, text.as_bytes());
            USAGE
        }
        Refused::Memory => write_fault(&ProgramFault::Memory(AllocError), err),
    }
}

/// What the words of a command line ask for, and the memory for it.
#[derive(Clone, Copy)]
pub(crate) struct Call<'a> {
    pub alloc: Global,
    /// Those that are no operands.
    pub words: &'a [String],
    pub asked: Asked,
}

// A capture that is reported as its lines come.
#[derive(Clone, Copy)]
struct Followed<'a> {
    choice: FollowChoice,
    signal: &'a [u8],
}

/// The name of the wire that some words name, or an empty one.
pub(crate) fn signal_of(words: &[String]) -> &[u8]
    ensures { result.now ≡ name_of (named_in (map string_bytes words.now)) }
{
    match named_in(words) {
        Some(name) => name,
        None => &[],
    }
}

// A copy of it.
fn name_of(alloc: Global, words: &[String]) -> Result<Vec<u8>, AllocError>
    ensures { IfOk result (λ name. name.items ≡ name_of (named_in (map string_bytes words.now))) }
{
    match named_in(words) {
        Some(name) => name.to_vec(alloc),
        None => Ok(Vec::new(alloc)),
    }
}

// The captures that a choice compares, if it does.
fn captures_of(choice: CommandChoice) -> Option<CapturePair>
    ensures { result ≡ captures_of choice }
{
    match choice {
        CommandChoice::CaptureDiff(pair) => Some(pair),
        _ => None,
    }
}

impl Call<'_> {
    // Says why it failed. Answers the exit status.
    fn fail<E: Sink>(self, fault: &ProgramFault, err: &mut E) -> u8
        ensures { 0 < result }
    {
        report(self.alloc, self.asked, None, fault, b"", err)
    }

    // Says why a session failed, which may be a fault of its topology. Answers the exit status.
    fn fail_session<E: Sink>(self, fault: &ProgramFault, explainer: Explainer<'_, E>) -> u8
        ensures { 0 < result }
    {
        let Explainer { topology, err, .. } = explainer;
        report(self.alloc, self.asked, None, fault, &topology, err)
    }

    // Says why it failed with an input, which may be a file of a name. Answers the exit status.
    pub(crate) fn fail_over<E: Sink>(
        self,
        name: Option<&str>,
        signal: &[u8],
        fault: &ProgramFault,
        input: &[u8],
        err: &mut E,
    ) -> u8
        ensures { 0 < result }
    {
        let status = report(self.alloc, self.asked, name, fault, input, err);
        remark_fault(self.alloc, self.asked, signal, fault, input, err);
        status
    }

    // Does what is asked for with an input, and says how it went. Answers the exit status.
    fn answer<W: Sink, E: Sink>(
        self,
        signal: &[u8],
        input: &[u8],
        out: &mut Buffered<W>,
        err: &mut E,
    ) -> u8
        requires { is_line_by_line self.asked.choice ≡ false }
        ensures { result ≡ 0 → Writes self.entry.asked.choice signal.now input.now (⟦<Buffered<W> as Sink>⟧.contents out.old) (W.contents (below out.new)) }
    {
        let Call { alloc, asked, .. } = self;
        let mut progress = ProgressLines { alloc, err };
        let done = perform(alloc, asked.choice, signal, input, out, &mut progress);
        match handed_on(done, out) {
            Ok(told) => {
                remark(alloc, asked, signal, told, input, err);
                0
            }
            Err(fault) => self.fail_over(None, signal, &fault, input, err),
        }
    }

    // Answers the lines of an input as they come, in lines or in objects, and says how it went. Answers the exit status.
    fn serve_lines<R: Read, W: Sink, E: Sink>(
        self,
        form: Form,
        input: &mut R,
        out: &mut Buffered<W>,
        err: &mut E,
    ) -> u8
        ensures { result ≡ 0 → Lives form (R.remaining input.old) (⟦<Buffered<W> as Sink>⟧.contents out.old) (W.contents (below out.new)) }
    {
        let mut explainer = Explainer::new(self.alloc, self.asked.explains, err);
        match live(self.alloc, form, input, out, &mut explainer) {
            Ok(()) => 0,
            Err(fault) => self.fail_session(&fault, explainer),
        }
    }

    // Answers the lines of an input as they come, in lines or in objects.
    fn serve_session<R: Read, W: Sink, E: Sink>(
        self,
        form: Form,
        input: &mut R,
        out: W,
        err: &mut E,
    ) -> ProgramEnd<W>
        ensures { result.status ≡ 0 → Lives form (R.remaining input.old) (W.contents out) (W.contents result.out) }
    {
        let mut out = Buffered::new(out);
        let status = self.serve_lines(form, input, &mut out, err);
        ProgramEnd {
            status,
            out: out.into_below(),
        }
    }

    // Reports a capture as its lines come, and says how it went. Answers the exit status.
    fn follow_lines<R: Read, W: Sink, E: Sink>(
        self,
        followed: Followed<'_>,
        input: &mut R,
        out: &mut Buffered<W>,
        err: &mut E,
    ) -> u8
        ensures { result ≡ 0 → FollowsTo followed.entry.choice followed.entry.signal.now (R.remaining input.old) (⟦<Buffered<W> as Sink>⟧.contents out.old) (W.contents (below out.new)) }
    {
        let Followed { choice, signal } = followed;
        match follow_capture(self.alloc, choice, signal, input, out) {
            Ok(()) => 0,
            Err(fault) => self.fail(&ProgramFault::from(fault), err),
        }
    }

    // Reports a capture as its lines come. Not inlined: an audit that is kept while they come takes much of the stack, which what
    // else is asked for does not need.
    #[inline(never)]
    fn serve_capture<R: Read, W: Sink, E: Sink>(
        self,
        followed: Followed<'_>,
        input: &mut R,
        out: W,
        err: &mut E,
    ) -> ProgramEnd<W>
        ensures { result.status ≡ 0 → FollowsTo followed.entry.choice followed.entry.signal.now (R.remaining input.old) (W.contents out) (W.contents result.out) }
    {
        let mut out = Buffered::new(out);
        let status = self.follow_lines(followed, input, &mut out, err);
        ProgramEnd {
            status,
            out: out.into_below(),
        }
    }

    // Does what is asked for with all there is to read. Answers the exit status.
    fn serve_whole<R: Read, W: Sink, E: Sink>(
        self,
        signal: &[u8],
        input: &mut R,
        out: &mut Buffered<W>,
        err: &mut E,
    ) -> u8
        requires { is_line_by_line self.asked.choice ≡ false }
        ensures { result ≡ 0 → IsServed (R.remaining input.old) (⟦<Buffered<W> as Sink>⟧.contents out.old) (W.contents (below out.new)) self.entry.asked.choice signal.now }
    {
        match read_input(self.alloc, limit_of(self.asked.choice), input) {
            Ok(input) => self.answer(signal, &input, out, err),
            Err(fault) => self.fail(&ProgramFault::from(fault), err),
        }
    }

    // Does what is asked for, of the wire that the words name. Answers the exit status.
    fn serve_named<R: Read, W: Sink, E: Sink>(
        self,
        input: &mut R,
        out: &mut Buffered<W>,
        err: &mut E,
    ) -> u8
        requires { is_line_by_line self.asked.choice ≡ false }
        ensures { result ≡ 0 → IsServed (R.remaining input.old) (⟦<Buffered<W> as Sink>⟧.contents out.old) (W.contents (below out.new)) self.entry.asked.choice (name_of (named_in (map string_bytes self.entry.words.now))) }
    {
        match name_of(self.alloc, self.words) {
            Ok(name) => self.serve_whole(&name, input, out, err),
            Err(AllocError) => write_fault(&ProgramFault::Memory(AllocError), err),
        }
    }

    // The same, and how it ended.
    fn serve_input<R: Read, W: Sink, E: Sink>(
        self,
        input: &mut R,
        out: W,
        err: &mut E,
    ) -> ProgramEnd<W>
        requires { is_line_by_line self.asked.choice ≡ false }
        ensures { result.status ≡ 0 → IsServed (R.remaining input.old) (W.contents out) (W.contents result.out) self.entry.asked.choice (name_of (named_in (map string_bytes self.entry.words.now))) }
    {
        let mut out = Buffered::new(out);
        let status = self.serve_named(input, &mut out, err);
        ProgramEnd {
            status,
            out: out.into_below(),
        }
    }

    // Does what is asked for.
    fn serve<R: Read, W: Sink, E: Sink>(self, input: &mut R, out: W, err: &mut E) -> ProgramEnd<W>
        ensures { result.status ≡ 0 → IsServed (R.remaining input.old) (W.contents out) (W.contents result.out) self.entry.asked.choice (name_of (named_in (map string_bytes self.entry.words.now))) }
    {
        match self.asked.choice {
            CommandChoice::Live { json } => self.serve_session(form_by(json), input, out, err),
            CommandChoice::Follow(choice) => {
                let signal = signal_of(self.words);
                let followed = Followed { choice, signal };
                self.serve_capture(followed, input, out, err)
            }
            _ => self.serve_input(input, out, err),
        }
    }

    // Says on a terminal what is waited for, where no operand says what is read.
    fn announce<F: Opens, E: Sink>(self, files: &F, operand: Option<&str>, err: &mut E) {
        if operand.is_none() && files.is_typed() {
            let _ = put_all(err, waited_for(self.asked.choice).as_bytes());
        }
    }

    // Says why a file is not opened. Answers the exit status.
    fn fail_open<E: Sink>(self, name: &str, fault: OpenFault, err: &mut E) -> u8
        ensures { 0 < result }
    {
        let fault = ProgramFault::Open(fault);
        report(self.alloc, self.asked, Some(name), &fault, b"", err)
    }

    // Does what is asked for with what an operand stands for.
    fn serve_operand<F: Opens, R: Read, W: Sink, E: Sink>(
        self,
        files: &F,
        operand: Option<&str>,
        input: &mut R,
        out: W,
        err: &mut E,
    ) -> ProgramEnd<W>
        ensures { result.status ≡ 0 → IsServed (known_bytes (option_copied operand.entry) (R.remaining input.old) (F.held files.now)) (W.contents out) (W.contents result.out) self.entry.asked.choice (name_of (named_in (map string_bytes self.entry.words.now))) }
    {
        self.announce(files, operand, err);
        match source_of(files, operand, input) {
            Ok(source) => {
                let mut source = source;
                self.serve(&mut source, out, err)
            }
            Err(fault) => ProgramEnd {
                status: self.fail_open(operand.unwrap_or("-"), fault, err),
                out,
            },
        }
    }

    // Does what is asked for with files, one after the other. Answers the exit status.
    fn answer_joined<F: Opens, W: Sink, E: Sink>(
        self,
        files: &F,
        names: &[String],
        out: &mut Buffered<W>,
        err: &mut E,
    ) -> u8
        requires { is_line_by_line self.asked.choice ≡ false }
        ensures { result ≡ 0 → IsServed (known_joined (are_texts self.entry.asked.choice) (F.held files.now) (map string_bytes names.now)) (⟦<Buffered<W> as Sink>⟧.contents out.old) (W.contents (below out.new)) self.entry.asked.choice (name_of (named_in (map string_bytes self.entry.words.now))) }
    {
        let choice = self.asked.choice;
        match read_files(
            self.alloc,
            limit_of(choice),
            files,
            are_texts(choice),
            names,
        ) {
            Ok(input) => self.answer(signal_of(self.words), &input, out, err),
            Err(FileFault { name, fault }) => {
                report(self.alloc, self.asked, Some(name), &fault, b"", err)
            }
        }
    }

    // The same, and how it ended.
    fn serve_joined<F: Opens, W: Sink, E: Sink>(
        self,
        files: &F,
        names: &[String],
        out: W,
        err: &mut E,
    ) -> ProgramEnd<W>
        requires { is_line_by_line self.asked.choice ≡ false }
        ensures { result.status ≡ 0 → IsServed (known_joined (are_texts self.entry.asked.choice) (F.held files.now) (map string_bytes names.now)) (W.contents out) (W.contents result.out) self.entry.asked.choice (name_of (named_in (map string_bytes self.entry.words.now))) }
    {
        let mut out = Buffered::new(out);
        let status = self.answer_joined(files, names, &mut out, err);
        ProgramEnd {
            status,
            out: out.into_below(),
        }
    }

    // Writes where two captures differ, and says how it went. Answers the exit status.
    fn compare<W: Sink, E: Sink>(
        self,
        pair: CapturePair,
        signal: &[u8],
        first: &[u8],
        second: &[u8],
        out: &mut Buffered<W>,
        err: &mut E,
    ) -> u8
        ensures { result ≡ 0 → WritesAlike pair signal.now first.now second.now (⟦<Buffered<W> as Sink>⟧.contents out.old) (W.contents (below out.new)) }
    {
        let Call { alloc, asked, .. } = self;
        let done = compare(alloc, pair, signal, first, second, out);
        match handed_on(done, out) {
            Ok(_told) => 0,
            Err(fault) => report(alloc, asked, None, &fault, first, err),
        }
    }

    // The same of the captures of two files.
    fn answer_pair<F: Opens, W: Sink, E: Sink>(
        self,
        files: &F,
        pair: CapturePair,
        first: &str,
        second: &str,
        out: &mut Buffered<W>,
        err: &mut E,
    ) -> u8
        ensures { result ≡ 0 → IsCompared pair (name_of (named_in (map string_bytes self.entry.words.now))) (F.held files.now first.now) (F.held files.now second.now) (⟦<Buffered<W> as Sink>⟧.contents out.old) (W.contents (below out.new)) }
    {
        let limit = limit_of(self.asked.choice);
        match read_file(self.alloc, limit, files, first) {
            Ok(one) => match read_file(self.alloc, limit, files, second) {
                Ok(other) => self.compare(pair, signal_of(self.words), &one, &other, out, err),
                Err(fault) => report(self.alloc, self.asked, Some(second), &fault, b"", err),
            },
            Err(fault) => report(self.alloc, self.asked, Some(first), &fault, b"", err),
        }
    }

    // The same of two files. Others are not compared.
    fn answer_two<F: Opens, W: Sink, E: Sink>(
        self,
        files: &F,
        pair: CapturePair,
        names: &[String],
        out: &mut Buffered<W>,
        err: &mut E,
    ) -> u8
        ensures { result ≡ 0 → IsComparedOf pair (name_of (named_in (map string_bytes self.entry.words.now))) (map string_bytes names.now) (F.held files.now) (⟦<Buffered<W> as Sink>⟧.contents out.old) (W.contents (below out.new)) }
    {
        match names {
            [first, second] => {
                self.answer_pair(files, pair, first.as_str(), second.as_str(), out, err)
            }
            _ => USAGE,
        }
    }

    // The same, and how it ended.
    fn serve_pair<F: Opens, W: Sink, E: Sink>(
        self,
        files: &F,
        pair: CapturePair,
        names: &[String],
        out: W,
        err: &mut E,
    ) -> ProgramEnd<W>
        ensures { result.status ≡ 0 → IsComparedOf pair (name_of (named_in (map string_bytes self.entry.words.now))) (map string_bytes names.now) (F.held files.now) (W.contents out) (W.contents result.out) }
    {
        let mut out = Buffered::new(out);
        let status = self.answer_two(files, pair, names, &mut out, err);
        ProgramEnd {
            status,
            out: out.into_below(),
        }
    }

    // Does what is asked for with files that are read together.
    fn serve_together<F: Opens, W: Sink, E: Sink>(
        self,
        files: &F,
        names: &[String],
        out: W,
        err: &mut E,
    ) -> ProgramEnd<W>
        requires { is_line_by_line self.asked.choice ≡ false }
        ensures { result.status ≡ 0 → AreServedBy (captures_of self.entry.asked.choice) self.entry.asked.choice (name_of (named_in (map string_bytes self.entry.words.now))) (map string_bytes names.now) (F.held files.now) (W.contents out) (W.contents result.out) }
    {
        match captures_of(self.asked.choice) {
            Some(pair) => self.serve_pair(files, pair, names, out, err),
            None => self.serve_joined(files, names, out, err),
        }
    }

    // Does what is asked for with several files.
    fn serve_files<F: Opens, W: Sink, E: Sink>(
        self,
        files: &F,
        names: &[String],
        out: W,
        err: &mut E,
    ) -> ProgramEnd<W>
        requires { is_line_by_line self.asked.choice ≡ false }
        ensures { result.status ≡ 0 → IsServedOfSeveral self.entry.asked.choice (name_of (named_in (map string_bytes self.entry.words.now))) (map string_bytes names.now) (F.held files.now) (W.contents out) (W.contents result.out) }
    {
        if is_report(self.asked.choice) {
            self.serve_reports(files, names, out, err)
        } else {
            self.serve_together(files, names, out, err)
        }
    }

    // Does what is asked for with what some operands stand for.
    fn serve_sources<F: Opens, R: Read, W: Sink, E: Sink>(
        self,
        files: &F,
        operands: &[String],
        input: &mut R,
        out: W,
        err: &mut E,
    ) -> ProgramEnd<W>
        requires { takes self.asked.choice (length (map string_bytes operands.now)) ≡ true }
        ensures { result.status ≡ 0 → IsServedOf self.entry.asked.choice (name_of (named_in (map string_bytes self.entry.words.now))) (map string_bytes operands.now) (R.remaining input.old) (F.held files.now) (W.contents out) (W.contents result.out) }
    {
        match operands {
            [] => self.serve_operand(files, None, input, out, err),
            [operand] => self.serve_operand(files, Some(operand.as_str()), input, out, err),
            names => self.serve_files(files, names, out, err),
        }
    }

    // Does what is asked for with some operands. Texts of captures are read plain where these are files, or have their form given.
    fn serve_operands<F: Opens, R: Read, W: Sink, E: Sink>(
        self,
        files: &F,
        operands: &[String],
        input: &mut R,
        out: W,
        err: &mut E,
    ) -> ProgramEnd<W>
        requires { takes self.asked.choice (length (map string_bytes operands.now)) ≡ true }
        ensures { result.status ≡ 0 → IsServedOf self.entry.asked.choice (name_of (named_in (map string_bytes self.entry.words.now))) (map string_bytes operands.now) (plain_known (takes_plain self.entry.asked.choice false) (R.remaining input.old)) (plain_held (takes_plain self.entry.asked.choice true) (F.held files.now)) (W.contents out) (W.contents result.out) }
    {
        let choice = self.asked.choice;
        let files = PlainFiles {
            files,
            is_plain: takes_plain(choice, true),
        };
        let mut input = plain_reader(input, takes_plain(choice, false));
        self.serve_sources(&files, operands, &mut input, out, err)
    }
}

// Says why a command line is refused, or shows the help that it asks for.
fn decline<W: Sink, E: Sink>(refused: &Refused, out: W, err: &mut E) -> ProgramEnd<W>
    ensures { result.status ≡ 0 → IsHelp (W.contents out) (W.contents result.out) }
{
    let mut out = Buffered::new(out);
    let status = refuse(refused, &mut out, err);
    ProgramEnd {
        status,
        out: out.into_below(),
    }
}

// Does what a command line asks for.
fn act<F: Opens, R: Read, W: Sink, E: Sink>(
    alloc: Global,
    files: &F,
    words: &[String],
    line: &CommandLine,
    input: &mut R,
    out: W,
    err: &mut E,
) -> ProgramEnd<W>
    ensures { result.status ≡ 0 → AreServedAs (asked_on (map string_bytes line.now.words.items) (map string_bytes line.now.operands.items)) (name_of (named_in (map string_bytes line.now.words.items))) (map string_bytes line.now.operands.items) (R.remaining input.old) (F.held files.now) (W.contents out) (W.contents result.out) }
{
    match choose(alloc, words, line) {
        Ok(asked) => Call {
            alloc,
            words: &line.words,
            asked,
        }
        .serve_operands(files, &line.operands, input, out, err),
        Err(refused) => decline(&refused, out, err),
    }
}

/// The whole program. `words` has the program's name first; `files` opens what they name.
///
/// With status 0 what was asked for is done: the bytes that `out` holds have grown by the text that the choice makes of all that
/// its input had, and by nothing else. The input is `input`, or the file that the words name; several files are tested one by
/// one, or read one after the other.
pub fn program<F: Opens, R: Read, W: Sink, E: Sink>(
    alloc: Global,
    files: &F,
    words: Vec<String>,
    input: &mut R,
    out: W,
    err: &mut E,
) -> ProgramEnd<W>
    ensures { result.status ≡ 0 → AreServed (map string_bytes words.items) (R.remaining input.old) (F.held files.now) (W.contents out) (W.contents result.out) }
{
    match line_of(alloc, &words) {
        Ok(line) => act(alloc, files, &words, &line, input, out, err),
        Err(AllocError) => ProgramEnd {
            status: write_fault(&ProgramFault::Memory(AllocError), err),
            out,
        },
    }
}
