//! The command line.
ghost use Rattle.std.specs.Prelude.{◌≡◌, true, IfOk, MatchResult, None, Some, length, map, string_bytes};
ghost use Rattle.cli_words.specs.Operands.{asked_on, takes};

use crate::rules::{add_rules, add_rules_of_files};
use crate::values::value_hint;
use crate::{edid_help, frames_help, help};
use clap::error::ErrorKind;
use clap::{Arg, ArgAction, Command, Error};
use cli_choice::Asked;
use cli_words::{CommandLine, asked_by, asked_on, value_at_fault};
use explain_lists::{Draft, frame_forms, run_words};
use std::alloc::{AllocError, Global};

/// What is said in place of doing what a command line asks for.
#[derive(Debug, Drop)]
pub enum Refused {
    /// The help that it asks for.
    Help(String),
    /// Why its words are refused.
    Words(String),
    /// Nothing, as memory ran out.
    Memory,
}

fn flag<'a>(alloc: Global, name: &'a str, help: &'a str) -> Arg<'a> {
    Arg::new(alloc, name)
        .long(name)
        .help(help)
        .action(ArgAction::SetTrue)
}

// Adds flags, by their names and helps.
fn with_flags<'a>(
    alloc: Global,
    command: Command<'a>,
    flags: &[(&'static str, &'static str)],
) -> Result<Command<'a>, AllocError> {
    let mut command = command;
    for row in flags {
        let (name, help) = *row;
        command = command.arg(flag(alloc, name, help))?;
    }
    Ok(command)
}

// Adds flags that take a value, by their names, what stands for the value, and their helps.
fn with_values<'a>(
    alloc: Global,
    command: Command<'a>,
    flags: &[(&'static str, &'static str, &'static str)],
) -> Result<Command<'a>, AllocError> {
    let mut command = command;
    for row in flags {
        let (name, value, help) = *row;
        let flag = Arg::new(alloc, name)
            .long(name)
            .value_name(value)
            .help(help)
            .action(ArgAction::Set);
        command = command.arg(flag)?;
    }
    Ok(command)
}

/// Flags of a subcommand, by their names and helps, and those that take a value, with what stands for it.
type Flags = (
    &'static [(&'static str, &'static str)],
    &'static [(&'static str, &'static str, &'static str)],
);

// The flags of a subcommand, where a word is one.
fn flags_of(word: &str) -> Option<Flags> {
    match word {
        "run" => Some((help::RUN_FLAGS, help::RUN_VALUES)),
        "check" => Some((help::CHECK_FLAGS, help::CHECK_VALUES)),
        "step" => Some((help::STEP_FLAGS, &[])),
        "live" => Some((help::LIVE_FLAGS, &[])),
        "asm" => Some((&[], &[])),
        "dis" => Some((frames_help::DIS_FLAGS, &[])),
        "lay" => Some((frames_help::LAY_FLAGS, &[])),
        "mon" => Some((help::MON_FLAGS, help::MON_VALUES)),
        "edid" => Some((edid_help::EDID_FLAGS, edid_help::EDID_VALUES)),
        _ => None,
    }
}

// Adds the flags of a subcommand.
fn with_own<'a>(
    alloc: Global,
    command: Command<'a>,
    word: &str,
) -> Result<Command<'a>, AllocError> {
    match flags_of(word) {
        Some((flags, values)) => {
            let command = with_flags(alloc, command, flags)?;
            with_values(alloc, command, values)
        }
        None => Ok(command),
    }
}

// A file, or standard input.
fn operand<'a>(alloc: Global, name: &'a str, value: &'a str, help: &'a str) -> Arg<'a> {
    Arg::new(alloc, name).value_name(value).help(help)
}

// The file that a command reads.
fn one_file<'a>(alloc: Global) -> Arg<'a> {
    operand(alloc, "file", "FILE", help::FILE)
}

// Whether one of some words is this one.
fn has_word(words: &[String], sought: &str) -> bool {
    for word in words {
        if word.as_str() == sought {
            return true;
        }
    }
    false
}

// Whether the whole help is asked for.
fn asks_help(words: &[String]) -> bool {
    has_word(words, "--help")
}

// Whether the flags alone are asked for.
fn asks_flags(words: &[String]) -> bool {
    has_word(words, "-h") && !asks_help(words)
}

/// What stands below the flags in the helps of some commands.
#[derive(Clone, Copy)]
struct Helps<'a> {
    /// Nothing but how to get the rest of it.
    is_short: bool,
    run: &'a str,
    asm: &'a str,
}

impl<'a> Helps<'a> {
    // What stands below the flags of a command that has this help.
    fn below(self, help: &'a str) -> &'a str {
        if self.is_short { help::SHORT } else { help }
    }
}

// What follows the help of `asm`: with the forms of frames from the tables, where help is asked for.
fn asm_help(alloc: Global, words: &[String]) -> Result<String, AllocError> {
    if !asks_help(words) {
        return String::from_str(alloc, frames_help::ASM_HELP);
    }
    let forms = frame_forms(alloc)?;
    format!(in alloc;
        "{}\n\n{}\n{}",
        frames_help::ASM_HELP,
        frames_help::ASM_FORMS,
        forms.trim_end()
    )
}

// What follows the help of `run`: with keys, codes and causes from the tables, where help is asked for.
fn run_help(alloc: Global, words: &[String]) -> Result<String, AllocError> {
    if !asks_help(words) {
        return String::from_str(alloc, help::RUN_HELP);
    }
    let lists = run_words(alloc)?;
    format!(in alloc;
        "{}\n\n{}\n{}",
        help::RUN_HELP,
        help::RUN_WORDS,
        lists.trim_end()
    )
}

// The program itself, before its commands.
fn program_command<'a>(alloc: Global, helps: Helps<'a>) -> Result<Command<'a>, AllocError> {
    Command::new(alloc, "hdminet")
        .about(help::ABOUT)
        .version("0.1.0")
        .after_help(helps.below(help::OVERVIEW))
        .disable_help_subcommand(true)
        .arg(flag(alloc, "explain", help::EXPLAIN_FLAG).global(true))
}

// A command, before its flags.
fn plain_command<'a>(alloc: Global, name: &'a str, about: &'a str, help: &'a str) -> Command<'a> {
    Command::new(alloc, name).about(about).after_help(help)
}

// Adds the command that runs a network.
fn add_run<'a>(
    alloc: Global,
    program: Command<'a>,
    helps: Helps<'a>,
) -> Result<Command<'a>, AllocError> {
    let run = plain_command(alloc, "run", help::RUN_ABOUT, helps.below(helps.run));
    let run = with_own(alloc, run, "run")?;
    program.subcommand(run.arg(one_file(alloc))?)
}

// Adds the command that tests a network or a capture.
fn add_check<'a>(
    alloc: Global,
    program: Command<'a>,
    helps: Helps<'a>,
) -> Result<Command<'a>, AllocError> {
    let check = plain_command(
        alloc,
        "check",
        help::CHECK_ABOUT,
        helps.below(help::CHECK_HELP),
    );
    let check = with_own(alloc, check, "check")?;
    let files = operand(alloc, "file", "FILE", help::FILES).action(ArgAction::Append);
    program.subcommand(check.arg(files.num_args(1..))?)
}

// Adds the command that steps through a run.
fn add_step<'a>(
    alloc: Global,
    program: Command<'a>,
    helps: Helps<'a>,
) -> Result<Command<'a>, AllocError> {
    let step = plain_command(
        alloc,
        "step",
        help::STEP_ABOUT,
        helps.below(help::STEP_HELP),
    );
    let step = with_own(alloc, step, "step")?;
    program.subcommand(step.arg(one_file(alloc))?)
}

// Adds the command that answers a script line by line.
fn add_live<'a>(
    alloc: Global,
    program: Command<'a>,
    helps: Helps<'a>,
) -> Result<Command<'a>, AllocError> {
    let live = plain_command(
        alloc,
        "live",
        help::LIVE_ABOUT,
        helps.below(help::LIVE_HELP),
    );
    let live = with_own(alloc, live, "live")?;
    program.subcommand(live)
}

// Adds the command that reads texts of frames.
fn add_asm<'a>(
    alloc: Global,
    program: Command<'a>,
    helps: Helps<'a>,
) -> Result<Command<'a>, AllocError> {
    let asm = plain_command(alloc, "asm", frames_help::ASM_ABOUT, helps.below(helps.asm));
    program.subcommand(asm.arg(one_file(alloc))?)
}

// Adds the command that reads frames in hex.
fn add_dis<'a>(
    alloc: Global,
    program: Command<'a>,
    helps: Helps<'a>,
) -> Result<Command<'a>, AllocError> {
    let dis = plain_command(
        alloc,
        "dis",
        frames_help::DIS_ABOUT,
        helps.below(frames_help::DIS_HELP),
    );
    let dis = with_own(alloc, dis, "dis")?;
    program.subcommand(dis.arg(one_file(alloc))?)
}

// Adds the command that lays frames.
fn add_lay<'a>(
    alloc: Global,
    program: Command<'a>,
    helps: Helps<'a>,
) -> Result<Command<'a>, AllocError> {
    let lay = plain_command(
        alloc,
        "lay",
        frames_help::LAY_ABOUT,
        helps.below(frames_help::LAY_HELP),
    );
    let lay = with_own(alloc, lay, "lay")?;
    program.subcommand(lay.arg(one_file(alloc))?)
}

// Adds the command that reads captures.
fn add_mon<'a>(
    alloc: Global,
    program: Command<'a>,
    helps: Helps<'a>,
) -> Result<Command<'a>, AllocError> {
    let mon = plain_command(alloc, "mon", help::MON_ABOUT, helps.below(help::MON_HELP));
    let mon = with_own(alloc, mon, "mon")?;
    let mon = mon.arg(one_file(alloc))?;
    let other = operand(alloc, "other", "OTHER", help::OTHER);
    program.subcommand(mon.arg(other)?)
}

// Adds the command that reads EDIDs.
fn add_edid<'a>(
    alloc: Global,
    program: Command<'a>,
    helps: Helps<'a>,
) -> Result<Command<'a>, AllocError> {
    let edid = plain_command(
        alloc,
        "edid",
        edid_help::EDID_ABOUT,
        helps.below(edid_help::EDID_HELP),
    );
    let edid = with_own(alloc, edid, "edid")?;
    let edid = edid.arg(one_file(alloc))?;
    let receiver = operand(alloc, "receiver", "RECEIVER", help::RECEIVER);
    program.subcommand(edid.arg(receiver)?)
}

// The program with its commands, in the order in which help lists them.
fn command<'a>(alloc: Global, helps: Helps<'a>) -> Result<Command<'a>, AllocError> {
    let program = program_command(alloc, helps)?;
    let program = add_run(alloc, program, helps)?;
    let program = add_check(alloc, program, helps)?;
    let program = add_step(alloc, program, helps)?;
    let program = add_live(alloc, program, helps)?;
    let program = add_asm(alloc, program, helps)?;
    let program = add_dis(alloc, program, helps)?;
    let program = add_lay(alloc, program, helps)?;
    let program = add_mon(alloc, program, helps)?;
    add_edid(alloc, program, helps)
}

// Whether explanations are asked for.
fn asks_explanation(words: &[String]) -> bool {
    has_word(words, "--explain")
}

// Puts a command line to the table of commands and flags, which refuses it, shows a help, or takes it.
fn put_to_table(alloc: Global, words: &[String], helps: Helps<'_>) -> Result<(), Error> {
    let command = command(alloc, helps)?;
    let _ = command.try_get_matches_from(words)?;
    Ok(())
}

// The same with the helps of its commands.
fn put_with_help(alloc: Global, words: &[String]) -> Result<(), Error> {
    let run_help = run_help(alloc, words)?;
    let asm_help = asm_help(alloc, words)?;
    let helps = Helps {
        is_short: asks_flags(words),
        run: run_help.as_str(),
        asm: asm_help.as_str(),
    };
    put_to_table(alloc, words, helps)
}

// What follows words that are refused: with `--explain` among them, how the program is called.
fn explanation(words: &[String]) -> &'static str {
    if asks_explanation(words) {
        help::EXPLAINED
    } else {
        ""
    }
}

// Adds the flags of a subcommand, which takes no others.
fn add_flags(draft: &mut Draft, word: &str, flags: Flags) {
    let (plain, valued) = flags;
    draft.add_all(&["  the flags of `", word, "` are --explain"]);
    for flag in plain {
        draft.add_all(&[", --", flag.0]);
    }
    for flag in valued {
        draft.add_all(&[", --", flag.0, " ", flag.1]);
    }
    draft.add("\n");
}

// The flags of the subcommand among words of which one is no flag, where explanations are asked for.
fn flags_said(alloc: Global, error: &str, words: &[String]) -> Result<String, AllocError> {
    let mut draft = Draft::new(alloc);
    if error.starts_with("error: unexpected argument") && asks_explanation(words) {
        for word in words.iter().skip(1) {
            if let Some(flags) = flags_of(word.as_str()) {
                add_flags(&mut draft, word.as_str(), flags);
                return draft.finish();
            }
        }
    }
    draft.finish()
}

// The word that an error quotes after a text.
fn quoted_after<'a>(error: &'a str, before: &str) -> Option<&'a str> {
    let (word, _) = error.strip_prefix(before)?.split_once("'")?;
    Some(word)
}

// Whether a word in the place of a subcommand is a file's name, by the error.
fn names_file(error: &str) -> bool {
    match quoted_after(error, "error: unrecognized subcommand '") {
        Some(word) => word.contains(".") || word.contains("/"),
        None => false,
    }
}

// What is often meant by words that are refused so: a file's name without a subcommand, and `help`.
fn meant(error: &str) -> &'static str {
    if names_file(error) {
        help::FILE_ALONE
    } else if error.starts_with("error: unrecognized subcommand 'help'") {
        help::HELP_WORD
    } else {
        ""
    }
}

// A line on a value that its flag does not take, where there is one.
fn value_named(alloc: Global, words: &[String]) -> Result<String, AllocError> {
    match value_at_fault(words) {
        Some((flag, value)) => value_hint(alloc, flag, value),
        None => Ok(String::new(alloc)),
    }
}

// What is said of a command line that is not to be done.
fn said(
    alloc: Global,
    error: &Error,
    words: &[String],
    line: &CommandLine,
) -> Result<Refused, AllocError> {
    let mut text = format!(in alloc; "{error}")?;
    if error.use_stderr() {
        let value = value_named(alloc, &line.words)?;
        text.push_str(value.as_str())?;
        let meant = meant(text.as_str());
        text.push_str(meant)?;
        let flags = flags_said(alloc, text.as_str(), words)?;
        text.push_str(flags.as_str())?;
        text.push_str(explanation(words))?;
        return Ok(Refused::Words(text));
    }
    Ok(Refused::Help(text))
}

// What becomes of a command line that is not to be done.
fn refusal(alloc: Global, error: &Error, words: &[String], line: &CommandLine) -> Refused {
    if error.kind() == ErrorKind::OutOfMemory {
        return Refused::Memory;
    }
    match said(alloc, error, words, line) {
        Ok(refused) => refused,
        Err(AllocError) => Refused::Memory,
    }
}

// Adds why words that the table takes ask for nothing: a value that its flag does not take, flags that do not go together, or the
// files that they are asked of.
fn add_why(draft: &mut Draft, line: &CommandLine) {
    if asked_by(&line.words).is_some() {
        draft.add_all(&["error: ", help::FILES_DIFFER, "\n\n"]);
        add_rules_of_files(draft, &line.words);
    } else if value_at_fault(&line.words).is_some() {
        draft.add_all(&["error: ", help::VALUE_DIFFERS, "\n"]);
    } else {
        draft.add_all(&["error: ", help::FLAGS_DIFFER, "\n\n"]);
        add_rules(draft, &line.words);
    }
}

// What is said of such words: which rule they break, or a value that its flag does not take.
fn rules_said(alloc: Global, line: &CommandLine) -> Result<String, AllocError> {
    let mut draft = Draft::new(alloc);
    add_why(&mut draft, line);
    draft.add("\nFor more information, try '--help'.\n");
    let value = value_named(alloc, &line.words)?;
    draft.add(value.as_str());
    draft.add(explanation(&line.words));
    draft.finish()
}

// What becomes of such words.
fn meaningless(alloc: Global, line: &CommandLine) -> Refused {
    match rules_said(alloc, line) {
        Ok(text) => Refused::Words(text),
        Err(AllocError) => Refused::Memory,
    }
}

/// Reads a command line: the program's name, a subcommand, its flags, the files that it reads. The name alone asks for the trace of
/// a run. `line` is that of the words.
///
/// # Errors
///
/// A line that `asked_on` does not read is put to the table of commands and flags, which says why it is refused, or shows a help.
// The table takes as long to build as an EDID to read, so where nothing of it is needed it is left alone.
pub fn choose(alloc: Global, words: &[String], line: &CommandLine) -> Result<Asked, Refused>
    ensures asked { MatchResult result (λ asked. asked_on (map string_bytes line.now.words.items) (map string_bytes line.now.operands.items) ≡ Some asked) (λ _. asked_on (map string_bytes line.now.words.items) (map string_bytes line.now.operands.items) ≡ None) }
    ensures taken { IfOk result (λ asked. takes asked.choice (length (map string_bytes line.now.operands.items)) ≡ true) }
{
    if let Some(asked) = asked_on(line) {
        return Ok(asked);
    }
    match put_with_help(alloc, words) {
        Ok(()) => Err(meaningless(alloc, line)),
        Err(error) => Err(refusal(alloc, &error, words, line)),
    }
}
