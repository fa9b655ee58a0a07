//! Values that their flags do not take.
ghost use Rattle.std.specs.Prelude.{◌≡◌, ℕ, List, None, Some, map, string_bytes};
ghost use Rattle.std.specs.Option.{option_map};
ghost use Rattle.cli_words.specs.AtFault.{capture_flag, edid_flag, fault_among, fault_as, fault_of, fault_with, value_after, value_at_fault};
ghost use Rattle.cli_words.specs.Line.{asked_by};
ghost use Rattle.cli_words.specs.declared.at_fault.Valued.{Valued as ValuedOf};

use crate::check_flags::{CheckFlags, with_check_flag, with_check_word};
use crate::mon_flags::{MonFlags, MonValue, with_mon_flag, with_mon_word};
use crate::run_flags::{RunFlags, with_run_flag, with_run_word};
use crate::subcommand::{Subcommand, subcommand_of};
use cli_choice::joined;
use cli_edid::{EdidFlags, EdidValue, with_edid_flag, with_edid_word};

/// A flag that a value follows.
#[derive(Clone, Copy, Debug)]
pub enum Valued {
    As,
    From,
    Signal,
    Scale,
    Glitch,
    Margin,
    Replay,
    Address,
    Port,
    Below,
    Speakers,
    Rows,
    Nth,
    /// `--as` of `edid`.
    EdidAs,
    InfoFrame,
}

/// The flags of a subcommand, read word by word.
pub trait ReadsFlags: Copy {
    ghost use Rattle.cli_words.specs.AtFault.{FlagForm};

    /// How they are read.
    ghost form: { FlagForm Self };

    /// The flag whose value comes next.
    fn waits(self) -> Option<Valued>
        ensures { result ≡ form.waits self };

    /// The flags with one more.
    fn with_flag(self, word: &str) -> Option<Self>
        ensures { result ≡ form.with_flag self word.now };

    /// The flags with one word more, which may be a value.
    fn with_word(self, word: &str) -> Option<Self>
        ensures { result ≡ form.with_word self word.now };
}

impl ReadsFlags for RunFlags {
    ghost use Rattle.cli_words.specs.AtFault.{run_form};

    ghost form = { run_form };

    fn waits(self) -> Option<Valued> {
        if self.waits { Some(Valued::As) } else { None }
    }

    fn with_flag(self, word: &str) -> Option<RunFlags> {
        with_run_flag(self, word)
    }

    fn with_word(self, word: &str) -> Option<RunFlags> {
        with_run_word(self, word)
    }
}

// The flag of a capture that a value follows.
fn capture_flag(value: MonValue) -> Valued
    ensures { result ≡ capture_flag value }
{
    match value {
        MonValue::From => Valued::From,
        MonValue::Signal => Valued::Signal,
        MonValue::Scale => Valued::Scale,
        MonValue::Glitch => Valued::Glitch,
        MonValue::Margin => Valued::Margin,
        MonValue::Replay => Valued::Replay,
    }
}

impl ReadsFlags for CheckFlags {
    ghost use Rattle.cli_words.specs.AtFault.{check_form};

    ghost form = { check_form };

    fn waits(self) -> Option<Valued> {
        Some(capture_flag(self.waits?))
    }

    fn with_flag(self, word: &str) -> Option<CheckFlags> {
        with_check_flag(self, word)
    }

    fn with_word(self, word: &str) -> Option<CheckFlags> {
        with_check_word(self, word)
    }
}

impl ReadsFlags for MonFlags {
    ghost use Rattle.cli_words.specs.AtFault.{mon_form};

    ghost form = { mon_form };

    fn waits(self) -> Option<Valued> {
        Some(capture_flag(self.waits?))
    }

    fn with_flag(self, word: &str) -> Option<MonFlags> {
        with_mon_flag(self, word)
    }

    fn with_word(self, word: &str) -> Option<MonFlags> {
        with_mon_word(self, word)
    }
}

// The flag of an EDID that a value follows.
fn edid_flag(value: EdidValue) -> Valued
    ensures { result ≡ edid_flag value }
{
    match value {
        EdidValue::Address => Valued::Address,
        EdidValue::Port => Valued::Port,
        EdidValue::Below => Valued::Below,
        EdidValue::Speakers => Valued::Speakers,
        EdidValue::Rows => Valued::Rows,
        EdidValue::Nth => Valued::Nth,
        EdidValue::As => Valued::EdidAs,
        EdidValue::InfoFrame => Valued::InfoFrame,
    }
}

impl ReadsFlags for EdidFlags {
    ghost use Rattle.cli_words.specs.AtFault.{edid_form};

    ghost form = { edid_form };

    fn waits(self) -> Option<Valued> {
        Some(edid_flag(self.waits?))
    }

    fn with_flag(self, word: &str) -> Option<EdidFlags> {
        with_edid_flag(self, word)
    }

    fn with_word(self, word: &str) -> Option<EdidFlags> {
        with_edid_word(self, word)
    }
}

// The value in a word that is refused after these flags, and its flag.
fn value_after<'a, F: ReadsFlags>(flags: F, word: &'a str) -> Option<(Valued, &'a str)>
    ensures { option_map (λ fault. (fault.0, fault.1.now)) result ≡ value_after F.form flags word.now }
{
    if let Some(flag) = flags.waits() {
        return Some((flag, word));
    }
    let (name, value) = joined(word)?;
    let flag = flags.with_flag(name)?.waits()?;
    Some((flag, value))
}

// The first value among some words that its flag does not take, and the flag: an empty value where the words end before it.
fn fault_among<'a, F: ReadsFlags>(flags: F, words: &'a [String]) -> Option<(Valued, &'a str)>
    ensures { option_map (λ fault. (fault.0, fault.1.now)) result ≡ fault_among F.form flags (map string_bytes words.now) }
{
    match words {
        [] => Some((flags.waits()?, "")),
        [word, rest @ ..] => match flags.with_word(word.as_str()) {
            Some(more) => fault_among(more, rest),
            None => value_after(flags, word.as_str()),
        },
    }
}

// The same of a subcommand.
fn fault_of(subcommand: Subcommand, words: &[String]) -> Option<(Valued, &str)>
    ensures { option_map (λ fault. (fault.0, fault.1.now)) result ≡ fault_of subcommand (map string_bytes words.now) }
{
    match subcommand {
        Subcommand::Run => fault_among(RunFlags::NONE, words),
        Subcommand::Check => fault_among(CheckFlags::NONE, words),
        Subcommand::Mon => fault_among(MonFlags::NONE, words),
        Subcommand::Edid => fault_among(EdidFlags::NONE, words),
        Subcommand::Step | Subcommand::Live | Subcommand::Asm | Subcommand::Dis | Subcommand::Lay =>
            None,
    }
}

// The same of the subcommand that stands first.
fn fault_as(words: &[String]) -> Option<(Valued, &str)>
    ensures { option_map (λ fault. (fault.0, fault.1.now)) result ≡ fault_as (map string_bytes words.now) }
{
    match words {
        [] => None,
        [command, flags @ ..] => fault_of(subcommand_of(command.as_str())?, flags),
    }
}

// The same, with `--explain` before it or not.
fn fault_with(words: &[String]) -> Option<(Valued, &str)>
    ensures { option_map (λ fault. (fault.0, fault.1.now)) result ≡ fault_with (map string_bytes words.now) }
{
    match words {
        [word, rest @ ..] if word.as_str() == "--explain" => fault_as(rest),
        words => fault_as(words),
    }
}

// The same after the program's name.
fn fault_after(words: &[String]) -> Option<(Valued, &str)>
    ensures { option_map (λ fault. (fault.0, fault.1.now)) result ≡ value_at_fault (map string_bytes words.now) }
{
    match words {
        [] => None,
        [_, rest @ ..] => fault_with(rest),
    }
}

/// The first value on a command line that its flag does not take, and the flag, where all words before it are read: an empty
/// value where the line ends before it. A line that has one asks for nothing.
pub fn value_at_fault(words: &[String]) -> Option<(Valued, &str)>
    ensures value { option_map (λ fault. (fault.0, fault.1.now)) result ≡ value_at_fault (map string_bytes words.now) }
    ensures refused { (fault : ValuedOf × List ℕ) → value_at_fault (map string_bytes words.now) ≡ Some fault → asked_by (map string_bytes words.now) ≡ None }
{
    fault_after(words)
}
