//! What goes with what on a command line, and which of these rules one breaks.
use cli_words::{Subcommand, subcommand_of};
use explain_lists::Draft;

/// A rule for the flags of a subcommand.
enum Rule {
    /// One of these is given at most.
    One(&'static [&'static str]),
    /// Each of the first is given with one of the second.
    Needs(&'static [&'static str], &'static [&'static str]),
    /// The first is given with the others alone.
    Only(&'static str, &'static [&'static str]),
    /// The first is given with none of the others.
    Without(&'static str, &'static [&'static str]),
    /// The first is given with the second and one of these values of it.
    NeedsValue(&'static str, &'static str, &'static [&'static str]),
    /// Where the first is given and the second too, the second has one of these values.
    HasValue(&'static str, &'static str, &'static [&'static str]),
    /// These three are not given together.
    Apart(&'static str, &'static str, &'static str),
    /// How many files are read.
    Files(&'static str),
}

/// Rules of `run`.
const RUN_RULES: &[Rule] = &[
    Rule::Needs(&["--as"], &["--edges"]),
    Rule::NeedsValue("--drives", "--as", &["vcd"]),
    Rule::Needs(&["--named"], &["--drives"]),
    Rule::Without("--json", &["--edges"]),
    Rule::Needs(&["--room"], &["--json"]),
];

/// Rules of `check`.
const CHECK_RULES: &[Rule] = &[
    Rule::One(&["--trace", "--plain", "--progress", "--capture"]),
    Rule::Without("--json", &["--plain", "--progress"]),
    Rule::Needs(&["--from", "--signal", "--glitch"], &["--capture"]),
    Rule::HasValue("--signal", "--from", &["vcd", "csv"]),
    Rule::Files(
        "several files go with neither --plain nor --json, and standard input, `-`, is none of them",
    ),
];

/// Rules of `mon`.
const MON_RULES: &[Rule] = &[
    Rule::HasValue("--signal", "--from", &["vcd", "csv"]),
    Rule::One(&["--from-start", "--from-idle"]),
    Rule::Without("--from-start", &["--audit", "--timing"]),
    Rule::Without("--from-idle", &["--audit", "--timing"]),
    Rule::Needs(&["--strict"], &["--audit", "--timing", "--report"]),
    Rule::NeedsValue("--follow", "--from", &["edges", "pin", "csv"]),
    Rule::Without("--follow", &["--scale"]),
    Rule::Apart("--follow", "--fold", "--audit"),
    Rule::Apart("--follow", "--fold", "--timing"),
    Rule::One(&[
        "--edges",
        "--report",
        "--verdict",
        "--as-test",
        "--replay",
        "--diff",
    ]),
    Rule::Only(
        "--edges",
        &["--from", "--signal", "--invert", "--scale", "--glitch"],
    ),
    Rule::Only(
        "--report",
        &[
            "--from", "--signal", "--invert", "--scale", "--glitch", "--margin", "--strict",
            "--json",
        ],
    ),
    Rule::Only(
        "--diff",
        &[
            "--from", "--signal", "--invert", "--scale", "--glitch", "--margin", "--json",
        ],
    ),
    Rule::Only(
        "--verdict",
        &[
            "--from", "--signal", "--invert", "--scale", "--glitch", "--json",
        ],
    ),
    Rule::Only(
        "--as-test",
        &["--from", "--signal", "--invert", "--scale", "--glitch"],
    ),
    Rule::Only(
        "--replay",
        &["--from", "--signal", "--invert", "--scale", "--glitch"],
    ),
    Rule::Files("two files go with --diff alone, and standard input, `-`, is none of them"),
];

/// Rules of `edid`.
const EDID_RULES: &[Rule] = &[
    Rule::One(&["--text", "--words", "--hex"]),
    Rule::One(&[
        "--raw",
        "--as",
        "--check",
        "--meaning",
        "--only-address",
        "--ddc",
        "--room",
        "--infoframe",
    ]),
    Rule::One(&["--address", "--port"]),
    Rule::One(&["--eeodb", "--as-source"]),
    Rule::Without("--mend", &["--as-source"]),
    Rule::Without(
        "--eld",
        &[
            "--as",
            "--check",
            "--only-address",
            "--ddc",
            "--room",
            "--infoframe",
        ],
    ),
    Rule::Without(
        "--json",
        &["--raw", "--as", "--meaning", "--only-address", "--ddc"],
    ),
    Rule::Needs(&["--below"], &["--port"]),
    Rule::Needs(&["--speakers"], &["--below"]),
    Rule::Needs(&["--nth"], &["--hex"]),
    Rule::Needs(&["--rows"], &["--merge"]),
    Rule::Without(
        "--merge",
        &[
            "--text",
            "--words",
            "--nth",
            "--eeodb",
            "--as-source",
            "--mend",
        ],
    ),
    Rule::Only("--diff", &["--hex", "--json"]),
    Rule::Only("--from-eld", &["--json"]),
    Rule::Files(
        "two files go with --merge and --diff alone, and standard input, `-`, is none of them",
    ),
];

// The rules of a subcommand.
fn rules_of(subcommand: Subcommand) -> &'static [Rule] {
    match subcommand {
        Subcommand::Run => RUN_RULES,
        Subcommand::Check => CHECK_RULES,
        Subcommand::Mon => MON_RULES,
        Subcommand::Edid => EDID_RULES,
        Subcommand::Step | Subcommand::Live | Subcommand::Asm | Subcommand::Dis | Subcommand::Lay =>
            { &[] }
    }
}

// The rules of the subcommand that some words name, or none.
fn rules_for(words: &[String]) -> &'static [Rule] {
    for word in words {
        if let Some(subcommand) = subcommand_of(word.as_str()) {
            return rules_of(subcommand);
        }
    }
    &[]
}

// ---- whether words break a rule

// A flag without the value that stands in its word.
fn name_of(word: &str) -> &str {
    match word.split_once("=") {
        Some((name, _)) => name,
        None => word,
    }
}

// Whether a flag is given.
fn has(words: &[String], flag: &str) -> bool {
    for word in words {
        if name_of(word.as_str()) == flag {
            return true;
        }
    }
    false
}

// How many of some flags are given.
fn count_of(words: &[String], flags: &[&str]) -> usize {
    let mut count: usize = 0;
    for flag in flags {
        if has(words, flag) {
            count = count.saturating_add(1);
        }
    }
    count
}

// The value of a flag, in its word or after it.
fn value_of<'a>(words: &'a [String], flag: &str) -> Option<&'a str> {
    let mut is_next = false;
    for word in words {
        let word = word.as_str();
        if is_next {
            return Some(word);
        }
        match word.split_once("=") {
            Some((name, value)) if name == flag => return Some(value),
            _ => is_next = word == flag,
        }
    }
    None
}

// Whether a word is one of some words.
fn is_one_of(word: &str, words: &[&str]) -> bool {
    for other in words {
        if *other == word {
            return true;
        }
    }
    false
}

// Whether a flag has one of some values.
fn has_value(words: &[String], flag: &str, values: &[&str]) -> bool {
    match value_of(words, flag) {
        Some(value) => is_one_of(value, values),
        None => false,
    }
}

// Whether a flag is given that is none of these; `--explain` goes with each.
fn has_other(words: &[String], flag: &str, flags: &[&str]) -> bool {
    for word in words {
        let name = name_of(word.as_str());
        let is_allowed = name == flag || name == "--explain" || is_one_of(name, flags);
        if name.starts_with("--") && !is_allowed {
            return true;
        }
    }
    false
}

impl Rule {
    // Whether words break it, whose values each flag takes. Of the number of files the words say nothing.
    fn is_broken_by(&self, words: &[String]) -> bool {
        match self {
            Rule::One(flags) => count_of(words, flags) > 1,
            Rule::Needs(flags, others) => count_of(words, flags) > 0
                && count_of(words, others) == 0,
            Rule::Only(flag, others) => has(words, flag) && has_other(words, flag, others),
            Rule::Without(flag, others) => has(words, flag) && count_of(words, others) > 0,
            Rule::NeedsValue(flag, other, values) => {
                has(words, flag) && !has_value(words, other, values)
            }
            Rule::HasValue(flag, other, values) => {
                has(words, flag) && has(words, other) && !has_value(words, other, values)
            }
            Rule::Apart(one, two, three) => has(words, one) && has(words, two) && has(words, three),
            Rule::Files(_) => false,
        }
    }

    // Adds it, as a line.
    fn add_to(&self, draft: &mut Draft) {
        draft.add("  ");
        match self {
            Rule::One(flags) => {
                draft.add("of ");
                add_list(draft, flags, " and ");
                draft.add(" one is given at most");
            }
            Rule::Needs(flags, others) => {
                add_list(draft, flags, " and ");
                draft.add(if flags.len() == 1 {
                    " needs "
                } else {
                    " need "
                });
                add_list(draft, others, " or ");
            }
            Rule::Only(flag, others) => {
                draft.add_all(&[flag, " goes with "]);
                add_list(draft, others, " and ");
                draft.add(" alone");
            }
            Rule::Without(flag, others) => {
                draft.add_all(&[flag, " goes without "]);
                add_list(draft, others, " and ");
            }
            Rule::NeedsValue(flag, other, values) => {
                draft.add_all(&[flag, " needs ", other, " "]);
                add_list(draft, values, " or ");
            }
            Rule::HasValue(flag, other, values) => {
                draft.add_all(&[flag, " goes with ", other, " "]);
                add_list(draft, values, " and ");
                draft.add(" alone");
            }
            Rule::Apart(one, two, three) => {
                draft.add_all(&[one, ", ", two, " and ", three, " do not go together"]);
            }
            Rule::Files(text) => draft.add(text),
        }
        draft.add("\n");
    }
}

// Adds words, with a comma between them and another text before the last.
fn add_list(draft: &mut Draft, words: &[&str], last: &str) {
    for (at, word) in words.iter().enumerate() {
        if at > 0 {
            let is_last = at.saturating_add(1) == words.len();
            draft.add(if is_last { last } else { ", " });
        }
        draft.add(word);
    }
}

/// Adds the rules that words break, which ask for nothing though each flag and value of them is known; all rules of the subcommand
/// where they break none of these.
pub fn add_rules(draft: &mut Draft, words: &[String]) {
    let rules = rules_for(words);
    let mut is_any = false;
    for rule in rules {
        is_any = is_any || rule.is_broken_by(words);
    }
    for rule in rules {
        if !is_any || rule.is_broken_by(words) {
            rule.add_to(draft);
        }
    }
}

/// Adds the rules of how many files a subcommand reads.
pub fn add_rules_of_files(draft: &mut Draft, words: &[String]) {
    for rule in rules_for(words) {
        if let Rule::Files(_) = rule {
            rule.add_to(draft);
        }
    }
}
