//! Lists of words in help.
use crate::cases::case_holds;
use explain_lists::run_words;
use std::alloc::AllocError;

/// Lines of the words of topologies and scripts, written by hand from the table of keys and the lists of causes.
const WORDS: &str = "  play           player recorder combo
  stop           player recorder combo
  eject          player recorder combo
  load           player recorder combo
  menu           player recorder combo
  power          tv amp player recorder switch combo
  volume-up      tv amp
  volume-down    tv amp
  mute           tv amp
  port N         switch
  watch PA       tv
  language LLL   tv
  audio on       tv
  audio off      tv
  arc on         tv amp
  arc off        tv amp
  remote D CODE  tv
  CODE           select up down left right root-menu exit digit-0 digit-1 digit-2 digit-3 digit-4
                 digit-5 digit-6 digit-7 digit-8 digit-9 power volume-up volume-down mute play stop
                 pause power-off power-on
and the causes of faults
  of a topology  word number name full second-root no-root port-range port-taken not-loose loop hex
  of a script    word number name hex width order close too-many end
";

/// Whether that is the list.
fn is_list(list: Result<String, AllocError>, want: &str) -> bool {
    match list {
        Ok(text) => text.as_str() == want,
        Err(_) => false,
    }
}

#[test]
fn lists_the_words_of_topologies_and_scripts(rt: HostRuntime) {
    case_holds(&rt, is_list(run_words(rt.alloc()), WORDS), WORDS);
}
