//! The words of topologies and scripts, from the tables of keys, of user control codes and of causes.
use crate::draft::Draft;
use crate::list::{List, list_set};
use device_features::{Key, Port, VolumeKey, has_key};
use line_frames::Addr;
use message_table::{Triple, UserControl, WordSet};
use std::alloc::{AllocError, Global};
use text_core::{Kind, Phys};

/// How many columns the forms of keys and the labels of lists take.
const LABELS: usize = 14;

const ADDRESS: Phys = Phys {
    high: 0x10,
    low: 0x00,
};

const ENGLISH: Triple = Triple {
    first: b'e',
    second: b'n',
    third: b'g',
};

/// The causes for which a topology is refused.
const TOPOLOGY: &[&str] = &[
    "word",
    "number",
    "name",
    "full",
    "second-root",
    "no-root",
    "port-range",
    "port-taken",
    "not-loose",
    "loop",
    "hex",
];

/// The causes for which a script is refused, but for `frame` and the cause of a frame.
const SCRIPT: &[&str] = &[
    "word", "number", "name", "hex", "width", "order", "close", "too-many", "end",
];

// Whether a kind has a key. A switch with a port stands for all switches.
fn has(kind: Kind, key: &Key) -> bool {
    has_key(kind, Port::new(1), key)
}

// The kinds that have a key, which is its word and what it takes.
fn add_key(draft: &mut Draft, takes: &str, key: &Key) {
    let mut list = List::begin(draft, key.word().text(), takes, LABELS);
    for kind in Kind::ALL {
        if has(*kind, key) {
            list.add(draft, kind.word());
        }
    }
    draft.add("\n");
}

// Some keys, each with what it takes.
fn list_keys(draft: &mut Draft, keys: &[(&str, Key)]) {
    for (takes, key) in keys {
        add_key(draft, takes, key);
    }
}

// The forms of those keys that a kind has, with commas between them, and what stands before the first one.
fn add_forms<'a>(draft: &mut Draft, kind: Kind, keys: &[(&str, Key)], first: &'a str) -> &'a str {
    let mut before = first;
    for (takes, key) in keys {
        if has(kind, key) {
            draft.add(before);
            draft.add("`");
            draft.add(key.word().text());
            draft.add(takes);
            draft.add("`");
            before = ", ";
        }
    }
    before
}

// The keys of one word.
fn plain_keys() -> [(&'static str, Key); 9] {
    [
        ("", Key::Play),
        ("", Key::Stop),
        ("", Key::Eject),
        ("", Key::Load),
        ("", Key::Menu),
        ("", Key::Power),
        ("", Key::Volume(VolumeKey::Up)),
        ("", Key::Volume(VolumeKey::Down)),
        ("", Key::Volume(VolumeKey::Mute)),
    ]
}

// The keys of a word and what it takes.
fn other_keys() -> [(&'static str, Key); 8] {
    let code = UserControl::Play;
    let to = Addr::new(4);
    [
        (" N", Key::Port(1)),
        (" PA", Key::Watch(ADDRESS)),
        (" LLL", Key::Language(ENGLISH)),
        (" on", Key::Audio { on: true }),
        (" off", Key::Audio { on: false }),
        (" on", Key::Arc { on: true }),
        (" off", Key::Arc { on: false }),
        (" D CODE", Key::Remote { to, code }),
    ]
}

/// The forms of the keys that a kind has, with commas between them, after a text.
pub fn add_keys_of(draft: &mut Draft, kind: Kind, after: &str) {
    let before = add_forms(draft, kind, plain_keys().as_slice(), after);
    let _ = add_forms(draft, kind, other_keys().as_slice(), before);
}

// What stands before a line.
fn before_line(is_first: bool) -> &'static str {
    if is_first {
        "  a line here reads `at T "
    } else {
        "`, `at T "
    }
}

// The lines of those keys that a word begins. Returns whether the next one is the first.
fn add_lines(
    draft: &mut Draft,
    verb: &str,
    word: &str,
    keys: &[(&str, Key)],
    is_first: bool,
) -> bool {
    let mut is_first = is_first;
    for (takes, key) in keys {
        if key.word().text() == word {
            draft.add(before_line(is_first));
            draft.add(verb);
            draft.add(" NAME ");
            draft.add(word);
            draft.add(takes);
            is_first = false;
        }
    }
    is_first
}

/// The lines of the keys that a word begins, where they are pressed or released, as the verb has it.
pub fn add_key_lines(draft: &mut Draft, verb: &str, word: &str) {
    let is_first = add_lines(draft, verb, word, plain_keys().as_slice(), true);
    let _ = add_lines(draft, verb, word, other_keys().as_slice(), is_first);
    draft.add("`\n");
}

/// What stands after the word of a key: ` N` after `port`. Of a word with some forms it is the first one's.
pub fn taken_by(word: &str) -> Option<&'static str> {
    for (takes, key) in other_keys() {
        if key.word().text() == word {
            return Some(takes);
        }
    }
    None
}

/// The words of a set, after a label, in lines of some columns.
pub fn add_set(draft: &mut Draft, label: &str, set: WordSet) {
    list_set(draft, label, label.len(), set);
}

// The causes of the faults of a part.
fn add_causes(draft: &mut Draft, part: &str, causes: &[&str]) {
    let mut list = List::begin(draft, part, "", LABELS);
    for cause in causes {
        list.add(draft, cause);
    }
    draft.add("\n");
}

/// A line for each key, with the kinds that have it; then the codes of a remote control, and the causes of faults in
/// topologies and in scripts.
///
/// # Errors
///
/// Where memory runs out.
pub fn run_words(alloc: Global) -> Result<String, AllocError> {
    let mut draft = Draft::new(alloc);
    list_keys(&mut draft, plain_keys().as_slice());
    list_keys(&mut draft, other_keys().as_slice());
    list_set(&mut draft, "CODE", LABELS, WordSet::UserControl);
    draft.add("and the causes of faults\n");
    add_causes(&mut draft, "of a topology", TOPOLOGY);
    add_causes(&mut draft, "of a script", SCRIPT);
    draft.finish()
}
