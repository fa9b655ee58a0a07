//! Lists of words in help: a label, and the words in lines of some columns.
use crate::draft::Draft;
use message_table::WordSet;

/// Lines of help are this long at most.
const COLUMNS: usize = 100;

/// A list that is being written.
#[derive(Clone, Copy)]
pub struct List {
    /// Where the words begin, after the label.
    indent: usize,
    /// How long the last line is.
    column: usize,
}

impl List {
    /// A list of which the label stands, a word and what it takes, in so many columns.
    pub fn begin(draft: &mut Draft, word: &str, takes: &str, columns: usize) -> List {
        draft.add("  ");
        draft.add(word);
        draft.add(takes);
        let length = word.len().saturating_add(takes.len());
        draft.add_times(columns.saturating_sub(length), ' ');
        let indent = columns.max(length).saturating_add(2);
        List {
            indent,
            column: indent,
        }
    }

    /// One more word, after a space; on a line of its own where the last one has no room for it.
    pub fn add(&mut self, draft: &mut Draft, word: &str) {
        let length = word.len().saturating_add(1);
        if self.column.saturating_add(length) > COLUMNS {
            draft.add("\n");
            draft.add_times(self.indent, ' ');
            self.column = self.indent;
        }
        self.column = self.column.saturating_add(length);
        draft.add_all(&[" ", word]);
    }
}

/// A label, in so many columns, and the words of a set.
pub fn list_set(draft: &mut Draft, label: &str, columns: usize, set: WordSet) {
    let mut list = List::begin(draft, label, "", columns);
    for word in set.words() {
        list.add(draft, word.text);
    }
    draft.add("\n");
}
