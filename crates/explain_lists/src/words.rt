//! A line's words.

/// Columns of a line, from 0, up to `end`.
#[derive(Clone, Copy)]
pub struct ColumnSpan {
    pub begin: usize,
    pub end: usize,
}

/// The word of a line that has this number, from 0. Words stand one space apart, and two spaces have an empty word
/// between them.
pub fn word_at(line: &str, index: usize) -> Option<&str> {
    line.split(' ').nth(index)
}

/// How many words a line has.
pub fn word_count(line: &str) -> usize {
    line.split(' ').count()
}

/// What parts the words of a line. Between two of them stands an empty word.
#[derive(Clone, Copy, Debug, PartialEq, Eq)]
pub enum Gaps {
    Spaces,
    /// Spaces, tabs and carriage returns.
    Blanks,
    Commas,
}

impl Gaps {
    fn has(self, byte: u8) -> bool {
        match self {
            Gaps::Spaces => byte == b' ',
            Gaps::Blanks => byte == b' ' || byte == b'\t' || byte == b'\r',
            Gaps::Commas => byte == b',',
        }
    }
}

// Columns from one up to another. An empty word has one column.
fn columns(begin: usize, start: usize, end: usize) -> ColumnSpan {
    ColumnSpan {
        begin,
        end: end.max(start.saturating_add(1)),
    }
}

/// Where words of a line stand, from one on up to another, or up to the last one. Where the line has not so many, there is none.
pub fn span_of(line: &[u8], gaps: Gaps, first: usize, last: usize) -> Option<ColumnSpan> {
    let mut word = 0usize;
    let mut start = 0usize;
    let mut begin = (first == 0).then_some(0usize);
    let mut column = 0usize;
    for byte in line {
        if gaps.has(*byte) {
            if word == last {
                return Some(columns(begin?, start, column));
            }
            word = word.saturating_add(1);
            start = column.saturating_add(1);
            if word == first {
                begin = Some(start);
            }
        }
        column = column.saturating_add(1);
    }
    Some(columns(begin?, start, column))
}
