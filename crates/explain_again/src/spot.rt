//! A place in a line at fault.
use explain_lists::word_at;
use explain_marks::FaultyLine;

/// Words of a line at fault, by the first of them.
#[derive(Clone, Copy)]
pub struct Spot<'a> {
    pub at: FaultyLine<'a>,
    /// The number of the first word in the line's text, from 0.
    pub word: usize,
}

impl<'a> Spot<'a> {
    /// The first word.
    pub fn text(self) -> &'a str {
        word_at(self.at.text, self.word).unwrap_or("")
    }

    /// The line from the first word on.
    pub fn tail(self) -> &'a str {
        let mut rest = self.at.text;
        for _ in 0..self.word {
            rest = match rest.split_once(' ') {
                Some((_, after)) => after,
                None => return "",
            };
        }
        rest
    }

    /// Words of the same line, by another number of the first one.
    pub fn moved_to(self, word: usize) -> Spot<'a> {
        Spot { at: self.at, word }
    }

    /// The word that stands so many after the first one.
    pub fn after(self, count: usize) -> Spot<'a> {
        self.moved_to(self.word.saturating_add(count))
    }
}
