//! A text that grows.
use std::alloc::{AllocError, Global};
use std::fmt::Display;

/// A text that grows. Once memory ran out it takes nothing more, and says so at its end.
#[derive(Drop)]
pub struct Draft {
    text: String,
    alloc: Global,
    has_failed: bool,
}

impl Draft {
    /// Nothing is written yet.
    pub fn new(alloc: Global) -> Draft {
        Draft {
            text: String::new(alloc),
            alloc,
            has_failed: false,
        }
    }

    /// What other texts and lists are made with.
    pub fn alloc(&self) -> Global {
        self.alloc
    }

    /// How many bytes are written.
    pub fn len(&self) -> usize {
        self.text.len()
    }

    /// Notes that memory ran out.
    pub fn fail(&mut self) {
        self.has_failed = true;
    }

    /// Adds a piece.
    pub fn add(&mut self, piece: &str) {
        if !self.has_failed {
            self.has_failed = self.text.push_str(piece).is_err();
        }
    }

    /// Adds some pieces, one after the other.
    pub fn add_all(&mut self, pieces: &[&str]) {
        for piece in pieces {
            self.add(piece);
        }
    }

    /// Adds a line, indented.
    pub fn add_line(&mut self, line: &str) {
        self.add_all(&["  ", line, "\n"]);
    }

    /// Adds a character.
    pub fn add_character(&mut self, character: char) {
        if !self.has_failed {
            self.has_failed = self.text.push(character).is_err();
        }
    }

    /// Adds a character so many times.
    pub fn add_times(&mut self, count: usize, character: char) {
        for _ in 0..count {
            self.add_character(character);
        }
    }

    /// Adds what `write!` and `writeln!` are given.
    pub fn write_fmt<D: Display + Drop>(&mut self, value: D) {
        if !self.has_failed {
            self.has_failed = self.text.write_fmt(value).is_err();
        }
    }

    /// The text, if memory did not run out.
    pub fn finish(self) -> Result<String, AllocError> {
        if self.has_failed {
            Err(AllocError)
        } else {
            Ok(self.text)
        }
    }
}
