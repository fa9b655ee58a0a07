//! Files in memory.
ghost use Rattle.std.specs.Prelude.{◌≡◌, IfOk, map};
ghost use Rattle.std.specs.Option.{option_map};
ghost use Rattle.program_input.specs.Source.{held_by};

use crate::opens::{OpenFault, Opens};

/// Files in memory, each a name and what it holds. The first of a name counts.
#[derive(Clone, Copy)]
pub struct Shelf<'a> {
    pub files: &'a [(&'a str, &'a [u8])],
    /// Whether standard input counts as a terminal.
    pub is_typed: bool,
}

// What the first file of a name holds.
fn found<'a>(files: &[(&str, &'a [u8])], name: &str) -> Option<&'a [u8]>
    ensures { option_map (λ bytes. bytes.now) result ≡ held_by (map (λ file. (file.0.now, file.1.now)) files.now) name.now }
{
    match files {
        [] => None,
        [(known, bytes), ..] if *known == name => Some(*bytes),
        [_, others @ ..] => found(others, name),
    }
}

impl<'a> Opens for Shelf<'a> {
    type Opened = &'a [u8];

    ghost held = { λ shelf name. held_by (map (λ file. (file.0.now, file.1.now)) shelf.files.now) name };

    fn open(&self, name: &str) -> Result<&'a [u8], OpenFault> {
        match found(self.files, name) {
            Some(bytes) => Ok(bytes),
            None => Err(OpenFault::Missing),
        }
    }

    fn is_typed(&self) -> bool {
        self.is_typed
    }
}
