//! A sink that is lent for one text.
ghost use Rattle.std.specs.Prelude.{◌≡◌, ℕ, Bool, List, Option, is_err};
ghost use Rattle.std.specs.Borrow.{GName};
ghost use Rattle.std.specs.List.{flat_map};
ghost use Rattle.text_core.specs.Cut.{WrittenText};
ghost use Rattle.text_core.specs.Piece.{piece_text};
ghost use Rattle.text_core.specs.Adds.{Adds, begun};

use crate::piece::{Piece, write_line};
use crate::sink::{Sink, WriteFault};
use crate::written::counted;
use std::marker::Model;

/// A sink that is lent for one text, how many bytes of that text it took, and whether a `put` of some bytes took none. After that
/// nothing more is put: what writes a text writes one part after another, and asks once, at the end, what became of it.
#[derive(Drop)]
pub struct Counted<'a, S: Sink> {
    sink: &'a mut S,
    count: u128,
    failed: bool,
}

impl<'a, S: Sink> Model for Counted<'a, S> {
    ghost use Rattle.text_core.specs.Adds.{Tally};

    ghost Value = { Tally };

    ghost view = { λ c. record { known = S.contents c.sink.now; stuck = S.is_stuck c.sink.now; count = c.count; failed = c.failed; loan = c.sink.ghost_name } };
}

impl<'a, S: Sink> Counted<'a, S> {
    /// Nothing of the text is written yet.
    pub fn new(sink: &'a mut S) -> Self
        ensures { result ≡ begun (S.contents sink.old) (S.is_stuck sink.old) sink.entry.ghost_name }
    {
        Counted {
            sink,
            count: 0,
            failed: false,
        }
    }

    /// Adds some bytes to the text.
    pub fn add(&mut self, bytes: &[u8])
        ensures { Adds self.old self.new bytes.now }
    {
        self.add_line(&[Piece::Bytes(bytes)]);
    }

    /// Adds a line that is made of these parts, as one `put` where the sink takes it.
    pub fn add_line(&mut self, pieces: &[Piece])
        ensures { Adds self.old self.new (flat_map piece_text pieces.now) }
    {
        if self.failed {
            return;
        }
        match write_line(&mut *self.sink, pieces) {
            Ok(count) => self.count = self.count.saturating_add(count),
            Err(fault) => {
                self.count = self.count.saturating_add(fault.count);
                self.failed = true;
            }
        }
    }

    /// Whether a `put` took none, so that nothing more is taken. What follows the text of a run asks it after each turn.
    pub fn has_failed(&self) -> bool
        ensures { result ≡ self.now.failed }
    {
        self.failed
    }

    /// How much of the text was written, all of it or up to a fault.
    ///
    /// # Errors
    ///
    /// A `put` took none. The count stays at its greatest value.
    pub fn written(&self) -> Result<u128, WriteFault>
        ensures failed { is_err result ≡ self.now.failed }
        ensures text { (known : Option (List ℕ)) (was : Bool) (loan : GName) (text : List ℕ) → Adds (begun known was loan) self.now text
            → WrittenText known self.now.known was self.now.stuck text result }
    {
        let count = counted(0, self.count);
        if self.failed {
            Err(WriteFault { count })
        } else {
            Ok(count)
        }
    }

    /// The sink again.
    pub fn into_sink(self) -> &'a mut S
        ensures loan { result.ghost_name ≡ self.entry.loan }
        ensures known { S.contents result.now ≡ self.entry.known }
        ensures stuck { S.is_stuck result.now ≡ self.entry.stuck }
    {
        self.sink
    }
}
