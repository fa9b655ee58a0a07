//! A writer that says how many bytes it took, and whether it ever took none.

ghost use Rattle.std.specs.Prelude.{◌≡◌, ℕ, Bool, true, false, ◌||◌, ◌&&◌, ◌==◌, ◌<◌, ◌≤◌, ◌^◌, ◌↔◌, List, length, take, IsErr, OnOk, OnErr, IfErr, IsTrue, Option};
ghost use Rattle.std.specs.Io.KnownBytes.{Appends};
ghost use Rattle.text_core.specs.Sink.{took_none};

use std::io;
use thiserror::Error;

/// A writer to which each `put` gives some bytes, of which it takes the first few.
pub trait Sink {
    /// The bytes that it holds, where they are known.
    ghost contents: { Self → Option (List ℕ) };

    /// Whether a `put` of some bytes ever took none.
    ghost is_stuck: { Self → Bool };

    /// Takes the first bytes, and answers how many.
    fn put(&mut self, bytes: &[u8]) -> usize
        ensures bound { result ≤ length bytes.now }
        ensures bytes { Appends (contents self.old) (contents self.new) (take result bytes.now) }
        ensures stuck { is_stuck self.new ≡ (is_stuck self.old || took_none bytes.now result) };
}

/// A `Sink` over a writer. An error of a write counts as no byte.
#[derive(Drop)]
pub struct Writes<W> {
    writer: W,
    stuck: bool,
}

impl<W: io::Write> Writes<W> {
    /// A sink over this writer, which no `put` has found stuck yet.
    pub fn new(writer: W) -> Self
        ensures contents { ⟦<Writes<W> as Sink>⟧.contents result ≡ W.contents writer }
        ensures fresh { ⟦<Writes<W> as Sink>⟧.is_stuck result ≡ false }
    {
        Writes {
            writer,
            stuck: false,
        }
    }
}

impl<W: io::Write> Sink for Writes<W> {
    ghost contents = { λ s. W.contents s.writer };

    ghost is_stuck = { λ s. s.stuck };

    fn put(&mut self, bytes: &[u8]) -> usize {
        let taken = self.writer.write(bytes).unwrap_or(0);
        if taken == 0 && !bytes.is_empty() {
            self.stuck = true;
        }
        taken
    }
}

/// A `put` took none. `count` bytes had been written by then.
#[derive(Clone, Copy, Debug, PartialEq, Eq, Error)]
#[error("write fault after {count} bytes")]
pub struct WriteFault {
    pub count: u128,
}

/// Writes a whole text, however few bytes each `put` takes.
pub fn put_all<S: Sink>(out: &mut S, text: &[u8]) -> Result<(), WriteFault>
    ensures fault { S.is_stuck out.old ≡ false → (IsErr result ↔ IsTrue (S.is_stuck out.new)) }
    ensures stuck { OnErr result (S.is_stuck out.new ≡ true) }
    ensures same { OnOk result (S.is_stuck out.new ≡ S.is_stuck out.old) }
    ensures ok { OnOk result (Appends (S.contents out.old) (S.contents out.new) text.now) }
    ensures small { IfErr result (λ e. e.count < 2 ^ 64) }
    ensures err { IfErr result (λ e. (e.count < length text.now)
        × Appends (S.contents out.old) (S.contents out.new) (take e.count text.now)) }
{
    let mut written = 0;
    while written < text.len() {
        let taken = out.put(&text[written..]);
        if taken == 0 {
            return Err(WriteFault {
                count: written as u128,
            });
        }
        written += taken;
    }
    Ok(())
}
