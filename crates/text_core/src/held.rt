//! A sink in memory.
ghost use Rattle.std.specs.Prelude.{◌≡◌, Some, [], false, IfOk};

use crate::sink::Sink;
use std::alloc::{AllocError, Global};

/// A `Sink` that holds what was put to it. It takes none where memory runs out.
#[derive(Drop)]
pub struct Held {
    bytes: Vec<u8>,
    stuck: bool,
}

impl Held {
    ghost use Rattle.text_core.specs.Held.{held_bytes, is_full};

    /// Nothing is put to it yet.
    pub fn new(alloc: Global) -> Self
        ensures contents { ⟦<Held as Sink>⟧.contents result ≡ Some [] }
        ensures fresh { ⟦<Held as Sink>⟧.is_stuck result ≡ false }
        ensures bytes { held_bytes result ≡ [] }
        ensures room { is_full result ≡ false }
    {
        Held {
            bytes: Vec::new(alloc),
            stuck: false,
        }
    }

    /// The same with room for so many bytes.
    ///
    /// # Errors
    ///
    /// Want of memory.
    pub fn with_capacity(alloc: Global, capacity: usize) -> Result<Self, AllocError>
        ensures bytes { IfOk result (λ held. held_bytes held ≡ []) }
        ensures room { IfOk result (λ held. is_full held ≡ false) }
    {
        let bytes = Vec::with_capacity(alloc, capacity)?;
        Ok(Held {
            bytes,
            stuck: false,
        })
    }

    /// What was put to it.
    pub fn bytes(&self) -> &[u8]
        ensures contents { ⟦<Held as Sink>⟧.contents self.now ≡ Some result.now }
        ensures bytes { result.now ≡ held_bytes self.now }
    {
        self.bytes.as_slice()
    }

    /// Lets go of what was put to it, and keeps its memory.
    pub fn clear(&mut self)
        ensures bytes { held_bytes self.new ≡ [] }
        ensures full { is_full self.new ≡ is_full self.old }
    {
        self.bytes.clear();
    }

    /// Whether memory ran out.
    pub fn is_full(&self) -> bool
        ensures { result ≡ ⟦<Held as Sink>⟧.is_stuck self.now }
    {
        self.stuck
    }
}

impl Sink for Held {
    ghost contents = { λ held. Some held.bytes.items };

    ghost is_stuck = { λ held. held.stuck };

    fn put(&mut self, bytes: &[u8]) -> usize {
        if self.bytes.extend_from_slice(bytes).is_ok() {
            return bytes.len();
        }
        if !bytes.is_empty() {
            self.stuck = true;
        }
        0
    }
}
