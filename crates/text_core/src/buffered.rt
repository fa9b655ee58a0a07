//! A sink that gathers small pieces, and hands them on in large ones.
ghost use Rattle.std.specs.Prelude.{◌≡◌, ◌^◌, ◌<◌, ◌≤◌, ◌↔◌, ◌||◌, [], true, false, OnOk, OnErr, IfErr, IsErr, IsTrue, length, drop, take};
ghost use Rattle.std.specs.Io.KnownBytes.{Appends, Keeps, append_known};
ghost use Rattle.text_core.specs.Sink.{took_none};

use crate::sink::{Sink, WriteFault, put_all};
use arrayvec::ArrayVec;

/// A `Sink` that hands on what is put to it in pieces of up to 1,024 bytes. A write of a line is a call of the system,
/// and those would take a tenth of a run's time.
#[derive(Drop)]
pub struct Buffered<S> {
    sink: S,
    pending: ArrayVec<u8, 1024>,
    handed: u128,
    stuck: bool,
    ghost counted: { handed < 2 ^ 128 },
}

// The bytes after the first `count`.
fn after(bytes: &[u8], count: usize) -> ArrayVec<u8, 1024>
    requires few { length bytes.now ≤ 1024 }
    requires within { count ≤ length bytes.now }
    ensures { result.items ≡ drop count bytes.now }
{
    let mut rest = ArrayVec::new();
    let _ = rest.try_extend_from_slice(&bytes[count..]);
    rest
}

impl<S: Sink> Buffered<S> {
    ghost use Rattle.text_core.specs.Buffered.{HandsOn, below, handed_count, pending};

    /// Nothing is put to it yet.
    pub fn new(sink: S) -> Self
        ensures below { below result ≡ sink }
        ensures pending { pending result ≡ [] }
        ensures handed { handed_count result ≡ 0 }
        ensures contents { ⟦<Buffered<S> as Sink>⟧.contents result ≡ S.contents sink }
        ensures fresh { ⟦<Buffered<S> as Sink>⟧.is_stuck result ≡ false }
    {
        Buffered {
            sink,
            pending: ArrayVec::new(),
            handed: 0,
            stuck: false,
        }
    }

    // Hands on what is pending. After a fault what the sink took is pending no more.
    fn hand_on(&mut self) -> Result<(), WriteFault>
        ensures handed { HandsOn S.contents self.old self.new [] }
        ensures bytes { Keeps (append_known (S.contents self.old.sink) self.old.pending.items) (append_known (S.contents self.new.sink) self.new.pending.items) }
        ensures done { OnOk result (self.new.pending.items ≡ []) }
        ensures stuck { self.new.stuck ≡ self.old.stuck }
        ensures failed { OnErr result (S.is_stuck self.new.sink ≡ true) }
        ensures same { OnOk result (S.is_stuck self.new.sink ≡ S.is_stuck self.old.sink) }
    {
        match put_all(&mut self.sink, self.pending.as_slice()) {
            Ok(()) => {
                self.handed = self.handed.saturating_add(self.pending.len() as u128);
                self.pending.clear();
                Ok(())
            }
            Err(fault) => {
                self.handed = self.handed.saturating_add(fault.count);
                self.pending = after(self.pending.as_slice(), fault.count as usize);
                Err(fault)
            }
        }
    }

    /// Hands on what is pending.
    ///
    /// # Errors
    ///
    /// Where a `put` of the sink below takes none, now or before: how many bytes it took in all since `new`.
    pub fn flush(&mut self) -> Result<(), WriteFault>
        ensures handed { HandsOn S.contents self.old self.new [] }
        ensures done { OnOk result (pending self.new ≡ []) }
        ensures below { OnOk result (Keeps (⟦<Buffered<S> as Sink>⟧.contents self.old) (S.contents (below self.new))) }
        ensures bytes { Keeps (⟦<Buffered<S> as Sink>⟧.contents self.old) (⟦<Buffered<S> as Sink>⟧.contents self.new) }
        ensures fault { IsErr result ↔ IsTrue (⟦<Buffered<S> as Sink>⟧.is_stuck self.new) }
        ensures stuck { S.is_stuck (below self.old) ≡ ⟦<Buffered<S> as Sink>⟧.is_stuck self.old
            → S.is_stuck (below self.new) ≡ ⟦<Buffered<S> as Sink>⟧.is_stuck self.new }
        ensures count { IfErr result (λ e. e.count ≡ handed_count self.new) }
        ensures kept { IsTrue (⟦<Buffered<S> as Sink>⟧.is_stuck self.old) → self.new ≡ self.old }
    {
        if self.stuck || self.hand_on().is_err() {
            self.stuck = true;
            return Err(WriteFault { count: self.handed });
        }
        Ok(())
    }

    /// The sink below. What is still pending is lost, and nothing is after `flush`.
    pub fn into_below(self) -> S
        ensures { result ≡ below self }
    {
        self.sink
    }
}

impl<S: Sink> Sink for Buffered<S> {
    ghost use Rattle.text_core.specs.Buffered.{HandsOn, below};

    ghost contents = { λ b. append_known (S.contents b.sink) b.pending.items };

    ghost is_stuck = { λ b. b.stuck };

    fn put(&mut self, bytes: &[u8]) -> usize
        ensures bound { result ≤ length bytes.now }
        ensures bytes { Appends (⟦<Buffered<S> as Sink>⟧.contents self.old) (⟦<Buffered<S> as Sink>⟧.contents self.new) (take result bytes.now) }
        ensures stuck { ⟦<Buffered<S> as Sink>⟧.is_stuck self.new ≡ (⟦<Buffered<S> as Sink>⟧.is_stuck self.old || took_none bytes.now result) }
        ensures handed { HandsOn S.contents self.old self.new (take result bytes.now) }
        ensures below { S.is_stuck (below self.old) ≡ ⟦<Buffered<S> as Sink>⟧.is_stuck self.old → S.is_stuck (below self.new) ≡ ⟦<Buffered<S> as Sink>⟧.is_stuck self.new }
    {
        if self.pending.remaining_capacity() < bytes.len() && self.hand_on().is_err() {
            self.stuck = true;
            return 0;
        }
        let count = bytes.len().min(self.pending.remaining_capacity());
        let _ = self.pending.try_extend_from_slice(&bytes[..count]);
        count
    }
}
