//! What became of a frame that was handed in.
ghost use Rattle.std.specs.Prelude.{◌≡◌, ◌<◌, length};
ghost use Rattle.device_core.specs.Sent.{ends_front, is_last, sent_of};

use crate::device::Device;
use line_frames::Fate;

/// A frame that was handed in and is over: the line that handed it in, what became of its last attempt, and how many attempts it
/// had that count. They stay at 255.
#[derive(Clone, Copy, Debug, PartialEq, Eq)]
pub struct Sent {
    pub line: u64,
    pub fate: Fate,
    pub attempts: u8,
}

impl<const Q: usize> Device<Q> {
    // No attempt at the front frame is left.
    fn is_last(&self) -> bool
        requires { 0 < length self.now.queue }
        ensures { result ≡ is_last self.now }
    {
        self.most_again() <= self.attempts
    }

    // Whether this fate is the last one of the front frame.
    fn ends_front(&self, fate: Fate) -> bool
        requires { 0 < length self.now.queue }
        ensures { result ≡ ends_front self.now fate }
    {
        match fate {
            Fate::Delivered => true,
            Fate::Lost => self.front_is_counted() && self.is_last(),
            Fate::Unacked => self.front_is_poll() || self.is_last(),
            Fate::Broken => !self.front_is_poll() && self.is_last(),
        }
    }

    /// What became of the front frame with this fate, where it was handed in and is over then.
    pub fn sent_of(&self, fate: Fate) -> Option<Sent>
        ensures { result ≡ sent_of self.now fate }
    {
        if self.is_allocating() {
            return None;
        }
        let [front, ..] = self.queue.as_slice() else {
            return None;
        };
        let ticket = front.ticket?;
        if !self.ends_front(fate) {
            return None;
        }
        Some(Sent {
            line: ticket.line,
            fate,
            attempts: self.attempts.saturating_add(1),
        })
    }
}
