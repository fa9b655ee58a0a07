//! What hears of the lines of a topology, and of refused lines.
use live_session::{Refusal, Step};

/// Hears of the lines of a session's topology, and of the lines after it that are refused.
pub trait RefusalHearer {
    /// A line was read, the next one of the topology.
    fn note(&mut self, line: &[u8]);

    /// A line was refused: the one of this number after the line `script`, of a session with this topology.
    fn hear(&mut self, topology: &[u8], number: u64, line: &[u8], refusal: Refusal);
}

/// Hears of nothing.
#[derive(Drop)]
pub struct SilentRefusals;

impl RefusalHearer for SilentRefusals {
    fn note(&mut self, _line: &[u8]) {}

    fn hear(&mut self, _topology: &[u8], _number: u64, _line: &[u8], _refusal: Refusal) {}
}

/// Who hears of the refused lines of a session with this topology.
#[derive(Drop)]
pub(crate) struct Refusals<'t, 'h, H> {
    pub topology: &'t [u8],
    pub hearer: &'h mut H,
}

impl<H: RefusalHearer> Refusals<'_, '_, H> {
    /// Has a refused line heard of, the one of this number.
    pub(crate) fn tell(&mut self, step: Step, number: u64, line: &[u8]) {
        if let Step::Refuse(refusal) = step {
            self.hearer.hear(self.topology, number, line, refusal);
        }
    }
}
