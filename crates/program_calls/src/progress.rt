//! How far a sweep is, on standard error.
use expect_sweep::{ProgressHearer, SweepProgress};
use std::alloc::{AllocError, Global};
use text_core::{Sink, put_all};

/// Writes a line each time that a sweep is so far.
#[derive(Drop)]
pub struct ProgressLines<'e, E: Sink> {
    pub alloc: Global,
    pub err: &'e mut E,
}

fn line_of(alloc: Global, progress: SweepProgress) -> Result<String, AllocError> {
    let SweepProgress {
        done,
        count,
        stretches,
    } = progress;
    format!(in alloc; "hdminet: instants {done} of {count}, stretches {stretches}\n")
}

impl<E: Sink> ProgressHearer for ProgressLines<'_, E> {
    ghost hears = { λ r p s. Unit {0} };

    fn hear(&mut self, progress: SweepProgress) {
        // Where memory runs out, or standard error takes none, the sweep goes on.
        if let Ok(text) = line_of(self.alloc, progress) {
            let _ = put_all(self.err, text.as_bytes());
        }
    }
}
