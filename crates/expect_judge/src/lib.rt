//! Whether what is told of a run is as the expectations of its script have it.
#![tactic(auto)]

mod expected;
mod index;
mod judge;
mod kept;
mod laws;
mod lines;
mod named;
mod rounds;
mod seen;

pub use expected::Expected;
pub use judge::{Judged, JudgedLine, all_judged, is_of_state};
pub use kept::{KeptRound, rounds_kept};
pub use laws::{
    labelled_lines_are_named, larger_spans_hold, never_is_the_contrary, once_is_some,
    same_rounds_end_together,
};
pub use lines::{EventLine, RoundLine, Told};
pub use named::NamedLines;
pub use rounds::RoundLines;
pub use seen::{TimeSpan, is_seen};
