//! Laws of the times of runs: without pulses from outside no width is out of its window.
#![tactic(auto)]

mod laws;

pub use laws::{
    rounds_are_blocks, rounds_are_nominal, runs_are_fine, runs_give_up, runs_keep_their_times,
};
