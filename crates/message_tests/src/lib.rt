//! Tests of frames in hex and of what they mean, into writers that fail, and of frames laid as pulls: each fault by its pulls, worked
//! out by hand from the nominal times of the standard (CEC 5.2), and what is refused.
#![tactic(auto)]

#[cfg(test)]
mod cases;
#[cfg(test)]
mod rows;
#[cfg(test)]
mod writers;
