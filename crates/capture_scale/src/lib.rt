//! A captured line, each of its times multiplied, and the factor.
#![tactic(auto)]

mod factor;
mod laws;
mod scaling;

pub use factor::{AS_IT_IS, scale_of};
pub use laws::scaling_keeps_captures;
pub use scaling::{ScaleError, scale};
