//! Reading an EDID over DDC.
#![tactic(auto)]

mod ddc;
mod error;
mod laws;
mod learn;
mod readout;

pub use ddc::Ddc;
pub use error::DdcError;
pub use laws::ports_report_places;
pub use learn::learn_address;
pub use readout::write_readout;
