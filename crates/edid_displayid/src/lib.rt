//! The formats that an EDID has in the form of DisplayID: timings of the types I to X of a DisplayID extension, and of the types VII, VIII and X of data blocks of
//! CTA-861.
#![tactic(auto)]

mod bytes;
mod extensions;
mod formulas;
mod layouts;
mod listing;
mod sections;
mod timing;

pub use extensions::{MAX_FORMATS, cta_formats, typed_formats};
pub use sections::{data_len, first_formats, is_cut, section_data, section_formats};
pub use timing::{TypedFormat, TypedTiming};
