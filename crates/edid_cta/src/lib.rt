//! The CTA extension block: flags, data blocks, detailed timings and a tail.
#![tactic(auto)]

mod audio;
mod block;
mod cta;
mod ext;
mod hdmi;
mod laws;
mod raw;
mod reading;

pub use audio::{with_audio, write_with_audio};
pub use block::{BlockKind, DataBlock};
pub use cta::{Bare, Cta};
pub use ext::{ExtError, read_ext, write_ext};
pub use hdmi::{NoHdmiBlock, has_identifier, hdmi_address, with_address, write_with_address};
pub use laws::one_spelling_of_extensions;
pub use raw::{Ext, RawExt};
pub use text_core::{
    Kind, Phys, Piece, Sink, WriteFault, Writes, hex_digit, put_all, write_line, write_pieces,
};
