//! What the lines of a CTA extension mean: its flags, and its data blocks of audio, speakers and HDMI.
#![tactic(auto)]

mod audio;
mod flags;
mod hdmi;
mod speakers;
mod stereo;

pub use audio::{append_audio, audio_note};
pub use flags::append_flags;
pub use hdmi::append_hdmi;
pub use speakers::{append_speakers, speaker_note};
