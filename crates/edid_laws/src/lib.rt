//! Laws of EDIDs: the tables of what their lines mean, payloads in words, and what a receiver answers with.
#![tactic(auto)]

mod mixing_laws;
mod table_laws;
mod word_laws;

pub use mixing_laws::{
    answers_stay_on_their_links, blocks_obey_their_rows, merges_to_itself, own_blocks_stand_once,
    own_labels_stand_once,
};
pub use table_laws::{
    a_code_has_one_format, a_line_for_each_established_timing, standard_timings_have_lines,
};
pub use word_laws::{
    audio_words_are_read_back, hdmi_codes_are_read_back, hdmi_words_are_read_back, no_word_is_hex,
    speakers_words_are_read_back, video_words_are_read_back,
};
