//! What stands where in an EDID, as tables of fields in the standards' words: the base block, its descriptors and the front of an
//! extension of CTA-861; what a data block begins with, and what it is called; the data blocks, which block a table is of, and what
//! is reserved, cut or left over in one. What is added to a standard's block is a row; a new block is a table and its line in
//! `LAYOUTS`.
#![tactic(auto)]

mod audio;
mod base;
mod cta;
mod cuts;
mod displays;
mod dolby;
mod forum;
mod frames;
mod hdmi;
mod heads;
mod laws;
mod layouts;
mod names;
mod rows;
mod sections;
mod timings;

pub use cuts::{BASE, descriptor_section};
pub use frames::{Frame, frame_parts};
pub use laws::sections_are_tables;
pub use layouts::{Layout, Table, body_of, cut_of, has_reserved, layout_of, left_of, parts_of};
pub use names::{block_name, front_frame};
pub use sections::{Section, section_name, section_parts};
