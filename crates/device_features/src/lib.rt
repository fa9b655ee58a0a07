//! What a device remembers, and the tables of opcodes and keys: what each message and each key changes in the
//! record, and what is said.
#![tactic(auto)]

mod deck;
mod effects;
mod key_word;
mod keys;
mod kinds;
mod laws;
mod messages;
mod record;
mod say;
mod ways;

pub use key_word::KeyWord;
pub use keys::{Key, VolumeKey, has_key};
pub use kinds::{Identity, addresses, second_addresses};
pub use laws::keys_are_named_by_their_words;
pub use messages::report_of;
pub use record::{Heard, HeardReport, Port, Record, Volume};
pub use say::{DataBlocks, Say, Says, refuse};
pub use ways::{NOWHERE, is_nowhere};
