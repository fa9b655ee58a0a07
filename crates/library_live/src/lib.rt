//! What the calls of sessions do for C and other languages: a session lives on the heap between two calls, and its caller keeps
//! where it lies. hdminet_c exports them.
#![tactic(auto)]

mod kept;
mod lines;
mod live;
mod talk;

pub use live::LiveRoom;
