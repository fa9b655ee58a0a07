//! The audit of a capture that is read line by line: each reading is written as soon as it is over, and what there is to remark of
//! it as soon as the edges that have come say all of it.
#![tactic(auto)]

mod error;
mod follower;
mod following;
mod listener;
mod settled;
mod view;

pub use error::FollowAuditError;
pub use following::follow_audit;
pub use view::AuditView;
