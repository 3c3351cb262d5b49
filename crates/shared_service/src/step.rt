//! What a turn under the lock makes.

use cipher_ops::Job;
use rule_model::{Reply, ReplyRoom};

/// A step: the numbers of its first and its last entry, its reply, the job of an enter that is admitted, and the room for the
/// reply to its leave.
#[derive(Drop)]
pub(crate) struct Step {
    pub(crate) first: u64,
    pub(crate) last: u64,
    pub(crate) reply: Reply,
    pub(crate) job: Option<Job>,
    pub(crate) leave: Option<ReplyRoom>,
}
