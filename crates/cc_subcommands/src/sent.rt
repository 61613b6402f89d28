//! What a node sent.

use cc_messages::Output;
use cc_views::{NoMemory, NodeId};
use cc_wire::encode_message;
use std::alloc::Global;

/// A post that was sent: its spelling, once for all that it went to.
#[derive(Drop)]
pub struct Sent {
    /// The post's own number.
    pub post: u64,
    pub spelled: Vec<u8>,
    /// Whom it went to, ascending.
    pub receivers: Vec<NodeId>,
}

impl Sent {
    /// The post of this number, as an event's outputs have it. None where they send nothing.
    pub fn among(alloc: Global, post: u64, outputs: &[Output]) -> Result<Option<Self>, NoMemory> {
        let mut spelled = Vec::new(alloc);
        let mut receivers = Vec::new(alloc);
        for output in outputs {
            let Output::Send { to, message, .. } = output else {
                continue;
            };
            if receivers.is_empty() {
                encode_message(message, &mut spelled)?;
            }
            receivers.push(*to)?;
        }
        if receivers.is_empty() {
            return Ok(None);
        }
        Ok(Some(Sent {
            post,
            spelled,
            receivers,
        }))
    }
}
