//! Answers: what a client is told.

ghost use Rattle.std.specs.Prelude.{◌≡◌, IfOk};

use crate::number_list::NumberList;
use cc_views::{NoMemory, View};
use std::alloc::Global;

/// What a client is told, once its command is done.
#[derive(Drop)]
pub enum Answer {
    /// What was to be written stands.
    Stored,
    /// What each node stored last.
    Seen(View),
    /// The greatest maximum of all nodes.
    Max(u64),
    /// Whether a node's flag is set.
    Flag(bool),
    /// The union of all nodes' sets.
    Set(NumberList),
}

impl Answer {
    /// The same answer in memory of its own.
    pub fn copy(&self, alloc: Global) -> Result<Self, NoMemory>
        ensures { IfOk result (λ a. a ≡ self.now) }
    {
        match self {
            Answer::Stored => Ok(Answer::Stored),
            Answer::Seen(view) => Ok(Answer::Seen(view.copy(alloc)?)),
            Answer::Max(number) => Ok(Answer::Max(*number)),
            Answer::Flag(flag) => Ok(Answer::Flag(*flag)),
            Answer::Set(numbers) => Ok(Answer::Set(numbers.copy(alloc)?)),
        }
    }
}
