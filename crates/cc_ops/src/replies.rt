//! What clients are told on one event.

ghost use Rattle.std.specs.Prelude.{◌≡◌, ◌≤◌, ◌<◌, ◌==◌, ◌++◌, [], ◌∷◌, length, IfOk, OnOk, OnErr, IfSome, None};
ghost use Rattle.cc_ops.specs.WaitingAsks.{line_limit};

use crate::pending_operation::Reply;
use cc_views::NoMemory;
use std::alloc::Global;
use std::marker::Model;

/// The answers of one event, in the order in which they are put out: at most 32. Where there are none it holds no memory.
#[derive(Drop)]
pub struct Replies {
    replies: Option<Vec<Reply>>,
}

impl Model for Replies {
    ghost use Rattle.std.specs.Prelude.{List, [], length, ◌≤◌};
    ghost use Rattle.std.specs.Option.{option_map_or};
    ghost use Rattle.cc_ops.specs.declared.pending_operation.Reply.{Reply as ReplyValue};
    ghost use Rattle.cc_ops.specs.Codes.{replies_code};
    ghost use Rattle.cc_ops.specs.WaitingAsks.{line_limit};

    ghost Value = { List ReplyValue };

    ghost coded = { replies_code };

    ghost view = { λ r. option_map_or (λ v. v.items) r.replies [] };

    ghost invariant = { λ r. length (option_map_or (λ v. v.items) r.replies []) ≤ line_limit };
}

impl Replies {
    /// How many there are at most.
    pub const MAX_LEN: usize = 32;

    /// Nobody is told anything.
    pub fn none() -> Self
        ensures { result ≡ [] }
    {
        Replies { replies: None }
    }

    /// One client is told this. The only error is a refused growth.
    pub fn one(alloc: Global, reply: Reply) -> Result<Self, NoMemory>
        ensures { IfOk result (λ r. r ≡ reply ∷ []) }
    {
        let mut replies = Vec::with_capacity(alloc, 1)?;
        replies.push(reply)?;
        Ok(Replies {
            replies: Some(replies),
        })
    }

    /// One more, behind the others. The only error is a refused growth, which leaves them as they are.
    pub fn push(&mut self, reply: Reply) -> Result<(), NoMemory>
        requires some { 1 ≤ length self.old }
        requires room { length self.old < line_limit }
        ensures pushed { OnOk result (self.new ≡ self.old ++ reply ∷ []) }
        ensures kept { OnErr result (self.new ≡ self.old) }
    {
        let replies = self.replies.as_mut().unwrap();
        replies.push(reply)?;
        Ok(())
    }

    /// All of them.
    pub fn as_slice(&self) -> &[Reply]
        ensures replies { result.now ≡ self.now }
        ensures few { length result.now ≤ line_limit }
    {
        match &self.replies {
            Some(replies) => replies,
            None => &[],
        }
    }

    /// Whether nobody is told anything.
    pub fn is_empty(&self) -> bool
        ensures { result ≡ (length self.now == 0) }
    {
        self.as_slice().is_empty()
    }

    /// The first of them, and the others stay. None where there is none. It takes no memory.
    pub fn take_first(&mut self) -> Option<Reply>
        ensures some { IfSome result (λ reply. self.old ≡ reply ∷ self.new) }
        ensures none { result ≡ None → (self.old ≡ []) × (self.new ≡ []) }
    {
        let replies = self.replies.as_mut()?;
        if replies.is_empty() {
            return None;
        }
        Some(replies.remove(0))
    }
}
