//! A phase that begins anew, since its answers may be lost or its need is out of date.

ghost use Rattle.std.specs.Prelude.{◌≡◌, ℕ, ◌+◌, ◌≤◌, ◌||◌, IfOk};
ghost use Rattle.std.specs.FinMap.{len};
ghost use Rattle.cc_views.specs.Limits.{counter_limit, known_limit, overruns};
ghost use Rattle.cc_views.specs.Merge.{merge};
ghost use Rattle.cc_ops.specs.Ops as ops;
ghost use Rattle.cc_ops.specs.OwnLaws.{AsksAnewAlone};
ghost use Rattle.cc_ops.specs.Refusals.{passes};

use crate::ops::Ops;
use crate::pending_operation::round_of;
use crate::stage::Stage;
use cc_messages::Message;
use cc_views::{COUNTER_LIMIT, NoMemory, NodeId, View};
use std::alloc::Global;

impl Ops {
    /// The pending phase begins anew, under a tag of its own: it needs `quorum` answers, and none has come. It takes no
    /// memory.
    pub fn ask_anew(&mut self, quorum: u64)
        requires some { 1 ≤ quorum }
        requires few { quorum ≤ known_limit }
        requires tag { self.old.tag + 1 ≤ counter_limit }
        ensures { self.new ≡ ops.anew quorum self.old }
    {
        let stage = self.stage;
        self.stage = match stage {
            Stage::Idle => Stage::Idle,
            Stage::Storing(pending) => Stage::Storing(round_of(&pending.asked, quorum)),
            Stage::Querying(pending) => Stage::Querying(round_of(&pending.asked, quorum)),
            Stage::StoringBack(pending) => Stage::StoringBack(round_of(&pending.asked, quorum)),
        };
        self.tag += 1;
    }

    /// What the pending phase asks as it begins anew, once the node has merged the view that it was `told`: a write stores
    /// what the node sees, a read asks, or stores back what it did. The only error is a refused growth.
    pub fn question(
        &self,
        alloc: Global,
        me: NodeId,
        told: &View,
    ) -> Result<Option<Message>, NoMemory>
        requires fits { len (merge self.now.view told.now) ≤ known_limit }
        requires tag { self.now.tag + 1 ≤ counter_limit }
        ensures { (quorum : ℕ) → IfOk result (λ q. q ≡ ops.question me (ops.anew quorum (ops.merged told.now self.now))) }
    {
        let tag = self.tag + 1;
        let stage = self.stage;
        match stage {
            Stage::Idle => Ok(None),
            Stage::Storing(_) => {
                let mut view = self.view.copy(alloc)?;
                view.merge(told);
                Ok(Some(Message::Store {
                    view,
                    tag,
                    node: me,
                }))
            }
            Stage::Querying(_) => Ok(Some(Message::Query { tag, node: me })),
            Stage::StoringBack(_) => {
                let view = self.seen.copy(alloc)?;
                Ok(Some(Message::Store {
                    view,
                    tag,
                    node: me,
                }))
            }
        }
    }

    /// Whether a phase that begins anew would raise a counter that stands at its limit, `2 ^ 62`.
    pub fn anew_is_spent(&self) -> bool
        ensures { (quorum : ℕ) → result ≡ (passes self.now.number (ops.anew quorum self.now).number
            || overruns self.now.tag (ops.anew quorum self.now).tag) }
    {
        self.tag == COUNTER_LIMIT
    }
}

/// A phase that begins anew is no new operation: it asks the same under the next tag, needs `quorum` answers, and has none.
pub fn anew_keeps_the_operation()
    ensures { (quorum : ℕ) (s : ops.Ops) → AsksAnewAlone quorum s (ops.anew quorum s) }
{}
