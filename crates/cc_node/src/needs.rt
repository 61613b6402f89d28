//! Whether the pending operation waits for more answers than it has to.

ghost use Rattle.std.specs.Prelude.{◌≡◌};
ghost use Rattle.cc_node.specs.Needs.{needs_more, needs_anew};

use crate::node_core::Core;
use cc_ops::Stage;

impl Core {
    /// Whether the pending operation needs more answers than one would that begins now: members have gone since its
    /// phase began.
    pub fn needs_anew(&self) -> bool
        ensures { result ≡ needs_anew self.now }
    {
        needs_more(self.churn.quorum(self.beta), self.ops.stage())
    }
}

// Whether a stage of an operation needs more answers than so many.
fn needs_more(quorum: u64, stage: Stage) -> bool
    ensures { result ≡ needs_more quorum stage }
{
    match stage {
        Stage::Idle => false,
        Stage::Storing(pending) => pending.need > quorum,
        Stage::Querying(pending) => pending.need > quorum,
        Stage::StoringBack(pending) => pending.need > quorum,
    }
}
