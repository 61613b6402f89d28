//! The operation that a client waits for.

ghost use Rattle.std.specs.Prelude.{◌≡◌};
ghost use Rattle.cc_ops.specs.Ops as ops;
ghost use Rattle.cc_ops.specs.Ops.{IsWaiting};

use cc_messages::{Answer, Command};

/// What a client asked for, and under which request of its session.
#[derive(Clone, Copy, PartialEq, Eq)]
pub struct Asked {
    pub session: u64,
    pub request: u64,
    pub command: Command,
}

/// An operation that needs so many answers to its tag, and has counted so many (CCC, client).
#[derive(Clone, Copy, PartialEq, Eq)]
pub struct Pending {
    pub asked: Asked,
    pub need: u64,
    pub count: u64,
}

/// What a client is told: the answer to a request of its session.
#[derive(Drop)]
pub struct Reply {
    pub session: u64,
    pub request: u64,
    pub answer: Answer,
}

// A round of an operation, of which no answer has come.
pub(crate) fn round_of(asked: &Asked, quorum: u64) -> Pending
    ensures { result ≡ ops.round_of quorum asked.now }
{
    Pending {
        asked: *asked,
        need: quorum,
        count: 0,
    }
}

// Whether one more answer is enough.
pub(crate) fn is_last(pending: &Pending) -> bool
    requires { IsWaiting pending.now }
    ensures { result ≡ ops.is_last pending.now }
{
    pending.count + 1 == pending.need
}

pub(crate) fn counted(pending: &Pending) -> Pending
    requires { IsWaiting pending.now }
    ensures { result ≡ ops.counted pending.now }
{
    Pending {
        asked: pending.asked,
        need: pending.need,
        count: pending.count + 1,
    }
}
