//! For how long one operation has been pending.

ghost use Rattle.std.specs.Prelude.{◌≡◌};
ghost use Rattle.cc_policies.specs.SlowOperations.{nothing_lasts, is_same, lasts_after, is_long};

use crate::limits::SLOW_OPERATION_SECONDS;

/// The request of a session, by which an operation is known.
#[derive(Clone, Copy, PartialEq, Eq)]
pub struct AskName {
    pub session: u64,
    pub request: u64,
}

/// The operation that is pending, if one is, and for how many seconds it has been, 8 at most.
#[derive(Clone, Copy, PartialEq, Eq)]
pub struct SlowOperation {
    pub asked: Option<AskName>,
    pub seconds: u64,
}

impl SlowOperation {
    /// After so many seconds an operation has been pending for long.
    pub const LONG_SECONDS: u64 = SLOW_OPERATION_SECONDS;

    /// None is pending.
    pub fn new() -> Self
        ensures { result ≡ nothing_lasts }
    {
        SlowOperation {
            asked: None,
            seconds: 0,
        }
    }

    /// A second has passed, at whose end that one is pending, if one is.
    pub fn after_second(self, asked: Option<AskName>) -> Self
        ensures { result ≡ lasts_after self asked }
    {
        match asked {
            None => SlowOperation::new(),
            Some(name) => SlowOperation {
                asked: Some(name),
                seconds: if is_same(name, self.asked) {
                    self.seconds.saturating_add(1).min(SLOW_OPERATION_SECONDS)
                } else {
                    0
                },
            },
        }
    }

    /// Whether one operation has been pending for eight seconds.
    pub fn is_long(self) -> bool
        ensures { result ≡ is_long self }
    {
        self.seconds >= SLOW_OPERATION_SECONDS
    }
}

fn is_same(name: AskName, other: Option<AskName>) -> bool
    ensures { result ≡ is_same name other }
{
    match other {
        None => false,
        Some(other) => name.session == other.session && name.request == other.request,
    }
}
