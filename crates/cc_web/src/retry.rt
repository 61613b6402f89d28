//! When a refused ask is asked again.

ghost use Rattle.std.specs.Prelude.{◌≡◌};
ghost use Rattle.cc_web.specs.Retries.{passes, after_refusal};

use crate::problem::Problem;
use cc_messages::Refusal;

/// How long a refused ask waits before it is asked again, in milliseconds.
pub const PAUSE_MS: u64 = 20;

/// What becomes of an ask that was refused.
#[derive(Clone, Copy)]
pub enum Next {
    /// It is asked again under the same key after so many milliseconds.
    Again(u64),
    /// It was accepted before: its answer is waited for.
    Wait,
    /// The request ends.
    End(Problem),
}

/// What becomes of an ask that was refused, where its request has so many milliseconds left.
pub fn after_refusal(why: Refusal, left_ms: u64) -> Next
    ensures { result ≡ after_refusal why left_ms }
{
    if why == Refusal::Repeat && left_ms > 0 {
        return Next::Wait;
    }
    if passes(why) && left_ms > 0 {
        return Next::Again(left_ms.min(PAUSE_MS));
    }
    Next::End(Problem::Refused(why))
}

// Whether the same ask may be accepted a little later.
fn passes(why: Refusal) -> bool
    ensures { result ≡ passes why }
{
    matches!(
        why,
        Refusal::NotEntered
            | Refusal::NotJoined
            | Refusal::Busy
            | Refusal::OutboxFull
            | Refusal::QueueFull
    )
}
