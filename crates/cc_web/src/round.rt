//! Asks under sessions of the node's own.

ghost use Rattle.std.specs.Prelude.{◌≡◌, ◌≤◌, List};
ghost use Rattle.cc_web.specs.Rounds.{IsRound, IsOwn, is_behind};
ghost use Rattle.cc_web.specs.Steps.{Step, Leads, left_in};

use crate::asked::Asked;
use crate::node_access::NodeAccess;
use crate::retry::PAUSE_MS;
use crate::trial::{ask_under, fate_of};
use cc_messages::{Command, Refusal};

/// Asks under a session of the node's own, which is taken and given back. None where no session is free.
pub fn ask_round<A: NodeAccess>(
    asking: &mut A,
    command: &Command,
    left_ms: &mut u64,
) -> Option<Asked>
    ensures steps { (steps : List Step) × Leads A.does asking.old steps asking.new
        × IsRound command.now left_ms.old steps result × (left_ms.new ≡ left_in left_ms.old steps) }
    ensures within { left_ms.new ≤ left_ms.old }
{
    match asking.take() {
        Some(key) => {
            let became = ask_under(asking, key, command, true, left_ms);
            asking.give_back(key, fate_of(key, &became));
            Some(became)
        }
        None => None,
    }
}

/// Asks under a session of the node's own, and under another one where somebody else used it, while time is left.
pub fn ask_own<A: NodeAccess>(asking: &mut A, command: &Command, timeout_ms: u64) -> Option<Asked>
    ensures { (steps : List Step) × Leads A.does asking.old steps asking.new × IsOwn command.now timeout_ms steps result }
{
    let mut left = timeout_ms;
    loop {
        let became = match ask_round(asking, command, &mut left) {
            Some(became) => became,
            None => return None,
        };
        if left == 0 {
            return Some(became);
        }
        if !is_behind(&became) {
            return Some(became);
        }
        let millis = left.min(PAUSE_MS);
        asking.pause(millis);
        left -= millis;
    }
}

// Whether somebody else used the session.
pub(crate) fn is_behind(became: &Asked) -> bool
    ensures { result ≡ is_behind became.now }
{
    matches!(
        became,
        Asked::Refused(Refusal::Repeat | Refusal::Stale(_) | Refusal::Skip(_))
    )
}
