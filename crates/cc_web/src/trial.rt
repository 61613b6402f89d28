//! An ask under one key.

ghost use Rattle.std.specs.Prelude.{◌≡◌, ◌<◌, ◌≤◌, List};
ghost use Rattle.cc_web.specs.Steps.{Step, Leads, left_in, after_wait};
ghost use Rattle.cc_web.specs.Trials.{next_of, fate_of, IsTrial, IsTry};

use crate::asked::Asked;
use crate::key::AskKey;
use crate::node_access::NodeAccess;
use crate::own_sessions::Fate;
use crate::problem::Problem;
use crate::retry::{Next, after_refusal};
use cc_messages::{Answer, Command, Refusal};

/// Asks under a key, and again while the refusal passes and time is left. It says what the last ask became.
pub fn ask_under<A: NodeAccess>(
    asking: &mut A,
    key: AskKey,
    command: &Command,
    is_own: bool,
    left_ms: &mut u64,
) -> Asked
    ensures steps { (steps : List Step) × Leads A.does asking.old steps asking.new
        × IsTrial is_own key command.now left_ms.old steps result × (left_ms.new ≡ left_in left_ms.old steps) }
    ensures within { left_ms.new ≤ left_ms.old }
{
    loop {
        match ask_once(asking, key, command, is_own, left_ms) {
            Some(became) => return became,
            None => {}
        }
    }
}

// Asks once, and waits where it is to be asked again: None then.
fn ask_once<A: NodeAccess>(
    asking: &mut A,
    key: AskKey,
    command: &Command,
    is_own: bool,
    left_ms: &mut u64,
) -> Option<Asked>
    ensures steps { (steps : List Step) × Leads A.does asking.old steps asking.new
        × IsTry is_own key command.now left_ms.old steps result × (left_ms.new ≡ left_in left_ms.old steps) }
    ensures within { left_ms.new ≤ left_ms.old }
    ensures shorter { result ≡ None → left_ms.new < left_ms.old }
{
    let why = match asking.ask(key, command) {
        Asked::Refused(why) => why,
        Asked::Answered(answer) => return Some(Asked::Answered(answer)),
        Asked::Late => return Some(Asked::Late),
    };
    let left = asking.left_ms().min(*left_ms);
    match next_of(is_own, why, left) {
        Next::Again(millis) => {
            asking.pause(millis);
            *left_ms = left - millis;
            None
        }
        Next::Wait => {
            *left_ms = left;
            Some(after_wait(asking.wait(key)))
        }
        Next::End(_) => {
            *left_ms = left;
            Some(Asked::Refused(why))
        }
    }
}

// What becomes of a refused ask.
fn next_of(is_own: bool, why: Refusal, left_ms: u64) -> Next
    ensures { result ≡ next_of is_own why left_ms }
{
    if is_own && matches!(why, Refusal::Repeat) {
        return Next::End(Problem::Refused(why));
    }
    after_refusal(why, left_ms)
}

fn after_wait(answer: Option<Answer>) -> Asked
    ensures { result ≡ after_wait answer }
{
    match answer {
        Some(answer) => Asked::Answered(answer),
        None => Asked::Late,
    }
}

/// What became of the ask of a key.
pub fn fate_of(key: AskKey, became: &Asked) -> Fate
    ensures { result ≡ fate_of key became.now }
{
    match became {
        Asked::Answered(_) => Fate::Answered,
        Asked::Late => Fate::Abandoned,
        Asked::Refused(Refusal::Repeat) => Fate::Behind(key.request),
        Asked::Refused(Refusal::Stale(last) | Refusal::Skip(last)) => Fate::Behind(*last),
        Asked::Refused(_) => Fate::Refused,
    }
}
