//! What all nodes had at one moment: two collects in a row that show the same show it.

ghost use Rattle.std.specs.Prelude.{◌≡◌, List, IsTrue};
ghost use Rattle.cc_web.specs.Conducts.{Agrees, Shows, seen_of};
ghost use Rattle.cc_web.specs.Steps.{Step, Leads};

use crate::asked::Asked;
use crate::node_access::NodeAccess;
use crate::problem::Problem;
use crate::reply::Reply;
use crate::round::ask_round;
use cc_messages::{Answer, Command};
use cc_views::View;

/// How long a request waits before it collects again, in milliseconds.
const COLLECT_PAUSE_MS: u64 = 1;

/// Collects until two collects in a row show the same, while time is left.
pub fn take_snapshot<A: NodeAccess>(asking: &mut A, timeout_ms: u64) -> Reply
    ensures { (steps : List Step) × Leads A.does asking.old steps asking.new × Shows timeout_ms steps result }
{
    let mut left = timeout_ms;
    let mut last = None;
    let mut collects = 0u64;
    'turns: while left > 0 {
        let became = match ask_round(asking, &Command::Collect, &mut left) {
            Some(became) => became,
            None => return Reply::Problem(Problem::NoSession),
        };
        let view = match seen_of(became) {
            Ok(view) => view,
            Err(became) => return Reply::of_own(Some(became), false),
        };
        collects += 1;
        if shows_same(&last, &view) {
            return Reply::Answer {
                answer: Answer::Seen(view),
                collects: Some(collects),
            };
        }
        last = Some(view);
        left = asking.left_ms().min(left);
        let millis = left.min(COLLECT_PAUSE_MS);
        asking.pause(millis);
        left -= millis;
    }
    Reply::Problem(Problem::NoSnapshot)
}

// The view that was collected, or what else became of the ask.
pub(crate) fn seen_of(became: Asked) -> Result<View, Asked>
    ensures { result ≡ seen_of became }
{
    match became {
        Asked::Answered(Answer::Seen(view)) => Ok(view),
        became => Err(became),
    }
}

// Whether the collect before showed the same: each view is at most the other.
fn shows_same(last: &Option<View>, view: &View) -> bool
    ensures { IsTrue result → Agrees last.now view.now }
{
    match last {
        Some(last) => last.at_most(view) && view.at_most(last),
        None => false,
    }
}
