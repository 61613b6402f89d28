//! What changes: a collect that shows more stores than are known shows it.

ghost use Rattle.std.specs.Prelude.{List};
ghost use Rattle.cc_web.specs.Conducts.{Follows};
ghost use Rattle.cc_web.specs.Steps.{Step, Leads};

use crate::changes::is_news;
use crate::node_access::NodeAccess;
use crate::problem::Problem;
use crate::reply::Reply;
use crate::round::ask_round;
use crate::snapshot::seen_of;
use cc_messages::Command;

/// How long a request waits before it collects again, in milliseconds.
const FOLLOW_PAUSE_MS: u64 = 250;

/// Collects until a collect shows another number of stores than is known, while time is left.
pub fn follow_changes<A: NodeAccess>(asking: &mut A, known: Option<u64>, timeout_ms: u64) -> Reply
    ensures { (steps : List Step) × Leads A.does asking.old steps asking.new × Follows known timeout_ms steps result }
{
    let mut left = timeout_ms;
    'turns: while left > 0 {
        let became = match ask_round(asking, &Command::Collect, &mut left) {
            Some(became) => became,
            None => return Reply::Problem(Problem::NoSession),
        };
        let view = match seen_of(became) {
            Ok(view) => view,
            Err(became) => return Reply::of_own(Some(became), false),
        };
        if is_news(known, view.rows()) {
            return Reply::Changed(view);
        }
        drop(view);
        left = asking.left_ms().min(left);
        let millis = left.min(FOLLOW_PAUSE_MS);
        asking.pause(millis);
        left -= millis;
    }
    Reply::Unchanged
}
