//! Which steps an order takes.

ghost use Rattle.std.specs.Prelude.{◌≡◌, List};
ghost use Rattle.cc_web.specs.OrderLaws.{stores};
ghost use Rattle.cc_web.specs.Conducts.{Tries, Conducts, ConductsAsk};
ghost use Rattle.cc_web.specs.Steps.{Step, Leads};

use crate::asked::Asked;
use crate::follow::follow_changes;
use crate::key::AskKey;
use crate::node_access::NodeAccess;
use crate::order::{Task, WebOrder};
use crate::reply::Reply;
use crate::round::ask_own;
use crate::snapshot::take_snapshot;
use crate::trial::ask_under;
use cc_messages::Command;

/// Does what an order asks for, and says what its request is answered with.
pub fn carry_out<A: NodeAccess>(asking: &mut A, order: &WebOrder) -> Reply
    ensures { (steps : List Step) × Leads A.does asking.old steps asking.new × Conducts order.now steps result }
{
    match &order.task {
        Task::Overview { is_html } => Reply::Overview { is_html: *is_html },
        Task::Preflight(place) => Reply::Preflight(*place),
        Task::LastRequest(session) => {
            let key = AskKey {
                session: *session,
                request: 0,
            };
            let became = ask_client(asking, key, &Command::Collect, order.timeout_ms);
            Reply::of_last(*session, became)
        }
        Task::Snapshot => {
            asking.begin(order.timeout_ms);
            take_snapshot(asking, order.timeout_ms)
        }
        Task::Changes(known) => {
            asking.begin(order.timeout_ms);
            follow_changes(asking, *known, order.timeout_ms)
        }
        Task::Ask(command) => ask_for(asking, order.key, command, order.timeout_ms),
    }
}

// Asks under a key of the client's own, or under a session of the node's own.
fn ask_for<A: NodeAccess>(
    asking: &mut A,
    key: Option<AskKey>,
    command: &Command,
    timeout_ms: u64,
) -> Reply
    ensures { (steps : List Step) × Leads A.does asking.old steps asking.new
        × ConductsAsk key command.now timeout_ms steps result }
{
    match key {
        Some(key) => {
            let became = ask_client(asking, key, command, timeout_ms);
            Reply::of(became, stores(command))
        }
        None => {
            asking.begin(timeout_ms);
            let became = ask_own(asking, command, timeout_ms);
            Reply::of_own(became, stores(command))
        }
    }
}

fn ask_client<A: NodeAccess>(
    asking: &mut A,
    key: AskKey,
    command: &Command,
    timeout_ms: u64,
) -> Asked
    ensures { (steps : List Step) × Leads A.does asking.old steps asking.new
        × Tries key command.now timeout_ms steps result }
{
    asking.begin(timeout_ms);
    let mut left = timeout_ms;
    ask_under(asking, key, command, false, &mut left)
}

// Whether a command changes what the node stores.
fn stores(command: &Command) -> bool
    ensures { result ≡ stores command.now }
{
    matches!(
        command,
        Command::Store(_) | Command::WriteMax(_) | Command::SetFlag | Command::AddMember(_)
    )
}
