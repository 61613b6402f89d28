//! The nodes that a message names.

ghost use Rattle.std.specs.Prelude.{◌≡◌, ◌≤◌, ◌∷◌, ◌++◌, ℕ, List};
ghost use Rattle.std.specs.FinMap as table;
ghost use Rattle.cc_views.specs.Limits.{known_limit};
ghost use Rattle.cc_views.specs.NatSets.{NatSet};
ghost use Rattle.cc_links.specs.Links as links;
ghost use Rattle.cc_links.specs.Rows.{nodes_of};
ghost use Rattle.cc_node.specs.Core.{ids_of};
ghost use Rattle.cc_node.specs.Known.{Marks};

use cc_links::{KnownIds, Links};
use cc_messages::Message;
use cc_views::{NodeId, Row};
use std::slice;

// The nodes that a message names: those of its view, those of its changes, and one, or none.
struct Named<'a> {
    rows: &'a [Row],
    left: &'a [NodeId],
    joined: &'a [NodeId],
    entered: &'a [NodeId],
    node: &'a [NodeId],
}

fn named_by(message: &Message) -> Named<'_>
    ensures { ids_of message.now ≡ result.node.now
        ++ (result.entered.now ++ (result.joined.now ++ (result.left.now ++ nodes_of result.rows.now))) }
{
    match message {
        Message::EnterEcho {
            changes,
            view,
            node,
            ..
        } => Named {
            rows: view.rows(),
            left: changes.left(),
            joined: changes.joined(),
            entered: changes.entered(),
            node: slice::from_ref(node),
        },
        Message::Snapshot { changes, view } => Named {
            rows: view.rows(),
            left: changes.left(),
            joined: changes.joined(),
            entered: changes.entered(),
            node: &[],
        },
        Message::QueryReply { view, node, .. } | Message::Store { view, node, .. } => {
            named_by_rows(view.rows(), node)
        }
        Message::Enter { node }
        | Message::Join { node }
        | Message::JoinEcho { node }
        | Message::Leave { node }
        | Message::LeaveEcho { node } => named_by_rows(&[], node),
        Message::Query { node, .. } | Message::StoreAck { node, .. } => named_by_rows(&[], node),
    }
}

// Those of rows, and one.
fn named_by_rows<'a>(rows: &'a [Row], node: &'a NodeId) -> Named<'a>
    ensures { result.node.now
        ++ (result.entered.now ++ (result.joined.now ++ (result.left.now ++ nodes_of result.rows.now)))
        ≡ node.now ∷ nodes_of rows.now }
{
    Named {
        rows,
        left: &[],
        joined: &[],
        entered: &[],
        node: slice::from_ref(node),
    }
}

// Adds these ids to the known ones too, if those before them fit.
fn mark_more(known: &mut KnownIds, fit: bool, ids: &[NodeId]) -> bool
    ensures { (before : NatSet) (marked : List ℕ) → Marks before marked fit known.old
        → Marks before (ids.now ++ marked) result known.new }
{
    if !fit {
        return false;
    }
    known.add_all(ids)
}

// Adds the nodes that a message names to the known ones. False where they are too many.
pub(crate) fn mark_named(known: &mut KnownIds, message: &Message) -> bool
    ensures { Marks known.old (ids_of message.now) result known.new }
{
    let Named {
        rows,
        left,
        joined,
        entered,
        node,
    } = named_by(message);
    let fit = known.add_nodes(rows);
    let fit = mark_more(known, fit, left);
    let fit = mark_more(known, fit, joined);
    let fit = mark_more(known, fit, entered);
    mark_more(known, fit, node)
}

// Gives each node that a message names a link, unless it has one.
pub(crate) fn link_named(peers: &mut Links, message: &Message, posts: u64)
    requires { table.len (links.add_all posts (ids_of message.now) peers.old) ≤ known_limit }
    ensures { peers.new ≡ links.add_all posts (ids_of message.now) peers.old }
{
    let Named {
        rows,
        left,
        joined,
        entered,
        node,
    } = named_by(message);
    peers.add_nodes(rows, posts);
    peers.add_all(left, posts);
    peers.add_all(joined, posts);
    peers.add_all(entered, posts);
    peers.add_all(node, posts);
}
