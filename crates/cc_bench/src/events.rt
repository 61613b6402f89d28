//! The nodes that are timed, and the events that they get.

use crate::bench_fault::BenchFault;
use cc_changes::Fraction;
use cc_messages::{Event, Message};
use cc_node::{Core, Opening};
use cc_views::{NodeId, Row, Value, View};
use std::alloc::{AllocError, Global};

// Both fractions of the nodes.
const FOUR_FIFTHS: Fraction = Fraction { num: 4, den: 5 };

/// What the member gets again and again.
#[derive(Clone, Copy)]
pub enum Kind {
    /// A store with a row of each node, which is merged and acknowledged.
    Store,
    /// A query, which is answered with a row of each node.
    Query,
}

/// So many members.
pub fn members(alloc: Global, nodes: u32) -> Result<Vec<u32>, AllocError> {
    (1..nodes.saturating_add(1)).collect(alloc)
}

/// The first of these members begins.
pub fn first_of(ids: &[u32]) -> Opening<'_> {
    Opening {
        me: 1,
        initial: ids,
        contacts: &[],
        beta: FOUR_FIFTHS,
        gamma: FOUR_FIFTHS,
        share: 1,
    }
}

/// The first message that the node gets from itself.
pub fn delivery(alloc: Global, core: &Core, kind: Kind) -> Result<Event, BenchFault> {
    let node = core.me();
    let message = match kind {
        Kind::Store => Message::Store {
            view: row_of_each(alloc, core)?,
            tag: 1,
            node,
        },
        Kind::Query => Message::Query { tag: 1, node },
    };
    Ok(Event::Deliver {
        from: node,
        number: 1,
        message,
    })
}

fn row_of_each(alloc: Global, core: &Core) -> Result<View, BenchFault> {
    let mut view = View::new(alloc)?;
    for link in core.links().rows() {
        put_row(&mut view, link.peer);
    }
    Ok(view)
}

// A row of a node, where there is room for it.
fn put_row(view: &mut View, node: NodeId) {
    if view.rows().len() < View::MAX_ROWS {
        view.merge_row(Row {
            node,
            number: 1,
            value: Value::empty(),
        });
    }
}

/// So many copies of a message that the node gets from itself, under the next numbers.
pub fn copies(
    alloc: Global,
    live: &Core,
    delivery: &Event,
    count: u64,
) -> Result<Vec<Event>, BenchFault> {
    let heard = live.heard(live.me());
    let mut events = Vec::new(alloc);
    for i in 0..count {
        let mut event = delivery.copy(alloc)?;
        if let Event::Deliver { number, .. } = &mut event {
            *number = heard.saturating_add(i + 1);
        }
        events.push(event)?;
    }
    Ok(events)
}

/// Each peer acknowledges all posts so far.
pub fn acknowledgements(alloc: Global, live: &Core) -> Result<Vec<Event>, BenchFault> {
    let mut events = Vec::new(alloc);
    for link in live.links().rows() {
        events.push(Event::Acked {
            peer: link.peer,
            number: live.posts(),
        })?;
    }
    Ok(events)
}
