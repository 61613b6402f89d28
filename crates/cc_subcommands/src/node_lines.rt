//! What a node is, and what it waits for, line by line.

use cc_churn::Churn;
use cc_command_line::PrintedAnswer;
use cc_links::LinkRow;
use cc_messages::Answer;
use cc_node::{Core, Node};
use cc_ops::{Asked, Ops, Stage};
use cc_outbox::Outbox;
use cc_sessions::{SessionRow, Sessions};
use cc_views::{NoMemory, NodeId, View};
use std::alloc::{AllocError, Global};
use std::io;
use std::io::Write;

/// Prints what a node is, and what it waits for: each line begins with the word of what it tells.
pub fn print_node<W: Write>(alloc: Global, node: &Node, output: &mut W) -> io::Result<()> {
    let core = node.core();
    print_identity(core, output)?;
    print_membership(core.me(), core.churn(), output)?;
    print_view(alloc, core.view(), output)?;
    print_operations(core.ops(), output)?;
    print_links(core, output)?;
    print_sessions(core.sessions(), output)?;
    print_kept(core, node.outbox(), output)
}

fn print_identity<W: Write>(core: &Core, output: &mut W) -> io::Result<()> {
    let me = core.me().number();
    let (beta, gamma) = (core.beta(), core.gamma());
    let share = core.ops().share();
    writeln!(output, "node {me}")?;
    writeln!(output, "beta {}/{}", beta.num, beta.den)?;
    writeln!(output, "gamma {}/{}", gamma.num, gamma.den)?;
    writeln!(output, "share {share}")
}

fn print_membership<W: Write>(me: NodeId, churn: &Churn, output: &mut W) -> io::Result<()> {
    let changes = churn.changes();
    print_standing(me, churn, output)?;
    print_ids("members", changes.joined(), changes.left(), output)?;
    print_ids("present", changes.entered(), changes.left(), output)?;
    print_ids("left", changes.left(), &[], output)
}

// How far the node has come: a node that has entered joins with the last echo that it needs.
fn print_standing<W: Write>(me: NodeId, churn: &Churn, output: &mut W) -> io::Result<()> {
    if churn.has_left(me) {
        return writeln!(output, "standing left");
    }
    if churn.has_joined(me) {
        return writeln!(output, "standing joined");
    }
    if !churn.has_entered(me) {
        return writeln!(output, "standing apart");
    }
    let echoes = churn.echoes();
    match churn.need() {
        0 => writeln!(
            output,
            "standing entered, echoes {echoes}, needs one of a member"
        ),
        need => writeln!(output, "standing entered, echoes {echoes} of {need}"),
    }
}

// The ids, but for those that left, with commas; `none` where there are none.
fn print_ids<W: Write>(
    name: &str,
    ids: &[NodeId],
    left: &[NodeId],
    output: &mut W,
) -> io::Result<()> {
    write!(output, "{name}")?;
    let mut between = ' ';
    for id in ids {
        if !left.contains(id) {
            let number = id.number();
            write!(output, "{between}{number}")?;
            between = ',';
        }
    }
    writeln!(output, "{}", if between == ' ' { " none" } else { "" })
}

fn print_view<W: Write>(alloc: Global, view: &View, output: &mut W) -> io::Result<()> {
    let seen = match view.copy(alloc) {
        Ok(view) => Answer::Seen(view),
        Err(NoMemory) => return Err(AllocError.into()),
    };
    print_seen(alloc, &seen, output)
}

// The rows of a view as `play` prints them.
fn print_seen<W: Write>(alloc: Global, seen: &Answer, output: &mut W) -> io::Result<()> {
    let printed = format!(in alloc; "{}", PrintedAnswer(seen))?;
    let rows = printed.strip_prefix("Seen ").unwrap_or("");
    writeln!(output, "view {rows}")
}

// The pending round, the asks that it does beside its first one, and those that wait.
fn print_operations<W: Write>(ops: &Ops, output: &mut W) -> io::Result<()> {
    print_round(ops.stage(), output)?;
    print_asks("beside", ops.others().asks(), output)?;
    print_asks("waits", ops.line().asks(), output)
}

fn print_round<W: Write>(stage: Stage, output: &mut W) -> io::Result<()> {
    let (phase, pending) = match stage {
        Stage::Idle => return writeln!(output, "round none"),
        Stage::Storing(pending) => ("Storing", pending),
        Stage::Querying(pending) => ("Querying", pending),
        Stage::StoringBack(pending) => ("StoringBack", pending),
    };
    let Asked {
        session,
        request,
        ..
    } = pending.asked;
    let (count, need) = (pending.count, pending.need);
    writeln!(
        output,
        "round {phase} session {session} request {request} answers {count} of {need}"
    )
}

fn print_asks<W: Write>(name: &str, asks: &[Asked], output: &mut W) -> io::Result<()> {
    for asked in asks {
        let (session, request) = (asked.session, asked.request);
        writeln!(output, "{name} session {session} request {request}")?;
    }
    Ok(())
}

fn print_links<W: Write>(core: &Core, output: &mut W) -> io::Result<()> {
    for row in core.links().rows() {
        print_link(row, core.is_live(row.peer), core.posts(), output)?;
    }
    Ok(())
}

// What a peer owes the acknowledgement of, where so many posts were made. Nothing is kept for one that left.
fn print_link<W: Write>(
    row: &LinkRow,
    is_live: bool,
    posts: u64,
    output: &mut W,
) -> io::Result<()> {
    let peer = row.peer.number();
    let (acked, heard) = (row.acked, row.heard);
    let sent = posts.saturating_sub(row.start);
    let owed = if is_live {
        sent.saturating_sub(acked)
    } else {
        0
    };
    let left = if is_live { "" } else { " left" };
    writeln!(
        output,
        "link {peer} owes {owed} of {sent} acknowledged {acked} heard {heard}{left}"
    )
}

fn print_sessions<W: Write>(sessions: &Sessions, output: &mut W) -> io::Result<()> {
    let rows = sessions.rows();
    for row in rows {
        print_session(row, output)?;
    }
    let (used, most) = (rows.len(), Sessions::MAX_ROWS);
    writeln!(output, "sessions {used} of {most}")
}

fn print_session<W: Write>(row: &SessionRow, output: &mut W) -> io::Result<()> {
    let (session, last) = (row.session, row.last);
    writeln!(output, "session {session} request {last}")
}

fn print_kept<W: Write>(core: &Core, outbox: &Outbox, output: &mut W) -> io::Result<()> {
    let made = core.posts();
    let (posts, most_posts) = (outbox.post_count(), Outbox::MAX_POSTS);
    let (answers, most_answers) = (outbox.answers().len(), Outbox::MAX_ANSWERS);
    writeln!(output, "posts made {made} kept {posts} of {most_posts}")?;
    writeln!(output, "answers kept {answers} of {most_answers}")
}
