//! A node's status as a table.

use crate::status::{
    CountPart, PeerPart, RoundPart, RowPart, RowText, SkipPart, Status, number_of,
};
use cc_command_line::{Harmless, Quoted};
use serde_json::{Map, Value};
use std::fmt;

/// A line for each part of the status, which begins with its word, and then a line for each peer and each row of the view.
/// Whatever the node says, a terminal finds no command in it.
#[derive(Clone, Copy)]
pub struct Table<'a>(pub Status<'a>);

impl fmt::Display for Table<'_> {
    fn fmt<W: fmt::Write>(&self, f: &mut fmt::Formatter<W>) -> fmt::Result {
        let status = &self.0;
        print_node(f, status)?;
        print_members(f, status)?;
        print_round(f, status)?;
        print_use(f, status)?;
        print_counts(f, &status.counts)?;
        print_disk(f, status)?;
        print_peers(f, status)?;
        print_rows(f, status.view)
    }
}

// The numbers of a list, and `none` where there are none.
#[derive(Clone, Copy)]
struct Numbers<'a>(&'a [Value]);

impl fmt::Display for Numbers<'_> {
    fn fmt<W: fmt::Write>(&self, f: &mut fmt::Formatter<W>) -> fmt::Result {
        for (i, number) in self.0.iter().enumerate() {
            let (number, between) = (Number(number), if i > 0 { "," } else { "" });
            write!(f, "{between}{number}")?;
        }
        f.write_str(if self.0.is_empty() { "none" } else { "" })
    }
}

// Each name with its number, and `none` where there are none.
#[derive(Clone, Copy)]
struct Named<'a>(&'a Map<String, Value>);

impl fmt::Display for Named<'_> {
    fn fmt<W: fmt::Write>(&self, f: &mut fmt::Formatter<W>) -> fmt::Result {
        for (i, (name, number)) in self.0.iter().enumerate() {
            let (name, number) = (Harmless(name.as_str()), Number(number));
            let between = if i > 0 { ", " } else { "" };
            write!(f, "{between}{name} {number}")?;
        }
        f.write_str(if self.0.is_empty() { "none" } else { "" })
    }
}

// Nothing where it is no number.
#[derive(Clone, Copy)]
struct Number<'a>(&'a Value);

impl fmt::Display for Number<'_> {
    fn fmt<W: fmt::Write>(&self, f: &mut fmt::Formatter<W>) -> fmt::Result {
        match number_of(self.0) {
            Some(number) => write!(f, "{number}"),
            None => Ok(()),
        }
    }
}

fn print_node<W: fmt::Write>(f: &mut fmt::Formatter<W>, status: &Status<'_>) -> fmt::Result {
    let (id, version) = (status.id, Harmless(status.version));
    let standing = Harmless(status.standing);
    let (ready, reason) = match status.is_ready {
        true => ("yes", ""),
        false => ("no: ", status.reason),
    };
    let reason = Harmless(reason);
    writeln!(
        f,
        "node      {id}, version {version}\nstanding  {standing}\nready     {ready}{reason}"
    )
}

fn print_members<W: fmt::Write>(f: &mut fmt::Formatter<W>, status: &Status<'_>) -> fmt::Result {
    let quorum = &status.quorum;
    let (need, count, away) = (quorum.need, quorum.members, quorum.may_be_away);
    let (beta, gamma) = (Harmless(quorum.beta), Harmless(quorum.gamma));
    let (members, left) = (Numbers(status.members), Numbers(status.left));
    writeln!(
        f,
        "quorum    {need} of {count} members, {away} may be away, beta {beta}, gamma {gamma}\nmembers   {members}\nleft      {left}"
    )
}

fn print_round<W: fmt::Write>(f: &mut fmt::Formatter<W>, status: &Status<'_>) -> fmt::Result {
    match &status.round {
        Some(round) => print_pending(f, round, status.now)?,
        None => writeln!(f, "round     none")?,
    }
    let waiting = status.waiting;
    writeln!(f, "waiting   {waiting} asks")
}

fn print_pending<W: fmt::Write>(
    f: &mut fmt::Formatter<W>,
    round: &RoundPart<'_>,
    now: u64,
) -> fmt::Result {
    let phase = Harmless(round.phase);
    let (session, request, others) = (round.session, round.request, round.others);
    let (answers, need) = (round.answers, round.need);
    let seconds = seconds_since(round.since, now);
    writeln!(
        f,
        "round     {phase} for {seconds} s, session {session}, request {request}, {others} others, {answers} of {need} answers"
    )
}

fn print_use<W: fmt::Write>(f: &mut fmt::Formatter<W>, status: &Status<'_>) -> fmt::Result {
    let (used, limit) = (status.sessions.len(), status.session_limit);
    let (kept, most, made) = (status.posts.kept, status.posts.limit, status.posts.made);
    writeln!(
        f,
        "sessions  {used} of {limit}\nposts     {kept} of {most} kept, {made} made"
    )
}

fn print_counts<W: fmt::Write>(f: &mut fmt::Formatter<W>, counts: &CountPart<'_>) -> fmt::Result {
    let (events, commits, connections) = (counts.events, counts.commits, counts.connections);
    writeln!(
        f,
        "counts    {events} events in {commits} batches, {connections} connections"
    )?;
    if let Some(
        SkipPart {
            withheld,
            sent,
            heard,
        },
    ) = counts.skips
    {
        writeln!(
            f,
            "skips     {withheld} posts withheld, {sent} skips sent, {heard} heard"
        )?;
    }
    let (asked, refused) = (Named(counts.asks), Named(counts.refusals));
    writeln!(f, "asked     {asked}\nrefused   {refused}")
}

fn print_disk<W: fmt::Write>(f: &mut fmt::Formatter<W>, status: &Status<'_>) -> fmt::Result {
    let (disk, syncs) = (&status.disk, &status.syncs);
    let side = Harmless(disk.side);
    let (generation, bytes) = (disk.generation, disk.bytes);
    let (records, events) = (disk.records, disk.events);
    let (count, mean, half) = (syncs.count, syncs.mean_us, syncs.p50_us);
    let (most, worst) = (syncs.p99_us, syncs.worst_us);
    writeln!(
        f,
        "disk      side {side}, generation {generation}, {bytes} bytes, {records} records, {events} events\nsyncs     {count}, mean {mean} us, p50 {half} us, p99 {most} us, worst {worst} us"
    )
}

fn print_peers<W: fmt::Write>(f: &mut fmt::Formatter<W>, status: &Status<'_>) -> fmt::Result {
    for peer in status.peers {
        if let Some(peer) = PeerPart::of(peer) {
            print_peer(f, &peer, status.now)?;
        }
    }
    Ok(())
}

fn print_peer<W: fmt::Write>(
    f: &mut fmt::Formatter<W>,
    peer: &PeerPart<'_>,
    now: u64,
) -> fmt::Result {
    let id = peer.id;
    let (at, address) = match peer.address {
        Some(address) => (" at ", address),
        None => (" without an address", ""),
    };
    let address = Harmless(address);
    write!(f, "peer      {id}{at}{address}")?;
    print_contact(f, peer, now)?;
    let (behind, acknowledged, heard) = (peer.behind, peer.acknowledged, peer.heard);
    writeln!(
        f,
        ", behind by {behind}, acknowledged {acknowledged}, heard {heard}"
    )
}

// Whether a peer is there. One that is connected may be absent all the same: it acknowledges nothing.
fn print_contact<W: fmt::Write>(
    f: &mut fmt::Formatter<W>,
    peer: &PeerPart<'_>,
    now: u64,
) -> fmt::Result {
    match (peer.absent_since, peer.connected_since) {
        (Some(since), _) => write!(f, ", absent for {} s", seconds_since(since, now)),
        (None, Some(since)) => write!(f, ", connected for {} s", seconds_since(since, now)),
        (None, None) => write!(f, ", not connected"),
    }?;
    write!(f, "{}", if peer.is_silent { ", silent" } else { "" })?;
    match peer.trouble {
        Some(words) => write!(f, ", {}", Harmless(words)),
        None => Ok(()),
    }
}

fn print_rows<W: fmt::Write>(f: &mut fmt::Formatter<W>, rows: &[Value]) -> fmt::Result {
    for row in rows {
        if let Some(row) = RowPart::of(row) {
            print_row(f, &row)?;
        }
    }
    Ok(())
}

fn print_row<W: fmt::Write>(f: &mut fmt::Formatter<W>, row: &RowPart<'_>) -> fmt::Result {
    let (node, number, max) = (row.node, row.number, row.max);
    let flag = if row.flag { "yes" } else { "no" };
    let (base, text) = match row.text {
        RowText::Plain(text) => ("", text),
        RowText::Base64(text) => ("base64 ", text),
    };
    let (text, set) = (Quoted(text), Numbers(row.set));
    writeln!(
        f,
        "row       {node}, number {number}, text {base}{text}, max {max}, flag {flag}, set {set}"
    )
}

// How many whole seconds lie between two moments, 0 where the clock went back.
fn seconds_since(since: u64, now: u64) -> u64 {
    now.saturating_sub(since) / 1000
}
