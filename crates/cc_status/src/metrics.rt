//! What a node shows, in the text format of Prometheus: counters end in `_total`, times are in seconds, lengths in bytes.

use crate::status::{Counts, PeerStatus, Status, SyncStatus};
use std::collections::BTreeMap;
use std::fmt;

/// What is shown of a node, as metrics.
#[derive(Clone, Copy)]
pub struct Metrics<'a>(pub &'a Status);

impl fmt::Display for Metrics<'_> {
    fn fmt<W: fmt::Write>(&self, f: &mut fmt::Formatter<W>) -> fmt::Result {
        let status = self.0;
        print_node(f, status)?;
        print_clients(f, status)?;
        print_counts(f, status)?;
        print_named(f, &status.counts)?;
        print_batches(f, &status.counts)?;
        print_peers(f, &status.peers)?;
        print_disk(f, status)?;
        print_syncs(f, &status.syncs)
    }
}

// What a metric's value says.
#[derive(Clone, Copy)]
enum Kind {
    Counter,
    Gauge,
    Histogram,
}

impl Kind {
    fn name(self) -> &'static str {
        match self {
            Kind::Counter => "counter",
            Kind::Gauge => "gauge",
            Kind::Histogram => "histogram",
        }
    }
}

fn print_head<W: fmt::Write>(
    f: &mut fmt::Formatter<W>,
    name: &str,
    kind: Kind,
    help: &str,
) -> fmt::Result {
    let kind = kind.name();
    write!(
        f,
        "# HELP ccnode_{name} {help}\n# TYPE ccnode_{name} {kind}\n"
    )
}

// A metric that has one value.
#[derive(Clone, Copy)]
struct Metric {
    name: &'static str,
    kind: Kind,
    help: &'static str,
    value: u64,
}

fn counter(name: &'static str, help: &'static str, value: u64) -> Metric {
    Metric {
        name,
        kind: Kind::Counter,
        help,
        value,
    }
}

fn gauge(name: &'static str, help: &'static str, value: u64) -> Metric {
    Metric {
        name,
        kind: Kind::Gauge,
        help,
        value,
    }
}

fn print_values<W: fmt::Write>(f: &mut fmt::Formatter<W>, metrics: &[Metric]) -> fmt::Result {
    for metric in metrics {
        print_head(f, metric.name, metric.kind, metric.help)?;
        let (name, value) = (metric.name, metric.value);
        write!(f, "ccnode_{name} {value}\n")?;
    }
    Ok(())
}

fn print_node<W: fmt::Write>(f: &mut fmt::Formatter<W>, status: &Status) -> fmt::Result {
    print_info(f, status)?;
    print_start(f, status)?;
    let (ready, present) = (u64::from(status.is_ready), status.present.len() as u64);
    let quorum = &status.quorum;
    print_values(
        f,
        &[
            gauge(
                "ready",
                "Whether it has joined and enough members are neither silent nor absent.",
                ready,
            ),
            gauge(
                "members",
                "Nodes that joined and haven't left.",
                quorum.members,
            ),
            gauge(
                "members_needed",
                "Members that answer an operation.",
                quorum.need,
            ),
            gauge(
                "members_away",
                "Members that are silent or absent.",
                quorum.away,
            ),
            gauge("present", "Nodes that entered and haven't left.", present),
        ],
    )
}

fn print_info<W: fmt::Write>(f: &mut fmt::Formatter<W>, status: &Status) -> fmt::Result {
    let help = "The node, its version, and where it stands.";
    print_head(f, "info", Kind::Gauge, help)?;
    let id = status.id;
    let version = status.version.as_str();
    let standing = status.standing.as_str();
    write!(
        f,
        "ccnode_info{{id=\"{id}\",version=\"{version}\",standing=\"{standing}\"}} 1\n"
    )
}

fn print_start<W: fmt::Write>(f: &mut fmt::Formatter<W>, status: &Status) -> fmt::Result {
    let help = "When the node was started, since 1970.";
    print_head(f, "start_time_seconds", Kind::Gauge, help)?;
    let (seconds, rest) = (status.started / 1000, status.started % 1000);
    write!(f, "ccnode_start_time_seconds {seconds}.{rest:03}\n")
}

fn print_clients<W: fmt::Write>(f: &mut fmt::Formatter<W>, status: &Status) -> fmt::Result {
    let (rows, used) = (status.view.len() as u64, status.sessions.len() as u64);
    let (waiting, limit) = (status.waiting, status.session_limit);
    let is_active = u64::from(status.round.is_some());
    print_values(
        f,
        &[
            gauge("view_rows", "Nodes whose writes were seen.", rows),
            gauge("round_active", "Whether a round is under way.", is_active),
            gauge("waiting_asks", "Asks behind the round.", waiting),
            gauge("sessions_used", "Sessions served.", used),
            gauge(
                "sessions_limit",
                "Sessions that a node serves in its life.",
                limit,
            ),
            gauge(
                "connections",
                "Connections that are open.",
                status.counts.connections,
            ),
        ],
    )
}

fn print_counts<W: fmt::Write>(f: &mut fmt::Formatter<W>, status: &Status) -> fmt::Result {
    let (counts, posts) = (&status.counts, status.posts);
    print_values(
        f,
        &[
            counter(
                "events_total",
                "Events made durable since the start.",
                counts.events,
            ),
            counter(
                "commits_total",
                "Batches made durable since the start.",
                counts.commits,
            ),
            counter(
                "checkpoints_total",
                "Checkpoints since the start.",
                counts.checkpoints,
            ),
            counter(
                "posts_total",
                "Posts made in the node's life.",
                posts.made.0,
            ),
            counter(
                "posts_withheld_total",
                "Posts not sent to a peer, since they are for another, since the start.",
                counts.withheld,
            ),
            counter(
                "skips_sent_total",
                "Times a peer was told of such posts, since the start.",
                counts.skips_sent,
            ),
            counter(
                "skips_heard_total",
                "Times a peer told of such posts, since the start.",
                counts.skips_heard,
            ),
            gauge("posts_kept", "Posts kept for peers.", posts.kept),
            gauge(
                "posts_limit",
                "Posts that a node keeps at most.",
                posts.limit,
            ),
        ],
    )
}

fn print_named<W: fmt::Write>(f: &mut fmt::Formatter<W>, counts: &Counts) -> fmt::Result {
    let refusals = (
        "refusals_total",
        "refusal",
        "Events refused since the start.",
    );
    let asks = ("asks_total", "command", "Asks accepted since the start.");
    print_by_name(f, refusals, &counts.refusals)?;
    print_by_name(f, asks, &counts.asks)
}

// A counter for each name: what it is called, the label that has the name, and its help.
fn print_by_name<W: fmt::Write>(
    f: &mut fmt::Formatter<W>,
    (counter, label, help): (&str, &str, &str),
    counts: &BTreeMap<String, u64>,
) -> fmt::Result {
    print_head(f, counter, Kind::Counter, help)?;
    for (name, count) in counts.iter() {
        let name = name.as_str();
        write!(f, "ccnode_{counter}{{{label}=\"{name}\"}} {count}\n")?;
    }
    Ok(())
}

// What is told of each peer.
#[derive(Clone, Copy)]
enum PeerGauge {
    Behind,
    Silent,
    Absent,
    Connected,
    Refused,
}

impl PeerGauge {
    fn name(self) -> &'static str {
        match self {
            PeerGauge::Behind => "peer_behind_posts",
            PeerGauge::Silent => "peer_silent",
            PeerGauge::Absent => "peer_absent",
            PeerGauge::Connected => "peer_connected",
            PeerGauge::Refused => "peer_refused",
        }
    }

    fn help(self) -> &'static str {
        match self {
            PeerGauge::Behind => "Posts that a peer hasn't acknowledged.",
            PeerGauge::Silent => "Whether no frame of a peer has come for three seconds.",
            PeerGauge::Absent => "Whether a peer is taken for absent.",
            PeerGauge::Connected => "Whether the node is connected to a peer.",
            PeerGauge::Refused => "Whether the node and a peer don't take each other.",
        }
    }

    fn of(self, peer: &PeerStatus) -> u64 {
        match self {
            PeerGauge::Behind => peer.behind.0,
            PeerGauge::Silent => u64::from(peer.is_silent),
            PeerGauge::Absent => u64::from(peer.absent_since.is_some()),
            PeerGauge::Connected => u64::from(peer.connected_since.is_some()),
            PeerGauge::Refused => u64::from(peer.trouble.is_some()),
        }
    }
}

fn print_peers<W: fmt::Write>(f: &mut fmt::Formatter<W>, peers: &[PeerStatus]) -> fmt::Result {
    print_of_peers(f, PeerGauge::Behind, peers)?;
    print_of_peers(f, PeerGauge::Silent, peers)?;
    print_of_peers(f, PeerGauge::Absent, peers)?;
    print_of_peers(f, PeerGauge::Connected, peers)?;
    print_of_peers(f, PeerGauge::Refused, peers)
}

fn print_of_peers<W: fmt::Write>(
    f: &mut fmt::Formatter<W>,
    gauge: PeerGauge,
    peers: &[PeerStatus],
) -> fmt::Result {
    let name = gauge.name();
    print_head(f, name, Kind::Gauge, gauge.help())?;
    for peer in peers {
        let (id, value) = (peer.id, gauge.of(peer));
        write!(f, "ccnode_{name}{{peer=\"{id}\"}} {value}\n")?;
    }
    Ok(())
}

fn print_disk<W: fmt::Write>(f: &mut fmt::Formatter<W>, status: &Status) -> fmt::Result {
    let disk = &status.disk;
    print_values(
        f,
        &[
            gauge("side_bytes", "How long the side in use is.", disk.bytes),
            gauge(
                "side_generation",
                "The generation in use.",
                disk.generation.0,
            ),
            gauge("side_records", "Records behind the state.", disk.records),
        ],
    )
}

fn print_batches<W: fmt::Write>(f: &mut fmt::Formatter<W>, counts: &Counts) -> fmt::Result {
    let name = "batch_events";
    print_head(f, name, Kind::Histogram, "Events of a batch.")?;
    print_buckets(f, name, Unit::One, &counts.batches)?;
    print_sum(f, name, Unit::One, counts.events, counts.commits)
}

fn print_syncs<W: fmt::Write>(f: &mut fmt::Formatter<W>, syncs: &SyncStatus) -> fmt::Result {
    let name = "sync_seconds";
    print_head(f, name, Kind::Histogram, "How long syncs took.")?;
    print_buckets(f, name, Unit::Microsecond, &syncs.buckets)?;
    print_sum(f, name, Unit::Microsecond, syncs.total_us, syncs.count)
}

// What a histogram counts in.
#[derive(Clone, Copy)]
enum Unit {
    One,
    Microsecond,
}

// So many of a unit, as a metric has it: microseconds are told in seconds.
#[derive(Clone, Copy)]
struct Amount(u64, Unit);

impl fmt::Display for Amount {
    fn fmt<W: fmt::Write>(&self, f: &mut fmt::Formatter<W>) -> fmt::Result {
        let amount = self.0;
        let (seconds, rest) = (amount / 1_000_000, amount % 1_000_000);
        match self.1 {
            Unit::One => write!(f, "{amount}"),
            Unit::Microsecond => write!(f, "{seconds}.{rest:06}"),
        }
    }
}

// How many were no more than each bound.
fn print_buckets<W: fmt::Write>(
    f: &mut fmt::Formatter<W>,
    name: &str,
    unit: Unit,
    buckets: &[(u64, u64)],
) -> fmt::Result {
    for (bound, count) in buckets {
        let bound = Amount(*bound, unit);
        write!(f, "ccnode_{name}_bucket{{le=\"{bound}\"}} {count}\n")?;
    }
    Ok(())
}

// All together, and how many there were.
fn print_sum<W: fmt::Write>(
    f: &mut fmt::Formatter<W>,
    name: &str,
    unit: Unit,
    sum: u64,
    count: u64,
) -> fmt::Result {
    let sum = Amount(sum, unit);
    write!(
        f,
        "ccnode_{name}_bucket{{le=\"+Inf\"}} {count}\nccnode_{name}_sum {sum}\nccnode_{name}_count {count}\n"
    )
}
