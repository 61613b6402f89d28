//! What is read of a node's status. It may have more members, and they are passed over. Moments are milliseconds since 1970 by
//! the node's clock. A number may be a string of digits, as those are that may exceed 2^53, but of older nodes.

use serde_json::{Map, Value};

/// What is read of a node's status. Its texts and lists are those of the JSON that it is read from.
#[derive(Clone, Copy)]
pub struct Status<'a> {
    pub id: u64,
    pub version: &'a str,
    pub now: u64,
    pub standing: &'a str,
    pub is_ready: bool,
    /// Why it isn't ready.
    pub reason: &'a str,
    pub quorum: QuorumPart<'a>,
    pub members: &'a [Value],
    pub left: &'a [Value],
    /// Each of them is read by `RowPart::of`.
    pub view: &'a [Value],
    pub round: Option<RoundPart<'a>>,
    /// How many asks wait behind the round.
    pub waiting: u64,
    pub sessions: &'a [Value],
    pub session_limit: u64,
    pub posts: PostPart,
    /// Each of them is read by `PeerPart::of`.
    pub peers: &'a [Value],
    pub disk: DiskPart<'a>,
    pub counts: CountPart<'a>,
    pub syncs: SyncPart,
}

/// How many members answer an operation.
#[derive(Clone, Copy)]
pub struct QuorumPart<'a> {
    pub beta: &'a str,
    pub gamma: &'a str,
    pub members: u64,
    pub need: u64,
    pub may_be_away: u64,
}

/// The last write of a node.
#[derive(Clone, Copy)]
pub struct RowPart<'a> {
    pub node: u64,
    pub number: u64,
    pub text: RowText<'a>,
    pub max: u64,
    pub flag: bool,
    pub set: &'a [Value],
}

/// The text of a row: as it is where it is UTF-8, else in Base64.
#[derive(Clone, Copy)]
pub enum RowText<'a> {
    Plain(&'a str),
    Base64(&'a str),
}

/// The pending round.
#[derive(Clone, Copy)]
pub struct RoundPart<'a> {
    pub phase: &'a str,
    pub session: u64,
    pub request: u64,
    pub others: u64,
    pub answers: u64,
    pub need: u64,
    pub since: u64,
}

/// The posts that were made, and those that are kept.
#[derive(Clone, Copy)]
pub struct PostPart {
    pub made: u64,
    pub kept: u64,
    pub limit: u64,
}

/// Another node.
#[derive(Clone, Copy)]
pub struct PeerPart<'a> {
    pub id: u64,
    pub address: Option<&'a str>,
    pub connected_since: Option<u64>,
    pub absent_since: Option<u64>,
    /// Whether nothing of it was heard for a while. An older node doesn't tell.
    pub is_silent: bool,
    /// Why the node and the peer don't take each other, in words behind the peer's name. None where they do, and where the node's
    /// program doesn't tell.
    pub trouble: Option<&'a str>,
    /// How many posts it hasn't acknowledged.
    pub behind: u64,
    pub acknowledged: u64,
    pub heard: u64,
}

/// The side in use.
#[derive(Clone, Copy)]
pub struct DiskPart<'a> {
    pub side: &'a str,
    pub generation: u64,
    pub bytes: u64,
    pub records: u64,
    pub events: u64,
}

/// What was counted since the start.
#[derive(Clone, Copy)]
pub struct CountPart<'a> {
    pub commits: u64,
    pub events: u64,
    pub connections: u64,
    /// None where the node's program knows no skips.
    pub skips: Option<SkipPart>,
    /// How many asks were accepted, by their command, and how many events were refused, by the refusal's name.
    pub asks: &'a Map<String, Value>,
    pub refusals: &'a Map<String, Value>,
}

/// How many posts were withheld from peers that they aren't for, and how many skips told of such posts.
#[derive(Clone, Copy)]
pub struct SkipPart {
    pub withheld: u64,
    pub sent: u64,
    pub heard: u64,
}

/// How long syncs took, in microseconds.
#[derive(Clone, Copy)]
pub struct SyncPart {
    pub count: u64,
    pub mean_us: u64,
    pub p50_us: u64,
    pub p99_us: u64,
    pub worst_us: u64,
}

fn text<'a>(value: &'a Value, name: &str) -> Option<&'a str> {
    value.get(name)?.as_str()
}

fn number(value: &Value, name: &str) -> Option<u64> {
    number_of(value.get(name)?)
}

// The numbers of these names.
fn numbers<const N: usize>(value: &Value, names: &[&str]) -> Option<[u64; N]> {
    let mut found = [0; N];
    for (place, name) in found.iter_mut().zip(names.iter()) {
        *place = number(value, name)?;
    }
    Some(found)
}

/// The number that a value is, or that its digits spell.
pub(crate) fn number_of(value: &Value) -> Option<u64> {
    match value.as_str() {
        Some(digits) => digits.parse().ok(),
        None => value.as_u64(),
    }
}

fn flag(value: &Value, name: &str) -> Option<bool> {
    value.get(name)?.as_bool()
}

fn list<'a>(value: &'a Value, name: &str) -> Option<&'a [Value]> {
    let items = value.get(name)?.as_array()?;
    Some(items.as_slice())
}

impl<'a> Status<'a> {
    /// What the JSON of a status says. None where a member is missing, or is no such value.
    pub fn of(value: &'a Value) -> Option<Self> {
        let [id, now, waiting, session_limit] = numbers::<4>(
            value,
            &["id", "now", "waiting", "session_limit"],
        )?;
        let texts = Texts::in_status(value)?;
        let lists = Lists::in_status(value)?;
        let parts = Parts::in_status(value)?;
        Some(Status {
            id,
            version: texts.version,
            now,
            standing: texts.standing,
            is_ready: flag(value, "is_ready")?,
            reason: texts.reason,
            quorum: parts.quorum,
            members: lists.members,
            left: lists.left,
            view: lists.view,
            round: round_in(value)?,
            waiting,
            sessions: lists.sessions,
            session_limit,
            posts: parts.posts,
            peers: lists.peers,
            disk: parts.disk,
            counts: parts.counts,
            syncs: parts.syncs,
        })
    }
}

// The texts of a status.
#[derive(Clone, Copy)]
struct Texts<'a> {
    version: &'a str,
    standing: &'a str,
    reason: &'a str,
}

impl<'a> Texts<'a> {
    fn in_status(status: &'a Value) -> Option<Self> {
        Some(Texts {
            version: text(status, "version")?,
            standing: text(status, "standing")?,
            reason: text(status, "reason")?,
        })
    }
}

// The lists of a status.
#[derive(Clone, Copy)]
struct Lists<'a> {
    members: &'a [Value],
    left: &'a [Value],
    view: &'a [Value],
    sessions: &'a [Value],
    peers: &'a [Value],
}

impl<'a> Lists<'a> {
    fn in_status(status: &'a Value) -> Option<Self> {
        Some(Lists {
            members: number_list(status, "members")?,
            left: number_list(status, "left")?,
            view: rows_in(status)?,
            sessions: list(status, "sessions")?,
            peers: peers_in(status)?,
        })
    }
}

// The parts that each status has, each with members of its own.
#[derive(Clone, Copy)]
struct Parts<'a> {
    quorum: QuorumPart<'a>,
    posts: PostPart,
    disk: DiskPart<'a>,
    counts: CountPart<'a>,
    syncs: SyncPart,
}

impl<'a> Parts<'a> {
    fn in_status(status: &'a Value) -> Option<Self> {
        Some(Parts {
            quorum: QuorumPart::in_status(status)?,
            posts: PostPart::in_status(status)?,
            disk: DiskPart::in_status(status)?,
            counts: CountPart::in_status(status)?,
            syncs: SyncPart::in_status(status)?,
        })
    }
}

// A list of numbers.
fn number_list<'a>(value: &'a Value, name: &str) -> Option<&'a [Value]> {
    let items = list(value, name)?;
    for item in items {
        number_of(item)?;
    }
    Some(items)
}

fn rows_in(value: &Value) -> Option<&[Value]> {
    let rows = list(value, "view")?;
    for row in rows {
        RowPart::of(row)?;
    }
    Some(rows)
}

fn peers_in(value: &Value) -> Option<&[Value]> {
    let peers = list(value, "peers")?;
    for peer in peers {
        PeerPart::of(peer)?;
    }
    Some(peers)
}

// The round, which may be none.
fn round_in(status: &Value) -> Option<Option<RoundPart<'_>>> {
    let value = status.get("round")?;
    if value.is_null() {
        return Some(None);
    }
    Some(Some(RoundPart::of(value)?))
}

impl<'a> QuorumPart<'a> {
    fn in_status(status: &'a Value) -> Option<Self> {
        let value = status.get("quorum")?;
        let [members, need, may_be_away] = numbers::<3>(
            value,
            &["members", "need", "may_be_away"],
        )?;
        Some(QuorumPart {
            beta: text(value, "beta")?,
            gamma: text(value, "gamma")?,
            members,
            need,
            may_be_away,
        })
    }
}

impl<'a> RowPart<'a> {
    /// What the JSON of a row says.
    pub fn of(value: &'a Value) -> Option<Self> {
        let [node, number, max] = numbers::<3>(value, &["node", "number", "max"])?;
        Some(RowPart {
            node,
            number,
            text: RowText::in_row(value)?,
            max,
            flag: flag(value, "flag")?,
            set: number_list(value, "set")?,
        })
    }
}

impl<'a> RowText<'a> {
    fn in_row(row: &'a Value) -> Option<Self> {
        match text(row, "text") {
            Some(text) => Some(RowText::Plain(text)),
            None => Some(RowText::Base64(text(row, "text_base64")?)),
        }
    }
}

impl<'a> RoundPart<'a> {
    fn of(value: &'a Value) -> Option<Self> {
        let [session, request, others] = numbers::<3>(value, &["session", "request", "others"])?;
        let [answers, need, since] = numbers::<3>(value, &["answers", "need", "since"])?;
        Some(RoundPart {
            phase: text(value, "phase")?,
            session,
            request,
            others,
            answers,
            need,
            since,
        })
    }
}

impl PostPart {
    fn in_status(status: &Value) -> Option<Self> {
        let [made, kept, limit] = numbers::<3>(status.get("posts")?, &["made", "kept", "limit"])?;
        Some(PostPart { made, kept, limit })
    }
}

impl<'a> PeerPart<'a> {
    /// What the JSON of a peer says. A peer without an address, or a moment, has none.
    pub fn of(value: &'a Value) -> Option<Self> {
        let [id, behind] = numbers::<2>(value, &["id", "behind"])?;
        let [acknowledged, heard] = numbers::<2>(value, &["acknowledged", "heard"])?;
        Some(PeerPart {
            id,
            address: text(value, "address"),
            connected_since: number(value, "connected_since"),
            absent_since: number(value, "absent_since"),
            is_silent: flag(value, "is_silent").unwrap_or(false),
            trouble: text(value, "trouble"),
            behind,
            acknowledged,
            heard,
        })
    }
}

impl<'a> DiskPart<'a> {
    fn in_status(status: &'a Value) -> Option<Self> {
        let value = status.get("disk")?;
        let [generation, bytes] = numbers::<2>(value, &["generation", "bytes"])?;
        let [records, events] = numbers::<2>(value, &["records", "events"])?;
        Some(DiskPart {
            side: text(value, "side")?,
            generation,
            bytes,
            records,
            events,
        })
    }
}

impl<'a> CountPart<'a> {
    fn in_status(status: &'a Value) -> Option<Self> {
        let value = status.get("counts")?;
        let [commits, events, connections] = numbers::<3>(
            value,
            &["commits", "events", "connections"],
        )?;
        Some(CountPart {
            commits,
            events,
            connections,
            skips: SkipPart::in_counts(value),
            asks: value.get("asks")?.as_object()?,
            refusals: value.get("refusals")?.as_object()?,
        })
    }
}

impl SkipPart {
    fn in_counts(counts: &Value) -> Option<Self> {
        let names = ["withheld", "skips_sent", "skips_heard"];
        let [withheld, sent, heard] = numbers::<3>(counts, &names)?;
        Some(SkipPart {
            withheld,
            sent,
            heard,
        })
    }
}

impl SyncPart {
    fn in_status(status: &Value) -> Option<Self> {
        let value = status.get("syncs")?;
        let [count, mean_us] = numbers::<2>(value, &["count", "mean_us"])?;
        let [p50_us, p99_us, worst_us] = numbers::<3>(value, &["p50_us", "p99_us", "worst_us"])?;
        Some(SyncPart {
            count,
            mean_us,
            p50_us,
            p99_us,
            worst_us,
        })
    }
}
