//! What a node shows of itself, as the members of a JSON object. Moments are milliseconds since 1970 by the node's clock.
//! What may exceed 2^53 is a `Wide`, which JSON has as a string.

use crate::wide::Wide;
use serde::Serialize;
use std::collections::BTreeMap;

/// What a node shows of itself.
#[derive(Drop, Serialize)]
pub struct Status {
    pub id: u32,
    /// The program's version.
    pub version: String,
    /// When the node was started, and when this was laid out.
    pub started: u64,
    pub now: u64,
    /// `apart` before it has entered, `entered`, `joined` or `left`.
    pub standing: String,
    /// Whether it has joined, and enough members are neither silent nor absent for an operation to end.
    pub is_ready: bool,
    /// Why it isn't ready. Empty where it is.
    pub reason: String,
    pub quorum: QuorumStatus,
    /// Who joined and hasn't left, who entered and hasn't left, and who left.
    pub members: Vec<u32>,
    pub present: Vec<u32>,
    pub left: Vec<u32>,
    /// What each node stored last, as far as this one has seen.
    pub view: Vec<RowStatus>,
    /// The round under way.
    pub round: Option<RoundStatus>,
    /// How many asks wait behind it, and how many may begin together.
    pub waiting: u64,
    pub share: u64,
    pub sessions: Vec<SessionStatus>,
    pub session_limit: u64,
    pub posts: PostStatus,
    pub peers: Vec<PeerStatus>,
    pub disk: DiskStatus,
    pub counts: Counts,
    pub syncs: SyncStatus,
}

/// How many members answer an operation that begins now.
#[derive(Drop, Serialize)]
pub struct QuorumStatus {
    /// The fraction of the members that answer an operation, and that of those present whose echoes an entrant waits for.
    pub beta: String,
    pub gamma: String,
    pub members: u64,
    pub need: u64,
    pub may_be_away: u64,
    /// How many members are silent or absent.
    pub away: u64,
}

/// The last write of a node.
#[derive(Drop, Serialize)]
pub struct RowStatus {
    pub node: u32,
    pub number: Wide,
    /// The text where it is UTF-8; else its bytes in base64, and no `text`.
    #[serde(skip_serializing_if = "Option::is_none")]
    pub text: Option<String>,
    #[serde(skip_serializing_if = "Option::is_none")]
    pub text_base64: Option<String>,
    pub max: Wide,
    pub flag: bool,
    pub set: Vec<u32>,
}

/// The round under way: the first of its asks, how many others it has, and how many of the answers that it needs came.
#[derive(Drop, Serialize)]
pub struct RoundStatus {
    /// `Storing`, `Querying` or `StoringBack`.
    pub phase: String,
    pub session: Wide,
    pub request: Wide,
    pub others: u64,
    pub answers: u64,
    pub need: u64,
    /// Since when it has been under way, to the second.
    pub since: u64,
}

/// A session, and its last request.
#[derive(Clone, Copy, Serialize)]
pub struct SessionStatus {
    pub session: Wide,
    pub request: Wide,
}

/// How many posts a node has made, how many it keeps for peers that haven't acknowledged them, and how many it may keep.
#[derive(Clone, Copy, Serialize)]
pub struct PostStatus {
    pub made: Wide,
    pub kept: u64,
    pub limit: u64,
}

/// A node to which there is a link.
#[derive(Drop, Serialize)]
pub struct PeerStatus {
    pub id: u32,
    /// Where it listens. None for one that isn't named among the peers.
    pub address: Option<String>,
    /// Since when this node is connected to it, and since when it is taken for absent.
    pub connected_since: Option<u64>,
    pub absent_since: Option<u64>,
    /// Whether it is silent: no open connection brings its frames, or none has come for three seconds.
    pub is_silent: bool,
    /// Why the node and the peer don't take each other, in words behind the peer's name. None where they do.
    pub trouble: Option<String>,
    /// How many posts it hasn't acknowledged, up to which number it has, and the last one that came from it.
    pub behind: Wide,
    pub acknowledged: Wide,
    pub heard: Wide,
    /// When it was heard last.
    pub last_heard: Option<u64>,
}

/// The side in use.
#[derive(Drop, Serialize)]
pub struct DiskStatus {
    pub side: String,
    pub generation: Wide,
    pub bytes: u64,
    /// How many records count behind its state, and how many events they hold.
    pub records: u64,
    pub events: u64,
}

/// What was counted since the start.
#[derive(Drop, Serialize)]
pub struct Counts {
    pub commits: u64,
    pub events: u64,
    pub checkpoints: u64,
    /// How many connections are open.
    pub connections: u64,
    /// How many posts were withheld from peers that they aren't for, and how many skips told of such posts, sent and heard.
    pub withheld: u64,
    pub skips_sent: u64,
    pub skips_heard: u64,
    /// How many events were refused, by the refusal's name, and how many asks were accepted, by their command.
    pub refusals: BTreeMap<String, u64>,
    pub asks: BTreeMap<String, u64>,
    /// How many batches had no more than so many events, each pair a bound and a count.
    pub batches: Vec<(u64, u64)>,
}

/// How long syncs took, in microseconds.
#[derive(Drop, Serialize)]
pub struct SyncStatus {
    pub count: u64,
    pub total_us: u64,
    pub mean_us: u64,
    /// A half and 99 of 100 took no longer than so long.
    pub p50_us: u64,
    pub p99_us: u64,
    pub worst_us: u64,
    /// How many took no longer than so long, each pair a bound and a count.
    pub buckets: Vec<(u64, u64)>,
}
