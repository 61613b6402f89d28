//! The greeting of a connection between nodes.

ghost use Rattle.std.specs.Prelude.{◌≡◌, ◌↔◌, ◌<◌, ◌^◌, ◌∷◌, ◌++◌, [], IsSome, IfSome, OnOk};
ghost use Rattle.std.specs.Int.{w64, to_be_bytes};
ghost use Rattle.cc_changes.specs.Need.{IsShare};
ghost use Rattle.cc_wire.specs.Readers.{Gives};
ghost use Rattle.cc_wire.specs.Writers.{Writes};
ghost use Rattle.cc_wire.specs.Spellings.{text_spelling, IsId};
ghost use Rattle.cc_connections.specs.Hellos.{IsName, cluster_at, quorum_spelling, IsQuorum, quorum_at, hello_spelling, IsHello, hello_at};
ghost use Rattle.cc_connections.specs.Hellos.{nodes_spelling, quorums_spelling, nodes_at, quorums_at, marks_at};
ghost use Rattle.cc_connections.specs.Hellos.{reason_spelling, reason_at, unwelcome_spelling, unwelcome_at};

use crate::clusters::{ClusterName, NameFault};
use cc_changes::Fraction;
use cc_views::NodeId;
use cc_wire::{Reader, WireFault, put_id, put_u8, put_u32, put_u64};
use std::alloc::AllocError;
use std::marker::Model;

/// A share that nodes count by: above 0, and at most 1 (CCC, the fractions β and γ).
#[derive(Clone, Copy, PartialEq, Eq)]
pub struct Quorum {
    share: Fraction,
}

impl Model for Quorum {
    ghost use Rattle.cc_changes.specs.declared.fraction.Fraction.{Fraction as Share};
    ghost use Rattle.cc_changes.specs.Need.{IsShare};

    ghost Value = { Share };

    ghost view = { λ q. q.share };

    ghost invariant = { λ q. IsShare q.share };

    ghost inverse = { λ share. record { share = share } };
}

impl Quorum {
    /// None where the fraction is 0, or more than the whole.
    pub fn new(share: Fraction) -> Option<Self>
        ensures some { IsSome result ↔ IsShare share }
        ensures share { IfSome result (λ q. q ≡ share) }
    {
        if !share.is_share() {
            return None;
        }
        Some(Quorum { share })
    }

    /// The fraction, as it was given.
    pub fn share(self) -> Fraction
        ensures share { result ≡ self }
        ensures is_share { IsShare self }
    {
        self.share
    }
}

/// What a node greets another with, over each connection that it makes to it.
#[derive(Clone, Copy)]
pub struct Hello {
    /// The name of its cluster.
    pub cluster: ClusterName,
    /// Its own id.
    pub from: NodeId,
    /// The id of the node that it takes the other for.
    pub to: NodeId,
    /// The shares that it counts by.
    pub beta: Quorum,
    pub gamma: Quorum,
    /// What its folder got when it was formatted: 64 random bits, or 0 where it has no name of a cluster.
    pub birth: u64,
    /// 64 random bits that it took when it was started.
    pub run: u64,
    /// The last number of the receiver's posts that it has taken in.
    pub heard: u64,
}

/// Why a node doesn't take another. The first that holds is told.
#[derive(Clone, Copy, Debug, PartialEq, Eq)]
pub enum Reason {
    /// The names of their clusters differ.
    OtherCluster,
    /// The other takes it for a node of another id.
    OtherNode,
    /// The other has its own id.
    OwnId,
    /// A node of that id was welcomed whose folder was formatted another time.
    OtherBirth,
    /// They count by other shares.
    OtherQuorums,
    /// The other has left.
    HasLeft,
}

// The name of a cluster.
#[tactic(auto, unfolding(crate::specs::Hellos::cluster_at, cc_wire::specs::Readers::text_at))]
fn read_cluster(reader: &mut Reader<'_>) -> Result<ClusterName, WireFault>
    ensures { Gives (λ x. (x, reader.new)) result (cluster_at reader.old) }
{
    let len = usize::from(reader.u8()?);
    if len > ClusterName::MAX_LEN {
        return Err(WireFault::TooLarge);
    }
    let bytes = reader.bytes(len)?;
    match ClusterName::new(bytes) {
        Ok(name) => Ok(name),
        Err(NameFault::BadByte(byte)) => Err(WireFault::BadKind(byte)),
        Err(NameFault::TooLong) => Err(WireFault::TooLarge),
    }
}

// A share that nodes count by. NotAscending where it is none.
#[tactic(auto, unfolding(crate::specs::Hellos::quorum_at))]
fn read_quorum(reader: &mut Reader<'_>) -> Result<Quorum, WireFault>
    ensures { Gives (λ x. (x, reader.new)) result (quorum_at reader.old) }
{
    let num = reader.u32()?;
    let den = reader.u32()?;
    Quorum::new(Fraction { num, den }).ok_or(WireFault::NotAscending)
}

// Who greets, and whom.
fn read_nodes(reader: &mut Reader<'_>) -> Result<(NodeId, NodeId), WireFault>
    ensures { Gives (λ x. (x, reader.new)) result (nodes_at reader.old) }
{
    let from = reader.id(1)?;
    let to = reader.id(1)?;
    Ok((from, to))
}

// What both count by.
fn read_quorums(reader: &mut Reader<'_>) -> Result<(Quorum, Quorum), WireFault>
    ensures { Gives (λ x. (x, reader.new)) result (quorums_at reader.old) }
{
    let beta = read_quorum(reader)?;
    let gamma = read_quorum(reader)?;
    Ok((beta, gamma))
}

// The birth, the run, and what was heard.
fn read_marks(reader: &mut Reader<'_>) -> Result<(u64, (u64, u64)), WireFault>
    ensures { Gives (λ x. (x, reader.new)) result (marks_at reader.old) }
{
    let birth = reader.u64()?;
    let run = reader.u64()?;
    let heard = reader.u64()?;
    Ok((birth, (run, heard)))
}

#[tactic(auto, unfolding(crate::specs::Hellos::hello_at))]
pub(crate) fn read_hello(reader: &mut Reader<'_>) -> Result<Hello, WireFault>
    ensures { Gives (λ x. (x, reader.new)) result (hello_at reader.old) }
{
    let cluster = read_cluster(reader)?;
    let (from, to) = read_nodes(reader)?;
    let (beta, gamma) = read_quorums(reader)?;
    let (birth, (run, heard)) = read_marks(reader)?;
    Ok(Hello {
        cluster,
        from,
        to,
        beta,
        gamma,
        birth,
        run,
        heard,
    })
}

#[tactic(auto, unfolding(crate::specs::Hellos::reason_at))]
fn read_reason(reader: &mut Reader<'_>) -> Result<Reason, WireFault>
    ensures { Gives (λ x. (x, reader.new)) result (reason_at reader.old) }
{
    match reader.u8()? {
        1 => Ok(Reason::OtherCluster),
        2 => Ok(Reason::OtherNode),
        3 => Ok(Reason::OwnId),
        4 => Ok(Reason::OtherBirth),
        5 => Ok(Reason::OtherQuorums),
        6 => Ok(Reason::HasLeft),
        kind => Err(WireFault::BadKind(kind)),
    }
}

// The reason, and the node that doesn't take the other.
pub(crate) fn read_unwelcome(reader: &mut Reader<'_>) -> Result<(Reason, NodeId), WireFault>
    ensures { Gives (λ x. (x, reader.new)) result (unwelcome_at reader.old) }
{
    let reason = read_reason(reader)?;
    let node = reader.id(1)?;
    Ok((reason, node))
}

fn put_cluster(out: &mut Vec<u8>, cluster: &ClusterName) -> Result<(), AllocError>
    ensures writes { Writes out.old out.new (text_spelling cluster.now) result }
    ensures fits { IsName cluster.now }
{
    let bytes = cluster.as_bytes();
    put_u8(out, bytes.len() as u8)?;
    out.extend_from_slice(bytes)
}

fn put_quorum(out: &mut Vec<u8>, quorum: Quorum) -> Result<(), AllocError>
    ensures writes { Writes out.old out.new (quorum_spelling quorum) result }
    ensures fits { IsQuorum quorum }
{
    let share = quorum.share();
    put_u32(out, share.num)?;
    put_u32(out, share.den)
}

fn put_nodes(out: &mut Vec<u8>, hello: &Hello) -> Result<(), AllocError>
    ensures writes { Writes out.old out.new (nodes_spelling hello.now) result }
    ensures sender { OnOk result (IsId hello.now.from) }
    ensures receiver { OnOk result (IsId hello.now.to) }
{
    put_id(out, hello.from)?;
    put_id(out, hello.to)
}

fn put_quorums(out: &mut Vec<u8>, hello: &Hello) -> Result<(), AllocError>
    ensures writes { Writes out.old out.new (quorums_spelling hello.now) result }
    ensures beta { OnOk result (IsQuorum hello.now.beta) }
    ensures gamma { OnOk result (IsQuorum hello.now.gamma) }
{
    put_quorum(out, hello.beta)?;
    put_quorum(out, hello.gamma)
}

fn put_marks(out: &mut Vec<u8>, birth: u64, run: u64, heard: u64) -> Result<(), AllocError>
    ensures writes { Writes out.old out.new (to_be_bytes w64 birth ++ (to_be_bytes w64 run ++ to_be_bytes w64 heard)) result }
    ensures birth { birth < 2 ^ 64 }
    ensures run { run < 2 ^ 64 }
    ensures heard { heard < 2 ^ 64 }
{
    put_u64(out, birth)?;
    put_u64(out, run)?;
    put_u64(out, heard)
}

pub(crate) fn put_hello(out: &mut Vec<u8>, hello: &Hello) -> Result<(), AllocError>
    ensures writes { Writes out.old out.new (hello_spelling hello.now) result }
    ensures fits { OnOk result (IsHello hello.now) }
{
    put_cluster(out, &hello.cluster)?;
    put_nodes(out, hello)?;
    put_quorums(out, hello)?;
    put_marks(out, hello.birth, hello.run, hello.heard)
}

fn reason_number(reason: Reason) -> u8
    ensures { result ∷ [] ≡ reason_spelling reason }
{
    match reason {
        Reason::OtherCluster => 1,
        Reason::OtherNode => 2,
        Reason::OwnId => 3,
        Reason::OtherBirth => 4,
        Reason::OtherQuorums => 5,
        Reason::HasLeft => 6,
    }
}

pub(crate) fn put_unwelcome(
    out: &mut Vec<u8>,
    reason: Reason,
    node: NodeId,
) -> Result<(), AllocError>
    ensures writes { Writes out.old out.new (unwelcome_spelling reason node) result }
    ensures fits { OnOk result (IsId node) }
{
    put_u8(out, reason_number(reason))?;
    put_id(out, node)
}
