//! Whether a node is ready, and what it waits for.

ghost use Rattle.std.specs.Prelude.{◌≡◌, ◌-◌, ◌&&◌, not, nat_le, OnOk};
ghost use Rattle.cc_views.specs.NatSets as set;
ghost use Rattle.cc_changes.specs.ChangeSets.{members};
ghost use Rattle.cc_churn.specs.Churn.{has_joined, has_left};
ghost use Rattle.cc_status.specs.Readiness.{away};

use crate::live::{Live, PeerNote, Shown, count_away};
use crate::status::{QuorumStatus, RoundStatus};
use crate::wide::Wide;
use cc_changes::Fraction;
use cc_node::Core;
use cc_ops::{Pending, Stage};
use cc_views::NoMemory;
use std::alloc::Global;

/// Where a node stands in its life.
#[derive(Clone, Copy)]
pub(crate) enum Readiness {
    Apart,
    Entered,
    Joined,
    Left,
}

impl Readiness {
    pub(crate) fn of(core: &Core) -> Self {
        let me = core.me();
        if core.churn().has_left(me) {
            Readiness::Left
        } else if core.is_joined() {
            Readiness::Joined
        } else if core.churn().has_entered(me) {
            Readiness::Entered
        } else {
            Readiness::Apart
        }
    }

    pub(crate) fn name(self) -> &'static str {
        match self {
            Readiness::Apart => "apart",
            Readiness::Entered => "entered",
            Readiness::Joined => "joined",
            Readiness::Left => "left",
        }
    }
}

/// How many members there are, how many of them have to answer an operation that begins now, and how many are away.
#[derive(Clone, Copy)]
pub(crate) struct Quorum {
    members: u64,
    need: u64,
    away: u64,
}

impl Quorum {
    // These are the members' ids.
    pub(crate) fn of(shown: &Shown, ids: &[u32], notes: &[PeerNote]) -> Self
        requires { ids.now ≡ set.items (members shown.now.core.churn.changes) }
        ensures members { result.members ≡ set.len (members shown.now.core.churn.changes) }
        ensures need { result.need ≡ shown.now.need }
        ensures away { result.away ≡ away shown.now.core notes.now }
    {
        Quorum {
            members: shown.core.churn().changes().member_count(),
            need: shown.need,
            away: count_away(ids, shown.core.me(), notes),
        }
    }

    // Whether enough members aren't away.
    fn is_met(self) -> bool
        ensures { result ≡ nat_le self.need (self.members - self.away) }
    {
        self.need <= self.members.saturating_sub(self.away)
    }
}

/// Whether a node has joined and hasn't left, and enough members aren't away.
pub(crate) fn is_ready(core: &Core, quorum: Quorum) -> bool
    ensures { result ≡ ((has_joined core.now.me core.now.churn && not (has_left core.now.me core.now.churn))
        && nat_le quorum.need (quorum.members - quorum.away)) }
{
    core.is_joined() && !core.churn().has_left(core.me()) && quorum.is_met()
}

/// Adds why a node isn't ready, of which these are the members.
pub(crate) fn put_reason(
    core: &Core,
    members: &[u32],
    notes: &[PeerNote],
    quorum: Quorum,
    reason: &mut String,
) -> Result<(), NoMemory> {
    let text = match Readiness::of(core) {
        Readiness::Apart => "it hasn't entered yet",
        Readiness::Entered => "it hasn't joined yet",
        Readiness::Left => "it has left",
        Readiness::Joined => {
            let are_silent = !notes.iter().any(|note| is_absent_alone(note, members));
            return put_absence(quorum, are_silent, reason);
        }
    };
    reason.push_str(text)?;
    Ok(())
}

// Whether one of the members is absent and not silent.
fn is_absent_alone(note: &PeerNote, members: &[u32]) -> bool {
    note.absent_since.is_some() && !note.is_silent && members.contains(&note.peer.number())
}

// Adds that too many members are away, and whether all of these are silent.
fn put_absence(quorum: Quorum, are_silent: bool, reason: &mut String) -> Result<(), NoMemory> {
    let Quorum {
        members,
        need,
        away,
    } = quorum;
    let how = if are_silent {
        "silent"
    } else {
        "silent or absent"
    };
    write!(
        reason,
        "{away} of {members} members are {how}, and {need} have to answer"
    )?;
    Ok(())
}

/// Tells how many members have to answer an operation that begins now, and how many are away.
pub(crate) fn put_quorum(
    core: &Core,
    quorum: Quorum,
    status: &mut QuorumStatus,
) -> Result<(), NoMemory>
    ensures members { OnOk result (status.new.members ≡ quorum.members) }
    ensures need { OnOk result (status.new.need ≡ quorum.need) }
    ensures away { OnOk result (status.new.away ≡ quorum.away) }
{
    status.members = quorum.members;
    status.need = quorum.need;
    status.may_be_away = quorum.members.saturating_sub(quorum.need);
    status.away = quorum.away;
    put_fraction(core.beta(), &mut status.beta)?;
    put_fraction(core.gamma(), &mut status.gamma)
}

fn put_fraction(share: Fraction, text: &mut String) -> Result<(), NoMemory> {
    let Fraction { num, den } = share;
    write!(text, "{num}/{den}")?;
    Ok(())
}

/// The round under way, if one is.
pub(crate) fn round_status(
    alloc: Global,
    core: &Core,
    live: &Live<'_>,
) -> Result<Option<RoundStatus>, NoMemory> {
    let (phase, pending) = match core.phase() {
        Stage::Idle => return Ok(None),
        Stage::Storing(pending) => ("Storing", pending),
        Stage::Querying(pending) => ("Querying", pending),
        Stage::StoringBack(pending) => ("StoringBack", pending),
    };
    let Pending { asked, need, count } = pending;
    Ok(Some(RoundStatus {
        phase: String::from_str(alloc, phase)?,
        session: Wide(asked.session),
        request: Wide(asked.request),
        others: core.ops().others().asks().len() as u64,
        answers: count,
        need,
        since: live.round_since,
    }))
}
