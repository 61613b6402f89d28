//! The state of a client and server.

ghost use Rattle.std.specs.Prelude.{◌≡◌, ◌≤◌, ◌<◌, ◌↔◌, [], IfOk, IsTrue, length};
ghost use Rattle.std.specs.Option.{option_map};
ghost use Rattle.cc_views.specs.Limits.{counter_limit};
ghost use Rattle.cc_ops.specs.Ops as ops;
ghost use Rattle.cc_ops.specs.Stages.{stage_of, phase_of, HasWaiting, WaitsBehind, HasRoom};
ghost use Rattle.cc_ops.specs.WaitingAsks.{line_limit, has_session, AreApart};

use crate::ask_list::{AskList, are_apart};
use crate::stage::Stage;
use cc_views::{NoMemory, Value, View};
use std::alloc::Global;
use std::marker::Model;

/// The view, the own value under its number, the pending round, and the asks that wait behind it (CCC, client and server).
/// A round has up to `share` asks of one kind, which write or read.
#[derive(Drop)]
pub struct Ops {
    pub(crate) view: View,
    pub(crate) number: u64,
    pub(crate) mine: Value,
    pub(crate) tag: u64,
    pub(crate) share: usize,
    pub(crate) stage: Stage,
    // What is stored back, where the stage says so. Its room is made at the start.
    pub(crate) seen: View,
    // The asks that are pending beside that of the stage.
    pub(crate) others: AskList,
    pub(crate) line: AskList,
    // What is left of the line as a round is taken from it.
    pub(crate) spare: AskList,
}

impl Model for Ops {
    ghost use Rattle.cc_ops.specs.Ops.{Ops as State};
    ghost use Rattle.cc_ops.specs.Codes.{ops_code};
    ghost use Rattle.cc_ops.specs.Stages.{phase_of, IsKept};

    ghost Value = { State };

    ghost coded = { ops_code };

    ghost view = { λ a. record {
      view = a.view;
      number = a.number;
      mine = a.mine;
      tag = a.tag;
      share = a.share;
      phase = phase_of a.stage a.seen;
      others = a.others;
      line = a.line;
    } };

    ghost invariant = { λ a. IsKept a.number a.tag a.share a.mine a.stage a.others a.line };
}

impl Ops {
    /// Nothing stored, and no round pending; up to `share` asks begin together. The only error is a refused growth.
    pub fn new(alloc: Global, share: usize) -> Result<Self, NoMemory>
        requires some { 1 ≤ share }
        requires few { share ≤ line_limit }
        ensures { IfOk result (λ o. o ≡ ops.nothing_done share) }
    {
        let view = View::new(alloc)?;
        let Ok(seen) = View::new(alloc) else {
            drop(view);
            return Err(NoMemory);
        };
        let Ok((others, line)) = two_lists(alloc) else {
            drop((view, seen));
            return Err(NoMemory);
        };
        let Ok(spare) = AskList::new(alloc) else {
            drop((view, seen, others, line));
            return Err(NoMemory);
        };
        Ok(Ops {
            view,
            number: 0,
            mine: Value::empty(),
            tag: 0,
            share,
            stage: Stage::Idle,
            seen,
            others,
            line,
            spare,
        })
    }

    /// These parts, and `seen` is what is stored back, where the stage says that something is; it has its room from the
    /// start. Asks wait only where a round is pending, and the own set has room for theirs. For a decoder of states. The
    /// only error is a refused growth.
    pub fn from_parts(
        alloc: Global,
        view: View,
        number: u64,
        mine: Value,
        tag: u64,
        share: usize,
        stage: Stage,
        seen: View,
        others: AskList,
        line: AskList,
    ) -> Result<Self, NoMemory>
        requires number { number ≤ counter_limit }
        requires tag { tag ≤ counter_limit }
        requires some { 1 ≤ share }
        requires few { share ≤ line_limit }
        requires beside { length others < share }
        requires waits { HasWaiting stage }
        requires behind { WaitsBehind stage line }
        requires room { HasRoom line mine }
        ensures { IfOk result (λ o. o ≡ record {
          view = view;
          number = number;
          mine = mine;
          tag = tag;
          share = share;
          phase = phase_of stage seen;
          others = others;
          line = line;
        }) }
    {
        let Ok(spare) = AskList::new(alloc) else {
            drop((view, seen, others, line));
            return Err(NoMemory);
        };
        Ok(Ops {
            view,
            number,
            mine,
            tag,
            share,
            stage,
            seen,
            others,
            line,
            spare,
        })
    }

    /// The same in memory of its own. The only error is a refused growth.
    pub fn copy(&self, alloc: Global) -> Result<Self, NoMemory>
        ensures { IfOk result (λ o. o ≡ self.now) }
    {
        let view = self.view.copy(alloc)?;
        let Ok(seen) = self.seen.copy(alloc) else {
            drop(view);
            return Err(NoMemory);
        };
        let Ok((others, line)) = copy_both(alloc, &self.others, &self.line) else {
            drop((view, seen));
            return Err(NoMemory);
        };
        let Ok(spare) = AskList::new(alloc) else {
            drop((view, seen, others, line));
            return Err(NoMemory);
        };
        Ok(Ops {
            view,
            number: self.number,
            mine: self.mine,
            tag: self.tag,
            share: self.share,
            stage: self.stage,
            seen,
            others,
            line,
            spare,
        })
    }

    /// What each node stored last, as far as this node has seen.
    pub fn view(&self) -> &View
        ensures { result.now ≡ self.now.view }
    {
        &self.view
    }

    /// How often the own value was written.
    pub fn number(&self) -> u64
        ensures number { result ≡ self.now.number }
        ensures limit { result ≤ counter_limit }
    {
        self.number
    }

    /// What the node has stored itself.
    pub fn mine(&self) -> &Value
        ensures { result.now ≡ self.now.mine }
    {
        &self.mine
    }

    /// The tag of the last round of messages that the node began; rounds count from 1.
    pub fn tag(&self) -> u64
        ensures tag { result ≡ self.now.tag }
        ensures limit { result ≤ counter_limit }
    {
        self.tag
    }

    /// How many asks of one kind begin together at most.
    pub fn share(&self) -> usize
        ensures share { result ≡ self.now.share }
        ensures some { 1 ≤ result }
        ensures few { result ≤ line_limit }
    {
        self.share
    }

    /// How far the pending round has come, with its first ask. It waits for more answers than it has.
    pub fn stage(&self) -> Stage
        ensures stage { result ≡ stage_of self.now.phase }
        ensures waits { HasWaiting result }
    {
        self.stage
    }

    /// The view that is stored back, in the second round of a read.
    pub fn seen(&self) -> Option<&View>
        ensures { option_map (λ view. view.now) result ≡ ops.seen_in self.now.phase }
    {
        let stage = self.stage;
        match stage {
            Stage::StoringBack(_) => Some(&self.seen),
            Stage::Idle | Stage::Storing(_) | Stage::Querying(_) => None,
        }
    }

    /// Whether no operation is pending.
    pub fn is_idle(&self) -> bool
        ensures { result ≡ ops.is_idle self.now.phase }
    {
        let stage = self.stage;
        match stage {
            Stage::Idle => true,
            Stage::Storing(_) | Stage::Querying(_) | Stage::StoringBack(_) => false,
        }
    }

    /// The asks that are pending beside that of the stage, behind it. There are fewer than the share.
    pub fn others(&self) -> &AskList
        ensures others { result.now ≡ self.now.others }
        ensures few { length result.now < self.now.share }
    {
        &self.others
    }

    /// The asks that wait until the pending round has ended. None waits where none is pending, and the own set has
    /// room for what those that wait will put in.
    pub fn line(&self) -> &AskList
        ensures line { result.now ≡ self.now.line }
        ensures behind { WaitsBehind (stage_of self.now.phase) result.now }
        ensures room { HasRoom result.now self.now.mine }
    {
        &self.line
    }

    /// Whether an ask of the session is pending or waits.
    pub fn is_unanswered(&self, session: u64) -> bool
        ensures { result ≡ has_session session (ops.unanswered self.now) }
    {
        self.is_first(session) || self.others.has_session(session) || self.line.has_session(session)
    }

    // Whether the first ask of the pending round is of the session.
    fn is_first(&self, session: u64) -> bool
        ensures { result ≡ has_session session (ops.asked_in self.now.phase) }
    {
        let stage = self.stage;
        match stage {
            Stage::Idle => false,
            Stage::Storing(pending) | Stage::Querying(pending) | Stage::StoringBack(pending) => {
                session == pending.asked.session
            }
        }
    }

    /// Whether no two asks that aren't answered yet are of one session.
    pub fn are_apart(&self) -> bool
        ensures { IsTrue result ↔ AreApart (ops.unanswered self.now) }
    {
        if !are_apart(self.others.asks(), self.line.asks()) {
            return false;
        }
        let stage = self.stage;
        match stage {
            Stage::Idle => true,
            Stage::Storing(pending) | Stage::Querying(pending) | Stage::StoringBack(pending) => {
                let session = pending.asked.session;
                !self.others.has_session(session) && !self.line.has_session(session)
            }
        }
    }
}

// Two lists that no ask is in.
fn two_lists(alloc: Global) -> Result<(AskList, AskList), NoMemory>
    ensures { IfOk result (λ lists. lists ≡ ([], [])) }
{
    let first = AskList::new(alloc)?;
    let Ok(second) = AskList::new(alloc) else {
        drop(first);
        return Err(NoMemory);
    };
    Ok((first, second))
}

fn copy_both(
    alloc: Global,
    first: &AskList,
    second: &AskList,
) -> Result<(AskList, AskList), NoMemory>
    ensures { IfOk result (λ copies. copies ≡ (first.now, second.now)) }
{
    let first = first.copy(alloc)?;
    let Ok(second) = second.copy(alloc) else {
        drop(first);
        return Err(NoMemory);
    };
    Ok((first, second))
}
