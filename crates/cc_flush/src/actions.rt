//! A life of an engine: what it is asked for, in turn.

ghost use Rattle.std.specs.Prelude.{◌≡◌, ◌↔◌, ◌≤◌, false, None, Some, Err, MatchBool, IfErr, OnOk, MatchResult};
ghost use Rattle.cc_site.specs.Moments.{Rose};
ghost use Rattle.cc_journal.specs.Journals.{room_limit};
ghost use Rattle.cc_flush.specs.Lives.{IsTurnLawful, AreTurnsLawful, HasRoom, IsTurn, Acts, HasRun};

use crate::flusher::{CheckpointFault, Failed, Flusher};
use cc_journal::Batch;
use cc_site::{DeviceFault, Site};
use cc_views::NodeId;

/// What a caller asks of an engine.
#[derive(Drop)]
pub enum Action {
    /// A batch is to become durable, and then its outputs are to be put.
    Turn(Batch),
    /// The kept posts are to be put again.
    Resend,
    /// The kept answer of a session is to be put again.
    Again(u64),
    /// What was heard last from a peer is to be acknowledged again.
    Reack(NodeId),
    /// The node is to be moved to the other side.
    Checkpoint,
}

impl<S: Site> Flusher<S> {
    /// Carries out actions in turn, of which a Turn is a `flush`, and each other one the call of its name. A Checkpoint that
    /// is Spent changes nothing, and the life goes on. Before a Turn without room for its batch it ends with Ok, and the
    /// rest is given up. Where a disk call fails it ends at once, and the engine has ended.
    pub fn run_life(&mut self, actions: Vec<Action>) -> Result<(), Failed>
        requires owes { self.old.owes ≡ false }
        requires lawful { AreTurnsLawful self.old.twin actions.items }
        ensures ended { (fault : DeviceFault) → self.old.failed ≡ Some fault → (result ≡ Err (record { fault = fault })) × (self.new ≡ self.old) }
        ensures owes { self.new.owes ≡ false }
        ensures goes_on { OnOk result (self.new.failed ≡ None) }
        ensures failed { IfErr result (λ f. self.new.failed ≡ Some f.fault) }
        ensures honest { S.honest self.old.site ↔ S.honest self.new.site }
        ensures tells { S.tells self.new.site → S.tells self.old.site }
        // How many actions were carried out, what those came to, and each moment of them.
        ensures run { HasRun S.Site actions.items self.old self.new result }
        ensures same_opened { self.new.opened ≡ self.old.opened }
        ensures count { self.old.failed ≡ None → MatchResult result (λ _. S.failures self.new.site ≡ S.failures self.old.site)
            (λ _. Rose (S.failures self.old.site) (S.failures self.new.site)) }
    {
        if let Some(fault) = self.fault() {
            return Err(Failed { fault });
        }
        for action in actions {
            if !self.has_room_for(&action) {
                return Ok(());
            }
            self.act(action)?;
        }
        Ok(())
    }

    // Whether there is room for an action. Only a Turn takes any.
    fn has_room_for(&self, action: &Action) -> bool
        ensures { MatchBool result (HasRoom self.now.used action.now) (IsTurn action.now × (room_limit ≤ self.now.used)) }
    {
        match action {
            Action::Turn(_) => self.room(),
            Action::Resend => true,
            Action::Again(_) => true,
            Action::Reack(_) => true,
            Action::Checkpoint => true,
        }
    }

    // Carries out one action of an engine that goes on.
    fn act(&mut self, action: Action) -> Result<(), Failed>
        requires owes { self.old.owes ≡ false }
        requires goes_on { self.old.failed ≡ None }
        requires lawful { IsTurnLawful self.old.twin action }
        requires room { HasRoom self.old.used action }
        ensures acts { Acts S.Site action self.old self.new result }
        ensures same_opened { self.new.opened ≡ self.old.opened }
    {
        match action {
            Action::Turn(batch) => {
                let mut batch = batch;
                let flushed = self.flush(&mut batch);
                drop(batch);
                flushed?;
            }
            Action::Resend => {
                self.resend()?;
            }
            Action::Again(session) => {
                self.again(session)?;
            }
            Action::Reack(peer) => {
                self.reack(peer)?;
            }
            Action::Checkpoint => {
                self.checkpoint_unless_spent()?;
            }
        }
        Ok(())
    }

    // Moves the node to the other side, unless the generation in use is the last one.
    fn checkpoint_unless_spent(&mut self) -> Result<(), Failed>
        requires owes { self.old.owes ≡ false }
        requires goes_on { self.old.failed ≡ None }
        ensures acts { Acts S.Site Action.Checkpoint self.old self.new result }
        ensures same_opened { self.new.opened ≡ self.old.opened }
    {
        match self.checkpoint() {
            Ok(()) => Ok(()),
            Err(CheckpointFault::Spent) => Ok(()),
            Err(CheckpointFault::Failed(failed)) => Err(failed),
        }
    }
}
