//! What the workers of a node share.

ghost use Rattle.std.specs.Prelude.{◌≡◌, ◌+◌, List, None};
ghost use Rattle.cc_intake.specs.Talks.{Answer, IsAnswer, Talks, places_of, PlacesRise};

use crate::take_turn::TakeTurn;
use cc_channels::{Admission, Connection, ConnectionAdmission, Shared};
use cc_connections::Address;
use cc_intake::{Intake, Lane, Life, OfLife, Queue, Share, Source, work};
use cc_policies::Admitted;
use cc_views::NodeId;
use std::alloc::Global;
use std::sync::{Mutex, Wait};

/// What all workers share.
#[derive(Drop)]
pub struct Context<'x, R: Wait, T: TakeTurn, L: Life, Q: Lane> {
    pub rt: &'x R,
    pub alloc: Global,
    pub me: NodeId,
    /// The node's folder.
    pub dir: &'x str,
    /// Where the node listens, and where for clients alone, if it does.
    pub listen: Address,
    pub listen_clients: Option<Address>,
    /// The file of the peers, if there is one.
    pub peers_file: Option<&'x str>,
    /// What is called round each accept, and takes a turn behind it.
    pub turns: &'x T,
    /// Whether the operator's requests are taken that come from other machines.
    pub remote_operators: bool,
    pub shared: &'x Shared,
    pub admission: &'x Admission<OfLife<L>>,
    pub lock: &'x Mutex<Intake<L, Q>>,
    pub queue: &'x Queue<L, Q>,
    pub shares: &'x Mutex<Vec<Share<L>>>,
}

impl<R: Wait, T: TakeTurn, L: Life, Q: Lane> Context<'_, R, T, L, Q> {
    /// A share out of the pool, or a new one.
    pub fn draw(&self) -> Option<Share<L>> {
        let pooled = self.shares.lock(self.rt).pop();
        match pooled {
            Some(share) => Some(share),
            None => self.lock.lock(self.rt).share(),
        }
    }

    /// Where what comes over a connection waits over which nobody has greeted.
    pub fn admission_over<'a>(
        &'a self,
        connection: &'a Connection,
        admitted: Admitted,
    ) -> ConnectionAdmission<'a, OfLife<L>>
        ensures { (result.access ≡ admitted.access) × (result.greeter ≡ None) }
    {
        let Shared {
            waker,
            connections,
            hello_exchange,
            ..
        } = self.shared;
        ConnectionAdmission::new(
            self.admission,
            waker,
            connections,
            hello_exchange,
            connection,
            admitted,
            self.me,
        )
    }

    /// Brings each event of a source to the intake.
    pub fn work<S: Source>(&self, share: &mut Share<L>, source: &mut S)
        ensures { (answers : List Answer) × Talks S.gives S.hears (IsAnswer L.opening L.accepted L.taken) source.old answers source.new
            × (share.new ≡ share.old + places_of answers) × PlacesRise share.old answers }
    {
        work(
            self.rt, self.alloc, self.lock, self.queue, share, self.turns, source,
        );
    }

    /// Puts a share back into the pool, which has room for one of each worker.
    pub fn give_back(&self, share: Share<L>) {
        drop(self.shares.lock(self.rt).push(share));
    }
}
