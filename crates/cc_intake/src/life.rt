//! How a life begins, and what stands at its end.

ghost use Rattle.std.specs.Prelude.{◌≡◌, ◌+◌, ◌++◌, ℕ, List, [], None, false, length, sum};
ghost use Rattle.cc_journal.specs.declared.entry.Entry.{Entry};
ghost use Rattle.cc_intake.specs.Intakes.{share_limit};
ghost use Rattle.cc_intake.specs.Turners.{popped};

use crate::ends::{Ends, Queue};
use crate::intake::{Intake, Share};
use crate::rule::{Lane, Life};
use crate::turner::Turner;
use cc_flush::Flusher;
use cc_node::Core;
use cc_site::Site;
use std::sync::Wait;
use std::sync::ledger::Blank;

/// The intake, the turner and the queue of one life, which begins with the node that was opened: the engine and the core are
/// those that one opening gave. The life names that node and the ledger, the lane names the queue.
pub fn start<S: Site, L: Life, Q: Lane>(
    engine: Flusher<S>,
    core: Core,
    blank: Blank,
    ends: Ends<L>,
) -> (Intake<L, Q>, Turner<S, L, Q>, Queue<L, Q>)
    requires core { core ≡ L.opening.core }
    requires owes { engine.owes ≡ false }
    requires twin { engine.failed ≡ None → engine.twin ≡ L.opening }
    requires ledger { (blank.name ≡ L.name) × (blank.parts ≡ L.parts) × (L.parts ≡ share_limit) }
    requires reached { (look : ℕ) (list : List Entry) → L.reached look list }
    requires taken { (look : ℕ) (list : List Entry) → L.taken look list }
    requires accepted { (list : List Entry) → L.accepted list }
    requires flushed { (count : ℕ) → L.flushed count }
    requires lane { ends ≡ Q.table }
    ensures intake { result.0 ≡ record { entries = []; finds = 0; issued = 0 } }
    ensures turner { result.1 ≡ record { handed = []; kept = None; finds = 0; engine = engine } }
{
    let (queue, producer, consumer) = ends.named::<Q>();
    (
        Intake::new(core, producer, blank),
        Turner::new(engine, consumer),
        queue,
    )
}

/// What one life came to.
#[derive(Drop)]
pub struct Finished<S> {
    /// How many events were accepted.
    pub accepted: u64,
    /// How many of them the shares count that were handed in.
    pub told: u64,
    /// How many shares were given out.
    pub issued: u64,
    /// How many events were handed to the engine, and how many weren't.
    pub flushed: u64,
    pub rest: u64,
    /// The site of the engine.
    pub site: S,
}

/// Ends a life. What was accepted is what was handed to the engine, then the kept entry, and then what the queue holds. With
/// all shares that were given out, what they count is what was accepted.
pub fn finish<S: Site, L: Life, Q: Lane, R: Wait>(
    rt: &R,
    intake: Intake<L, Q>,
    shares: Vec<Share<L>>,
    turner: Turner<S, L, Q>,
    queue: Queue<L, Q>,
) -> Finished<S>
    ensures accepted { result.accepted ≡ length intake.entries }
    ensures flushed { result.flushed ≡ length turner.handed }
    ensures rest { result.flushed + result.rest ≡ result.accepted }
    ensures order { (items : List Entry) × (intake.entries ≡ popped turner ++ items) }
    ensures told { result.told ≡ sum shares.items }
    ensures issued { result.issued ≡ intake.issued }
    ensures all { intake.issued ≡ length shares.items → result.told ≡ result.accepted }
    ensures site { result.site ≡ turner.engine.site }
{
    let (producer, accepted, told, issued) = intake.close(shares);
    let (engine, consumer, kept, flushed) = turner.close();
    let waiting = queue.rest(rt, producer, consumer) as u64;
    let rest = if kept.is_some() { waiting + 1 } else { waiting };
    drop(kept);
    Finished {
        accepted,
        told,
        issued,
        flushed,
        rest,
        site: engine.close(),
    }
}
