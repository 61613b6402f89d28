//! A worker, which brings the events of a source to the intake.

ghost use Rattle.std.specs.Prelude.{◌≡◌, ◌+◌, List};
ghost use Rattle.cc_intake.specs.Talks.{Answer, IsAnswer, Talks, places_of, PlacesRise, step, IsAbove};

use crate::ends::Queue;
use crate::hooks::Hooks;
use crate::intake::{Accepted, Intake, Refused, Share};
use crate::rule::{Lane, Life};
use cc_messages::Event;
use std::alloc::Global;
use std::sync::{Mutex, Wait};

/// Where a worker's events come from, and where their answers go.
pub trait Source {
    ghost use Rattle.std.specs.Prelude.{Option};
    ghost use Rattle.cc_messages.specs.declared.event.Event.{Event};
    ghost use Rattle.cc_intake.specs.Talks.{Answer};

    /// What `next` gives, and what it leaves.
    ghost gives: { Self → Option Event → Self → Type 0 };

    /// What the answer to an event leaves.
    ghost hears: { Self → Event → Answer → Self → Type 0 };

    /// The next event. None at the end.
    fn next(&mut self) -> Option<Event>
        ensures { gives self.old result self.new };

    /// The event that was given last comes back, with the answer to it.
    fn told(&mut self, event: Event, answer: Result<Accepted, Refused>)
        ensures { hears self.old event answer self.new };
}

/// Brings each event of a source to the intake, under the lock, and hands it back with what the intake answered to that very
/// event, until there is no further one. The hooks are called round each accept, outside the lock. What finds no memory is
/// answered NoMemory.
pub fn work<L: Life, Q: Lane, H: Hooks, S: Source, R: Wait>(
    rt: &R,
    alloc: Global,
    lock: &Mutex<Intake<L, Q>>,
    queue: &Queue<L, Q>,
    share: &mut Share<L>,
    hooks: &H,
    source: &mut S,
)
    ensures { (answers : List Answer) × Talks S.gives S.hears (IsAnswer L.opening L.accepted L.taken) source.old answers source.new
        × (share.new ≡ share.old + places_of answers) × PlacesRise share.old answers }
{
    for _ in rt.forever() {
        let Some(event) = source.next() else {
            return;
        };
        hooks.before_accept();
        let answer = bring(rt, alloc, lock, queue, share, &event);
        hooks.after_accept();
        source.told(event, answer);
    }
    unreachable!()
}

// One accept under the lock, which is free again at the return.
fn bring<L: Life, Q: Lane, R: Wait>(
    rt: &R,
    alloc: Global,
    lock: &Mutex<Intake<L, Q>>,
    queue: &Queue<L, Q>,
    share: &mut Share<L>,
    event: &Event,
) -> Result<Accepted, Refused>
    ensures answer { IsAnswer L.opening L.accepted L.taken event.now result }
    ensures count { share.new ≡ step result share.old }
    ensures above { IsAbove result share.old }
{
    lock.lock(rt).accept(rt, alloc, share, queue, event)
}
