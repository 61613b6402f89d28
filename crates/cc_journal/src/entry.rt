//! An event that was accepted, and what it makes.

ghost use Rattle.std.specs.Prelude.{◌≡◌, ◌⊎◌, [], None, Some, IfOk, IfErr};
ghost use Rattle.cc_messages.specs.declared.event.Event.TheVariants as event;
ghost use Rattle.cc_messages.specs.declared.refusal.Refusal.TheVariants as refusal;
ghost use Rattle.cc_node.specs.Core.{made};
ghost use Rattle.cc_node.specs.Refusals.{decides};

use cc_messages::{Event, Refusal};
use cc_node::{Core, Made};
use cc_ops::Replies;
use std::alloc::Global;

/// An event that was accepted, and what it makes.
#[derive(Drop)]
pub struct Entry {
    pub event: Event,
    pub made: Made,
}

impl Entry {
    /// The event and what it makes of a core, or why the core refuses it, else NoMemory where a growth was refused. A
    /// refused event is given up.
    pub fn of(alloc: Global, core: &Core, event: Event) -> Result<Self, Refusal>
        ensures entry { IfOk result (λ e. (decides core.now event ≡ None) × (e ≡ record { event = event; made = made core.now event })) }
        ensures refused { IfErr result (λ r. (decides core.now event ≡ Some r) ⊎ ((decides core.now event ≡ None) × (r ≡ refusal.NoMemory))) }
    {
        match core.made_or_refused(alloc, &event) {
            Ok(made) => Ok(Entry { event, made }),
            Err(refusal) => {
                drop(event);
                Err(refusal)
            }
        }
    }
}

impl Default for Entry {
    /// An Enter that makes nothing: it fills the places that a batch doesn't use.
    fn default() -> Self
        ensures { result ≡ record { event = event.Enter; made = record { ack = None; post = None; answers = [] } } }
    {
        Entry {
            event: Event::Enter,
            made: Made {
                ack: None,
                post: None,
                answers: Replies::none(),
            },
        }
    }
}
