//! The worker of what a node sends to itself.

ghost use Rattle.std.specs.Prelude.{◌≡◌, Some, IfSome};
ghost use Rattle.cc_workers.specs.WorkerSteps.{brings_again};

use crate::context::Context;
use crate::duties::duty_of;
use crate::take_turn::TakeTurn;
use cc_channels::{Admission, Shared};
use cc_intake::{Accepted, Lane, Life, Refused, Source};
use cc_messages::Event;
use cc_policies::Duty;
use cc_site::Flushed;
use crossbeam_channel::Receiver;
use std::sync::Wait;

/// The events of the node's own messages, until None comes.
#[derive(Drop)]
struct Own<'a, R: Wait, T: TakeTurn, F: Flushed> {
    rt: &'a R,
    turns: &'a T,
    shared: &'a Shared,
    admission: &'a Admission<F>,
    from: Receiver<Option<Event>>,
    // The event that is to be given again.
    due: Option<Event>,
}

impl<R: Wait, T: TakeTurn, F: Flushed> Own<'_, R, T, F> {
    // The event that comes next: the one that is due, if one is.
    fn event(&mut self) -> Option<Event>
        ensures { IfSome self.old.due (λ due. result ≡ Some due) }
    {
        match self.due.take() {
            Some(event) => Some(event),
            None => self.from.recv(self.rt).unwrap_or(None),
        }
    }

    // What becomes of an event's permit.
    fn settle(&self, answer: Result<Accepted, Refused>) {
        match answer {
            Ok(_) => self.admission.accept(),
            Err(refused) => {
                self.shared.gauges.refuse(refused.why);
                self.admission.release(self.rt);
            }
        }
    }

    // Does a duty. Whether that is to bring the event again.
    fn act(&self, duty: Duty) -> bool
        ensures { result ≡ brings_again duty }
    {
        match duty {
            Duty::Wake => self.turns.take_turn(),
            Duty::Defer => self.shared.waker.defer(),
            Duty::Reack(peer) => self.shared.reack(self.rt, peer),
            Duty::BringAgain => return true,
            other => drop(other),
        }
        false
    }
}

impl<R: Wait, T: TakeTurn, F: Flushed> Source for Own<'_, R, T, F> {
    ghost use Rattle.cc_workers.specs.WorkerSteps.{due_after};

    ghost gives = { λ s e t. IfSome s.due (λ due. IfSome e (λ given. given ≡ due)) };

    ghost hears = { λ s e a t. t.due ≡ due_after e a };

    fn next(&mut self) -> Option<Event> {
        let event = self.event()?;
        if self.admission.admit_any(self.rt, &self.shared.waker) {
            Some(event)
        } else {
            drop(event);
            None
        }
    }

    fn told(&mut self, event: Event, answer: Result<Accepted, Refused>) {
        let duty = duty_of(&event, &answer, false);
        self.settle(answer);
        if self.act(duty) {
            drop(self.due.replace(event));
        } else {
            drop(event);
            drop(self.due.take());
        }
    }
}

/// Brings what the node sends to itself to the intake, until None comes.
pub fn serve_own<R: Wait, T: TakeTurn, L: Life, Q: Lane>(
    context: &Context<'_, R, T, L, Q>,
    from: Receiver<Option<Event>>,
) {
    let Some(mut share) = context.draw() else {
        drop(from);
        return;
    };
    let mut own = Own {
        rt: context.rt,
        turns: context.turns,
        shared: context.shared,
        admission: context.admission,
        from,
        due: None,
    };
    context.work(&mut share, &mut own);
    drop(own);
    context.give_back(share);
}
