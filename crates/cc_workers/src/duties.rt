//! What the intake's answer to an event asks of the worker that brought it.

ghost use Rattle.std.specs.Prelude.{◌≡◌};
ghost use Rattle.cc_workers.specs.WorkerSteps.{duty_of};

use cc_intake::{Accepted, Refused};
use cc_messages::Event;
use cc_policies::{Duty, heed};

/// What the answer to an event asks of the worker that brought it. `differs` tells whether the event repeats its session's last
/// request with another command.
pub fn duty_of(event: &Event, answer: &Result<Accepted, Refused>, differs: bool) -> Duty
    ensures { result ≡ duty_of event.now answer.now differs }
{
    match answer {
        Ok(accepted) => heed(event, Ok(accepted.stirs), differs),
        Err(refused) => heed(event, Err(refused.why), differs),
    }
}
