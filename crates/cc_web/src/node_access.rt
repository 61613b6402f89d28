//! What a request may do with its node.

ghost use Rattle.cc_web.specs.Steps.{Step, Begins, Looks, Pauses, Asks, Waits, Takes, Gives};

use crate::asked::Asked;
use crate::key::AskKey;
use crate::own_sessions::Fate;
use cc_messages::{Answer, Command};

/// A node, and its own sessions, as a request sees them. A call may wait, but not beyond the time of the request.
pub trait NodeAccess {
    // From the first state, the step leads to the second one.
    ghost does: { Self → Step → Self → Type 0 };

    /// Begins the time of a request.
    fn begin(&mut self, timeout_ms: u64)
        ensures { does self.old (Begins timeout_ms) self.new };

    /// How many milliseconds are left of it.
    fn left_ms(&mut self) -> u64
        ensures { does self.old (Looks result) self.new };

    /// Waits for so many milliseconds.
    fn pause(&mut self, millis: u64)
        ensures { does self.old (Pauses millis) self.new };

    /// Asks, and waits for the answer.
    fn ask(&mut self, key: AskKey, command: &Command) -> Asked
        ensures { does self.old (Asks key command.now result) self.new };

    /// Waits for the answer of an ask under this key that was accepted before. None where it isn't there in time.
    fn wait(&mut self, key: AskKey) -> Option<Answer>
        ensures { does self.old (Waits key result) self.new };

    /// Takes a session of the node's own with its next number. None where each is taken.
    fn take(&mut self) -> Option<AskKey>
        ensures { does self.old (Takes result) self.new };

    /// Gives a key back, and says what became of its ask.
    fn give_back(&mut self, key: AskKey, fate: Fate)
        ensures { does self.old (Gives key fate) self.new };
}
