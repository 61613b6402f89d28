//! Where the refusals go that a worker tells.

ghost use Rattle.std.specs.Prelude.{◌≤◌};

use cc_channels::{Connection, Durable};
use cc_intake::Refused;
use cc_site::Flushed;
use std::sync::Wait;

/// A connection, as its worker tells refusals over it.
pub trait Replies {
    /// Tells a client of a refusal, by the bytes of its frame: not before all is durable that had been accepted when it was
    /// judged. May wait for room.
    fn refuse<R: Wait, F: Flushed>(
        &self,
        rt: &R,
        bytes: Vec<u8>,
        refused: Refused,
        durable: Durable<F>,
    )
        requires { refused.accepted ≤ durable };

    /// Tells the operator why his request isn't brought to the node, by the bytes of its frame. May wait for room.
    fn object<R: Wait>(&self, rt: &R, bytes: Vec<u8>);

    /// An answer is lost for want of memory: its client has to ask again, over another connection.
    fn give_up(&self);
}

impl Replies for Connection {
    fn refuse<R: Wait, F: Flushed>(
        &self,
        rt: &R,
        bytes: Vec<u8>,
        refused: Refused,
        durable: Durable<F>,
    )
        requires { refused.accepted ≤ durable }
    {
        self.pass_in_turn(rt, bytes);
    }

    fn object<R: Wait>(&self, rt: &R, bytes: Vec<u8>) {
        self.pass_in_turn(rt, bytes);
    }

    fn give_up(&self) {
        self.close();
    }
}
