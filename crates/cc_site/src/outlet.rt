//! Where a site of files passes outputs on.

ghost use Rattle.std.specs.Prelude.{◌≡◌, IfSome};
ghost use Rattle.cc_wire.specs.Messages.{message_spelling};

use crate::site::Side;
use cc_messages::{Answer, Message};
use cc_views::NodeId;
use std::io;

/// Takes the outputs of a site, and the reasons of its failures. No call fails: what can't be passed on is lost.
pub trait Outlet {
    /// The bytes of a message, where it is to be spelled once for all the peers that it goes to. None where nothing wants
    /// them, or memory is refused.
    fn spell(&self, message: &Message) -> Option<Vec<u8>>
        ensures { IfSome result (λ bytes. bytes.items ≡ message_spelling message.now) };

    /// Passes a message on to a peer, under its number on the link to it. Its bytes come along where `spell` gave them.
    fn send(&mut self, to: NodeId, number: u64, message: &Message, spelled: Option<&[u8]>)
        requires { IfSome spelled (λ bytes. bytes.now ≡ message_spelling message.now) };

    /// Tells a peer up to which number its messages were heard.
    fn ack(&mut self, to: NodeId, number: u64);

    /// Answers a request of a session.
    fn reply(&mut self, session: u64, request: u64, answer: &Answer);

    /// A call on the file of a side failed, for that reason, which the site's caller isn't told.
    fn fail(&mut self, side: Side, why: io::Error);
}

/// Drops what it gets.
#[derive(Clone, Copy)]
pub struct NoOutlet;

impl Outlet for NoOutlet {
    fn spell(&self, _message: &Message) -> Option<Vec<u8>> {
        None
    }

    fn send(&mut self, _to: NodeId, _number: u64, _message: &Message, _spelled: Option<&[u8]>) {}

    fn ack(&mut self, _to: NodeId, _number: u64) {}

    fn reply(&mut self, _session: u64, _request: u64, _answer: &Answer) {}

    fn fail(&mut self, _side: Side, _why: io::Error) {}
}
