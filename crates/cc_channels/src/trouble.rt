//! Why a node and a peer don't take each other.

use cc_connections::Reason;

/// Why a peer doesn't take the node that greets it.
#[derive(Clone, Copy, PartialEq, Eq)]
pub enum Trouble {
    /// It says so, for that reason.
    Unwelcome(Reason),
    /// It answers nothing within a second, or something else.
    NoAnswer,
}

impl Trouble {
    /// What is so, in words behind the name of who was found there.
    pub const fn words(self) -> &'static str {
        match self {
            Trouble::Unwelcome(Reason::OtherCluster) => "is of another cluster",
            Trouble::Unwelcome(Reason::OtherNode) => "isn't the node that is looked for there",
            Trouble::Unwelcome(Reason::OwnId) => "has this node's id",
            Trouble::Unwelcome(Reason::OtherBirth) => "knows another folder of this node's id",
            Trouble::Unwelcome(Reason::OtherQuorums) => "counts by another beta or gamma",
            Trouble::Unwelcome(Reason::HasLeft) => "knows that this node has left",
            Trouble::NoAnswer => "doesn't answer a greeting",
        }
    }
}

/// Why a node that greets isn't taken, in words behind its name.
pub const fn words_of(reason: Reason) -> &'static str {
    match reason {
        Reason::OtherCluster => "greets from another cluster",
        Reason::OtherNode => "looks for another node here",
        Reason::OwnId => "greets with this node's id",
        Reason::OtherBirth => "greets from another folder than before",
        Reason::OtherQuorums => "greets with another beta or gamma",
        Reason::HasLeft => "greets, and has left",
    }
}

/// Why a node and a peer don't take each other, as the last greetings of both told it.
#[derive(Clone, Copy)]
pub struct Troubles {
    // Why the peer doesn't take the node, and why the node doesn't take the peer.
    there: Option<Trouble>,
    here: Option<Reason>,
}

impl Troubles {
    /// Neither has greeted.
    pub const fn new() -> Self {
        Troubles {
            there: None,
            here: None,
        }
    }

    /// The node greeted.
    pub fn put_there(&mut self, trouble: Option<Trouble>) {
        self.there = trouble;
    }

    /// The peer greeted.
    pub fn put_here(&mut self, reason: Option<Reason>) {
        self.here = reason;
    }

    /// Why one of them isn't taken, in words behind the name of the peer.
    pub fn words(&self) -> Option<&'static str> {
        match (self.there, self.here) {
            (Some(trouble), _) => Some(trouble.words()),
            (None, Some(reason)) => Some(words_of(reason)),
            (None, None) => None,
        }
    }
}
