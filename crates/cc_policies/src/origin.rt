//! Where connections come from, and what they may bring.

ghost use Rattle.std.specs.Prelude.{◌≡◌};
ghost use Rattle.cc_policies.specs.Access.{access_of, allows, may_speak, may_speak_as, speaker, HasGreeted};

use cc_messages::Event;
use cc_views::NodeId;

/// Where a connection comes from.
#[derive(Clone, Copy, PartialEq, Eq)]
pub enum Origin {
    /// This machine.
    Loopback,
    /// The address of a peer.
    Peer,
    /// Any other address.
    Stranger,
    /// Any address at all, over the port that is for clients alone.
    Client,
}

/// What a connection may bring.
#[derive(Clone, Copy, PartialEq, Eq)]
pub struct Access {
    /// What clients ask.
    pub asks: bool,
    /// Messages and acknowledgements of nodes.
    pub nodes: bool,
    /// The operator's requests: Leave, Retire and Share.
    pub operators: bool,
}

impl Access {
    /// What may come over a connection from there. `remote_operators` tells whether the operator's requests are taken that
    /// come from other machines; those of this machine always are, and over the port for clients there are none.
    pub fn of(from: Origin, remote_operators: bool) -> Self
        ensures { result ≡ access_of from remote_operators }
    {
        match from {
            Origin::Loopback => Access {
                asks: true,
                nodes: true,
                operators: true,
            },
            Origin::Peer | Origin::Stranger => Access {
                asks: true,
                nodes: true,
                operators: remote_operators,
            },
            Origin::Client => Access {
                asks: true,
                nodes: false,
                operators: false,
            },
        }
    }

    /// Whether such an event may come over the connection.
    pub fn allows(self, event: &Event) -> bool
        ensures { result ≡ allows self event.now }
    {
        match event {
            Event::Ask { .. } => self.asks,
            Event::Deliver { .. } | Event::Acked { .. } | Event::Skip { .. } => self.nodes,
            Event::Leave | Event::Retire { .. } | Event::Share { .. } => self.operators,
            Event::Enter | Event::Lapse { .. } | Event::Snapshot => false,
        }
    }
}

/// A connection that was let in.
#[derive(Clone, Copy, PartialEq, Eq)]
pub struct Admitted {
    /// Its ticket, which no other ever has.
    pub ticket: u64,
    /// What it may bring: where it is one beyond the bounds, the operator's requests alone.
    pub access: Access,
}

/// The node that sends what brings such an event. None where no node sends that.
pub fn speaker_of(event: &Event) -> Option<NodeId>
    ensures { result ≡ speaker event.now }
{
    match event {
        Event::Deliver { from, .. } | Event::Skip { from, .. } => Some(*from),
        Event::Acked { peer, .. } => Some(*peer),
        _ => None,
    }
}

/// Whether such an event may come over a connection, by who greeted over it: what a node sends may where that very node
/// greeted. Where nobody did it may too, unless the node that gets it needs a greeting first.
pub fn may_speak(greeter: Option<NodeId>, needs_greeting: bool, event: &Event) -> bool
    ensures { result ≡ may_speak greeter needs_greeting event.now }
{
    match speaker_of(event) {
        Some(node) => may_speak_as(greeter, needs_greeting, node),
        None => true,
    }
}

fn may_speak_as(greeter: Option<NodeId>, needs_greeting: bool, node: NodeId) -> bool
    ensures { result ≡ may_speak_as greeter needs_greeting node }
{
    match greeter {
        Some(greeter) => greeter == node,
        None => !needs_greeting,
    }
}

/// Where a greeting is needed, what comes of a node comes over a connection over which that very node greeted.
pub fn who_speaks_has_greeted()
    ensures { HasGreeted }
{}
