//! What is to be done where something wasn't.

use cc_connections::Address;
use std::fmt;

/// What is to be done where a client's request, or the operator's, wasn't done.
#[derive(Clone, Copy, Debug, PartialEq, Eq)]
pub enum Advice {
    /// Another client uses this session.
    SessionInUse(u64),
    /// The node serves as many sessions as it ever will.
    TooManySessions,
    /// The node to be retired is the one at this address, which was told.
    Itself(Address),
    /// The node to be retired was heard within three seconds.
    Alive,
    /// No two in a row of so many collects agreed.
    NoTwoAgree(u64),
}

impl fmt::Display for Advice {
    fn fmt<W: fmt::Write>(&self, f: &mut fmt::Formatter<W>) -> fmt::Result {
        match self {
            Advice::SessionInUse(session) => {
                write!(
                    f,
                    "another client uses session {session}: each client has a number of its own"
                )
            }
            Advice::TooManySessions => write!(
                f,
                "the node serves 256 sessions and forgets none: use one of these again"
            ),
            Advice::Itself(address) => write!(
                f,
                "that is the node at {address} itself: `ccnode leave {address}` has it leave"
            ),
            Advice::NoTwoAgree(collects) => write!(
                f,
                "no two in a row of {collects} collects agree, since others write: --timeout gives it longer"
            ),
            Advice::Alive => write!(
                f,
                "that node was heard within three seconds: --alive retires it all the same"
            ),
        }
    }
}
