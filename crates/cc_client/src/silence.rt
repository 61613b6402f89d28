//! Why no answer came.

use crate::advice::Advice;
use cc_connections::Address;
use std::error::Error;
use std::fmt;

/// Why no answer came.
#[derive(Clone, Copy, Debug, PartialEq, Eq)]
pub enum Silence {
    /// Its name wasn't found, the last time that it was looked up.
    Unknown(Address),
    /// Nothing listens there: the last try to connect was refused.
    Closed(Address),
    /// No connection could be made there in a second, or nothing came over one.
    Mute(Address),
    /// What was asked was sent there, and no answer came.
    Taken(Address),
}

impl fmt::Display for Silence {
    fn fmt<W: fmt::Write>(&self, f: &mut fmt::Formatter<W>) -> fmt::Result {
        match self {
            Silence::Unknown(address) => write!(f, "the name in {address} isn't found"),
            Silence::Closed(address) => write!(f, "nothing listens at {address}"),
            Silence::Mute(address) => write!(f, "{address} doesn't answer"),
            Silence::Taken(address) => {
                write!(f, "{address} took the request, but too few members answer")
            }
        }
    }
}

impl Error for Silence {}

/// How a client ended.
#[derive(Clone, Copy, Debug, PartialEq, Eq)]
pub struct Told {
    /// The status to end with: 0 where what was asked was done, else 1.
    pub status: u8,
    /// Why no answer came, where none did.
    pub silence: Option<Silence>,
    /// What is to be done about it, where that can be said.
    pub advice: Option<Advice>,
}

impl Told {
    pub(crate) fn done() -> Self {
        Told {
            status: 0,
            silence: None,
            advice: None,
        }
    }

    pub(crate) fn refused(advice: Option<Advice>) -> Self {
        Told {
            status: 1,
            silence: None,
            advice,
        }
    }

    pub(crate) fn silent(silence: Silence) -> Self {
        Told {
            status: 1,
            silence: Some(silence),
            advice: None,
        }
    }
}
