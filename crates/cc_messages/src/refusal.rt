//! Refusals: why an event isn't accepted.

ghost use Rattle.std.specs.Prelude.{◌≡◌, Some};
ghost use Rattle.cc_messages.specs.Refusals.{number_of, name_of, carried_by, value_of, refusal_text};

use std::error::Error;
use std::fmt;

/// Why a node doesn't accept an event. Nothing has changed by it.
#[derive(Clone, Copy, Debug, PartialEq, Eq)]
pub enum Refusal {
    /// The node has left.
    Left,
    /// The node hasn't entered yet.
    NotEntered,
    /// The node has entered before.
    AlreadyEntered,
    /// The node hasn't joined yet.
    NotJoined,
    /// The message was heard before: the last number that was heard from its sender.
    Old(u64),
    /// An earlier message is missing: the last number that was heard from its sender.
    Gap(u64),
    /// The acknowledgement tells nothing new, or of what wasn't sent.
    NothingToAck,
    /// More than 256 nodes would be known.
    TooManyNodes,
    /// There are 256 sessions, and this is another.
    TooManySessions,
    /// The request was accepted before, as the session's last.
    Repeat,
    /// The session is past the request: its last one.
    Stale(u64),
    /// An earlier request of the session is missing: its last one.
    Skip(u64),
    /// Another operation is under way.
    Busy,
    /// The node's own set has 32 numbers, and this is another.
    SetFull,
    /// There are 512 posts that not all nodes have acknowledged.
    OutboxFull,
    /// A counter stands at its limit.
    Spent,
    /// A growth was refused.
    NoMemory,
    /// The queue was full.
    QueueFull,
}

impl Refusal {
    /// Its number, from 1 to 18.
    pub fn number(self) -> u8
        ensures { result ≡ number_of self }
    {
        match self {
            Refusal::Left => 1,
            Refusal::NotEntered => 2,
            Refusal::AlreadyEntered => 3,
            Refusal::NotJoined => 4,
            Refusal::Old(_) => 5,
            Refusal::Gap(_) => 6,
            Refusal::NothingToAck => 7,
            Refusal::TooManyNodes => 8,
            Refusal::TooManySessions => 9,
            Refusal::Repeat => 10,
            Refusal::Stale(_) => 11,
            Refusal::Skip(_) => 12,
            Refusal::Busy => 13,
            Refusal::SetFull => 14,
            Refusal::OutboxFull => 15,
            Refusal::Spent => 16,
            Refusal::NoMemory => 17,
            Refusal::QueueFull => 18,
        }
    }

    /// What was heard last, or the session's last request, and 0 where the refusal carries neither.
    pub fn value(self) -> u64
        ensures { result ≡ value_of self }
    {
        self.carried().unwrap_or(0)
    }

    fn carried(self) -> Option<u64>
        ensures { result ≡ carried_by self }
    {
        match self {
            Refusal::Old(heard) => Some(heard),
            Refusal::Gap(heard) => Some(heard),
            Refusal::Stale(last) => Some(last),
            Refusal::Skip(last) => Some(last),
            _ => None,
        }
    }

    fn name(self) -> &'static str
        ensures { result.now ≡ name_of self }
    {
        match self {
            Refusal::Left => "Left",
            Refusal::NotEntered => "NotEntered",
            Refusal::AlreadyEntered => "AlreadyEntered",
            Refusal::NotJoined => "NotJoined",
            Refusal::Old(_) => "Old",
            Refusal::Gap(_) => "Gap",
            Refusal::NothingToAck => "NothingToAck",
            Refusal::TooManyNodes => "TooManyNodes",
            Refusal::TooManySessions => "TooManySessions",
            Refusal::Repeat => "Repeat",
            Refusal::Stale(_) => "Stale",
            Refusal::Skip(_) => "Skip",
            Refusal::Busy => "Busy",
            Refusal::SetFull => "SetFull",
            Refusal::OutboxFull => "OutboxFull",
            Refusal::Spent => "Spent",
            Refusal::NoMemory => "NoMemory",
            Refusal::QueueFull => "QueueFull",
        }
    }
}

/// Its number and name, and what it carries: `6 Gap 1`, or `13 Busy`.
impl fmt::Display for Refusal {
    ghost output = { λ refusal. Some (refusal_text refusal) };

    fn fmt<W: fmt::Write>(&self, f: &mut fmt::Formatter<W>) -> fmt::Result {
        let number = self.number();
        let name = self.name();
        match self.carried() {
            None => write!(f, "{number} {name}"),
            Some(value) => write!(f, "{number} {name} {value}"),
        }
    }
}

impl Error for Refusal {}
