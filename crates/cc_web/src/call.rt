//! What a method asks for at a place.

ghost use Rattle.std.specs.Prelude.{◌≡◌};
ghost use Rattle.cc_web.specs.Calls.{call_of, reading_of, putting_of, is_write, is_one_ask};

use crate::place::Place;
use cc_messages::Command;

/// What a method asks for at a place.
#[derive(Clone, Copy)]
pub enum Call {
    Overview,
    LastRequest(u64),
    Snapshot,
    Changes,
    /// A command that reads, which needs no body.
    Read(Command),
    Write(Write),
    /// What a browser asks before a page of another origin may write.
    Preflight(Place),
}

/// What is written: the body says what.
#[derive(Clone, Copy)]
pub enum Write {
    Text,
    Max,
    Flag,
    Member,
}

impl Call {
    /// What this method asks for at a place. `OPTIONS` is for pages of the allowed origin alone. None for any other method.
    #[tactic(auto, unfolding(crate::specs::Calls::call_of))]
    pub fn of(place: Place, method: &str, is_allowed: bool) -> Option<Call>
        ensures { result ≡ call_of place method.now is_allowed }
    {
        match method {
            "GET" | "HEAD" => reading_of(place),
            "PUT" => putting_of(place),
            "POST" if place == Place::Set => Some(Call::Write(Write::Member)),
            "OPTIONS" if is_allowed => Some(Call::Preflight(place)),
            _ => None,
        }
    }

    /// Whether it writes.
    pub fn is_write(&self) -> bool
        ensures { result ≡ is_write self.now }
    {
        matches!(self, Call::Write(_))
    }

    /// Whether it is one ask of a session.
    pub fn is_one_ask(&self) -> bool
        ensures { result ≡ is_one_ask self.now }
    {
        matches!(self, Call::Write(_) | Call::Read(_))
    }
}

fn reading_of(place: Place) -> Option<Call>
    ensures { result ≡ reading_of place }
{
    match place {
        Place::Overview => Some(Call::Overview),
        Place::Text => None,
        Place::Max => Some(Call::Read(Command::ReadMax)),
        Place::Flag => Some(Call::Read(Command::ReadFlag)),
        Place::Set => Some(Call::Read(Command::ReadSet)),
        Place::View => Some(Call::Read(Command::Collect)),
        Place::Snapshot => Some(Call::Snapshot),
        Place::Changes => Some(Call::Changes),
        Place::Session(session) => Some(Call::LastRequest(session)),
    }
}

fn putting_of(place: Place) -> Option<Call>
    ensures { result ≡ putting_of place }
{
    match place {
        Place::Text => Some(Call::Write(Write::Text)),
        Place::Max => Some(Call::Write(Write::Max)),
        Place::Flag => Some(Call::Write(Write::Flag)),
        _ => None,
    }
}
