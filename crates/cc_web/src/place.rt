//! What there is, and at which path.

ghost use Rattle.std.specs.Prelude.{◌≡◌};
ghost use Rattle.cc_web.specs.Places.{place_at, session_at, methods_of};

use crate::words::number_in;

/// What there is at a path.
#[derive(Clone, Copy, PartialEq, Eq)]
pub enum Place {
    /// What there is, for people and for programs.
    Overview,
    /// The node's own text.
    Text,
    /// The node's own maximum, and the greatest of all nodes.
    Max,
    /// The node's own flag, and whether any is set.
    Flag,
    /// The node's own set, and the union of all.
    Set,
    /// What each node stored last.
    View,
    /// The same at one moment.
    Snapshot,
    /// The same whenever it changes.
    Changes,
    /// The last request of this session.
    Session(u64),
}

impl Place {
    /// What there is at this path. A path that differs in any byte, also by an escape, is another path.
    #[tactic(auto, unfolding(crate::specs::Places::place_at))]
    pub fn at(path: &str) -> Option<Place>
        ensures { result ≡ place_at path.now }
    {
        match path {
            "/v1/" => Some(Place::Overview),
            "/v1/text" => Some(Place::Text),
            "/v1/max" => Some(Place::Max),
            "/v1/flag" => Some(Place::Flag),
            "/v1/set" => Some(Place::Set),
            "/v1/view" => Some(Place::View),
            "/v1/snapshot" => Some(Place::Snapshot),
            "/v1/changes" => Some(Place::Changes),
            _ => session_at(path.as_bytes()),
        }
    }

    /// The methods that there are at it, as the field `Allow` has them.
    pub fn methods(self) -> &'static str
        ensures { result.now ≡ methods_of self }
    {
        match self {
            Place::Text => "PUT",
            Place::Max | Place::Flag => "GET, HEAD, PUT",
            Place::Set => "GET, HEAD, POST",
            Place::Overview | Place::View | Place::Snapshot | Place::Changes | Place::Session(_) =>
                "GET, HEAD",
        }
    }
}

#[tactic(auto, unfolding(crate::specs::Places::session_at))]
fn session_at(path: &[u8]) -> Option<Place>
    ensures { result ≡ session_at path.now }
{
    let word = path.strip_prefix(b"/v1/sessions/".as_slice())?;
    match number_in(word) {
        Some(session) if session > 0 => Some(Place::Session(session)),
        _ => None,
    }
}
