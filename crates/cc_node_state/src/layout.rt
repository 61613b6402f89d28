//! How the bytes of a state are laid out.

ghost use Rattle.std.specs.Prelude.{◌≡◌, MatchOption};
ghost use Rattle.cc_node_state.specs.Layouts.{IsVersion, layout_of, layout_for, version_of};

/// How the bytes of a state are laid out.
#[derive(Clone, Copy, PartialEq, Eq)]
pub enum Layout {
    /// Version 1, which has no place for asks that wait.
    Plain,
    /// Version 2: that of a node whose rounds have one ask.
    Lined,
    /// Version 32, which has a place for the share and for the others of the pending round too.
    Shared,
}

impl Layout {
    /// That of a version. None where the version isn't known.
    pub fn of(version: u8) -> Option<Self>
        ensures { MatchOption result (IsVersion version → ⊥) (λ layout. IsVersion version × (layout ≡ layout_of version)) }
    {
        match version {
            1 => Some(Layout::Plain),
            2 => Some(Layout::Lined),
            32 => Some(Layout::Shared),
            _ => None,
        }
    }

    /// That in which the state of a node with this share is written.
    pub fn of_share(share: usize) -> Self
        ensures { result ≡ layout_for share }
    {
        if share == 1 {
            Layout::Lined
        } else {
            Layout::Shared
        }
    }

    /// Its version.
    pub fn version(self) -> u8
        ensures { result ≡ version_of self }
    {
        match self {
            Layout::Plain => 1,
            Layout::Lined => 2,
            Layout::Shared => 32,
        }
    }
}
