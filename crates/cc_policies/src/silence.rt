//! Which peers are silent.

ghost use Rattle.std.specs.Prelude.{◌≡◌};
ghost use Rattle.cc_policies.specs.Silence.{is_silent};

use crate::limits::SILENT_AFTER_MS;

/// Whether a peer is silent at the moment `now`. `has_speaker` tells whether an open connection brings its frames, and `heard` when
/// the last of them came, if one came since the node was started. Both moments are in milliseconds, by a clock that never goes back.
pub fn is_silent(has_speaker: bool, heard: Option<u64>, now: u64) -> bool
    ensures { result ≡ is_silent has_speaker heard now }
{
    match heard {
        None => true,
        Some(heard) => !has_speaker || now.saturating_sub(heard) >= SILENT_AFTER_MS,
    }
}
