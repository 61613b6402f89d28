//! A session and a request of the client's own.

ghost use Rattle.std.specs.Prelude.{◌≡◌};
ghost use Rattle.std.specs.Option.{option_copied};
ghost use Rattle.cc_web.specs.Keys.{key_in, key_spelled, is_own};

use crate::fault::WebFault;
use crate::words::{front_of, number_in};

/// A session and a request of the client's own.
#[derive(Clone, Copy, PartialEq, Eq)]
pub struct AskKey {
    pub session: u64,
    pub request: u64,
}

/// Whether a session is one of the node's own, the last so many.
pub(crate) fn is_own(session: u64, own_sessions: u16) -> bool
    ensures { result ≡ is_own session own_sessions }
{
    u64::MAX - session < u64::from(own_sessions)
}

/// The key that the field `Idempotency-Key` has: none where there is no such field.
#[tactic(auto, unfolding(crate::specs::Keys::key_in))]
pub(crate) fn key_in(
    field: Option<&[u8]>,
    own_sessions: u16,
    is_one_ask: bool,
) -> Result<Option<AskKey>, WebFault>
    ensures { result ≡ key_in (option_copied field.entry) own_sessions is_one_ask }
{
    let Some(word) = field else {
        return Ok(None);
    };
    match key_spelled(word) {
        Some(key) if is_one_ask => {
            if is_own(key.session, own_sessions) {
                return Err(WebFault::OwnSession);
            }
            Ok(Some(key))
        }
        _ => Err(WebFault::Key),
    }
}

// The session and the request that a word has, with a slash between them, each at least 1.
fn key_spelled(word: &[u8]) -> Option<AskKey>
    ensures { result ≡ key_spelled word.now }
{
    let front = front_of(word, b'/');
    if front.len() == word.len() {
        return None;
    }
    let session = number_in(front)?;
    let request = number_in(&word[front.len() + 1..])?;
    if session == 0 || request == 0 {
        return None;
    }
    Some(AskKey { session, request })
}
