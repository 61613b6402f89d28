//! How long a request may take.

ghost use Rattle.std.specs.Prelude.{◌≡◌};
ghost use Rattle.std.specs.Option.{option_copied};
ghost use Rattle.cc_web.specs.Timeouts.{timeout_in, duration_in};

use crate::fault::WebFault;
use crate::words::number_in;

/// How long a request may take that doesn't say it, in milliseconds.
pub const USUAL_TIMEOUT_MS: u64 = 10_000;

/// How long a request may take at most, in milliseconds.
pub const MOST_TIMEOUT_MS: u64 = 60_000;

/// The milliseconds that a query allows: `timeout=5s`, `timeout=500ms`, or none.
#[tactic(auto, unfolding(crate::specs::Timeouts::timeout_in))]
pub(crate) fn timeout_in(query: Option<&str>) -> Result<u64, WebFault>
    ensures { result ≡ timeout_in (option_copied query.entry) }
{
    let Some(query) = query else {
        return Ok(USUAL_TIMEOUT_MS);
    };
    let Some(word) = query.as_bytes().strip_prefix(b"timeout=".as_slice()) else {
        return Err(WebFault::Query);
    };
    match duration_in(word) {
        Some(millis) if millis > 0 && millis <= MOST_TIMEOUT_MS => Ok(millis),
        _ => Err(WebFault::Query),
    }
}

// The milliseconds of a word such as `500ms` or `5s`.
fn duration_in(word: &[u8]) -> Option<u64>
    ensures { result ≡ duration_in word.now }
{
    if let Some(digits) = word.strip_suffix(b"ms".as_slice()) {
        return number_in(digits);
    }
    let digits = word.strip_suffix(b"s".as_slice())?;
    number_in(digits)?.checked_mul(1_000)
}
