//! Words of requests.

ghost use Rattle.std.specs.Prelude.{◌≡◌, ◌==◌};
ghost use Rattle.std.specs.List.{before_first};
ghost use Rattle.cc_web.specs.Words.{number_in};

use cc_command_line::{number, small_number};

/// The number below 2^64 whose plain decimal digits these bytes are.
pub(crate) fn number_in(bytes: &[u8]) -> Option<u64>
    ensures { result ≡ number_in 64 bytes.now }
{
    match str::from_utf8(bytes) {
        Ok(word) => number(word),
        Err(_) => None,
    }
}

/// The same below 2^32.
pub(crate) fn small_number_in(bytes: &[u8]) -> Option<u32>
    ensures { result ≡ number_in 32 bytes.now }
{
    match str::from_utf8(bytes) {
        Ok(word) => small_number(word),
        Err(_) => None,
    }
}

/// What stands before the first such byte: all of it where there is none.
pub(crate) fn front_of(bytes: &[u8], end: u8) -> &[u8]
    ensures { result.now ≡ before_first (λ b. b == end) bytes.now }
{
    for (at, byte) in bytes.iter().enumerate() {
        if *byte == end {
            return &bytes[..at];
        }
    }
    bytes
}
