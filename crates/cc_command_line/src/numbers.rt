//! Numbers as plain decimal digits.

ghost use Rattle.std.specs.Prelude.{◌≡◌, ◌↔◌, IsTrue, MatchOption};
ghost use Rattle.std.specs.Fmt.{decimal};
ghost use Rattle.cc_command_line.specs.Words.{IsPlain, NoNumber};

/// The number below 2^64 that a word is: plain decimal digits, without leading zeros. None for any other word.
pub fn number(word: &str) -> Option<u64>
    ensures { MatchOption result (NoNumber 64 word.now) (λ n. word.now ≡ decimal n) }
{
    if !is_plain(word.as_bytes()) {
        return None;
    }
    word.parse().ok()
}

/// The same below 2^32.
pub fn small_number(word: &str) -> Option<u32>
    ensures { MatchOption result (NoNumber 32 word.now) (λ n. word.now ≡ decimal n) }
{
    if !is_plain(word.as_bytes()) {
        return None;
    }
    word.parse().ok()
}

/// The same below 2^16.
pub fn port_number(word: &str) -> Option<u16>
    ensures { MatchOption result (NoNumber 16 word.now) (λ n. word.now ≡ decimal n) }
{
    if !is_plain(word.as_bytes()) {
        return None;
    }
    word.parse().ok()
}

// Whether these are digits alone, and no zero before other digits.
fn is_plain(bytes: &[u8]) -> bool
    ensures { IsTrue result ↔ IsPlain bytes.now }
{
    if bytes.len() > 1 && bytes[0] == b'0' {
        return false;
    }
    bytes.iter().all(|byte| byte.is_ascii_digit())
}
