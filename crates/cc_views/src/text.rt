ghost use Rattle.std.specs.Prelude.{◌≡◌, ◌≤◌, ◌↔◌, [], length, IsSome, IfSome};
ghost use Rattle.cc_views.specs.Limits.{text_limit};

use std::marker::Model;

/// A text slot: up to 64 bytes of any kind.
#[derive(Clone, Copy, PartialEq, Eq)]
pub struct Text {
    // Zero from `len` on.
    bytes: [u8; Text::MAX_LEN],
    len: usize,
}

impl Model for Text {
    ghost use Rattle.std.specs.Prelude.{ℕ, List, length, take};
    ghost use Rattle.cc_views.specs.Limits.{text_limit};
    ghost use Rattle.cc_views.specs.Room.{IsRoom, filled, filled_of_used};

    ghost Value = { List ℕ };

    ghost view = { λ t. take t.len t.bytes };

    ghost invariant = { λ t. IsRoom text_limit t.bytes t.len };

    ghost inverse = { λ xs. record { bytes = filled text_limit xs; len = length xs } };

    ghost inverse_ok = { λ t h i. record { bytes = (filled_of_used text_limit t.bytes t.len h).0 i; len = (filled_of_used text_limit t.bytes t.len h).1 i } };
}

impl Text {
    /// How many bytes a text has at most.
    pub const MAX_LEN: usize = 64;

    /// None above 64 bytes.
    pub fn new(bytes: &[u8]) -> Option<Self>
        ensures some { IsSome result ↔ (length bytes.now ≤ text_limit) }
        ensures text { IfSome result (λ t. t ≡ bytes.now) }
    {
        let len = bytes.len();
        if len > Self::MAX_LEN {
            return None;
        }
        let mut cells = [0; Self::MAX_LEN];
        cells[..len].copy_from_slice(bytes);
        Some(Text { bytes: cells, len })
    }

    /// A text of no bytes.
    pub fn empty() -> Self
        ensures { result ≡ [] }
    {
        Text {
            bytes: [0; Self::MAX_LEN],
            len: 0,
        }
    }

    /// The bytes, as they were given.
    pub fn as_bytes(&self) -> &[u8]
        ensures bytes { result.now ≡ self.now }
        ensures fits { length self.now ≤ text_limit }
    {
        &self.bytes[..self.len]
    }
}
