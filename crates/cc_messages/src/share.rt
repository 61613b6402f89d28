//! How many asks may begin together.

ghost use Rattle.std.specs.Prelude.{◌≡◌, ◌↔◌, IsSome, IfSome};
ghost use Rattle.cc_messages.specs.Shares.{IsAskShare};

use std::marker::Model;

/// How many asks of one kind begin together at most: a number from 1 to 32.
#[derive(Clone, Copy)]
pub struct Share {
    asks: u8,
}

impl Model for Share {
    ghost use Rattle.std.specs.Prelude.{ℕ};
    ghost use Rattle.cc_messages.specs.Shares.{IsAskShare};

    ghost Value = { ℕ };

    ghost view = { λ share. share.asks };

    ghost invariant = { λ share. IsAskShare share.asks };

    ghost inverse = { λ n. record { asks = n } };
}

impl Share {
    /// The greatest share.
    pub const MAX: u8 = 32;

    /// None for 0, and for more than 32.
    pub fn new(asks: u8) -> Option<Self>
        ensures some { IsSome result ↔ IsAskShare asks }
        ensures share { IfSome result (λ share. share ≡ asks) }
    {
        if asks == 0 || asks > Self::MAX {
            return None;
        }
        Some(Share { asks })
    }

    /// The number, from 1 to 32.
    pub fn asks(self) -> u8
        ensures number { result ≡ self }
        ensures range { IsAskShare self }
    {
        self.asks
    }
}
