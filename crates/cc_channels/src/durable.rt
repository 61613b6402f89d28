//! How many events of a life are durable, as its threads know it.

ghost use Rattle.std.specs.Prelude.{◌≡◌};

use cc_site::Flushed;
use std::marker::{Model, PhantomData};

/// So many events of a life are durable. It can't be said of more than were made so. Contracts see the number.
#[derive(Drop)]
pub struct Durable<F: Flushed> {
    count: u64,
    life: PhantomData<F>,
}

impl<F: Flushed> Model for Durable<F> {
    ghost use Rattle.std.specs.Prelude.{ℕ};

    ghost Value = { ℕ };

    ghost view = { λ d. d.count };

    ghost invariant = { λ d. F.flushed d.count };
}

impl<F: Flushed> Durable<F> {
    /// So many are.
    pub fn new(count: u64) -> Self
        requires { F.flushed count }
        ensures { result ≡ count }
    {
        Durable {
            count,
            life: PhantomData,
        }
    }

    /// How many are.
    pub fn count(&self) -> u64
        ensures { result ≡ self.now }
    {
        self.count
    }

    /// The same once more.
    pub fn again(&self) -> Self
        ensures { result ≡ self.now }
    {
        Durable {
            count: self.count,
            life: PhantomData,
        }
    }
}
