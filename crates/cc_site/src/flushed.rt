//! What a life of a node is known to have made durable.

/// Names a life, of which it is known how many of its events had been made durable at one moment.
pub trait Flushed {
    ghost use Rattle.std.specs.Prelude.{ℕ};

    /// So many had been made durable at one moment.
    ghost flushed: { ℕ → Type 0 };
}
