//! What admission to a node knows of the life that the node lives.

use crate::rule::Life;
use cc_site::Flushed;
use std::marker::PhantomData;

/// A life, of whose events its turner tells how many are durable.
#[derive(Drop)]
pub struct OfLife<L: Life> {
    life: PhantomData<L>,
}

impl<L: Life> Flushed for OfLife<L> {
    ghost flushed = { L.flushed };
}
