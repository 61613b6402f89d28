//! What is to be written to a peer.

ghost use Rattle.std.specs.Prelude.{◌≡◌, ◌≤◌, ◌++◌, [], drop, length, nat_lt, true, OnOk, OnErr, IfOk, MatchOption, ⊤};
ghost use Rattle.cc_policies.specs.Bundles.{no_parcel};
ghost use Rattle.cc_channels.specs.SendBuffers.{nothing, with_one_more, rest_alone, unsent_bytes};

use cc_policies::{Bundle, Parcel};
use cc_views::{NoMemory, NodeId};
use std::alloc::Global;
use std::marker::Model;

/// What is to be written to a peer: the rest of a write that the socket took in part, and the parcels behind it.
#[derive(Drop)]
pub struct SendBuffer {
    rest: Option<Vec<u8>>,
    bundle: Option<Bundle>,
    parcels: u64,
}

impl Model for SendBuffer {
    ghost use Rattle.std.specs.Prelude.{[]};
    ghost use Rattle.std.specs.Option.{option_map_or};
    ghost use Rattle.cc_policies.specs.Bundles.{no_parcel};
    ghost use Rattle.cc_channels.specs.SendBuffers.{Unsent};

    ghost Value = { Unsent };

    ghost view = { λ b. record {
      rest = option_map_or (λ v. v.items) b.rest [];
      bundle = option_map_or (λ bundle. bundle) b.bundle no_parcel;
      parcels = b.parcels;
    } };
}

impl SendBuffer {
    /// So many parcels wait at most.
    pub const MOST: u64 = 256;

    /// Nothing is to be written.
    pub fn new() -> Self
        ensures { result ≡ nothing }
    {
        SendBuffer {
            rest: None,
            bundle: None,
            parcels: 0,
        }
    }

    /// Whether nothing is to be written.
    pub fn is_empty(&self) -> bool
        ensures { result ≡ true → (self.now.rest ≡ []) × (self.now.bundle ≡ no_parcel) }
    {
        self.rest.is_none() && self.bundle.is_none()
    }

    /// How many bytes the posts have that wait.
    pub fn len(&self) -> usize
        ensures { result ≡ length self.now.bundle.bytes }
    {
        match &self.bundle {
            Some(bundle) => bundle.len(),
            None => 0,
        }
    }

    /// Puts a parcel behind all else. One that finds no room is lost, and so are all that wait where there is no memory: links resend.
    pub fn put(&mut self, alloc: Global, parcel: Parcel) -> Result<(), NoMemory>
        ensures put { OnOk result (self.new ≡ with_one_more self.old parcel) }
        ensures lost { OnErr result (self.new ≡ rest_alone self.old) }
    {
        if self.parcels >= SendBuffer::MOST {
            drop(parcel);
            return Ok(());
        }
        let mut bundle = match self.bundle.take() {
            Some(bundle) => bundle,
            None => Bundle::new(alloc),
        };
        match bundle.add(parcel) {
            Ok(()) => {
                self.bundle = Some(bundle);
                self.parcels += 1;
                Ok(())
            }
            Err(NoMemory) => {
                drop(bundle);
                self.parcels = 0;
                Err(NoMemory)
            }
        }
    }

    /// The bytes of the next write of the node `me`: the rest of the last one, or else all that waits. None where nothing does.
    pub fn take(&mut self, me: NodeId) -> Result<Option<Vec<u8>>, NoMemory>
        ensures taken { IfOk result (λ o. MatchOption o (unsent_bytes me self.old ≡ []) (λ v. v.items ++ unsent_bytes me self.new ≡ unsent_bytes me self.old)) }
        ensures none { IfOk result (λ o. MatchOption o (self.new ≡ self.old) (λ v. ⊤)) }
        ensures first { self.new.rest ≡ [] }
        ensures lost { OnErr result (self.new ≡ rest_alone self.old) }
    {
        if let Some(rest) = self.rest.take() {
            return Ok(Some(rest));
        }
        let Some(bundle) = self.bundle.take() else {
            return Ok(None);
        };
        self.parcels = 0;
        Ok(Some(bundle.close(me)?))
    }

    /// So many bytes of a write were written: the others go before all else. Whether there are others.
    pub fn keep(&mut self, bytes: Vec<u8>, written: usize) -> bool
        requires first { self.old.rest ≡ [] }
        requires within { written ≤ length bytes.items }
        ensures kept { self.new ≡ record { rest = drop written bytes.items; bundle = self.old.bundle; parcels = self.old.parcels } }
        ensures any { result ≡ nat_lt written (length bytes.items) }
    {
        if written == bytes.len() {
            drop(bytes);
            return false;
        }
        let mut rest = bytes;
        rest.drain(..written);
        self.rest = Some(rest);
        true
    }
}
