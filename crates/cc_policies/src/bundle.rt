//! What one write takes to a peer.

ghost use Rattle.std.specs.Prelude.{◌≡◌, ◌++◌, length, IfOk, OnOk};
ghost use Rattle.cc_connections.specs.declared.frame.Frame.TheVariants as frame;
ghost use Rattle.cc_connections.specs.Frames.{frame_spelling};
ghost use Rattle.cc_policies.specs.Bundles.{no_parcel, with_parcel, bundle_bytes};

use crate::frames::ack_frame;
use cc_connections::encode_frame;
use cc_views::{NoMemory, NodeId};
use std::alloc::Global;
use std::marker::Model;

/// What is to be written to a peer.
#[derive(Drop)]
pub enum Parcel {
    /// The bytes of a Post frame.
    Post(Vec<u8>),
    /// The number of an acknowledgement.
    Ack(u64),
}

/// What a peer is to get in one write: posts in their order, and behind them the last acknowledgement, which says all that
/// those before it said.
#[derive(Drop)]
pub struct Bundle {
    bytes: Vec<u8>,
    ack: Option<u64>,
}

impl Model for Bundle {
    ghost use Rattle.cc_policies.specs.Bundles.{Bundled};

    ghost Value = { Bundled };

    ghost view = { λ b. record { bytes = b.bytes.items; ack = b.ack } };
}

impl Bundle {
    /// A bundle of nothing.
    pub fn new(alloc: Global) -> Self
        ensures { result ≡ no_parcel }
    {
        Bundle {
            bytes: Vec::new(alloc),
            ack: None,
        }
    }

    /// How many bytes its posts have.
    pub fn len(&self) -> usize
        ensures { result ≡ length self.now.bytes }
    {
        self.bytes.len()
    }

    /// Puts a parcel behind what it holds.
    pub fn add(&mut self, parcel: Parcel) -> Result<(), NoMemory>
        ensures { OnOk result (self.new ≡ with_parcel self.old parcel) }
    {
        match parcel {
            Parcel::Post(bytes) => self.bytes.extend_from_slice(bytes.as_slice())?,
            Parcel::Ack(number) => self.ack = Some(number),
        }
        Ok(())
    }

    /// The bytes of all that it holds, as the node `me` writes them.
    pub fn close(self, me: NodeId) -> Result<Vec<u8>, NoMemory>
        ensures { IfOk result (λ bytes. bytes.items ≡ bundle_bytes me self) }
    {
        let Bundle { bytes, ack } = self;
        match ack {
            Some(number) => acknowledged(bytes, me, number),
            None => Ok(bytes),
        }
    }
}

// The bytes, and behind them an acknowledgement of the node `me`.
fn acknowledged(mut bytes: Vec<u8>, me: NodeId, number: u64) -> Result<Vec<u8>, NoMemory>
    ensures { IfOk result (λ all. all.items ≡ bytes.items ++ frame_spelling (frame.Ack me number)) }
{
    let ack = ack_frame(me, number);
    let encoded = encode_frame(&ack, &mut bytes);
    drop(ack);
    match encoded {
        Ok(()) => Ok(bytes),
        Err(NoMemory) => {
            drop(bytes);
            Err(NoMemory)
        }
    }
}
