//! The channels to all peers, of which more come while others are in use.

use crate::peer_channel::{FarEnd, PeerChannel, channel_to};
use cc_connections::Peer;
use cc_views::NodeId;
use std::alloc::{AllocError, Global};
use std::net::IpAddr;
use std::sync::{OnceLock, Wait};

// How many peers may be added to those of the start.
const MORE_PEERS: usize = 256;

/// The channels to peers. None ever goes.
#[derive(Drop)]
pub struct PeerChannels {
    // Those that were added stand in front of the free ones.
    slots: Vec<OnceLock<PeerChannel>>,
}

impl PeerChannels {
    // No channel, and room for so many.
    fn with_room(alloc: Global, room: usize) -> Result<Self, AllocError> {
        let mut slots = Vec::with_capacity(alloc, room)?;
        for _ in 0..room {
            if let Err(failed) = slots.push(OnceLock::new()) {
                drop((failed, slots));
                return Err(AllocError);
            }
        }
        Ok(PeerChannels { slots })
    }

    /// Adds the channel to a peer, to which there is none yet: its far end, or None where there is no room. One thread at a
    /// time may add.
    pub fn add(&self, alloc: Global, peer: &Peer) -> Result<Option<FarEnd>, AllocError> {
        let (channel, end) = channel_to(alloc, peer)?;
        let Some(slot) = self.slots.iter().find(|slot| slot.get().is_none()) else {
            drop((channel, end));
            return Ok(None);
        };
        match slot.try_set(channel) {
            Ok(_) => Ok(Some(end)),
            Err(channel) => {
                drop((channel, end));
                Ok(None)
            }
        }
    }

    /// The channel to a peer.
    pub fn to(&self, peer: NodeId) -> Option<&PeerChannel> {
        for slot in &self.slots {
            let channel = slot.get()?;
            if channel.peer == peer {
                return Some(channel);
            }
        }
        None
    }

    /// The channel that was added with that number, from 0 on.
    pub fn get(&self, number: usize) -> Option<&PeerChannel> {
        self.slots.get(number)?.get()
    }

    /// Whether a peer listens at that host: at its IP, or where its name led when it was last connected to.
    pub fn has_host<R: Wait>(&self, rt: &R, host: IpAddr) -> bool {
        for slot in &self.slots {
            let Some(channel) = slot.get() else {
                return false;
            };
            if channel.is_at(rt, host) {
                return true;
            }
        }
        false
    }

    /// Writes what was put on the channels of the node `me`, as much as each socket takes at once.
    pub fn write<R: Wait>(&self, rt: &R, me: NodeId) {
        for slot in &self.slots {
            let Some(channel) = slot.get() else {
                return;
            };
            channel.write(rt, me);
        }
    }

    /// Mutes each channel on which something waits, or whose peer isn't connected to.
    pub fn mute<R: Wait>(&self, rt: &R) {
        for slot in &self.slots {
            if let Some(channel) = slot.get() {
                channel.mute(rt);
            }
        }
    }

    /// Mutes each channel, but those to peers that were connected to since the last call.
    pub fn mute_all_but_new(&self) {
        for slot in &self.slots {
            if let Some(channel) = slot.get() {
                channel.mute_unless_new();
            }
        }
    }

    /// Unmutes all channels.
    pub fn unmute(&self) {
        for slot in &self.slots {
            if let Some(channel) = slot.get() {
                channel.unmute();
            }
        }
    }
}

/// The channels to these peers, and their far ends, with room for as many more as a cluster can have.
pub fn channels_to(
    alloc: Global,
    peers: &[Peer],
) -> Result<(PeerChannels, Vec<FarEnd>), AllocError> {
    let room = peers.len().saturating_add(MORE_PEERS);
    let channels = PeerChannels::with_room(alloc, room)?;
    let mut ends = Vec::new(alloc);
    match add_all(alloc, peers, &channels, &mut ends) {
        Ok(()) => Ok((channels, ends)),
        Err(AllocError) => {
            drop((channels, ends));
            Err(AllocError)
        }
    }
}

fn add_all(
    alloc: Global,
    peers: &[Peer],
    channels: &PeerChannels,
    ends: &mut Vec<FarEnd>,
) -> Result<(), AllocError> {
    for peer in peers {
        if let Some(end) = channels.add(alloc, peer)? {
            ends.push(end).or(Err(AllocError))?;
        }
    }
    Ok(())
}
