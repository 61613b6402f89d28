//! What is noted of a node as it is opened.

use cc_channels::{Notice, give_notice};
use cc_connections::Peer;
use cc_node::Core;
use log::Log;

/// Notes the share of the node that was found, where it isn't 1, and how its folder and its peers agree.
pub fn note_opened<R: Log>(rt: &R, core: &Core, peers: &[Peer]) {
    let share = core.ops().share();
    if share > 1 {
        give_notice(rt, core.me(), &Notice::Share(share));
    }
    note_addresses(rt, core, peers);
}

// Notes which nodes of the folder have no address, and which peers it doesn't know.
fn note_addresses<R: Log>(rt: &R, core: &Core, peers: &[Peer]) {
    let me = core.me();
    for link in core.links().rows() {
        let is_peer = peers.iter().any(|peer| peer.id == link.peer);
        if link.peer != me && !is_peer && core.is_live(link.peer) {
            give_notice(rt, me, &Notice::Unreachable(link.peer));
        }
    }
    for peer in peers {
        if core.links().get(peer.id).is_none() {
            give_notice(rt, me, &Notice::Unknown(peer.id));
        }
    }
}
