//! The peers of a node.

use crate::live::{Live, PeerNote};
use crate::status::PeerStatus;
use crate::wide::Wide;
use cc_connections::Address;
use cc_links::LinkRow;
use cc_node::Core;
use cc_views::{NoMemory, Text};
use std::alloc::Global;

/// Adds each node to which there is a link and that hasn't left, but the node itself, by ascending number.
pub(crate) fn push_peers(
    alloc: Global,
    core: &Core,
    live: &Live<'_>,
    peers: &mut Vec<PeerStatus>,
) -> Result<(), NoMemory> {
    for link in core.links().rows() {
        if link.peer != core.me() && core.is_live(link.peer) {
            let status = peer_status(alloc, core.posts(), link, live.note_of(link.peer))?;
            peers.push(status).or(Err(NoMemory))?;
        }
    }
    Ok(())
}

fn peer_status(
    alloc: Global,
    posts: u64,
    link: &LinkRow,
    note: Option<&PeerNote>,
) -> Result<PeerStatus, NoMemory> {
    let reach = link.start.saturating_add(link.acked);
    let mut status = PeerStatus {
        id: link.peer.number(),
        address: None,
        connected_since: None,
        absent_since: None,
        is_silent: true,
        trouble: None,
        behind: Wide(posts.saturating_sub(reach)),
        acknowledged: Wide(link.acked),
        heard: Wide(link.heard),
        last_heard: None,
    };
    if let Some(note) = note {
        if let Err(NoMemory) = add_note(alloc, note, &mut status) {
            drop(status);
            return Err(NoMemory);
        }
    }
    Ok(status)
}

fn add_note(alloc: Global, note: &PeerNote, status: &mut PeerStatus) -> Result<(), NoMemory> {
    if let Some(address) = note.address {
        drop(status.address.replace(address_text(alloc, address)?));
    }
    status.connected_since = note.connected_since;
    status.absent_since = note.absent_since;
    status.last_heard = note.last_heard;
    status.is_silent = note.is_silent;
    if let Some(words) = words_of(&note.trouble) {
        drop(status.trouble.replace(String::from_str(alloc, words)?));
    }
    Ok(())
}

// The words of a trouble, if there is one.
fn words_of(trouble: &Text) -> Option<&str> {
    let words = str::from_utf8(trouble.as_bytes()).ok()?;
    (!words.is_empty()).then_some(words)
}

fn address_text(alloc: Global, address: Address) -> Result<String, NoMemory> {
    Ok(format!(in alloc; "{address}")?)
}
