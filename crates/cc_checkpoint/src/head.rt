//! The state of an armed side.

ghost use Rattle.std.specs.Prelude.{◌≡◌, ◌≤◌, ◌+◌, length, slice_index, take, drop, IfOk, MatchResult};
ghost use Rattle.cc_node_state.specs.Layouts.{layout_of};
ghost use Rattle.cc_site.specs.Reads.{OnlyReads};
ghost use Rattle.cc_site.specs.ToldFaults.{LooksAt};
ghost use Rattle.cc_checkpoint.specs.Faults.{CountsDevice};
ghost use Rattle.cc_checkpoint.specs.Heads.{size_of, state_of, fault_of, HasState, HeadAt, HeadFails, NodeFound};
ghost use Rattle.cc_checkpoint.specs.Windows.{CountsRead};

use crate::open_fault::OpenFault;
use crate::piece::Piece;
use crate::read_fault::ReadFault;
use crate::side_reader::read_off;
use crate::unread::Unread;
use cc_node::Node;
use cc_node_state::{Layout, restore};
use cc_site::{Side, Site, length_of, read_into};
use std::alloc::Global;

// Where the state of a side begins.
const STATE_PLACE: u64 = 14;

// Why the state of a side can't be read, as a fault of the sides.
fn fault_of(side: Side, fault: ReadFault) -> OpenFault
    ensures { result ≡ fault_of side fault }
{
    match fault {
        ReadFault::Device(fault) => OpenFault::Device(fault),
        ReadFault::NoMemory => OpenFault::NoMemory,
        ReadFault::NoState => OpenFault::Damaged(side, STATE_PLACE),
    }
}

// Reads the node whose state a side has there, in so many bytes.
fn read_node<S: Site>(
    alloc: Global,
    site: &mut S,
    side: Side,
    size: u32,
    layout: Layout,
    piece: &mut Piece,
) -> Result<Node, ReadFault>
    requires { S.honest site.old → 14 + size ≤ length (S.state site.old side).bytes }
    ensures found { S.honest site.old → NodeFound layout (take size (drop 14 (S.state site.old side).bytes)) result }
    ensures reads { OnlyReads S.Site site.old site.new }
    ensures fault { CountsRead side (S.failures site.old) (S.failures site.new) result }
{
    piece.clear();
    let mut unread = Unread {
        side,
        place: STATE_PLACE,
        end: STATE_PLACE + u64::from(size),
    };
    let fields = read_off(alloc, site, piece, &mut unread, layout)?;
    let node = restore(alloc, fields)?;
    node.ok_or(ReadFault::NoState)
}

// The layout of the version that stands before the state, where it is known, and how long the state is.
fn state_size<S: Site>(site: &mut S, side: Side) -> Result<(Layout, u32), OpenFault>
    ensures exact { S.honest site.old → MatchResult result (λ found. HasState (S.state site.old side).bytes
        × (found.0 ≡ layout_of (slice_index (S.state site.old side).bytes 9)) × (found.1 ≡ size_of (S.state site.old side).bytes))
        (HeadFails side (S.state site.old side).bytes) }
    ensures reads { OnlyReads S.Site site.old site.new }
    ensures fault { CountsDevice (LooksAt side) (S.failures site.old) (S.failures site.new) result }
{
    let len = length_of(site, side)?;
    if len < 10 {
        return Err(OpenFault::Damaged(side, 9));
    }
    let mut version = [0];
    read_into(site, side, 9, &mut version)?;
    let Some(layout) = Layout::of(version[0]) else {
        return Err(OpenFault::Version(version[0]));
    };
    if len < 14 {
        return Err(OpenFault::Damaged(side, 10));
    }
    let mut number = [0; 4];
    read_into(site, side, 10, &mut number)?;
    let size = u32::from_be_bytes(number);
    if len < 14 + u64::from(size) {
        return Err(OpenFault::Damaged(side, 10));
    }
    Ok((layout, size))
}

/// Reads the state of an armed side: the node, and the place of the gate behind its state. Damaged at place 9 where no
/// version stands, Version where it isn't known, Damaged at place 10 where the state's length doesn't stand there or goes
/// past the end, and at 14 where no node has that state. It reads through the piece, element by element, and asks for no
/// memory but the node's own.
pub fn read_state<S: Site>(
    alloc: Global,
    site: &mut S,
    side: Side,
    piece: &mut Piece,
) -> Result<(Node, u64), OpenFault>
    ensures exact { S.honest site.old → MatchResult result (λ found. HeadAt (S.state site.old side).bytes found.0 found.1)
        (HeadFails side (S.state site.old side).bytes) }
    ensures reads { OnlyReads S.Site site.old site.new }
    ensures fault { CountsDevice (LooksAt side) (S.failures site.old) (S.failures site.new) result }
{
    let (layout, size) = state_size(site, side)?;
    match read_node(alloc, site, side, size, layout, piece) {
        Ok(node) => Ok((node, STATE_PLACE + u64::from(size))),
        Err(fault) => Err(fault_of(side, fault)),
    }
}
