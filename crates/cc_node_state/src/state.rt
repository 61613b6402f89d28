//! States of nodes as bytes.

ghost use Rattle.std.specs.Prelude.{◌≡◌, ◌≤◌, ◌+◌, ◌++◌, length, OnOk, OnErr, Ok, Err, IsOk, vec_len};
ghost use Rattle.std.specs.Vec.{vec_capacity};
ghost use Rattle.cc_wire.specs.Writers.{Writes};
ghost use Rattle.cc_node.specs.Node as machine;
ghost use Rattle.cc_node_state.specs.States.{SpellsNode, layout_of_node, node_spelling};
ghost use Rattle.cc_node_state.specs.Decoders.{Decodes, Is, SpellsUnlawful};
ghost use Rattle.cc_node_state.specs.declared.fault.StateFault.TheVariants as faults;

use crate::fault::StateFault;
use crate::field_reader::read_all;
use crate::layout::Layout;
use crate::parts::{part_count, put_part};
use crate::restored_node::restore;
use crate::spellable::node_is_spellable;
use cc_node::Node;
use cc_views::NoMemory;
use std::alloc::{AllocError, Global};

// Appends the parts of a node's state, one after the other.
fn put_state(out: &mut Vec<u8>, node: &Node) -> Result<(), AllocError>
    ensures { Writes out.old out.new (node_spelling node.now) result }
{
    for at in 0..part_count(node) {
        put_part(out, node, at)?;
    }
    Ok(())
}

/// Appends the spelling of a node's state, in the layout of its share. On an `Err` nothing has changed.
pub fn encode_state(node: &Node, out: &mut Vec<u8>) -> Result<(), NoMemory>
    ensures spelled { OnOk result (SpellsNode (layout_of_node node.now) (node_spelling node.now) node.now) }
    ensures ok { OnOk result (out.new.items ≡ out.old.items ++ node_spelling node.now) }
    ensures err { OnErr result (out.new.items ≡ out.old.items) }
    ensures room { vec_len out.old + length (node_spelling node.now) ≤ vec_capacity out.old → IsOk result }
{
    node_is_spellable(node);
    let start = out.len();
    if put_state(out, node).is_err() {
        out.truncate(start);
        return Err(NoMemory);
    }
    Ok(())
}

fn decode_all(alloc: Global, bytes: &[u8], layout: Layout) -> Result<Node, StateFault>
    ensures { Decodes layout bytes.now result }
{
    let fields = read_all(alloc, bytes, layout)?;
    let node = restore(alloc, fields)?;
    node.ok_or(StateFault::Unlawful)
}

/// The node whose state the bytes spell, all of the bytes. A fault of the wire is that of the first field, from left to
/// right, that can't be read; Unlawful comes where all can be read, and no node can be in that state.
pub fn decode_state(alloc: Global, bytes: &[u8], layout: Layout) -> Result<Node, StateFault>
    // What each answer tells of the bytes.
    ensures answer { Decodes layout bytes.now result }
    // A node whose state is spelled so is found, unless memory runs out.
    ensures only { (n : machine.Node) → SpellsNode layout bytes.now n → Is result (Ok n) }
    // So is it told where no node can be in the state that is spelled so.
    ensures unlawful { SpellsUnlawful layout bytes.now → Is result (Err faults.Unlawful) }
{
    decode_all(alloc, bytes, layout)
}
