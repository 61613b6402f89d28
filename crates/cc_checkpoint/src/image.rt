//! What stands behind the gate of a side that holds a state and no record.

ghost use Rattle.std.specs.Prelude.{◌≡◌, ◌≤◌, ◌<◌, ◌^◌, ◌++◌, ◌∷◌, [], IfOk, OnOk, length};
ghost use Rattle.cc_node_state.specs.Layouts.{version_of};
ghost use Rattle.cc_node_state.specs.States.{SpellsNode, layout_of_node};
ghost use Rattle.cc_checkpoint.specs.Images.{image_spelling, SpellsImage};

use cc_node::Node;
use cc_node_state::{Layout, encode_state};
use cc_site::CLOSED_GATE;
use cc_views::NoMemory;
use cc_wire::{put_u8, put_u32, put_u64};
use std::alloc::{AllocError, Global};

/// The version of the format in which the state of a node is written.
pub(crate) fn version_for(node: &Node) -> u8
    ensures { result ≡ version_of (layout_of_node node.now) }
{
    let share = node.core().ops().share();
    Layout::of_share(share).version()
}

// Puts the generation, the version, the state behind its length, and a closed gate.
#[tactic(auto, unfolding(crate::specs::Images::head_spelling))]
fn put_image(
    image: &mut Vec<u8>,
    version: u8,
    generation: u64,
    state: &[u8],
) -> Result<(), AllocError>
    requires empty { image.old.items ≡ [] }
    requires short { length state.now < 2 ^ 32 }
    ensures { OnOk result (image.new.items ≡ image_spelling version generation state.now) }
{
    put_u64(image, generation)?;
    put_u8(image, version)?;
    put_u32(image, state.len() as u32)?;
    image.extend_from_slice(state)?;
    put_u8(image, CLOSED_GATE)
}

/// The bytes behind the gate of a side that holds the node under this generation, and no record. NoMemory where a growth
/// was refused.
pub fn encode_image(alloc: Global, generation: u64, node: &Node) -> Result<Vec<u8>, NoMemory>
    requires { 1 ≤ generation }
    ensures { IfOk result (λ image. SpellsImage image.items generation node.now) }
{
    let mut state = Vec::new(alloc);
    encode_state(node, &mut state)?;
    let mut image = Vec::new(alloc);
    put_image(&mut image, version_for(node), generation, &state)?;
    Ok(image)
}
