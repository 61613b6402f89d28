//! What is done with an engine, what that comes to, and what crashes leave.

use crate::parts::{Part, batch_of};
use crate::refusals::unless_failed;
use cc_checkpoint::OpenFault;
use cc_flush::{Back, CheckpointFault, Failed, Flusher};
use cc_node::Node;
use cc_node_state::encode_state;
use cc_site::{Choice, MemorySite};
use std::alloc::Global;
use std::process::Abort;

/// What is done with an engine: a batch is committed and released by one call, or the call of that name.
#[derive(Clone, Copy)]
pub enum Step {
    Turn(Part),
    Resend,
    Checkpoint,
}

/// What a step comes to: how many outputs it has put again, or why it failed.
pub type Came = Result<u64, CheckpointFault>;

// Opens a site.
fn opened(alloc: Global, site: MemorySite) -> Result<Flusher<MemorySite>, OpenFault> {
    match Flusher::open(alloc, site) {
        Ok((flusher, core)) => {
            drop(core);
            Ok(flusher)
        }
        Err(Back { site, fault }) => {
            drop(site);
            Err(fault)
        }
    }
}

/// The engine of a site, which can be opened.
pub fn engine<R: Abort + AllocGlobal>(rt: &R, site: MemorySite) -> Flusher<MemorySite> {
    opened(rt.alloc(), site).expect(rt, "the site is opened")
}

fn came_of(answer: Result<u64, Failed>) -> Came {
    match answer {
        Ok(count) => Ok(count),
        Err(failed) => Err(CheckpointFault::Failed(failed)),
    }
}

/// Carries out a step.
pub fn carry_out<R: Abort + AllocGlobal>(
    rt: &R,
    flusher: &mut Flusher<MemorySite>,
    step: Step,
) -> Came {
    if flusher.owes() || !flusher.room() {
        panic!(rt; "there is no room");
    }
    match step {
        Step::Turn(part) => {
            let mut batch = batch_of(rt, flusher.twin(), part);
            let came = came_of(flusher.flush(&mut batch).and(Ok(0)));
            drop(batch);
            came
        }
        Step::Resend => came_of(flusher.resend()),
        Step::Checkpoint => flusher.checkpoint().and(Ok(0)),
    }
}

/// Opens a site and carries out steps. Beside the site it gives what the last one comes to.
pub fn run<R: Abort + AllocGlobal>(rt: &R, site: MemorySite, steps: &[Step]) -> (MemorySite, Came) {
    let mut flusher = engine(rt, site);
    let mut came = Ok(0);
    for &step in steps {
        came = carry_out(rt, &mut flusher, step);
    }
    (flusher.close(), came)
}

/// How many posts the node of a site has made, or why no node is opened.
pub fn left_of(alloc: Global, site: MemorySite) -> Result<u64, OpenFault> {
    let flusher = opened(alloc, site)?;
    let posts = flusher.twin().core().posts();
    drop(flusher.close());
    Ok(posts)
}

/// The state of a node.
pub fn state_of_node<R: Abort + AllocGlobal>(rt: &R, node: &Node) -> Vec<u8> {
    let mut state = Vec::new(rt.alloc());
    let put = encode_state(node, &mut state);
    unless_failed(rt, put, state.is_empty());
    state
}

/// The state of the node of a site.
pub fn state_of<R: Abort + AllocGlobal>(rt: &R, site: MemorySite) -> Vec<u8> {
    let flusher = engine(rt, site);
    let state = state_of_node(rt, flusher.twin());
    drop(flusher.close());
    state
}

/// What crashes make of touched places: they are as they are read, full of 00, of A5 and of FF, and cut away.
pub const CRASHES: [Choice; 5] = [
    Choice::Read,
    Choice::Fill(0),
    Choice::Fill(0xA5),
    Choice::Fill(0xFF),
    Choice::Short,
];

// Whether it is one of these states.
fn is_among(states: &[Vec<u8>], left: &[u8]) -> bool {
    for state in states {
        if state.as_slice() == left {
            return true;
        }
    }
    false
}

/// Whether each of five crashes leaves a node with one of these states.
pub fn are_left<R: Abort + AllocGlobal>(rt: &R, site: &MemorySite, states: &[Vec<u8>]) -> bool {
    for choice in CRASHES.iter() {
        let image = site.image(rt.alloc(), choice).expect(rt, "an image");
        let left = state_of(rt, image);
        if !is_among(states, &left) {
            return false;
        }
    }
    true
}
