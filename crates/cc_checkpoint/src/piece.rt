//! The buffer that a node's state is written and read through.

ghost use Rattle.std.specs.Prelude.{ℕ, List, ◌≡◌, ◌≤◌, ◌+◌, ◌++◌, ◌∷◌, [], length, take, drop, vec_len, IfOk, OnOk};
ghost use Rattle.std.specs.Int.{to_be_bytes, w32, w64};
ghost use Rattle.std.specs.Vec.{vec_capacity};
ghost use Rattle.cc_wire.specs.Writers.{Writes};
ghost use Rattle.cc_site.specs.declared.site.Call.TheVariants.{Read};
ghost use Rattle.cc_site.specs.Moments.{CountsFault};
ghost use Rattle.cc_site.specs.Reads.{OnlyReads};
ghost use Rattle.cc_node_state.specs.Parts.{parts_of, joined, piece_limit};
ghost use Rattle.cc_checkpoint.specs.Windows.{AreBytes};

use cc_node::Node;
use cc_node_state::{part_count, part_len, put_part};
use cc_site::{DeviceFault, Side, Site, read_into};
use cc_views::NoMemory;
use cc_wire::{Reader, put_u8, put_u32, put_u64};
use std::alloc::{AllocError, Global};
use std::marker::Model;

/// A piece of a state: up to 65,536 bytes, in room that is there from the start, so that putting and reading them takes no
/// memory.
#[derive(Drop)]
pub struct Piece {
    bytes: Vec<u8>,
    // Where its bytes begin. Those before have been read.
    start: usize,
}

impl Model for Piece {
    ghost use Rattle.std.specs.Prelude.{ℕ, List, ◌≤◌, length, drop};
    ghost use Rattle.std.specs.Vec.{vec_capacity};
    ghost use Rattle.cc_node_state.specs.Parts.{piece_limit};

    ghost Value = { List ℕ };

    ghost view = { λ p. drop p.start p.bytes.items };

    ghost invariant = { λ p. (piece_limit ≤ vec_capacity p.bytes) × (p.start ≤ length p.bytes.items) };
}

// Puts what stands between the gate of a side and its state.
fn put_head(out: &mut Vec<u8>, version: u8, generation: u64, length: u32) -> Result<(), AllocError>
    ensures { Writes out.old out.new (to_be_bytes w64 generation ++ version ∷ to_be_bytes w32 length) result }
{
    put_u64(out, generation)?;
    put_u8(out, version)?;
    put_u32(out, length)
}

// Puts parts from one on, as many as there is room for, and gives the one behind them.
fn put_parts(out: &mut Vec<u8>, node: &Node, from: usize) -> usize
    requires from { from ≤ length (parts_of node.now) }
    requires empty { out.old.items ≡ [] }
    requires room { piece_limit ≤ vec_capacity out.old }
    ensures within { (from ≤ result) × (result ≤ length (parts_of node.now)) }
    ensures parts { (parts : List (List ℕ)) × (drop from (parts_of node.now) ≡ parts ++ drop result (parts_of node.now)) × (out.new.items ≡ joined parts) }
    ensures fits { length out.new.items ≤ piece_limit }
    ensures end { length out.new.items ≡ 0 → from ≡ length (parts_of node.now) }
    ensures room { vec_capacity out.old ≤ vec_capacity out.new }
{
    let count = part_count(node);
    let mut at = from;
    while at < count && out.len() + part_len(node, at) <= Piece::MAX_LEN {
        put_part(out, node, at).unwrap();
        at += 1;
    }
    at
}

// Lets the first bytes go.
fn remove_front(bytes: &mut Vec<u8>, count: usize)
    requires { count ≤ vec_len bytes.old }
    ensures items { bytes.new.items ≡ drop count bytes.old.items }
    ensures capacity { vec_capacity bytes.new ≡ vec_capacity bytes.old }
{
    let len = bytes.len();
    bytes.as_mut_slice().copy_within(count..len, 0);
    bytes.truncate(len - count);
}

// Puts what a side has from a place on behind what is there.
fn read_behind<S: Site>(
    bytes: &mut Vec<u8>,
    site: &mut S,
    side: Side,
    place: u64,
    count: usize,
) -> Result<(), DeviceFault>
    requires room { vec_len bytes.old + count ≤ piece_limit }
    requires capacity { piece_limit ≤ vec_capacity bytes.old }
    requires within { S.honest site.old → place + count ≤ length (S.state site.old side).bytes }
    ensures items { S.honest site.old → OnOk result (bytes.new.items ≡ bytes.old.items ++ take count (drop place (S.state site.old side).bytes)) }
    ensures len { vec_len bytes.new ≡ vec_len bytes.old + count }
    ensures capacity { piece_limit ≤ vec_capacity bytes.new }
    ensures reads { OnlyReads S.Site site.old site.new }
    ensures fault { CountsFault (S.failures site.old) (S.failures site.new) side Read result }
{
    let held = bytes.len();
    bytes.resize(held + count, 0).unwrap();
    read_into(site, side, place, &mut bytes[held..])
}

impl Piece {
    /// How many bytes a piece has at most.
    pub const MAX_LEN: usize = 65_536;

    /// One without a byte. NoMemory where its room was refused.
    pub fn new(alloc: Global) -> Result<Self, NoMemory>
        ensures { IfOk result (λ piece. piece ≡ []) }
    {
        let bytes = Vec::with_capacity(alloc, Self::MAX_LEN)?;
        Ok(Piece { bytes, start: 0 })
    }

    /// Its bytes.
    pub fn as_slice(&self) -> &[u8]
        ensures { result.now ≡ self.now }
    {
        &self.bytes[self.start..]
    }

    /// How many bytes it has.
    pub(crate) fn len(&self) -> usize
        ensures len { result ≡ length self.now }
        ensures bytes { AreBytes self.now }
    {
        let bytes = self.as_slice();
        bytes.len()
    }

    /// Lets all bytes go.
    pub(crate) fn clear(&mut self)
        ensures { self.new ≡ [] }
    {
        self.bytes.clear();
        self.start = 0;
    }

    /// A reader of its bytes.
    pub(crate) fn reader(&self) -> Reader<'_>
        ensures value { result ≡ self.now }
        ensures bytes { AreBytes self.now }
    {
        let bytes = self.as_slice();
        Reader::new(bytes)
    }

    /// Lets the first bytes go, which have been read.
    pub(crate) fn advance(&mut self, count: usize)
        requires { count ≤ length self.old }
        ensures { self.new ≡ drop count self.old }
    {
        self.start += count;
    }

    /// Puts what a side has from a place on behind its bytes.
    pub(crate) fn read_on<S: Site>(
        &mut self,
        site: &mut S,
        side: Side,
        place: u64,
        count: usize,
    ) -> Result<(), DeviceFault>
        requires room { length self.old + count ≤ piece_limit }
        requires within { S.honest site.old → place + count ≤ length (S.state site.old side).bytes }
        ensures held { S.honest site.old → OnOk result (self.new ≡ self.old ++ take count (drop place (S.state site.old side).bytes)) }
        ensures len { length self.new ≡ length self.old + count }
        ensures reads { OnlyReads S.Site site.old site.new }
        ensures fault { CountsFault (S.failures site.old) (S.failures site.new) side Read result }
    {
        remove_front(&mut self.bytes, self.start);
        self.start = 0;
        read_behind(&mut self.bytes, site, side, place, count)
    }

    /// What stands between the gate of a side and a state of that version and length.
    pub(crate) fn begin(&mut self, version: u8, generation: u64, length: u32)
        ensures { self.new ≡ to_be_bytes w64 generation ++ version ∷ to_be_bytes w32 length }
    {
        self.bytes.clear();
        self.start = 0;
        put_head(&mut self.bytes, version, generation, length).unwrap();
    }

    /// The parts of a node's state from one on, as many as there is room for. The one behind them.
    pub(crate) fn take_parts(&mut self, node: &Node, from: usize) -> usize
        requires { from ≤ length (parts_of node.now) }
        ensures within { result ≤ length (parts_of node.now) }
        ensures parts { (parts : List (List ℕ)) × (drop from (parts_of node.now) ≡ parts ++ drop result (parts_of node.now)) × (self.new ≡ joined parts) }
        ensures fits { length self.new ≤ piece_limit }
        ensures end { length self.new ≡ 0 → from ≡ length (parts_of node.now) }
    {
        self.bytes.clear();
        self.start = 0;
        put_parts(&mut self.bytes, node, from)
    }
}
