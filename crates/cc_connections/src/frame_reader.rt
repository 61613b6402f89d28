//! Frames out of a stream that comes in pieces.

ghost use Rattle.std.specs.Prelude.{◌≡◌, ◌≤◌, ◌+◌, ◌-◌, ◌++◌, [], min, length, take, IsTrue, Some, None, Err, IfOk, IfErr, OnErr, MatchResult};
ghost use Rattle.std.specs.Vec.{vec_capacity};
ghost use Rattle.cc_connections.specs.Limits.{frame_limit};
ghost use Rattle.cc_wire.specs.declared.fault.WireFault.TheVariants.{Broken};
ghost use Rattle.cc_wire.specs.Readers.{Gives, Fails};
ghost use Rattle.cc_connections.specs.Held.{frame_length, is_partial, front_of, TopsUp, IsHeld};
ghost use Rattle.cc_connections.specs.Streams.{fed, rest_after, held_after, FeedsRead, FeedsRefuse, StreamsReadOneWay, StreamsStayRefused};

use crate::frame::{Frame, read_body_length, read_frame};
use cc_views::NoMemory;
use cc_wire::{Reader, WireFault};
use std::alloc::Global;
use std::marker::Model;

/// Gives the frames of a stream that comes in pieces.
#[derive(Drop)]
pub struct FrameReader {
    // What came since the last frame, in room for the largest one.
    held: Vec<u8>,
    is_broken: bool,
}

impl Model for FrameReader {
    ghost use Rattle.std.specs.Prelude.{ℕ, List, Option, Some, None, if◌then◌else◌};
    ghost use Rattle.std.specs.Vec.{vec_capacity};
    ghost use Rattle.cc_connections.specs.Held.{IsHeld};

    ghost Value = { Option (List ℕ) };

    ghost view = { λ r. if r.is_broken then None else Some r.held.items };

    ghost invariant = { λ r. IsHeld r.held.items (vec_capacity r.held) };
}

/// What a feed gives.
#[derive(Drop)]
pub struct Fed {
    /// How many bytes of the piece were used.
    pub used: usize,
    /// The frame that is whole now, if one is.
    pub frame: Option<Frame>,
}

impl FrameReader {
    /// A reader at the start of a stream, with room for the largest frame.
    pub fn new(alloc: Global) -> Result<Self, NoMemory>
        ensures { IfOk result (λ r. r ≡ Some []) }
    {
        let held = Vec::with_capacity(alloc, Frame::LENGTH + Frame::MAX_BODY)?;
        Ok(FrameReader {
            held,
            is_broken: false,
        })
    }

    /// Takes bytes of the piece until a frame is whole, or all of them.
    ///
    /// A length of 0 is `Short` and one above 65,536 `TooLarge`, as soon as its four bytes are there; a bad body is
    /// refused when it is whole. After `NoMemory` the reader is as it was, and after any other refusal it answers
    /// `Broken` for good.
    pub fn feed(&mut self, alloc: Global, piece: &[u8]) -> Result<Fed, WireFault>
        ensures exact { Gives (λ x. x) result (fed self.old piece.now) }
        // A reader that is broken takes no memory: it answers nothing else.
        ensures broken { self.old ≡ None → result ≡ Err Broken }
        ensures held { self.new ≡ held_after self.old piece.now result }
        ensures used { IfOk result (λ fed. fed.used ≤ length piece.now) }
    {
        if self.is_broken {
            return Err(WireFault::Broken);
        }
        let outcome = take_in(alloc, &mut self.held, piece);
        if let Err(fault) = &outcome {
            self.is_broken = !matches!(fault, WireFault::NoMemory);
        }
        outcome
    }
}

// Adds bytes of the piece until there are so many, or all of them. Answers how many it added.
fn add_up_to(held: &mut Vec<u8>, piece: &[u8], goal: usize) -> usize
    requires { goal ≤ vec_capacity held.old }
    ensures used { result ≡ min (goal - length held.old.items) (length piece.now) }
    ensures held { held.new.items ≡ held.old.items ++ take result piece.now }
    ensures room { vec_capacity held.old ≤ vec_capacity held.new }
{
    let count = goal.saturating_sub(held.len()).min(piece.len());
    held.extend_from_slice(&piece[..count]).unwrap();
    count
}

// How long the frame at the front is, as far as its length is there.
#[tactic(auto, unfolding(crate::specs::Held::frame_length))]
fn frame_len(held: &[u8]) -> Result<usize, WireFault>
    ensures exact { Gives (λ x. x) result (frame_length held.now) }
    ensures fits { IfOk result (λ n. n ≤ frame_limit) }
{
    if held.len() < Frame::LENGTH {
        return Ok(Frame::LENGTH);
    }
    let mut reader = Reader::new(held);
    let length = read_body_length(&mut reader)?;
    Ok(Frame::LENGTH + length)
}

// Adds the bytes of the piece that belong to the frame at the front.
fn top_up(held: &mut Vec<u8>, piece: &[u8]) -> Result<usize, WireFault>
    requires { IsHeld held.old.items (vec_capacity held.old) }
    ensures ok { IfOk result (λ used. TopsUp held.old.items piece.now used held.new.items) }
    ensures err { IfErr result (λ e. Fails e (front_of (held.old.items ++ piece.now))) }
    ensures front { take (length held.old.items) held.new.items ≡ held.old.items }
    ensures room { frame_limit ≤ vec_capacity held.new }
{
    let first = add_up_to(held, piece, Frame::LENGTH);
    let goal = frame_len(held)?;
    let more = add_up_to(held, &piece[first..], goal);
    Ok(first + more)
}

// The frame at the front, if it is whole.
#[tactic(auto, unfolding(crate::specs::Held::is_partial))]
fn whole_frame(alloc: Global, held: &[u8]) -> Result<Option<Frame>, WireFault>
    ensures { Gives (λ x. x) result (front_of held.now) }
{
    let goal = frame_len(held)?;
    if held.len() < goal {
        return Ok(None);
    }
    let mut reader = Reader::new(held);
    let frame = read_frame(alloc, &mut reader)?;
    Ok(Some(frame))
}

// As `next_frame`, and on an `Err` nothing has changed.
fn take_in(alloc: Global, held: &mut Vec<u8>, piece: &[u8]) -> Result<Fed, WireFault>
    requires { IsHeld held.old.items (vec_capacity held.old) }
    ensures exact { Gives (λ x. x) result (fed (Some held.old.items) piece.now) }
    ensures rest { MatchResult result (λ given. held.new.items ≡ rest_after held.old.items piece.now given.frame) (λ _. held.new.items ≡ held.old.items) }
    ensures used { IfOk result (λ given. given.used ≤ length piece.now) }
    ensures held { IsHeld held.new.items (vec_capacity held.new) }
{
    let start = held.len();
    let outcome = next_frame(alloc, held, piece);
    if outcome.is_err() {
        held.truncate(start);
    }
    outcome
}

// Gives the frame that becomes whole with the piece, if one does.
fn next_frame(alloc: Global, held: &mut Vec<u8>, piece: &[u8]) -> Result<Fed, WireFault>
    requires { IsHeld held.old.items (vec_capacity held.old) }
    ensures exact { Gives (λ x. x) result (fed (Some held.old.items) piece.now) }
    ensures rest { IfOk result (λ given. held.new.items ≡ rest_after held.old.items piece.now given.frame) }
    ensures used { IfOk result (λ given. given.used ≤ length piece.now) }
    ensures front { OnErr result (take (length held.old.items) held.new.items ≡ held.old.items) }
    ensures room { frame_limit ≤ vec_capacity held.new }
{
    let used = top_up(held, piece)?;
    let frame = whole_frame(alloc, held)?;
    if frame.is_some() {
        held.clear();
    }
    Ok(Fed { used, frame })
}

/// What feeds give, however a stream is cut into pieces.
pub fn feeds_any_cutting()
    ensures read { FeedsRead }
    ensures refuse { FeedsRefuse }
    ensures one_way { StreamsReadOneWay }
    ensures stay { StreamsStayRefused }
{}
