//! What the operator's request to leave, or to retire a node, came to.

ghost use Rattle.std.specs.Prelude.{◌≡◌, ℕ, Some, None};
ghost use Rattle.cc_policies.specs.Clients.{refusal_told};
ghost use Rattle.cc_messages.specs.declared.event.Event.TheVariants as event;
ghost use Rattle.cc_messages.specs.declared.refusal.Refusal.TheVariants as refusal;
ghost use Rattle.cc_node.specs.Core.{Core, next};
ghost use Rattle.cc_node.specs.Refusals.{decides};
ghost use Rattle.cc_policies.specs.OperatorOutcomes.{objection_number, objection_told, objection_frame, outcome_told, outcome_numbered, outcome_in, probe_frame};
ghost use Rattle.cc_policies.specs.OperatorOutcomes.{nothing_heard, after_clue, settled, verdict_of, one_more, clue_in, clue_of, request_clue, probe_clue};
ghost use Rattle.cc_policies.specs.OperatorOutcomes.{retirement_after, verdict_after, verdict_at_end, verdict_along, told_of};
ghost use Rattle.cc_node.specs.Refusals as reason;
ghost use Rattle.cc_policies.specs.declared.operator_outcome.Outcome.TheVariants as outcome;

use crate::client::refusal_of;
use cc_connections::Frame;
use cc_messages::{Command, Refusal};

/// Why the server of a node doesn't hand a retirement to its node, which would accept it.
#[derive(Clone, Copy, PartialEq, Eq)]
pub enum Objection {
    /// The node to be retired is the one that was asked.
    Itself,
    /// The node to be retired was heard of a moment ago.
    Alive,
}

impl Objection {
    /// The number under which it is told, beyond those of refusals.
    pub fn number(self) -> u8
        ensures { result ≡ objection_number self }
    {
        match self {
            Objection::Itself => 32,
            Objection::Alive => 33,
        }
    }
}

/// The objection with that number. None for any other number.
fn objection_of(number: u8) -> Option<Objection>
    ensures { result ≡ objection_told number }
{
    match number {
        32 => Some(Objection::Itself),
        33 => Some(Objection::Alive),
        _ => None,
    }
}

/// What tells the operator of an objection.
pub fn objection_frame(why: Objection) -> Frame
    ensures { result ≡ objection_frame why }
{
    Frame::Refused {
        session: 0,
        request: 0,
        refusal: why.number(),
        value: 0,
    }
}

/// What the operator's request came to.
#[derive(Clone, Copy, PartialEq, Eq)]
pub enum Outcome {
    /// The node counts as one that left, by this request or by an earlier one.
    Done,
    /// Nothing was done: the node refuses it.
    Refused(Refusal),
    /// Nothing was done: the server didn't hand it to the node.
    Objected(Objection),
}

/// What a frame that comes back tells of the operator's request. None where it is about something else.
///
/// A node answers the operator only where it refuses. So the request is sent twice over one connection: where the first
/// is accepted, the second is refused as Left, and where the first is refused, that comes back first.
pub fn outcome_of(frame: &Frame) -> Option<Outcome>
    ensures { result ≡ outcome_in frame.now }
{
    match frame {
        Frame::Refused {
            session: 0,
            request: 0,
            refusal,
            value,
        } => outcome_numbered(*refusal, *value),
        _ => None,
    }
}

fn outcome_numbered(number: u8, value: u64) -> Option<Outcome>
    ensures { result ≡ outcome_numbered (objection_told number) (refusal_told number value) }
{
    match objection_of(number) {
        Some(why) => Some(Outcome::Objected(why)),
        None => outcome_told(refusal_of(number, value)),
    }
}

fn outcome_told(refusal: Option<Refusal>) -> Option<Outcome>
    ensures { result ≡ outcome_told refusal }
{
    match refusal? {
        Refusal::Left => Some(Outcome::Done),
        refusal => Some(Outcome::Refused(refusal)),
    }
}

/// What the server objects to is what the operator is told.
pub fn objections_are_told()
    ensures { (why : Objection) → outcome_in (objection_frame why) ≡ Some (outcome.Objected why) }
{}

/// What an operator has heard of a retirement. Its request is sent twice over one connection, and behind them a probe, which is
/// refused as Left where the node itself has left.
#[derive(Clone, Copy, PartialEq, Eq)]
pub struct Retirement {
    /// Which of the two requests were refused as Left.
    pub lefts: Lefts,
    /// Whether the probe was refused otherwise: the node hasn't left.
    pub is_there: bool,
}

/// How many of two requests were refused as Left.
#[derive(Clone, Copy, PartialEq, Eq)]
pub enum Lefts {
    Neither,
    One,
    Both,
}

// What a frame tells of a retirement.
#[derive(Clone, Copy, PartialEq, Eq)]
enum Clue {
    // A request is refused as Left.
    Left,
    // The node hasn't left.
    There,
    // What the retirement came to.
    Decided(Outcome),
    // It is about something else.
    Nothing,
}

// The session of the probe.
const PROBE_SESSION: u64 = u64::MAX;

/// What is sent behind the two requests of a retirement: an ask under number 0, which is never taken.
pub fn probe_frame() -> Frame
    ensures { result ≡ probe_frame }
{
    Frame::Ask {
        session: PROBE_SESSION,
        request: 0,
        command: Command::ReadFlag,
    }
}

impl Retirement {
    /// Nothing was heard yet.
    pub fn new() -> Self
        ensures { result ≡ nothing_heard }
    {
        Retirement {
            lefts: Lefts::Neither,
            is_there: false,
        }
    }

    /// Takes a frame in that came: what the retirement came to, where that is known now. Done is that the node to be retired
    /// counts as one that left, at a node that hasn't.
    pub fn hear(&mut self, frame: &Frame) -> Option<Outcome>
        ensures outcome { result ≡ verdict_after self.old frame.now }
        ensures heard { self.new ≡ retirement_after self.old frame.now }
    {
        let clue = clue_in(frame);
        self.note(clue);
        self.verdict(clue)
    }

    /// What it came to where the connection ends first, as one does that a node has for operators alone. None where that isn't
    /// known.
    pub fn end(self) -> Option<Outcome>
        ensures { result ≡ verdict_at_end self }
    {
        match self.lefts {
            Lefts::One => Some(Outcome::Done),
            Lefts::Neither | Lefts::Both => None,
        }
    }

    fn note(&mut self, clue: Clue)
        ensures { self.new ≡ after_clue self.old clue }
    {
        match clue {
            Clue::Left => self.lefts = one_more(self.lefts),
            Clue::There => self.is_there = true,
            Clue::Decided(_) | Clue::Nothing => {}
        }
    }

    fn verdict(&self, clue: Clue) -> Option<Outcome>
        ensures { result ≡ verdict_of self.now clue }
    {
        match clue {
            Clue::Decided(why) => Some(why),
            Clue::Left | Clue::There => self.settled(),
            Clue::Nothing => None,
        }
    }

    fn settled(&self) -> Option<Outcome>
        ensures { result ≡ settled self.now.lefts self.now.is_there }
    {
        match self.lefts {
            Lefts::One | Lefts::Both if self.is_there => Some(Outcome::Done),
            _ => None,
        }
    }
}

fn one_more(lefts: Lefts) -> Lefts
    ensures { result ≡ one_more lefts }
{
    match lefts {
        Lefts::Neither => Lefts::One,
        Lefts::One | Lefts::Both => Lefts::Both,
    }
}

fn clue_in(frame: &Frame) -> Clue
    ensures { result ≡ clue_in frame.now }
{
    match frame {
        Frame::Refused {
            session,
            request,
            refusal,
            value,
        } => clue_of(*session, *request, *refusal, *value),
        _ => Clue::Nothing,
    }
}

fn clue_of(session: u64, request: u64, number: u8, value: u64) -> Clue
    ensures { result ≡ clue_of session request number value }
{
    if session == 0 && request == 0 {
        return request_clue(outcome_numbered(number, value));
    }
    if session == PROBE_SESSION && request == 0 {
        return probe_clue(refusal_of(number, value));
    }
    Clue::Nothing
}

fn request_clue(told: Option<Outcome>) -> Clue
    ensures { result ≡ request_clue told }
{
    match told {
        Some(Outcome::Done) => Clue::Left,
        Some(why) => Clue::Decided(why),
        None => Clue::Nothing,
    }
}

fn probe_clue(told: Option<Refusal>) -> Clue
    ensures { result ≡ probe_clue told }
{
    match told {
        Some(Refusal::Left) => Clue::Decided(Outcome::Refused(Refusal::Left)),
        Some(_) => Clue::There,
        None => Clue::Nothing,
    }
}

/// Of two requests to leave, or to retire one node, the second is refused as Left.
pub fn second_request_is_left()
    ensures leave { (c : Core) → decides (next c event.Leave) event.Leave ≡ Some refusal.Left }
    ensures retire { (c : Core) (node : ℕ) → decides (next c (event.Retire node)) (event.Retire node) ≡ Some refusal.Left }
{}

/// Of a retirement that comes twice, and the probe behind it, a node tells what the operator takes for the outcome: that the node
/// itself has left; and else that the other one counts as one that left, where it takes the retirement or that one had left.
pub fn a_retirement_is_told()
    ensures left { (c : Core) (node : ℕ) → reason.left c ≡ Some refusal.Left → verdict_along nothing_heard (told_of c node) ≡ Some (outcome.Refused refusal.Left) }
    ensures taken { (c : Core) (node : ℕ) → reason.left c ≡ None → ¬ (node ≡ c.me) → decides c (event.Retire node) ≡ None
        → verdict_along nothing_heard (told_of c node) ≡ Some outcome.Done }
    ensures gone { (c : Core) (node : ℕ) → reason.left c ≡ None → decides c (event.Retire node) ≡ Some refusal.Left
        → verdict_along nothing_heard (told_of c node) ≡ Some outcome.Done }
{}
