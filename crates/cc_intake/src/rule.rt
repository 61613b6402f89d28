//! The rule of the queue: what was pushed is lawful from the node that was opened, and is what was popped and then what the
//! queue holds.

use cc_journal::Entry;
use crossbeam_queue::RuledArrayQueue;
use crossbeam_queue::protocol::{Join, Lesson, Outcome, Protocol, Split};
use std::collections::LinkedList;
use std::marker::{Brand, PhantomData};
use std::sync::ledger::Ledger;

/// Names one life: the node that was opened, beside the ledger of its shares. A caller's generic function is called with
/// `Brand` for it, so what comes out of a lock is known to be of the same life.
///
/// That a list was reached is known to the end of the queue that pushes, and that a list was taken to the end that pops. The
/// other end knows it only where it looked at the queue: the rule tells it of what is pushed and popped now, under the number
/// of that look, and of no other list. Which lists were accepted is known to the end that pushes, and to others only by what an
/// intake answers. How many events were flushed is known to the turner, and to others only by what a turn tells.
pub trait Life: Ledger {
    ghost use Rattle.std.specs.Prelude.{List, ℕ};
    ghost use Rattle.cc_node.specs.Node.{Node};
    ghost use Rattle.cc_journal.specs.declared.entry.Entry.{Entry};

    /// The node that was opened.
    ghost opening: { Node };

    /// At the look of this number that found the queue empty, this was all that had been pushed.
    ghost reached: { ℕ → List Entry → Type 0 };

    /// At the look of this number that found the queue full, this was all that had been popped.
    ghost taken: { ℕ → List Entry → Type 0 };

    /// At one moment this was all that had been accepted.
    ghost accepted: { List Entry → Type 0 };

    /// So many events of this life had been made durable at one moment.
    ghost flushed: { ℕ → Type 0 };
}

impl Life for Brand {
    ghost use Rattle.cc_intake.specs.Line.{no_opening};

    ghost opening = { no_opening };

    ghost reached = { λ look list. Unit {0} };

    ghost taken = { λ look list. Unit {0} };

    ghost accepted = { λ list. Unit {0} };

    ghost flushed = { λ count. Unit {0} };
}

/// Names one queue.
pub trait Lane {
    ghost use Rattle.atomic_table.specs.Seated.{TableId};

    ghost table: { TableId };
}

impl Lane for Brand {
    ghost use Rattle.cc_intake.specs.Line.{unnamed};

    ghost table = { unnamed };
}

// What a pass may do (push, pop), what it has pushed and popped, and how often it found the queue full or empty. No value of
// it is made.
pub struct PassView {
    pub pushes: bool,
    pub pops: bool,
    pub sent: LinkedList<Entry>,
    pub got: LinkedList<Entry>,
    pub finds: u64,
}

pub struct OneLine<L> {
    life: PhantomData<L>,
}

impl<L: Life> Protocol<Entry, PassView> for OneLine<L> {
    ghost use Rattle.cc_intake.specs.Line.{IsOneLine, newcomer};

    ghost holds = { IsOneLine L.opening L.reached L.taken };

    ghost first = { newcomer };
}

pub type Ring<L> = RuledArrayQueue<Entry, PassView, OneLine<L>>;

// A push, and what a full queue tells.
pub struct Push<L> {
    life: PhantomData<L>,
}

impl<L: Life> Outcome<Entry, PassView> for Push<L> {
    ghost use Rattle.cc_intake.specs.Line.{Pushed};

    ghost then = { Pushed };
}

impl<L: Life> Lesson<Entry, PassView> for Push<L> {
    ghost use Rattle.cc_intake.specs.Line.{WasRest};

    ghost fact = { λ v items. WasRest L.taken v.finds v.sent items };
}

// A pop, whose list is lawful, and what an empty queue tells.
pub struct Pop<L> {
    life: PhantomData<L>,
}

impl<L: Life> Outcome<Entry, PassView> for Pop<L> {
    ghost use Rattle.cc_intake.specs.Line.{Popped};

    ghost then = { Popped L.opening };
}

impl<L: Life> Lesson<Entry, PassView> for Pop<L> {
    ghost use Rattle.std.specs.Prelude.{◌≡◌, []};

    ghost fact = { λ v items. items ≡ [] → L.reached v.finds v.got };
}

// The first pass is cut into those of the two ends, and these are put together again.
pub struct TwoEnds;

impl Split<PassView> for TwoEnds {
    ghost use Rattle.cc_intake.specs.Line.{producer, consumer};

    ghost left = { λ v. producer v.sent v.finds };

    ghost right = { λ v. consumer v.got 0 };
}

impl Join<PassView> for TwoEnds {
    ghost use Rattle.cc_intake.specs.Line.{both, nobody};

    ghost both = { both };

    ghost spent = { nobody };
}

// Both ends together know the whole.
pub struct WholeLine;

impl Lesson<Entry, PassView> for WholeLine {
    ghost use Rattle.std.specs.Prelude.{◌≡◌, ◌++◌};

    ghost fact = { λ v items. v.sent ≡ v.got ++ items };
}
