//! The intake, which threads share under a lock, and their shares of what it accepted.

ghost use Rattle.std.specs.Prelude.{◌≡◌, ◌≤◌, ◌<◌, ◌+◌, [], ◌∷◌, ◌++◌, length, sum, IfOk, IfErr, OnErr, MatchOption};
ghost use Rattle.cc_node.specs.Core.{made};
ghost use Rattle.cc_intake.specs.Histories.{life_limit, core_after, entry_at, stirs};
ghost use Rattle.cc_intake.specs.Intakes.{share_limit};
ghost use Rattle.cc_intake.specs.Refusals.{MayAccept, Refuses};

use crate::ends::{Producer, Queue};
use crate::rule::{Lane, Life};
use cc_journal::Entry;
use cc_messages::{Event, Refusal};
use cc_node::{Core, Made};
use std::alloc::Global;
use std::marker::Model;
use std::sync::ledger::{Blank, Book};
use std::sync::{Wait, ledger};

// How many shares are given out in one life at most.
const SHARE_LIMIT: u64 = 1 << 20;

// How many events are accepted in one life at most.
const LIFE_LIMIT: u64 = 1 << 61;

/// Why an event was refused. Only an intake makes one, and it can't be copied: so whoever has one was told it.
#[derive(Debug, Drop)]
pub struct Refused {
    pub why: Refusal,
    /// How many events of this life had been accepted by then: it was judged by the node after these.
    pub accepted: u64,
    told: Told,
}

// An intake told it.
#[derive(Debug, Drop)]
struct Told;

/// What is told of an accepted event.
#[derive(Clone, Copy, PartialEq, Eq)]
pub struct Accepted {
    /// Its place in this life, from 1.
    pub place: u64,
    /// Whether it makes a post or an answer, for which somebody waits.
    pub stirs: bool,
}

// Whether there is a post or an answer in what an event makes.
fn stirs(made: &Made) -> bool
    ensures { result ≡ stirs made.now }
{
    made.post.is_some() || !made.answers.is_empty()
}

/// How many events one thread has had accepted. Contracts see the number.
#[derive(Drop)]
pub struct Share<L: Life> {
    mark: ledger::Share<L>,
    count: u64,
}

impl<L: Life> Model for Share<L> {
    ghost use Rattle.std.specs.Prelude.{◌≡◌, ℕ};

    ghost Value = { ℕ };

    ghost view = { λ s. s.count };

    ghost invariant = { λ s. (s.mark.parts ≡ 1) × (s.mark.amount ≡ s.count) };
}

impl<L: Life> Share<L> {
    /// How many events were accepted for it.
    pub fn count(&self) -> u64
        ensures { result ≡ self.now }
    {
        self.count
    }

    // Counts one event more, in the book too.
    fn raise(&mut self, book: &mut Book<L>)
        requires { book.old.total < life_limit }
        ensures total { book.new.total ≡ book.old.total + 1 }
        ensures count { self.new ≡ self.old + 1 }
        ensures most { self.old ≤ book.old.total }
    {
        let Share { mark, count } = self;
        book.audit(mark);
        book.add(mark, 1);
        *count += 1;
    }
}

// The shares' counts, added up. With all parts they are the total.
fn added<L: Life>(book: &mut Book<L>, all: &mut ledger::Share<L>, shares: Vec<Share<L>>) -> u64
    requires empty { all.old.amount ≡ 0 }
    requires room { book.old.total ≤ life_limit }
    ensures sum { result ≡ sum shares.items }
    ensures whole { all.old.parts + length shares.items ≡ L.parts → result ≡ book.old.total }
{
    let mut told = 0;
    for share in shares {
        let Share { mark, count } = share;
        all.merge(mark);
        book.audit(all);
        told += count;
    }
    book.audit(all);
    told
}

/// The core after all events that were accepted, with the end of the queue that pushes and the book of shares. Threads share
/// it under a lock. Contracts see the entries that it has accepted, how often it found the queue full, and how many shares it
/// gave out.
#[derive(Drop)]
pub struct Intake<L: Life, Q: Lane> {
    core: Core,
    producer: Producer<L, Q>,
    accepted: u64,
    book: Book<L>,
    unissued: ledger::Share<L>,
    issued: u64,
}

impl<L: Life, Q: Lane> Model for Intake<L, Q> {
    ghost use Rattle.std.specs.Prelude.{◌≡◌, ◌+◌, ◌≤◌, length};
    ghost use Rattle.cc_intake.specs.Histories.{life_limit, core_after};
    ghost use Rattle.cc_intake.specs.Intakes.{Accepting, accepting_code, share_limit};

    ghost Value = { Accepting };

    ghost coded = { accepting_code };

    ghost view = { λ i. record { entries = i.producer.entries; finds = i.producer.finds; issued = i.issued } };

    ghost invariant = { λ i. (i.core ≡ core_after L.opening i.producer.entries) × (i.accepted ≡ length i.producer.entries) × (i.accepted ≤ life_limit)
        × (i.book.total ≡ i.accepted) × (i.unissued.parts + i.issued ≡ share_limit) × (i.unissued.amount ≡ 0) × (L.parts ≡ share_limit)
        × L.accepted i.producer.entries };
}

impl<L: Life, Q: Lane> Intake<L, Q> {
    pub(crate) fn new(core: Core, producer: Producer<L, Q>, blank: Blank) -> Self
        requires core { core ≡ L.opening.core }
        requires producer { producer ≡ record { entries = []; finds = 0 } }
        requires ledger { (blank.name ≡ L.name) × (blank.parts ≡ L.parts) × (L.parts ≡ share_limit) }
        requires accepted { L.accepted [] }
        ensures { result ≡ record { entries = []; finds = 0; issued = 0 } }
    {
        let (book, unissued) = blank.open::<L>();
        Intake {
            core,
            producer,
            accepted: 0,
            book,
            unissued,
            issued: 0,
        }
    }

    // The end of the queue, how many events were accepted, how many of them the shares count, and how many were issued.
    pub(crate) fn close(self, shares: Vec<Share<L>>) -> (Producer<L, Q>, u64, u64, u64)
        ensures producer { result.0.entries ≡ self.entries }
        ensures accepted { result.1 ≡ length self.entries }
        ensures told { result.2 ≡ sum shares.items }
        ensures issued { result.3 ≡ self.issued }
        ensures all { self.issued ≡ length shares.items → result.2 ≡ result.1 }
    {
        let Intake {
            core,
            producer,
            accepted,
            mut book,
            mut unissued,
            issued,
        } = self;
        drop(core);
        let told = added(&mut book, &mut unissued, shares);
        (producer, accepted, told, issued)
    }

    /// A share that counts nothing yet. It takes no memory. None where 1,048,576 were given out in this life.
    pub fn share(&mut self) -> Option<Share<L>>
        ensures { MatchOption result ((self.old.issued ≡ share_limit) × (self.new ≡ self.old))
            (λ s. (s ≡ 0) × (self.old.issued < share_limit) × (self.new
            ≡ record { entries = self.old.entries; finds = self.old.finds; issued = self.old.issued + 1 })) }
    {
        if self.issued >= SHARE_LIMIT {
            return None;
        }
        let mark = self.unissued.split_off(1, 0);
        self.issued += 1;
        Some(Share { mark, count: 0 })
    }

    /// Accepts an event, as one step on the queue, and counts it for the share: a copy of it is taken in. Its place in this
    /// life, and whether it makes a post or an answer there. A refused event has changed nothing: it is refused for the core's
    /// reason, else Spent after 2^61 events of this life, else NoMemory where a growth was refused, else QueueFull where a
    /// look found the queue full. With the reason it is told how many events were accepted by then.
    pub fn accept<R: Wait>(
        &mut self,
        rt: &R,
        alloc: Global,
        share: &mut Share<L>,
        queue: &Queue<L, Q>,
        event: &Event,
    ) -> Result<Accepted, Refused>
        ensures accepted { IfOk result (λ a. MayAccept L.opening self.old event.now × (a.place ≡ length self.new.entries)
            × (self.new ≡ record {
              entries = self.old.entries ++ entry_at (core_after L.opening self.old.entries) event.now ∷ [];
              finds = self.old.finds;
              issued = self.old.issued;
            })) }
        ensures stirs { IfOk result (λ a. a.stirs ≡ stirs (made (core_after L.opening self.old.entries) event.now)) }
        ensures counted { IfOk result (λ a. (share.new ≡ share.old + 1) × (share.old < a.place)) }
        ensures refused { IfErr result (λ r. Refuses L.opening L.taken self.old event.now r.why self.new × (r.accepted ≡ length self.old.entries)) }
        ensures uncounted { OnErr result (share.new ≡ share.old) }
        ensures of_life { L.accepted self.old.entries × L.accepted self.new.entries }
    {
        let entry = match self.prepared(alloc, event) {
            Ok(entry) => entry,
            Err(why) => return Err(self.refused(why)),
        };
        let stirs = stirs(&entry.made);
        let Ok(()) = self.producer.push(rt, queue, entry) else {
            return Err(self.refused(Refusal::QueueFull));
        };
        self.core.apply(event);
        self.accepted += 1;
        share.raise(&mut self.book);
        Ok(Accepted {
            place: self.accepted,
            stirs,
        })
    }

    // A refusal, as it is told now.
    fn refused(&self, why: Refusal) -> Refused
        ensures { (result.why ≡ why) × (result.accepted ≡ length self.now.entries) }
    {
        Refused {
            why,
            accepted: self.accepted,
            told: Told,
        }
    }

    // The queue's entry of an event that may be accepted, in memory of its own. All growths of an accept are here.
    fn prepared(&self, alloc: Global, event: &Event) -> Result<Entry, Refusal>
        ensures entry { IfOk result (λ e. MayAccept L.opening self.now event.now × (e ≡ entry_at (core_after L.opening self.now.entries) event.now)) }
        ensures refused { IfErr result (λ r. Refuses L.opening L.taken self.now event.now r self.now) }
    {
        if self.accepted >= LIFE_LIMIT {
            self.core.decide(event)?;
            return Err(Refusal::Spent);
        }
        let made = self.core.made_or_refused(alloc, event)?;
        let Ok(event) = event.copy(alloc) else {
            drop(made);
            return Err(Refusal::NoMemory);
        };
        Ok(Entry { event, made })
    }
}
