//! Kept posts, in the order of their numbers, and kept answers, in the order of their sessions.
ghost use Rattle.std.specs.Prelude.{◌≡◌, ◌+◌, ◌-◌, ◌≤◌, ◌<◌, ◌^◌, IfOk, length, drop, option_map};
ghost use Rattle.std.specs.VecDeque.{deque_capacity};
ghost use Rattle.std.specs.FinMap as map;
ghost use Rattle.cc_views.specs.Limits.{session_limit};
ghost use Rattle.cc_views.specs.Tables.{IsRising, IsPlaceOf};
ghost use Rattle.cc_outbox.specs.Outbox as outbox;
ghost use Rattle.cc_outbox.specs.OutboxLaws.{KeepsPosts};
ghost use Rattle.cc_outbox.specs.Rows.{entry_of, answers_of};

use crate::kept_answer::KeptAnswer;
use cc_messages::{Answer, Message};
use cc_views::NoMemory;
use std::alloc::Global;
use std::collections::VecDeque;
use std::marker::Model;
use std::mem;

/// The kept posts and answers of a node, in room for 512 posts and 256 answers.
#[derive(Drop)]
pub struct Outbox {
    last: u64,
    // Those up to number `last`.
    posts: VecDeque<Message>,
    answers: Vec<KeptAnswer>,
}

impl Model for Outbox {
    ghost use Rattle.std.specs.Vec.{vec_capacity};
    ghost use Rattle.std.specs.VecDeque.{deque_capacity};
    ghost use Rattle.cc_outbox.specs.Outbox as outbox;
    ghost use Rattle.cc_outbox.specs.Outbox.{outbox_code};
    ghost use Rattle.cc_outbox.specs.Rows.{outbox_of, IsKept};

    ghost Value = { outbox.Outbox };

    ghost coded = { outbox_code };

    ghost view = { λ o. outbox_of o.last o.posts.items o.answers.items };

    ghost invariant = { λ o. IsKept o.last o.posts.items (deque_capacity o.posts) o.answers.items (vec_capacity o.answers) };
}

impl Outbox {
    /// How many posts are kept at most.
    pub const MAX_POSTS: usize = 512;

    /// How many answers are kept at most.
    pub const MAX_ANSWERS: usize = 256;

    /// Nothing is kept, and the first post will have number 1. NoMemory where a growth was refused.
    pub fn new(alloc: Global) -> Result<Self, NoMemory>
        ensures empty { IfOk result (λ o. o ≡ outbox.starting_after 0) }
        ensures posts { IfOk result (λ o. map.len o.posts ≡ 0) }
        ensures answers { IfOk result (λ o. map.len o.answers ≡ 0) }
    {
        Outbox::starting_after(alloc, 0)
    }

    /// Nothing is kept, and the first post will have the number after `last`. NoMemory where a growth was refused.
    pub fn starting_after(alloc: Global, last: u64) -> Result<Self, NoMemory>
        ensures empty { IfOk result (λ o. o ≡ outbox.starting_after last) }
        ensures posts { IfOk result (λ o. map.len o.posts ≡ 0) }
        ensures answers { IfOk result (λ o. map.len o.answers ≡ 0) }
    {
        let posts = VecDeque::with_capacity(alloc, Self::MAX_POSTS)?;
        let answers = Vec::with_capacity(alloc, Self::MAX_ANSWERS)?;
        Ok(Outbox {
            last,
            posts,
            answers,
        })
    }

    /// Keeps a post, under the number after that of the last one. It takes no memory.
    pub fn add(&mut self, post: Message)
        requires room { map.len self.old.posts < outbox.post_limit }
        requires number { self.old.last + 1 < 2 ^ 64 }
        ensures { self.new ≡ outbox.add post self.old }
    {
        self.posts.push_back(post).unwrap();
        self.last += 1;
    }

    /// Drops the posts up to number `lowest`, in a step for each.
    pub fn trim(&mut self, lowest: u64)
        ensures { self.new ≡ outbox.trim lowest self.old }
    {
        let above = self.last.saturating_sub(lowest);
        let kept = above.min(self.posts.len() as u64);
        keep_last(&mut self.posts, kept as usize);
    }

    /// The kept post with that number. None for a post that was dropped or not made yet.
    pub fn post(&self, number: u64) -> Option<&Message>
        ensures { option_map (λ m. m.now) result ≡ map.get self.now.posts number }
    {
        let dropped = self.last - self.posts.len() as u64;
        if number <= dropped {
            return None;
        }
        self.posts.get((number - dropped - 1) as usize)
    }

    /// The number of the last post that was made.
    pub fn last(&self) -> u64
        ensures { result ≡ self.now.last }
    {
        self.last
    }

    /// How many posts are kept, which are the last ones.
    pub fn post_count(&self) -> usize
        ensures count { result ≡ map.len self.now.posts }
        ensures fits { result ≤ outbox.post_limit }
        ensures last { KeepsPosts (self.now.last - result) self.now.last self.now.posts }
    {
        self.posts.len()
    }

    /// Keeps the answer of a session, in place of the one that it had. It takes no memory.
    pub fn keep(&mut self, session: u64, answer: Answer)
        requires { map.len (map.insert self.old.answers session answer) ≤ session_limit }
        ensures { self.new ≡ outbox.keep session answer self.old }
    {
        let kept = KeptAnswer { session, answer };
        match place_of(&self.answers, session) {
            Ok(at) => drop(mem::replace(&mut self.answers[at], kept)),
            Err(at) => self.answers.insert(at, kept).unwrap(),
        }
    }

    /// Drops the answer of a session, if it has one.
    pub fn forget(&mut self, session: u64)
        ensures { self.new ≡ outbox.forget session self.old }
    {
        if let Ok(at) = place_of(&self.answers, session) {
            drop(self.answers.remove(at));
        }
    }

    /// The kept answer of a session. None where none is kept.
    pub fn answer(&self, session: u64) -> Option<&Answer>
        ensures { option_map (λ a. a.now) result ≡ map.get self.now.answers session }
    {
        match place_of(&self.answers, session) {
            Ok(at) => Some(&self.answers[at].answer),
            Err(_) => None,
        }
    }

    /// The kept answers, by ascending session.
    pub fn answers(&self) -> &[KeptAnswer]
        ensures answers { result.now ≡ answers_of self.now }
        ensures len { length result.now ≡ map.len self.now.answers }
        ensures fits { length result.now ≤ session_limit }
    {
        &self.answers
    }
}

// Where the session's answer is, or where it would go.
fn place_of(answers: &[KeptAnswer], session: u64) -> Result<usize, usize>
    requires { IsRising entry_of answers.now }
    ensures { IsPlaceOf entry_of answers.now session result }
{
    answers.binary_search_by_key(&session, |kept| kept.session)
}

// Drops posts from the front until so many are left.
fn keep_last(posts: &mut VecDeque<Message>, count: usize)
    requires { count ≤ length posts.old.items }
    ensures items { posts.new.items ≡ drop (length posts.old.items - count) posts.old.items }
    ensures room { deque_capacity posts.new ≡ deque_capacity posts.old }
{
    'front: while posts.len() > count {
        drop(posts.pop_front());
    }
}
