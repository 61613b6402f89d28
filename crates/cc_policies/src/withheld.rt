//! What is withheld from a peer: the numbers of the posts that are for others.

ghost use Rattle.std.specs.Prelude.{◌≡◌, ◌≤◌, ◌<◌, ◌++◌, ◌∷◌, [], None, Some, IfSome, false, length};
ghost use Rattle.cc_messages.specs.Ranges.{IsRange};
ghost use Rattle.cc_policies.specs.Withheld.{covered, in_run, IsNext, joined, Holds};

use cc_messages::PostRange;
use std::marker::Model;

/// What is to be written to a peer once a post was put: first the numbers that it skips, and then the post.
#[derive(Clone, Copy)]
pub struct Due {
    pub skip: Option<PostRange>,
    pub has_post: bool,
}

/// The numbers that were put last, where none of their posts is for the peer. It is told of them with the next post that is
/// for it, or once there are 64.
#[derive(Drop)]
pub struct Withheld {
    run: Option<PostRange>,
}

impl Model for Withheld {
    ghost use Rattle.std.specs.Prelude.{◌<◌, ◌+◌, Option, IfSome};
    ghost use Rattle.cc_messages.specs.Ranges.{Range, range_code};
    ghost use Rattle.std.specs.Coded.{coded_option};

    ghost Value = { Option Range };

    ghost coded = { coded_option range_code };

    ghost view = { λ w. w.run };

    ghost invariant = { λ w. IfSome w.run (λ r. r.last < r.first + 63) };
}

impl Withheld {
    /// As many numbers are told at once at most.
    pub const MOST: u64 = 64;

    /// Nothing is withheld.
    pub fn new() -> Self
        ensures { result ≡ None }
    {
        Withheld { run: None }
    }

    /// A post is put under this number: what is to be written. Each number that is put is covered once and in order, as its post
    /// where it is for the peer, else in a range that is skipped; what isn't covered yet is withheld.
    pub fn put(&mut self, number: u64, is_for: bool) -> Due
        requires { 1 ≤ number }
        ensures covers { covered result number ++ in_run self.new ≡ in_run self.old ++ (number, is_for) ∷ [] }
        ensures waits { is_for ≡ false → IsNext self.old number → length (in_run self.old) < 63 → result ≡ record { skip = None; has_post = false } }
    {
        if is_for {
            return Due {
                skip: self.take(),
                has_post: true,
            };
        }
        match self.with_next(number) {
            Some(run) => self.hold(run),
            None => self.begin(number),
        }
    }

    /// What is withheld is to be written now.
    pub fn take(&mut self) -> Option<PostRange>
        ensures taken { result ≡ self.old }
        ensures none { self.new ≡ None }
    {
        self.run.take()
    }

    /// How many numbers are withheld.
    pub fn len(&self) -> u64
        ensures len { result ≡ length (in_run self.now) }
        ensures few { result ≤ 63 }
    {
        match self.run {
            Some(run) => run.last() - run.first() + 1,
            None => 0,
        }
    }

    // The run and this number, where it goes on with it.
    fn with_next(&self, number: u64) -> Option<PostRange>
        ensures joined { result ≡ joined self.now number }
        ensures range { IfSome result (λ r. IsRange r) }
    {
        let run = self.run?;
        if run.last() < number && number - run.last() == 1 {
            return PostRange::new(run.first(), number);
        }
        None
    }

    // Withholds a run that went on, unless there are enough.
    fn hold(&mut self, run: PostRange) -> Due
        ensures { Holds run result self.new }
    {
        if run.last() - run.first() >= Withheld::MOST - 1 {
            self.run = None;
            return Due {
                skip: Some(run),
                has_post: false,
            };
        }
        self.run = Some(run);
        Due {
            skip: None,
            has_post: false,
        }
    }

    // The run is to be written, and another begins.
    fn begin(&mut self, number: u64) -> Due
        requires { 1 ≤ number }
        ensures due { result ≡ record { skip = self.old; has_post = false } }
        ensures begins { self.new ≡ Some (record { first = number; last = number }) }
    {
        let skip = self.take();
        self.run = PostRange::new(number, number);
        Due {
            skip,
            has_post: false,
        }
    }
}
