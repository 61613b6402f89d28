//! How a peer stands: whether it acknowledges in time what the node sent to it.

ghost use Rattle.std.specs.Prelude.{◌≡◌, ℕ, Bool, true, false, List};
ghost use Rattle.cc_policies.specs.declared.peer_health.PeerHealth.{PeerHealth};
ghost use Rattle.cc_policies.specs.declared.peer_health.PeerHealth.TheVariants as standings;
ghost use Rattle.cc_policies.specs.PeerHealth.{of_owing, of_live, after_second, after_ack, is_absent, is_late, may_lapse, Second, after_seconds, KeepsUp};

use crate::limits::{ABSENT_AFTER_SECONDS, KEPT_FOR_ABSENT_POSTS};

/// How a peer stands to the node, as the node looks at it each second.
#[derive(Clone, Copy, PartialEq, Eq)]
pub enum PeerHealth {
    /// It owes nothing, or what it owes was sent within the last second.
    Current,
    /// It has owed the acknowledgement of number `due` for so many whole seconds.
    Owing { due: u64, seconds: u64 },
    /// It is taken for absent, until it acknowledges something.
    Absent,
}

impl PeerHealth {
    /// How it stands after a second by whose end it has acknowledged `acked` of the `sent` numbers of its link.
    pub fn after_second(self, acked: u64, sent: u64, is_live: bool) -> Self
        ensures { result ≡ after_second self acked sent is_live }
    {
        if !is_live {
            return PeerHealth::Current;
        }
        self.of_live(acked, sent)
    }

    fn of_live(self, acked: u64, sent: u64) -> Self
        ensures { result ≡ of_live self acked sent }
    {
        if self.is_absent() {
            return PeerHealth::Absent;
        }
        if acked >= sent {
            return PeerHealth::Current;
        }
        self.of_owing(acked, sent)
    }

    fn of_owing(self, acked: u64, sent: u64) -> Self
        ensures { result ≡ of_owing self acked sent }
    {
        match self {
            PeerHealth::Current => PeerHealth::Owing {
                due: sent,
                seconds: 0,
            },
            PeerHealth::Owing { due, .. } if acked >= due => PeerHealth::Owing {
                due: sent,
                seconds: 0,
            },
            PeerHealth::Owing { seconds, .. } if seconds >= ABSENT_AFTER_SECONDS - 1 =>
                PeerHealth::Absent,
            PeerHealth::Owing { due, seconds } => PeerHealth::Owing {
                due,
                seconds: seconds + 1,
            },
            PeerHealth::Absent => PeerHealth::Absent,
        }
    }

    /// How it stands after an acknowledgement of its own was accepted.
    pub fn after_ack(self) -> Self
        ensures { result ≡ after_ack self }
    {
        match self {
            PeerHealth::Absent => PeerHealth::Current,
            standing => standing,
        }
    }

    /// Whether it is taken for absent.
    pub fn is_absent(self) -> bool
        ensures { result ≡ is_absent self }
    {
        matches!(self, PeerHealth::Absent)
    }

    /// Whether it has owed something for a whole second or more: its connection may lead nowhere. Under load something is
    /// always on its way, so who owes since this very second is in time.
    pub fn is_late(self) -> bool
        ensures { result ≡ is_late self }
    {
        match self {
            PeerHealth::Current => false,
            PeerHealth::Owing { seconds, .. } => seconds > 0,
            PeerHealth::Absent => true,
        }
    }

    /// Whether what is kept for it may lapse: it is absent, and keeps more than 64 posts from being dropped. `reach` is the
    /// last post that it has acknowledged, of so many `posts`; `asked_at` says how many there were when a lapse was handed in
    /// last, and a second later, as `is_tick` tells, one may be handed in once more.
    pub fn may_lapse(self, reach: u64, posts: u64, asked_at: u64, is_tick: bool) -> bool
        ensures { result ≡ may_lapse self reach posts asked_at is_tick }
    {
        self.is_absent()
            && posts.saturating_sub(reach) > KEPT_FOR_ABSENT_POSTS
            && (asked_at <= reach || is_tick)
    }
}

/// Who acknowledges by each second what was sent by the one two before it is never taken for absent.
pub fn who_keeps_up_stays()
    ensures { (before last : ℕ) (seconds : List Second) → KeepsUp before last seconds → is_absent (after_seconds standings.Current seconds) ≡ false }
{}

/// Nothing lapses but what is kept for one that is absent.
pub fn none_lapses_but_absent()
    ensures { (s : PeerHealth) (reach posts asked_at : ℕ) (is_tick : Bool) → may_lapse s reach posts asked_at is_tick ≡ true → s ≡ standings.Absent }
{}
