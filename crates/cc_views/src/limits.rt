//! How far the counters of a node go.

ghost use Rattle.std.specs.Prelude.{◌≡◌};
ghost use Rattle.cc_views.specs.Limits.{counter_limit};

/// The last number of a counter, `2 ^ 62`: no sequence number, tag, post, request or generation goes past it.
pub const COUNTER_LIMIT: u64 = 1 << 62;

/// The last number of a counter is the one that the definitions name.
pub fn limit_of_counters()
    ensures { COUNTER_LIMIT ≡ counter_limit }
{}
