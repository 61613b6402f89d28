/// How a request stands to its session. The requests of a session are numbered from 1 on, without a gap.
#[derive(Clone, Copy, PartialEq, Eq)]
pub enum Checked {
    /// The next request of its session.
    Fresh,

    /// The last request of its session, once more.
    Repeat,

    /// A request before the last one, which is named, or number 0.
    Stale(u64),

    /// A request that leaves at least one out after the last one, which is named.
    Skip(u64),

    /// The session is new, and there are as many as there may be.
    Full,
}
