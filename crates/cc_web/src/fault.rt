//! Why a request is no order.

use crate::place::Place;

/// Why a request is no order.
#[derive(Clone, Copy, PartialEq, Eq)]
pub enum WebFault {
    /// A field stands twice that tells something once: 400. Who reads the fields of a request sees it, and `order_of` doesn't.
    Twice,
    /// There is nothing at this path: 404.
    NoPlace,
    /// There is no such method at the place: 405.
    Method(Place),
    /// The query isn't a timeout of at most a minute: 400.
    Query,
    /// A page of another origin would write: 403.
    Origin,
    /// The field `Idempotency-Key` isn't a session and a request, or the request isn't one ask: 400.
    Key,
    /// The session is among the node's own: 400.
    OwnSession,
    /// The body is of a type that isn't taken as it stands: 415.
    ContentType,
    /// The body is longer than any that is taken here: 413.
    TooLong,
    /// The body isn't what is written here: 400.
    Body,
}
