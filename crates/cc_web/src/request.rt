//! Requests, as a server of HTTP hands them over.

/// A request: its line, the fields that are looked at, and its whole body. A field that stands there twice is for the
/// server to refuse.
#[derive(Clone, Copy)]
pub struct WebRequest<'a> {
    pub method: &'a str,
    /// The path as it was sent, with its escapes.
    pub path: &'a str,
    /// What stands behind the question mark.
    pub query: Option<&'a str>,
    pub accept: Option<&'a [u8]>,
    pub content_type: Option<&'a [u8]>,
    pub idempotency_key: Option<&'a [u8]>,
    pub origin: Option<&'a [u8]>,
    pub sec_fetch_site: Option<&'a [u8]>,
    pub last_event_id: Option<&'a [u8]>,
    pub body: &'a [u8],
}

/// What a node was told of its clients over HTTP.
#[derive(Clone, Copy)]
pub struct WebSettings<'a> {
    /// How many sessions of the node's own there are, from 2^64 - 1 downwards: at most 256.
    pub own_sessions: u16,
    /// The one origin whose pages may write.
    pub allowed_origin: Option<&'a [u8]>,
}
