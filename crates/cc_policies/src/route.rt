/// Over which connection an ask came, and so where its answer goes.
#[derive(Clone, Copy, PartialEq, Eq)]
pub struct Route {
    pub session: u64,
    pub request: u64,
    pub ticket: u64,
    /// Its place among the asks that had a route, from 1 on.
    pub place: u64,
}
