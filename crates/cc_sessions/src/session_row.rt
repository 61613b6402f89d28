/// A session, and the number of its last request.
#[derive(Clone, Copy, PartialEq, Eq)]
pub struct SessionRow {
    pub session: u64,
    pub last: u64,
}
