//! Sessions, as rows in ascending order.
ghost use Rattle.std.specs.Prelude.{◌≡◌, ◌≤◌, IfOk, IsFalse, length};
ghost use Rattle.std.specs.Vec.{vec_capacity};
ghost use Rattle.std.specs.FinMap as table;
ghost use Rattle.cc_views.specs.Limits.{session_limit};
ghost use Rattle.cc_views.specs.Tables.{IsRising, IsPlaceOf};
ghost use Rattle.cc_sessions.specs.Sessions.{finds_no_room};
ghost use Rattle.cc_sessions.specs.Checks.{after_last, checked};
ghost use Rattle.cc_sessions.specs.Rows.{entry_of, rows_of};

use crate::checked::Checked;
use crate::session_row::SessionRow;
use cc_views::NoMemory;
use std::alloc::Global;
use std::marker::Model;

/// The last request of each session, in room for 256 sessions.
#[derive(Drop)]
pub struct Sessions {
    rows: Vec<SessionRow>,
}

impl Model for Sessions {
    ghost use Rattle.std.specs.Vec.{vec_capacity};
    ghost use Rattle.cc_views.specs.Limits.{session_limit};
    ghost use Rattle.cc_views.specs.Tables.{IsTable, table_of};
    ghost use Rattle.cc_sessions.specs.Sessions.{Requests, requests_code};
    ghost use Rattle.cc_sessions.specs.Rows.{entry_of};

    ghost Value = { Requests };

    ghost coded = { requests_code };

    ghost view = { λ s. table_of entry_of s.rows.items };

    ghost invariant = { λ s. IsTable entry_of session_limit s.rows.items (vec_capacity s.rows) };
}

impl Sessions {
    /// How many sessions there are at most.
    pub const MAX_ROWS: usize = 256;

    /// No sessions. NoMemory where a growth was refused.
    pub fn new(alloc: Global) -> Result<Self, NoMemory>
        ensures empty { IfOk result (λ s. s ≡ table.empty) }
        ensures len { IfOk result (λ s. table.len s ≡ 0) }
    {
        let rows = Vec::with_capacity(alloc, Self::MAX_ROWS)?;
        Ok(Sessions { rows })
    }

    /// The same sessions once more, with the same room. NoMemory where a growth was refused.
    pub fn copy(&self, alloc: Global) -> Result<Self, NoMemory>
        ensures { IfOk result (λ s. s ≡ self.now) }
    {
        let mut rows = Vec::with_capacity(alloc, Self::MAX_ROWS)?;
        rows.extend_from_slice(&self.rows).unwrap();
        Ok(Sessions { rows })
    }

    /// The rows, by ascending session.
    pub fn rows(&self) -> &[SessionRow]
        ensures rows { result.now ≡ rows_of self.now }
        ensures len { length result.now ≡ table.len self.now }
        ensures fits { length result.now ≤ session_limit }
    {
        &self.rows
    }

    /// The last request of the session, under which its kept answer is put out. None for a session without a request.
    pub fn finish(&self, session: u64) -> Option<u64>
        ensures { result ≡ table.get self.now session }
    {
        match place_of(&self.rows, session) {
            Ok(at) => Some(self.rows[at].last),
            Err(_) => None,
        }
    }

    /// How the request stands to its session. Full comes first, then Repeat, Stale and Skip.
    pub fn check(&self, session: u64, request: u64) -> Checked
        ensures { result ≡ checked self.now session request }
    {
        match self.finish(session) {
            None if self.rows.len() == Self::MAX_ROWS => Checked::Full,
            None => check_after(0, request),
            Some(last) if request == last => Checked::Repeat,
            Some(last) => check_after(last, request),
        }
    }

    /// The request becomes the last one of its session. It takes no memory.
    pub fn begin(&mut self, session: u64, request: u64)
        requires { IsFalse (finds_no_room self.old session) }
        ensures { self.new ≡ table.insert self.old session request }
    {
        let row = SessionRow {
            session,
            last: request,
        };
        match place_of(&self.rows, session) {
            Ok(at) => self.rows[at] = row,
            Err(at) => self.rows.insert(at, row).unwrap(),
        }
    }
}

// How a request that isn't the last one again stands to the last one, 0 for none.
fn check_after(last: u64, request: u64) -> Checked
    ensures { result ≡ after_last last request }
{
    if request < last || request == 0 {
        return Checked::Stale(last);
    }
    if request - last > 1 {
        return Checked::Skip(last);
    }
    Checked::Fresh
}

// Where the session's row is, or where it would go.
fn place_of(rows: &[SessionRow], session: u64) -> Result<usize, usize>
    requires { IsRising entry_of rows.now }
    ensures { IsPlaceOf entry_of rows.now session result }
{
    rows.binary_search_by_key(&session, |row| row.session)
}
