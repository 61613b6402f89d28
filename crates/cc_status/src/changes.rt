//! The rows of a node's view, as they change.

use crate::answer::{Outcome, answer_page};
use crate::board::Board;
use crate::event::{HEARTBEAT, put_event};
use crate::page::Page;
use crate::rows::rows_of;
use crate::status::RowStatus;
use crate::timed::write_within;
use cc_connections::Flag;
use cc_views::{NoMemory, View};
use std::alloc::Global;
use std::collections::BTreeMap;
use std::net::TcpStream;
use std::sync::Wait;
use std::thread;
use std::time::{Clock, Duration};

// How long is waited between two looks, in milliseconds.
const PAUSE_MS: u64 = 250;

// How long a watcher has for what is sent at once, in seconds.
const SEND_S: u64 = 5;

// After so many looks something is sent at the latest, so that a connection that leads nowhere is found.
const MOST_LOOKS: u64 = 60;

/// Sends the rows of the view, and then each one as it changes, until a write fails, the watcher takes too long for what is
/// sent, or the flag is set.
pub fn send_changes<R: Wait + Clock>(
    rt: &R,
    alloc: Global,
    board: &Board,
    over: &Flag,
    to: &TcpStream,
) {
    let mut sent = BTreeMap::new(alloc);
    let mut out = Vec::new(alloc);
    if answer_page(&mut out, Page::Changes, Outcome::Served, false, b"").is_ok() {
        send_on(rt, alloc, board, over, &mut sent, &mut out, to);
    }
    drop((sent, out));
}

// Sends what is to go out already, and then each row that wasn't sent as it is.
fn send_on<R: Wait + Clock>(
    rt: &R,
    alloc: Global,
    board: &Board,
    over: &Flag,
    sent: &mut BTreeMap<u32, u64>,
    out: &mut Vec<u8>,
    to: &TcpStream,
) {
    let mut looks: u64 = 0;
    for _ in rt.forever() {
        if over.is_set() || put_changes(rt, alloc, board, sent, out).is_err() {
            return;
        }
        looks = looks.saturating_add(1);
        if looks >= MOST_LOOKS && out.is_empty() && out.extend_from_slice(HEARTBEAT).is_err() {
            return;
        }
        if !out.is_empty() {
            looks = 0;
            if write_within(rt, to, SEND_S, out.as_slice()).is_none() {
                return;
            }
            out.clear();
        }
        thread::sleep(rt, Duration::from_millis(PAUSE_MS));
    }
    unreachable!()
}

// Adds what changed since it was sent.
fn put_changes<R: Wait>(
    rt: &R,
    alloc: Global,
    board: &Board,
    sent: &mut BTreeMap<u32, u64>,
    out: &mut Vec<u8>,
) -> Result<(), NoMemory> {
    match board.look(rt) {
        Some(laid) => {
            let put = put_view(alloc, laid.shown.core.view(), sent, out);
            drop(laid);
            put
        }
        None => Ok(()),
    }
}

fn put_view(
    alloc: Global,
    view: &View,
    sent: &mut BTreeMap<u32, u64>,
    out: &mut Vec<u8>,
) -> Result<(), NoMemory> {
    let rows = rows_of(alloc, view)?;
    let put = put_rows(alloc, &rows, sent, out);
    drop(rows);
    put
}

fn put_rows(
    alloc: Global,
    rows: &[RowStatus],
    sent: &mut BTreeMap<u32, u64>,
    out: &mut Vec<u8>,
) -> Result<(), NoMemory> {
    for row in rows {
        if sent.insert(row.node, row.number.0)? != Some(row.number.0) {
            put_row(alloc, row, out)?;
        }
    }
    Ok(())
}

fn put_row(alloc: Global, row: &RowStatus, out: &mut Vec<u8>) -> Result<(), NoMemory> {
    match serde_json::to_string(alloc, row) {
        Ok(text) => {
            let put = put_event(out, "row", &text);
            drop(text);
            put
        }
        Err(_) => Err(NoMemory),
    }
}
