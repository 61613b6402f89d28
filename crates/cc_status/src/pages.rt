//! What each page has on it.

use crate::answer::{Outcome, answer_page};
use crate::board::{Board, Laid};
use crate::home_page::home;
use crate::metrics::Metrics;
use crate::page::Page;
use crate::status::Status;
use crate::status_layout::status_of;
use cc_views::NoMemory;
use std::alloc::Global;
use std::sync::Wait;

/// Adds the answer that gives a page of a node, or its head alone.
pub fn put_page<R: Wait>(
    rt: &R,
    alloc: Global,
    board: &Board,
    page: Page,
    is_head: bool,
    out: &mut Vec<u8>,
) -> Result<(), NoMemory> {
    match page {
        Page::Home => answer_page(out, page, Outcome::Served, is_head, home().as_bytes()),
        Page::Health => answer_page(out, page, Outcome::Served, is_head, b"ok\n"),
        _ => match board.look(rt) {
            Some(laid) => {
                let put = put_shown(alloc, board, &laid, page, is_head, out);
                drop(laid);
                put
            }
            None => answer_page(
                out,
                page,
                Outcome::NotReady,
                is_head,
                b"it has just been started\n",
            ),
        },
    }
}

// Adds a page that shows the node as it was laid out.
fn put_shown(
    alloc: Global,
    board: &Board,
    laid: &Laid,
    page: Page,
    is_head: bool,
    out: &mut Vec<u8>,
) -> Result<(), NoMemory> {
    let status = status_of(alloc, &laid.shown, &board.live(laid))?;
    let put = match page {
        Page::Ready => put_readiness(alloc, &status, is_head, out),
        _ => put_status(alloc, page, &status, is_head, out),
    };
    drop(status);
    put
}

fn put_status(
    alloc: Global,
    page: Page,
    status: &Status,
    is_head: bool,
    out: &mut Vec<u8>,
) -> Result<(), NoMemory> {
    let text = text_of(alloc, page, status)?;
    let put = answer_page(out, page, Outcome::Served, is_head, text.as_bytes());
    drop(text);
    put
}

fn put_readiness(
    alloc: Global,
    status: &Status,
    is_head: bool,
    out: &mut Vec<u8>,
) -> Result<(), NoMemory> {
    if status.is_ready {
        return answer_page(out, Page::Ready, Outcome::Served, is_head, b"ready\n");
    }
    let reason = status.reason.as_str();
    let text = format!(in alloc; "{reason}\n")?;
    let put = answer_page(
        out,
        Page::Ready,
        Outcome::NotReady,
        is_head,
        text.as_bytes(),
    );
    drop(text);
    put
}

// What stands on a page that shows the node.
fn text_of(alloc: Global, page: Page, status: &Status) -> Result<String, NoMemory> {
    let text = match page {
        Page::Metrics => return Ok(format!(in alloc; "{}", Metrics(status))?),
        Page::View => serde_json::to_string(alloc, &status.view),
        _ => serde_json::to_string(alloc, status),
    };
    text.or(Err(NoMemory))
}
