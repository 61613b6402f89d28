//! Those who look at the node.

use cc_channels::{Machine, Shared};
use cc_status::{Board, Visitors, serve_pages};
use std::alloc::Global;
use std::net::TcpListener;
use std::thread;

/// Serves those who look at the board until no worker is left.
pub fn show_until<R>(rt: &R, alloc: Global, shared: &Shared, board: &Board, listener: &TcpListener)
where
    R: Machine,
{
    let visitors = Visitors::new(board, &shared.done);
    let visitors = &visitors;
    thread::scope(
        thread::scope_env(),
        rt,
        |scope| serve_pages(scope, rt, alloc, visitors, listener),
    );
}
