//! A load on nodes that run.

use crate::network::end;
use crate::statuses::print_word_fault;
use cc_client::load_nodes;
use cc_command_line::{LoadOrder, LoadWords, Operation};
use std::net::{Net, TcpListener, TcpStream};
use std::process::ExitCode;
use std::sync::Wait;
use std::thread::Threads;
use std::time::Clock;

/// Has many clients ask nodes: the status of that. That a store replaces what its node stored is told first, on standard error.
pub fn load<R>(rt: &R, words: &LoadWords<'_>) -> anyhow::Result<ExitCode>
where
    R: Net<Listener = TcpListener, Stream = TcpStream>
        + Threads
        + Wait
        + Clock
        + AllocGlobal
        + Print
        + Eprint
        + Sync,
{
    match LoadOrder::parse(rt.alloc(), words) {
        Ok(order) => load_as(rt, &order),
        Err(fault) => print_word_fault(rt, fault),
    }
}

fn load_as<R>(rt: &R, order: &LoadOrder) -> anyhow::Result<ExitCode>
where
    R: Net<Listener = TcpListener, Stream = TcpStream>
        + Threads
        + Wait
        + Clock
        + AllocGlobal
        + Print
        + Eprint
        + Sync,
{
    if order.operation == Operation::Store {
        eprintln!(rt;
            "ccnode: each store replaces the text of its node: not for a cluster in use"
        )?;
    }
    let mut output = std::io::writer(rt);
    let told = load_nodes(rt, rt.alloc(), order, &mut output)?;
    end(rt, told)
}
