//! A load on nodes that run.

use crate::ask::DONE;
use cc_client::load_nodes;
use cc_command_line::{AnswerForm, LoadOrder, LoadWords};
use std::alloc::Global;
use std::net::{Net, TcpListener, TcpStream};
use std::process::Abort;
use std::sync::Wait;
use std::thread::Threads;
use std::time::Clock;

/// Four clients of these nodes for a second. None of them ends early, so each has a session of its own.
pub(crate) fn check_load<R>(rt: &R, alloc: Global, addresses: &str, collects: bool)
where
    R: Abort + Net<Listener = TcpListener, Stream = TcpStream> + Threads + Wait + Clock + Sync,
{
    let words = LoadWords {
        addresses,
        clients: Some("4"),
        seconds: Some("1"),
        sessions_from: None,
        collects,
        form: AnswerForm::Json,
    };
    let order = LoadOrder::parse(alloc, &words).expect(rt, "an order");
    let mut output = Vec::new(alloc);
    let told = load_nodes(rt, alloc, &order, &mut output);
    drop(order);
    let is_whole = output
        .as_slice()
        .ends_with(b"\"lost\":0,\"ended\":0,\"refused\":null,\"in_use\":0}\n");
    assert!(rt; is_whole, "a load is answered");
    assert!(rt; matches!(told, Ok(it) if it == DONE), "a load is done");
}
