//! Many clients at once.

use crate::client::{Task, ask_for_long, micros};
use crate::deadline::Deadline;
use crate::report::Report;
use crate::silence::Told;
use crate::tally::Tally;
use cc_command_line::{AnswerForm, LoadOrder};
use cc_policies::LAST_ANSWER_SECONDS;
use std::alloc::Global;
use std::io::Write;
use std::net::{Net, TcpListener, TcpStream};
use std::sync::{Mutex, Wait};
use std::thread::{Scope, Threads};
use std::time::Clock;
use std::{io, thread};

/// Has clients ask running nodes for as long as an order says, and prints how quickly they were answered, in the form of the
/// order.
pub fn load_nodes<R, W: Write>(
    rt: &R,
    alloc: Global,
    order: &LoadOrder,
    output: &mut W,
) -> io::Result<Told>
where
    R: Net<Listener = TcpListener, Stream = TcpStream> + Threads + Wait + Clock + Sync,
{
    let start = micros(rt);
    let tally = ask_at_once(rt, alloc, order);
    let elapsed_us = micros(rt).saturating_sub(start);
    let told = print_tally(alloc, order, elapsed_us, &tally, output);
    drop(tally);
    told
}

// Runs each client in a thread of its own: what all of them counted.
fn ask_at_once<R>(rt: &R, alloc: Global, order: &LoadOrder) -> Tally
where
    R: Net<Listener = TcpListener, Stream = TcpStream> + Threads + Wait + Clock + Sync,
{
    let total = Mutex::new(Tally::new(alloc));
    let shared = &total;
    thread::scope(
        thread::scope_env(),
        rt,
        |scope| start_all(scope, rt, alloc, order, shared),
    );
    total.into_inner()
}

// Starts a thread for each client. One that can't be made has ended before the time is over.
fn start_all<'s, 'e: 's, R>(
    scope: &'s Scope<'s, &'e ()>,
    rt: &'e R,
    alloc: Global,
    order: &LoadOrder,
    total: &'e Mutex<Tally>,
)
where
    R: Net<Listener = TcpListener, Stream = TcpStream> + Threads + Wait + Clock + Sync,
{
    let time = Deadline::new(rt, order.seconds);
    let patience = Deadline::new(rt, order.seconds.saturating_add(LAST_ANSWER_SECONDS));
    for number in 0..order.clients {
        if let Some((address, session)) = order.session_of(number) {
            let task = Task {
                address,
                session,
                operation: order.operation,
                time,
                patience,
            };
            start(scope, rt, alloc, task, total);
        }
    }
}

fn start<'s, 'e: 's, R>(
    scope: &'s Scope<'s, &'e ()>,
    rt: &'e R,
    alloc: Global,
    task: Task,
    total: &'e Mutex<Tally>,
)
where
    R: Net<Listener = TcpListener, Stream = TcpStream> + Threads + Wait + Clock + Sync,
{
    if scope
        .spawn(move || ask_and_add(rt, alloc, task, total))
        .is_err()
    {
        total.lock(rt).end(None);
    }
}

fn ask_and_add<R: Net<Listener = TcpListener, Stream = TcpStream> + Wait + Clock>(
    rt: &R,
    alloc: Global,
    task: Task,
    total: &Mutex<Tally>,
) {
    let tally = ask_for_long(rt, alloc, task);
    total.lock(rt).add(&tally);
    drop(tally);
}

fn print_tally<W: Write>(
    alloc: Global,
    order: &LoadOrder,
    elapsed_us: u64,
    tally: &Tally,
    output: &mut W,
) -> io::Result<Told> {
    let report = Report::of(alloc, order, elapsed_us, tally)?;
    let status = u8::from(report.answered == 0);
    let printed = print_report(alloc, order.form, &report, output);
    drop(report);
    printed?;
    Ok(Told {
        status,
        silence: tally.silence,
        advice: None,
    })
}

fn print_report<W: Write>(
    alloc: Global,
    form: AnswerForm,
    report: &Report,
    output: &mut W,
) -> io::Result<()> {
    match form {
        AnswerForm::Plain => write!(output, "{report}")?,
        AnswerForm::Json => writeln!(output, "{}", report.json(alloc)?)?,
    }
    output.flush()
}
