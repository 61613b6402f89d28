//! One connection: its worker and its writer.

ghost use Rattle.std.specs.Prelude.{◌≡◌, IfSome};
ghost use Rattle.cc_workers.specs.WorkerSteps.{IsTaken};

use crate::caller::{Done, serve};
use crate::context::Context;
use crate::take_turn::TakeTurn;
use cc_channels::{
    Connection, NotAdmitted, Port, Shared, TimedInput, Visitor, admit, bound_of, bytes_of,
    connection_over, patience_of, write_out,
};
use cc_connections::Hello;
use cc_intake::{Lane, Life, Share};
use cc_policies::{Access, Admitted, Ending, answer_to, greeter_after};
use cc_views::NodeId;
use log::{Log, debug};
use std::net::{SocketAddr, TcpStream};
use std::sync::{Arc, Wait};
use std::thread;
use std::thread::Threads;
use std::time::Clock;

// Where a log's filter finds the notes, as before this module had its name.
const TARGET: &str = "cc_workers::attending";

/// Serves a connection from that address to that port, with a writer of its own.
pub fn attend<L: Life + Send + Sync, Q: Lane + Send + Sync, R, T: TakeTurn + Sync>(
    context: &Context<'_, R, T, L, Q>,
    stream: TcpStream,
    from: SocketAddr,
    port: Port,
)
where
    R: Threads + Wait + Clock + Log + Sync,
{
    let (rt, shared) = (context.rt, context.shared);
    let Some((pen, connection)) = connection_over(context.alloc, stream) else {
        return;
    };
    let Some(admitted) = admit(
        rt,
        shared,
        &connection,
        from,
        port,
        context.remote_operators,
    ) else {
        drop(pen);
        drop(connection);
        note_visit(rt, context.me, from, Visit::Full);
        return;
    };
    context.shared.gauges.open();
    note_visit(rt, context.me, from, Visit::Taken);
    thread::scope(thread::scope_env(), rt, move |scope| -> () {
        if scope.spawn(move || write_out(rt, pen)).is_ok() {
            serve_in(context, connection, admitted, from);
        } else {
            context.shared.connections.end(rt, admitted.ticket);
            drop(connection);
        }
    });
    context.shared.connections.leave(rt, admitted.ticket);
    context.shared.gauges.close();
    note_visit(rt, context.me, from, Visit::Ended);
}

// What becomes of a connection that somebody opens.
#[derive(Clone, Copy)]
enum Visit {
    Full,
    Taken,
    Ended,
}

impl Visit {
    // What is said before and behind the address that it comes from.
    const fn words(self) -> (&'static str, &'static str) {
        match self {
            Visit::Full => ("takes no connection from", ": too many are open"),
            Visit::Taken => ("takes a connection from", ""),
            Visit::Ended => ("has ended its connection from", ""),
        }
    }
}

// Notes what becomes of a connection from there.
fn note_visit<R: Log>(rt: &R, me: NodeId, from: SocketAddr, visit: Visit) {
    let (before, behind) = visit.words();
    debug!(rt; target: TARGET, "node {} {before} {from}{behind}", me.number());
}

// Serves with a share out of the pool, or a new one. Who says that nothing more comes is answered all the same. The connection is
// let go at the end, and so the channel to the writer, which then ends. Until then it counts among those that are open.
fn serve_in<R: Wait + Clock + Log, T: TakeTurn, L: Life, Q: Lane>(
    context: &Context<'_, R, T, L, Q>,
    connection: Arc<Connection>,
    admitted: Admitted,
    from: SocketAddr,
) {
    let inside: &Connection = &connection;
    let done = serve_out(context, inside, admitted, from);
    if matches!(done, Some(Done::Frames(Ending::Input))) {
        let Shared {
            waker,
            connections,
            grants,
            ..
        } = context.shared;
        let over = inside.over();
        context.admission.outlast(
            context.rt,
            waker,
            connections,
            grants,
            admitted.ticket,
            over,
        );
    }
    context.shared.connections.end(context.rt, admitted.ticket);
    drop(connection);
}

// Why no further event came. None where there is no share.
fn serve_out<R: Wait + Clock + Log, T: TakeTurn, L: Life, Q: Lane>(
    context: &Context<'_, R, T, L, Q>,
    connection: &Connection,
    admitted: Admitted,
    from: SocketAddr,
) -> Option<Done> {
    let mut share = context.draw()?;
    let done = converse(context, connection, admitted, from, &mut share);
    context.give_back(share);
    if matches!(done, Done::TurnedAway(NotAdmitted::Barred)) {
        note_barred(context.rt, context.me, from, admitted.access);
    }
    Some(done)
}

// Serves what comes before a greeting, and what comes behind it where the node is taken that greets. One greets once over a
// connection, and sends nothing behind its greeting before that is answered.
fn converse<'x, R: Wait + Clock + Log, T: TakeTurn, L: Life, Q: Lane>(
    context: &'x Context<'x, R, T, L, Q>,
    connection: &'x Connection,
    admitted: Admitted,
    from: SocketAddr,
    share: &mut Share<L>,
) -> Done {
    let (rt, ticket) = (context.rt, admitted.ticket);
    let patience = patience_of(admitted);
    let mut admission = context.admission_over(connection, admitted);
    let input = TimedInput::new(rt, connection.reader(), patience);
    let done = serve(context, &admission, connection, ticket, from, input, share);
    let Some(greeter) = greeter_by(context, connection, admitted, &done, from) else {
        return done;
    };
    admission.greet(greeter);
    let input = TimedInput::new(rt, connection.reader(), patience);
    serve(context, &admission, connection, ticket, from, input, share)
}

// The node that greets, where a worker ended by that, and it is taken: over a connection that may bring what nodes send.
fn greeter_by<R: Wait + Log, T: TakeTurn, L: Life, Q: Lane>(
    context: &Context<'_, R, T, L, Q>,
    connection: &Connection,
    admitted: Admitted,
    done: &Done,
    from: SocketAddr,
) -> Option<NodeId>
    ensures { IfSome result (λ node. IsTaken admitted.access.nodes done.now node) }
{
    match done {
        Done::Greets(hello) if admitted.access.nodes => receive(context, connection, hello, from),
        _ => None,
    }
}

// Answers a greeting that comes over a connection. The node that greets, where it is taken.
fn receive<R: Wait + Log, T: TakeTurn, L: Life, Q: Lane>(
    context: &Context<'_, R, T, L, Q>,
    connection: &Connection,
    hello: &Hello,
    from: SocketAddr,
) -> Option<NodeId>
    ensures { IfSome result (λ node. node ≡ hello.now.from) }
{
    let (rt, shared) = (context.rt, context.shared);
    let greeted = shared.reception.greet(rt, hello)?;
    let visitor = Visitor {
        me: context.me,
        at: context.listen,
        from,
        shared,
    };
    let heard = visitor.note(rt, hello, greeted)?;
    let frame = answer_to(context.me, heard, greeted);
    let bytes = bytes_of(context.alloc, &frame);
    drop(frame);
    connection.pass_in_turn(rt, bytes.ok()?);
    greeter_after(greeted, hello)
}

// Notes why a connection is closed over which something came that it may not bring.
fn note_barred<R: Log>(rt: &R, me: NodeId, from: SocketAddr, access: Access) {
    debug!(rt; target: TARGET, "node {} closes the connection from {}, {}", me.number(), from, bound_of(access));
}
