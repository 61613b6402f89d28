//! The threads of a node: who starts them, and in which order they end.

ghost use Rattle.std.specs.Thread.{IsSend};

use cc_channels::{
    Dialler, FarEnd, Inlets, Listeners, Machine, Note, Port, Shared, dial_peer, write_notes,
};
use cc_connections::{Flag, Stop};
use cc_flush::Failed;
use cc_intake::{Lane, Life};
use cc_messages::Event;
use cc_site::Site;
use cc_status::Board;
use cc_threads::{Follower, Turns, Watch, flush_all, follow_peers, show_until, tick_until};
use cc_workers::{Context, TakeTurn, attend, serve_own};
use crossbeam_channel::Receiver;
use std::alloc::Global;
use std::net::TcpListener;
use std::sync::Wait;
use std::thread;
use std::thread::Scope;
use std::time::{Clock, Duration};

// How long the acceptor pauses after a connection that can't be accepted, in milliseconds.
const PAUSE_MS: u64 = 50;

/// What the diallers of the peers, the writer of notes and the worker of the own messages take out of.
#[derive(Drop)]
pub struct FarEnds {
    pub far: Vec<FarEnd>,
    pub own: Receiver<Option<Event>>,
    pub notes: Receiver<Option<Note>>,
}

/// What the flusher takes out of, and what the workers and writers do.
pub fn cut<'x>(
    inlets: Inlets,
    alloc: Global,
    shared: &'x Shared,
    board: Option<&'x Board>,
) -> (Watch<'x>, FarEnds) {
    let Inlets {
        parker,
        far,
        own,
        notes,
    } = inlets;
    let watch = Watch {
        alloc,
        parker,
        shared,
        board,
    };
    let ends = FarEnds { far, own, notes };
    (watch, ends)
}

/// Starts the ticker and what serves, flushes in this thread until all is done, and ends them. None where a thread can't be
/// made.
pub fn live<'x, 't, L: Life + Send + Sync, Q: Lane + Send + Sync, S: Site, R, T: TakeTurn + Sync>(
    context: &'x Context<'x, R, T, L, Q>,
    turns: &'x Turns<'t, S, L, Q, R>,
    watch: Watch<'x>,
    ends: FarEnds,
    listeners: &'x Listeners,
    stop: &'x Stop,
) -> Option<Result<(), Failed>>
where
    R: Machine,
{
    let rt = context.rt;
    let shared = context.shared;
    let admission = context.admission;
    thread::scope(
        thread::scope_env(),
        rt,
        move |scope| -> Option<Result<(), Failed>>
            requires { IsSend L.row × IsSend Q.row }
        {
            scope
                .spawn(move || tick_until(rt, shared, admission, listeners, stop))
                .ok()?;
            if let Some(pages) = &listeners.pages {
                if let Some(board) = watch.board {
                    let alloc = context.alloc;
                    let _ = scope.spawn(move || show_until(rt, alloc, shared, board, pages));
                }
            }
            let Ok(server) = scope.spawn(move || serve_until(context, ends, listeners, stop)) else {
                shared.done.set();
                return None;
            };
            let outcome = flush_until(turns, &watch);
            let is_served = server.join(rt);
            match outcome {
                Ok(()) if !is_served => None,
                outcome => Some(outcome),
            }
        },
    )
}

// Flushes, and has all end where that fails.
fn flush_until<S: Site, L: Life, Q: Lane, R: Wait + Clock>(
    turns: &Turns<'_, S, L, Q, R>,
    watch: &Watch<'_>,
) -> Result<(), Failed> {
    let outcome = flush_all(turns, watch);
    watch.shared.ended.set();
    turns.admission.close(turns.rt);
    outcome
}

// Serves until a flag is set, and then tells the flusher that nothing more comes. Whether it served.
fn serve_until<L: Life + Send + Sync, Q: Lane + Send + Sync, R, T: TakeTurn + Sync>(
    context: &Context<'_, R, T, L, Q>,
    ends: FarEnds,
    listeners: &Listeners,
    stop: &Stop,
) -> bool
where
    R: Machine,
{
    let is_served = serve_all(context, ends, listeners, stop);
    context.shared.done.set();
    context.shared.waker.wake();
    is_served
}

// Starts the diallers, the worker of the own messages and the acceptor for clients, accepts connections until a flag is set,
// and then ends the diallers first and the workers next. False, and nothing is accepted, where a thread of these can't
// be made.
fn serve_all<L: Life + Send + Sync, Q: Lane + Send + Sync, R, T: TakeTurn + Sync>(
    context: &Context<'_, R, T, L, Q>,
    ends: FarEnds,
    listeners: &Listeners,
    stop: &Stop,
) -> bool
where
    R: Machine,
{
    let (rt, alloc) = (context.rt, context.alloc);
    let over = Flag::new();
    let over = &over;
    let dialler = Dialler {
        alloc,
        me: context.me,
        hello_exchange: &context.shared.hello_exchange,
        waker: &context.shared.waker,
        over,
    };
    let dialler = &dialler;
    let FarEnds { far, own, notes } = ends;
    thread::scope(
        thread::scope_env(),
        rt,
        |scope| -> bool
            requires { IsSend L.row × IsSend Q.row }
        {
            let mut diallers = Vec::new(alloc);
            let mut is_whole = true;
            for end in far {
                match scope.spawn(move || dial_peer(rt, dialler, end)) {
                    Ok(started) => {
                        let _ = diallers.push(started);
                    }
                    Err(_) => is_whole = false,
                }
            }
            is_whole &= start_inner(scope, context, own, notes, dialler);
            is_whole = start_clients(scope, context, listeners, stop, is_whole);
            if is_whole {
                accept_all(scope, context, &listeners.node, Port::Nodes, stop);
            }
            over.set();
            for started in diallers {
                started.join(rt);
            }
            context.shared.own.end(rt);
            context.shared.notes.end(rt);
            context.shared.connections.close(rt);
            is_whole
        },
    )
}

// Starts the worker of the own messages, the writer of notes, and what follows the file of the peers until the flag is set.
// Whether all threads could be made.
fn start_inner<'s, 'e: 's, L: Life + Send + Sync, Q: Lane + Send + Sync, R, T: TakeTurn + Sync>(
    scope: &'s Scope<'s, &'e ()>,
    context: &'e Context<'e, R, T, L, Q>,
    own: Receiver<Option<Event>>,
    notes: Receiver<Option<Note>>,
    dialler: &'e Dialler<'e>,
) -> bool
where
    R: Machine,
{
    let rt = context.rt;
    let me = context.me;
    let dir = context.dir;
    let is_served = scope.spawn(move || serve_own(context, own)).is_ok();
    let is_noted = scope
        .spawn(move || write_notes(rt, me, dir, &notes))
        .is_ok();
    let is_followed = scope.spawn(move || follow(context, dialler)).is_ok();
    is_served && is_noted && is_followed
}

// Follows the file of the peers until the flag is set, if there is one.
fn follow<L: Life, Q: Lane, R, T: TakeTurn + Sync>(
    context: &Context<'_, R, T, L, Q>,
    dialler: &Dialler<'_>,
)
where
    R: Machine,
{
    if let Some(path) = context.peers_file {
        let follower = Follower {
            me: context.me,
            listen: context.listen,
            listen_clients: context.listen_clients,
            path,
            shared: context.shared,
            dialler,
        };
        follow_peers(context.rt, context.alloc, &follower);
    }
}

// Starts what accepts connections to the port for clients, if there is one and all others were started: only a flag ends it.
// Whether all threads could be made.
fn start_clients<'s, 'e: 's, L: Life + Send + Sync, Q: Lane + Send + Sync, R, T: TakeTurn + Sync>(
    scope: &'s Scope<'s, &'e ()>,
    context: &'e Context<'e, R, T, L, Q>,
    listeners: &'e Listeners,
    stop: &'e Stop,
    is_whole: bool,
) -> bool
where
    R: Machine,
{
    if !is_whole {
        return false;
    }
    let Some(clients) = &listeners.clients else {
        return true;
    };
    scope
        .spawn(move || serve_clients(context, clients, stop))
        .is_ok()
}

// Accepts connections to the port for clients until a flag is set, and waits for their workers.
fn serve_clients<L: Life + Send + Sync, Q: Lane + Send + Sync, R, T: TakeTurn + Sync>(
    context: &Context<'_, R, T, L, Q>,
    listener: &TcpListener,
    stop: &Stop,
)
where
    R: Machine,
{
    let rt = context.rt;
    thread::scope(
        thread::scope_env(),
        rt,
        |scope| -> ()
            requires { IsSend L.row × IsSend Q.row }
        {
            accept_all(scope, context, listener, Port::Clients, stop);
        },
    );
}

fn accept_all<'s, 'e: 's, L: Life + Send + Sync, Q: Lane + Send + Sync, R, T: TakeTurn + Sync>(
    scope: &'s Scope<'s, &'e ()>,
    context: &'e Context<'e, R, T, L, Q>,
    listener: &TcpListener,
    port: Port,
    stop: &Stop,
)
where
    R: Machine,
{
    for _ in context.rt.forever() {
        let accepted = listener.accept();
        if stop.is_set() || context.shared.has_ended() {
            return;
        }
        match accepted {
            Ok((stream, from)) => {
                let _ = scope.spawn(move || attend(context, stream, from, port));
            }
            Err(_) => thread::sleep(context.rt, Duration::from_millis(PAUSE_MS)),
        }
    }
    unreachable!()
}
