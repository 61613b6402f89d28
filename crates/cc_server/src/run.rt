//! A node that runs: it opens its folder, listens, serves and ends.

ghost use Rattle.std.specs.Prelude.{◌≡◌, ℕ, List, None, false};
ghost use Rattle.cc_journal.specs.declared.entry.Entry.{Entry as EntryValue};
ghost use Rattle.cc_intake.specs.Intakes.{share_limit};

use crate::config::Config;
use crate::run_fault::RunFault;
use crate::threads::{cut, live};
use crate::worker_calls::WorkerCalls;
use cc_channels::{
    Admission, Durable, Inlets, Listeners, Machine, Notice, Shared, give_notice, millis,
};
use cc_connections::{Address, Quorum, Stop};
use cc_flush::{Back, Failed, Flusher, open_anew};
use cc_intake::{
    Ends, Finished, Hooked, Hooks, Intake, Lane, Life, OfLife, Queue, Share, Turner, finish, lane,
    start,
};
use cc_messages::Event;
use cc_node::Core;
use cc_policies::{Greeter, Recipient, Routes};
use cc_site::{FileSite, Site};
use cc_status::Board;
use cc_threads::{CountedTurner, Measured, ServerOutlet, Turns, note_opened};
use cc_views::{NoMemory, NodeId};
use cc_workers::{Context, TakeTurn};
use log::{Log, error, info};
use std::alloc::Global;
use std::fs::{File, Files};
use std::io;
use std::marker::Brand;
use std::net::{Net, TcpListener, TcpStream};
use std::sync::ledger::Blank;
use std::sync::{Mutex, Wait};

// How many workers there are at most: one for each connection, and that of the node's own messages.
const MOST_WORKERS: usize = Routes::MAX_CONNECTIONS + Routes::MAX_SPARE + 1;

/// Runs the node of a folder, which it opens by `files`. The node listens once the folder is open, until the flag is set or a
/// disk call fails. What it came to is told without its site. It notes its start and its end on standard error, and what it
/// misses of its peers.
pub fn run_node<'a, R, F, H: Hooks + Sync>(
    rt: &'a R,
    files: &F,
    alloc: Global,
    config: &'a Config<'a>,
    stop: &'a Stop,
    hooks: &'a H,
) -> Result<Finished<()>, RunFault>
where
    R: Machine,
    F: Files<File = File>,
{
    run_on(rt, files, alloc, config, None, stop, hooks)
}

/// The same, on a listener that is there already, if one is given.
pub fn run_on<'a, R, F, H: Hooks + Sync>(
    rt: &'a R,
    files: &F,
    alloc: Global,
    config: &'a Config<'a>,
    listener: Option<TcpListener>,
    stop: &'a Stop,
    hooks: &'a H,
) -> Result<Finished<()>, RunFault>
where
    R: Machine,
    F: Files<File = File>,
{
    let (board, shared, inlets) = match shared(alloc, config, millis(rt)) {
        Ok(made) => made,
        Err(fault) => {
            drop(listener);
            return Err(fault);
        }
    };
    let run = Run {
        rt,
        alloc,
        config,
        stop,
        hooks,
        shared: &shared,
        board: &board,
    };
    let outcome = open_and_run(&run, files, listener, inlets);
    drop((shared, board));
    outcome
}

// What the threads of a node need that is started at that moment, and what those look at who may look at the node.
fn shared(
    alloc: Global,
    config: &Config<'_>,
    now: u64,
) -> Result<(Option<Board>, Shared, Inlets), RunFault> {
    let board = board(alloc, config, now)?;
    match Shared::new(alloc, &config.peers, now) {
        Ok((shared, inlets)) => Ok((board, shared, inlets)),
        Err(NoMemory) => {
            drop(board);
            Err(RunFault::NoMemory)
        }
    }
}

// What those who may look at the node look at.
fn board(alloc: Global, config: &Config<'_>, now: u64) -> Result<Option<Board>, RunFault> {
    if config.status.is_none() {
        return Ok(None);
    }
    let version = String::from_str(alloc, config.version)?;
    Ok(Some(Board::new(version, now)))
}

// What a run goes by.
#[derive(Drop)]
struct Run<'a, R, H> {
    rt: &'a R,
    alloc: Global,
    config: &'a Config<'a>,
    stop: &'a Stop,
    hooks: &'a H,
    shared: &'a Shared,
    board: &'a Option<Board>,
}

// A node that is ready to serve.
#[derive(Drop)]
struct Ready<S: Site> {
    engine: Flusher<S>,
    core: Core,
    listeners: Listeners,
    inlets: Inlets,
}

// Opens the folder and runs the node that is found there.
fn open_and_run<R, F, H: Hooks + Sync>(
    run: &Run<'_, R, H>,
    files: &F,
    listener: Option<TcpListener>,
    inlets: Inlets,
) -> Result<Finished<()>, RunFault>
where
    R: Machine,
    F: Files<File = File>,
{
    let outlet = ServerOutlet::new(run.rt, run.alloc, run.shared, run.config.speech.is_before());
    match FileSite::open(files, run.alloc, run.config.dir, outlet) {
        Ok(site) => run_on_site(run, site, listener, inlets),
        Err(fault) => {
            drop((listener, inlets));
            Err(fault.into())
        }
    }
}

// Opens the node that stands on a site, and runs it.
fn run_on_site<R, H: Hooks + Sync, S: Site + Drop + Send>(
    run: &Run<'_, R, H>,
    site: S,
    listener: Option<TcpListener>,
    inlets: Inlets,
) -> Result<Finished<()>, RunFault>
where
    R: Machine,
{
    let measured = Measured::new(run.rt, run.hooks, &run.shared.gauges);
    let hooked = Hooked {
        site,
        hooks: &measured,
    };
    match open_anew(run.alloc, hooked) {
        Ok((engine, core)) => run_opened(run, listener, inlets, engine, core),
        Err(Back { site, fault }) => {
            drop((site, listener, inlets));
            Err(RunFault::Open(fault))
        }
    }
}

// Runs a node whose folder is open.
fn run_opened<R, H: Hooks + Sync, S: Site + Drop + Send>(
    run: &Run<'_, R, H>,
    listener: Option<TcpListener>,
    inlets: Inlets,
    engine: Flusher<S>,
    core: Core,
) -> Result<Finished<()>, RunFault>
where
    R: Machine,
    requires core { core ≡ engine.twin.core }
    requires owes { engine.owes ≡ false }
{
    match prepare(run, listener, &core) {
        Ok(listeners) => {
            let me = core.me();
            let address = place_of(&listeners.node).unwrap_or(run.config.listen);
            begin_greetings(run, &core);
            run.shared.known.learn_links(run.rt, &core);
            note(run, me, "runs", address);
            note_clients(run, me, &listeners);
            note_opened(run.rt, &core, &run.config.peers);
            let ready = Ready {
                engine,
                core,
                listeners,
                inlets,
            };
            let outcome = run_as::<Brand, S, R, H>(run, ready, Blank::new(1 << 20));
            note(run, me, "ends", address);
            or_old_copy(run.shared, outcome)
        }
        Err(fault) => {
            drop(engine);
            drop(core);
            drop(inlets);
            Err(fault)
        }
    }
}

// Makes ready to serve: it is known who the node is, it is told to enter where it hasn't, and listens.
fn prepare<R, H>(
    run: &Run<'_, R, H>,
    listener: Option<TcpListener>,
    core: &Core,
) -> Result<Listeners, RunFault>
where
    R: Net<Listener = TcpListener, Stream = TcpStream> + Wait + Log,
{
    let me = core.me();
    let listen = run.config.listen;
    let listen_clients = run.config.listen_clients;
    let peers = &run.config.peers;
    if peers.iter().any(|peer| peer.id == me
        || peer.address == listen
        || Some(peer.address) == listen_clients)
    {
        drop(listener);
        return Err(RunFault::OwnPeer);
    }
    let _ = run.shared.me.try_set(me);
    if !core.churn().has_entered(me) {
        run.shared.own.put(run.rt, Event::Enter);
    }
    let node = match listener {
        Some(listener) => listener,
        None => listening(run.rt, run.config.listen)?,
    };
    let clients = listening_if(run.rt, listen_clients)?;
    let pages = listening_if(run.rt, run.config.status)?;
    Ok(Listeners {
        node,
        clients,
        pages,
    })
}

// Has the node greet and take greetings: with what it is, and what its state has of its peers.
fn begin_greetings<R: Wait + Log, H>(run: &Run<'_, R, H>, core: &Core) {
    let shared = run.shared;
    shared.learn_marks(core);
    shared
        .reception
        .learn_left(run.rt, core.churn().changes().left());
    if run.config.identity.cluster.as_bytes().is_empty() {
        give_notice(run.rt, core.me(), &Notice::Nameless);
    } else {
        shared.hello_exchange.need_greeting();
    }
    if let Some(me) = recipient_of(run, core) {
        shared.reception.begin(me);
    }
    if !run.config.speech.is_before() {
        begin_dialling(run, core);
    }
}

// What the node compares greetings with.
fn recipient_of<R, H>(run: &Run<'_, R, H>, core: &Core) -> Option<Recipient> {
    let beta = Quorum::new(core.beta())?;
    let gamma = Quorum::new(core.gamma())?;
    Some(Recipient {
        cluster: run.config.identity.cluster,
        node: core.me(),
        beta,
        gamma,
    })
}

// Has the node greet its peers.
fn begin_dialling<R, H>(run: &Run<'_, R, H>, core: &Core) {
    if let Some(me) = recipient_of(run, core) {
        let greeter = Greeter {
            me,
            birth: run.config.identity.birth,
            run: run.config.run,
        };
        let peers = run.config.peers.len() as u64;
        run.shared.hello_exchange.begin(greeter, peers);
    }
}

// What a run came to, unless its folder is an old copy.
fn or_old_copy(
    shared: &Shared,
    outcome: Result<Finished<()>, RunFault>,
) -> Result<Finished<()>, RunFault> {
    match shared.hello_exchange.old_copy() {
        Some(old_copy) => {
            drop(outcome);
            Err(RunFault::OldCopy {
                peer: old_copy.peer.number(),
                heard: old_copy.heard,
                posted: old_copy.posted,
            })
        }
        None => outcome,
    }
}

// Listens at an address, if there is one.
fn listening_if<R>(rt: &R, address: Option<Address>) -> Result<Option<TcpListener>, RunFault>
where
    R: Net<Listener = TcpListener, Stream = TcpStream> + Log,
{
    match address {
        Some(address) => Ok(Some(listening(rt, address)?)),
        None => Ok(None),
    }
}

// Listens at an address: where it is a name, at the first place of that name where it can. Why it can't is noted.
fn listening<R>(rt: &R, address: Address) -> Result<TcpListener, RunFault>
where
    R: Net<Listener = TcpListener, Stream = TcpStream> + Log,
{
    match TcpListener::bind(rt, address) {
        Ok(listener) => Ok(listener),
        Err(why) => {
            note_refused(rt, address, &why);
            Err(RunFault::Listen)
        }
    }
}

fn note_refused<R: Log>(rt: &R, address: Address, why: &io::Error) {
    error!(rt; "can't listen at {}: {}", address, why);
}

fn note<R: Log, H>(run: &Run<'_, R, H>, me: NodeId, what: &str, address: Address) {
    info!(run.rt; "node {} {} at {}", me.number(), what, address);
}

// Notes where clients alone are served, if they are.
fn note_clients<R: Log, H>(run: &Run<'_, R, H>, me: NodeId, listeners: &Listeners) {
    let Some(clients) = &listeners.clients else {
        return;
    };
    if let Some(address) = place_of(clients) {
        note(run, me, "takes asks alone", address);
    }
}

// Where somebody listens.
fn place_of(listener: &TcpListener) -> Option<Address> {
    let address = listener.local_addr().ok()?;
    Some(Address::from(address))
}

// Lives the life that begins with the node that was opened. Its premises are those of `start`.
fn run_as<L: Life + Send + Sync, S: Site + Drop + Send, R, H: Hooks + Sync>(
    run: &Run<'_, R, H>,
    ready: Ready<S>,
    blank: Blank,
) -> Result<Finished<()>, RunFault>
where
    R: Machine,
    requires core { ready.core ≡ L.opening.core }
    requires owes { ready.engine.owes ≡ false }
    requires twin { ready.engine.failed ≡ None → ready.engine.twin ≡ L.opening }
    requires ledger { (blank.name ≡ L.name) × (blank.parts ≡ L.parts) × (L.parts ≡ share_limit) }
    requires reached { (look : ℕ) (list : List EntryValue) → L.reached look list }
    requires taken { (look : ℕ) (list : List EntryValue) → L.taken look list }
    requires accepted { (list : List EntryValue) → L.accepted list }
    requires flushed { (count : ℕ) → L.flushed count }
{
    let Ok(ends) = lane::<L>(run.alloc) else {
        drop(ready);
        return Err(RunFault::NoMemory);
    };
    run_at::<L, Brand, S, R, H>(run, ready, blank, ends)
}

fn run_at<L: Life + Send + Sync, Q: Lane + Send + Sync, S: Site + Drop + Send, R, H: Hooks + Sync>(
    run: &Run<'_, R, H>,
    ready: Ready<S>,
    blank: Blank,
    ends: Ends<L>,
) -> Result<Finished<()>, RunFault>
where
    R: Machine,
    requires core { ready.core ≡ L.opening.core }
    requires owes { ready.engine.owes ≡ false }
    requires twin { ready.engine.failed ≡ None → ready.engine.twin ≡ L.opening }
    requires ledger { (blank.name ≡ L.name) × (blank.parts ≡ L.parts) × (L.parts ≡ share_limit) }
    requires reached { (look : ℕ) (list : List EntryValue) → L.reached look list }
    requires taken { (look : ℕ) (list : List EntryValue) → L.taken look list }
    requires accepted { (list : List EntryValue) → L.accepted list }
    requires flushed { (count : ℕ) → L.flushed count }
    requires lane { ends ≡ Q.table }
{
    let Ready {
        engine,
        core,
        listeners,
        inlets,
    } = ready;
    let (intake, turner, queue) = start::<S, L, Q>(engine, core, blank, ends);
    let begun = Begun {
        intake,
        turner,
        queue,
        listeners,
        inlets,
    };
    run_begun(run, begun)
}

// A life that has begun.
#[derive(Drop)]
struct Begun<S: Site, L: Life, Q: Lane> {
    intake: Intake<L, Q>,
    turner: Turner<S, L, Q>,
    queue: Queue<L, Q>,
    listeners: Listeners,
    inlets: Inlets,
}

// From here on the count 0 alone is known as durable; each later one comes from a turn.
fn run_begun<
    L: Life + Send + Sync,
    Q: Lane + Send + Sync,
    S: Site + Drop + Send,
    R,
    H: Hooks + Sync,
>(run: &Run<'_, R, H>, begun: Begun<S, L, Q>) -> Result<Finished<()>, RunFault>
where
    R: Machine,
    requires none { L.flushed 0 }
{
    let Ok(shares) = Vec::with_capacity(run.alloc, MOST_WORKERS) else {
        drop(begun);
        return Err(RunFault::NoMemory);
    };
    let Ok(admission) = Admission::new(run.alloc, Durable::<OfLife<L>>::new(0)) else {
        drop((begun, shares));
        return Err(RunFault::NoMemory);
    };
    admission.turned(run.rt, 0, Durable::new(0), begun.turner.engine().twin());
    let outcome = run_admitted(&*run, begun, shares, &admission);
    drop(admission);
    outcome
}

fn run_admitted<
    'a,
    L: Life + Send + Sync,
    Q: Lane + Send + Sync,
    S: Site + Drop + Send,
    R,
    H: Hooks + Sync,
>(
    run: &'a Run<'a, R, H>,
    begun: Begun<S, L, Q>,
    shares: Vec<Share<L>>,
    admission: &'a Admission<OfLife<L>>,
) -> Result<Finished<()>, RunFault>
where
    R: Machine,
{
    let Begun {
        intake,
        turner,
        queue,
        listeners,
        inlets,
    } = begun;
    let engine = Mutex::new(CountedTurner::new(turner));
    let lock = Mutex::new(intake);
    let shares = Mutex::new(shares);
    let locked = Locked {
        engine: &engine,
        lock: &lock,
        shares: &shares,
        queue: &queue,
        admission: &*admission,
        listeners: &listeners,
    };
    let outcome = run_locked(&*run, locked, inlets);
    drop(listeners);
    let finished = finish(
        run.rt,
        lock.into_inner(),
        shares.into_inner(),
        engine.into_inner().turner,
        queue,
    );
    came_to(without_site(finished), outcome)
}

// What the threads of a life share.
#[derive(Drop)]
struct Locked<'x, S: Site, L: Life, Q: Lane> {
    engine: &'x Mutex<CountedTurner<S, L, Q>>,
    lock: &'x Mutex<Intake<L, Q>>,
    shares: &'x Mutex<Vec<Share<L>>>,
    queue: &'x Queue<L, Q>,
    admission: &'x Admission<OfLife<L>>,
    listeners: &'x Listeners,
}

// Lets flusher and workers take turns.
fn run_locked<
    'x,
    L: Life + Send + Sync,
    Q: Lane + Send + Sync,
    S: Site + Drop + Send,
    R,
    H: Hooks + Sync,
>(run: &'x Run<'x, R, H>, locked: Locked<'x, S, L, Q>, inlets: Inlets) -> Option<Result<(), Failed>>
where
    R: Machine,
{
    let turns = Turns {
        rt: run.rt,
        engine: locked.engine,
        queue: locked.queue,
        admission: locked.admission,
        shared: run.shared,
    };
    let calls = WorkerCalls {
        hooks: run.hooks,
        turns: &turns,
    };
    serve(run, &locked, &turns, &calls, inlets)
}

// Starts the threads, with these calls for the workers.
fn serve<
    'x,
    L: Life + Send + Sync,
    Q: Lane + Send + Sync,
    S: Site + Drop + Send,
    R,
    H,
    T: TakeTurn + Sync,
>(
    run: &'x Run<'x, R, H>,
    locked: &'x Locked<'x, S, L, Q>,
    turns: &'x Turns<'x, S, L, Q, R>,
    calls: &'x T,
    inlets: Inlets,
) -> Option<Result<(), Failed>>
where
    R: Machine,
{
    let me = locked.engine.lock(run.rt).me();
    let context = Context {
        rt: run.rt,
        alloc: run.alloc,
        me,
        dir: run.config.dir,
        listen: run.config.listen,
        listen_clients: run.config.listen_clients,
        peers_file: run.config.peers_file,
        turns: calls,
        remote_operators: run.config.remote_operators,
        shared: run.shared,
        admission: locked.admission,
        lock: locked.lock,
        queue: locked.queue,
        shares: locked.shares,
    };
    let (watch, ends) = cut(inlets, run.alloc, run.shared, run.board.as_ref());
    live(&context, turns, watch, ends, locked.listeners, run.stop)
}

// What a run came to, unless it failed.
fn came_to(
    finished: Finished<()>,
    outcome: Option<Result<(), Failed>>,
) -> Result<Finished<()>, RunFault> {
    match outcome {
        Some(Ok(())) => Ok(finished),
        Some(Err(failed)) => Err(RunFault::Failed(failed)),
        None => Err(RunFault::NoMemory),
    }
}

// What a life came to, without its site.
fn without_site<S: Drop>(finished: Finished<S>) -> Finished<()> {
    let Finished {
        accepted,
        told,
        issued,
        flushed,
        rest,
        site,
    } = finished;
    drop(site);
    Finished {
        accepted,
        told,
        issued,
        flushed,
        rest,
        site: (),
    }
}
