//! A node that runs.

use cc_channels::Machine;
use cc_checkpoint::OpenFault;
use cc_command_line::{Identity, RunOrder, RunWords, VERSION, WordFault};
use cc_connections::{Address, Flag, Stop};
use cc_intake::{Finished, NoHooks};
use cc_server::{Config, RunFault, run_node};
use cc_subcommands::{
    BAD_COMMAND_LINE, FAULT, IdentityError, Machinery, identity_of_folder, node_in_folder,
    print_lost, print_trouble, print_unreadable, print_word_fault, random_number, wait_for_folder,
};
use cc_views::NodeId;
use cc_web::{Gateway, WebSettings, end_web, listen as listen_for_web, serve_web};
use crossbeam_channel::bounded;
use std::fs::{File, Files};
use std::hash::RandomState;
use std::process::ExitCode;
use std::random::RandomSource;
use std::time::Duration;
use std::{fs, thread};

/// Runs the node of a folder, on a machine with a log of its own: the status of that.
pub fn run<R, N>(
    rt: &R,
    machine: &N,
    folder: &str,
    words: &RunWords<'_>,
) -> anyhow::Result<ExitCode>
where
    R: Files<File = File> + Machinery + RandomSource + Sync,
    N: Machine,
{
    let lines = match words.peers_file {
        Some(file) => match fs::read_to_string(rt, file) {
            Ok(lines) => Some(lines),
            Err(error) => return print_unreadable(rt, file, &error),
        },
        None => None,
    };
    let order = RunOrder::parse(rt.alloc(), words, lines.as_deref());
    drop(lines);
    match order {
        Ok(order) => run_as(rt, machine, folder, order, words),
        Err(fault) => print_order_fault(rt, fault, words.peers_file),
    }
}

// A fault of a file of peers is told with its path.
fn print_order_fault<R: Eprint>(
    rt: &R,
    fault: WordFault,
    peers_file: Option<&str>,
) -> anyhow::Result<ExitCode> {
    match (fault, peers_file) {
        (WordFault::Line(_) | WordFault::LineTwice, Some(path)) => {
            eprintln!(rt; "ccnode: {path} {fault}")?;
            Ok(ExitCode::from(BAD_COMMAND_LINE))
        }
        _ => print_word_fault(rt, fault),
    }
}

// How long the fault that ended the node waits for who reads standard output, in milliseconds.
const FAULT_MS: u64 = 500;

// Runs the node, with its peers from that file, if there is one: its own line is passed over there, so that one file serves
// all nodes.
fn run_as<R, N>(
    rt: &R,
    machine: &N,
    folder: &str,
    order: RunOrder,
    words: &RunWords<'_>,
) -> anyhow::Result<ExitCode>
where
    R: Files<File = File> + Machinery + RandomSource + Sync,
    N: Machine,
{
    match prepare(rt, machine, folder, words.peers_file) {
        Ok(prepared) => run_prepared(rt, machine, folder, order, prepared, words),
        Err(why) => {
            drop(order);
            print_unready(rt, folder, why)
        }
    }
}

// What is known of a node before it runs.
#[derive(Clone, Copy)]
struct Prepared {
    // Its id, where its own line among the peers is to be passed over.
    own: Option<NodeId>,
    identity: Identity,
    // 64 random bits, which tell it from others that run.
    run: u64,
}

// Why a node doesn't run.
#[derive(Drop)]
enum Unready {
    Output(anyhow::Error),
    Folder(RunFault),
    Identity(IdentityError),
    NoRandom,
}

// Looks at the folder, once no other program holds it, and prints which of its files are lost.
fn prepare<R, N>(
    rt: &R,
    machine: &N,
    folder: &str,
    peers_file: Option<&str>,
) -> Result<Prepared, Unready>
where
    R: Files<File = File> + Machinery + RandomSource + Sync,
    N: Machine,
{
    print_lost(rt, folder).map_err(Unready::Output)?;
    wait_for_folder(rt, machine, folder).map_err(|error| Unready::Output(error.into()))?;
    let own = match peers_file {
        Some(_) => Some(own_id(rt, folder)?),
        None => None,
    };
    let identity = identity_of_folder(rt, rt.alloc(), folder).map_err(Unready::Identity)?;
    let run = random_number(rt).or(Err(Unready::NoRandom))?;
    Ok(Prepared {
        own,
        identity: identity.unwrap_or(Identity::nameless()),
        run,
    })
}

// The id of the node of a folder.
fn own_id<R>(rt: &R, folder: &str) -> Result<NodeId, Unready>
where
    R: Files<File = File> + Machinery,
{
    node_in_folder(rt, rt.alloc(), folder).map_err(|fault| Unready::Folder(fault.into()))
}

// Prints why a node doesn't run.
fn print_unready<R>(rt: &R, folder: &str, why: Unready) -> anyhow::Result<ExitCode>
where
    R: Files<File = File> + Machinery,
{
    match why {
        Unready::Output(error) => Err(error),
        Unready::Folder(fault) => print_run_fault(rt, folder, fault),
        Unready::Identity(why) => print_identity_error(rt, folder, &why),
        Unready::NoRandom => print_no_random(rt),
    }
}

// Runs a node of which all is known.
fn run_prepared<R, N>(
    rt: &R,
    machine: &N,
    folder: &str,
    order: RunOrder,
    prepared: Prepared,
    words: &RunWords<'_>,
) -> anyhow::Result<ExitCode>
where
    R: Files<File = File> + Machinery + RandomSource + Sync,
    N: Machine,
{
    let web = Web {
        listen: order.http,
        settings: WebSettings {
            own_sessions: order.http_sessions,
            allowed_origin: words.http_origin.map(str::as_bytes),
        },
    };
    let config = config_of(folder, order, prepared, words.peers_file);
    let outcome = run_beside(rt, machine, &config, web);
    drop(config);
    match outcome {
        Ok(_) => Ok(ExitCode::SUCCESS),
        Err(fault) => print_run_fault(rt, folder, fault),
    }
}

// Where clients ask that speak HTTP, if they may, and what they may do.
#[derive(Clone, Copy)]
struct Web<'a> {
    listen: Option<Address>,
    settings: WebSettings<'a>,
}

// Runs a node, and what serves its clients that speak HTTP.
fn run_beside<R, N>(
    rt: &R,
    machine: &N,
    config: &Config<'_>,
    web: Web<'_>,
) -> Result<Finished<()>, RunFault>
where
    R: Files<File = File> + Machinery + RandomSource + Sync,
    N: Machine,
{
    let stop = Stop::new();
    let Some(listen) = web.listen else {
        return run_node(machine, rt, rt.alloc(), config, &stop, &NoHooks);
    };
    let listener = listen_for_web(machine, listen).ok_or(RunFault::Listen)?;
    let keys = RandomState::new(rt).or(Err(RunFault::Listen))?;
    let over = Flag::new();
    let node = config.listen_clients.unwrap_or(config.listen);
    let gateway = Gateway::new(rt.alloc(), node, web.settings, keys, &over);
    let ((), outcome) = thread::join(
        machine,
        || serve_web(machine, &gateway, &listener),
        || {
            let outcome = run_node(machine, rt, rt.alloc(), config, &stop, &NoHooks);
            end_web(machine, &over, &listener);
            outcome
        },
    );
    outcome
}

// What a node is run with: what an order has of it, without the node itself among its peers.
fn config_of<'a>(
    folder: &'a str,
    order: RunOrder,
    prepared: Prepared,
    peers_file: Option<&'a str>,
) -> Config<'a> {
    let mut order = order;
    if let Some(node) = prepared.own {
        order.pass_over(node);
    }
    let RunOrder {
        listen,
        listen_clients,
        remote_operators,
        speech,
        peers,
        status,
        http: _,
        http_sessions: _,
        log: _,
    } = order;
    Config {
        dir: folder,
        listen,
        listen_clients,
        remote_operators,
        identity: prepared.identity,
        run: prepared.run,
        speech,
        peers,
        peers_file,
        status,
        version: VERSION,
    }
}

// Prints why the file `identity` isn't taken.
fn print_identity_error<R: Print + Eprint>(
    rt: &R,
    folder: &str,
    why: &IdentityError,
) -> anyhow::Result<ExitCode> {
    println!(rt; "Identity")?;
    eprintln!(rt; "ccnode: {folder}/{why}")?;
    Ok(ExitCode::from(FAULT))
}

fn print_no_random<R: Eprint>(rt: &R) -> anyhow::Result<ExitCode> {
    eprintln!(rt; "ccnode: the system gives no random bits")?;
    Ok(ExitCode::from(FAULT))
}

// Prints why the node doesn't run, or has ended, and what to do about it. A node among its own peers is a fault of the command line.
fn print_run_fault<R>(rt: &R, folder: &str, fault: RunFault) -> anyhow::Result<ExitCode>
where
    R: Files<File = File> + Machinery,
{
    if fault == RunFault::OwnPeer {
        return print_word_fault(rt, WordFault::PeerItself);
    }
    print_in_time(rt, fault)?;
    if let RunFault::OldCopy { .. } = fault {
        eprintln!(rt;
            "ccnode: {folder}: an old copy: a peer has heard more from this node than the folder has. Retire this id at every other node, and give the folder another one: never bring it back"
        )?;
        return Ok(ExitCode::from(BAD_COMMAND_LINE));
    }
    if let RunFault::Open(opening) = fault {
        if opening == OpenFault::NotFormatted {
            eprintln!(rt; "ccnode: {folder}: not formatted: see ccnode format --help")?;
        }
        print_trouble(rt, folder)?;
    }
    Ok(ExitCode::from(FAULT))
}

// Prints a fault by a thread of its own, and waits for a moment: where nobody reads standard output the program ends without it.
fn print_in_time<R: Machinery>(rt: &R, fault: RunFault) -> anyhow::Result<()> {
    let (done, printed) = bounded(rt.alloc(), 1)?;
    let machine = *rt;
    let is_made = thread::spawn(rt, move || {
        let _ = println!(machine; "{fault}");
        let _ = done.try_send(&machine, ());
    })
    .is_ok();
    if is_made {
        let _ = printed.recv_timeout(rt, Duration::from_millis(FAULT_MS));
    }
    drop(printed);
    Ok(())
}
