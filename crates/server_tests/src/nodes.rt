//! Nodes on loopback.

use cc_channels::ReadText;
use cc_command_line::{FormatWords, Identity, Speech};
use cc_connections::{Address, Peer, Stop};
use cc_intake::{Finished, Hooks};
use cc_server::{Config, RunFault, run_on};
use cc_subcommands::{FormatOrder, format_folder};
use cc_views::NodeId;
use log::Log;
use std::alloc::{AllocError, Global};
use std::fs::{File, Files};
use std::net::{Net, SocketAddr, TcpListener, TcpStream};
use std::process::Abort;
use std::sync::Wait;
use std::thread::Threads;
use std::time::Clock;
use std::{fs, thread};

/// A listener at a port that was free, and where that is.
#[derive(Drop)]
pub(crate) struct Place {
    pub listener: TcpListener,
    pub address: SocketAddr,
}

/// Listens at a port that is free.
pub(crate) fn free_place<R: Abort + Net<Listener = TcpListener, Stream = TcpStream>>(
    rt: &R,
) -> Place {
    let listener = TcpListener::bind(rt, "127.0.0.1:0").expect(rt, "a port that is free");
    let address = listener.local_addr().expect(rt, "an address");
    Place { listener, address }
}

/// Where nothing listens: the listener that was there is gone.
pub(crate) fn free_address<R: Abort + Net<Listener = TcpListener, Stream = TcpStream>>(
    rt: &R,
) -> SocketAddr {
    free_place(rt).address
}

/// A new folder that keeps one of these members, of which a fraction β answers each operation, and up to so many of whose asks
/// begin together.
pub(crate) fn format<'w, R: Abort + AllocGlobal + Files<File = File>>(
    rt: &R,
    folder: &str,
    id: &'w str,
    members: &'w str,
    beta: Option<&'w str>,
    share: Option<&'w str>,
) {
    let words = FormatWords {
        id,
        initial: Some(members),
        contacts: None,
        beta,
        gamma: None,
        share,
        cluster: None,
    };
    let _ = fs::remove_dir_all(rt, folder);
    fs::create_dir(rt, folder).expect(rt, "a folder");
    let order = FormatOrder::parse(rt.alloc(), &words).expect(rt, "an order");
    let mut output = Vec::new(rt.alloc());
    let ended = format_folder(rt, rt.alloc(), folder, &order, 0, &mut output);
    drop(order);
    assert!(rt; matches!(ended, Ok(0)), "the folder is formatted");
}

/// The peer of that number, which listens there.
pub(crate) fn peer<R: Abort>(rt: &R, number: u32, address: Address) -> Peer {
    Peer {
        id: NodeId::new(number).expect(rt, "an id"),
        address,
    }
}

/// Nodes 1 and 2, each the peer of the other.
#[derive(Drop)]
pub(crate) struct TwoMembers {
    pub first: TcpListener,
    pub second: TcpListener,
    pub one: SocketAddr,
    pub two: SocketAddr,
    pub of_1: [Peer; 1],
    pub of_2: [Peer; 1],
}

/// New folders of members 1 and 2 of a cluster with these members, and ports that are free.
pub(crate) fn two_members<R>(rt: &R, folder_1: &str, folder_2: &str, members: &str) -> TwoMembers
where
    R: Abort + AllocGlobal + Files<File = File> + Net<Listener = TcpListener, Stream = TcpStream>,
{
    format(rt, folder_1, "1", members, None, None);
    format(rt, folder_2, "2", members, None, None);
    let Place {
        listener: first,
        address: one,
    } = free_place(rt);
    let Place {
        listener: second,
        address: two,
    } = free_place(rt);
    TwoMembers {
        first,
        second,
        one,
        two,
        of_1: [peer(rt, 2, Address::from(two))],
        of_2: [peer(rt, 1, Address::from(one))],
    }
}

/// What a node of a test is run with, beside its listener.
#[derive(Clone, Copy)]
pub(crate) struct Setting<'a> {
    pub folder: &'a str,
    pub listen: Address,
    pub peers: &'a [Peer],
    pub peers_file: Option<&'a str>,
    pub listen_clients: Option<Address>,
    pub remote_operators: bool,
    pub identity: Identity,
    pub status: Option<Address>,
}

impl<'a> Setting<'a> {
    /// A folder, where the node listens, and peers, and no more.
    pub(crate) fn of(folder: &'a str, listen: SocketAddr, peers: &'a [Peer]) -> Self {
        Setting {
            folder,
            listen: Address::from(listen),
            peers,
            peers_file: None,
            listen_clients: None,
            remote_operators: true,
            identity: Identity::nameless(),
            status: None,
        }
    }
}

/// What a node is given to run with such a setting.
pub(crate) fn config_of<'a>(
    alloc: Global,
    setting: &Setting<'a>,
) -> Result<Config<'a>, AllocError> {
    Ok(Config {
        dir: setting.folder,
        listen: setting.listen,
        listen_clients: setting.listen_clients,
        remote_operators: setting.remote_operators,
        identity: setting.identity,
        run: 1,
        speech: Speech::Now,
        peers: Vec::from_slice(alloc, setting.peers)?,
        peers_file: setting.peers_file,
        status: setting.status,
        version: "1",
    })
}

/// Runs the node of a folder, with these peers, until the flag is set. It makes the setting itself: a closure of a thread can't
/// borrow one.
pub(crate) fn run<R, H: Hooks + Sync>(
    rt: &R,
    alloc: Global,
    folder: &str,
    listener: TcpListener,
    peers: &[Peer],
    stop: &Stop,
    hooks: &H,
) -> Result<Finished<()>, RunFault>
where
    R: Files<File = File>
        + Net<Listener = TcpListener, Stream = TcpStream>
        + Threads
        + Wait
        + Clock
        + ReadText
        + Log
        + Sync,
{
    let listen = listener.local_addr().or(Err(RunFault::Listen))?;
    let setting = Setting::of(folder, listen, peers);
    run_with(rt, alloc, &setting, listener, stop, hooks)
}

/// Runs a node with such a setting until the flag is set.
pub(crate) fn run_with<R, H: Hooks + Sync>(
    rt: &R,
    alloc: Global,
    setting: &Setting<'_>,
    listener: TcpListener,
    stop: &Stop,
    hooks: &H,
) -> Result<Finished<()>, RunFault>
where
    R: Files<File = File>
        + Net<Listener = TcpListener, Stream = TcpStream>
        + Threads
        + Wait
        + Clock
        + ReadText
        + Log
        + Sync,
{
    let config = config_of(alloc, setting)?;
    let ended = run_on(rt, rt, alloc, &config, Some(listener), stop, hooks);
    drop(config);
    ended
}

/// Talks while a node runs, which listens there and is ended by the flag once the talk is over. Each event that it accepted was
/// told and flushed then.
pub(crate) fn while_one_runs<R, F, T>(rt: &R, stop: &Stop, address: SocketAddr, node: F, talk: T)
where
    R: Abort + Net<Listener = TcpListener, Stream = TcpStream> + Threads + Sync,
    F: FnOnce() -> Result<Finished<()>, RunFault> + Send,
    T: FnOnce(),
    requires node { F.IsAlwaysCallable node }
    requires talk { T.IsAlwaysCallable talk }
{
    let (ended, ()) = thread::join(rt, node, || {
        talk();
        stop.set();
        let _ = TcpStream::connect(rt, address);
    });
    let ended = ended.expect(rt, "the node runs");
    assert!(rt; ended.accepted == ended.told, "each accepted event is told");
    assert!(rt;
        ended.accepted == ended.flushed,
        "each accepted event is flushed"
    );
    assert!(rt; ended.rest == 0, "nothing is left");
}

/// The same of two nodes, which listen at these addresses.
pub(crate) fn while_two_run<R, F, G, T>(
    rt: &R,
    stop: &Stop,
    addresses: [SocketAddr; 2],
    first: F,
    second: G,
    talk: T,
)
where
    R: Abort + Net<Listener = TcpListener, Stream = TcpStream> + Threads + Sync,
    F: FnOnce() -> Result<Finished<()>, RunFault> + Send,
    G: FnOnce() -> Result<Finished<()>, RunFault> + Send,
    T: FnOnce(),
    requires first { F.IsAlwaysCallable first }
    requires second { G.IsAlwaysCallable second }
    requires talk { T.IsAlwaysCallable talk }
{
    let [one, two] = addresses;
    while_one_runs(
        rt,
        stop,
        two,
        second,
        ||
            requires { F.IsAlwaysCallable first × T.IsAlwaysCallable talk }
        { while_one_runs(rt, stop, one, first, talk) },
    );
}
