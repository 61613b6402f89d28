//! The words of the command line, and their help.

use clap::{Arg, ArgAction, Command};
use std::alloc::{AllocError, Global};

/// The program's version.
pub const VERSION: &str = "0.1.0";

const PLAY_HELP: &str = "\
Example: ccnode play < my-script

Prints what each line of the script makes of its node, as `1 accepted` and what it
sends then. Statuses: 0 after the whole script, 1 after a bad line or a fault of a
node, and 2 after a command line that it doesn't take.";

const FORMAT_HELP: &str = "\
Examples: ccnode format node-1 1 --initial 1,2,3
          ccnode format node-4 4 --contacts 1,2,3

A LIST is numbers joined by commas, ascending. A member is in its own initial list.
A node without one enters later, and needs all living members as contacts: enough
that a fraction --gamma of those present, itself among them, answers it. --beta and
--gamma are those of the cluster: the same at every node. --share is the node's own,
and `share` changes it: 32 is for one that many clients ask at once. --cluster is the
same at every node of a cluster: up to 64 letters, digits, `-`, `.` and `_`. The file
`identity` has it, beside 64 random bits that tell this folder from others.

Prints `formatted ID`, or why the folder isn't formatted: BadOpening (no node begins
so: a list that doesn't ascend, a fraction above 1, a --share of 0 or above 32, a
member that isn't in its list), NoMemory, AlreadyFormatted, or Device with the side
and the disk call that failed. Standard error says which rule is broken, or what is
wrong with which file. Statuses: 0 formatted, 1 not formatted, 2 after a command line
that it doesn't take, and then no file was touched.";

const DUMP_HELP: &str = "\
Example: ccnode dump node-1

Prints three lines:
  A armed 1                     side A counts, under generation 1;
                                `A closed` where it doesn't count,
                                `A armed short` where it is cut off
  B closed                      the same of side B
  opened A records 2 events 3   the side in use, and what counts behind its state
In place of the last line, or of all that are still to come, it prints `fault` and
why the folder can't be opened: `Device A Length` where it is missing, or a node runs
on it. It changes nothing but that it makes files that are missing. With --node further
lines tell of the node: its members, its view, the round that is pending and what that
needs, the asks that wait, and for each peer the posts that it owes an acknowledgement.
Statuses: 0 opened, 1 after a fault, 2 after a command line that it doesn't take.";

const RUN_HELP: &str = "\
Example: ccnode run node-1 --listen 127.0.0.1:7001 \\
             --peers 2=127.0.0.1:7002,3=127.0.0.1:7003

Runs the node of a folder that was formatted, until the program is ended, by SIGTERM
or else: what was answered is on the disk, and the next run goes on from there.
A peer that isn't named gets nothing from this node. Whoever can reach ADDR may ask,
tell the node to leave, or send it messages: keep it in a network that you trust.
What comes to the ADDR of --listen-clients may ask, and nothing else; whoever brings
anything else there is hung up on. With --operators off the node leaves, retires others
and changes its share for whoever asks on its own machine alone.

The node greets each peer, and sends it nothing unless it is taken there: as a node of
the same cluster that looks for just that peer. An answer to an operation goes to the
node that asked, and the others are told that they need not wait for it. Programs up to
0.1 know neither: beside one all nodes run with --speaks 0.1.

Clients that speak HTTP ask at the ADDR of --http: `curl http://ADDR/v1/` tells what
there is. They may store and read, and no more.

An ADDR is an IPv4 address, an IPv6 address in brackets or the name of a machine, with a
port: 127.0.0.1:7001, [::1]:7001, node-1.example:7001. A name is looked up at each
connection.

A FILE of peers has a line ID=ADDR for each node. Blank lines and those that begin
with # say nothing, and the node's own line is passed over: one file serves all.

It notes its start on standard error, and its end where a disk call fails. It prints
why it doesn't run, or has ended. Statuses: 1 where the folder can't be opened
(NotFormatted, Damaged, Version, Device, NoMemory) or says nothing clear of itself
(Identity), a disk call fails (Failed) or an ADDR can't be listened at (Listen), 2 after a
command line that it doesn't take, the node among its own peers and a FILE that can't be
read included, or where the folder is an old copy (OldCopy with the peer that has heard
more, how much, and how much the folder has). Beside Device standard error says what is
wrong with which file.";

const ASK_HELP: &str = "\
Examples: ccnode ask 127.0.0.1:7001 7 store a
          ccnode ask 127.0.0.1:7001 7 collect

Commands, and what they print:
  store WORD      stores a text of 1 to 64 visible characters: Stored
  collect         the last value of each node: Seen [NODE:NUMBER=TEXT/MAX/FLAG/SET,..]
  snapshot        the values that all nodes had at one moment: Seen [..] and collects N
  max N, readmax  writes a number, and reads the greatest of all nodes: Stored, Max N
  flag, readflag  sets a flag, and reads whether any node did: Stored, Flag 1
  add N, readset  adds a number to a set, and reads those of all nodes: Stored, Set [N,..]

It asks again where the node is busy or the connection breaks, under the same number,
so that nothing is done twice. Else it prints `refused` and why, as `refused 4
NotJoined`, `session in use` where another client uses the session, or `no answer`,
and on standard error why none came, by the page at --status where that is given: then
it may still be done, and asking again does it once more. An earlier ask of the session
that is still on its way never takes its number: a reading goes before the command.
With --request the command is asked under that number and no other: it is done once,
however often that line is run, and a number that isn't the session's last or the next
is refused, 11 Stale or 12 Skip. With --wait a node that isn't in the cluster yet is
asked again until the time is over. With `store --text TEXT` any text of 1 to 64 bytes
is stored.

A snapshot is what two collects in a row show alike. With --snapshot a reading is read
off one, as readmax. A second line tells how many collects that took; where no two
agree in time, since others write, it prints `no snapshot`.

With --json it prints {\"answer\":\"Max\",\"max\":\"120\"} and the like, {\"refused\":\"Busy\",
\"number\":13,\"carries\":\"0\"}, {\"session_in_use\":true} or {\"no_answer\":true}. Numbers
that may exceed 2^53 are strings, and a text that isn't UTF-8 is `text_base64`. Statuses:
0 after an answer, 1 after a refusal or no answer, 2 after a command line that it doesn't
take.";

const LEAVE_HELP: &str = "\
Example: ccnode leave 127.0.0.1:7001

Prints `left`, also where it had left before, `refused` and why, or `no answer`. The
node tells the others, which don't wait for it any more. Statuses: 0 left, 1 not, 2
after a command line that it doesn't take.";

const RETIRE_HELP: &str = "\
Examples: ccnode retire 127.0.0.1:7001,127.0.0.1:7002 3
          ccnode retire --peers-file peers 3

To be done at each node that lives, once it is sure that the dead one never comes back.
Prints `retired 3`, also where it was retired before or has left; `refused` and why, as
`refused 1 Left` where the node that is asked has left itself; or `no answer`. Where
several nodes are told it prints a line for each, which begins with its address. A node
that was heard within three seconds is retired with --alive alone. Statuses: 0 where
all took it, else 1, 2 after a command line that it doesn't take.";

const SHARE_HELP: &str = "\
Example: ccnode share 127.0.0.1:7001 8

From the next round on up to N asks of one kind begin together; the round that is under
way goes on as it is. The node keeps the number in its folder. Prints `share 8`, also
where it was 8 before; `refused` and why, as `refused 13 Busy` where more than N asks
are under way; or `no answer`. Statuses: 0 where it is N now, 1 where it isn't, 2 after
a command line that it doesn't take.";

const STATUS_HELP: &str = "\
Example: ccnode status 127.0.0.1:8001

Prints what the node tells of itself at the ADDR of `run --status`, a line for each
part: whether it is ready or why not, how many members answer an operation, the round
that is under way and the asks that wait, its sessions and posts, its disk and the
times of its syncs, and for each peer whether it is there and how far it is behind.
With --json it prints the JSON in a line. Where nothing comes it prints `no answer`.
Statuses: 0 where the node is ready, 1 where it isn't or doesn't answer, 2 after a
command line that it doesn't take.";

const LOAD_HELP: &str = "\
Example: ccnode load 127.0.0.1:7001,127.0.0.1:7002,127.0.0.1:7003 --clients 64

Each client has a connection and a session at one of the nodes, and asks again as soon
as it was answered. Prints how many operations were answered, and how many a second;
the time within which half of them were (p50), 99 of a hundred (p99) and all (worst);
and how many took up to each power of two of microseconds, and more than the one before.
Behind that stands how many requests came again since a node was too busy, how many
connections were lost, and how many clients ended early and why, where any did.

Not for a cluster in use: each store replaces the text of its node, and a node serves
256 sessions in its life, of which a load takes one for each client there. These are
those from --sessions-from on, so that a later load takes the same ones again. No other
client may use them meanwhile, nor may a second load.

With --json it prints the same as JSON in a line, times in microseconds. Statuses: 0
where an operation was answered, 1 where none was, 2 after a command line that it
doesn't take.";

// A subcommand: its name, what it does, its words in their order, and what its help ends with.
struct Subcommand {
    name: &'static str,
    about: &'static str,
    words: &'static [Word],
    help: &'static str,
}

// A word of a subcommand, and its help.
#[derive(Clone, Copy)]
enum Word {
    // One without which no command line is taken, by its place.
    Needed(&'static str, &'static str),
    // One that may be left out, by its place.
    Spared(&'static str, &'static str),
    // An option without which no command line is taken, and what its value is called.
    NeededOption(&'static str, &'static str, &'static str),
    // An option, and what its value is called.
    Option(&'static str, &'static str, &'static str),
    // The same where the value may begin with a hyphen.
    AnyOption(&'static str, &'static str, &'static str),
    // An option without a value.
    Flag(&'static str, &'static str),
}

const FOLDER: Word = Word::Needed("DIR", "The node's folder, which has to exist");

const ADDRESS: Word = Word::Needed("ADDR", "Where the node listens, such as 127.0.0.1:7001");

const PLAY: Subcommand = Subcommand {
    name: "play",
    about: "Plays the script on standard input over a cluster in memory",
    words: &[],
    help: PLAY_HELP,
};

const FORMAT: Subcommand = Subcommand {
    name: "format",
    about: "Makes a folder keep a node as it begins",
    words: &[
        FOLDER,
        Word::Needed("ID", "The node's number, 1 or more"),
        Word::Option(
            "initial",
            "LIST",
            "The members at the start [default: none, for a node that enters later]",
        ),
        Word::Option(
            "contacts",
            "LIST",
            "Whom an entering node can reach: all living members [default: none]",
        ),
        Word::Option(
            "beta",
            "N/D",
            "The fraction of the members whose answers an operation waits for [default: 4/5]",
        ),
        Word::Option(
            "gamma",
            "N/D",
            "The fraction of those present whose echoes an entering node waits for [default: 4/5]",
        ),
        Word::Option(
            "share",
            "N",
            "How many of the asks that wait begin together at most, 1 to 32 [default: 1]",
        ),
        Word::Option(
            "cluster",
            "NAME",
            "The name of the cluster: a node of another one isn't taken [default: none]",
        ),
    ],
    help: FORMAT_HELP,
};

const RUN: Subcommand = Subcommand {
    name: "run",
    about: "Runs a node over TCP",
    words: &[
        FOLDER,
        Word::NeededOption("listen", "ADDR", "Where it listens: an address and a port"),
        Word::Option(
            "listen-clients",
            "ADDR",
            "Where it listens for clients alone, beside --listen [default: nowhere]",
        ),
        Word::Option(
            "operators",
            "on|off",
            "Whether `leave`, `retire` and `share` are taken from other machines [default: on]",
        ),
        Word::Option(
            "speaks",
            "now|0.1",
            "What it says to other nodes: what this program understands, or 0.1 [default: now]",
        ),
        Word::Option(
            "peers",
            "ID=ADDR,..",
            "Where the other nodes listen [default: none]",
        ),
        Word::Option(
            "peers-file",
            "FILE",
            "The same from a file, in place of --peers: a line ID=ADDR for each node",
        ),
        Word::Option(
            "status",
            "ADDR",
            "Where it tells its status over HTTP [default: nowhere]",
        ),
        Word::Option(
            "http",
            "ADDR",
            "Where clients ask that speak HTTP [default: nowhere]",
        ),
        Word::Option(
            "http-sessions",
            "N",
            "How many of its sessions it keeps for those that bring none [default: 64]",
        ),
        Word::Option(
            "http-origin",
            "URL",
            "Whose pages may write, such as http://localhost:3000 [default: nobody's]",
        ),
        Word::Option(
            "log",
            "LEVEL",
            "How much it notes: error, warn, info or debug [default: info]",
        ),
    ],
    help: RUN_HELP,
};

const ASK: Subcommand = Subcommand {
    name: "ask",
    about: "Has a node do something, and prints its answer",
    words: &[
        ADDRESS,
        Word::Needed(
            "SESSION",
            "The client's session: a number of its own. A node serves 256 of them in its life",
        ),
        Word::Needed("COMMAND", "What is to be done, as below"),
        Word::Spared("VALUE", "The word that some commands have"),
        Word::AnyOption(
            "text",
            "TEXT",
            "What is to be stored, in place of VALUE: any 1 to 64 bytes, blanks too",
        ),
        Word::Option(
            "request",
            "N",
            "The number of the request, from 1 on [default: the one after the session's last]",
        ),
        Word::Option("timeout", "SECONDS", "How long it waits [default: 10]"),
        Word::Flag("wait", "Asks again while the node hasn't joined"),
        Word::Flag(
            "snapshot",
            "Has a reading read what all nodes had at one moment",
        ),
        Word::Option(
            "status",
            "ADDR",
            "Where the node tells its status: says why no answer came",
        ),
        Word::Flag("json", "Prints the answer as JSON, in a line"),
    ],
    help: ASK_HELP,
};

const LEAVE: Subcommand = Subcommand {
    name: "leave",
    about: "Has a node leave the cluster for good",
    words: &[ADDRESS],
    help: LEAVE_HELP,
};

const RETIRE: Subcommand = Subcommand {
    name: "retire",
    about: "Tells nodes that another one is dead for good",
    words: &[
        Word::Needed(
            "ADDRS",
            "Where the nodes listen that are told, such as 127.0.0.1:7001,127.0.0.1:7002",
        ),
        Word::Spared("ID", "The number of the node that is dead for good"),
        Word::Option(
            "peers-file",
            "FILE",
            "A file of peers, in place of ADDRS: each node in it is told, but the dead one",
        ),
        Word::Flag("alive", "Retires it though it was heard a moment ago"),
    ],
    help: RETIRE_HELP,
};

const SHARE: Subcommand = Subcommand {
    name: "share",
    about: "Tells a node how many asks begin together",
    words: &[
        ADDRESS,
        Word::Needed(
            "N",
            "How many asks of one kind begin together at most, 1 to 32",
        ),
    ],
    help: SHARE_HELP,
};

const DUMP: Subcommand = Subcommand {
    name: "dump",
    about: "Tells what stands in a node's folder",
    words: &[
        FOLDER,
        Word::Flag("node", "Tells of the node too, and what it waits for"),
    ],
    help: DUMP_HELP,
};

const STATUS: Subcommand = Subcommand {
    name: "status",
    about: "Prints what a node tells of itself",
    words: &[
        Word::Needed(
            "ADDR",
            "Where the node tells its status, such as 127.0.0.1:8001",
        ),
        Word::Flag("json", "Prints it as JSON, in a line"),
        Word::Flag("watch", "Asks once a second, until the program is ended"),
    ],
    help: STATUS_HELP,
};

const LOAD: Subcommand = Subcommand {
    name: "load",
    about: "Measures how quickly nodes answer many clients",
    words: &[
        Word::Needed(
            "ADDRS",
            "Where the nodes listen, such as 127.0.0.1:7001,127.0.0.1:7002",
        ),
        Word::Option(
            "clients",
            "N",
            "How many clients ask at once, 1 to 256 [default: 8]",
        ),
        Word::Option(
            "seconds",
            "S",
            "For how many seconds they ask, 1 to 3600 [default: 10]",
        ),
        Word::Flag("collects", "They collect, in place of storing a text"),
        Word::Option(
            "sessions-from",
            "K",
            "The first session that they use at each node [default: 9000]",
        ),
        Word::Flag("json", "Prints what was measured as JSON, in a line"),
    ],
    help: LOAD_HELP,
};

// All subcommands, in the order of the help. The prover takes a table as one term, so they stand in three.
const FIRST: [Subcommand; 3] = [PLAY, FORMAT, RUN];

const AT_NODES: [Subcommand; 4] = [ASK, LEAVE, RETIRE, SHARE];

const LAST: [Subcommand; 3] = [STATUS, LOAD, DUMP];

/// The program's subcommands and their words. The help has the program's own name, whatever its file is called.
pub fn command_line<'a>(alloc: Global) -> Result<Command<'a>, AllocError> {
    let mut subcommands = Vec::new(alloc);
    push_first(alloc, &mut subcommands)?;
    push_at_nodes(alloc, &mut subcommands)?;
    push_last(alloc, &mut subcommands)?;
    Command::new(alloc, "ccnode")
        .about("A durable node of a store-collect cluster")
        .version(VERSION)
        .subcommand_required(true)
        .bin_name("ccnode")?
        .subcommands(subcommands)
}

fn push_first<'a>(alloc: Global, to: &mut Vec<Command<'a>>) -> Result<(), AllocError> {
    push_all(alloc, to, &FIRST)
}

fn push_at_nodes<'a>(alloc: Global, to: &mut Vec<Command<'a>>) -> Result<(), AllocError> {
    push_all(alloc, to, &AT_NODES)
}

fn push_last<'a>(alloc: Global, to: &mut Vec<Command<'a>>) -> Result<(), AllocError> {
    push_all(alloc, to, &LAST)
}

fn push_all<'a>(
    alloc: Global,
    to: &mut Vec<Command<'a>>,
    subcommands: &[Subcommand],
) -> Result<(), AllocError> {
    for subcommand in subcommands {
        match command_of(alloc, subcommand) {
            Ok(command) => to.push(command).or(Err(AllocError))?,
            Err(AllocError) => return Err(AllocError),
        }
    }
    Ok(())
}

fn command_of<'a>(alloc: Global, subcommand: &Subcommand) -> Result<Command<'a>, AllocError> {
    let mut args = Vec::new(alloc);
    if push_args(alloc, &mut args, subcommand.words).is_err() {
        drop(args);
        return Err(AllocError);
    }
    Command::new(alloc, subcommand.name)
        .about(subcommand.about)
        .after_help(subcommand.help)
        .args(args)
}

fn push_args<'a>(alloc: Global, to: &mut Vec<Arg<'a>>, words: &[Word]) -> Result<(), AllocError> {
    for word in words {
        to.push(arg_of(alloc, word)).or(Err(AllocError))?;
    }
    Ok(())
}

fn arg_of<'a>(alloc: Global, word: &Word) -> Arg<'a> {
    match word {
        Word::Needed(name, help) => Arg::new(alloc, name).required(true).help(help),
        Word::Spared(name, help) => Arg::new(alloc, name).help(help),
        Word::NeededOption(name, value, help) => {
            option(alloc, name, value).required(true).help(help)
        }
        Word::Option(name, value, help) => option(alloc, name, value).help(help),
        Word::AnyOption(name, value, help) => option(alloc, name, value)
            .allow_hyphen_values(true)
            .help(help),
        Word::Flag(name, help) => Arg::new(alloc, name)
            .long(name)
            .action(ArgAction::SetTrue)
            .help(help),
    }
}

fn option<'a>(alloc: Global, name: &'a str, value: &'a str) -> Arg<'a> {
    Arg::new(alloc, name).long(name).value_name(value)
}
