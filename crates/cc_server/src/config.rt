//! What a node is run with.

use cc_command_line::{Identity, Speech};
use cc_connections::{Address, Peer};

/// What a node is run with.
#[derive(Drop)]
pub struct Config<'a> {
    /// The node's folder.
    pub dir: &'a str,
    /// Where the node listens.
    pub listen: Address,
    /// Where it listens for clients alone, if it does: nothing is taken there but what they ask.
    pub listen_clients: Option<Address>,
    /// Whether it takes the operator's requests that come from other machines.
    pub remote_operators: bool,
    /// What the node is of, and when its folder was formatted.
    pub identity: Identity,
    /// 64 random bits that it took when it was started.
    pub run: u64,
    /// What it speaks to other nodes.
    pub speech: Speech,
    /// Where other nodes listen. What is for one that isn't among them is lost.
    pub peers: Vec<Peer>,
    /// The file that says so, one peer a line, if there is one: it is read again while the node runs.
    pub peers_file: Option<&'a str>,
    /// Where those who look at the node are served, if they are.
    pub status: Option<Address>,
    /// The program's version, which they are shown.
    pub version: &'a str,
}
