//! Peers, one on each line of a text.

ghost use Rattle.std.specs.Prelude.{◌≡◌, ◌≤◌, ◌+◌, ◌∷◌, ◌++◌, [], ℕ, List, map, length, IfOk, IfErr, OnOk};
ghost use Rattle.std.specs.List.{filter_map, cons_option, slice_split};
ghost use Rattle.std.specs.Option.{option_map};
ghost use Rattle.cc_command_line.specs.Addresses.{ArePeers, SpellsPeers};
ghost use Rattle.cc_command_line.specs.PeerLines.{said_in, said_on, lines_of, said_lines, list_of_lines, IsFaultAt, IsFirstFault, HaveNoComma};
ghost use Rattle.cc_command_line.specs.declared.peer_lines.LineFault.TheVariants as faults;
ghost use Rattle.cc_connections.specs.declared.peer.Peer.{Peer as PeerValue};

use crate::addresses::peer_in;
use cc_connections::Peer;
use std::alloc::{AllocError, AllocFailed, Global};

/// Why no peers stand on the lines of a text.
#[derive(Clone, Copy, Debug, PartialEq, Eq)]
pub enum LineFault {
    /// The line with this number, from 1 on, is the first one that says something else.
    NoPeer(usize),
    /// A growth was refused.
    NoMemory,
}

impl From<AllocError> for LineFault {
    ghost from_gives = { λ _ e. e ≡ faults.NoMemory };

    fn from(_: AllocError) -> Self {
        LineFault::NoMemory
    }
}

impl From<AllocFailed<Peer>> for LineFault {
    ghost from_gives = { λ _ e. e ≡ faults.NoMemory };

    fn from(_: AllocFailed<Peer>) -> Self {
        LineFault::NoMemory
    }
}

/// The peers on the lines of a text, in their order: `ID=ADDR` on each, in blanks or not. A blank line says nothing, nor
/// does one that begins with `#`.
pub fn peers_in_lines(alloc: Global, text: &str) -> Result<Vec<Peer>, LineFault>
    ensures peers { IfOk result (λ v. ArePeers (said_lines text.now) v.items) }
    // Handing over the text is handing over the list of what its lines say.
    ensures list { IfOk result (λ v. 1 ≤ length (said_lines text.now) → SpellsPeers (list_of_lines text.now) v.items) }
    ensures fault { IfErr result (λ e. IsFirstFault (lines_of text.now) e) }
{
    let lines: Vec<&str> = text.split('\n').collect(alloc)?;
    peers_on(alloc, &lines)
}

// The peers on these lines.
fn peers_on(alloc: Global, lines: &[&str]) -> Result<Vec<Peer>, LineFault>
    ensures peers { IfOk result (λ v. ArePeers (said_on (map (λ l. l.now) lines.now)) v.items) }
    ensures fault { IfErr result (λ e. IsFirstFault (map (λ l. l.now) lines.now) e) }
{
    let mut peers = Vec::new(alloc);
    for (i, line) in lines.iter().enumerate() {
        take_line(&mut peers, line, i + 1)?;
    }
    Ok(peers)
}

// One more line, the one with this number.
fn take_line(peers: &mut Vec<Peer>, line: &str, number: usize) -> Result<(), LineFault>
    ensures peers { OnOk result ((words : List (List ℕ)) → ArePeers words peers.old.items → ArePeers (words ++ cons_option (said_in line.now) [])
        peers.new.items) }
    ensures fault { IfErr result (λ e. IsFaultAt number line.now e) }
{
    let Some(word) = said(line) else {
        return Ok(());
    };
    let Some(peer) = peer_in(word) else {
        return Err(LineFault::NoPeer(number));
    };
    peers.push(peer)?;
    Ok(())
}

// What a line says, without the blanks around it.
fn said(line: &str) -> Option<&str>
    ensures { option_map (λ w. w.now) result ≡ said_in line.now }
{
    let word = line.trim();
    match word.as_bytes().first() {
        None | Some(b'#') => None,
        Some(_) => Some(word),
    }
}

/// Lines without a comma are those peers exactly where the list of what they say is.
pub fn lines_are_a_list()
    ensures { (text : List ℕ) (peers : List PeerValue) → 1 ≤ length (said_lines text) → HaveNoComma (said_lines text)
        → (ArePeers (said_lines text) peers → SpellsPeers (list_of_lines text) peers)
        × (SpellsPeers (list_of_lines text) peers → ArePeers (said_lines text) peers) }
{}
