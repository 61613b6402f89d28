//! A load on nodes that run.

use crate::address_words::addresses;
use crate::ask_words::AnswerForm;
use crate::commands::store_of;
use crate::numbers::number;
use crate::word_fault::WordFault;
use cc_connections::Address;
use cc_messages::Command;
use std::alloc::Global;

// How many clients ask, for how many seconds, and the first of their sessions, where no word says another number.
const CLIENTS: u64 = 8;

const SECONDS: u64 = 10;

const SESSIONS_FROM: u64 = 9000;

// How many clients ask at most, and for how many seconds.
const MOST_CLIENTS: u64 = 256;

const MOST_SECONDS: u64 = 3600;

// What is stored.
const TEXT: &str = "load-0123456789";

/// The words of `load`, as they are given. None for an option that isn't.
#[derive(Clone, Copy)]
pub struct LoadWords<'a> {
    pub addresses: &'a str,
    pub clients: Option<&'a str>,
    pub seconds: Option<&'a str>,
    pub sessions_from: Option<&'a str>,
    /// Whether they collect, in place of storing.
    pub collects: bool,
    pub form: AnswerForm,
}

/// What the clients of a load ask for.
#[derive(Clone, Copy, PartialEq, Eq)]
pub enum Operation {
    Store,
    Collect,
}

impl Operation {
    /// The command of each request: a store has the same text each time.
    pub fn command(self) -> Command {
        match self {
            Operation::Store => match store_of(TEXT) {
                Some(command) => command,
                None => unreachable!(),
            },
            Operation::Collect => Command::Collect,
        }
    }

    /// `store` or `collect`.
    pub fn name(self) -> &'static str {
        match self {
            Operation::Store => "store",
            Operation::Collect => "collect",
        }
    }
}

/// Clients that ask nodes which run, each as soon as it was answered.
#[derive(Drop, PartialEq, Eq)]
pub struct LoadOrder {
    /// Where the nodes listen, no address twice.
    pub addresses: Vec<Address>,
    /// How many clients ask at once, from 1 to 256.
    pub clients: u64,
    /// For how many seconds they ask.
    pub seconds: u64,
    /// The first of their sessions at each node.
    pub sessions_from: u64,
    pub operation: Operation,
    pub form: AnswerForm,
}

impl LoadOrder {
    /// What these words ask for. The fault names a word of another form.
    pub fn parse(alloc: Global, words: &LoadWords<'_>) -> Result<Self, WordFault> {
        let clients = number_in(words.clients, 1, MOST_CLIENTS, CLIENTS);
        let seconds = number_in(words.seconds, 1, MOST_SECONDS, SECONDS);
        let last = u64::MAX - MOST_CLIENTS;
        let sessions_from = number_in(words.sessions_from, 0, last, SESSIONS_FROM);
        Ok(LoadOrder {
            clients: clients.ok_or(WordFault::Clients)?,
            seconds: seconds.ok_or(WordFault::Seconds)?,
            sessions_from: sessions_from.ok_or(WordFault::SessionsFrom)?,
            operation: operation_of(words.collects),
            form: words.form,
            addresses: addresses(alloc, words.addresses)?,
        })
    }

    /// The node of the client with this number, from 0 on, and its session there. Clients go round the nodes, so no two have
    /// one session of one node. None without a node.
    pub fn session_of(&self, client: u64) -> Option<(Address, u64)> {
        let nodes = self.addresses.len() as u64;
        if nodes == 0 {
            return None;
        }
        let address = self.addresses.get((client % nodes) as usize)?;
        let session = self.sessions_from.checked_add(client / nodes)?;
        Some((*address, session))
    }
}

fn operation_of(collects: bool) -> Operation {
    match collects {
        true => Operation::Collect,
        false => Operation::Store,
    }
}

// The number that a word is, where it is neither less nor more than these, and another number where there is no word.
fn number_in(word: Option<&str>, least: u64, most: u64, otherwise: u64) -> Option<u64> {
    match word {
        Some(word) => match number(word) {
            Some(number) if least <= number && number <= most => Some(number),
            _ => None,
        },
        None => Some(otherwise),
    }
}
