//! What a node is asked that runs.

use crate::addresses::address;
use crate::commands::{command, store_of};
use crate::numbers::number;
use crate::run_words::address_in;
use crate::word_fault::WordFault;
use cc_connections::Address;
use cc_messages::Command;

// How many seconds a client waits where no word says another number.
const TIMEOUT: u64 = 10;

// A collect of a snapshot.
const SNAPSHOT: &str = "snapshot";

/// The words of `ask`, as they are given. None for one that isn't.
#[derive(Clone, Copy)]
pub struct AskWords<'a> {
    pub address: &'a str,
    pub session: &'a str,
    pub command: &'a str,
    pub value: Option<&'a str>,
    /// What is to be stored, where it isn't a word.
    pub text: Option<&'a str>,
    pub request: Option<&'a str>,
    pub timeout: Option<&'a str>,
    pub form: AnswerForm,
    /// Whether it asks again while the node hasn't joined.
    pub waits: bool,
    /// Whether a reading is of a snapshot.
    pub snapshot: bool,
    /// Where the node tells its status.
    pub status: Option<&'a str>,
}

/// How an answer is printed.
#[derive(Clone, Copy, PartialEq, Eq)]
pub enum AnswerForm {
    /// As `play` prints it.
    Plain,
    Json,
}

/// A command that a client has done in its session.
#[derive(Clone, Copy, PartialEq, Eq)]
pub struct AskOrder {
    pub address: Address,
    pub session: u64,
    pub command: Command,
    /// The number of its request, from 1 on. None for the one after the session's last.
    pub request: Option<u64>,
    /// For how many seconds it waits.
    pub timeout: u64,
    pub form: AnswerForm,
    /// Whether it asks again while the node hasn't joined.
    pub waits: bool,
    /// Whether the command, a reading, reads what all nodes had at one moment.
    pub snapshot: bool,
    /// Where the node tells why it isn't ready, which is looked up where no answer came. None where it isn't.
    pub status: Option<Address>,
}

impl AskOrder {
    /// A command that is done in a session, under the number after its last one, with so many seconds for the answer, which is
    /// printed as `play` prints it.
    pub fn new(address: Address, session: u64, command: Command, timeout: u64) -> Self {
        AskOrder {
            address,
            session,
            command,
            request: None,
            timeout,
            form: AnswerForm::Plain,
            waits: false,
            snapshot: false,
            status: None,
        }
    }

    /// What these words ask for. The fault names the first word of another form.
    pub fn parse(words: &AskWords<'_>) -> Result<Self, WordFault> {
        let order = AskOrder {
            address: address(words.address).ok_or(WordFault::Address)?,
            session: number(words.session).ok_or(WordFault::Session)?,
            command: command_in(words).ok_or(WordFault::Command)?,
            request: request_in(words.request)?,
            timeout: seconds(words.timeout).ok_or(WordFault::Timeout)?,
            form: words.form,
            waits: words.waits,
            snapshot: words.snapshot || words.command == SNAPSHOT,
            status: address_in(words.status, WordFault::Status)?,
        };
        if order.snapshot && !order.may_be_of_snapshot() {
            return Err(WordFault::Snapshot);
        }
        Ok(order)
    }

    // A snapshot is read, by several requests.
    fn may_be_of_snapshot(&self) -> bool {
        self.request.is_none() && is_reading(&self.command)
    }
}

fn is_reading(command: &Command) -> bool {
    match command {
        Command::Collect | Command::ReadMax | Command::ReadFlag | Command::ReadSet => true,
        Command::Store(_) | Command::WriteMax(_) | Command::SetFlag | Command::AddMember(_) =>
            false,
    }
}

fn command_in(words: &AskWords<'_>) -> Option<Command> {
    match (words.value, words.text) {
        (None, None) if words.command == SNAPSHOT => Some(Command::Collect),
        (None, None) => command(&[words.command]),
        (Some(value), None) => command(&[words.command, value]),
        (None, Some(text)) if words.command == "store" => store_of(text),
        _ => None,
    }
}

fn request_in(word: Option<&str>) -> Result<Option<u64>, WordFault> {
    match word {
        Some(word) => match number(word) {
            Some(request) if request > 0 => Ok(Some(request)),
            _ => Err(WordFault::Request),
        },
        None => Ok(None),
    }
}

fn seconds(word: Option<&str>) -> Option<u64> {
    match word {
        Some(word) => number(word),
        None => Some(TIMEOUT),
    }
}
