//! The words of scripts and of the command line, and the texts that are printed: numbers, fractions, commands, addresses and
//! peers; the lines of a file of peers, and of one that tells a folder's node from others; what a command line orders; how
//! answers and outputs are printed.
#![tactic(auto)]

mod address_words;
mod addresses;
mod ask_words;
mod command_fault;
mod command_line;
mod commands;
mod format_words;
mod fractions;
mod harmless;
mod identities;
mod lists;
mod load_words;
mod numbers;
mod operator_words;
mod order;
mod peer_lines;
mod run_words;
mod speech;
mod texts;
mod word_fault;

pub use addresses::{address, peers};
pub use ask_words::{AnswerForm, AskOrder, AskWords};
pub use command_fault::CommandFault;
pub use command_line::VERSION;
pub use commands::{command, store_of};
pub use format_words::FormatWords;
pub use fractions::fraction;
pub use harmless::{Harmless, HarmlessJson, Quoted};
pub use identities::{
    Identity, IdentityFault, identities_are_read_again, identity_in, identity_text,
};
pub use lists::list;
pub use load_words::{LoadOrder, LoadWords, Operation};
pub use numbers::{number, port_number, small_number};
pub use operator_words::{LeaveOrder, RetireOrder, RetireWords, ShareOrder, StatusOrder};
pub use order::{Order, parse};
pub use peer_lines::{LineFault, lines_are_a_list, peers_in_lines};
pub use run_words::{LogLevel, RunOrder, RunWords};
pub use speech::Speech;
pub use texts::{PrintedAnswer, PrintedOutput};
pub use word_fault::WordFault;
