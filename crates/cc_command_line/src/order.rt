//! What a command line asks for.

use crate::ask_words::{AnswerForm, AskWords};
use crate::command_line::command_line;
use crate::format_words::FormatWords;
use crate::load_words::LoadWords;
use crate::operator_words::RetireWords;
use crate::run_words::RunWords;
use clap::ArgMatches;
use std::alloc::Global;

/// What a command line asks for. Its words are yet to be read.
#[derive(Clone, Copy)]
pub enum Order<'a> {
    /// Play the script on standard input.
    Play,
    /// Format a folder.
    Format {
        folder: &'a str,
        words: FormatWords<'a>,
    },
    /// Run the node of a folder.
    Run {
        folder: &'a str,
        words: RunWords<'a>,
    },
    /// Ask a node that runs.
    Ask(AskWords<'a>),
    /// Have a node leave.
    Leave {
        address: &'a str,
    },
    /// Tell nodes that another is dead.
    Retire(RetireWords<'a>),
    /// Tell a node how many asks begin together.
    Share {
        address: &'a str,
        share: &'a str,
    },
    /// Print what a node tells of itself.
    Status {
        address: &'a str,
        form: AnswerForm,
        watches: bool,
    },
    /// Have many clients ask nodes that run.
    Load(LoadWords<'a>),
    /// Tell what stands in a folder, and of its node where that is asked for.
    Dump {
        folder: &'a str,
        tells_node: bool,
    },
}

/// What a command line asks for, the program's name its first word. The error is the help that was asked for, or what is
/// wrong.
pub fn parse<'a>(alloc: Global, words: &'a [String]) -> Result<Order<'a>, clap::Error> {
    let command = command_line(alloc)?;
    match command.try_get_matches_from(words) {
        Ok(matches) => {
            let order = order_of(&matches);
            drop(matches);
            Ok(order)
        }
        Err(error) => Err(error),
    }
}

fn order_of<'a>(matches: &ArgMatches<'a>) -> Order<'a> {
    let Some((name, words)) = matches.subcommand() else {
        return Order::Play;
    };
    order_at_folder(name, words)
        .or(order_at_node(name, words))
        .unwrap_or(Order::Play)
}

// What has the folder of a node.
fn order_at_folder<'a>(name: &str, words: &ArgMatches<'a>) -> Option<Order<'a>> {
    match name {
        "format" => Some(Order::Format {
            folder: required(words, "DIR"),
            words: format_words(words),
        }),
        "run" => Some(Order::Run {
            folder: required(words, "DIR"),
            words: run_words(words),
        }),
        "dump" => Some(Order::Dump {
            folder: required(words, "DIR"),
            tells_node: words.get_flag("node"),
        }),
        _ => None,
    }
}

// What has the address of a node that runs.
fn order_at_node<'a>(name: &str, words: &ArgMatches<'a>) -> Option<Order<'a>> {
    match name {
        "ask" => Some(Order::Ask(ask_words(words))),
        "leave" => Some(Order::Leave {
            address: required(words, "ADDR"),
        }),
        "retire" => Some(Order::Retire(retire_words(words))),
        "share" => Some(Order::Share {
            address: required(words, "ADDR"),
            share: required(words, "N"),
        }),
        "status" => Some(Order::Status {
            address: required(words, "ADDR"),
            form: answer_form(words),
            watches: words.get_flag("watch"),
        }),
        "load" => Some(Order::Load(load_words(words))),
        _ => None,
    }
}

fn format_words<'a>(words: &ArgMatches<'a>) -> FormatWords<'a> {
    FormatWords {
        id: required(words, "ID"),
        initial: words.get_str("initial"),
        contacts: words.get_str("contacts"),
        beta: words.get_str("beta"),
        gamma: words.get_str("gamma"),
        share: words.get_str("share"),
        cluster: words.get_str("cluster"),
    }
}

fn run_words<'a>(words: &ArgMatches<'a>) -> RunWords<'a> {
    RunWords {
        listen: required(words, "listen"),
        listen_clients: words.get_str("listen-clients"),
        operators: words.get_str("operators"),
        speaks: words.get_str("speaks"),
        peers: words.get_str("peers"),
        peers_file: words.get_str("peers-file"),
        status: words.get_str("status"),
        http: words.get_str("http"),
        http_sessions: words.get_str("http-sessions"),
        http_origin: words.get_str("http-origin"),
        log: words.get_str("log"),
    }
}

fn ask_words<'a>(words: &ArgMatches<'a>) -> AskWords<'a> {
    AskWords {
        address: required(words, "ADDR"),
        session: required(words, "SESSION"),
        command: required(words, "COMMAND"),
        value: words.get_str("VALUE"),
        text: words.get_str("text"),
        request: words.get_str("request"),
        timeout: words.get_str("timeout"),
        form: answer_form(words),
        waits: words.get_flag("wait"),
        snapshot: words.get_flag("snapshot"),
        status: words.get_str("status"),
    }
}

fn retire_words<'a>(words: &ArgMatches<'a>) -> RetireWords<'a> {
    RetireWords {
        first: required(words, "ADDRS"),
        second: words.get_str("ID"),
        peers_file: words.get_str("peers-file"),
        alive: words.get_flag("alive"),
    }
}

fn load_words<'a>(words: &ArgMatches<'a>) -> LoadWords<'a> {
    LoadWords {
        addresses: required(words, "ADDRS"),
        clients: words.get_str("clients"),
        seconds: words.get_str("seconds"),
        sessions_from: words.get_str("sessions-from"),
        collects: words.get_flag("collects"),
        form: answer_form(words),
    }
}

fn answer_form(words: &ArgMatches<'_>) -> AnswerForm {
    match words.get_flag("json") {
        true => AnswerForm::Json,
        false => AnswerForm::Plain,
    }
}

// A word without which no command line is taken.
fn required<'a>(words: &ArgMatches<'a>, name: &str) -> &'a str {
    words.get_str(name).unwrap_or("")
}
