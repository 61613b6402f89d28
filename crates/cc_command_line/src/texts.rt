//! How views, messages, answers and outputs are printed.

use cc_changes::Changes;
use cc_messages::{Answer, Message, Output};
use cc_views::{NodeId, Text, Value, View};
use std::fmt;

/// Letters, digits, `.`, `_` and `-` as they are, every other byte as `%` and two hexadecimal digits.
#[derive(Clone, Copy)]
struct PrintedText<'a>(&'a Text);

impl fmt::Display for PrintedText<'_> {
    fn fmt<W: fmt::Write>(&self, f: &mut fmt::Formatter<W>) -> fmt::Result {
        let text = self.0;
        for byte in text.as_bytes() {
            let byte = *byte;
            if byte.is_ascii_alphanumeric() || matches!(byte, b'.' | b'_' | b'-') {
                f.write_char(byte as char)?;
            } else {
                write!(f, "%{byte:02x}")?;
            }
        }
        Ok(())
    }
}

/// `TEXT/MAX/FLAG/SET`.
#[derive(Clone, Copy)]
struct PrintedValue<'a>(&'a Value);

impl fmt::Display for PrintedValue<'_> {
    fn fmt<W: fmt::Write>(&self, f: &mut fmt::Formatter<W>) -> fmt::Result {
        let value = self.0;
        let text = PrintedText(&value.text);
        let max = value.max;
        let flag = u8::from(value.flag);
        write!(f, "{text}/{max}/{flag}/")?;
        print_joined(f, value.set.as_slice(), '+')
    }
}

/// `[NODE:NUMBER=VALUE,..]`.
#[derive(Clone, Copy)]
struct PrintedView<'a>(&'a View);

impl fmt::Display for PrintedView<'_> {
    fn fmt<W: fmt::Write>(&self, f: &mut fmt::Formatter<W>) -> fmt::Result {
        let view = self.0;
        f.write_str("[")?;
        for (i, row) in view.rows().iter().enumerate() {
            if i > 0 {
                f.write_str(",")?;
            }
            let node = row.node.number();
            let number = row.number;
            let value = PrintedValue(&row.value);
            write!(f, "{node}:{number}={value}")?;
        }
        f.write_str("]")
    }
}

/// `[ID,..]`.
#[derive(Clone, Copy)]
struct PrintedIds<'a>(&'a [NodeId]);

impl fmt::Display for PrintedIds<'_> {
    fn fmt<W: fmt::Write>(&self, f: &mut fmt::Formatter<W>) -> fmt::Result {
        f.write_str("[")?;
        for (i, id) in self.0.iter().enumerate() {
            if i > 0 {
                f.write_str(",")?;
            }
            let number = id.number();
            write!(f, "{number}")?;
        }
        f.write_str("]")
    }
}

fn print_joined<W: fmt::Write>(
    f: &mut fmt::Formatter<W>,
    numbers: &[u32],
    between: char,
) -> fmt::Result {
    for (i, number) in numbers.iter().enumerate() {
        if i > 0 {
            f.write_char(between)?;
        }
        write!(f, "{number}")?;
    }
    Ok(())
}

/// The message's name, and its fields in the order of its format.
#[derive(Clone, Copy)]
struct PrintedMessage<'a>(&'a Message);

impl fmt::Display for PrintedMessage<'_> {
    fn fmt<W: fmt::Write>(&self, f: &mut fmt::Formatter<W>) -> fmt::Result {
        match self.0 {
            Message::Enter { node } => print_news(f, "Enter", *node),
            Message::EnterEcho {
                changes,
                view,
                is_joined,
                node,
            } => print_echo(f, changes, view, *is_joined, *node),
            Message::Join { node } => print_news(f, "Join", *node),
            Message::JoinEcho { node } => print_news(f, "JoinEcho", *node),
            Message::Leave { node } => print_news(f, "Leave", *node),
            Message::LeaveEcho { node } => print_news(f, "LeaveEcho", *node),
            Message::Query { tag, node } => {
                let node = node.number();
                write!(f, "Query {tag} {node}")
            }
            Message::QueryReply { view, tag, node } => {
                let view = PrintedView(view);
                let node = node.number();
                write!(f, "QueryReply {view} {tag} {node}")
            }
            Message::Store { view, tag, node } => {
                let view = PrintedView(view);
                let node = node.number();
                write!(f, "Store {view} {tag} {node}")
            }
            Message::StoreAck { tag, node } => {
                let node = node.number();
                write!(f, "StoreAck {tag} {node}")
            }
            Message::Snapshot { changes, view } => print_snapshot(f, changes, view),
        }
    }
}

fn print_news<W: fmt::Write>(f: &mut fmt::Formatter<W>, name: &str, node: NodeId) -> fmt::Result {
    let node = node.number();
    write!(f, "{name} {node}")
}

fn print_echo<W: fmt::Write>(
    f: &mut fmt::Formatter<W>,
    changes: &Changes,
    view: &View,
    is_joined: bool,
    node: NodeId,
) -> fmt::Result {
    let entered = PrintedIds(changes.entered());
    let joined = PrintedIds(changes.joined());
    let left = PrintedIds(changes.left());
    let view = PrintedView(view);
    let flag = u8::from(is_joined);
    let node = node.number();
    write!(
        f,
        "EnterEcho {entered} {joined} {left} {view} {flag} {node}"
    )
}

fn print_snapshot<W: fmt::Write>(
    f: &mut fmt::Formatter<W>,
    changes: &Changes,
    view: &View,
) -> fmt::Result {
    let entered = PrintedIds(changes.entered());
    let joined = PrintedIds(changes.joined());
    let left = PrintedIds(changes.left());
    let view = PrintedView(view);
    write!(f, "Snapshot {entered} {joined} {left} {view}")
}

/// `Stored`, `Seen VIEW`, `Max N`, `Flag 0`, `Flag 1` or `Set [N,..]`.
#[derive(Clone, Copy)]
pub struct PrintedAnswer<'a>(pub &'a Answer);

impl fmt::Display for PrintedAnswer<'_> {
    fn fmt<W: fmt::Write>(&self, f: &mut fmt::Formatter<W>) -> fmt::Result {
        match self.0 {
            Answer::Stored => f.write_str("Stored"),
            Answer::Seen(view) => {
                let view = PrintedView(view);
                write!(f, "Seen {view}")
            }
            Answer::Max(max) => write!(f, "Max {max}"),
            Answer::Flag(flag) => {
                let flag = u8::from(*flag);
                write!(f, "Flag {flag}")
            }
            Answer::Set(members) => {
                f.write_str("Set [")?;
                print_joined(f, members.as_slice(), ',')?;
                f.write_str("]")
            }
        }
    }
}

/// `ack T N`, `send T N MESSAGE` or `reply S R ANSWER`.
#[derive(Clone, Copy)]
pub struct PrintedOutput<'a>(pub &'a Output);

impl fmt::Display for PrintedOutput<'_> {
    fn fmt<W: fmt::Write>(&self, f: &mut fmt::Formatter<W>) -> fmt::Result {
        match self.0 {
            Output::Send {
                to,
                number,
                message,
            } => {
                let to = to.number();
                let message = PrintedMessage(message);
                write!(f, "send {to} {number} {message}")
            }
            Output::Ack { to, number } => {
                let to = to.number();
                write!(f, "ack {to} {number}")
            }
            Output::Reply {
                session,
                request,
                answer,
            } => {
                let answer = PrintedAnswer(answer);
                write!(f, "reply {session} {request} {answer}")
            }
        }
    }
}
