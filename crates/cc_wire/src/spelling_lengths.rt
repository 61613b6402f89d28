//! How many bytes spellings have, without writing them.

ghost use Rattle.std.specs.Prelude.{◌≡◌, ◌≤◌, ◌*◌, length};
ghost use Rattle.std.specs.List.{flat_map};
ghost use Rattle.cc_views.specs.Limits.{known_limit};
ghost use Rattle.cc_wire.specs.Spellings.{text_spelling, value_spelling, row_spelling, view_spelling, listed_spelling, changes_spelling};
ghost use Rattle.cc_wire.specs.Messages.{message_spelling};
ghost use Rattle.cc_wire.specs.Commands.{command_spelling};
ghost use Rattle.cc_wire.specs.Answers.{answer_spelling};
ghost use Rattle.cc_wire.specs.Events.{event_spelling};

use cc_changes::Changes;
use cc_messages::{Answer, Command, Event, Message};
use cc_views::{NodeId, Row, Text, Value, View};

// A kind, a flag, and numbers of four and eight bytes.
const KIND: usize = 1;

const FLAG: usize = 1;

const ID: usize = 4;

const NUMBER: usize = 8;

const SHARE: usize = 1;

fn text_len(text: &Text) -> usize
    ensures len { result ≡ length (text_spelling text.now) }
    ensures fits { result ≤ 65 }
{
    1 + text.as_bytes().len()
}

/// How many bytes the spelling of a value has.
pub fn value_len(value: &Value) -> usize
    ensures len { result ≡ length (value_spelling value.now) }
    ensures fits { result ≤ 203 }
{
    text_len(&value.text) + NUMBER + FLAG + 1 + 4 * value.set.len()
}

fn row_len(row: &Row) -> usize
    ensures len { result ≡ length (row_spelling row.now) }
    ensures fits { result ≤ 215 }
{
    ID + NUMBER + value_len(&row.value)
}

fn rows_len(rows: &[Row]) -> usize
    requires { length rows.now ≤ known_limit }
    ensures len { result ≡ length (flat_map row_spelling rows.now) }
    ensures fits { result ≤ 215 * length rows.now }
{
    let mut len = 0;
    for row in rows {
        len += row_len(row);
    }
    len
}

/// How many bytes the spelling of a view has.
pub fn view_len(view: &View) -> usize
    ensures len { result ≡ length (view_spelling view.now) }
    ensures fits { result ≤ 55042 }
{
    2 + rows_len(view.rows())
}

fn ids_len(ids: &[NodeId]) -> usize
    requires { length ids.now ≤ known_limit }
    ensures len { result ≡ length (listed_spelling ids.now) }
    ensures fits { result ≤ 1026 }
{
    2 + ID * ids.len()
}

/// How many bytes the spelling of changes has.
pub fn changes_len(changes: &Changes) -> usize
    ensures len { result ≡ length (changes_spelling changes.now) }
    ensures fits { result ≤ 3078 }
{
    ids_len(changes.entered()) + ids_len(changes.joined()) + ids_len(changes.left())
}

/// How many bytes the spelling of a message has.
pub fn message_len(message: &Message) -> usize
    ensures len { result ≡ length (message_spelling message.now) }
    ensures fits { result ≤ 58126 }
{
    match message {
        Message::Enter { .. }
        | Message::Join { .. }
        | Message::JoinEcho { .. }
        | Message::Leave { .. }
        | Message::LeaveEcho { .. } => KIND + ID,
        Message::EnterEcho { changes, view, .. } => {
            KIND + changes_len(changes) + view_len(view) + FLAG + ID
        }
        Message::Query { .. } | Message::StoreAck { .. } => KIND + NUMBER + ID,
        Message::QueryReply { view, .. } | Message::Store { view, .. } => {
            KIND + view_len(view) + NUMBER + ID
        }
        Message::Snapshot { changes, view } => KIND + changes_len(changes) + view_len(view),
    }
}

/// How many bytes the spelling of a command has.
pub fn command_len(command: &Command) -> usize
    ensures len { result ≡ length (command_spelling command.now) }
    ensures fits { result ≤ 66 }
{
    match command {
        Command::Store(text) => KIND + text_len(text),
        Command::WriteMax(_) => KIND + NUMBER,
        Command::AddMember(_) => KIND + ID,
        Command::Collect
        | Command::ReadMax
        | Command::SetFlag
        | Command::ReadFlag
        | Command::ReadSet => KIND,
    }
}

/// How many bytes the spelling of an answer has.
pub fn answer_len(answer: &Answer) -> usize
    ensures len { result ≡ length (answer_spelling answer.now) }
    ensures fits { result ≤ 55043 }
{
    match answer {
        Answer::Stored => KIND,
        Answer::Seen(view) => KIND + view_len(view),
        Answer::Max(_) => KIND + NUMBER,
        Answer::Flag(_) => KIND + FLAG,
        Answer::Set(numbers) => KIND + 2 + 4 * numbers.as_slice().len(),
    }
}

/// How many bytes the spelling of an event has.
pub fn event_len(event: &Event) -> usize
    ensures len { result ≡ length (event_spelling event.now) }
    ensures fits { result ≤ 58139 }
{
    match event {
        Event::Enter | Event::Leave | Event::Snapshot => KIND,
        Event::Deliver { message, .. } => KIND + ID + NUMBER + message_len(message),
        Event::Acked { .. } => KIND + ID + NUMBER,
        Event::Ask { command, .. } => KIND + NUMBER + NUMBER + command_len(command),
        Event::Retire { .. } | Event::Lapse { .. } => KIND + ID,
        Event::Skip { .. } => KIND + ID + NUMBER + NUMBER,
        Event::Share { .. } => KIND + SHARE,
    }
}
