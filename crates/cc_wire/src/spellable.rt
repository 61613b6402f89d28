//! What has a spelling. These functions change nothing and answer nothing: their contracts are what they are for.

ghost use Rattle.std.specs.List.{AllByRecursion};
ghost use Rattle.std.specs.Prelude.{◌<◌, ◌^◌};
ghost use Rattle.cc_wire.specs.Spellings.{IsText, IsNumberSet, IsValue, IsRow, IsView, IsId, IsChanges};
ghost use Rattle.cc_wire.specs.Messages.{IsMessage, IsCall};
ghost use Rattle.cc_wire.specs.Commands.{IsCommand};
ghost use Rattle.cc_wire.specs.Answers.{IsAnswer};
ghost use Rattle.cc_messages.specs.Shares.{IsAskShare};
ghost use Rattle.cc_wire.specs.Events.{IsEvent, IsSkip, event_spelling, SpellsEvent};

use cc_changes::Changes;
use cc_messages::{Answer, Command, Event, Message, PostRange, Share};
use cc_views::{NodeId, NumberSet, Row, Text, Value, View};

fn number_fits(number: u64)
    ensures { number < 2 ^ 64 }
{}

fn small_number_fits(number: u32)
    ensures { number < 2 ^ 32 }
{}

fn bytes_fit(bytes: &[u8])
    ensures { AllByRecursion (λ b. b < 256) bytes.now }
{}

fn small_numbers_fit(numbers: &[u32])
    ensures { AllByRecursion (λ n. n < 2 ^ 32) numbers.now }
{}

fn text_is_spellable(text: &Text)
    ensures { IsText text.now }
{
    bytes_fit(text.as_bytes());
}

fn set_is_spellable(set: &NumberSet)
    ensures { IsNumberSet set.now }
{
    small_numbers_fit(set.as_slice());
}

/// Every value has a spelling.
pub fn value_is_spellable(value: &Value)
    ensures { IsValue value.now }
{
    text_is_spellable(&value.text);
    number_fits(value.max);
    set_is_spellable(&value.set);
}

fn row_is_spellable(row: &Row)
    ensures { IsRow row.now }
{
    id_is_spellable(row.node);
    number_fits(row.number);
    value_is_spellable(&row.value);
}

fn rows_are_spellable(rows: &[Row])
    ensures { AllByRecursion IsRow rows.now }
{
    for row in rows {
        row_is_spellable(row);
    }
}

/// Every view has a spelling.
pub fn view_is_spellable(view: &View)
    ensures { IsView view.now }
{
    rows_are_spellable(view.rows());
}

/// Every id has a spelling.
pub fn id_is_spellable(id: NodeId)
    ensures { IsId id }
{}

fn ids_are_spellable(ids: &[NodeId])
    ensures { AllByRecursion IsId ids.now }
{
    for id in ids {
        id_is_spellable(*id);
    }
}

/// All changes have a spelling.
pub fn changes_are_spellable(changes: &Changes)
    ensures { IsChanges changes.now }
{
    ids_are_spellable(changes.entered());
    ids_are_spellable(changes.joined());
    ids_are_spellable(changes.left());
}

/// Every command has a spelling.
pub fn command_is_spellable(command: &Command)
    ensures { IsCommand command.now }
{
    match command {
        Command::Store(text) => text_is_spellable(text),
        Command::WriteMax(number) => number_fits(*number),
        Command::AddMember(number) => small_number_fits(*number),
        Command::Collect
        | Command::ReadMax
        | Command::SetFlag
        | Command::ReadFlag
        | Command::ReadSet => {}
    }
}

fn call_is_spellable(tag: u64, node: NodeId)
    ensures { IsCall tag node }
{
    number_fits(tag);
    id_is_spellable(node);
}

/// Every message has a spelling.
pub fn message_is_spellable(message: &Message)
    ensures { IsMessage message.now }
{
    match message {
        Message::Enter { node }
        | Message::Join { node }
        | Message::JoinEcho { node }
        | Message::Leave { node }
        | Message::LeaveEcho { node } => id_is_spellable(*node),
        Message::EnterEcho {
            changes,
            view,
            node,
            ..
        } => {
            changes_are_spellable(changes);
            view_is_spellable(view);
            id_is_spellable(*node);
        }
        Message::Query { tag, node } => call_is_spellable(*tag, *node),
        Message::QueryReply { view, tag, node } => {
            view_is_spellable(view);
            call_is_spellable(*tag, *node);
        }
        Message::Store { view, tag, node } => {
            view_is_spellable(view);
            call_is_spellable(*tag, *node);
        }
        Message::StoreAck { tag, node } => call_is_spellable(*tag, *node),
        Message::Snapshot { changes, view } => {
            changes_are_spellable(changes);
            view_is_spellable(view);
        }
    }
}

/// Every answer has a spelling.
pub fn answer_is_spellable(answer: &Answer)
    ensures { IsAnswer answer.now }
{
    match answer {
        Answer::Stored | Answer::Flag(_) => {}
        Answer::Seen(view) => view_is_spellable(view),
        Answer::Max(number) => number_fits(*number),
        Answer::Set(numbers) => small_numbers_fit(numbers.as_slice()),
    }
}

fn skip_is_spellable(from: NodeId, posts: PostRange)
    ensures { IsSkip from posts }
{
    id_is_spellable(from);
    number_fits(posts.last());
}

fn share_is_spellable(share: Share)
    ensures { IsAskShare share }
{
    let _ = share.asks();
}

/// Every event has a spelling.
pub fn event_is_spellable(event: &Event)
    ensures { SpellsEvent (event_spelling event.now) event.now }
{
    match event {
        Event::Enter | Event::Leave | Event::Snapshot => {}
        Event::Deliver {
            from,
            number,
            message,
        } => {
            id_is_spellable(*from);
            number_fits(*number);
            message_is_spellable(message);
        }
        Event::Acked { peer, number } => {
            id_is_spellable(*peer);
            number_fits(*number);
        }
        Event::Ask {
            session,
            request,
            command,
        } => {
            number_fits(*session);
            number_fits(*request);
            command_is_spellable(command);
        }
        Event::Retire { node } | Event::Lapse { node } => id_is_spellable(*node),
        Event::Skip { from, posts } => skip_is_spellable(*from, *posts),
        Event::Share { share } => share_is_spellable(*share),
    }
}
