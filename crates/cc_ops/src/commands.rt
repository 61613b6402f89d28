//! What a client's command does: it begins an operation, writes the own value, and is answered.

ghost use Rattle.std.specs.Prelude.{◌≡◌, ℕ, ◌+◌, ◌≤◌, ◌||◌, [], ◌∷◌, true, IfOk, IsFalse, None};
ghost use Rattle.std.specs.FinMap.{len};
ghost use Rattle.cc_views.specs.Limits.{counter_limit, known_limit, overruns};
ghost use Rattle.cc_objects.specs.Objects as objects;
ghost use Rattle.cc_messages.specs.Refusals.{first_of, decided};
ghost use Rattle.cc_messages.specs.declared.refusal.Refusal.TheVariants as refusal;
ghost use Rattle.std.specs.Bool.{then_some};
ghost use Rattle.cc_ops.specs.Commands as commands;
ghost use Rattle.cc_ops.specs.Ops as ops;
ghost use Rattle.cc_ops.specs.Stages.{HasRoom};
ghost use Rattle.cc_ops.specs.Refusals.{busy, passes, set_full};
ghost use Rattle.cc_ops.specs.OwnLaws.{IsRound};
ghost use Rattle.cc_ops.specs.WaitingAsks as waiting;
ghost use Rattle.cc_ops.specs.WaitingAsks.{line_limit, written_by};

use crate::ask_list::writes_by;
use crate::ops::Ops;
use crate::pending_operation::{Asked, round_of};
use crate::stage::Stage;
use cc_messages::{Answer, Command, Message, NumberList, Refusal};
use cc_objects::{add_member, flag_of, max_of, set_flag, set_of, write_max, write_text};
use cc_views::{COUNTER_LIMIT, NoMemory, NodeId, NumberSet, Row, Value, View};
use std::alloc::Global;

impl Ops {
    /// Whether the command would put a 33rd number into the own set, once all that wait have begun.
    pub fn is_set_full(&self, command: &Command) -> bool
        ensures { result ≡ commands.finds_no_room (ops.mine_at_last self.now) command.now }
    {
        let mine = self.line.last_value(&self.mine).unwrap();
        finds_no_room(command, &mine)
    }

    // Whether an operation is pending, and as many asks wait as may, or one of the session isn't answered yet.
    fn is_busy(&self, session: u64) -> bool
        ensures { then_some result refusal.Busy ≡ busy line_limit session self.now }
    {
        !self.is_idle() && (self.line.is_full() || self.is_unanswered(session))
    }

    /// Why the command can neither begin nor wait, if it can't: too many wait already, the session has one that isn't
    /// answered yet, or the own set has no room.
    pub fn decide_ask(&self, session: u64, command: &Command) -> Result<(), Refusal>
        ensures { result ≡ decided (first_of (busy line_limit session self.now ∷ set_full command.now self.now ∷ [])) }
    {
        if self.is_busy(session) {
            return Err(Refusal::Busy);
        }
        if self.is_set_full(command) {
            return Err(Refusal::SetFull);
        }
        Ok(())
    }

    /// Whether an ask of the command would raise a counter that stands at its limit, `2 ^ 62`. One that waits raises none.
    pub fn ask_is_spent(&self, command: &Command) -> bool
        ensures { (me quorum session request : ℕ) → result ≡ (passes self.now.number
            (ops.after_ask me quorum (record { session = session; request = request; command = command.now }) self.now).number
            || overruns self.now.tag (ops.after_ask me quorum (record { session = session; request = request; command = command.now }) self.now).tag) }
    {
        let raises = is_writing(command) && self.number == COUNTER_LIMIT;
        self.is_idle() && (raises || self.tag == COUNTER_LIMIT)
    }

    /// Takes an ask, which isn't refused: a round of it alone begins where none is pending, and it waits behind the others
    /// where one is. It takes no memory.
    pub fn ask(&mut self, me: NodeId, quorum: u64, asked: &Asked)
        requires free { busy line_limit asked.now.session self.old ≡ None }
        requires room { IsFalse (commands.finds_no_room (ops.mine_at_last self.old) asked.now.command) }
        requires some { 1 ≤ quorum }
        requires few { quorum ≤ known_limit }
        requires fits { len (ops.after_ask me quorum asked.now self.old).view ≤ known_limit }
        requires number { (ops.after_ask me quorum asked.now self.old).number ≤ counter_limit }
        requires tag { (ops.after_ask me quorum asked.now self.old).tag ≤ counter_limit }
        ensures { self.new ≡ ops.after_ask me quorum asked.now self.old }
    {
        if self.is_idle() {
            self.others.clear();
            self.begin(me, quorum, asked);
        } else {
            self.line.push(asked);
        }
    }

    // Begins a round of this ask and the others, which needs so many answers: writes store the own value under the number of
    // the last of them, reads ask for the views of others (CCC, client).
    pub(crate) fn begin(&mut self, me: NodeId, quorum: u64, asked: &Asked)
        requires room { HasRoom self.old.line (written_by (asked.now ∷ self.old.others) self.old.mine) }
        requires some { 1 ≤ quorum }
        requires few { quorum ≤ known_limit }
        requires fits { len (ops.begin_round me quorum (asked.now ∷ self.old.others) self.old).view ≤ known_limit }
        requires number { (ops.begin_round me quorum (asked.now ∷ self.old.others) self.old).number ≤ counter_limit }
        requires tag { (ops.begin_round me quorum (asked.now ∷ self.old.others) self.old).tag ≤ counter_limit }
        requires alike { IsRound (asked.now ∷ self.old.others) }
        ensures { self.new ≡ ops.begin_round me quorum (asked.now ∷ self.old.others) self.old }
    {
        if is_writing(&asked.command) {
            self.write(me, asked);
            self.stage = Stage::Storing(round_of(asked, quorum));
        } else {
            self.stage = Stage::Querying(round_of(asked, quorum));
        }
        self.tag += 1;
    }

    // Writes the own value for this ask and the others, and its row in the view, under the number of the last write.
    fn write(&mut self, me: NodeId, asked: &Asked)
        requires writes { commands.is_writing asked.now.command ≡ true }
        requires room { HasRoom self.old.line (written_by (asked.now ∷ self.old.others) self.old.mine) }
        requires fits { len (ops.with_own_row me (ops.with_written (asked.now ∷ self.old.others) self.old)).view ≤ known_limit }
        requires number { self.old.number + waiting.writes_by (asked.now ∷ self.old.others) ≤ counter_limit }
        ensures { self.new ≡ ops.with_own_row me (ops.with_written (asked.now ∷ self.old.others) self.old) }
    {
        let first = written(&asked.command, &self.mine);
        self.mine = self.others.last_value(&first).unwrap();
        self.number += 1 + writes_by(self.others.asks());
        self.view.merge_row(Row {
            node: me,
            number: self.number,
            value: self.mine,
        });
    }

    /// What an operation begins with: a write with a Store of the view after it, a read with a Query (CCC, client). The
    /// only error is a refused growth.
    pub fn first_post(
        &self,
        alloc: Global,
        me: NodeId,
        quorum: u64,
        asked: &Asked,
    ) -> Result<Message, NoMemory>
        requires room { IsFalse (commands.finds_no_room self.now.mine asked.now.command) }
        requires fits { len (ops.begin_round me quorum (asked.now ∷ []) self.now).view ≤ known_limit }
        requires number { (ops.begin_round me quorum (asked.now ∷ []) self.now).number ≤ counter_limit }
        requires tag { (ops.begin_round me quorum (asked.now ∷ []) self.now).tag ≤ counter_limit }
        ensures { IfOk result (λ m. m ≡ ops.first_post me asked.now (ops.begin_round me quorum (asked.now ∷ []) self.now)) }
    {
        if !is_writing(&asked.command) {
            return Ok(Message::Query {
                tag: self.tag + 1,
                node: me,
            });
        }
        let mut view = self.view.copy(alloc)?;
        view.merge_row(Row {
            node: me,
            number: self.number + 1,
            value: written(&asked.command, &self.mine),
        });
        Ok(Message::Store {
            view,
            tag: self.tag + 1,
            node: me,
        })
    }
}

/// Whether the command writes, and doesn't read.
pub fn is_writing(command: &Command) -> bool
    ensures { result ≡ commands.is_writing command.now }
{
    match command {
        Command::Store(_) | Command::WriteMax(_) | Command::SetFlag | Command::AddMember(_) => true,
        Command::Collect | Command::ReadMax | Command::ReadFlag | Command::ReadSet => false,
    }
}

// Whether the command would put a 33rd number into the set of this value.
pub(crate) fn finds_no_room(command: &Command, mine: &Value) -> bool
    ensures { result ≡ commands.finds_no_room mine.now command.now }
{
    match command {
        Command::AddMember(member) => {
            mine.set.len() == NumberSet::MAX_LEN && !mine.set.contains(*member)
        }
        _ => false,
    }
}

pub(crate) fn written(command: &Command, mine: &Value) -> Value
    requires { IsFalse (commands.finds_no_room mine.now command.now) }
    ensures { result ≡ commands.written command.now mine.now }
{
    match command {
        Command::Store(text) => write_text(mine, *text),
        Command::WriteMax(max) => write_max(mine, *max),
        Command::SetFlag => set_flag(mine),
        Command::AddMember(member) => add_member(mine, *member).unwrap(),
        Command::Collect | Command::ReadMax | Command::ReadFlag | Command::ReadSet => *mine,
    }
}

pub(crate) fn answer_of(alloc: Global, command: &Command, seen: &View) -> Result<Answer, NoMemory>
    ensures { IfOk result (λ a. a ≡ commands.answer_of command.now seen.now) }
{
    match command {
        Command::Collect => seen.copy(alloc).map(Answer::Seen),
        Command::ReadMax => Ok(Answer::Max(max_of(seen))),
        Command::ReadFlag => Ok(Answer::Flag(flag_of(seen))),
        Command::ReadSet => members_of(alloc, seen).map(Answer::Set),
        Command::Store(_) | Command::WriteMax(_) | Command::SetFlag | Command::AddMember(_) => {
            Ok(Answer::Stored)
        }
    }
}

fn members_of(alloc: Global, seen: &View) -> Result<NumberList, NoMemory>
    ensures { IfOk result (λ s. s ≡ objects.set_of seen.now) }
{
    let members = set_of(alloc, seen)?;
    Ok(NumberList::from_ascending(members))
}
