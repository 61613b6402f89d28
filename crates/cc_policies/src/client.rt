//! A client: how it has one command done once, whatever breaks meanwhile.

ghost use Rattle.std.specs.Prelude.{◌≡◌, ◌+◌, ◌⊎◌, ℕ, List, Some, None, if◌then◌else◌};
ghost use Rattle.std.specs.List.{AllByRecursion};
ghost use Rattle.cc_connections.specs.declared.frame.Frame.TheVariants as frame;
ghost use Rattle.cc_messages.specs.Refusals.{number_of, value_of};
ghost use Rattle.cc_messages.specs.declared.answer.Answer.TheVariants as answers;
ghost use Rattle.cc_messages.specs.declared.event.Event.TheVariants as event;
ghost use Rattle.cc_sessions.specs.Sessions.{last_request};
ghost use Rattle.cc_node.specs.Core.{Core};
ghost use Rattle.cc_node.specs.Lawful.{IsLawfulCore};
ghost use Rattle.cc_node.specs.Refusals as reason;
ghost use Rattle.cc_node.specs.Refusals.{decides};
ghost use Rattle.cc_policies.specs.declared.client.Heard.TheVariants as heards;
ghost use Rattle.cc_policies.specs.declared.client.Stage.TheVariants as stages;
ghost use Rattle.cc_policies.specs.Clients.{number_in, command_in, ask_of, is_about, is_answer_to, refusal_told, fence_step, fence_client};
ghost use Rattle.cc_policies.specs.Clients.{command_step, command_client, number_after, answered_step, answered_client, stale_step, stale_client};
ghost use Rattle.cc_policies.specs.Clients.{refused_step, refused_client, told_step, told_client, came_step, came_client, step_of, client_after, steps};
ghost use Rattle.cc_policies.specs.Clients.{next_stage, next_client, AsksUnder, Reads, IsAnswered, IsFenced, fence};

use cc_connections::Frame;
use cc_messages::{Answer, Command, Refusal};

/// One command of a client in its session. A session has one client at a time.
#[derive(Clone, Copy, PartialEq, Eq)]
pub struct Client {
    pub session: u64,
    pub command: Command,
    pub stage: Stage,
}

/// How far a client has come.
#[derive(Clone, Copy, PartialEq, Eq)]
pub enum Stage {
    /// It asks under number 0, which is refused with the session's last request.
    Learning,
    /// It has a reading done under this number. An ask that an earlier client of the session left on its way may still
    /// take the number; once the reading took it, none can.
    Fencing(u64),
    /// It has its command done under this number.
    Asking(u64),
}

/// What a client hears.
#[derive(Drop)]
pub enum Heard {
    /// The connection is open, or a pause is over.
    Ready,
    /// A frame came.
    Came(Frame),
    /// The connection broke.
    Broken,
}

/// What a client does next.
#[derive(Drop)]
pub enum Step {
    /// It sends this.
    Send(Frame),
    /// It waits for a further frame.
    Wait,
    /// It pauses, connects again where the connection broke, and is `Ready` then. The refusal, where that is why.
    Retry(Option<Refusal>),
    /// The command is done, and this is its answer.
    Done(Answer),
    /// The number of the command was taken by another command: another client uses the session.
    InUse,
    /// The command isn't done, and won't be.
    Refused(Refusal),
}

impl Client {
    /// A client that doesn't know yet which requests its session had.
    pub fn new(session: u64, command: Command) -> Self
        ensures { result ≡ record { session = session; command = command; stage = stages.Learning } }
    {
        Client {
            session,
            command,
            stage: Stage::Learning,
        }
    }

    /// A client whose command has this number, from 1 on, whatever its session asked before.
    pub fn numbered(session: u64, command: Command, request: u64) -> Self
        ensures { result ≡ record { session = session; command = command; stage = stages.Asking request } }
    {
        Client {
            session,
            command,
            stage: Stage::Asking(request),
        }
    }

    /// Has the same command done once more, under the number after that of its answered command.
    pub fn go_on(&mut self)
        ensures { self.new ≡ next_client self.old }
    {
        self.stage = next_stage(self.stage);
    }

    /// What it does after what it hears. A client without a number asks under number 0, which is refused with the
    /// session's last request, then has a reading done under the next number, and then its command under the one after
    /// that. Where the node is too busy or the connection breaks, it asks again under the same number, so that nothing
    /// is done twice.
    pub fn hear(&mut self, heard: Heard) -> Step
        ensures step { result ≡ step_of self.old heard }
        ensures client { self.new ≡ client_after self.old heard }
        // It is done only by an answer of its command's kind.
        ensures kind { IsAnswered self.old.command result }
    {
        self.step(heard)
    }

    fn step(&mut self, heard: Heard) -> Step
        ensures step { result ≡ step_of self.old heard }
        ensures client { self.new ≡ client_after self.old heard }
    {
        match heard {
            Heard::Ready => Step::Send(self.ask()),
            Heard::Came(frame) => self.take(frame),
            Heard::Broken => Step::Retry(None),
        }
    }

    fn ask(&self) -> Frame
        ensures { result ≡ ask_of self.now }
    {
        Frame::Ask {
            session: self.session,
            request: self.stage.number(),
            command: self.stage.command(self.command),
        }
    }

    // Whether an answer is to what it asks.
    fn is_about(&self, session: u64, request: u64) -> bool
        ensures { result ≡ is_about self.now session request }
    {
        session == self.session && request == self.stage.number()
    }

    fn take(&mut self, frame: Frame) -> Step
        ensures step { result ≡ came_step self.old frame }
        ensures client { self.new ≡ came_client self.old frame }
    {
        match frame {
            Frame::Reply {
                session,
                request,
                answer,
            } => self.replied(session, request, answer),
            Frame::Refused {
                session,
                request,
                refusal,
                value,
            } => self.refused(session, request, refusal_of(refusal, value)),
            other => {
                drop(other);
                Step::Wait
            }
        }
    }

    fn replied(&mut self, session: u64, request: u64, answer: Answer) -> Step
        ensures step { result ≡ (if is_about self.old session request then answered_step self.old answer self.old.stage else Step.Wait) }
        ensures client { self.new ≡ (if is_about self.old session request then answered_client self.old answer self.old.stage else self.old) }
    {
        if self.is_about(session, request) {
            return self.answered(answer);
        }
        drop(answer);
        Step::Wait
    }

    fn answered(&mut self, answer: Answer) -> Step
        ensures step { result ≡ answered_step self.old answer self.old.stage }
        ensures client { self.new ≡ answered_client self.old answer self.old.stage }
    {
        match self.stage {
            Stage::Learning => {
                drop(answer);
                Step::Wait
            }
            Stage::Fencing(number) => {
                let is_reading = is_answer_to(&FENCE, &answer);
                drop(answer);
                self.fenced(number, is_reading)
            }
            Stage::Asking(_) => finished(&self.command, answer),
        }
    }

    // The number of the reading is taken, by the reading or by an earlier ask.
    fn fenced(&mut self, number: u64, is_reading: bool) -> Step
        ensures step { result ≡ (if is_reading then command_step self.old number (number_after number) else Step.Send (frame.Ask self.old.session 0 fence)) }
        ensures client { self.new ≡ (if is_reading then command_client self.old (number_after number) else record self.old { stage = stages.Learning }) }
    {
        if is_reading {
            return self.command_after(number);
        }
        self.turn(Stage::Learning)
    }

    fn command_after(&mut self, last: u64) -> Step
        ensures step { result ≡ command_step self.old last (number_after last) }
        ensures client { self.new ≡ command_client self.old (number_after last) }
    {
        match last.checked_add(1) {
            Some(number) => self.turn(Stage::Asking(number)),
            None => Step::Refused(Refusal::Stale(last)),
        }
    }

    fn fence_after(&mut self, last: u64) -> Step
        ensures step { result ≡ fence_step self.old last (number_after last) }
        ensures client { self.new ≡ fence_client self.old (number_after last) }
    {
        match last.checked_add(1) {
            Some(number) => self.turn(Stage::Fencing(number)),
            None => Step::Refused(Refusal::Stale(last)),
        }
    }

    fn turn(&mut self, stage: Stage) -> Step
        ensures step { result ≡ Step.Send (frame.Ask self.old.session (number_in stage) (command_in self.old.command stage)) }
        ensures client { self.new ≡ record self.old { stage = stage } }
    {
        self.stage = stage;
        Step::Send(self.ask())
    }

    fn refused(&mut self, session: u64, request: u64, refusal: Option<Refusal>) -> Step
        ensures step { result ≡ (if is_about self.old session request then told_step self.old refusal else Step.Wait) }
        ensures client { self.new ≡ (if is_about self.old session request then told_client self.old refusal else self.old) }
    {
        if !self.is_about(session, request) {
            return Step::Wait;
        }
        match refusal {
            Some(refusal) => self.told(refusal),
            None => Step::Wait,
        }
    }

    fn told(&mut self, refusal: Refusal) -> Step
        ensures step { result ≡ refused_step self.old refusal }
        ensures client { self.new ≡ refused_client self.old refusal }
    {
        match refusal {
            Refusal::Busy | Refusal::OutboxFull | Refusal::QueueFull => Step::Retry(Some(refusal)),
            Refusal::Repeat => Step::Wait,
            Refusal::Stale(last) => self.learn(last),
            _ => Step::Refused(refusal),
        }
    }

    // It is told the session's last request.
    fn learn(&mut self, last: u64) -> Step
        ensures step { result ≡ stale_step self.old last self.old.stage }
        ensures client { self.new ≡ stale_client self.old last self.old.stage }
    {
        match self.stage {
            Stage::Learning | Stage::Fencing(_) => self.fence_after(last),
            Stage::Asking(_) => Step::Refused(Refusal::Stale(last)),
        }
    }
}

// What takes the next number before a command gets one: a reading, which does no harm.
const FENCE: Command = Command::ReadFlag;

impl Stage {
    // The number that a client asks under.
    fn number(self) -> u64
        ensures { result ≡ number_in self }
    {
        match self {
            Stage::Learning => 0,
            Stage::Fencing(number) | Stage::Asking(number) => number,
        }
    }

    // What a client asks that has this command.
    fn command(self, command: Command) -> Command
        ensures { result ≡ command_in command self }
    {
        match self {
            Stage::Learning | Stage::Fencing(_) => FENCE,
            Stage::Asking(_) => command,
        }
    }
}

fn next_stage(stage: Stage) -> Stage
    ensures { result ≡ next_stage stage }
{
    match stage {
        Stage::Asking(number) => match number.checked_add(1) {
            Some(number) => Stage::Asking(number),
            None => Stage::Learning,
        },
        Stage::Learning | Stage::Fencing(_) => Stage::Learning,
    }
}

fn finished(command: &Command, answer: Answer) -> Step
    ensures { result ≡ (if is_answer_to command.now answer then Step.Done answer else Step.InUse) }
{
    if is_answer_to(command, &answer) {
        return Step::Done(answer);
    }
    drop(answer);
    Step::InUse
}

// Whether an answer is of the kind that a command has.
fn is_answer_to(command: &Command, answer: &Answer) -> bool
    ensures { result ≡ is_answer_to command.now answer.now }
{
    match command {
        Command::Store(_) | Command::WriteMax(_) | Command::SetFlag | Command::AddMember(_) =>
            matches!(answer, Answer::Stored),
        Command::Collect => matches!(answer, Answer::Seen(_)),
        Command::ReadMax => matches!(answer, Answer::Max(_)),
        Command::ReadFlag => matches!(answer, Answer::Flag(_)),
        Command::ReadSet => matches!(answer, Answer::Set(_)),
    }
}

/// The refusal with that number, from 1 to 18, which carries that value. None for any other number.
pub fn refusal_of(number: u8, value: u64) -> Option<Refusal>
    ensures { result ≡ refusal_told number value }
{
    match number {
        1 => Some(Refusal::Left),
        2 => Some(Refusal::NotEntered),
        3 => Some(Refusal::AlreadyEntered),
        4 => Some(Refusal::NotJoined),
        5 => Some(Refusal::Old(value)),
        6 => Some(Refusal::Gap(value)),
        7 => Some(Refusal::NothingToAck),
        8 => Some(Refusal::TooManyNodes),
        9 => Some(Refusal::TooManySessions),
        10 => Some(Refusal::Repeat),
        11 => Some(Refusal::Stale(value)),
        12 => Some(Refusal::Skip(value)),
        13 => Some(Refusal::Busy),
        14 => Some(Refusal::SetFull),
        15 => Some(Refusal::OutboxFull),
        16 => Some(Refusal::Spent),
        17 => Some(Refusal::NoMemory),
        18 => Some(Refusal::QueueFull),
        _ => None,
    }
}

/// What a node refuses a request for is what its client is told.
pub fn refusals_are_told()
    ensures { (why : Refusal) → refusal_told (number_of why) (value_of why) ≡ Some why }
{}

/// Whatever a client hears: once its command has a number, it asks it under that one alone, and before that it asks
/// readings alone.
pub fn asks_under_one_number()
    ensures known { (c : Client) (request : ℕ) (heard : List Heard) → c.stage ≡ stages.Asking request → AllByRecursion (AsksUnder c request) (steps c heard) }
    ensures any { (c : Client) (heard : List Heard) → (request : ℕ) × AllByRecursion (λ s. Reads c s ⊎ AsksUnder c request s) (steps c heard) }
{}

/// A client that is given no number gives its command one when the reading under the number before it is answered: then no
/// earlier ask of the session takes that number any more.
pub fn a_reading_comes_first()
    ensures { (c : Client) (heard : Heard) (request : ℕ) → (client_after c heard).stage ≡ stages.Asking request → (c.stage ≡ stages.Asking request) ⊎ IsFenced c heard request }
{}

/// A node that has joined, and has a row or room for the session, refuses number 0 of it with its last request.
pub fn number_zero_tells_the_last()
    ensures { (c : Core) (session : ℕ) (command : Command) → IsLawfulCore c → reason.left c ≡ None → reason.not_entered c ≡ None
        → reason.not_joined c ≡ None → reason.too_many_sessions c session ≡ None
        → decides c (event.Ask session 0 command) ≡ Some (Refusal.Stale (last_request c.sessions session)) }
{}
