//! A worker of one connection.

ghost use Rattle.std.specs.Prelude.{◌≡◌, ◌+◌, List, None, IfSome, IfOk, MatchResult};
ghost use Rattle.cc_intake.specs.Talks.{Answer, IsAnswer, places_of, PlacesRise};
ghost use Rattle.cc_workers.specs.WorkerSteps.{brings_again, greeting_in, wants_silence, Takes, Guards, Stops, Brings};

use crate::context::Context;
use crate::duties::duty_of;
use crate::replies::Replies;
use crate::take_turn::TakeTurn;
use cc_channels::{
    Admission, Admit, HeardNodes, Instruction, NotAdmitted, Notice, Shared, Verdict, bytes_of,
    give_notice,
};
use cc_connections::{Frame, Hello};
use cc_intake::{Accepted, Lane, Life, OfLife, Refused, Share, Source};
use cc_messages::{Event, Refusal};
use cc_ops::Asked;
use cc_policies::{
    Duty, Ending, Input, Objection, ReceivedFrames, event_of, objection_frame, objection_to,
    speaker_of,
};
use cc_site::Flushed;
use cc_views::NodeId;
use log::{Log, debug};
use std::alloc::Global;
use std::net::SocketAddr;
use std::sync::Wait;

/// Why a worker brings no further event.
#[derive(Clone, Copy)]
pub enum Done {
    /// No further frame comes.
    Frames(Ending),
    /// A frame came that only a server sends.
    Unasked,
    /// A node greets.
    Greets(Hello),
    /// An event wasn't admitted.
    TurnedAway(NotAdmitted),
    /// A growth was refused.
    NoMemory,
}

/// The events of one connection, and where their answers go.
#[derive(Drop)]
pub struct Caller<'a, R: Wait, T: TakeTurn, I: Input, S: Admit, D: Replies, F: Flushed> {
    rt: &'a R,
    turns: &'a T,
    alloc: Global,
    shared: &'a Shared,
    admission: &'a Admission<F>,
    me: NodeId,
    // Where the connection comes from.
    address: SocketAddr,
    admitting: &'a S,
    connection: &'a D,
    ticket: u64,
    frames: ReceivedFrames<I>,
    // The event that comes next is a retirement of a node that has to be silent.
    is_guarded: bool,
    // The place of the route of the event that was given last, if that is an ask that has one.
    place: Option<u64>,
    // The event that is to be given again.
    due: Option<Event>,
    // Why no event came, once none did.
    done: Done,
}

impl<R, T, I, S, D, F> Caller<'_, R, T, I, S, D, F>
where
    R: Wait + Log,
    T: TakeTurn,
    I: Input,
    S: Admit,
    D: Replies,
    F: Flushed,
{
    // The event that comes next, or why none does.
    fn event(&mut self) -> Result<Event, Done>
        ensures comes { MatchResult result
            (λ e. Takes self.old.due self.old.frames e self.new.frames)
            (λ done. Stops I.may_fail S.may_turn_away self.old.due self.old.frames done) }
        ensures guards { IfOk result (λ e. Guards self.old.due self.old.frames e self.old.is_guarded self.new.is_guarded) }
    {
        if let Some(event) = self.due.take() {
            return Ok(event);
        }
        match self.frames.read_frame() {
            Ok(frame) => {
                self.is_guarded = wants_silence(&frame);
                if let Some(hello) = greeting_in(&frame) {
                    drop(frame);
                    return Err(Done::Greets(hello));
                }
                match event_of(frame) {
                    Some(event) => Ok(event),
                    None => Err(Done::Unasked),
                }
            }
            Err(why) => Err(Done::Frames(why)),
        }
    }

    // The event that comes next, which is admitted then, or why none does.
    fn admitted_event(&mut self) -> Result<Event, Done>
        ensures { MatchResult result
            (λ e. Takes self.old.due self.old.frames e self.new.frames)
            (λ done. Stops I.may_fail S.may_turn_away self.old.due self.old.frames done) }
    {
        let event = self.event()?;
        self.hear_voice(&event);
        let objection = self.objection_to(&event);
        if let Err(why) = self.admitting.admit(self.rt, &event, objection) {
            drop(event);
            if let NotAdmitted::Objected(objection) = why {
                self.object(objection);
            }
            return Err(Done::TurnedAway(why));
        }
        self.place = self.begin_ask(&event);
        Ok(event)
    }

    // Why a retirement isn't brought to the node, if there is a reason.
    fn objection_to(&self, event: &Event) -> Option<Objection> {
        match event {
            Event::Retire { node } => {
                let is_silent = self.shared.is_silent(self.rt, *node);
                objection_to(self.me, *node, self.is_guarded, is_silent)
            }
            _ => None,
        }
    }

    // Tells the operator why a retirement isn't brought to the node.
    fn object(&self, objection: Objection) {
        let frame = objection_frame(objection);
        match bytes_of(self.alloc, &frame) {
            Ok(bytes) => self.connection.object(self.rt, bytes),
            Err(_) => self.connection.give_up(),
        }
        drop(frame);
    }

    // Whatever becomes of it, what a node sends tells that it is there: over a connection that may bring it.
    fn hear_voice(&self, event: &Event) {
        if !self.admitting.may_come(event) {
            return;
        }
        if let Some(peer) = speaker_of(event) {
            self.shared.hear_voice(self.rt, peer);
        }
    }

    // An ask is judged from now on, and its reply comes here, before the flusher can make it. The place of its route. One under
    // number 0 is always refused.
    fn begin_ask(&self, event: &Event) -> Option<u64> {
        let ask = numbered_ask(event)?;
        self.shared
            .connections
            .begin_ask(self.rt, &ask, self.ticket)
    }

    // An ask was judged. Whether it repeats its session's last request with another command.
    fn end_ask(&self, event: &Event, verdict: Verdict) -> bool {
        match numbered_ask(event) {
            Some(ask) => self
                .shared
                .connections
                .end_ask(self.rt, &ask, self.place, verdict),
            None => false,
        }
    }

    // What the answer to an event makes of its permit and its route, and whom it was news of. Whether it repeats its session's last
    // request with another command.
    fn note(&self, event: &Event, answer: &Result<Accepted, Refused>) -> bool {
        match answer {
            Ok(_) => {
                self.admission.accept();
                self.end_ask(event, Verdict::Taken);
                self.hear(event);
                false
            }
            Err(refused) => {
                if is_counted(event, refused.why) {
                    self.shared.gauges.refuse(refused.why);
                }
                if let Event::Acked { peer, number } = event {
                    self.shared.doubt_ack(*peer, *number);
                }
                self.admission.release(self.rt);
                self.end_ask(event, verdict_of(refused.why))
            }
        }
    }

    // What an accepted event tells of the node that sent it, and what it asks.
    fn hear(&self, event: &Event) {
        match event {
            Event::Leave => self.note_operator(Instruction::Leave),
            Event::Retire { node } => self.note_operator(Instruction::Retire(*node)),
            Event::Share { share } => self.note_operator(Instruction::Share(*share)),
            Event::Ask {
                session,
                request,
                command,
            } => {
                self.shared.gauges.ask(command);
                debug!(self.rt; "node {} takes request {} of session {} from {}", self.me.number(), request, session, self.address);
            }
            Event::Deliver { from, message, .. } => self.meeting().hear(self.rt, *from, message),
            Event::Skip { .. } => self.shared.gauges.hear_skip(),
            Event::Acked { peer, .. } => {
                if self.shared.hear_ack(self.rt, *peer) {
                    give_notice(self.rt, self.me, &Notice::Back(*peer));
                }
            }
            _ => {}
        }
    }

    // Notes what the operator asked, and from where.
    fn note_operator(&self, instruction: Instruction) {
        let from = self.address;
        give_notice(self.rt, self.me, &Notice::Told { instruction, from });
    }

    // What notes whom the connection brings news of.
    fn meeting(&self) -> HeardNodes<'_> {
        HeardNodes {
            me: self.me,
            channels: &self.shared.channels,
            known: &self.shared.known,
            address: self.address,
            second: self.shared.seconds(),
        }
    }

    // Tells a client why not, once all is durable that this was judged by.
    fn refuse(&self, frame: &Frame, refused: Refused) {
        let judged = refused.accepted;
        let Some(durable) = self.admission.settle(self.rt, &self.shared.waker, judged) else {
            return;
        };
        match bytes_of(self.alloc, frame) {
            Ok(bytes) => self.connection.refuse(self.rt, bytes, refused, durable),
            Err(_) => self.connection.give_up(),
        }
    }

    // Does what an answer asks for. Whether the event is to be given again.
    fn act(&self, duty: Duty, answer: Result<Accepted, Refused>) -> bool
        ensures { result ≡ brings_again duty }
    {
        match duty {
            Duty::Wake => self.turns.take_turn(),
            Duty::Defer => self.shared.waker.defer(),
            Duty::Nothing => {}
            Duty::Reack(peer) => self.shared.reack(self.rt, peer),
            Duty::Again(session) => self.shared.again(self.rt, session),
            Duty::Refuse(frame) => {
                if let Err(refused) = answer {
                    self.refuse(&frame, refused);
                }
                drop(frame);
            }
            Duty::BringAgain => return true,
        }
        false
    }
}

impl<R, T, I, S, D, F> Source for Caller<'_, R, T, I, S, D, F>
where
    R: Wait + Log,
    T: TakeTurn,
    I: Input,
    S: Admit,
    D: Replies,
    F: Flushed,
{
    ghost use Rattle.cc_workers.specs.WorkerSteps.{Gives, Hears};

    ghost gives = { λ s e t. Gives I.may_fail S.may_turn_away
        (record { due = s.due; ahead = s.frames; done = s.done }) e
        (record { due = t.due; ahead = t.frames; done = t.done }) };

    ghost hears = { λ s e a t. Hears
        (record { due = s.due; ahead = s.frames; done = s.done }) e a
        (record { due = t.due; ahead = t.frames; done = t.done }) };

    fn next(&mut self) -> Option<Event> {
        match self.admitted_event() {
            Ok(event) => Some(event),
            Err(done) => {
                self.done = done;
                None
            }
        }
    }

    fn told(&mut self, event: Event, answer: Result<Accepted, Refused>) {
        let differs = self.note(&event, &answer);
        let duty = duty_of(&event, &answer, differs);
        if self.act(duty, answer) {
            drop(self.due.replace(event));
        } else {
            drop(event);
            drop(self.due.take());
        }
    }
}

// The greeting that a frame is.
fn greeting_in(frame: &Frame) -> Option<Hello>
    ensures { result ≡ greeting_in frame.now }
{
    match frame {
        Frame::Hello(hello) => Some(*hello),
        _ => None,
    }
}

// Whether a frame retires a node only where that one is silent.
fn wants_silence(frame: &Frame) -> bool
    ensures { result ≡ wants_silence frame.now }
{
    matches!(frame, Frame::RetireIfSilent { .. })
}

// An ask that may be taken in: of another event, and of an ask under number 0, None.
fn numbered_ask(event: &Event) -> Option<Asked> {
    match event {
        Event::Ask {
            session,
            request,
            command,
        } if *request > 0 => Some(Asked {
            session: *session,
            request: *request,
            command: *command,
        }),
        _ => None,
    }
}

// Whether it counts as a refusal: an acknowledgement that tells nothing new is a sign of life, and an ask under number 0 asks for
// its session's last request.
fn is_counted(event: &Event, why: Refusal) -> bool {
    match (event, why) {
        (Event::Acked { .. }, Refusal::NothingToAck) => false,
        (Event::Ask { request: 0, .. }, Refusal::Stale(_)) => false,
        _ => true,
    }
}

// What became of an ask that is refused for that.
fn verdict_of(why: Refusal) -> Verdict {
    match why {
        Refusal::Repeat => Verdict::Repeat,
        _ => Verdict::Refused,
    }
}

/// Brings what comes from a reader to the intake, until it ends: at the end of input, where a read fails, at bytes that
/// spell no frame, at a frame that only a server sends, at a greeting, where the node takes no further event, and where a growth is
/// refused. Of bytes that are known it brings the events of their frames, one after the other, each again where the queue was full;
/// each answer is the intake's to that very event, and the share counts those that were accepted. It tells why it ended: that
/// a read failed only where one can, and that an event was turned away only where one can be. What came behind the last frame is
/// dropped.
pub fn serve<R: Wait + Log, T: TakeTurn, L: Life, Q: Lane, I: Input + Drop, S: Admit, D: Replies>(
    context: &Context<'_, R, T, L, Q>,
    admitting: &S,
    connection: &D,
    ticket: u64,
    from: SocketAddr,
    reader: I,
    share: &mut Share<L>,
) -> Done
    ensures { (answers : List Answer) × (share.new ≡ share.old + places_of answers) × PlacesRise share.old answers
        × IfSome (I.remaining reader) (λ bytes. Brings I.may_fail S.may_turn_away (IsAnswer L.opening L.accepted L.taken) result None bytes answers) }
{
    let alloc = context.alloc;
    let Ok(frames) = ReceivedFrames::new(alloc, reader) else {
        return Done::NoMemory;
    };
    let mut caller = Caller {
        rt: context.rt,
        turns: context.turns,
        alloc,
        shared: context.shared,
        admission: context.admission,
        me: context.me,
        address: from,
        admitting,
        connection,
        ticket,
        frames,
        is_guarded: false,
        place: None,
        due: None,
        done: Done::NoMemory,
    };
    context.work(share, &mut caller);
    let done = caller.done;
    drop(caller);
    done
}
