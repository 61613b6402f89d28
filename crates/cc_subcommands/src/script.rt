//! The lines of a script.

use crate::delivery::Delivery;
use crate::station::Resend;
use cc_changes::Fraction;
use cc_command_line::{command, fraction, list, number, small_number};
use cc_messages::{Event, PostRange, Share};
use cc_site::Choice;
use cc_views::NodeId;
use std::alloc::{AllocError, Global};

/// What one line asks for.
#[derive(Drop)]
pub enum Line {
    /// The fractions of the nodes that are made after it.
    Fractions { beta: Fraction, gamma: Fraction },
    /// How many asks of the nodes that are made after it begin together at most.
    Share { share: u32 },
    /// Makes a member, one of these.
    Member { id: u32, initial: Vec<u32> },
    /// Makes an entrant that can reach these.
    Entrant { id: u32, contacts: Vec<u32> },
    /// An event at a node.
    Event { node: u32, event: Event },
    /// Delivers a message.
    Carry(Delivery),
    /// Delivers so many messages, each the next one of its link.
    CarryAll { limit: u64 },
    /// A node puts out again what stands in it.
    Again { node: u32, standing: Resend },
    /// A node is moved to the other side of its site.
    Checkpoint { node: u32 },
    /// A node crashes, which leaves of its site what is chosen, and is opened again.
    Crash { node: u32, choice: Choice },
}

/// The line that these bytes are, without their newline. None for a line of any other form.
pub fn parse(alloc: Global, bytes: &[u8]) -> Result<Option<Line>, AllocError> {
    let Ok(text) = std::str::from_utf8(bytes) else {
        return Ok(None);
    };
    let words: Vec<&str> = text.split(' ').collect(alloc)?;
    line_of(alloc, words.as_slice())
}

// The line of these words.
fn line_of(alloc: Global, words: &[&str]) -> Result<Option<Line>, AllocError> {
    match words {
        ["member", id, "of", ids] => member(alloc, id, ids),
        ["entrant", id, "via", ids] => entrant(alloc, id, ids),
        _ => Ok(plain_line(words)),
    }
}

// The line of these words, where it has no list.
fn plain_line(words: &[&str]) -> Option<Line> {
    match words {
        ["enter", node] => event_at(node, Some(Event::Enter)),
        ["leave", node] => event_at(node, Some(Event::Leave)),
        ["ask", node, session, request, asked @ ..] => {
            event_at(node, ask(session, request, asked))
        }
        ["acked", node, peer, number] => event_at(node, acked(peer, number)),
        ["retire", node, retired] => event_at(node, retire(retired)),
        ["reshare", node, share] => event_at(node, reshare(share)),
        ["skip", node, from, first, last] => event_at(node, skip(from, first, last)),
        _ => carried_line(words),
    }
}

// The line of these words, where it is no event.
fn carried_line(words: &[&str]) -> Option<Line> {
    match words {
        ["carry", from, to, number] => carry(from, to, number),
        ["all", limit] => carry_all(limit),
        ["resend", node] => again(node, Some(Resend::Posts)),
        ["again", node, session] => again(node, answer(session)),
        ["reack", node, peer] => again(node, ack(peer)),
        _ => disk_line(words),
    }
}

// The line of these words, where it is of a node's disk alone.
fn disk_line(words: &[&str]) -> Option<Line> {
    match words {
        ["checkpoint", node] => checkpoint(node),
        ["crash", node] => crash(node, Some(Choice::Read)),
        ["crash", node, "fill", filler] => crash(node, filled(filler)),
        _ => absent_line(words),
    }
}

// The line of these words, where it is of nodes that stay away.
fn absent_line(words: &[&str]) -> Option<Line> {
    match words {
        ["lapse", node, absent] => event_at(node, lapse(absent)),
        ["snapshot", node] => event_at(node, Some(Event::Snapshot)),
        _ => next_nodes(words),
    }
}

// The line of these words, where it says how the nodes that are made after it begin.
fn next_nodes(words: &[&str]) -> Option<Line> {
    match words {
        ["fractions", beta, gamma] => fractions(beta, gamma),
        ["share", share] => share_of(share),
        _ => None,
    }
}

fn fractions(beta: &str, gamma: &str) -> Option<Line> {
    Some(Line::Fractions {
        beta: fraction(beta)?,
        gamma: fraction(gamma)?,
    })
}

fn share_of(share: &str) -> Option<Line> {
    Some(Line::Share {
        share: small_number(share)?,
    })
}

fn member(alloc: Global, id: &str, ids: &str) -> Result<Option<Line>, AllocError> {
    let Some(id) = small_number(id) else {
        return Ok(None);
    };
    match list(alloc, ids)? {
        Some(initial) => Ok(Some(Line::Member { id, initial })),
        None => Ok(None),
    }
}

fn entrant(alloc: Global, id: &str, ids: &str) -> Result<Option<Line>, AllocError> {
    let Some(id) = small_number(id) else {
        return Ok(None);
    };
    match list(alloc, ids)? {
        Some(contacts) => Ok(Some(Line::Entrant { id, contacts })),
        None => Ok(None),
    }
}

fn event_at(node: &str, event: Option<Event>) -> Option<Line> {
    let event = event?;
    let Some(node) = small_number(node) else {
        drop(event);
        return None;
    };
    Some(Line::Event { node, event })
}

fn ask(session: &str, request: &str, words: &[&str]) -> Option<Event> {
    Some(Event::Ask {
        session: number(session)?,
        request: number(request)?,
        command: command(words)?,
    })
}

fn acked(peer: &str, n: &str) -> Option<Event> {
    Some(Event::Acked {
        peer: NodeId::new(small_number(peer)?)?,
        number: number(n)?,
    })
}

fn retire(node: &str) -> Option<Event> {
    Some(Event::Retire {
        node: NodeId::new(small_number(node)?)?,
    })
}

fn reshare(share: &str) -> Option<Event> {
    let asks = u8::try_from(small_number(share)?).ok()?;
    Some(Event::Share {
        share: Share::new(asks)?,
    })
}

fn skip(from: &str, first: &str, last: &str) -> Option<Event> {
    Some(Event::Skip {
        from: NodeId::new(small_number(from)?)?,
        posts: PostRange::new(number(first)?, number(last)?)?,
    })
}

fn lapse(node: &str) -> Option<Event> {
    Some(Event::Lapse {
        node: NodeId::new(small_number(node)?)?,
    })
}

fn carry(from: &str, to: &str, n: &str) -> Option<Line> {
    Some(Line::Carry(Delivery {
        to: small_number(to)?,
        from: small_number(from)?,
        number: number(n)?,
    }))
}

fn carry_all(limit: &str) -> Option<Line> {
    Some(Line::CarryAll {
        limit: number(limit)?,
    })
}

fn again(node: &str, standing: Option<Resend>) -> Option<Line> {
    Some(Line::Again {
        node: small_number(node)?,
        standing: standing?,
    })
}

fn answer(session: &str) -> Option<Resend> {
    Some(Resend::Answer {
        session: number(session)?,
    })
}

fn ack(peer: &str) -> Option<Resend> {
    Some(Resend::Ack {
        peer: NodeId::new(small_number(peer)?)?,
    })
}

fn checkpoint(node: &str) -> Option<Line> {
    Some(Line::Checkpoint {
        node: small_number(node)?,
    })
}

fn crash(node: &str, choice: Option<Choice>) -> Option<Line> {
    Some(Line::Crash {
        node: small_number(node)?,
        choice: choice?,
    })
}

fn filled(filler: &str) -> Option<Choice> {
    Some(Choice::Fill(byte(filler)?))
}

// Two lower case hexadecimal digits.
fn byte(word: &str) -> Option<u8> {
    match word.as_bytes() {
        [high, low] => Some((hex_digit(*high)? << 4) | hex_digit(*low)?),
        _ => None,
    }
}

fn hex_digit(digit: u8) -> Option<u8> {
    match digit {
        b'0'..=b'9' => Some(digit - b'0'),
        b'a'..=b'f' => Some(digit - b'a' + 10),
        _ => None,
    }
}
