//! What a body says.

ghost use Rattle.std.specs.Prelude.{◌≡◌, ◌≤◌, length, map};
ghost use Rattle.std.specs.Char.{to_ascii_lowercase};
ghost use Rattle.std.specs.Option.{option_copied};
ghost use Rattle.cc_web.specs.Bodies.{essence, is_plain, written_in, command_in, most_bytes};
ghost use Rattle.cc_web.specs.Words.{is_text};

use crate::call::Write;
use crate::fault::WebFault;
use crate::words::{front_of, number_in, small_number_in};
use cc_messages::Command;
use cc_views::Text;

/// Whether a body of this type is taken as it stands.
#[tactic(auto, unfolding(crate::specs::Bodies::is_plain))]
pub(crate) fn is_plain(content_type: Option<&[u8]>) -> bool
    ensures { result ≡ is_plain (option_copied content_type.entry) }
{
    let Some(value) = content_type else {
        return true;
    };
    is_type(value, b"text/plain")
        || is_type(value, b"application/octet-stream")
        || is_type(value, b"application/x-www-form-urlencoded")
}

// Whether a value names this type, which stands in small letters, whatever parameters it has.
fn is_type(value: &[u8], name: &[u8]) -> bool
    requires { map to_ascii_lowercase name.now ≡ name.now }
    ensures { result ≡ is_text name.now (essence value.now) }
{
    let front = front_of(value, b';');
    front_of(front, b' ').eq_ignore_ascii_case(name)
}

/// The command that a body writes.
#[tactic(auto, unfolding(crate::specs::Bodies::written_in))]
pub(crate) fn written_in(write: Write, body: &[u8]) -> Result<Command, WebFault>
    ensures { result ≡ written_in write body.now }
{
    if body.len() > most_bytes(write) {
        return Err(WebFault::TooLong);
    }
    command_in(write, body).ok_or(WebFault::Body)
}

// How many bytes a body has at most: a text, the digits of a number, or none.
fn most_bytes(write: Write) -> usize
    ensures { result ≡ most_bytes write }
{
    match write {
        Write::Text => Text::MAX_LEN,
        Write::Max => 20,
        Write::Flag => 0,
        Write::Member => 10,
    }
}

// What a body of no more bytes than that writes.
fn command_in(write: Write, body: &[u8]) -> Option<Command>
    requires { length body.now ≤ most_bytes write }
    ensures { result ≡ command_in write body.now }
{
    match write {
        Write::Text if body.is_empty() => None,
        Write::Text => Some(Command::Store(Text::new(body)?)),
        Write::Max => Some(Command::WriteMax(number_in(body)?)),
        Write::Flag => Some(Command::SetFlag),
        Write::Member => Some(Command::AddMember(small_number_in(body)?)),
    }
}
