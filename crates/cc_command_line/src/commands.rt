//! Commands of a client.

ghost use Rattle.std.specs.Prelude.{◌≡◌, ◌↔◌, IsTrue, [], ◌∷◌, map, MatchOption};
ghost use Rattle.std.specs.Int.{IsInRange};
ghost use Rattle.std.specs.List.{AllByRecursion};
ghost use Rattle.cc_command_line.specs.Commands.{SaysCommand, NoCommand, IsStorable, IsVisible};

use crate::numbers::{number, small_number};
use cc_messages::Command;
use cc_views::Text;

/// The command that these words are: `store WORD` of 1 to 64 visible ASCII characters, `collect`, `max N`, `readmax`,
/// `flag`, `readflag`, `add N` or `readset`. None for any other words.
pub fn command(words: &[&str]) -> Option<Command>
    ensures { let spoken = map (λ w. w.now) words.now in MatchOption result (NoCommand spoken) (SaysCommand spoken) }
{
    match words {
        [name] => lone_command(name),
        [name, value] => command_with(name, value),
        _ => None,
    }
}

/// The command that stores this text, whatever its 1 to 64 bytes are. None for any other text.
pub fn store_of(text: &str) -> Option<Command>
    ensures { MatchOption result (IsStorable text.now → ⊥) (λ c. (c ≡ Command.Store text.now) × IsStorable text.now) }
{
    if text.is_empty() {
        return None;
    }
    match Text::new(text.as_bytes()) {
        Some(text) => Some(Command::Store(text)),
        None => None,
    }
}

fn lone_command(name: &str) -> Option<Command>
    ensures { MatchOption result (NoCommand (name.now ∷ [])) (SaysCommand (name.now ∷ [])) }
{
    match name {
        "collect" => Some(Command::Collect),
        "readmax" => Some(Command::ReadMax),
        "flag" => Some(Command::SetFlag),
        "readflag" => Some(Command::ReadFlag),
        "readset" => Some(Command::ReadSet),
        _ => None,
    }
}

fn command_with(name: &str, value: &str) -> Option<Command>
    ensures { MatchOption result (NoCommand (name.now ∷ value.now ∷ [])) (SaysCommand (name.now ∷ value.now ∷ [])) }
{
    match name {
        "store" => Some(Command::Store(visible_text(value)?)),
        "max" => Some(Command::WriteMax(number(value)?)),
        "add" => Some(Command::AddMember(small_number(value)?)),
        _ => None,
    }
}

// The word as a text, where it has 1 to 64 visible ASCII characters.
fn visible_text(word: &str) -> Option<Text>
    ensures { MatchOption result (IsVisible word.now → ⊥) (λ text. (text ≡ word.now) × IsVisible word.now) }
{
    let bytes = word.as_bytes();
    if bytes.is_empty() || !are_visible(bytes) {
        return None;
    }
    Text::new(bytes)
}

fn are_visible(bytes: &[u8]) -> bool
    ensures { IsTrue result ↔ AllByRecursion (IsInRange 33 126) bytes.now }
{
    bytes.iter().all(|byte| byte.is_ascii_graphic())
}
