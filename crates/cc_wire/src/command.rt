//! Commands as bytes.

ghost use Rattle.std.specs.Prelude.{◌≡◌, ◌≤◌, ◌+◌, ℕ, List, [], ◌++◌, length, IfOk, OnOk, OnErr, IsOk, Ok, vec_len};
ghost use Rattle.std.specs.Vec.{vec_capacity};
ghost use Rattle.cc_wire.specs.Writers.{Writes};
ghost use Rattle.cc_wire.specs.Readers.{Gives, TakesNoMemory, whole};
ghost use Rattle.cc_wire.specs.Commands.{command_at, command_spelling, IsCommand, SpellsCommand};

use crate::fault::WireFault;
use crate::reader::Reader;
use crate::writer::{put_text, put_u8, put_u32, put_u64, settled};
use cc_messages::Command;
use cc_views::NoMemory;
use std::alloc::AllocError;

impl<'a> Reader<'a> {
    /// A command: its kind, and the field of that. BadKind for a kind that no command has. It takes no memory.
    #[tactic(auto, unfolding(crate::specs::Commands::command_at))]
    pub fn command(&mut self) -> Result<Command, WireFault>
        ensures exact { Gives (λ x. (x, self.new)) result (command_at self.old) }
        ensures free { TakesNoMemory result }
    {
        match self.u8()? {
            1 => {
                let text = self.text()?;
                Ok(Command::Store(text))
            }
            2 => Ok(Command::Collect),
            3 => {
                let number = self.u64()?;
                Ok(Command::WriteMax(number))
            }
            4 => Ok(Command::ReadMax),
            5 => Ok(Command::SetFlag),
            6 => Ok(Command::ReadFlag),
            7 => {
                let number = self.u32()?;
                Ok(Command::AddMember(number))
            }
            8 => Ok(Command::ReadSet),
            kind => Err(WireFault::BadKind(kind)),
        }
    }
}

pub(crate) fn put_command(out: &mut Vec<u8>, command: &Command) -> Result<(), AllocError>
    ensures writes { Writes out.old out.new (command_spelling command.now) result }
    ensures fits { OnOk result (IsCommand command.now) }
{
    match command {
        Command::Store(text) => {
            put_u8(out, 1)?;
            put_text(out, text)
        }
        Command::Collect => put_u8(out, 2),
        Command::WriteMax(number) => {
            put_u8(out, 3)?;
            put_u64(out, *number)
        }
        Command::ReadMax => put_u8(out, 4),
        Command::SetFlag => put_u8(out, 5),
        Command::ReadFlag => put_u8(out, 6),
        Command::AddMember(number) => {
            put_u8(out, 7)?;
            put_u32(out, *number)
        }
        Command::ReadSet => put_u8(out, 8),
    }
}

#[tactic(auto, unfolding(crate::specs::Readers::whole))]
fn decode_all(bytes: &[u8]) -> Result<Command, WireFault>
    ensures exact { Gives (λ x. x) result (whole command_at bytes.now) }
    ensures free { TakesNoMemory result }
{
    let mut reader = Reader::new(bytes);
    let command = reader.command()?;
    reader.end()?;
    Ok(command)
}

/// The command that the bytes spell, all of the bytes. It takes no memory.
/// The fault is that of the first field, from left to right, that can't be read.
pub fn decode_command(bytes: &[u8]) -> Result<Command, WireFault>
    // What is read is spelled so.
    ensures found { IfOk result (λ x. SpellsCommand bytes.now x) }
    // What is spelled so is read.
    ensures only { (x : Command) → SpellsCommand bytes.now x → result ≡ Ok x }
    // Which fault it is.
    ensures exact { result ≡ whole command_at bytes.now }
    ensures free { TakesNoMemory result }
{
    decode_all(bytes)
}

/// Appends the spelling of a command. On an `Err` nothing has changed.
pub fn encode_command(command: &Command, out: &mut Vec<u8>) -> Result<(), NoMemory>
    ensures spelled { OnOk result (SpellsCommand (command_spelling command.now) command.now) }
    ensures ok { OnOk result (out.new.items ≡ out.old.items ++ command_spelling command.now) }
    ensures err { OnErr result (out.new.items ≡ out.old.items) }
    ensures room { vec_len out.old + length (command_spelling command.now) ≤ vec_capacity out.old → IsOk result }
{
    let start = out.len();
    let put = put_command(out, command);
    settled(out, start, put)
}

/// Each command has one spelling, and none begins another.
pub fn one_spelling_of_commands()
    ensures one { (a b u w : List ℕ) (x y : Command) → SpellsCommand a x → SpellsCommand b y → a ++ u ≡ b ++ w → (x ≡ y) × (a ≡ b) }
    ensures same { (a b : List ℕ) (x : Command) → SpellsCommand a x → SpellsCommand b x → a ≡ b }
{}
