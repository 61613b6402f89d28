//! Events of a stream, as `text/event-stream` has them.

ghost use Rattle.std.specs.Prelude.{◌≡◌, ◌≤◌, ◌+◌, ◌++◌, length, OnOk, OnErr, IsOk, IsTrue, vec_len, codes};
ghost use Rattle.std.specs.Vec.{vec_capacity};
ghost use Rattle.std.specs.List.{flat_map};
ghost use Rattle.cc_status.specs.Writers.{Writes};
ghost use Rattle.cc_status.specs.Events.{is_one_line, data_byte, event_by_bytes, event_spelling};

use crate::bytes::{put_bytes, settled};
use cc_views::NoMemory;
use std::alloc::AllocError;

/// A comment, which keeps a silent stream open and says nothing.
pub const HEARTBEAT: &[u8] = b": \n\n";

// Where a line of the data ends, the next one begins as data too.
fn put_data_byte(out: &mut Vec<u8>, byte: u8) -> Result<(), AllocError>
    ensures { Writes out.old out.new (data_byte byte) result }
{
    if byte == b'\n' || byte == b'\r' {
        return put_bytes(out, b"\ndata: ");
    }
    put_bytes(out, &[byte])
}

fn put_data(out: &mut Vec<u8>, text: &[u8]) -> Result<(), AllocError>
    ensures { Writes out.old out.new (flat_map data_byte text.now) result }
{
    for byte in text {
        put_data_byte(out, *byte)?;
    }
    Ok(())
}

fn put_name(out: &mut Vec<u8>, name: &str) -> Result<(), AllocError>
    ensures { Writes out.old out.new (codes "event: " ++ (name.now ++ codes "\ndata: ")) result }
{
    put_bytes(out, b"event: ")?;
    put_bytes(out, name.as_bytes())?;
    put_bytes(out, b"\ndata: ")
}

// The event, byte by byte.
fn put_bytewise(out: &mut Vec<u8>, name: &str, text: &str) -> Result<(), AllocError>
    ensures { Writes out.old out.new (event_by_bytes name.now text.now) result }
{
    put_name(out, name)?;
    put_data(out, text.as_bytes())?;
    put_bytes(out, b"\n\n")
}

// The same, which is the event line by line.
fn put_lines(out: &mut Vec<u8>, name: &str, text: &str) -> Result<(), AllocError>
    ensures { Writes out.old out.new (event_spelling name.now text.now) result }
{
    put_bytewise(out, name, text)
}

/// Appends an event with that name, of one line, whose data is that text. On an `Err` nothing has changed.
pub fn put_event(out: &mut Vec<u8>, name: &str, text: &str) -> Result<(), NoMemory>
    requires { IsTrue (is_one_line name.now) }
    ensures ok { OnOk result (out.new.items ≡ out.old.items ++ event_spelling name.now text.now) }
    ensures err { OnErr result (out.new.items ≡ out.old.items) }
    ensures room { vec_len out.old + length (event_spelling name.now text.now) ≤ vec_capacity out.old → IsOk result }
{
    let start = out.len();
    let put = put_lines(out, name, text);
    settled(out, start, put)
}
