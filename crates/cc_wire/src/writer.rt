//! Writing fields at the end of a vector: each is spelled as `Reader` reads it.

ghost use Rattle.std.specs.Prelude.{◌≡◌, ◌≤◌, ◌<◌, ◌+◌, ◌∷◌, [], ◌++◌, length, take, OnOk, OnErr, IsOk, IsErr, vec_len};
ghost use Rattle.std.specs.Int.{w16, w32, w64, to_be_bytes};
ghost use Rattle.std.specs.Vec.{vec_capacity};
ghost use Rattle.std.specs.List.{flat_map, AllByRecursion};
ghost use Rattle.cc_wire.specs.Writers.{Writes};
ghost use Rattle.cc_wire.specs.Spellings.{text_spelling, IsText, flag_spelling, number_spelling, number_set_spelling, IsNumberSet, value_spelling};
ghost use Rattle.cc_wire.specs.Spellings.{IsValue, row_spelling, IsRow, view_spelling, IsView};

use byteorder::{BigEndian, ByteOrder};
use cc_views::{NoMemory, NumberSet, Row, Text, Value, View};
use std::alloc::AllocError;

/// How an encoder ends that began where `out` had `start` bytes: where its write failed, what stands behind them is taken
/// away.
pub fn settled(out: &mut Vec<u8>, start: usize, put: Result<(), AllocError>) -> Result<(), NoMemory>
    ensures ok { OnOk put (IsOk result × (out.new.items ≡ out.old.items)) }
    ensures err { OnErr put (IsErr result × (out.new.items ≡ take start out.old.items)) }
    ensures grows { vec_capacity out.old ≤ vec_capacity out.new }
{
    if put.is_err() {
        out.truncate(start);
        return Err(NoMemory);
    }
    Ok(())
}

pub(crate) fn put_bytes(out: &mut Vec<u8>, bytes: &[u8]) -> Result<(), AllocError>
    ensures { Writes out.old out.new bytes.now result }
{
    out.extend_from_slice(bytes)
}

/// Appends a number in two bytes. On an `Err` a part of them may stand at the end.
pub fn put_u16(out: &mut Vec<u8>, number: u16) -> Result<(), AllocError>
    ensures { Writes out.old out.new (to_be_bytes w16 number) result }
{
    let mut bytes = [0; 2];
    BigEndian::write_u16(&mut bytes, number);
    out.extend_from_slice(&bytes)
}

/// Appends a number in four bytes. On an `Err` a part of them may stand at the end.
pub fn put_u32(out: &mut Vec<u8>, number: u32) -> Result<(), AllocError>
    ensures { Writes out.old out.new (to_be_bytes w32 number) result }
{
    let mut bytes = [0; 4];
    BigEndian::write_u32(&mut bytes, number);
    out.extend_from_slice(&bytes)
}

/// Appends a number in eight bytes. On an `Err` a part of them may stand at the end.
pub fn put_u64(out: &mut Vec<u8>, number: u64) -> Result<(), AllocError>
    ensures { Writes out.old out.new (to_be_bytes w64 number) result }
{
    let mut bytes = [0; 8];
    BigEndian::write_u64(&mut bytes, number);
    out.extend_from_slice(&bytes)
}

/// Appends a byte.
pub fn put_u8(out: &mut Vec<u8>, byte: u8) -> Result<(), AllocError>
    ensures { Writes out.old out.new (byte ∷ []) result }
{
    out.extend_from_slice(&[byte])
}

pub(crate) fn put_text(out: &mut Vec<u8>, text: &Text) -> Result<(), AllocError>
    ensures writes { Writes out.old out.new (text_spelling text.now) result }
    ensures fits { IsText text.now }
{
    let bytes = text.as_bytes();
    put_u8(out, bytes.len() as u8)?;
    put_bytes(out, bytes)
}

pub(crate) fn put_flag(out: &mut Vec<u8>, flag: bool) -> Result<(), AllocError>
    ensures { Writes out.old out.new (flag_spelling flag) result }
{
    put_u8(out, u8::from(flag))
}

pub(crate) fn put_numbers(out: &mut Vec<u8>, numbers: &[u32]) -> Result<(), AllocError>
    ensures { Writes out.old out.new (flat_map number_spelling numbers.now) result }
{
    for number in numbers {
        put_u32(out, *number)?;
    }
    Ok(())
}

fn put_number_set(out: &mut Vec<u8>, set: &NumberSet) -> Result<(), AllocError>
    ensures writes { Writes out.old out.new (number_set_spelling set.now) result }
    ensures fits { IsNumberSet set.now }
{
    let numbers = set.as_slice();
    put_u8(out, numbers.len() as u8)?;
    put_numbers(out, numbers)
}

/// Appends a value: its text, maximum, flag and set. On an `Err` a part may stand at the end.
pub fn put_value(out: &mut Vec<u8>, value: &Value) -> Result<(), AllocError>
    ensures writes { Writes out.old out.new (value_spelling value.now) result }
    ensures fits { OnOk result (IsValue value.now) }
{
    put_text(out, &value.text)?;
    put_u64(out, value.max)?;
    put_flag(out, value.flag)?;
    put_number_set(out, &value.set)
}

pub(crate) fn put_row(out: &mut Vec<u8>, row: &Row) -> Result<(), AllocError>
    ensures writes { Writes out.old out.new (row_spelling row.now) result }
    ensures fits { OnOk result (IsRow row.now) }
{
    put_u32(out, row.node.number())?;
    put_u64(out, row.number)?;
    put_value(out, &row.value)
}

fn put_rows(out: &mut Vec<u8>, rows: &[Row]) -> Result<(), AllocError>
    ensures writes { Writes out.old out.new (flat_map row_spelling rows.now) result }
    ensures fits { OnOk result (AllByRecursion IsRow rows.now) }
{
    for row in rows {
        put_row(out, row)?;
    }
    Ok(())
}

/// Appends a view: how many rows, and the rows. On an `Err` a part may stand at the end.
pub fn put_view(out: &mut Vec<u8>, view: &View) -> Result<(), AllocError>
    ensures writes { Writes out.old out.new (view_spelling view.now) result }
    ensures fits { OnOk result (IsView view.now) }
{
    let rows = view.rows();
    put_u16(out, rows.len() as u16)?;
    put_rows(out, rows)
}
