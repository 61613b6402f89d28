//! JSON, byte by byte. A number that may exceed 2^53 is a string, and so is each number of a set.

ghost use Rattle.std.specs.Prelude.{◌≡◌, ◌<◌, ◌++◌, OnOk};
ghost use Rattle.std.specs.List.{flat_map};
ghost use Rattle.cc_web.specs.Json.{hex_digit, escaped, string_json, numbers_json, base64_json, text_json, flag_json, rest_json, row_json, rows_json};

use base64::engine::general_purpose::STANDARD;
use cc_views::{Row, Value};
use itoa::Buffer;
use std::alloc::{AllocError, Global};

/// Appends these pieces, one after the other.
pub(crate) fn put_all(out: &mut Vec<u8>, pieces: &[&[u8]]) -> Result<(), AllocError>
    ensures { OnOk result (out.new.items ≡ out.old.items ++ flat_map (λ piece. piece.now) pieces.now) }
{
    for piece in pieces {
        out.extend_from_slice(piece)?;
    }
    Ok(())
}

fn hex_digit(number: u8) -> u8
    requires { number < 16 }
    ensures { result ≡ hex_digit number }
{
    if number < 10 {
        b'0' + number
    } else {
        b'a' + (number - 10)
    }
}

fn put_escaped(out: &mut Vec<u8>, byte: u8) -> Result<(), AllocError>
    ensures { OnOk result (out.new.items ≡ out.old.items ++ escaped byte) }
{
    match byte {
        b'"' => out.extend_from_slice(b"\\\""),
        b'\\' => out.extend_from_slice(b"\\\\"),
        0..=31 => put_all(
            out,
            &[b"\\u00", &[hex_digit(byte / 16), hex_digit(byte % 16)]],
        ),
        _ => out.extend_from_slice(&[byte]),
    }
}

// Appends a text of UTF-8 as a string.
fn put_string(out: &mut Vec<u8>, text: &[u8]) -> Result<(), AllocError>
    ensures { OnOk result (out.new.items ≡ out.old.items ++ string_json text.now) }
{
    out.extend_from_slice(b"\"")?;
    for byte in text {
        put_escaped(out, *byte)?;
    }
    out.extend_from_slice(b"\"")
}

// Appends what a text stands under: as it is where it is UTF-8, else in Base64.
#[tactic(auto, using(crate::proofs::Texts::text_utf8, crate::proofs::Texts::text_other))]
fn put_text(alloc: Global, out: &mut Vec<u8>, text: &[u8]) -> Result<(), AllocError>
    ensures { OnOk result (out.new.items ≡ out.old.items ++ text_json text.now) }
{
    match str::from_utf8(text) {
        Ok(_) => {
            out.extend_from_slice(b"\"text\":")?;
            put_string(out, text)
        }
        Err(_) => put_base64(alloc, out, text),
    }
}

fn put_base64(alloc: Global, out: &mut Vec<u8>, text: &[u8]) -> Result<(), AllocError>
    ensures { OnOk result (out.new.items ≡ out.old.items ++ base64_json text.now) }
{
    let encoded = STANDARD.encode(alloc, text)?;
    let put = put_all(out, &[b"\"text_base64\":\"", encoded.as_bytes(), b"\""]);
    drop(encoded);
    put
}

/// Appends numbers as an array.
pub(crate) fn put_numbers(out: &mut Vec<u8>, numbers: &[u32]) -> Result<(), AllocError>
    ensures { OnOk result (out.new.items ≡ out.old.items ++ numbers_json numbers.now) }
{
    out.extend_from_slice(b"[")?;
    let mut mark: &[u8] = b"";
    for number in numbers {
        out.extend_from_slice(mark)?;
        put_all(
            out,
            &[b"\"", Buffer::new().format(*number).as_bytes(), b"\""],
        )?;
        mark = b",";
    }
    out.extend_from_slice(b"]")
}

/// Its name.
pub(crate) fn flag_json(flag: bool) -> &'static [u8]
    ensures { result.now ≡ flag_json flag }
{
    if flag { b"true" } else { b"false" }
}

// Appends what a row has behind its text.
fn put_rest(out: &mut Vec<u8>, value: &Value) -> Result<(), AllocError>
    ensures { OnOk result (out.new.items ≡ out.old.items ++ rest_json value.now) }
{
    let mut max = Buffer::new();
    put_all(
        out,
        &[
            b",\"max\":\"",
            max.format(value.max).as_bytes(),
            b"\",\"flag\":",
            flag_json(value.flag),
            b",\"set\":",
        ],
    )?;
    put_numbers(out, value.set.as_slice())?;
    out.extend_from_slice(b"}")
}

fn put_row(alloc: Global, out: &mut Vec<u8>, row: &Row) -> Result<(), AllocError>
    ensures { OnOk result (out.new.items ≡ out.old.items ++ row_json row.now) }
{
    let mut node = Buffer::new();
    let mut number = Buffer::new();
    put_all(
        out,
        &[
            b"{\"node\":",
            node.format(row.node.number()).as_bytes(),
            b",\"number\":\"",
            number.format(row.number).as_bytes(),
            b"\",",
        ],
    )?;
    put_text(alloc, out, row.value.text.as_bytes())?;
    put_rest(out, &row.value)
}

/// Appends the rows of a view as an array.
pub(crate) fn put_rows(alloc: Global, out: &mut Vec<u8>, rows: &[Row]) -> Result<(), AllocError>
    ensures { OnOk result (out.new.items ≡ out.old.items ++ rows_json rows.now) }
{
    out.extend_from_slice(b"[")?;
    let mut comma: &[u8] = b"";
    for row in rows {
        out.extend_from_slice(comma)?;
        put_row(alloc, out, row)?;
        comma = b",";
    }
    out.extend_from_slice(b"]")
}
