//! Answers as JSON, each in a line of its own. A number that may exceed 2^53 is a string, so that every reader of JSON keeps it.

use base64::engine::general_purpose::STANDARD;
use cc_messages::{Answer, Refusal};
use cc_views::{Row, Text, View};
use serde::{Described, Serialize, Serializer};
use std::alloc::{AllocError, Global};
use std::io;

// A number that may exceed 2^53, as a string of its digits.
#[derive(Clone, Copy)]
struct Digits(u64);

impl Described for Digits {}

impl Serialize for Digits {
    fn serialize<S: Serializer>(&self, out: &mut S) -> Result<(), S::Error> {
        out.collect_str(&self.0)
    }
}

// An answer, under the name that `play` prints, and what it carries.
#[derive(Clone, Copy, Serialize)]
struct JsonAnswer<'a> {
    answer: &'static str,
    #[serde(skip_serializing_if = "Option::is_none")]
    view: Option<&'a [JsonRow<'a>]>,
    #[serde(skip_serializing_if = "Option::is_none")]
    max: Option<Digits>,
    #[serde(skip_serializing_if = "Option::is_none")]
    flag: Option<bool>,
    #[serde(skip_serializing_if = "Option::is_none")]
    set: Option<&'a [u32]>,
    #[serde(skip_serializing_if = "Option::is_none")]
    collects: Option<u64>,
}

impl JsonAnswer<'_> {
    // One that carries nothing.
    fn named(answer: &'static str, collects: Option<u64>) -> Self {
        JsonAnswer {
            answer,
            view: None,
            max: None,
            flag: None,
            set: None,
            collects,
        }
    }
}

// What a node stored last. Its text stands as it is where it is UTF-8, else in Base64.
#[derive(Drop, Serialize)]
struct JsonRow<'a> {
    node: u32,
    number: Digits,
    #[serde(skip_serializing_if = "Option::is_none")]
    text: Option<&'a str>,
    #[serde(skip_serializing_if = "Option::is_none")]
    text_base64: Option<String>,
    max: Digits,
    flag: bool,
    set: &'a [u32],
}

// Why a request was refused: the refusal's name, its number, and what it carries, else 0.
#[derive(Clone, Copy, Serialize)]
struct JsonRefusal<'a> {
    refused: &'a str,
    number: u8,
    carries: Digits,
}

/// An answer as JSON, with how many collects a snapshot took. The only error is a refused growth.
pub fn json_of_answer(alloc: Global, answer: &Answer, collects: Option<u64>) -> io::Result<String> {
    let json = match answer {
        Answer::Stored => JsonAnswer::named("Stored", collects),
        Answer::Seen(view) => return json_of_view(alloc, view, collects),
        Answer::Max(max) => JsonAnswer {
            max: Some(Digits(*max)),
            ..JsonAnswer::named("Max", collects)
        },
        Answer::Flag(flag) => JsonAnswer {
            flag: Some(*flag),
            ..JsonAnswer::named("Flag", collects)
        },
        Answer::Set(numbers) => JsonAnswer {
            set: Some(numbers.as_slice()),
            ..JsonAnswer::named("Set", collects)
        },
    };
    written(alloc, &json)
}

fn json_of_view(alloc: Global, view: &View, collects: Option<u64>) -> io::Result<String> {
    let rows = json_rows(alloc, view.rows())?;
    let answer = JsonAnswer {
        view: Some(rows.as_slice()),
        ..JsonAnswer::named("Seen", collects)
    };
    let json = written(alloc, &answer);
    drop(rows);
    json
}

fn json_rows<'a>(alloc: Global, rows: &'a [Row]) -> Result<Vec<JsonRow<'a>>, AllocError> {
    let mut json = Vec::new(alloc);
    for row in rows {
        push_row(alloc, &mut json, row)?;
    }
    Ok(json)
}

fn push_row<'a>(
    alloc: Global,
    json: &mut Vec<JsonRow<'a>>,
    row: &'a Row,
) -> Result<(), AllocError> {
    let row = JsonRow {
        node: row.node.number(),
        number: Digits(row.number),
        text: utf8_of(&row.value.text),
        text_base64: base64_of(alloc, &row.value.text)?,
        max: Digits(row.value.max),
        flag: row.value.flag,
        set: row.value.set.as_slice(),
    };
    json.push(row).or(Err(AllocError))
}

fn utf8_of(text: &Text) -> Option<&str> {
    str::from_utf8(text.as_bytes()).ok()
}

// None for a text that is UTF-8.
fn base64_of(alloc: Global, text: &Text) -> Result<Option<String>, AllocError> {
    match utf8_of(text) {
        Some(_) => Ok(None),
        None => Ok(Some(STANDARD.encode(alloc, text.as_bytes())?)),
    }
}

/// A refusal as JSON. The only error is a refused growth.
pub fn json_of_refusal(alloc: Global, why: Refusal) -> io::Result<String> {
    let printed = format!(in alloc; "{why}")?;
    let refused = printed.split(' ').nth(1).unwrap_or("");
    let refusal = JsonRefusal {
        refused,
        number: why.number(),
        carries: Digits(why.value()),
    };
    let json = written(alloc, &refusal);
    drop(printed);
    json
}

fn written<T: Serialize>(alloc: Global, value: &T) -> io::Result<String> {
    match serde_json::to_string(alloc, value) {
        Ok(text) => Ok(text),
        Err(_) => Err(AllocError.into()),
    }
}
