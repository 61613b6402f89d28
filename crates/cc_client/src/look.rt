//! A look at a node.

use crate::fault::LookFault;
use crate::fetch::{Place, fetch};
use crate::head::{body_of, reason_of};
use crate::status::Status;
use crate::table::Table;
use cc_command_line::{AnswerForm, HarmlessJson, StatusOrder};
use cc_connections::Address;
use cc_policies::{REASON_SECONDS, STATUS_SECONDS};
use serde_json::Value;
use std::alloc::Global;
use std::io;
use std::io::Write;
use std::net::{Net, TcpStream};
use std::time::Clock;

// Why a node isn't ready that has laid out nothing yet.
const STARTING: &str = "it has just been started";

/// How a look at a node ended.
#[derive(Clone, Copy, PartialEq, Eq)]
pub struct Look {
    /// The status to end with: 0 where the node is ready, else 1.
    pub status: u8,
    /// Why nothing is known of it.
    pub fault: Option<LookFault>,
}

/// Asks a node what it tells of itself, and prints that as a table, or as JSON in a line; `no answer` where nothing came, or
/// something else.
pub fn look_at<R: Net<Stream = TcpStream> + Clock, W: Write>(
    rt: &R,
    alloc: Global,
    order: &StatusOrder,
    output: &mut W,
) -> io::Result<Look> {
    let place = Place {
        address: &order.address,
        page: "/status.json",
        patience: STATUS_SECONDS,
    };
    let looked = match fetch(rt, alloc, &place) {
        Ok(answer) => print_answer(alloc, order, &answer, output)?,
        Err(fault) => Err(fault),
    };
    match looked {
        Ok(is_ready) => Ok(Look {
            status: u8::from(!is_ready),
            fault: None,
        }),
        Err(fault) => print_fault(fault, output),
    }
}

/// Why the node at an address, where it tells its status, isn't ready. None where it is, or no reason comes within a second or
/// two.
pub fn reason_at<R: Net<Stream = TcpStream> + Clock>(
    rt: &R,
    alloc: Global,
    address: &Address,
) -> Option<String> {
    let place = Place {
        address,
        page: "/readyz",
        patience: REASON_SECONDS,
    };
    let answer = fetch(rt, alloc, &place).ok()?;
    String::from_str(alloc, reason_of(&answer)?).ok()
}

fn print_fault<W: Write>(fault: LookFault, output: &mut W) -> io::Result<Look> {
    writeln!(output, "no answer")?;
    output.flush()?;
    Ok(Look {
        status: 1,
        fault: Some(fault),
    })
}

// Prints what came. Whether the node is ready.
fn print_answer<W: Write>(
    alloc: Global,
    order: &StatusOrder,
    answer: &[u8],
    output: &mut W,
) -> io::Result<Result<bool, LookFault>> {
    let Some(text) = text_of(answer) else {
        return Ok(Err(fault_of(order, answer)));
    };
    match Value::from_str(alloc, text) {
        Ok(value) => print_value(order, text, &value, output),
        Err(_) => Ok(Err(LookFault::Other(order.address))),
    }
}

// Why an answer is no status.
fn fault_of(order: &StatusOrder, answer: &[u8]) -> LookFault {
    match reason_of(answer) {
        Some(STARTING) => LookFault::Starting(order.address),
        _ => LookFault::Other(order.address),
    }
}

fn print_value<W: Write>(
    order: &StatusOrder,
    text: &str,
    value: &Value,
    output: &mut W,
) -> io::Result<Result<bool, LookFault>> {
    match Status::of(value) {
        Some(status) => print_status(order.form, text, &status, output),
        None => Ok(Err(LookFault::Other(order.address))),
    }
}

fn text_of(answer: &[u8]) -> Option<&str> {
    str::from_utf8(body_of(answer)?).ok()
}

fn print_status<W: Write>(
    form: AnswerForm,
    text: &str,
    status: &Status<'_>,
    output: &mut W,
) -> io::Result<Result<bool, LookFault>> {
    match form {
        AnswerForm::Plain => write!(output, "{}", Table(*status))?,
        AnswerForm::Json => writeln!(output, "{}", HarmlessJson(text.trim_ascii()))?,
    }
    output.flush()?;
    Ok(Ok(status.is_ready))
}
