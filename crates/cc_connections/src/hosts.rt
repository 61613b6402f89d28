//! Machines, by their IPs or by their names.

ghost use Rattle.std.specs.Prelude.{◌≡◌, ◌↔◌, IsSome, IfSome};
ghost use Rattle.std.specs.List.{list_all};
ghost use Rattle.std.specs.Char.{is_ascii_digit};
ghost use Rattle.cc_connections.specs.Hosts.{is_name_byte, last_label, IsHostName, host_name};

use std::net::IpAddr;
use std::{fmt, str};

/// A machine: its IP, or a name that is looked up whenever it is connected to.
#[derive(Clone, Copy, Debug, PartialEq, Eq)]
pub enum Host {
    Ip(IpAddr),
    Name(HostName),
}

/// The name of a machine: up to 253 letters, digits, `-`, `.` and `_`, and not digits alone behind the last dot.
#[derive(Clone, Copy, PartialEq, Eq)]
pub struct HostName {
    // Zero from `len` on.
    bytes: [u8; HostName::MAX_LEN],
    len: usize,
}

impl HostName {
    /// How many bytes a name has at most.
    pub const MAX_LEN: usize = 253;

    /// None where it is no name of a machine.
    pub fn new(name: &str) -> Option<Self>
        ensures some { IsSome result ↔ IsHostName name.now }
        ensures name { IfSome result (λ n. host_name n ≡ name.now) }
    {
        let len = name.len();
        if len > Self::MAX_LEN || !has_name_bytes(name) || is_number(last_label(name)) {
            return None;
        }
        let mut bytes = [0; Self::MAX_LEN];
        bytes[..len].copy_from_slice(name.as_bytes());
        Some(HostName { bytes, len })
    }

    /// The name, as it was given.
    pub fn as_str(&self) -> &str
        ensures { IsHostName (host_name self.now) → result.now ≡ host_name self.now }
    {
        let len = self.len.min(self.bytes.len());
        match str::from_utf8(&self.bytes[..len]) {
            Ok(name) => name,
            Err(_) => "",
        }
    }
}

impl fmt::Debug for HostName {
    fn fmt<W: fmt::Write>(&self, f: &mut fmt::Formatter<W>) -> fmt::Result {
        f.write_str(self.as_str())
    }
}

impl fmt::Display for HostName {
    fn fmt<W: fmt::Write>(&self, f: &mut fmt::Formatter<W>) -> fmt::Result {
        f.write_str(self.as_str())
    }
}

fn has_name_bytes(name: &str) -> bool
    ensures { result ≡ list_all is_name_byte name.now }
{
    name.as_bytes().iter().all(|byte| is_name_byte(*byte))
}

pub(crate) fn is_name_byte(byte: u8) -> bool
    ensures { result ≡ is_name_byte byte }
{
    byte.is_ascii_alphanumeric() || byte == b'-' || byte == b'.' || byte == b'_'
}

// What follows the last dot, and all where there is none.
fn last_label(name: &str) -> &str
    ensures { result.now ≡ last_label name.now }
{
    match name.rsplit_once('.') {
        Some((_, label)) => label,
        None => name,
    }
}

// Whether these are digits alone, or nothing.
fn is_number(label: &str) -> bool
    ensures { result ≡ list_all is_ascii_digit label.now }
{
    label.as_bytes().iter().all(|byte| byte.is_ascii_digit())
}
