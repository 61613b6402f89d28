//! The names of clusters.

ghost use Rattle.std.specs.Prelude.{◌≡◌};
ghost use Rattle.cc_connections.specs.Clusters.{bad_byte, name_in, IsClusterName};

use crate::hosts::is_name_byte;
use cc_views::Text;
use std::fmt;
use std::marker::Model;

/// The name of a cluster: up to 64 letters, digits, `-`, `.` and `_`. A cluster without a name has that of no byte.
#[derive(Clone, Copy, PartialEq, Eq)]
pub struct ClusterName {
    text: Text,
}

/// Why a text is no name of a cluster.
#[derive(Clone, Copy, Debug, PartialEq, Eq)]
pub enum NameFault {
    /// It has more than 64 bytes.
    TooLong,
    /// The first byte that stands in no name.
    BadByte(u8),
}

impl Model for ClusterName {
    ghost use Rattle.std.specs.Prelude.{ℕ, List};
    ghost use Rattle.cc_connections.specs.Clusters.{IsClusterName};

    ghost Value = { List ℕ };

    ghost view = { λ n. n.text };

    ghost invariant = { λ n. IsClusterName n.text };

    ghost inverse = { λ bytes. record { text = bytes } };
}

impl ClusterName {
    /// How many bytes a name has at most.
    pub const MAX_LEN: usize = 64;

    /// The name that these bytes are. A name that is too long is told as that, whatever its bytes are.
    pub fn new(bytes: &[u8]) -> Result<Self, NameFault>
        ensures { result ≡ name_in bytes.now }
    {
        let Some(text) = Text::new(bytes) else {
            return Err(NameFault::TooLong);
        };
        match bad_byte(bytes) {
            Some(byte) => Err(NameFault::BadByte(byte)),
            None => Ok(ClusterName { text }),
        }
    }

    /// The bytes, as they were given.
    pub fn as_bytes(&self) -> &[u8]
        ensures bytes { result.now ≡ self.now }
        ensures named { IsClusterName self.now }
    {
        self.text.as_bytes()
    }
}

fn bad_byte(bytes: &[u8]) -> Option<u8>
    ensures { result ≡ bad_byte bytes.now }
{
    bytes.iter().copied().find(|byte| !is_name_byte(*byte))
}
