//! The connection to a peer, to which the flusher writes what the socket takes at once, and the peer's writer the rest.

ghost use Rattle.std.specs.Prelude.{◌≤◌};

use crate::at_once::write_at_once;
use crate::send_buffer::SendBuffer;
use cc_policies::{Parcel, WRITE_BYTES};
use cc_views::NodeId;
use std::alloc::Global;
use std::net::TcpStream;
use std::sync::Arc;

/// The connection to a peer, if there is one, and what is to be written to it.
#[derive(Drop)]
pub struct PeerSocket {
    alloc: Global,
    stream: Option<Arc<TcpStream>>,
    buffer: SendBuffer,
    // The writer has bytes to write. Nobody else writes meanwhile.
    is_writing: bool,
}

impl PeerSocket {
    /// No connection.
    pub fn new(alloc: Global) -> Self {
        PeerSocket {
            alloc,
            stream: None,
            buffer: SendBuffer::new(),
            is_writing: false,
        }
    }

    /// The peer is connected to. Nothing waits from before.
    pub fn connect(&mut self, stream: Arc<TcpStream>) {
        self.disconnect();
        self.stream = Some(stream);
    }

    /// The peer isn't connected to any longer. What waits is lost.
    pub fn disconnect(&mut self) {
        self.stream = None;
        self.buffer = SendBuffer::new();
        self.is_writing = false;
    }

    /// Whether the peer is connected to, and its socket has taken all that was put.
    pub fn is_idle(&self) -> bool {
        self.stream.is_some() && self.buffer.is_empty() && !self.is_writing
    }

    /// Puts a parcel of the node `me` behind all else, and writes where much waits. Whether the writer is to write.
    pub fn put(&mut self, me: NodeId, parcel: Parcel) -> bool {
        if self.stream.is_none() {
            drop(parcel);
            return false;
        }
        let _ = self.buffer.put(self.alloc, parcel);
        self.buffer.len() >= WRITE_BYTES && self.write(me)
    }

    /// Writes what the socket takes at once of all that waits, unless the writer writes. Whether that is to write the rest.
    pub fn write(&mut self, me: NodeId) -> bool {
        if self.is_writing {
            return false;
        }
        let Some(stream) = &self.stream else {
            return false;
        };
        let Ok(Some(bytes)) = self.buffer.take(me) else {
            return false;
        };
        let written = write_at_once(stream, bytes.as_slice());
        self.is_writing = self.buffer.keep(bytes, written);
        self.is_writing
    }

    /// What the writer is to write next. None where there is nothing: from then on others write.
    pub fn next(&mut self, me: NodeId) -> Option<Vec<u8>> {
        if !self.is_writing {
            return None;
        }
        let next = self.buffer.take(me).ok().flatten();
        self.is_writing = next.is_some();
        next
    }
}
