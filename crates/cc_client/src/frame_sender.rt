//! Frames on their way to a node, and the time that an answer has.

use crate::deadline::Deadline;
use crate::silence::Silence;
use cc_connections::{Address, ConnectFault, Frame, encode_frame};
use cc_policies::ReceivedFrames;
use std::alloc::Global;
use std::io::Write;
use std::net::{Net, TcpStream};
use std::thread;
use std::time::{Clock, Duration};

// How long one try to connect takes at most, and how long a client pauses between two, in milliseconds.
const CONNECT_MS: u64 = 1000;

const PAUSE_MS: u64 = 200;

/// Pauses before the next try, and no longer than the deadline.
pub fn pause<R: Clock>(rt: &R, deadline: &Deadline) {
    if let Some(pause) = within(rt, deadline, PAUSE_MS) {
        thread::sleep(rt, pause);
    }
}

// So many milliseconds, or what is left of the deadline. None once it is over.
fn within<R: Clock>(rt: &R, deadline: &Deadline, millis: u64) -> Option<Duration> {
    Some(deadline.left(rt)?.min(Duration::from_millis(millis)))
}

/// A connection to a node, which is made within a second and before the deadline is over; else why none is. Where it is written by
/// a name, that is looked up first, and each of several places has that time.
pub fn connect<R: Net<Stream = TcpStream> + Clock>(
    rt: &R,
    address: &Address,
    deadline: &Deadline,
) -> Result<TcpStream, Silence> {
    let Some(patience) = within(rt, deadline, CONNECT_MS) else {
        return Err(Silence::Mute(*address));
    };
    match cc_connections::connect(rt, address, patience) {
        Ok(stream) => {
            let _ = stream.set_nodelay(true);
            Ok(stream)
        }
        Err(fault) => Err(silence_of(fault, *address)),
    }
}

fn silence_of(fault: ConnectFault, address: Address) -> Silence {
    match fault {
        ConnectFault::Unknown => Silence::Unknown(address),
        ConnectFault::Refused => Silence::Closed(address),
        ConnectFault::Mute => Silence::Mute(address),
    }
}

/// Sends a frame. None where that fails.
pub fn send(alloc: Global, stream: &TcpStream, frame: &Frame) -> Option<()> {
    let mut bytes = Vec::new(alloc);
    encode_frame(frame, &mut bytes).ok()?;
    let mut to = stream;
    to.write_all(bytes.as_slice()).ok()
}

/// The next frame that comes before the deadline is over. None where none does, or the connection breaks.
pub fn receive<R: Clock>(
    rt: &R,
    stream: &TcpStream,
    incoming: &mut ReceivedFrames<&TcpStream>,
    deadline: &Deadline,
) -> Option<Frame> {
    let left = deadline.left(rt)?;
    stream.set_read_timeout(Some(left)).ok()?;
    incoming.read_frame().ok()
}
