//! The writer of a connection, and the clocks.

use cc_policies::WRITE_BYTES;
use crossbeam_channel::Receiver;
use std::alloc::AllocError;
use std::io::Write;
use std::sync::Wait;
use std::sync::atomic::{AtomicU64, Ordering};
use std::time::Clock;

/// Writes what comes out of the channel, until its senders are gone, a write fails or there is no memory. It takes what it
/// has written off the count of bytes that wait.
pub fn write_frames<R: Wait, W: Write + Drop>(
    rt: &R,
    from: &Receiver<Vec<u8>>,
    mut to: W,
    waiting: &AtomicU64,
) {
    for _ in rt.forever() {
        let Ok(mut batch) = from.recv(rt) else {
            return;
        };
        if gather(rt, from, &mut batch).is_err() || to.write_all(batch.as_slice()).is_err() {
            return;
        }
        waiting.fetch_sub(batch.len() as u64, Ordering::SeqCst);
    }
    unreachable!()
}

// Adds what waits in the channel already.
fn gather<R: Wait>(
    rt: &R,
    from: &Receiver<Vec<u8>>,
    batch: &mut Vec<u8>,
) -> Result<(), AllocError> {
    for _ in 0..WRITE_BYTES {
        if batch.len() >= WRITE_BYTES {
            break;
        }
        let Ok(bytes) = from.try_recv(rt) else {
            break;
        };
        batch.extend_from_slice(bytes.as_slice())?;
    }
    Ok(())
}

/// The moment by the machine's clock, in milliseconds since 1970, and 1 where it can't be read.
pub fn millis<R: Clock>(rt: &R) -> u64 {
    match rt.since_1970() {
        Ok(since) => u64::try_from(since.as_millis()).unwrap_or(u64::MAX).max(1),
        Err(_) => 1,
    }
}

/// The moment by the machine's clock that never goes back, in milliseconds, and 1 where it can't be read.
pub fn monotonic_millis<R: Clock>(rt: &R) -> u64 {
    match rt.monotonic() {
        Ok(since) => u64::try_from(since.as_millis()).unwrap_or(u64::MAX).max(1),
        Err(_) => 1,
    }
}
