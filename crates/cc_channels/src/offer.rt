//! Putting something on a channel without waiting.

use crossbeam_channel::{Sender, TrySendError};
use std::sync::Wait;

// How often a channel is asked again that says it is full, and isn't.
const MOST_TRIES: u64 = 1000;

/// Puts a value on a channel, without waiting for room. Whether it was put there. A channel may say for a moment that it is full
/// while somebody takes something out of it: then it is asked again.
pub fn offer<R: Wait, T: Drop>(rt: &R, to: &Sender<T>, value: T) -> bool {
    let mut value = value;
    for _ in 0..MOST_TRIES {
        match to.try_send(rt, value) {
            Ok(()) => return true,
            Err(TrySendError::Full(back)) => {
                if to.is_full() {
                    drop(back);
                    return false;
                }
                value = back;
            }
            Err(error) => {
                drop(error);
                return false;
            }
        }
    }
    drop(value);
    false
}
