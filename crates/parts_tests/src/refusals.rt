//! What a call leaves that is refused memory, and what a fault says. `make refused-growths` counts what is told here.

use std::fmt::Display;
use std::process::Abort;

/// What a call answered. Where it failed, what it was to leave as it was is looked at, and the test ends.
pub(crate) fn unless_failed<R: Abort, T, E: Drop>(
    rt: &R,
    answer: Result<T, E>,
    is_as_before: bool,
) -> T {
    match answer {
        Ok(value) => value,
        Err(fault) => {
            drop(fault);
            let told = if is_as_before {
                "failed, and all is as it was"
            } else {
                "failed, and something has changed"
            };
            panic!(rt; "{told}")
        }
    }
}

/// Whether that is what a fault says.
pub(crate) fn says<R: Abort + AllocGlobal, F: Display>(rt: &R, fault: &F, wanted: &str) -> bool {
    let text = format!(in rt.alloc(); "{fault}").expect(rt, "a text");
    text.as_str() == wanted
}
