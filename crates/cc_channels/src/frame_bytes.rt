//! Frames as bytes of their own.

ghost use Rattle.std.specs.Prelude.{◌≡◌, IfOk};
ghost use Rattle.cc_connections.specs.Frames.{frame_spelling};

use cc_connections::{Frame, encode_frame};
use cc_views::NoMemory;
use std::alloc::Global;

/// The bytes of a frame.
pub fn bytes_of(alloc: Global, frame: &Frame) -> Result<Vec<u8>, NoMemory>
    ensures { IfOk result (λ v. v.items ≡ frame_spelling frame.now) }
{
    let mut bytes = Vec::new(alloc);
    encode_frame(frame, &mut bytes)?;
    Ok(bytes)
}
