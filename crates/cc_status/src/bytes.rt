//! Bytes at the end of an answer.

ghost use Rattle.std.specs.Prelude.{◌≡◌, take, OnOk, OnErr, IsOk, IsErr};
ghost use Rattle.cc_status.specs.Writers.{Writes};

use cc_views::NoMemory;
use std::alloc::AllocError;

pub(crate) fn put_bytes(out: &mut Vec<u8>, bytes: &[u8]) -> Result<(), AllocError>
    ensures { Writes out.old out.new bytes.now result }
{
    out.extend_from_slice(bytes)
}

// How a write ends that began where `out` had `start` bytes: where it failed, what stands behind them is taken away.
pub(crate) fn settled(
    out: &mut Vec<u8>,
    start: usize,
    put: Result<(), AllocError>,
) -> Result<(), NoMemory>
    ensures ok { OnOk put (IsOk result × (out.new.items ≡ out.old.items)) }
    ensures err { OnErr put (IsErr result × (out.new.items ≡ take start out.old.items)) }
{
    if put.is_err() {
        out.truncate(start);
        return Err(NoMemory);
    }
    Ok(())
}
