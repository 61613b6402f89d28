//! Zeros ahead: where a record makes its side longer, zeros go behind its gate, so that the records after it overwrite bytes
//! that are there, and a sync of theirs makes no file longer.

ghost use Rattle.std.specs.Prelude.{◌≡◌, ◌≤◌, ◌<◌, ◌+◌, ◌%◌, ◌^◌};
ghost use Rattle.cc_journal.specs.Journals.{room_limit, zeros_ahead};

/// Below how many bytes of a side there is room for a record.
pub const ROOM_LIMIT: u64 = 1 << 61;

/// How many zeros go behind a record whose gate ends at `end`, on a side that has `used` bytes: up to the next multiple of
/// the stride. None where the record ends within the side, nor where a side that is so long would have no room for a
/// further record.
pub fn zeros_ahead(stride: u64, used: u64, end: u64) -> u64
    requires stride { 1 ≤ stride }
    requires fits { end + stride < 2 ^ 64 }
    ensures zeros { result ≡ zeros_ahead stride used end }
    ensures few { result < stride }
    ensures within { end ≤ used → result ≡ 0 }
    ensures to_multiple { used < end → end + stride ≤ room_limit → (end + result) % stride ≡ 0 }
    ensures room { end < room_limit → end + result < room_limit }
{
    let zeros = (stride - end % stride) % stride;
    if end > used && end + zeros < ROOM_LIMIT {
        zeros
    } else {
        0
    }
}
