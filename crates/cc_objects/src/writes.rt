//! What a writing command makes of the own value of a node: one slot changes (CCC, max register, abort flag and set).
ghost use Rattle.std.specs.Prelude.{◌≡◌, ◌↔◌, true, false, max, IsErr, IfOk};
ghost use Rattle.cc_views.specs.NatSets as set;

use crate::set_full::SetFull;
use cc_views::{NumberSet, Text, Value};

/// The value with this text.
pub fn write_text(value: &Value, text: Text) -> Value
    ensures { result ≡ record value.now { text = text } }
{
    Value { text, ..*value }
}

/// The value with the larger of its maximum and this number.
pub fn write_max(value: &Value, number: u64) -> Value
    ensures { result ≡ record value.now { max = max value.now.max number } }
{
    Value {
        max: value.max.max(number),
        ..*value
    }
}

/// The value with its flag set.
pub fn set_flag(value: &Value) -> Value
    ensures { result ≡ record value.now { flag = true } }
{
    Value {
        flag: true,
        ..*value
    }
}

/// The value with this number in its set. Refused where the set has 32 others.
pub fn add_member(value: &Value, number: u32) -> Result<Value, SetFull>
    ensures full { IsErr result ↔ ((set.len value.now.set ≡ 32) × (set.contains value.now.set number ≡ false)) }
    ensures added { IfOk result (λ v. v ≡ record value.now { set = set.insert value.now.set number }) }
{
    let mut set = value.set;
    if set.len() == NumberSet::MAX_LEN && !set.contains(number) {
        return Err(SetFull);
    }
    set.insert(number);
    Ok(Value { set, ..*value })
}
