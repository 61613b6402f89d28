//! Numbers joined by commas.

ghost use Rattle.std.specs.Prelude.{◌≡◌, map, IfOk, MatchOption};
ghost use Rattle.std.specs.Fmt.{decimal};
ghost use Rattle.cc_command_line.specs.Words.{NoList, NoNumbers, SpellsList};

use crate::numbers::small_number;
use std::alloc::{AllocError, Global};

/// The numbers below 2^32, one or more, that a word is: each in plain decimal digits without leading zeros, with a comma
/// between each two. None for any other word.
pub fn list(alloc: Global, word: &str) -> Result<Option<Vec<u32>>, AllocError>
    ensures { IfOk result (λ o. MatchOption o (NoList word.now) (λ v. SpellsList word.now v.items)) }
{
    let parts: Vec<&str> = word.split(',').collect(alloc)?;
    numbers(alloc, &parts)
}

// The numbers that words are. None where one is none.
fn numbers(alloc: Global, words: &[&str]) -> Result<Option<Vec<u32>>, AllocError>
    ensures { IfOk result (λ o. MatchOption o (NoNumbers (map (λ w. w.now) words.now)) (λ v. map (λ w. w.now) words.now ≡ map decimal v.items)) }
{
    let mut numbers = Vec::new(alloc);
    for word in words {
        let Some(number) = small_number(word) else {
            return Ok(None);
        };
        numbers.push(number)?;
    }
    Ok(Some(numbers))
}
