//! Two numbers with a slash between them.

ghost use Rattle.std.specs.Prelude.{◌≡◌, MatchOption};
ghost use Rattle.cc_command_line.specs.Words.{NoFraction, fraction_word};

use crate::numbers::small_number;
use cc_changes::Fraction;

/// The numbers below 2^32 that a word is: in plain decimal digits without leading zeros, with a slash between them. None
/// for any other word. Whether they are a share of the whole is up to the node that they are for.
pub fn fraction(word: &str) -> Option<Fraction>
    ensures { MatchOption result (NoFraction word.now) (λ f. word.now ≡ fraction_word f) }
{
    let (num, den) = word.split_once('/')?;
    Some(Fraction {
        num: small_number(num)?,
        den: small_number(den)?,
    })
}
