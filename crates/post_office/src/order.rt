//! The letters of a tick in one order, by sender and number.
ghost use Rattle.std.specs.Prelude.{IfOk, IsPermutation};
ghost use Rattle.post_office.specs.Order.{InOrder};

use crate::letter::Letter;
use crate::memory::OutOfMemory;
use std::alloc::Global;

/// The same letters by sender, and those of one sender by number. Where no two have both alike, that is one order, whatever
/// the one before was (the law `order_is_one`).
pub fn merge(_alloc: Global, letters: Vec<Letter>) -> Result<Vec<Letter>, OutOfMemory>
    ensures letters { IfOk result (λ merged. IsPermutation letters.items merged.items) }
    ensures order { IfOk result (λ merged. InOrder merged.items) }
{
    let mut merged = letters;
    merged.sort_by_key(|letter| (letter.sender, letter.number))?;
    Ok(merged)
}
