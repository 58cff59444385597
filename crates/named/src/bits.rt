//! Conditions of a descriptor, as words with bars between them.
ghost use Rattle.std.specs.Prelude.{◌≡◌, true, false, MatchOption};
ghost use Rattle.std.specs.List.{before_first, after_first};
ghost use Rattle.named.specs.Leaf.{bit, bits, bits_in, both, has_bar, is_bar};

/// How many words are read at most.
const MOST: u32 = 32;

/// The bits of words with bars between them, as `IN|HUP`; an empty text has none.
pub(crate) fn bits(text: &str) -> Option<u64>
    ensures { result ≡ bits text.now }
{
    if text.is_empty() {
        return Some(0);
    }
    bits_in(MOST, text)
}

/// The bits of at most so many words with bars between them; none where one of them is no condition of a descriptor.
#[tactic(auto, using(crate::proofs::BitWords::bits_none, crate::proofs::BitWords::bits_step))]
fn bits_in(most: u32, text: &str) -> Option<u64>
    ensures { result ≡ bits_in most text.now }
{
    if most == 0 {
        return None;
    }
    match at_bar(text) {
        Some((word, more)) => both(bit(word), bits_in(most - 1, more)),
        None => bit(text),
    }
}

/// What stands before and behind the first bar.
fn at_bar(text: &str) -> Option<(&str, &str)>
    ensures { MatchOption result (has_bar text.now ≡ false) (λ x. (has_bar text.now ≡ true) × (x.0.now ≡ before_first is_bar text.now) × (x.1.now ≡ after_first is_bar text.now)) }
{
    text.split_once('|')
}

/// The bits of the first word and of those behind it together, where both are conditions.
fn both(first: Option<u64>, second: Option<u64>) -> Option<u64>
    ensures { result ≡ both first second }
{
    Some(first? | second?)
}

/// The bit of one condition, as 1 of `IN`.
fn bit(word: &str) -> Option<u64>
    ensures { result ≡ bit word.now }
{
    match word {
        "IN" => Some(1),
        "PRI" => Some(2),
        "OUT" => Some(4),
        "ERR" => Some(8),
        "HUP" => Some(16),
        "NVAL" => Some(32),
        _ => None,
    }
}
