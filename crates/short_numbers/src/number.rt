//! A number from its digits.
ghost use Rattle.std.specs.Prelude.{◌≡◌, ℕ, IfSome, Some};
ghost use Rattle.std.specs.List.{list_all};
ghost use Rattle.std.specs.Char.{is_ascii_digit};
ghost use Rattle.short_numbers.specs.Number.{IsNumber};

/// How many digits a number has at most.
const MOST_DIGITS: usize = 9;

/// The number that a word of 1 to 9 decimal digits tells; none of another word.
pub fn number_of(word: &str) -> Option<u32>
    ensures number { IfSome result (λ n. IsNumber word.now n) }
    ensures exact { (n : ℕ) → IsNumber word.now n → result ≡ Some n }
{
    let digits = word.as_bytes();
    if digits.len() > MOST_DIGITS || !are_digits(digits) {
        return None;
    }
    word.parse::<u32>().ok()
}

/// Whether all bytes are decimal digits.
fn are_digits(bytes: &[u8]) -> bool
    ensures { result ≡ list_all is_ascii_digit bytes.now }
{
    bytes.iter().all(|b| b.is_ascii_digit())
}
