//! Numbers among the words.

ghost use Rattle.std.specs.Prelude.{◌≡◌, ◌<◌, ◌↔◌, ℕ, EachIndex, IfNone, IfSome, IsTrue, slice_index};
ghost use Rattle.csp_base.specs.Standard.{decimal, IsInRange};
ghost use Rattle.command_words.specs.Numerals.{HasPlainFront, IsShortNumeral, numeral_value};

// Whether each byte is a decimal digit.
fn all_digits(word: &[u8]) -> bool
    ensures { IsTrue result ↔ EachIndex word.now (λ k. IsInRange 48 57 (slice_index word.now k)) }
{
    word.iter().all(|byte| matches!(*byte, b'0'..=b'9'))
}

// Whether there is a byte, and a zero stands first only where it is the only one.
fn has_plain_front(word: &[u8]) -> bool
    ensures { IsTrue result ↔ HasPlainFront word.now }
{
    match word {
        [] => false,
        [_] => true,
        [first, ..] => *first != b'0',
    }
}

// The number that the digits are.
fn value_of(digits: &[u8]) -> u32
    requires { numeral_value digits.now < 1000000 }
    ensures { result ≡ numeral_value digits.now }
{
    let mut number = 0;
    for digit in digits {
        number = number * 10 + u32::from(digit.saturating_sub(b'0'));
    }
    number
}

// Whether the word is of one to six digits, of which the first is a zero only where it is the only one.
fn is_short_numeral(word: &[u8]) -> bool
    ensures { IsTrue result ↔ IsShortNumeral word.now }
{
    word.len() <= 6 && has_plain_front(word) && all_digits(word)
}

// The number that the word is, where it is one to six decimal digits without a leading zero.
pub(crate) fn spelled_number(word: &[u8]) -> Option<u32>
    ensures number { IfSome result (λ n. (n < 1000000) × (word.now ≡ decimal n)) }
    ensures none { IfNone result ((n : ℕ) → n < 1000000 → word.now ≡ decimal n → ⊥) }
{
    if !is_short_numeral(word) {
        return None;
    }
    Some(value_of(word))
}
