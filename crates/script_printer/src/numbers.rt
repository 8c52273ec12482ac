//! Numbers in decimal.

ghost use Rattle.std.specs.Prelude.{◌≡◌, ◌++◌, ◌+◌, ◌<◌, [], ◌∷◌, OnOk, decimal};

use csp_base::{Bytes, Made};

// Adds one digit.
fn put_digit(text: &mut Bytes, digit: u8) -> Made<()>
    requires { digit < 10 }
    ensures { OnOk result (text.new ≡ text.old ++ (48 + digit) ∷ []) }
{
    text.push(b'0' + digit)
}

// Adds the number in decimal.
#[tactic(auto, using(std::proofs::lemmas::Fmt::decimal_digit, std::proofs::lemmas::Fmt::decimal_step))]
pub(crate) fn put_decimal(text: &mut Bytes, number: u32) -> Made<()>
    ensures { OnOk result (text.new ≡ text.old ++ decimal number) }
{
    if number < 10 {
        return put_digit(text, number as u8);
    }
    put_decimal(text, number / 10)?;
    put_digit(text, (number % 10) as u8)
}
