//! Why nothing was read.

ghost use Rattle.std.specs.Prelude.{◌≡◌, length};
ghost use Rattle.csp_base.specs.declared.stop.Stop.TheVariants as stop;
ghost use Rattle.tree_reading.specs.Prelude.{Gives, sure};

use csp_base::Stop;
use csp_text::Token;

/// No text of what was to be read, within the limits, is in front.
#[derive(Clone, Copy)]
pub struct NoText {
    /// How many tokens are left where the reading stopped.
    pub left: usize,
}

/// What was read, or why nothing was.
pub type OrNoText<T> = Result<T, Stop<NoText>>;

/// The fault that no text is in front of these tokens.
pub fn no_text(tokens: &[Token]) -> Stop<NoText>
    ensures { result ≡ stop.Told (record { left = length tokens.now }) }
{
    Stop::Told(NoText { left: tokens.len() })
}

/// Stops the reading in front of the tokens unless the test holds.
pub fn expect_true(holds: bool, tokens: &[Token]) -> OrNoText<()>
    ensures { Gives result (λ _. tt) (sure holds) }
{
    if holds { Ok(()) } else { Err(no_text(tokens)) }
}
