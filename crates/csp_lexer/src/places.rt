//! Places in a text.

ghost use Rattle.std.specs.Prelude.{◌≡◌};
ghost use Rattle.csp_lexer.specs.Places.{beginning, behind, behind_all};

use csp_base::Place;

// Where a text begins.
pub(crate) fn text_start() -> Place
    ensures { result ≡ beginning }
{
    Place { line: 1, column: 1 }
}

// The place behind a byte.
fn behind(at: Place, byte: u8) -> Place
    ensures { result ≡ behind at byte }
{
    if byte == b'\n' {
        Place {
            line: at.line.saturating_add(1),
            column: 1,
        }
    } else {
        Place {
            line: at.line,
            column: at.column.saturating_add(1),
        }
    }
}

// The place behind some bytes.
pub(crate) fn behind_all(at: Place, bytes: &[u8]) -> Place
    ensures { result ≡ behind_all at bytes.now }
{
    bytes.iter().fold(at, |place, byte| behind(place, *byte))
}
