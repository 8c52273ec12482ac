//! The rest of an assertion's line.

ghost use Rattle.std.specs.Prelude.{◌≡◌, ◌<◌, ◌≤◌, [], length, IfOk, IfSome, Ok, Err, MatchOption};
ghost use Rattle.std.specs.Option.{option_copied};
ghost use Rattle.csp_lexer.specs.Prelude.{cut_line, ends_line, line_front, rest_len, Passed};
ghost use Rattle.csp_base.specs.declared.place.Place.{Place as PlaceValue};

use crate::classes::is_space;
use crate::places::behind_all;
use crate::scan::{Left, pass_token};
use crate::tokens::Tokens;
use csp_base::{Made, Place};
use std::alloc::Global;

// Whether the rest of an assertion's line ends here.
fn ends_line(text: &[u8]) -> bool
    ensures { result ≡ ends_line text.now }
{
    text.starts_with(b"\n") || text.starts_with(b"--") || text.starts_with(b"{-")
}

// How many bytes the rest of an assertion's line has.
pub(crate) fn rest_len(text: &[u8]) -> usize
    ensures value { result ≡ rest_len text.now }
    ensures within { result ≤ length text.now }
{
    let mut len = 0;
    while len < text.len() {
        if ends_line(&text[len..]) {
            return len;
        }
        len += 1;
    }
    len
}

// Passes the blank or the token at the front of the rest of an assertion's line.
#[tactic(auto, using(std::proofs::lemmas::List::take_rest), unfolding(crate::specs::AssertionPieces::line_front))]
fn pass_on_line<'a>(text: &'a [u8], at: Place, found: &mut Tokens) -> Left<'a>
    requires { 0 < length text.now }
    ensures passed { IfOk result (λ left. Passed (line_front at text.now) found.old found.new (option_copied left)) }
    ensures shorter { IfOk result (λ left. IfSome left (λ left. length left.now < length text.now)) }
{
    if is_space(text[0]) {
        return Ok(Some(&text[1..]));
    }
    pass_token(true, text, at, found)
}

// Passes the whole rest of an assertion's line. The result is the place of its end, or `None` where it is anything but blanks and tokens.
fn pass_all_on_line(line: &[u8], at: Place, found: &mut Tokens) -> Made<Option<Place>>
    requires { found.old.placed ≡ [] }
    ensures { IfOk result (λ end. MatchOption end
        ((fault : PlaceValue) × (cut_line at line.now ≡ Err fault))
        (λ end. cut_line at line.now ≡ Ok (record { placed = found.new.placed; end = end }))) }
{
    let mut at = at;
    let mut rest = line;
    while !rest.is_empty() {
        let Some(left) = pass_on_line(rest, at, found)? else {
            return Ok(None);
        };
        at = behind_all(at, &rest[..rest.len() - left.len()]);
        rest = left;
    }
    Ok(Some(at))
}

// The tokens of the rest of an assertion's line, or `None` where it is anything but blanks and tokens.
pub(crate) fn cut_line(alloc: Global, line: &[u8], at: Place) -> Made<Option<Tokens>>
    ensures { IfOk result (λ found. MatchOption found
        ((fault : PlaceValue) × (cut_line at line.now ≡ Err fault)) (λ cut. cut_line at line.now ≡ Ok cut)) }
{
    let mut found = Tokens::new(alloc, at);
    match pass_all_on_line(line, at, &mut found)? {
        Some(end) => Ok(Some(found.end_at(end))),
        None => Ok(None),
    }
}
