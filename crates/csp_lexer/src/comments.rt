//! Comments.

ghost use Rattle.std.specs.Prelude.{◌≡◌, ◌+◌, ◌<◌, ◌≤◌, ◌^◌, length, IfSome};
ghost use Rattle.std.specs.Option.{option_copied};
ghost use Rattle.csp_lexer.specs.Comments.{after_comments, line_len};

use crate::classes::{Class, bytes_of};

// How many bytes the text has up to its first line feed.
#[tactic(auto, unfolding(crate::specs::Comments::line_len))]
pub(crate) fn line_len(text: &[u8]) -> usize
    ensures value { result ≡ line_len text.now }
    ensures within { result ≤ length text.now }
{
    bytes_of(Class::Line, text)
}

// How many comments are open behind the first mark or byte of the text, and what is left of it.
fn pass_mark(nested: usize, text: &[u8]) -> (usize, &[u8])
    requires positive { 0 < nested }
    requires long { 2 ≤ length text.now }
    requires bounded { nested + length text.now < 2 ^ 64 }
    ensures value { after_comments result.0 result.1.now ≡ after_comments nested text.now }
    ensures shorter { length result.1.now < length text.now }
    ensures bounded { result.0 + length result.1.now ≤ nested + length text.now }
{
    if text.starts_with(b"{-") {
        return (nested + 1, &text[2..]);
    }
    if text.starts_with(b"-}") {
        return (nested - 1, &text[2..]);
    }
    (nested, &text[1..])
}

// What is left of the text once the comment is closed that is open at its front, or `None` where it is not closed.
pub(crate) fn after_comment(text: &[u8]) -> Option<&[u8]>
    ensures value { option_copied result ≡ after_comments 1 text.now }
    ensures within { IfSome result (λ rest. length rest.now ≤ length text.now) }
{
    let mut nested = 1;
    let mut rest = text;
    while 0 < nested {
        if rest.len() < 2 {
            return None;
        }
        let (now_nested, left) = pass_mark(nested, rest);
        nested = now_nested;
        rest = left;
    }
    Some(rest)
}
