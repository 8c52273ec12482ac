//! Words of a text: how long the one at the front is, and which of them are reserved.

ghost use Rattle.std.specs.Prelude.{◌≡◌, ◌≤◌, ℕ, List, ◌∷◌, None, false, length, IsTrue};
ghost use Rattle.csp_lexer.specs.Prelude.{is_foreign, is_name, reserved_word, word_len, word_rest_len};

use crate::classes::{Class, bytes_of, is_letter};
use csp_text::{Word, word_text};

// How many bytes of the text may follow the first letter of a word.
fn word_rest_len(text: &[u8]) -> usize
    ensures value { result ≡ word_rest_len text.now }
    ensures within { result ≤ length text.now }
{
    let names = bytes_of(Class::Name, text);
    names + bytes_of(Class::Prime, &text[names..])
}

// How many bytes the longest word at the front of the text has, or 0 where the text begins with none.
#[tactic(auto, unfolding(crate::specs::WordTokens::word_len))]
pub(crate) fn word_len(text: &[u8]) -> usize
    ensures value { result ≡ word_len text.now }
    ensures within { result ≤ length text.now }
{
    match text.split_first() {
        Some((first, rest)) if is_letter(*first) => 1 + word_rest_len(rest),
        _ => 0,
    }
}

// Whether a word that this or a larger language reserves may begin with these two bytes.
#[tactic(auto, unfolding(crate::specs::WordTokens::reserved_word, crate::specs::Words::is_foreign))]
fn may_begin_word(first: u8, second: u8) -> bool
    ensures reserved { (result ≡ false) → (rest : List ℕ) → reserved_word (first ∷ second ∷ rest) ≡ None }
    ensures foreign { (result ≡ false) → (rest : List ℕ) → is_foreign (first ∷ second ∷ rest) ≡ false }
{
    match first {
        b'a' => matches!(second, b'n' | b's'),
        b'c' => second == b'h',
        b'd' => matches!(second, b'a' | b'i'),
        b'e' => matches!(second, b'l' | b'x'),
        b'f' => second == b'a',
        b'i' => matches!(second, b'f' | b'n'),
        b'l' => matches!(second, b'a' | b'e'),
        b'm' => second == b'o',
        b'n' => matches!(second, b'a' | b'o'),
        b'o' => second == b'r',
        b'p' => second == b'r',
        b's' => second == b'u',
        b't' => matches!(second, b'h' | b'i' | b'r'),
        b'u' => second == b'n',
        b'w' => second == b'i',
        b'S' => matches!(second, b'T' | b'K'),
        _ => false,
    }
}

// Whether two bytes at the front tell that the word is a name, as they mostly do: no reserved word is shorter.
pub(crate) fn is_plain(word: &[u8]) -> bool
    ensures reserved { IsTrue result → reserved_word word.now ≡ None }
    ensures foreign { IsTrue result → is_foreign word.now ≡ false }
{
    match word {
        [first, second, ..] => !may_begin_word(*first, *second),
        _ => true,
    }
}

// The words that the language reserves.
const WORDS: [Word; 17] = [
    Word::And,
    Word::Assert,
    Word::Channel,
    Word::Datatype,
    Word::Diff,
    Word::Else,
    Word::False,
    Word::If,
    Word::Inter,
    Word::Nametype,
    Word::Not,
    Word::Or,
    Word::Then,
    Word::True,
    Word::Union,
    Word::Stop,
    Word::Skip,
];

// The reserved word that the bytes are.
pub(crate) fn reserved_word(bytes: &[u8]) -> Option<Word>
    ensures { result ≡ reserved_word bytes.now }
{
    if is_plain(bytes) {
        return None;
    }
    WORDS
        .iter()
        .find(|word| bytes == word_text(**word))
        .copied()
}

// The words that only a larger language reserves.
const FOREIGN_WORDS: [&[u8]; 10] = [
    b"external",
    b"include",
    b"lambda",
    b"let",
    b"module",
    b"print",
    b"subtype",
    b"timed",
    b"transparent",
    b"within",
];

// Whether only a larger language reserves the word.
pub(crate) fn is_foreign(word: &[u8]) -> bool
    ensures { result ≡ is_foreign word.now }
{
    if is_plain(word) {
        return false;
    }
    FOREIGN_WORDS.iter().any(|foreign| word == *foreign)
}

// Whether the bytes are a word that is not reserved.
#[tactic(auto, unfolding(crate::specs::WordTokens::is_name))]
pub(crate) fn is_name(bytes: &[u8]) -> bool
    ensures { result ≡ is_name bytes.now }
{
    0 < bytes.len()
        && word_len(bytes) == bytes.len()
        && reserved_word(bytes).is_none()
        && !is_foreign(bytes)
}
