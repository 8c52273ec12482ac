//! Classes of bytes, and how many bytes of one a text begins with.

ghost use Rattle.std.specs.Prelude.{◌≡◌, ◌≤◌, length};
ghost use Rattle.std.specs.List.{prefix_len};
ghost use Rattle.csp_lexer.specs.Prelude.{is_space, is_of, is_letter, is_name_byte};

/// A class of bytes.
#[derive(Clone, Copy)]
pub enum Class {
    /// Letters, digits and underscores.
    Name,
    /// The prime.
    Prime,
    /// Digits.
    Digit,
    /// What a line is made of.
    Line,
}

// Whether the byte divides the words of a line.
pub(crate) fn is_space(b: u8) -> bool
    ensures { result ≡ is_space b }
{
    b == b' ' || b == b'\t' || b == b'\r'
}

// Whether the byte is a letter.
pub(crate) fn is_letter(b: u8) -> bool
    ensures { result ≡ is_letter b }
{
    matches!(b, b'A'..=b'Z' | b'a'..=b'z')
}

// Whether the byte is a letter, a digit or an underscore.
fn is_name_byte(b: u8) -> bool
    ensures { result ≡ is_name_byte b }
{
    is_letter(b) || matches!(b, b'0'..=b'9') || b == b'_'
}

// Whether the byte is of the class.
fn is_of(class: Class, b: u8) -> bool
    ensures { result ≡ is_of class b }
{
    match class {
        Class::Name => is_name_byte(b),
        Class::Prime => b == b'\'',
        Class::Digit => matches!(b, b'0'..=b'9'),
        Class::Line => b != b'\n',
    }
}

// How many bytes of the class the text begins with.
pub(crate) fn bytes_of(class: Class, text: &[u8]) -> usize
    ensures value { result ≡ prefix_len (is_of class) text.now }
    ensures within { result ≤ length text.now }
{
    text.iter().take_while(|b| is_of(class, **b)).count()
}
