//! The ASCII bytes of names and labels.
ghost use Rattle.std.specs.Prelude.{◌≡◌, IsTrue, true};
ghost use Rattle.std.specs.List.{list_all};
ghost use Rattle.command_words.specs.Ascii.{is_digit, is_label_byte, is_letter, is_name_byte};

/// Whether the byte is a letter.
pub(crate) fn is_letter(b: u8) -> bool
    ensures { result ≡ is_letter b }
{
    (b'A' <= b && b <= b'Z') || (b'a' <= b && b <= b'z')
}

// Whether the byte is a digit.
fn is_digit(b: u8) -> bool
    ensures { result ≡ is_digit b }
{
    b'0' <= b && b <= b'9'
}

// Whether the byte is a letter, a digit, `-` or `_`.
fn is_name_byte(b: u8) -> bool
    ensures { result ≡ is_name_byte b }
{
    is_letter(b) || is_digit(b) || b == b'-' || b == b'_'
}

// Whether the byte is one of these or `.`.
fn is_label_byte(b: u8) -> bool
    ensures { result ≡ is_label_byte b }
{
    is_name_byte(b) || b == b'.'
}

/// Whether each byte is a letter, a digit, `-` or `_`.
pub(crate) fn has_name_bytes(word: &[u8]) -> bool
    ensures value { result ≡ list_all is_name_byte word.now }
    ensures label { IsTrue result → list_all is_label_byte word.now ≡ true }
{
    are_name_bytes(word)
}

// Whether each byte is one of these.
fn are_name_bytes(word: &[u8]) -> bool
    ensures { result ≡ list_all is_name_byte word.now }
{
    word.iter().all(|b| is_name_byte(*b))
}

/// Whether each byte is a letter, a digit, `-`, `_` or `.`.
pub(crate) fn has_label_bytes(word: &[u8]) -> bool
    ensures { result ≡ list_all is_label_byte word.now }
{
    word.iter().all(|b| is_label_byte(*b))
}

/// A word of such bytes as text. Cost: its length.
pub(crate) fn as_text(word: &[u8]) -> &str
    requires { list_all is_label_byte word.now ≡ true }
    ensures { result.now ≡ word.now }
{
    match str::from_utf8(word) {
        Ok(text) => text,
        Err(_) => unreachable!(),
    }
}
