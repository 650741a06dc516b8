//! A byte as two hexadecimal digits.
ghost use Rattle.std.specs.Prelude.{◌≡◌, ◌<◌, IfSome};
ghost use Rattle.line_words.specs.Numbers.{byte_value};
ghost use Rattle.line_words.specs.Spelling.{pair_value, unless_plain};

use crate::escape::{digit_value, is_plain};

/// The byte that a word of two hexadecimal digits writes, in either case. None exactly where the word is anything else.
pub fn read_byte(word: &[u8]) -> Option<u8>
    ensures { result ≡ byte_value word.now }
{
    match word {
        [high, low] => pair_value(digit_value(*high), digit_value(*low)),
        _ => None,
    }
}

// The byte of the numbers of two digits.
pub(crate) fn pair_value(high: Option<u8>, low: Option<u8>) -> Option<u8>
    requires high { IfSome high (λ d. d < 16) }
    requires low { IfSome low (λ d. d < 16) }
    ensures { result ≡ pair_value high low }
{
    match (high, low) {
        (Some(high), Some(low)) => Some(16 * high + low),
        _ => None,
    }
}

// The byte, where it must be escaped.
pub(crate) fn unless_plain(b: Option<u8>) -> Option<u8>
    ensures { result ≡ unless_plain b }
{
    match b {
        Some(b) if !is_plain(b) => Some(b),
        _ => None,
    }
}
