//! The spelling of bytes: how they are written, and how they are read.
ghost use Rattle.std.specs.Prelude.{◌≡◌, ◌++◌, ◌∷◌, ◌<◌, ℕ, List, length, IfOk, OnOk, OnErr, string_bytes};
ghost use Rattle.line_words.specs.Spelling.{space, escaped, spelled, unescaped, stands, is_plain, upper_digit, upper_value, digit_value, escape_value};
ghost use Rattle.line_words.specs.Steps.{Fits, TakesByte, Unescapes};

use crate::byte::{pair_value, unless_plain};
use crate::reading::Reading;
use std::alloc::{AllocError, Global};

/// The byte with which an escape begins.
const PERCENT: u8 = b'%';

// Whether a writer writes the byte as itself.
pub(crate) fn is_plain(b: u8) -> bool
    ensures { result ≡ is_plain b }
{
    0x21 <= b && b <= 0x7E && b != PERCENT
}

// Whether the byte stands for itself.
pub(crate) fn stands(reading: Reading, b: u8) -> bool
    ensures { result ≡ stands reading b }
{
    match reading {
        Reading::Free => 0x21 <= b && b != 0x7F && b != PERCENT,
        Reading::Canonical => is_plain(b),
    }
}

// The upper-case digit of a number below 16.
fn upper_digit(d: u8) -> u8
    requires { d < 16 }
    ensures { result ≡ upper_digit d }
{
    if d < 10 { b'0' + d } else { b'A' - 10 + d }
}

/// Writes a word as a line has it: a byte from 0x21 to 0x7E other than `%` as itself, every other as `%` and two upper-case
/// hexadecimal digits. An empty word adds nothing, and a line can't hold it.
///
/// Where memory runs out, the text begins as it did. Cost: the length of the word.
pub fn write_word(text: &mut String, word: &[u8]) -> Result<(), AllocError>
    ensures written { OnOk result (string_bytes text.new ≡ string_bytes text.old ++ escaped word.now) }
    ensures kept { OnErr result ((more : List ℕ) × (string_bytes text.new ≡ string_bytes text.old ++ more)) }
{
    for b in word {
        write_byte(text, *b)?;
    }
    Ok(())
}

// Writes the spelling of one byte.
fn write_byte(text: &mut String, b: u8) -> Result<(), AllocError>
    ensures written { OnOk result (string_bytes text.new ≡ string_bytes text.old ++ spelled b) }
    ensures kept { OnErr result ((more : List ℕ) × (string_bytes text.new ≡ string_bytes text.old ++ more)) }
{
    if is_plain(b) {
        return text.push(b as char);
    }
    text.push('%')?;
    text.push(upper_digit(b / 16) as char)?;
    text.push(upper_digit(b % 16) as char)
}

/// Writes a space and then a word, as it stands behind another in a line.
///
/// Where memory runs out, the text begins as it did. Cost: the length of the word.
pub fn write_next_word(text: &mut String, word: &[u8]) -> Result<(), AllocError>
    ensures written { OnOk result (string_bytes text.new ≡ string_bytes text.old ++ space ∷ escaped word.now) }
    ensures kept { OnErr result ((more : List ℕ) × (string_bytes text.new ≡ string_bytes text.old ++ more)) }
{
    text.push(' ')?;
    write_word(text, word)
}

// The number of an upper-case hexadecimal digit.
fn upper_value(c: u8) -> Option<u8>
    ensures { result ≡ upper_value c }
{
    match c {
        b'0'..=b'9' => Some(c - b'0'),
        b'A'..=b'F' => Some(c - b'A' + 10),
        _ => None,
    }
}

// The number of a hexadecimal digit in either case.
pub(crate) fn digit_value(c: u8) -> Option<u8>
    ensures { result ≡ digit_value c }
{
    match c {
        b'a'..=b'f' => Some(c - b'a' + 10),
        _ => upper_value(c),
    }
}

// The byte that two digits stand for behind a `%`.
fn escape_value(reading: Reading, high: u8, low: u8) -> Option<u8>
    ensures { result ≡ escape_value reading high low }
{
    match reading {
        Reading::Free => pair_value(digit_value(high), digit_value(low)),
        Reading::Canonical => unless_plain(pair_value(upper_value(high), upper_value(low))),
    }
}

// The first byte that a spelling stands for, and the spelling of the others.
fn take_byte(reading: Reading, spelling: &[u8]) -> Option<(u8, &[u8])>
    requires { 0 < length spelling.now }
    ensures { TakesByte reading spelling.now result }
{
    match spelling {
        [b, rest @ ..] if stands(reading, *b) => Some((*b, rest)),
        [PERCENT, high, low, rest @ ..] => {
            let b = escape_value(reading, *high, *low)?;
            Some((b, rest))
        }
        _ => None,
    }
}

// The bytes that a spelling stands for.
pub(crate) fn unescape(
    alloc: Global,
    reading: Reading,
    spelling: &[u8],
) -> Result<Option<Vec<u8>>, AllocError>
    ensures { IfOk result (Unescapes reading spelling.now) }
{
    let mut bytes = Vec::with_capacity(alloc, spelling.len())?;
    let mut rest = spelling;
    while !rest.is_empty() {
        let Some((b, behind)) = take_byte(reading, rest) else {
            return Ok(None);
        };
        bytes.push(b)?;
        rest = behind;
    }
    Ok(Some(bytes))
}

// Writes the bytes that a spelling stands for to the beginning of `room`, and gives their number. None where it's no spelling, or
// where `room` is too short for them.
pub(crate) fn unescape_into(reading: Reading, spelling: &[u8], room: &mut [u8]) -> Option<usize>
    ensures fits { Fits (unescaped reading spelling.now) room.new result }
    ensures room { length room.new ≡ length room.old }
{
    let mut len = 0;
    let mut rest = spelling;
    while !rest.is_empty() {
        let (b, behind) = take_byte(reading, rest)?;
        if len == room.len() {
            return None;
        }
        room[len] = b;
        len += 1;
        rest = behind;
    }
    Some(len)
}
