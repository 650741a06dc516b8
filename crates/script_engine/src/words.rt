//! How a line is cut into words, and which words name roots and sessions.
ghost use Rattle.std.specs.Prelude.{◌≡◌, ◌==◌, ◌∷◌, [], false, true, IfOk, MatchOption, length, map, take, drop, codes, nat_eq, bytes_eq};
ghost use Rattle.std.specs.List.{list_all, starts_with};
ghost use Rattle.script_engine.specs.Words.{is_plain, is_word, words_of, is_root, is_letter, is_digit, is_name_byte, has_kept_prefix, begins_with_letter, is_session_name, is_hex, uuid_groups, is_uuid, is_identifier};

use std::alloc::{AllocError, Global};

/// How many words the longest form has.
const MAX_WORDS: usize = 5;

/// The greatest length of a root's name, in bytes.
const MAX_ROOT_LEN: usize = 4096;

/// The greatest length of a session's name, in bytes.
const MAX_SESSION_NAME_LEN: usize = 64;

/// How long `sync_` and `fwrd_` are, with which an identifier begins.
const KEPT_PREFIX_LEN: usize = 5;

/// How long each group of a UUID is, in digits.
const UUID_GROUPS: [usize; 5] = [8, 4, 4, 4, 12];

/// The first six parts of a line between its spaces, whatever they hold: no form has more than five words,
/// so a sixth shows that the line is none.
///
/// Memory: room for six parts. Cost: up to the sixth space.
pub fn first_words(alloc: Global, line: &str) -> Result<Vec<&str>, AllocError>
    ensures { IfOk result (λ words. map (λ word. word.now) words.items ≡ take 6 (words_of line.now)) }
{
    line.split(' ').take(MAX_WORDS + 1).collect(alloc)
}

/// Whether this is a word: one or more bytes from 0x21 to 0x7E, without `%`.
pub fn is_word(word: &str) -> bool
    ensures { result ≡ is_word word.now }
{
    !word.is_empty() && has_plain_bytes(word.as_bytes())
}

fn has_plain_bytes(bytes: &[u8]) -> bool
    ensures { result ≡ list_all is_plain bytes.now }
{
    bytes.iter().all(|b| is_plain(*b))
}

// Whether a word may hold this byte.
fn is_plain(b: u8) -> bool
    ensures { result ≡ is_plain b }
{
    0x21 <= b && b <= 0x7e && b != b'%'
}

/// Whether a word may name a root: at most 4,096 bytes, which don't begin as an option does.
pub fn is_root(word: &str) -> bool
    ensures { result ≡ is_root word.now }
{
    word.len() <= MAX_ROOT_LEN && !word.starts_with("--")
}

/// Whether a word may name a session: a letter, then letters, digits, `-` and `_`, at most 64 in all,
/// which don't begin as an identifier does.
pub fn is_session_name(word: &str) -> bool
    ensures { result ≡ is_session_name word.now }
{
    let bytes = word.as_bytes();
    begins_with_letter(bytes)
        && has_name_bytes(bytes)
        && bytes.len() <= MAX_SESSION_NAME_LEN
        && !has_kept_prefix(word)
}

fn begins_with_letter(bytes: &[u8]) -> bool
    ensures { result ≡ begins_with_letter bytes.now }
{
    match bytes {
        [] => false,
        [first, ..] => is_letter(*first),
    }
}

fn has_name_bytes(bytes: &[u8]) -> bool
    ensures { result ≡ list_all is_name_byte bytes.now }
{
    bytes.iter().all(|b| is_name_byte(*b))
}

fn is_letter(b: u8) -> bool
    ensures { result ≡ is_letter b }
{
    (b'A' <= b && b <= b'Z') || (b'a' <= b && b <= b'z')
}

fn is_digit(b: u8) -> bool
    ensures { result ≡ is_digit b }
{
    b'0' <= b && b <= b'9'
}

// Whether a session's name may hold this byte behind its first.
fn is_name_byte(b: u8) -> bool
    ensures { result ≡ is_name_byte b }
{
    is_letter(b) || is_digit(b) || b == b'-' || b == b'_'
}

// Whether a word begins as an identifier does.
fn has_kept_prefix(word: &str) -> bool
    ensures { result ≡ has_kept_prefix word.now }
{
    word.starts_with("sync_") || word.starts_with("fwrd_")
}

/// Whether a word is the identifier of a session or of a forwarding session: `sync_` or `fwrd_`, and a UUID.
pub fn is_identifier(word: &str) -> bool
    ensures { result ≡ is_identifier word.now }
{
    has_kept_prefix(word) && is_uuid(&word.as_bytes()[KEPT_PREFIX_LEN..])
}

// Whether this is a UUID: groups of 8, 4, 4, 4 and 12 lower-case hexadecimal digits between hyphens.
fn is_uuid(text: &[u8]) -> bool
    ensures { result ≡ is_uuid text.now }
{
    has_group_lengths(text) && has_hex_groups(text)
}

fn has_group_lengths(text: &[u8]) -> bool
    ensures { result ≡ bytes_eq (map length (uuid_groups text.now)) (8 ∷ 4 ∷ 4 ∷ 4 ∷ 12 ∷ []) }
{
    text.split(|b| *b == b'-')
        .map(|group| group.len())
        .eq(UUID_GROUPS.iter().copied())
}

fn has_hex_groups(text: &[u8]) -> bool
    ensures { result ≡ list_all (list_all is_hex) (uuid_groups text.now) }
{
    text.split(|b| *b == b'-').all(|group| has_hex_bytes(group))
}

fn has_hex_bytes(bytes: &[u8]) -> bool
    ensures { result ≡ list_all is_hex bytes.now }
{
    bytes.iter().all(|b| is_hex(*b))
}

fn is_hex(b: u8) -> bool
    ensures { result ≡ is_hex b }
{
    is_digit(b) || (b'a' <= b && b <= b'f')
}

/// What stands behind a prefix, if the text begins with it.
pub fn behind<'a>(text: &'a str, prefix: &str) -> Option<&'a str>
    ensures { MatchOption result (starts_with nat_eq text.now prefix.now ≡ false) (λ rest. (starts_with nat_eq text.now prefix.now ≡ true) × (rest.now ≡ drop (length prefix.now) text.now)) }
{
    text.strip_prefix(prefix)
}
