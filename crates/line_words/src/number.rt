//! Numbers in decimal.
ghost use Rattle.std.specs.Prelude.{◌≡◌, ◌↔◌, ◌≤◌, ◌<◌, ◌^◌, ℕ, Some, decimal, true};
ghost use Rattle.line_words.specs.Numbers.{is_bare};

/// The number that a word writes in decimal, if it is at most `most`: without a sign, and without a zero before other digits.
///
/// It takes no memory. Cost: the length of the word.
pub fn read_number(word: &[u8], most: u64) -> Option<u64>
    ensures { (n : ℕ) → (result ≡ Some n) ↔ ((n ≤ most) × (word.now ≡ decimal n)) }
{
    let n = read_any(word)?;
    if n <= most { Some(n) } else { None }
}

/// The same of a number of 32 bits.
pub fn read_u32(word: &[u8], most: u32) -> Option<u32>
    ensures { (n : ℕ) → (result ≡ Some n) ↔ ((n ≤ most) × (word.now ≡ decimal n)) }
{
    let n = read_number(word, most as u64)?;
    Some(n as u32)
}

/// The same of a number of bytes or of items.
pub fn read_usize(word: &[u8], most: usize) -> Option<usize>
    ensures { (n : ℕ) → (result ≡ Some n) ↔ ((n ≤ most) × (word.now ≡ decimal n)) }
{
    let n = read_number(word, most as u64)?;
    Some(n as usize)
}

// Whether the word begins with no `+`, and with no `0` before other bytes.
fn is_bare(word: &[u8]) -> bool
    ensures { result ≡ is_bare word.now }
{
    match word {
        [b'+', ..] => false,
        [b'0', _, ..] => false,
        _ => true,
    }
}

// The number below 2^64 that a word writes in decimal.
fn read_any(word: &[u8]) -> Option<u64>
    ensures { (n : ℕ) → (result ≡ Some n) ↔ ((n < 2 ^ 64) × (word.now ≡ decimal n)) }
{
    if !is_bare(word) {
        return None;
    }
    match str::from_utf8(word) {
        Ok(text) => parse(text),
        Err(_) => None,
    }
}

// The number of a bare text.
fn parse(text: &str) -> Option<u64>
    requires { is_bare text.now ≡ true }
    ensures { (n : ℕ) → (result ≡ Some n) ↔ ((n < 2 ^ 64) × (text.now ≡ decimal n)) }
{
    match text.parse::<u64>() {
        Ok(n) => Some(n),
        Err(_) => None,
    }
}
