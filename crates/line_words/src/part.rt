//! The parts of a line between its spaces.
ghost use Rattle.std.specs.Prelude.{◌≡◌, ◌==◌, ◌≤◌, [], length, MatchOption};
ghost use Rattle.std.specs.List.{position};
ghost use Rattle.line_words.specs.Lines.{is_skipped};
ghost use Rattle.line_words.specs.Spelling.{space};
ghost use Rattle.line_words.specs.Steps.{Cuts, IsNext, IsWithin, left_of};

use crate::reading::Reading;

/// A part of a line: the byte at which it begins, its bytes, and where the next one begins.
#[derive(Drop)]
pub(crate) struct Part<'a> {
    pub place: usize,
    pub bytes: &'a [u8],
    pub next: Option<usize>,
}

// Where the first space stands.
fn space_at(bytes: &[u8]) -> Option<usize>
    ensures { result ≡ position (λ b. b == space) bytes.now }
{
    bytes.iter().position(|b| *b == b' ')
}

// The part that begins at this byte, and where the next one begins.
fn cut(line: &[u8], at: usize) -> (&[u8], Option<usize>)
    requires { at ≤ length line.now }
    ensures { Cuts line.now at result.0.now result.1 }
{
    let (_, rest) = line.split_at(at);
    match space_at(rest) {
        Some(len) => {
            let (bytes, _) = rest.split_at(len);
            (bytes, Some(at + len + 1))
        }
        None => (rest, None),
    }
}

// Whether a part is passed over.
fn is_skipped(reading: Reading, part: &[u8]) -> bool
    ensures { result ≡ is_skipped reading part.now }
{
    match reading {
        Reading::Free => part.is_empty(),
        Reading::Canonical => false,
    }
}

// The next part that isn't passed over.
pub(crate) fn next_part(reading: Reading, line: &[u8], from: Option<usize>) -> Option<Part<'_>>
    requires { IsWithin line.now from }
    ensures { MatchOption result (left_of reading line.now from ≡ []) (IsNext reading line.now from) }
{
    let mut next = from;
    while let Some(place) = next {
        let (bytes, behind) = cut(line, place);
        if !is_skipped(reading, bytes) {
            return Some(Part {
                place,
                bytes,
                next: behind,
            });
        }
        next = behind;
    }
    None
}
