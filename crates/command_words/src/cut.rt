//! A word that is cut at a byte.
ghost use Rattle.std.specs.Prelude.{◌≡◌, ◌==◌, true, Some, MatchOption};
ghost use Rattle.std.specs.List.{position};
ghost use Rattle.command_words.specs.Cuts.{has_no, IsCut};

// Where the byte stands first.
fn place_of(word: &[u8], b: u8) -> Option<usize>
    ensures { result ≡ position (λ c. c == b) word.now }
{
    word.iter().position(|c| *c == b)
}

/// What stands before the first such byte and what stands behind it, if it stands in the word. Cost: the length of the word.
pub(crate) fn cut(word: &[u8], b: u8) -> Option<(&[u8], &[u8])>
    ensures { MatchOption result (has_no b word.now ≡ true) (λ cut. IsCut b word.now cut.0.now cut.1.now) }
{
    match place_of(word, b) {
        Some(at) => Some(cut_at(word, b, at)),
        None => None,
    }
}

// What stands before this place and what stands behind it.
fn cut_at(word: &[u8], b: u8, at: usize) -> (&[u8], &[u8])
    requires { position (λ c. c == b) word.now ≡ Some at }
    ensures { IsCut b word.now result.0.now result.1.now }
{
    let (front, _) = word.split_at(at);
    let (_, back) = word.split_at(at + 1);
    (front, back)
}
