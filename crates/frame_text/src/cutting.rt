//! The lines of a payload.
ghost use Rattle.std.specs.Prelude.{◌≡◌, ◌==◌, ◌≤◌, length};
ghost use Rattle.std.specs.List.{position};
ghost use Rattle.frame_text.specs.Payloads.{Cuts, newline};

/// The byte between two lines: LF.
const NEWLINE: u8 = b'\n';

// Where the first LF stands.
fn newline_at(bytes: &[u8]) -> Option<usize>
    ensures { result ≡ position (λ b. b == newline) bytes.now }
{
    bytes.iter().position(|b| *b == NEWLINE)
}

/// The line that begins at this byte, and where the next one begins. Cost: the length of the line.
pub(crate) fn cut(text: &[u8], at: usize) -> (&[u8], Option<usize>)
    requires { at ≤ length text.now }
    ensures { Cuts text.now at result.0.now result.1 }
{
    let (_, rest) = text.split_at(at);
    match newline_at(rest) {
        Some(len) => {
            let (line, _) = rest.split_at(len);
            (line, Some(at + len + 1))
        }
        None => (rest, None),
    }
}
