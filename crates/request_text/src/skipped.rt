//! Lines that ask for nothing.
ghost use Rattle.std.specs.Prelude.{◌≡◌};
ghost use Rattle.request_text.specs.Skipped.{is_skipped};

/// Whether a line has only spaces, or its first other byte is `#`. Such a line asks for nothing. It takes no memory.
///
/// Cost: the spaces before its first other byte.
pub fn is_skipped(line: &[u8]) -> bool
    ensures { result ≡ is_skipped line.now }
{
    for byte in line {
        if *byte != b' ' {
            return *byte == b'#';
        }
    }
    true
}
