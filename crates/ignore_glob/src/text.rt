//! A text, a character at a time.
ghost use Rattle.std.specs.Prelude.{◌≡◌, ◌∷◌, ◌<◌, ◌≤◌, [], MatchOption, IfSome, length};
ghost use Rattle.std.specs.Str.{chars};
ghost use Rattle.ignore_glob.specs.Grammar.{begins_with, take_off, ends_with, take_off_end};
ghost use Rattle.ignore_glob.specs.Reading.{CutsFirst};

/// The first character of a text, and the text behind it. It takes no memory.
pub(crate) fn split_char(text: &str) -> Option<(char, &str)>
    ensures cut { MatchOption result (text.now ≡ []) (λ cut. chars text.now ≡ cut.0 ∷ chars cut.1.now) }
    ensures shorter { IfSome result (λ cut. length cut.1.now < length text.now) }
{
    let mut chars = text.chars();
    match chars.next() {
        Some(c) => Some((c, chars.as_str())),
        None => None,
    }
}

/// Whether a text begins with this ASCII character, and the text without it. It takes no memory.
pub(crate) fn take_off(text: &str, c: char) -> (bool, &str)
    requires { c < 128 }
    ensures begins { result.0 ≡ begins_with c text.now }
    ensures rest { result.1.now ≡ take_off c text.now }
    ensures shorter { length result.1.now ≤ length text.now }
{
    match text.strip_prefix(c) {
        Some(rest) => (true, rest),
        None => (false, text),
    }
}

/// Whether a text ends with this ASCII character, and the text without it. It takes no memory.
pub(crate) fn take_off_end(text: &str, c: char) -> (bool, &str)
    requires { c < 128 }
    ensures ends { result.0 ≡ ends_with c text.now }
    ensures rest { result.1.now ≡ take_off_end c text.now }
    ensures shorter { length result.1.now ≤ length text.now }
{
    match text.strip_suffix(c) {
        Some(rest) => (true, rest),
        None => (false, text),
    }
}

/// The text up to the first `/`, and what is behind that, if there is one. It takes no memory.
pub(crate) fn cut_first(text: &str) -> (&str, Option<&str>)
    ensures { CutsFirst text.now result.0.now result.1 }
{
    match text.split_once('/') {
        Some((first, behind)) => (first, Some(behind)),
        None => (text, None),
    }
}
