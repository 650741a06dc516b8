//! Whether the parts of a pattern match the names of a path.
ghost use Rattle.std.specs.Prelude.{◌≡◌, ◌↔◌, ◌≤◌, IsTrue, false, length, drop};
ghost use Rattle.std.specs.List.{list_any};
ghost use Rattle.std.specs.Str.{chars};
ghost use Rattle.ignore_glob.specs.Matching.{is_span, FitsName, MatchesParts, MatchesSuffix};
ghost use Rattle.ignore_glob.specs.Stretch.{FindsReach, Reaches, names_of};

use crate::part_match::matches_name;
use crate::piece::Part;
use sync_path::{MAX_DEPTH, Path};

/// How far parts go along names up to the first that spans.
#[derive(Clone, Copy)]
enum Reach {
    /// They have none that spans, and match the names.
    Whole,
    /// They don't match them.
    Fails,
    /// They match them up to this name, and go on at this part behind the one that spans.
    Span(usize, usize),
}

/// Whether the part spans.
fn is_span(part: &Part) -> bool
    ensures { result ≡ is_span part.now }
{
    matches!(part, Part::Span)
}

/// Whether the part stands for this one name.
fn fits(part: &Part, name: &str) -> bool
    ensures { IsTrue result ↔ FitsName part.now name.now }
{
    match part {
        Part::Span => false,
        Part::Glob(glob) => matches_name(glob.as_slice(), name),
    }
}

/// Goes along the names from `at` on, one for each part from `from` on, up to the first that spans.
fn go_along(names: &[&str], at: usize, parts: &[Part], from: usize) -> Reach
    requires names_in { at ≤ length names.now }
    requires parts_in { from ≤ length parts.now }
    ensures { Reaches (names_of names.now) at parts.now from result }
{
    let mut next = at;
    for place in from..parts.len() {
        let part = &parts[place];
        if is_span(part) {
            return Reach::Span(next, place + 1);
        }
        if next == names.len() {
            return Reach::Fails;
        }
        if !fits(part, names[next]) {
            return Reach::Fails;
        }
        next += 1;
    }
    if next == names.len() {
        Reach::Whole
    } else {
        Reach::Fails
    }
}

/// Goes along the names from the first place on, `at` or behind it, from which the parts from `from` on reach the first that
/// spans, or the last name where none does.
///
/// Where they reach one that spans, only what is behind it is still open: a match further on leaves fewer names.
fn find_reach(names: &[&str], at: usize, parts: &[Part], from: usize) -> Reach
    requires names_in { at ≤ length names.now }
    requires parts_in { from ≤ length parts.now }
    ensures { FindsReach (names_of names.now) at parts.now from result }
{
    let mut at = at;
    loop {
        match go_along(names, at, parts, from) {
            Reach::Whole => return Reach::Whole,
            Reach::Span(name, part) => return Reach::Span(name, part),
            Reach::Fails => {
                if at == names.len() {
                    return Reach::Fails;
                }
                at += 1;
            }
        }
    }
}

/// Whether one of the parts spans.
fn has_span(parts: &[Part]) -> bool
    ensures { result ≡ list_any is_span parts.now }
{
    parts.iter().any(is_span)
}

/// Whether the parts from `from` on, of which none spans, match an end of the names from `at` on, which has as many names.
fn matches_end(names: &[&str], at: usize, parts: &[Part], from: usize) -> bool
    requires names_in { at ≤ length names.now }
    requires parts_in { from ≤ length parts.now }
    requires single { list_any is_span (drop from parts.now) ≡ false }
    ensures { IsTrue result ↔ MatchesSuffix is_span FitsName (drop at (names_of names.now)) (drop from parts.now) }
{
    let count = parts.len() - from;
    if names.len() - at < count {
        return false;
    }
    match go_along(names, names.len() - count, parts, from) {
        Reach::Whole => true,
        Reach::Fails => false,
        Reach::Span(_, _) => false,
    }
}

/// Whether the parts from `from` on match some end of the names from `at` on: what stands behind a part that
/// spans.
///
/// The parts behind the last that spans are compared with the last names alone. At most names times parts are matched.
fn matches_suffix(names: &[&str], at: usize, parts: &[Part], from: usize) -> bool
    requires names_in { at ≤ length names.now }
    requires parts_in { from ≤ length parts.now }
    ensures { IsTrue result ↔ MatchesSuffix is_span FitsName (drop at (names_of names.now)) (drop from parts.now) }
{
    let mut at = at;
    let mut from = from;
    while has_span(&parts[from..]) {
        match find_reach(names, at, parts, from) {
            Reach::Whole => return true,
            Reach::Fails => return false,
            Reach::Span(name, part) => {
                at = name;
                from = part;
            }
        }
    }
    matches_end(names, at, parts, from)
}

/// Whether the parts match all these names.
fn matches_names(parts: &[Part], names: &[&str]) -> bool
    ensures { IsTrue result ↔ MatchesParts (names_of names.now) parts.now }
{
    match go_along(names, 0, parts, 0) {
        Reach::Whole => true,
        Reach::Fails => false,
        Reach::Span(at, from) => matches_suffix(names, at, parts, from),
    }
}

/// Whether the parts match all names of the path. It takes no memory.
///
/// Cost: at most as many matches of a part and a name as names times parts.
pub(crate) fn matches_path(parts: &[Part], path: &Path) -> bool
    ensures { IsTrue result ↔ MatchesParts path.now parts.now }
{
    let mut names: [&str; MAX_DEPTH] = [""; MAX_DEPTH];
    let mut count = 0;
    for name in path.names() {
        names[count] = name;
        count += 1;
    }
    matches_names(parts, &names[..count])
}
