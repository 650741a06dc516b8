//! How an atom is spelt.
ghost use Rattle.std.specs.Prelude.{◌≡◌, ◌++◌, OnOk, IfOk, string_bytes};
ghost use Rattle.entry_tree.specs.AtomText.{spelling_of};
ghost use Rattle.entry_tree.specs.declared.atom.Atom.TheVariants.{File, Link, Problem};

use crate::atom::Atom;
use crate::digest::Digest;
use crate::problem_kind::ProblemKind;
use crate::text::Text;
use line_words::{write_next_word, write_word};
use std::alloc::{AllocError, Global};

/// Spells an atom: `dir`, `file` and the digest as 64 lower-case hexadecimal digits and `x` behind them where it is executable,
/// `link` and `=` with the link's text, `untracked`, or `problem` and its number from 1 to 3. The words stand as in a line: escaped,
/// with one space between. `read_atom` reads what is written.
///
/// Cost: the length of the spelling.
pub fn text_of(alloc: Global, atom: &Atom) -> Result<String, AllocError>
    ensures { IfOk result (λ text. string_bytes text ≡ spelling_of atom.now) }
{
    let mut text = String::new(alloc);
    write_atom(&mut text, atom)?;
    Ok(text)
}

/// Writes the spelling of an atom behind a text, as at `text_of`. Cost: the length of the spelling.
pub fn write_atom(text: &mut String, atom: &Atom) -> Result<(), AllocError>
    ensures { OnOk result (string_bytes text.new ≡ string_bytes text.old ++ spelling_of atom.now) }
{
    match atom {
        Atom::Dir => text.push_str("dir"),
        Atom::File(digest, executable) => write_file(text, digest, *executable),
        Atom::Link(link) => write_link(text, link),
        Atom::Untracked => text.push_str("untracked"),
        Atom::Problem(kind) => write_problem(text, *kind),
    }
}

// `file`, the digest's digits and, where it is executable, `x`.
fn write_file(text: &mut String, digest: &Digest, executable: bool) -> Result<(), AllocError>
    ensures { OnOk result (string_bytes text.new ≡ string_bytes text.old ++ spelling_of (File digest.now executable)) }
{
    text.push_str("file")?;
    write_next_word(text, &digest.digits())?;
    if executable {
        return write_next_word(text, b"x");
    }
    Ok(())
}

// `link`, and `=` with the text.
fn write_link(text: &mut String, link: &Text) -> Result<(), AllocError>
    ensures { OnOk result (string_bytes text.new ≡ string_bytes text.old ++ spelling_of (Link link.now)) }
{
    text.push_str("link =")?;
    write_word(text, link.as_str().as_bytes())
}

// `problem` and its number.
fn write_problem(text: &mut String, kind: ProblemKind) -> Result<(), AllocError>
    ensures { OnOk result (string_bytes text.new ≡ string_bytes text.old ++ spelling_of (Problem kind)) }
{
    text.push_str("problem")?;
    write_next_word(text, &kind.digit())
}
