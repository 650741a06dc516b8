//! The versions of payloads.
ghost use Rattle.std.specs.Prelude.{◌≡◌};
ghost use Rattle.frame_text.specs.Heads.{version_by, version_word};
ghost use Rattle.frame_text.specs.LineText.{fits};

use entry_tree::Atom;

/// The version of a payload, which is its first word.
#[derive(Clone, Copy, Debug, PartialEq, Eq)]
pub enum Version {
    /// `v1`: no file is executable.
    V1,
    /// `v2`: a file may be executable.
    V2,
}

// The version that a word writes.
pub(crate) fn version_by(word: &[u8]) -> Option<Version>
    ensures { result ≡ version_by word.now }
{
    if word == b"v1".as_slice() {
        return Some(Version::V1);
    }
    if word == b"v2".as_slice() {
        return Some(Version::V2);
    }
    None
}

impl Version {
    // Its word.
    pub(crate) fn word(self) -> &'static str
        ensures { result.now ≡ version_word self }
    {
        match self {
            Version::V1 => "v1",
            Version::V2 => "v2",
        }
    }
}

/// Whether a payload of the version may set the atom.
pub(crate) fn fits(version: Version, atom: &Atom) -> bool
    ensures { result ≡ fits version atom.now }
{
    match atom {
        Atom::Dir => true,
        Atom::File(_, executable) => match version {
            Version::V1 => !*executable,
            Version::V2 => true,
        },
        Atom::Link(_) => true,
        Atom::Untracked => false,
        Atom::Problem(_) => false,
    }
}
