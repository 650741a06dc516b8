//! The first line of a payload.
ghost use Rattle.std.specs.Prelude.{◌≡◌, ◌≤◌, ◌<◌, IfOk};
ghost use Rattle.frame_text.specs.Heads.{verb_by, verb_word, agree_by, reset_by, whole_by, head_by, version_of};

use crate::version::Version;

/// The greatest number of a run: the greatest of 32 bits.
pub const MAX_RUN: u64 = 4_294_967_295;

/// What a payload's first line says.
#[derive(Clone, Copy)]
pub(crate) enum Head {
    Agree {
        version: Version,
        run: u32,
        cycle: u64,
    },
    Reset(u64),
    Whole {
        run: u32,
        cycle: u64,
        served: u64,
    },
}

/// The second word of a payload.
#[derive(Clone, Copy)]
pub(crate) enum Verb {
    Agree,
    Reset,
    Whole,
}

// The verb that a word writes.
pub(crate) fn verb_by(word: &[u8]) -> Option<Verb>
    ensures { result ≡ verb_by word.now }
{
    if word == b"agree".as_slice() {
        return Some(Verb::Agree);
    }
    if word == b"reset".as_slice() {
        return Some(Verb::Reset);
    }
    if word == b"whole".as_slice() {
        return Some(Verb::Whole);
    }
    None
}

// A head `agree` with these numbers.
fn agree_by(version: Version, numbers: &[u64]) -> Option<Head>
    ensures { result ≡ agree_by version numbers.now }
{
    match numbers {
        [run, cycle] if *run <= MAX_RUN => Some(Head::Agree {
            version,
            run: *run as u32,
            cycle: *cycle,
        }),
        _ => None,
    }
}

// A head `reset` with these numbers.
fn reset_by(numbers: &[u64]) -> Option<Head>
    ensures { result ≡ reset_by numbers.now }
{
    match numbers {
        [number] if 1 <= *number => Some(Head::Reset(*number)),
        _ => None,
    }
}

// A head `whole` with these numbers.
fn whole_by(numbers: &[u64]) -> Option<Head>
    ensures { result ≡ whole_by numbers.now }
{
    match numbers {
        [run, cycle, served] if *run <= MAX_RUN => Some(Head::Whole {
            run: *run as u32,
            cycle: *cycle,
            served: *served,
        }),
        _ => None,
    }
}

/// The head of a version, a verb and numbers, if there is one.
pub(crate) fn head_by(version: Version, verb: Verb, numbers: &[u64]) -> Option<Head>
    ensures { result ≡ head_by version verb numbers.now }
{
    match (verb, version) {
        (Verb::Agree, version) => agree_by(version, numbers),
        (Verb::Reset, Version::V1) => reset_by(numbers),
        (Verb::Reset, Version::V2) => None,
        (Verb::Whole, Version::V1) => None,
        (Verb::Whole, Version::V2) => whole_by(numbers),
    }
}

impl Head {
    /// The version in which its payload is written.
    pub(crate) fn version(self) -> Version
        ensures { result ≡ version_of self }
    {
        match self {
            Head::Agree { version, .. } => version,
            Head::Reset(_) => Version::V1,
            Head::Whole { .. } => Version::V2,
        }
    }
}
