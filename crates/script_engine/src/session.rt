//! The one session of a script.
use crate::flat_roots::RootName;
use crate::name_map::NameMap;
use crate::word::Word;
use entry_tree::Digest;

/// A two-way-safe session between the two roots.
#[derive(Drop)]
pub struct Session {
    pub name: Word,
    /// The first root that the create named; beta is the other one.
    pub alpha: RootName,
    /// What both sides held at each name when they last agreed there.
    pub ancestor: NameMap<Digest>,
    /// How many cycles have run. The count stays at its type's end.
    pub cycles: u64,
}
