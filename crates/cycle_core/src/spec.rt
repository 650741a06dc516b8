//! What a cycle is made of.

use entry_tree::Tree;
use frame_text::ResetNumber;
use ignore_rules::Rules;
use mode_rules::Mode;
use scan_cache::Cache;

/// What a cycle is made of.
#[derive(Drop)]
pub struct CycleSpec {
    /// The session's mode.
    pub mode: Mode,
    /// What the session ignores.
    pub rules: Rules,
    /// How many rows a side may have.
    pub entries: u32,
    /// How many bytes a file may have, at most 16,777,216.
    pub size: u64,
    /// The run in which the cycle is made.
    pub run: u32,
    /// The cycle's number, from 1.
    pub cycle: u64,
    /// The number of the reset that is owed, if one is.
    pub forget: Option<ResetNumber>,
    /// What both sides agreed on so far.
    pub ancestor: Tree,
}

/// What is known of the contents of each side's files.
#[derive(Drop)]
pub struct Caches {
    /// Alpha's files.
    pub alpha: Cache,
    /// Beta's files.
    pub beta: Cache,
}

/// The run and the number of a cycle.
#[derive(Clone, Copy, Debug)]
pub struct Tag {
    pub run: u32,
    pub cycle: u64,
}

/// What a cycle keeps of what it is made of.
#[derive(Drop)]
pub struct Setup {
    pub mode: Mode,
    pub rules: Rules,
    pub entries: u32,
    pub size: u64,
    pub tag: Tag,
}
