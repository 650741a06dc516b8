//! A path below a root.
ghost use Rattle.std.specs.Prelude.{List, ◌≡◌, ◌==◌, ◌≤◌, ◌+◌, ◌++◌, ◌∷◌, ◌↔◌, ◌⊎◌, ℕ, [], length, IfOk, IfErr, OnOk, OnErr, IfSome, IsTrue, IsFalse, Some, Err, string_bytes, MatchOption};
ghost use Rattle.std.specs.Option.{option_copied};
ghost use Rattle.sync_path.specs.Name.{IsName};
ghost use Rattle.sync_path.specs.Path.{IsPath, is_under, is_below, path_cmp, path_text, place_behind, may_follow, parent_of, last_name};
ghost use Rattle.sync_path.specs.PathText.{IsPathText, IsBadPlace};
ghost use Rattle.sync_path.specs.Buffer.{KeepsPath, SplitsLast};
ghost use Rattle.sync_path.specs.declared.path_error.PathError.TheVariants.{Bad, Memory};

use crate::limits::MAX_PATH_LEN;
use crate::name::Name;
use crate::names::Names;
use crate::path_error::{BadPath, PathError};
use crate::reading::{bad_place, buffer_of_text, has_room};
use std::alloc::{AllocError, Global};
use std::cmp::Ordering;
use std::marker::Model;

/// Where an entry lies below a root: a list of at most 64 names, the outermost folder's first, whose text
/// has at most 4,096 bytes. The root itself has no names.
///
/// Contracts see a path as its names, each as its bytes. Paths stand in *path order*: lists of names in
/// order of their bytes, a prefix first. It is the order of `compare` and of `Ord`, so a `BTreeMap` over
/// paths has its entries in path order.
///
/// A path is one buffer, with a byte 0x00 behind each name. So two paths are compared by one comparison of
/// bytes, without memory, and `copy` is one allocation.
#[derive(Debug, Drop)]
pub struct Path {
    buffer: String,
}

impl Model for Path {
    ghost use Rattle.std.specs.Prelude.{ℕ, List, string_bytes};
    ghost use Rattle.sync_path.specs.Buffer.{KeepsPath, names_in};

    ghost Value = { List (List ℕ) };

    ghost view = { λ path. names_in (string_bytes path.buffer) };

    ghost invariant = { λ path. KeepsPath (string_bytes path.buffer) };
}

impl Path {
    /// The root, which has no names. It takes no memory.
    pub fn root(alloc: Global) -> Path
        ensures { result ≡ [] }
    {
        Path {
            buffer: String::new(alloc),
        }
    }

    /// Reads a path: names with a `/` between each two. The empty text is the root.
    ///
    /// A text that is none is bad at the byte at which the first name begins that breaks a rule on names, is the
    /// 65th name or ends after byte 4,096. Cost: the length of the text up to there, and one allocation.
    pub fn read(alloc: Global, text: &str) -> Result<Path, PathError>
        ensures value { IfOk result (λ path. path_text path ≡ text.now) }
        ensures path { IfOk result (λ path. IsPath path) }
        ensures refused { (place : ℕ) → (result ≡ Err (Bad (record { place = place }))) ↔ IsBadPlace text.now place }
        ensures memory { (result ≡ Err Memory) → IsPathText text.now }
    {
        match bad_place(text) {
            Some(place) => Err(PathError::Bad(BadPath { place })),
            None => match buffer_of_text(alloc, text) {
                Ok(buffer) => Ok(Path { buffer }),
                Err(_) => Err(PathError::Memory),
            },
        }
    }

    /// The text of the path: its names with a `/` between each two. Cost: one allocation, and its length.
    pub fn write(&self, alloc: Global) -> Result<String, AllocError>
        ensures value { IfOk result (λ text. string_bytes text ≡ path_text self.now) }
    {
        let mut text = String::with_capacity(alloc, self.buffer.len())?;
        let mut names = self.names();
        if let Some(first) = names.next() {
            text.push_str(first)?;
            for name in names {
                text.push('/')?;
                text.push_str(name)?;
            }
        }
        Ok(text)
    }

    /// Whether this is the root. It takes no memory.
    pub fn is_root(&self) -> bool
        ensures { IsTrue result ↔ (self.now ≡ []) }
    {
        self.buffer.is_empty()
    }

    /// How many names the path has: at most 64. It takes no memory. Cost: the length of the text.
    pub fn depth(&self) -> usize
        ensures value { result ≡ length self.now }
        ensures path { IsPath self.now }
    {
        self.names().count()
    }

    /// The names of the path in order, the outermost folder's first. It takes no memory.
    pub fn names(&self) -> Names<'_>
        ensures value { result ≡ self.now }
        ensures path { IsPath self.now }
    {
        Names::over(self.buffer.as_str())
    }

    /// The last name, which is that of the entry in its folder. None exactly for the root. It takes no memory.
    /// Cost: the length of the name.
    pub fn last_name(&self) -> Option<&str>
        ensures value { option_copied result ≡ last_name self.now }
        ensures name { IfSome result (λ name. IsName name.now) }
    {
        let (_, name) = split_last(self.buffer.as_str())?;
        Some(name)
    }

    /// The last name as a value of its own. None exactly for the root. Cost: one allocation, and the name's length.
    pub fn copy_last_name(&self, alloc: Global) -> Result<Option<Name>, AllocError>
        ensures value { IfOk result (λ name. name ≡ last_name self.now) }
    {
        match self.last_name() {
            Some(text) => match Name::of(alloc, text) {
                Ok(name) => Ok(Some(name)),
                Err(error) => Err(error),
            },
            None => Ok(None),
        }
    }

    /// The path of the folder in which the entry lies. None exactly for the root.
    /// Cost: one allocation, and the length of the text.
    pub fn parent(&self, alloc: Global) -> Result<Option<Path>, AllocError>
        ensures value { IfOk result (λ parent. parent ≡ parent_of self.now) }
    {
        match split_last(self.buffer.as_str()) {
            Some((front, _)) => match String::from_str(alloc, front) {
                Ok(buffer) => Ok(Some(Path { buffer })),
                Err(error) => Err(error),
            },
            None => Ok(None),
        }
    }

    /// The path of an entry in this folder. Where it would have a 65th name, or end after byte 4,096, it is bad at
    /// the byte at which the new name would begin. Cost: one allocation, and the length of the text.
    pub fn child(&self, alloc: Global, name: &Name) -> Result<Path, PathError>
        ensures value { IfOk result (λ path. path ≡ self.now ++ name.now ∷ []) }
        ensures accepted { OnOk result (IsTrue (may_follow self.now name.now)) }
        ensures refused { (result ≡ Err (Bad (record { place = place_behind self.now }))) ↔ IsFalse (may_follow self.now name.now) }
        ensures errors { IfErr result (λ e. (e ≡ Bad (record { place = place_behind self.now })) ⊎ ((e ≡ Memory) × IsTrue (may_follow self.now name.now))) }
    {
        let name = name.as_str();
        let place = self.next_place();
        if !has_room(self.depth(), place, name.len()) {
            return Err(PathError::Bad(BadPath { place }));
        }
        match buffer_with(alloc, self.buffer.as_str(), name) {
            Ok(buffer) => Ok(Path { buffer }),
            Err(_) => Err(PathError::Memory),
        }
    }

    // Where a further name would begin in the text: at most 4,097.
    fn next_place(&self) -> u32
        ensures { result ≡ place_behind self.now }
    {
        self.buffer.len() as u32
    }

    /// Another path of the same names. Cost: one allocation, and the length of the text.
    pub fn copy(&self, alloc: Global) -> Result<Path, AllocError>
        ensures value { IfOk result (λ path. path ≡ self.now) }
    {
        match String::from_str(alloc, self.buffer.as_str()) {
            Ok(buffer) => Ok(Path { buffer }),
            Err(error) => Err(error),
        }
    }

    /// Becomes a path of the same names as the other. It takes memory only where the other's text is longer than
    /// any that this path has held. After an `Err` this is the root. Cost: the length of the text.
    pub fn copy_from(&mut self, other: &Path) -> Result<(), AllocError>
        ensures ok { OnOk result (self.new ≡ other.now) }
        ensures err { OnErr result (self.new ≡ []) }
    {
        self.buffer.clear();
        self.buffer.push_str(other.buffer.as_str())
    }

    /// Whether this path is the other or lies below it: the other's names are the first of this one's.
    /// It takes no memory. Cost: at most the length of the other's text.
    pub fn is_under(&self, other: &Path) -> bool
        ensures { result ≡ is_under self.now other.now }
    {
        self.buffer.as_str().starts_with(other.buffer.as_str())
    }

    /// Whether this path lies below the other: it is under it and isn't the same path.
    /// It takes no memory. Cost: at most the length of the other's text.
    pub fn is_below(&self, other: &Path) -> bool
        ensures { result ≡ is_below self.now other.now }
    {
        other.compare(self).is_lt() && self.is_under(other)
    }

    /// How the two stand in path order. It takes no memory. Cost: up to the first byte that differs.
    pub fn compare(&self, other: &Path) -> Ordering
        ensures { result ≡ path_cmp self.now other.now }
    {
        self.buffer.as_str().cmp(other.buffer.as_str())
    }
}

// The buffer with a further name.
fn buffer_with(alloc: Global, buffer: &str, name: &str) -> Result<String, AllocError>
    requires { length buffer.now ≤ MAX_PATH_LEN + 1 }
    ensures { IfOk result (λ all. string_bytes all ≡ buffer.now ++ name.now ++ 0 ∷ []) }
{
    let mut all = String::with_capacity(alloc, buffer.len() + name.len() + 1)?;
    all.push_str(buffer)?;
    all.push_str(name)?;
    all.push('\0')?;
    Ok(all)
}

// The buffer of all names but the last, and the last name. None for the root's.
fn split_last(buffer: &str) -> Option<(&str, &str)>
    requires { KeepsPath buffer.now }
    ensures { MatchOption result (buffer.now ≡ []) (λ parts. SplitsLast buffer.now parts.0.now parts.1.now) }
{
    match buffer.strip_suffix('\0') {
        Some(all) => Some(split_behind_last(all)),
        None => None,
    }
}

// What stands up to the last byte 0x00, and what stands behind it.
fn split_behind_last(all: &str) -> (&str, &str)
    ensures { (bytes : List ℕ) → bytes ≡ all.now ++ 0 ∷ [] → SplitsLast bytes result.0.now result.1.now }
{
    match all.rfind('\0') {
        Some(at) => all.split_at(at + 1),
        None => ("", all),
    }
}

impl PartialEq for Path {
    ghost use Rattle.std.specs.Cmp.{partial_equiv_from_equiv};
    ghost use Rattle.std.specs.Cmp.Lexicographic.{lists_equiv, nat_list_eq_equiv};
    ghost use lib.Pointwise.{pointwise};

    ghost eq = { pointwise (pointwise ◌==◌) };

    ghost laws = { partial_equiv_from_equiv (lists_equiv nat_list_eq_equiv) };

    fn eq(&self, other: &Path) -> bool {
        self.buffer.as_str() == other.buffer.as_str()
    }
}

impl Eq for Path {
    ghost use Rattle.std.specs.Cmp.Lexicographic.{lists_equiv, nat_list_eq_equiv};

    ghost laws = { lists_equiv nat_list_eq_equiv };
}

impl PartialOrd for Path {
    ghost use Rattle.sync_path.specs.PathOrder.{paths_po};

    ghost partial_cmp = { λ x y. Some (path_cmp x y) };

    ghost laws = { paths_po };

    fn partial_cmp(&self, other: &Path) -> Option<Ordering> {
        Some(self.cmp(other))
    }
}

impl Ord for Path {
    ghost use Rattle.std.specs.Cmp.Lexicographic.{lists_ties, texts_ties};
    ghost use Rattle.std.specs.Cmp.Lexicographic.{slice_cmp};
    ghost use Rattle.std.specs.Ordering.{nat_cmp};
    ghost use Rattle.std.proofs.Common.{refl};
    ghost use Rattle.sync_path.specs.PathOrder.{path_cmp_total};

    ghost cmp = { path_cmp };

    ghost total = { path_cmp_total };

    ghost matches_partial_cmp = { λ _ _. refl };

    ghost matches_eq = { lists_ties (slice_cmp nat_cmp) texts_ties };

    fn cmp(&self, other: &Path) -> Ordering {
        self.compare(other)
    }
}
