//! The two roots of a script: directories that hold plain files alone.
ghost use Rattle.std.specs.Prelude.{◌≡◌, MatchOption, None, OnOk, OnErr};
ghost use Rattle.std.specs.FinMap as map;
ghost use Rattle.std.specs.Option.{option_copied};
ghost use Rattle.script_engine.specs.World.{root_named, other_root, files_of, with_files};

use crate::name_map::NameMap;
use crate::word::Contents;
use std::alloc::{AllocError, Global};
use sync_path::Name;

/// The name of a root.
#[derive(Clone, Copy, Debug, PartialEq, Eq)]
pub enum RootName {
    A,
    B,
}

impl RootName {
    /// The root that has this name, if one has.
    pub fn named(word: &str) -> Option<RootName>
        ensures { result ≡ root_named word.now }
    {
        if word == "A" {
            return Some(RootName::A);
        }
        if word == "B" {
            return Some(RootName::B);
        }
        None
    }

    /// The root that isn't this one.
    pub fn other(self) -> RootName
        ensures { result ≡ other_root self }
    {
        match self {
            RootName::A => RootName::B,
            RootName::B => RootName::A,
        }
    }
}

/// The roots A and B: what each file holds, by its name.
#[derive(Drop)]
pub struct FlatRoots {
    pub a: NameMap<Contents>,
    pub b: NameMap<Contents>,
}

impl FlatRoots {
    /// Two roots without a file. It takes no memory.
    pub fn two(alloc: Global) -> FlatRoots
        ensures { result ≡ record { a = map.empty; b = map.empty } }
    {
        FlatRoots {
            a: NameMap::new(alloc),
            b: NameMap::new(alloc),
        }
    }

    /// What the file of this name holds in the root of this name. None where no root has the name,
    /// and where the root has no such file. It takes no memory.
    pub fn get(&self, root: &str, name: &Name) -> Option<&[u8]>
        ensures { MatchOption (root_named root.now) (result ≡ None)
            (λ at. option_copied result ≡ map.get (files_of self.now at) name.now) }
    {
        let root = RootName::named(root)?;
        let contents = self.files(root).get(name)?;
        Some(contents.as_slice())
    }

    /// The files of a root. It takes no memory.
    pub fn files(&self, root: RootName) -> &NameMap<Contents>
        ensures { result.now ≡ files_of self.now root }
    {
        match root {
            RootName::A => &self.a,
            RootName::B => &self.b,
        }
    }

    /// Puts a file into a root, in place of what the root held at its name. It takes memory for a
    /// new name, and where there is none the roots stay as they were.
    pub fn put(&mut self, root: RootName, name: Name, contents: Contents) -> Result<(), AllocError>
        ensures ok { OnOk result (self.new ≡ with_files self.old root (map.insert (files_of self.old root) name contents)) }
        ensures err { OnErr result (self.new ≡ self.old) }
    {
        match root {
            RootName::A => self.a.insert(name, contents),
            RootName::B => self.b.insert(name, contents),
        }
    }

    /// Replaces the files of both roots: alpha's, and those of the other root. It takes no memory.
    pub fn replace(
        &mut self,
        alpha: RootName,
        alpha_files: NameMap<Contents>,
        beta_files: NameMap<Contents>,
    )
        ensures { self.new ≡ with_files (with_files self.old alpha alpha_files) (other_root alpha) beta_files }
    {
        match alpha {
            RootName::A => {
                self.a = alpha_files;
                self.b = beta_files;
            }
            RootName::B => {
                self.b = alpha_files;
                self.a = beta_files;
            }
        }
    }
}
