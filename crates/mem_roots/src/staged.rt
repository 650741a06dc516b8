//! What a session has staged.
ghost use Rattle.std.specs.Prelude.{◌≡◌, OnOk, OnErr};
ghost use Rattle.std.specs.FinMap as map;
ghost use Rattle.std.specs.Option.{option_copied};
ghost use Rattle.roots_api.specs.States.{nothing_staged};
ghost use Rattle.roots_api.specs.Steps.{append_bytes, keep_file};
ghost use Rattle.mem_roots.specs.Staging.{staged_after};

use crate::kept::Kept;
use entry_tree::Digest;
use roots_api::{Content, Op};
use std::alloc::{AllocError, Global};
use std::marker::Model;

/// What a session has staged: the unfinished file, where one is begun, and the files that it keeps.
#[derive(Drop)]
pub(crate) struct Staged {
    begun: Option<Content>,
    kept: Kept,
}

impl Model for Staged {
    ghost use Rattle.roots_api.specs.States.{Staged as StagedFiles};
    ghost use Rattle.mem_roots.specs.Codes.{staged_code};

    ghost Value = { StagedFiles };

    ghost coded = { staged_code };

    ghost view = { λ s. record { begun = s.begun; kept = s.kept } };
}

impl Staged {
    /// Nothing is staged. It takes no memory.
    pub(crate) fn new(alloc: Global) -> Staged
        ensures { result ≡ nothing_staged }
    {
        Staged {
            begun: None,
            kept: Kept::new(alloc),
        }
    }

    /// The unfinished file. It takes no memory.
    pub(crate) fn begun(&self) -> Option<&Content>
        ensures { option_copied result ≡ self.now.begun }
    {
        self.begun.as_ref()
    }

    /// The file that is kept under the digest. It takes no memory.
    pub(crate) fn kept(&self, digest: &Digest) -> Option<&Content>
        ensures { option_copied result ≡ map.get self.now.kept digest.now }
    {
        self.kept.get(digest)
    }

    /// Does the operation where it is done, and else drops the unfinished file. After an `Err` all is as it was.
    /// Cost: that of the bytes appended, or O(log n).
    pub(crate) fn apply(&mut self, alloc: Global, op: &Op, is_done: bool) -> Result<(), AllocError>
        ensures ok { OnOk result (self.new ≡ staged_after op.now is_done self.old) }
        ensures err { OnErr result (self.new ≡ self.old) }
    {
        if !is_done {
            self.begun = None;
            return Ok(());
        }
        match op {
            Op::StageOpen => {
                self.begun = Some(Content::new(alloc));
                Ok(())
            }
            Op::StageAppend { bytes } => self.append(bytes),
            Op::StageKeep { digest } => self.keep(alloc, digest),
            _ => Ok(()),
        }
    }

    // Adds the bytes to the unfinished file.
    fn append(&mut self, bytes: &Content) -> Result<(), AllocError>
        ensures ok { OnOk result (self.new ≡ append_bytes bytes.now self.old) }
        ensures err { OnErr result (self.new ≡ self.old) }
    {
        match &mut self.begun {
            Some(begun) => begun.append(bytes.as_slice()),
            None => Ok(()),
        }
    }

    // Keeps the unfinished file.
    fn keep(&mut self, alloc: Global, digest: &Digest) -> Result<(), AllocError>
        ensures ok { OnOk result (self.new ≡ keep_file digest.now self.old) }
        ensures err { OnErr result (self.new ≡ self.old) }
    {
        match self.begun.take() {
            None => match self.kept.insert(digest, Content::new(alloc)) {
                Ok(()) => Ok(()),
                Err(_) => Err(AllocError),
            },
            Some(file) => match self.kept.insert(digest, file) {
                Ok(()) => Ok(()),
                Err(file) => {
                    self.begun = Some(file);
                    Err(AllocError)
                }
            },
        }
    }
}
