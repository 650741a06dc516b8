//! The fold of a session's payloads.
ghost use Rattle.std.specs.Prelude.{◌≡◌, ◌≢◌, ◌≤◌, Err, Some, None, IfOk, OnOk, OnErr, IsSome};
ghost use Rattle.std.specs.FinMap as map;
ghost use Rattle.fault_count.specs.Rose.{Rose};
ghost use Rattle.finite_maps.specs.Told.{WhereTold};
ghost use Rattle.frame_text.specs.Folds.{first_payload, unfolded, with_payload};
ghost use Rattle.frame_text.specs.declared.frame.KeepKey.{KeepKey};
ghost use Rattle.frame_text.specs.declared.payload.PayloadError.TheVariants.{Bad};
ghost use Rattle.mode_rules.specs.AncestorFold.{with_lines};
ghost use Rattle.ancestor_store.specs.Committing.{with_frame};
ghost use Rattle.ancestor_store.specs.Keeping.{Appends};
ghost use Rattle.ancestor_store.specs.declared.keeper.KeepError.TheVariants.{Fault};

use crate::committing::commit_lines;
use crate::keeper::{KeepError, Keeper};
use entry_tree::{Tree, TreeError};
use frame_text::{Frame, KeepKey, Payload, PayloadError};
use mode_rules::AncestorLine;
use std::alloc::Global;
use std::marker::Model;

/// What the payloads of a session come to: a tree, and the number of the reset that was served last.
#[derive(Drop)]
pub struct Fold {
    tree: Tree,
    served: u64,
}

impl Model for Fold {
    ghost use Rattle.frame_text.specs.Folds.{Folded};
    ghost use Rattle.ancestor_store.specs.Codes.{folded_code};

    ghost Value = { Folded };

    ghost coded = { folded_code };

    ghost view = { λ f. record { tree = f.tree; served = f.served } };
}

impl Fold {
    /// The fold of no payload. It takes no memory.
    pub(crate) fn new(alloc: Global) -> Fold
        ensures { result ≡ unfolded }
    {
        Fold {
            tree: Tree::new(alloc),
            served: 0,
        }
    }

    /// The tree.
    pub(crate) fn tree(&self) -> &Tree
        ensures { result.now ≡ self.now.tree }
    {
        &self.tree
    }

    /// The number of the reset that was served last, or 0.
    pub(crate) fn served(&self) -> u64
        ensures { result ≡ self.now.served }
    {
        self.served
    }

    /// The fold of a session whose first payload this is.
    pub(crate) fn first(alloc: Global, payload: Payload) -> Result<Fold, PayloadError>
        ensures value { IfOk result (λ fold. first_payload payload ≡ Some fold) }
        ensures bad { result ≡ Err Bad → first_payload payload ≡ None }
    {
        let mut fold = Fold::new(alloc);
        match payload {
            Payload::Agree { lines, .. } => {
                take_lines(alloc, &mut fold.tree, lines.as_slice())?;
            }
            Payload::Reset(number) => {
                fold.served = number;
            }
            Payload::Whole { served, lines, .. } => {
                take_lines(alloc, &mut fold.tree, lines.as_slice())?;
                fold.served = served;
            }
        }
        Ok(fold)
    }

    /// Takes up a payload behind others.
    pub(crate) fn take(&mut self, alloc: Global, payload: Payload) -> Result<(), PayloadError>
        ensures value { OnOk result (with_payload self.old payload ≡ Some self.new) }
        ensures bad { result ≡ Err Bad → with_payload self.old payload ≡ None }
    {
        match payload {
            Payload::Agree { lines, .. } => take_lines(alloc, &mut self.tree, lines.as_slice()),
            Payload::Reset(number) => {
                self.reset(alloc, number);
                Ok(())
            }
            Payload::Whole { .. } => Err(PayloadError::Bad),
        }
    }

    // Leaves nothing in the tree, and takes down which reset that was.
    fn reset(&mut self, alloc: Global, number: u64)
        ensures { self.new ≡ record { tree = map.empty; served = number } }
    {
        self.tree = Tree::new(alloc);
        self.served = number;
    }

    /// Appends a frame that the fold takes, and takes it up where that went well.
    pub(crate) fn commit<K: Keeper>(
        &mut self,
        alloc: Global,
        keeper: &mut K,
        key: KeepKey,
        frame: &Frame,
    ) -> Result<(), KeepError>
        requires { IsSome (with_frame self.old frame.now) }
        ensures taken { OnOk result (with_frame self.old frame.now ≡ Some self.new) }
        ensures refused { OnErr result (self.new ≡ self.old) }
        ensures frames { WhereTold (K.told keeper.old key) (K.told keeper.new key) (Appends frame.now result) }
        ensures others { (other : KeepKey) → other ≢ key → K.told keeper.new other ≡ K.told keeper.old other }
        ensures counts { K.faults keeper.old ≤ K.faults keeper.new }
        ensures fault { result ≡ Err Fault → Rose (K.faults keeper.old) (K.faults keeper.new) }
        ensures no_fault { result ≢ Err Fault → K.faults keeper.new ≡ K.faults keeper.old }
    {
        match frame {
            Frame::Agree { lines, .. } => {
                commit_lines(alloc, &mut self.tree, keeper, key, frame, lines.as_slice())
            }
            Frame::Reset(number) => {
                keeper.append(alloc, key, frame)?;
                self.reset(alloc, number.get());
                Ok(())
            }
            Frame::Table(_) => unreachable!(),
        }
    }
}

/// Takes up lines, one after another.
pub(crate) fn take_lines(
    alloc: Global,
    tree: &mut Tree,
    lines: &[AncestorLine],
) -> Result<(), PayloadError>
    ensures value { OnOk result (with_lines tree.old lines.now ≡ Some tree.new) }
    ensures bad { result ≡ Err Bad → with_lines tree.old lines.now ≡ None }
{
    let mut rest = lines;
    while let [line, behind @ ..] = rest {
        match line.apply(alloc, tree) {
            Ok(()) => {}
            Err(TreeError::NoParent) => return Err(PayloadError::Bad),
            Err(TreeError::NotDir) => return Err(PayloadError::Bad),
            Err(TreeError::Memory) => return Err(PayloadError::Memory),
        }
        rest = behind;
    }
    Ok(())
}
