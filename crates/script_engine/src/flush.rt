//! A flush: each name is decided by what the ancestor and the two sides hold there.
ghost use Rattle.std.specs.Prelude.{◌≡◌, IfOk, OnOk};
ghost use Rattle.std.specs.Option.{option_copied};
ghost use Rattle.script_engine.specs.Flush.{is_same, settle, digest_of, Flushes};
ghost use Rattle.script_engine.specs.Flushed.{noted, conflict_mark, SettlesName};

use crate::name_map::NameMap;
use crate::word::Contents;
use entry_tree::Digest;
use std::alloc::{AllocError, Global};
use sync_path::Name;

/// How a name is decided.
#[derive(Clone, Copy, Debug, PartialEq, Eq)]
pub enum Settlement {
    /// Both sides hold the same.
    Agreed,
    /// Alpha takes beta's file.
    ToAlpha,
    /// Beta takes alpha's file.
    ToBeta,
    /// Both sides have changed, and differ: nothing is copied.
    Conflict,
}

/// What the two sides and the ancestor hold after a flush, and the names that are conflicts.
#[derive(Drop)]
pub struct Flushed {
    pub alpha: NameMap<Contents>,
    pub beta: NameMap<Contents>,
    pub ancestor: NameMap<Digest>,
    pub conflicts: NameMap<()>,
}

/// How a name is decided at which the ancestor, alpha and beta hold files of these digests.
pub(crate) fn settle(
    ancestor: &Option<Digest>,
    alpha: &Option<Digest>,
    beta: &Option<Digest>,
) -> Settlement
    ensures { result ≡ settle ancestor.now alpha.now beta.now }
{
    if is_same(alpha, beta) {
        Settlement::Agreed
    } else if is_same(alpha, ancestor) {
        Settlement::ToAlpha
    } else if is_same(beta, ancestor) {
        Settlement::ToBeta
    } else {
        Settlement::Conflict
    }
}

fn is_same(first: &Option<Digest>, second: &Option<Digest>) -> bool
    ensures { result ≡ is_same first.now second.now }
{
    match (first, second) {
        (None, None) => true,
        (Some(first), Some(second)) => first == second,
        _ => false,
    }
}

/// What the two sides and the ancestor hold after a flush from what they hold now, and the names
/// that are conflicts.
///
/// It takes memory for copies of the files that the sides hold then, and for the names. It costs
/// O(n log n) for n names, and reads each file once for its digest and once for each copy.
pub fn flush(
    alloc: Global,
    ancestor: &NameMap<Digest>,
    alpha: &NameMap<Contents>,
    beta: &NameMap<Contents>,
) -> Result<Flushed, AllocError>
    ensures { IfOk result (λ f. Flushes ancestor.now alpha.now beta.now f.ancestor f.alpha f.beta f.conflicts) }
{
    let mut flushed = Flushed {
        alpha: NameMap::new(alloc),
        beta: NameMap::new(alloc),
        ancestor: NameMap::new(alloc),
        conflicts: NameMap::new(alloc),
    };
    'alphas: for (name, contents) in alpha.iter() {
        let agreed = ancestor.get(name).copied();
        settle_into(
            alloc,
            &mut flushed,
            name,
            agreed,
            Some(contents),
            beta.get(name),
        )?;
    }
    'betas: for (name, contents) in beta.iter() {
        if alpha.get(name).is_some() {
            continue;
        }
        let agreed = ancestor.get(name).copied();
        settle_into(alloc, &mut flushed, name, agreed, None, Some(contents))?;
    }
    Ok(flushed)
}

/// Notes what a flush leaves at a name at which the ancestor and the sides hold these, and whether
/// the name is a conflict.
fn settle_into(
    alloc: Global,
    flushed: &mut Flushed,
    name: &Name,
    ancestor: Option<Digest>,
    alpha: Option<&Contents>,
    beta: Option<&Contents>,
) -> Result<(), AllocError>
    ensures { OnOk result
        (SettlesName name.now ancestor (option_copied alpha.entry) (option_copied beta.entry) flushed.old flushed.new) }
{
    let alpha_digest = digest_of(alpha);
    let beta_digest = digest_of(beta);
    let settlement = settle(&ancestor, &alpha_digest, &beta_digest);
    let (alpha_file, beta_file, agreed) = match settlement {
        Settlement::Agreed => (alpha, beta, alpha_digest),
        Settlement::ToAlpha => (beta, beta, beta_digest),
        Settlement::ToBeta => (alpha, alpha, alpha_digest),
        Settlement::Conflict => (alpha, beta, ancestor),
    };
    note_file(alloc, &mut flushed.alpha, name, alpha_file)?;
    note_file(alloc, &mut flushed.beta, name, beta_file)?;
    note_digest(alloc, &mut flushed.ancestor, name, agreed)?;
    note_conflict(alloc, &mut flushed.conflicts, name, settlement)
}

/// The digest of a file.
fn digest_of(file: Option<&Contents>) -> Option<Digest>
    ensures { result ≡ digest_of (option_copied file.entry) }
{
    match file {
        None => None,
        Some(contents) => Some(Digest::of(contents.as_slice())),
    }
}

/// Puts a copy of the file, where there is one, at the name.
fn note_file(
    alloc: Global,
    files: &mut NameMap<Contents>,
    name: &Name,
    file: Option<&Contents>,
) -> Result<(), AllocError>
    ensures { OnOk result (files.new ≡ noted files.old name.now (option_copied file.entry)) }
{
    match file {
        None => Ok(()),
        Some(contents) => {
            let contents = Contents::new(alloc, contents.as_slice())?;
            files.insert(name.copy(alloc)?, contents)
        }
    }
}

/// Puts the digest, where there is one, at the name.
fn note_digest(
    alloc: Global,
    digests: &mut NameMap<Digest>,
    name: &Name,
    digest: Option<Digest>,
) -> Result<(), AllocError>
    ensures { OnOk result (digests.new ≡ noted digests.old name.now digest) }
{
    match digest {
        None => Ok(()),
        Some(digest) => digests.insert(name.copy(alloc)?, digest),
    }
}

/// Notes the name where it is decided as a conflict.
fn note_conflict(
    alloc: Global,
    conflicts: &mut NameMap<()>,
    name: &Name,
    settlement: Settlement,
) -> Result<(), AllocError>
    ensures { OnOk result (conflicts.new ≡ noted conflicts.old name.now (conflict_mark settlement)) }
{
    match settlement {
        Settlement::Conflict => conflicts.insert(name.copy(alloc)?, ()),
        Settlement::Agreed | Settlement::ToAlpha | Settlement::ToBeta => Ok(()),
    }
}
