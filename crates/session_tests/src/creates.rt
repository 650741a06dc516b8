//! What a session is made of, as words: `KIND NAME ROOTS MORE`, two roots with `+` between them, and `paused`, a label or `-`.
use crate::words::{name, word};
use command_words::{
    Bounded, Endpoint, EntryLimit, GivenName, Labels, RootName, SizeLimit, read_label,
};
use mode_rules::Mode;
use session_table::{Create, ForwardCreate, SyncCreate};
use sqlite_items::Items;
use std::alloc::Global;
use std::test::Fail;

fn root(alloc: Global, word: &str) -> Result<RootName, Fail> {
    Ok(RootName::read(alloc, word.as_bytes())?.ok_or("no root")?)
}

fn endpoint(alloc: Global) -> Result<Endpoint, Fail> {
    Ok(Endpoint::read(alloc, b"tcp:localhost:80".as_slice())?.ok_or("no endpoint")?)
}

fn entries() -> Result<EntryLimit, Fail> {
    Ok(Bounded::of(65_536).ok_or("no bound")?)
}

fn size() -> Result<SizeLimit, Fail> {
    Ok(Bounded::of(16_777_216).ok_or("no bound")?)
}

// The labels of a word, one or none.
fn labels(alloc: Global, word: &str) -> Result<Labels, Fail> {
    let mut labels = Labels::new(alloc);
    if let Some(label) = read_label(alloc, word.as_bytes())? {
        let _ = labels.insert(label)?;
    }
    Ok(labels)
}

fn of_roots(
    alloc: Global,
    name: Option<GivenName>,
    labels: Labels,
    alpha: RootName,
    beta: RootName,
) -> Result<SyncCreate, Fail> {
    Ok(SyncCreate {
        name,
        labels,
        mode: Mode::TwoWaySafe,
        ignore_vcs: false,
        ignores: Items::new(alloc),
        paused: false,
        entries: entries()?,
        size: size()?,
        alpha,
        beta,
    })
}

fn of_names(
    alloc: Global,
    name: Option<GivenName>,
    labels: Labels,
    roots: &str,
) -> Result<SyncCreate, Fail> {
    let (alpha, beta) = roots.split_once('+').unwrap_or(("A", "A"));
    let alpha = root(alloc, alpha)?;
    let beta = root(alloc, beta)?;
    of_roots(alloc, name, labels, alpha, beta)
}

fn sync_create(alloc: Global, row: &str) -> Result<Create, Fail> {
    let name = name(alloc, word(row, 4))?;
    let labels = labels(alloc, word(row, 6))?;
    let mut create = of_names(alloc, name, labels, word(row, 5))?;
    create.paused = word(row, 6) == "paused";
    Ok(Create::Sync(create))
}

fn forward_create(alloc: Global, row: &str) -> Result<Create, Fail> {
    let name = name(alloc, word(row, 4))?;
    let source = endpoint(alloc)?;
    let dest = endpoint(alloc)?;
    Ok(Create::Forward(ForwardCreate {
        name,
        paused: word(row, 6) == "paused",
        source,
        dest,
    }))
}

/// What the session of a row is made of.
pub fn create(alloc: Global, row: &str) -> Result<Create, Fail> {
    match word(row, 3) {
        "forward" => forward_create(alloc, row),
        _ => sync_create(alloc, row),
    }
}
