//! What edits need, and what they make of a state.
ghost use Rattle.std.specs.Prelude.{◌≡◌, not, cond, Some, None, is_some, IfOk, OnOk, OnErr};
ghost use Rattle.std.specs.FinMap as map;
ghost use Rattle.entry_tree.specs.Entry.{is_dir};
ghost use Rattle.entry_tree.specs.Tree.{holds_folder};
ghost use Rattle.roots_api.specs.Edits.{edited, refused_at, refused_where, first_of};
ghost use Rattle.roots_api.specs.Expected.{holds_file};
ghost use Rattle.roots_api.specs.States.{missing_parent};

use crate::found::{is_file, is_folder, missing_parent};
use crate::state::State;
use entry_tree::{Entry, TreeOf};
use roots_api::{Edit, copy_found};
use std::alloc::{AllocError, Global};
use sync_path::Path;

impl State {
    /// The parent, or else the path, that isn't as the edit needs it, with what stands there. Cost: O(log n).
    pub(crate) fn refused_at(
        &self,
        alloc: Global,
        edit: &Edit,
    ) -> Result<Option<(Path, Option<Entry>)>, AllocError>
        ensures { IfOk result (λ refused. refused ≡ refused_at self.now.tree edit.now) }
    {
        match edit {
            Edit::Put { path, .. } => writing(alloc, &self.tree, path),
            Edit::Link { path, .. } => writing(alloc, &self.tree, path),
            Edit::Other { path } => writing(alloc, &self.tree, path),
            Edit::Dir { path } => making(alloc, &self.tree, path),
            Edit::SetExec { path, .. } => marking(alloc, &self.tree, path),
            Edit::Del { path } => taking(alloc, &self.tree, path),
        }
    }

    /// Makes of the state what the edit makes of it. After an `Err` it is as it was.
    ///
    /// Cost: O(log n), the bytes put, and what is taken away.
    pub(crate) fn edit(&mut self, alloc: Global, edit: &Edit) -> Result<(), AllocError>
        requires { refused_at self.old.tree edit.now ≡ None }
        ensures ok { OnOk result (self.new ≡ edited self.old edit.now) }
        ensures err { OnErr result (self.new ≡ self.old) }
    {
        match edit {
            Edit::Put { path, bytes } => match bytes.copy(alloc) {
                Ok(bytes) => self.put(alloc, path, bytes, false),
                Err(error) => Err(error),
            },
            Edit::Link { path, text } => match text.copy(alloc) {
                Ok(text) => self.set(alloc, path, Entry::Link(text)),
                Err(error) => Err(error),
            },
            Edit::Other { path } => self.set(alloc, path, Entry::Other),
            Edit::Dir { path } => self.set(alloc, path, Entry::Dir),
            Edit::SetExec { path, on } => {
                self.set_exec(alloc, path, *on);
                Ok(())
            }
            Edit::Del { path } => {
                self.take_away(path);
                Ok(())
            }
        }
    }
}

// What hinders a file, a link or another thing: no folder above it, or a folder there.
fn writing(
    alloc: Global,
    tree: &TreeOf<Entry>,
    path: &Path,
) -> Result<Option<(Path, Option<Entry>)>, AllocError>
    ensures { IfOk result (λ refused. refused ≡ first_of (missing_parent tree.now path.now) (refused_where (holds_folder is_dir (map.get tree.now path.now)) tree.now path.now)) }
{
    if let Some(missing) = missing_parent(alloc, tree, path)? {
        return Ok(Some(missing));
    }
    let refused = is_folder(tree.get(path));
    refused_where(alloc, refused, tree, path)
}

// What hinders a folder: no folder above it, or anything there.
fn making(
    alloc: Global,
    tree: &TreeOf<Entry>,
    path: &Path,
) -> Result<Option<(Path, Option<Entry>)>, AllocError>
    ensures { IfOk result (λ refused. refused ≡ first_of (missing_parent tree.now path.now) (refused_where (is_some (map.get tree.now path.now)) tree.now path.now)) }
{
    if let Some(missing) = missing_parent(alloc, tree, path)? {
        return Ok(Some(missing));
    }
    let refused = stands(tree, path);
    refused_where(alloc, refused, tree, path)
}

// Whether anything stands at the path.
fn stands(tree: &TreeOf<Entry>, path: &Path) -> bool
    ensures { result ≡ is_some (map.get tree.now path.now) }
{
    tree.get(path).is_some()
}

// What hinders an executable bit: no file there.
fn marking(
    alloc: Global,
    tree: &TreeOf<Entry>,
    path: &Path,
) -> Result<Option<(Path, Option<Entry>)>, AllocError>
    ensures { IfOk result (λ refused. refused ≡ refused_where (not (holds_file (map.get tree.now path.now))) tree.now path.now) }
{
    let refused = !is_file(tree.get(path));
    refused_where(alloc, refused, tree, path)
}

// What hinders taking away: nothing there.
fn taking(
    alloc: Global,
    tree: &TreeOf<Entry>,
    path: &Path,
) -> Result<Option<(Path, Option<Entry>)>, AllocError>
    ensures { IfOk result (λ refused. refused ≡ cond (is_some (map.get tree.now path.now)) None (Some (path.now, None))) }
{
    if stands(tree, path) {
        return Ok(None);
    }
    let path = path.copy(alloc)?;
    Ok(Some((path, None)))
}

// The path with what stands there, where it is refused.
fn refused_where(
    alloc: Global,
    refused: bool,
    tree: &TreeOf<Entry>,
    path: &Path,
) -> Result<Option<(Path, Option<Entry>)>, AllocError>
    ensures { IfOk result (λ answer. answer ≡ refused_where refused tree.now path.now) }
{
    if !refused {
        return Ok(None);
    }
    let found = copy_found(alloc, tree.get(path))?;
    let path = path.copy(alloc)?;
    Ok(Some((path, found)))
}
