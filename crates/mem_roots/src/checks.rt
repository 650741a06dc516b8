//! The checks of operations on a tree.
ghost use Rattle.std.specs.Prelude.{◌≡◌, ◌&&◌, cond, None, IfOk};
ghost use Rattle.std.specs.FinMap as map;
ghost use Rattle.std.specs.Option.{option_copied};
ghost use Rattle.entry_tree.specs.Entry.{is_dir};
ghost use Rattle.entry_tree.specs.Tree.{children_below, has_below, holds_folder};
ghost use Rattle.roots_api.specs.Steps.{in_folder, where_expected};
ghost use Rattle.roots_api.specs.declared.answer.Answer.TheVariants.{Listed, Held, NotEmpty, Done};

use crate::found::{is_folder, missing_parent};
use entry_tree::{Entry, Node, TreeOf};
use roots_api::{Answer, Rows, copy_found, is_expected};
use std::alloc::{AllocError, Global};
use sync_path::Path;

/// The rows of a folder, or what else stands at the path. Cost: O(log n) comparisons of paths for each row.
pub(crate) fn listed(alloc: Global, tree: &TreeOf<Entry>, path: &Path) -> Result<Answer, AllocError>
    ensures { IfOk result (λ answer. answer ≡ cond (holds_folder is_dir (map.get tree.now path.now)) (Listed (children_below tree.now path.now)) (Held (map.get tree.now path.now))) }
{
    let found = tree.get(path);
    if is_folder(found) {
        let rows = rows_below(alloc, tree, path)?;
        return Ok(Answer::Listed(rows));
    }
    let found = copy_found(alloc, found)?;
    Ok(Answer::Held(found))
}

// The names directly below the path, with copies of their entries.
fn rows_below(alloc: Global, tree: &TreeOf<Entry>, path: &Path) -> Result<Rows, AllocError>
    ensures { IfOk result (λ rows. rows ≡ children_below tree.now path.now) }
{
    let children = tree.children(alloc, path)?;
    let mut rows = Rows::new(alloc);
    for child in children.iter() {
        let name = child.name.copy(alloc)?;
        let entry = child.node.copy(alloc)?;
        rows.push(name, entry)?;
    }
    Ok(rows)
}

/// The answer where the path's parent is a folder and what is expected stands at the path, and else why not.
pub(crate) fn in_folder(
    alloc: Global,
    tree: &TreeOf<Entry>,
    path: &Path,
    expected: Option<&Entry>,
    answer: Answer,
) -> Result<Answer, AllocError>
    ensures { IfOk result (λ a. a ≡ in_folder tree.now path.now (where_expected tree.now path.now (option_copied expected.entry) answer)) }
{
    if let Some((_, found)) = missing_parent(alloc, tree, path)? {
        return Ok(Answer::NoParent(found));
    }
    where_expected(alloc, tree, path, expected, answer)
}

/// The answer where what is expected stands at the path, and else what stands there.
pub(crate) fn where_expected(
    alloc: Global,
    tree: &TreeOf<Entry>,
    path: &Path,
    expected: Option<&Entry>,
    answer: Answer,
) -> Result<Answer, AllocError>
    ensures { IfOk result (λ a. a ≡ where_expected tree.now path.now (option_copied expected.entry) answer) }
{
    let found = tree.get(path);
    if is_expected(found, expected) {
        return Ok(answer);
    }
    let found = copy_found(alloc, found)?;
    Ok(Answer::Differs(found))
}

/// The answer to the taking away of this entry where it stands at the path.
pub(crate) fn removed(tree: &TreeOf<Entry>, path: &Path, expected: &Entry) -> Answer
    ensures { result ≡ cond (is_dir expected.now && has_below tree.now path.now) NotEmpty (Done None) }
{
    if expected.is_dir() && tree.has_below(path) {
        Answer::NotEmpty
    } else {
        Answer::Done(None)
    }
}
