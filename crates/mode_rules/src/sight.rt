//! What a decision looks at.
ghost use Rattle.std.specs.Prelude.{◌≡◌};
ghost use Rattle.mode_rules.specs.Trees.{paths_of};
ghost use Rattle.mode_rules.specs.Verdicts.{comparison, verdict};

use crate::comparing::{Comparison, is_less_under, is_same_under};
use crate::mode::Mode;
use crate::verdict::{Verdict, first_case};
use entry_tree::Tree;
use sync_path::Path;

/// The three trees that a decision looks at.
#[derive(Clone, Copy)]
pub struct Sight<'a> {
    /// What both sides last agreed on.
    pub ancestor: &'a Tree,
    /// What was seen of alpha.
    pub alpha: &'a Tree,
    /// What was seen of beta.
    pub beta: &'a Tree,
}

impl<'a> Sight<'a> {
    ghost use Rattle.mode_rules.specs.Sights.{trees_of};

    // How a side stands to the ancestor, at and below a path.
    fn comparison(&self, side: &Tree, paths: &[Path], path: &Path) -> Comparison
        requires { paths.now ≡ paths_of (trees_of self.now) }
        ensures { result ≡ comparison (trees_of self.now) side.now path.now }
    {
        Comparison {
            same: is_same_under(self.ancestor, side, paths, path),
            less: is_less_under(self.ancestor, side, paths, path),
        }
    }

    // What is decided at a path, of the paths of the three trees.
    pub(crate) fn verdict(&self, mode: Mode, paths: &[Path], path: &Path) -> Verdict
        requires { paths.now ≡ paths_of (trees_of self.now) }
        ensures { result ≡ verdict mode (trees_of self.now) path.now }
    {
        let alpha = self.comparison(self.alpha, paths, path);
        let beta = self.comparison(self.beta, paths, path);
        first_case(mode, self.alpha.get(path), self.beta.get(path), alpha, beta)
    }
}
