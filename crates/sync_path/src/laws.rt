//! Laws of paths, for all lists of names and all texts.
ghost use Rattle.std.specs.Prelude.{◌≡◌, ◌++◌, ◌∷◌, ◌↔◌, ◌⊎◌, ℕ, List, [], Some, None, false, IsTrue};
ghost use Rattle.std.specs.declared.cmp.Ordering.TheVariants.{Equal};
ghost use Rattle.std.specs.Cmp.{IsTotalOrder};
ghost use Rattle.std.specs.Ordering.{is_gt};
ghost use Rattle.sync_path.specs.Path.{IsPath, is_under, path_cmp, path_text, may_follow, parent_of, last_name};
ghost use Rattle.sync_path.specs.PathText.{IsPathText, IsBadPlace};

/// Path order is a total order, in which only equal paths are level.
pub fn path_order_is_total()
    ensures total { IsTotalOrder path_cmp }
    ensures exact { (path other : List (List ℕ)) → path_cmp path other ≡ Equal → path ≡ other }
{}

/// What lies at or below a path is an interval of path order, whose first is the path itself.
pub fn below_is_an_interval()
    ensures meaning { (path other : List (List ℕ))
        → IsTrue (is_under path other) ↔ ((rest : List (List ℕ)) × (path ≡ other ++ rest)) }
    ensures first { (path below : List (List ℕ))
        → IsTrue (is_under below path) → is_gt (path_cmp path below) ≡ false }
    ensures between { (path low middle high : List (List ℕ))
        → IsTrue (is_under low path) → IsTrue (is_under high path)
        → is_gt (path_cmp low middle) ≡ false → is_gt (path_cmp middle high) ≡ false
        → IsTrue (is_under middle path) }
{}

/// A child's parent is the path that it was made of, and a path is its last name's in its parent.
pub fn child_and_parent()
    ensures parent { (path : List (List ℕ)) (name : List ℕ) → parent_of (path ++ name ∷ []) ≡ Some path }
    ensures name { (path : List (List ℕ)) (name : List ℕ) → last_name (path ++ name ∷ []) ≡ Some name }
    ensures child { (path above : List (List ℕ)) (name : List ℕ)
        → parent_of path ≡ Some above → last_name path ≡ Some name → path ≡ above ++ name ∷ [] }
    ensures root { (path : List (List ℕ)) → parent_of path ≡ None → path ≡ [] }
    ensures fits { (path : List (List ℕ)) (name : List ℕ)
        → IsPath (path ++ name ∷ []) ↔ (IsPath path × IsTrue (may_follow path name)) }
{}

/// What is written of a path is a path's text, and no other path has it: so reading it gives the path back.
pub fn written_is_read()
    ensures text { (path : List (List ℕ)) → IsPath path → IsPathText (path_text path) }
    ensures same { (path other : List (List ℕ)) → IsPath path → IsPath other
        → path_text path ≡ path_text other → path ≡ other }
{}

/// Each text is that of a path, or bad at one place, and not both.
pub fn one_reading()
    ensures either { (text : List ℕ) → IsPathText text ⊎ ((place : ℕ) × IsBadPlace text place) }
    ensures not_both { (text : List ℕ) (place : ℕ)
        → IsPathText text → IsBadPlace text place → ⊥ }
    ensures one_place { (text : List ℕ) (place other : ℕ)
        → IsBadPlace text place → IsBadPlace text other → place ≡ other }
{}
