//! Laws of every text: it has one meaning or one place at which it goes wrong, and never both.
ghost use Rattle.std.specs.Prelude.{◌≡◌, ℕ, List};
ghost use Rattle.ignore_glob.specs.Faults.{IsFault};
ghost use Rattle.ignore_glob.specs.Grammar.{IsPattern, Meaning};

/// A text that is a pattern has one meaning.
pub fn one_meaning()
    ensures { (text : List ℕ) (p q : Meaning) → IsPattern text p → IsPattern text q → p ≡ q }
{}

/// A text that goes wrong does so at one place.
pub fn one_place()
    ensures { (text : List ℕ) (i j : ℕ) → IsFault text i → IsFault text j → i ≡ j }
{}

/// A text that is a pattern doesn't go wrong.
pub fn pattern_has_no_fault()
    ensures { (text : List ℕ) (p : Meaning) (place : ℕ) → IsPattern text p → IsFault text place → ⊥ }
{}
