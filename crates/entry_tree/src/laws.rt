//! Laws of the spelling of atoms, for every atom and every line.
ghost use Rattle.std.specs.Prelude.{◌≡◌, ℕ, List};
ghost use Rattle.line_words.specs.Lines.{Item, HasWords, line_items};
ghost use Rattle.line_words.specs.declared.reading.Reading.TheVariants.{Canonical};
ghost use Rattle.entry_tree.specs.AtomText.{words_of, spelling_of, IsAtom, IsBadAtom};
ghost use Rattle.entry_tree.specs.declared.atom.Atom.{Atom};

/// The words of a line are those of an atom, or bad at one place, and not both: so `read_atom` answers with the one or the other,
/// as long as there is memory.
pub fn one_reading_of_atoms()
    ensures not_both { (items : List Item) (end place : ℕ) (atom : Atom)
        → IsAtom atom → HasWords items (words_of atom) → IsBadAtom items end place → ⊥ }
    ensures one_place { (items : List Item) (end place other : ℕ)
        → IsBadAtom items end place → IsBadAtom items end other → place ≡ other }
{}

/// What is written of an atom is read as its words.
pub fn written_atom_is_read()
    ensures { (atom : Atom) → IsAtom atom → HasWords (line_items Canonical (spelling_of atom)) (words_of atom) }
{}
