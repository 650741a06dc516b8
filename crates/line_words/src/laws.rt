//! Laws of words and lines, for every word and every line.
ghost use Rattle.std.specs.Prelude.{◌≡◌, ◌++◌, ◌∷◌, ◌+◌, ◌<◌, ◌^◌, ℕ, List, [], Some, decimal, length};
ghost use Rattle.line_words.specs.Lines.{AreBytes, AreWords, HasWords, items_at, line_items};
ghost use Rattle.line_words.specs.Places.{placed};
ghost use Rattle.line_words.specs.Spelling.{escaped, space, unescaped, written};
ghost use Rattle.line_words.specs.declared.reading.Reading.{Reading};
ghost use Rattle.line_words.specs.declared.reading.Reading.TheVariants.{Canonical};

/// What a writer spells is read as the word it is, in either reading. Read canonically, nothing else is that word.
pub fn one_spelling()
    ensures read { (reading : Reading) (word : List ℕ) → AreBytes word → unescaped reading (escaped word) ≡ Some word }
    ensures alone { (text word : List ℕ) → unescaped Canonical text ≡ Some word → (text ≡ escaped word) × AreBytes word }
{}

/// A line that a writer wrote is read as its words, each at its place, in either reading. Read canonically, no other line is,
/// and no word of it is empty.
pub fn written_is_read()
    ensures read { (reading : Reading) (words : List (List ℕ)) → AreWords words → line_items reading (written words) ≡ placed 0 words }
    ensures alone { (line : List ℕ) (words : List (List ℕ)) → line_items Canonical line ≡ placed 0 words → (line ≡ written words) × AreWords words }
    ensures words { (line : List ℕ) (words : List (List ℕ)) → HasWords (line_items Canonical line) words → (line ≡ written words) × AreWords words }
{}

/// Words behind others: what stands before a space of a line and what stands behind it are read on their own, and a writer
/// writes one list of words behind another with a space between them.
pub fn words_behind_others()
    ensures read { (reading : Reading) (at : ℕ) (front back : List ℕ)
        → items_at reading at (front ++ space ∷ back) ≡ items_at reading at front ++ items_at reading (at + length front + 1) back }
    ensures written { (word next : List ℕ) (words more : List (List ℕ))
        → written ((word ∷ words) ++ (next ∷ more)) ≡ written (word ∷ words) ++ space ∷ written (next ∷ more) }
{}

/// A number in decimal is a word in which nothing is escaped.
pub fn numbers_stand()
    ensures { (n : ℕ) → n < 2 ^ 64 → escaped (decimal n) ≡ decimal n }
{}
