//! The laws. Each is the contract of a function that does nothing.
ghost use Rattle.transition_laws.specs.Laws.{EachIsCounted, EachTakesOnlySeen, AreFew, AskInOrder};
ghost use Rattle.transition_laws.specs.Staged.{StagesAlone, UndisturbedKeeps};
ghost use Rattle.transition_laws.specs.Undisturbed.{UndisturbedLeaves, UndisturbedProblems};

/// Each operation takes away only what is tracked, at a path of the old tree, and is asked with the entry that the stamps tell of it.
pub fn operations_take_what_was_seen()
    ensures { EachTakesOnlySeen }
{}

/// A change has no more operations than its old and its new tree have entries.
pub fn few_operations()
    ensures { AreFew }
{}

/// Whatever is answered: what is asked are operations of the change, in their order and each once at most, and one line lands for each that is done.
pub fn courses_follow()
    ensures order { AskInOrder }
    ensures lines { EachIsCounted }
{}

/// A change that nobody disturbs: each of its operations is answered by its row, on states that follow from each other. It begins on a state that
/// agrees with what was seen at and below its path, and in which all its files are kept.
///
/// Where all that was seen is tracked, what is to be there then stands at and below the path, and nothing else; no operation has a problem. Where
/// something isn't tracked, it stays with the folders above it, all else that is tracked goes, and nothing is made. The problems then are `not-empty`
/// at the lowest of these folders, and `skipped` at the others and at all that was to be made. All other paths keep their entries, and all contents stay.
pub fn undisturbed_changes()
    ensures leaves { UndisturbedLeaves }
    ensures problems { UndisturbedProblems }
{}

/// A staging that nobody disturbs keeps every file that stands on the other side with its stamp, if the stamp's content has the file's digest and at most
/// 16,777,216 bytes. It changes no entry and no content of the side that needs the files.
pub fn undisturbed_stagings()
    ensures keeps { UndisturbedKeeps }
    ensures alone { StagesAlone }
{}
