//! Words and lemmas that several crates cite, and nothing to call.
//!
//! `specs/Told.antt` says how a clause speaks of an object that may tell what it holds, and `specs/Lists.antt` what it is for a
//! list to begin with another.
//!
//! A map of one's own that keeps a `BTreeMap` is seen by its contracts as the finite map of the tree's
//! entries. `proofs/TreeMaps.antt` says that look-ups, lengths, entries and insertions of the two
//! agree, for any keys and any total order. `proofs/SortedLists.antt` says the same of a map that keeps a list of
//! entries whose keys rise, and `proofs/MapLoops.antt` says what a `for` over the entries of a finite map comes to.
//! `proofs/Constructors.antt` takes equal lists and options apart.
#![tactic(auto)]
