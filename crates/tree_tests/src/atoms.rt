//! Tests of what no clause says: digests of the standard, spellings of atoms, bad places, lengths of texts, and the words of paths.
use entry_tree::{
    Atom, AtomError, Digest, PieceHasher, ProblemKind, Text, TextError, read_atom, read_path,
    text_of, write_path,
};
use std::alloc::{AllocError, Global};
use std::test::Fail;

fn repeated(alloc: Global, piece: &str, times: usize) -> Result<String, AllocError> {
    let mut text = String::new(alloc);
    for _ in 0..times {
        text.push_str(piece)?;
    }
    Ok(text)
}

// The text, if it has a length that a text may have.
fn text_of_good_length(alloc: Global, text: &str) -> Result<Option<Text>, AllocError> {
    match Text::read(alloc, text) {
        Ok(text) => Ok(Some(text)),
        Err(TextError::BadLength) => Ok(None),
        Err(TextError::Memory) => Err(AllocError),
    }
}

#[test]
fn digests_are_those_of_the_standard(rt: HostRuntime) -> Result<(), Fail> {
    let alloc = rt.alloc();
    // The examples of FIPS 180-4.
    let abc = Digest::of(b"abc");
    let nothing = Digest::of(b"");
    assert_eq!(rt;
        hex::encode(alloc, abc.as_bytes())?.as_str(),
        "ba7816bf8f01cfea414140de5dae2223b00361a396177a9cb410ff61f20015ad"
    );
    assert_eq!(rt;
        hex::encode(alloc, nothing.as_bytes())?.as_str(),
        "e3b0c44298fc1c149afbf4c8996fb92427ae41e4649b934ca495991b7852b855"
    );
    assert!(rt; abc != nothing);
    Ok(())
}

#[test]
fn a_digest_comes_in_pieces_bytes_and_digits(rt: HostRuntime) -> Result<(), Fail> {
    let abc = Digest::of(b"abc");
    let mut pieces = PieceHasher::new();
    pieces.take(b"a");
    pieces.take(b"bc");
    assert!(rt; pieces.finish() == abc);
    assert!(rt; Digest::from_bytes(*abc.as_bytes()) == abc);
    assert!(rt; Digest::read(abc.write(rt.alloc())?.as_bytes()) == Some(abc));
    Ok(())
}

#[test]
fn atoms_are_spelt(rt: HostRuntime) -> Result<(), Fail> {
    let alloc = rt.alloc();
    let cases = [
        (Atom::Dir, "dir"),
        (
            Atom::File(Digest::of(b"abc"), true),
            "file ba7816bf8f01cfea414140de5dae2223b00361a396177a9cb410ff61f20015ad x",
        ),
        (
            Atom::File(Digest::of(b""), false),
            "file e3b0c44298fc1c149afbf4c8996fb92427ae41e4649b934ca495991b7852b855",
        ),
        (
            Atom::Link(Text::read(alloc, "../a b/é%")?),
            "link =../a%20b/%C3%A9%25",
        ),
        (Atom::Untracked, "untracked"),
        (Atom::Problem(ProblemKind::Changed), "problem 1"),
        (Atom::Problem(ProblemKind::TooLarge), "problem 2"),
        (Atom::Problem(ProblemKind::Failed), "problem 3"),
    ];
    for (atom, spelling) in cases {
        assert_eq!(rt; text_of(alloc, &atom)?.as_str(), spelling);
        let copy = atom.copy(alloc)?;
        assert!(rt; copy == atom, "{spelling}");
        assert_eq!(rt; text_of(alloc, &copy)?.as_str(), spelling);
    }
    Ok(())
}

#[test]
fn a_text_has_1_to_4096_bytes(rt: HostRuntime) -> Result<(), Fail> {
    let alloc = rt.alloc();
    let cases = [
        ("a", 0, false),
        ("a", 1, true),
        ("/", 4096, true),
        ("a", 4097, false),
        ("é", 2048, true),
        ("é", 2049, false),
    ];
    for (piece, times, good) in cases {
        let text = repeated(alloc, piece, times)?;
        match text_of_good_length(alloc, text.as_str())? {
            Some(read) => {
                assert!(rt; good, "{times} times {piece}");
                assert_eq!(rt; read.as_str(), text.as_str());
                assert_eq!(rt; read.copy(alloc)?.as_str(), text.as_str());
            }
            None => assert!(rt; !good, "{times} times {piece}"),
        }
    }
    Ok(())
}

// The place at which a text is bad, or none where it is an atom that is written as the same text.
fn bad_place(alloc: Global, text: &str) -> Result<Option<usize>, AllocError> {
    match read_atom(alloc, text) {
        Ok(atom) => {
            if text_of(alloc, &atom)?.as_str() == text {
                Ok(None)
            } else {
                Err(AllocError)
            }
        }
        Err(AtomError::Bad(bad)) => Ok(Some(bad.place)),
        Err(AtomError::Memory) => Err(AllocError),
    }
}

#[test]
fn a_text_is_an_atom_or_bad_at_one_place(rt: HostRuntime) -> Result<(), Fail> {
    let alloc = rt.alloc();
    let cases = [
        ("dir", None),
        (
            "file ba7816bf8f01cfea414140de5dae2223b00361a396177a9cb410ff61f20015ad",
            None,
        ),
        (
            "file ba7816bf8f01cfea414140de5dae2223b00361a396177a9cb410ff61f20015ad x",
            None,
        ),
        ("link =a%20b", None),
        ("problem 3", None),
        ("", Some(0)),
        ("dirs", Some(0)),
        ("dir ", Some(4)),
        ("untracked dir", Some(10)),
        ("file", Some(4)),
        ("file 00", Some(5)),
        (
            "file BA7816bf8f01cfea414140de5dae2223b00361a396177a9cb410ff61f20015ad",
            Some(5),
        ),
        (
            "file ba7816bf8f01cfea414140de5dae2223b00361a396177a9cb410ff61f20015ad ",
            Some(70),
        ),
        (
            "file ba7816bf8f01cfea414140de5dae2223b00361a396177a9cb410ff61f20015ad y",
            Some(70),
        ),
        (
            "file ba7816bf8f01cfea414140de5dae2223b00361a396177a9cb410ff61f20015ad x x",
            Some(72),
        ),
        ("file  00", Some(5)),
        ("link =a b", Some(8)),
        ("link =%61", Some(5)),
        ("link =%c3%a9", Some(5)),
        ("link =é", Some(5)),
        ("link =%FF", Some(5)),
        ("link a", Some(5)),
        ("link =", Some(5)),
        ("problem", Some(7)),
        ("problem 4", Some(8)),
        ("problem 11", Some(8)),
        ("untracked1", Some(0)),
        ("problem 1 2", Some(10)),
    ];
    for (text, place) in cases {
        assert_eq!(rt; bad_place(alloc, text)?, place, "{text}");
    }
    Ok(())
}

// The path whose word this is, as its word again, or `none`.
fn path_again(alloc: Global, word: &str) -> Result<String, AllocError> {
    let mut text = String::new(alloc);
    match read_path(alloc, word.as_bytes())? {
        Some(path) => write_path(&mut text, &path)?,
        None => text.push_str("none")?,
    }
    Ok(text)
}

#[test]
fn a_paths_word_is_its_text_and_a_dot_for_the_root(rt: HostRuntime) -> Result<(), Fail> {
    let alloc = rt.alloc();
    let cases = [
        (".", "."),
        ("a", "a"),
        ("a/b c/é", "a/b%20c/%C3%A9"),
        ("", "none"),
        ("/", "none"),
        ("a/", "none"),
        ("a/..", "none"),
    ];
    for (word, written) in cases {
        assert_eq!(rt; path_again(alloc, word)?.as_str(), written);
    }
    Ok(())
}
