//! Tests of what no clause says: which words are read, and that they are written as they were read.
use command_words::{
    Bounded, ClientNumber, Contents, Endpoint, GivenName, Identifier, LabelText, Labels,
    PatternText, RootName, SessionKind, SessionWord, StreamBytes, mode_by, mode_word, phase_by,
    phase_word, read_label, stream_side_by, stream_side_word, switch_by, switch_word, write_label,
    write_session,
};
use std::alloc::{AllocError, Global};
use std::test::Fail;

// Each row is a kind of word and a word: `+` before one that is read, and `-` before one that isn't.
const WORDS: &str = "\
+session a
+session Work_1-x
+session sync_00000000-0000-4000-8000-000000000000
+session fwrd_ffffffff-ffff-ffff-ffff-ffffffffffff
+session sync
+session aaaaaaaaaaaaaaaaaaaaaaaaaaaaaaaaaaaaaaaaaaaaaaaaaaaaaaaaaaaaaaaa
-session aaaaaaaaaaaaaaaaaaaaaaaaaaaaaaaaaaaaaaaaaaaaaaaaaaaaaaaaaaaaaaaaa
-session 1a
-session a.b
-session sync_x
-session sync_00000000-0000-4000-8000-00000000000G
-session sync_00000000-0000-4000-8000-00000000000A
-session sync_00000000000040008000000000000000
-session sync_{00000000-0000-4000-8000-000000000000}
+session sinc_00000000-0000-4000-8000-000000000000
+root A
+root -a
+root =
-root --a
+label k=v
+label k.-_9=.
-label k
-label =v
-label k=
-label k=v=w
-label k=v/w
+endpoint tcp:localhost:80
+endpoint tcp:0.10.255.1:65535
-endpoint tcp:256.0.0.1:80
-endpoint tcp:1.2.3:80
-endpoint tcp:1.2.3.4.5:80
-endpoint tcp:01.2.3.4:80
-endpoint tcp:localhost:0
-endpoint tcp:localhost:65536
-endpoint tcp:localhost:
-endpoint udp:localhost:80
-endpoint tcp:Localhost:80
-endpoint localhost:80
+client 1
+client 18446744073709551615
-client 0
-client 18446744073709551616
-client 01
+contents =
+contents =a=b
-contents a
+stream =a
-stream =
+mode two-way-safe
+mode two-way-resolved
+mode one-way-safe
+mode one-way-replica
-mode two-way
+phase idle
+phase forget
+phase scan-alpha
+phase scan-beta
+phase stage
+phase change
+phase clear
+phase commit
-phase scan
+end near
+end far
-end alpha
+switch on
+switch off
-switch yes";

// A word that was read, as it is written.
fn text_of(alloc: Global, text: &str) -> Result<Option<String>, AllocError> {
    Ok(Some(String::from_str(alloc, text)?))
}

fn session(alloc: Global, word: &[u8]) -> Result<Option<String>, AllocError> {
    let mut text = String::new(alloc);
    match SessionWord::read(alloc, word)? {
        Some(session) => {
            write_session(&mut text, &session.copy(alloc)?)?;
            Ok(Some(text))
        }
        None => Ok(None),
    }
}

fn root(alloc: Global, word: &[u8]) -> Result<Option<String>, AllocError> {
    match RootName::read(alloc, word)? {
        Some(root) => text_of(alloc, root.copy(alloc)?.as_str()),
        None => Ok(None),
    }
}

fn label(alloc: Global, word: &[u8]) -> Result<Option<String>, AllocError> {
    let mut text = String::new(alloc);
    match read_label(alloc, word)? {
        Some(label) => {
            write_label(&mut text, &label.copy(alloc)?)?;
            Ok(Some(text))
        }
        None => Ok(None),
    }
}

fn endpoint(alloc: Global, word: &[u8]) -> Result<Option<String>, AllocError> {
    match Endpoint::read(alloc, word)? {
        Some(endpoint) => text_of(alloc, endpoint.copy(alloc)?.as_str()),
        None => Ok(None),
    }
}

fn client(alloc: Global, word: &[u8]) -> Result<Option<String>, AllocError> {
    match ClientNumber::read(word) {
        Some(number) => {
            let number = number.copy().get();
            Ok(Some(format!(in alloc; "{number}")?))
        }
        None => Ok(None),
    }
}

fn contents(alloc: Global, word: &[u8]) -> Result<Option<String>, AllocError> {
    match Contents::read(alloc, word)? {
        Some(bytes) => with_equals(alloc, bytes.copy(alloc)?.as_slice()),
        None => Ok(None),
    }
}

fn stream(alloc: Global, word: &[u8]) -> Result<Option<String>, AllocError> {
    match StreamBytes::read(alloc, word)? {
        Some(bytes) => with_equals(alloc, bytes.copy(alloc)?.as_slice()),
        None => Ok(None),
    }
}

fn with_equals(alloc: Global, bytes: &[u8]) -> Result<Option<String>, AllocError> {
    match str::from_utf8(bytes) {
        Ok(text) => Ok(Some(format!(in alloc; "={text}")?)),
        Err(_) => Ok(None),
    }
}

fn keyword(alloc: Global, word: Option<&str>) -> Result<Option<String>, AllocError> {
    match word {
        Some(word) => text_of(alloc, word),
        None => Ok(None),
    }
}

fn written(alloc: Global, kind: &str, word: &[u8]) -> Result<Option<String>, AllocError> {
    match kind {
        "session" => session(alloc, word),
        "root" => root(alloc, word),
        "label" => label(alloc, word),
        "endpoint" => endpoint(alloc, word),
        "client" => client(alloc, word),
        "contents" => contents(alloc, word),
        "stream" => stream(alloc, word),
        "mode" => keyword(alloc, mode_by(word).map(|mode| mode_word(mode))),
        "phase" => keyword(alloc, phase_by(word).map(|phase| phase_word(phase))),
        "end" => keyword(
            alloc,
            stream_side_by(word).map(|side| stream_side_word(side)),
        ),
        _ => keyword(alloc, switch_by(word).map(|on| switch_word(on))),
    }
}

// Whether a row's word is to be read, its kind and the word.
fn parts_of(row: &str) -> (bool, &str, &str) {
    let (is_read, rest) = match row.strip_prefix('+') {
        Some(rest) => (true, rest),
        None => (false, row.strip_prefix('-').unwrap_or(row)),
    };
    let (kind, word) = rest.split_once(' ').unwrap_or((rest, ""));
    (is_read, kind, word)
}

#[test]
fn words_are_read_and_written(rt: HostRuntime) -> Result<(), Fail> {
    let alloc = rt.alloc();
    for row in WORDS.lines() {
        let (is_read, kind, word) = parts_of(row);
        match written(alloc, kind, word.as_bytes())? {
            Some(text) => {
                assert!(rt; is_read);
                assert_eq!(rt; text.as_str(), word);
            }
            None => assert!(rt; !is_read),
        }
    }
    Ok(())
}

// The labels of a text, with whether each was taken.
fn taken(alloc: Global, row: &str) -> Result<String, AllocError> {
    let mut labels = Labels::new(alloc);
    let mut text = String::new(alloc);
    for word in row.split(' ') {
        if let Some(label) = read_label(alloc, word.as_bytes())? {
            text.push_str(if labels.insert(label)? { "+" } else { "-" })?;
        }
    }
    for label in labels.copy(alloc)?.as_slice() {
        text.push(' ')?;
        write_label(&mut text, label)?;
    }
    Ok(text)
}

#[test]
fn labels_stand_in_order(rt: HostRuntime) -> Result<(), Fail> {
    let alloc = rt.alloc();
    assert_eq!(rt;
        taken(alloc, "b=1 a=2 b=3 ab=4 B=5")?.as_str(),
        "++-++ B=5 a=2 ab=4 b=1"
    );
    assert_eq!(rt;
        taken(
            alloc,
            "q=0 p=0 o=0 n=0 m=0 l=0 k=0 j=0 i=0 h=0 g=0 f=0 e=0 d=0 c=0 b=0 a=0"
        )?
        .as_str(),
        "++++++++++++++++- b=0 c=0 d=0 e=0 f=0 g=0 h=0 i=0 j=0 k=0 l=0 m=0 n=0 o=0 p=0 q=0"
    );
    Ok(())
}

#[test]
fn the_other_types_are_made(rt: HostRuntime) -> Result<(), Fail> {
    let alloc = rt.alloc();
    let identifier = Identifier::read(b"sync_00000000-0000-4000-8000-00000000000f".as_slice());
    assert_eq!(rt;
        identifier,
        Some(Identifier {
            kind: SessionKind::Sync,
            id: 0x4000_8000_0000_0000_000f
        })
    );
    assert!(rt;
        GivenName::read(alloc, b"w".as_slice())? == GivenName::read(alloc, b"w".as_slice())?
    );
    assert!(rt; LabelText::read(alloc, b"".as_slice())?.is_none());
    assert!(rt; PatternText::read(alloc, b"\xff".as_slice())?.is_none());
    assert!(rt; PatternText::read(alloc, b"".as_slice())?.is_some());
    assert!(rt; Bounded::<2, 3>::of(4).is_none());
    Ok(())
}
