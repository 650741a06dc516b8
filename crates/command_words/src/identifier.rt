//! The identifiers of sessions.
ghost use Rattle.std.specs.Prelude.{◌≡◌, ◌↔◌, ◌++◌, ◌<◌, ◌^◌, ℕ, Some, IsTrue, OnOk, string_bytes};
ghost use Rattle.line_words.specs.Spelling.{escaped};
ghost use Rattle.command_words.specs.Identifier.{identifier_word, IsIdentifier, kind_by, kind_prefix, uuid_text};
ghost use Rattle.command_words.specs.declared.identifier.Identifier.{Identifier};

use crate::session_kind::SessionKind;
use line_words::write_word;
use std::alloc::AllocError;
use uuid::Uuid;

/// How long `sync_` and `fwrd_` are.
const PREFIX_LEN: usize = 5;

/// The identifier of a session: its kind and a number of 128 bits, which is written as a UUID of any version.
#[derive(Clone, Copy, Debug, PartialEq, Eq)]
pub struct Identifier {
    pub kind: SessionKind,
    pub id: u128,
}

impl Identifier {
    /// The identifier that a word spells: `sync_` or `fwrd_`, and a UUID, hyphenated, in lower case.
    ///
    /// It takes no memory. Cost: the length of the word.
    pub fn read(word: &[u8]) -> Option<Identifier>
        ensures { (i : Identifier) → (result ≡ Some i) ↔ (IsIdentifier i × (word.now ≡ identifier_word i)) }
    {
        if word.len() < PREFIX_LEN {
            return None;
        }
        let (prefix, text) = word.split_at(PREFIX_LEN);
        let kind = kind_by(prefix)?;
        let id = read_uuid(text)?;
        Some(Identifier { kind, id })
    }
}

// The kind whose identifiers begin with this.
fn kind_by(prefix: &[u8]) -> Option<SessionKind>
    ensures { result ≡ kind_by prefix.now }
{
    if prefix == b"sync_".as_slice() {
        return Some(SessionKind::Sync);
    }
    if prefix == b"fwrd_".as_slice() {
        return Some(SessionKind::Forward);
    }
    None
}

// The number that a UUID in lower case writes.
fn read_uuid(text: &[u8]) -> Option<u128>
    ensures { (id : ℕ) → (result ≡ Some id) ↔ ((id < 2 ^ 128) × (text.now ≡ uuid_text id)) }
{
    let Ok(uuid) = Uuid::try_parse_ascii(text) else {
        return None;
    };
    let id = uuid.as_u128();
    if is_uuid_of(text, id) { Some(id) } else { None }
}

// Whether the text is the UUID of this number.
fn is_uuid_of(text: &[u8], id: u128) -> bool
    ensures { IsTrue result ↔ (text.now ≡ uuid_text id) }
{
    let mut buffer = Uuid::encode_buffer();
    let written = Uuid::from_u128(id).hyphenated().encode_lower(&mut buffer);
    written.as_bytes() == text
}

/// Writes the word of an identifier behind a text. Cost: its length.
pub fn write_identifier(text: &mut String, identifier: Identifier) -> Result<(), AllocError>
    ensures { OnOk result (string_bytes text.new ≡ string_bytes text.old ++ escaped (identifier_word identifier)) }
{
    write_word(text, kind_prefix(identifier.kind).as_bytes())?;
    write_uuid(text, identifier.id)
}

// What the identifiers of a kind begin with.
fn kind_prefix(kind: SessionKind) -> &'static str
    ensures { result.now ≡ kind_prefix kind }
{
    match kind {
        SessionKind::Sync => "sync_",
        SessionKind::Forward => "fwrd_",
    }
}

// Writes a number as a UUID behind a text.
fn write_uuid(text: &mut String, id: u128) -> Result<(), AllocError>
    ensures { OnOk result (string_bytes text.new ≡ string_bytes text.old ++ escaped (uuid_text id)) }
{
    let mut buffer = Uuid::encode_buffer();
    let written = Uuid::from_u128(id).hyphenated().encode_lower(&mut buffer);
    write_word(text, written.as_bytes())
}
