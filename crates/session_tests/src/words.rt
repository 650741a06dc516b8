//! The words of a row.
use command_words::{Client, ClientNumber, GivenName, Identifier, SessionKind, SessionWord};
use std::alloc::Global;
use std::test::Fail;

/// The word at this place of a row, or an empty one.
pub fn word(row: &str, place: usize) -> &str {
    row.split(' ').nth(place).unwrap_or("")
}

/// The number that a word spells.
pub fn number(word: &str) -> Result<u64, Fail> {
    Ok(word.parse().ok().ok_or("no number")?)
}

/// The identifier's number that a word spells.
pub fn id(word: &str) -> Result<u128, Fail> {
    Ok(number(word)? as u128)
}

/// The kind: `forward`, or else `sync`.
pub fn kind(word: &str) -> SessionKind {
    match word {
        "forward" => SessionKind::Forward,
        _ => SessionKind::Sync,
    }
}

/// The name that a word spells: none for `-`.
pub fn name(alloc: Global, word: &str) -> Result<Option<GivenName>, Fail> {
    Ok(GivenName::read(alloc, word.as_bytes())?)
}

fn named(alloc: Global, word: &str) -> Result<SessionWord, Fail> {
    match name(alloc, word)? {
        Some(name) => Ok(SessionWord::Named(name)),
        None => Err(Fail::from("no name")),
    }
}

fn identified(kind: SessionKind, word: &str) -> Result<SessionWord, Fail> {
    let id = id(word)?;
    Ok(SessionWord::Identified(Identifier { kind, id }))
}

/// The word of a session: a name, or `#` or `~` before the number of an identifier of either kind.
pub fn session(alloc: Global, word: &str) -> Result<SessionWord, Fail> {
    if let Some(digits) = word.strip_prefix('#') {
        return identified(SessionKind::Sync, digits);
    }
    if let Some(digits) = word.strip_prefix('~') {
        return identified(SessionKind::Forward, digits);
    }
    named(alloc, word)
}

fn client_number(word: &str) -> Result<ClientNumber, Fail> {
    Ok(ClientNumber::of(number(word)?).ok_or("no number")?)
}

/// The client of these two words, its name and its number, or `- -`.
pub fn client(alloc: Global, client: &str, word: &str) -> Result<Option<Client>, Fail> {
    match name(alloc, client)? {
        Some(name) => Ok(Some(Client {
            name,
            number: client_number(word)?,
        })),
        None => Ok(None),
    }
}
