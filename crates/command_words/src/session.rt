//! The words that name sessions.
ghost use Rattle.std.specs.Prelude.{◌≡◌, ◌++◌, ◌↔◌, Some, IfOk, OnOk, string_bytes};
ghost use Rattle.line_words.specs.Spelling.{escaped};
ghost use Rattle.command_words.specs.Session.{IsSession, session_word};
ghost use Rattle.command_words.specs.declared.session.SessionWord.{SessionWord};

use crate::given_name::GivenName;
use crate::identifier::{Identifier, write_identifier};
use line_words::write_word;
use std::alloc::{AllocError, Global};

/// How a line names a session.
#[derive(Debug, Drop)]
pub enum SessionWord {
    /// By its identifier, of either kind.
    Identified(Identifier),
    /// By its name.
    Named(GivenName),
}

impl SessionWord {
    /// The session that a word names, if it names one. Cost: its length.
    pub fn read(alloc: Global, word: &[u8]) -> Result<Option<SessionWord>, AllocError>
        ensures { IfOk result (λ found. (s : SessionWord) → (found ≡ Some s) ↔ (IsSession s × (word.now ≡ session_word s))) }
    {
        if let Some(identifier) = Identifier::read(word) {
            return Ok(Some(SessionWord::Identified(identifier)));
        }
        match GivenName::read(alloc, word)? {
            Some(name) => Ok(Some(SessionWord::Named(name))),
            None => Ok(None),
        }
    }

    /// An equal word. Cost: its length.
    pub fn copy(&self, alloc: Global) -> Result<SessionWord, AllocError>
        ensures { IfOk result (λ session. session ≡ self.now) }
    {
        match self {
            SessionWord::Identified(identifier) => Ok(SessionWord::Identified(*identifier)),
            SessionWord::Named(name) => Ok(SessionWord::Named(name.copy(alloc)?)),
        }
    }
}

/// Writes the word of a session behind a text. Cost: its length.
pub fn write_session(text: &mut String, session: &SessionWord) -> Result<(), AllocError>
    ensures { OnOk result (string_bytes text.new ≡ string_bytes text.old ++ escaped (session_word session.now)) }
{
    match session {
        SessionWord::Identified(identifier) => write_identifier(text, *identifier),
        SessionWord::Named(name) => write_word(text, name.as_str().as_bytes()),
    }
}
