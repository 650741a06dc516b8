//! A client and its number.
ghost use Rattle.std.specs.Prelude.{◌≡◌, IfOk};

use crate::bounded::ClientNumber;
use crate::given_name::GivenName;
use std::alloc::{AllocError, Global};

/// Who asks, and by which number: a client counts its lines, so that a line that it sends again isn't done twice.
#[derive(Debug, Drop)]
pub struct Client {
    /// The client's name.
    pub name: GivenName,
    /// The number of its line.
    pub number: ClientNumber,
}

impl Client {
    /// An equal client. Cost: the length of its name.
    pub fn copy(&self, alloc: Global) -> Result<Client, AllocError>
        ensures { IfOk result (λ client. client ≡ self.now) }
    {
        Ok(Client {
            name: self.name.copy(alloc)?,
            number: self.number.copy(),
        })
    }
}
