//! A request and who asks it.

use crate::request::Request;
use command_words::Client;

/// What a whole line says: a request, and the client that asks it with the number of its line, if the line names one (`@CLIENT N`
/// before the request). Only a line that changes a session may name a client (`may_name_client` of `specs/Asked.antt`); of others
/// no line is spelt.
#[derive(Debug, Drop)]
pub struct Asked {
    pub client: Option<Client>,
    pub request: Request,
}
