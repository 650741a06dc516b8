//! The endpoints of forwarding sessions.
ghost use Rattle.std.specs.Prelude.{◌≡◌, ◌↔◌, ℕ, IfOk, IfSome, IsTrue, None};
ghost use Rattle.command_words.specs.Endpoint.{AreOctets, IsEndpoint, IsHost, IsHostAndPort, IsOctet, IsPort};

use crate::bounded::Port;
use crate::cut::cut;
use line_words::read_number;
use std::alloc::{AllocError, Global};
use std::marker::Model;

/// How many numbers of an address stand behind its first.
const MORE_OCTETS: usize = 3;
/// The greatest number of an address.
const MAX_OCTET: u64 = 255;

/// An endpoint of a forwarding session: `tcp:HOST:PORT`. HOST is four numbers up to 255 with a `.` between each two, or `localhost`;
/// PORT is a number from 1 to 65,535. Contracts see its bytes.
#[derive(Debug, Drop)]
pub struct Endpoint {
    text: String,
}

impl Model for Endpoint {
    ghost use Rattle.std.specs.Prelude.{ℕ, List, string_bytes};
    ghost use Rattle.command_words.specs.Endpoint.{IsEndpoint};

    ghost Value = { List ℕ };

    ghost view = { λ e. string_bytes e.text };

    ghost invariant = { λ e. IsEndpoint (string_bytes e.text) };
}

impl Endpoint {
    /// The endpoint that a word is, if it is one. Cost: its length.
    pub fn read(alloc: Global, word: &[u8]) -> Result<Option<Endpoint>, AllocError>
        ensures value { IfOk result (λ found. IfSome found (λ endpoint. (endpoint ≡ word.now) × IsEndpoint word.now)) }
        ensures none { IfOk result (λ found. found ≡ None → IsEndpoint word.now → ⊥) }
    {
        match str::from_utf8(word) {
            Ok(text) => Endpoint::of_text(alloc, text),
            Err(_) => Ok(None),
        }
    }

    // The endpoint that a text is, if it is one.
    fn of_text(alloc: Global, text: &str) -> Result<Option<Endpoint>, AllocError>
        ensures value { IfOk result (λ found. IfSome found (λ endpoint. (endpoint ≡ text.now) × IsEndpoint text.now)) }
        ensures none { IfOk result (λ found. found ≡ None → IsEndpoint text.now → ⊥) }
    {
        if !is_endpoint(text.as_bytes()) {
            return Ok(None);
        }
        Ok(Some(Endpoint {
            text: String::from_str(alloc, text)?,
        }))
    }

    /// The endpoint as text. It takes no memory.
    pub fn as_str(&self) -> &str
        ensures value { result.now ≡ self.now }
        ensures endpoint { IsEndpoint self.now }
    {
        self.text.as_str()
    }

    /// An equal endpoint. Cost: its length.
    pub fn copy(&self, alloc: Global) -> Result<Endpoint, AllocError>
        ensures { IfOk result (λ endpoint. endpoint ≡ self.now) }
    {
        Ok(Endpoint {
            text: String::from_str(alloc, self.as_str())?,
        })
    }
}

// Whether the word is an endpoint.
fn is_endpoint(word: &[u8]) -> bool
    ensures { IsTrue result ↔ IsEndpoint word.now }
{
    match cut(word, b':') {
        Some((scheme, rest)) => scheme == b"tcp".as_slice() && is_host_and_port(rest),
        None => false,
    }
}

// Whether the word is a host and a port.
fn is_host_and_port(word: &[u8]) -> bool
    ensures { IsTrue result ↔ IsHostAndPort word.now }
{
    match cut(word, b':') {
        Some((host, port)) => is_host(host) && is_port(port),
        None => false,
    }
}

// Whether the word is a host.
fn is_host(word: &[u8]) -> bool
    ensures { IsTrue result ↔ IsHost word.now }
{
    word == b"localhost".as_slice() || are_octets(word, MORE_OCTETS)
}

// Whether the word is a port.
fn is_port(word: &[u8]) -> bool
    ensures { IsTrue result ↔ IsPort word.now }
{
    Port::read(word).is_some()
}

// Whether the word is a number up to 255, and so many more of them.
fn are_octets(word: &[u8], more: usize) -> bool
    ensures { IsTrue result ↔ AreOctets more word.now }
{
    if more == 0 {
        return is_octet(word);
    }
    match cut(word, b'.') {
        Some((first, rest)) => is_octet(first) && are_octets(rest, more - 1),
        None => false,
    }
}

// Whether the word is a number up to 255.
fn is_octet(word: &[u8]) -> bool
    ensures { IsTrue result ↔ IsOctet word.now }
{
    read_number(word, MAX_OCTET).is_some()
}
