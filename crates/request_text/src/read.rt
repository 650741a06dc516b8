//! How a line is read.
ghost use Rattle.std.specs.Prelude.{◌≡◌, ◌⊎◌, ◌∷◌, ℕ, List, IfOk, None, Ok, Err, MatchOption, false, is_some, length};
ghost use Rattle.line_words.specs.Lines.{HasWords, line_items};
ghost use Rattle.line_words.specs.declared.reading.Reading.TheVariants.{Free};
ghost use Rattle.request_text.specs.Grammar.{IsBadLine, SpellsLine};
ghost use Rattle.request_text.specs.States.{Answers, Finishes, GoesOn, LineGoes, LineSteps, NumbersLine, whole_of};
ghost use Rattle.request_text.specs.declared.asked.Asked.{Asked};
ghost use Rattle.request_text.specs.declared.line_error.LineError.TheVariants.{Bad, Memory};
ghost use Rattle.request_text.specs.declared.place.Place.TheVariants as at;
ghost use Rattle.request_text.specs.declared.state.State.TheVariants as states;

use crate::advance::advance;
use crate::asked::Asked;
use crate::line_error::{BadLine, LineError};
use crate::place::Place;
use crate::request::Request;
use crate::state::State;
use crate::steps::begin;
use command_words::{Client, ClientNumber, GivenName};
use line_words::{Reading, WordError, Words};
use std::alloc::{AllocError, Global};

/// Reads the request that a line spells: freely, with any number of spaces, escapes in either case and options in any order.
///
/// A line that spells none is bad at the first byte of the first word with which no request line begins any more, or at its length if
/// it ends early. A line has one request at most. Whether the texts of ignore patterns are patterns isn't asked here.
///
/// Cost: the length of the line; what it allocates is what the request keeps, and a word that has escapes.
pub fn read_request(alloc: Global, line: &[u8]) -> Result<Asked, LineError>
    ensures value { IfOk result (λ asked. (words : List (List ℕ)) × HasWords (line_items Free line.now) words × SpellsLine asked words) }
    ensures complete { (asked : Asked) (words : List (List ℕ)) → HasWords (line_items Free line.now) words → SpellsLine asked words → (result ≡ Ok asked) ⊎ (result ≡ Err Memory) }
    ensures refused { (place : ℕ) → result ≡ Err (Bad (record { place = place })) → IsBadLine (line_items Free line.now) (length line.now) place }
{
    let mut words = Words::new(Reading::Free, line);
    read_words(alloc, &mut words, line.len())
}

// Reads the words of a line, which ends at `end`.
fn read_words(alloc: Global, words: &mut Words<'_>, end: usize) -> Result<Asked, LineError>
    ensures { Answers words.old end result }
{
    let mut state = State::Start;
    loop {
        match words.next(alloc) {
            Ok(Some(word)) => match step(alloc, state, word.bytes()) {
                Ok(Some(next)) => state = next,
                Ok(None) => return Err(bad(word.place())),
                Err(_) => return Err(LineError::Memory),
            },
            Ok(None) => return finish(state, end),
            Err(WordError::Bad(word)) => return Err(refused(state, word.place)),
            Err(WordError::Memory) => return Err(out_of_memory(state)),
        }
    }
}

// Where a word leads, if it may stand there.
fn step(alloc: Global, state: State, word: &[u8]) -> Result<Option<State>, AllocError>
    ensures { IfOk result (LineSteps (LineGoes state word.now)) }
{
    match state {
        State::Start => start(alloc, word),
        State::Named(name) => Ok(number(name, word)),
        State::Behind(client, place) => behind(alloc, client, place, word),
    }
}

// Where the first word of a line leads.
fn start(alloc: Global, word: &[u8]) -> Result<Option<State>, AllocError>
    ensures { IfOk result (LineSteps (LineGoes states.Start word.now)) }
{
    match behind_at(word) {
        Some(name) => named(alloc, name),
        None => Ok(unnamed(word)),
    }
}

// What stands behind `@`.
fn behind_at(word: &[u8]) -> Option<&[u8]>
    ensures { MatchOption result ((name : List ℕ) → word.now ≡ 64 ∷ name → ⊥) (λ name. word.now ≡ 64 ∷ name.now) }
{
    match word.split_first() {
        Some((b'@', name)) => Some(name),
        _ => None,
    }
}

// A client, of which this is the name.
fn named(alloc: Global, name: &[u8]) -> Result<Option<State>, AllocError>
    ensures { IfOk result (LineSteps (LineGoes states.Start (64 ∷ name.now))) }
{
    match GivenName::read(alloc, name)? {
        Some(found) => Ok(Some(State::Named(found))),
        None => Ok(None),
    }
}

// The first word of a request without a client.
fn unnamed(word: &[u8]) -> Option<State>
    ensures { LineSteps (GoesOn false at.Begin word.now (states.Behind None)) result }
{
    match begin(false, word) {
        Some(found) => Some(State::Behind(None, found)),
        None => None,
    }
}

// The number of a client's line.
fn number(name: GivenName, word: &[u8]) -> Option<State>
    ensures { LineSteps (NumbersLine name word.now) result }
{
    match ClientNumber::read(word) {
        Some(number) => Some(State::Behind(Some(Client { name, number }), Place::Begin)),
        None => None,
    }
}

// A word of a request.
fn behind(
    alloc: Global,
    client: Option<Client>,
    place: Place,
    word: &[u8],
) -> Result<Option<State>, AllocError>
    ensures { IfOk result (LineSteps (GoesOn (is_some client) place word.now (states.Behind client))) }
{
    match advance(alloc, client.is_some(), place, word)? {
        Some(found) => Ok(Some(State::Behind(client, found))),
        None => Ok(None),
    }
}

// What a line spells that ends here.
fn finish(state: State, end: usize) -> Result<Asked, LineError>
    ensures { Finishes state end result }
{
    match state {
        State::Start => Err(bad(end)),
        State::Named(_) => Err(bad(end)),
        State::Behind(client, place) => finish_request(client, place, end),
    }
}

// The request, if it is whole.
fn finish_request(client: Option<Client>, place: Place, end: usize) -> Result<Asked, LineError>
    ensures { Finishes (states.Behind client place) end result }
{
    match whole_of(place) {
        Some(request) => Ok(Asked { client, request }),
        None => Err(bad(end)),
    }
}

// The request of a place at which a line may end.
fn whole_of(place: Place) -> Option<Request>
    ensures { result ≡ whole_of place }
{
    match place {
        Place::Done(request) => Some(request),
        Place::SyncList => Some(Request::SyncList(None)),
        _ => None,
    }
}

// The error at a place, in a state that is given up.
fn refused(_state: State, place: usize) -> LineError
    ensures { result ≡ Bad (record { place = place }) }
{
    bad(place)
}

// Want of memory, in a state that is given up.
fn out_of_memory(_state: State) -> LineError
    ensures { result ≡ Memory }
{
    LineError::Memory
}

// The error at a place.
fn bad(place: usize) -> LineError
    ensures { result ≡ Bad (record { place = place }) }
{
    LineError::Bad(BadLine { place })
}
