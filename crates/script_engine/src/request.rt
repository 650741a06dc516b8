//! What a line of a script asks.
ghost use Rattle.std.specs.Prelude.{◌≡◌, ◌&&◌, not, map, None, Some, if◌then◌else◌, IfOk, bytes_eq};
ghost use Rattle.std.specs.List.{list_all};
ghost use Rattle.sync_path.specs.Name.{is_name};
ghost use Rattle.script_engine.specs.Words.{is_word, is_root, is_session_name};
ghost use Rattle.script_engine.specs.Request.{put_of, create_of, flush_of, show_of, form_of, request_of};

use crate::word::{Contents, Word};
use crate::words::{behind, first_words, is_identifier, is_root, is_session_name, is_word};
use std::alloc::{AllocError, Global};
use sync_path::{Name, PathError};

/// What a line asks, once it is one of the forms.
#[derive(Drop)]
pub enum Request {
    /// `edit ROOT put FILE =BYTES`
    Put(Word, Name, Contents),
    /// `sync create --name=NAME ALPHA BETA`
    Create(Word, Word, Word),
    /// `sync flush SESSION`
    Flush(Word),
    /// `show ROOT`
    Show(Word),
}

/// The request that a line is, or `None` where it is none of the forms.
///
/// The words of a form stand between single spaces, and hold bytes from 0x21 to 0x7E without `%`.
/// An `Err` is want of memory. Cost: the length of the line.
pub fn read_request(alloc: Global, line: &[u8]) -> Result<Option<Request>, AllocError>
    ensures { IfOk result (λ request. request ≡ request_of line.now) }
{
    match std::str::from_utf8(line) {
        Ok(text) => text_request(alloc, text),
        Err(_) => Ok(None),
    }
}

fn text_request(alloc: Global, text: &str) -> Result<Option<Request>, AllocError>
    ensures { IfOk result (λ request. request ≡ request_of text.now) }
{
    let words = first_words(alloc, text)?;
    words_request(alloc, words.as_slice())
}

fn words_request(alloc: Global, words: &[&str]) -> Result<Option<Request>, AllocError>
    ensures { IfOk result (λ request. request ≡ (if list_all is_word (map (λ word. word.now) words.now) then form_of (map (λ word. word.now) words.now) else None)) }
{
    if are_words(words) {
        form_request(alloc, words)
    } else {
        Ok(None)
    }
}

fn are_words(words: &[&str]) -> bool
    ensures { result ≡ list_all is_word (map (λ word. word.now) words.now) }
{
    words.iter().all(|word| is_word(word))
}

fn form_request(alloc: Global, words: &[&str]) -> Result<Option<Request>, AllocError>
    ensures { IfOk result (λ request. request ≡ form_of (map (λ word. word.now) words.now)) }
{
    match words {
        [show, root] => show_request(alloc, show, root),
        [sync, flush, session] => flush_request(alloc, sync, flush, session),
        [verb, one, two, three, four] => match put_request(alloc, verb, one, two, three, four)? {
            Some(put) => Ok(Some(put)),
            None => create_request(alloc, verb, one, two, three, four),
        },
        _ => Ok(None),
    }
}

// `edit ROOT put FILE =BYTES`
fn put_request(
    alloc: Global,
    edit: &str,
    root: &str,
    put: &str,
    file: &str,
    contents: &str,
) -> Result<Option<Request>, AllocError>
    ensures { IfOk result (λ request. request ≡ put_of edit.now root.now put.now file.now contents.now) }
{
    if edit != "edit" || !is_root(root) || put != "put" {
        return Ok(None);
    }
    let Some(bytes) = behind(contents, "=") else {
        return Ok(None);
    };
    let Some(name) = name_of(alloc, file)? else {
        return Ok(None);
    };
    let root = Word::new(alloc, root)?;
    let contents = Contents::new(alloc, bytes.as_bytes())?;
    Ok(Some(Request::Put(root, name, contents)))
}

// The name that a word is, if it is one.
fn name_of(alloc: Global, word: &str) -> Result<Option<Name>, AllocError>
    ensures { IfOk result (λ name. name ≡ (if is_name word.now then Some word.now else None)) }
{
    match Name::read(alloc, word) {
        Ok(name) => Ok(Some(name)),
        Err(PathError::Bad(_)) => Ok(None),
        Err(PathError::Memory) => Err(AllocError),
    }
}

// `sync create --name=NAME ALPHA BETA`
fn create_request(
    alloc: Global,
    sync: &str,
    create: &str,
    option: &str,
    alpha: &str,
    beta: &str,
) -> Result<Option<Request>, AllocError>
    ensures { IfOk result (λ request. request ≡ create_of sync.now create.now option.now alpha.now beta.now) }
{
    if sync != "sync" || create != "create" {
        return Ok(None);
    }
    let Some(name) = behind(option, "--name=") else {
        return Ok(None);
    };
    if !may_create(name, alpha, beta) {
        return Ok(None);
    }
    let name = Word::new(alloc, name)?;
    let alpha = Word::new(alloc, alpha)?;
    let beta = Word::new(alloc, beta)?;
    Ok(Some(Request::Create(name, alpha, beta)))
}

// Whether a session may have this name and be between these roots.
fn may_create(name: &str, alpha: &str, beta: &str) -> bool
    ensures { result ≡ (is_session_name name.now && is_root alpha.now && is_root beta.now && not (bytes_eq alpha.now beta.now)) }
{
    is_session_name(name) && is_root(alpha) && is_root(beta) && alpha != beta
}

// `sync flush SESSION`
fn flush_request(
    alloc: Global,
    sync: &str,
    flush: &str,
    session: &str,
) -> Result<Option<Request>, AllocError>
    ensures { IfOk result (λ request. request ≡ flush_of sync.now flush.now session.now) }
{
    if sync == "sync" && flush == "flush" && (is_session_name(session) || is_identifier(session)) {
        Ok(Some(Request::Flush(Word::new(alloc, session)?)))
    } else {
        Ok(None)
    }
}

// `show ROOT`
fn show_request(alloc: Global, show: &str, root: &str) -> Result<Option<Request>, AllocError>
    ensures { IfOk result (λ request. request ≡ show_of show.now root.now) }
{
    if show == "show" && is_root(root) {
        Ok(Some(Request::Show(Word::new(alloc, root)?)))
    } else {
        Ok(None)
    }
}
