//! How a request is written.
ghost use Rattle.std.specs.Prelude.{◌≡◌, ◌++◌, IfOk, OnOk, string_bytes};
ghost use Rattle.line_words.specs.Spelling.{written};
ghost use Rattle.request_text.specs.Words.{asked_line, words_of};
ghost use Rattle.request_text.specs.Writing.{client_lead};

use crate::asked::Asked;
use crate::order::{forward_order_word, sync_order_word};
use crate::request::Request;
use crate::write_rows::{
    write_conn, write_edit, write_edit_bytes, write_exec, write_fill, write_forward_create,
    write_line, write_order, write_read, write_stream, write_stream_bytes, write_stream_fill,
    write_sync_create, write_sync_list,
};
use command_words::{Client, Piece, phase_word, stream_side_word};
use std::alloc::{AllocError, Global};

/// Writes a request as its canonical line: one space between two words, options in the order of docs/FORMATS.md, labels in order
/// of their keys, and no option that only says what is so without it.
///
/// Cost: the length of the line.
pub fn write_request(alloc: Global, asked: &Asked) -> Result<String, AllocError>
    ensures { IfOk result (λ line. string_bytes line ≡ asked_line asked.now) }
{
    let mut line = String::new(alloc);
    write_client(&mut line, &asked.client)?;
    write_row(alloc, &mut line, &asked.request)?;
    Ok(line)
}

// Writes a client and its number, and a space behind them.
fn write_client(text: &mut String, client: &Option<Client>) -> Result<(), AllocError>
    ensures { OnOk result (string_bytes text.new ≡ string_bytes text.old ++ client_lead client.now) }
{
    match client {
        None => Ok(()),
        Some(client) => {
            text.push('@')?;
            write_line(
                text,
                client.name.as_str(),
                &[Piece::Number(client.number.get())],
            )?;
            text.push(' ')
        }
    }
}

// Writes the words of a request.
fn write_row(alloc: Global, text: &mut String, request: &Request) -> Result<(), AllocError>
    ensures { OnOk result (string_bytes text.new ≡ string_bytes text.old ++ written (words_of request.now)) }
{
    match request {
        Request::Put(at, bytes) => write_edit_bytes(text, at, "put", bytes.as_slice()),
        Request::Fill(at, len, byte) => write_fill(alloc, text, at, len.get(), *byte),
        Request::Link(at, link) => write_edit_bytes(text, at, "link", link.as_str().as_bytes()),
        Request::Dir(at) => write_edit(text, at, "dir"),
        Request::Other(at) => write_edit(text, at, "other"),
        Request::Exec(at, on) => write_exec(text, at, *on),
        Request::Del(at) => write_edit(text, at, "del"),
        Request::Show(root) => write_line(text, "show", &[Piece::Text(root.as_str())]),
        Request::Ancestor(session) => write_line(text, "ancestor", &[Piece::Session(session)]),
        Request::Step(session, count) => {
            let behind = [Piece::Session(session), Piece::Number(count.get())];
            write_line(text, "step", &behind)
        }
        Request::Until(session, phase) => {
            let behind = [Piece::Session(session), Piece::Text(phase_word(*phase))];
            write_line(text, "until", &behind)
        }
        Request::SyncCreate(create) => write_sync_create(text, create),
        Request::SyncList(label) => write_sync_list(text, label),
        Request::SyncFlush(session) => write_order(text, "sync", "flush", session),
        Request::SyncFlushSkipWait(session) => {
            let behind = [
                Piece::Text("flush"),
                Piece::Text("--skip-wait"),
                Piece::Session(session),
            ];
            write_line(text, "sync", &behind)
        }
        Request::SyncOrder(order, session) => {
            write_order(text, "sync", sync_order_word(*order), session)
        }
        Request::SyncReport(session) => write_order(text, "sync", "report", session),
        Request::ForwardCreate(create) => write_forward_create(text, create),
        Request::ForwardList => write_line(text, "forward", &[Piece::Text("list")]),
        Request::ForwardOrder(order, session) => {
            write_order(text, "forward", forward_order_word(*order), session)
        }
        Request::Open(session) => write_conn(text, session, "open"),
        Request::Write(end, bytes) => write_stream_bytes(text, end, bytes.as_slice()),
        Request::StreamFill(end, len, byte) => {
            write_stream_fill(alloc, text, end, len.get(), *byte)
        }
        Request::Read(end, most) => write_read(text, end, most.get()),
        Request::CloseWrite(end) => write_stream(text, end, "close-write"),
        Request::Close(end) => write_stream(text, end, "close"),
        Request::Move(session, side, count) => {
            let side = stream_side_word(*side);
            let behind = [
                Piece::Session(session),
                Piece::Text("move"),
                Piece::Text(side),
                Piece::Number(*count),
            ];
            write_line(text, "conn", &behind)
        }
        Request::Cut(session) => write_conn(text, session, "cut"),
    }
}
