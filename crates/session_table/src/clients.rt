//! The clients of a table.
ghost use Rattle.std.specs.Prelude.{◌≡◌, ◌<◌, ◌++◌, ◌∷◌, [], length, None, OnOk, slice_get};
ghost use Rattle.std.specs.Option.{option_copied};
ghost use Rattle.session_table.specs.Answers.{by_number, by_row, turned_away};
ghost use Rattle.session_table.specs.Machine.{client_row, kept};
ghost use Rattle.session_table.specs.Finding.{client_named, is_client};
ghost use Rattle.std.specs.List.{position, position_or_len};

use crate::client_row::{ClientRow, MAX_CLIENTS};
use crate::refusal::TableRefusal;
use crate::reply::CommandReply;
use command_words::{Client, GivenName};
use std::alloc::{AllocError, Global};
use std::marker::Model;

/// The clients, at most 64, in the order in which they came.
#[derive(Drop)]
pub(crate) struct Clients {
    rows: Vec<ClientRow>,
}

impl Model for Clients {
    ghost use Rattle.std.specs.Prelude.{◌-◌, vec_len, vec_capacity};
    ghost use Rattle.session_table.specs.States.{ClientsState};

    ghost Value = { ClientsState };

    ghost view = { λ c. record { rows = c.rows.items; room = vec_capacity c.rows - vec_len c.rows } };
}

impl Clients {
    /// No clients. It takes no memory.
    pub(crate) fn new(alloc: Global) -> Clients
        ensures { result.rows ≡ [] }
    {
        Clients {
            rows: Vec::new(alloc),
        }
    }

    // What is kept of the client that has the name.
    fn named(&self, name: &GivenName) -> Option<&ClientRow>
        ensures { option_copied result ≡ client_named name.now self.now.rows }
    {
        row_named(self.rows.as_slice(), name)
    }

    /// The reply to a line that doesn't act.
    pub(crate) fn turned_away(&self, client: &Client) -> Option<CommandReply>
        ensures { result ≡ turned_away client.now self.now.rows }
    {
        match self.named(&client.name) {
            Some(row) => by_number(client.number.get(), row),
            None => self.when_new(),
        }
    }

    // The refusal of a new client.
    fn when_new(&self) -> Option<CommandReply>
        ensures { result ≡ by_row 0 None self.now.rows }
    {
        if MAX_CLIENTS <= self.rows.len() {
            Some(CommandReply::Refused(TableRefusal::ClientsFull))
        } else {
            None
        }
    }

    /// Makes room for one more client.
    pub(crate) fn reserve(&mut self) -> Result<(), AllocError>
        ensures rows { self.new.rows ≡ self.old.rows }
        ensures ok { OnOk result (0 < self.new.room) }
    {
        self.rows.reserve(1)
    }

    /// Keeps a reply as that to the client's last number. It takes no memory.
    pub(crate) fn keep(&mut self, client: Client, reply: CommandReply)
        requires { 0 < self.old.room }
        ensures { self.new.rows ≡ kept client reply self.old.rows }
    {
        let at = place_of(self.rows.as_slice(), &client.name);
        let row = row_of(client, reply);
        if at < self.rows.len() {
            self.rows[at] = row;
        } else {
            self.rows.push_reserved(row);
        }
    }
}

// What is kept of a client.
fn row_of(client: Client, reply: CommandReply) -> ClientRow
    ensures { result ≡ client_row client reply }
{
    let number = client.number.get();
    ClientRow {
        name: client.name,
        number,
        reply,
    }
}

// What is kept of the client that has the name.
fn row_named<'a>(rows: &'a [ClientRow], name: &GivenName) -> Option<&'a ClientRow>
    ensures { option_copied result ≡ client_named name.now rows.now }
{
    row_at(rows, place_of(rows, name))
}

// The row at a place, if there is one.
fn row_at(rows: &[ClientRow], at: usize) -> Option<&ClientRow>
    ensures { option_copied result ≡ slice_get rows.now at }
{
    rows.get(at)
}

// How many rows stand before that of the client that has the name.
fn place_of(rows: &[ClientRow], name: &GivenName) -> usize
    ensures { result ≡ position_or_len (is_client name.now) rows.now }
{
    match first_of(rows, name) {
        Some(at) => at,
        None => rows.len(),
    }
}

// Where the client stands that has the name.
fn first_of(rows: &[ClientRow], name: &GivenName) -> Option<usize>
    ensures { result ≡ position (is_client name.now) rows.now }
{
    rows.iter().position(|row| *name == row.name)
}

// What a client gets by its last number.
fn by_number(number: u64, row: &ClientRow) -> Option<CommandReply>
    ensures { result ≡ by_number number row.now }
{
    if number == row.number {
        return Some(row.reply);
    }
    if number < row.number {
        return Some(CommandReply::Refused(TableRefusal::OldNumber(row.number)));
    }
    None
}
