//! The session table.
ghost use Rattle.std.specs.Prelude.{◌≡◌, ◌<◌, IfOk, OnOk, nat_eq, slice_get, string_bytes};
ghost use Rattle.std.specs.Map.{lookup};
ghost use Rattle.std.specs.Option.{option_copied, option_map};
ghost use Rattle.session_table.specs.Machine.{altered, empty_machine, with_run, Steps};
ghost use Rattle.session_table.specs.Finding.{id_by, id_named, standing_at};
ghost use Rattle.command_words.specs.Identifier.{identifier_word, IsIdentifier};
ghost use Rattle.command_words.specs.declared.identifier.Identifier.{Identifier};
ghost use Rattle.command_words.specs.declared.session.SessionWord.TheVariants.{Identified};
ghost use Rattle.session_table.specs.Standings.{after};
ghost use Rattle.session_control.specs.declared.standing.Standing.{Standing};
ghost use Rattle.session_table.specs.declared.change.Change.TheVariants as changes;
ghost use Rattle.session_table.specs.Answers.{IsNameOf};
ghost use Rattle.session_table.specs.States.{spare};
ghost use Rattle.session_table.specs.declared.session.Session.{Session};

use crate::change::Change;
use crate::clients::Clients;
use crate::op::TableOp;
use crate::reply::TableReply;
use crate::request::TableRequest;
use crate::session::Row;
use crate::sessions::Sessions;
use crate::standings::after;
use command_words::{Identifier, SessionKind};
use std::alloc::{AllocError, Global};
use std::marker::Model;

mod acting;
mod answering;
mod asking;
mod preparing;

pub use preparing::Prepared;

/// The session table. Contracts see its machine, and how many more sessions and clients it may take without memory.
#[derive(Drop)]
pub struct Table {
    sessions: Sessions,
    clients: Clients,
    run: u32,
}

impl Model for Table {
    ghost use Rattle.session_table.specs.States.{TableState};

    ghost Value = { TableState };

    ghost view = { λ t. record { machine = record { live = t.sessions.live; given = t.sessions.given; clients = t.clients.rows; run = t.run }; session_room = t.sessions.room; client_room = t.clients.room } };
}

impl Table {
    /// An empty table in the run of this number. It takes no memory.
    pub fn new(alloc: Global, run: u32) -> Table
        ensures { result.machine ≡ empty_machine run }
    {
        Table {
            sessions: Sessions::new(alloc),
            clients: Clients::new(alloc),
            run,
        }
    }

    /// Sets the run that flushes are answered with, and waits are refused with, from now on. All else stays. It takes no memory.
    pub fn set_run(&mut self, run: u32)
        ensures machine { self.new.machine ≡ with_run run self.old.machine }
        ensures spare { spare self.new ≡ spare self.old }
    {
        self.run = run;
    }

    /// The identifier of the live session of the kind that has this identifier or this name. It takes no memory.
    ///
    /// Cost: O(1), a hash.
    pub fn find(&self, kind: SessionKind, session: &str) -> Option<u128>
        ensures identified { (i : Identifier) → IsIdentifier i → session.now ≡ identifier_word i → result ≡ id_by kind (Identified i) self.now.machine.live }
        ensures named { ((i : Identifier) → IsIdentifier i → session.now ≡ identifier_word i → ⊥) → result ≡ id_named kind session.now self.now.machine.live }
    {
        match Identifier::read(session.as_bytes()) {
            Some(identifier) => self.sessions.identified(kind, identifier),
            None => self.sessions.id_named(kind, session),
        }
    }

    /// The identifier of a session and what it was made of, if it is live. It takes no memory. Cost: O(1), a hash.
    pub fn row(&self, id: u128) -> Option<&Row>
        ensures { option_copied result ≡ option_map (λ (s : Session). s.row) (lookup (nat_eq id) self.now.machine.live) }
    {
        match self.sessions.get(id) {
            Some(session) => Some(&session.row),
            None => None,
        }
    }

    /// The same of the session at this place in order of creation. It takes no memory. Cost: O(1).
    pub fn at(&self, index: usize) -> Option<&Row>
        ensures { option_copied result ≡ option_map (λ p. p.1.row) (slice_get self.now.machine.live index) }
    {
        match self.sessions.at(index) {
            Some((_, session)) => Some(&session.row),
            None => None,
        }
    }

    // Makes room for one more session and one more client.
    fn reserve(&mut self) -> Result<(), AllocError>
        ensures machine { self.new.machine ≡ self.old.machine }
        ensures spare { OnOk result (0 < spare self.new) }
    {
        self.sessions.reserve()?;
        self.clients.reserve()
    }

    // Takes all the memory of a command, and gives the name of a create.
    fn make_ready(
        &mut self,
        alloc: Global,
        request: &TableRequest,
    ) -> Result<Option<String>, AllocError>
        ensures machine { self.new.machine ≡ self.old.machine }
        ensures spare { OnOk result (0 < spare self.new) }
        ensures name { IfOk result (λ name. IsNameOf request.now (option_map string_bytes name)) }
    {
        let name = request.name_text(alloc)?;
        self.reserve()?;
        Ok(name)
    }

    /// Does one operation, and answers. With want of memory the answer is `NoMemory`, and the table is as it was; `Look`, `Begin` and
    /// `Ended` take no memory.
    ///
    /// Cost: a few hashes, and a look at the clients' names. A list looks at each session; a terminate moves those behind the session.
    /// Lists and reports are copied.
    pub fn step(&mut self, alloc: Global, op: TableOp) -> TableReply
        ensures { Steps self.old.machine op result self.new.machine }
    {
        match op {
            TableOp::Ask {
                client,
                request,
                drawn,
            } => match self.turned_away(&client) {
                Some(reply) => TableReply::Command(reply),
                None => match self.make_ready(alloc, &request) {
                    Ok(name) => TableReply::Command(self.act(client, request, drawn, name)),
                    Err(_) => TableReply::NoMemory,
                },
            },
            TableOp::Query(query) => match self.query(alloc, &query) {
                Ok(reply) => reply,
                Err(_) => TableReply::NoMemory,
            },
            TableOp::Wait { id, run, cycle } => match self.wait(alloc, id, run, cycle) {
                Ok(reply) => reply,
                Err(_) => TableReply::NoMemory,
            },
            TableOp::Look { id } => TableReply::Looked(self.sessions.standing(id)),
            TableOp::Begin { id } => TableReply::Begun(self.begin(id)),
            TableOp::Ended { id, report } => TableReply::Noted(self.sessions.end(id, report)),
        }
    }

    // The number of the cycle that a session would begin.
    fn next_cycle(&self, id: u128) -> Option<u64>
        ensures { result ≡ option_map (λ (s : Standing). after s.finished) (standing_at id self.now.machine.live) }
    {
        match self.sessions.standing(id) {
            Some(standing) => Some(after(standing.finished)),
            None => None,
        }
    }

    // A session begins its next cycle, whose number is given.
    fn begin(&mut self, id: u128) -> Option<u64>
        ensures number { result ≡ option_map (λ (s : Standing). after s.finished) (standing_at id self.old.machine.live) }
        ensures machine { self.new.machine ≡ altered changes.Begin id self.old.machine }
    {
        let begun = self.next_cycle(id);
        self.sessions.alter(id, Change::Begin);
        begun
    }
}
