//! A step in two parts: what takes memory first, and then the step itself.
ghost use Rattle.std.specs.Prelude.{◌≡◌, ◌<◌, IfOk, OnOk, string_bytes};
ghost use Rattle.session_table.specs.Machine.{acts, asked, step};
ghost use Rattle.std.specs.Option.{option_map};
ghost use Rattle.session_table.specs.Answers.{IsNameOf};
ghost use Rattle.session_table.specs.States.{spare};

use super::Table;
use crate::op::TableOp;
use crate::reply::{CommandReply, TableReply};
use crate::request::TableRequest;
use command_words::Client;
use std::alloc::{AllocError, Global};
use std::marker::Model;

/// A step that is prepared: the operation, its reply, and whether it acts, so that it is to be kept.
#[derive(Drop)]
pub struct Prepared {
    op: TableOp,
    reply: TableReply,
    acts: bool,
    name: Option<String>,
}

impl Model for Prepared {
    ghost use Rattle.std.specs.Prelude.{string_bytes};
    ghost use Rattle.std.specs.Option.{option_map};
    ghost use Rattle.session_table.specs.States.{PreparedStep};
    ghost use Rattle.session_table.specs.Machine.{IsNameFor};

    ghost Value = { PreparedStep };

    ghost view = { λ p. record { op = p.op; reply = p.reply; acts = p.acts } };

    ghost invariant = { λ p. IsNameFor p.op (option_map string_bytes p.name) };
}

impl Prepared {
    /// The reply that the step gives. It takes no memory.
    pub fn reply(&self) -> &TableReply
        ensures { result.now ≡ self.now.reply }
    {
        &self.reply
    }

    /// Whether the step acts, so that it is to be kept before it is done. It takes no memory.
    pub fn acts(&self) -> bool
        ensures { result ≡ self.now.acts }
    {
        self.acts
    }
}

impl Table {
    /// Takes all the memory of a step, and leaves the machine as it was. Behind it `apply` takes none.
    ///
    /// Cost: that of the step, and a copy of the operation.
    pub fn prepare(&mut self, alloc: Global, op: &TableOp) -> Result<Prepared, AllocError>
        ensures machine { self.new.machine ≡ self.old.machine }
        ensures spare { OnOk result (0 < spare self.new) }
        ensures op { IfOk result (λ p. p.op ≡ op.now) }
        ensures reply { IfOk result (λ p. p.reply ≡ (step op.now self.old.machine).0) }
        ensures acts { IfOk result (λ p. p.acts ≡ acts op.now self.old.machine) }
    {
        let reply = self.reply_to(alloc, op)?;
        let acts = self.acts(op);
        let name = op.name_text(alloc)?;
        let op = op.copy(alloc)?;
        self.reserve()?;
        Ok(Prepared {
            op,
            reply,
            acts,
            name,
        })
    }

    // What an operation is answered.
    fn reply_to(&self, alloc: Global, op: &TableOp) -> Result<TableReply, AllocError>
        ensures { IfOk result (λ reply. reply ≡ (step op.now self.now.machine).0) }
    {
        match op {
            TableOp::Ask {
                client,
                request,
                drawn,
            } => Ok(TableReply::Command(self.ask_reply(client, request, *drawn))),
            TableOp::Query(query) => self.query(alloc, query),
            TableOp::Wait { id, run, cycle } => self.wait(alloc, *id, *run, *cycle),
            TableOp::Look { id } => Ok(TableReply::Looked(self.sessions.standing(*id))),
            TableOp::Begin { id } => Ok(TableReply::Begun(self.next_cycle(*id))),
            TableOp::Ended { id, .. } => Ok(TableReply::Noted(self.sessions.get(*id).is_some())),
        }
    }

    // What a command is answered, behind a client's number if it has one.
    fn ask_reply(
        &self,
        client: &Option<Client>,
        request: &TableRequest,
        drawn: Option<u128>,
    ) -> CommandReply
        ensures { result ≡ (asked client.now request.now drawn self.now.machine).0 }
    {
        match self.turned_away(client) {
            Some(reply) => reply,
            None => self.answer(request, drawn),
        }
    }

    // Whether an operation acts.
    fn acts(&self, op: &TableOp) -> bool
        ensures { result ≡ acts op.now self.now.machine }
    {
        match op {
            TableOp::Ask {
                client,
                request,
                drawn,
            } => match client {
                Some(client) => self.clients.turned_away(client).is_none(),
                None => request.is_lasting() && !self.answer(request, *drawn).is_refused(),
            },
            _ => false,
        }
    }

    /// Does a step that is prepared, and answers. It takes no memory, and can't fail.
    ///
    /// Cost: that of the step.
    pub fn apply(&mut self, prepared: Prepared) -> TableReply
        requires spare { 0 < spare self.old }
        requires reply { prepared.reply ≡ (step prepared.op self.old.machine).0 }
        ensures { step prepared.op self.old.machine ≡ (result, self.new.machine) }
    {
        let Prepared {
            op,
            reply,
            name,
            ..
        } = prepared;
        match op {
            TableOp::Ask {
                client,
                request,
                drawn,
            } => TableReply::Command(self.ask(client, request, drawn, name)),
            TableOp::Begin { id } => TableReply::Begun(self.begin(id)),
            TableOp::Ended { id, report } => TableReply::Noted(self.sessions.end(id, report)),
            _ => reply,
        }
    }

    // Does a command, behind a client's number if it has one.
    fn ask(
        &mut self,
        client: Option<Client>,
        request: TableRequest,
        drawn: Option<u128>,
        name: Option<String>,
    ) -> CommandReply
        requires room { 0 < spare self.old }
        requires name { IsNameOf request (option_map string_bytes name) }
        ensures { (result, self.new.machine) ≡ asked client request drawn self.old.machine }
    {
        match self.turned_away(&client) {
            Some(reply) => reply,
            None => self.act(client, request, drawn, name),
        }
    }
}
