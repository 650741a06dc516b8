//! What a command is answered.
ghost use Rattle.std.specs.Prelude.{◌≡◌, None};
ghost use Rattle.std.specs.Option.{option_copied};
ghost use Rattle.session_table.specs.Answers.{answer, create_reply, flush_at, flush_reply, fresh_reply, holder_of, order_reply, unless_halted, IsFresh, IsNewIf};
ghost use Rattle.session_table.specs.Finding.{id_by};
ghost use Rattle.session_table.specs.Standings.{after};
ghost use Rattle.session_table.specs.declared.reply.CommandReply.TheVariants.{Awaits};
ghost use Rattle.command_words.specs.declared.session_kind.SessionKind.TheVariants as kinds;
ghost use Rattle.session_table.specs.Machine.{turned_away_for};
ghost use Rattle.session_table.specs.Creates.{kind_of, name_of};
ghost use Rattle.session_table.specs.declared.create.Create.{Create};

use super::Table;
use crate::create::Create;
use crate::refusal::TableRefusal;
use crate::reply::{CommandReply, Order};
use crate::request::TableRequest;
use crate::session::MAX_SESSIONS;
use crate::standings::after;
use command_words::{Client, GivenName, Identifier, SessionKind, SessionWord};
use session_control::{Standing, Wish};

impl Table {
    /// What a command is answered; `drawn` is the identifier that was drawn, and None counts as 0.
    pub(super) fn answer(&self, request: &TableRequest, drawn: Option<u128>) -> CommandReply
        ensures value { result ≡ answer request.now drawn self.now.machine }
        ensures fresh { IsFresh request.now result self.now.machine }
    {
        match request {
            TableRequest::Create(create) => self.create_reply(create, drawn.unwrap_or(0)),
            TableRequest::Flush(session) => self.flush_reply(session),
            TableRequest::Pause(kind, session) => self.order_reply(Order::Pause, *kind, session),
            TableRequest::Resume(kind, session) => self.order_reply(Order::Resume, *kind, session),
            TableRequest::Reset(session) => {
                self.order_reply(Order::Reset, SessionKind::Sync, session)
            }
            TableRequest::Terminate(kind, session) => {
                self.order_reply(Order::Terminate, *kind, session)
            }
        }
    }

    // What a create is answered.
    fn create_reply(&self, create: &Create, id: u128) -> CommandReply
        ensures value { result ≡ create_reply create.now id self.now.machine }
        ensures fresh { IsNewIf create.now result self.now.machine }
    {
        if create.has_same_roots() {
            return CommandReply::Refused(TableRefusal::SameRoot);
        }
        if MAX_SESSIONS <= self.sessions.len() {
            return CommandReply::Refused(TableRefusal::TableFull);
        }
        let kind = create.kind();
        match self.holder_of(kind, create.name()) {
            Some(holder) => {
                CommandReply::Refused(TableRefusal::NameTaken(Identifier { kind, id: holder }))
            }
            None => self.fresh_reply(kind, id),
        }
    }

    // What is answered of the identifier that was drawn.
    fn fresh_reply(&self, kind: SessionKind, id: u128) -> CommandReply
        ensures value { result ≡ fresh_reply kind id self.now.machine }
        ensures fresh { (c : Create) → kind ≡ kind_of c → holder_of (kind_of c) (name_of c) self.now.machine.live ≡ None → IsNewIf c result self.now.machine }
    {
        match self.sessions.kind_given(id) {
            Some(given) => {
                CommandReply::Refused(TableRefusal::IdTaken(Identifier { kind: given, id }))
            }
            None => CommandReply::Created(Identifier { kind, id }),
        }
    }

    // The live session that has the name of the one to be made.
    fn holder_of(&self, kind: SessionKind, name: Option<&GivenName>) -> Option<u128>
        ensures { result ≡ holder_of kind (option_copied name.entry) self.now.machine.live }
    {
        match name {
            Some(name) => self.sessions.id_named(kind, name.as_str()),
            None => None,
        }
    }

    // What a flush is answered.
    fn flush_reply(&self, session: &SessionWord) -> CommandReply
        ensures value { result ≡ flush_reply (id_by kinds.Sync session.now self.now.machine.live) self.now.machine }
    {
        match self.sessions.id_by(SessionKind::Sync, session) {
            Some(id) => flush_at(self.run, id, self.sessions.standing(id)),
            None => CommandReply::Refused(TableRefusal::NoSession),
        }
    }

    // What every other command is answered.
    fn order_reply(&self, order: Order, kind: SessionKind, session: &SessionWord) -> CommandReply
        ensures value { result ≡ order_reply order kind (id_by kind session.now self.now.machine.live) }
    {
        match self.sessions.id_by(kind, session) {
            Some(id) => CommandReply::Ordered(order, Identifier { kind, id }),
            None => CommandReply::Refused(TableRefusal::NoSession),
        }
    }

    /// The reply to a client's line that doesn't act.
    pub(super) fn turned_away(&self, client: &Option<Client>) -> Option<CommandReply>
        ensures { result ≡ turned_away_for client.now self.now.machine }
    {
        match client {
            Some(client) => self.clients.turned_away(client),
            None => None,
        }
    }
}

// What a flush of a session is answered that stands so.
fn flush_at(run: u32, id: u128, standing: Option<Standing>) -> CommandReply
    ensures value { result ≡ flush_at run id standing }
{
    match standing {
        Some(standing) => match standing.wish {
            Wish::Paused => CommandReply::Refused(TableRefusal::Paused),
            Wish::Run => unless_halted(run, id, standing),
        },
        None => CommandReply::Refused(TableRefusal::NoSession),
    }
}

// What a flush of a session is answered that isn't paused.
fn unless_halted(run: u32, id: u128, standing: Standing) -> CommandReply
    ensures value { result ≡ unless_halted standing.halted (Awaits id run (after standing.begun)) }
{
    match standing.halted {
        Some(halt) => CommandReply::Refused(TableRefusal::Halted(halt)),
        None => CommandReply::Awaits {
            id,
            run,
            cycle: after(standing.begun),
        },
    }
}
