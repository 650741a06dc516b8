//! What a command leaves.
ghost use Rattle.std.specs.Prelude.{◌≡◌, ◌<◌, string_bytes};
ghost use Rattle.session_table.specs.Machine.{acted, altered_by, created_by, done, kept_for, terminated_by};
ghost use Rattle.session_table.specs.Answers.{IsFresh, IsNameOf, IsNewIf};
ghost use Rattle.session_table.specs.Creates.{name_of};
ghost use Rattle.session_table.specs.States.{spare};
ghost use Rattle.std.specs.Option.{option_map};

use super::Table;
use crate::change::Change;
use crate::create::Create;
use crate::reply::CommandReply;
use crate::request::TableRequest;
use command_words::Client;

impl Table {
    /// Does a command that isn't turned away, keeps the reply for the client, and answers. It takes no memory.
    pub(super) fn act(
        &mut self,
        client: Option<Client>,
        request: TableRequest,
        drawn: Option<u128>,
        name: Option<String>,
    ) -> CommandReply
        requires room { 0 < spare self.old }
        requires name { IsNameOf request (option_map string_bytes name) }
        ensures { (result, self.new.machine) ≡ acted client request drawn self.old.machine }
    {
        let reply = self.answer(&request, drawn);
        self.done(request, reply, name);
        self.keep(client, reply);
        reply
    }

    // Does a command that was answered so.
    fn done(&mut self, request: TableRequest, reply: CommandReply, name: Option<String>)
        requires room { 0 < self.old.session_room }
        requires fresh { IsFresh request reply self.old.machine }
        requires name { IsNameOf request (option_map string_bytes name) }
        ensures machine { self.new.machine ≡ done request reply self.old.machine }
        ensures client_room { self.new.client_room ≡ self.old.client_room }
    {
        match request {
            TableRequest::Create(create) => self.create(create, reply, name),
            TableRequest::Flush(_) => self.alter(Change::Flush, reply),
            TableRequest::Pause(_, _) => self.alter(Change::Pause, reply),
            TableRequest::Resume(_, _) => self.alter(Change::Resume, reply),
            TableRequest::Reset(_) => self.alter(Change::Reset, reply),
            TableRequest::Terminate(_, _) => self.terminate(reply),
        }
    }

    // Makes the session of a create that was answered so.
    fn create(&mut self, create: Create, reply: CommandReply, name: Option<String>)
        requires room { 0 < self.old.session_room }
        requires fresh { IsNewIf create reply self.old.machine }
        requires name { option_map string_bytes name ≡ name_of create }
        ensures machine { self.new.machine ≡ created_by create reply self.old.machine }
        ensures client_room { self.new.client_room ≡ self.old.client_room }
    {
        match reply {
            CommandReply::Created(identifier) => self.sessions.insert(identifier, create, name),
            _ => {}
        }
    }

    // Changes the standing of the session that an answer names.
    fn alter(&mut self, change: Change, reply: CommandReply)
        ensures machine { self.new.machine ≡ altered_by change reply self.old.machine }
        ensures client_room { self.new.client_room ≡ self.old.client_room }
    {
        match reply {
            CommandReply::Awaits { id, .. } => self.sessions.alter(id, change),
            CommandReply::Ordered(_, identifier) => self.sessions.alter(identifier.id, change),
            CommandReply::Created(_) => {}
            CommandReply::Refused(_) => {}
        }
    }

    // Takes away the session that an answer names.
    fn terminate(&mut self, reply: CommandReply)
        ensures machine { self.new.machine ≡ terminated_by reply self.old.machine }
        ensures client_room { self.new.client_room ≡ self.old.client_room }
    {
        match reply {
            CommandReply::Ordered(_, identifier) => self.sessions.remove(identifier.id),
            _ => {}
        }
    }

    // Keeps the reply for the client, if there is one.
    fn keep(&mut self, client: Option<Client>, reply: CommandReply)
        requires { 0 < self.old.client_room }
        ensures { self.new.machine ≡ kept_for client reply self.old.machine }
    {
        match client {
            Some(client) => self.clients.keep(client, reply),
            None => {}
        }
    }
}
