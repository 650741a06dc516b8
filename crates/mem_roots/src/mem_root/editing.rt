//! What a root in memory refuses of edits, and what it logs of them.
ghost use Rattle.std.specs.Prelude.{◌≡◌, ◌+◌, None, IfOk, OnOk, OnErr, length, nat_lt};
ghost use Rattle.std.specs.Option.{option_map};
ghost use Rattle.roots_api.specs.Edits.{refused_at};
ghost use Rattle.roots_api.specs.Logs.{IsLegal, bytes_held, state_of};
ghost use Rattle.roots_api.specs.Told.{edit_error, edit_event, put_by, refused_by};
ghost use Rattle.mem_roots.specs.MemRoot.{with_event};

use crate::mem_root::MemRoot;
use crate::mem_root::recording::drop_last;
use crate::sizes::passes;
use roots_api::{Edit, EditError, Event, MAX_BYTES_HELD, MAX_LOG_SIZE};
use std::alloc::{AllocError, Global};

impl MemRoot {
    /// Why the change isn't done, where something speaks against it. Nothing is changed.
    pub(crate) fn edit_error(
        &self,
        alloc: Global,
        change: &Edit,
    ) -> Result<Option<EditError>, AllocError>
        ensures { IfOk result (λ error. error ≡ edit_error self.now.log change.now) }
    {
        let room = self.room();
        if MAX_LOG_SIZE <= room.log {
            return Ok(Some(EditError::LogFull(room.log)));
        }
        if let Some(refused) = self.refused(alloc, change)? {
            return Ok(Some(refused));
        }
        if self.puts_too_much(change) {
            return Ok(Some(EditError::BytesFull(room.bytes)));
        }
        Ok(None)
    }

    // The refusal that names the parent, or else the path, that isn't as the change needs it.
    fn refused(&self, alloc: Global, change: &Edit) -> Result<Option<EditError>, AllocError>
        ensures { IfOk result (λ error. error ≡ option_map (refused_by (state_of self.now.log)) (refused_at (state_of self.now.log).tree change.now)) }
    {
        match self.state.refused_at(alloc, change)? {
            None => Ok(None),
            Some((path, found)) => {
                let found = self.state.found_atom(alloc, found)?;
                Ok(Some(EditError::EditRefused { path, found }))
            }
        }
    }

    // Whether the bytes of the change would pass the limit.
    fn puts_too_much(&self, change: &Edit) -> bool
        ensures { result ≡ nat_lt MAX_BYTES_HELD (bytes_held self.now.log + length (put_by change.now)) }
    {
        passes(self.sizes.bytes, change.put_len() as u128, MAX_BYTES_HELD)
    }

    /// Logs the change, and makes it. After an `Err` all is as it was.
    pub(crate) fn record_edit(&mut self, alloc: Global, change: &Edit) -> Result<(), AllocError>
        requires { edit_error self.old.log change.now ≡ None }
        ensures ok { OnOk result (self.new ≡ with_event self.old (edit_event change.now)) }
        ensures err { OnErr result (self.new ≡ self.old) }
        ensures legal { IsLegal self.new.log }
    {
        let sizes = self.sizes.with_edit(change.put_len());
        change.can_be_made();
        let event = Event::of_edit(alloc, change)?;
        self.log.push(event)?;
        match self.state.edit(alloc, change) {
            Ok(()) => {
                self.sizes = sizes;
                Ok(())
            }
            Err(error) => {
                drop_last(&mut self.log);
                Err(error)
            }
        }
    }
}
