//! What is answered to questions, and to those who wait.
ghost use Rattle.std.specs.Prelude.{◌≡◌, IfOk, max};
ghost use Rattle.std.specs.Option.{option_copied};
ghost use Rattle.session_table.specs.Finding.{id_by};
ghost use Rattle.command_words.specs.declared.session_kind.SessionKind.TheVariants as kinds;
ghost use Rattle.session_table.specs.Lists.{query_reply, report_of, report_reply, wait_on, wait_reply, waited};

use super::Table;
use crate::lists::{forward_rows, sync_rows};
use crate::refusal::TableRefusal;
use crate::reply::TableReply;
use crate::request::TableQuery;
use crate::session::Session;
use command_words::{SessionKind, SessionWord};
use mode_rules::CycleReport;
use std::alloc::{AllocError, Global};

impl Table {
    /// What a question is answered. Cost: a list looks at each session, and copies what it lists.
    pub(super) fn query(&self, alloc: Global, query: &TableQuery) -> Result<TableReply, AllocError>
        ensures { IfOk result (λ reply. reply ≡ query_reply query.now self.now.machine) }
    {
        match query {
            TableQuery::SyncList(label) => {
                Ok(TableReply::SyncList(sync_rows(alloc, &self.sessions, label)?))
            }
            TableQuery::ForwardList => {
                Ok(TableReply::ForwardList(forward_rows(alloc, &self.sessions)?))
            }
            TableQuery::Report(session) => self.report(alloc, session),
        }
    }

    // The last report of a session.
    fn report(&self, alloc: Global, session: &SessionWord) -> Result<TableReply, AllocError>
        ensures { IfOk result (λ reply. reply ≡ report_reply (id_by kinds.Sync session.now self.now.machine.live) self.now.machine.live) }
    {
        match self.sessions.id_by(SessionKind::Sync, session) {
            Some(id) => report_of(alloc, id, self.sessions.get(id)),
            None => Ok(TableReply::Refused(TableRefusal::NoSession)),
        }
    }

    /// What is answered to one who waits for a cycle.
    pub(super) fn wait(
        &self,
        alloc: Global,
        id: u128,
        run: u32,
        cycle: u64,
    ) -> Result<TableReply, AllocError>
        ensures { IfOk result (λ reply. reply ≡ wait_reply id run (max cycle 1) self.now.machine) }
    {
        match self.sessions.get(id) {
            Some(session) => {
                if run == self.run {
                    waited(alloc, id, session, at_least_one(cycle))
                } else {
                    Ok(TableReply::Refused(TableRefusal::OldRun(self.run)))
                }
            }
            None => Ok(TableReply::Refused(TableRefusal::NoSession)),
        }
    }
}

// The number, and 1 in place of 0.
fn at_least_one(number: u64) -> u64
    ensures { result ≡ max number 1 }
{
    if number == 0 { 1 } else { number }
}

// The last report of a session, if it is live.
fn report_of(alloc: Global, id: u128, session: Option<&Session>) -> Result<TableReply, AllocError>
    ensures { IfOk result (λ reply. reply ≡ report_of id (option_copied session.entry)) }
{
    match session {
        Some(session) => Ok(TableReply::Reported {
            id,
            report: copied_report(alloc, &session.report)?,
        }),
        None => Ok(TableReply::Refused(TableRefusal::NoSession)),
    }
}

// The same report, if there is one.
fn copied_report(
    alloc: Global,
    report: &Option<CycleReport>,
) -> Result<Option<CycleReport>, AllocError>
    ensures { IfOk result (λ copy. copy ≡ report.now) }
{
    match report {
        Some(report) => Ok(Some(report.copy(alloc)?)),
        None => Ok(None),
    }
}

// What is answered to one who waits for a cycle of this run.
fn waited(alloc: Global, id: u128, session: &Session, cycle: u64) -> Result<TableReply, AllocError>
    ensures { IfOk result (λ reply. reply ≡ waited id session.now.standing.finished cycle session.now.report) }
{
    let finished = session.standing.finished;
    match &session.report {
        Some(report) => {
            if cycle <= finished {
                Ok(TableReply::Flushed {
                    id,
                    report: report.copy(alloc)?,
                })
            } else {
                Ok(TableReply::Pending { finished, cycle })
            }
        }
        None => Ok(TableReply::Pending { finished, cycle }),
    }
}
