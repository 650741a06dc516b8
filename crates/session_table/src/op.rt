//! What the table does in one step.
ghost use Rattle.std.specs.Prelude.{◌≡◌, IfOk, string_bytes};
ghost use Rattle.std.specs.Option.{option_map};
ghost use Rattle.session_table.specs.Machine.{IsNameFor};

use crate::request::{TableQuery, TableRequest};
use command_words::Client;
use mode_rules::CycleReport;
use std::alloc::{AllocError, Global};

/// What the table does in one step.
#[derive(Debug, Drop)]
pub enum TableOp {
    /// A command, with the client's number if it has one, and the identifier that was drawn for a create. None counts as 0.
    Ask {
        client: Option<Client>,
        request: TableRequest,
        drawn: Option<u128>,
    },
    /// A question.
    Query(TableQuery),
    /// Whether a flush's cycle has finished. A cycle of 0 counts as 1.
    Wait {
        id: u128,
        run: u32,
        cycle: u64,
    },
    /// How a session stands.
    Look {
        id: u128,
    },
    /// A session begins its next cycle.
    Begin {
        id: u128,
    },
    /// The cycle that a session began last has ended with this report.
    Ended {
        id: u128,
        report: CycleReport,
    },
}

impl TableOp {
    /// The name of a create that is asked as a text, if it has one; none of any other operation. Cost: its length.
    pub(crate) fn name_text(&self, alloc: Global) -> Result<Option<String>, AllocError>
        ensures { IfOk result (λ name. IsNameFor self.now (option_map string_bytes name)) }
    {
        match self {
            TableOp::Ask { request, .. } => request.name_text(alloc),
            _ => Ok(None),
        }
    }

    /// An equal operation. Cost: its length.
    pub fn copy(&self, alloc: Global) -> Result<TableOp, AllocError>
        ensures { IfOk result (λ op. op ≡ self.now) }
    {
        match self {
            TableOp::Ask {
                client,
                request,
                drawn,
            } => Ok(TableOp::Ask {
                client: copied_client(alloc, client)?,
                request: request.copy(alloc)?,
                drawn: *drawn,
            }),
            TableOp::Query(query) => Ok(TableOp::Query(query.copy(alloc)?)),
            TableOp::Wait { id, run, cycle } => Ok(TableOp::Wait {
                id: *id,
                run: *run,
                cycle: *cycle,
            }),
            TableOp::Look { id } => Ok(TableOp::Look { id: *id }),
            TableOp::Begin { id } => Ok(TableOp::Begin { id: *id }),
            TableOp::Ended { id, report } => Ok(TableOp::Ended {
                id: *id,
                report: report.copy(alloc)?,
            }),
        }
    }
}

// The same client, if there is one.
fn copied_client(alloc: Global, client: &Option<Client>) -> Result<Option<Client>, AllocError>
    ensures { IfOk result (λ copy. copy ≡ client.now) }
{
    match client {
        Some(client) => Ok(Some(client.copy(alloc)?)),
        None => Ok(None),
    }
}
