//! Tests of what no clause says: a session's first steps, in one step or in parts, and how many sessions there may be.
use crate::runs::in_parts;
use command_words::Endpoint;
use session_table::{
    CommandReply, Create, ForwardCreate, MAX_SESSIONS, Table, TableOp, TableRefusal, TableReply,
    TableRequest,
};
use std::alloc::Global;
use std::test::Fail;

fn endpoint(alloc: Global) -> Result<Endpoint, Fail> {
    Ok(Endpoint::read(alloc, b"tcp:localhost:80".as_slice())?.ok_or("no endpoint")?)
}

fn create(alloc: Global) -> Result<Create, Fail> {
    let source = endpoint(alloc)?;
    let dest = endpoint(alloc)?;
    Ok(Create::Forward(ForwardCreate {
        name: None,
        paused: false,
        source,
        dest,
    }))
}

// A create by which this identifier was drawn.
fn asked(alloc: Global, id: u128) -> Result<TableOp, Fail> {
    let create = create(alloc)?;
    Ok(TableOp::Ask {
        client: None,
        request: TableRequest::Create(create),
        drawn: Some(id),
    })
}

fn is_created(reply: &TableReply) -> bool {
    match reply {
        TableReply::Command(CommandReply::Created(_)) => true,
        _ => false,
    }
}

fn is_full(reply: &TableReply) -> bool {
    match reply {
        TableReply::Command(CommandReply::Refused(TableRefusal::TableFull)) => true,
        _ => false,
    }
}

fn is_live(reply: &TableReply) -> bool {
    match reply {
        TableReply::Looked(standing) => standing.is_some(),
        _ => false,
    }
}

#[test]
fn a_session_is_made_and_looked_at(rt: HostRuntime) -> Result<(), Fail> {
    let alloc = rt.alloc();
    let mut table = Table::new(alloc, 1);
    let id = 7;
    let op = asked(alloc, id)?;
    let created = in_parts(alloc, &mut table, &op)?;
    assert!(rt; is_created(&created));
    let reply = table.step(alloc, TableOp::Look { id });
    assert!(rt; is_live(&reply));
    Ok(())
}

// How many sessions are made before a create is refused since the table is full.
fn made(alloc: Global, table: &mut Table) -> Result<u64, Fail> {
    for id in 0..300u64 {
        let op = asked(alloc, id as u128)?;
        if is_full(&table.step(alloc, op)) {
            return Ok(id);
        }
    }
    Ok(0)
}

#[test]
fn the_table_is_full_at_its_limit(rt: HostRuntime) -> Result<(), Fail> {
    let alloc = rt.alloc();
    let mut table = Table::new(alloc, 1);
    assert_eq!(rt; made(alloc, &mut table)?, MAX_SESSIONS as u64);
    Ok(())
}
