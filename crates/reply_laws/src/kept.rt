//! What the types of a reply keep of it. No function here does anything: each one's contract is what a type keeps.
ghost use Rattle.std.specs.Prelude.{◌<◌, ◌^◌};
ghost use Rattle.std.specs.List.{AllByRecursion};
ghost use Rattle.line_words.specs.Lines.{AreBytes};
ghost use Rattle.entry_tree.specs.AtomText.{IsAtom};
ghost use Rattle.entry_tree.specs.Digest.{IsDigest};
ghost use Rattle.command_words.specs.Identifier.{IsIdentifier};
ghost use Rattle.command_words.specs.Label.{IsLabel};
ghost use Rattle.reply_laws.specs.Kept.{IsCause, IsConflictRow, IsForwardRow, IsFound, IsListed, IsName, IsNumber, IsProblem, IsRefusal, IsReply, IsReport, IsSyncRow};

use command_words::{GivenName, Identifier, Label};
use entry_tree::{Atom, Digest};
use mode_rules::{Cause, Problem};
use reply_text::{ConflictRow, ForwardRow, Listed, Refusal, Reply, ReportRows, SyncRow};

/// Each reply keeps what the law `one_reply` asks.
pub fn is_reply(reply: &Reply)
    ensures { IsReply reply.now }
{
    match reply {
        Reply::Edited => {}
        Reply::Shown { entries, .. } => are_listed(entries.as_slice()),
        Reply::Ancestor {
            identifier,
            entries,
        } => {
            is_identifier(*identifier);
            are_listed(entries.as_slice())
        }
        Reply::Stepped(_) => {}
        Reply::Reached(_) => {}
        Reply::Created(identifier) => is_identifier(*identifier),
        Reply::SyncList(rows) => are_sync_rows(rows.as_slice()),
        Reply::ForwardList(rows) => are_forward_rows(rows.as_slice()),
        Reply::Awaits { identifier, cycle } => {
            is_identifier(*identifier);
            is_number(*cycle)
        }
        Reply::Flushed { identifier, report } => {
            is_identifier(*identifier);
            is_report(report)
        }
        Reply::Reported { identifier, report } => {
            is_identifier(*identifier);
            is_report(report)
        }
        Reply::Unreported(identifier) => is_identifier(*identifier),
        Reply::Paused(identifier) => is_identifier(*identifier),
        Reply::Resumed(identifier) => is_identifier(*identifier),
        Reply::Reset(identifier) => is_identifier(*identifier),
        Reply::Terminated(identifier) => is_identifier(*identifier),
        Reply::Opened(stream) => is_number(*stream as u64),
        Reply::Wrote(count) => is_number(*count),
        Reply::Read(_) => {}
        Reply::WriteClosed => {}
        Reply::Closed => {}
        Reply::Moved(count) => is_number(*count),
        Reply::Cut => {}
        Reply::Refused(refusal) => is_refusal(refusal),
    }
}

// A number of 64 bits.
fn is_number(number: u64)
    ensures { IsNumber number }
{
    let _number = number;
}

// A number of 128 bits.
fn is_wide(number: u128)
    ensures { number < 2 ^ 128 }
{
    let _number = number;
}

// An identifier has a number of 128 bits.
fn is_identifier(identifier: Identifier)
    ensures { IsIdentifier identifier }
{
    is_wide(identifier.id)
}

// A name is one.
fn is_name(name: &Option<GivenName>)
    ensures { IsName name.now }
{
    match name {
        Some(name) => {
            let _ = name.as_str();
        }
        None => {}
    }
}

// Each item of a slice of bytes is a byte.
fn are_bytes(bytes: &[u8])
    ensures { AreBytes bytes.now }
{
    let _ = bytes.len();
}

// A digest has 32 bytes.
fn is_digest(digest: &Digest)
    ensures size { IsDigest digest.now }
    ensures bytes { AreBytes digest.now }
{
    are_bytes(digest.as_bytes())
}

// An atom has a digest or a text that is one.
fn is_atom(atom: &Atom)
    ensures { IsAtom atom.now }
{
    match atom {
        Atom::Dir => {}
        Atom::File(digest, _) => are_bytes(digest.as_bytes()),
        Atom::Link(text) => {
            let _ = text.as_str();
        }
        Atom::Untracked => {}
        Atom::Problem(_) => {}
    }
}

// What was found has, if it is an atom.
fn is_found(found: &Option<Atom>)
    ensures { IsFound found.now }
{
    match found {
        Some(atom) => is_atom(atom),
        None => {}
    }
}

// A listed entry has a path and an atom.
fn is_listed(listed: &Listed)
    ensures { IsListed listed.now }
{
    let _ = listed.path.names();
    is_atom(&listed.atom)
}

// Each listed entry has.
fn are_listed(entries: &[Listed])
    ensures { AllByRecursion IsListed entries.now }
{
    let mut rest = entries;
    while let [listed, behind @ ..] = rest {
        is_listed(listed);
        rest = behind;
    }
}

// A label has a key and a value.
fn is_label(label: &Label)
    ensures { IsLabel label.now }
{
    let _ = label.key.as_str();
    let _ = label.value.as_str();
}

// Each label has.
fn are_labels(labels: &[Label])
    ensures { AllByRecursion IsLabel labels.now }
{
    let mut rest = labels;
    while let [label, behind @ ..] = rest {
        is_label(label);
        rest = behind;
    }
}

// A row of a synchronisation session has an identifier, a name, numbers and labels.
fn is_sync_row(row: &SyncRow)
    ensures { IsSyncRow row.now }
{
    is_identifier(row.identifier);
    is_name(&row.name);
    is_number(row.cycles);
    is_number(row.conflicts);
    is_number(row.problems);
    are_labels(row.labels.as_slice())
}

// Each row has.
fn are_sync_rows(rows: &[SyncRow])
    ensures { AllByRecursion IsSyncRow rows.now }
{
    let mut rest = rows;
    while let [row, behind @ ..] = rest {
        is_sync_row(row);
        rest = behind;
    }
}

// A row of a forwarding session has an identifier and a name.
fn is_forward_row(row: &ForwardRow)
    ensures { IsForwardRow row.now }
{
    is_identifier(row.identifier);
    is_name(&row.name)
}

// Each row has.
fn are_forward_rows(rows: &[ForwardRow])
    ensures { AllByRecursion IsForwardRow rows.now }
{
    let mut rest = rows;
    while let [row, behind @ ..] = rest {
        is_forward_row(row);
        rest = behind;
    }
}

// A row of a conflict has a path and numbers.
fn is_conflict_row(row: &ConflictRow)
    ensures { IsConflictRow row.now }
{
    let _ = row.at.names();
    is_number(row.alpha);
    is_number(row.beta)
}

// Each row has.
fn are_conflict_rows(rows: &[ConflictRow])
    ensures { AllByRecursion IsConflictRow rows.now }
{
    let mut rest = rows;
    while let [row, behind @ ..] = rest {
        is_conflict_row(row);
        rest = behind;
    }
}

// A cause has digests or a path that are ones.
fn is_cause(cause: &Cause)
    ensures { IsCause cause.now }
{
    match cause {
        Cause::Changed => {}
        Cause::TooLarge => {}
        Cause::Failed => {}
        Cause::Differs => {}
        Cause::NotEmpty => {}
        Cause::NoParent => {}
        Cause::NoLink => {}
        Cause::NoExec => {}
        Cause::DigestDiffers { wanted, got } => {
            is_digest(wanted);
            is_digest(got)
        }
        Cause::NotStaged => {}
        Cause::NoMemory => {}
        Cause::Skipped(path) => {
            let _ = path.names();
        }
    }
}

// A problem has a path and a cause.
fn is_problem(problem: &Problem)
    ensures { IsProblem problem.now }
{
    let _ = problem.path.names();
    is_cause(&problem.cause)
}

// Each problem has.
fn are_problems(problems: &[Problem])
    ensures { AllByRecursion IsProblem problems.now }
{
    let mut rest = problems;
    while let [problem, behind @ ..] = rest {
        is_problem(problem);
        rest = behind;
    }
}

// A report has a number and rows.
fn is_report(report: &ReportRows)
    ensures { IsReport report.now }
{
    is_number(report.cycle);
    are_conflict_rows(report.conflicts.as_slice());
    are_problems(report.problems.as_slice())
}

// A refusal has what it names.
fn is_refusal(refusal: &Refusal)
    ensures { IsRefusal refusal.now }
{
    match refusal {
        Refusal::LineTooLong => {}
        Refusal::BadPattern { index, place } => {
            is_number(*index);
            is_number(*place)
        }
        Refusal::NoRoot(_) => {}
        Refusal::EditRefused { path, found } => {
            let _ = path.names();
            is_found(found)
        }
        Refusal::LogFull(size) => is_number(*size),
        Refusal::BytesFull(bytes) => is_number(*bytes),
        Refusal::KeeperFault => {}
        Refusal::NoSession => {}
        Refusal::SameRoot => {}
        Refusal::TableFull => {}
        Refusal::NameTaken(identifier) => is_identifier(*identifier),
        Refusal::IdTaken(identifier) => is_identifier(*identifier),
        Refusal::OldNumber(last) => is_number(*last),
        Refusal::ClientsFull => {}
        Refusal::Halted(_) => {}
        Refusal::Paused => {}
        Refusal::DiceFault => {}
        Refusal::BadLine(place) => is_number(*place),
        Refusal::StreamsFull(live) => is_number(*live as u64),
        Refusal::NoStream => {}
        Refusal::ScriptOnly => {}
        Refusal::OldRun(run) => is_number(*run as u64),
        Refusal::Cut => {}
        Refusal::WriteClosed => {}
    }
}
