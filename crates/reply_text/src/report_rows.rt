//! The report of a cycle, as a reply tells it.
ghost use Rattle.std.specs.Prelude.{◌≡◌, ◌++◌, ◌∷◌, [], IfOk, OnOk, string_bytes};
ghost use Rattle.std.specs.List.{flat_map};
ghost use Rattle.command_words.specs.Piece.{next_words};
ghost use Rattle.reply_text.specs.Lines.{newline};
ghost use Rattle.reply_text.specs.Reports.{cause_words, conflict_line, outcome_words, problem_line, report_rows, report_words};

use crate::conflict_row::{ConflictRow, conflict_rows, write_conflicts};
use crate::copies::copied_items;
use crate::line::{end_line, write_words};
use command_words::{Identifier, Piece, halt_word, side_word, write_pieces};
use mode_rules::{Cause, CycleReport, Outcome, Problem};
use sqlite_items::Items;
use std::alloc::{AllocError, Global};

/// The report of a cycle, as a reply tells it.
#[derive(Debug, Drop)]
pub struct ReportRows {
    /// The cycle's number.
    pub cycle: u64,
    /// How it ended.
    pub outcome: Outcome,
    /// The conflicts, in path order.
    pub conflicts: Items<ConflictRow>,
    /// The problems, as they arose.
    pub problems: Items<Problem>,
}

impl ReportRows {
    /// The rows of a report. Cost: the lengths of the paths of its conflicts and problems.
    pub fn of(alloc: Global, report: &CycleReport) -> Result<ReportRows, AllocError>
        ensures { IfOk result (λ rows. rows ≡ report_rows report.now) }
    {
        Ok(ReportRows {
            cycle: report.cycle,
            outcome: report.outcome,
            conflicts: conflict_rows(alloc, report.conflicts.as_slice())?,
            problems: copied_items(alloc, report.problems.as_slice())?,
        })
    }

    /// An equal report. Cost: the lengths of the paths of its conflicts and problems.
    pub fn copy(&self, alloc: Global) -> Result<ReportRows, AllocError>
        ensures { IfOk result (λ rows. rows ≡ self.now) }
    {
        Ok(ReportRows {
            cycle: self.cycle,
            outcome: self.outcome,
            conflicts: copied_items(alloc, self.conflicts.as_slice())?,
            problems: copied_items(alloc, self.problems.as_slice())?,
        })
    }
}

/// Writes what stands behind `ok flush` or `ok report`, and the lines of the conflicts and problems. Cost: their lengths.
pub(crate) fn write_report(
    text: &mut String,
    identifier: Identifier,
    report: &ReportRows,
) -> Result<(), AllocError>
    ensures { OnOk result (string_bytes text.new
        ≡ string_bytes text.old ++ ((next_words (report_words identifier report.now) ++ newline ∷ [])
        ++ (flat_map conflict_line report.now.conflicts ++ flat_map problem_line report.now.problems))) }
{
    write_first(text, identifier, report)?;
    write_conflicts(text, report.conflicts.as_slice())?;
    write_problems(text, report.problems.as_slice())
}

// Writes what stands behind `ok flush` or `ok report`, to the end of the line.
fn write_first(
    text: &mut String,
    identifier: Identifier,
    report: &ReportRows,
) -> Result<(), AllocError>
    ensures { OnOk result (string_bytes text.new ≡ string_bytes text.old ++ (next_words (report_words identifier report.now) ++ newline ∷ [])) }
{
    write_pieces(
        text,
        &[
            Piece::Id(identifier),
            Piece::Text("cycle"),
            Piece::Number(report.cycle),
        ],
    )?;
    write_outcome(text, report.outcome)?;
    write_words(
        text,
        &[
            Piece::Text("conflicts"),
            Piece::Number(report.conflicts.len() as u64),
            Piece::Text("problems"),
            Piece::Number(report.problems.len() as u64),
        ],
    )
}

// Writes how a cycle ended.
fn write_outcome(text: &mut String, outcome: Outcome) -> Result<(), AllocError>
    ensures { OnOk result (string_bytes text.new ≡ string_bytes text.old ++ next_words (outcome_words outcome)) }
{
    match outcome {
        Outcome::Done => write_pieces(text, &[Piece::Text("done")]),
        Outcome::Halted(halt) => {
            write_pieces(text, &[Piece::Text("halted"), Piece::Text(halt_word(halt))])
        }
        Outcome::Stopped => write_pieces(text, &[Piece::Text("stopped")]),
        Outcome::TooMany(side) => write_pieces(
            text,
            &[Piece::Text("too-many"), Piece::Text(side_word(side))],
        ),
        Outcome::Fault(side) => {
            write_pieces(text, &[Piece::Text("fault"), Piece::Text(side_word(side))])
        }
        Outcome::RootFull(side) => write_pieces(
            text,
            &[Piece::Text("root-full"), Piece::Text(side_word(side))],
        ),
        Outcome::KeeperFault => write_pieces(text, &[Piece::Text("keeper-fault")]),
        Outcome::NoMemory => write_pieces(text, &[Piece::Text("no-memory")]),
    }
}

// Writes the lines of problems behind a text.
fn write_problems(text: &mut String, problems: &[Problem]) -> Result<(), AllocError>
    ensures { OnOk result (string_bytes text.new ≡ string_bytes text.old ++ flat_map problem_line problems.now) }
{
    for problem in problems {
        write_problem(text, problem)?;
    }
    Ok(())
}

// Writes the line of a problem.
#[tactic(auto, unfolding(crate::specs::Reports::problem_line))]
fn write_problem(text: &mut String, problem: &Problem) -> Result<(), AllocError>
    ensures { OnOk result (string_bytes text.new ≡ string_bytes text.old ++ problem_line problem.now) }
{
    text.push(' ')?;
    write_pieces(
        text,
        &[
            Piece::Text("problem"),
            Piece::Text(side_word(problem.side)),
            Piece::Place(&problem.path),
        ],
    )?;
    write_cause(text, &problem.cause)?;
    end_line(text)
}

// Writes why something was not seen or not done.
fn write_cause(text: &mut String, cause: &Cause) -> Result<(), AllocError>
    ensures { OnOk result (string_bytes text.new ≡ string_bytes text.old ++ next_words (cause_words cause.now)) }
{
    match cause {
        Cause::Changed => write_pieces(text, &[Piece::Text("changed")]),
        Cause::TooLarge => write_pieces(text, &[Piece::Text("too-large")]),
        Cause::Failed => write_pieces(text, &[Piece::Text("failed")]),
        Cause::Differs => write_pieces(text, &[Piece::Text("differs")]),
        Cause::NotEmpty => write_pieces(text, &[Piece::Text("not-empty")]),
        Cause::NoParent => write_pieces(text, &[Piece::Text("no-parent")]),
        Cause::NoLink => write_pieces(text, &[Piece::Text("no-link")]),
        Cause::NoExec => write_pieces(text, &[Piece::Text("no-exec")]),
        Cause::DigestDiffers { wanted, got } => write_pieces(
            text,
            &[
                Piece::Text("digest-differs"),
                Piece::Digits(wanted),
                Piece::Digits(got),
            ],
        ),
        Cause::NotStaged => write_pieces(text, &[Piece::Text("not-staged")]),
        Cause::NoMemory => write_pieces(text, &[Piece::Text("no-memory")]),
        Cause::Skipped(path) => write_pieces(text, &[Piece::Text("skipped"), Piece::Place(path)]),
    }
}
