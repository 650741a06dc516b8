//! What a scan makes of what it is answered.
ghost use Rattle.std.specs.Prelude.{◌≡◌, ◌⊎◌, ◌+◌, ◌^◌, ◌<◌, ◌≤◌, ◌++◌, ℕ, List, [], Some, None, length, IfErr, IfOk, IsTrue, OnOk, OnErr, is_some};
ghost use Rattle.roots_api.specs.Answers.{IsAnswerTo};
ghost use Rattle.roots_api.specs.declared.answer.Answer.TheVariants.{Listed};
ghost use Rattle.roots_api.specs.declared.limits.TheConstants.{MAX_FETCH};
ghost use Rattle.roots_api.specs.declared.op.Op.TheVariants.{List as OpList, Fetch};
ghost use Rattle.scan_cache.specs.Cache.{with_line};
ghost use Rattle.scan_core.specs.Board.{shows_file};
ghost use Rattle.scan_core.specs.Reading.{IsReading};
ghost use Rattle.scan_core.specs.Scan.{after_list, after_piece, after_fetch, after_told, asked_for, ends_list, ends_fetch, ends_asked, learns, learns_piece, learns_fetch, with_problem, file_done, new_state, IsAnswered};
ghost use Rattle.scan_core.specs.Work.{IsWork, with_begun};
ghost use Rattle.scan_core.specs.declared.scan_end.ScanEnd.TheVariants.{Memory};
ghost use Rattle.sha2.specs.Sha256.{sha256};

use crate::board::Board;
use crate::reading::Reading;
use crate::scan_end::ScanEnd;
use crate::wanted::Wanted;
use entry_tree::{Atom, Digest, Node, ProblemKind, Stamp};
use ignore_rules::Rules;
use roots_api::{Answer, Op, Rows};
use scan_cache::Cache;
use std::alloc::{AllocError, Global};
use std::mem;
use sync_path::Path;

/// What a scan has seen and still asks for, and what it read of the file whose content it asks for next.
#[derive(Drop)]
pub struct Work {
    pub(crate) board: Board,
    pub(crate) reading: Reading,
}

/// Takes the answer to a List of the path. After an `Err` nothing is said of the board.
pub(crate) fn take_list(
    board: &mut Board,
    alloc: Global,
    entries: u32,
    path: &Path,
    answer: &Answer,
    rules: &Rules,
    cache: &Cache,
) -> Result<(), ScanEnd>
    requires answered { IsAnswerTo (OpList path.now) answer.now }
    ensures ok { OnOk result (board.new ≡ after_list rules.now cache.now board.old path.now answer.now) }
    ensures goes_on { OnOk result (ends_list entries board.old.rows answer.now ≡ None) }
    ensures ends { IfErr result (λ e. (e ≡ Memory) ⊎ (ends_list entries board.old.rows answer.now ≡ Some e)) }
{
    match answer {
        Answer::Listed(rows) => take_rows(board, alloc, entries, path, rows, rules, cache),
        Answer::Held(None) => {
            board.advance();
            Ok(())
        }
        Answer::Held(Some(entry)) => {
            let entry = entry.copy(alloc)?;
            let path = path.copy(alloc)?;
            board.place(alloc, path, entry, rules, cache)?;
            board.advance();
            Ok(())
        }
        Answer::Full(room) => Err(ScanEnd::RootFull(*room)),
        Answer::Failed => Err(ScanEnd::Fault),
        _ => unreachable!(),
    }
}

// Takes the rows of the folder at the path.
fn take_rows(
    board: &mut Board,
    alloc: Global,
    entries: u32,
    path: &Path,
    rows: &Rows,
    rules: &Rules,
    cache: &Cache,
) -> Result<(), ScanEnd>
    ensures ok { OnOk result (board.new ≡ after_list rules.now cache.now board.old path.now (Listed rows.now)) }
    ensures goes_on { OnOk result (ends_list entries board.old.rows (Listed rows.now) ≡ None) }
    ensures ends { IfErr result (λ e. (e ≡ Memory) ⊎ (ends_list entries board.old.rows (Listed rows.now) ≡ Some e)) }
{
    let more = rows.len() as u64;
    if (entries as u128) < board.rows as u128 + more as u128 {
        return Err(ScanEnd::TooMany);
    }
    board.show(alloc, path, Atom::Dir)?;
    board.count(more);
    board.add_rows(alloc, path, rows.as_slice(), rules, cache)?;
    board.advance();
    Ok(())
}

impl Work {
    /// Nothing is seen, and nothing read. It takes no memory.
    pub(crate) fn new(alloc: Global) -> Work
        ensures { IsWork new_state result }
    {
        Work {
            board: Board::new(alloc),
            reading: Reading::new(),
        }
    }

    /// What is asked for next. Cost: a copy of its path.
    pub(crate) fn next_op(&self, alloc: Global) -> Result<Option<Op>, AllocError>
        ensures value { IfOk result (λ op. op ≡ asked_for self.now.reading.length self.now.board.next) }
        ensures memory { OnErr result (IsTrue (is_some (asked_for self.now.reading.length self.now.board.next))) }
    {
        match &self.board.next {
            None => Ok(None),
            Some(next) => {
                let path = next.path.copy(alloc)?;
                match next.wanted {
                    Wanted::Names => Ok(Some(Op::List { path })),
                    Wanted::Content(stamp, _) => Ok(Some(Op::Fetch {
                        path,
                        stamp,
                        offset: self.reading.length,
                    })),
                }
            }
        }
    }

    // The content of the file at the path isn't seen.
    fn fail(&mut self, alloc: Global, path: &Path, kind: ProblemKind) -> Result<(), AllocError>
        ensures { OnOk result (IsWork (with_problem self.old.board path.now kind) self.new) }
    {
        self.board.show(alloc, path, Atom::Problem(kind))?;
        self.board.advance();
        self.reading = Reading::new();
        Ok(())
    }

    // The digest of what was read. Nothing is read then.
    fn finish(&mut self) -> Digest
        ensures digest { (begun : List ℕ) → IsReading self.old.reading begun → result ≡ sha256 begun }
        ensures reading { IsReading self.new.reading [] }
        ensures board { self.new.board ≡ self.old.board }
    {
        let read = mem::replace(&mut self.reading, Reading::new());
        read.finish()
    }

    // The file at the path is seen, by what was read of it. The cache learns of it last.
    fn see_file(
        &mut self,
        alloc: Global,
        path: &Path,
        stamp: Stamp,
        exec: bool,
        cache: &mut Cache,
    ) -> Result<(), AllocError>
        ensures ok { (begun : List ℕ) → IsReading self.old.reading begun → OnOk result (IsWork (file_done (shows_file self.old.board path.now stamp exec (sha256 begun))) self.new) }
        ensures learnt { (begun : List ℕ) → IsReading self.old.reading begun → OnOk result (cache.new ≡ with_line cache.old path.now stamp (sha256 begun)) }
        ensures err { OnErr result (cache.new ≡ cache.old) }
    {
        let digest = self.finish();
        let seen_at = path.copy(alloc)?;
        self.board.show_file(alloc, seen_at, stamp, exec, digest)?;
        self.board.advance();
        cache.learn(alloc, path, stamp, digest)
    }

    // Takes a piece of the file at the path.
    fn take_piece(
        &mut self,
        alloc: Global,
        size: u64,
        path: &Path,
        stamp: Stamp,
        exec: bool,
        piece: &[u8],
        last: bool,
        cache: &mut Cache,
    ) -> Result<(), AllocError>
        requires small { self.old.reading.length + length piece.now < 2 ^ 64 }
        ensures ok { (begun : List ℕ) → IsReading self.old.reading begun → OnOk result (IsWork (after_piece size self.old.board path.now stamp exec (begun ++ piece.now) last) self.new) }
        ensures learnt { (begun : List ℕ) → IsReading self.old.reading begun → OnOk result (cache.new ≡ learns_piece size cache.old path.now stamp (begun ++ piece.now) last) }
        ensures err { OnErr result (cache.new ≡ cache.old) }
    {
        self.reading.read(piece);
        if size < self.reading.length {
            return self.fail(alloc, path, ProblemKind::TooLarge);
        }
        if last {
            return self.see_file(alloc, path, stamp, exec, cache);
        }
        Ok(())
    }

    // Takes the answer to a Fetch of the file at the path.
    fn take_fetch(
        &mut self,
        alloc: Global,
        size: u64,
        path: &Path,
        stamp: Stamp,
        exec: bool,
        answer: &Answer,
        cache: &mut Cache,
    ) -> Result<(), ScanEnd>
        requires answered { IsAnswerTo (Fetch path.now stamp self.old.reading.length) answer.now }
        requires small { self.old.reading.length ≤ MAX_FETCH }
        ensures ok { (begun : List ℕ) → IsReading self.old.reading begun → OnOk result (IsWork (after_fetch size self.old.board path.now stamp exec begun answer.now) self.new) }
        ensures learnt { (begun : List ℕ) → IsReading self.old.reading begun → OnOk result (cache.new ≡ learns_fetch size cache.old path.now stamp begun answer.now) }
        ensures goes_on { OnOk result (ends_fetch answer.now ≡ None) }
        ensures ends { IfErr result (λ e. (e ≡ Memory) ⊎ (ends_fetch answer.now ≡ Some e)) }
        ensures err { OnErr result (cache.new ≡ cache.old) }
    {
        match answer {
            Answer::Piece { bytes, last } => {
                self.take_piece(
                    alloc,
                    size,
                    path,
                    stamp,
                    exec,
                    bytes.as_slice(),
                    *last,
                    cache,
                )?;
                Ok(())
            }
            Answer::Changed(_) => {
                self.fail(alloc, path, ProblemKind::Changed)?;
                Ok(())
            }
            Answer::TooLarge(_) => {
                self.fail(alloc, path, ProblemKind::TooLarge)?;
                Ok(())
            }
            Answer::Failed => {
                self.fail(alloc, path, ProblemKind::Failed)?;
                Ok(())
            }
            Answer::Full(room) => Err(ScanEnd::RootFull(*room)),
            _ => unreachable!(),
        }
    }

    /// Takes the answer to what is asked for next. After an `Err` the cache is as it was, and nothing is said of the rest.
    pub(crate) fn take(
        &mut self,
        alloc: Global,
        entries: u32,
        size: u64,
        answer: &Answer,
        rules: &Rules,
        cache: &mut Cache,
    ) -> Result<(), ScanEnd>
        requires answered { IsAnswered (asked_for self.old.reading.length self.old.board.next) answer.now }
        requires small { self.old.reading.length ≤ MAX_FETCH }
        ensures ok { (begun : List ℕ) → IsReading self.old.reading begun → OnOk result (IsWork (after_told size (with_begun self.old.board begun) (record { answer = answer.now; rules = rules.now; cache = cache.old })) self.new) }
        ensures learnt { (begun : List ℕ) → IsReading self.old.reading begun → OnOk result (cache.new ≡ learns size (with_begun self.old.board begun) (record { answer = answer.now; rules = rules.now; cache = cache.old })) }
        ensures goes_on { OnOk result (ends_asked entries self.old.board.rows answer.now self.old.board.next ≡ None) }
        ensures ends { IfErr result (λ e. (e ≡ Memory) ⊎ (ends_asked entries self.old.board.rows answer.now self.old.board.next ≡ Some e)) }
        ensures err { OnErr result (cache.new ≡ cache.old) }
    {
        match &self.board.next {
            None => unreachable!(),
            Some(next) => {
                let path = next.path.copy(alloc)?;
                match next.wanted {
                    Wanted::Names => {
                        take_list(&mut self.board, alloc, entries, &path, answer, rules, cache)
                    }
                    Wanted::Content(stamp, exec) => {
                        self.take_fetch(alloc, size, &path, stamp, exec, answer, cache)
                    }
                }
            }
        }
    }
}
