//! What every state, every step and every log keeps to. Each law is the contract of a function that does nothing.
ghost use Rattle.roots_api.specs.Laws.{UndoneLeavesTree, OthersLeaveTree, FailedLeavesAll, PlacesWhereExpected, MakesDirWhereNothing, MakesLinkWhereExpected, RemovesWhereExpected, SetsExecWhereExpected, AnswersInRow, StagesApart, EditsLeaveStaging, ClearsAll, LedgerGrows, StampsName, TreesAreClosed, TreesHoldPaths, KeepsByDigest};

/// An operation that isn't done leaves tree and ledger, and so does each but the five that change a tree; one that failed
/// leaves all.
pub fn undone_leaves_the_tree()
    ensures undone { UndoneLeavesTree }
    ensures others { OthersLeaveTree }
    ensures failed { FailedLeavesAll }
{}

/// An operation that changes the tree is done only where the entry that it expects stands there, stamp and executable bit
/// included; one that makes something, only where the parent is a folder. A folder is taken away only without names, and a file is placed only of kept bytes.
pub fn done_where_expected()
    ensures place { PlacesWhereExpected }
    ensures make_dir { MakesDirWhereNothing }
    ensures make_link { MakesLinkWhereExpected }
    ensures remove { RemovesWhereExpected }
    ensures set_exec { SetsExecWhereExpected }
{}

/// Where a log is legal, each operation is answered in its row.
pub fn answers_in_row()
    ensures { AnswersInRow }
{}

/// No session sees what another stages, and an editor changes nothing of it.
pub fn sessions_stage_apart()
    ensures apart { StagesApart }
    ensures editor { EditsLeaveStaging }
    ensures cleared { ClearsAll }
{}

/// The content ledger only grows, so a stamp names one content for ever; and each stamp in a tree names one.
pub fn stamps_name_contents()
    ensures grows { LedgerGrows }
    ensures named { StampsName }
{}

/// In a legal log trees are closed under parents and hold something only at paths, and bytes are kept under their own digest
/// alone.
pub fn legal_logs()
    ensures closed { TreesAreClosed }
    ensures paths { TreesHoldPaths }
    ensures kept { KeepsByDigest }
{}
