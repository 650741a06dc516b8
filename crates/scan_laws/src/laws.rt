//! The laws. Each is the contract of a function that does nothing.
ghost use Rattle.scan_laws.specs.Bounds.{ListsAreBounded, RowsAreCounted, AsksListsAndFetches, FetchesAreBounded};
ghost use Rattle.scan_laws.specs.Caches.{FilesAreKnown, LinesStay};
ghost use Rattle.scan_laws.specs.Contents.{FilesAreContents, LinesStayContents};
ghost use Rattle.scan_laws.specs.Meeting.{AsksWhatPointsSay, SeesWhatPointsSay, WholeSeesSeenTree, AsksAScansList, WholeHasNoNext, WholeIsWholeScan};
ghost use Rattle.scan_laws.specs.Standing.{SeenIsClosed, StampsAreOfFiles};
ghost use Rattle.scan_laws.specs.Undisturbed.{EndsByRowsAlone, UndisturbedSeesLook, WholeListsLookRows};
ghost use Rattle.scan_laws.specs.Worked.{FileIsSeen, LargeFileIsProblem, ChangedFileIsProblem, FolderBecameFile, IgnoredIsUntracked, OrderIsPathOrder, EndsAtLimit};

/// Small lists, as examples of the definitions: a file that is read in two pieces; one of more bytes than it may have; one that
/// changed between two pieces; a folder that became a file before it was listed; an ignored folder; lists out of order or past
/// the limit of rows.
pub fn worked_lists()
    ensures file { FileIsSeen }
    ensures large { LargeFileIsProblem }
    ensures changed { ChangedFileIsProblem }
    ensures became { FolderBecameFile }
    ensures ignored { IgnoredIsUntracked }
    ensures order { OrderIsPathOrder }
    ensures limit { EndsAtLimit }
{}

/// A scan asks for at most one List more than rows were listed. The rows that count against its limit are all that were listed on the
/// side, in whatever folders, and they never pass it. All else that it asks are Fetches: of each file as many as it has pieces of 65,536
/// bytes that were read, or one more.
pub fn lists_and_rows()
    ensures lists { ListsAreBounded }
    ensures rows { RowsAreCounted }
    ensures both { AsksListsAndFetches }
    ensures fetches { FetchesAreBounded }
{}

/// What a scan has seen is closed under parents, so that nothing is seen below an atom other than a folder; and just the paths that
/// are seen as files have a stamp.
pub fn seen_trees()
    ensures closed { SeenIsClosed }
    ensures stamps { StampsAreOfFiles }
{}

/// Where all takes were given one cache, which nothing else changed between them, each file that was seen has the digest that the
/// cache then has for its path and stamp; and no path loses its line.
pub fn one_cache()
    ensures files { FilesAreKnown }
    ensures lines { LinesStay }
{}

/// Where the lines of the cache and all pieces that were handed in are of the contents that a ledger has for their stamps, each file
/// that was seen has the digest of its stamp's content, and each line of the cache then too, whatever changed in between.
pub fn contents_of_scans()
    ensures files { FilesAreContents }
    ensures lines { LinesStayContents }
{}

/// Where all takes were given the same rules and one cache, which nothing else changed between them, a scan asks and sees what the
/// points say: what is asked next is the first path, in path order, of which something is still needed; what has been seen is the
/// seen tree as far as it is settled, and all of it once nothing is left to ask. What was asked is a scan's list, and a whole one
/// exactly where nothing is asked next; then it is a whole scan, which can be told from the list alone.
pub fn points_of_scans()
    ensures asks { AsksWhatPointsSay }
    ensures sees { SeesWhatPointsSay }
    ensures whole { WholeSeesSeenTree }
    ensures list { AsksAScansList }
    ensures next { WholeHasNoNext }
    ensures scan { WholeIsWholeScan }
{}

/// A whole scan of a root on which nothing changed, and no call failed, saw the root's look: the lines that the cache had for the
/// files of that state, path and stamp, are of their contents. It listed just the entries that stand in folders which the rules don't
/// ignore. A scan of such a root ends before it is whole for one reason alone: these are more than a side may have.
pub fn undisturbed_scans()
    ensures look { UndisturbedSeesLook }
    ensures rows { WholeListsLookRows }
    ensures ends { EndsByRowsAlone }
{}
