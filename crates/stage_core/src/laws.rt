//! What every list of a staging's turns keeps to. Each law is the contract of a function that does nothing.
ghost use Rattle.stage_core.specs.Laws.{EachKeptOrMissing, FewForFiles, FewForPieces, StopsAtOnce};

/// At the end each file is kept or stands among the problems, unless Full, or Failed to another operation than a Fetch, was answered.
pub fn kept_or_missing()
    ensures { EachKeptOrMissing }
{}

/// Once Full, or Failed to another operation than a Fetch, was answered, nothing further is asked.
pub fn stops_at_once()
    ensures { StopsAtOnce }
{}

/// How many operations there are at most: by the files that are needed, and by the pieces that are asked for.
pub fn few_operations()
    ensures files { FewForFiles }
    ensures pieces { FewForPieces }
{}
