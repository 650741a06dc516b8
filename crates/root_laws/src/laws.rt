//! The laws. Each is the contract of a function that does nothing.
ghost use Rattle.root_laws.specs.Changing.{OnePath, PlacesDigest};
ghost use Rattle.root_laws.specs.Listings.{ListingsTell};
ghost use Rattle.root_laws.specs.LogLaws.{KeptStays, LongerIsLegal, MomentsAreOfEvents, MomentsAreOfLog, MomentsGrow, PrefixesAreLegal};
ghost use Rattle.root_laws.specs.Pieces.{PiecesCount, PiecesJoin};
ghost use Rattle.root_laws.specs.StampLaws.{AtomsStay, NewStampsAreNew, StampsKeepContents};
ghost use Rattle.root_laws.specs.ViewLaws.{ViewsAreClosed, ViewsByPoint};

/// A changing operation that is done changes one path: there it had found what it expected, and leaves what it says. All
/// other paths stay. A placed file has the digest and the executable bit that were asked for.
pub fn one_path()
    ensures path { OnePath }
    ensures digest { PlacesDigest }
{}

/// What a root shows has at each path the atom of the entry there, and is closed under parents.
pub fn view()
    ensures point { ViewsByPoint }
    ensures closed { ViewsAreClosed }
{}

/// Bytes that a session keeps under a digest stay kept until that session clears, whatever others do.
pub fn kept_stays()
    ensures { KeptStays }
{}

/// The pieces of a content, each behind the one before, join to it; and how many they are.
pub fn pieces()
    ensures join { PiecesJoin }
    ensures count { PiecesCount }
{}

/// A stamp seen once names the same bytes in every longer log, so an entry keeps its atom; and a new stamp stood nowhere
/// before.
pub fn stamps()
    ensures contents { StampsKeepContents }
    ensures atoms { AtomsStay }
    ensures new { NewStampsAreNew }
{}

/// Two closed trees with the same root and the same children in each folder are equal.
pub fn listings()
    ensures { ListingsTell }
{}

/// A beginning of a legal log is legal, and what follows is legal behind it; legal events behind a legal log make one.
pub fn prefixes()
    ensures beginnings { PrefixesAreLegal }
    ensures longer { LongerIsLegal }
{}

/// The events of one session, each with the state at it, are moments of the log, and a longer log adds to them at the end.
pub fn by_session()
    ensures events { MomentsAreOfEvents }
    ensures moments { MomentsAreOfLog }
    ensures grow { MomentsGrow }
{}
