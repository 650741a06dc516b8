//! The law of two ends that are joined, for every list of calls, moves and cuts.
ghost use Rattle.mux_core.specs.JoinedLaws.{DeliversInOrder, LosesNothing, EndsAtTheEnd, CreditsAddUp, CarriesFrames, MovesOn, AcceptsAll};

/// Two ends that were made with the same last number, each with the reader of what comes to it, and
/// whatever their users call: bytes are moved from one to the other in any numbers, so that frames are
/// cut anywhere, and each end is cut at any time, or never. Then for each stream and direction: what
/// was read is a prefix of what was written. Until the writing end is cut, and while the reading end
/// has the stream, what was read, what is buffered and what is on the link are all that was written. End
/// is answered only where writing has ended and all was read. Until a cut or a Close, credit, bytes on
/// the link, bytes buffered and amounts on the link add up to `WINDOW`. No end refuses a frame of the
/// other, and no reader its bytes. The calls' contracts name the same steps as a run of the two.
pub fn joined_ends()
    ensures order { DeliversInOrder }
    ensures rest { LosesNothing }
    ensures end { EndsAtTheEnd }
    ensures credit { CreditsAddUp }
    ensures link { CarriesFrames }
    ensures moves { MovesOn }
    ensures accepted { AcceptsAll }
{}
