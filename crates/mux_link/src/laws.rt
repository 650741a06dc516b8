//! The law of a pair, for every list of steps.
ghost use Rattle.mux_link.specs.Laws.{DeliversInOrder, LosesNothing, EndsAtTheEnd, CreditsAddUp, CarriesFrames};

/// A pair, whatever its users do and however its bytes are moved, also where memory runs out. For each
/// stream and direction: what was read is a prefix of what was accepted. Until a cut, while the reading
/// side has the stream, what was read, what is buffered and what is on the link are all that was
/// accepted. End is answered only where writing has ended and all was read. Until a cut or a Close,
/// credit, bytes on the link, bytes buffered and amounts on the link add up to 65,536. What was accepted
/// and what was read are folds of the steps and their replies, and kept nowhere.
pub fn joined_pair()
    ensures order { DeliversInOrder }
    ensures rest { LosesNothing }
    ensures end { EndsAtTheEnd }
    ensures credit { CreditsAddUp }
    ensures link { CarriesFrames }
{}
