//! The law of a forwarding session, for every list of steps.
ghost use Rattle.forward_core.specs.Laws.{DeliversInOrder, LosesNothing, EndsAtTheEnd, CreditsAddUp, CarriesFrames};

/// A session, whatever its users do, and however often it is paused and resumed. A resume that makes a
/// new link begins new streams, whatever their numbers. Of these, for each stream and direction: what was
/// read is a prefix of what was accepted. Until a cut or a pause, while the reading side has the stream,
/// what was read, what is buffered and what is on the link are all that was accepted. End is answered
/// only where writing has ended and all was read. Until a cut, a pause or a Close, credit, bytes on the
/// link, bytes buffered and amounts on the link add up to 65,536.
pub fn session_link()
    ensures order { DeliversInOrder }
    ensures rest { LosesNothing }
    ensures end { EndsAtTheEnd }
    ensures credit { CreditsAddUp }
    ensures link { CarriesFrames }
{}
