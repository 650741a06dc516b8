//! Laws of the format, for every list of bytes and every way to cut it.
ghost use Rattle.std.specs.Prelude.{◌≡◌, ℕ, ◌<◌, List, [], ◌++◌, length};
ghost use Rattle.mux_frames.specs.declared.frame.MuxFrame.{MuxFrame};
ghost use Rattle.mux_frames.specs.Prefix.{IsFault};
ghost use Rattle.mux_frames.specs.Streams.{stream_of, AreFrames, IsStream, Splits, IsFrontOf};
ghost use Rattle.mux_frames.specs.Readers.{Reading, Runs, Refuses, fresh, fed, answered, FaultsAt};

use crate::wire::MAX_FRAME;

/// Bytes have one reading or one fault, and not both, and less than the longest frame is left over.
pub fn one_reading()
    ensures same { (bytes : List ℕ) (a b : List MuxFrame) (rest others : List ℕ)
        → Splits bytes a rest → Splits bytes b others → (a ≡ b) × (rest ≡ others) }
    ensures sound { (bytes : List ℕ) (frames : List MuxFrame) (rest : List ℕ) (place : ℕ)
        → Splits bytes frames rest → IsFault IsStream bytes place → ⊥ }
    ensures first { (bytes : List ℕ) (a b : ℕ)
        → IsFault IsStream bytes a → IsFault IsStream bytes b → a ≡ b }
    ensures short { (bytes : List ℕ) (frames : List MuxFrame) (rest : List ℕ)
        → Splits bytes frames rest → length rest < MAX_FRAME }
{}

/// What was written is read again. Of frames that were sent, and of whose bytes some have come, the
/// first were read, the others are in the bytes that are held back and those still to come, and
/// there is no fault.
pub fn written_is_read()
    ensures all { (frames : List MuxFrame)
        → AreFrames frames → Splits (stream_of frames) frames [] }
    ensures front { (sent read : List MuxFrame) (bytes rest more : List ℕ) → AreFrames sent
        → stream_of sent ≡ bytes ++ more → Splits bytes read rest → IsFrontOf sent read rest more }
    ensures sound { (sent : List MuxFrame) (bytes more : List ℕ) (place : ℕ) → AreFrames sent
        → stream_of sent ≡ bytes ++ more → IsFault IsStream bytes place → ⊥ }
{}

/// However the stream was cut into pieces, the frames that a reader answered are those of the whole
/// stream, and the place at which it stops is where the whole stream has its fault.
pub fn any_cutting()
    ensures frames { (steps : List (List ℕ × List MuxFrame)) (end : Reading)
        → Runs fresh steps end → Splits (fed steps) (answered steps) end.held }
    ensures place { (steps : List (List ℕ × List MuxFrame)) (end new : Reading) (piece : List ℕ)
        (place : ℕ) → Runs fresh steps end → Refuses end piece place new
        → FaultsAt (fed steps ++ piece) place }
{}
