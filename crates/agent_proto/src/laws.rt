//! Laws of the format, for all messages, and for every list of bytes and every way to cut it.
ghost use Rattle.std.specs.Prelude.{◌≡◌, ℕ, ◌+◌, ◌<◌, List, [], ◌++◌, length, Option, Some};
ghost use Rattle.mux_frames.specs.Prefix.{IsFault};
ghost use Rattle.mux_frames.specs.Readers.{Reading, fresh};
ghost use Rattle.agent_proto.specs.Bodies.{ReadsBody};
ghost use Rattle.agent_proto.specs.Messages.{HasFields, IsMessage, body, spelling};
ghost use Rattle.agent_proto.specs.Readers.{Runs, Refuses, fed, answered, FaultsAt};
ghost use Rattle.agent_proto.specs.Streams.{stream_of, AreSent, IsStream, Splits, IsFrontOf};
ghost use Rattle.agent_proto.specs.declared.message.Message.{Message};

use crate::limits::MAX_MESSAGE;

/// No two messages have the same bytes.
pub fn one_spelling()
    ensures bodies { (a b : Message) → HasFields a → HasFields b → body a ≡ body b → a ≡ b }
    ensures messages { (a b : Message) → HasFields a → HasFields b → spelling a ≡ spelling b → a ≡ b }
{}

/// Reading what stands behind the length of a message's bytes gives the message. What `write_ask` and `write_answer` wrote is one, by
/// their clause `message`.
pub fn written_is_read()
    ensures { (message : Message) (found : Option Message)
        → IsMessage message → ReadsBody (body message) found → found ≡ Some message }
{}

/// Bytes have one reading or one fault, and not both, and less than the longest message is left over.
pub fn one_reading()
    ensures same { (bytes : List ℕ) (a b : List Message) (rest others : List ℕ)
        → Splits bytes a rest → Splits bytes b others → (a ≡ b) × (rest ≡ others) }
    ensures sound { (bytes : List ℕ) (messages : List Message) (rest : List ℕ) (place : ℕ)
        → Splits bytes messages rest → IsFault IsStream bytes place → ⊥ }
    ensures first { (bytes : List ℕ) (a b : ℕ)
        → IsFault IsStream bytes a → IsFault IsStream bytes b → a ≡ b }
    ensures short { (bytes : List ℕ) (messages : List Message) (rest : List ℕ)
        → Splits bytes messages rest → length rest < MAX_MESSAGE + 4 }
{}

/// Of messages that were sent, and of whose bytes some have come, the first were read, the others are in the bytes that are held
/// back and those still to come, and there is no fault.
pub fn sent_is_read()
    ensures all { (messages : List Message)
        → AreSent messages → Splits (stream_of messages) messages [] }
    ensures front { (sent read : List Message) (bytes rest more : List ℕ) → AreSent sent
        → stream_of sent ≡ bytes ++ more → Splits bytes read rest → IsFrontOf sent read rest more }
    ensures sound { (sent : List Message) (bytes more : List ℕ) (place : ℕ) → AreSent sent
        → stream_of sent ≡ bytes ++ more → IsFault IsStream bytes place → ⊥ }
{}

/// However the stream was cut into pieces, the messages that a reader answered are those of the whole stream, and the place at which
/// it stops is where the whole stream has its fault.
pub fn any_cutting()
    ensures messages { (steps : List (List ℕ × List Message)) (end : Reading)
        → Runs fresh steps end → Splits (fed steps) (answered steps) end.held }
    ensures place { (steps : List (List ℕ × List Message)) (end new : Reading) (piece : List ℕ)
        (place : ℕ) → Runs fresh steps end → Refuses end piece place new
        → FaultsAt (fed steps ++ piece) place }
{}
