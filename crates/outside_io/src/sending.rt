//! A whole piece to a sink.
ghost use Rattle.std.specs.Prelude.{◌≡◌, ℕ, ◌<◌, ◌≤◌, length, take, [], IsOk, OnOk, OnErr};
ghost use Rattle.std.specs.Io.KnownBytes.{Appends};
ghost use Rattle.fault_count.specs.Rose.{Rose};

use super::sink::Sink;
use super::source::Failed;

/// Writes all of `bytes`, in as many writes as the sink wants. Where a write fails, a part of
/// `bytes` from its front was written, and not all. It takes no memory, and costs one write for
/// each part that the sink takes.
pub fn send<K: Sink>(sink: &mut K, bytes: &[u8]) -> Result<(), Failed>
    ensures all { OnOk result (Appends (K.written sink.old) (K.written sink.new) bytes.now) }
    ensures part { OnErr result ((n : ℕ) × (n < length bytes.now)
        × Appends (K.written sink.old) (K.written sink.new) (take n bytes.now)) }
    ensures counts { K.faults sink.old ≤ K.faults sink.new }
    ensures failed { OnErr result (Rose (K.faults sink.old) (K.faults sink.new)) }

    // No bytes ask nothing of the sink.
    ensures nothing { bytes.now ≡ [] → IsOk result × (sink.new ≡ sink.old) }
{
    let mut rest = bytes;
    while !rest.is_empty() {
        let count = sink.write(rest)?;
        rest = &rest[count..];
    }
    Ok(())
}
