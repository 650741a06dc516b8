//! What a disk is.
ghost use Rattle.std.specs.Prelude.{◌≡◌, ℕ, ◌+◌, ◌^◌, ◌<◌, ◌≤◌, List, length, IfOk, OnOk, OnErr};
ghost use Rattle.fault_count.specs.Rose.{Rose};
ghost use Rattle.disk_model.specs.Content.{Content, write_change, cut_change};
ghost use Rattle.disk_model.specs.Disk.{OnTold, ReadsAt, Writes, Cuts, Syncs, FailsInPart, calls_after};

/// How many bytes a disk has at most.
pub const MOST_BYTES: u64 = (1 << 63) - 1;

/// A call of a disk that failed. The disk's count of faults rose.
#[derive(Clone, Copy, Debug, PartialEq, Eq)]
pub struct Failed;

/// A disk of at most `MOST_BYTES` bytes.
///
/// Until a sync succeeds, a crash may leave any bytes in what was written and in what reaches past
/// the old end, and what a cut took away may be there or not. Bytes outside stay. What reads give is
/// always one of the things that a crash may leave.
pub trait Disk {
    // The contents that it had, the newest first, where it tells them; else no content. Each stands
    // for a moment: a crash at that moment may leave the images of `MayLeave`.
    ghost history: { Self → List Content };

    // How many faults there were so far, as far as they were counted.
    ghost faults: { Self → ℕ };

    // How many calls there were so far, as far as they were counted.
    ghost calls: { Self → ℕ };

    /// How many bytes there are.
    fn length(&mut self) -> Result<u64, Failed>
        ensures bound { IfOk result (λ n. n < 2 ^ 63) }
        ensures value { IfOk result (λ n. OnTold (history self.old) (λ now. n ≡ length now.bytes)) }
        ensures same { history self.new ≡ history self.old }
        ensures called { calls self.new ≡ calls_after (calls self.old) 1 }
        ensures counts { faults self.old ≤ faults self.new }
        ensures quiet { OnOk result (faults self.new ≡ faults self.old) }
        ensures failed { OnErr result (Rose (faults self.old) (faults self.new)) };

    /// Fills `into` from the place on as far as the bytes reach, and answers how many these are.
    fn read(&mut self, place: u64, into: &mut [u8]) -> Result<usize, Failed>
        ensures bound { IfOk result (λ n. n ≤ length into.old) }
        ensures bytes { IfOk result (λ n. OnTold (history self.old) (λ now. ReadsAt now.bytes place into.old n into.new)) }
        ensures same { history self.new ≡ history self.old }
        ensures called { calls self.new ≡ calls_after (calls self.old) 1 }
        ensures counts { faults self.old ≤ faults self.new }
        ensures quiet { OnOk result (faults self.new ≡ faults self.old) }
        ensures failed { OnErr result (Rose (faults self.old) (faults self.new)) };

    /// Writes over what is there from the place on, and past the end. A write that would reach past
    /// `MOST_BYTES` fails. One that failed may have been made in any part.
    fn write_at(&mut self, place: u64, bytes: &[u8]) -> Result<(), Failed>
        ensures room { OnOk result (place + length bytes.now < 2 ^ 63) }
        ensures made { OnOk result (Writes place bytes.now (history self.old) (history self.new)) }
        ensures torn { OnErr result (FailsInPart (write_change place (length bytes.now)) (history self.old) (history self.new)) }
        ensures called { calls self.new ≡ calls_after (calls self.old) 1 }
        ensures counts { faults self.old ≤ faults self.new }
        ensures quiet { OnOk result (faults self.new ≡ faults self.old) }
        ensures failed { OnErr result (Rose (faults self.old) (faults self.new)) };

    /// Takes away all behind the first `length` bytes. A cut that failed may have been made in any
    /// part.
    fn cut(&mut self, length: u64) -> Result<(), Failed>
        ensures made { OnOk result (Cuts length (history self.old) (history self.new)) }
        ensures torn { OnErr result (FailsInPart (cut_change length) (history self.old) (history self.new)) }
        ensures called { calls self.new ≡ calls_after (calls self.old) 1 }
        ensures counts { faults self.old ≤ faults self.new }
        ensures quiet { OnOk result (faults self.new ≡ faults self.old) }
        ensures failed { OnErr result (Rose (faults self.old) (faults self.new)) };

    /// Makes sure of all that was written and cut: a crash leaves what reads give. One that failed
    /// has made sure of nothing.
    fn sync(&mut self) -> Result<(), Failed>
        ensures made { OnOk result (Syncs (history self.old) (history self.new)) }
        ensures same { OnErr result (history self.new ≡ history self.old) }
        ensures called { calls self.new ≡ calls_after (calls self.old) 1 }
        ensures counts { faults self.old ≤ faults self.new }
        ensures quiet { OnOk result (faults self.new ≡ faults self.old) }
        ensures failed { OnErr result (Rose (faults self.old) (faults self.new)) };
}
