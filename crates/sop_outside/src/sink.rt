//! Sinks of bytes.
ghost use Rattle.std.specs.Prelude.{◌≡◌, ◌≤◌, ◌<◌, ℕ, List, IfOk, OnOk, OnErr, IsErr, IsOk, [], Option, length, take};
ghost use Rattle.sop_outside.specs.Causes.{Counts};
ghost use Rattle.sop_outside.specs.Told.{appended, AppendsPrefix};

/// A write that did not take place. It comes only where the sink's count of faults rose.
#[derive(Clone, Copy, Debug, PartialEq, Eq)]
pub struct Failed;

/// A place that bytes are written to.
pub trait Sink {
    /// The bytes that were written, where they are told.
    ghost told: { Self → Option (List ℕ) };

    /// How many writes failed.
    ghost faults: { Self → ℕ };

    /// Appends some bytes from the front of `bytes`, at least one where there is one, and answers how
    /// many; a write that failed appends nothing. The count of faults never falls; a new object's is 0,
    /// and one that reached 2^64 - 1 stands there.
    fn write(&mut self, bytes: &[u8]) -> Result<usize, Failed>
        ensures most { IfOk result (λ count. count ≤ length bytes.now) }
        ensures some { IfOk result (λ count. 0 < length bytes.now → 0 < count) }
        ensures ok { IfOk result (λ count. told self.new ≡ appended (told self.old) (take count bytes.now)) }
        ensures err { OnErr result (told self.new ≡ told self.old) }
        ensures faults { Counts (faults self.old) (faults self.new) (IsErr result) };
}

/// Writes all of `bytes`, in as many writes as it takes; of no bytes there is no write. `Failed` comes where
/// a write failed, and a prefix of the bytes is then written. It takes no memory.
pub fn put<S: Sink>(sink: &mut S, bytes: &[u8]) -> Result<(), Failed>
    ensures ok { OnOk result (S.told sink.new ≡ appended (S.told sink.old) bytes.now) }
    ensures err { OnErr result (AppendsPrefix (S.told sink.old) (S.told sink.new) bytes.now) }
    ensures faults { Counts (S.faults sink.old) (S.faults sink.new) (IsErr result) }
    ensures nothing { bytes.now ≡ [] → IsOk result × (sink.new ≡ sink.old) }
{
    let mut done = 0;
    while done < bytes.len() {
        done += sink.write(&bytes[done..])?;
    }
    Ok(())
}
