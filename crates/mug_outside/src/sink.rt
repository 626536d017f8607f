// Bytes that go out.
ghost use Rattle.std.specs.Prelude.{◌≡◌, ℕ, ◌<◌, ◌≤◌, List, length, take, Option, IfOk, OnOk, OnErr};
ghost use Rattle.mug_outside.specs.Told.{behind, TookLess};
ghost use Rattle.mug_outside.specs.Cause.{HasCause};

use crate::Failed;
use thiserror::Error;

/// A stream of bytes to write.
pub trait Sink {
    /// The bytes that it took, where they are told.
    ghost taken: { Self → Option (List ℕ) };

    /// How often it has failed.
    ghost faults: { Self → ℕ };

    /// Takes some bytes from the front, at least one of a nonempty piece.
    fn write(&mut self, bytes: &[u8]) -> Result<usize, Failed>
        ensures size { IfOk result (λ n. n ≤ length bytes.now) }
        ensures some { IfOk result (λ n. 0 < length bytes.now → 0 < n) }
        ensures told { IfOk result (λ n.
            taken self.new ≡ behind (take n bytes.now) (taken self.old)) }
        ensures kept { OnErr result (taken self.new ≡ taken self.old) }
        ensures cause { HasCause (faults self.old) (faults self.new) result };
}

/// A write failed before all was taken.
#[derive(Clone, Copy, Debug, PartialEq, Eq, Error)]
#[error("write fault")]
pub struct WriteFault;

/// Writes all of `bytes`. After a fault a part from the front was taken, and not the whole.
pub fn write_whole<S: Sink>(sink: &mut S, bytes: &[u8]) -> Result<(), WriteFault>
    ensures ok { OnOk result (S.taken sink.new ≡ behind bytes.now (S.taken sink.old)) }
    ensures err { OnErr result (TookLess bytes.now (S.taken sink.old) (S.taken sink.new)) }
    ensures cause { HasCause (S.faults sink.old) (S.faults sink.new) result }
{
    let mut at = 0;
    while at < bytes.len() {
        let n = match sink.write(&bytes[at..]) {
            Ok(n) => n,
            Err(Failed) => return Err(WriteFault),
        };
        at += n;
    }
    Ok(())
}
