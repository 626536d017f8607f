// Bytes that come in.
ghost use Rattle.std.specs.Prelude.{◌≡◌, ℕ, ◌<◌, ◌≤◌, ◌^◌, List, [], length, take, Option, IfOk, IfSome, OnErr, IsErrOf};
ghost use Rattle.mug_outside.specs.Told.{ReadWithin, ahead};
ghost use Rattle.mug_outside.specs.Cause.{HasCause, Rose};

use crate::Failed;
use mug_text::Bytes;
use std::alloc::Global;
use thiserror::Error;

/// A stream of bytes to read.
pub trait Source {
    /// The bytes still to come, where they are told.
    ghost left: { Self → Option (List ℕ) };

    /// How often it has failed.
    ghost faults: { Self → ℕ };

    /// Reads some bytes into the front of `into`; 0 for a nonempty `into` is the end.
    fn read(&mut self, into: &mut [u8]) -> Result<usize, Failed>
        ensures size { IfOk result (λ n. n ≤ length into.new) }
        ensures told { IfOk result (λ n. left self.old ≡ ahead (take n into.new) (left self.new)) }
        ensures end { IfOk result (λ n. n ≡ 0 → 0 < length into.new
            → IfSome (left self.old) (λ bytes. bytes ≡ [])) }
        ensures kept { OnErr result (left self.new ≡ left self.old) }
        ensures cause { HasCause (faults self.old) (faults self.new) result };
}

/// Why a source was not read to its end.
#[derive(Clone, Copy, Debug, PartialEq, Eq, Error)]
pub enum ReadAll {
    /// More bytes come than the limit.
    #[error("too large")]
    TooLarge,
    /// A read failed.
    #[error("read fault")]
    ReadFault,
    #[error("out of memory")]
    NoMemory,
}

const CHUNK: usize = 4096;

/// All the bytes that are left, at most `limit` of them.
pub fn read_all<S: Source>(alloc: Global, source: &mut S, limit: usize) -> Result<Bytes, ReadAll>
    ensures ok { IfOk result (λ all. (length all ≤ limit)
        × (S.left source.old ≡ ahead all (S.left source.new))
        × IfSome (S.left source.new) (λ bytes. bytes ≡ [])) }
    ensures large { IsErrOf result ReadAll.TooLarge
        → IfSome (S.left source.old) (λ bytes. limit < length bytes) }
    ensures fault { IsErrOf result ReadAll.ReadFault
        → Rose (S.faults source.old) (S.faults source.new) }

    // What was read before the fault is within the limit: bytes above it are too large, whatever
    // would fail after them.
    ensures within { IsErrOf result ReadAll.ReadFault
        → ReadWithin limit (S.left source.old) (S.left source.new) }
    ensures later { S.faults source.old ≤ S.faults source.new }
{
    let mut all = Vec::new(alloc);
    let mut chunk = [0; CHUNK];
    while all.len() <= limit {
        let n = match source.read(&mut chunk) {
            Ok(n) => n,
            Err(Failed) => return Err(ReadAll::ReadFault),
        };
        if n == 0 {
            return Ok(Bytes::from_vec(all));
        }
        if all.extend_from_slice(&chunk[..n]).is_err() {
            return Err(ReadAll::NoMemory);
        }
    }
    Err(ReadAll::TooLarge)
}
