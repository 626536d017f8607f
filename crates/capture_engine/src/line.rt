// Lines that are made without memory.
ghost use Rattle.std.specs.Prelude.{◌≡◌, ℕ, ◌+◌, ◌<◌, ◌≤◌, List, [], ◌++◌, length, take, decimal, OnOk, OnErr};
ghost use Rattle.mug_outside.specs.Told.{behind, TookLess, TookPart};
ghost use Rattle.mug_outside.specs.Cause.{HasCause};

use itoa::Buffer;
use mug_outside::{Sink, WriteFault, write_whole};
use std::marker::Model;

/// The most bytes of a line.
pub const LINE_LIMIT: usize = 512;

/// A line of at most `LINE_LIMIT` bytes.
#[derive(Drop)]
pub struct Line {
    bytes: [u8; LINE_LIMIT],
    len: usize,
}

impl Model for Line {
    ghost use Rattle.std.specs.Prelude.{ℕ, ◌≤◌, List, take};
    ghost use Rattle.capture_engine.specs.declared.line.TheConstants.{LINE_LIMIT};

    ghost Value = { List ℕ };

    ghost view = { λ l. take l.len l.bytes };

    ghost invariant = { λ l. l.len ≤ LINE_LIMIT };
}

impl Line {
    pub fn new() -> Line
        ensures { result ≡ [] }
    {
        Line {
            bytes: [0; LINE_LIMIT],
            len: 0,
        }
    }

    pub fn push(&mut self, text: &[u8])
        requires { length self.old + length text.now ≤ LINE_LIMIT }
        ensures { self.new ≡ self.old ++ text.now }
    {
        let end = self.len + text.len();
        self.bytes[self.len..end].copy_from_slice(text);
        self.len = end;
    }

    /// The number in decimal digits, of which there are at most 40.
    pub fn push_number(&mut self, n: u64)
        requires { length self.old + 40 ≤ LINE_LIMIT }
        ensures grown { self.new ≡ self.old ++ decimal n }
        ensures short { length self.new ≤ length self.old + 40 }
    {
        let mut buffer = Buffer::new();
        self.push(buffer.format(n).as_bytes());
    }

    pub fn as_slice(&self) -> &[u8]
        ensures { result.now ≡ self.now }
    {
        &self.bytes[..self.len]
    }

    pub fn write<O: Sink>(&self, out: &mut O) -> Result<(), WriteFault>
        ensures ok { OnOk result (O.taken out.new ≡ behind self.now (O.taken out.old)) }
        ensures err { OnErr result (TookPart self.now (O.taken out.old) (O.taken out.new)) }
        ensures less { OnErr result (TookLess self.now (O.taken out.old) (O.taken out.new)) }
        ensures cause { HasCause (O.faults out.old) (O.faults out.new) result }
    {
        write_whole(out, &self.bytes[..self.len])
    }
}
