// Lines on their way to an output, written many at a time.
ghost use Rattle.std.specs.Prelude.{◌≡◌, ◌+◌, ◌≤◌, [], ◌++◌, length, decimal, OnOk};
ghost use Rattle.mugshot_cli.specs.Outside.{stream};
ghost use Rattle.mugshot_cli.specs.inner.Lines.{Puts};
ghost use Rattle.mugshot_cli.specs.Printing.{numbered_line};
ghost use Rattle.mugshot_cli.specs.declared.lines.PrintFault.TheVariants as print_fault;

use itoa::Buffer;
use mug_outside::{Sink, WriteFault, write_whole};
use mug_text::NoMemory;
use std::marker::Model;
use thiserror::Error;

/// Why lines were not printed to their end.
#[derive(Clone, Copy, Debug, PartialEq, Eq, Error)]
pub enum PrintFault {
    /// The output failed.
    #[error("write fault")]
    WriteFault,
    #[error("out of memory")]
    NoMemory,
}

impl From<WriteFault> for PrintFault {
    ghost from_gives = { λ _ fault. fault ≡ print_fault.WriteFault };

    fn from(_error: WriteFault) -> PrintFault {
        PrintFault::WriteFault
    }
}

impl From<NoMemory> for PrintFault {
    ghost from_gives = { λ _ fault. fault ≡ print_fault.NoMemory };

    fn from(_error: NoMemory) -> PrintFault {
        PrintFault::NoMemory
    }
}

const CAPACITY: usize = 8192;

/// What waits to be written: at most `CAPACITY` bytes, in a buffer that takes no memory.
#[derive(Drop)]
pub struct Lines {
    bytes: [u8; CAPACITY],
    len: usize,
}

impl Model for Lines {
    ghost use Rattle.std.specs.Prelude.{ℕ, ◌≤◌, List, take};

    ghost Value = { List ℕ };

    ghost view = { λ l. take l.len l.bytes };

    ghost invariant = { λ l. l.len ≤ 8192 };
}

impl Lines {
    pub fn new() -> Lines
        ensures { result ≡ [] }
    {
        Lines {
            bytes: [0; CAPACITY],
            len: 0,
        }
    }

    fn push(&mut self, text: &[u8])
        requires { length self.old + length text.now ≤ 8192 }
        ensures { self.new ≡ self.old ++ text.now }
    {
        let end = self.len + text.len();
        self.bytes[self.len..end].copy_from_slice(text);
        self.len = end;
    }

    // A number has at most 40 digits.
    fn push_number(&mut self, n: u64)
        requires { length self.old + 40 ≤ 8192 }
        ensures grown { self.new ≡ self.old ++ decimal n }
        ensures short { length self.new ≤ length self.old + 40 }
    {
        let mut buffer = Buffer::new();
        self.push(buffer.format(n).as_bytes());
    }

    /// Writes all that waits. After a fault the rest of it is given up.
    pub fn flush<O: Sink>(&mut self, out: &mut O) -> Result<(), PrintFault>
        ensures puts { Puts result [] self.old self.new (stream O.Sink out.old)
            (stream O.Sink out.new) }
        ensures none { self.new ≡ [] }
    {
        let wrote = write_whole(out, &self.bytes[..self.len]);
        self.len = 0;
        wrote?;
        Ok(())
    }

    // Writes what waits where so many bytes more don't fit.
    fn make_room<O: Sink>(&mut self, out: &mut O, size: usize) -> Result<(), PrintFault>
        requires { size ≤ 8192 }
        ensures puts { Puts result [] self.old self.new (stream O.Sink out.old)
            (stream O.Sink out.new) }
        ensures room { OnOk result (length self.new + size ≤ 8192) }
    {
        if size <= CAPACITY - self.len {
            return Ok(());
        }
        self.flush(out)
    }

    // Writes what waits, and a text that is longer than the buffer.
    fn put_long<O: Sink>(&mut self, out: &mut O, text: &[u8]) -> Result<(), PrintFault>
        ensures { Puts result text.now self.old self.new (stream O.Sink out.old)
            (stream O.Sink out.new) }
    {
        self.flush(out)?;
        write_whole(out, text)?;
        Ok(())
    }

    /// Puts a text after what waits.
    pub fn put<O: Sink>(&mut self, out: &mut O, text: &[u8]) -> Result<(), PrintFault>
        ensures { Puts result text.now self.old self.new (stream O.Sink out.old)
            (stream O.Sink out.new) }
    {
        if text.len() > CAPACITY {
            return self.put_long(out, text);
        }
        self.make_room(out, text.len())?;
        self.push(text);
        Ok(())
    }

    /// Puts a line of a word and a number after what waits.
    pub fn put_numbered<O: Sink>(
        &mut self,
        out: &mut O,
        word: &[u8],
        n: u64,
    ) -> Result<(), PrintFault>
        requires { length word.now ≤ 40 }
        ensures { Puts result (numbered_line word.now n) self.old self.new (stream O.Sink out.old)
            (stream O.Sink out.new) }
    {
        self.make_room(out, 81)?;
        self.push(word);
        self.push_number(n);
        self.push(b"\n");
        Ok(())
    }
}
