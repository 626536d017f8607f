//! Prints what the commands on each line answer, over disks and streams in memory.
#![tactic(auto)]

mod case;
mod parts;
mod shown;

use std::io;

fn main(rt: HostRuntime) -> io::Result<()> {
    for line in rt.lines(rt.alloc()) {
        let line = line?;
        let shown = match parts::answer_of(rt.alloc(), line.as_str()) {
            Ok(shown) => shown,
            Err(_) => return Err(io::Error::from(io::ErrorKind::OutOfMemory)),
        };
        println!(rt; "{shown}")?;
    }
    Ok(())
}
