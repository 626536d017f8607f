//! Prints what each page that is given on a line is read as, and what becomes of its document.
#![tactic(auto)]

mod changes;
mod lines;
mod pages;

use std::io;

fn main(rt: HostRuntime) -> io::Result<()> {
    for line in rt.lines(rt.alloc()) {
        let line = line?;
        let shown = match lines::answer_of(rt.alloc(), line.as_str()) {
            Ok(shown) => shown,
            Err(_) => return Err(io::Error::from(io::ErrorKind::OutOfMemory)),
        };
        println!(rt; "{shown}")?;
    }
    Ok(())
}
