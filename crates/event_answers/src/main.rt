//! Prints what timers, requests and listeners come to behind the calls that are given on a line.
#![tactic(auto)]

mod dispatch;
mod lines;
mod paths;
mod requests;
mod timers;
mod words;

use std::io;

fn main(rt: HostRuntime) -> io::Result<()> {
    for line in rt.lines(rt.alloc()) {
        let line = line?;
        let shown = match lines::answer_of(rt.alloc(), line.as_str()) {
            Ok(shown) => shown,
            Err(_) => return Err(io::Error::from(io::ErrorKind::OutOfMemory)),
        };
        println!(rt; "{shown}")?;
    }
    Ok(())
}
