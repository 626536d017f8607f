//! Prints what terms and the small host give for the cases on the lines of the input.
#![tactic(auto)]

mod cases;
mod hosts;
mod laws;
mod lines;
mod nodes;
mod rows;
mod run;
mod words;

use std::io;

fn main(rt: HostRuntime) -> io::Result<()> {
    for line in rt.lines(rt.alloc()) {
        let line = line?;
        let told = match cases::answer(rt.alloc(), line.as_str()) {
            Ok(told) => told,
            Err(_) => return Err(io::Error::from(io::ErrorKind::OutOfMemory)),
        };
        println!(rt; "{told}")?;
    }
    Ok(())
}
