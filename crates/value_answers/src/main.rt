//! Prints what texts, values and operators give for the cases on the lines of its input.
#![tactic(auto)]

mod answer;
mod operators;
mod texts;
mod values;

use std::io;

fn main(rt: HostRuntime) -> io::Result<()> {
    for line in rt.lines(rt.alloc()) {
        let line = line?;
        let shown = match answer::answer_of(rt.alloc(), line.as_str()) {
            Ok(shown) => shown,
            Err(_) => return Err(io::Error::from(io::ErrorKind::OutOfMemory)),
        };
        println!(rt; "{shown}")?;
    }
    Ok(())
}
