//! Prints what each arrival file that is given on a line is read as.
#![tactic(auto)]

mod answer;

use std::io;

fn main(rt: HostRuntime) -> io::Result<()> {
    for line in rt.lines(rt.alloc()) {
        let line = line?;
        let shown = match answer::answer_of(rt.alloc(), line.as_str()) {
            Ok(shown) => shown,
            Err(_) => return Err(io::Error::from(io::ErrorKind::OutOfMemory)),
        };
        println!(rt; "{shown}")?;
    }
    Ok(())
}
