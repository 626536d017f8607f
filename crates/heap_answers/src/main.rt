//! Prints what a heap gives and leaves for the cases on the lines of its input.
#![tactic(auto)]

mod changes;
mod readings;
mod words;

use js_heap::Heap;
use mug_text::NoMemory;
use std::alloc::Global;
use std::io;

// What is printed for a line: a word for what is asked, and behind it, each behind a space, what it is asked of.
fn answer_of(alloc: Global, heap: &mut Heap, line: &str) -> Result<String, NoMemory> {
    let (word, given) = words::first_word(line);
    if let Some(told) = readings::answer(alloc, heap, word, given)? {
        return Ok(told);
    }
    if let Some(told) = changes::answer(alloc, heap, word, given)? {
        return Ok(told);
    }
    Ok(String::from_str(alloc, "no case")?)
}

fn answers(rt: &HostRuntime, heap: &mut Heap) -> io::Result<()> {
    for line in rt.lines(rt.alloc()) {
        let line = line?;
        let told = match answer_of(rt.alloc(), heap, line.as_str()) {
            Ok(told) => told,
            Err(_) => return Err(io::Error::from(io::ErrorKind::OutOfMemory)),
        };
        println!(rt; "{told}")?;
    }
    Ok(())
}

fn main(rt: HostRuntime) -> io::Result<()> {
    match Heap::new(rt.alloc()) {
        Ok(mut heap) => answers(&rt, &mut heap),
        Err(_) => Err(io::Error::from(io::ErrorKind::OutOfMemory)),
    }
}
