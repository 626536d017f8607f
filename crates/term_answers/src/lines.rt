// Console lines as they are printed.
use crate::words::shown;
use console_host::Line;
use js_heap::Heap;
use js_value::Value;
use mug_text::{Listed, NoMemory};
use std::alloc::Global;

/// A value as js_host shows it, where it is there.
pub fn value_shown(alloc: Global, heap: &Heap, value: &Value) -> Result<String, NoMemory> {
    if heap.is_there(value) {
        shown(alloc, &js_host::shown(alloc, heap, value)?)
    } else {
        Ok(String::from_str(alloc, "not there")?)
    }
}

/// The line of a throw that nothing caught.
pub fn uncaught(alloc: Global, heap: &Heap, value: &Value) -> Result<String, NoMemory> {
    if heap.is_there(value) {
        shown(alloc, &js_host::uncaught_shown(alloc, heap, value)?)
    } else {
        Ok(String::from_str(alloc, "not there")?)
    }
}

// The values of a line, each behind a space.
fn log(alloc: Global, heap: &Heap, values: &[Value], printed: &mut String) -> Result<(), NoMemory> {
    for value in values {
        printed.push(' ')?;
        printed.push_str(value_shown(alloc, heap, value)?.as_str())?;
    }
    Ok(())
}

fn line(alloc: Global, heap: &Heap, line: &Line, printed: &mut String) -> Result<(), NoMemory> {
    match line {
        Line::Log(values) => log(alloc, heap, values.as_slice(), printed),
        Line::Uncaught(value) => {
            printed.push(' ')?;
            printed.push_str(uncaught(alloc, heap, value)?.as_str())?;
            Ok(())
        }
    }
}

/// The lines that a host has kept, each behind a bar.
pub fn print_lines(
    alloc: Global,
    heap: &Heap,
    lines: &Listed<Line>,
    printed: &mut String,
) -> Result<(), NoMemory> {
    for kept in lines.as_slice() {
        printed.push_str(" |")?;
        line(alloc, heap, kept, printed)?;
    }
    Ok(())
}
