// What is read of a heap.
use crate::words::{first_word, number, object, scope, shown, told};
use js_heap::{Class, Heap, Root};
use mug_text::{JText, NoMemory};
use std::alloc::Global;
use written_text::written_text;

/// The answer to a case that reads; none where the word asks none.
pub fn answer(
    alloc: Global,
    heap: &Heap,
    word: &str,
    given: &str,
) -> Result<Option<String>, NoMemory> {
    let (part, rest) = first_word(given);
    match word {
        "get" => Ok(Some(get(alloc, heap, part, rest)?)),
        "own" => Ok(Some(get_own(alloc, heap, part, rest)?)),
        "at" => Ok(Some(get_at(alloc, heap, part, rest)?)),
        "keys" => Ok(Some(keys(alloc, heap, part)?)),
        "object" => Ok(Some(told_object(alloc, heap, part)?)),
        "look" => Ok(Some(look_up(alloc, heap, part, rest)?)),
        "root" => Ok(Some(roots(alloc, heap)?)),
        _ => Ok(None),
    }
}

fn missing(alloc: Global) -> Result<String, NoMemory> {
    Ok(String::from_str(alloc, "not there")?)
}

fn get(alloc: Global, heap: &Heap, part: &str, name: &str) -> Result<String, NoMemory> {
    match object(heap, part) {
        Some(obj) => told(alloc, heap.get(obj, &written_text(alloc, name)?)),
        None => missing(alloc),
    }
}

fn get_own(alloc: Global, heap: &Heap, part: &str, name: &str) -> Result<String, NoMemory> {
    match object(heap, part) {
        Some(obj) => told(alloc, heap.get_own(obj, &written_text(alloc, name)?)),
        None => missing(alloc),
    }
}

fn get_at(alloc: Global, heap: &Heap, part: &str, index: &str) -> Result<String, NoMemory> {
    match object(heap, part) {
        Some(obj) => told(alloc, heap.get_at(obj, number(index))),
        None => missing(alloc),
    }
}

fn look_up(alloc: Global, heap: &Heap, part: &str, name: &str) -> Result<String, NoMemory> {
    match scope(heap, part) {
        Some(scope) => told(alloc, heap.look_up(scope, &written_text(alloc, name)?)),
        None => missing(alloc),
    }
}

// The names that for-in goes through, each behind a space.
fn keys(alloc: Global, heap: &Heap, part: &str) -> Result<String, NoMemory> {
    match object(heap, part) {
        Some(obj) => joined(alloc, heap.keys(obj)?.as_slice()),
        None => missing(alloc),
    }
}

fn joined(alloc: Global, names: &[JText]) -> Result<String, NoMemory> {
    let mut all = String::from_str(alloc, "keys")?;
    for name in names {
        all.push_str(" ")?;
        all.push_str(shown(alloc, name)?.as_str())?;
    }
    Ok(all)
}

// The class and the prototype.
fn told_object(alloc: Global, heap: &Heap, part: &str) -> Result<String, NoMemory> {
    let Some(obj) = object(heap, part) else {
        return missing(alloc);
    };
    let class = class_word(heap.class(obj));
    match heap.prototype(obj) {
        Some(prototype) => Ok(format!(in alloc; "{class} {}", prototype.number)?),
        None => Ok(format!(in alloc; "{class} -")?),
    }
}

fn class_word(class: &Class) -> &'static str {
    match class {
        Class::Object => "Object",
        Class::Array => "Array",
        Class::Function(_) => "Function",
        Class::Bound(_) => "Bound",
        Class::Date(_) => "Date",
        Class::Error => "Error",
        Class::Arguments => "Arguments",
        Class::Event => "Event",
        Class::Node(_) => "Node",
        Class::Request(_) => "Request",
        Class::Builtin(_) => "Builtin",
    }
}

const ROOTS: [Root; 16] = [
    Root::ObjectPrototype,
    Root::Window,
    Root::FunctionPrototype,
    Root::ArrayPrototype,
    Root::StringPrototype,
    Root::NumberPrototype,
    Root::BooleanPrototype,
    Root::DatePrototype,
    Root::ErrorPrototype,
    Root::TypeErrorPrototype,
    Root::RangeErrorPrototype,
    Root::ReferenceErrorPrototype,
    Root::SyntaxErrorPrototype,
    Root::NodePrototype,
    Root::EventPrototype,
    Root::RequestPrototype,
];

// The numbers of what the heap holds from the start.
fn roots(alloc: Global, heap: &Heap) -> Result<String, NoMemory> {
    let mut all = String::from_str(alloc, "roots")?;
    for root in ROOTS {
        all.push_str(format!(in alloc; " {}", heap.root(root).number)?.as_str())?;
    }
    Ok(all)
}
