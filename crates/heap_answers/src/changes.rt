// What a heap is given.
ghost use Rattle.std.specs.Prelude.{IfOk, IfSome};
ghost use Rattle.js_heap.specs.Closed.{ClassIsThere};

use crate::words::{first_word, number, object, scope, value};
use js_heap::{Bound, Class, Code, Heap, HeapFault, PutFault, ScopeId};
use js_value::{Num, ObjId, Value};
use mug_text::{Listed, NoMemory};
use std::alloc::Global;
use written_text::written_text;

/// The answer to a case that changes; none where the word asks none.
pub fn answer(
    alloc: Global,
    heap: &mut Heap,
    word: &str,
    given: &str,
) -> Result<Option<String>, NoMemory> {
    let (part, rest) = first_word(given);
    match word {
        "anew" => Ok(Some(anew(alloc, heap)?)),
        "new" => Ok(Some(new_object(alloc, heap, part, rest)?)),
        "scope" => Ok(Some(new_scope(alloc, heap, part)?)),
        "put" => Ok(Some(put(alloc, heap, part, rest, true)?)),
        "hide" => Ok(Some(put(alloc, heap, part, rest, false)?)),
        "set" => Ok(Some(put_at(alloc, heap, part, rest)?)),
        "length" => Ok(Some(set_length(alloc, heap, part, rest)?)),
        "remove" => Ok(Some(remove(alloc, heap, part, rest)?)),
        "declare" => Ok(Some(declare(alloc, heap, part, rest)?)),
        "assign" => Ok(Some(assign(alloc, heap, part, rest)?)),
        _ => Ok(None),
    }
}

fn word(alloc: Global, word: &str) -> Result<String, NoMemory> {
    Ok(String::from_str(alloc, word)?)
}

fn missing(alloc: Global) -> Result<String, NoMemory> {
    word(alloc, "not there")
}

fn anew(alloc: Global, heap: &mut Heap) -> Result<String, NoMemory> {
    *heap = Heap::new(alloc)?;
    word(alloc, "anew")
}

// The class that is written so, if what it names is there.
fn class(alloc: Global, heap: &Heap, written: &str) -> Result<Option<Class>, NoMemory>
    ensures { IfOk result (λ c. IfSome c (ClassIsThere heap.now)) }
{
    let (kind, rest) = first_word(written);
    match kind {
        "array" => Ok(Some(Class::Array)),
        "date" => Ok(Some(Class::Date(Num::NaN))),
        "error" => Ok(Some(Class::Error)),
        "function" => Ok(function(heap, rest)),
        "bound" => bound(alloc, heap, rest),
        _ => Ok(Some(Class::Object)),
    }
}

fn function(heap: &Heap, written: &str) -> Option<Class>
    ensures { IfSome result (ClassIsThere heap.now) }
{
    let scope = scope(heap, written)?;
    Some(Class::Function(Code {
        text: 0,
        node: 0,
        scope: Some(scope),
    }))
}

fn bound(alloc: Global, heap: &Heap, written: &str) -> Result<Option<Class>, NoMemory>
    ensures { IfOk result (λ c. IfSome c (ClassIsThere heap.now)) }
{
    let Some(f) = value(alloc, heap, written)? else {
        return Ok(None);
    };
    Ok(Some(Class::Bound(Bound {
        f,
        this: Value::Undefined,
        args: Listed::new(alloc),
    })))
}

fn new_object(
    alloc: Global,
    heap: &mut Heap,
    prototype: &str,
    written: &str,
) -> Result<String, NoMemory> {
    let prototype = object(heap, prototype);
    let Some(class) = class(alloc, heap, written)? else {
        return missing(alloc);
    };
    told_new(
        alloc,
        heap.new_object(class, prototype).map(|obj| obj.number),
    )
}

fn new_scope(alloc: Global, heap: &mut Heap, parent: &str) -> Result<String, NoMemory> {
    let parent = scope(heap, parent);
    told_new(alloc, heap.new_scope(parent).map(|scope| scope.number))
}

fn told_new(alloc: Global, made: Result<u32, HeapFault>) -> Result<String, NoMemory> {
    match made {
        Ok(number) => Ok(format!(in alloc; "{number}")?),
        Err(HeapFault::Full) => word(alloc, "full"),
        Err(HeapFault::NoMemory) => Err(NoMemory),
    }
}

fn put(
    alloc: Global,
    heap: &mut Heap,
    part: &str,
    given: &str,
    listed: bool,
) -> Result<String, NoMemory> {
    let (name, written) = first_word(given);
    let name = written_text(alloc, name)?;
    let Some(obj) = object(heap, part) else {
        return missing(alloc);
    };
    let Some(value) = value(alloc, heap, written)? else {
        return missing(alloc);
    };
    match heap.put(obj, &name, value, listed) {
        Ok(()) => word(alloc, "put"),
        Err(PutFault::BadLength) => word(alloc, "bad length"),
        Err(PutFault::NoMemory) => Err(NoMemory),
    }
}

fn put_at(alloc: Global, heap: &mut Heap, part: &str, given: &str) -> Result<String, NoMemory> {
    let (index, written) = first_word(given);
    let Some(obj) = object(heap, part) else {
        return missing(alloc);
    };
    let Some(value) = value(alloc, heap, written)? else {
        return missing(alloc);
    };
    heap.put_at(obj, number(index), value, true)?;
    word(alloc, "put")
}

fn set_length(alloc: Global, heap: &mut Heap, part: &str, given: &str) -> Result<String, NoMemory> {
    let Some(obj) = object(heap, part) else {
        return missing(alloc);
    };
    if !matches!(heap.class(obj), Class::Array) {
        return word(alloc, "no array");
    }
    heap.set_length(obj, number(given));
    word(alloc, "cut")
}

fn remove(alloc: Global, heap: &mut Heap, part: &str, name: &str) -> Result<String, NoMemory> {
    let name = written_text(alloc, name)?;
    match object(heap, part) {
        Some(obj) => Ok(format!(in alloc; "{}", heap.remove(obj, &name))?),
        None => missing(alloc),
    }
}

fn declare(alloc: Global, heap: &mut Heap, part: &str, given: &str) -> Result<String, NoMemory> {
    let (name, written) = first_word(given);
    let Some(scope) = scope(heap, part) else {
        return missing(alloc);
    };
    let Some(value) = value(alloc, heap, written)? else {
        return missing(alloc);
    };
    heap.declare(scope, &written_text(alloc, name)?, value)?;
    word(alloc, "declared")
}

fn assign(alloc: Global, heap: &mut Heap, part: &str, given: &str) -> Result<String, NoMemory> {
    let (name, written) = first_word(given);
    let Some(scope) = scope(heap, part) else {
        return missing(alloc);
    };
    let Some(value) = value(alloc, heap, written)? else {
        return missing(alloc);
    };
    let found = heap.assign(scope, &written_text(alloc, name)?, value);
    Ok(format!(in alloc; "{found}")?)
}
