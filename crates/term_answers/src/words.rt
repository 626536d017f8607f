// What is written in a case, and what is told of texts.
ghost use Rattle.std.specs.Prelude.{IfOk, IfSome};
ghost use Rattle.js_heap.specs.Closed.{ClassIsThere, IsThere};
ghost use Rattle.js_heap.specs.World.{World};

use js_heap::{Bound, Class, Code, Heap, HeapFault, Root};
use js_value::{Callee, HidId, NativeId, Num, ObjId, Value};
use mug_text::{JText, Listed, NoMemory};
use std::alloc::Global;
use written_text::written_text;

/// The first word of a line, and what stands behind the space behind it.
pub fn first_word(line: &str) -> (&str, &str) {
    line.split_once(' ').unwrap_or((line, ""))
}

/// The number that is written so, or 2^32 - 1.
pub fn number(written: &str) -> u32 {
    written.parse().unwrap_or(u32::MAX)
}

/// A text as it is printed.
pub fn shown(alloc: Global, text: &JText) -> Result<String, NoMemory> {
    let mut bytes = Vec::new(alloc);
    text.shown(&mut bytes)?;
    match String::from_utf8(bytes) {
        Ok(shown) => Ok(shown),
        Err(_) => Ok(String::from_str(alloc, "no text")?),
    }
}

/// The value that is written so, where what it names is there; an object is made for it.
pub fn value(alloc: Global, heap: &mut Heap, written: &str) -> Result<Option<Value>, NoMemory>
    ensures { IfOk result (λ v. IfSome v (IsThere heap.new)) }
{
    let value = any_value(alloc, heap, written)?;
    if heap.is_there(&value) {
        Ok(Some(value))
    } else {
        Ok(None)
    }
}

fn any_value(alloc: Global, heap: &mut Heap, written: &str) -> Result<Value, NoMemory> {
    let (word, rest) = first_word(written);
    if let Some(text) = written.strip_prefix('\'') {
        return Ok(Value::Text(written_text(alloc, text)?));
    }
    match word {
        "object" => new_object(heap, Class::Object),
        "array" => new_object(heap, Class::Array),
        "arguments" => new_object(heap, Class::Arguments),
        "date" => new_object(heap, Class::Date(Num::NaN)),
        "function" => new_object(heap, function()),
        "bound" => new_object(heap, bound(alloc)),
        "builtin" => new_object(heap, builtin(rest)),
        "error" => error(alloc, heap, rest),
        _ => Ok(plain_value(word, rest)),
    }
}

fn plain_value(word: &str, rest: &str) -> Value {
    match word {
        "null" => Value::Null,
        "true" => Value::Bool(true),
        "false" => Value::Bool(false),
        "NaN" => Value::Num(Num::NaN),
        "native" => Value::Native(NativeId {
            number: number(rest),
        }),
        "wrap" => Value::Wrap(
            HidId { number: 1 },
            Callee::Ref(ObjId {
                number: number(rest),
            }),
        ),
        "wrapped" => Value::Wrap(
            HidId { number: 1 },
            Callee::Native(NativeId {
                number: number(rest),
            }),
        ),
        _ => whole(word),
    }
}

fn whole(written: &str) -> Value {
    match written.parse::<i64>() {
        Ok(n) => Num::whole(i128::from(n)).map_or(Value::Undefined, Value::Num),
        Err(_) => Value::Undefined,
    }
}

fn function() -> Class
    ensures { (w : World) → ClassIsThere w result }
{
    Class::Function(Code {
        text: 3,
        node: 5,
        scope: None,
    })
}

fn bound(alloc: Global) -> Class
    ensures { (w : World) → ClassIsThere w result }
{
    Class::Bound(Bound {
        f: Value::Native(NativeId { number: 0 }),
        this: Value::Null,
        args: Listed::new(alloc),
    })
}

fn builtin(written: &str) -> Class
    ensures { (w : World) → ClassIsThere w result }
{
    if written.is_empty() {
        return Class::Builtin(None);
    }
    Class::Builtin(Some(NativeId {
        number: number(written),
    }))
}

fn new_object(heap: &mut Heap, class: Class) -> Result<Value, NoMemory>
    requires { ClassIsThere heap.old class }
{
    let prototype = heap.root(Root::ObjectPrototype);
    match heap.new_object(class, Some(prototype)) {
        Ok(object) => Ok(Value::Ref(object)),
        Err(HeapFault::Full) => Ok(Value::Undefined),
        Err(HeapFault::NoMemory) => Err(NoMemory),
    }
}

// An error with a name and a message, each a value without a space in it; `-` for none.
fn error(alloc: Global, heap: &mut Heap, written: &str) -> Result<Value, NoMemory> {
    let (name, message) = first_word(written);
    let error = new_object(heap, Class::Error)?;
    put(alloc, heap, &error, "name", name)?;
    put(alloc, heap, &error, "message", message)?;
    Ok(error)
}

fn put(
    alloc: Global,
    heap: &mut Heap,
    object: &Value,
    key: &str,
    written: &str,
) -> Result<(), NoMemory> {
    let Value::Ref(object) = object else {
        return Ok(());
    };
    let (word, rest) = first_word(written);
    let value = match written.strip_prefix('\'') {
        Some(text) => Value::Text(written_text(alloc, text)?),
        None => plain_value(word, rest),
    };
    let is_here = (object.number as usize) < heap.object_count();
    if word == "-" || !is_here || !heap.is_there(&value) {
        return Ok(());
    }
    match heap.put(*object, &written_text(alloc, key)?, value, false) {
        Ok(()) => Ok(()),
        Err(_) => Err(NoMemory),
    }
}
