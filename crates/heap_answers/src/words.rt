// What is written in a case, and what is told of values and texts.
ghost use Rattle.std.specs.Prelude.{◌<◌, length, IfOk, IfSome};
ghost use Rattle.js_heap.specs.Closed.{IsThere};

use js_heap::{Heap, ScopeId};
use js_value::{Callee, HidId, NativeId, Num, ObjId, Value};
use mug_text::{JText, NoMemory};
use std::alloc::Global;
use written_text::written_text;

/// The first word of a line, and what stands behind the space behind it.
pub fn first_word(line: &str) -> (&str, &str) {
    line.split_once(' ').unwrap_or((line, ""))
}

/// The object of this number, if it is there.
pub fn object(heap: &Heap, written: &str) -> Option<ObjId>
    ensures { IfSome result (λ o. o.number < length heap.now.objects) }
{
    let number = number(written);
    if (number as usize) < heap.object_count() {
        Some(ObjId { number })
    } else {
        None
    }
}

/// The scope of this number, if it is there.
pub fn scope(heap: &Heap, written: &str) -> Option<ScopeId>
    ensures { IfSome result (λ s. s.number < length heap.now.scopes) }
{
    let number = number(written);
    if (number as usize) < heap.scope_count() {
        Some(ScopeId { number })
    } else {
        None
    }
}

/// The number that is written so, or 2^32 - 1.
pub fn number(written: &str) -> u32 {
    written.parse().unwrap_or(u32::MAX)
}

/// The value that is written so, if what it names is there: a quote stands before a text, and what is nothing else is undefined.
pub fn value(alloc: Global, heap: &Heap, written: &str) -> Result<Option<Value>, NoMemory>
    ensures { IfOk result (λ v. IfSome v (IsThere heap.now)) }
{
    let value = any_value(alloc, written)?;
    if heap.is_there(&value) {
        Ok(Some(value))
    } else {
        Ok(None)
    }
}

fn any_value(alloc: Global, written: &str) -> Result<Value, NoMemory> {
    if let Some(text) = written.strip_prefix('\'') {
        return Ok(Value::Text(written_text(alloc, text)?));
    }
    if let Some(number) = written.strip_prefix("object:") {
        return Ok(Value::Ref(ObjId {
            number: self::number(number),
        }));
    }
    if let Some(number) = written.strip_prefix("wrap:") {
        let callee = Callee::Ref(ObjId {
            number: self::number(number),
        });
        return Ok(Value::Wrap(HidId { number: 1 }, callee));
    }
    Ok(plain_value(written))
}

fn plain_value(written: &str) -> Value {
    if written == "NaN" {
        return Value::Num(Num::NaN);
    }
    if written == "null" {
        return Value::Null;
    }
    if let Some(number) = written.strip_prefix("native:") {
        return Value::Native(NativeId {
            number: self::number(number),
        });
    }
    match written.parse::<i64>() {
        Ok(n) => Num::whole(i128::from(n)).map_or(Value::Undefined, Value::Num),
        Err(_) => Value::Undefined,
    }
}

/// A text as it is shown.
pub fn shown(alloc: Global, text: &JText) -> Result<String, NoMemory> {
    let mut bytes = Vec::new(alloc);
    text.shown(&mut bytes)?;
    match String::from_utf8(bytes) {
        Ok(shown) => Ok(shown),
        Err(_) => Ok(String::from_str(alloc, "no text")?),
    }
}

/// A value as it is written in a case, or that there is none.
pub fn told(alloc: Global, value: Option<&Value>) -> Result<String, NoMemory> {
    match value {
        Some(value) => told_value(alloc, value),
        None => Ok(String::from_str(alloc, "none")?),
    }
}

fn told_value(alloc: Global, value: &Value) -> Result<String, NoMemory> {
    match value {
        Value::Undefined => Ok(String::from_str(alloc, "undefined")?),
        Value::Null => Ok(String::from_str(alloc, "null")?),
        Value::Bool(b) => Ok(format!(in alloc; "{b}")?),
        Value::Num(Num::NaN) => Ok(String::from_str(alloc, "NaN")?),
        Value::Num(Num::Whole(n)) => whole(alloc, n.get()),
        Value::Text(text) => {
            let text = shown(alloc, text)?;
            Ok(format!(in alloc; "'{text}")?)
        }
        Value::Ref(obj) => Ok(format!(in alloc; "object:{}", obj.number)?),
        Value::Native(native) => Ok(format!(in alloc; "native:{}", native.number)?),
        Value::Wrap(_, Callee::Ref(obj)) => Ok(format!(in alloc; "wrap:{}", obj.number)?),
        Value::Wrap(_, Callee::Native(_)) => Ok(String::from_str(alloc, "wrap")?),
    }
}

fn whole(alloc: Global, n: i64) -> Result<String, NoMemory> {
    Ok(format!(in alloc; "{n}")?)
}
