// Cases of values.
use crate::answer::first_word;
use crate::texts::shown;
use js_value::{Callee, HidId, NativeId, Num, ObjId, Value, same, to_number_of_text};
use mug_text::NoMemory;
use std::alloc::Global;
use written_text::written_text;

/// The answer to a case of a value; none where the word asks none.
pub fn answer(alloc: Global, word: &str, given: &str) -> Result<Option<String>, NoMemory> {
    if word == "numeral" {
        let number = to_number_of_text(&written_text(alloc, given)?);
        return Ok(Some(told_number(alloc, number)?));
    }
    if word == "whole" {
        let number = Num::whole(given.parse().unwrap_or(0i128));
        return Ok(Some(told_number(alloc, number)?));
    }
    if word == "value" {
        let value = written_value(alloc, given)?;
        return Ok(Some(of_value(alloc, &value)?));
    }
    if word == "===" {
        let (a, b) = both(alloc, given)?;
        return Ok(Some(format!(in alloc; "{}", same(&a, &b))?));
    }
    Ok(None)
}

// What a value is to the calls that look at it.
fn of_value(alloc: Global, value: &Value) -> Result<String, NoMemory> {
    let copy = value.copy()?;
    let alike = same(value, &copy);
    let primitive = value.is_primitive();
    let truth = value.to_boolean();
    let image = told_value(alloc, &copy.image())?;
    let shown = told_value(alloc, value)?;
    let callable = match value.as_callable() {
        Some(callable) => told_value(alloc, &Value::from(callable))?,
        None => String::from_str(alloc, "none")?,
    };
    Ok(format!(in alloc; "{shown} | {image} | {callable} | {primitive} {truth} {alike}")?)
}

/// Two values behind one another.
pub fn both(alloc: Global, given: &str) -> Result<(Value, Value), NoMemory> {
    let (a, b) = first_word(given);
    Ok((written_value(alloc, a)?, written_value(alloc, b)?))
}

/// The value that is written so: a quote stands before a text, and what is nothing else is undefined.
pub fn written_value(alloc: Global, written: &str) -> Result<Value, NoMemory> {
    if let Some(text) = written.strip_prefix('\'') {
        return Ok(Value::Text(written_text(alloc, text)?));
    }
    if written == "null" {
        return Ok(Value::Null);
    }
    if written == "true" {
        return Ok(Value::Bool(true));
    }
    if written == "false" {
        return Ok(Value::Bool(false));
    }
    if written == "NaN" {
        return Ok(Value::Num(Num::NaN));
    }
    Ok(written_callee(written))
}

// A number, an object, a native or a wrap of one.
fn written_callee(written: &str) -> Value {
    let (kind, rest) = written.split_once(':').unwrap_or((written, ""));
    if kind == "ref" {
        return Value::Ref(object(rest));
    }
    if kind == "native" {
        return Value::Native(native(rest));
    }
    if kind == "wrap" {
        let (hidden, callee) = rest.split_once(':').unwrap_or((rest, ""));
        let hidden = HidId {
            number: hidden.parse().unwrap_or(0u32),
        };
        return match callee.strip_prefix("ref:") {
            Some(number) => Value::Wrap(hidden, Callee::Ref(object(number))),
            None => Value::Wrap(hidden, Callee::Native(native(callee))),
        };
    }
    match kind.parse::<i64>() {
        Ok(n) => Num::whole(i128::from(n)).map_or(Value::Undefined, Value::Num),
        Err(_) => Value::Undefined,
    }
}

fn object(number: &str) -> ObjId {
    ObjId {
        number: number.parse().unwrap_or(0u32),
    }
}

fn native(number: &str) -> NativeId {
    NativeId {
        number: number.parse().unwrap_or(0u32),
    }
}

/// A number, or that it is outside the profile.
pub fn told_number(alloc: Global, number: Option<Num>) -> Result<String, NoMemory> {
    match number {
        Some(number) => told_num(alloc, number),
        None => Ok(String::from_str(alloc, "range")?),
    }
}

fn told_num(alloc: Global, number: Num) -> Result<String, NoMemory> {
    let Num::Whole(n) = number else {
        return Ok(String::from_str(alloc, "NaN")?);
    };
    told_whole(alloc, n.get())
}

fn told_whole(alloc: Global, n: i64) -> Result<String, NoMemory> {
    Ok(format!(in alloc; "{n}")?)
}

/// A value as it is written in a case, a text as it is shown.
pub fn told_value(alloc: Global, value: &Value) -> Result<String, NoMemory> {
    match value {
        Value::Undefined => Ok(String::from_str(alloc, "undefined")?),
        Value::Null => Ok(String::from_str(alloc, "null")?),
        Value::Bool(b) => Ok(format!(in alloc; "{b}")?),
        Value::Num(n) => told_num(alloc, *n),
        Value::Text(t) => {
            let text = shown(alloc, t)?;
            Ok(format!(in alloc; "'{text}")?)
        }
        Value::Ref(o) => Ok(format!(in alloc; "ref:{}", o.number)?),
        Value::Native(n) => Ok(format!(in alloc; "native:{}", n.number)?),
        Value::Wrap(h, Callee::Ref(o)) => Ok(format!(in alloc;
            "wrap:{}:ref:{}",
            h.number, o.number
        )?),
        Value::Wrap(h, Callee::Native(n)) => Ok(format!(in alloc;
            "wrap:{}:{}",
            h.number, n.number
        )?),
    }
}
