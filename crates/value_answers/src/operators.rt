// Cases of operators.
ghost use Rattle.js_value.specs.Image.{IsPrimitive};

use crate::answer::no_case;
use crate::values::{both, told_number, told_value, written_value};
use js_ops::{
    AddThrow, Arith, Bits, Equality, RangeThrow, add, arith, bits, equal, less, to_int32,
    to_integer, to_number, to_text, to_uint32,
};
use js_value::Value;
use mug_text::NoMemory;
use std::alloc::Global;

/// The answer to a case of an operator: all but `==` have primitive operands.
pub fn answer(alloc: Global, word: &str, given: &str) -> Result<String, NoMemory> {
    if word == "number_of" || word == "text_of" {
        let value = written_value(alloc, given)?;
        if !value.is_primitive() {
            return no_case(alloc);
        }
        return converted(alloc, word, &value);
    }
    let (a, b) = both(alloc, given)?;
    if word == "==" {
        return equality(alloc, &a, &b);
    }
    if !a.is_primitive() || !b.is_primitive() {
        return no_case(alloc);
    }
    if word == "+" {
        return joined(alloc, &a, &b);
    }
    if let Some(op) = arith_of(word) {
        return told(alloc, arith(op, &a, &b));
    }
    if let Some(op) = bits_of(word) {
        return told(alloc, bits(op, &a, &b));
    }
    compared(alloc, word, &a, &b)
}

// The number or the text of a value.
fn converted(alloc: Global, word: &str, value: &Value) -> Result<String, NoMemory>
    requires { IsPrimitive value.now }
{
    if word == "text_of" {
        return told_value(alloc, &Value::Text(to_text(alloc, value)?));
    }
    let Ok(number) = to_number(value) else {
        return range(alloc);
    };
    let shown = told_number(alloc, Some(number))?;
    let integer = to_integer(number).get();
    let signed = to_int32(number);
    let unsigned = to_uint32(number);
    Ok(format!(in alloc; "{shown} {integer} {signed} {unsigned}")?)
}

fn joined(alloc: Global, a: &Value, b: &Value) -> Result<String, NoMemory>
    requires left { IsPrimitive a.now }
    requires right { IsPrimitive b.now }
{
    match add(alloc, a, b) {
        Ok(value) => told_value(alloc, &value),
        Err(AddThrow::Range) => range(alloc),
        Err(AddThrow::NoMemory) => Err(NoMemory),
    }
}

fn compared(alloc: Global, word: &str, a: &Value, b: &Value) -> Result<String, NoMemory>
    requires left { IsPrimitive a.now }
    requires right { IsPrimitive b.now }
{
    if word == "<" {
        return match less(a, b) {
            Ok(is) => Ok(format!(in alloc; "{is:?}")?),
            Err(RangeThrow) => range(alloc),
        };
    }
    no_case(alloc)
}

// The answer, or the side that is converted first, and how.
fn equality(alloc: Global, a: &Value, b: &Value) -> Result<String, NoMemory> {
    match equal(a, b) {
        Ok(Equality::Is(are)) => Ok(format!(in alloc; "{are}")?),
        Ok(Equality::Converts(side, hint)) => Ok(format!(in alloc; "{side:?} {hint:?}")?),
        Err(RangeThrow) => range(alloc),
    }
}

fn told(alloc: Global, outcome: Result<Value, RangeThrow>) -> Result<String, NoMemory> {
    match outcome {
        Ok(value) => told_value(alloc, &value),
        Err(RangeThrow) => range(alloc),
    }
}

// A RangeError.
fn range(alloc: Global) -> Result<String, NoMemory> {
    Ok(String::from_str(alloc, "range")?)
}

fn arith_of(word: &str) -> Option<Arith> {
    match word.as_bytes() {
        b"-" => Some(Arith::Sub),
        b"*" => Some(Arith::Mul),
        b"/" => Some(Arith::Div),
        b"%" => Some(Arith::Rem),
        _ => None,
    }
}

fn bits_of(word: &str) -> Option<Bits> {
    match word.as_bytes() {
        b"&" => Some(Bits::Both),
        b"|" => Some(Bits::Either),
        b"^" => Some(Bits::Unlike),
        b"<<" => Some(Bits::Left),
        b">>" => Some(Bits::Right),
        b">>>" => Some(Bits::Zero),
        _ => None,
    }
}
