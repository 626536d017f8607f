// The cases.
use crate::hosts;
use crate::lines::{uncaught, value_shown};
use crate::nodes::script_of;
use crate::run::{Run, last};
use crate::words::{first_word, shown, value};
use js_heap::Heap;
use js_term::{
    Begun, CalledFunction, Completion, Operand, Operands, begin, called_function, target_call,
};
use js_tree::Script;
use js_value::Value;
use mug_text::{JText, Listed, NoMemory};
use std::alloc::Global;
use written_text::written_text;

/// The answer to a case: a word for what is asked, and behind it what it is asked of.
pub fn answer(alloc: Global, line: &str) -> Result<String, NoMemory> {
    let (word, given) = first_word(line);
    let mut heap = Heap::new(alloc)?;
    match word {
        "begin" => begun(alloc, &heap, &script_of(alloc, given)?),
        "run" => Run::new(alloc).run(alloc, &script_of(alloc, given)?, &mut heap),
        "break" | "continue" => label(alloc, word, given),
        "host" => hosts::told(alloc, &mut heap),
        _ => of_value(alloc, &mut heap, word, given),
    }
}

fn word(alloc: Global, word: &str) -> Result<String, NoMemory> {
    Ok(String::from_str(alloc, word)?)
}

fn of_value(alloc: Global, heap: &mut Heap, asked: &str, given: &str) -> Result<String, NoMemory> {
    let Some(value) = value(alloc, heap, given)? else {
        return word(alloc, "not there");
    };
    match asked {
        "shown" => value_shown(alloc, heap, &value),
        "uncaught" => uncaught(alloc, heap, &value),
        "called" => called(alloc, heap, &value),
        "return" => told(alloc, heap, Completion::Return(value).copy()?),
        "throw" => told(alloc, heap, Completion::Throw(value).copy()?),
        _ => word(alloc, "no case"),
    }
}

// The copy of a completion with a label, if one is given.
fn label(alloc: Global, word: &str, given: &str) -> Result<String, NoMemory> {
    let label = match given {
        "" => None,
        _ => Some(written_text(alloc, given)?),
    };
    let heap = Heap::new(alloc)?;
    let completion = match word {
        "break" => Completion::Break(label),
        _ => Completion::Continue(label),
    };
    told(alloc, &heap, completion.copy()?)
}

fn told_label(alloc: Global, word: &str, label: &Option<JText>) -> Result<String, NoMemory> {
    match label {
        Some(label) => Ok(format!(in alloc; "{} {}", word, shown(alloc, label)?)?),
        None => Ok(String::from_str(alloc, word)?),
    }
}

fn told(alloc: Global, heap: &Heap, completion: Completion) -> Result<String, NoMemory> {
    match completion {
        Completion::Break(label) => told_label(alloc, "break", &label),
        Completion::Continue(label) => told_label(alloc, "continue", &label),
        Completion::Return(value) => {
            Ok(format!(in alloc; "return {}", value_shown(alloc, heap, &value)?)?)
        }
        Completion::Throw(value) => {
            Ok(format!(in alloc; "throw {}", value_shown(alloc, heap, &value)?)?)
        }
    }
}

// What a call of the value comes to; of a bound function with one argument more.
fn called(alloc: Global, heap: &Heap, value: &Value) -> Result<String, NoMemory> {
    if !heap.is_there(value) {
        return word(alloc, "not there");
    }
    match called_function(heap, value) {
        CalledFunction::Page(code) => Ok(format!(in alloc; "page {} {}", code.text, code.node)?),
        CalledFunction::Target(bound) => {
            let mut arguments = Listed::new(alloc);
            arguments.push(Value::Bool(true))?;
            let call = target_call(alloc, bound, &arguments)?;
            let f = value_shown(alloc, heap, &bound.f)?;
            let this = value_shown(alloc, heap, &call.this)?;
            Ok(format!(in alloc; "target {} {} {}", f, this, call.args.len())?)
        }
        CalledFunction::Native(id) => Ok(format!(in alloc; "native {}", id.number)?),
        CalledFunction::Uncallable => word(alloc, "uncallable"),
    }
}

fn told_operand(alloc: Global, heap: &Heap, operand: &Operand) -> Result<String, NoMemory> {
    match operand {
        Operand::Value(value) => value_shown(alloc, heap, value),
        Operand::Node(id) => Ok(format!(in alloc; "@{}", id.number)?),
    }
}

// The operands to come, each behind a space: each takes null, then the values come again.
fn told_operands(alloc: Global, heap: &Heap, mut operands: Operands) -> Result<String, NoMemory> {
    let mut told = String::new(alloc);
    for _ in 0..100 {
        let operand = match operands.next() {
            Some(operand) => told_operand(alloc, heap, operand)?,
            None => break,
        };
        told.push(' ')?;
        told.push_str(operand.as_str())?;
        operands.take(Value::Null);
    }
    let count = operands.value_count();
    operands.turn_back(count / 2);
    let left = operands.values(alloc)?.len();
    Ok(format!(in alloc; "{told}, {left} of {count}")?)
}

// What the last node begins as.
fn begun(alloc: Global, heap: &Heap, script: &Script) -> Result<String, NoMemory> {
    let id = last(script);
    if id.number as usize >= script.count() {
        return word(alloc, "no node");
    }
    match begin(alloc, script, id)? {
        Begun::Value(value) => Ok(format!(in alloc;
            "value {}",
            value_shown(alloc, heap, &value)?
        )?),
        Begun::Operands(operands) => {
            Ok(format!(in alloc; "operands{}", told_operands(alloc, heap, operands)?)?)
        }
    }
}
