// What a call comes to.
ghost use Rattle.std.specs.Prelude.{◌≡◌, ◌++◌, IfOk};
ghost use Rattle.js_heap.specs.Closed.{IsThere};
ghost use Rattle.js_term.specs.Calls as calls;

use js_heap::{Bound, Class, Code, Heap};
use js_host::{NativeCall, native_of};
use js_value::{Callee, NativeId, Value};
use mug_text::{Listed, NoMemory};
use std::alloc::Global;

/// What is called (ECMA-262 edition 5.1, 11.2.3).
#[derive(Clone, Copy, Debug)]
pub enum CalledFunction<'a> {
    /// A page's function.
    Page(Code),
    /// A bound function, which calls its target.
    Target(&'a Bound),
    Native(NativeId),
    /// It can't be called.
    Uncallable,
}

fn class_called(class: &Class) -> CalledFunction<'_>
    ensures { calls.called_as result ≡ calls.called_class class.now }
{
    match class {
        Class::Function(code) => CalledFunction::Page(*code),
        Class::Bound(bound) => CalledFunction::Target(bound),
        Class::Builtin(Some(native)) => CalledFunction::Native(*native),
        _ => CalledFunction::Uncallable,
    }
}

/// What a call of the value calls; a wrap is called as what it wraps is.
pub fn called_function<'a>(heap: &'a Heap, f: &Value) -> CalledFunction<'a>
    requires { IsThere heap.now f.now }
    ensures { calls.called_as result ≡ calls.called heap.now f.now }
{
    match f {
        Value::Ref(object) | Value::Wrap(_, Callee::Ref(object)) => {
            class_called(heap.class(*object))
        }
        Value::Native(native) | Value::Wrap(_, Callee::Native(native)) => {
            CalledFunction::Native(*native)
        }
        _ => CalledFunction::Uncallable,
    }
}

/// Whether a native may not be called so, as a function or by `new`.
pub fn is_refused(native: NativeId, by_new: bool) -> bool
    ensures { result ≡ calls.is_refused native by_new }
{
    match native_of(native) {
        Some(row) => row.construct.refuses(by_new),
        None => true,
    }
}

// These values, behind those.
fn joined(mut all: Listed<Value>, others: &Listed<Value>) -> Result<Listed<Value>, NoMemory>
    ensures { IfOk result (λ vs. vs ≡ all ++ others.now) }
{
    for value in others.as_slice() {
        all.push(value.copy()?)?;
    }
    Ok(all)
}

/// The call of a bound function's target: with its `this`, and its arguments before these
/// (15.3.4.5.1).
pub fn target_call(
    alloc: Global,
    bound: &Bound,
    arguments: &Listed<Value>,
) -> Result<NativeCall, NoMemory>
    ensures { IfOk result (λ c. c ≡ calls.target_call bound.now arguments.now) }
{
    let bound_arguments = joined(Listed::new(alloc), &bound.args)?;
    Ok(NativeCall {
        construct: false,
        this: bound.this.copy()?,
        args: joined(bound_arguments, arguments)?,
    })
}
